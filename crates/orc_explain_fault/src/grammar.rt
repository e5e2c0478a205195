//! What may stand where in a line of a test: a table of places, and the walk over a line by it.
//!
//! The grammar is that of docs/testing.md, *The text*. It is written down as a machine: at a place, the first entry of the tables whose test the next
//! piece passes says at which place the walk goes on. If none does, the piece can't stand there, and the place says what could. A piece is a name, a
//! number or a sign (`script.rt`); the line keeps which one is looked at. A search `near` is shown words one by one: `near.takes` says whether a word
//! is near to the one for which it searches, and nearer than all that it took before. Once memory is refused to it, it takes none.

use crate::script::{Kind, Line, Piece, is_in_range};
use crate::words::{CONSTANTS, is_one_of};
use orc_report::Near;
use orc_site::line::is_reserved_word;

/// A place in a line, between two pieces; `wanted` says in words what may follow at each.
#[derive(Clone, Copy, PartialEq, Eq)]
pub(crate) enum Place {
    /// The beginning of a line without a `=`.
    Line,
    /// Behind `case`: its name.
    CaseName,
    /// Behind a case's name: the end of the line.
    CaseEnd,
    /// Behind a whole line: its end.
    LineEnd,
    // Services.
    /// The beginning of a line with a `=`: the name of a site.
    Service,
    /// Behind a service's name: its `(`.
    Bracket,
    /// Behind a service's `(`: a pattern or `)`.
    Patterns,
    /// Behind a pattern.
    PatternEnd,
    /// Behind the `,` between two patterns.
    Pattern,
    /// Behind a service's `)`: its `=`.
    Equals,
    /// Behind `=`, `then` or `|`: an answer.
    Answer,
    /// Behind an answer that may have a time.
    Delay,
    /// Behind `after`: a number of units of time.
    Time,
    /// Behind the number of `after`: the `..` of a range, or what follows an answer.
    Range,
    /// Behind `..`: the range's second number.
    RangeEnd,
    /// Behind an answer with its time.
    AnswerEnd,
    /// Behind `in`: `each of N calls`.
    Each,
    /// Behind `in each`.
    EachOf,
    /// Behind `in each of`: the number of calls.
    Calls,
    /// Behind that number: `calls`.
    CallsEnd,
    // Claims.
    /// The beginning of a claim, also of the one behind `then` of a condition.
    Claim,
    /// Behind the `at` that begins a claim: `most` or `least`.
    Bound,
    /// Behind `at most`: a number.
    Most,
    /// Behind `at most N` and its event.
    MostEnd,
    /// Behind `at most N`, its event and `at`: `once`.
    Once,
    /// Behind `exactly` or `at least`: a number.
    Count,
    /// Behind `exactly N` or `at least N` and its event; also behind `ends Halted or Quiet`, where the same may follow.
    CountEnd,
    /// Behind `by` or `within`: a number of units of time.
    Units,
    /// Behind `no` and its event.
    NoneEnd,
    /// Behind `each` and its event.
    EachEnd,
    /// Behind `each .. then` and its second event.
    WithinEnd,
    /// Behind an event that begins a claim: `only after`.
    Only,
    /// Behind that `only`.
    OnlyAfter,
    /// Behind `if`: an event, or `no` and an event.
    Condition,
    /// Behind a condition: `then`.
    Then,
    /// Behind `ends`.
    Ends,
    /// Behind `ends Halted or`, or `ends Quiet or`: a second end.
    EndsMore,
    /// Behind `ends Halted` or `ends Quiet`.
    EndsEnd,
    /// Behind `publishes`.
    Values,
    /// Behind a value of `publishes`.
    ValuesEnd,
    /// Behind `publishes one`.
    OneOf,
    /// Behind `publishes one of`: its first value.
    Literals,
    /// Behind a value of `publishes one of`.
    LiteralsEnd,
    /// Behind the `in` of `in any order`.
    AnyOrder,
    /// Behind the `any` of `in any order`.
    Order,
    // Events.
    /// The beginning of an event, and behind the `or` between two.
    Event,
    /// Behind the word `published`.
    Published,
    /// Behind the name of a site: its `(`.
    Open,
    /// Behind that `(`: a slot or `)`. A slot is a value, `_` or a variable.
    Slots,
    /// Behind a slot.
    SlotEnd,
    /// Behind the `,` between two slots.
    Slot,
    /// Behind the `)` of a site: what happens to its call.
    CallEnd,
    /// Behind the word `answered`.
    Answered,
    /// Behind an event to which only `or` can be added.
    EventEnd,
}

/// What the next piece has to be.
#[derive(Clone, Copy)]
enum Test {
    /// This word or sign.
    Is(&'static [u8]),
    /// This word, and no bracket behind it, which would make it a site.
    Word(&'static [u8]),
    /// A name that isn't reserved.
    Name,
    /// A name that isn't reserved, with a bracket behind it.
    Site,
    /// A number in range without a sign.
    Digits,
    /// A value.
    Literal,
    /// A value or `_`.
    Pattern,
    /// A value, `_` or a variable.
    Slot,
    /// The end of the line.
    End,
    /// The beginning of an event; the walk stays before it.
    Begins,
    /// Anything; the walk stays before it. So it is the last entry of its place.
    Else,
}

/// Where a walk goes on.
#[derive(Clone, Copy)]
enum Next {
    /// At this place.
    To(Place),
    /// Through an event, and then at this place.
    Event(Place),
    /// Behind the event that it is in, at the place that `Event` gave.
    Back,
    /// Nowhere: the line ends here, and has one of the forms that the tables allow.
    Done,
}

/// An entry of the tables: a place, what may stand there, and where the walk goes on behind it. Entries of one place are tried in their order. It is
/// no way of a test's case, which is a choice among its services' answers.
type Way = (Place, Test, Next);

/// What a slot may be, in words.
const VALUE: &str = "a value, `_` or a variable";

/// What may stand where `Test::Digits` is, in words.
const NUMBER: &str = "a number: digits without a sign";

/// Words that may follow a value, so that no variable has their name.
const FOLLOWING: [&[u8]; 12] = [
    b"or",
    b"only",
    b"after",
    b"then",
    b"within",
    b"by",
    b"at",
    b"once",
    b"called",
    b"answered",
    b"halted",
    b"cancelled",
];

/// What may stand at the places in a service's line: at the first place, a piece that passes the test; then the walk goes on at the second place.
/// `Else` takes no piece. The numbers of calls in `in each of N calls` are 2 to 4.
const SERVICE_WAYS: [Way; 27] = [
    // A service's patterns in brackets, as `Pay(_, 1)`, and the `=` behind them.
    (Place::Bracket, Test::Is(b"("), Next::To(Place::Patterns)),
    (Place::Patterns, Test::Is(b")"), Next::To(Place::Equals)),
    (Place::Patterns, Test::Pattern, Next::To(Place::PatternEnd)),
    (Place::PatternEnd, Test::Is(b")"), Next::To(Place::Equals)),
    (Place::PatternEnd, Test::Is(b","), Next::To(Place::Pattern)),
    (Place::Pattern, Test::Pattern, Next::To(Place::PatternEnd)),
    (Place::Equals, Test::Is(b"="), Next::To(Place::Answer)),
    // An answer, as `never`, `halt` or `1`, and its time, as `after 3` or `after 0..5`.
    (
        Place::Answer,
        Test::Is(b"never"),
        Next::To(Place::AnswerEnd),
    ),
    (Place::Answer, Test::Is(b"halt"), Next::To(Place::Delay)),
    (Place::Answer, Test::Literal, Next::To(Place::Delay)),
    (Place::Delay, Test::Is(b"after"), Next::To(Place::Time)),
    (Place::Delay, Test::Else, Next::To(Place::AnswerEnd)),
    (Place::Time, Test::Digits, Next::To(Place::Range)),
    (Place::Range, Test::Is(b".."), Next::To(Place::RangeEnd)),
    (Place::Range, Test::Else, Next::To(Place::AnswerEnd)),
    (Place::RangeEnd, Test::Digits, Next::To(Place::AnswerEnd)),
    // What stands between two answers, and behind the last one: the end of the line, or `in each of 3 calls`.
    (Place::AnswerEnd, Test::Is(b"then"), Next::To(Place::Answer)),
    (Place::AnswerEnd, Test::Is(b"|"), Next::To(Place::Answer)),
    (Place::AnswerEnd, Test::Is(b"in"), Next::To(Place::Each)),
    (Place::AnswerEnd, Test::End, Next::Done),
    (Place::Each, Test::Is(b"each"), Next::To(Place::EachOf)),
    (Place::EachOf, Test::Is(b"of"), Next::To(Place::Calls)),
    (Place::Calls, Test::Is(b"2"), Next::To(Place::CallsEnd)),
    (Place::Calls, Test::Is(b"3"), Next::To(Place::CallsEnd)),
    (Place::Calls, Test::Is(b"4"), Next::To(Place::CallsEnd)),
    (
        Place::CallsEnd,
        Test::Is(b"calls"),
        Next::To(Place::LineEnd),
    ),
    // The line begins with the name of the service's site.
    (Place::Service, Test::Name, Next::To(Place::Bracket)),
];

/// What may stand at the places in an event: at the first place, a piece that passes the test; then the walk goes on at the second place. `Else`
/// takes no piece, and `Back` leads behind the event, into the claim.
const EVENT_WAYS: [Way; 20] = [
    // `published V`, where V is a slot: a value, `_` or a variable.
    (Place::Published, Test::Slot, Next::To(Place::EventEnd)),
    // The slots of a site, as `Pay(x, _)`.
    (Place::Open, Test::Is(b"("), Next::To(Place::Slots)),
    (Place::Slots, Test::Is(b")"), Next::To(Place::CallEnd)),
    (Place::Slots, Test::Slot, Next::To(Place::SlotEnd)),
    (Place::SlotEnd, Test::Is(b")"), Next::To(Place::CallEnd)),
    (Place::SlotEnd, Test::Is(b","), Next::To(Place::Slot)),
    (Place::Slot, Test::Slot, Next::To(Place::SlotEnd)),
    // What happens to the site's call: `called`, `answered V`, `halted` or `cancelled`. Without such a word the call alone is the event.
    (
        Place::CallEnd,
        Test::Is(b"called"),
        Next::To(Place::EventEnd),
    ),
    (
        Place::CallEnd,
        Test::Is(b"answered"),
        Next::To(Place::Answered),
    ),
    (
        Place::CallEnd,
        Test::Is(b"halted"),
        Next::To(Place::EventEnd),
    ),
    (
        Place::CallEnd,
        Test::Is(b"cancelled"),
        Next::To(Place::EventEnd),
    ),
    (Place::CallEnd, Test::Is(b"or"), Next::To(Place::Event)),
    (Place::CallEnd, Test::Else, Next::Back),
    (Place::Answered, Test::Slot, Next::To(Place::EventEnd)),
    (Place::Answered, Test::Is(b"or"), Next::To(Place::Event)),
    (Place::Answered, Test::Else, Next::Back),
    // Behind the whole event: another one behind `or`, or the claim goes on.
    (Place::EventEnd, Test::Is(b"or"), Next::To(Place::Event)),
    (Place::EventEnd, Test::Else, Next::Back),
    // The first word of an event: `published`, or a site with its bracket.
    (
        Place::Event,
        Test::Word(b"published"),
        Next::To(Place::Published),
    ),
    (Place::Event, Test::Site, Next::To(Place::Open)),
];

/// What may stand at the places in a claim on published values or on the run's end: at the first place, a piece that passes the test; then the walk
/// goes on at the second place. `Done` ends the line.
const OUTCOME_WAYS: [Way; 19] = [
    // `ends Halted by 9`, `ends Quiet`. Behind a second end (`ends Halted or Quiet`) the same may follow as behind a number of events.
    (Place::Ends, Test::Is(b"Halted"), Next::To(Place::EndsEnd)),
    (Place::Ends, Test::Is(b"Quiet"), Next::To(Place::EndsEnd)),
    (Place::EndsEnd, Test::Is(b"or"), Next::To(Place::EndsMore)),
    (Place::EndsEnd, Test::Is(b"by"), Next::To(Place::Units)),
    (Place::EndsEnd, Test::End, Next::Done),
    (
        Place::EndsMore,
        Test::Is(b"Halted"),
        Next::To(Place::CountEnd),
    ),
    (
        Place::EndsMore,
        Test::Is(b"Quiet"),
        Next::To(Place::CountEnd),
    ),
    // `publishes nothing`, `publishes 1 _` with `in any order` or without, and `publishes one of 1 2`.
    (
        Place::Values,
        Test::Is(b"nothing"),
        Next::To(Place::LineEnd),
    ),
    (Place::Values, Test::Is(b"one"), Next::To(Place::OneOf)),
    (Place::Values, Test::Pattern, Next::To(Place::ValuesEnd)),
    (Place::ValuesEnd, Test::Pattern, Next::To(Place::ValuesEnd)),
    (Place::ValuesEnd, Test::Is(b"in"), Next::To(Place::AnyOrder)),
    (Place::ValuesEnd, Test::End, Next::Done),
    (Place::OneOf, Test::Is(b"of"), Next::To(Place::Literals)),
    (Place::Literals, Test::Literal, Next::To(Place::LiteralsEnd)),
    (
        Place::LiteralsEnd,
        Test::Literal,
        Next::To(Place::LiteralsEnd),
    ),
    (Place::LiteralsEnd, Test::End, Next::Done),
    (Place::AnyOrder, Test::Is(b"any"), Next::To(Place::Order)),
    (Place::Order, Test::Is(b"order"), Next::To(Place::LineEnd)),
];

/// What may stand at the places in a claim, outside its events: at the first place, a piece that passes the test; then the walk goes on at the second
/// place. `Event` leads through an event before it.
const CLAIM_WAYS: [Way; 30] = [
    // The first word of a claim says which one it is.
    (Place::Claim, Test::Word(b"at"), Next::To(Place::Bound)),
    (Place::Claim, Test::Word(b"exactly"), Next::To(Place::Count)),
    (Place::Claim, Test::Word(b"no"), Next::Event(Place::NoneEnd)),
    (
        Place::Claim,
        Test::Word(b"each"),
        Next::Event(Place::EachEnd),
    ),
    (Place::Claim, Test::Word(b"if"), Next::To(Place::Condition)),
    (Place::Claim, Test::Word(b"ends"), Next::To(Place::Ends)),
    (
        Place::Claim,
        Test::Word(b"publishes"),
        Next::To(Place::Values),
    ),
    (Place::Claim, Test::Begins, Next::Event(Place::Only)),
    // `at most 1 A`, `at least 1 A` and `exactly 1 A`, where A is an event: by a time, or, of `at most`, `at once`.
    (Place::Bound, Test::Is(b"most"), Next::To(Place::Most)),
    (Place::Bound, Test::Is(b"least"), Next::To(Place::Count)),
    (Place::Most, Test::Digits, Next::Event(Place::MostEnd)),
    (Place::MostEnd, Test::Is(b"at"), Next::To(Place::Once)),
    (Place::MostEnd, Test::Is(b"by"), Next::To(Place::Units)),
    (Place::MostEnd, Test::End, Next::Done),
    (Place::Once, Test::Is(b"once"), Next::To(Place::LineEnd)),
    (Place::Count, Test::Digits, Next::Event(Place::CountEnd)),
    (Place::CountEnd, Test::Is(b"by"), Next::To(Place::Units)),
    (Place::CountEnd, Test::End, Next::Done),
    (Place::Units, Test::Digits, Next::To(Place::LineEnd)),
    // `no A`, `no A by 9` and `no A after B`.
    (
        Place::NoneEnd,
        Test::Is(b"after"),
        Next::Event(Place::LineEnd),
    ),
    (Place::NoneEnd, Test::Is(b"by"), Next::To(Place::Units)),
    (Place::NoneEnd, Test::End, Next::Done),
    // `each A then B`, and perhaps `within 9`.
    (
        Place::EachEnd,
        Test::Is(b"then"),
        Next::Event(Place::WithinEnd),
    ),
    (
        Place::WithinEnd,
        Test::Is(b"within"),
        Next::To(Place::Units),
    ),
    (Place::WithinEnd, Test::End, Next::Done),
    // `A only after B`.
    (Place::Only, Test::Is(b"only"), Next::To(Place::OnlyAfter)),
    (
        Place::OnlyAfter,
        Test::Is(b"after"),
        Next::Event(Place::LineEnd),
    ),
    // `if A then ..` and `if no A then ..`, with a claim behind `then`.
    (
        Place::Condition,
        Test::Word(b"no"),
        Next::Event(Place::Then),
    ),
    (Place::Condition, Test::Else, Next::Event(Place::Then)),
    (Place::Then, Test::Is(b"then"), Next::To(Place::Claim)),
];

/// What may stand at the places where a line begins or ends: at the first place, a piece that passes the test; then the walk goes on at the second
/// place. `Else` takes no piece.
const LINE_WAYS: [Way; 7] = [
    // The lines that begin sections; any other line without a `=` is a claim.
    (Place::Line, Test::Word(b"given"), Next::To(Place::LineEnd)),
    (Place::Line, Test::Word(b"always"), Next::To(Place::LineEnd)),
    (Place::Line, Test::Word(b"case"), Next::To(Place::CaseName)),
    (Place::Line, Test::Else, Next::To(Place::Claim)),
    (Place::CaseName, Test::Name, Next::To(Place::CaseEnd)),
    (Place::CaseEnd, Test::End, Next::Done),
    (Place::LineEnd, Test::End, Next::Done),
];

// What may follow at a place, in words. Where the walk may also go on without a piece (`Test::Else`) they end with `, ` or `or `, and the explanation
// writes those of the next place behind them. So the words of a place behind an event begin with `or` if no `or` stands within them; but not those of
// `LineEnd`, which is also elsewhere.
fn wanted(place: Place) -> &'static str {
    match place {
        Place::Bracket | Place::Open => "`(`",
        Place::Patterns => "a value, `_` or `)`",
        Place::PatternEnd | Place::SlotEnd => "`,` or `)`",
        Place::Pattern => "a value or `_`",
        Place::Equals => "`=`",
        Place::Answer => "an answer: a value, `halt` or `never`",
        Place::Delay => "`after`, ",
        Place::Time | Place::RangeEnd | Place::Most | Place::Count | Place::Units => NUMBER,
        Place::Range => "`..`, ",
        Place::AnswerEnd => "`then`, `|`, `in each of` or the end of the line",
        Place::Each => "`each of`",
        Place::EachOf | Place::OneOf => "`of`",
        Place::Calls => "2, 3 or 4",
        Place::CallsEnd => "`calls`",
        Place::Service => "the name of a site",
        Place::Published | Place::Slot => VALUE,
        Place::Slots => "a value, `_`, a variable or `)`",
        Place::CallEnd => "`called`, `answered`, `halted`, `cancelled`, `or`, ",
        Place::Answered => "a value, `_`, a variable, `or`, ",
        Place::EventEnd => "`or`, ",
        Place::Event => "an event: `NAME(..)` or `published V`",
        Place::Ends | Place::EndsMore => "`Halted` or `Quiet`",
        Place::EndsEnd => "`or`, `by` or the end of the line",
        Place::Values => "`nothing`, `one of`, or values",
        Place::ValuesEnd => "a value, `_`, `in any order` or the end of the line",
        Place::Literals => "a value",
        Place::LiteralsEnd => "a value or the end of the line",
        Place::AnyOrder => "`any order`",
        Place::Order => "`order`",
        Place::Claim =>
            "a claim (`at most`, `at least`, `exactly`, `no`, `each`, `if`, `ends`, `publishes`, or an event `only after` another)",
        Place::Bound => "`most` or `least`",
        Place::MostEnd => "`at once`, `by` or the end of the line",
        Place::Once => "`once`",
        Place::CountEnd => "`by` or the end of the line",
        Place::NoneEnd => "`after`, `by` or the end of the line",
        Place::EachEnd | Place::Then => "or `then`",
        Place::WithinEnd => "`within` or the end of the line",
        Place::Only => "or `only after`",
        Place::OnlyAfter => "`after`",
        Place::Condition => "`no` or ",
        Place::Line => "a service, `given`, `always`, `case NAME` or ",
        Place::CaseName => "the case's name",
        Place::CaseEnd | Place::LineEnd => "the end of the line",
    }
}

// The first entry of a table (`ways`) for a place whose test the piece that is looked at passes: its test, and where the walk goes on. None where
// there is none.
fn way_in(ways: &[Way], place: Place, line: &Line) -> Option<(Test, Next)> {
    for (from, test, next) in ways {
        if *from == place && takes(*test, line) {
            return Some((*test, *next));
        }
    }
    None
}

// The first entry of all tables for a place whose test the piece that is looked at passes: its test, and where the walk goes on. None where the piece
// can't stand there. No place is in two tables, so the order of the tables doesn't matter.
fn way(place: Place, line: &Line) -> Option<(Test, Next)> {
    way_in(LINE_WAYS.as_slice(), place, line)
        .or(way_in(SERVICE_WAYS.as_slice(), place, line))
        .or(way_in(CLAIM_WAYS.as_slice(), place, line))
        .or(way_in(OUTCOME_WAYS.as_slice(), place, line))
        .or(way_in(EVENT_WAYS.as_slice(), place, line))
}

// Whether a piece is digits, in the range of values.
fn is_digits(piece: Piece) -> bool {
    match piece.text {
        [b'0'..=b'9', ..] => is_in_range(piece.text),
        _ => false,
    }
}

// Whether a piece is a value.
fn is_literal(piece: Piece) -> bool {
    match piece.kind {
        Kind::Number => is_in_range(piece.text),
        _ => is_one_of(piece.text, CONSTANTS.as_slice()),
    }
}

// Whether a piece is a value or `_`.
fn is_pattern(piece: Piece) -> bool {
    piece.is(b"_") || is_literal(piece)
}

// Whether a piece is a variable: it begins with a small letter, and isn't a word that may follow a value. True of `true`, `false` and `signal` too:
// where a variable may stand a value may as well.
fn is_variable(piece: Piece) -> bool {
    match piece.text {
        [b'a'..=b'z', ..] => !is_one_of(piece.text, FOLLOWING.as_slice()),
        _ => false,
    }
}

// Whether a piece is the name of a site that may be called.
fn is_name(piece: Piece) -> bool {
    piece.kind == Kind::Name && !is_reserved_word(piece.text)
}

// Whether the piece of the line that is looked at passes a test. A `(` behind a word makes that word the name of a site.
fn takes(test: Test, line: &Line) -> bool {
    let here = line.here();
    let is_called = line.next().is(b"(");
    match test {
        Test::Is(word) => here.is(word),
        Test::Word(word) => here.is(word) && !is_called,
        Test::Name => is_name(here),
        Test::Site => is_name(here) && is_called,
        Test::Digits => is_digits(here),
        Test::Literal => is_literal(here),
        Test::Pattern => is_pattern(here),
        Test::Slot => is_pattern(here) || is_variable(here),
        Test::End => here.kind == Kind::End,
        Test::Begins => is_called || here.is(b"published"),
        Test::Else => true,
    }
}

/// A walk over a line, up to the first piece that can't stand where it stands.
#[derive(Clone, Copy)]
pub(crate) struct Walk {
    /// Where it is, and has stopped in the end.
    pub place: Place,
    /// The place before it, if the walk went on from there without a piece (`Test::Else`): what may follow there may follow here too.
    pub before: Option<Place>,
    // Where the walk goes on behind the event that it is in. Not used before the first event.
    behind: Place,
}

impl Walk {
    /// Walks over a line, up to the first piece that can't stand where it stands, and leaves the line at that piece. None if each piece can.
    pub(crate) fn over(line: &mut Line) -> Option<Walk> {
        // Services have a `=`, and no other line has.
        let has_equals = line.pieces.iter().any(|piece| piece.is(b"="));
        let mut walk = Walk {
            place: if has_equals {
                Place::Service
            } else {
                Place::Line
            },
            before: None,
            behind: Place::LineEnd,
        };
        // A piece, or the end, is looked at from three places at most, so no walk takes more steps.
        for _step in 0..line.pieces.len().saturating_add(1).saturating_mul(3) {
            let Some((test, next)) = way(walk.place, line) else {
                return Some(walk);
            };
            if matches!(next, Next::Done) {
                return None;
            }
            walk.step(line, test, next);
        }
        // Not reached: the walk has returned by then.
        None
    }

    // Goes on by an entry of the tables whose test the piece that is looked at passes: behind the piece, unless the test leaves it for the next
    // place, and to the place that `next` says.
    fn step(&mut self, line: &mut Line, test: Test, next: Next) {
        // What may follow at a place that the walk leaves by `Else`, without a piece, is said together with what may follow at the next one.
        self.before = match test {
            Test::Else => Some(self.place),
            _ => None,
        };
        if !matches!(test, Test::Else | Test::Begins) {
            line.go();
        }
        match next {
            Next::To(place) => self.place = place,
            Next::Event(behind) => {
                self.place = Place::Event;
                self.behind = behind;
            }
            // `Done` doesn't come here: `over` has returned.
            Next::Back | Next::Done => self.place = self.behind,
        }
    }

    /// What may follow where the walk ended, in words, in two parts: what may follow at the place before, empty unless the walk came here by
    /// `Test::Else`, and what may follow at this place.
    pub(crate) fn wanted(&self) -> (&'static str, &'static str) {
        let before = match self.before {
            Some(place) => wanted(place),
            None => "",
        };
        (before, wanted(self.place))
    }

    /// The word that may stand where the walk ended and is nearest to the word for which `near` searches; empty where none is near.
    pub(crate) fn near_word(&self, near: &mut Near) -> &'static [u8] {
        let nearest = match self.before {
            Some(place) => nearest_way(near, place, b""),
            None => b"",
        };
        nearest_way(near, self.place, nearest)
    }
}

// The word nearest to the one for which `near` searches, of those that a table (`ways`) has at a place, if the search takes one; otherwise `nearest`,
// the nearest that it took before.
fn nearest_in(
    near: &mut Near,
    ways: &[Way],
    place: Place,
    nearest: &'static [u8],
) -> &'static [u8] {
    let mut found = nearest;
    for (from, test, _next) in ways {
        if let Test::Is(word) | Test::Word(word) = *test {
            if *from == place && near.takes(word) {
                found = word;
            }
        }
    }
    found
}

// The word nearest to the one for which `near` searches, of those that all tables have at a place, if the search takes one; otherwise `nearest`, the
// nearest that it took before.
fn nearest_way(near: &mut Near, place: Place, nearest: &'static [u8]) -> &'static [u8] {
    let found = nearest_in(near, LINE_WAYS.as_slice(), place, nearest);
    let found = nearest_in(near, SERVICE_WAYS.as_slice(), place, found);
    let found = nearest_in(near, CLAIM_WAYS.as_slice(), place, found);
    let found = nearest_in(near, OUTCOME_WAYS.as_slice(), place, found);
    nearest_in(near, EVENT_WAYS.as_slice(), place, found)
}
