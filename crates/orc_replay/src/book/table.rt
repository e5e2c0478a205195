//! The rows: what each shows, in the words that `orc_replay` writes for it.
//!
//! The entries in a row's steps are those that Orc's rules allow of its program. A token gets the next mark, a call and a cell the next number, each
//! from 1; of two tokens that come at once the left one has the lower mark. A line names the token that moves (a `return` the call), then a cell or
//! call and the new marks. Of a row's steps `Does` has the book do such lines. `Step` says what the others do, or what has to be so then. Some take a
//! token, or passes that are to be left, into the row's *hand*. A *group* is what runs in one right side of a `<x<`, one left side of a `;`, or the
//! whole program; a *pass* stands for one record in its group, and the group's *word* counts its passes.

use crate::book::hand::{Call, Left};
use crate::book::rows::{Row, Shows, Step};
use crate::book::setup::{PASSES, WORDS};
use orc_book::{BookFault, Next};
use orc_rules::limits::MOST_ENTRIES;
use orc_rules::value::{Answer, Value};

// The answer `signal`, as `Rwait` gives it.
const SIGNAL: Answer = Answer::Value(Value::Signal);

// The answer 5, which `Rwait` never gives.
const FIVE: Answer = Answer::Value(Value::Number(5));

// The limit of a row that names none: the greatest that there is.
const LIMIT: usize = MOST_ENTRIES as usize;

// A row whose book has the usual numbers of words and passes and the greatest limit of entries. `source` is the program, `script` its script.
fn row(name: &'static str, source: &'static str, script: &'static str, shows: Shows) -> Row {
    Row {
        name,
        source,
        script,
        limit: LIMIT,
        words: WORDS,
        passes: PASSES,
        shows,
    }
}

// A row of a book with this limit of entries, cancels not counted. It has no script.
fn limited(name: &'static str, source: &'static str, limit: usize, shows: Shows) -> Row {
    Row {
        name,
        source,
        script: "",
        limit,
        words: WORDS,
        passes: PASSES,
        shows,
    }
}

// A row of a book with this many words (one for each group that it has at a time) and passes (one for each record in a group). It has no script.
fn with_words(
    name: &'static str,
    source: &'static str,
    words: u32,
    passes: u32,
    shows: Shows,
) -> Row {
    Row {
        name,
        source,
        script: "",
        limit: LIMIT,
        words,
        passes,
        shows,
    }
}

// `g(x) <x< 10` has cell 1, and `Add(a, x) <x< 1` in the body of g cell 2. Token 5 is at `Add(a, x)`: its `a` is cell 1 and its `x` cell 2. The book
// keeps the token until both cells are bound. Then it is out again and can move, so the run hasn't ended yet.
const WAITS_FOR_TWO: [Step; 9] = [
    Step::Does("open 1 1 2 3\ndef 2 4\nopen 4 2 5 6\n"),
    Step::Keeps(5),
    Step::Does("bind 6 2 1\n"),
    Step::Keeps(5),
    Step::Does("bind 3 1 10\n"),
    Step::IsOut(5),
    Step::HasEnded(false),
    Step::Does("call 5 1 Add(10, 1)\nreturn 1 7 11\npublish 7 11\n"),
    Step::HasEnded(true),
];

// The program is `(Rwait(3) >> Ift(false)) ; 9`. Call 1, `Rwait(3)`, is due at time 3 and answers a signal. Before that time, and with 5, an answer
// is refused as Wrong; a second answer is refused as Gone. At time 3 time doesn't go on before the signal is returned (`Next::Work`). `Ift(false)`
// halts, so the otherwise goes to its right side, 9.
const IS_DUE: [Step; 13] = [
    Step::Does("other 1 2\nseq 2 3\ncall 3 1 Rwait(3)\n"),
    Step::Refuses(1, SIGNAL, BookFault::Wrong),
    Step::Due(None),
    Step::Now(0),
    Step::Does("tick 3\n"),
    Step::Now(3),
    Step::Due(Some(1)),
    Step::Next(Next::Work),
    Step::Refuses(1, FIVE, BookFault::Wrong),
    Step::Does("return 1 4 signal\nsend 4 5 signal\ncall 5 2 Ift(false)\nreturn 2 halt\n"),
    Step::Refuses(1, SIGNAL, BookFault::Gone),
    Step::Does("right 1 6\npublish 6 9\n"),
    Step::HasEnded(true),
];

// In `(1 | 2) >x> Add(x, 10)` the 1 goes through the `>x>` and is published as 11 before the 2 is sent. The rules allow this order.
const TWO_VALUES: [Step; 2] = [
    Step::Does(
        "seq 1 2\nfork 2 3 4\nsend 3 5 1\ncall 5 1 Add(1, 10)\nreturn 1 6 11\npublish 6 11\nsend 4 7 2\ncall 7 2 Add(2, 10)\nreturn 2 8 12\npublish 8 12\n",
    ),
    Step::HasEnded(true),
];

// In `x <x< (1 | 2)` token 4 has the value 1, token 5 the value 2: either may bind cell 1, for which token 2 waits. Here token 4 does, so token 2
// publishes 1.
const BINDS_LEFT: [Step; 2] = [
    Step::Does("open 1 1 2 3\nfork 3 4 5\nbind 4 1 1\npublish 2 1\n"),
    Step::HasEnded(true),
];

// In `x <x< (1 | 2)` token 5 binds cell 1, with the value 2. Token 2, which waits for the cell, publishes 2.
const BINDS_RIGHT: [Step; 2] = [
    Step::Does("open 1 1 2 3\nfork 3 4 5\nbind 5 1 2\npublish 2 2\n"),
    Step::HasEnded(true),
];

// In `(1 ; 2) >x> Add(x, 1)` token 3, in the left side of the otherwise, publishes the 1. So the right side never starts, and no entry says that the
// left side ends.
const LEAVES_LEFT_SIDE: [Step; 2] = [
    Step::Does("seq 1 2\nother 2 3\nsend 3 4 1\ncall 4 1 Add(1, 1)\nreturn 1 5 2\npublish 5 2\n"),
    Step::HasEnded(true),
];

// In `N() | (x <x< (N() | ((N() ; 2) | ((y <y< N()) | 1))))` call 1 is outside the pruning of cell 1. Inside its right side are calls 3 (beside), 4
// (in an otherwise) and 2 (in a pruning), made in another order than they stand in the program. The bind cancels these three in the order of their
// numbers. Without the cancels the journal has 13 entries. Call 1 is never answered, so the run is quiet in the end and hasn't halted.
const CANCELS: [Step; 6] = [
    Step::Does("fork 1 2 3\ncall 2 1 N()\nopen 3 1 4 5\nfork 5 6 7\nfork 7 8 9\nfork 9 10 11\n"),
    Step::Does("other 8 12\nopen 10 2 13 14\ncall 14 2 N()\ncall 6 3 N()\ncall 12 4 N()\n"),
    Step::Does("bind 11 1 1\ncancel 2\ncancel 3\ncancel 4\npublish 4 1\n"),
    Step::Entries(13),
    Step::HasEnded(false),
    Step::Next(Next::Quiet),
];

// In `x <x< (Rwait(2) >> 20 | Rwait(1) >> 10)` the second wait is over first: its token binds 10, which cancels call 1. The journal has 11 entries
// and that cancel, and its row's limit is 11.
const CANCELS_AT_THE_LIMIT: [Step; 4] = [
    Step::Does(
        "open 1 1 2 3\nfork 3 4 5\nseq 4 6\nseq 5 7\ncall 6 1 Rwait(2)\ncall 7 2 Rwait(1)\n",
    ),
    Step::Does("tick 1\nreturn 2 8 signal\nsend 8 9 signal\nbind 9 1 10\ncancel 1\npublish 2 10\n"),
    Step::Entries(11),
    Step::HasEnded(true),
];

// In `x <x< (1 | Add(2, 3))` call 1, of `Add(2, 3)`, is due at once, until token 4, at the 1, binds and so cancels it.
const IS_CANCELLED: [Step; 6] = [
    Step::Does("open 1 1 2 3\nfork 3 4 5\ncall 5 1 Add(2, 3)\n"),
    Step::Due(Some(1)),
    Step::Does("bind 4 1 1\ncancel 1\n"),
    Step::Due(None),
    Step::Does("publish 2 1\n"),
    Step::HasEnded(true),
];

// In `x <x< (Rwait(0) | 1)` token 1 opens cell 1, with token 2 in the left side and 3 in the right one. Token 3 forks to 4 and 5, and token 4 makes
// call 1. Token 5, at the 1, binds while call 1 pends. Two passes are to be left, that of the token and that of the call: until then one killed group
// uses a word. The bind cancels call 1, so the book refuses its answer as Gone. The second pass that is left is the group's last one. To close the
// group adds no entry, and gives the pass to the group outside it that the book held for it. Token 2 has waited for cell 1, and now it can publish.
// Once that pass is left, and that of token 2, the run has halted.
const ENDS_AFTER_A_KILL: [Step; 19] = [
    Step::Does("open 1 1 2 3\nfork 3 4 5\ncall 4 1 Rwait(0)\n"),
    Step::Takes(5),
    Step::Binds,
    Step::Wrote("bind 5 1 1\ncancel 1\n"),
    Step::ToLeave(2),
    Step::Cancelled(&[1]),
    Step::Dying(1),
    Step::Refuses(1, SIGNAL, BookFault::Gone),
    Step::Leaves(1, Left::Nothing),
    Step::Leaves(0, Left::Killed),
    Step::ToLeave(1),
    Step::IsOfRun,
    Step::Wakes(1),
    Step::Takes(2),
    Step::Publishes,
    Step::Wrote("publish 2 1\n"),
    Step::Leaves(0, Left::Nothing),
    Step::Leaves(0, Left::Run),
    Step::ToLeave(0),
];

// In `x <x< 1` token 3, at the 1, is to bind. The book refuses the bind as Gone if the group's mark *killed* was won before: it adds nothing, and the
// token comes back.
const GIVES_A_LOST_MARK_BACK: [Step; 4] = [
    Step::Does("open 1 1 2 3\n"),
    Step::Takes(3),
    Step::Wins,
    Step::Denies(Call::Bind, BookFault::Gone),
];

// With two words, one of which a killed group has: the book refuses a pruning as Full until that group's last pass was left and the book has closed
// it. The first pruning of `(x <x< 1) >y> (z <z< 2)` takes word 1, the only one beside the program's own. Token 3 is in its left side. Token 4, at
// the 1, binds its cell. Token 3 has waited for cell 1, and sends its value into the `>y>`. Token 5 is at the second pruning, for which no word is
// free as long as the pass of token 4, which has bound, isn't left.
const KEEPS_WORDS_OF_THE_KILLED: [Step; 13] = [
    Step::Does("seq 1 2\nopen 2 1 3 4\n"),
    Step::Takes(4),
    Step::Binds,
    Step::Wrote("bind 4 1 1\n"),
    Step::Wakes(1),
    Step::Does("send 3 5 1\n"),
    Step::Takes(5),
    Step::Denies(Call::Prune, BookFault::Full),
    Step::Dying(1),
    Step::ToLeave(1),
    Step::Leaves(0, Left::Killed),
    Step::Holds,
    Step::Does("open 5 2 6 7\n"),
];

// In `x <x< (1 | 2)` token 4 binds while token 5 is out and in the hand, so the bind drops the record of token 5. The book refuses a bind of token 5
// as Gone, and the token comes back with its pass. The killed group's word stays taken until that pass is left.
const TELLS_KILLED_TOKENS: [Step; 8] = [
    Step::Does("open 1 1 2 3\nfork 3 4 5\n"),
    Step::Takes(5),
    Step::Does("bind 4 1 1\n"),
    Step::IsGone,
    Step::Denies(Call::Bind, BookFault::Gone),
    Step::Dying(1),
    Step::Drops,
    Step::Leaves(0, Left::Killed),
];

// In `(Add(x, 1) <x< stop) ; 7` the left side of the otherwise yields nothing: token 3, at `Add(x, 1)`, waits for cell 1, until token 4, at `stop`,
// has ended and the cell is lost. Then token 3 can't get a value. The book doesn't close the program's own group while token 5, at the 7, is in it,
// and does once that token has published.
const IS_LIVE: [Step; 12] = [
    Step::Does("other 1 2\nopen 2 1 3 4\n"),
    Step::Keeps(3),
    Step::Does("end 4\n"),
    Step::Keeps(3),
    Step::Does("lost 1\n"),
    Step::IsOut(3),
    Step::Does("void 3\nright 1 5\n"),
    Step::Takes(5),
    Step::LeavesEarly,
    Step::Publishes,
    Step::Wrote("publish 5 7\n"),
    Step::Leaves(0, Left::Run),
];

// In `(1 | 2) >x> Add(x, 10)` token 1 is at the `>x>` and can only enter it: the book refuses these other calls as Wrong, adds nothing, and gives the
// token back. Then the token goes on.
const REFUSES_OTHER_MOVES: [Step; 12] = [
    Step::Takes(1),
    Step::Denies(Call::End, BookFault::Wrong),
    Step::Denies(Call::Publish, BookFault::Wrong),
    Step::Denies(Call::Site, BookFault::Wrong),
    Step::Denies(Call::Wait, BookFault::Wrong),
    Step::Denies(Call::Bind, BookFault::Wrong),
    Step::Denies(Call::Fork, BookFault::Wrong),
    Step::Denies(Call::Prune, BookFault::Wrong),
    Step::Entries(0),
    Step::ToLeave(0),
    Step::Holds,
    Step::Does("seq 1 2\n"),
];

// In `x <x< 1` a pass that no record has names word 1, which the book would take next for a group. The book refuses the pruning as Live then, and
// does it once that pass was left. To close that word is refused as Gone, since the word stands for no group.
const REFUSES_WORDS_THAT_ARE_NAMED: [Step; 7] = [
    Step::NamesNext,
    Step::Takes(1),
    Step::Denies(Call::Prune, BookFault::Live),
    Step::Entries(0),
    Step::Leaves(0, Left::Stranger),
    Step::Holds,
    Step::Does("open 1 1 2 3\n"),
];

// A program that several rows have, a pipeline: each of two values goes through a call.
const PIPE: &str = "(1 | 2) >x> Add(x, 10)";

// A program that several rows have, a race: the first of two values to come binds the cell of x.
const RACE: &str = "x <x< (1 | 2)";

/// All rows. Each has its name, its program, its script (empty if no site of a script is called) and what it shows. `limited` also takes the limit of
/// entries, `with_words` the numbers of words and of passes.
pub(crate) fn rows() -> [Row; 21] {
    [
        row(
            "a token that waits for two cells goes on when the second one is bound",
            "def g(a) = Add(a, x) <x< 1\ng(x) <x< 10",
            "",
            Shows::Steps(&WAITS_FOR_TWO),
        ),
        row(
            "a lost cell starts the right side of an otherwise, and the program's group isn't closed before it is empty",
            "(Add(x, 1) <x< stop) ; 7",
            "",
            Shows::Steps(&IS_LIVE),
        ),
        row(
            "a call is answered once it is due, by the table's answer alone",
            "(Rwait(3) >> Ift(false)) ; 9",
            "",
            Shows::Steps(&IS_DUE),
        ),
        row(
            "two values go through a >x>",
            PIPE,
            "",
            Shows::Steps(&TWO_VALUES),
        ),
        row(
            "the left one of two tokens binds a cell",
            RACE,
            "",
            Shows::Steps(&BINDS_LEFT),
        ),
        row(
            "the right one of two tokens binds a cell",
            RACE,
            "",
            Shows::Steps(&BINDS_RIGHT),
        ),
        row(
            "a publication leaves the left side of an otherwise, which goes without an entry",
            "(1 ; 2) >x> Add(x, 1)",
            "",
            Shows::Steps(&LEAVES_LEFT_SIDE),
        ),
        row(
            "a killed group ends with the second of two passes, and the run with the second of two more",
            "x <x< (Rwait(0) | 1)",
            "",
            Shows::Steps(&ENDS_AFTER_A_KILL),
        ),
        row(
            "a bind whose mark was won before is refused and adds nothing",
            "x <x< 1",
            "",
            Shows::Steps(&GIVES_A_LOST_MARK_BACK),
        ),
        // There are two words: word 1 is the only one for the two prunings. The row needs far fewer than 100 passes.
        with_words(
            "a killed group's word is taken until its last pass is left",
            "(x <x< 1) >y> (z <z< 2)",
            2,
            100,
            Shows::Steps(&KEEPS_WORDS_OF_THE_KILLED),
        ),
        row(
            "a token that was out in a killed group is gone, and comes back with its pass",
            RACE,
            "",
            Shows::Steps(&TELLS_KILLED_TOKENS),
        ),
        row(
            "a pruning whose word a pass names is refused and adds nothing",
            "x <x< 1",
            "",
            Shows::Steps(&REFUSES_WORDS_THAT_ARE_NAMED),
        ),
        row(
            "a token does nothing but what it does next",
            PIPE,
            "",
            Shows::Steps(&REFUSES_OTHER_MOVES),
        ),
        // The four moves are `seq`, `fork` (which takes the lent pass, so 0 remain) and two `send`. The next token is at a call, which `step` doesn't
        // make, so it is refused as Wrong.
        row(
            "four moves of four tokens take one pass, and a token that has moved is gone",
            PIPE,
            "",
            Shows::MakesMoves(4, BookFault::Wrong, 0),
        ),
        // The second `send` is refused as Limit. The `fork` has taken the lent pass, so 0 remain.
        limited(
            "a limit of three entries leaves three of these moves",
            PIPE,
            3,
            Shows::MakesMoves(3, BookFault::Limit, 0),
        ),
        // The `fork` is refused as Limit, so the lent pass remains.
        limited(
            "a limit of one entry leaves one of them, and the pass that was lent",
            PIPE,
            1,
            Shows::MakesMoves(1, BookFault::Limit, 1),
        ),
        // The script answers no call of N.
        row(
            "a bind cancels the calls inside its right side in the order of their numbers",
            "N() | (x <x< (N() | ((N() ; 2) | ((y <y< N()) | 1))))",
            "N() = never",
            Shows::Steps(&CANCELS),
        ),
        row(
            "a call that is cancelled is due no more",
            "x <x< (1 | Add(2, 3))",
            "",
            Shows::Steps(&IS_CANCELLED),
        ),
        limited(
            "cancels count for no limit",
            "x <x< (Rwait(2) >> 20 | Rwait(1) >> 10)",
            11,
            Shows::Steps(&CANCELS_AT_THE_LIMIT),
        ),
        // Each left side takes two entries, a `def` and a `seq`; one more `def` comes before the `seq` that is refused.
        row(
            "a token in 4,096 left sides of a >x> enters no more",
            "def f() = f() >> 1\nf()",
            "",
            Shows::IsFullAfter(8_193),
        ),
        // Of 1,024 groups one is the program's own. Each other one takes two entries, a `def` and an `other`, and one more `def` follows.
        row(
            "a token in 1,023 left sides of an otherwise enters no more",
            "def f() = f() ; 1\nf()",
            "",
            Shows::IsFullAfter(2_047),
        ),
    ]
}
