//! Reading one entry from its line. Each function takes what it reads from the front of the bytes, and gives the bytes behind it; None if something
//! else is there. Its contract says that it returns what the definition of its name in `specs/Reading` gives; a line `#[tactic(..)]` only tells the
//! prover which of these definitions to unfold. A *mark* is the number of a token, a part of the program's term that runs. `answers` is the table of
//! sites. `Fits` says that an entry has a line: its numbers fit 64 bits, and the table has its site.

ghost use Rattle.std.specs.Prelude.{◌≡◌, ◌++◌, ◌∷◌, [], List, length, option_map, ℕ, IfSome, Some, true, slice_get, ◌<◌, ◌≤◌, ◌^◌, ◌-◌, negsuc};
ghost use Rattle.orc_rules.specs.Digits.{Gives, digits_at};
ghost use Rattle.orc_journal_text.specs.Reading.{after, is_plain, number_at, value_at, number_field, value_field, pair_field, sent_field, outcome_field, split_name, name_at, values_at, arguments_at, call_field, all_kinds, kind_from, fields_at, entry_at};
ghost use Rattle.orc_rules.specs.Sites.{site_named};
ghost use Rattle.orc_rules.specs.Text.{line, Fits};
ghost use Rattle.orc_rules.specs.declared.limits.TheConstants.{MOST_ARGUMENTS};
ghost use Rattle.orc_rules.specs.declared.entry.Entry.{Entry as EntryOf};
ghost use Rattle.orc_rules.specs.declared.kind.Kind.TheVariants.{End, Fork, Seq, Other, Def, Void, Open, Send, Call, Return, ReturnHalt, Bind, Lost, Right, Publish, Tick, Cancel};

use orc_rules::answers::Answers;
use orc_rules::digits::digits_at;
use orc_rules::entry::Entry;
use orc_rules::kind::Kind;
use orc_rules::limits::MOST_ARGUMENTS;
use orc_rules::value::{Args, Value};

/// A number of so many digits fits 64 bits, since a digit takes 4 bits at most.
const FEW: usize = 16;

// The bytes after a text that is at the front of `bytes`. None if it isn't there. By `Gives` the result is the one that `specs/Reading` defines.
#[inline(always)]
pub(crate) fn after<'a>(text: &[u8], bytes: &'a [u8]) -> Option<&'a [u8]>
    ensures { Gives (λ r. r.now) result (after text.now bytes.now) }
{
    let mut left = text;
    let mut rest = bytes;
    while let [c, others @ ..] = left {
        let [b, behind @ ..] = rest else {
            return None;
        };
        if *b != *c {
            return None;
        }
        left = others;
        rest = behind;
    }
    Some(rest)
}

// Whether a digit is first, and no other one after a zero: no number is written with leading zeros.
#[inline(always)]
fn is_plain(bytes: &[u8]) -> bool
    ensures { result ≡ is_plain bytes.now }
{
    match bytes {
        [] => false,
        [c] => c.is_ascii_digit(),
        [c, d, ..] => c.is_ascii_digit() && !(*c == b'0' && d.is_ascii_digit()),
    }
}

// The number that the digits at the front spell, as `digits_at` gives it. It is quicker for a number of fewer than `FEW` digits with at least `FEW`
// bytes from its first digit on: no sum can be too great and no index out of range, so neither is tested. By `Gives` the result is the one that
// the definition `digits_at` in `orc_rules/specs/Digits` gives.
#[inline(always)]
fn few_digits_at(bytes: &[u8]) -> Option<(u64, &[u8])>
    ensures { Gives (λ x. (x.0, x.1.now)) result (digits_at bytes.now) }
{
    if bytes.len() < FEW {
        return digits_at(bytes);
    }
    let mut number: u64 = 0;
    let mut at = 0;
    while at < FEW && bytes[at].is_ascii_digit() {
        number = number * 10 + (bytes[at] - b'0') as u64;
        at += 1;
    }
    // The number may have more digits.
    if at == FEW {
        return digits_at(bytes);
    }
    Some((number, &bytes[at..]))
}

// The decimal number at the front, and the bytes behind it. None if no digit is there, or the number has leading zeros or over 64 bits. By `Gives`
// the result is the one that `specs/Reading` defines.
#[inline(always)]
#[tactic(auto, unfolding(crate::specs::Reading::number_at))]
fn number_at(bytes: &[u8]) -> Option<(u64, &[u8])>
    ensures { Gives (λ x. (x.0, x.1.now)) result (number_at bytes.now) }
{
    if is_plain(bytes) {
        few_digits_at(bytes)
    } else {
        None
    }
}

// The negative of this number. It is computed from the number less one, since -2^63 is an i64 and 2^63 isn't.
fn negated(number: u64) -> i64
    requires some { 0 < number }
    requires fits { number - 1 < 2 ^ 63 }
    ensures { result ≡ negsuc (number - 1) }
{
    let below = (number - 1) as i64;
    -1 - below
}

// The value at the front, and the bytes behind it: `true`, `false`, `signal`, or a number of 64 signed bits; `-0` is none. By `Gives` the result is
// the one that `specs/Reading` defines.
#[inline(always)]
#[tactic(auto, unfolding(crate::specs::Reading::value_at))]
fn value_at(bytes: &[u8]) -> Option<(Value, &[u8])>
    ensures { Gives (λ x. (x.0, x.1.now)) result (value_at bytes.now) }
{
    if let Some(rest) = after(b"true", bytes) {
        return Some((Value::Truth(true), rest));
    }
    if let Some(rest) = after(b"false", bytes) {
        return Some((Value::Truth(false), rest));
    }
    if let Some(rest) = after(b"signal", bytes) {
        return Some((Value::Signal, rest));
    }
    if let Some(rest) = after(b"-", bytes) {
        let (number, rest) = number_at(rest)?;
        if number > 0 && number - 1 < 1 << 63 {
            return Some((Value::Number(negated(number)), rest));
        }
        return None;
    }
    let (number, rest) = number_at(bytes)?;
    if number < 1 << 63 {
        return Some((Value::Number(number as i64), rest));
    }
    None
}

// The number in the field at the front, and the bytes behind it. Each field of a line is a space and what it holds. By `Gives` the result is the one
// that `specs/Reading` defines.
#[inline(always)]
#[tactic(auto, unfolding(crate::specs::Reading::number_field))]
fn number_field(bytes: &[u8]) -> Option<(u64, &[u8])>
    ensures { Gives (λ x. (x.0, x.1.now)) result (number_field bytes.now) }
{
    number_at(after(b" ", bytes)?)
}

// The value in the field at the front, and the bytes behind it. Each field of a line is a space and what it holds. By `Gives` the result is the one
// that `specs/Reading` defines.
#[inline(always)]
#[tactic(auto, unfolding(crate::specs::Reading::value_field))]
fn value_field(bytes: &[u8]) -> Option<(Value, &[u8])>
    ensures { Gives (λ x. (x.0, x.1.now)) result (value_field bytes.now) }
{
    value_at(after(b" ", bytes)?)
}

// The numbers in the two fields at the front, and the bytes behind them. By `Gives` the result is the one that `specs/Reading` defines.
#[inline(always)]
#[tactic(auto, unfolding(crate::specs::Reading::pair_field))]
fn pair_field(bytes: &[u8]) -> Option<((u64, u64), &[u8])>
    ensures { Gives (λ x. (x.0, x.1.now)) result (pair_field bytes.now) }
{
    let (first, rest) = number_field(bytes)?;
    let (second, rest) = number_field(rest)?;
    Some(((first, second), rest))
}

// The number, that of a mark or a cell, and the value in the two fields at the front, and the bytes behind them. By `Gives` the result is the one
// that `specs/Reading` defines.
#[inline(always)]
#[tactic(auto, unfolding(crate::specs::Reading::sent_field))]
fn sent_field(bytes: &[u8]) -> Option<((u64, Value), &[u8])>
    ensures { Gives (λ x. (x.0, x.1.now)) result (sent_field bytes.now) }
{
    let (mark, rest) = number_field(bytes)?;
    let (value, rest) = value_field(rest)?;
    Some(((mark, value), rest))
}

// What a `return` has behind its call, and the bytes behind that: None for ` halt`, or what the fields of a mark and a value hold. By `Gives` the
// result is the one that `specs/Reading` defines.
#[inline(always)]
#[tactic(auto, unfolding(crate::specs::Reading::outcome_field))]
fn outcome_field(bytes: &[u8]) -> Option<(Option<(u64, Value)>, &[u8])>
    ensures { Gives (λ x. (x.0, x.1.now)) result (outcome_field bytes.now) }
{
    if let Some(rest) = after(b" halt", bytes) {
        return Some((None, rest));
    }
    let (sent, rest) = sent_field(bytes)?;
    Some((Some(sent), rest))
}

// The bytes before the first `(`, and those from it on. Without a `(` all bytes are before it.
fn split_name(bytes: &[u8]) -> (&[u8], &[u8])
    ensures { (result.0.now, result.1.now) ≡ split_name bytes.now }
{
    let mut end = 0;
    while end < bytes.len() && bytes[end] != b'(' {
        end += 1;
    }
    bytes.split_at(end)
}

// A guess at the built-in site by the first letters: its number, by the order of `Builtin::ALL`, whose last one is `Rwait`. A wrong guess costs time
// alone, since `is_name_of` tests it.
fn likely_site(name: &[u8]) -> u32 {
    match name {
        [b'A', ..] => 0,
        [b'S', ..] => 1,
        [b'E', ..] => 2,
        [b'L', ..] => 3,
        [b'I', b'f', b't', ..] => 4,
        [b'I', ..] => 5,
        _ => 6,
    }
}

// Whether the site of that number has this name.
fn is_name_of(name: &[u8], site: u32, answers: &Answers) -> bool
    ensures { result ≡ true → slice_get answers.now.names site ≡ Some name.now }
{
    match answers.name(site) {
        // The names are equal if nothing of `name` follows.
        Some(known) => match after(known, name) {
            Some([]) => true,
            _ => false,
        },
        None => false,
    }
}

// The number of the site of that name; None if the table has no such site. Most calls are of built-in sites: one of these is tried before the table,
// in which to look takes longer.
#[inline(always)]
fn site_of(name: &[u8], answers: &Answers) -> Option<u32>
    ensures { result ≡ site_named answers.now.names name.now }
{
    // For the prover: no two sites have one name, so a site of this name is the one that the table would find.
    answers.are_apart();
    let site = likely_site(name);
    if is_name_of(name, site, answers) {
        return Some(site);
    }
    answers.site_named(name)
}

// The number of the site whose name is at the front, as far as the first `(`, and the bytes from that on. None if the table has no such site. By
// `Gives` the result is the one that `specs/Reading` defines.
#[tactic(auto, unfolding(crate::specs::Reading::name_at))]
fn name_at<'a>(bytes: &'a [u8], answers: &Answers) -> Option<(u32, &'a [u8])>
    ensures { Gives (λ x. (x.0, x.1.now)) result (name_at answers.now.names bytes.now) }
{
    let (name, rest) = split_name(bytes);
    let site = site_of(name, answers)?;
    Some((site, rest))
}

// Puts the arguments of a call, in brackets, into `args`, and gives the bytes behind them. By `Gives` the result is the one that `specs/Reading`
// defines.
#[tactic(auto, unfolding(crate::specs::Reading::arguments_at))]
fn arguments_at<'a>(bytes: &'a [u8], args: &mut Args) -> Option<&'a [u8]>
    ensures { Gives (λ r. (args.new, r.now)) result (arguments_at bytes.now) }
{
    let rest = after(b"(", bytes)?;
    if let Some(rest) = after(b")", rest) {
        args.clear();
        return Some(rest);
    }
    values_at(rest, args)
}

// Puts one to `MOST_ARGUMENTS` values with commas between them, and a closing bracket, into `args`, and gives the bytes behind the bracket. By
// `Gives` the result is the one that `specs/Reading` defines.
fn values_at<'a>(bytes: &'a [u8], args: &mut Args) -> Option<&'a [u8]>
    ensures { Gives (λ r. (args.new, r.now)) result (values_at MOST_ARGUMENTS bytes.now) }
{
    args.clear();
    let mut rest = bytes;
    for _ in 0..MOST_ARGUMENTS {
        let (value, behind) = value_at(rest)?;
        args.push(value);
        if let Some(behind) = after(b")", behind) {
            return Some(behind);
        }
        rest = after(b", ", behind)?;
    }
    // One more value follows than a call may have.
    None
}

// This kind, if its word is at the front, and the bytes behind the word; else None. By `Gives` the result is the one that `specs/Reading` defines.
#[inline(always)]
fn word_at(kind: Kind, bytes: &[u8]) -> Option<(Kind, &[u8])>
    ensures { Gives (λ x. (x.0, x.1.now)) result (kind_from (kind ∷ []) bytes.now) }
{
    match after(kind.word(), bytes) {
        Some(rest) => Some((kind, rest)),
        None => None,
    }
}

// The one of two kinds whose word is at the front, and the bytes behind the word; None if neither is. By `Gives` the result is the one that
// `specs/Reading` defines.
#[inline(always)]
fn either_at(kind: Kind, other: Kind, bytes: &[u8]) -> Option<(Kind, &[u8])>
    ensures { Gives (λ x. (x.0, x.1.now)) result (kind_from (kind ∷ other ∷ []) bytes.now) }
{
    match after(kind.word(), bytes) {
        Some(rest) => Some((kind, rest)),
        None => word_at(other, bytes),
    }
}

// The kind whose word is at the front, and the bytes behind the word. The first letter leaves two kinds at most. The word `return` gives Return, even
// if ` halt` comes later. By `Gives` the result is the one that `specs/Reading` defines.
#[inline(always)]
fn kind_at(bytes: &[u8]) -> Option<(Kind, &[u8])>
    ensures { Gives (λ x. (x.0, x.1.now)) result (kind_from all_kinds bytes.now) }
{
    let [first, ..] = bytes else {
        return None;
    };
    match *first {
        b'c' => either_at(Kind::Call, Kind::Cancel, bytes),
        b'r' => either_at(Kind::Return, Kind::Right, bytes),
        b's' => either_at(Kind::Send, Kind::Seq, bytes),
        b'o' => either_at(Kind::Open, Kind::Other, bytes),
        b'f' => word_at(Kind::Fork, bytes),
        b'p' => word_at(Kind::Publish, bytes),
        b'e' => word_at(Kind::End, bytes),
        b'b' => word_at(Kind::Bind, bytes),
        b'd' => word_at(Kind::Def, bytes),
        b'v' => word_at(Kind::Void, bytes),
        b'l' => word_at(Kind::Lost, bytes),
        b't' => word_at(Kind::Tick, bytes),
        _ => None,
    }
}

// A function for each kind, which puts the entry whose fields are at the front into `entry`; the letters are those of `Entry`. `entry` is overwritten
// in its place: it has room for the arguments of a call, and to copy it takes longer than to read a line. One function for all kinds would clear the
// room of all their fields at each line. Only a call's line has the name of a site: the other contracts hold for any `names`.

// Reads the fields of a `call` into `entry`: the token's mark, the call's number, and the site's name with the arguments. Gives the bytes behind
// them. By `Gives` the result is the one that `specs/Reading` defines.
#[inline(never)]
#[tactic(auto, unfolding(crate::specs::Reading::fields_at, crate::specs::Reading::call_field))]
fn call_at<'a>(bytes: &'a [u8], answers: &Answers, entry: &mut Entry) -> Option<&'a [u8]>
    ensures { Gives (λ r. (entry.new, r.now)) result (fields_at answers.now.names Call bytes.now) }
{
    let (s, rest) = number_field(bytes)?;
    let (k, rest) = number_field(rest)?;
    let (site, rest) = name_at(after(b" ", rest)?, answers)?;
    // The arguments are read where they stay: they are not copied.
    *entry = Entry::Call(s, k, site, Args::new());
    match entry {
        Entry::Call(_, _, _, args) => arguments_at(rest, args),
        // Never: it was made a call just before.
        _ => None,
    }
}

// Reads the field of an `end` into `entry`: the token's mark. Gives the bytes behind it. By `Gives` the result is the one that `specs/Reading`
// defines.
#[inline(never)]
#[tactic(auto, unfolding(crate::specs::Reading::fields_at))]
fn end_at<'a>(bytes: &'a [u8], entry: &mut Entry) -> Option<&'a [u8]>
    ensures { (names : List (List ℕ)) → Gives (λ r. (entry.new, r.now)) result (fields_at names End bytes.now) }
{
    let (s, rest) = number_field(bytes)?;
    *entry = Entry::End(s);
    Some(rest)
}

// Reads the fields of a `fork` into `entry`: the token's mark, and the marks of the two new tokens. Gives the bytes behind them. By `Gives` the
// result is the one that `specs/Reading` defines.
#[inline(never)]
#[tactic(auto, unfolding(crate::specs::Reading::fields_at))]
fn fork_at<'a>(bytes: &'a [u8], entry: &mut Entry) -> Option<&'a [u8]>
    ensures { (names : List (List ℕ)) → Gives (λ r. (entry.new, r.now)) result (fields_at names Fork bytes.now) }
{
    let (s, rest) = number_field(bytes)?;
    let ((a, b), rest) = pair_field(rest)?;
    *entry = Entry::Fork(s, a, b);
    Some(rest)
}

// Reads the fields of a `seq` into `entry`: the token's mark, and that of the new token. Gives the bytes behind them. By `Gives` the result is the
// one that `specs/Reading` defines.
#[inline(never)]
#[tactic(auto, unfolding(crate::specs::Reading::fields_at))]
fn seq_at<'a>(bytes: &'a [u8], entry: &mut Entry) -> Option<&'a [u8]>
    ensures { (names : List (List ℕ)) → Gives (λ r. (entry.new, r.now)) result (fields_at names Seq bytes.now) }
{
    let ((s, a), rest) = pair_field(bytes)?;
    *entry = Entry::Seq(s, a);
    Some(rest)
}

// Reads the fields of an `other` into `entry`: the token's mark, and that of the new token. Gives the bytes behind them. By `Gives` the result is the
// one that `specs/Reading` defines.
#[inline(never)]
#[tactic(auto, unfolding(crate::specs::Reading::fields_at))]
fn other_at<'a>(bytes: &'a [u8], entry: &mut Entry) -> Option<&'a [u8]>
    ensures { (names : List (List ℕ)) → Gives (λ r. (entry.new, r.now)) result (fields_at names Other bytes.now) }
{
    let ((s, a), rest) = pair_field(bytes)?;
    *entry = Entry::Other(s, a);
    Some(rest)
}

// Reads the fields of a `def` into `entry`: the token's mark, and that of the new token. Gives the bytes behind them. By `Gives` the result is the
// one that `specs/Reading` defines.
#[inline(never)]
#[tactic(auto, unfolding(crate::specs::Reading::fields_at))]
fn def_at<'a>(bytes: &'a [u8], entry: &mut Entry) -> Option<&'a [u8]>
    ensures { (names : List (List ℕ)) → Gives (λ r. (entry.new, r.now)) result (fields_at names Def bytes.now) }
{
    let ((s, a), rest) = pair_field(bytes)?;
    *entry = Entry::Def(s, a);
    Some(rest)
}

// Reads the field of a `void` into `entry`: the token's mark. Gives the bytes behind it. By `Gives` the result is the one that `specs/Reading`
// defines.
#[inline(never)]
#[tactic(auto, unfolding(crate::specs::Reading::fields_at))]
fn void_at<'a>(bytes: &'a [u8], entry: &mut Entry) -> Option<&'a [u8]>
    ensures { (names : List (List ℕ)) → Gives (λ r. (entry.new, r.now)) result (fields_at names Void bytes.now) }
{
    let (s, rest) = number_field(bytes)?;
    *entry = Entry::Void(s);
    Some(rest)
}

// Reads the fields of an `open` into `entry`: the token's mark, the cell's number, and the marks of the two new tokens. Gives the bytes behind them.
// By `Gives` the result is the one that `specs/Reading` defines.
#[inline(never)]
#[tactic(auto, unfolding(crate::specs::Reading::fields_at))]
fn open_at<'a>(bytes: &'a [u8], entry: &mut Entry) -> Option<&'a [u8]>
    ensures { (names : List (List ℕ)) → Gives (λ r. (entry.new, r.now)) result (fields_at names Open bytes.now) }
{
    let (s, rest) = number_field(bytes)?;
    let (c, rest) = number_field(rest)?;
    let ((a, b), rest) = pair_field(rest)?;
    *entry = Entry::Open(s, c, a, b);
    Some(rest)
}

// Reads the fields of a `send` into `entry`: the token's mark, that of the new token, and the value. Gives the bytes behind them. By `Gives` the
// result is the one that `specs/Reading` defines.
#[inline(never)]
#[tactic(auto, unfolding(crate::specs::Reading::fields_at))]
fn send_at<'a>(bytes: &'a [u8], entry: &mut Entry) -> Option<&'a [u8]>
    ensures { (names : List (List ℕ)) → Gives (λ r. (entry.new, r.now)) result (fields_at names Send bytes.now) }
{
    let (s, rest) = number_field(bytes)?;
    let ((a, v), rest) = sent_field(rest)?;
    *entry = Entry::Send(s, a, v);
    Some(rest)
}

// Reads the fields of either kind of `return` into `entry`: the call's number, and `halt` or the new token's mark and the value. Only they tell
// whether it halts. Gives the bytes behind them. By `Gives` the result is the one that `specs/Reading` defines.
#[inline(never)]
#[tactic(auto, unfolding(crate::specs::Reading::fields_at))]
fn return_at<'a>(bytes: &'a [u8], entry: &mut Entry) -> Option<&'a [u8]>
    ensures value { (names : List (List ℕ)) → Gives (λ r. (entry.new, r.now)) result (fields_at names Return bytes.now) }
    ensures halt { (names : List (List ℕ)) → Gives (λ r. (entry.new, r.now)) result (fields_at names ReturnHalt bytes.now) }
{
    let (k, rest) = number_field(bytes)?;
    let (outcome, rest) = outcome_field(rest)?;
    match outcome {
        None => {
            *entry = Entry::ReturnHalt(k);
        }
        Some((a, v)) => {
            *entry = Entry::Return(k, a, v);
        }
    }
    Some(rest)
}

// Reads the fields of a `bind` into `entry`: the token's mark, the cell's number, and the value. Gives the bytes behind them. By `Gives` the result
// is the one that `specs/Reading` defines.
#[inline(never)]
#[tactic(auto, unfolding(crate::specs::Reading::fields_at))]
fn bind_at<'a>(bytes: &'a [u8], entry: &mut Entry) -> Option<&'a [u8]>
    ensures { (names : List (List ℕ)) → Gives (λ r. (entry.new, r.now)) result (fields_at names Bind bytes.now) }
{
    let (s, rest) = number_field(bytes)?;
    let ((c, v), rest) = sent_field(rest)?;
    *entry = Entry::Bind(s, c, v);
    Some(rest)
}

// Reads the field of a `lost` into `entry`: the cell's number. Gives the bytes behind it. By `Gives` the result is the one that `specs/Reading`
// defines.
#[inline(never)]
#[tactic(auto, unfolding(crate::specs::Reading::fields_at))]
fn lost_at<'a>(bytes: &'a [u8], entry: &mut Entry) -> Option<&'a [u8]>
    ensures { (names : List (List ℕ)) → Gives (λ r. (entry.new, r.now)) result (fields_at names Lost bytes.now) }
{
    let (c, rest) = number_field(bytes)?;
    *entry = Entry::Lost(c);
    Some(rest)
}

// Reads the fields of a `right` into `entry`: the otherwise's mark, and that of the new token. Gives the bytes behind them. By `Gives` the result is
// the one that `specs/Reading` defines.
#[inline(never)]
#[tactic(auto, unfolding(crate::specs::Reading::fields_at))]
fn right_at<'a>(bytes: &'a [u8], entry: &mut Entry) -> Option<&'a [u8]>
    ensures { (names : List (List ℕ)) → Gives (λ r. (entry.new, r.now)) result (fields_at names Right bytes.now) }
{
    let ((s, a), rest) = pair_field(bytes)?;
    *entry = Entry::Right(s, a);
    Some(rest)
}

// Reads the fields of a `publish` into `entry`: the token's mark, and the value. Gives the bytes behind them. By `Gives` the result is the one that
// `specs/Reading` defines.
#[inline(never)]
#[tactic(auto, unfolding(crate::specs::Reading::fields_at))]
fn publish_at<'a>(bytes: &'a [u8], entry: &mut Entry) -> Option<&'a [u8]>
    ensures { (names : List (List ℕ)) → Gives (λ r. (entry.new, r.now)) result (fields_at names Publish bytes.now) }
{
    let ((s, v), rest) = sent_field(bytes)?;
    *entry = Entry::Publish(s, v);
    Some(rest)
}

// Reads the field of a `tick` into `entry`: the new time. Gives the bytes behind it. By `Gives` the result is the one that `specs/Reading` defines.
#[inline(never)]
#[tactic(auto, unfolding(crate::specs::Reading::fields_at))]
fn tick_at<'a>(bytes: &'a [u8], entry: &mut Entry) -> Option<&'a [u8]>
    ensures { (names : List (List ℕ)) → Gives (λ r. (entry.new, r.now)) result (fields_at names Tick bytes.now) }
{
    let (t, rest) = number_field(bytes)?;
    *entry = Entry::Tick(t);
    Some(rest)
}

// Reads the field of a `cancel` into `entry`: the call's number. Gives the bytes behind it. By `Gives` the result is the one that `specs/Reading`
// defines.
#[inline(never)]
#[tactic(auto, unfolding(crate::specs::Reading::fields_at))]
fn cancel_at<'a>(bytes: &'a [u8], entry: &mut Entry) -> Option<&'a [u8]>
    ensures { (names : List (List ℕ)) → Gives (λ r. (entry.new, r.now)) result (fields_at names Cancel bytes.now) }
{
    let (k, rest) = number_field(bytes)?;
    *entry = Entry::Cancel(k);
    Some(rest)
}

// Puts the entry of this kind whose fields are at the front into `entry`, and gives the bytes behind the fields. By `Gives` the result is the one
// that `specs/Reading` defines.
#[inline(always)]
fn fields_at<'a>(
    kind: Kind,
    bytes: &'a [u8],
    answers: &Answers,
    entry: &mut Entry,
) -> Option<&'a [u8]>
    ensures { Gives (λ r. (entry.new, r.now)) result (fields_at answers.now.names kind bytes.now) }
{
    match kind {
        Kind::End => end_at(bytes, entry),
        Kind::Fork => fork_at(bytes, entry),
        Kind::Seq => seq_at(bytes, entry),
        Kind::Other => other_at(bytes, entry),
        Kind::Def => def_at(bytes, entry),
        Kind::Void => void_at(bytes, entry),
        Kind::Open => open_at(bytes, entry),
        Kind::Send => send_at(bytes, entry),
        Kind::Call => call_at(bytes, answers, entry),
        Kind::Return => return_at(bytes, entry),
        Kind::ReturnHalt => return_at(bytes, entry),
        Kind::Bind => bind_at(bytes, entry),
        Kind::Lost => lost_at(bytes, entry),
        Kind::Right => right_at(bytes, entry),
        Kind::Publish => publish_at(bytes, entry),
        Kind::Tick => tick_at(bytes, entry),
        Kind::Cancel => cancel_at(bytes, entry),
    }
}

// Puts the entry whose line is at the front, with its word, its fields and LF, into `entry`, and gives the bytes behind the line. By `Gives` the
// result is the one that `specs/Reading` defines.
#[inline(always)]
#[tactic(auto, unfolding(crate::specs::Reading::entry_at))]
fn entry_at<'a>(bytes: &'a [u8], answers: &Answers, entry: &mut Entry) -> Option<&'a [u8]>
    ensures { Gives (λ r. (entry.new, r.now)) result (entry_at answers.now.names bytes.now) }
{
    let (kind, rest) = kind_at(bytes)?;
    let rest = fields_at(kind, rest, answers, entry)?;
    after(b"\n", rest)
}

/// Puts the entry whose line is at the front into `entry`, and gives the bytes after the line. None exactly if no line of an entry is there; then
/// `entry` may have become another one.
pub fn read_entry<'a>(bytes: &'a [u8], answers: &Answers, entry: &mut Entry) -> Option<&'a [u8]>
    // The bytes read are the entry's line.
    ensures found { IfSome result (λ r. (bytes.now ≡ line answers.now.names entry.new ++ r.now) × Fits answers.now.names entry.new) }
    // An entry's line is read as that entry, whatever follows it.
    ensures only { (e : EntryOf) (rest : List ℕ) → Fits answers.now.names e → bytes.now ≡ line answers.now.names e ++ rest → Gives {Y = EntryOf × List ℕ} (λ r. (entry.new, r.now)) result (Some (e, rest)) }
{
    // For the prover: a site's name is read as its number only since no other site has the name and no name has a `(`.
    answers.are_apart();
    entry_at(bytes, answers, entry)
}
