//! The first reason why an entry is refused: a test for each reason, in the order of the reasons. `marked` is the marked term: what is left of the
//! program's term after the entries before, with marks (the numbers of its tokens), calls and cells. `answers` is the table of what sites answer. A
//! *cancel* is due where a `bind` has dropped a pending call.
//!
//! Each test has the same parameters, since its contract names them all. `journal_is_numbered` shows the prover a law, that a mark, a call or a cell
//! is on at most one node of the term; nothing runs. By `Tests` the answer says whether the entry meets the condition of that reason.

ghost use Rattle.std.specs.Prelude.{◌≡◌, ◌≢◌, ◌&&◌, nat_eq, suc, IfSome, IfNone};
ghost use Rattle.std.specs.Bool.{Decides};
ghost use Rattle.orc_rules.specs.Refusal.{HasToken, HasCall, HasCell, HasOther};
ghost use Rattle.orc_rules.specs.declared.entry.RuleFault.TheVariants as reason;
ghost use Rattle.orc_verdict.specs.Reasons.{asked_by, counted_as, cancel_of, answer_of, tick_of, right_flag, left_flag, IsRightOver, IsLeftOver, Says, Tests, RefusedFor, MeetsAll};

use crate::due::{is_answer, is_due};
use crate::finder::{Name, find, is_leaf, is_one};
use crate::position::{args_named, fits_standing, mark_named, standing_of};
use crate::ticks::can_tick;
use orc_checker::Marked;
use orc_rules::answers::Answers;
use orc_rules::entry::{Entry, RuleFault};
use orc_rules::laws::journal_is_numbered;
use orc_rules::program::Program;
use orc_rules::value::Answer;
use orc_term::arena::Kind;

/// What an entry has to find in the term, by its number: a token by its mark, a pending call, a cell, or an otherwise by its mark.
#[derive(Clone, Copy)]
enum Asked {
    /// Any entry of a token except `bind`.
    Token(u64),
    /// A return.
    Call(u64),
    /// `lost`.
    Cell(u64),
    /// `bind`: its token, and the cell that it binds.
    TokenAndCell(u64, u64),
    /// `right`.
    Otherwise(u64),
    /// A tick or a cancel.
    Nothing,
}

/// What an entry has to find in the term. Of the entry's numbers `s` is a mark, `k` a call and `c` a cell.
fn asks_for(entry: &Entry) -> Asked
    ensures { result ≡ asked_by entry.now }
{
    match entry {
        Entry::End(s) => Asked::Token(*s),
        Entry::Fork(s, _, _) => Asked::Token(*s),
        Entry::Seq(s, _) => Asked::Token(*s),
        Entry::Other(s, _) => Asked::Token(*s),
        Entry::Def(s, _) => Asked::Token(*s),
        Entry::Void(s) => Asked::Token(*s),
        Entry::Open(s, _, _, _) => Asked::Token(*s),
        Entry::Send(s, _, _) => Asked::Token(*s),
        Entry::Call(s, _, _, _) => Asked::Token(*s),
        Entry::Publish(s, _) => Asked::Token(*s),
        Entry::Return(k, _, _) => Asked::Call(*k),
        Entry::ReturnHalt(k) => Asked::Call(*k),
        Entry::Bind(s, c, _) => Asked::TokenAndCell(*s, *c),
        Entry::Lost(c) => Asked::Cell(*c),
        Entry::Right(s, _) => Asked::Otherwise(*s),
        Entry::Tick(_) => Asked::Nothing,
        // A bind takes the calls that it cancels out of the term. `is_in_turn` tests the number.
        Entry::Cancel(_) => Asked::Nothing,
    }
}

/// Whether the token with the mark `s` is there. A mark is that of a token, whose node has no parts, or the number of an otherwise, whose node has
/// one. By `Says` the answer holds at each place, a term with its calls and the time, that `marked` describes and in which no mark, call or cell is
/// twice.
fn has_token(marked: &Marked, s: u64) -> bool
    ensures { Says marked.now result (λ x p. HasToken p s) }
{
    match find(marked, Name::Mark(s)) {
        Some(part) => is_leaf(part.kind),
        None => false,
    }
}

/// Whether the otherwise with the mark `s` is there; false where a token has the mark. By `Says` the answer holds at each place, a term with its
/// calls and the time, that `marked` describes and in which no mark, call or cell is twice.
fn has_otherwise(marked: &Marked, s: u64) -> bool
    ensures { Says marked.now result (λ x p. HasOther p s) }
{
    match find(marked, Name::Mark(s)) {
        Some(part) => is_one(part.kind),
        None => false,
    }
}

/// Whether call `k`, by its number, pends. By `Says` the answer holds at each place, a term with its calls and the time, that `marked` describes and
/// in which no mark, call or cell is twice.
fn has_call(marked: &Marked, k: u64) -> bool
    ensures { Says marked.now result (λ x p. HasCall p k) }
{
    match find(marked, Name::Call(k)) {
        Some(_) => true,
        None => false,
    }
}

/// Whether cell `c`, by its number, is there. By `Says` the answer holds at each place, a term with its calls and the time, that `marked` describes
/// and in which no mark, call or cell is twice.
fn has_cell(marked: &Marked, c: u64) -> bool
    ensures { Says marked.now result (λ x p. HasCell p c) }
{
    match find(marked, Name::Cell(c)) {
        Some(_) => true,
        None => false,
    }
}

/// The call that a cancel names. None for any other entry.
fn cancel_named(entry: &Entry) -> Option<u64>
    ensures { result ≡ cancel_of entry.now }
{
    match entry {
        Entry::Cancel(k) => Some(*k),
        _ => None,
    }
}

/// Whether both are None, or the same number.
fn are_same(first: Option<u64>, second: Option<u64>) -> bool
    ensures { Decides result (first ≡ second) }
{
    match first {
        Some(a) => match second {
            Some(b) => a == b,
            None => false,
        },
        None => match second {
            Some(_) => false,
            None => true,
        },
    }
}

/// Whether the entry is the cancel that is due next or, where no cancel is due, no cancel: else the reason Cancel refuses it. `program` and `answers`
/// are for the contract alone.
fn is_in_turn(marked: &Marked, program: &Program, answers: &Answers, entry: &Entry) -> bool
    ensures { Tests program.now answers.now entry.now marked.now reason.Cancel result }
{
    are_same(cancel_named(entry), marked.next_cancel())
}

/// Whether both hold.
fn are_both(first: bool, second: bool) -> bool
    ensures { result ≡ (first && second) }
{
    first && second
}

/// Whether what the entry names is there: its token, call, cell or otherwise. Else the reason Mark refuses it. `program` and `answers` are for the
/// contract alone.
fn is_there(marked: &Marked, program: &Program, answers: &Answers, entry: &Entry) -> bool
    ensures { Tests program.now answers.now entry.now marked.now reason.Mark result }
{
    // A law that the prover is shown: a mark, a call or a cell is on at most one node of the term. Nothing runs.
    journal_is_numbered();
    match asks_for(entry) {
        Asked::Token(s) => has_token(marked, s),
        Asked::Call(k) => has_call(marked, k),
        Asked::Cell(c) => has_cell(marked, c),
        Asked::TokenAndCell(s, c) => are_both(has_token(marked, s), has_cell(marked, c)),
        Asked::Otherwise(s) => has_otherwise(marked, s),
        Asked::Nothing => true,
    }
}

/// Whether the kind of term on which the entry's token stands, the name, the arguments, the value and the taker are the entry's: else the reason Form
/// refuses it. True of an entry that names no token. `answers` is for the contract alone.
fn fits(marked: &Marked, program: &Program, answers: &Answers, entry: &Entry) -> bool
    ensures { Tests program.now answers.now entry.now marked.now reason.Form result }
{
    // A law that the prover is shown: a mark, a call or a cell is on at most one node of the term. Nothing runs.
    journal_is_numbered();
    let Some(s) = mark_named(entry) else {
        return true;
    };
    match find(marked, Name::Mark(s)) {
        Some(part) => {
            let standing = standing_of(marked, program, args_named(entry), part.kind);
            fits_standing(entry, standing, marked.taker(part.at))
        }
        // No such token, for which `is_there` has refused the entry before.
        None => false,
    }
}

/// Whether `b` is the number after `a`. It subtracts, since `a + 1` may overflow: the numbers of a journal are any of 64 bits.
fn is_after(b: u64, a: u64) -> bool
    ensures { result ≡ nat_eq b (suc a) }
{
    b != 0 && b - 1 == a
}

/// Whether the new numbers of an entry are these: the next mark, call and cell. `a` is a new mark, `k` a call and `c` a cell. A second new mark, `b`,
/// has to follow the first one.
fn are_next(entry: &Entry, mark: u64, call: u64, cell: u64) -> bool
    ensures { result ≡ counted_as entry.now mark call cell }
{
    match entry {
        Entry::Fork(_, a, b) => *a == mark && is_after(*b, *a),
        Entry::Seq(_, a) => *a == mark,
        Entry::Other(_, a) => *a == mark,
        Entry::Def(_, a) => *a == mark,
        Entry::Open(_, c, a, b) => *c == cell && (*a == mark && is_after(*b, *a)),
        Entry::Send(_, a, _) => *a == mark,
        Entry::Call(_, k, _, _) => *k == call,
        Entry::Return(_, a, _) => *a == mark,
        Entry::Right(_, a) => *a == mark,
        // All other entries have no new number.
        _ => true,
    }
}

/// Whether the new numbers of the entry are the next ones: else the reason Number refuses it. True of an entry without new numbers. `program` and
/// `answers` are for the contract alone.
fn is_counted(marked: &Marked, program: &Program, answers: &Answers, entry: &Entry) -> bool
    ensures { Tests program.now answers.now entry.now marked.now reason.Number result }
{
    are_next(
        entry,
        marked.new_mark(),
        marked.new_call(),
        marked.new_cell(),
    )
}

/// The call and the answer of a return. None for any other entry.
fn answer_named(entry: &Entry) -> Option<(u64, Answer)>
    ensures { result ≡ answer_of entry.now }
{
    match entry {
        Entry::Return(k, _, v) => Some((*k, Answer::Value(*v))),
        Entry::ReturnHalt(k) => Some((*k, Answer::Halt)),
        _ => None,
    }
}

/// Whether a return has the table's answer: else the reason Answer refuses it. True of any other entry. `program` and `answers` are for the contract
/// alone: `marked` has the table's answers to the calls that were made.
fn is_answered(marked: &Marked, program: &Program, answers: &Answers, entry: &Entry) -> bool
    ensures { Tests program.now answers.now entry.now marked.now reason.Answer result }
{
    // A law that the prover is shown: a mark, a call or a cell is on at most one node of the term. Nothing runs.
    journal_is_numbered();
    match answer_named(entry) {
        Some((k, answer)) => is_answer(marked, k, answer),
        None => true,
    }
}

/// The time of a tick. None for any other entry.
fn tick_named(entry: &Entry) -> Option<u64>
    ensures { result ≡ tick_of entry.now }
{
    match entry {
        Entry::Tick(t) => Some(*t),
        _ => None,
    }
}

/// Whether a return stands at its due time, or a tick is allowed: else the reason Time refuses it. True of any other entry. `answers` is for the
/// contract alone.
fn is_on_time(marked: &mut Marked, program: &Program, answers: &Answers, entry: &Entry) -> bool
    ensures time { Tests program.now answers.now entry.now marked.old reason.Time result }
    ensures same { marked.new ≡ marked.old }
{
    // A law that the prover is shown: a mark, a call or a cell is on at most one node of the term. Nothing runs.
    journal_is_numbered();
    match tick_named(entry) {
        Some(t) => can_tick(marked, program, t),
        None => match answer_named(entry) {
            Some((k, answer)) => is_due(marked, k, answer),
            None => true,
        },
    }
}

/// Whether the right part of a node of this kind has halted, which is the right side of a pruning. False for a node without two parts.
fn right_has_halted(marked: &Marked, kind: Kind) -> bool
    ensures { result ≡ right_flag marked.now.flags kind }
{
    match kind {
        Kind::Two(_, _, right) => marked.part_has_halted(right as usize),
        _ => false,
    }
}

/// Whether the part of a node of this kind has halted, which is the left side of an otherwise. False for a node with no part or two.
fn left_has_halted(marked: &Marked, kind: Kind) -> bool
    ensures { result ≡ left_flag marked.now.flags kind }
{
    match kind {
        Kind::One(_, left) => marked.part_has_halted(left as usize),
        _ => false,
    }
}

/// Whether the right side of the pruning of cell `c` has halted; false where there is no such pruning. By `Says` the answer holds at each place, a
/// term with its calls and the time, that `marked` describes and in which no mark, call or cell is twice.
fn right_is_over(marked: &Marked, c: u64) -> bool
    ensures { Says marked.now result (λ x p. IsRightOver p c) }
{
    match find(marked, Name::Cell(c)) {
        Some(part) => right_has_halted(marked, part.kind),
        None => false,
    }
}

/// Whether the left side of otherwise `s` has halted; false where there is no such otherwise. By `Says` the answer holds at each place, a term with
/// its calls and the time, that `marked` describes and in which no mark, call or cell is twice.
fn left_is_over(marked: &Marked, s: u64) -> bool
    ensures { Says marked.now result (λ x p. IsLeftOver p s) }
{
    match find(marked, Name::Mark(s)) {
        Some(part) => left_has_halted(marked, part.kind),
        None => false,
    }
}

/// Whether the side that the entry drops, as halted, has halted: else the reason Halted refuses the entry. True of any entry but `lost` and `right`.
/// `program` and `answers` are for the contract alone.
fn is_over(marked: &Marked, program: &Program, answers: &Answers, entry: &Entry) -> bool
    ensures { Tests program.now answers.now entry.now marked.now reason.Halted result }
{
    // A law that the prover is shown: a mark, a call or a cell is on at most one node of the term. Nothing runs.
    journal_is_numbered();
    match asks_for(entry) {
        Asked::Cell(c) => right_is_over(marked, c),
        Asked::Otherwise(s) => left_is_over(marked, s),
        // Neither `lost` nor `right`: the entry drops no side.
        Asked::Token(_) => true,
        Asked::Call(_) => true,
        Asked::TokenAndCell(_, _) => true,
        Asked::Nothing => true,
    }
}

/// The first reason why the entry is refused, never Deep or Memory; None where all conditions of the entry are met. It looks at all nodes of the
/// term, which stays the same.
pub fn first_reason(
    marked: &mut Marked,
    program: &Program,
    answers: &Answers,
    entry: &Entry,
) -> Option<RuleFault>
    ensures refused { IfSome result (λ r. RefusedFor program.now answers.now entry.now marked.old r) }
    ensures met { IfNone result (MeetsAll program.now answers.now entry.now marked.old) }
    ensures kind { IfSome result (λ r. (r ≢ reason.Deep) × (r ≢ reason.Memory)) }
    ensures same { marked.new ≡ marked.old }
{
    if !is_in_turn(marked, program, answers, entry) {
        return Some(RuleFault::Cancel);
    }
    if !is_there(marked, program, answers, entry) {
        return Some(RuleFault::Mark);
    }
    if !fits(marked, program, answers, entry) {
        return Some(RuleFault::Form);
    }
    if !is_counted(marked, program, answers, entry) {
        return Some(RuleFault::Number);
    }
    if !is_answered(marked, program, answers, entry) {
        return Some(RuleFault::Answer);
    }
    if !is_on_time(marked, program, answers, entry) {
        return Some(RuleFault::Time);
    }
    if !is_over(marked, program, answers, entry) {
        return Some(RuleFault::Halted);
    }
    None
}
