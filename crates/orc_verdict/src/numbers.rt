//! The new numbers of an entry. A *mark* is the number of a token, and a *cell* stands for the variable of an opened `<x<`.

ghost use Rattle.std.specs.Prelude.{◌≡◌};
ghost use Rattle.orc_rules.specs.Journal.{Place};
ghost use Rattle.orc_rules.specs.Refusal.{IsCounted};
ghost use Rattle.orc_verdict.specs.Numbers.{AreNext};

use orc_rules::entry::Entry;

/// The numbers that an entry gives to what it makes, in the order of its line. Each is None if the entry makes no such thing.
#[derive(Clone, Copy, Debug, PartialEq, Eq)]
pub struct Numbers {
    /// The cell that an `open` makes.
    pub cell: Option<u64>,
    /// The call that a `call` makes.
    pub call: Option<u64>,
    /// The mark of a new token: of the left one where there are two.
    pub mark: Option<u64>,
    /// The mark of the right one of two new tokens.
    pub second: Option<u64>,
}

// No new numbers.
const NONE: Numbers = Numbers {
    cell: None,
    call: None,
    mark: None,
    second: None,
};

/// The new numbers of an entry, whether they are the next ones or not. By the contract an entry whose new numbers are the next ones (`AreNext`) meets
/// the condition Number (`IsCounted`).
pub fn numbers_of(entry: &Entry) -> Numbers
    ensures { (p : Place) → AreNext p result → IsCounted p entry.now }
{
    let mut numbers = NONE;
    match entry {
        Entry::Open(_, cell, mark, second) => {
            numbers.cell = Some(*cell);
            numbers.mark = Some(*mark);
            numbers.second = Some(*second);
        }
        Entry::Fork(_, mark, second) => {
            numbers.mark = Some(*mark);
            numbers.second = Some(*second);
        }
        Entry::Seq(_, mark)
        | Entry::Other(_, mark)
        | Entry::Def(_, mark)
        | Entry::Send(_, mark, _)
        | Entry::Return(_, mark, _)
        | Entry::Right(_, mark) => numbers.mark = Some(*mark),
        Entry::Call(_, call, _, _) => numbers.call = Some(*call),
        Entry::End(_)
        | Entry::Void(_)
        | Entry::ReturnHalt(_)
        | Entry::Bind(_, _, _)
        | Entry::Lost(_)
        | Entry::Publish(_, _)
        | Entry::Tick(_)
        | Entry::Cancel(_) => {}
    }
    numbers
}
