//! Laws of a ledger: each function's contract is the law. Nothing runs: to name a field shows the prover the ledger's invariant, from which the law
//! follows. A *token* marks a part of the program's term that runs. The *records* are what the ledger keeps of the tokens, the pending calls and the
//! open sides. A *marked term* is a term with its tokens, pending calls and cells (a cell stands for the x of an opened `f <x< g`). A run is *quiet*
//! if it hasn't halted, no rule applies and no tick is possible. `P` names the run: `P.listing` is its program and `P.sites` the table of its sites.

ghost use Rattle.orc_ledger_spec.specs.Moves.{CallsFit};
ghost use Rattle.orc_ledger_spec.specs.Offered.{NothingIsLost};
ghost use Rattle.orc_ledger.specs.Stood.{Stands};

use crate::ledger::Ledger;
use orc_log::Run;

/// Nothing of Orc is lost, in one statement. Of each entry with which the ledger's journal may go on by the rules:
///
/// - one of a token is that token's action, as [`Ledger::what`] answers it, and its new numbers are those that the ledger gives next;
/// - for a return the call pends, and [`Ledger::returned`] answers neither `Gone` nor `Wrong`;
/// - the side that a `lost` or a `right` ends is an open group; no call pends in it, its inner groups included, and each token in it makes a move of
///   marks next (an entry that uses no rule: `end`, `fork`, `seq` or `other`);
/// - a tick is one that [`Ledger::tick`] takes; [`Ledger::next`] says it, unless a token makes a move of marks next or a group that has published has
///   to be closed first;
/// - it is no cancel.
///
/// And where the run is quiet by the rules, `next` says that, with the same exceptions.
pub fn offered<P: Run>(ledger: &Ledger<P>)
    ensures { NothingIsLost P.listing P.sites ledger.now }
{
    // Shows the prover the invariant; nothing runs.
    let _journal = &ledger.journal;
}

/// In a program that the scope check has accepted, each call of a definition that a token makes fits its parameters. So [`Ledger::advance`] leaves no
/// token as it is but those that wait or call a site.
pub fn calls_fit<P: Run>(ledger: &Ledger<P>)
    ensures { CallsFit P.listing ledger.now }
{
    // Shows the prover the invariant; nothing runs.
    let _journal = &ledger.journal;
}

/// The journal leads, by Orc's rules, to the marked term that the records describe, and the records' groups are nested as the sides are (right sides
/// of a `<x<`, left sides of a `;`).
pub fn stands<P: Run>(ledger: &Ledger<P>)
    ensures { Stands P.listing P.sites ledger.now }
{
    // Shows the prover the invariant; nothing runs.
    let _journal = &ledger.journal;
}
