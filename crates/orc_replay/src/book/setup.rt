//! What each call of a book is handed, and how many words and passes a run has.

use orc_ledger::Inputs;
use orc_log::Run;
use orc_rules::limits::{MOST_ENTRIES, MOST_GROUPS};
use orc_word::{Groups, Naming};

/// How many words a run has where its row says nothing: as many for killed groups as for open ones, since a killed group's word stays taken until its
/// last pass is left.
pub(crate) const WORDS: u32 = 2 * MOST_GROUPS as u32;

/// How many passes a run has if its row says nothing. That is more than its entries need: none takes more than the two of an `open`.
pub(crate) const PASSES: u32 = 4 * MOST_ENTRIES as u32;

/// The program and the table of sites of a run, and the words of its groups: a word counts the passes that name its group. A group is what runs in
/// one right side of a `<x<`, one left side of a `;`, or the whole program; a pass stands for one record (a token, a call, an inner group) in it. In
/// contracts `P` stands for the run and its table of words.
#[derive(Drop)]
pub(crate) struct Setup<'h, P: Run + Naming> {
    // The program and the table of sites.
    pub inputs: &'h Inputs<'h, P>,
    // The words.
    pub groups: &'h Groups<P>,
}
