//! What a run goes by, and the words of its groups. A *group* is what runs in one right side of a `<x<`, one left side of a `;`, or the whole
//! program. A *pass* stands for one record (a token, a pending call, an inner group) in it. In contracts `P` stands for the run and its table of
//! words.

use orc_ledger::Inputs;
use orc_log::Run;
use orc_word::{Groups, Naming};

/// What a run goes by, namely its graph and the table that answers its calls, and the words of its groups.
#[derive(Drop)]
pub(crate) struct Setup<'h, P: Run + Naming> {
    // The graph, which has the program's nodes, and the table of what sites answer.
    pub inputs: &'h Inputs<'h, P>,
    // The words: a group's word counts the passes to that group.
    pub groups: &'h Groups<P>,
}
