//! When the calls that pend are due. A call *pends* until it returns or is dropped. A `Kept` is a call as the checker stores it, with what the table
//! of sites says of it (`found`) and when it was made (`at`). The nodes are those of the marked term, which is what is left of the program's term
//! after the entries before.

ghost use Rattle.std.specs.Prelude.{◌≡◌, ℕ, List, IfSome, IfNone};
ghost use Rattle.std.specs.Bool.{Decides};
ghost use Rattle.orc_checker.specs.NextDue.{AreNoted, IsDueOf, IsDueAt, IsNext};

use crate::due::Due;
use crate::kept::Kept;
use crate::rest::Rest;
use orc_calls::due_time;
use orc_term::arena::{Kind, Tip};
use orc_term::nodes::Nodes;

/// When the call of this number, from 1, is due, in units of logical time. None if there is no such call, or it is never due.
fn due_of(calls: &Vec<Kept>, call: u64) -> Option<u64>
    ensures due { IfSome result (IsDueOf calls.now.items call) }
    ensures never { IfNone result ((t : ℕ) → IsDueOf calls.now.items call t → ⊥) }
{
    // Calls count from 1, and call k is at place k - 1.
    if call == 0 {
        return None;
    }
    match calls.get((call - 1) as usize) {
        // No call of this number was made.
        None => None,
        Some(made) => {
            let known = made.called();
            due_time(known.found, known.at)
        }
    }
}

/// Whether node `i` of the marked term waits for a call that is due at the time `time`. `calls` has all calls that were made. False for a node
/// without a call, or whose call is due at another time or never.
fn waits_until(nodes: &Nodes, calls: &Vec<Kept>, i: usize, time: u64) -> bool
    ensures { Decides result (IsDueAt nodes.now.items calls.now.items i time) }
{
    let Kind::Leaf(tip) = nodes.node_at(i).kind else {
        return false;
    };
    match tip {
        Tip::Waits(call) => match due_of(calls, call) {
            Some(due) => due == time,
            None => false,
        },
        _ => false,
    }
}

/// The least due time of the calls that pend, None if none is ever due. `due` has notes of due times with nodes; the clause `AreNoted` asks that each
/// pending call that is ever due has one. The notes before the answer are of calls that pend no more: they are taken out of `due`.
fn next_due(nodes: &Nodes, calls: &Vec<Kept>, due: &mut Due) -> Option<u64>
    requires { AreNoted nodes.now.items calls.now.items due.old }
    ensures next { IsNext nodes.now.items calls.now.items result }
    ensures noted { AreNoted nodes.now.items calls.now.items due.new }
{
    while let Some((time, node)) = due.first() {
        if waits_until(nodes, calls, node as usize, time) {
            return Some(time);
        }
        // The node waits no more, or for a call that isn't due at this time.
        due.drop_first();
    }
    None
}

impl Rest {
    /// The least due time of the calls for which nodes wait, in units of logical time. None if none is ever due. Earlier notes, of nodes that wait no
    /// more, are taken out of `due`. The clause `AreNoted` asks that `due` has a note of each pending call that is ever due.
    pub(crate) fn next_due(&self, nodes: &Nodes, due: &mut Due) -> Option<u64>
        requires { AreNoted nodes.now.items self.now.calls due.old }
        ensures next { IsNext nodes.now.items self.now.calls result }
        ensures noted { AreNoted nodes.now.items self.now.calls due.new }
    {
        next_due(nodes, &self.calls, due)
    }

    /// Sets the time now, in units of logical time. All else that is kept stays.
    pub(crate) fn set_time(&mut self, time: u64)
        ensures { self.new ≡ record { calls = self.old.calls; counts = self.old.counts; time = time; to_cancel = self.old.to_cancel; cancels = self.old.cancels } }
    {
        self.time = time;
    }
}
