//! The nodes that wait, by the due times of their calls. They are nodes of the *marked term*, which is what is left of the program's term after the
//! entries of a journal. A node *waits* while the call that was put there pends: it hasn't returned and wasn't dropped.

ghost use Rattle.std.specs.Prelude.{◌≡◌, ℕ, [], List, IfErr, IfOk, IfSome, OnOk, MatchOption};
ghost use Rattle.orc_checker.specs.DueTimes.{IsFirst, IsNoted, Drops};
ghost use Rattle.orc_rules.specs.declared.entry.RuleFault.TheVariants as reason;

use orc_rules::entry::RuleFault;
use std::alloc::{AllocError, Global};
use std::collections::BTreeSet;
use std::marker::Model;

/// Nodes of the marked term that wait for calls, with the calls' due times in units of logical time, the earliest first. A node may stay here that
/// waits no more.
#[derive(Drop)]
pub(crate) struct Due {
    /// The due time first and then the node, so that the set has them by their times.
    nodes: BTreeSet<(u64, u32)>,
}

// In contracts a `Due` is the list of its times and nodes. `IsNoted` says that it has a node with that time, `IsFirst` that none is earlier, and
// `Drops` that the first one goes.
impl Model for Due {
    ghost Value = { List (ℕ × ℕ) };

    ghost view = { λ d. d.nodes.keys };
}

impl Due {
    /// The empty set: no node is noted.
    pub(crate) fn new(alloc: Global) -> Due
        ensures { result ≡ [] }
    {
        Due {
            nodes: BTreeSet::new(alloc),
        }
    }

    /// A copy of the set of times and nodes. The error is refused memory.
    pub(crate) fn copy(&self) -> Result<Due, AllocError>
        ensures { IfOk result (λ d. d ≡ self.now) }
    {
        let nodes = self.nodes.clone()?;
        Ok(Due { nodes })
    }

    /// Adds `node`, a node of the marked term that waits for a call, with the time at which the call is due. If `time` is None, the call is never
    /// due, and nothing is added. The error is refused memory; what was noted stays.
    #[inline(always)]
    fn put(&mut self, time: Option<u64>, node: u32) -> Result<(), AllocError>
        ensures noted { OnOk result (IfSome time (λ t. IsNoted self.new t node)) }
        ensures kept { (t i : ℕ) → IsNoted self.old t i → IsNoted self.new t i }
    {
        if let Some(t) = time {
            self.nodes.insert((t, node))?;
        }
        Ok(())
    }

    /// Adds `node`, a node of the marked term that waits for a call, with the time at which the call is due; nothing is added where that is never
    /// (`time` is None). The error is Memory; what was noted stays.
    #[inline(always)]
    pub(crate) fn note(&mut self, time: Option<u64>, node: u32) -> Result<(), RuleFault>
        ensures noted { OnOk result (IfSome time (λ t. IsNoted self.new t node)) }
        ensures kept { (t i : ℕ) → IsNoted self.old t i → IsNoted self.new t i }
        ensures why { IfErr result (λ r. r ≡ reason.Memory) }
    {
        self.put(time, node).map_err(|_| RuleFault::Memory)
    }

    /// The earliest due time that is noted, with the node that was noted with it, which may wait no more. None where nothing is noted.
    pub(crate) fn first(&self) -> Option<(u64, u32)>
        ensures { MatchOption result (self.now ≡ []) (IsFirst self.now) }
    {
        match self.nodes.first() {
            Some(first) => Some(*first),
            None => None,
        }
    }

    /// Drops the note with the earliest time; nothing changes where nothing is noted.
    pub(crate) fn drop_first(&mut self)
        ensures { Drops self.old self.new }
    {
        let _first = self.nodes.pop_first();
    }
}
