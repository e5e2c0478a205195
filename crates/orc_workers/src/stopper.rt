//! The reason why a run stops, which is bound once and never changes. A *cell* (`orc_cell`) is bound at most once, to a value in a box that the
//! binder hands in. All threads may read it, without a lock.

use orc_cell::Cell;
use orc_scheduler::Stop;
use std::alloc::{AllocError, Global};

/// Binds the cell that has the reason why a run stops. The stopper is kept under the lock, with the one box that a bind of a cell takes. Workers read
/// the cell without the lock; under the lock they read `reason` here, which takes no atomic operation.
#[derive(Drop)]
pub(crate) struct Stopper {
    // This side of the cell, which binds it.
    why: Cell<Stop>,
    // Why the run has stopped; None while it goes on.
    reason: Option<Stop>,
    // The box that the bind takes; none once it did. It is made before the run begins, so that no run goes on for want of memory. Its value isn't
    // used.
    unused: Option<Box<Stop>>,
}

impl Stopper {
    /// For the cell `why`, which isn't bound yet: the run goes on. The error is refused memory.
    pub(crate) fn new(alloc: Global, why: &Cell<Stop>) -> Result<Stopper, AllocError> {
        let why = why.share()?;
        let unused = Some(Box::new(alloc, Stop::Broken)?);
        Ok(Stopper {
            why,
            reason: None,
            unused,
        })
    }

    /// The run stops for this reason, if it hasn't stopped yet.
    pub(crate) fn stop(&mut self, reason: Stop) {
        // Without the box the run has stopped before, and its first reason stands.
        if let Some(mut bound) = self.unused.take() {
            *bound = reason;
            self.reason = Some(reason);
            // Nobody else binds the cell, so the box doesn't come back, and `unused` is None from now on.
            self.unused = self.why.bind(bound).err();
        }
    }

    /// Why the run has stopped; None while it goes on.
    pub(crate) fn reason(&self) -> Option<Stop> {
        self.reason
    }
}
