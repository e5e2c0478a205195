//! An end of a run, as `search` tells it.

use orc_outcome::End;
use orc_rules::value::Value;

/// An end of a run: how it ended, and what it published.
#[derive(Drop)]
pub struct Ended {
    /// Halted (all that ran has come to `stop`), or Quiet (something still waits, for what never happens).
    pub end: End,
    /// What was published, in order.
    pub values: Vec<Value>,
}
