//! What happens in a run, as those outside see it: no marks, no cells, and no numbers of calls.

use orc_rules::value::{Args, Value};

/// What becomes of a call. Each call has the first of these, and at most one of the others later.
#[derive(Clone, Copy, PartialEq, Eq, Debug)]
pub enum Phase {
    /// It is made.
    Called,
    /// It is answered with this value.
    Answered(Value),
    /// It halts.
    Halted,
    /// It is cancelled.
    Cancelled,
}

/// What happens.
#[derive(Drop)]
pub enum Occurrence {
    /// Something becomes of a call of the site of this number with these arguments.
    Call(u32, Args, Phase),
    /// The run publishes a value.
    Published(Value),
}

/// What happens, and when.
#[derive(Drop)]
pub struct Happening {
    /// When it happens, in units of logical time.
    pub time: u64,
    pub what: Occurrence,
}
