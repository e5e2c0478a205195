//! How runs end, and the process's status for it.

ghost use Rattle.std.specs.Prelude.{◌≡◌};
ghost use Rattle.orc_outcome.specs.Status.{end_status_of};

/// How a run ended.
#[derive(Clone, Copy, Debug, PartialEq, Eq)]
pub enum End {
    /// The term has halted: no call and no publication can come of it any more.
    Halted,
    /// Nothing can happen any more, though the term has not halted.
    Quiet,
    /// The journal has as many entries as the limit allows, its entries `cancel` not counted, and the run is not quiet. Its term may have
    /// halted.
    Limit,
    /// The run needs more than a limit of `orc_rules::limits` allows: `MOST_TOKENS` tokens and pending calls, `MOST_GROUPS` open groups (the whole,
    /// right sides of `<x<` and left sides of `;`), or `MOST_FRAMES` frames of a token (the left sides of `>x>` around it).
    Full,
    /// Memory was refused during the run; what it did before is a run all the same.
    Memory,
}

/// What is reported of a run.
#[derive(Clone, Copy, Debug, PartialEq, Eq)]
pub struct Summary {
    /// Why the run ended.
    pub end: End,
    /// How many entries its journal has, its entries `cancel` counted.
    pub entries: u64,
    /// The time at its end, in units of logical time.
    pub now: u64,
    /// How many values it published.
    pub published: u64,
}

impl End {
    /// The process's status after a run that ended so.
    pub fn status(self) -> u8
        ensures { result ≡ end_status_of self }
    {
        match self {
            End::Halted => 0,
            End::Quiet => 3,
            End::Limit | End::Full => 4,
            End::Memory => 5,
        }
    }
}
