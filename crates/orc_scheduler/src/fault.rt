//! Why a program was not run to an end.

ghost use Rattle.std.specs.Prelude.{◌≡◌, Some};
ghost use Rattle.orc_scheduler.specs.Faults.{engine_line, engine_status};

use std::error::Error;
use std::fmt;

/// Why a program was not run to an end.
#[derive(Clone, Copy, PartialEq, Eq, Debug)]
pub enum EngineFault {
    /// The limit of entries is 0, or over the most that a journal may have; or there is no worker, or there are more than a run may have.
    Range,
    /// Memory was refused before the run began, or for its result.
    Memory,
    /// The engine is to blame: its workers found nothing to do where something was left. No run is known to end so.
    Broken,
    /// The sites answered the call with this number otherwise than the table says, or not when it was due.
    Site(u64),
}

// Writes the fault's code, which docs/orc.md (*Faults*) lists, and for `Site` the number of the call.
impl fmt::Display for EngineFault {
    ghost output = { λ f. Some (engine_line f) };

    fn fmt<W: fmt::Write>(&self, f: &mut fmt::Formatter<W>) -> fmt::Result {
        match *self {
            EngineFault::Range => write!(f, "E1"),
            EngineFault::Memory => write!(f, "E2"),
            EngineFault::Broken => write!(f, "E4"),
            EngineFault::Site(number) => write!(f, "E5 at call {number}"),
        }
    }
}

impl Error for EngineFault {}

impl EngineFault {
    /// The process's status at this fault: 5 where memory was refused, else 7.
    pub fn status(self) -> u8
        ensures { result ≡ engine_status self }
    {
        match self {
            EngineFault::Memory => 5,
            _ => 7,
        }
    }
}
