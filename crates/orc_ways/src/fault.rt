//! Why a test isn't read. A *service* is a site whose answers the test says, a *claim* what has to hold of a run. A test has the sections `given`,
//! for services, `always`, for claims, and its cases, for both. A *way* is one script by which a case's services may answer.

ghost use Rattle.std.specs.Prelude.{◌≡◌, Some};
ghost use Rattle.orc_ways.specs.Faults.{test_line, test_status};

use std::error::Error;
use std::fmt;

/// Why a test isn't read. Lines are counted from 1.
#[derive(Clone, Copy, PartialEq, Eq, Debug)]
pub enum TestFault {
    /// T1: the first line that isn't a line of a test, or that names one site too many.
    Line(usize),
    /// T2: memory was refused.
    Memory,
    /// T3: over `LONGEST_SOURCE` bytes.
    Long,
    /// T4: the first line that isn't allowed where it stands: a service before any section or below `always`, a claim before any section or below
    /// `given`, a second `given`, `always` or case of that name, a built-in site as a service, or one case, claim or service too many.
    Place(usize),
    /// T5: the first line that names a site that no service has with so many arguments, and whose name neither a built-in site nor a line of the
    /// script has.
    Unknown(usize),
    /// T6: the line of the first case with over `MOST_WAYS` ways. `read_test` never gives this fault; the caller that counts the ways does.
    Ways(usize),
}

// The fault's code and its line, as `T4 at line 9`, without `orc: ` before it.
impl fmt::Display for TestFault {
    ghost output = { λ f. Some (test_line f) };

    fn fmt<W: fmt::Write>(&self, f: &mut fmt::Formatter<W>) -> fmt::Result {
        match *self {
            TestFault::Line(number) => write!(f, "T1 at line {number}"),
            TestFault::Memory => write!(f, "T2"),
            TestFault::Long => write!(f, "T3"),
            TestFault::Place(number) => write!(f, "T4 at line {number}"),
            TestFault::Unknown(number) => write!(f, "T5 at line {number}"),
            TestFault::Ways(number) => write!(f, "T6 at line {number}"),
        }
    }
}

impl Error for TestFault {}

impl TestFault {
    /// The status with which a command ends at this fault: 5 if memory was refused, and otherwise 1.
    pub fn status(self) -> u8
        ensures { result ≡ test_status self }
    {
        match self {
            TestFault::Memory => 5,
            _ => 1,
        }
    }
}
