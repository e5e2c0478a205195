//! Why a job was not done, its line on standard error, and its status.

ghost use Rattle.std.specs.Prelude.{◌≡◌, ◌++◌, OnOk, Some, codes};
ghost use Rattle.std.specs.Io.KnownBytes.{Appends};
ghost use Rattle.orc_run.specs.Failures.{failure_line, failure_status, told};

use crate::explained::Explained;
use crate::faults::RunFault;
use crate::inputs::ReadFault;
use orc_output::{WriteFault, write_text};
use orc_rules::limits::MOST_ROWS;
use std::fmt;
use std::io::Write;

/// Why a job was not done. Failures of a test and outcomes of a program have numbers from 1.
#[derive(Clone, Copy)]
pub enum Failure<'a> {
    /// The file at this path could not be read.
    Unread(&'a str, ReadFault),
    /// A file's text, an entry of a journal, the engine or the output is at fault.
    Fault(RunFault),
    /// A picture would have too many rows.
    Rows,
    /// A test has no failure with this number.
    NoFailure(u64),
    /// A program has no outcome with this number.
    NoOutcome(u64),
    /// The program has an outcome with this number, but no run was found that has it.
    NoRun(u64),
    /// The test has a failure with this number, but no order showed it, and no run of it was found.
    NoJournal(u64),
}

impl fmt::Display for Failure<'_> {
    ghost output = { λ f. Some (failure_line f) };

    // The line on standard error, without its LF.
    fn fmt<W: fmt::Write>(&self, f: &mut fmt::Formatter<W>) -> fmt::Result {
        match *self {
            // Refused memory isn't the file's fault, so no path is named.
            Failure::Unread(_, ReadFault::Memory) => write!(f, "orc: memory"),
            Failure::Unread(path, ReadFault::Failed(_)) => write!(f, "orc: read {path}"),
            Failure::Fault(fault) => write!(f, "{fault}"),
            Failure::Rows => write!(f, "orc: draw: over {MOST_ROWS} rows"),
            Failure::NoFailure(number) => write!(f, "orc: test: no failure {number}"),
            Failure::NoOutcome(number) => write!(f, "orc: outcomes: no outcome {number}"),
            Failure::NoRun(number) => {
                write!(f, "orc: outcomes: no run found with outcome {number}")
            }
            Failure::NoJournal(number) => {
                write!(f, "orc: test: no run found with failure {number}")
            }
        }
    }
}

impl Failure<'_> {
    /// The process's status: 1 where what is to be shown isn't there or has too many rows, else that of the fault.
    pub fn status(&self) -> u8
        ensures { result ≡ failure_status self.now }
    {
        match self {
            Failure::Unread(_, fault) => fault.status(),
            Failure::Fault(fault) => fault.status(),
            Failure::Rows
            | Failure::NoFailure(_)
            | Failure::NoJournal(_)
            | Failure::NoOutcome(_)
            | Failure::NoRun(_) => 1,
        }
    }
}

/// Reports a job that was not done on standard error (`err`): writes the failure's line, and below it what explains it, if that was asked for. The
/// error is that the stream didn't take all; some of the end may be missing then.
pub fn report<V: Write>(
    err: &mut V,
    failure: &Failure<'_>,
    explained: &Explained,
) -> Result<(), WriteFault>
    ensures { OnOk result (Appends (V.contents err.old) (V.contents err.new) (failure_line failure.now ++ (codes "\n" ++ told explained.now))) }
{
    if writeln!(err, "{failure}").is_err() {
        return Err(WriteFault);
    }
    write_text(err, explained.as_str().as_bytes())
}
