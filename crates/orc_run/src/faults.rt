//! Why a program is not run, or a journal or a test not accepted: the line and the status are those of the cause.

ghost use Rattle.std.specs.Prelude.{◌≡◌, Some};
ghost use Rattle.orc_run.specs.Faults.{line, status};
ghost use Rattle.orc_run.specs.Running.{of_load};

use orc_engine::EngineFault;
use orc_journal_text::JournalFault;
use orc_load::LoadFault;
use orc_output::WriteFault;
use orc_scope::ScopeFault;
use orc_site::ScriptFault;
use orc_syntax::SyntaxFault;
use orc_verdict::CheckFault;
use orc_ways::fault::TestFault;
use std::error::Error;
use std::fmt;

/// Why a program was not run, a journal or a test not accepted, or the output not written.
#[derive(Clone, Copy, Debug, PartialEq, Eq)]
pub enum RunFault {
    /// The source is no program.
    Syntax(SyntaxFault),
    /// A name of the source means nothing that fits or is defined twice, or the program is too large.
    Scope(ScopeFault),
    /// The script's text is no script.
    Script(ScriptFault),
    /// The test's text is no test.
    Test(TestFault),
    /// The journal's text is no journal.
    Journal(JournalFault),
    /// An entry of the journal is refused.
    Check(CheckFault),
    /// The engine didn't bring the run to an end.
    Engine(EngineFault),
    /// The output was not taken whole, or memory for its text was refused.
    Write(WriteFault),
}

impl From<LoadFault> for RunFault {
    ghost from_gives = { λ fault f. f ≡ of_load fault };

    // A fault of loading, which `?` hands on: that of the text in question.
    fn from(fault: LoadFault) -> RunFault {
        match fault {
            LoadFault::Syntax(fault) => RunFault::Syntax(fault),
            LoadFault::Script(fault) => RunFault::Script(fault),
            LoadFault::Scope(fault) => RunFault::Scope(fault),
        }
    }
}

impl fmt::Display for RunFault {
    ghost output = { λ f. Some (line f) };

    // The line of the fault, without its LF: `orc: ` and what the fault says of itself. Of the output it says only `write`.
    fn fmt<W: fmt::Write>(&self, f: &mut fmt::Formatter<W>) -> fmt::Result {
        match *self {
            RunFault::Syntax(fault) => write!(f, "orc: {fault}"),
            RunFault::Scope(fault) => write!(f, "orc: {fault}"),
            RunFault::Script(fault) => write!(f, "orc: {fault}"),
            RunFault::Test(fault) => write!(f, "orc: {fault}"),
            RunFault::Journal(fault) => write!(f, "orc: {fault}"),
            RunFault::Check(fault) => write!(f, "orc: {fault}"),
            RunFault::Engine(fault) => write!(f, "orc: {fault}"),
            RunFault::Write(_) => write!(f, "orc: write"),
        }
    }
}

impl Error for RunFault {}

impl RunFault {
    /// The process's status at this fault: that of the fault which it has, and 6 where the output failed or memory for its text was refused.
    pub fn status(&self) -> u8
        ensures { result ≡ status self.now }
    {
        match *self {
            RunFault::Syntax(fault) => fault.status(),
            RunFault::Scope(fault) => fault.status(),
            RunFault::Script(fault) => fault.status(),
            RunFault::Test(fault) => fault.status(),
            RunFault::Journal(fault) => fault.status(),
            RunFault::Check(fault) => fault.why.status(),
            RunFault::Engine(fault) => fault.status(),
            RunFault::Write(_) => 6,
        }
    }
}
