//! What explains a failure, or how a run ended, where that is asked for. A `Subject` has the titles and the texts of a command line's files, and a
//! `Document` those of one file.
//!
//! An explanation that can't be made, as where memory is refused, is left out. The job's result and its output are as without it.

ghost use Rattle.std.specs.Prelude.{◌≡◌, false, if◌then◌else◌, OnOk};
ghost use Rattle.std.specs.Io.KnownBytes.{Appends};
ghost use Rattle.orc_run.specs.Failures.{is_asked, told};
ghost use Rattle.orc_run.specs.declared.explained.Explained.TheVariants.{Nothing, Unasked};

use crate::failures::Failure;
use crate::faults::RunFault;
use crate::inputs::{ReadFault, title_of};
use crate::run_end::explain_run;
use orc_cli::ProgramPaths;
use orc_engine::EngineFault;
use orc_explain_fault::{
    Fault, explain, explain_refused, explain_rows, explain_test, explain_unread,
};
use orc_explain_refusal::explain_refusal;
use orc_load::Loaded;
use orc_outcome::Played;
use orc_output::{WriteFault, write_text};
use orc_report::{Document, Subject};
use orc_site::read_script;
use orc_verdict::CheckFault;
use orc_ways::fault::TestFault;
use std::alloc::{AllocError, Global};
use std::io::Write;

/// What explains a failure, or how a run ended.
#[derive(Drop)]
pub enum Explained {
    /// The command line doesn't ask for it.
    Unasked,
    /// There is nothing to tell, or memory for it was refused.
    Nothing,
    /// What is written to standard error, below the failure's line if there is one.
    Text(String),
}

// A run's fault as one that `orc_explain_fault` explains; None where another explanation is made, or where the fault's line says all.
fn fault_of(fault: RunFault) -> Option<Fault> {
    match fault {
        RunFault::Syntax(fault) => Some(Fault::Syntax(fault)),
        RunFault::Scope(fault) => Some(Fault::Scope(fault)),
        RunFault::Script(fault) => Some(Fault::Script(fault)),
        // `Explained::test` explains it, which has the test's text.
        RunFault::Test(_) => None,
        RunFault::Journal(fault) => Some(Fault::Journal(fault)),
        // `Explained::refusal` explains it, which has the journal.
        RunFault::Check(_) => None,
        // A number of workers or of entries is out of range; no command line that was accepted has such a one.
        RunFault::Engine(EngineFault::Range) => Some(Fault::Range),
        // Memory was refused to a run, to a search through runs, or to what a test tries (`NO_MEMORY`).
        RunFault::Engine(EngineFault::Memory) => Some(Fault::Run),
        // The engine itself is to blame.
        RunFault::Engine(EngineFault::Broken) => Some(Fault::Broken),
        // Doesn't come: no command line has sites of its own.
        RunFault::Engine(EngineFault::Site(_)) => None,
        RunFault::Write(_) => Some(Fault::Write),
    }
}

impl Explained {
    /// Before anything is explained: `is_asked` says whether the command line asks for explanations.
    pub fn new(is_asked: bool) -> Explained
        ensures { result ≡ (if is_asked then Nothing else Unasked) }
    {
        if is_asked {
            Explained::Nothing
        } else {
            Explained::Unasked
        }
    }

    /// The text of the explanation; empty where there is none.
    pub fn as_str(&self) -> &str
        ensures { result.now ≡ told self.now }
    {
        match self {
            Explained::Text(text) => text.as_str(),
            Explained::Unasked | Explained::Nothing => "",
        }
    }

    /// Whether the command line asks for explanations. Of `Unasked` alone it doesn't.
    pub(crate) fn is_asked(&self) -> bool
        ensures asked { result ≡ is_asked self.now }
        ensures unasked { self.now ≡ Unasked → result ≡ false }
    {
        match self {
            Explained::Unasked => false,
            Explained::Nothing | Explained::Text(_) => true,
        }
    }

    // Keeps a text as the explanation. If memory for the text was refused, what was kept before stays.
    fn tell(&mut self, text: Result<String, AllocError>) {
        if let Ok(text) = text {
            *self = Explained::Text(text);
        }
    }

    /// Explains a fault that was found in these files. If no explanation is asked for, or memory for it is refused, it adds nothing: `Unasked` stays
    /// so.
    pub fn fault(&mut self, alloc: Global, subject: &Subject, fault: RunFault)
        ensures { self.old ≡ Unasked → self.new ≡ Unasked }
    {
        if !self.is_asked() {
            return;
        }
        // An entry of the journal is refused: then the journal is needed, and `fault_of` gives None.
        if let RunFault::Check(fault) = fault {
            self.refusal(alloc, subject, fault);
        }
        if let Some(fault) = fault_of(fault) {
            self.tell(explain(alloc, subject, fault));
        }
    }

    /// Explains a fault of a test's text. `script` is the text of the script beside which the test was read. If no explanation is asked for, or
    /// memory for it is refused, it adds nothing.
    pub fn test(&mut self, alloc: Global, test: &Document, script: &[u8], fault: TestFault)
        ensures { self.old ≡ Unasked → self.new ≡ Unasked }
    {
        if !self.is_asked() {
            return;
        }
        // The script was read before: only memory can be refused here.
        if let Ok(others) = read_script(alloc, script) {
            self.tell(explain_test(alloc, test, &others, fault));
        }
    }

    /// Explains how a run of these files ended. `played` is the run with its journal, and `loaded` its program. If no explanation is asked for, or
    /// memory for it is refused, it adds nothing.
    pub fn ended(&mut self, alloc: Global, subject: &Subject, loaded: &Loaded, played: &Played)
        ensures { self.old ≡ Unasked → self.new ≡ Unasked }
    {
        if self.is_asked() {
            self.tell(explain_run(alloc, subject, loaded, played));
        }
    }

    /// Keeps a text on what looks like a mistake in a test as the explanation. If no explanation is asked for, or memory for the text was refused, it
    /// adds nothing.
    pub fn remarks(&mut self, text: Result<String, AllocError>)
        ensures { self.old ≡ Unasked → self.new ≡ Unasked }
    {
        if !self.is_asked() {
            return;
        }
        self.tell(text);
    }

    /// Writes the explanation alone, as below a job that was done. At a fault of the stream some of it may be missing at the end.
    pub fn write<V: Write>(&self, err: &mut V) -> Result<(), WriteFault>
        ensures { OnOk result (Appends (V.contents err.old) (V.contents err.new) (told self.now)) }
    {
        write_text(err, self.as_str().as_bytes())
    }

    // Explains why an entry of the journal is refused. Nothing is said where `subject` has no journal, as where `draw` makes the run itself.
    fn refusal(&mut self, alloc: Global, subject: &Subject, fault: CheckFault) {
        if let Some(journal) = subject.journal {
            let source = subject.source.text;
            let script = subject.script_text();
            self.tell(explain_refusal(alloc, source, script, &journal, fault));
        }
    }

    /// Explains why a file was not read, or what helps where a picture would have too many rows. Faults of texts and runs are explained where they
    /// are found, by `fault` and `test`. If no explanation is asked for, or memory for it is refused, it adds nothing.
    pub fn failure(&mut self, alloc: Global, failure: &Failure<'_>)
        ensures { self.old ≡ Unasked → self.new ≡ Unasked }
    {
        if !self.is_asked() {
            return;
        }
        match *failure {
            Failure::Unread(_, ReadFault::Memory) => self.tell(explain_refused(alloc)),
            Failure::Unread(path, ReadFault::Failed(why)) => {
                self.tell(explain_unread(alloc, title_of(path), why));
            }
            Failure::Rows => self.tell(explain_rows(alloc)),
            // A fault was explained where it was found; of the others the failure's line says all.
            Failure::Fault(_)
            | Failure::NoFailure(_)
            | Failure::NoJournal(_)
            | Failure::NoOutcome(_)
            | Failure::NoRun(_) => {}
        }
    }
}

/// The files of a command line without a journal, with their titles and their bytes. `answers` is the script's text; it isn't used without a script.
pub fn subject_of<'a>(
    program: ProgramPaths<'a>,
    source: &'a [u8],
    answers: &'a [u8],
) -> Subject<'a> {
    let mut subject = Subject::of_source(title_of(program.file), source);
    if let Some(path) = program.script {
        subject.script = Some(Document {
            name: title_of(path),
            text: answers,
        });
    }
    subject
}

/// The files of a command line that names a journal, with their titles and their bytes. `answers` is the script's text, and `text` the journal's.
pub fn subject_with_journal<'a>(
    program: ProgramPaths<'a>,
    source: &'a [u8],
    answers: &'a [u8],
    journal: &'a str,
    text: &'a [u8],
) -> Subject<'a> {
    let mut subject = subject_of(program, source, answers);
    subject.journal = Some(Document {
        name: title_of(journal),
        text,
    });
    subject
}
