//! The explanation of each fault, and of files that can't be read.
//!
//! A function `say_..` writes what its comment names at the end of `page`. `page.note` begins a line ` = ` there, and `page.help` writes a help: a
//! line ` = help: ` that says what to do. The caller writes the fault's own line, with its code, above all that.

use crate::journal::say_journal;
use crate::scope::say_scope;
use crate::script::say_script;
use crate::syntax::{say_refused, say_syntax};
use orc_journal_text::JournalFault;
use orc_report::{Page, Subject};
use orc_rules::limits::MOST_ENTRIES;
use orc_scope::ScopeFault;
use orc_site::ScriptFault;
use orc_syntax::SyntaxFault;
use std::alloc::{AllocError, Global};

/// A fault that was found in the files of a command line, or in doing what it asks for.
#[derive(Clone, Copy)]
pub enum Fault {
    /// A fault of the source's text.
    Syntax(SyntaxFault),
    /// A fault of the source's names.
    Scope(ScopeFault),
    /// A fault of the script's text.
    Script(ScriptFault),
    /// A fault of the journal's text.
    Journal(JournalFault),
    /// The limit of a run is out of its range, 1 to `MOST_ENTRIES`, or the number of its workers is. The text speaks of the limit alone.
    Range,
    /// Memory was refused for a run, for its result or for a search through runs.
    Run,
    /// The engine found nothing to do where something was left.
    Broken,
    /// The output was not taken whole, or memory for its text was refused.
    Write,
}

/// Why a file could not be read.
#[derive(Clone, Copy, Debug, PartialEq, Eq)]
pub enum Unread {
    /// There is no such file.
    Missing,
    /// It is a folder.
    Folder,
    /// Its rights, or those of a folder on the way, forbid it.
    Forbidden,
    /// Anything else, as a device that fails.
    Other,
}

// Explains fault E4: the engine brought a run to no end.
fn say_broken(page: &mut Page) {
    page.note(
        "this is a fault of orc, not of your files: the engine found nothing to do where something was left\n",
    );
    page.help("please keep FILE and the script, and report them");
}

// Explains fault E1 by the range of the limit, which says how many entries the journal of a run may have. The number of workers may be out of its
// range instead; nothing is said of that.
fn say_range(page: &mut Page) {
    page.note("the limit is 1 to ");
    page.number(MOST_ENTRIES);
    page.say("\n");
}

// Writes the explanation of a fault. `subject` has the names and texts of the command line's files. `say_refused` takes the end of its line, which
// begins with "memory was refused while".
fn say_fault(page: &mut Page, alloc: Global, subject: &Subject, fault: Fault) {
    match fault {
        Fault::Syntax(fault) => say_syntax(page, alloc, &subject.source, fault),
        Fault::Scope(fault) => say_scope(page, alloc, subject, fault),
        Fault::Script(fault) => say_script(page, alloc, subject, fault),
        Fault::Journal(fault) => say_journal(page, alloc, subject, fault),
        Fault::Range => say_range(page),
        Fault::Run => say_refused(page, "the program was run"),
        Fault::Broken => say_broken(page),
        Fault::Write => page.note(
            "standard output took only a part of the text: a full device, or a reader that has gone\n",
        ),
    }
}

// Writes a line ` = ` that begins with a file's name; `words` are the rest of it, with its line feed.
fn say_of(page: &mut Page, name: &str, words: &str) {
    page.note("");
    page.path(name);
    page.say(words);
}

// Writes that there is no file of this name. If the name doesn't begin with `/`, a help says in which folder the file was looked for.
fn say_missing(page: &mut Page, name: &str) {
    page.note("there is no file ");
    page.path(name);
    page.say("\n");
    if !name.starts_with("/") {
        page.help(
            "a name that doesn't begin with `/` is looked for in the folder in which orc was started",
        );
    }
}

// Writes why the file of this name could not be read, and what to do.
fn say_unread(page: &mut Page, name: &str, why: Unread) {
    match why {
        Unread::Missing if name.is_empty() => {
            page.note("the name of the file is empty\n");
            page.help("`\"$F\"` is empty where the shell's variable F has no value");
        }
        Unread::Missing => say_missing(page, name),
        Unread::Folder => {
            say_of(page, name, " is a folder\n");
            page.help("name a file in it");
        }
        Unread::Forbidden => {
            say_of(page, name, " may not be read by this user\n");
            page.help("`ls -ld` shows the rights of a file, and of the folders on the way to it");
        }
        Unread::Other => say_of(
            page,
            name,
            " could not be read: a closed input, a device that fails, or links that lead in a circle\n",
        ),
    }
}

/// The text that explains why the file of this name could not be read, below its own line. The error is refused memory.
pub fn explain_unread(alloc: Global, name: &str, why: Unread) -> Result<String, AllocError> {
    let mut page = Page::new(alloc);
    say_unread(&mut page, name, why);
    page.finish()
}

/// The text that says how a picture gets fewer rows, below the line that says that it would have too many. The error is refused memory.
pub fn explain_rows(alloc: Global) -> Result<String, AllocError> {
    let mut page = Page::new(alloc);
    page.help(
        "draw the journal of a run with a smaller --limit; without --all there are fewer rows",
    );
    page.finish()
}

/// The text that explains that memory was refused for the command line or a file, below its own line. The error is refused memory.
pub fn explain_refused(alloc: Global) -> Result<String, AllocError> {
    let mut page = Page::new(alloc);
    say_refused(&mut page, "the command line or a file was read");
    page.finish()
}

/// The text that explains a fault of these files, below its own line. It is empty for a fault of a script or of a journal where `subject` has none.
/// The error is refused memory.
pub fn explain(alloc: Global, subject: &Subject, fault: Fault) -> Result<String, AllocError> {
    let mut page = Page::new(alloc);
    say_fault(&mut page, alloc, subject, fault);
    page.finish()
}
