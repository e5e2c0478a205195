//! The files that a command line names, with what was read of them.

ghost use Rattle.std.specs.Prelude.{◌≡◌};

use crate::document::Document;

/// The files of a command line.
#[derive(Clone, Copy)]
pub struct Subject<'a> {
    /// The program's file.
    pub source: Document<'a>,
    /// None where no script was given.
    pub script: Option<Document<'a>>,
    /// None where the command line names no journal.
    pub journal: Option<Document<'a>>,
}

impl<'a> Subject<'a> {
    /// A program's file alone, without a script and a journal.
    pub fn of_source(name: &'a str, text: &'a [u8]) -> Subject<'a>
        ensures name { result.source.name.now ≡ name.now }
        ensures text { result.source.text.now ≡ text.now }
        ensures script { result.script ≡ None }
        ensures journal { result.journal ≡ None }
    {
        Subject {
            source: Document { name, text },
            script: None,
            journal: None,
        }
    }

    /// The script's text, empty where no script was given.
    pub fn script_text(&self) -> &'a [u8] {
        match self.script {
            Some(script) => script.text,
            None => b"",
        }
    }
}
