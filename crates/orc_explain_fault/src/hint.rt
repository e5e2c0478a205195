//! A hint: a line ` = help: ` on what may have been meant. `document` is the file, its name and its text, in which a hint's place is.

use orc_report::{Document, Page};

/// A hint's words, with what fills them: `%` stands for `name`, `@` for `line L, column C` of the byte of the text at `at`, from 0, and `#` for `line
/// L` of it. `name` is empty if the words have no `%`, and `at` is 0 if they have neither `@` nor `#`.
#[derive(Clone, Copy)]
pub(crate) struct Hint<'a> {
    /// The words, with signs for what fills them.
    words: &'static str,
    /// What stands for `%`.
    name: &'a [u8],
    /// The byte of the text of which the place stands for `@`, or the line for `#`.
    at: usize,
}

impl<'a> Hint<'a> {
    /// Words that nothing fills.
    pub(crate) fn plain(words: &'static str) -> Hint<'a> {
        Hint {
            words,
            name: b"",
            at: 0,
        }
    }

    /// Words with a name.
    pub(crate) fn of_name(words: &'static str, name: &'a [u8]) -> Hint<'a> {
        Hint { words, name, at: 0 }
    }

    /// Words with a name and a byte of the text, from 0.
    pub(crate) fn of_place(words: &'static str, name: &'a [u8], at: usize) -> Hint<'a> {
        Hint { words, name, at }
    }
}

// Writes a hint's words, with their name and their place filled in.
fn say_form(page: &mut Page, document: &Document, hint: Hint) {
    for byte in hint.words.as_bytes() {
        match *byte {
            b'%' => page.word(hint.name),
            b'@' => page.place(document.text, hint.at),
            b'#' => page.line(document.text, hint.at),
            byte => page.byte(byte),
        }
    }
}

/// Writes the line of a hint.
pub(crate) fn say_hint(page: &mut Page, document: &Document, hint: Hint) {
    page.note("help: ");
    say_form(page, document, hint);
    page.say("\n");
}
