//! Journals as text. Each entry has one line, and a text is read exactly if it is the text of a journal.
//!
//! `writer` and `reader` are about one line, over the kinds of entries; `text` about a journal in memory; `lines` about a text that comes piece by
//! piece.
#![tactic(auto)]

mod fit;
mod lines;
mod longest;
mod pieces;
mod reader;
mod tail;
mod text;
mod writer;

pub use fit::has_line;
pub use lines::{Lines, LinesFault};
pub use reader::read_entry;
pub use text::{JournalFault, read_journal, write_header, write_journal};
pub use writer::{write_entry, write_publications, write_value};
