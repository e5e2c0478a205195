//! Writing to an output: any text, what a run published, and its journal. Each text is written whole, or a prefix of it and then a fault.
#![tactic(auto)]

mod output;
mod pieces;
mod publications;

pub use output::{WriteFault, write_text};
pub use pieces::write_journal;
pub use publications::write_values;
