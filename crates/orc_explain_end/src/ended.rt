//! A run that has ended.

use orc_journal::Journal;
use orc_outcome::Summary;
use orc_rules::answers::Answers;
use orc_rules::program::Program;

/// A run that has ended, with its journal.
#[derive(Clone, Copy)]
pub struct Ended<'a> {
    pub program: &'a Program,
    /// The table that answered its calls.
    pub answers: &'a Answers,
    /// How and when it ended, and how many entries and publications it had.
    pub summary: Summary,
    pub journal: &'a Journal,
}
