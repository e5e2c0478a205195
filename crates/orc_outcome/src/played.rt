//! What an engine returns: a run that has ended, or why there is none.

use crate::end::Summary;
use orc_journal::Journal;
use orc_rules::value::Value;

/// A run that has ended.
pub struct Played {
    /// How the run ended, with its numbers of entries and values and its last time.
    pub summary: Summary,
    /// The values that the run published, in order.
    pub published: Vec<Value>,
    /// Its journal in the second version, the one that has an entry `cancel` for each call that is cancelled. None if it wasn't kept.
    pub journal: Option<Journal>,
}

// Written out, so that a caller's proof sees one call and not the drop of each field.
impl Drop for Played {
    fn drop(self) {
        let Played {
            summary: _,
            published: _,
            journal: _,
        } = self;
    }
}

/// Why a program was not run to an end.
#[derive(Clone, Copy, PartialEq, Eq, Debug)]
pub enum PlayFault {
    /// Memory was refused before the run began, while the cancels of a bind (of the calls that it dropped) were recorded, or while the engine
    /// searched for a run.
    Memory,
    /// A mistake of the engine: the rules refused the entry that it chose, or it found no entry although the run is neither halted nor quiet.
    Broken,
}
