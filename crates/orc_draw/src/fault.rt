//! Why a journal isn't drawn.

use std::alloc::{AllocError, AllocFailed};

/// Why a journal isn't drawn.
#[derive(Clone, Copy, Debug, PartialEq, Eq)]
pub enum DrawFault {
    /// The picture would have over `MOST_ROWS` rows.
    Rows,
    /// Memory was refused.
    Memory,
}

// With these two impls `?` turns refused memory, by either type of error, into the fault `Memory`.
impl From<AllocError> for DrawFault {
    fn from(_error: AllocError) -> DrawFault {
        DrawFault::Memory
    }
}

impl<T: Drop> From<AllocFailed<T>> for DrawFault {
    fn from(_refused: AllocFailed<T>) -> DrawFault {
        DrawFault::Memory
    }
}
