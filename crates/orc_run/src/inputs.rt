//! The files that a command line names.

ghost use Rattle.std.specs.Prelude.{◌≡◌, ℕ, List, IfOk};
ghost use Rattle.std.specs.declared.option.Option.{Option};
ghost use Rattle.std.specs.declared.option.Option.TheVariants.{None};
ghost use Rattle.std.specs.Io.KnownBytes.{Keeps};
ghost use Rattle.orc_run.specs.Inputs.{IsHeld};
ghost use Rattle.orc_run.specs.Status.{read_status_of};

use orc_cli::STANDARD_INPUT;
use orc_explain_fault::Unread;
use std::io::Read;

/// What explanations and pictures call the file at a path: the path, or `standard input` for `-`.
pub(crate) fn title_of(path: &str) -> &str {
    if path == STANDARD_INPUT {
        "standard input"
    } else {
        path
    }
}

/// Why a file could not be read.
#[derive(Clone, Copy, Debug, PartialEq, Eq)]
pub enum ReadFault {
    /// Memory for its bytes was refused.
    Memory,
    /// The file could not be read, for this reason.
    Failed(Unread),
}

/// Where a command line's files are read from.
pub trait Files {
    /// What the file at a path holds, where that is known, as of files in memory. Nothing is known of the system's files.
    ghost holds: { Self → List ℕ → Option (List ℕ) } = { λ _ _. None };

    /// A file that is read piece by piece.
    type Reader: Read + Drop;

    /// All bytes of the file at this path; where it is known what the file holds (`holds`), these. What the files hold stays the same. The fault is
    /// refused memory, or the reason why the file can't be read.
    fn read(&mut self, path: &str) -> Result<Vec<u8>, ReadFault>
        ensures held { IfOk result (λ bytes. IsHeld (holds self.old path.now) bytes.items) }
        ensures same { (at : List ℕ) → holds self.new at ≡ holds self.old at };

    /// The file at this path, of which nothing is read yet. The fault is the reason why it can't be opened, or refused memory.
    fn open(&mut self, path: &str) -> Result<Self::Reader, ReadFault>
        ensures held { IfOk result (λ file. Keeps (holds self.old path.now) (Self.Reader.remaining file)) }
        ensures same { (at : List ℕ) → holds self.new at ≡ holds self.old at };
}

impl ReadFault {
    /// The process's status where a file could not be read.
    pub fn status(self) -> u8
        ensures { result ≡ read_status_of self }
    {
        match self {
            ReadFault::Memory => 5,
            ReadFault::Failed(_) => 6,
        }
    }
}
