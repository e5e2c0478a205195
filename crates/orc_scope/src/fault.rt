//! Faults of names, and which of two is reported.

ghost use Rattle.std.specs.Prelude.{◌≡◌, ◌++◌, List, Some, true, false};
ghost use Rattle.orc_scope.specs.declared.fault.ScopeFault.{ScopeFault as Fault};
ghost use Rattle.orc_scope.specs.declared.fault.FaultKind.TheVariants.{Memory};
ghost use Rattle.orc_scope.specs.Faults.{scope_line, scope_status};
ghost use Rattle.orc_scope.specs.Scope.{IsBefore, IsLeast, rank};

use orc_syntax::Span;
use std::alloc::AllocError;
use std::error::Error;
use std::fmt;

/// What is wrong with a name, or where there is too much of something. A user sees it as a code, C1 to C9 in this order.
#[derive(Clone, Copy, Debug, PartialEq, Eq)]
pub enum FaultKind {
    /// C1: a name without a bracket that means nothing.
    Unbound,
    /// C2: a name without a bracket that means a definition or a site.
    NotValue,
    /// C3: a call of a definition with another number of arguments: it wants `want` and got `got`.
    Arity { want: usize, got: usize },
    /// C4: a second definition of a name.
    DefinedTwice,
    /// C5: a second parameter of the same name.
    ParameterTwice,
    /// C6: a called name that means a variable.
    CallOfVariable,
    /// C7: a called name that means nothing.
    NoSite,
    /// C8: a parameter or argument behind `MOST_ARGUMENTS` others, or over `MOST_NODES` nodes in all terms.
    TooMany,
    /// C9: memory was refused. This says nothing about the program.
    Memory,
}

/// A fault with its place in bytes from 0: that of the name, argument or expression. The start of the text for `Memory`.
#[derive(Clone, Copy, Debug, PartialEq, Eq)]
pub struct ScopeFault {
    pub kind: FaultKind,
    pub span: Span,
}

// Refused memory, which `?` hands on, is C9. It has no place in the text, so the place is the text's start.
impl From<AllocError> for ScopeFault {
    ghost from_gives = { λ _ f. f.kind ≡ Memory };

    fn from(_error: AllocError) -> ScopeFault {
        ScopeFault {
            kind: FaultKind::Memory,
            span: Span { start: 0, end: 0 },
        }
    }
}

// A fault's line: its code and its place.
impl fmt::Display for ScopeFault {
    ghost output = { λ f. Some (scope_line f) };

    fn fmt<W: fmt::Write>(&self, f: &mut fmt::Formatter<W>) -> fmt::Result {
        let start = self.span.start;
        let code = match self.kind {
            FaultKind::Unbound => "C1",
            FaultKind::NotValue => "C2",
            FaultKind::Arity { want: _, got: _ } => "C3",
            FaultKind::DefinedTwice => "C4",
            FaultKind::ParameterTwice => "C5",
            FaultKind::CallOfVariable => "C6",
            FaultKind::NoSite => "C7",
            FaultKind::TooMany => "C8",
            // Refused memory has no place in the text.
            FaultKind::Memory => return write!(f, "C9"),
        };
        write!(f, "{code} at {start}")
    }
}

impl Error for ScopeFault {}

impl ScopeFault {
    /// The process's exit status at this fault: 5 where memory was refused, else 1.
    pub fn status(self) -> u8
        ensures { result ≡ scope_status self.kind }
    {
        match self.kind {
            FaultKind::Memory => 5,
            _ => 1,
        }
    }
}

impl FaultKind {
    // The number in the code of this kind: 1 for C1, up to 9 for C9.
    fn rank(&self) -> u8
        ensures { result ≡ rank self.now }
    {
        match self {
            FaultKind::Unbound => 1,
            FaultKind::NotValue => 2,
            FaultKind::Arity { want: _, got: _ } => 3,
            FaultKind::DefinedTwice => 4,
            FaultKind::ParameterTwice => 5,
            FaultKind::CallOfVariable => 6,
            FaultKind::NoSite => 7,
            FaultKind::TooMany => 8,
            FaultKind::Memory => 9,
        }
    }
}

// Whether `f` is reported rather than `g`: it begins further left, or at the same place and its code's number isn't greater.
fn is_before(f: ScopeFault, g: ScopeFault) -> bool
    ensures yes { result ≡ true → IsBefore f g }
    ensures no { result ≡ false → IsBefore g f }
{
    f.span.start < g.span.start || (f.span.start == g.span.start && f.kind.rank() <= g.kind.rank())
}

/// The lesser of two faults: the one that stands before the other, or at the same place the one of the lower number. None where both are None.
pub fn lesser(first: Option<ScopeFault>, second: Option<ScopeFault>) -> Option<ScopeFault>
    ensures { (fs gs : List Fault) → IsLeast first fs → IsLeast second gs → IsLeast result (fs ++ gs) }
{
    let Some(f) = first else {
        return second;
    };
    let Some(g) = second else {
        return first;
    };
    if is_before(f, g) { first } else { second }
}
