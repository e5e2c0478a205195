//! A gate that holds nobody, for runs that nobody wants to hold up. Another gate can hold a worker (a thread of the run) before it makes a call.

ghost use Rattle.std.specs.Prelude.{◌≡◌, true, false};

use crate::gate::Gate;

/// A gate that holds nobody.
#[derive(Clone, Copy)]
pub struct Open;

impl Gate for Open {
    // What a caller may know of this gate: that it holds nobody.
    ghost holds_nobody = { λ _. Unit {0} };

    // Returns at once.
    fn pass(&self, _number: u64) {}

    // False: `pass` returns at once.
    fn may_wait(&self) -> bool
        ensures { result ≡ false }
    {
        false
    }

    // True: a caller need not pass this gate.
    fn is_open(&self) -> bool
        ensures { result ≡ true }
    {
        true
    }
}
