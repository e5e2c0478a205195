//! A gate, by which the caller of a run can hold a worker before it makes a call. A test forces an order of events by it.

ghost use Rattle.std.specs.Prelude.{◌≡◌, true};

/// The worker that has recorded a call passes it, once for each call, before the call is made and first polled. A worker is a thread of the run, and
/// to poll a call is to ask for its answer. [`Open`](crate::Open) is a gate that holds nobody.
pub trait Gate {
    // What a caller may know of a gate: that it holds nobody, so that `is_open` answers true. By default nothing is known.
    ghost holds_nobody: { Self → Type 0 } = { λ _. ⊥ };

    /// Passes with the call of that number, from 1. It returns when the worker may go on.
    fn pass(&self, number: u64);

    /// Whether `pass` may wait for something that another thread does. The default is true.
    fn may_wait(&self) -> bool {
        true
    }

    /// Whether it holds nobody, and nobody notices who passes. Then a caller need not pass it.
    fn is_open(&self) -> bool
        ensures { holds_nobody self.now → result ≡ true };
}
