//! The publication that a sub-run (the run of one call of a definition, apart from the run that makes the call) holds back if a `>x>` or a side
//! encloses its call: what encloses the call gets the value, and the sub-run publishes nothing itself. A *slot* is the place of a token in the
//! ledger, which has a run's records. A *side* is the right one of a `<x<` or the left one of a `;`.

/// The value that a sub-run holds back, and whether the sub-run can still replace its call.
#[derive(Clone, Copy)]
pub(crate) struct Holding {
    // Whether what the run publishes is held back.
    is_on: bool,
    // The slot of the token that was held back last, on a value; None if none was.
    last: Option<usize>,
    // Whether the sub-run can't replace its call any more.
    is_unusable: bool,
}

impl Holding {
    /// Nothing is held back.
    pub(crate) fn new() -> Holding {
        Holding {
            is_on: false,
            last: None,
            is_unusable: false,
        }
    }

    /// What the run publishes is held back from now on.
    pub(crate) fn begin(&mut self) {
        self.is_on = true;
    }

    /// Whether what this run publishes is held back: only a sub-run does so, and only if a `>x>` or a side encloses its call.
    #[inline(always)]
    pub(crate) fn is_on(&self) -> bool {
        self.is_on
    }

    /// Holds back the token in this slot. If another one is held back already, the sub-run becomes unusable.
    pub(crate) fn keep(&mut self, slot: usize) {
        self.is_unusable = self.is_unusable || self.last.is_some();
        self.last = Some(slot);
    }

    /// The slot of the token that was held back last, if there is one.
    pub(crate) fn last(&self) -> Option<usize> {
        self.last
    }

    /// The sub-run is unusable: it has made a call that isn't answered at once, or would publish from the left side of an otherwise.
    #[inline(always)]
    pub(crate) fn give_up(&mut self) {
        self.is_unusable = true;
    }

    /// Whether the sub-run can't replace its call: it has made a call that wasn't answered at once, would publish from the left side of an otherwise,
    /// or has yielded two values though only one can be merged.
    pub(crate) fn is_unusable(&self) -> bool {
        self.is_unusable
    }
}
