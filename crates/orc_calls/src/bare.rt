//! How many calls without arguments there were of each site. A *site* is a service or a built-in function that a program calls; the table of sites
//! numbers them from 0.

ghost use Rattle.std.specs.Prelude.{◌≡◌, ◌<◌, [], ℕ, length, slice_index_or, IfOk, OnOk, OnErr};
ghost use Rattle.orc_calls.specs.Counting.{IsSetAt};

use std::alloc::{AllocError, Global};
use std::marker::Model;

/// For each site, by its number from 0, which of its calls without arguments is the next one, from 1: 2 after the first such call. It is 0 for a site
/// of which no such call was made.
#[derive(Drop)]
pub(crate) struct BareCounts {
    next: Vec<u64>,
}

// Contracts see the list of these numbers; a site's number is its place there, from 0.
impl Model for BareCounts {
    ghost use Rattle.std.specs.Prelude.{ℕ, List};

    ghost Value = { List ℕ };

    ghost view = { λ b. b.next.items };
}

impl BareCounts {
    /// A list in which no call is counted yet.
    pub(crate) fn new(alloc: Global) -> BareCounts
        ensures { result ≡ [] }
    {
        BareCounts {
            next: Vec::new(alloc),
        }
    }

    /// A copy of these counts. The error is refused memory.
    pub(crate) fn copy(&self, alloc: Global) -> Result<BareCounts, AllocError>
        ensures { IfOk result (λ b. b ≡ self.now) }
    {
        let next = Vec::from_slice(alloc, &self.next)?;
        Ok(BareCounts { next })
    }

    /// Which call without arguments of the site with this number is the next one, from 1; 0 where there was none yet.
    #[inline(always)]
    pub(crate) fn get(&self, site: u32) -> u64
        ensures { result ≡ slice_index_or self.now site 0 }
    {
        match self.next.get(site as usize) {
            Some(next) => *next,
            None => 0,
        }
    }

    // Makes the list long enough to have a place for the site with this number. What is counted stays. If memory is refused, nothing changes.
    fn reach(&mut self, site: usize) -> Result<(), AllocError>
        ensures same { (n : ℕ) → slice_index_or self.new n 0 ≡ slice_index_or self.old n 0 }
        ensures there { OnOk result (site < length self.new) }
        ensures refused { OnErr result (self.new ≡ self.old) }
    {
        let Some(len) = site.checked_add(1) else {
            // Not reached: a site's number has 32 bits.
            return Err(AllocError);
        };
        if len <= self.next.len() {
            return Ok(());
        }
        // 0: no call of these sites without arguments was counted.
        self.next.resize(len, 0)
    }

    /// Notes that the next call without arguments of the site with the number `site` is the one with the number `next`, from 1. The error is refused
    /// memory, and then nothing changes. What is counted of other sites stays.
    pub(crate) fn set(&mut self, site: u32, next: u64) -> Result<(), AllocError>
        ensures set { OnOk result (IsSetAt site next self.old self.new) }
        ensures refused { OnErr result (self.new ≡ self.old) }
    {
        self.reach(site as usize)?;
        // `reach` has made this place, so there is one.
        if let Some(there) = self.next.get_mut(site as usize) {
            *there = next;
        }
        Ok(())
    }
}
