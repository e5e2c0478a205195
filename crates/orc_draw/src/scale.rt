//! The width of a picture, shared among its times. An instant is a time that the picture shows, and a slot is the place of one entry within it.
//!
//! An instant is a band as wide as its slots; between two bands is a gap. If the longest time between is at most 25 times the shortest, gaps are in
//! proportion to the time between; otherwise to the number of its binary digits and one more.

ghost use Rattle.std.specs.Prelude.{◌≤◌};

use crate::slot::{Instant, Slot};
use std::alloc::{AllocError, Global};

/// How many parts a column of a text, or a pixel of an SVG, has. Places are counted in parts, so that shares of a width can be whole numbers.
pub const PARTS: u64 = 1_000_000;

/// How wide a picture is, and how it is shared, all in parts.
#[derive(Clone, Copy)]
pub struct Measure {
    /// The width of the plot.
    pub width: u64,
    /// The width of a slot where there is room enough.
    pub slot: u64,
    /// The least width of a gap, where there is room enough.
    pub gap: u64,
    /// What is left free at the right end.
    pub margin: u64,
}

/// Where each instant's band begins (`begins`), how wide a slot is, and where the last band ends, all in parts from the plot's left edge.
#[derive(Drop)]
pub struct Scale {
    pub begins: Vec<u64>,
    pub slot: u64,
    pub end: u64,
    /// Whether the gaps are in proportion to the time between.
    pub is_true: bool,
}

// a * b / c, rounded down, where a c of 0 counts as 1. A share that is over 64 bits is the greatest number of them.
fn share(a: u64, b: u64, c: u64) -> u64 {
    let product = (a as u128).saturating_mul(b as u128);
    let quotient = product / (c.max(1) as u128);
    match u64::try_from(quotient) {
        Ok(share) => share,
        Err(_) => u64::MAX,
    }
}

// The time between each instant and the next one: one gap less than instants. The error is refused memory.
fn gaps_of(alloc: Global, instants: &[Instant]) -> Result<Vec<u64>, AllocError> {
    let mut gaps = Vec::new(alloc);
    let mut before: Option<u64> = None;
    for instant in instants {
        if let Some(time) = before {
            gaps.push(instant.time.saturating_sub(time))?;
        }
        before = Some(instant.time);
    }
    Ok(gaps)
}

impl Measure {
    // The width of a slot, in parts, where there are `total` of them: all together take six tenths of the plot at most, and none is wider than
    // `self.slot`.
    fn slot(&self, total: u64) -> u64
        ensures { result ≤ self.now.slot }
    {
        self.slot
            .min(share(self.width, 6, total.saturating_mul(10)))
    }
}

impl Scale {
    /// Shares a width among the instants of a picture, whose bands are `total` slots wide together. The whole may become wider, since no gap is
    /// narrower than the least one. The error is refused memory.
    pub fn new(
        alloc: Global,
        instants: &[Instant],
        total: u64,
        measure: Measure,
    ) -> Result<Scale, AllocError> {
        let mut gaps = gaps_of(alloc, instants)?;
        let mut shortest = u64::MAX;
        let mut longest = 0;
        for gap in &gaps {
            shortest = shortest.min(*gap);
            longest = longest.max(*gap);
        }
        // The gaps are in proportion to the time between, unless the longest time is more than 25 times the shortest.
        let is_true = longest <= shortest.saturating_mul(25);
        // From here on a gap is its share: the time between, or the number of digits. `whole` is the sum of the shares.
        let mut whole: u64 = 0;
        for gap in gaps.iter_mut() {
            if !is_true {
                // How many binary digits it has, and one more.
                *gap = 65_u64.saturating_sub(gap.leading_zeros() as u64);
            }
            whole = whole.saturating_add(*gap);
        }
        let slot = measure.slot(total);
        // What is left for the gaps: what the slots leave, and four tenths of the plot at least.
        let free = share(measure.width, 4, 10)
            .max(measure.width.saturating_sub(slot.saturating_mul(total)))
            .saturating_sub(measure.margin);
        // The least gap, or half of an even share where there are too many gaps for that.
        let least = measure
            .gap
            .min(share(free, 1, (gaps.len() as u64).saturating_mul(2)));
        let mut scale = Scale {
            begins: Vec::new(alloc),
            slot,
            end: 0,
            is_true,
        };
        for (i, instant) in instants.iter().enumerate() {
            // So far `scale.end` is where the bands before this one, with their gaps, end.
            scale.begins.push(scale.end)?;
            let gap = match gaps.get(i) {
                Some(gap) => least.max(share(free, *gap, whole)),
                // No gap follows the last instant.
                None => 0,
            };
            let band = slot.saturating_mul(instant.width());
            scale.end = scale.end.saturating_add(band).saturating_add(gap);
        }
        Ok(scale)
    }

    /// Where the band of the instant at this place, from 0, begins, in parts from the left edge of the plot. 0 where there is no such instant.
    pub fn begin(&self, instant: usize) -> u64 {
        self.begins.get(instant).copied().unwrap_or(0)
    }

    /// How far a slot begins from the left edge of its band, in parts.
    pub fn within(&self, slot: Slot) -> u64 {
        self.slot.saturating_mul(slot.place)
    }

    /// Makes the whole as narrow as this width, in parts, if it is wider: bands and gaps shrink alike.
    pub fn squeeze(&mut self, width: u64) {
        let whole = self.end;
        if whole > width {
            for begin in self.begins.iter_mut() {
                *begin = share(*begin, width, whole);
            }
            self.slot = share(self.slot, width, whole);
            self.end = width;
        }
    }
}
