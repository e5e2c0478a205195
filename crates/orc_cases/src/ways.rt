//! The ways of a case, in their order, and the texts that tell of them. A `usize` has 64 bits, so no cast here changes a number. A way is one choice,
//! for each line of the case's services, of what the service answers.

ghost use Rattle.std.specs.Prelude.{◌≡◌, Bool, IfOk, List, [], false, length, map};
ghost use Rattle.orc_ways.specs.Drafting.{test_of};
ghost use Rattle.orc_cases.specs.Cases.{case_at};
ghost use Rattle.orc_cases.specs.Failing.{failing_ranges, has_range};
ghost use Rattle.orc_cases.specs.Values.{IsCounted, IsOrdered, ways_from};
ghost use Rattle.orc_cases.specs.Ways.{CaseWays, choices_of, combinations, scripts, unusual, ways, ways_of};

use crate::frame::{Frame, halts_of, lines_of};
use crate::lines::case_places;
use crate::ranges::Failing;
use crate::sizes::ways_size;
use crate::weights::{in_order, weights_of};
use orc_ways::limits::MOST_WAYS;
use orc_ways::test::{ServiceLine, Test};
use std::alloc::{AllocError, Global};
use std::marker::Model;

/// The ways of a case. A call is off if it doesn't take the first alternative of its line, and a line if one of its calls is. First come the ways
/// with fewer lines off; of these those with fewer calls off; of these the upper lines change slowest, what is off comes before what is usual, and
/// ranges run from their low ends.
#[derive(Drop)]
pub struct Ways {
    /// What the scripts of all ways have in common. In the frame each way has a number, from 0.
    frame: Frame,
    /// The number that each way has in the frame (what the scripts of all ways have in common), in the order of the ways.
    numbers: Vec<usize>,
}

// Contracts see the lines of the frame, whose choices make the ways, and its last lines `NAME() = halt`.
impl Model for Ways {
    ghost Value = { CaseWays };

    ghost view = { λ w. ways_from w.frame };

    // The numbers are those of all ways in the frame, in the order of the ways.
    ghost invariant = { λ w. IsOrdered w.frame w.numbers.items };
}

// The numbers that the ways have in the frame, in the order of the ways (`IsOrdered`). `IsCounted` asks that the frame's `count` is the number of
// ways. The error is refused memory.
fn numbers_of(alloc: Global, frame: &Frame) -> Result<Vec<usize>, AllocError>
    requires { IsCounted frame.now }
    ensures { IfOk result (λ ns. IsOrdered frame.now ns.items) }
{
    let lines = frame.lines.as_slice();
    let weights = weights_of(alloc, lines)?;
    let weighed = weights.as_slice();
    // A way's weight, which says how many of its lines and calls are off, stands at the way's number in the frame. So the places of the weights, in
    // order, are these numbers.
    let numbers = in_order(alloc, weighed)?;
    Ok(numbers)
}

// The ways of the services at these places of the test's list; `count` has to be how many ways there are. In clauses `case_at` has what these
// services give, their lines and the last lines of each script, and `combinations` lists the ways of lines. The error is refused memory.
fn of_places(
    alloc: Global,
    services: &[ServiceLine<'_>],
    places: &[usize],
    count: usize,
) -> Result<Ways, AllocError>
    requires { count ≡ length (combinations (choices_of (case_at services.now places.now).lines)) }
    ensures { IfOk result (λ w. w ≡ case_at services.now places.now) }
{
    let lines = lines_of(alloc, services, places)?;
    // The last lines of each script: `NAME() = halt` for each name among the services that isn't at one of these places.
    let halts = halts_of(alloc, services, places)?;
    let frame = Frame {
        lines,
        halts,
        count,
    };
    let numbers = numbers_of(alloc, &frame)?;
    Ok(Ways { frame, numbers })
}

impl Ways {
    /// The ways of the case at this place, from 0, among the test's cases. None if there are more than `MOST_WAYS`. The error is refused memory.
    pub fn of_case(alloc: Global, test: &Test<'_>, case: usize) -> Result<Option<Ways>, AllocError>
        ensures { IfOk result (λ w. w ≡ ways_of (test_of test.now) case) }
    {
        let services = test.services.as_slice();
        let found = case_places(alloc, services, case)?;
        let places = found.as_slice();
        let size = ways_size(services, places);
        if size > MOST_WAYS {
            return Ok(None);
        }
        // The size is at most `MOST_WAYS` here, so it is the number itself and not the bound at which the count stops.
        let ways = of_places(alloc, services, places, size as usize)?;
        Ok(Some(ways))
    }

    /// How many ways there are.
    pub fn count(&self) -> u64
        ensures { result ≡ length (ways self.now) }
    {
        self.numbers.as_slice().len() as u64
    }

    /// The scripts of the first `most` ways, or of all if there are fewer. Each has the lines of the case's services, then the lines `behind`, and
    /// last a line `NAME() = halt` for each name of a service that the test has and the case hasn't: the first line that matches answers, so these
    /// take no call from `behind`. The error is refused memory.
    pub fn scripts(
        &self,
        alloc: Global,
        most: u64,
        behind: &[u8],
    ) -> Result<Vec<Vec<u8>>, AllocError>
        ensures { IfOk result (λ ts. map (λ t. t.items) ts.items ≡ scripts self.now most behind.now) }
    {
        // The number that each way has in the frame (what the scripts of all ways have in common), in the order of the ways.
        let numbers = self.numbers.as_slice();
        let tried = numbers.len().min(most as usize);
        let scripts = self.frame.scripts(alloc, &numbers[..tried], behind)?;
        Ok(scripts)
    }

    /// Those lines of the script of the way with this number, from 0 in the order of the ways, that tell it from other ways: they are off (a call
    /// doesn't take the first alternative), or take an alternative with a range of delays. The text is empty if there is no such way. The error is
    /// refused memory.
    pub fn unusual(&self, alloc: Global, number: u64) -> Result<Vec<u8>, AllocError>
        ensures { IfOk result (λ t. t.items ≡ unusual self.now number) }
    {
        // The number that each way has in the frame (what the scripts of all ways have in common), in the order of the ways.
        let numbers = self.numbers.as_slice();
        let place = number as usize;
        if place >= numbers.len() {
            return Ok(Vec::new(alloc));
        }
        // `numbers[place]` is the way's number in the frame. `true`: only the lines that tell the way from others.
        let way = self.frame.way(alloc, numbers[place], true)?;
        Ok(way)
    }

    /// Whether the way with this number, from 0 in the order of the ways, takes an alternative with a range of delays. If not, or if there is no such
    /// way, then `failing_ranges` is empty whatever fails.
    pub fn has_range(&self, number: u64) -> bool
        ensures exact { result ≡ has_range self.now number }
        ensures none { result ≡ false → (fails : List Bool) → failing_ranges self.now number fails ≡ [] }
    {
        // The number that each way has in the frame (what the scripts of all ways have in common), in the order of the ways.
        let numbers = self.numbers.as_slice();
        let place = number as usize;
        if place >= numbers.len() {
            return false;
        }
        // `numbers[place]` is the way's number in the frame.
        self.frame.has_range(numbers[place])
    }

    /// Those lines of the way with this number, from 0 in the order of the ways, that take an alternative with a range of delays. In place of each
    /// delay stand all those with which the line gives this answer to that call in a way that fails, as intervals: `Pay(_) = 1 after 3..7, 12`.
    /// `fails` says of each of the first ways whether it fails; the others count as not failing. The text is empty if there is no such way. The error
    /// is refused memory.
    pub fn failing_ranges(
        &self,
        alloc: Global,
        number: u64,
        fails: &[bool],
    ) -> Result<Vec<u8>, AllocError>
        ensures { IfOk result (λ t. t.items ≡ failing_ranges self.now number fails.now) }
    {
        // The number that each way has in the frame (what the scripts of all ways have in common), in the order of the ways.
        let numbers = self.numbers.as_slice();
        let place = number as usize;
        if place >= numbers.len() {
            return Ok(Vec::new(alloc));
        }
        let failing = Failing {
            frame: &self.frame,
            numbers,
            fails,
        };
        // `numbers[place]` is the way's number in the frame.
        let lines = failing.lines(alloc, numbers[place])?;
        Ok(lines)
    }
}
