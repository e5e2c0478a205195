//! The lists of operands of the calls of a graph, which is what a run reads of a program. They are all in one list, one behind another. An *operand*
//! is what stands for an argument in the program: a name or a value.

ghost use Rattle.std.specs.Prelude.{◌≡◌, ◌++◌, ◌∷◌, ◌≤◌, [], length, map, slice_index_or, slice_get, IfOk, OnOk};
ghost use Rattle.orc_rules.specs.declared.limits.TheConstants.{MOST_ARGUMENTS};

use crate::numbers::{GraphFault, Range, copied, part, place, put};
use orc_rules::limits::MOST_ARGUMENTS;
use orc_rules::param::Operand;
use std::alloc::Global;
use std::marker::Model;

/// Lists of operands by their numbers, from 0, each that of a call.
#[derive(Drop)]
pub(crate) struct Lists {
    // The operands of all lists.
    operands: Vec<Operand>,
    // Of each list, where it is in `operands`.
    ranges: Vec<Range>,
}

// Contracts see a list of lists, and call an operand `Argument`. The invariant says that each range lies within `operands`, and has `MOST_ARGUMENTS`
// items at most.
impl Model for Lists {
    ghost use Rattle.std.specs.Prelude.{List, map, length};
    ghost use Rattle.orc_rules.specs.declared.param.Operand.{Operand as Argument};
    ghost use Rattle.orc_graph.specs.Ranges.{cut, AreWithin};

    ghost Value = { List (List Argument) };

    ghost view = { λ l. map (cut l.operands.items) l.ranges.items };

    ghost invariant = { λ l. AreWithin (length l.operands.items) l.ranges.items };
}

// The range of the list with that number. None if there is no such list.
fn range_at(ranges: &Vec<Range>, number: usize) -> Option<Range>
    ensures { result ≡ slice_get ranges.now.items number }
{
    match ranges.get(number) {
        Some(range) => Some(*range),
        None => None,
    }
}

impl Lists {
    /// No lists.
    pub(crate) fn new(alloc: Global) -> Lists
        ensures { result ≡ [] }
    {
        Lists {
            operands: Vec::new(alloc),
            ranges: Vec::new(alloc),
        }
    }

    /// A copy of the lists, with room for one more of `MOST_ARGUMENTS` operands at most. The error is refused memory.
    pub(crate) fn copied(&self, alloc: Global) -> Result<Lists, GraphFault>
        ensures { IfOk result (λ lists. lists ≡ self.now) }
    {
        Ok(Lists {
            operands: copied(alloc, &self.operands, MOST_ARGUMENTS)?,
            ranges: copied(alloc, &self.ranges, 1)?,
        })
    }

    /// How many lists there are.
    pub(crate) fn len(&self) -> usize
        ensures { result ≡ length self.now }
    {
        self.ranges.len()
    }

    /// Adds a list of at most `MOST_ARGUMENTS` operands at the end. `Memory` where memory is refused or there are more operands than 32 bits count;
    /// then there is no new list, though its operands may be in `operands`.
    pub(crate) fn push(&mut self, operands: &[Operand]) -> Result<(), GraphFault>
        requires { length operands.now ≤ MOST_ARGUMENTS }
        ensures { OnOk result (self.new ≡ self.old ++ operands.now ∷ []) }
    {
        let range = place(&mut self.operands, operands)?;
        put(&mut self.ranges, range)?;
        Ok(())
    }

    /// The operands of the list with that number, `MOST_ARGUMENTS` at most; none where there is no such list.
    pub(crate) fn get(&self, number: usize) -> &[Operand]
        ensures value { result.now ≡ slice_index_or self.now number [] }
        ensures len { length result.now ≤ MOST_ARGUMENTS }
    {
        match range_at(&self.ranges, number) {
            Some(range) => part(&self.operands, range),
            None => &[],
        }
    }
}
