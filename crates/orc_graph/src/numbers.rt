//! Helpers for the lists of a graph, which is what a run reads of a program: numbers of 32 bits, ranges, and lists that grow or are copied.

ghost use Rattle.orc_graph.specs.Ranges.{cut};
ghost use Rattle.std.specs.Prelude.{◌≡◌, ◌++◌, ◌∷◌, ◌+◌, ◌≤◌, [], length, IfOk, OnOk, if◌then◌else◌, is_ok};

use std::alloc::Global;

/// Why no graph is made of a program.
#[derive(Clone, Copy, Debug, PartialEq, Eq)]
pub enum GraphFault {
    /// Memory was refused, or a number of the program takes more than 32 bits.
    Memory,
}

/// A range of a list, by places that count from 0.
#[derive(Clone, Copy)]
pub(crate) struct Range {
    /// The first place.
    pub(crate) start: u32,
    /// The place behind the last one: `start` for an empty range.
    pub(crate) end: u32,
}

/// The same number in 32 bits. The error is `Memory` where it takes more.
pub(crate) fn short(number: usize) -> Result<u32, GraphFault>
    ensures { IfOk result (λ short. short ≡ number) }
{
    if number > 0xffff_ffff {
        return Err(GraphFault::Memory);
    }
    Ok(number as u32)
}

/// Adds an item at the end. The error is refused memory, and then nothing is added.
pub(crate) fn put<T: Copy + Drop>(items: &mut Vec<T>, item: T) -> Result<(), GraphFault>
    ensures { items.new.items ≡ (if is_ok result then items.old.items ++ item ∷ [] else items.old.items) }
{
    match items.push(item) {
        Ok(()) => Ok(()),
        Err(_) => Err(GraphFault::Memory),
    }
}

/// A copy of the items, with room for `more` further ones. The error is refused memory.
pub(crate) fn copied<T: Copy + Drop>(
    alloc: Global,
    items: &[T],
    more: usize,
) -> Result<Vec<T>, GraphFault>
    ensures { IfOk result (λ copy. copy.items ≡ items.now) }
{
    let mut copy = Vec::new(alloc);
    // A sum that saturates is more than memory holds, and so is refused.
    if copy.try_reserve(items.len().saturating_add(more)).is_err() {
        return Err(GraphFault::Memory);
    }
    match copy.extend_from_slice(items) {
        Ok(()) => Ok(copy),
        Err(_) => Err(GraphFault::Memory),
    }
}

/// Adds the items of `list` at the end of `items`, and gives their range there. `Memory` where memory is refused or a place takes more than 32 bits;
/// nothing is added then.
pub(crate) fn place<T: Copy + Drop>(items: &mut Vec<T>, list: &[T]) -> Result<Range, GraphFault>
    ensures start { IfOk result (λ range. range.start ≡ length items.old.items) }
    ensures end { IfOk result (λ range. range.end ≡ length items.old.items + length list.now) }
    ensures items { items.new.items ≡ (if is_ok result then items.old.items ++ list.now else items.old.items) }
{
    let start = short(items.len())?;
    let count = short(list.len())?;
    // A sum of two numbers of 32 bits fits `usize`.
    let end = short(start as usize + count as usize)?;
    match items.extend_from_slice(list) {
        Ok(()) => Ok(Range { start, end }),
        Err(_) => Err(GraphFault::Memory),
    }
}

/// The items in a range. Its start isn't behind its end, and its end isn't behind that of `items`: so the slice is there.
pub(crate) fn part<T: Copy>(items: &[T], range: Range) -> &[T]
    requires order { range.start ≤ range.end }
    requires within { range.end ≤ length items.now }
    ensures { result.now ≡ cut items.now range }
{
    &items[range.start as usize..range.end as usize]
}
