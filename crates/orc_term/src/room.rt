//! Room for new nodes and numbers. An entry reserves all that it adds before its first change, so that a refusal of memory changes nothing. A *mark*
//! is the number of a token. In contracts `asked` are the kinds of the nodes whose tokens needn't be asked again whether they can move.

ghost use Rattle.std.specs.Prelude.{◌≡◌, ◌∷◌, ◌++◌, [], ◌+◌, ◌<◌, ◌≤◌, ◌^◌, List, length, vec_len, vec_capacity, IfOk};

use crate::nodes::Nodes;
use std::alloc::AllocError;

/// Adds an item at the end, for which room is reserved.
pub fn push_within<T: Drop>(items: &mut Vec<T>, item: T)
    requires { vec_len items.old < vec_capacity items.old }
    ensures items { items.new.items ≡ items.old.items ++ item ∷ [] }
    ensures capacity { vec_capacity items.old ≤ vec_capacity items.new }
{
    items.push_reserved(item);
}

/// Reserves memory for one more item. Mostly there is room for it, which is asked in place, since that takes less than a call. (`orc_indexes` has a
/// `reserve` as well; this crate doesn't stand on it.) The error is refused memory. The items stay.
#[inline(always)]
pub fn reserve_one<T: Drop>(items: &mut Vec<T>) -> Result<(), AllocError>
    ensures items { items.new.items ≡ items.old.items }
    ensures len { vec_len items.new ≡ vec_len items.old }
    ensures room { IfOk result (λ _. vec_len items.new < vec_capacity items.new) }
{
    if items.len() < items.capacity() {
        return Ok(());
    }
    items.try_reserve(1)
}

/// Reserves memory for two more items, as `reserve_one` does for one. The error is refused memory. The items stay.
#[inline(always)]
pub fn reserve_two<T: Drop>(items: &mut Vec<T>) -> Result<(), AllocError>
    ensures items { items.new.items ≡ items.old.items }
    ensures len { vec_len items.new ≡ vec_len items.old }
    ensures room { IfOk result (λ _. vec_len items.new + 2 ≤ vec_capacity items.new) }
{
    if items.len() + 2 <= items.capacity() {
        return Ok(());
    }
    items.try_reserve(2)
}

/// Reserves memory for two more nodes with their flags and two more marks, the most that one entry adds. `flags` says of each node whether it has
/// halted, and `marks` has the node of each mark. The error is refused memory, or a node's number of over 32 bits. What the lists have stays.
#[inline(always)]
pub fn reserve(
    nodes: &mut Nodes,
    flags: &mut Vec<bool>,
    marks: &mut Vec<u32>,
) -> Result<(), AllocError>
    ensures nodes { nodes.new.items ≡ nodes.old.items }
    ensures asked { nodes.new.asked ≡ nodes.old.asked }
    ensures flags { flags.new.items ≡ flags.old.items }
    ensures marks { marks.new.items ≡ marks.old.items }
    ensures room { IfOk result (λ _. (2 ≤ nodes.new.room) × (vec_len flags.new + 2 ≤ vec_capacity flags.new) × (vec_len marks.new + 2 ≤ vec_capacity marks.new)) }
{
    nodes.reserve()?;
    reserve_two(flags)?;
    reserve_two(marks)?;
    Ok(())
}

/// Reserves memory for one more mark, and for the note that a node gets its token (`Nodes::wake`). `marks` has the node of each mark. The error is
/// refused memory. What the lists have stays.
#[inline(always)]
pub fn reserve_wake(nodes: &mut Nodes, marks: &mut Vec<u32>) -> Result<(), AllocError>
    ensures nodes { nodes.new.items ≡ nodes.old.items }
    ensures asked { nodes.new.asked ≡ nodes.old.asked }
    ensures marks { marks.new.items ≡ marks.old.items }
    ensures room { IfOk result (λ _. (1 ≤ nodes.new.wakes) × (vec_len marks.new < vec_capacity marks.new)) }
{
    nodes.reserve_wake()?;
    reserve_one(marks)
}

/// Checks that a number fits the 32 bits in which a node keeps it. The error stands for a greater number, which no journal within the limits reaches.
#[inline(always)]
pub fn fits(number: usize) -> Result<(), AllocError>
    ensures { IfOk result (λ _. number < 2 ^ 32) }
{
    if number > u32::MAX as usize {
        return Err(AllocError);
    }
    Ok(())
}

/// Reserves memory for two more nodes with their flags and two more marks, for an entry whose new nodes keep `first` and `second`, numbers of nodes
/// of the program. `flags` says of each node whether it has halted, and `marks` has the node of each mark. The error is refused memory, or a number
/// of over 32 bits. What the lists have stays.
#[inline(always)]
pub fn reserve_numbered(
    nodes: &mut Nodes,
    flags: &mut Vec<bool>,
    marks: &mut Vec<u32>,
    first: usize,
    second: usize,
) -> Result<(), AllocError>
    ensures nodes { nodes.new.items ≡ nodes.old.items }
    ensures asked { nodes.new.asked ≡ nodes.old.asked }
    ensures flags { flags.new.items ≡ flags.old.items }
    ensures marks { marks.new.items ≡ marks.old.items }
    ensures room { IfOk result (λ _. (2 ≤ nodes.new.room) × (vec_len flags.new + 2 ≤ vec_capacity flags.new) × (vec_len marks.new + 2 ≤ vec_capacity marks.new)) }
    ensures first { IfOk result (λ _. first < 2 ^ 32) }
    ensures second { IfOk result (λ _. second < 2 ^ 32) }
{
    fits(first)?;
    fits(second)?;
    reserve(nodes, flags, marks)
}
