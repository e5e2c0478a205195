//! Reserves room in a list, and adds items where there is room. So a function can ask for all its memory before it changes anything.

ghost use Rattle.std.specs.Prelude.{◌≡◌, ◌+◌, ◌<◌, ◌≤◌, ◌++◌, ◌∷◌, [], vec_len, vec_capacity, OnOk};

use std::alloc::AllocError;

/// Adds an item at the end. There has to be room for it, which `reserve` makes.
// `push_reserved` builds the item in place; `push` would build it on the stack first.
#[inline(always)]
pub fn push_within<T: Drop>(items: &mut Vec<T>, item: T)
    requires { vec_len items.old < vec_capacity items.old }
    ensures items { items.new.items ≡ items.old.items ++ item ∷ [] }
    ensures capacity { vec_capacity items.old ≤ vec_capacity items.new }
{
    items.push_reserved(item);
}

// Has a list that is full grow by one item at least. The error is refused memory. Not inlined, since a list seldom grows.
#[cold]
#[inline(never)]
fn grow<T: Drop>(items: &mut Vec<T>) -> Result<(), AllocError>
    ensures items { items.new.items ≡ items.old.items }
    ensures room { OnOk result (vec_len items.new + 1 ≤ vec_capacity items.new) }
{
    items.reserve(1)
}

/// Makes room for one more item. The error is refused memory. The items stay either way.
#[inline(always)]
pub fn reserve<T: Drop>(items: &mut Vec<T>) -> Result<(), AllocError>
    ensures items { items.new.items ≡ items.old.items }
    ensures room { OnOk result (vec_len items.new + 1 ≤ vec_capacity items.new) }
{
    // The list is full: it has no room for another item.
    if items.len() >= items.capacity() {
        return grow(items);
    }
    Ok(())
}
