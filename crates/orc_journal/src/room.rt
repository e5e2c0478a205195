//! Adding to a vector, quicker than `Vec::push`: the test for room is inlined, so an item is written into its place and not handed to a call.

ghost use Rattle.std.specs.Prelude.{◌≡◌, ◌<◌, ◌++◌, ◌∷◌, [], OnOk, OnErr, vec_len, vec_capacity};

use std::alloc::AllocError;

// Makes room for one more item where there is none. Not inlined, since a vector seldom grows. The error is refused memory.
#[cold]
#[inline(never)]
fn grow<T: Drop>(items: &mut Vec<T>) -> Result<(), AllocError>
    ensures items { items.new.items ≡ items.old.items }
    ensures room { OnOk result (vec_len items.new < vec_capacity items.new) }
{
    items.try_reserve(1)
}

/// Makes room for one more item, which `push_reserved` then adds without a test. The error is refused memory, and then nothing changes.
#[inline(always)]
pub(crate) fn make_room<T: Drop>(items: &mut Vec<T>) -> Result<(), AllocError>
    ensures items { items.new.items ≡ items.old.items }
    ensures room { OnOk result (vec_len items.new < vec_capacity items.new) }
{
    if items.len() >= items.capacity() {
        return grow(items);
    }
    Ok(())
}

/// Adds an item at the end. The error is refused memory, and then nothing changes.
#[inline(always)]
pub(crate) fn put<T: Drop>(items: &mut Vec<T>, item: T) -> Result<(), AllocError>
    ensures added { OnOk result (items.new.items ≡ items.old.items ++ item ∷ []) }
    ensures refused { OnErr result (items.new.items ≡ items.old.items) }
{
    make_room(items)?;
    items.push_reserved(item);
    Ok(())
}
