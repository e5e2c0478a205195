//! The kinds of the nodes that were asked whether they can move. Contracts alone mention them.

ghost use Rattle.std.specs.Prelude.{◌≡◌, List};
ghost use Rattle.orc_term.specs.declared.arena.Kind.{Kind as KindOf};

use crate::slot::Slot;
use std::marker::Model;

/// The kinds of nodes that were asked whether they can move. They take no memory, and no code can read them.
#[derive(Drop)]
pub struct Asked {
    pub ghost kinds: { List KindOf },
}

impl Model for Asked {
    ghost use Rattle.std.specs.Borrow.{ftrue};

    // It owns no memory.
    ghost also_owns = { λ _. ftrue };
}

/// Kinds that the caller's proof picks. Nothing runs.
pub fn pick_kinds() -> Asked
    ghost kinds: { List KindOf }
    ensures { result.kinds ≡ kinds }
{
    Asked {}
}

/// Kinds that the caller's proof picks. Nothing runs: the argument is there only so that the proof can name those that were asked before.
pub fn kinds_again(before: &Asked) -> Asked
    ghost kinds: { List KindOf }
    ensures { result.kinds ≡ kinds }
{
    let _ = before;
    pick_kinds()
}

/// Kinds that the caller's proof picks. Nothing runs: the argument is there only so that the proof can name those of these nodes.
pub fn kinds_of(items: &Vec<Slot>) -> Asked
    ghost kinds: { List KindOf }
    ensures { result.kinds ≡ kinds }
{
    let _ = items;
    pick_kinds()
}
