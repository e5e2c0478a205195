//! The scopes of a definition's parameters. A *scope* binds one name, and extends the scope with the number `outer`. An operand is a name or a value.
//! A *cell* stands for the x of an opened `f <x< g`.
//!
//! `scopes` and `cells` are those of the run: scope n is the n-th item of `scopes` (scope 0 has no names), and `cells` says by number what a cell has
//! become (item 0 is no cell). In contracts `Adds` says that with the added scopes behind `scopes`, scope n has the parameters alone, with the
//! meanings of their operands, if each scope extends one of a lower number and each unbound cell stands for itself in `cells`. `Misfit` says when
//! there is no such scope.

ghost use Rattle.std.specs.Prelude.{◌+◌, IfOk, IfSome, IfNone};
ghost use Rattle.orc_env.specs.Parameters.{Adds};
ghost use Rattle.orc_frames.specs.Parameters.{Misfit};

use orc_env::{Bound, Scope, StoredScope, meaning, outer_number};
use orc_indexes::{push_within, reserve};
use orc_rules::param::Operand;
use std::alloc::AllocError;

/// Writes a scope for each parameter of a definition (`params` has their numbers as variables) over `added`. Each binds its parameter to what the
/// operand means in `scope`, the caller's. The last parameter's scope comes first and extends scope 0, since a body sees nothing but its parameters;
/// each further one extends the one before it. The caller is to put them behind `scopes`, and their numbers count on from there. Gives the number of
/// the innermost scope, which is added last. None if there are not as many operands as parameters, or if an operand is a name that the caller's scope
/// doesn't have. The error is refused memory, or a number of over 32 bits; what is in `added` isn't known then.
pub fn parameter_scopes(
    scopes: &[StoredScope],
    cells: &[Bound],
    params: &[u32],
    operands: &[Operand],
    scope: usize,
    added: &mut Vec<StoredScope>,
) -> Result<Option<usize>, AllocError>
    ensures adds { IfOk result (λ last. IfSome last (λ n. Adds cells.now scopes.now scope params.now operands.now added.new.items n)) }
    ensures misfit { IfOk result (λ last. IfNone last (Misfit cells.now scopes.now scope params.now operands.now)) }
{
    added.clear();
    if params.len() != operands.len() {
        return Ok(None);
    }
    // From the last parameter to the first. `left` counts those that have no scope yet.
    let mut outer = 0;
    let mut left = params.len();
    while left > 0 {
        left -= 1;
        // None: the operand is a name that the caller's scope doesn't have.
        let Some(bound) = meaning(scopes, cells, operands[left], scope) else {
            return Ok(None);
        };
        reserve(added)?;
        push_within(
            added,
            StoredScope::new(Scope {
                name: params[left],
                bound,
                outer,
            }),
        );
        // The number of the scope that was just added, as it will be behind `scopes`: the first of those has the number 1. The error is over 32 bits.
        outer = outer_number(scopes.len() + added.len())?;
    }
    Ok(Some(outer as usize))
}
