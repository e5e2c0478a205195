//! The values of a call's arguments. An operand is a name or a value, and a *scope* says by number what names stand for: a value, a cell, or void,
//! which never has a value. A *cell* stands for the x of an opened `f <x< g`.
//!
//! `scopes` and `cells` are those of the run: scope n is the n-th item of `scopes` (scope 0 has no names), and `cells` says by number what a cell has
//! become (item 0 is no cell). In contracts `env_of cells scopes n` is what the names of scope n mean, `closed` puts that for the operands, and
//! `values_of` are the values if each has one.

ghost use Rattle.std.specs.Prelude.{◌≡◌, ◌≤◌, List, Some, length, true, false};
ghost use Rattle.orc_rules.specs.Term.{values_of};
ghost use Rattle.orc_rules.specs.declared.limits.TheConstants.{MOST_ARGUMENTS};
ghost use Rattle.orc_rules.specs.declared.value.Value.{Value};
ghost use Rattle.orc_env.specs.Names.{AreOrdered};
ghost use Rattle.orc_env.specs.Scopes.{env_of};
ghost use Rattle.orc_frames.specs.Doing.{closed};

use orc_env::{Bound, StoredScope, meaning};
use orc_rules::param::Operand;
use orc_rules::value::Args;

/// Writes the values that a call's operands have in the scope with the number `scope` over `args`, in their order, and says whether each has one.
/// Where one has none (it is unbound or void), `args` has the values before it. The contract asks that each scope extends one of a lower number
/// (`AreOrdered`).
#[inline(always)]
pub fn take_values(
    scopes: &[StoredScope],
    cells: &[Bound],
    operands: &[Operand],
    scope: usize,
    args: &mut Args,
) -> bool
    requires ordered { AreOrdered scopes.now }
    requires few { length operands.now ≤ MOST_ARGUMENTS }
    ensures values { result ≡ true → values_of (closed (env_of cells.now scopes.now scope) operands.now) ≡ Some args.new }
    ensures none { result ≡ false → (vs : List Value) → values_of (closed (env_of cells.now scopes.now scope) operands.now) ≡ Some vs → ⊥ }
{
    args.clear();
    for operand in operands {
        match meaning(scopes, cells, *operand, scope) {
            // There is room: a call has `MOST_ARGUMENTS` operands at most, as `few` asks.
            Some(Bound::Is(value)) => args.push(value),
            // The operand has no value yet, will never have one, or is a name that the scope doesn't have.
            Some(Bound::Cell(_)) => return false,
            Some(Bound::Void) => return false,
            None => return false,
        }
    }
    true
}
