//! Scopes and cells, and what an operand means in them. An *operand* is what stands as an argument in the source: a value, or a name by its number. A
//! *cell* is the variable of an opened `f <x< g`: it is bound to a value, lost, or neither.

ghost use Rattle.std.specs.Prelude.{◌≡◌, true, false, IfSome, IfNone, Some, None, slice_get};
ghost use Rattle.orc_rules.specs.declared.param.Operand.TheVariants.{Name};
ghost use Rattle.orc_env.specs.Scopes.{current};
ghost use Rattle.orc_env.specs.Names.{Means, IsFree, AreArguments, AreOthers};

use crate::stored::StoredScope;
use orc_rules::param::Operand;
use orc_rules::value::Value;

/// What a name stands for in a scope. The table of cells says with the same type what has become of each cell.
#[derive(Clone, Copy)]
pub enum Bound {
    /// This value.
    Is(Value),
    /// A cell, by its number from 1. That is its place in the table of cells, where place 0 stands for no cell, and a cell that is neither bound nor
    /// lost has its own number.
    Cell(u64),
    /// Nothing: the cell was lost, so there will never be a value.
    Void,
}

/// A scope: one name, with its meaning, more than in the scope `outer`, which it extends. Scope 0 has no names, and scope n is record n - 1 of a
/// list.
#[derive(Clone, Copy)]
pub struct Scope {
    /// The name, by its number.
    pub name: u32,
    /// What the name means. A cell stays here when it is bound or lost: the table of cells says what has become of it.
    pub bound: Bound,
    /// The number of the scope that this one extends.
    pub outer: u32,
}

// What a meaning has become by now. For a cell (the variable of an opened `f <x< g`) it is what the table `cells` has at the cell's number, or the
// cell itself if the table has no such place; a cell that is neither bound nor lost stands in the table as itself. A value and void stay as they are.
fn current(cells: &[Bound], bound: Bound) -> Bound
    ensures { result ≡ current cells.now bound }
{
    match bound {
        Bound::Cell(c) => match cells.get(c as usize) {
            Some(now) => *now,
            None => bound,
        },
        // A value or void: nothing changes it any more.
        _ => bound,
    }
}

// The record at the place `i` of the list of scopes, from 0: that of scope `i + 1`. None if there are fewer records. The `match` names the two cases
// for the proof.
fn scope_at(scopes: &[StoredScope], i: usize) -> Option<&StoredScope>
    ensures there { IfSome result (λ s. slice_get scopes.now i ≡ Some s.now) }
    ensures none { IfNone result (slice_get scopes.now i ≡ None) }
{
    match scopes.get(i) {
        Some(scope) => Some(scope),
        None => None,
    }
}

// What the name with the number `name` means in the scope with the number `scope`; if it means a cell, what that cell has become by now. None if the
// scope has no such name.
fn bound_of(scopes: &[StoredScope], cells: &[Bound], name: u32, scope: usize) -> Option<Bound>
    ensures bound { IfSome result (λ b. Means cells.now scopes.now scope (Name name) b) }
    ensures free { IfNone result (IsFree cells.now scopes.now scope (Name name)) }
{
    // The number of the scope that is looked at: from the given one outwards.
    let mut at = scope;
    // Each scope extends one of a lower number, so scope 0 is reached in time; the bound makes the loop end for any list.
    for _step in 0..=scopes.len() {
        // Scope 0 has no names.
        if at == 0 {
            return None;
        }
        // Scope n is record n - 1.
        let inner = match scope_at(scopes, at - 1) {
            Some(inner) => inner,
            // There is no scope of this number, and so no name in it.
            None => return None,
        };
        if inner.name() == name {
            return Some(current(cells, inner.bound()));
        }
        at = inner.outer() as usize;
    }
    None
}

/// What an operand means in the scope with the number `scope`: a value, a cell that isn't bound, or void (a cell that can't get a value any more).
/// None for a name that the scope doesn't have. The clauses promise this if each of the `scopes` extends an earlier one. The time grows with the
/// number of scopes from this one outwards to the one that adds the name.
pub fn meaning(
    scopes: &[StoredScope],
    cells: &[Bound],
    operand: Operand,
    scope: usize,
) -> Option<Bound>
    ensures bound { IfSome result (λ b. Means cells.now scopes.now scope operand b) }
    ensures free { IfNone result (IsFree cells.now scopes.now scope operand) }
{
    match operand {
        // A literal means its value in each scope.
        Operand::Is(v) => Some(Bound::Is(v)),
        Operand::Name(name) => bound_of(scopes, cells, name, scope),
    }
}

/// Whether the operands mean these values, `args`, in the scope with the number `scope`, as many and in this order: not if one of them is a cell that
/// isn't bound, void, or a name that the scope doesn't have. The clauses promise this if each of the `scopes` extends an earlier one.
pub fn are_arguments(
    scopes: &[StoredScope],
    cells: &[Bound],
    operands: &[Operand],
    args: &[Value],
    scope: usize,
) -> bool
    ensures are { result ≡ true → AreArguments cells.now scopes.now scope operands.now args.now }
    ensures others { result ≡ false → AreOthers cells.now scopes.now scope operands.now args.now }
{
    // The function calls itself once for each argument of one call, `MOST_ARGUMENTS` times at most.
    match operands {
        // No operand is left: the lists are as long if no value is left, too.
        [] => args.is_empty(),
        [operand, operands @ ..] => match args {
            [] => false,
            [arg, args @ ..] => match meaning(scopes, cells, *operand, scope) {
                Some(Bound::Is(v)) if v == *arg => {
                    are_arguments(scopes, cells, operands, args, scope)
                }
                // A cell without a value, void, no such name, or another value.
                _ => false,
            },
        },
    }
}
