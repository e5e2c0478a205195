//! The entry `def`: calls of definitions.
//!
//! The *marked term* is what is left of the program's term after the entries before, as numbered nodes (`nodes`); a token's number is its *mark*.
//! `flags` says of each node whether it has halted. `settle` sets the flag of a node that has halted, and of those above that halt with it; sides
//! among them become `candidates`, which the search for halted sides looks at.
//!
//! In contracts `Applies` says that the entry leads from the old state to the new one, and `IsRightlyRefused` that the fault is Memory or names a
//! condition that the entry breaks.

ghost use Rattle.std.specs.Prelude.{◌≡◌, ◌++◌, ◌∷◌, [], Some, None, slice_get, IfErr, IfOk, IfSome, IfNone, OnErr, OnOk};
ghost use Rattle.orc_rules.specs.Nodes.{definitions, definition_of, source};
ghost use Rattle.orc_rules.specs.Program.{IsProgram};
ghost use Rattle.orc_rules.specs.Programs.{routine_of};
ghost use Rattle.orc_rules.specs.Sites.{Table};
ghost use Rattle.orc_checker.specs.Checker.{Applies};
ghost use Rattle.orc_env.specs.Parameters.{Adds};
ghost use Rattle.orc_checker.specs.Parameters.{LacksArguments};
ghost use Rattle.orc_checker.specs.Refusing.{IsRightlyRefused};
ghost use Rattle.orc_rules.specs.declared.entry.Entry.TheVariants as entry;
ghost use Rattle.orc_rules.specs.declared.entry.RuleFault.TheVariants as reason;

use crate::marked::Marked;
use orc_env::{Bound, Scope, StoredScope, meaning, outer_number};
use orc_rules::entry::RuleFault;
use orc_rules::param::Operand;
use orc_rules::program::{Definition, Program, TermNode};
use orc_term::arena::{Kind, Node, Tip};
use orc_term::flags::settle;
use orc_term::room::{fits, push_within, reserve_wake};
use std::alloc::Global;

/// The definition of number `number`, from 0, as calls in the program name it. None if there is no such definition, which no checked program calls.
pub(crate) fn definition(program: &Program, number: u32) -> Option<&Definition>
    ensures there { IfSome result (λ d. slice_get (definitions program.now) number ≡ Some (definition_of program.now (routine_of d.now))) }
    ensures none { IfNone result (slice_get (definitions program.now) number ≡ None) }
{
    match program.definitions().get(number as usize) {
        Some(called) => Some(called),
        None => None,
    }
}

/// Adds `scope` (a name, its meaning, and the scope that it extends) at the end of `scopes`. The error is Memory; the list is unchanged then.
fn push_scope(scopes: &mut Vec<StoredScope>, scope: Scope) -> Result<(), RuleFault>
    ensures items { OnOk result (scopes.new.items ≡ scopes.old.items ++ scope ∷ []) }
    ensures why { IfErr result (λ r. r ≡ reason.Memory) }
{
    scopes
        .push(StoredScope::new(scope))
        .map_err(|_| RuleFault::Memory)
}

/// Adds the scopes `added` at the end of `scopes`. The error is Memory; the list is unchanged then.
#[inline(always)]
fn extend_scopes(scopes: &mut Vec<StoredScope>, added: &Vec<StoredScope>) -> Result<(), RuleFault>
    ensures items { OnOk result (scopes.new.items ≡ scopes.old.items ++ added.now.items) }
    ensures refused { OnErr result (scopes.new.items ≡ scopes.old.items) }
    ensures why { IfErr result (λ r. r ≡ reason.Memory) }
{
    // A call without arguments adds none, and then needs no memory.
    match added.as_slice() {
        [] => Ok(()),
        more => scopes
            .extend_from_slice(more)
            .map_err(|_| RuleFault::Memory),
    }
}

/// A scope's number in the 32 bits in which the next scope keeps it. The error is Memory: the number needs more bits.
fn number_of(scope: usize) -> Result<u32, RuleFault>
    ensures number { IfOk result (λ outer. outer ≡ scope) }
    ensures why { IfErr result (λ r. r ≡ reason.Memory) }
{
    outer_number(scope).map_err(|_| RuleFault::Memory)
}

/// The scopes of the parameters `params` of a definition, to be added behind `scopes`, and the number of the last one, in which the body stands: 0
/// without parameters. The last parameter's scope comes first, and each scope extends the one before. `operands` are the call's arguments, which have
/// their meaning in `scope`. The errors: Form where they are not as many as the parameters, or one is a name that `scope` doesn't have, and Memory.
fn parameter_scopes(
    alloc: Global,
    scopes: &[StoredScope],
    cells: &[Bound],
    params: &[u32],
    operands: &[Operand],
    scope: usize,
) -> Result<(Vec<StoredScope>, u32), RuleFault>
    ensures added { IfOk result (λ r. Adds cells.now scopes.now scope params.now operands.now r.0.items r.1) }
    ensures refused { IfErr result (LacksArguments cells.now scopes.now scope params.now operands.now) }
{
    if params.len() != operands.len() {
        return Err(RuleFault::Form);
    }
    let mut added = Vec::new(alloc);
    // Scope 0 has no names: a body sees its parameters alone.
    let mut outer = 0;
    // How many parameters have no scope yet: the first ones.
    let mut left = params.len();
    while left > 0 {
        left -= 1;
        let Some(bound) = meaning(scopes, cells, operands[left], scope) else {
            return Err(RuleFault::Form);
        };
        let inner = Scope {
            name: params[left],
            bound,
            outer,
        };
        push_scope(&mut added, inner)?;
        // Scope n is the n-th record of `scopes` with `added` behind them.
        outer = number_of(scopes.len() + added.len())?;
    }
    Ok((added, outer))
}

impl Marked {
    /// `def S A`: token `a` on the definition's body takes the place of token `s` on the call. The errors: Cancel where a cancel is due, Mark where
    /// there is no token `s`, Form where it isn't on a call of a definition that is there, or the call's arguments don't fit the parameters, Number
    /// where `a` isn't the next mark, and Memory. `Applies` promises that the entry leads from the old state to the new one. After an error nothing
    /// has changed, and in a closed program, whose calls all fit their definitions, the error is Memory or names a condition that the entry breaks.
    pub(crate) fn def(&mut self, program: &Program, s: u64, a: u64) -> Result<(), RuleFault>
        ensures done { IfOk result (λ _. (t : Table) → Applies program.now t (entry.Def s a) self.old self.new) }
        ensures refused { OnErr result (self.new ≡ self.old) }
        ensures reason { IfErr result (λ r. (t : Table) → IsProgram (definitions program.now) (source program.now) → IsRightlyRefused program.now t (entry.Def s a) self.old r) }
    {
        // Where token `s` stands: `at` is its node in the marked term and `parent` the node above; `node` is the node of the program on which the
        // token stands, read in `scope`.
        let spot = self.spot(s)?;
        let TermNode::Call(number, list) = program.node(spot.node as usize) else {
            return Err(RuleFault::Form);
        };
        let Some(called) = definition(program, number) else {
            return Err(RuleFault::Form);
        };
        self.expect_mark(a)?;
        // The call's arguments, which have their meaning in the scope of token `s`.
        let operands = program.operands(list);
        let (added, scope) = parameter_scopes(
            self.nodes.allocator(),
            &self.scopes,
            &self.cells,
            &called.params,
            operands,
            spot.scope as usize,
        )?;
        // The new token keeps the body's number in 32 bits.
        fits(called.body).map_err(|_| RuleFault::Memory)?;
        reserve_wake(&mut self.nodes, &mut self.marks).map_err(|_| RuleFault::Memory)?;
        // The last step that can fail: it changes nothing then.
        extend_scopes(&mut self.scopes, &added)?;
        // `wake` writes the node, and notes that it has another token now.
        self.nodes.wake(
            spot.at,
            Node {
                kind: Kind::Leaf(Tip::Token(a, called.body as u32, scope)),
                parent: spot.parent,
            },
        );
        // Token `a` is on the node of token `s`.
        push_within(&mut self.marks, spot.at);
        // A body such as `stop` has halted before anything moves in it.
        let halted = self.halts.at(called.body);
        settle(
            &self.nodes,
            &mut self.flags,
            &mut self.candidates,
            spot.at,
            halted,
        );
        Ok(())
    }
}
