//! The entry `void`: a token ends on void, or on a call of a site with a void argument. Void is what a variable becomes when its cell is lost. The
//! cell stands for the x of an opened `f <x< g`, and is lost once g has halted without a value. A *scope* says what names mean.
//!
//! The *marked term* is what is left of the program's term after the entries before, as numbered nodes (`nodes`); a token's number is its *mark*.
//! `flags` says of each node whether it has halted. `settle` sets the flag of a node that has halted, and of those above that halt with it; sides
//! among them become `candidates`, which the search for halted sides looks at.
//!
//! In contracts `Enters` says that the entry leads from the old state to the new one, and `IsRightlyRefused` that the fault is Memory or names a
//! condition that the entry breaks.

ghost use Rattle.std.specs.Prelude.{◌≡◌, true, false, IfErr, IfOk, OnErr};
ghost use Rattle.orc_rules.specs.Idle.{has_halted, has_void};
ghost use Rattle.orc_rules.specs.Journal.{IsVoid};
ghost use Rattle.orc_rules.specs.Nodes.{code, param_of};
ghost use Rattle.orc_rules.specs.Term.{param};
ghost use Rattle.orc_env.specs.Scopes.{close, close_param, env_of};
ghost use Rattle.orc_rules.specs.Sites.{Table};
ghost use Rattle.orc_checker.specs.Checker.{Enters};
ghost use Rattle.orc_checker.specs.Refusing.{IsRightlyRefused};
ghost use Rattle.orc_env.specs.Names.{AreOrdered};
ghost use Rattle.orc_checker.specs.Stillness.{params_in};
ghost use Rattle.orc_rules.specs.declared.entry.Entry.TheVariants as entry;

use crate::marked::{Marked, Spot};
use orc_env::{Bound, StoredScope, meaning};
use orc_rules::entry::RuleFault;
use orc_rules::param::Operand;
use orc_rules::program::{Program, TermNode};
use orc_term::arena::{Kind, Node, Tip};
use orc_term::flags::settle;

/// Whether an operand is void in scope `scope`: a name for a cell that was lost. `cells` says what has become of each cell.
fn is_void(scopes: &[StoredScope], cells: &[Bound], operand: Operand, scope: usize) -> bool
    ensures void { result ≡ true → AreOrdered scopes.now → IsVoid (param (close_param (env_of cells.now scopes.now scope) (param_of operand))) }
    ensures other { result ≡ false → AreOrdered scopes.now → IsVoid (param (close_param (env_of cells.now scopes.now scope) (param_of operand))) → ⊥ }
{
    match meaning(scopes, cells, operand, scope) {
        Some(Bound::Void) => true,
        // It is a value, a cell that isn't bound yet, or a name that the scope doesn't have.
        _ => false,
    }
}

/// Whether one of the operands is void in scope `scope`, where `cells` says what has become of each cell. It recurses once an operand,
/// `MOST_ARGUMENTS` times at most.
pub(crate) fn has_void(
    scopes: &[StoredScope],
    cells: &[Bound],
    operands: &[Operand],
    scope: usize,
) -> bool
    ensures { AreOrdered scopes.now → result ≡ has_void (params_in cells.now scopes.now scope operands.now) }
{
    match operands {
        // No operand is left, so none is void.
        [] => false,
        [operand, operands @ ..] => match meaning(scopes, cells, *operand, scope) {
            Some(Bound::Void) => true,
            _ => has_void(scopes, cells, operands, scope),
        },
    }
}

impl Marked {
    /// Whether the token at `spot` stands on void, or on a call of a site with a void argument. The clause `running` adds that what it stands on
    /// hasn't halted then.
    fn on_void(&self, program: &Program, spot: Spot) -> bool
        ensures void { result ≡ true → AreOrdered self.now.scopes → IsVoid (close (env_of self.now.cells self.now.scopes spot.scope) (code program.now spot.node)) }
        ensures other { result ≡ false → AreOrdered self.now.scopes → IsVoid (close (env_of self.now.cells self.now.scopes spot.scope) (code program.now spot.node)) → ⊥ }
        ensures running { result ≡ true → has_halted (code program.now spot.node) ≡ false }
    {
        match program.node(spot.node as usize) {
            TermNode::Operand(operand) => {
                is_void(&self.scopes, &self.cells, operand, spot.scope as usize)
            }
            TermNode::Site(_, list) => {
                has_void(
                    &self.scopes,
                    &self.cells,
                    program.operands(list),
                    spot.scope as usize,
                )
            }
            // A `stop`, a call of a definition, or a node with parts.
            _ => false,
        }
    }

    /// The entry `void S`: token `s`, the one with that mark, ends. The errors: Cancel where a cancel is due, Mark where there is no token `s`, and
    /// Form where it isn't on void or on a call of a site with a void argument. `Enters` promises that the entry leads from the old state to the new
    /// one. After an error nothing has changed, and the error is Memory or names a condition that the entry breaks.
    pub(crate) fn void(&mut self, program: &Program, s: u64) -> Result<(), RuleFault>
        ensures done { IfOk result (λ _. Enters (code program.now) (entry.Void s) self.old self.new) }
        ensures refused { OnErr result (self.new ≡ self.old) }
        ensures reason { IfErr result (λ r. (t : Table) → IsRightlyRefused program.now t (entry.Void s) self.old r) }
    {
        // Where token `s` stands: `at` is its node in the marked term and `parent` the node above; `node` is the node of the program on which the
        // token stands, read in `scope`.
        let spot = self.spot(s)?;
        if !self.on_void(program, spot) {
            return Err(RuleFault::Form);
        }
        // What is left of the token's node is a `stop` without a token.
        self.nodes.write_node(
            spot.at as usize,
            Node {
                kind: Kind::Leaf(Tip::Ended),
                parent: spot.parent,
            },
        );
        // The token's node has halted, and what is above it may have halted by that.
        settle(
            &self.nodes,
            &mut self.flags,
            &mut self.candidates,
            spot.at,
            true,
        );
        Ok(())
    }
}
