//! What a token does next. A *token* marks a part of the program's term that runs. A *scope* says by number what names stand for, and `self.cells`
//! what each cell (the x of an opened `f <x< g`) has become. `self.steps` are the entries into right sides of a `<x<`, and into left sides of a `;`
//! or a `>x>`: by them the function finds what takes a value. `P` names the run: `P.listing` is its program, where `code` gives the term of a node.

ghost use Rattle.std.specs.Prelude.{◌≡◌};
ghost use Rattle.orc_rules.specs.Nodes.{code, definitions};
ghost use Rattle.orc_ledger_spec.specs.Doing.{what_of};

use crate::inputs::Inputs;
use crate::ledger::Ledger;
use orc_frames::{Action, action_at, publish_action};
use orc_log::Run;
use orc_tables::{Standing, Token};

impl<P: Run> Ledger<P> {
    /// What a token does next: a move of marks (an entry that uses no rule of Orc), another entry, or to wait. The function looks at the token's node
    /// and, for a call of a site or a variable, at the scopes in which its names lie; for a value at what takes it. Nothing is allocated.
    pub fn what(&self, inputs: &Inputs<'_, P>, token: &Token) -> Action
        ensures { result ≡ what_of (code P.listing) (definitions P.listing) self.now token.now }
    {
        match token.standing {
            // The token is on a value: what takes the value decides.
            Standing::On(value) => publish_action(&self.steps, token.step, value),
            // The token is at the node with this number, in the scope with this number.
            Standing::At(node, scope) => action_at(
                inputs.graph,
                &self.scopes,
                &self.cells,
                &self.steps,
                node,
                scope,
                token.step,
            ),
        }
    }
}
