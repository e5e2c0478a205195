//! The cells for which a token waits. A *cell* stands for the x of an opened `f <x< g`, and is unbound until g publishes or halts. A *token* marks a
//! part of the program's term that runs, in a *slot* of the table of tokens. An operand is a name or a value; a *scope* says by number what names
//! stand for. `P` names the run: `P.listing` is its program, where `code` gives the term of a node.

ghost use Rattle.std.specs.Prelude.{◌≡◌, OnOk, IfErr};
ghost use Rattle.orc_rules.specs.Nodes.{code};
ghost use Rattle.orc_frames.specs.Awaiting.{cells_among, cells_of};
ghost use Rattle.orc_frames.specs.Doing.{closed};
ghost use Rattle.orc_ledger_spec.specs.Doing.{term_of};
ghost use Rattle.orc_ledger_spec.specs.Records.{its_env};
ghost use Rattle.orc_tables.specs.Tokens.{IsHeld};

use crate::inputs::Inputs;
use crate::ledger::Ledger;
use orc_frames::{Action, list_cells};
use orc_graph::Node;
use orc_ledger_spec::LedgerFault;
use orc_log::Run;
use orc_rules::param::Operand;
use orc_tables::{Standing, Token};

impl<P: Run> Ledger<P> {
    // Writes the numbers of the unbound cells among `operands`, by what each name stands for in the scope with the number `scope`, over `listed`, in
    // the order of the operands. The only fault is `Memory`, and what is listed is then not known.
    fn list_awaited(
        &self,
        operands: &[Operand],
        scope: usize,
        listed: &mut Vec<u64>,
    ) -> Result<(), LedgerFault>
        ensures listed { OnOk result (listed.new.items ≡ cells_among (closed (its_env (code P.listing) self.now scope) operands.now)) }
        ensures why { IfErr result (λ fault. fault ≡ LedgerFault.Memory) }
    {
        Ok(list_cells(&self.scopes, &self.cells, operands, scope, listed)?)
    }

    /// Writes the numbers of the cells for which a token waits over `listed`: the unbound cell of its variable, or each one among the arguments of
    /// its call of a site, in their order, as often as it stands there. A token at any other node, or on a value, has none. A call with a void
    /// argument doesn't wait, but its unbound cells are listed, too. The only fault is `Memory`, and what is listed is then not known.
    pub fn awaited(
        &self,
        inputs: &Inputs<'_, P>,
        token: &Token,
        listed: &mut Vec<u64>,
    ) -> Result<(), LedgerFault>
        ensures listed { OnOk result (listed.new.items ≡ cells_of (term_of (code P.listing) self.now token.now)) }
        ensures why { IfErr result (λ fault. fault ≡ LedgerFault.Memory) }
    {
        if let Standing::At(node, scope) = token.standing {
            match inputs.graph.node(node as usize) {
                // A variable is looked up as a call with this one operand would be.
                Node::Name(name) => {
                    return self.list_awaited(&[Operand::Name(name)], scope, listed);
                }
                Node::Site(_, list) => {
                    return self.list_awaited(inputs.graph.operands(list as usize), scope, listed);
                }
                _ => {}
            }
        }
        // A token on a value, or at any other node, waits for no cell.
        listed.clear();
        Ok(())
    }

    /// Lists the cells for which a token waits, as `awaited` does, and parks the token, which is in the slot `slot`: it is noted as one that waits,
    /// and `next` need not look at it until one of these cells is bound or lost. A token that can move isn't parked. For contracts nothing changes
    /// (`same`): the notes aren't in the records. The only fault is `Memory`; what is listed is then not known, and the token isn't newly parked.
    pub fn park(
        &mut self,
        inputs: &Inputs<'_, P>,
        slot: usize,
        token: Token,
        listed: &mut Vec<u64>,
    ) -> Result<(), LedgerFault>
        requires held { IsHeld self.old.slots slot token }
        ensures listed { OnOk result (listed.new.items ≡ cells_of (term_of (code P.listing) self.old token)) }
        ensures same { self.new ≡ self.old }
        ensures why { IfErr result (λ fault. fault ≡ LedgerFault.Memory) }
    {
        self.awaited(inputs, &token, listed)?;
        match self.what(inputs, &token) {
            Action::Wait(_) => Ok(self.tokens.park(slot, token.serial, listed)?),
            // The token can move, so it isn't parked.
            _ => Ok(()),
        }
    }
}
