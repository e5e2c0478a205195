//! Moves in one go: a token enters the left side of a `>x>`, the call there is made and answered at once, and the `>x>` takes the answer. A *token*
//! marks a part of the program's term that runs: it is in a *slot* of the table of tokens, and on a value, or at a node in a *scope* (by number, what
//! the names there stand for). A *step* is the entry into the right side of a `<x<`, or into the left side of a `;` or a `>x>`; a token has the
//! number of the innermost one around it. A *group* is what runs in a right side of a `<x<`, a left side of a `;`, or the whole program. [`Passed`]
//! says what has become of the token that makes the call: `Through` if the `>x>` has taken the answer, `Answered` if the answer is still in the left
//! side, `Pends` with the call's number, `Halted` with the group in which the call halted, `On` if no call was made.
//!
//! Of the clauses `held` says that the token is in the slot, `at` or `form` what it is on, `done` what becomes of the records, `others` which tokens
//! stay in their slots, `refused` that a refused call changes nothing, and `why` its cause. `P` names the run: `P.listing` is its program, where
//! `code` gives the term of a node, and `P.sites` the table of its sites.

ghost use Rattle.std.specs.Prelude.{◌≡◌, ℕ, List, [], map, true, false, slice_index_or, IfOk, IfErr, OnOk, OnErr};
ghost use Rattle.orc_rules.specs.Nodes.{code, param_of};
ghost use Rattle.orc_rules.specs.Term.{seq, site as calls};
ghost use Rattle.orc_ledger_spec.specs.Moves.{StandsAt, Moves, IsHindered};
ghost use Rattle.orc_ledger_spec.specs.Passing.{GoesOn, Passes};
ghost use Rattle.orc_ledger_spec.specs.Vacant.{IsVacant, Sheds};
ghost use Rattle.orc_ledger_spec.specs.declared.results.Moved.TheVariants.{Sent};
ghost use Rattle.orc_tables.specs.Tokens.{IsHeld};
ghost use Rattle.orc_tables.specs.declared.records.Standing.TheVariants.{On};
ghost use Rattle.orc_ledger.specs.Others.{KeepsOthers};

use crate::inputs::Inputs;
use crate::ledger::Ledger;
use orc_frames::Taker;
use orc_graph::Node;
use orc_ledger_spec::{Called, LedgerFault, Passed};
use orc_log::Run;
use orc_rules::value::{Args, Value};
use orc_tables::{Standing, Token};

/// The parts of an `f >x> g`.
#[derive(Clone, Copy)]
pub struct Sequence {
    /// The node of f.
    pub left: u32,
    /// The number of x.
    pub name: u32,
    /// The node of g.
    pub right: u32,
}

impl<P: Run> Ledger<P> {
    // Sends the value on which the token in the slot `slot` stands to the `>x>` that takes the value, and answers true. False, and nothing changes,
    // where something else takes the value or the entry is refused: whoever moves the token next makes that move, or meets the refusal again and
    // reports it. Tokens in other slots stay there.
    #[inline(always)]
    fn send_on(&mut self, slot: usize, token: Token, value: Value) -> bool
        requires held { IsHeld self.old.slots slot token }
        requires on { token.standing ≡ On value }
        ensures sent { result ≡ true → (g : ℕ) × Moves P.listing self.old slot token (Sent g) [] self.new }
        ensures not { result ≡ false → self.new ≡ self.old }
        ensures others { KeepsOthers self.old.slots slot self.new.slots }
    {
        match self.taker_of(token) {
            // A `>x>`: the number of x, the right side's node, the scope of the whole term, and the step around it.
            Taker::SeqLeft(name, right, scope, outer) => {
                match self.send(slot, token, value, name, right, scope, outer) {
                    Ok(()) => true,
                    Err(_) => false,
                }
            }
            // The program or a cell takes the value: this function leaves that to the token's next move.
            Taker::Whole => false,
            Taker::PruneRight(_, _) => false,
        }
    }

    // A token at a call of the site with the number `site`, with the operands of list `list`, read in the scope with the number `scope`, makes the
    // call if the operands have values, and goes on with an answer that comes at once. `On` where nothing has changed: an operand has no value, or
    // the call is refused. Tokens in other slots stay there.
    #[inline(always)]
    fn call_on(
        &mut self,
        inputs: &Inputs<'_, P>,
        slot: usize,
        token: Token,
        scope: usize,
        site: u32,
        list: u32,
        args: &mut Args,
    ) -> Passed
        requires held { IsHeld self.old.slots slot token }
        requires at { StandsAt P.listing token scope (calls site (map param_of (slice_index_or P.listing.lists list []))) }
        ensures goes { GoesOn P.listing P.sites self.old slot token result self.new }
        ensures others { KeepsOthers self.old.slots slot self.new.slots }
    {
        // `take_values` writes the operands' values over `args`, and is false if one has none.
        if self.take_values(inputs.graph.operands(list as usize), scope, args) {
            // The mark of the token on the answer, if the answer comes at once.
            let mark = self.next_mark;
            return match self.answer_through(inputs, slot, token, site, args) {
                Ok(Called::Answered(value)) => {
                    // The token that the answer has put into the slot.
                    let answered = Token {
                        serial: mark,
                        standing: Standing::On(value),
                        step: token.step,
                    };
                    // True: the `>x>` around the call has taken the answer.
                    if self.send_on(slot, answered, value) {
                        Passed::Through
                    } else {
                        Passed::Answered
                    }
                }
                // The call waits for its answer, or it has halted, out of this group.
                Ok(Called::Pends(number)) => Passed::Pends(number),
                Ok(Called::Halted(group)) => Passed::Halted(group),
                // Nothing has changed: whoever moves the token next meets the same refusal, and reports it.
                Err(_) => Passed::On,
            };
        }
        Passed::On
    }

    // Removes the last step, which is the entry into the left side of a `>x>` where no token, call or group is left (`IsVacant`). So a program that
    // repeats itself doesn't add a step in each round.
    #[inline(always)]
    fn shed(&mut self)
        requires { IsVacant self.old }
        ensures { Sheds self.old self.new }
    {
        self.steps.drop_last();
    }

    /// `f >x> g`: a token on the left side, in the same slot, as `feed` puts it there. If that token is at a call of a site with values, the call is
    /// made, as `call_through` makes it; and if the call is answered at once the `>x>` takes the answer. `scope` is the number of the whole term's
    /// scope. The fault says why the first entry is refused, and then nothing changes; what is refused after that entry is left undone, and is no
    /// fault. If the token gets through, or the call halts, the step into the left side (its record in the table of steps) goes again. `args` is lent
    /// for the arguments. Tokens in other slots stay there.
    pub fn feed_through(
        &mut self,
        inputs: &Inputs<'_, P>,
        slot: usize,
        token: Token,
        scope: usize,
        sequence: Sequence,
        args: &mut Args,
    ) -> Result<Passed, LedgerFault>
        requires held { IsHeld self.old.slots slot token }
        requires at { StandsAt P.listing token scope (seq (code P.listing sequence.left) sequence.name (code P.listing sequence.right)) }
        ensures done { (ks : List ℕ) → IfOk result (λ p. Passes P.listing P.sites self.old slot token p ks self.new) }
        ensures others { OnOk result (KeepsOthers self.old.slots slot self.new.slots) }
        ensures refused { OnErr result (self.new ≡ self.old) }
        ensures why { IfErr result (λ fault. IsHindered P.listing self.old token fault) }
    {
        let Sequence { left, name, right } = sequence;
        // The mark that `feed` gives to the token on the left side.
        let mark = self.next_mark;
        self.feed(slot, token, scope, left, name, right)?;
        // Anything but a call of a site is left to the token's next move.
        let Node::Site(site, list) = inputs.graph.node(left as usize) else {
            return Ok(Passed::On);
        };
        // The token that `feed` has put into the slot.
        let first = Token {
            serial: mark,
            standing: Standing::At(left, scope),
            step: self.steps.len(),
        };
        match self.call_on(inputs, slot, first, scope, site, list, args) {
            Passed::Through => {
                // Nothing is left in the left side, so the step into it goes.
                self.shed();
                Ok(Passed::Through)
            }
            Passed::Halted(group) => {
                // Nothing is left in the left side, so the step into it goes.
                self.shed();
                Ok(Passed::Halted(group))
            }
            // `On`, `Pends` or `Answered`: a token or a call is still in the left side, so the step into it stays.
            inside => Ok(inside),
        }
    }
}
