//! Turns in a run with an order (`--order`): it draws whose turn comes, that of a token or of a call that is due. An error of type `Stop` is the
//! reason why the run stops. The ledger has the run's records: it keeps a token, which marks a part of the program's term that runs, in a *slot*, and
//! a `Handle` names the token. `inputs` are the program's nodes and the table that answers its calls. In contracts the type `P` names the run:
//! `P.listing` is its program. `Advances` says that the run is nearer its end, `HasTurned` that a turn has brought it there or, if it `Rests`, has
//! left the ledger as it was, and `Stops` that the run has cause to stop. A `Step` says how a token goes on after its move.

ghost use Rattle.std.specs.Prelude.{◌≡◌, ◌≤◌, ◌<◌, true, false, IfOk, IfErr};
ghost use Rattle.std.specs.VecDeque.{deque_len};
ghost use Rattle.orc_rules.specs.Nodes.{code, definitions};
ghost use Rattle.orc_tables.specs.Tokens.{IsHeld};
ghost use Rattle.orc_ledger_spec.specs.Doing.{what_of};
ghost use Rattle.orc_scheduler.specs.Stops.{Advances, HasTurned, Stops};

use crate::ready::Drawn;
use crate::scheduler::{Scheduler, Step, Stop, Turn};
use orc_graph::{Graph, Node};
use orc_ledger::{Action, Call, Inputs, LedgerFault, ReturnFault, Run, Standing, Token};
use orc_rules::answers::Answers;
use orc_rules::limits::MOST_TOKENS;
use orc_rules::value::Found;

/// Whether a token stands at a call of a site whose calls a script answers. One on a value (`On`) stands at no node of the program.
pub(crate) fn is_at_script(graph: &Graph, answers: &Answers, token: &Token) -> bool {
    match token.standing {
        Standing::At(node, _) => match graph.node(node as usize) {
            Node::Site(site, _) => answers.is_scripted(site),
            _ => false,
        },
        Standing::On(_) => false,
    }
}

impl<P: Run> Scheduler<P> {
    /// The turn that the order (`--order`) draws: a token moves or is found gone, or a due call is answered, and the run is nearer its end. It
    /// `Rests` if no token is runnable and no due call is left to be drawn. The error is why the run stops.
    #[cold]
    #[inline(never)]
    pub(crate) fn drawn_turn(&mut self, inputs: &Inputs<'_, P>) -> Result<Turn, Stop>
        ensures turned { IfOk result (λ turn. HasTurned self.old.ledger (deque_len self.old.ready.handles) self.new.ledger (deque_len self.new.ready.handles) turn) }
        ensures stops { IfErr result (λ stop. Stops P.listing self.new.ledger stop) }
    {
        self.settle(inputs);
        // A call that was drawn may be gone: then another turn is drawn, at most once for each call.
        for _ in 0..self.ready.call_count().saturating_add(1) {
            match self.ready.draw(&self.ledger) {
                Some(Drawn::Token(handle)) => {
                    self.move_on(inputs, handle)?;
                    return Ok(Turn::Went);
                }
                // False: the call is gone, and the next round draws another.
                Some(Drawn::Call(number)) => {
                    if self.answer_drawn(number)? {
                        return Ok(Turn::Went);
                    }
                }
                None => return Ok(Turn::Rests),
            }
        }
        Ok(Turn::Rests)
    }

    // *Settles* tokens from the newest on, as long as somebody outside sees their next move: they are put first in the run queue, and the order draws
    // among them. The first token whose next move nobody sees, or that is gone, stays at the end of the queue and goes on without a draw.
    fn settle(&mut self, inputs: &Inputs<'_, P>)
        ensures same { self.new.ledger ≡ self.old.ledger }
        ensures as_many { deque_len self.new.ready.handles ≡ deque_len self.old.ready.handles }
    {
        for _ in 0..self.ready.len() {
            let Some(handle) = self.ready.newest_unsettled() else {
                return;
            };
            match self.token_of(handle) {
                Some(token) if self.is_seen(inputs, &token) => self.ready.settle_newest(),
                // Nobody sees the token's next move, or the token is gone.
                _ => return,
            }
        }
    }

    /// Whether somebody outside sees what a token does next: it publishes, binds, or calls a site whose calls a script answers.
    pub(crate) fn is_seen(&self, inputs: &Inputs<'_, P>, token: &Token) -> bool {
        match self.ledger.what(inputs, token) {
            Action::Publish(_) | Action::Bind(_, _) => true,
            Action::Call => is_at_script(inputs.graph, inputs.answers, token),
            // Nobody outside sees any other action.
            _ => false,
        }
    }

    // Answers the call with this number by the table, and puts the token on its answer into the run queue. False if the call is gone or isn't due.
    // The error is why the run stops.
    fn answer_drawn(&mut self, number: u64) -> Result<bool, Stop>
        ensures advances { IfOk result (λ answered. answered ≡ true → Advances self.old.ledger self.new.ledger) }
        ensures none { IfOk result (λ answered. answered ≡ false → (self.new.ledger ≡ self.old.ledger) × (self.new.ready ≡ self.old.ready)) }
        ensures stops { IfErr result (λ stop. Stops P.listing self.new.ledger stop) }
    {
        // None: no call with this number pends.
        let Some(call) = self.ledger.pending(number) else {
            return Ok(false);
        };
        // What the table found for the call: an answer after a delay, or never. One that is never answered isn't due.
        let Found::After(answer, _) = call.found else {
            return Ok(false);
        };
        // `slot` is that of the token on the answer. None comes of an answer that halts: then the call's group ends if nothing is left in it.
        match self.ledger.returned(number, answer) {
            Ok(Some(slot)) => self.join_held(slot)?,
            Ok(None) => {
                let group = self.ledger.group_of_call(&call);
                self.close(group)?;
            }
            Err(ReturnFault::Limit) => return Err(Stop::Refused(LedgerFault::Limit)),
            Err(ReturnFault::Memory) => return Err(Stop::Refused(LedgerFault::Memory)),
            // The call isn't due after all, or it is gone.
            Err(ReturnFault::Wrong | ReturnFault::Gone) => return Ok(false),
        }
        Ok(true)
    }

    /// Makes a call of a site that a script answers, in a run with an order. The token in this slot is at that call, and all arguments have values
    /// (clause *calls*). The answer has a turn of its own, even if the call is due at once. The error is why the run stops.
    #[cold]
    #[inline(never)]
    pub(crate) fn call_apart(
        &mut self,
        inputs: &Inputs<'_, P>,
        slot: usize,
        token: Token,
    ) -> Result<Step, Stop>
        requires held { IsHeld self.old.ledger.slots slot token }
        requires calls { what_of (code P.listing) (definitions P.listing) self.old.ledger token ≡ Action.Call }
        ensures moved { IfOk result (λ step. Advances self.old.ledger self.new.ledger × (step ≡ Step.Waits → ⊥)) }
        ensures stops { IfErr result (λ stop. Stops P.listing self.new.ledger stop) }
    {
        // The ledger writes the call's arguments into `self.args`, which is lent for that. Nothing reads them afterwards.
        match self.ledger.call(inputs, slot, token, &mut self.args) {
            // The call pends in the token's place.
            Ok(call) => {
                self.note_made(&call)?;
                Ok(Step::Done)
            }
            Err(fault) => {
                // A law: where the ledger was full its journal shows that it can have been, as `Stops` asks. Nothing runs.
                self.ledger.full_is_crowded();
                Err(Stop::Refused(fault))
            }
        }
    }

    // Notes a call that was made: if it is due at once its answer has a turn. The error is refused memory.
    fn note_made(&mut self, call: &Call) -> Result<(), Stop>
        ensures same { self.new.ledger ≡ self.old.ledger }
        ensures memory { IfErr result (λ stop. stop ≡ Stop.Refused LedgerFault.Memory) }
    {
        match call.found {
            // The delay is 0, so the call is due at once.
            Found::After(_, 0) => self.note_call(call.number),
            // `note_due` notes it once time has come to it; one that is never answered has no turn.
            _ => Ok(()),
        }
    }

    // Puts the call with this number among those that the order draws. The error is refused memory.
    fn note_call(&mut self, number: u64) -> Result<(), Stop>
        ensures same { self.new.ledger ≡ self.old.ledger }
        ensures memory { IfErr result (λ stop. stop ≡ Stop.Refused LedgerFault.Memory) }
    {
        match self.ready.note_call(number) {
            Ok(()) => Ok(()),
            Err(_) => Err(Stop::Refused(LedgerFault::Memory)),
        }
    }

    /// Notes that time has passed: where there is an order, the calls that are due now get turns. The error is refused memory.
    pub(crate) fn note_due(&mut self) -> Result<(), Stop>
        ensures same { self.new.ledger ≡ self.old.ledger }
        ensures memory { IfErr result (λ stop. stop ≡ Stop.Refused LedgerFault.Memory) }
    {
        if !self.ready.is_ordered() {
            return Ok(());
        }
        // Numbers of calls count from 1. Each time round takes the next due call over `number`.
        let mut number = 0;
        // As many calls pend at most as there may be tokens.
        for _ in 0..MOST_TOKENS {
            let Some(next) = self.ledger.due_beyond(number) else {
                return Ok(());
            };
            self.note_call(next)?;
            number = next;
        }
        Ok(())
    }
}
