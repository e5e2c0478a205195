//! The scheduler itself: it gives tokens their turns, makes their calls, and halts groups. Each function that goes on with a run brings it nearer its
//! end (`IsNearer`, `Advances`), and each stop has a cause (`Stops`, all in `specs/Stops.antt`). An error of type `Stop` is the reason why the run
//! stops: the entry that was refused isn't in the journal, and the caller gives no turn any more. A *token* marks a part of the program's term that
//! runs. The *ledger* has the records of a run and its journal: it keeps a token in a *slot*, and a `Handle` names the token. `inputs` are the
//! program's nodes and the table that answers its calls. A *group* is what runs in one *side*, the right one of a `<x<` or the left one of a `;`,
//! or in the whole program (group 0). A turn has `MOVES` moves at most: 64. In contracts the type `P` names the run: `P.listing` is its program, and
//! `P.keeps` says whether its journal is kept.

ghost use Rattle.std.specs.Prelude.{◌≡◌, ◌≤◌, ◌<◌, ◌+◌, ◌^◌, ℕ, true, false, IfOk, IfErr, IfSome, IfNone, OnErr};
ghost use Rattle.std.specs.VecDeque.{deque_len};
ghost use Rattle.orc_rules.specs.Nodes.{code, definitions, source, unfold_node};
ghost use Rattle.orc_rules.specs.Program.{IsProgram};
ghost use Rattle.orc_frames.specs.Doing.{is_wait};
ghost use Rattle.orc_tables.specs.Tokens.{IsHeld};
ghost use Rattle.orc_tables.specs.declared.records.Group.{Group};
ghost use Rattle.orc_ledger_spec.specs.Doing.{what_of};
ghost use Rattle.orc_ledger_spec.specs.Halting.{IsGroup};
ghost use Rattle.orc_graph.specs.Graph.{term_node};
ghost use Rattle.orc_ledger_spec.specs.Moves.{IsHindered, Moves, StandsAt};
ghost use Rattle.orc_ledger_spec.specs.Next.{members, numbers_of};
ghost use Rattle.orc_scheduler.specs.Stops.{Goes, Advances, HasMoved, IsNearer, HasTurned, Stops};

use crate::drawn::is_at_script;
use crate::held_output::Holding;
use crate::order::Order;
use crate::ready::{Handle, MOVES, Ready};
use crate::wait_list::Waiting;
use orc_env::StoredScope;
use orc_graph::{Graph, Node};
use orc_ledger::{
    Action, Called, HaltFault, Halted, Inputs, Ledger, LedgerFault, Moved, Passed, Run, Sequence,
    Standing, Token, calls_fit,
};
use orc_rules::limits::MOST_GROUPS;
use orc_rules::value::Args;
use std::alloc::Global;

/// What a turn has come to.
#[derive(Clone, Copy)]
pub(crate) enum Turn {
    /// A token moved or was found gone, or a call was answered.
    Went,
    /// No token is left whose turn comes.
    Rests,
}

/// Why a run stops.
#[derive(Clone, Copy)]
pub enum Stop {
    /// Its term has halted.
    Halted,
    /// Its term hasn't halted, and nothing can come next.
    Quiet,
    /// The ledger refused an entry, or memory was refused for the scheduler's own lists.
    Refused(LedgerFault),
    /// Something is left, and nobody found what to do. No run of a program that the scope check accepted stops so on one worker.
    Broken,
    /// The call with this number was answered otherwise than the table says.
    Site(u64),
}

/// Whether a token stands at a call of a definition. One on a value (`On`) stands at no node of the program.
#[inline(always)]
pub(crate) fn is_at_call(graph: &Graph, token: &Token) -> bool {
    match token.standing {
        Standing::At(node, _) => matches!(graph.node(node as usize), Node::Call(_, _)),
        Standing::On(_) => false,
    }
}

/// How a token, which a slot of the ledger holds, goes on after a move.
#[derive(Clone, Copy)]
pub(crate) enum Step {
    /// It moves on, in this slot.
    On(usize),
    /// The token is gone.
    Done,
    /// The token stays in its slot until one of the cells for which it waits is bound or lost. It is in no queue then.
    Waits,
}

/// A run: its ledger, the tokens whose turn comes, and those that wait.
pub struct Scheduler<P: Run> {
    pub(crate) alloc: Global,
    /// The run's records and its journal. Contracts of callers speak of it.
    pub ledger: Ledger<P>,
    // Whether the ledger keeps its journal, as `P.keeps` says (clause *its_keeping*).
    pub(crate) keeps: bool,
    /// The tokens whose turn comes.
    pub ready: Ready,
    // The tokens that wait, by the cells for which they do.
    waiting: Waiting,
    // Whether a token may go into a `>x>` and on through it in one move (`feed_through`), and make a call of a site the fast way (`step_at`). Not so
    // in a run with an order.
    goes_through: bool,
    // Whether tokens *spread*, before calls are shared out to other threads: a turn ends at the next call of a definition, and the token that has
    // waited longest goes first.
    pub(crate) spreads: bool,
    // How many moves, one after another, have led to the token whose turn it is.
    moves: u32,
    // What this run holds back of its output if it is a sub-run: the run of one call of a definition, apart from the run that makes the call.
    pub(crate) holding: Holding,
    // Four lists that the ledger's calls fill: new scopes of a definition's parameters, numbers of cancelled calls, cells for which a token waits,
    // and arguments of a call of a site. What an earlier call left there is never read; they stay here so that their memory is used again.
    scopes: Vec<StoredScope>,
    cancelled: Vec<u64>,
    cells: Vec<u64>,
    pub(crate) args: Args,
    ghost its_keeping: { keeps ≡ P.keeps },
}

// Written out, so that each exit of a function that has a run drops it by one call.
impl<P: Run> Drop for Scheduler<P> {
    fn drop(self) {
        let Scheduler {
            alloc: _,
            ledger,
            keeps: _,
            ready,
            waiting,
            goes_through: _,
            spreads: _,
            moves: _,
            holding: _,
            scopes,
            cancelled,
            cells,
            args,
        } = self;
        drop(ledger);
        drop(ready);
        drop(waiting);
        drop(scopes);
        drop(cancelled);
        drop(cells);
        drop(args);
    }
}

impl<P: Run> Scheduler<P> {
    /// A run that begins, whose ledger `keeps` its journal or doesn't. Its run queue is empty until `begin`. The table answers its calls.
    pub fn new(alloc: Global, ledger: Ledger<P>, keeps: bool) -> Scheduler<P>
        requires { keeps ≡ P.keeps }
    {
        Scheduler {
            alloc,
            ledger,
            keeps,
            ready: Ready::new(alloc),
            waiting: Waiting::new(alloc),
            goes_through: true,
            spreads: false,
            moves: 0,
            holding: Holding::new(),
            scopes: Vec::new(alloc),
            cancelled: Vec::new(alloc),
            cells: Vec::new(alloc),
            args: Args::new(),
        }
    }

    /// From now on the order with this number says whose turn it is, and no token goes through a `>x>` in one go: so the steps that the rules leave
    /// free come in another order.
    pub fn follow(&mut self, number: u64)
        ensures ledger { self.new.ledger ≡ self.old.ledger }
        ensures ready { self.new.ready.handles ≡ self.old.ready.handles }
    {
        self.ready.follow(Order::new(self.alloc, number));
        self.goes_through = false;
    }

    /// The ledger; the rest is dropped.
    pub(crate) fn into_ledger(self) -> Ledger<P>
        ensures { result ≡ self.ledger }
    {
        let Scheduler {
            alloc: _,
            ledger,
            keeps: _,
            ready,
            waiting,
            goes_through: _,
            spreads: _,
            moves: _,
            holding: _,
            scopes,
            cancelled,
            cells,
            args,
        } = self;
        drop(ready);
        drop(waiting);
        drop(scopes);
        drop(cancelled);
        drop(cells);
        drop(args);
        ledger
    }

    /// The first token's turn comes: it has serial 1, in slot 0. The error is refused memory.
    pub fn begin(&mut self) -> Result<(), Stop>
        ensures same { self.new.ledger ≡ self.old.ledger }
        ensures memory { IfErr result (λ stop. stop ≡ Stop.Refused LedgerFault.Memory) }
    {
        self.join(0, 1)
    }

    // Puts the token with this serial (its mark, from 1), which is in this slot, into the run queue as the newest. `self.moves` moves have led to it.
    // The error is refused memory.
    fn join(&mut self, slot: usize, serial: u64) -> Result<(), Stop>
        ensures same { self.new.ledger ≡ self.old.ledger }
        ensures memory { IfErr result (λ stop. stop ≡ Stop.Refused LedgerFault.Memory) }
    {
        match self.ready.push(Handle {
            slot,
            serial,
            moves: self.moves,
        }) {
            Ok(()) => Ok(()),
            Err(_) => Err(Stop::Refused(LedgerFault::Memory)),
        }
    }

    /// Gives a token its turn or, if no token is runnable, does what else comes next. Each time the run is nearer its end: it has more entries, or as
    /// many and fewer open groups, or as many of both and a shorter run queue (`IsNearer`). So a loop of these calls ends. The error is why the run
    /// stops.
    pub fn go(&mut self, inputs: &Inputs<'_, P>) -> Result<(), Stop>
        ensures nearer { IfOk result (λ _. IsNearer self.old.ledger (deque_len self.old.ready.handles) self.new.ledger (deque_len self.new.ready.handles)) }
        ensures within { self.new.ledger.entries ≤ self.new.ledger.limit }
        ensures few { deque_len self.new.ready.handles < 2 ^ 64 }
        ensures stops { IfErr result (λ stop. Stops P.listing self.new.ledger stop) }
    {
        let went = match self.turn(inputs) {
            Ok(Turn::Went) => Ok(()),
            Ok(Turn::Rests) => self.rest(inputs),
            Err(stop) => Err(stop),
        };
        // Both show the prover a clause, *within* and *few*, which hold of any scheduler. Nothing comes of them.
        self.ledger.is_whole();
        let _ready = self.ready.len();
        went
    }

    /// Gives a token its turn or, between two rounds of 64 turns, answers a call that is due. False if it finds neither; it never lets time pass. If
    /// true the run is nearer its end (`IsNearer`), so no loop of these calls is endless. The error is why the run stops.
    pub(crate) fn go_now(&mut self, inputs: &Inputs<'_, P>) -> Result<bool, Stop>
        ensures nearer { IfOk result (λ went. went ≡ true → IsNearer self.old.ledger (deque_len self.old.ready.handles) self.new.ledger (deque_len self.new.ready.handles)) }
        ensures within { self.new.ledger.entries ≤ self.new.ledger.limit }
        ensures few { deque_len self.new.ready.handles < 2 ^ 64 }
    {
        let went = match self.turn(inputs) {
            Ok(Turn::Went) => Ok(true),
            Ok(Turn::Rests) => Ok(false),
            Err(stop) => Err(stop),
        };
        // Both show the prover a clause, *within* and *few*, which hold of any scheduler. Nothing comes of them.
        self.ledger.is_whole();
        let _ready = self.ready.len();
        went
    }

    /// Gives a token its turn: it moves until it is gone, waits, or has made its moves. Between two rounds of 64 turns it answers a call that is due
    /// instead, which tokens that move on and on would starve otherwise. `Rests` if no token is runnable: then the ledger hasn't changed, and the run
    /// queue isn't longer. After `Went` the run is nearer its end. The error is why the run stops. In a run with an order (`--order`) the order draws
    /// the turn instead (`drawn_turn`), and `Rests` says that no due call is left, either.
    pub(crate) fn turn(&mut self, inputs: &Inputs<'_, P>) -> Result<Turn, Stop>
        ensures turned { IfOk result (λ turn. HasTurned self.old.ledger (deque_len self.old.ready.handles) self.new.ledger (deque_len self.new.ready.handles) turn) }
        ensures stops { IfErr result (λ stop. Stops P.listing self.new.ledger stop) }
    {
        if self.ready.is_ordered() {
            return self.drawn_turn(inputs);
        }
        if self.ready.is_round_over() {
            // Handles of tokens that are gone leave the front of the queue.
            self.sweep();
            if self.answer_due()? {
                return Ok(Turn::Went);
            }
        }
        // None: the run queue is empty.
        let Some(handle) = self.ready.take(self.spreads) else {
            return Ok(Turn::Rests);
        };
        self.move_on(inputs, handle)?;
        Ok(Turn::Went)
    }

    /// Moves the token of a handle that was taken from the run queue, until it is gone, waits, is held back on a value that a sub-run doesn't publish
    /// itself, or its turn is over, after `MOVES` moves at the latest. In the last case it goes back into the queue. The contract says that the run
    /// is nearer its end than before the handle was taken from the queue: hence the 1. The error is why the run stops.
    pub(crate) fn move_on(&mut self, inputs: &Inputs<'_, P>, handle: Handle) -> Result<(), Stop>
        ensures nearer { IfOk result (λ _. IsNearer self.old.ledger (deque_len self.old.ready.handles + 1) self.new.ledger (deque_len self.new.ready.handles)) }
        ensures stops { IfErr result (λ stop. Stops P.listing self.new.ledger stop) }
    {
        // None: a bind has dropped the token while its handle was in the queue.
        let Some(mut token) = self.token_of(handle) else {
            return Ok(());
        };
        let mut slot = handle.slot;
        for moved in 0..MOVES {
            // So many moves have led to the token by now. The handles that are made in its move get this number.
            self.moves = handle.moves.saturating_add(moved);
            // A turn has one move at least, even of a token that stands where turns end.
            if moved > 0 && self.is_turn_over(inputs, &token) {
                break;
            }
            if self.is_held_back(inputs, &token) {
                // The token stays on its value, in no queue. If it is inside nothing (step 0 is the whole program), the value is the call's. One
                // inside the left side of a `;` can't be merged, and the sub-run is of no use.
                if token.step == 0 {
                    self.holding.keep(slot);
                } else {
                    self.holding.give_up();
                }
                return Ok(());
            }
            match self.step(inputs, slot, token)? {
                Step::On(next) => slot = next,
                Step::Done | Step::Waits => return Ok(()),
            }
            match self.ledger.held(slot) {
                Some(next) => token = next,
                // A token that goes on is in its slot; the prover isn't told so.
                None => return Ok(()),
            }
        }
        // The turn is over, and the token goes back into the queue.
        self.join(slot, token.serial)
    }

    // Whether the turn of a token that has moved ends here: at a call of a definition if tokens spread, and in a run with an order (`--order`) before
    // a move that somebody outside sees: a publication, a bind, or a call that a script answers.
    #[inline(always)]
    fn is_turn_over(&self, inputs: &Inputs<'_, P>, token: &Token) -> bool {
        if self.spreads {
            is_at_call(inputs.graph, token)
        } else {
            self.ready.is_ordered() && self.is_seen(inputs, token)
        }
    }

    // Whether the token's next move is a publication, and this run holds these back: a sub-run does whose call something encloses.
    #[inline(always)]
    fn is_held_back(&self, inputs: &Inputs<'_, P>, token: &Token) -> bool {
        self.holding.is_on() && matches!(self.ledger.what(inputs, token), Action::Publish(_))
    }

    // Drops the handles of gone tokens from the front of the run queue. A bind may drop many tokens at once, and only one turn in each round would
    // take one of their handles from there.
    fn sweep(&mut self)
        ensures same { self.new.ledger ≡ self.old.ledger }
        ensures fewer { deque_len self.new.ready.handles ≤ deque_len self.old.ready.handles }
    {
        for _ in 0..self.ready.len() {
            match self.ready.oldest() {
                Some(handle) if !self.is_there(handle) => self.ready.drop_oldest(),
                // The oldest token is there, or the queue is empty.
                _ => return,
            }
        }
    }

    // The token of a handle. None if it is gone: its slot is free, or holds a token with another serial.
    #[inline(always)]
    pub(crate) fn token_of(&self, handle: Handle) -> Option<Token>
        ensures { IfSome result (λ token. IsHeld self.now.ledger.slots handle.slot token) }
    {
        // No token has serial 0, and the ledger isn't to be asked for it.
        if handle.serial < 1 {
            return None;
        }
        self.ledger.token(handle.slot, handle.serial)
    }

    // Whether the slot still holds the token.
    #[inline(always)]
    fn is_there(&self, handle: Handle) -> bool {
        self.token_of(handle).is_some()
    }

    /// Puts the token in a slot into the run queue; nothing happens if the slot is free. The error is refused memory.
    #[inline(always)]
    pub(crate) fn join_held(&mut self, slot: usize) -> Result<(), Stop>
        ensures same { self.new.ledger ≡ self.old.ledger }
        ensures memory { IfErr result (λ stop. stop ≡ Stop.Refused LedgerFault.Memory) }
    {
        match self.ledger.held(slot) {
            Some(token) => self.join(slot, token.serial),
            None => Ok(()),
        }
    }

    /// Puts the token in a slot into the run queue, as one to which `moves` moves have led; nothing happens if the slot is free. The error is refused
    /// memory.
    pub(crate) fn join_after(&mut self, slot: usize, moves: u32) -> Result<(), Stop>
        ensures same { self.new.ledger ≡ self.old.ledger }
    {
        self.moves = moves;
        self.join_held(slot)
    }

    /// One move of the token in this slot, and all that follows from it: tokens that the move wakes or adds are put into the run queue, and groups
    /// (what runs in one side) that it leaves without members end. The answer says how the token goes on. After `Waits` the records are the same as
    /// before; after any other answer the run is further (`Advances`): it has more entries, or as many and fewer open groups. The error is why the
    /// run stops.
    #[inline(always)]
    pub(crate) fn step(
        &mut self,
        inputs: &Inputs<'_, P>,
        slot: usize,
        token: Token,
    ) -> Result<Step, Stop>
        requires held { IsHeld self.old.ledger.slots slot token }
        ensures moved { IfOk result (λ step. HasMoved self.old.ledger (deque_len self.old.ready.handles) self.new.ledger (deque_len self.new.ready.handles) step) }
        ensures waits { IfOk result (λ step. step ≡ Step.Waits → IsProgram (definitions P.listing) (source P.listing) → is_wait (what_of (code P.listing) (definitions P.listing) self.old.ledger token) ≡ true) }
        ensures stops { IfErr result (λ stop. Stops P.listing self.new.ledger stop) }
    {
        // Makes room in the queue for a token that the move may add, before anything changes.
        if self.ready.reserve().is_err() {
            return Err(Stop::Refused(LedgerFault::Memory));
        }
        // First the fast way, which only nodes have; a token on a value has none.
        if let Standing::At(node, scope) = token.standing {
            let node = inputs.graph.node(node as usize);
            if let Some(step) = self.step_at(inputs, slot, token, scope, node)? {
                return Ok(step);
            }
        }
        self.step_any(inputs, slot, token)
    }

    // One move of the token in this slot, of any kind, and all that follows from it: tokens that the move wakes or adds are put into the run queue,
    // and groups (what runs in one side) that it leaves without members end. The answer says how the token goes on. After `Waits` the records are the
    // same as before; after any other answer the run is further (`Advances`). The error is why the run stops.
    #[inline(always)]
    fn step_any(&mut self, inputs: &Inputs<'_, P>, slot: usize, token: Token) -> Result<Step, Stop>
        requires held { IsHeld self.old.ledger.slots slot token }
        ensures moved { IfOk result (λ step. HasMoved self.old.ledger (deque_len self.old.ready.handles) self.new.ledger (deque_len self.new.ready.handles) step) }
        ensures waits { IfOk result (λ step. step ≡ Step.Waits → IsProgram (definitions P.listing) (source P.listing) → is_wait (what_of (code P.listing) (definitions P.listing) self.old.ledger token) ≡ true) }
        ensures stops { IfErr result (λ stop. Stops P.listing self.new.ledger stop) }
    {
        // A law, for the clause *waits*: in a program that the scope check accepted each call of a definition has its arguments. Nothing runs.
        calls_fit(&self.ledger);
        match self.advance(inputs, slot, token) {
            // The token has moved, and is in its slot still.
            Ok(Moved::On) => Ok(Step::On(slot)),
            // The token has become two, and `right` is the slot of the second one.
            Ok(Moved::Forked(right)) => self.go_on_right(slot, right),
            // In this arm and the two below, `group` is the group that the move may have left without a member: it ends then.
            Ok(Moved::Sent(group)) => {
                self.close(group)?;
                Ok(Step::On(slot))
            }
            Ok(Moved::Gone(group)) => {
                self.close(group)?;
                Ok(Step::Done)
            }
            Ok(Moved::Bound(cell, group)) => {
                self.wake(cell)?;
                self.close(group)?;
                Ok(Step::Done)
            }
            // The token is at a call of a site whose arguments have values, and hasn't moved yet.
            Ok(Moved::Calls) => self.call(inputs, slot, token),
            // The token stays in its slot, and is entered for each cell that it needs.
            Ok(Moved::Waits) => {
                self.wait(inputs, slot)?;
                Ok(Step::Waits)
            }
            Err(fault) => {
                // A law, here and below: where the ledger was full its journal shows that it can have been, as `Stops` asks. Nothing runs.
                self.ledger.full_is_crowded();
                Err(Stop::Refused(fault))
            }
        }
    }

    // One move of a token at the commonest nodes: a call, `f | g`, `stop`, and `f >x> g`, which it enters and goes through in one move. It is a
    // faster form of `step_any`, which serves moves of any kind. None, with nothing changed, if the token stands elsewhere or can't move, and in an
    // order at a call of a site or at `f >x> g`. The token in this slot stands at `node`, in the scope with the number `scope`; `list` is the number
    // of a call's list of operands.
    #[inline(always)]
    fn step_at(
        &mut self,
        inputs: &Inputs<'_, P>,
        slot: usize,
        token: Token,
        scope: usize,
        node: Node,
    ) -> Result<Option<Step>, Stop>
        requires held { IsHeld self.old.ledger.slots slot token }
        requires at { StandsAt P.listing token scope (unfold_node (code P.listing) P.listing.lists (term_node node)) }
        ensures moved { IfOk result (λ moved. IfSome moved (λ step. Advances self.old.ledger self.new.ledger × (step ≡ Step.Waits → ⊥))) }
        ensures none { IfOk result (λ moved. IfNone moved ((self.new.ledger ≡ self.old.ledger) × (self.new.ready ≡ self.old.ready))) }
        ensures stops { IfErr result (λ stop. Stops P.listing self.new.ledger stop) }
    {
        match node {
            Node::Site(site, list) if self.goes_through => {
                // `self.args` is lent: the ledger writes the call's arguments there, and nothing reads them afterwards.
                let args = &mut self.args;
                match self
                    .ledger
                    .call_at(inputs, slot, token, scope, site, list, args)
                {
                    Ok(Some(called)) => match self.after_call(slot, called) {
                        Ok(step) => Ok(Some(step)),
                        Err(stop) => Err(stop),
                    },
                    // An argument has no value. Nothing has changed, and `step_any` goes on.
                    Ok(None) => Ok(None),
                    Err(fault) => {
                        // A law, in each arm below too: where the ledger was full its journal shows that it can have been, as `Stops` asks. Nothing
                        // runs.
                        self.ledger.full_is_crowded();
                        Err(Stop::Refused(fault))
                    }
                }
            }
            Node::Call(definition, list) => {
                // `self.scopes` is lent: the ledger writes the scopes of the definition's parameters there.
                let scopes = &mut self.scopes;
                match self
                    .ledger
                    .def(inputs, slot, token, scope, definition, list, scopes)
                {
                    Ok(true) => Ok(Some(Step::On(slot))),
                    // The call doesn't fit the definition. Nothing has changed; no checked program has such a call.
                    Ok(false) => Ok(None),
                    Err(fault) => {
                        self.ledger.full_is_crowded();
                        Err(Stop::Refused(fault))
                    }
                }
            }
            Node::Par(left, right) => {
                match self.ledger.fork(slot, token, scope, left, right) {
                    Ok(other) => {
                        // `other` is the slot of the right side's token. Its serial is its mark, the last one that was given.
                        let mark = self.ledger.next_mark().saturating_sub(1);
                        match self.join(other, mark) {
                            Ok(()) => Ok(Some(Step::On(slot))),
                            Err(stop) => Err(stop),
                        }
                    }
                    Err(fault) => {
                        self.ledger.full_is_crowded();
                        Err(Stop::Refused(fault))
                    }
                }
            }
            Node::Seq(left, name, right) if self.goes_through => {
                // `self.args` is lent for the arguments, in case f is a call of a site.
                let args = &mut self.args;
                let sequence = Sequence { left, name, right };
                match self
                    .ledger
                    .feed_through(inputs, slot, token, scope, sequence, args)
                {
                    Ok(passed) => match passed {
                        // The call in f halted at once. Its group ends if nothing is left in it.
                        Passed::Halted(group) => {
                            self.close(group)?;
                            Ok(Some(Step::Done))
                        }
                        // The call pends, and the token is gone. The result of a sub-run in which a call pends can't be merged.
                        Passed::Pends(_) => {
                            self.holding.give_up();
                            Ok(Some(Step::Done))
                        }
                        // No token at `f >x> g` calls or waits.
                        Passed::Calls => Ok(None),
                        Passed::Waits => Ok(None),
                        // The token stands in f, on the answer of the call there, or in g. The other variants don't come of `f >x> g`.
                        _ => Ok(Some(Step::On(slot))),
                    },
                    Err(fault) => {
                        self.ledger.full_is_crowded();
                        Err(Stop::Refused(fault))
                    }
                }
            }
            Node::Stop => {
                // The number of the token's group, noted before the token is gone.
                let group = self.ledger.group_of(token.step);
                match self.ledger.end(slot, token) {
                    Ok(()) => {
                        self.close(group)?;
                        Ok(Some(Step::Done))
                    }
                    Err(fault) => {
                        self.ledger.full_is_crowded();
                        Err(Stop::Refused(fault))
                    }
                }
            }
            // Any other node: None has the caller move the token by `step_any`.
            _ => Ok(None),
        }
    }

    // Lets the ledger move the token in this slot once; the answer says what the move was. The caller does the rest: it fills the run queue, wakes
    // tokens and closes groups. `self.scopes` and `self.cancelled` are lent to the ledger, which writes there the scopes of a definition's parameters
    // and the calls that a bind cancels. The error is why the token can't move; nothing has changed then.
    #[inline(always)]
    fn advance(
        &mut self,
        inputs: &Inputs<'_, P>,
        slot: usize,
        token: Token,
    ) -> Result<Moved, LedgerFault>
        requires held { IsHeld self.old.ledger.slots slot token }
        ensures done { IfOk result (λ m. Moves P.listing self.old.ledger slot token m self.new.cancelled.items self.new.ledger) }
        ensures refused { OnErr result (self.new.ledger ≡ self.old.ledger) }
        ensures why { IfErr result (λ fault. IsHindered P.listing self.old.ledger token fault) }
        ensures ready { self.new.ready ≡ self.old.ready }
    {
        // `advance` would do the same. A token on a value is at no node, so this call is the shorter way.
        if let Standing::On(value) = token.standing {
            return self
                .ledger
                .advance_value(slot, token, value, &mut self.cancelled);
        }
        self.ledger
            .advance(inputs, slot, token, &mut self.scopes, &mut self.cancelled)
    }

    // A token has become two, in these slots: those of the two sides of a `<x<` (or of a `|`, but `step_at` makes each of those moves before). The
    // right one goes on, so that the group of a `<x<`'s right side may be gone before the left side opens more; the left one goes into the run queue.
    // The error is refused memory.
    #[inline(always)]
    fn go_on_right(&mut self, left: usize, right: usize) -> Result<Step, Stop>
        ensures same { self.new.ledger ≡ self.old.ledger }
        ensures on { IfOk result (λ step. (slot : ℕ) × (step ≡ Step.On slot)) }
        ensures memory { IfErr result (λ stop. stop ≡ Stop.Refused LedgerFault.Memory) }
    {
        self.join_held(left)?;
        Ok(Step::On(right))
    }

    // Makes the call of a site at which the token in this slot is. The contract asks that the token can do that: all arguments have values. Where the
    // table answers the call at once, the token on the answer goes on; but in a run with an order (`--order`: a number decides whose turn comes) a
    // script's answer has a turn of its own. If the call halts or pends the token is gone; it never waits. The error is why the run stops.
    #[inline(always)]
    fn call(&mut self, inputs: &Inputs<'_, P>, slot: usize, token: Token) -> Result<Step, Stop>
        requires held { IsHeld self.old.ledger.slots slot token }
        requires calls { what_of (code P.listing) (definitions P.listing) self.old.ledger token ≡ Action.Call }
        ensures moved { IfOk result (λ step. Advances self.old.ledger self.new.ledger × (step ≡ Step.Waits → ⊥)) }
        ensures stops { IfErr result (λ stop. Stops P.listing self.new.ledger stop) }
    {
        if self.ready.is_ordered() && is_at_script(inputs.graph, inputs.answers, &token) {
            return self.call_apart(inputs, slot, token);
        }
        // `call_through` makes the call and, if the table answers it at once, records the answer, too. `self.args` is lent for the arguments.
        match self
            .ledger
            .call_through(inputs, slot, token, &mut self.args)
        {
            Ok(called) => self.after_call(slot, called),
            Err(fault) => {
                // A law: where the ledger was full its journal shows that it can have been, as `Stops` asks. Nothing runs.
                self.ledger.full_is_crowded();
                Err(Stop::Refused(fault))
            }
        }
    }

    // How the token in a slot goes on after its call of a site, of which `called` says what came. The run is as far as before then, or further
    // (`Goes`), as the group of a call that halted may end. The error is why the run stops.
    #[inline(always)]
    fn after_call(&mut self, slot: usize, called: Called) -> Result<Step, Stop>
        ensures goes { IfOk result (λ step. Goes self.old.ledger self.new.ledger × (step ≡ Step.Waits → ⊥)) }
        ensures stops { IfErr result (λ stop. Stops P.listing self.new.ledger stop) }
    {
        match called {
            // The token is on the answer, in the same slot.
            Called::Answered(_) => Ok(Step::On(slot)),
            // The call halted at once, and the token is gone. Its group ends if nothing is left in it.
            Called::Halted(group) => {
                self.close(group)?;
                Ok(Step::Done)
            }
            // The call pends, and the token is gone. The result of a sub-run in which a call pends can't be merged.
            Called::Pends(_) => {
                self.holding.give_up();
                Ok(Step::Done)
            }
        }
    }

    // Enters the token in a slot as waiting for each cell that it needs, and *parks* it: the ledger notes that it waits. The error is refused memory.
    fn wait(&mut self, inputs: &Inputs<'_, P>, slot: usize) -> Result<(), Stop>
        ensures same { self.new.ledger ≡ self.old.ledger }
        ensures fewer { deque_len self.new.ready.handles ≤ deque_len self.old.ready.handles }
        ensures memory { IfErr result (λ stop. stop ≡ Stop.Refused LedgerFault.Memory) }
    {
        // The caller's token is there; the prover isn't told so.
        let Some(token) = self.ledger.held(slot) else {
            return Ok(());
        };
        // `park` lists in `self.cells` the cells for which the token waits.
        if self
            .ledger
            .park(inputs, slot, token, &mut self.cells)
            .is_err()
        {
            return Err(Stop::Refused(LedgerFault::Memory));
        }
        for cell in &self.cells {
            let handle = Handle {
                slot,
                serial: token.serial,
                moves: self.moves,
            };
            if self.waiting.add(*cell, handle).is_err() {
                return Err(Stop::Refused(LedgerFault::Memory));
            }
        }
        Ok(())
    }

    // Puts the tokens that wait for the cell with this number, which was bound or lost, into the run queue. The error is refused memory.
    fn wake(&mut self, cell: u64) -> Result<(), Stop>
        ensures same { self.new.ledger ≡ self.old.ledger }
        ensures memory { IfErr result (λ stop. stop ≡ Stop.Refused LedgerFault.Memory) }
    {
        match self.waiting.wake(cell, &mut self.ready) {
            Ok(()) => Ok(()),
            Err(_) => Err(Stop::Refused(LedgerFault::Memory)),
        }
    }

    /// The group with this number ends if it has no members (tokens, pending calls and inner groups) any more, and then so does each that encloses
    /// it, if it has none either. The program's own, group 0, is left to the run's end. The error is why the run stops.
    #[inline(always)]
    pub(crate) fn close(&mut self, group: u32) -> Result<(), Stop>
        ensures goes { IfOk result (λ _. Goes self.old.ledger self.new.ledger) }
        ensures stops { IfErr result (λ stop. Stops P.listing self.new.ledger stop) }
    {
        if group == 0 || !self.ledger.is_empty(group) {
            return Ok(());
        }
        self.close_from(group)
    }

    /// The group with this number ends if it is open and has no members (tokens, pending calls and inner groups), and then so does each that encloses
    /// it, if it has none either. If it ends, the run is further (`Advances`). The error is why the run stops.
    #[inline(never)]
    pub(crate) fn close_from(&mut self, group: u32) -> Result<(), Stop>
        ensures goes { IfOk result (λ _. Goes self.old.ledger self.new.ledger) }
        ensures advances { IfOk result (λ _. (g : Group) → IsGroup self.old.ledger group g → members (numbers_of self.old.ledger) self.old.ledger group ≡ 0 → Advances self.old.ledger self.new.ledger) }
        ensures stops { IfErr result (λ stop. Stops P.listing self.new.ledger stop) }
    {
        let mut number = group;
        // Groups are nested at most so deep.
        for _nested in 0..MOST_GROUPS {
            if !self.ledger.is_empty(number) {
                return Ok(());
            }
            let halted = match self.ledger.halt(number) {
                Ok(halted) => halted,
                Err(HaltFault::Refused(fault)) => {
                    // A law: where the ledger was full its journal shows that it can have been, as `Stops` asks. Nothing runs.
                    self.ledger.full_is_crowded();
                    return Err(Stop::Refused(fault));
                }
                // The program's own group isn't open.
                Err(HaltFault::Gone) => return Ok(()),
                // The fault that the group has members: it doesn't come, since `is_empty` has said above that it has none.
                Err(HaltFault::Live) => unreachable!(),
            };
            match halted {
                // The right side of a `<x<` has ended without a value: the tokens that wait for its cell are woken.
                Halted::Lost(cell, parent) => {
                    self.wake(cell)?;
                    number = parent;
                }
                // The left side of a `;` has halted and published nothing: a token in this slot starts the right side.
                Halted::Resumed(slot) => return self.join_held(slot),
                // The left side of a `;` has halted and had published: the right side never runs.
                Halted::Closed(parent) => number = parent,
            }
        }
        Ok(())
    }

    /// How many handles the run queue has. Some may be of tokens that are gone.
    pub fn ready_count(&self) -> usize {
        self.ready.len()
    }

    /// How many entries the run has written, cancels not counted.
    pub fn entries(&self) -> usize {
        self.ledger.entries()
    }
}
