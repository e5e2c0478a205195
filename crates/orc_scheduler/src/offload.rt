//! How a run shares work out to other threads, which run calls of definitions apart. First the scheduler *spreads* tokens: each moves on to its next
//! call of a definition. Then it lists those calls as jobs for its caller, and merges the result of each. A *token* marks a part of the program's
//! term that runs, and a `Handle` names it. The ledger has the run's records. A *side* is the right one of a `<x<` or the left one of a `;`; its
//! *group* has what runs in it as members. `inputs` are the program's nodes and the table that answers its calls. The *moves* that have led to a
//! token are those by which the run came to it, one after another.

ghost use Rattle.std.specs.Prelude.{◌≡◌, true, false, IfOk, IfErr};
ghost use Rattle.std.specs.VecDeque.{deque_len};
ghost use Rattle.orc_scheduler.specs.Stops.{Advances, HasSpread, Stops};

use crate::ready::Handle;
use crate::scheduler::{Scheduler, Stop, is_at_call};
use crate::sub_runs::SubRunJob;
use orc_graph::Graph;
use orc_ledger::{Inputs, Run, SubRun, SubRunTask, Token};
use orc_rules::limits::MOST_GROUPS;
use std::alloc::AllocError;

/// The most calls in one list of jobs, and so the most that one attempt runs apart.
const MOST_JOBS: usize = 2_000;

/// Spreading ends after this many entries for each token that it is to make runnable, so that it ends in a program whose tokens don't multiply.
const EACH: usize = 40;

/// The most rounds of turns in which tokens are spread, however few entries they write.
const ROUNDS: usize = 1_000;

/// Tokens aren't spread while this many sides are open. Tokens that go on together keep more sides open than one that goes to its end, and a run is
/// full at `MOST_GROUPS`.
const MOST_SIDES: usize = MOST_GROUPS / 2;

/// A round moves the tokens to which the fewest moves have led, and those with up to this many more.
const NEAR: u32 = 2;

/// How many turns tokens have, once the rounds are over, to get from between two calls of definitions to the next one.
const BETWEEN: usize = 4;

/// Jobs are listed by every 16th token: from the oldest one first, then from the 9th oldest, from the 5th, and so on, by `ORDER`. So each stretch of
/// the list, and the samples are its first ones, mixes tokens that came early, whose runs are mostly the longest, with some that came late.
const STRIDE: usize = 16;

/// The remainders by `STRIDE` in the order in which `jobs` takes them: bits reversed, so that each next one halves a gap.
const ORDER: [usize; STRIDE] = [0, 8, 4, 12, 2, 10, 6, 14, 1, 9, 5, 13, 3, 11, 7, 15];

impl<P: Run> Scheduler<P> {
    /// How many more entries the run's limit allows, cancels not counted.
    pub fn room(&self) -> usize {
        self.ledger.limit().saturating_sub(self.ledger.entries())
    }

    /// Moves tokens on to their next calls of definitions, until `wanted` tokens are runnable or `EACH` entries were written for each of these.
    /// Tokens with the fewest moves go first: then the calls of a tree at which tokens stand are about equally deep, and have runs of about the same
    /// length. The run is further then, or unchanged with a run queue that isn't longer (`HasSpread`). The error is why the run stops.
    pub fn spread(&mut self, inputs: &Inputs<'_, P>, wanted: usize) -> Result<(), Stop>
        ensures spread { IfOk result (λ _. HasSpread self.old.ledger (deque_len self.old.ready.handles) self.new.ledger (deque_len self.new.ready.handles)) }
        ensures stops { IfErr result (λ stop. Stops P.listing self.new.ledger stop) }
    {
        // The number of entries after which spreading ends.
        let last = self.entries().saturating_add(wanted.saturating_mul(EACH));
        for _round in 0..ROUNDS {
            // How many tokens are in the run queue.
            let ready = self.ready_count();
            if ready == 0 || ready >= wanted || self.entries() > last {
                break;
            }
            let fewest = self.ready.fewest_moves();
            self.spread_once(inputs, fewest.saturating_add(NEAR))?;
        }
        // With 0 a token that stands at a call stays there, unless it hasn't moved yet; tokens between two calls go on.
        for _turn in 0..BETWEEN {
            self.spread_once(inputs, 0)?;
        }
        Ok(())
    }

    // Gives each runnable token a turn, which ends at its next call of a definition; if a due call is answered between two rounds of 64 turns, that
    // takes the turn of one. A token that stands at such a call stays there if over `moves` moves have led to it, and every token stays where it is
    // as long as `MOST_SIDES` sides are open. A token that stays goes behind the others, so that the next one is looked at. The error is why the run
    // stops.
    fn spread_once(&mut self, inputs: &Inputs<'_, P>, moves: u32) -> Result<(), Stop>
        ensures spread { IfOk result (λ _. HasSpread self.old.ledger (deque_len self.old.ready.handles) self.new.ledger (deque_len self.new.ready.handles)) }
        ensures stops { IfErr result (λ stop. Stops P.listing self.new.ledger stop) }
    {
        self.spreads = true;
        for _token in 0..self.ready_count() {
            let is_full = self.ledger.side_count() >= MOST_SIDES;
            if is_full || self.is_oldest_settled(inputs.graph, moves) {
                self.ready.pass_oldest();
            } else {
                self.turn(inputs)?;
            }
        }
        self.spreads = false;
        Ok(())
    }

    // Whether the token that has waited longest is to stay where it is: it stands at a call of a definition, and over `moves` moves have led to it.
    // False if the queue is empty or the token is gone.
    fn is_oldest_settled(&self, graph: &Graph, moves: u32) -> bool {
        let Some(handle) = self.ready.oldest() else {
            return false;
        };
        match self.token_of(handle) {
            Some(token) => handle.moves > moves && is_at_call(graph, &token),
            None => false,
        }
    }

    /// Lists calls of definitions at which runnable tokens stand and whose arguments have values: those that race other members of their side if
    /// `races`, else those that don't, at most `MOST_JOBS`. The order of the list is fixed, and its first calls are samples of the whole queue.
    /// Behind the samples racing calls come in the order in which one worker would run them, since the first value makes the others vain; of calls
    /// that don't race, those whose tokens came one after another are put apart. The error is refused memory.
    pub fn jobs(
        &self,
        inputs: &Inputs<'_, P>,
        races: bool,
    ) -> Result<Vec<SubRunJob<P>>, AllocError> {
        let mut jobs = Vec::new(self.alloc);
        let len = self.ready.len();
        if races {
            // The samples stand first: every `step`-th token of the queue, `STRIDE` of them at most.
            let step = len.div_ceil(STRIDE).max(1);
            for at in (0..len).step_by(step) {
                self.add_job(inputs, at, races, &mut jobs)?;
            }
            for at in (0..len).rev() {
                if at % step != 0 {
                    self.add_job(inputs, at, races, &mut jobs)?;
                }
            }
        } else {
            for first in ORDER {
                for at in (first..len).step_by(STRIDE) {
                    self.add_job(inputs, at, races, &mut jobs)?;
                }
            }
        }
        Ok(jobs)
    }

    // Adds the call at which the token in this place of the queue stands (place 0 has waited longest), if it is of the kind that is asked for and the
    // list has room. The error is refused memory.
    fn add_job(
        &self,
        inputs: &Inputs<'_, P>,
        at: usize,
        races: bool,
        jobs: &mut Vec<SubRunJob<P>>,
    ) -> Result<(), AllocError> {
        if jobs.len() >= MOST_JOBS {
            return Ok(());
        }
        // None doesn't come: the callers' places are in the queue.
        let Some(handle) = self.ready.get(at) else {
            return Ok(());
        };
        // None: the token is gone, or stands at no call of the wanted kind.
        if let Some(task) = self.task_of(inputs, handle, races) {
            jobs.push(SubRunJob::new(handle, task, races))?;
        }
        Ok(())
    }

    // The call of a definition at which the token of a handle stands. None if the token is gone, stands elsewhere, or at a call of which an argument
    // has no value. None also if the call races others and `races` is false, or the other way round.
    fn task_of(&self, inputs: &Inputs<'_, P>, handle: Handle, races: bool) -> Option<SubRunTask> {
        let token = self.token_of(handle)?;
        let task = self.ledger.task(inputs, &token)?;
        // What an outermost call publishes the run publishes, so that its value ends no other call. Any other call races the members of its side.
        let is_racing = !task.is_outermost && !self.is_alone(&token);
        if is_racing == races { Some(task) } else { None }
    }

    // Whether nobody else is in the token's side, or the token is in none. The group of a side counts its members; group 0 is the program's own.
    fn is_alone(&self, token: &Token) -> bool {
        let group = self.ledger.group_of_token(token);
        group == 0 || self.ledger.member_count(group) == 1
    }

    /// Merges the result of a call's sub-run (`part`) into the run, and says whether it did. If not, nothing changes: the token doesn't stand at that
    /// call any more, the limit has no room for the result's entries, or memory was refused. A token that still stands there makes its call itself.
    /// If the result has a value the token on it is runnable then. If it has none, and the token's side has no other member, the side halts. The
    /// error is why the run stops.
    pub fn append_sub_run(
        &mut self,
        inputs: &Inputs<'_, P>,
        handle: Handle,
        part: &SubRun<P>,
    ) -> Result<bool, Stop>
        ensures taken { IfOk result (λ taken. taken ≡ true → Advances self.old.ledger self.new.ledger) }
        ensures refused { IfOk result (λ taken. taken ≡ false → (self.new.ledger ≡ self.old.ledger) × (self.new.ready ≡ self.old.ready)) }
        ensures spread { IfOk result (λ _. HasSpread self.old.ledger (deque_len self.old.ready.handles) self.new.ledger (deque_len self.new.ready.handles)) }
        ensures stops { IfErr result (λ stop. Stops P.listing self.new.ledger stop) }
    {
        // None: the token is gone; or, below, it doesn't stand at a call whose arguments have values.
        let Some(token) = self.token_of(handle) else {
            return Ok(false);
        };
        let Some(task) = self.ledger.task(inputs, &token) else {
            return Ok(false);
        };
        // The number of the token's group, noted before the token may be gone.
        let group = self.ledger.group_of_token(&token);
        // The result is that of another call, the limit has no room for its entries, or memory was refused.
        if !part.is_of(&task)
            || self
                .ledger
                .append_sub_run(handle.slot, token, part)
                .is_err()
        {
            return Ok(false);
        }
        // If memory is refused the token isn't in the run queue, but the ledger has it, and `recover` finds it there.
        let _joined = self.join_after(handle.slot, handle.moves);
        // The group of the call's token ends if nothing is left in it.
        self.close(group)?;
        Ok(true)
    }
}
