//! A journal that is replayed on a program's sketch: where its tokens, its calls and its cells stand in the source.
//!
//! A spot is a numbered place of the program's tree, and a program's *sketch* has its spots. A step leads from the running term into one of its
//! sides; step 0 is the whole term. A *trail* says at which spot and in which step each token stands. All of these are of `orc_source_map`. A look-up
//! of what isn't there, which the journal of a run rules out, gives a default, often 0. The *marked term* is the term that is running, with its
//! tokens, each by its number, its *mark*. A cell is what an opened pruning puts for its variable: it gets a value, is lost, or neither yet. A scope
//! says what names mean.

use crate::ended::Ended;
use orc_checker::Marked;
use orc_env::{Bound, meaning};
use orc_rules::entry::Entry;
use orc_rules::param::{Operand, Param};
use orc_rules::program::{Program, TermNode};
use orc_source_map::{Purpose, Shape, Sketch, Token, Trail, Way};
use orc_term::arena::{Kind, Tip};
use std::alloc::{AllocError, Global};
use std::collections::HashMap;

/// A call that was made, at this spot in this step.
#[derive(Clone, Copy)]
pub(crate) struct Made {
    pub spot: usize,
    pub step: usize,
    /// The place of its entry in the journal, from 0.
    pub entry: usize,
    /// Whether it is pending: it has neither returned nor been cancelled.
    pub is_out: bool,
    /// Whether it has returned with halt.
    pub has_halted: bool,
}

/// The tokens that ended at a spot without a publication (`void`), since a value that they needed was lost.
#[derive(Clone, Copy)]
pub(crate) struct Loss {
    pub spot: usize,
    /// The cell that would have given the first of them its value. None if that cell was lost before a definition was called with it.
    pub cell: Option<u64>,
    /// How many such tokens there were.
    pub count: u64,
}

/// A cell, whose pruning stands at a spot.
#[derive(Clone, Copy)]
pub(crate) struct Cell<'a> {
    /// What the cell's value is for.
    pub purpose: Purpose<'a>,
    pub spot: usize,
}

/// A run at the end of its journal.
pub(crate) struct Replay<'a> {
    /// The checker's marked term, which knows what can come next.
    pub marked: Marked,
    /// Where the tokens stand on the sketch.
    pub trail: Trail,
    /// The calls, call 1 first.
    pub calls: Vec<Made>,
    /// The cells, cell 1 first.
    pub cells: Vec<Cell<'a>>,
    /// Where values were lost, one for each spot, in the order of the first losses.
    pub losses: Vec<Loss>,
    // The place in the list of each spot's loss.
    loss_places: HashMap<usize, usize>,
    /// How often a definition was called.
    pub definitions: u64,
}

// Written out, so that a caller's proof sees one call and not the drop of each field.
impl Drop for Replay<'_> {
    fn drop(self) {
        let Replay {
            marked: _,
            trail: _,
            calls: _,
            cells: _,
            losses: _,
            loss_places: _,
            definitions: _,
        } = self;
    }
}

/// What is answered for a mark that has no token.
const NO_TOKEN: Token = Token {
    spot: None,
    call: None,
    step: 0,
};

impl<'a> Replay<'a> {
    /// Follows a run by its journal to its end. The error is refused memory, or an entry that the rules refuse, which no run's journal has.
    pub(crate) fn new(
        alloc: Global,
        ended: &Ended,
        sketch: &Sketch<'a>,
    ) -> Result<Replay<'a>, AllocError> {
        let mut replay = Replay {
            // True: the journal has cancels, since an engine records those of a bind.
            marked: Marked::new(alloc, ended.program, true)?,
            trail: Trail::new(alloc, sketch)?,
            calls: Vec::new(alloc),
            cells: Vec::new(alloc),
            losses: Vec::new(alloc),
            loss_places: HashMap::new(alloc),
            definitions: 0,
        };
        replay.read(ended, sketch)?;
        Ok(replay)
    }

    // Follows all entries. What an entry says of its token is noted before the trail takes the token away. The errors are those of `new`.
    fn read(&mut self, ended: &Ended, sketch: &Sketch<'a>) -> Result<(), AllocError> {
        for at in 0..ended.journal.len() {
            // `at` is a place of the journal, so the entry is there.
            let Some(entry) = ended.journal.get(at) else {
                return Ok(());
            };
            // Before the step, which takes the token from the term: the term says which value is lost.
            if let Entry::Void(s) = entry {
                self.add_loss(ended.program, s)?;
            }
            // The checker's term takes the entry. The rules allow each entry of a run's journal.
            if self
                .marked
                .step(ended.program, ended.answers, &entry)
                .is_err()
            {
                return Err(AllocError);
            }
            self.note(sketch, &entry, at)?;
            self.trail.follow(sketch, &entry)?;
        }
        Ok(())
    }

    // Notes what an entry begins or ends besides tokens: a call, a cell, a call of a definition. Other entries begin and end none. In the entries `s`
    // is the mark of a token and `k` the number of a call; `at` is the entry's place in the journal, from 0. The error is refused memory.
    fn note(&mut self, sketch: &Sketch<'a>, entry: &Entry, at: usize) -> Result<(), AllocError> {
        match entry {
            Entry::Call(s, _, _, _) => return self.add_call(*s, at),
            Entry::Return(k, _, _) | Entry::Cancel(k) => self.end_call(*k, false),
            Entry::ReturnHalt(k) => self.end_call(*k, true),
            Entry::Open(s, _, _, _) => return self.add_cell(sketch, *s),
            Entry::Def(_, _) => self.definitions = self.definitions.saturating_add(1),
            _ => {}
        }
        Ok(())
    }

    // Adds a call, made by the token of this mark in the entry at this place of the journal. The error is refused memory.
    fn add_call(&mut self, mark: u64, entry: usize) -> Result<(), AllocError> {
        let token = self.token(mark);
        self.calls.push(Made {
            // A token that makes a call is at a spot: no answer of a call is a call.
            spot: token.spot.unwrap_or(0),
            step: token.step,
            entry,
            is_out: true,
            has_halted: false,
        })?;
        Ok(())
    }

    // A call, by its number from 1, is pending no longer. `has_halted` says that it has returned with halt.
    fn end_call(&mut self, call: u64, has_halted: bool) {
        if let Some(made) = self.calls.get_mut((call as usize).saturating_sub(1)) {
            made.is_out = false;
            made.has_halted = has_halted;
        }
    }

    // Counts a token, by its mark, that ends since a value that it needs was lost, among those of its spot. The error is refused memory.
    fn add_loss(&mut self, program: &Program, token: u64) -> Result<(), AllocError> {
        // A token that bears a call's answer needs no value, so this one is at a spot.
        let spot = self.token(token).spot.unwrap_or(0);
        let place = self.loss_places.get(&spot).copied();
        match place {
            Some(place) => {
                if let Some(loss) = self.losses.get_mut(place) {
                    loss.count = loss.count.saturating_add(1);
                }
            }
            None => {
                let cell = self.lost_cell(program, token);
                self.loss_places.insert(spot, self.losses.len())?;
                self.losses.push(Loss {
                    spot,
                    cell,
                    count: 1,
                })?;
            }
        }
        Ok(())
    }

    // The cell of the first lost value that a token, by its mark, needs. None where `cell_of` finds none, or the token stands on something else than
    // a variable or a call of a site.
    fn lost_cell(&self, program: &Program, token: u64) -> Option<u64> {
        // The program's node under the token, and the scope that says what names mean there.
        let (number, scope) = self.node_of(token)?;
        match program.node(number) {
            TermNode::Operand(operand) => self.cell_of(operand, scope),
            TermNode::Site(_, list) => {
                for operand in program.operands(list) {
                    // An argument whose value was lost is void.
                    if matches!(self.marked.param(*operand, scope), Param::Void) {
                        return self.cell_of(*operand, scope);
                    }
                }
                None
            }
            _ => None,
        }
    }

    // The cell that was put for an operand, whatever has become of it. None for a value, and where the value was lost already when it was put.
    // `scope` is the number of the scope that says what the operand's name means.
    fn cell_of(&self, operand: Operand, scope: usize) -> Option<u64> {
        // With an empty table of cells, `meaning` gives the cell itself, even if it has been bound or lost.
        match meaning(self.marked.scopes(), &[], operand, scope) {
            Some(Bound::Cell(cell)) => Some(cell),
            _ => None,
        }
    }

    /// The number of the program's node on which a token, by its mark, stands, and that of its scope, which says what the names mean. None where it
    /// stands on an answer, or there is no such token. It looks through the whole term.
    pub(crate) fn node_of(&self, token: u64) -> Option<(usize, usize)> {
        for slot in self.marked.nodes() {
            match slot.node().kind {
                Kind::Leaf(Tip::Token(mark, number, scope)) if mark == token => {
                    return Some((number as usize, scope as usize));
                }
                _ => {}
            }
        }
        None
    }

    // Adds the cell of a pruning that the token of this mark opens. The entry is an `open`, so a pruning stands under the token. The error is refused
    // memory.
    fn add_cell(&mut self, sketch: &Sketch<'a>, mark: u64) -> Result<(), AllocError> {
        let Shape::Prune(_, _, purpose) = self.trail.shape(sketch, mark) else {
            return Ok(());
        };
        let spot = self.token(mark).spot.unwrap_or(0);
        self.cells.push(Cell { purpose, spot })?;
        Ok(())
    }

    /// The token with this mark; one at no spot and in no step where there is none.
    pub(crate) fn token(&self, mark: u64) -> Token {
        self.trail.token(mark).unwrap_or(NO_TOKEN)
    }

    /// The spot of the token with this mark; that of the whole program where it stands on a call's answer.
    pub(crate) fn spot(&self, mark: u64, sketch: &Sketch) -> usize {
        match self.token(mark).spot {
            Some(spot) => spot,
            None => sketch.main(),
        }
    }

    /// For each step, from 0 on, whether it is inside the right side of a cell's pruning, from which the cell's value could come. The error is
    /// refused memory.
    pub(crate) fn inside(&self, alloc: Global, cell: u64) -> Result<Vec<bool>, AllocError> {
        // A step comes behind the one round it, so one pass is enough.
        let mut inside: Vec<bool> = Vec::new(alloc);
        // Step 0, the whole term.
        inside.push(false)?;
        for step in self.trail.steps() {
            let is_inside = match step.way {
                Way::PruneRight(other) if other == cell => true,
                // Else a step is inside the side if the step round it (`outer`) is.
                _ => inside.get(step.outer).copied().unwrap_or(false),
            };
            inside.push(is_inside)?;
        }
        Ok(inside)
    }

    /// The most left sides of `>x>` round one of the tokens that there are, counted outwards up to the next right side of a pruning, as the limit
    /// `MOST_FRAMES` counts them. It looks at each mark of the run. The error is refused memory.
    pub(crate) fn frames(&self, alloc: Global, program: &Program) -> Result<u64, AllocError> {
        let frames = self.step_frames(alloc)?;
        let mut most: u64 = 0;
        for mark in 1..self.marked.new_mark() {
            if let Some(token) = self.trail.token(mark) {
                // A token that was dropped with a side isn't in the term any more, and `next` gives None for it.
                if self.marked.next(program, mark).is_some() {
                    most = most.max(frames.get(token.step).copied().unwrap_or(0));
                }
            }
        }
        Ok(most)
    }

    // For each step, from 0 on, how many left sides of `>x>` enclose a token in it, counted as `frames` says. The error is refused memory.
    fn step_frames(&self, alloc: Global) -> Result<Vec<u64>, AllocError> {
        // A step comes behind the one round it, so one pass is enough.
        let mut frames: Vec<u64> = Vec::new(alloc);
        // Step 0, the whole term.
        frames.push(0)?;
        for step in self.trail.steps() {
            let outer = frames.get(step.outer).copied().unwrap_or(0);
            let here = match step.way {
                // The count begins anew in the right side of a pruning.
                Way::PruneRight(_) => 0,
                Way::SeqLeft(_) => outer.saturating_add(1),
                Way::OtherwiseLeft(_) | Way::Then(_) => outer,
            };
            frames.push(here)?;
        }
        Ok(frames)
    }
}
