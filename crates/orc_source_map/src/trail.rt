//! Where the tokens of a run stand on its program's sketch.
//!
//! A token has a spot, and a step: which sides enclose it in the running term. One spot can have many steps, since a definition's body and the right
//! side of a `>x>` run again and again. A `|`, the left side of a pruning and a call of a definition make no step: they change nothing about what
//! takes a publication. Here `mark` is the number by which a journal names a token or an otherwise; `first` and `second` are the marks of the tokens
//! that an entry brings; in entries `s`, `a` and `b` are marks, `k` is the number of a call and `c` that of a cell. A `spot` is a number of the
//! sketch.
//!
//! The entries are those of a run by the rules, so each token stands on what its entry needs: where a function finds another shape, no such token or
//! no such call, it only spares a proof and adds nothing. The error of each function is refused memory.

use crate::sketch::{Shape, Sketch};
use orc_rules::entry::Entry;
use std::alloc::{AllocError, Global};
use std::collections::HashMap;

/// Into which side a step leads.
#[derive(Clone, Copy)]
pub enum Way {
    /// The left side of a `>x>`, with the spot of its right side.
    SeqLeft(usize),
    /// The right side of the pruning of this cell.
    PruneRight(u64),
    /// The left side of the otherwise with this mark.
    OtherwiseLeft(u64),
    /// The right side of the otherwise with this mark, which stands in its place.
    Then(u64),
}

/// A step from the running term into one of its sides: so a token's step says which sides enclose it. Steps are numbered from 1, as they come up; 0
/// is the whole term.
#[derive(Clone, Copy)]
pub struct Step {
    pub way: Way,
    /// The number of the step round it, which is less than its own.
    pub outer: usize,
    /// This step if it leads into a pruning or an otherwise, else the innermost enclosing step that does; 0 where none does.
    pub home: usize,
}

/// A token: its spot, or else the number of the call on whose answer it stands, which is at no spot; and the number of its step, 0 for none.
#[derive(Clone, Copy)]
pub struct Token {
    pub spot: Option<usize>,
    pub call: Option<u64>,
    pub step: usize,
}

// An otherwise whose left side was entered: the spot of its right side, and the number of the step round both.
#[derive(Clone, Copy)]
struct Entered {
    right: usize,
    outer: usize,
}

/// Where the tokens of a run stand: at which spot, the number of a part of the program. A bind drops tokens whose marks its entry doesn't name: these
/// are kept where they stood, so a token of the trail may be gone from the term.
pub struct Trail {
    // The tokens by their marks, the numbers by which a journal names them.
    tokens: HashMap<u64, Token>,
    // The otherwises whose right sides haven't begun, by their marks.
    others: HashMap<u64, Entered>,
    // The number of the step of each pending call, by the call's number.
    calls: HashMap<u64, usize>,
    // All steps into sides, step 1 first. None is taken out, so numbers stay what they are.
    steps: Vec<Step>,
}

// Written out, so that a caller's proof sees one call and not the drop of each field.
impl Drop for Trail {
    fn drop(self) {
        let Trail {
            tokens: _,
            others: _,
            calls: _,
            steps: _,
        } = self;
    }
}

impl Trail {
    /// The beginning of a run: token 1 at the main expression. The error is refused memory.
    pub fn new(alloc: Global, sketch: &Sketch) -> Result<Trail, AllocError> {
        let mut trail = Trail {
            tokens: HashMap::new(alloc),
            others: HashMap::new(alloc),
            calls: HashMap::new(alloc),
            steps: Vec::new(alloc),
        };
        trail.put(1, sketch.main(), 0)?;
        Ok(trail)
    }

    /// The token of a mark. None where there is none, or an entry has used it up.
    pub fn token(&self, mark: u64) -> Option<Token> {
        self.tokens.get(&mark).copied()
    }

    /// Whether a mark is that of an otherwise that was entered and whose right side hasn't begun. It may have been dropped with its side, or have
    /// published.
    pub fn is_entered(&self, mark: u64) -> bool {
        self.others.contains_key(&mark)
    }

    /// The step with this number, from 1. None for 0, which is the whole term, and where there is no such step.
    pub fn step(&self, number: usize) -> Option<Step> {
        self.steps.get(number.checked_sub(1)?).copied()
    }

    /// The steps, step 1 first.
    pub fn steps(&self) -> &[Step] {
        self.steps.as_slice()
    }

    /// What stands under the token of a mark; a leaf where there is none, or where the token stands on a call's answer.
    pub fn shape<'a>(&self, sketch: &Sketch<'a>, mark: u64) -> Shape<'a> {
        match self.token(mark) {
            Some(
                Token {
                    spot: Some(spot),
                    ..
                },
            ) => sketch.shape(spot),
            _ => Shape::Leaf,
        }
    }

    /// Follows the next entry of a run, which is to be one that the rules take. The error is refused memory; the trail is of no use then.
    pub fn follow(&mut self, sketch: &Sketch, entry: &Entry) -> Result<(), AllocError> {
        // In entries `s`, `a` and `b` are marks, `k` is the number of a call and `c` that of a cell.
        match entry {
            Entry::Fork(s, a, b) => self.fork(sketch, *s, *a, *b),
            Entry::Seq(s, a) => self.enter_left(sketch, *s, *a),
            Entry::Other(s, a) => self.enter_first(sketch, *s, *a),
            Entry::Open(s, c, a, b) => self.open(sketch, *s, *c, *a, *b),
            Entry::Def(s, a) => self.define(sketch, *s, *a),
            Entry::Send(s, a, _) => self.send(*s, *a),
            Entry::Call(s, k, _, _) => self.call(*s, *k),
            Entry::Return(k, a, _) => self.answer(*k, *a),
            // The call pends no more.
            Entry::ReturnHalt(k) | Entry::Cancel(k) => {
                let _step = self.calls.remove(k);
                Ok(())
            }
            Entry::Right(s, a) => self.resume(*s, *a),
            // The token goes, and none comes in its place.
            Entry::End(s) | Entry::Void(s) | Entry::Bind(s, _, _) | Entry::Publish(s, _) => {
                let _gone = self.tokens.remove(s);
                Ok(())
            }
            // Neither moves a token: in the side that a `lost` drops, there are at most tokens on a `stop`.
            Entry::Lost(_) | Entry::Tick(_) => Ok(()),
        }
    }

    // `fork`: the token `mark` becomes the tokens `first` and `second`, on the sides of its `|`. Both stay in its step, since a `|` makes none.
    fn fork(
        &mut self,
        sketch: &Sketch,
        mark: u64,
        first: u64,
        second: u64,
    ) -> Result<(), AllocError> {
        let shape = self.shape(sketch, mark);
        let step = self.take(mark);
        if let Shape::Par(left, right) = shape {
            self.put(first, left, step)?;
            self.put(second, right, step)?;
        }
        Ok(())
    }

    // `seq`: the token `mark` becomes the token `first`, on the left side of its `>x>`, in a new step, which says that this side encloses it.
    fn enter_left(&mut self, sketch: &Sketch, mark: u64, first: u64) -> Result<(), AllocError> {
        let shape = self.shape(sketch, mark);
        let step = self.take(mark);
        if let Shape::Seq(left, right) = shape {
            let inner = self.add_step(Way::SeqLeft(right), step)?;
            self.put(first, left, inner)?;
        }
        Ok(())
    }

    // `other`: the token `mark` becomes the token `first`, on the left side of an otherwise, in a new step, which says that this side encloses it.
    // The otherwise keeps `mark` as its own.
    fn enter_first(&mut self, sketch: &Sketch, mark: u64, first: u64) -> Result<(), AllocError> {
        let shape = self.shape(sketch, mark);
        let outer = self.take(mark);
        if let Shape::Other(left, right, _) = shape {
            self.others.insert(mark, Entered { right, outer })?;
            let inner = self.add_step(Way::OtherwiseLeft(mark), outer)?;
            self.put(first, left, inner)?;
        }
        Ok(())
    }

    // `open`: the token `mark` becomes the tokens `first` and `second`, on the left and the right side of a pruning. Only the right one is in a new
    // step: what it publishes goes to the cell, and the left side changes nothing about what takes a publication.
    fn open(
        &mut self,
        sketch: &Sketch,
        mark: u64,
        cell: u64,
        first: u64,
        second: u64,
    ) -> Result<(), AllocError> {
        let shape = self.shape(sketch, mark);
        let step = self.take(mark);
        if let Shape::Prune(left, right, _) = shape {
            let inner = self.add_step(Way::PruneRight(cell), step)?;
            self.put(first, left, step)?;
            self.put(second, right, inner)?;
        }
        Ok(())
    }

    // `def`: the token `mark`, at a call of a definition, becomes the token `first` on the definition's body, in the same step: no side is entered.
    fn define(&mut self, sketch: &Sketch, mark: u64, first: u64) -> Result<(), AllocError> {
        let shape = self.shape(sketch, mark);
        let step = self.take(mark);
        if let Shape::Call(Some(definition)) = shape {
            self.put(first, sketch.body(definition), step)?;
        }
        Ok(())
    }

    // `send`: a publication of the token `mark` goes to a `>x>`. The token `first` is on a copy of that one's right side, in the step round the
    // `>x>`.
    fn send(&mut self, mark: u64, first: u64) -> Result<(), AllocError> {
        let step = self.take(mark);
        if let Some((right, outer)) = self.taker(step) {
            self.put(first, right, outer)?;
        }
        Ok(())
    }

    // `call`: the token `mark` becomes the pending call with this number, which keeps the number of the token's step for its answer.
    fn call(&mut self, mark: u64, number: u64) -> Result<(), AllocError> {
        let step = self.take(mark);
        self.calls.insert(number, step)?;
        Ok(())
    }

    // `return` with a value: the token `first` stands on that value, in the call's step. A value is at no spot, so the token has the call's number.
    fn answer(&mut self, call: u64, first: u64) -> Result<(), AllocError> {
        if let Some(step) = self.calls.remove(&call) {
            let token = Token {
                spot: None,
                call: Some(call),
                step,
            };
            self.tokens.insert(first, token)?;
        }
        Ok(())
    }

    // `right`: the left side of the otherwise `mark` has halted, and the token `first` stands on the right one, in a new step that is inside the one
    // round the otherwise.
    fn resume(&mut self, mark: u64, first: u64) -> Result<(), AllocError> {
        if let Some(entered) = self.others.remove(&mark) {
            let inner = self.add_step(Way::Then(mark), entered.outer)?;
            self.put(first, entered.right, inner)?;
        }
        Ok(())
    }

    // What takes a publication from inside the step with the number `from`: the spot of the right side of the nearest `>x>` round it, and the number
    // of the step round that `>x>`. None where the right side of a pruning takes it, or nothing in the whole does.
    fn taker(&self, from: usize) -> Option<(usize, usize)> {
        let mut number = from;
        // Each turn goes one step outwards, so there are no more turns than steps.
        for _step in 0..self.steps.len() {
            // There is no step 0: nothing more is round it.
            let step = self.step(number)?;
            match step.way {
                Way::SeqLeft(right) => return Some((right, step.outer)),
                Way::PruneRight(_) => return None,
                Way::OtherwiseLeft(_) | Way::Then(_) => number = step.outer,
            }
        }
        None
    }

    // The token `mark` comes to stand at a spot, in the step with this number, which says what sides enclose it.
    fn put(&mut self, mark: u64, spot: usize, step: usize) -> Result<(), AllocError> {
        let token = Token {
            spot: Some(spot),
            call: None,
            step,
        };
        self.tokens.insert(mark, token)?;
        Ok(())
    }

    // Takes away the token of a mark, which an entry uses up, and gives the number of its step; 0 where there is no such token.
    fn take(&mut self, mark: u64) -> usize {
        match self.tokens.remove(&mark) {
            Some(token) => token.step,
            None => 0,
        }
    }

    // Adds a step that leads into a side from inside the step with the number `outer`, and gives the new step's number.
    fn add_step(&mut self, way: Way, outer: usize) -> Result<usize, AllocError> {
        let number = self.steps.len().saturating_add(1);
        let home = match way {
            // A `>x>` is no home: the step round it has one, or there is none (0).
            Way::SeqLeft(_) => self.step(outer).map_or(0, |step| step.home),
            // Into a pruning or an otherwise: `Step::home`.
            _ => number,
        };
        self.steps.push(Step { way, outer, home })?;
        Ok(number)
    }
}
