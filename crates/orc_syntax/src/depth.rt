//! How deep a place of a definition or main expression is: the limits on brackets, `val`s and operators (S5).
//!
//! They bound how deep the written-out terms nest. They are counted token by token beside the reader, which itself knows no limit.

ghost use Rattle.std.specs.Prelude.{◌≡◌, if◌then◌else◌, nat_lt};
ghost use Rattle.orc_lex.specs.declared.token.Joint.{Joint};
ghost use Rattle.orc_lex.specs.declared.token.Side.{Side};
ghost use Rattle.orc_lex.specs.Tokens.{sort};
ghost use Rattle.orc_lex.specs.Tokens as tokens;
ghost use Rattle.orc_syntax.specs.Deep.{none, counted};
ghost use Rattle.orc_syntax.specs.View.{count_of, Counts};

use crate::reader::StepError;
use orc_lex::token::Kind;
use orc_rules::limits::{MOST_BRACKETS, MOST_OPERATORS};
use std::alloc::Global;

// In contracts `count_of` is what a `Depth` has counted, and `none` that nothing was. `Counts result old new token` says that the token was counted,
// or is one too many, or memory was refused.

/// The brackets that are open, the `val`s and the operators that stand before a place of a definition or main expression.
#[derive(Drop)]
pub struct Depth {
    /// Open brackets and `val`s, without what stands in brackets that are closed. At most `MOST_BRACKETS`.
    levels: usize,
    /// The levels before each open bracket, the innermost last.
    outside: Vec<usize>,
    /// The operators, those in closed brackets too. At most `MOST_OPERATORS`.
    operators: usize,
    /// The first sign of an operator with a variable has come, and not yet its second.
    half: bool,
}

impl Depth {
    /// The counts at the start of a definition or main expression: nothing is open, and nothing was counted.
    pub fn new(alloc: Global) -> Depth
        ensures { count_of result ≡ none }
    {
        Depth {
            levels: 0,
            outside: Vec::new(alloc),
            operators: 0,
            half: false,
        }
    }

    // Sets all counts back, for the start of a definition or main expression.
    fn clear(&mut self)
        ensures { count_of self.new ≡ none }
    {
        self.levels = 0;
        self.outside.clear();
        self.operators = 0;
        self.half = false;
    }

    /// Begins to count again where a token has made a definition whole: `defined` is how many definitions were whole before that token, and
    /// `defined_now` how many are after it.
    #[inline(always)]
    pub fn begin_part(&mut self, defined: usize, defined_now: usize)
        ensures { count_of self.new ≡ (if nat_lt defined defined_now then none else count_of self.old) }
    {
        // The token has made a definition whole, so it belongs to the next definition or the main expression.
        if defined < defined_now {
            self.clear();
        }
    }

    // Counts an operator of one token, which has no variable. The error is Deep: the operator is one more than `MOST_OPERATORS`.
    #[inline(always)]
    fn operate(&mut self) -> Result<(), StepError>
        ensures { (joint : Joint) → Counts result (count_of self.old) (count_of self.new) (tokens.Join joint) }
    {
        if self.operators >= MOST_OPERATORS {
            return Err(StepError::Deep);
        }
        self.operators += 1;
        Ok(())
    }

    // Counts the first or the second sign of an operator with a variable, as of `>x>`. The first one counts for both. The error is Deep: the operator
    // is one too many.
    #[inline(always)]
    fn sign(&mut self) -> Result<(), StepError>
        ensures { (side : Side) → Counts result (count_of self.old) (count_of self.new) (tokens.Arrow side) }
    {
        // This is the second sign: the operator was counted at its first one.
        if self.half {
            self.half = false;
            return Ok(());
        }
        if self.operators >= MOST_OPERATORS {
            return Err(StepError::Deep);
        }
        self.operators += 1;
        self.half = true;
        Ok(())
    }

    // Counts an opening bracket. The errors: Deep where brackets and `val`s that are open would be over `MOST_BRACKETS`, and Memory.
    #[inline(always)]
    #[tactic(auto, using(crate::proofs::Views::counts))]
    fn open(&mut self) -> Result<(), StepError>
        ensures { Counts result (count_of self.old) (count_of self.new) tokens.Open }
    {
        if self.levels >= MOST_BRACKETS {
            return Err(StepError::Deep);
        }
        // The bracket's `)` sets the levels back to those before it.
        self.outside.push(self.levels)?;
        self.levels += 1;
        Ok(())
    }

    // Counts a `val`. What follows the `val` nests in it, up to the end of the enclosing brackets. The error is Deep: brackets and `val`s that are
    // open would be over `MOST_BRACKETS`.
    #[inline(always)]
    fn bind(&mut self) -> Result<(), StepError>
        ensures { Counts result (count_of self.old) (count_of self.new) tokens.Val }
    {
        if self.levels >= MOST_BRACKETS {
            return Err(StepError::Deep);
        }
        self.levels += 1;
        Ok(())
    }

    // Counts a closing bracket: its bracket and the `val`s inside are open no more.
    #[inline(always)]
    #[tactic(auto, using(crate::proofs::Views::counts))]
    fn close(&mut self)
        ensures { count_of self.new ≡ counted (count_of self.old) tokens.Close }
    {
        match self.outside.pop() {
            // `levels` is how many brackets and `val`s were open before this bracket.
            Some(levels) => self.levels = levels,
            // Not reached: the reader refuses a closing bracket that closes nothing.
            None => self.levels = 0,
        }
    }

    /// Counts one more token, which the reader has taken. `Deep` where it is a bracket, `val` or operator too many; `Memory` where memory was
    /// refused.
    #[inline(always)]
    pub fn count(&mut self, kind: Kind) -> Result<(), StepError>
        ensures { Counts result (count_of self.old) (count_of self.new) (sort kind.entry) }
    {
        match kind {
            Kind::Open => self.open(),
            Kind::Close => {
                self.close();
                Ok(())
            }
            Kind::Val => self.bind(),
            Kind::Joint(_) => self.operate(),
            Kind::Arrow(_) => self.sign(),
            // A name, a literal, a comma, a `=` or a `def` nests nothing.
            _ => Ok(()),
        }
    }
}
