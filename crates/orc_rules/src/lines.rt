//! The lines of a site that a script answers, and an index that finds the first one that matches a call. A place is a line's number here, from 0.

ghost use Rattle.std.specs.Prelude.{◌≡◌, ◌≤◌, ◌<◌, ◌+◌, ◌++◌, ◌∷◌, [], List, Option, length, take, true, IfOk, OnOk, OnErr};
ghost use Rattle.orc_rules.specs.declared.limits.TheConstants.{MOST_ARGUMENTS};
ghost use Rattle.orc_rules.specs.declared.lines.TheConstants.{MOST_SHAPES};
ghost use Rattle.orc_rules.specs.declared.value.Value.{Value as Datum};
ghost use Rattle.orc_rules.specs.Sites.{matches, nth_answer, line_answer, last_of_line};
ghost use Rattle.orc_rules.specs.Lines.{line_of, lines_of, shape_of, filled, is_among, place_in, match_place, Keeps, Enters, Indexes};

use crate::builtin::{is_same, no_answer};
use crate::limits::MOST_ARGUMENTS;
use crate::value::{Found, Value};
use std::alloc::{AllocError, Global};
use std::collections::HashMap;
use std::hash::{BuildHasherDefault, FoldHasher};
use std::marker::Model;

/// A line of a script: of the calls that match the patterns, those with the same arguments get the answers in their order. A pattern is a value, or
/// None for `_`, which matches any.
#[derive(Drop)]
pub struct Line {
    /// One pattern for each argument.
    pub patterns: Vec<Option<Value>>,
    /// The answers to the first call of the site with the same arguments, the second and so on; after the last one it comes again and again.
    pub answers: Vec<Found>,
}

/// The lines of a site in their order. The shape of a line is at which places it has a value and at which a `_`. Which line answers a call is found
/// in a time that grows with their shapes and not with their number; where they have more than `MOST_SHAPES`, one by one.
pub struct Lines {
    // The lines by their places, from 0.
    lines: Vec<Line>,
    // Up to `FEW_LINES` lines it isn't kept up, and not used.
    index: Index,
}

// The places of lines by their patterns. Once the lines have more than `MOST_SHAPES` shapes it isn't kept up, and not used.
#[derive(Drop)]
struct Index {
    // The place of the first line that has these patterns.
    // `FoldHasher` is the hasher that a `HashMap` has by default.
    places: HashMap<Vec<Option<Value>>, usize, BuildHasherDefault<FoldHasher>>,
    // The lines' shapes, each once: true is a value.
    shapes: Vec<Vec<bool>>,
}

// The patterns of one line, stored in place: a look-up asks for no memory.
#[derive(Drop)]
struct Patterns {
    // From `len` on there is only filling.
    patterns: [Option<Value>; MOST_ARGUMENTS],
    // How many patterns there are.
    len: usize,
}

// Written out, so that a caller's proof sees one call and not the drop of each field. In the pattern `_` drops a field.
impl Drop for Lines {
    fn drop(self) {
        let Lines { lines: _, index: _ } = self;
    }
}

// Contracts see a list of lines, and nothing of the index.
impl Model for Lines {
    ghost use Rattle.std.specs.Prelude.{◌<◌, List, length};
    ghost use Rattle.orc_rules.specs.declared.lines.TheConstants.{FEW_LINES};
    ghost use Rattle.orc_rules.specs.Sites.{Line as Answered};
    ghost use Rattle.orc_rules.specs.Lines.{lines_of, Indexes};

    ghost Value = { List Answered };

    ghost view = { λ l. lines_of l.lines.items };

    ghost invariant = { λ l. FEW_LINES < length l.lines.items → Indexes (lines_of l.lines.items) l.index.places.entries l.index.shapes.items };
}

// Contracts see a list of patterns.
impl Model for Patterns {
    ghost use Rattle.std.specs.Prelude.{◌≤◌, List, Option, take};
    ghost use Rattle.orc_rules.specs.declared.limits.TheConstants.{MOST_ARGUMENTS};
    ghost use Rattle.orc_rules.specs.declared.value.Value.{Value as Datum};

    ghost Value = { List (Option Datum) };

    ghost view = { λ p. take p.len p.patterns };

    ghost invariant = { λ p. p.len ≤ MOST_ARGUMENTS };
}

// Up to so many lines are looked at one by one: that takes less time than to hash the values of a call. Most sites have one or two.
const FEW_LINES: usize = 8;

// A call is looked up once for each shape. If there are more shapes, the lines are looked at one by one instead.
const MOST_SHAPES: usize = 16;

// Whether there are as many patterns as arguments, and each matches its argument. It recurses once a pattern, so at most `MOST_ARGUMENTS` deep.
fn is_match(patterns: &[Option<Value>], args: &[Value]) -> bool
    ensures { result ≡ matches patterns.now args.now }
{
    match (patterns, args) {
        ([], []) => true,
        // None is a `_`, which matches any value.
        ([None, patterns @ ..], [_, args @ ..]) => is_match(patterns, args),
        ([Some(pattern), patterns @ ..], [arg, args @ ..]) => {
            is_same(*pattern, *arg) && is_match(patterns, args)
        }
        // One of the two has more than the other.
        _ => false,
    }
}

// The n-th of a line's answers, from 0; after the last one it is the last one again. A line without answers, which no script has, halts.
fn nth(answers: &[Found], n: u64) -> Found
    ensures { result ≡ nth_answer answers.now n }
{
    match answers {
        [] => no_answer(),
        [.., last] => {
            if n < answers.len() as u64 {
                answers[n as usize]
            } else {
                *last
            }
        }
    }
}

// The place, from 0, of the first line that matches these arguments, looking at one after another. Without such a line, how many lines there are.
fn first_match(lines: &[Line], args: &[Value]) -> usize
    ensures { result ≡ match_place (lines_of lines.now) args.now }
{
    for place in 0..lines.len() {
        if is_match(&lines[place].patterns, args) {
            return place;
        }
    }
    lines.len()
}

// The shape of these patterns: true for a value, false for a `_`. The error is refused memory.
fn shape(alloc: Global, patterns: &[Option<Value>]) -> Result<Vec<bool>, AllocError>
    ensures { IfOk result (λ shape. shape.items ≡ shape_of patterns.now) }
{
    let mut shape = Vec::new(alloc);
    for pattern in patterns {
        shape.push(pattern.is_some())?;
    }
    Ok(shape)
}

// Adds a shape to these, unless it is among them; those that were there stay. The error is refused memory, and then nothing changes.
fn know(shapes: &mut Vec<Vec<bool>>, shape: Vec<bool>) -> Result<(), AllocError>
    ensures known { OnOk result (is_among shape.items shapes.new.items ≡ true) }
    ensures kept { Keeps shapes.old.items shapes.new.items }
{
    if !shapes.contains(&shape) {
        shapes.push(shape)?;
    }
    Ok(())
}

impl Patterns {
    // No patterns.
    fn new() -> Patterns
        ensures { result ≡ [] }
    {
        Patterns {
            patterns: [None; MOST_ARGUMENTS],
            len: 0,
        }
    }

    // Adds a pattern at the end. There has to be room for it: fewer than `MOST_ARGUMENTS` so far.
    fn push(&mut self, pattern: Option<Value>)
        requires { length self.old < MOST_ARGUMENTS }
        ensures { self.new ≡ self.old ++ pattern ∷ [] }
    {
        self.patterns[self.len] = pattern;
        self.len += 1;
    }

    // The patterns in their order, without the filling.
    fn as_slice(&self) -> &[Option<Value>]
        ensures { result.now ≡ self.now }
    {
        &self.patterns[..self.len]
    }

    // Adds the patterns of this shape that match these arguments: an argument's value where the shape has one (true), else `_`. Each line of the
    // shape that matches a call of these arguments has these patterns. There has to be room for as many as there are arguments.
    // The attribute names a lemma that the prover needs.
    #[tactic(auto, using(crate::proofs::Places::none_filled))]
    fn fill(&mut self, shape: &[bool], args: &[Value])
        requires { length self.old + length args.now ≤ MOST_ARGUMENTS }
        ensures { self.new ≡ self.old ++ filled shape.now args.now }
    {
        // It ends with the shorter of the two; `place` hands in two of one length.
        if let ([is_value, shape @ ..], [arg, args @ ..]) = (shape, args) {
            self.push(if *is_value { Some(*arg) } else { None });
            self.fill(shape, args);
        }
    }
}

impl Index {
    // The index of no lines.
    fn new(alloc: Global) -> Index
        ensures { Indexes [] result.places.entries result.shapes.items }
    {
        Index {
            places: HashMap::new(alloc),
            shapes: Vec::new(alloc),
        }
    }

    // The index of these lines. The error is refused memory.
    fn of(alloc: Global, lines: &[Line]) -> Result<Index, AllocError>
        ensures { IfOk result (λ index. Indexes (lines_of lines.now) index.places.entries index.shapes.items) }
    {
        let mut index = Index::new(alloc);
        for place in 0..lines.len() {
            index.enter(alloc, &lines[place].patterns, place)?;
        }
        Ok(index)
    }

    // Enters the line at `place`, which is behind all lines entered so far and has these patterns. If an earlier line has the same ones, this line
    // never answers, and its place isn't kept. The error is refused memory; then the shape may have been added, which does no harm: a look-up by it
    // finds nothing.
    fn enter(
        &mut self,
        alloc: Global,
        patterns: &[Option<Value>],
        place: usize,
    ) -> Result<(), AllocError>
        ensures entered { OnOk result (Enters patterns.now place self.old.places.entries self.old.shapes.items self.new.places.entries self.new.shapes.items) }
        ensures refused { OnErr result ((self.new.places.entries ≡ self.old.places.entries) × Keeps self.old.shapes.items self.new.shapes.items) }
    {
        // There are too many shapes already: nobody uses the index.
        if MOST_SHAPES < self.shapes.len() {
            return Ok(());
        }
        let shape = shape(alloc, patterns)?;
        know(&mut self.shapes, shape)?;
        if !self.places.contains_key(patterns) {
            self.places
                .insert(Vec::from_slice(alloc, patterns)?, place)?;
        }
        Ok(())
    }

    // The place, from 0, of the first line of this shape that matches these arguments; None if there is none. There may be `MOST_ARGUMENTS` arguments
    // at most, as many as `Patterns` can hold.
    fn place(&self, shape: &[bool], args: &[Value]) -> Option<usize>
        requires { length args.now ≤ MOST_ARGUMENTS }
        ensures { result ≡ place_in self.now.places.entries shape.now args.now }
    {
        // A line of this shape has another number of patterns than the call has arguments.
        if shape.len() != args.len() {
            return None;
        }
        // The patterns of a line of this shape that matches.
        let mut patterns = Patterns::new();
        patterns.fill(shape, args);
        self.places.get(patterns.as_slice()).copied()
    }

    // The place, from 0, of the first of these lines that matches the arguments. Without such a line, how many lines there are. The clauses ask that
    // this is the index of these lines, that it is kept up (they have `MOST_SHAPES` shapes at most), and that there are no more arguments than
    // `Patterns` can hold.
    fn first(&self, lines: &[Line], args: &[Value]) -> usize
        requires args { length args.now ≤ MOST_ARGUMENTS }
        requires shapes { length self.now.shapes.items ≤ MOST_SHAPES }
        requires lines { Indexes (lines_of lines.now) self.now.places.entries self.now.shapes.items }
        ensures { result ≡ match_place (lines_of lines.now) args.now }
    {
        let mut first = lines.len();
        for shape in &self.shapes {
            if let Some(place) = self.place(shape, args) {
                // The shapes are in no order: of the lines that match, the earliest answers.
                first = first.min(place);
            }
        }
        first
    }
}

impl Lines {
    /// No lines.
    pub fn new(alloc: Global) -> Lines
        ensures { result ≡ [] }
    {
        Lines {
            lines: Vec::new(alloc),
            index: Index::new(alloc),
        }
    }

    /// Adds a line behind the others. The error is refused memory, and then nothing changes.
    pub fn push(&mut self, alloc: Global, line: Line) -> Result<(), AllocError>
        ensures added { OnOk result (self.new ≡ self.old ++ line_of line ∷ []) }
        ensures refused { OnErr result (self.new ≡ self.old) }
    {
        // With this line there are `FEW_LINES` at most, for which the index isn't used.
        if self.lines.len() < FEW_LINES {
            self.lines.push(line)?;
            return Ok(());
        }
        // With this line there are more than `FEW_LINES`, so the index is needed from now on: it gets the lines so far first.
        if self.lines.len() == FEW_LINES {
            self.index = Index::of(alloc, &self.lines)?;
        }
        // Room first: behind `enter` nothing can be refused.
        self.lines.try_reserve(1)?;
        self.index.enter(alloc, &line.patterns, self.lines.len())?;
        let pushed = self.lines.push(line);
        // For the prover: with the room that was reserved the push can't fail.
        prove!(pushed.is_ok());
        Ok(())
    }

    // The place of the first line that matches these arguments. Without such a line, how many there are. The lines are looked at one by one where
    // they are few, where the index isn't kept up, and where there are more arguments than `Patterns` can hold.
    fn first(&self, args: &[Value]) -> usize
        ensures { result ≡ match_place self.now args.now }
    {
        let few = self.lines.len() <= FEW_LINES;
        if few || MOST_SHAPES < self.index.shapes.len() || MOST_ARGUMENTS < args.len() {
            first_match(&self.lines, args)
        } else {
            self.index.first(&self.lines, args)
        }
    }

    /// The nth answer, from 0, of the first line that matches these arguments; after its last answer that one again. Halt at once if none matches.
    pub fn answer(&self, args: &[Value], n: u64) -> Found
        ensures { result ≡ line_answer self.now args.now n }
    {
        match self.lines.get(self.first(args)) {
            Some(line) => nth(&line.answers, n),
            // No line matches: the place is behind the last.
            None => no_answer(),
        }
    }

    /// The number, from 0, of the last answer of the first line that matches these arguments; 0 if none matches.
    pub fn last_answer(&self, args: &[Value]) -> u64
        ensures { result ≡ last_of_line self.now args.now }
    {
        match self.lines.get(self.first(args)) {
            // A line without answers, which no script has, gives 0 too.
            Some(line) => (line.answers.len() as u64).saturating_sub(1),
            // No line matches: the place is behind the last.
            None => 0,
        }
    }
}
