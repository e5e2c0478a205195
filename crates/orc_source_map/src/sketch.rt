//! A program's tree as numbered spots, in which each expression argument is a pruning round its call.
//!
//! A spot is the number, from 0, of a part of the program: of a node of its tree, or of the pruning that an argument is written out as. The parser
//! lists the nodes of an expression with each operator behind its parts, so that a stack of pending parts is all that is needed to read them. In all
//! functions that have one, the error is refused memory.

use orc_lex::token::{Plain, Span};
use orc_syntax::{Ast, Expr, Name, Node, Operator, Part};
use std::alloc::{AllocError, Global};
use std::collections::HashMap;

/// What the value of a pruning's right side is for.
#[derive(Clone, Copy)]
pub enum Purpose<'a> {
    /// The variable of this name.
    Variable(Name<'a>),
    /// This argument, counted from 1, of a call of this name.
    Argument(usize, Name<'a>),
    /// Nothing: the pruning has no name.
    Nothing,
}

/// What stands at a spot, the number of a part of the program, with the spots of its parts.
#[derive(Clone, Copy)]
pub enum Shape<'a> {
    /// `stop`, a value or a variable. It has no parts.
    Leaf,
    /// A call, with the place, from 0, of the definition of its name where there is one. None is a site.
    Call(Option<usize>),
    /// The spots of the left and the right side of a `|`.
    Par(usize, usize),
    /// The left and the right side of a `>x>`.
    Seq(usize, usize),
    /// The left and the right side of a `<x<`, a `val` or an argument, and what the right side's value is for.
    Prune(usize, usize, Purpose<'a>),
    /// The left and the right side of a `;`, and the place of the left one in the source.
    Other(usize, usize, Span),
}

// A part that was read, and that the operator, the call or the `val` which it belongs to hasn't taken yet.
#[derive(Clone, Copy)]
struct Pending {
    spot: usize,
    span: Span,
    // Whether it is a value or a variable: as an argument of a call it needs no pruning. False for `stop`.
    is_simple: bool,
}

/// The place in the source, its start and its end, of a spot that there isn't: empty.
const NOWHERE: Span = Span { start: 0, end: 0 };

/// What is taken where nothing is pending. With a parsed program something always is.
const NO_PART: Pending = Pending {
    spot: 0,
    span: NOWHERE,
    is_simple: true,
};

/// A program's spots, the numbers of its parts, from 0; each is behind those of its own parts.
pub struct Sketch<'a> {
    // By spots: what stands at each.
    shapes: Vec<Shape<'a>>,
    // By spots: where each stands in the source.
    spans: Vec<Span>,
    // The places of the definitions, from 0, by their names, of which a checked program has none twice.
    definitions: HashMap<&'a [u8], usize>,
    // The spots of the definitions' bodies, in their order, and last that of the main expression.
    bodies: Vec<usize>,
    // The parts that nothing has taken yet, the last one on top. Empty once the program is read.
    pending: Vec<Pending>,
}

// Written out, so that a caller's proof sees one call and not the drop of each field.
impl Drop for Sketch<'_> {
    fn drop(self) {
        let Sketch {
            shapes: _,
            spans: _,
            definitions: _,
            bodies: _,
            pending: _,
        } = self;
    }
}

impl<'a> Sketch<'a> {
    /// The spots of a program. The error is refused memory.
    pub fn new(alloc: Global, ast: &Ast<'a>) -> Result<Sketch<'a>, AllocError> {
        let mut sketch = Sketch {
            shapes: Vec::new(alloc),
            spans: Vec::new(alloc),
            definitions: HashMap::new(alloc),
            bodies: Vec::new(alloc),
            pending: Vec::new(alloc),
        };
        sketch.read(ast)?;
        Ok(sketch)
    }

    /// What stands at a spot; a leaf where there is no such spot.
    pub fn shape(&self, spot: usize) -> Shape<'a> {
        self.shapes.get(spot).copied().unwrap_or(Shape::Leaf)
    }

    /// The bytes of the source in which what stands at a spot is written, brackets round the whole aside; of the pruning of an argument, those of its
    /// call. An empty span where there is no such spot.
    pub fn span(&self, spot: usize) -> Span {
        self.spans.get(spot).copied().unwrap_or(NOWHERE)
    }

    /// The spot of the body of the definition at this place, from 0; that of the main expression at the place behind the last definition; 0 behind
    /// that.
    pub fn body(&self, definition: usize) -> usize {
        self.bodies.get(definition).copied().unwrap_or(0)
    }

    /// The spot of the main expression.
    pub fn main(&self) -> usize {
        self.bodies.last().copied().unwrap_or(0)
    }

    // Reads the definitions and the main expression. The definitions' names come first, since a body may call a later definition.
    fn read(&mut self, ast: &Ast<'a>) -> Result<(), AllocError> {
        for (i, definition) in ast.definitions.iter().enumerate() {
            self.definitions.insert(definition.name.text, i)?;
        }
        for definition in &ast.definitions {
            self.read_expression(&definition.body)?;
        }
        self.read_expression(&ast.main)
    }

    // Reads an expression. Its nodes become spots, and the spot of the last node, the whole expression, is added to the bodies.
    fn read_expression(&mut self, expression: &Expr<'a>) -> Result<(), AllocError> {
        for node in &expression.nodes {
            self.read_node(*node)?;
        }
        let whole = self.take();
        self.bodies.push(whole.spot)?;
        Ok(())
    }

    // Reads a node, whose parts are pending, the last one on top: the right side is taken before the left.
    fn read_node(&mut self, node: Node<'a>) -> Result<(), AllocError> {
        match node.part {
            // A `stop` is no simple argument: it is written out as the right side of a pruning.
            Part::Plain(Plain::Stop) => self.put(Shape::Leaf, node.span, false),
            Part::Plain(_) | Part::Variable(_) => self.put(Shape::Leaf, node.span, true),
            Part::Call(name, count) => self.read_call(name, count, node.span),
            Part::Operation(operator) => {
                let right = self.take();
                let left = self.take();
                let shape = match operator {
                    Operator::Par => Shape::Par(left.spot, right.spot),
                    Operator::Seq(_) => Shape::Seq(left.spot, right.spot),
                    Operator::Other => Shape::Other(left.spot, right.spot, left.span),
                    Operator::Prune(None) => Shape::Prune(left.spot, right.spot, Purpose::Nothing),
                    Operator::Prune(Some(name)) => {
                        Shape::Prune(left.spot, right.spot, Purpose::Variable(name))
                    }
                };
                self.put(shape, node.span, false)
            }
            Part::Val(name) => {
                let body = self.take();
                let value = self.take();
                let shape = Shape::Prune(body.spot, value.spot, Purpose::Variable(name));
                self.put(shape, node.span, false)
            }
        }
    }

    // Reads a call of `count` arguments, which are the last pending parts, those that nothing has taken yet. Each one that is an expression becomes a
    // pruning round the call, that of the first one innermost. What is left pending in their place is the outermost pruning, or the call.
    fn read_call(&mut self, name: Name<'a>, count: usize, span: Span) -> Result<(), AllocError> {
        // Where the arguments begin among the pending parts.
        let first = self.pending.len().saturating_sub(count);
        let definition = self.definitions.get(name.text).copied();
        let mut spot = self.add(Shape::Call(definition), span)?;
        for place in 0..count {
            spot = self.wrap(spot, first, place, name, span)?;
        }
        self.pending.truncate(first);
        self.pending.push(Pending {
            spot,
            span,
            is_simple: false,
        })?;
        Ok(())
    }

    // The spot of the pruning of an argument, by its `place` from 0, round the spot `call`: that of the call, or of an earlier argument's pruning
    // round it. That spot itself where the argument is simple (a value or a variable) or isn't there. `first` is where the call's arguments begin
    // among the pending parts. `name` and `span` are the call's.
    fn wrap(
        &mut self,
        call: usize,
        first: usize,
        place: usize,
        name: Name<'a>,
        span: Span,
    ) -> Result<usize, AllocError> {
        match self.pending.get(first.saturating_add(place)).copied() {
            Some(argument) if !argument.is_simple => {
                // `Purpose` counts arguments from 1.
                let purpose = Purpose::Argument(place.saturating_add(1), name);
                self.add(Shape::Prune(call, argument.spot, purpose), span)
            }
            _ => Ok(call),
        }
    }

    // Adds a spot with what stands there and where it is in the source, and gives its number.
    fn add(&mut self, shape: Shape<'a>, span: Span) -> Result<usize, AllocError> {
        let spot = self.shapes.len();
        self.spans.push(span)?;
        self.shapes.push(shape)?;
        Ok(spot)
    }

    // Adds a spot, and puts it on top of the pending parts, those that nothing has taken yet. `is_simple` says that as an argument it needs no
    // pruning.
    fn put(&mut self, shape: Shape<'a>, span: Span, is_simple: bool) -> Result<(), AllocError> {
        let spot = self.add(shape, span)?;
        self.pending.push(Pending {
            spot,
            span,
            is_simple,
        })?;
        Ok(())
    }

    // Takes the last pending part; `NO_PART` if none is pending, which never happens with a parsed program.
    fn take(&mut self) -> Pending {
        self.pending.pop().unwrap_or(NO_PART)
    }
}
