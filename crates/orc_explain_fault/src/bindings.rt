//! Where a program's variables are named, and in which part of the source each is known (its scope).
//!
//! An expression's nodes are listed with each operator behind its parts, so a stack of the parts' places is enough to find the scope of each
//! variable.

use orc_syntax::{Ast, Definition, Expr, Name, Node, Operator, Part, Span};
use std::alloc::{AllocError, Global};

/// What names a variable.
#[derive(Clone, Copy)]
pub(crate) enum Binder {
    /// `f >x> g`, which names x.
    Sequence,
    /// `f <x< g`, which names x.
    Pruning,
    /// `val x = g f`, which names x.
    Val,
    /// The parameters of a definition.
    Parameter,
}

/// A variable where it is named.
#[derive(Clone, Copy)]
pub(crate) struct Binding<'a> {
    /// The variable's name, with the place where it is named.
    pub name: Name<'a>,
    /// What names the variable.
    pub binder: Binder,
    /// The bytes of the source in which the variable is known.
    pub scope: Span,
}

/// All variables of a program.
#[derive(Drop)]
pub(crate) struct Bindings<'a> {
    pub list: Vec<Binding<'a>>,
    // The bytes of the parts that no operator, call or `val` has taken yet, the last part on top. Empty once the program is read.
    parts: Vec<Span>,
}

/// What `take` gives where no part is left. In a parsed program one always is.
const NOWHERE: Span = Span { start: 0, end: 0 };

impl<'a> Bindings<'a> {
    /// The variables of a program. The error is refused memory.
    pub(crate) fn new(alloc: Global, ast: &Ast<'a>) -> Result<Bindings<'a>, AllocError> {
        let mut bindings = Bindings {
            list: Vec::new(alloc),
            parts: Vec::new(alloc),
        };
        for definition in &ast.definitions {
            bindings.read_definition(definition)?;
        }
        // The call adds the variables of the main expression. Its bytes aren't used: no parameter is known in it.
        let _main = bindings.read_expression(&ast.main)?;
        Ok(bindings)
    }

    // Adds a definition's variables. Its parameters are known in its body, whose bytes `read_expression` gives. The error is refused memory.
    fn read_definition(&mut self, definition: &Definition<'a>) -> Result<(), AllocError> {
        let scope = self.read_expression(&definition.body)?;
        for parameter in &definition.parameters {
            self.add(*parameter, Binder::Parameter, scope)?;
        }
        Ok(())
    }

    // Adds the variables of an expression, and gives its bytes. The error is refused memory.
    fn read_expression(&mut self, expression: &Expr<'a>) -> Result<Span, AllocError> {
        for node in &expression.nodes {
            self.read_node(*node)?;
        }
        Ok(self.take())
    }

    // Takes a node's parts off the stack and adds the node's variable, if it names one; then the node itself is a part. The error is refused memory.
    fn read_node(&mut self, node: Node<'a>) -> Result<(), AllocError> {
        match node.part {
            Part::Plain(_) | Part::Variable(_) => {}
            Part::Call(_, count) => {
                // The call takes its arguments, which are the last parts.
                let first = self.parts.len().saturating_sub(count);
                self.parts.truncate(first);
            }
            Part::Operation(operator) => self.read_operation(operator)?,
            Part::Val(name) => self.read_val(name)?,
        }
        self.parts.push(node.span)?;
        Ok(())
    }

    // Takes both parts of an operator, of which the right one is the last. In `f >x> g` the variable is known in g, in `f <x< g` in f. The error is
    // refused memory.
    fn read_operation(&mut self, operator: Operator<'a>) -> Result<(), AllocError> {
        let right = self.take();
        let left = self.take();
        match operator {
            Operator::Seq(Some(name)) => self.add(name, Binder::Sequence, right),
            Operator::Prune(Some(name)) => self.add(name, Binder::Pruning, left),
            // The operator has no variable.
            _ => Ok(()),
        }
    }

    // In `val x = g f` the variable is known in f, the last part; the part before it is g, the value. The error is refused memory.
    fn read_val(&mut self, name: Name<'a>) -> Result<(), AllocError> {
        let scope = self.take();
        let _value = self.take();
        self.add(name, Binder::Val, scope)
    }

    // Takes the last part off the stack, and gives the part's bytes.
    fn take(&mut self) -> Span {
        self.parts.pop().unwrap_or(NOWHERE)
    }

    // Adds the variable `name`, which is known in the bytes `scope`. The error is refused memory.
    fn add(&mut self, name: Name<'a>, binder: Binder, scope: Span) -> Result<(), AllocError> {
        self.list.push(Binding {
            name,
            binder,
            scope,
        })?;
        Ok(())
    }

    /// The variable of this name that is named first in the text; the list isn't in the text's order. None where there is none.
    pub(crate) fn first(&self, name: &[u8]) -> Option<Binding<'a>> {
        let mut found: Option<Binding<'a>> = None;
        for binding in self.list.iter() {
            let is_first = match found {
                Some(other) => binding.name.span.start < other.name.span.start,
                None => true,
            };
            if is_first && binding.name.text == name {
                found = Some(*binding);
            }
        }
        found
    }

    /// The innermost variable of this name that is known at the byte `at` of the source: the one with the narrowest scope. None where none is known
    /// there.
    pub(crate) fn known(&self, name: &[u8], at: usize) -> Option<Binding<'a>> {
        let mut found: Option<Binding<'a>> = None;
        for binding in self.list.iter() {
            let scope = binding.scope;
            let is_known = scope.start <= at && at < scope.end;
            let is_inner = match found {
                Some(other) => width(scope) < width(other.scope),
                None => true,
            };
            if is_known && is_inner && binding.name.text == name {
                found = Some(*binding);
            }
        }
        found
    }
}

// How many bytes a span has.
fn width(span: Span) -> usize {
    span.end.saturating_sub(span.start)
}
