//! The check of a program: its faults, else its terms. An `Ast` is the tree of a program as it is written. In a *written-out* term each argument that
//! is no literal or variable has a new variable in its place, and a pruning gives that its value. `Numbers` gives names their numbers, `Looking`
//! looks for faults, `Known` has the names of definitions and sites, and `Writing` writes terms into one list of nodes.

ghost use Rattle.std.specs.Prelude.{◌≡◌, List, map, IfOk};
ghost use Rattle.orc_syntax.specs.Ast.{label, text_of, IsAst};
ghost use Rattle.orc_syntax.specs.Tree.{Source, span_of};
ghost use Rattle.orc_scope.specs.Building.{HaveSmallCalls};
ghost use Rattle.orc_scope.specs.Checking.{IsWrittenOut, Checks};
ghost use Rattle.orc_scope.specs.Written.{number};

use crate::definitions::{program_fault, variables};
use crate::fault::{FaultKind, ScopeFault};
use crate::finder::Looking;
use crate::known::Known;
use crate::nodes::Nodes;
use crate::numbers::Numbers;
use crate::writer::Writing;
use orc_rules::limits::MOST_NODES;
use orc_rules::program::{Definition, Program};
use orc_syntax::{Ast, Name, Span};
use std::alloc::{AllocError, Global};

// In contracts `IsAst ast s` says that a tree is that of the program s, and `Checks sites s result` is all that the check promises of its result
// (specs/Checking.antt).

// The numbers of a definition's parameters, in their order. The error is refused memory.
fn parameter_numbers(
    alloc: Global,
    numbers: &Numbers,
    parameters: &[Name],
) -> Result<Vec<u32>, AllocError>
    ensures { IfOk result (λ params. params.items ≡ map (λ x. number numbers.now.names x.text) (map label parameters.now)) }
{
    let mut params = Vec::new(alloc);
    for parameter in parameters {
        params.push(numbers.variable(parameter.text))?;
    }
    Ok(params)
}

// The program with all terms written out. All of them share one list of nodes, and an expression is the number of its node there. The error is
// refused memory.
fn write_out(alloc: Global, numbers: &Numbers, ast: &Ast) -> Result<Program, AllocError>
    ensures { (s : Source) → IsAst ast.now s → HaveSmallCalls s → IfOk result (IsWrittenOut numbers.now.known numbers.now.names s) }
{
    let mut writing = Writing {
        nodes: Nodes::new(alloc),
        pieces: Vec::new(alloc),
    };
    let mut definitions = Vec::new(alloc);
    for definition in &ast.definitions {
        let params = parameter_numbers(alloc, numbers, &definition.parameters)?;
        let body = writing.expression(numbers, &definition.body.nodes)?;
        definitions.push(Definition { params, body })?;
    }
    let source = writing.expression(numbers, &ast.main.nodes)?;
    Ok(Program::new(writing.nodes.finish(), definitions, source))
}

// The place of the main expression in the source: that of its last node, which stands for all of it.
fn main_span(ast: &Ast) -> Span
    ensures { (s : Source) → IsAst ast.now s → result ≡ span_of s.main }
{
    match ast.main.nodes.last() {
        Some(node) => node.span,
        // Not reached: an expression has a node.
        None => Span { start: 0, end: 0 },
    }
}

/// Gives the program with each expression as its written-out term, where each name means something that fits its use: the innermost
/// variable, else the first definition of that name, else the site. `sites` are the names of the sites; a site's number is its place there, from 0.
///
/// The error is the fault that stands first, of two at one place the one of the lower number (`Unbound` to `TooMany` are C1 to C8);
/// `TooMany` at the main expression where there is no other fault and all terms together have over `MOST_NODES` nodes; `Memory` (C9),
/// placed at 0, where memory was refused.
pub fn check<'a>(alloc: Global, ast: &Ast<'a>, sites: &[&[u8]]) -> Result<Program, ScopeFault>
    ensures { (s : Source) → IsAst ast.now s → Checks (map text_of sites.now) s result }
{
    let known = Known::new(alloc, &ast.definitions, sites)?;
    // Room for one node more than allowed: no room left is one too many.
    let mut looking = Looking::new(alloc, MOST_NODES + 1);
    if let Some(fault) = program_fault(&mut looking, &known, ast)? {
        return Err(fault);
    }
    // The fault where there is no room left for the nodes of all terms.
    let too_many = ScopeFault {
        kind: FaultKind::TooMany,
        span: main_span(ast),
    };
    if looking.room == 0 {
        return Err(too_many);
    }
    // Not reached: so few nodes have fewer names than 32 bits can number.
    let Some(numbers) = Numbers::new(known, variables(alloc, ast)?) else {
        return Err(too_many);
    };
    Ok(write_out(alloc, &numbers, ast)?)
}
