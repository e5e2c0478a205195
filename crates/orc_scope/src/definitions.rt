//! The least fault of a program, and the names of its variables. The least fault is the one that is reported: it stands first, and of those at one
//! place it has the lowest number (`lesser`). Here `looking` is the look through a program's expressions, with the names in scope and the nodes that
//! terms may still have. `known` has the names of definitions and sites. A `Part` is what stands at a node of the tree, and a `Span` is a place in
//! the text, in bytes.

ghost use Rattle.std.specs.Prelude.{◌≡◌, ◌-◌, ◌++◌, ◌∷◌, [], ℕ, List, map, take, IfOk, OnOk};
ghost use Rattle.orc_syntax.specs.Ast.{label, sort, IsExpr, IsDefinition, AreDefinitions, IsAst};
ghost use Rattle.orc_syntax.specs.Tree.{Define, Source, Tree};
ghost use Rattle.orc_scope.specs.Scope.{Known as Outside, IsLeast, position, bound};
ghost use Rattle.orc_scope.specs.Looking.{known_of, bind_of};
ghost use Rattle.orc_scope.specs.Program.{repeated as repeated_of, text, name_of, parameter_faults, definition_faults, definitions_faults, faults_with, bound_names as names_bound, sort_names, variables as variables_of, size_of_define, sizes, sizes_of};

use crate::fault::{FaultKind, ScopeFault, lesser};
use crate::finder::{Looking, number_fault, one};
use crate::known::Known;
use crate::names::Names;
use orc_syntax::{Ast, Definition, Name, Node, Operator, Part, Span};
use std::alloc::{AllocError, Global};

// In contracts `IsLeast result faults` says that the result is the least of these faults, or None where there are none.

// The place of a name, from 0, if its first one is among the first `number` names; None if it comes later or not at all.
fn earlier(names: &Names, number: usize, text: &[u8]) -> Option<usize>
    ensures { result ≡ position (take number names.now) text.now }
{
    match names.find(text) {
        Some(at) if at < number => Some(at),
        _ => None,
    }
}

// The fault of a name at `span`, of this kind, if the name has come before: then `before` is its first place. None if the name comes here first.
fn repeated(kind: FaultKind, before: Option<usize>, span: Span) -> Option<ScopeFault>
    ensures { IsLeast result (repeated_of kind before span) }
{
    match before {
        Some(_) => one(kind, span),
        None => None,
    }
}

// The least fault of a definition's parameters, None where they have none. Afterwards they are the names in scope, and no others. `looking.room`, how
// many more nodes terms may have, stays as it is. The error is refused memory.
fn parameters_fault<'a>(
    looking: &mut Looking<'a>,
    parameters: &[Name<'a>],
) -> Result<Option<ScopeFault>, AllocError>
    ensures least { IfOk result (λ least. IsLeast least (parameter_faults [] 1 (map label parameters.now))) }
    ensures scope { OnOk result (looking.new.scope ≡ map text (map label parameters.now)) }
    ensures room { looking.new.room ≡ looking.old.room }
{
    // The names of the definition before are out of scope.
    looking.scope.truncate(0);
    let mut least = None;
    let mut at = 0;
    while at < parameters.len() {
        let name = parameters[at];
        let before = looking.scope.find(name.text);
        // Of the two faults of this parameter, which stand at one place, the one of the lower number: its name came before (C5), or it is the one
        // behind the last allowed (C8). Parameters are counted from 1.
        let own = lesser(
            repeated(FaultKind::ParameterTwice, before, name.span),
            number_fault(at + 1, name.span),
        );
        least = lesser(least, own);
        looking.scope.push(name.text)?;
        at += 1;
    }
    Ok(least)
}

// The least fault of the definition of this number, from 0: of its name, its parameters and its body. Afterwards `looking.room`, how many more nodes
// terms may have, is smaller by the number of nodes of the written-out body, down to 0. The error is refused memory.
fn definition_fault<'a>(
    looking: &mut Looking<'a>,
    known: &Known,
    number: usize,
    definition: &Definition<'a>,
) -> Result<Option<ScopeFault>, AllocError>
    ensures least { (e : Define) → IsDefinition definition.now e → IfOk result (λ least. IsLeast least (definition_faults (known_of known.now) (take number known.now.definitions) e)) }
    ensures room { (e : Define) (k : Outside) (names : List (List ℕ)) → IsDefinition definition.now e → OnOk result (looking.new.room ≡ looking.old.room - size_of_define k names e) }
{
    // The first place of a definition of this name among those before this one.
    let before = earlier(&known.definitions, number, definition.name.text);
    let own = repeated(FaultKind::DefinedTwice, before, definition.name.span);
    // The parameters come before the body, since this call leaves them in scope for it.
    let parameters = parameters_fault(looking, &definition.parameters)?;
    let body = looking.expression(known, &definition.body.nodes)?;
    Ok(lesser(own, lesser(parameters, body)))
}

// The least fault of the definitions, None where they have none. `known` has to have their names, in their order. Afterwards `looking.room`, how many
// more nodes terms may have, is smaller by the number of nodes of all their written-out bodies, down to 0. The error is refused memory.
fn definitions_fault<'a>(
    looking: &mut Looking<'a>,
    known: &Known,
    definitions: &[Definition<'a>],
) -> Result<Option<ScopeFault>, AllocError>
    ensures least { (es : List Define) → AreDefinitions definitions.now es → known.now.definitions ≡ map name_of es → IfOk result (λ least. IsLeast least (definitions_faults (known_of known.now) [] es)) }
    ensures room { (es : List Define) (k : Outside) (names : List (List ℕ)) → AreDefinitions definitions.now es → OnOk result (looking.new.room ≡ looking.old.room - sizes_of k names es) }
{
    let mut least = None;
    let mut number = 0;
    while number < definitions.len() {
        let own = definition_fault(looking, known, number, &definitions[number])?;
        least = lesser(least, own);
        number += 1;
    }
    Ok(least)
}

/// The least fault of a program, None where it has none. `known` has to have the names of its definitions, in their order. Too many nodes are no
/// fault here: afterwards `looking.room` is smaller by the number of nodes of all its terms, down to 0. The error is refused memory.
pub fn program_fault<'a>(
    looking: &mut Looking<'a>,
    known: &Known,
    ast: &Ast<'a>,
) -> Result<Option<ScopeFault>, AllocError>
    ensures least { (s : Source) → IsAst ast.now s → known.now.definitions ≡ map name_of s.definitions → IfOk result (λ least. IsLeast least (faults_with (known_of known.now) s)) }
    ensures room { (s : Source) (k : Outside) (names : List (List ℕ)) → IsAst ast.now s → OnOk result (looking.new.room ≡ looking.old.room - sizes k names s) }
{
    let definitions = definitions_fault(looking, known, &ast.definitions)?;
    // No parameter of a definition is in scope in the main expression.
    looking.scope.truncate(0);
    let main = looking.expression(known, &ast.main.nodes)?;
    Ok(lesser(definitions, main))
}

// Adds the names of parameters at the end of `names`. The error is refused memory.
fn parameter_names<'a>(names: &mut Names<'a>, parameters: &[Name<'a>]) -> Result<(), AllocError>
    ensures { OnOk result (names.new ≡ names.old ++ map text (map label parameters.now)) }
{
    for parameter in parameters {
        names.push(parameter.text)?;
    }
    Ok(())
}

// The name that a node binds: the variable of `>x>`, `<x<` or `val x`. None for any other node.
fn bound_name<'a>(part: &Part<'a>) -> Option<&'a [u8]>
    ensures { bound (bind_of result) [] ≡ sort_names (sort part.now) }
{
    match part {
        Part::Operation(Operator::Seq(Some(name)) | Operator::Prune(Some(name)))
        | Part::Val(name) => Some(name.text),
        _ => None,
    }
}

// Adds the names that an expression binds at the end of `names`, in the order of the nodes. The error is refused memory.
fn bound_names<'a>(names: &mut Names<'a>, nodes: &[Node<'a>]) -> Result<(), AllocError>
    ensures { (t : Tree) → IsExpr nodes.now t → OnOk result (names.new ≡ names.old ++ names_bound t) }
{
    for node in nodes {
        if let Some(text) = bound_name(&node.part) {
            names.push(text)?;
        }
    }
    Ok(())
}

/// The names of a program's variables: each definition's parameters and those that its body binds, then those of the main expression. A name that
/// is bound more than once is there as often. The error is refused memory.
pub fn variables<'a>(alloc: Global, ast: &Ast<'a>) -> Result<Names<'a>, AllocError>
    ensures { (s : Source) → IsAst ast.now s → IfOk result (λ names. names ≡ variables_of s) }
{
    let mut names = Names::new(alloc);
    for definition in &ast.definitions {
        parameter_names(&mut names, &definition.parameters)?;
        bound_names(&mut names, &definition.body.nodes)?;
    }
    bound_names(&mut names, &ast.main.nodes)?;
    Ok(names)
}
