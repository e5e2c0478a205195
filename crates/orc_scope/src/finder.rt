//! Looks for the least fault of an expression, and counts the nodes of its written-out term.
//!
//! The nodes of an expression stand in postorder. They are looked at from the last one to the first, so that a whole comes before its parts and can
//! say which names are in scope there. A stack of tasks has one for each part that is still to come. Here `known` has the names of definitions and
//! sites, and `scope` those of variables. A `Part` is what stands at a node of the tree, and a `Span` is a place in the text, in bytes.

ghost use Rattle.std.specs.Prelude.{◌≡◌, ◌-◌, ◌++◌, ◌∷◌, [], ℕ, List, map, reverse, IfOk, OnOk, IfSome};
ghost use Rattle.orc_syntax.specs.Tree.{Tree};
ghost use Rattle.orc_syntax.specs.Ast.{sort, item, label_if, IsExpr};
ghost use Rattle.orc_scope.specs.Scope.{Known as Outside, IsLeast, bound, fault, name_faults, call_faults, meaning, number_faults, faults, text_if as text_if_of};
ghost use Rattle.orc_scope.specs.Looking.{looks, weight as weight_of, weighs, task, pending, parts_of, node_faults, known_of, bind_of, waiting, IsFit, IfTaken, OnNothing};
ghost use Rattle.orc_scope.specs.Written.{written, size};

use crate::fault::{FaultKind, ScopeFault, lesser};
use crate::known::Known;
use crate::names::Names;
use orc_rules::limits::MOST_ARGUMENTS;
use orc_syntax::{Name, Node, Operator, Part, Plain, Span};
use std::alloc::{AllocError, Global};

// In contracts `IsLeast result faults` says that the result is the least of these faults, or None where there are none; `waiting` is the stack of
// tasks with the next one first, and `IsFit` says that each can still make its scope. `task` is a part's scope and number, and `bound` a scope with
// the name, if there is one, at its end.

/// A part that is still to be searched, and how to make its scope then: it keeps the first `depth` names in scope, drops the names after these, which
/// belong to parts further right, and may add one.
#[derive(Clone, Copy)]
pub struct Task<'a> {
    /// How many names, counted from the outermost one, stay in scope in the part.
    pub depth: usize,
    /// The variable that comes into scope in the part, if the part is in the scope of an operator's or a `val`'s variable.
    pub bind: Option<&'a [u8]>,
    /// Of an argument its number, from 1. The task stands for the arguments before it, too. 0 for any other part.
    pub number: usize,
}

/// A look through the expressions of a program.
pub struct Looking<'a> {
    /// The parts that are still to be looked at, a stack with the next one last.
    pub tasks: Vec<Task<'a>>,
    /// The names in scope, the innermost last.
    pub scope: Names<'a>,
    /// How many more nodes the written-out terms may have. It stays at 0 where they have more.
    pub room: usize,
}

// Written out, so that a caller's proof sees one call and not the drop of each field. In the pattern `_` drops a field.
impl Drop for Looking<'_> {
    fn drop(self) {
        let Looking {
            tasks: _,
            scope: _,
            room: _,
        } = self;
    }
}

/// `Some` of the fault of this kind at `span`. Where this is the only fault, it is the least one, as the contract says.
pub fn one(kind: FaultKind, span: Span) -> Option<ScopeFault>
    ensures { IsLeast result (fault kind span ∷ []) }
{
    Some(ScopeFault { kind, span })
}

// The fault of a called name at `span`, with so many arguments; None if it may be called so. `scope` has the variables in scope, the innermost last.
// The name means a variable, else a definition, else a site.
fn call_fault(
    known: &Known,
    scope: &Names,
    text: &[u8],
    arguments: usize,
    span: Span,
) -> Option<ScopeFault>
    ensures { IsLeast result (call_faults (known_of known.now) (meaning (known_of known.now) scope.now text.now) arguments span) }
{
    if scope.find(text).is_some() {
        return one(FaultKind::CallOfVariable, span);
    }
    // `number` is the definition's place, from 0.
    let Some(number) = known.definitions.find(text) else {
        // A site takes any number of arguments: a call that no line of a script matches halts.
        if known.sites.find(text).is_some() {
            return None;
        }
        return one(FaultKind::NoSite, span);
    };
    match known.arities.get(number) {
        Some(want) if *want != arguments => one(
            FaultKind::Arity {
                want: *want,
                got: arguments,
            },
            span,
        ),
        // The call has as many as the definition wants. `Known` has an arity of each definition, so there is no None here.
        _ => None,
    }
}

// The fault of a name without a bracket at `span`; None if it means a variable, as it has to. `scope` has the variables in scope.
fn name_fault(known: &Known, scope: &Names, text: &[u8], span: Span) -> Option<ScopeFault>
    ensures { IsLeast result (name_faults (meaning (known_of known.now) scope.now text.now) span) }
{
    if scope.find(text).is_some() {
        return None;
    }
    if known.definitions.find(text).is_some() || known.sites.find(text).is_some() {
        return one(FaultKind::NotValue, span);
    }
    one(FaultKind::Unbound, span)
}

// The fault of a node itself, without its parts: only a name can be at fault. `scope` has the variables in scope at the node.
fn node_fault(known: &Known, scope: &Names, part: Part) -> Option<ScopeFault>
    ensures { IsLeast result (node_faults (known_of known.now) scope.now (sort part.entry)) }
{
    match part {
        Part::Variable(name) => name_fault(known, scope, name.text, name.span),
        Part::Call(name, arguments) => call_fault(known, scope, name.text, arguments, name.span),
        Part::Plain(_) | Part::Operation(_) | Part::Val(_) => None,
    }
}

/// The fault of the parameter or argument of this number, from 1, at `span`, if it is the first one too many. Those behind it are no further faults.
pub fn number_fault(number: usize, span: Span) -> Option<ScopeFault>
    ensures { IsLeast result (number_faults number span) }
{
    if number == MOST_ARGUMENTS + 1 {
        one(FaultKind::TooMany, span)
    } else {
        None
    }
}

// How many nodes a node of the source makes in the written-out term, where a call `f(G)` is `f(x) <x< G` with a new variable x. `number` is that of
// an argument, from 1, and 0 for any other part. An argument that is a literal or a variable stays in the call's list and makes none; any other one,
// `stop` too, makes two: its own and that of the pruning. Any other part makes one.
fn weight(number: usize, part: Part) -> usize
    ensures value { result ≡ weight_of number (sort part.entry) }
{
    if number == 0 {
        return 1;
    }
    match part {
        Part::Plain(Plain::Number(_) | Plain::Truth(_) | Plain::Signal) | Part::Variable(_) => 0,
        _ => 2,
    }
}

impl<'a> Looking<'a> {
    /// A look with nothing to look at yet, no name in scope, and room for so many nodes.
    pub fn new(alloc: Global, room: usize) -> Looking<'a>
        ensures scope { result.scope ≡ [] }
        ensures room { result.room ≡ room }
    {
        Looking {
            tasks: Vec::new(alloc),
            scope: Names::new(alloc),
            room,
        }
    }

    // Pushes a task for a part, which is then looked at next. The part keeps all names that are in scope here. `bind` is the variable that comes into
    // scope in the part, if there is one. `number` is that of an argument, from 1, and 0 for any other part. `IsFit` says that each task can still
    // make its scope, before and after. The error is refused memory, here and below.
    fn wait(&mut self, bind: Option<&'a [u8]>, number: usize) -> Result<(), AllocError>
        requires { IsFit self.old }
        ensures scope { self.new.scope ≡ self.old.scope }
        ensures room { self.new.room ≡ self.old.room }
        ensures tasks { OnOk result (waiting self.new ≡ task (bound (bind_of bind.entry) self.old.scope) number ∷ waiting self.old) }
        ensures fit { OnOk result (IsFit self.new) }
    {
        self.tasks.push(Task {
            depth: self.scope.len(),
            bind,
            number,
        })?;
        Ok(())
    }

    // Takes the part that is looked at next from the stack, and makes its scope: `scope` has the names in scope in the part then. Gives the part's
    // number: that of an argument, from 1, and 0 for any other part. None where no part is left. `IsFit` says that each task can still make its
    // scope, before and after. The error is refused memory.
    fn next(&mut self) -> Result<Option<usize>, AllocError>
        requires { IsFit self.old }
        ensures some { IfOk result (IfTaken (λ n. waiting self.old ≡ task self.new.scope n ∷ waiting self.new)) }
        ensures none { IfOk result (OnNothing (waiting self.old ≡ [])) }
        ensures room { self.new.room ≡ self.old.room }
        ensures fit { OnOk result (IsFit self.new) }
    {
        let Some(task) = self.tasks.pop() else {
            return Ok(None);
        };
        // The part keeps the names that were in scope around it, and may add one.
        self.scope.truncate(task.depth);
        if let Some(text) = task.bind {
            self.scope.push(text)?;
        }
        Ok(Some(task.number))
    }

    // Pushes the first `count` arguments of a call, as one task: that of the last one, which adds no name. Once that argument is looked at, the task
    // is pushed again for those before it. `IsFit` says that each task can still make its scope, before and after.
    fn arguments(&mut self, count: usize) -> Result<(), AllocError>
        requires { IsFit self.old }
        ensures scope { self.new.scope ≡ self.old.scope }
        ensures room { self.new.room ≡ self.old.room }
        ensures tasks { OnOk result (waiting self.new ≡ pending count self.old.scope (waiting self.old)) }
        ensures fit { OnOk result (IsFit self.new) }
    {
        if count > 0 {
            self.wait(None, count)?;
        }
        Ok(())
    }

    // Pushes two parts, each with the name, if any, that comes into scope in it. The right one's nodes stand last, so it comes next. Neither is an
    // argument, so both have the number 0. `IsFit` says that each task can still make its scope, before and after.
    fn both(&mut self, left: Option<&'a [u8]>, right: Option<&'a [u8]>) -> Result<(), AllocError>
        requires { IsFit self.old }
        ensures scope { self.new.scope ≡ self.old.scope }
        ensures room { self.new.room ≡ self.old.room }
        ensures tasks { OnOk result (waiting self.new ≡ task (bound (bind_of right.entry) self.old.scope) 0 ∷ task (bound (bind_of left.entry) self.old.scope) 0 ∷ waiting self.old) }
        ensures fit { OnOk result (IsFit self.new) }
    {
        self.wait(left, 0)?;
        self.wait(right, 0)
    }

    // Pushes the parts of a node. The variable of `>x>` is in scope in its right side, that of `<x<` in its left side, and that of `val x = G F` in
    // F, which is the right one of its parts. `IsFit` says that each task can still make its scope, before and after.
    fn parts(&mut self, part: Part<'a>) -> Result<(), AllocError>
        requires { IsFit self.old }
        ensures scope { self.new.scope ≡ self.old.scope }
        ensures room { self.new.room ≡ self.old.room }
        ensures tasks { OnOk result (waiting self.new ≡ parts_of (sort part.entry) self.old.scope (waiting self.old)) }
        ensures fit { OnOk result (IsFit self.new) }
    {
        match part {
            Part::Plain(_) | Part::Variable(_) => Ok(()),
            Part::Call(_, count) => self.arguments(count),
            Part::Operation(Operator::Seq(name)) => self.both(None, text_if(name)),
            Part::Operation(Operator::Prune(name)) => self.both(text_if(name), None),
            Part::Operation(Operator::Par | Operator::Other) => self.both(None, None),
            Part::Val(name) => self.both(None, Some(name.text)),
        }
    }

    // The least fault of the parts on the stack, whose nodes these are: the one that stands first, and of those at one place the one of the lowest
    // number. None where they have none. `room`, how many more nodes the written-out terms may have, is then smaller by the number of nodes of the
    // terms of these parts, down to 0. `IsFit` asks that each task can make its scope.
    fn find(&mut self, known: &Known, nodes: &[Node<'a>]) -> Result<Option<ScopeFault>, AllocError>
        requires { IsFit self.old }
        ensures least { IfOk result (λ least. IsLeast least (looks (known_of known.now) (waiting self.old) (reverse (map item nodes.now)))) }
        ensures room { OnOk result (self.new.room ≡ self.old.room - weighs (waiting self.old) (reverse (map item nodes.now))) }
    {
        let mut least = None;
        // How many nodes are left, from the front.
        let mut count = nodes.len();
        while count > 0 {
            // Not reached with the nodes of a tree: each has a task.
            let Some(number) = self.next()? else {
                return Ok(least);
            };
            count -= 1;
            let node = nodes[count];
            // Of two faults `lesser` gives the one that stands first, and of two at one place, as these are, the one of the lower number.
            let own = lesser(
                number_fault(number, node.span),
                node_fault(known, &self.scope, node.part),
            );
            least = lesser(least, own);
            // The written-out term has so many nodes for this one. Room for them is taken, down to 0.
            self.room = self.room.saturating_sub(weight(number, node.part));
            // The arguments before this one, if it is one, below its own parts: their nodes stand further left, so they come later.
            self.arguments(number.saturating_sub(1))?;
            self.parts(node.part)?;
        }
        Ok(least)
    }

    /// The least fault of an expression in which the names of `scope` are variables, None where it has none. `room`, how many more nodes the
    /// written-out terms may have, is then smaller by the number of nodes of the expression's term, down to 0. Which names are in scope afterwards
    /// isn't said. The error is refused memory.
    pub fn expression(
        &mut self,
        known: &Known,
        nodes: &[Node<'a>],
    ) -> Result<Option<ScopeFault>, AllocError>
        ensures least { (t : Tree) → IsExpr nodes.now t → IfOk result (λ least. IsLeast least (faults (known_of known.now) self.old.scope t)) }
        ensures room { (t : Tree) (k : Outside) (names : List (List ℕ)) → IsExpr nodes.now t → OnOk result (self.new.room ≡ self.old.room - size (written k names t)) }
    {
        // No task is left of an expression that was looked through; no contract says so.
        self.tasks.clear();
        // At first one part is left, the whole expression.
        self.wait(None, 0)?;
        self.find(known, nodes)
    }
}

// The text of an operator's name, if the operator has one.
fn text_if(name: Option<Name<'_>>) -> Option<&[u8]>
    ensures { bind_of result ≡ text_if_of (label_if name.entry) }
{
    match name {
        Some(name) => Some(name.text),
        None => None,
    }
}
