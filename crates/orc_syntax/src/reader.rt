//! Reads a program token by token, without recursion: an operator-precedence parser with a stack of its own.
//!
//! A `Mode` says what was read last, a `Frame` what still waits to be closed or to get its right side. The nodes of the tree are written in the order
//! of their ends (postorder), so the nodes of an expression that was just read are always the last ones. An operand is an expression that has been
//! read whole. `What` is what has to stand at a place, a `Joint` is an operator without a variable, and a `Side` says which way a sign of `>x>` or
//! `<x<` points.

ghost use Rattle.std.specs.Prelude.{if◌then◌else◌, ◌≡◌, ◌++◌, IfOk, IfErr, IfSome, IfNone, List, ◌∷◌, [], ℕ, Ok, Err, map, length};
ghost use Rattle.orc_lex.specs.Tokens.{sort};
ghost use Rattle.orc_lex.specs.Tokens as tokens;
ghost use Rattle.orc_lex.specs.declared.token.Span.{Span};
ghost use Rattle.orc_lex.specs.declared.token.What.TheVariants.{Expression as expression};
ghost use Rattle.orc_syntax.specs.Tree as trees;
ghost use Rattle.orc_syntax.specs.Grammar.{level, left_level as left_level_of, link_of, link_by};
ghost use Rattle.orc_syntax.specs.Machine as machine;
ghost use Rattle.orc_syntax.specs.Ast.{label, link, sort as part_sort};
ghost use Rattle.orc_syntax.specs.View.{operand, joining, frame as frame_of, heading, mode, context, nodes, stack, Leaves, Makes, Ends};
ghost use Rattle.orc_syntax.specs.declared.reader.StepError.TheVariants.{Memory};

use crate::tree::{Ast, Definition, Expr, Name, Node, Operator, Part};
use orc_lex::token::{Joint, Kind, Plain, Side, Span, Token, What};
use std::alloc::{AllocError, AllocFailed, Global};
use std::mem;

// In contracts `machine.f` is the function f of specs/Machine.antt, mostly that of the same name. `Leaves` says that the result and the reader are
// what it gives, and `Makes` that the operand is so, unless memory was refused. `context`, `nodes` and `stack` are what the reader holds.

/// Where an expression that has been read begins and ends, its outer brackets included, in bytes of the text from 0. Its nodes need no
/// mention: they are the last ones.
#[derive(Clone, Copy)]
pub struct Operand {
    pub start: usize,
    pub end: usize,
}

/// What joins two expressions: an operator, or a `val`.
#[derive(Clone, Copy)]
pub enum Joining<'a> {
    Operator(Operator<'a>),
    /// The `val` of this variable joins its G, which stands first, with its F.
    Val(Name<'a>),
}

/// What waits for an expression to end. Places are bytes of the text.
#[derive(Clone, Copy)]
pub enum Frame<'a> {
    /// An operator or `val` that was read with its left side and waits for the right one; and where its left side (a `val`: its word) begins.
    Before(Joining<'a>, usize),
    /// A bracket, with its place.
    Bracket(usize),
    /// A call whose bracket is open, with the number of arguments before the one that is read.
    Arguments(Name<'a>, usize),
    /// `val x =`, which waits for its G; with the place of `val`.
    Bound(Name<'a>, usize),
    /// `def f(a, b) =`, which waits for its body.
    Body(Name<'a>),
}

/// How much of a `val x =` or `def f(a, b) =` has come. A `val` has the place of its word, a `def` its name.
#[derive(Clone, Copy)]
pub enum Heading<'a> {
    /// `val`
    Val(usize),
    /// `val x`
    ValName(usize, Name<'a>),
    /// `def`
    Def,
    /// `def f`
    DefName(Name<'a>),
    /// `def f(`
    Opened(Name<'a>),
    /// `def f(a`
    Parameter(Name<'a>),
    /// `def f(a,`
    Comma(Name<'a>),
    /// `def f(a)`
    Closed(Name<'a>),
}

/// What has just been read.
#[derive(Clone, Copy)]
pub enum Mode<'a> {
    /// Something behind which an expression must begin: the text's start, an operator, an opening bracket, a comma, a heading with its `=`.
    Want,
    /// The bracket of a call: an argument or a closing bracket comes.
    First,
    /// A name, which a bracket makes a call.
    Named(Name<'a>),
    /// A whole operand.
    Have(Operand),
    /// The first sign of `>x>` or `<x<`, behind the operand that stands left of it.
    Signed(Side, Operand),
    /// That sign and the variable behind it, with the operand left of the sign.
    Variable(Side, Operand, Name<'a>),
    /// Part of a `val x =` or `def f(a, b) =`.
    Heads(Heading<'a>),
}

/// Why a token isn't taken. What the reader holds after an error isn't said.
#[derive(Debug, Drop)]
pub enum StepError {
    /// Memory was refused.
    Memory,
    /// No program goes on with this token; this would have to stand in its place.
    Wanted(What),
    /// One more open bracket or `val`, or one more operator, than a definition or main expression may have. Only `Depth` gives it.
    Deep,
}

impl From<AllocError> for StepError {
    ghost from_gives = { λ _ e. e ≡ Memory };

    fn from(_e: AllocError) -> StepError {
        StepError::Memory
    }
}

impl<T: Drop> From<AllocFailed<T>> for StepError {
    ghost from_gives = { λ _ e. e ≡ Memory };

    fn from(_e: AllocFailed<T>) -> StepError {
        StepError::Memory
    }
}

impl<'a> Joining<'a> {
    // How tightly this operator or `val` binds. The levels of the grammar, from the loosest: 0 `val`, 1 `;`, 2 `<x<`, 3 `|`, 4 `>x>`.
    fn level(&self) -> u8
        ensures { result ≡ machine.level_of (joining self.now) }
    {
        match self {
            Joining::Val(_) => 0,
            Joining::Operator(Operator::Other) => 1,
            Joining::Operator(Operator::Prune(_)) => 2,
            Joining::Operator(Operator::Par) => 3,
            Joining::Operator(Operator::Seq(_)) => 4,
        }
    }

    // What stands at the node of the tree that this operator or `val` makes.
    fn part(self) -> Part<'a>
        ensures { part_sort result ≡ machine.sort_by (joining self.entry) }
    {
        match self {
            Joining::Operator(operator) => Part::Operation(operator),
            Joining::Val(name) => Part::Val(name),
        }
    }
}

// How tightly what stands left of an operator binds at least: as tightly as the operator itself, which so groups to the left. `>x>` groups to the
// right, so it asks for more than any operator has.
fn left_level(operator: Operator<'_>) -> u8
    ensures { result ≡ left_level_of (link operator.entry) }
{
    match operator {
        Operator::Other => 1,
        Operator::Prune(_) => 2,
        Operator::Par => 3,
        Operator::Seq(_) => 5,
    }
}

// The operator that `joint`, a sign without a variable, is by itself.
fn operator_of(joint: Joint) -> Operator<'static>
    ensures { link result ≡ link_of joint }
{
    match joint {
        Joint::Seq => Operator::Seq(None),
        Joint::Par => Operator::Par,
        Joint::Prune => Operator::Prune(None),
        Joint::Other => Operator::Other,
    }
}

// The operator that two signs are with the variable between them: `>x>` or `<x<`.
fn operator_by<'a>(side: Side, variable: Name<'a>) -> Operator<'a>
    ensures { link result ≡ link_by side (label variable.entry) }
{
    match side {
        Side::Right => Operator::Seq(Some(variable)),
        Side::Left => Operator::Prune(Some(variable)),
    }
}

// What has to come next in a `val x =` or `def f(a, b) =` that isn't whole. Behind `def f(` a `)` may come too; `Name` is given all the same.
fn heading_wants(head: Heading<'_>) -> What
    ensures { result ≡ machine.heading_wants (heading head.entry) }
{
    match head {
        Heading::Val(_) | Heading::Def | Heading::Opened(_) | Heading::Comma(_) => What::Name,
        Heading::ValName(_, _) | Heading::Closed(_) => What::Assign,
        Heading::DefName(_) => What::Paren,
        Heading::Parameter(_) => What::CommaOrClose,
    }
}

/// What has been read of a program.
#[derive(Drop)]
pub struct Reader<'a> {
    alloc: Global,
    /// The definitions that are whole.
    definitions: Vec<Definition<'a>>,
    /// The parameters so far of the definition that is being read.
    parameters: Vec<Name<'a>>,
    /// The nodes so far of the body or main expression that is being read.
    nodes: Vec<Node<'a>>,
    /// The stack of what waits in this body or main expression, the innermost last. A definition's `Body` can only be the first one.
    frames: Vec<Frame<'a>>,
}

// The functions for what a token does are inlined into the loop over the tokens: a call that isn't inlined would copy the token and what has just
// been read. The functions follow those of specs/Machine.antt, a state machine that is proved to read what the grammar describes.
impl<'a> Reader<'a> {
    /// A reader that has read nothing.
    pub fn new(alloc: Global) -> Reader<'a>
        ensures context { context result ≡ record { definitions = []; parameters = [] } }
        ensures nodes { nodes result ≡ [] }
        ensures stack { stack result ≡ [] }
    {
        Reader {
            alloc,
            definitions: Vec::new(alloc),
            parameters: Vec::new(alloc),
            nodes: Vec::new(alloc),
            frames: Vec::new(alloc),
        }
    }

    /// How many definitions are whole.
    #[tactic(auto, using(crate::proofs::Views::defined_all))]
    pub fn defined(&self) -> usize
        ensures { result ≡ length (context self.now).definitions }
    {
        self.definitions.len()
    }

    // Adds the node of an expression that has ended, from `start` to `end` in bytes of the text, behind the nodes of its parts. Gives the expression
    // as an operand, which is its place in the text. The error is Memory.
    #[inline(always)]
    #[tactic(auto, using(crate::proofs::Views::stacks))]
    fn node(&mut self, part: Part<'a>, start: usize, end: usize) -> Result<Operand, StepError>
        ensures made { Makes result (λ o. (operand o ≡ machine.operand start end) × (nodes self.new ≡ nodes self.old ++ trees.item (part_sort part.entry) (record { start = start; end = end }) ∷ [])) }
        ensures definitions { self.new.definitions.items ≡ self.old.definitions.items }
        ensures parameters { self.new.parameters.items ≡ self.old.parameters.items }
        ensures frames { self.new.frames.items ≡ self.old.frames.items }
    {
        self.nodes.push(Node {
            part,
            span: Span { start, end },
        })?;
        Ok(Operand { start, end })
    }

    // Makes nodes of the operators and `val`s on top of the stack of what waits, as far as they bind at least as tightly as `level`: `last` is the
    // right side of the topmost, and what that makes is the right side of the next. Level 0 leaves no operator and no `val` up to the innermost
    // bracket or heading. Gives the operand that comes out, which is `last` where nothing was joined.
    #[inline(always)]
    fn reduce(&mut self, level: u8, last: Operand) -> Result<Operand, StepError>
        ensures reduced { Makes result (λ o. machine.reduce level (operand last) (nodes self.old) (stack self.old) ≡ machine.reduced (operand o) (nodes self.new) (stack self.new)) }
        ensures definitions { self.new.definitions.items ≡ self.old.definitions.items }
        ensures parameters { self.new.parameters.items ≡ self.old.parameters.items }
    {
        let mut right = last;
        while let Some(top) = self.frames.pop() {
            match top {
                Frame::Before(joining, start) => {
                    if joining.level() < level {
                        // This operator or `val` binds too loosely, so its frame goes back on the stack, into the room that it left.
                        self.frames.push(Frame::Before(joining, start))?;
                        return Ok(right);
                    }
                    // The operator's node is from its left side's start to its right side's end; both sides have their nodes already.
                    right = self.node(joining.part(), start, right.end)?;
                }
                // A bracket or a heading: nothing outside it can be joined to what stands inside.
                other => {
                    self.frames.push(other)?;
                    return Ok(right);
                }
            }
        }
        Ok(right)
    }

    // What has to come behind a whole expression, as the innermost bracket or heading says.
    #[inline(always)]
    fn behind(&self) -> What
        ensures { result ≡ machine.behind (stack self.now) }
    {
        // How many frames are still to be looked at, from the bottom of the stack.
        let mut count = self.frames.len();
        while count > 0 {
            match self.frames[count - 1] {
                // The operator or `val` has its right side now, so what waits outside it decides.
                Frame::Before(_, _) => count -= 1,
                Frame::Bracket(_) => return What::Close,
                Frame::Arguments(_, _) => return What::CommaOrClose,
                // The F of the `val`, or the program that follows the definition.
                Frame::Bound(_, _) => return What::Expression,
                Frame::Body(_) => return What::Expression,
            }
        }
        // The main expression is whole.
        What::End
    }

    // What waits innermost, on top of the stack. None where nothing waits.
    #[inline(always)]
    #[tactic(auto, using(crate::proofs::Views::over_last))]
    fn top(&self) -> Option<Frame<'a>>
        ensures some { IfSome result (λ f. (k : List machine.Frame) × (stack self.now ≡ frame_of f ∷ k)) }
        ensures none { IfNone result (stack self.now ≡ []) }
    {
        let count = self.frames.len();
        if count == 0 {
            None
        } else {
            Some(self.frames[count - 1])
        }
    }

    // May a `val` begin here, where an expression has to begin? Not as the right side of an operator: there it needs brackets.
    #[inline(always)]
    fn takes_val(&self) -> bool
        ensures { result ≡ machine.takes_val (stack self.now) }
    {
        // None means that nothing waits: the main expression begins here.
        let Some(top) = self.top() else {
            return true;
        };
        match top {
            Frame::Before(joining, _) => match joining {
                // This is the right side of an operator.
                Joining::Operator(_) => false,
                // This is the F of a `val`.
                Joining::Val(_) => true,
            },
            // In a bracket, an argument, the G of a `val` or a body.
            Frame::Bracket(_) => true,
            Frame::Arguments(_, _) => true,
            Frame::Bound(_, _) => true,
            Frame::Body(_) => true,
        }
    }

    // Takes a token that has to begin an expression, or a definition where nothing waits. The errors: Wanted where it begins neither, and Memory.
    #[inline(always)]
    #[tactic(auto, using(crate::proofs::Views::stacks))]
    fn begin(&mut self, token: Token<'a>) -> Result<Mode<'a>, StepError>
        ensures { Leaves result self.new (machine.begin (sort token.entry.kind) token.entry.span (context self.old) (nodes self.old) (stack self.old)) }
    {
        let span = token.span;
        match token.kind {
            Kind::Plain(plain) => {
                // A literal or `stop` is a whole operand.
                let operand = self.node(Part::Plain(plain), span.start, span.end)?;
                Ok(Mode::Have(operand))
            }
            // The next token tells whether it is a variable or a call, so it gets no node yet.
            Kind::Name(text) => Ok(Mode::Named(Name { text, span })),
            Kind::Open => {
                // The bracket waits for its `)`, and an expression begins behind it.
                self.frames.push(Frame::Bracket(span.start))?;
                Ok(Mode::Want)
            }
            Kind::Val => self.begin_val(span.start),
            Kind::Def => self.begin_definition(),
            // An operator or its sign, a `)`, a `,` or a `=`.
            _ => Err(StepError::Wanted(What::Expression)),
        }
    }

    // Takes the word `val`, which begins at `start`. The error is Wanted: here a `val` needs brackets.
    #[inline(always)]
    fn begin_val(&self, start: usize) -> Result<Mode<'a>, StepError>
        ensures { (at : Span) → at.start ≡ start → Leaves result self.now (machine.begin tokens.Val at (context self.now) (nodes self.now) (stack self.now)) }
    {
        if self.takes_val() {
            Ok(Mode::Heads(Heading::Val(start)))
        } else {
            Err(StepError::Wanted(What::Expression))
        }
    }

    // Takes the word `def`. Definitions stand before the main expression, where no frame waits on the stack. Inside another expression one does:
    // there the error is Wanted.
    #[inline(always)]
    fn begin_definition(&self) -> Result<Mode<'a>, StepError>
        ensures { Leaves result self.now (if machine.takes_def (stack self.now) then Ok (machine.state (machine.Heads machine.DefWord) (context self.now) (nodes self.now) (stack self.now)) else Err expression) }
    {
        match self.top() {
            // Nothing waits, so a definition may begin.
            None => Ok(Mode::Heads(Heading::Def)),
            Some(_) => Err(StepError::Wanted(What::Expression)),
        }
    }

    // Takes `operator` behind its left side, whose last operand is `left`. First what binds tightly enough to belong to that side is joined. Then the
    // operator waits for its right side. The error is Memory.
    #[inline(always)]
    #[tactic(auto, using(crate::proofs::Views::stacks))]
    fn push(&mut self, operator: Operator<'a>, left: Operand) -> Result<Mode<'a>, StepError>
        ensures { Leaves result self.new (Ok (machine.push (link operator.entry) (context self.old) (machine.reduce (left_level_of (link operator.entry)) (operand left) (nodes self.old) (stack self.old)))) }
    {
        let left = self.reduce(left_level(operator), left)?;
        self.frames
            .push(Frame::Before(Joining::Operator(operator), left.start))?;
        Ok(Mode::Want)
    }

    // Adds the node of a call of `name` that is whole: it has `arguments` arguments, whose nodes are there already, and its closing bracket ends at
    // `end`. The error is Memory.
    #[inline(always)]
    #[tactic(auto, using(crate::proofs::Views::stacks))]
    fn called(
        &mut self,
        name: Name<'a>,
        arguments: usize,
        end: usize,
    ) -> Result<Mode<'a>, StepError>
        ensures { Leaves result self.new (Ok (machine.called (label name.entry) arguments end (context self.old) (nodes self.old) (stack self.old))) }
    {
        let operand = self.node(Part::Call(name, arguments), name.span.start, end)?;
        Ok(Mode::Have(operand))
    }

    // Takes a bracket that closes behind a whole expression, all of whose operators are joined. The bracket ends at `end`. The errors: Wanted where
    // it closes nothing, and Memory.
    #[inline(always)]
    #[tactic(auto, using(crate::proofs::Views::stacks))]
    fn close(&mut self, end: usize) -> Result<Mode<'a>, StepError>
        ensures { Leaves result self.new (machine.close end (context self.old) (nodes self.old) (stack self.old)) }
    {
        // Nothing waits, so this was the main expression, behind which the text has to end.
        let Some(top) = self.frames.pop() else {
            return Err(StepError::Wanted(What::End));
        };
        match top {
            // Not reached: all operators are joined.
            Frame::Before(_, _) => Err(StepError::Wanted(What::End)),
            // Brackets make no node, and only widen the operand.
            Frame::Bracket(start) => Ok(Mode::Have(Operand { start, end })),
            Frame::Arguments(name, before) => match before.checked_add(1) {
                Some(arguments) => self.called(name, arguments, end),
                // Not reached: no text has so many arguments. `Memory` is the error that says nothing of the text.
                None => Err(StepError::Memory),
            },
            // The bracket closes nothing: behind the G of a `val` or a body the next expression has to come.
            Frame::Bound(_, _) | Frame::Body(_) => Err(StepError::Wanted(What::Expression)),
        }
    }

    // Takes a comma behind a whole expression, all of whose operators are joined: another argument has to come. The errors: Wanted where what waits
    // innermost is no call, with what could come instead, and Memory.
    #[inline(always)]
    #[tactic(auto, using(crate::proofs::Views::stacks))]
    fn another(&mut self) -> Result<Mode<'a>, StepError>
        ensures { Leaves result self.new (machine.another (context self.old) (nodes self.old) (stack self.old)) }
    {
        let Some(top) = self.frames.pop() else {
            return Err(StepError::Wanted(What::End));
        };
        match top {
            // Not reached: all operators are joined. Nor is the None below reached: no text has so many arguments.
            Frame::Before(_, _) => Err(StepError::Wanted(What::End)),
            // A bracket that only groups has to be closed here.
            Frame::Bracket(_) => Err(StepError::Wanted(What::Close)),
            Frame::Arguments(name, before) => match before.checked_add(1) {
                Some(arguments) => {
                    self.frames.push(Frame::Arguments(name, arguments))?;
                    Ok(Mode::Want)
                }
                None => Err(StepError::Memory),
            },
            // Behind the G of a `val` or a body the next expression has to come.
            Frame::Bound(_, _) | Frame::Body(_) => Err(StepError::Wanted(What::Expression)),
        }
    }

    // The body of the definition `name` is whole: it becomes a definition with the parameters and nodes so far, and both lists start again. The error
    // is Memory.
    #[tactic(auto, using(crate::proofs::Views::stacks))]
    fn define(&mut self, name: Name<'a>) -> Result<(), StepError>
        ensures defined { IfOk result (λ _. context self.new ≡ machine.defined (label name.entry) (nodes self.old) (context self.old)) }
        ensures nodes { nodes self.new ≡ [] }
        ensures frames { self.new.frames.items ≡ self.old.frames.items }
        ensures memory { IfErr result (λ e. e ≡ Memory) }
    {
        let parameters = mem::replace(&mut self.parameters, Vec::new(self.alloc));
        let nodes = mem::replace(&mut self.nodes, Vec::new(self.alloc));
        let room = nodes.len();
        self.definitions.push(Definition {
            name,
            parameters,
            body: Expr { nodes },
        })?;
        // Bodies are often alike, so the next one gets room for as many nodes at once. What the bodies don't use of this room is, taken together, for
        // no more nodes than they have.
        self.nodes.reserve(room)?;
        Ok(())
    }

    // Takes a token that begins an expression behind a whole expression. That is allowed if the whole one is the G of a `val` or the body of a `def`;
    // otherwise the error says that `wanted` was expected. Another error is Memory.
    #[tactic(auto, using(crate::proofs::Views::stacks))]
    fn follow(&mut self, wanted: What, token: Token<'a>) -> Result<Mode<'a>, StepError>
        ensures { Leaves result self.new (machine.follow wanted (sort token.entry.kind) token.entry.span (context self.old) (nodes self.old) (stack self.old)) }
    {
        let Some(top) = self.frames.pop() else {
            return Err(StepError::Wanted(wanted));
        };
        match top {
            Frame::Bound(name, start) => {
                // The G of the `val` is whole, so the `val` waits for its F, which this token begins.
                self.frames.push(Frame::Before(Joining::Val(name), start))?;
                self.begin(token)
            }
            Frame::Body(name) => {
                // The body is whole, so the definition is. The token begins the next definition or the main expression.
                self.define(name)?;
                self.begin(token)
            }
            Frame::Before(_, _) | Frame::Bracket(_) | Frame::Arguments(_, _) => {
                Err(StepError::Wanted(wanted))
            }
        }
    }

    // Takes a token behind `last`, the operand that was read last. The errors: Wanted where no program goes on with the token, and Memory.
    #[inline(always)]
    fn go_on(&mut self, last: Operand, token: Token<'a>) -> Result<Mode<'a>, StepError>
        ensures { Leaves result self.new (machine.go_on (operand last) (sort token.entry.kind) token.entry.span (context self.old) (nodes self.old) (stack self.old)) }
    {
        match token.kind {
            // An operator without a variable.
            Kind::Joint(joint) => self.push(operator_of(joint), last),
            // The first sign of `>x>` or `<x<`.
            Kind::Arrow(side) => Ok(Mode::Signed(side, last)),
            Kind::Close => {
                // The operand that `reduce` gives isn't needed, here and below: a bracket, a call and a `val` have a place of their own, and a
                // definition needs none.
                self.reduce(0, last)?;
                self.close(token.span.end)
            }
            Kind::Comma => {
                self.reduce(0, last)?;
                self.another()
            }
            // No expression goes on with a `=`.
            Kind::Assign => Err(StepError::Wanted(self.behind())),
            Kind::Name(_) | Kind::Plain(_) | Kind::Open | Kind::Def | Kind::Val => {
                // Asked first, since `follow` takes the innermost bracket or heading off the stack.
                let wanted = self.behind();
                self.reduce(0, last)?;
                self.follow(wanted, token)
            }
        }
    }

    // Adds the node of a name that is no call. The error is Memory.
    #[inline(always)]
    #[tactic(auto, using(crate::proofs::Views::stacks))]
    fn variable(&mut self, name: Name<'a>) -> Result<Operand, StepError>
        ensures made { Makes result (λ o. (operand o ≡ machine.place name.entry.span) × (nodes self.new ≡ nodes self.old ++ machine.variable_of (label name.entry) ∷ [])) }
        ensures definitions { self.new.definitions.items ≡ self.old.definitions.items }
        ensures parameters { self.new.parameters.items ≡ self.old.parameters.items }
        ensures frames { self.new.frames.items ≡ self.old.frames.items }
    {
        self.node(Part::Variable(name), name.span.start, name.span.end)
    }

    // Takes a token behind a name: a bracket makes the name a call, any other token makes it a variable. The errors: Wanted where no program goes on
    // with the token, and Memory.
    #[inline(always)]
    #[tactic(auto, using(crate::proofs::Views::stacks))]
    fn behind_name(&mut self, name: Name<'a>, token: Token<'a>) -> Result<Mode<'a>, StepError>
        ensures { Leaves result self.new (machine.behind_name (label name.entry) (sort token.entry.kind) token.entry.span (context self.old) (nodes self.old) (stack self.old)) }
    {
        match token.kind {
            Kind::Open => {
                // A call begins, with no argument before the one that comes.
                self.frames.push(Frame::Arguments(name, 0))?;
                Ok(Mode::First)
            }
            _ => {
                let variable = self.variable(name)?;
                self.go_on(variable, token)
            }
        }
    }

    // Closes the call on top of the stack of what waits, which has no arguments, with a `)` that ends at byte `end` of the text. The error is Memory.
    #[inline(always)]
    #[tactic(auto, using(crate::proofs::Views::stacks))]
    fn close_first(&mut self, end: usize) -> Result<Mode<'a>, StepError>
        ensures { (at : Span) → at.end ≡ end → Leaves result self.new (machine.first tokens.Close at (context self.old) (nodes self.old) (stack self.old)) }
    {
        // Neither this error nor the one below comes: `Mode::First` stands directly behind the bracket of a call.
        let Some(top) = self.frames.pop() else {
            return Err(StepError::Wanted(What::Expression));
        };
        match top {
            Frame::Arguments(name, before) => self.called(name, before, end),
            Frame::Before(_, _) | Frame::Bracket(_) | Frame::Bound(_, _) | Frame::Body(_) => {
                Err(StepError::Wanted(What::Expression))
            }
        }
    }

    // Takes a token behind the opening bracket of a call: it closes the call, or begins its first argument. The errors: Wanted where it does neither,
    // and Memory.
    #[inline(always)]
    fn first(&mut self, token: Token<'a>) -> Result<Mode<'a>, StepError>
        ensures { Leaves result self.new (machine.first (sort token.entry.kind) token.entry.span (context self.old) (nodes self.old) (stack self.old)) }
    {
        match token.kind {
            Kind::Close => self.close_first(token.span.end),
            _ => self.begin(token),
        }
    }

    // Takes a token behind the first sign of `>x>` or `<x<`: it has to be the variable, or else the error is Wanted. `last` is the operand left of
    // that sign.
    #[inline(always)]
    fn bind(&self, side: Side, last: Operand, token: Token<'a>) -> Result<Mode<'a>, StepError>
        ensures { Leaves result self.now (machine.bind side (operand last) (sort token.entry.kind) token.entry.span (context self.now) (nodes self.now) (stack self.now)) }
    {
        match token.kind {
            Kind::Name(text) => Ok(Mode::Variable(
                side,
                last,
                Name {
                    text,
                    span: token.span,
                },
            )),
            _ => Err(StepError::Wanted(What::Name)),
        }
    }

    // Takes a token behind the variable of `>x>` or `<x<`: it has to be the first sign again. `last` is the operand left of the operator. The errors:
    // Wanted where it is any other token, and Memory.
    #[inline(always)]
    fn second(
        &mut self,
        side: Side,
        last: Operand,
        variable: Name<'a>,
        token: Token<'a>,
    ) -> Result<Mode<'a>, StepError>
        ensures { Leaves result self.new (machine.second side (operand last) (label variable.entry) (sort token.entry.kind) (context self.old) (nodes self.old) (stack self.old)) }
    {
        match token.kind {
            Kind::Arrow(other) => {
                // `>x>` has two `>`, and `<x<` two `<`.
                if side == other {
                    self.push(operator_by(side, variable), last)
                } else {
                    Err(StepError::Wanted(What::Arrow))
                }
            }
            _ => Err(StepError::Wanted(What::Arrow)),
        }
    }

    // Adds `parameter` to the parameters of the definition that is being read, whose name is `definition`. The error is Memory.
    #[inline(always)]
    #[tactic(auto, using(crate::proofs::Views::stacks))]
    fn parameter(
        &mut self,
        definition: Name<'a>,
        parameter: Name<'a>,
    ) -> Result<Mode<'a>, StepError>
        ensures { Leaves result self.new (Ok (machine.state (machine.Heads (machine.Parameter (label definition.entry))) (machine.with_parameter (label parameter.entry) (context self.old)) (nodes self.old) (stack self.old))) }
    {
        self.parameters.push(parameter)?;
        Ok(Mode::Heads(Heading::Parameter(definition)))
    }

    // Pushes a `val x =` or `def f(a, b) =` that is whole, as this frame: it waits for the expression behind its `=`. The error is Memory.
    #[inline(always)]
    #[tactic(auto, using(crate::proofs::Views::stacks))]
    fn open_frame(&mut self, frame: Frame<'a>) -> Result<Mode<'a>, StepError>
        ensures { Leaves result self.new (Ok (machine.state machine.Want (context self.old) (nodes self.old) (frame_of frame.entry ∷ stack self.old))) }
    {
        self.frames.push(frame)?;
        Ok(Mode::Want)
    }

    // Takes one more token of a `val x =` or `def f(a, b) =`, of which `head` has come. Each `_` is a token that doesn't come at this point of the
    // heading: the error is Wanted then.
    #[inline(always)]
    fn head(&mut self, head: Heading<'a>, token: Token<'a>) -> Result<Mode<'a>, StepError>
        ensures { Leaves result self.new (machine.head (heading head.entry) (sort token.entry.kind) token.entry.span (context self.old) (nodes self.old) (stack self.old)) }
    {
        match token.kind {
            Kind::Name(text) => self.head_name(
                head,
                Name {
                    text,
                    span: token.span,
                },
            ),
            Kind::Open => match head {
                Heading::DefName(name) => Ok(Mode::Heads(Heading::Opened(name))),
                _ => Err(StepError::Wanted(heading_wants(head))),
            },
            Kind::Comma => match head {
                Heading::Parameter(name) => Ok(Mode::Heads(Heading::Comma(name))),
                _ => Err(StepError::Wanted(heading_wants(head))),
            },
            Kind::Close => match head {
                Heading::Opened(name) | Heading::Parameter(name) => {
                    Ok(Mode::Heads(Heading::Closed(name)))
                }
                _ => Err(StepError::Wanted(heading_wants(head))),
            },
            Kind::Assign => match head {
                Heading::ValName(start, name) => self.open_frame(Frame::Bound(name, start)),
                Heading::Closed(name) => self.open_frame(Frame::Body(name)),
                _ => Err(StepError::Wanted(heading_wants(head))),
            },
            _ => Err(StepError::Wanted(heading_wants(head))),
        }
    }

    // Takes a name in a `val x =` or `def f(a, b) =`, of which `head` has come. The errors: Wanted where the heading has its name, its parameter or
    // its `)` already, and Memory.
    #[inline(always)]
    fn head_name(&mut self, head: Heading<'a>, name: Name<'a>) -> Result<Mode<'a>, StepError>
        ensures { Leaves result self.new (machine.head (heading head.entry) (tokens.Word name.entry.text.now) name.entry.span (context self.old) (nodes self.old) (stack self.old)) }
    {
        match head {
            Heading::Val(start) => Ok(Mode::Heads(Heading::ValName(start, name))),
            Heading::Def => Ok(Mode::Heads(Heading::DefName(name))),
            Heading::Opened(definition) | Heading::Comma(definition) => {
                self.parameter(definition, name)
            }
            _ => Err(StepError::Wanted(heading_wants(head))),
        }
    }

    /// Takes one more token and gives the mode after it. `last` is the mode before it: `Mode::Want` for the first token, and otherwise what this
    /// function gave for the token before.
    ///
    /// The error is `Wanted`, with what was expected, if no program goes on with this token, and `Memory` if memory was refused.
    #[inline(always)]
    pub fn advance(&mut self, last: Mode<'a>, token: Token<'a>) -> Result<Mode<'a>, StepError>
        ensures { Leaves result self.new (machine.advance (mode last.entry) (sort token.entry.kind) token.entry.span (context self.old) (nodes self.old) (stack self.old)) }
    {
        match last {
            Mode::Want => self.begin(token),
            Mode::First => self.first(token),
            Mode::Named(name) => self.behind_name(name, token),
            Mode::Have(operand) => self.go_on(operand, token),
            Mode::Signed(side, operand) => self.bind(side, operand, token),
            Mode::Variable(side, operand, name) => self.second(side, operand, name, token),
            Mode::Heads(heading) => self.head(heading, token),
        }
    }

    // The program, where the text ends behind the operand `last`. The errors: Wanted where a bracket, the G of a `val` or a body still waits then,
    // and Memory.
    fn whole(mut self, last: Operand) -> Result<Ast<'a>, StepError>
        ensures { Ends result (machine.whole (context self.entry) (machine.reduce 0 (operand last) (nodes self.entry) (stack self.entry))) }
    {
        self.reduce(0, last)?;
        match self.top() {
            // Nothing waits: the nodes are those of the main expression.
            None => Ok(Ast {
                definitions: self.definitions,
                main: Expr { nodes: self.nodes },
            }),
            Some(_) => Err(StepError::Wanted(self.behind())),
        }
    }

    /// The program, where the text ends. `last` is the mode that `advance` gave for the last token, or `Mode::Want` where there is no token.
    ///
    /// `Wanted` where that is no whole program, with what had to come; `Memory` where memory was refused.
    pub fn finish(mut self, last: Mode<'a>) -> Result<Ast<'a>, StepError>
        ensures { Ends result (machine.finish (machine.state (mode last.entry) (context self.entry) (nodes self.entry) (stack self.entry))) }
    {
        match last {
            // An operator, a bracket, a comma or a heading has nothing behind it, or the text is empty.
            Mode::Want | Mode::First => Err(StepError::Wanted(What::Expression)),
            Mode::Named(name) => {
                let variable = self.variable(name)?;
                self.whole(variable)
            }
            Mode::Have(operand) => self.whole(operand),
            Mode::Signed(_, _) => Err(StepError::Wanted(What::Name)),
            Mode::Variable(_, _, _) => Err(StepError::Wanted(What::Arrow)),
            Mode::Heads(heading) => Err(StepError::Wanted(heading_wants(heading))),
        }
    }
}
