//! Prints programs in their plain form.
//!
//! The nodes of an expression stand in postorder, so the whole comes last. They are printed from the last one to the first, each with the text on
//! its right side before that on its left: a stack of tasks says what is still to be printed, and the pieces of text are gathered from right to
//! left, and appended in the opposite order at the end.

ghost use Rattle.std.specs.Prelude.{◌≡◌, ◌∷◌, ◌++◌, [], ℕ, List, map, reverse, codes, IfOk, OnOk, OnErr};
ghost use Rattle.std.specs.Fmt.{signed_decimal};
ghost use Rattle.orc_syntax.specs.Tree.{Tree, Source, Define, operation, val, call};
ghost use Rattle.orc_syntax.specs.Ast.{IsExpr, IsAst, AreDefinitions, sort, item, label, link};
ghost use Rattle.orc_syntax.specs.Printing.{plain_text, printed, definition, definitions, names, other_names, text};
ghost use Rattle.orc_syntax.specs.Grammar.{level, left_level, right_level};
ghost use Rattle.orc_syntax.specs.Text.{SpellsText};
ghost use Rattle.orc_syntax.specs.Same.{IsSame, AppendsSame};
ghost use Rattle.orc_syntax.specs.Backward.{parts, given, more, signs, opening, closing, back, says, visits, waiting, said, piece_text, visit, say, IfNext, OnNone};

use crate::tree::{Ast, Definition, Name, Node, Operator, Part};
use orc_lex::token::Plain;
use std::alloc::{AllocError, Global};

// In contracts `waiting` is the stack of tasks with the next one first, `said` is the text of pieces, and `OnOk` asks for nothing after an error.
// Other words, such as `parts`, are those of specs/Backward.antt: the stack that a function here leaves, from the one that it finds.

/// A piece of the printed text: bytes as they stand, or a number in decimal.
#[derive(Clone, Copy)]
pub enum Piece<'a> {
    Text(&'a [u8]),
    Number(i64),
}

/// What is still to be printed.
#[derive(Clone, Copy)]
pub enum Task<'a> {
    /// The expression of the next node, which gets brackets where it binds more loosely than this level: 0 for any expression, else that which an
    /// operator asks of its side, as in `Levels`.
    Visit(usize),
    /// This piece.
    Say(Piece<'a>),
}

/// What is still to be printed of an expression, and what is printed already.
#[derive(Drop)]
pub struct Printer<'a> {
    /// A stack, the next task last. Its tasks stand in the order of the text: what is printed next stands furthest to the right.
    pub tasks: Vec<Task<'a>>,
    /// The last piece of the text first.
    pub pieces: Vec<Piece<'a>>,
}

// The one piece of a literal or of `stop`.
fn plain_piece(plain: Plain) -> Piece<'static>
    ensures { piece_text result ≡ plain_text plain }
{
    match plain {
        Plain::Number(n) => Piece::Number(n),
        Plain::Truth(true) => Piece::Text(b"true"),
        Plain::Truth(false) => Piece::Text(b"false"),
        Plain::Signal => Piece::Text(b"signal"),
        Plain::Stop => Piece::Text(b"stop"),
    }
}

/// How tightly an operator binds, and how tightly its left and its right side have to: from 1, the loosest, to 4; 5 where only an operand without
/// an operator will do. A `val` has level 0.
#[derive(Clone, Copy)]
struct Levels {
    own: usize,
    left: usize,
    right: usize,
}

// The levels of the grammar: `>x>` groups to the right and asks more of its left side, the others group to the left and ask more of their right one.
fn levels_of(operator: Operator) -> Levels
    ensures own { result.own ≡ level (link operator.entry) }
    ensures left { result.left ≡ left_level (link operator.entry) }
    ensures right { result.right ≡ right_level (link operator.entry) }
{
    match operator {
        Operator::Other => Levels {
            own: 1,
            left: 1,
            right: 2,
        },
        Operator::Prune(_) => Levels {
            own: 2,
            left: 2,
            right: 3,
        },
        Operator::Par => Levels {
            own: 3,
            left: 3,
            right: 4,
        },
        Operator::Seq(_) => Levels {
            own: 4,
            left: 5,
            right: 4,
        },
    }
}

// Most functions push the tasks of one form in the order of its text, so that the next task is the rightmost. Each error is refused memory.
impl<'a> Printer<'a> {
    // Pushes a text on the stack of tasks. It is then printed next, to the left of all that has been printed.
    fn say(&mut self, text: &'a [u8]) -> Result<(), AllocError>
        ensures tasks { OnOk result (waiting self.new.tasks.items ≡ say text.now ∷ waiting self.old.tasks.items) }
        ensures pieces { self.new.pieces ≡ self.old.pieces }
    {
        self.tasks.push(Task::Say(Piece::Text(text)))?;
        Ok(())
    }

    // Pushes the task to print the expression of the next node, with brackets where it binds more loosely than `level` (0: never). It is then printed
    // next.
    fn visit(&mut self, level: usize) -> Result<(), AllocError>
        ensures tasks { OnOk result (waiting self.new.tasks.items ≡ visit level ∷ waiting self.old.tasks.items) }
        ensures pieces { self.new.pieces ≡ self.old.pieces }
    {
        self.tasks.push(Task::Visit(level))?;
        Ok(())
    }

    // Pushes the tasks of `count` arguments, which stand behind the first one, each after a comma. Level 0: an argument gets no brackets.
    fn others(&mut self, count: usize) -> Result<(), AllocError>
        ensures tasks { OnOk result (waiting self.new.tasks.items ≡ more count (waiting self.old.tasks.items)) }
        ensures pieces { self.new.pieces ≡ self.old.pieces }
    {
        for _done in 0..count {
            self.say(b", ")?;
            self.visit(0)?;
        }
        Ok(())
    }

    // Pushes the tasks of all `count` arguments of a call, with commas between them. Level 0: an argument gets no brackets.
    fn arguments(&mut self, count: usize) -> Result<(), AllocError>
        ensures tasks { OnOk result (waiting self.new.tasks.items ≡ given count (waiting self.old.tasks.items)) }
        ensures pieces { self.new.pieces ≡ self.old.pieces }
    {
        if count == 0 {
            return Ok(());
        }
        self.visit(0)?;
        self.others(count - 1)
    }

    // Pushes the texts of an operator with a variable, `>x>` or `<x<`: the sign `before`, the name, and the sign `behind`.
    fn arrow(
        &mut self,
        before: &'a [u8],
        name: Name<'a>,
        behind: &'a [u8],
    ) -> Result<(), AllocError>
        ensures tasks { OnOk result (waiting self.new.tasks.items ≡ say behind.now ∷ say name.entry.text.now ∷ say before.now ∷ waiting self.old.tasks.items) }
        ensures pieces { self.new.pieces ≡ self.old.pieces }
    {
        self.say(before)?;
        self.say(name.text)?;
        self.say(behind)
    }

    // Pushes the signs of an operator, with a space on each side.
    fn sign(&mut self, operator: Operator<'a>) -> Result<(), AllocError>
        ensures tasks { OnOk result (waiting self.new.tasks.items ≡ signs (link operator.entry) (waiting self.old.tasks.items)) }
        ensures pieces { self.new.pieces ≡ self.old.pieces }
    {
        match operator {
            Operator::Other => self.say(b" ; "),
            Operator::Par => self.say(b" | "),
            Operator::Seq(None) => self.say(b" >> "),
            Operator::Prune(None) => self.say(b" << "),
            Operator::Seq(Some(name)) => self.arrow(b" >", name, b"> "),
            Operator::Prune(Some(name)) => self.arrow(b" <", name, b"< "),
        }
    }

    // Pushes an opening bracket if `inner`, which says that the form stands inside brackets.
    fn opening(&mut self, inner: bool) -> Result<(), AllocError>
        ensures tasks { OnOk result (waiting self.new.tasks.items ≡ opening inner (waiting self.old.tasks.items)) }
        ensures pieces { self.new.pieces ≡ self.old.pieces }
    {
        if inner { self.say(b"(") } else { Ok(()) }
    }

    // Pushes a closing bracket if `inner`, which says that the form stands inside brackets.
    fn closing(&mut self, inner: bool) -> Result<(), AllocError>
        ensures tasks { OnOk result (waiting self.new.tasks.items ≡ closing inner (waiting self.old.tasks.items)) }
        ensures pieces { self.new.pieces ≡ self.old.pieces }
    {
        if inner { self.say(b")") } else { Ok(()) }
    }

    // Pushes an operator with its sides, in brackets where it binds more loosely than the level `wanted`.
    fn operation(&mut self, operator: Operator<'a>, wanted: usize) -> Result<(), AllocError>
        ensures tasks { OnOk result (waiting self.new.tasks.items ≡ parts wanted (operation (link operator.entry)) (waiting self.old.tasks.items)) }
        ensures pieces { self.new.pieces ≡ self.old.pieces }
    {
        let levels = levels_of(operator);
        // Whether the operator binds too loosely for its place, so that it needs brackets.
        let inner = levels.own < wanted;
        self.opening(inner)?;
        self.visit(levels.left)?;
        self.sign(operator)?;
        self.visit(levels.right)?;
        self.closing(inner)
    }

    // Pushes `val x = (G) F`, where x is `name`, in brackets unless any expression will do (`wanted` is 0). Its G always is in brackets of its own:
    // without them a G that ends in a name and an F that begins with a bracket would be read as a call.
    fn val(&mut self, name: Name<'a>, wanted: usize) -> Result<(), AllocError>
        ensures tasks { OnOk result (waiting self.new.tasks.items ≡ parts wanted (val (label name.entry)) (waiting self.old.tasks.items)) }
        ensures pieces { self.new.pieces ≡ self.old.pieces }
    {
        // A `val` binds the most loosely, so it needs brackets wherever not any expression will do.
        let inner = 0 < wanted;
        self.opening(inner)?;
        self.say(b"val ")?;
        self.say(name.text)?;
        self.say(b" = (")?;
        self.visit(0)?;
        self.say(b") ")?;
        self.visit(0)?;
        self.closing(inner)
    }

    // Pushes a call of `name` with `count` arguments.
    fn call(&mut self, name: Name<'a>, count: usize) -> Result<(), AllocError>
        ensures tasks { (n : ℕ) → OnOk result (waiting self.new.tasks.items ≡ parts n (call (label name.entry) count) (waiting self.old.tasks.items)) }
        ensures pieces { self.new.pieces ≡ self.old.pieces }
    {
        self.say(name.text)?;
        self.say(b"(")?;
        self.arguments(count)?;
        self.say(b")")
    }

    // Pushes the tasks that print a node, in whose place the level `wanted` is asked for: its own text, and a `Visit` for each of its parts.
    fn parts(&mut self, part: Part<'a>, wanted: usize) -> Result<(), AllocError>
        ensures tasks { OnOk result (waiting self.new.tasks.items ≡ parts wanted (sort part.entry) (waiting self.old.tasks.items)) }
        ensures pieces { self.new.pieces ≡ self.old.pieces }
    {
        match part {
            Part::Plain(plain) => {
                // A literal or `stop` has no parts, and needs no brackets.
                self.tasks.push(Task::Say(plain_piece(plain)))?;
                Ok(())
            }
            Part::Variable(name) => self.say(name.text),
            Part::Call(name, count) => self.call(name, count),
            Part::Operation(operator) => self.operation(operator, wanted),
            Part::Val(name) => self.val(name, wanted),
        }
    }

    // Prints the pieces that are due before the next expression, and takes that expression from the stack: the level that is wanted of it. None where
    // no expression is left.
    fn next(&mut self) -> Result<Option<usize>, AllocError>
        ensures some { IfOk result (IfNext (λ n. visits (waiting self.old.tasks.items) ≡ visit n ∷ waiting self.new.tasks.items)) }
        ensures none { IfOk result (OnNone (visits (waiting self.old.tasks.items) ≡ [])) }
        ensures pieces { OnOk result (said self.new.pieces.items ≡ says (waiting self.old.tasks.items) ++ said self.old.pieces.items) }
    {
        while let Some(task) = self.tasks.pop() {
            match task {
                Task::Visit(level) => return Ok(Some(level)),
                Task::Say(piece) => self.pieces.push(piece)?,
            }
        }
        Ok(None)
    }

    // Prints all tasks, whose expressions have these nodes: the next expression's node is the last one that is left.
    fn print(&mut self, nodes: &[Node<'a>]) -> Result<(), AllocError>
        ensures { OnOk result (said self.new.pieces.items ≡ back (waiting self.old.tasks.items) (reverse (map item nodes.now)) ++ said self.old.pieces.items) }
    {
        // How many nodes are still to be printed, from the front.
        let mut count = nodes.len();
        while count > 0 {
            let Some(level) = self.next()? else {
                // Not reached with the nodes of a tree: each has a task.
                return Ok(());
            };
            count -= 1;
            self.parts(nodes[count].part, level)?;
        }
        // No expression is left. The pieces that are left stand at the front of the text.
        self.next()?;
        Ok(())
    }
}

// Appends a number in decimal to `out`. The error is refused memory, here and in the functions that follow.
fn push_number(out: &mut Vec<u8>, number: i64) -> Result<(), AllocError>
    ensures { OnOk result (out.new.items ≡ out.old.items ++ signed_decimal number) }
{
    let mut buffer = itoa::Buffer::new();
    out.extend_from_slice(buffer.format(number).as_bytes())
}

// Appends the text of a piece.
fn push_piece(out: &mut Vec<u8>, piece: Piece) -> Result<(), AllocError>
    ensures { OnOk result (out.new.items ≡ out.old.items ++ piece_text piece.entry) }
{
    match piece {
        Piece::Text(text) => out.extend_from_slice(text),
        Piece::Number(number) => push_number(out, number),
    }
}

// Appends the texts of pieces, the last one first: so they come out from left to right.
fn push_pieces(out: &mut Vec<u8>, pieces: &[Piece]) -> Result<(), AllocError>
    ensures { OnOk result (out.new.items ≡ out.old.items ++ said pieces.now) }
{
    // How many pieces are still to be appended, from the front.
    let mut count = pieces.len();
    while count > 0 {
        count -= 1;
        push_piece(out, pieces[count])?;
    }
    Ok(())
}

// Appends the text of an expression, which has these nodes.
fn print_expression(alloc: Global, nodes: &[Node], out: &mut Vec<u8>) -> Result<(), AllocError>
    ensures { (t : Tree) → IsExpr nodes.now t → OnOk result (out.new.items ≡ out.old.items ++ text 0 t) }
{
    let mut printer = Printer {
        tasks: Vec::new(alloc),
        pieces: Vec::new(alloc),
    };
    // Level 0: the whole expression gets no brackets.
    printer.visit(0)?;
    printer.print(nodes)?;
    push_pieces(out, &printer.pieces)
}

// Appends the names that stand behind the first one, each after a comma.
fn print_other_names(xs: &[Name], out: &mut Vec<u8>) -> Result<(), AllocError>
    ensures { OnOk result (out.new.items ≡ out.old.items ++ other_names (map label xs.now)) }
{
    for x in xs {
        out.extend_from_slice(b", ")?;
        out.extend_from_slice(x.text)?;
    }
    Ok(())
}

// Appends names with commas between them.
fn print_names(xs: &[Name], out: &mut Vec<u8>) -> Result<(), AllocError>
    ensures { OnOk result (out.new.items ≡ out.old.items ++ names (map label xs.now)) }
{
    match xs {
        [] => Ok(()),
        [x, others @ ..] => {
            out.extend_from_slice(x.text)?;
            print_other_names(others, out)
        }
    }
}

// Appends a definition's line. Its body always is in brackets: without them one that ends in a name and a next line that begins with a bracket would
// be read as a call.
fn print_definition(alloc: Global, d: &Definition, out: &mut Vec<u8>) -> Result<(), AllocError>
    ensures { (t : Tree) → IsExpr d.now.body.nodes.items t → OnOk result (out.new.items ≡ out.old.items ++ definition (record { name = label d.now.name; parameters = map label d.now.parameters.items; body = t })) }
{
    out.extend_from_slice(b"def ")?;
    out.extend_from_slice(d.name.text)?;
    out.push(b'(')?;
    print_names(&d.parameters, out)?;
    out.extend_from_slice(b") = (")?;
    print_expression(alloc, &d.body.nodes, out)?;
    out.extend_from_slice(b")\n")?;
    Ok(())
}

// Appends a line for each definition.
fn print_definitions(alloc: Global, ds: &[Definition], out: &mut Vec<u8>) -> Result<(), AllocError>
    ensures { (es : List Define) → AreDefinitions ds.now es → OnOk result (out.new.items ≡ out.old.items ++ definitions es) }
{
    for d in ds {
        print_definition(alloc, d, out)?;
    }
    Ok(())
}

// Appends the text of a program. After refused memory a part of it may stand in `out`.
fn print_text(alloc: Global, ast: &Ast, out: &mut Vec<u8>) -> Result<(), AllocError>
    ensures { (s : Source) → IsAst ast.now s → OnOk result (out.new.items ≡ out.old.items ++ printed s) }
{
    print_definitions(alloc, &ast.definitions, out)?;
    print_expression(alloc, &ast.main.nodes, out)?;
    out.push(b'\n')?;
    Ok(())
}

/// Appends the text of a program: a line for each definition, and the main expression in a line.
///
/// The side of an operator is in brackets exactly where its place wants a tighter form; the body of a definition and the G of a `val` always are.
/// The text spells the same program, with other places; where it is over the limit of a source or its brackets are too deep, `parse` refuses it.
/// The error is refused memory, and then nothing is appended.
pub fn print(alloc: Global, ast: &Ast, out: &mut Vec<u8>) -> Result<(), AllocError>
    ensures printed { (s : Source) → IsAst ast.now s → OnOk result (out.new.items ≡ out.old.items ++ printed s) }
    // The program of a text is spelled again.
    ensures same { (src : List ℕ) (s : Source) → IsAst ast.now s → SpellsText src s → OnOk result (AppendsSame out.old.items out.new.items s) }
    ensures refused { OnErr result (out.new.items ≡ out.old.items) }
{
    // The text is made in a buffer of its own, so that memory refused halfway leaves `out` as it was.
    let mut text = Vec::new(alloc);
    print_text(alloc, ast, &mut text)?;
    out.extend_from_slice(&text)
}

/// A law; the function does nothing. If the printed text of a program spells a program, it is the same one, except for the places of its parts.
pub fn printed_again()
    ensures { (src : List ℕ) (s t : Source) → SpellsText src s → SpellsText (printed s) t → IsSame t s }
{}
