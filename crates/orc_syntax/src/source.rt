//! From bytes to a program: the lexer's tokens, the reader that takes them, the count of depths, and which of several faults is given.

ghost use Rattle.std.specs.Prelude.{◌≡◌, ℕ, List, length, nat_lt, IfOk};
ghost use Rattle.std.specs.Str.{IsUtf8};
ghost use Rattle.orc_lex.specs.Tokens.{sort};
ghost use Rattle.orc_syntax.specs.Tree.{Source};
ghost use Rattle.orc_syntax.specs.Ast.{IsAst};
ghost use Rattle.orc_syntax.specs.Machine as machine;
ghost use Rattle.orc_syntax.specs.Nested.{IsAllNested};
ghost use Rattle.orc_syntax.specs.View.{mode, context, nodes, stack, count_of, fault_by, Takes};
ghost use Rattle.orc_syntax.specs.Text.{SpellsText, SpellsTokens, BeginsText, IsFault, IfFault, IsLimit, IsShallow, IsShallowBefore, Answers, fault_at, place, first_of, IsNoLater};
ghost use Rattle.orc_syntax.specs.declared.fault.SyntaxFault.{SyntaxFault};

use crate::depth::Depth;
use crate::fault::SyntaxFault;
use crate::reader::{Mode, Reader, StepError};
use crate::tree::Ast;
use orc_lex::lexer::{Piece, piece_at};
use orc_lex::token::{Span, Token, Unread};
use orc_rules::limits::LONGEST_SOURCE;
use std::alloc::Global;

// In contracts `SpellsText src s` says that a text spells the program s, `IsAst ast s` that a tree is that of s, `IsShallow src` that nothing in the
// text is too deep, and `IsFault src f` that f is wrong with it.

// The fault where no token can be read at the byte `at` of the text, from 0, and `why` says why not.
fn unread_fault(why: Unread, at: usize) -> SyntaxFault
    ensures { result ≡ fault_at why at }
{
    match why {
        Unread::Character => SyntaxFault::Character(at),
        Unread::Number(end) => SyntaxFault::Number(Span { start: at, end }),
        Unread::Comment => SyntaxFault::Comment(at),
    }
}

// The fault where the reader refuses, with `error`, the token that begins at the byte `at` of the text, from 0, or the text's end there.
fn refused(error: StepError, at: usize) -> SyntaxFault
    ensures { result ≡ fault_by error at }
{
    match error {
        StepError::Memory => SyntaxFault::Memory,
        StepError::Wanted(what) => SyntaxFault::Expected(at, what),
        StepError::Deep => SyntaxFault::Deep(at),
    }
}

// Does the fault stand before the byte `at` of the text? A fault without a place of its own (too long a text, refused memory) counts as standing at
// 0.
fn comes_before(fault: SyntaxFault, at: usize) -> bool
    ensures { result ≡ nat_lt (place fault) at }
{
    match fault {
        SyntaxFault::Long | SyntaxFault::Memory => 0 < at,
        SyntaxFault::Encoding(place) => place < at,
        SyntaxFault::Character(place) => place < at,
        SyntaxFault::Number(span) => span.start < at,
        SyntaxFault::Expected(place, _) => place < at,
        SyntaxFault::Deep(place) => place < at,
        SyntaxFault::Comment(place) => place < at,
    }
}

// Lets the reader take a token, and then counts it for the limits on brackets, `val`s and operators. `last` is what the reader said of the token
// before (its mode); the answer is the mode after this token. A token that doesn't fit is reported as such (S4), even if it is also too deep (S5).
#[inline(always)]
fn take<'a>(
    reader: &mut Reader<'a>,
    depth: &mut Depth,
    last: Mode<'a>,
    token: Token<'a>,
) -> Result<Mode<'a>, StepError>
    ensures { Takes result reader.new (count_of depth.new) (context reader.old) (count_of depth.old) (sort token.entry.kind) (machine.advance (mode last.entry) (sort token.entry.kind) token.entry.span (context reader.old) (nodes reader.old) (stack reader.old)) }
{
    // The reader completes a definition when it takes the first token after it. That token is the next part's, so the count starts again before it.
    let defined = reader.defined();
    // The reader's mode after the token: what it has just read.
    let mode = reader.advance(last, token)?;
    depth.begin_part(defined, reader.defined());
    match depth.count(token.kind) {
        Ok(()) => Ok(mode),
        Err(error) => Err(error),
    }
}

// The program that the tokens of a text spell. The function doesn't ask for UTF-8: outside comments a byte that isn't ASCII is refused anyhow (S2).
fn read_text<'a>(alloc: Global, src: &'a [u8]) -> Result<Ast<'a>, SyntaxFault>
    ensures found { IfOk result (λ ast. ((s : Source) × IsAst ast s × SpellsTokens src.now s) × IsShallow src.now) }
    // All tokens before a fault begin a program, and none is too deep.
    ensures fault { IfFault result (λ f. IsFault src.now f × BeginsText src.now (place f) × IsShallowBefore src.now (place f)) }
{
    let mut reader = Reader::new(alloc);
    let mut depth = Depth::new(alloc);
    // What was read last; at the text's start an expression or definition has to begin.
    let mut mode = Mode::Want;
    let mut at = 0;
    while at < src.len() {
        match piece_at(src, at) {
            // A blank or a comment, which ends at `end`.
            Piece::Gap(end) => at = end,
            Piece::Token(token) => {
                match take(&mut reader, &mut depth, mode, token) {
                    Ok(next) => mode = next,
                    // The token doesn't fit or is too deep, or memory was refused.
                    Err(error) => return Err(refused(error, at)),
                }
                at = token.span.end;
            }
            Piece::Unread(why) => return Err(unread_fault(why, at)),
        }
    }
    // The whole text was read, so a fault stands at its end.
    match reader.finish(mode) {
        Ok(ast) => Ok(ast),
        Err(error) => Err(refused(error, at)),
    }
}

// The fault of a text that stops being UTF-8 at the byte `at`. `read` is what reading the tokens gave. The answer is the fault of `read` if that
// stands before `at`, and otherwise `Encoding`.
fn first_fault(read: Result<Ast<'_>, SyntaxFault>, at: usize) -> SyntaxFault
    ensures { result ≡ first_of read.entry at }
{
    match read {
        Ok(_) => SyntaxFault::Encoding(at),
        Err(fault) => {
            if comes_before(fault, at) {
                fault
            } else {
                SyntaxFault::Encoding(at)
            }
        }
    }
}

/// Reads the program that a text spells, with places in bytes from 0. The text stays borrowed: the tree's names are slices of it.
///
/// A text over `LONGEST_SOURCE` bytes is refused before anything else (S6). Otherwise the fault of the least place is answered, and at one
/// place the one with the lower number, S1 to S7; each is explained at `SyntaxFault`. `Memory` (S8), where memory was refused, says nothing of
/// the text.
pub fn parse<'a>(alloc: Global, src: &'a [u8]) -> Result<Ast<'a>, SyntaxFault>
    // What is answered is what the text spells.
    ensures found { IfOk result (λ ast. (s : Source) × IsAst ast s × SpellsText src.now s) }
    // Nothing in the text is too deep then.
    ensures shallow { IfOk result (λ ast. IsShallow src.now) }
    // What a text spells in which nothing is too deep is answered, unless memory runs out.
    ensures only { (s : Source) → SpellsText src.now s → IsShallow src.now → Answers result s }
    // A fault is one of the text,
    ensures fault { IfFault result (IsFault src.now) }
    // and none stands before it.
    ensures least { IfFault result (λ f. (g : SyntaxFault) → IsFault src.now g → IsNoLater f g) }
{
    if src.len() > LONGEST_SOURCE {
        return Err(SyntaxFault::Long);
    }
    let read = read_text(alloc, src);
    // If the text is UTF-8, the answer is what reading gave: a program, or the first fault.
    let Err(error) = str::from_utf8(src) else {
        return read;
    };
    Err(first_fault(read, error.valid_up_to()))
}

// From here on there are laws: the contract is what is said, and there is nothing to run. Proofs cite them.

/// A law: no text spells two programs, so what `parse` answers is the only program of its text.
pub fn one_source()
    ensures { (src : List ℕ) (s t : Source) → SpellsText src s → SpellsText src t → s ≡ t }
{}

/// A text that is UTF-8 and whose tokens spell a program is at fault only where it is too long, or too deep.
pub fn only_limits()
    ensures { (src : List ℕ) (s : Source) (f : SyntaxFault) → IsUtf8 src → SpellsTokens src s → IsFault src f → IsLimit f }
{}

/// The parts of what a text spells stand inside their wholes.
pub fn parts_inside()
    ensures { (src : List ℕ) (s : Source) → SpellsText src s → IsAllNested s }
{}
