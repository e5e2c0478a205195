//! From a source text to the text of `orc print`.

ghost use Rattle.std.specs.Prelude.{◌≡◌, IfOk, IfErr, OnOk};
ghost use Rattle.orc_syntax.specs.Tree.{Source};
ghost use Rattle.orc_syntax.specs.Ast.{IsAst};
ghost use Rattle.orc_syntax.specs.Printing.{printed};
ghost use Rattle.orc_run.specs.Printed.{Prints, LeavesUnprinted, IsPrintFault};

use crate::faults::RunFault;
use orc_output::{WriteFault, write_text};
use orc_syntax::{Ast, parse, print};
use std::alloc::{AllocError, Global};
use std::io::Write;

// The text of the program whose tree this is, as `orc print` writes it. The error is refused memory.
fn text_of(alloc: Global, ast: &Ast) -> Result<Vec<u8>, AllocError>
    ensures { (s : Source) → IsAst ast.now s → IfOk result (λ t. t.items ≡ printed s) }
{
    let mut text = Vec::new(alloc);
    print(alloc, ast, &mut text)?;
    Ok(text)
}

/// Writes the program that a source spells in the form of `orc print`: one line for each definition, and one for the main expression.
///
/// A fault is answered where the source spells no program, where memory for the text is refused, and where the output isn't taken whole.
/// Nothing is written then, but at a fault of the output a prefix of the text.
pub fn print_text<W: Write>(alloc: Global, source: &[u8], out: &mut W) -> Result<(), RunFault>
    ensures printed { OnOk result (Prints source.now (W.contents out.old) (W.contents out.new)) }
    ensures fault { IfErr result (LeavesUnprinted source.now (W.contents out.old) (W.contents out.new)) }
    ensures cause { IfErr result (IsPrintFault source.now) }
{
    let ast = match parse(alloc, source) {
        Ok(ast) => ast,
        Err(fault) => return Err(RunFault::Syntax(fault)),
    };
    let Ok(text) = text_of(alloc, &ast) else {
        return Err(RunFault::Write(WriteFault));
    };
    match write_text(out, text.as_slice()) {
        Ok(()) => Ok(()),
        Err(fault) => Err(RunFault::Write(fault)),
    }
}
