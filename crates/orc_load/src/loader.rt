//! The program of a source, its text, with a script's sites. A *site* is what a program calls to get an answer; a *script* is the text that says how
//! the sites answer that aren't built in.

ghost use Rattle.std.specs.Prelude.{◌≡◌, IfOk, IfErr};
ghost use Rattle.orc_syntax.specs.Tree.{Source};
ghost use Rattle.orc_syntax.specs.Ast.{IsAst};
ghost use Rattle.orc_scope.specs.Checking.{Checks};
ghost use Rattle.orc_site.specs.Script.{Says};
ghost use Rattle.orc_load.specs.Loading.{IsProgramOf, IsLoadFault};

use crate::fault::LoadFault;
use orc_rules::answers::Answers;
use orc_rules::program::Program;
use orc_scope::{FaultKind, ScopeFault};
use orc_site::read_script;
use orc_syntax::{Ast, Span, parse};
use std::alloc::Global;

// In contracts `IsAst ast s` says that the tree is that of the program s, `Says script answers` that this is the table of the script, and
// `Checks names s result` that the result is what the scope check gives for the program s with sites of these names.

/// A program, and what answers its calls.
pub struct Loaded {
    /// The program that the source spells.
    pub program: Program,
    /// The table of the built-in sites and the script's; the program names a site by its number there.
    pub answers: Answers,
}

// Written out, so that a caller's proof sees one call and not the drop of each field. In the pattern `_` drops a field.
impl Drop for Loaded {
    fn drop(self) {
        let Loaded {
            program: _,
            answers: _,
        } = self;
    }
}

impl Loaded {
    /// Gives up the program, and leaves what answers its calls.
    pub fn into_answers(self) -> Answers
        ensures { result ≡ self.answers }
    {
        let Loaded {
            program: _,
            answers,
        } = self;
        answers
    }
}

/// Memory for the list of the sites' names was refused: C9, as of memory that the check itself is refused. Such a fault has no place, so its span is
/// the text's start.
const NO_MEMORY: ScopeFault = ScopeFault {
    kind: FaultKind::Memory,
    span: Span { start: 0, end: 0 },
};

// The program of a source's tree, with the sites of this table: what the scope check gives for the tree and the sites' names (`Checks`). The error is
// a fault of the source's names, or refused memory.
fn checked(alloc: Global, ast: &Ast, answers: &Answers) -> Result<Program, ScopeFault>
    ensures { (s : Source) → IsAst ast.now s → Checks answers.now.names s result }
{
    match answers.names(alloc) {
        Ok(names) => orc_scope::check(alloc, ast, names.as_slice()),
        Err(_) => Err(NO_MEMORY),
    }
}

/// The program that a source spells, with the built-in sites and those of a script. Both are given as their texts; an empty one is a script without
/// sites.
///
/// The error is the first of these that there is: a fault of the source's text (`Syntax`), one of the script (`Script`), one of the source's names
/// (`Scope`). Each of them may be refused memory.
pub fn load(alloc: Global, source: &[u8], script: &[u8]) -> Result<Loaded, LoadFault>
    ensures says { IfOk result (λ p. Says script.now p.answers) }
    ensures spells { IfOk result (λ p. IsProgramOf source.now p.answers p.program) }
    ensures fault { IfErr result (IsLoadFault source.now script.now) }
{
    // The source's text, read as a tree. Its fault comes before any other.
    let ast = match parse(alloc, source) {
        Ok(ast) => ast,
        Err(fault) => return Err(LoadFault::Syntax(fault)),
    };
    // The table of the built-in sites and the script's.
    let answers = match read_script(alloc, script) {
        Ok(answers) => answers,
        Err(fault) => return Err(LoadFault::Script(fault)),
    };
    match checked(alloc, &ast, &answers) {
        Ok(program) => Ok(Loaded { program, answers }),
        Err(fault) => Err(LoadFault::Scope(fault)),
    }
}
