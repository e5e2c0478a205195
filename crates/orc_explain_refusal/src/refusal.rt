//! The whole explanation of a refused entry: the entry in its file, why it is refused, the term before it, and what is allowed there. A mark is the
//! number of a token in the term. A `Strip` writes the term in one line, the `Way` leads from what the entry names up to the whole, and `Spent` says
//! which parts have halted. A `Replay` has applied the entries before the refused one, and has the term to which they led.

use crate::allowed::say_allowed;
use crate::line::line_of;
use crate::names::Names;
use crate::reason::Refused;
use crate::replay::Replay;
use crate::spent::Spent;
use crate::strip::Strip;
use crate::way::Way;
use orc_journal::Journal;
use orc_journal_text::read_journal;
use orc_report::{Document, Fill, Page};
use orc_rules::answers::Answers;
use orc_rules::entry::{Entry, RuleFault};
use orc_rules::program::Program;
use orc_site::read_script;
use orc_syntax::{Ast, parse};
use orc_verdict::{Allowed, CheckFault};
use std::alloc::{AllocError, Global};

/// A refused journal, and the program and the table of sites that it is checked against. `ast` is the program's tree, which has the names.
struct Case<'s> {
    ast: Ast<'s>,
    program: Program,
    answers: Answers,
    journal: Journal,
}

// Written out, so that a caller's proof sees one call and not the drop of each field.
impl Drop for Case<'_> {
    fn drop(self) {
        let Case {
            ast: _,
            program: _,
            answers: _,
            journal: _,
        } = self;
    }
}

// The program of a tree. `answers` has the names of all sites. The tree was checked before without a fault, so the error is refused memory.
fn program_of(alloc: Global, ast: &Ast, answers: &Answers) -> Result<Program, AllocError> {
    // The check has to know the names of all sites.
    let names = answers.names(alloc)?;
    match orc_scope::check(alloc, ast, names.as_slice()) {
        Ok(program) => Ok(program),
        Err(_) => Err(AllocError),
    }
}

impl<'s> Case<'s> {
    // Reads texts that were read before without a fault, so the error is refused memory.
    fn new(
        alloc: Global,
        source: &'s [u8],
        script: &[u8],
        journal: &[u8],
    ) -> Result<Case<'s>, AllocError> {
        let (Ok(ast), Ok(answers)) = (parse(alloc, source), read_script(alloc, script)) else {
            return Err(AllocError);
        };
        let (Ok(program), Ok(journal)) = (
            program_of(alloc, &ast, &answers),
            read_journal(alloc, journal, &answers),
        ) else {
            return Err(AllocError);
        };
        Ok(Case {
            ast,
            program,
            answers,
            journal,
        })
    }

    // Writes the explanation of the entry at a place, from 0, of the journal with this name, which is refused for the reason `why`. A place behind
    // the last entry is where a `cancel` is due. The error is refused memory.
    fn say(
        &self,
        page: &mut Page,
        alloc: Global,
        name: &str,
        place: usize,
        why: RuleFault,
    ) -> Result<(), AllocError> {
        let mut replay = Replay::new(alloc, &self.program, &self.answers, &self.journal, place)?;
        // Looks for all entries that could come here instead. The term is lent for that, and stays the same.
        let allowed = Allowed::new(alloc, &mut replay.marked, &self.program, &self.answers)?;
        let number = line_number(place);
        // The entry's line has the greatest number that is shown, so the left margin is made as wide as that. Entry N is in line N + 1.
        page.widen(number);
        page.inset();
        page.tell(
            "--> %, entry % (line %), at time %\n",
            &[
                Fill::Path(name),
                Fill::Number(number.saturating_sub(1)),
                Fill::Number(number),
                Fill::Number(replay.marked.now()),
            ],
        );
        page.margin();
        page.say("\n");
        // The entry before it, if there is one, from its first column on.
        if let Some(before) = place.checked_sub(1) {
            let line = line_of(alloc, &self.answers, self.journal.get(before).as_ref())?;
            page.row(line_number(before), line.as_slice(), 0, 0);
        }
        let entry = self.journal.get(place);
        let line = line_of(alloc, &self.answers, entry.as_ref())?;
        let refused = Refused {
            program: &self.program,
            answers: &self.answers,
            replay: &replay,
            allowed: &allowed,
            entry: entry.as_ref(),
            line: line.as_slice(),
            number,
        };
        refused.say(page, alloc, why);
        if let RuleFault::Deep = why {
            page.note("the rules allow this entry: only the checker's limit refuses it\n");
            return Ok(());
        }
        self.say_term(page, alloc, &replay, entry.as_ref(), why)?;
        let has_halted = replay.marked.has_halted();
        say_allowed(page, alloc, &self.answers, &allowed, has_halted);
        Ok(())
    }

    // Writes the term before the refused entry, and below it its marks. `entry` is None where a cancel is due behind the last entry, and `why` is the
    // checker's reason. The error is refused memory.
    fn say_term(
        &self,
        page: &mut Page,
        alloc: Global,
        replay: &Replay,
        entry: Option<&Entry>,
        why: RuleFault,
    ) -> Result<(), AllocError> {
        let marked = &replay.marked;
        // The names of variables, sites and cells; the parts that are written as `stop`; and the nodes from what the entry names up to the whole.
        let names = Names::new(alloc, &self.ast, &self.answers, marked)?;
        let spent = Spent::new(alloc, marked)?;
        let way = Way::new(alloc, marked, &spent, entry, replay.first.named, why)?;
        page.margin();
        page.say("\n");
        page.note("the term before it, its marks below:\n");
        let strip = Strip::new(
            alloc,
            &self.program,
            replay,
            &self.journal,
            &names,
            &way,
            &spent,
        );
        strip.show(page, alloc);
        Ok(())
    }
}

// The number, from 1, of the line of the entry at a place, from 0: line 1 is the header.
fn line_number(place: usize) -> u64 {
    (place as u64).saturating_add(2)
}

/// The text that explains why a journal is refused, below the fault's own line: `source`, `script` and `journal` were read without a fault, and
/// `fault` is the verdict on the journal. It says of refused memory only that. The error is refused memory.
pub fn explain_refusal(
    alloc: Global,
    source: &[u8],
    script: &[u8],
    journal: &Document,
    fault: CheckFault,
) -> Result<String, AllocError> {
    let mut page = Page::new(alloc);
    if let RuleFault::Memory = fault.why {
        page.note("memory was refused at this entry; nothing was found wrong before it\n");
        return page.finish();
    }
    let case = Case::new(alloc, source, script, journal.text)?;
    // A fault counts entries from 1.
    let place = (fault.at as usize).saturating_sub(1);
    case.say(&mut page, alloc, journal.name, place, fault.why)?;
    page.finish()
}
