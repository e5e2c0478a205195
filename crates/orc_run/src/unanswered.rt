//! Which calls of a test's services no line of a case answers, so that they halt at once: an argument or a pattern may be mistyped. A *service* is a
//! site whose answers the test says; a line of it answers the calls whose arguments its *patterns* take. A line below `given` belongs to every case.
//! A `Page` is a text that is being written; that memory was refused comes out when it is finished. A *way* is one choice of what the services of a
//! case answer, written as a script, and `trials` has the source, and the orders and the limit of its runs.

use crate::asked::is_of;
use crate::scripts::CaseScripts;
use orc_claims::claim::Slot;
use orc_load::load;
use orc_orders::{Trials, try_again};
use orc_report::Page;
use orc_rules::answers::Answers;
use orc_rules::builtin::is_same;
use orc_rules::entry::Entry;
use orc_rules::limits::MOST_ARGUMENTS;
use orc_rules::value::{Answer, Args, Found, Value};
use orc_site::read_script;
use orc_ways::test::{Service, Test};
use std::alloc::{AllocError, Global};

/// How many calls of a case are named. If there are more, a last line says so.
const SHOWN: usize = 4;

// Whether a service's patterns take these arguments.
fn takes(service: &Service<'_>, args: &[Value]) -> bool {
    service.patterns.len() == args.len()
        && service.patterns.iter().zip(args.iter()).all(|(pattern, arg)| match pattern {
            Slot::Literal(value) => is_same(*value, *arg),
            Slot::Any | Slot::Variable(_) => true,
        })
}

// Whether a service of the test has this name.
fn is_service(test: &Test<'_>, name: &[u8]) -> bool {
    test.services.iter().any(|line| line.service.name == name)
}

// Whether a site of the table halts at its first call with these arguments, without a delay: so a call that no line answers looks. False where the
// table has no such site.
fn halts(answers: &Answers, name: &[u8], args: &Args) -> bool {
    match answers.site_named(name) {
        Some(site) => matches!(answers.find(site, args, 1), Found::After(Answer::Halt, 0)),
        None => false,
    }
}

// Adds a line that answers all calls of a site with so many arguments, `A(_, _) = 0`; any answer but a halt would do. It begins with an LF, which the
// last line before it may lack. The error is refused memory.
fn write_catch_all(text: &mut Vec<u8>, name: &[u8], arguments: usize) -> Result<(), AllocError> {
    text.extend_from_slice(b"\n")?;
    text.extend_from_slice(name)?;
    text.extend_from_slice(b"(")?;
    for place in 0..arguments {
        if place > 0 {
            text.extend_from_slice(b", ")?;
        }
        text.extend_from_slice(b"_")?;
    }
    text.extend_from_slice(b") = 0")
}

// The sites of the script beside the test, whose lines stand behind the test's. Behind the script's own lines each service has a line for each number
// of arguments, which answers: so a call of a service halts there only by a line of the script. The error is refused memory, or that the script is
// too long with these lines.
fn sites_behind(alloc: Global, test: &Test<'_>, script: &[u8]) -> Result<Answers, AllocError> {
    let Ok(sites) = read_script(alloc, script) else {
        return Err(AllocError);
    };
    let mut text = Vec::new(alloc);
    text.extend_from_slice(script)?;
    for name in sites.names(alloc)?.as_slice() {
        if is_service(test, *name) {
            for arguments in 0..=MOST_ARGUMENTS {
                write_catch_all(&mut text, *name, arguments)?;
            }
        }
    }
    match read_script(alloc, text.as_slice()) {
        Ok(answers) => Ok(answers),
        Err(_) => Err(AllocError),
    }
}

/// The calls of one case that no line answers, each named once.
#[derive(Drop)]
struct Calls<'t, 'a> {
    /// The test, whose services are asked.
    test: &'t Test<'a>,
    /// The sites of the script, with lines behind its own that answer all other calls of services (`sites_behind`). So a call of a service halts
    /// there only by a line of the script.
    behind: &'t Answers,
    /// The place of the case, from 0.
    case: usize,
    /// The calls that are named, as they are written.
    texts: Vec<String>,
    // Whether there are more of them than are named.
    has_more: bool,
}

impl Calls<'_, '_> {
    // Whether a line of the case, or of `given`, takes a call of this name with these arguments.
    fn is_taken(&self, name: &[u8], args: &[Value]) -> bool {
        self.test.services.iter().any(|line| {
            is_of(line, self.case) && line.service.name == name && takes(&line.service, args)
        })
    }

    // Whether no line answers a call of a service, so that it halts at once: no line of the case, and none of the script behind those of the test.
    // `answers` has the sites of the way in which the call is made. False for a call of another site.
    fn is_unanswered(&self, answers: &Answers, name: &[u8], args: &Args) -> bool {
        is_service(self.test, name)
            && !self.is_taken(name, args.as_slice())
            && halts(answers, name, args)
            && !halts(self.behind, name, args)
    }

    // Names a call as it is written, in backquotes, unless it was named before. Once `SHOWN` are named, it only notes that there are more. The error
    // is refused memory.
    fn add(&mut self, alloc: Global, name: &[u8], args: &[Value]) -> Result<(), AllocError> {
        let mut page = Page::new(alloc);
        page.say_word("`", name, "");
        page.values(args);
        page.say("`");
        let text = page.finish()?;
        if self.texts.iter().any(|told| told.as_str() == text.as_str()) {
            return Ok(());
        }
        if self.texts.len() < SHOWN {
            self.texts.push(text)?;
        } else {
            self.has_more = true;
        }
        Ok(())
    }

    // Notes the calls that no line answers in the run of a way (one choice of what the services answer) in order 0. `script` is the way's. The trials
    // made this run before, so the error is refused memory.
    fn note(
        &mut self,
        alloc: Global,
        trials: &Trials<'_, '_>,
        script: &[u8],
    ) -> Result<(), AllocError> {
        let (Ok(run), Ok(loaded)) = (
            try_again(alloc, trials, script, 0),
            load(alloc, trials.source, script),
        ) else {
            return Err(AllocError);
        };
        let answers = loaded.into_answers();
        // None doesn't come: `try_again` keeps the journal.
        let Some(journal) = run.played.journal.as_ref() else {
            return Ok(());
        };
        for at in 0..journal.len() {
            // Only calls are looked at.
            if let Some(Entry::Call(_, _, site, args)) = journal.get(at) {
                // Each call's site is in the table.
                let name = answers.name(site).unwrap_or(b"");
                if self.is_unanswered(&answers, name, &args) {
                    self.add(alloc, name, args.as_slice())?;
                }
            }
        }
        Ok(())
    }

    // Writes a line for each call of the case that is named, and one if there are more. If the page is empty, a head comes first.
    fn say(&self, page: &mut Page) {
        let name = match self.test.cases.get(self.case) {
            Some(case) => case.name,
            None => b"",
        };
        for text in &self.texts {
            if page.len() == 0 {
                page.say("orc: calls that no line answers\n");
            }
            // `say_word` writes the name between two texts, of which the first is empty: `note` has written it.
            page.note("in case ");
            page.say_word("", name, " no line answers ");
            page.say(text.as_str());
            page.say("\n");
        }
        if self.has_more {
            page.note("in case ");
            page.say_word("", name, " there are others\n");
        }
    }
}

/// The text that names the calls of services that no line answers, be it of their case, of `given`, or of the script, in the first order of each of
/// the ways that were tried; empty where each call is answered. Of a case it names four at most, each once. `cases` has the scripts of these ways,
/// and `script` is the script beside the test. The error is refused memory.
pub fn calls_never_answered(
    alloc: Global,
    trials: &Trials<'_, '_>,
    test: &Test<'_>,
    cases: &[CaseScripts],
    script: &[u8],
) -> Result<String, AllocError> {
    let behind = sites_behind(alloc, test, script)?;
    let mut page = Page::new(alloc);
    for (case, scripts) in cases.iter().enumerate() {
        let mut calls = Calls {
            test,
            behind: &behind,
            case,
            texts: Vec::new(alloc),
            has_more: false,
        };
        for script in &scripts.scripts {
            // Once there are more than are named, other ways add nothing.
            if !calls.has_more {
                calls.note(alloc, trials, script.as_slice())?;
            }
        }
        calls.say(&mut page);
    }
    page.finish()
}
