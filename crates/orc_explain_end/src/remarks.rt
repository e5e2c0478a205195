//! What looks like a mistake in a run that has halted, though the language allows it: no publication, calls that halted, values that were lost, lines
//! of the script that were chosen for no call, and definitions with the name of a built-in site.
//!
//! Each function here with a `page` writes what its comment names at the end of that page. `note` begins a line there, which the function ends;
//! `rest` writes a last line `and N more`. Calls count from 1, in the order in which they were made; lines of the script count from 1 in its text,
//! and from 0 in the list of `ScriptLines`, where they have a *place*. A spot is a numbered place of the program's tree. A `Scene` is the run with
//! all that an explanation reads. A `Made` is a call that was made, and a `Loss` has the tokens that ended at a spot since a value that they needed
//! was lost.

use crate::replay::{Loss, Made};
use crate::scene::{Scene, begin, name_of};
use crate::script_lines::{ScriptLine, ScriptLines};
use orc_explain_fault::{built_in_named, wanted_by, why_halted};
use orc_report::Page;
use orc_rules::builtin::is_same;
use orc_rules::entry::Entry;
use orc_rules::value::Value;
use std::alloc::{AllocError, Global};
use std::collections::HashMap;

/// How many remarks of one kind are shown at most; the others are only counted, so that an explanation stays short.
const SHOWN: u64 = 4;

/// Calls that were made at one spot, and of which the same is to be said.
#[derive(Clone, Copy)]
struct Group {
    // The first of these calls.
    first: Made,
    // The number of the first one.
    number: u64,
    // How many they are.
    count: u64,
}

/// Groups of calls, one for each spot, in the order of their first calls.
struct Groups {
    list: Vec<Group>,
    // The place in the list of each spot's group.
    places: HashMap<usize, usize>,
}

// Written out, so that a caller's proof sees one call and not the drop of each field.
impl Drop for Groups {
    fn drop(self) {
        let Groups { list: _, places: _ } = self;
    }
}

impl Groups {
    // No groups.
    fn new(alloc: Global) -> Groups {
        Groups {
            list: Vec::new(alloc),
            places: HashMap::new(alloc),
        }
    }

    // Adds a call with its number, from 1, to the group of its spot, the numbered place of the program's tree where it was made. The error is refused
    // memory.
    fn add(&mut self, made: Made, number: u64) -> Result<(), AllocError> {
        let place = self.places.get(&made.spot).copied();
        match place {
            Some(place) => {
                if let Some(group) = self.list.get_mut(place) {
                    group.count = group.count.saturating_add(1);
                }
            }
            None => {
                self.places.insert(made.spot, self.list.len())?;
                self.list.push(Group {
                    first: made,
                    number,
                    count: 1,
                })?;
            }
        }
        Ok(())
    }
}

/// What is to be said of a run's calls, and of the lines of its script.
struct Remarks {
    // Calls of built-in sites with the wrong kinds or number of arguments.
    wrong: Groups,
    // Calls of a script's sites that no line answers.
    unanswered: Groups,
    // Other calls that halted.
    halted: Groups,
    // For each line of the script, in the order of its list, whether it is the line of a call that was made.
    used: Vec<bool>,
}

// Written out, so that a caller's proof sees one call and not the drop of each field.
impl Drop for Remarks {
    fn drop(self) {
        let Remarks {
            wrong: _,
            unanswered: _,
            halted: _,
            used: _,
        } = self;
    }
}

// What the built-in site of that name takes, if it doesn't take these arguments. None where they fit, or there is no such site.
fn wanted(name: &[u8], args: &[Value]) -> Option<&'static str> {
    match built_in_named(name) {
        Some(site) => wanted_by(site, args),
        None => None,
    }
}

// Why a call of the built-in site of that name halts though its arguments fit. None where its calls don't halt then, or there is no such site.
fn why_built_in_halted(name: &[u8]) -> Option<&'static str> {
    match built_in_named(name) {
        Some(site) => why_halted(site),
        None => None,
    }
}

// Whether an earlier line answers all calls that a later one would, so that the later one is never used. A pattern None takes every value.
fn hides(lines: &ScriptLines, earlier: &ScriptLine, later: &ScriptLine) -> bool {
    let hiding = lines.patterns(earlier);
    let hidden = lines.patterns(later);
    earlier.name == later.name
        && hiding.len() == hidden.len()
        && hiding.iter().zip(hidden.iter()).all(|(pattern, other)| match (pattern, other) {
            (None, _) => true,
            (Some(a), Some(b)) => is_same(*a, *b),
            (Some(_), None) => false,
        })
}

// How many arguments a line's patterns don't take, and of the first of them the place, from 1, with the value that the pattern wants; None where all
// are taken.
fn differences(patterns: &[Option<Value>], args: &[Value]) -> (u64, Option<(u64, Value)>) {
    let mut count: u64 = 0;
    let mut first = None;
    let mut place: u64 = 0;
    for (pattern, arg) in patterns.iter().zip(args.iter()) {
        place = place.saturating_add(1);
        if let Some(value) = *pattern {
            if !is_same(value, *arg) {
                count = count.saturating_add(1);
                if first.is_none() {
                    first = Some((place, value));
                }
            }
        }
    }
    (count, first)
}

// The script's line that is nearest to a call which no line answers: of the site's lines with as many patterns as the call has arguments, the one
// with the fewest patterns that don't fit; if there is no such line, the site's first. None if no line names the site.
fn nearest<'a>(lines: &ScriptLines<'a>, name: &[u8], args: &[Value]) -> Option<ScriptLine<'a>> {
    let mut nearest: Option<ScriptLine<'a>> = None;
    let mut least: u64 = 0;
    for line in &lines.list {
        if line.name == name {
            let far = distance(lines.patterns(line), args);
            if nearest.is_none() || far < least {
                nearest = Some(*line);
                least = far;
            }
        }
    }
    nearest
}

// How far a line is from a call: how many of the arguments its patterns don't take. With another number of patterns it is as far away as can be.
fn distance(patterns: &[Option<Value>], args: &[Value]) -> u64 {
    if patterns.len() == args.len() {
        differences(patterns, args).0
    } else {
        u64::MAX
    }
}

// Writes why `line`, the nearest line of the script, doesn't answer a call with these arguments.
fn missed(page: &mut Page, lines: &ScriptLines, line: &ScriptLine, args: &[Value]) {
    let patterns = lines.patterns(line);
    page.say_number("; the nearest one, line ", line.number as u64, "");
    if patterns.len() != args.len() {
        page.say(", is for ");
        page.count(patterns.len() as u64, "argument");
        return;
    }
    let (_count, first) = differences(patterns, args);
    if let Some((place, value)) = first {
        page.say(", wants ");
        page.value(value);
        page.say_number(" as argument ", place, "");
    }
}

impl Remarks {
    // What is to be said of the run's calls and of the lines of its script. The error is refused memory.
    fn new(alloc: Global, scene: &Scene, lines: &ScriptLines) -> Result<Remarks, AllocError> {
        let mut remarks = Remarks {
            wrong: Groups::new(alloc),
            unanswered: Groups::new(alloc),
            halted: Groups::new(alloc),
            used: Vec::new(alloc),
        };
        remarks.read(scene, lines)?;
        Ok(remarks)
    }

    // Begins with no line of the script used, and then notes each call of the run. The error is refused memory.
    fn read(&mut self, scene: &Scene, lines: &ScriptLines) -> Result<(), AllocError> {
        for _rule in &lines.list {
            self.used.push(false)?;
        }
        let mut number: u64 = 0;
        for made in &scene.replay.calls {
            number = number.saturating_add(1);
            self.add(scene, lines, *made, number)?;
        }
        Ok(())
    }

    // Notes which line of the script a call has, and puts the call, with its number from 1, into a group if it halted. A call that was cancelled
    // before hasn't. The error is refused memory.
    fn add(
        &mut self,
        scene: &Scene,
        lines: &ScriptLines,
        made: Made,
        number: u64,
    ) -> Result<(), AllocError> {
        // Not reached: a call was made by an entry `call`.
        let Some(Entry::Call(_, _, site, args)) = scene.ended.journal.get(made.entry) else {
            return Ok(());
        };
        let name = name_of(scene.ended.answers, site);
        let is_scripted = scene.ended.answers.is_scripted(site);
        let line = if is_scripted {
            lines.first(name, args.as_slice())
        } else {
            None
        };
        // `place` is the line's place in the list of lines, from 0.
        if let Some(place) = line {
            if let Some(used) = self.used.get_mut(place) {
                *used = true;
            }
        }
        // Only a call that has returned with halt is put into a group.
        if !made.has_halted {
            Ok(())
        } else if is_scripted && line.is_none() {
            self.unanswered.add(made, number)
        } else if !is_scripted && wanted(name, args.as_slice()).is_some() {
            self.wrong.add(made, number)
        } else {
            self.halted.add(made, number)
        }
    }

    // How many lines of the script were chosen for no call. One whose call was cancelled was chosen, too.
    fn unused(&self) -> u64 {
        let mut count: u64 = 0;
        for used in &self.used {
            if !*used {
                count = count.saturating_add(1);
            }
        }
        count
    }

    // Whether nothing is to be said of the calls and the script of a run that has published something. A call that was answered with halt is no
    // mistake in such a run: an otherwise may be meant for it.
    fn is_empty(&self) -> bool {
        self.wrong.list.is_empty() && self.unanswered.list.is_empty() && self.unused() == 0
    }
}

/// Why calls halted of which something is to be said.
#[derive(Clone, Copy)]
enum Why {
    /// Their built-in site doesn't take their arguments.
    Wrong,
    /// No line of the script answers them.
    Unanswered,
    /// A line of the script or a built-in site answered them with halt.
    Halt,
}

// The end of a line on the first of so many calls or parts at one spot: how many more there are. `name` is what one of these is called.
fn say_others(page: &mut Page, count: u64, name: &str) {
    if count > 1 {
        page.say("; so did ");
        page.count(count.saturating_sub(1), name);
        page.say(" there");
    }
    page.say("\n");
}

impl Scene<'_, '_> {
    /// The whole explanation of a run that has halted: its first line, and what looks like a mistake. Nothing at all if the run has published
    /// something and nothing looks like a mistake.
    pub(crate) fn halted(&self, page: &mut Page) {
        // Where memory is refused the page is refused, too.
        let Ok(lines) = ScriptLines::new(self.alloc, self.subject.script_text()) else {
            page.refuse();
            return;
        };
        match Remarks::new(self.alloc, self, &lines) {
            Ok(remarks) => self.remarks(page, &remarks, &lines),
            Err(_) => page.refuse(),
        }
    }

    // The explanation, from what was noted of the calls. It tells of calls that were answered with halt, and of lost values, only if nothing was
    // published.
    fn remarks(&self, page: &mut Page, remarks: &Remarks, lines: &ScriptLines) {
        let is_silent = self.ended.summary.published == 0;
        if !is_silent && remarks.is_empty() && !self.hides_a_site() {
            return;
        }
        begin(page, self.ended.summary);
        if is_silent {
            page.note("nothing was published\n");
        }
        self.halted_calls(page, &remarks.wrong, lines, Why::Wrong);
        self.halted_calls(page, &remarks.unanswered, lines, Why::Unanswered);
        if is_silent {
            self.halted_calls(page, &remarks.halted, lines, Why::Halt);
            self.losses(page);
        }
        self.unused_lines(page, remarks, lines);
        self.hidden_sites(page);
    }

    // The beginning of a line on the first call of a group, of which `note` writes the margin: `call 3, Ift(3), made in line 1, column 5, halted: `.
    fn halted_call(&self, page: &mut Page, group: &Group) {
        page.note("");
        page.say_number("call ", group.number, ", ");
        self.call(page, group.first.entry);
        page.say(", made in ");
        self.place(page, group.first.spot);
        page.say(", halted: ");
    }

    // A line for the first call of each of the first groups, which halted for this reason, and how many more groups there are.
    fn halted_calls(&self, page: &mut Page, groups: &Groups, lines: &ScriptLines, why: Why) {
        for group in groups.list.iter().take(SHOWN as usize) {
            self.halted_call(page, group);
            match why {
                Why::Wrong => self.site_takes(page, group.first.entry),
                Why::Unanswered => self.no_line(page, group.first.entry, lines),
                Why::Halt => self.halting(page, group.first.entry, lines),
            }
            say_others(page, group.count, "more call");
        }
        self.rest(page, groups.list.len() as u64, SHOWN);
    }

    // Writes what the site takes whose call halted. `entry` is the place of the call's entry in the journal, from 0.
    fn site_takes(&self, page: &mut Page, entry: usize) {
        if let Some(Entry::Call(_, _, site, args)) = self.ended.journal.get(entry) {
            let name = name_of(self.ended.answers, site);
            page.say_word("`", name, "` takes ");
            // `wanted` gives a text: the call was put into this group since it does.
            page.say(wanted(name, args.as_slice()).unwrap_or("other values"));
        }
    }

    // Writes that no line answers a call; and the line that is nearest to it, and why that doesn't. `entry` is the place of the call's entry in the
    // journal, from 0.
    fn no_line(&self, page: &mut Page, entry: usize, lines: &ScriptLines) {
        page.say("no line of the script answers it");
        if let Some(Entry::Call(_, _, site, args)) = self.ended.journal.get(entry) {
            let name = name_of(self.ended.answers, site);
            if let Some(line) = nearest(lines, name, args.as_slice()) {
                missed(page, lines, &line, args.as_slice());
            }
        }
    }

    // Writes why a call halted that its site could answer: its line of the script says so, or the built-in site does. `entry` is the place of the
    // call's entry in the journal, from 0.
    fn halting(&self, page: &mut Page, entry: usize, lines: &ScriptLines) {
        if let Some(Entry::Call(_, _, site, args)) = self.ended.journal.get(entry) {
            let name = name_of(self.ended.answers, site);
            match lines.first(name, args.as_slice()) {
                Some(place) => {
                    page.say_number("line ", lines.number(place), " of the script says halt");
                }
                // No line of the script: the site is built in.
                None => page.say(why_built_in_halted(name).unwrap_or("its site says halt")),
            }
        }
    }

    // A line for each of the first spots at which tokens ended without a publication, since values that they needed were lost, and how many more
    // spots there are.
    fn losses(&self, page: &mut Page) {
        for loss in self.replay.losses.iter().take(SHOWN as usize) {
            self.loss(page, *loss);
        }
        self.rest(page, self.replay.losses.len() as u64, SHOWN);
    }

    // The line of one spot where values were lost: the spot's text, and the value that the first token there needed. `words` writes the text, and
    // `place` its line and column.
    fn loss(&self, page: &mut Page, loss: Loss) {
        page.note("`");
        self.words(page, loss.spot);
        page.say("` (");
        self.place(page, loss.spot);
        page.say(") came to nothing: ");
        match loss.cell {
            Some(cell) => {
                self.cell(page, cell);
                page.say(", has ended without a value");
            }
            // The value was lost before a definition was called with it, so nothing says which cell it was of.
            None => page.say("what stands for a parameter has ended without a value"),
        }
        say_others(page, loss.count, "more part");
    }

    // A line for each of the first lines of the script that answered no call, with a reason where one is found, and how many more there are.
    fn unused_lines(&self, page: &mut Page, remarks: &Remarks, lines: &ScriptLines) {
        let mut shown: u64 = 0;
        for (place, line) in lines.list.iter().enumerate() {
            // `used` has a flag for each line, so the default doesn't come.
            if !remarks.used.get(place).copied().unwrap_or(true) && shown < SHOWN {
                shown = shown.saturating_add(1);
                page.note("line ");
                page.number(line.number as u64);
                page.say(" of the script answered no call");
                self.hidden(page, lines, place, line);
                page.say("\n");
            }
        }
        self.rest(page, remarks.unused(), shown);
    }

    // Whether a definition has the name of a built-in site.
    fn hides_a_site(&self) -> bool {
        self.definitions.iter().any(|definition| built_in_named(definition.name.text).is_some())
    }

    // A line for each of the first definitions that have the name of a built-in site: calls with this name are calls of the definition.
    fn hidden_sites(&self, page: &mut Page) {
        let source = self.subject.source;
        let mut all: u64 = 0;
        for definition in self.definitions {
            let name = definition.name;
            if built_in_named(name.text).is_some() {
                all = all.saturating_add(1);
                if all <= SHOWN {
                    page.note("");
                    page.say_word("`", name.text, "`, defined in ");
                    page.place(source.text, name.span.start);
                    page.say(", hides the built-in site of this name\n");
                }
            }
        }
        self.rest(page, all, SHOWN);
    }

    // The reason why the script's line at this place answered no call: an earlier line hides it, or its site was never called. Nothing where neither
    // is so.
    fn hidden(&self, page: &mut Page, lines: &ScriptLines, place: usize, line: &ScriptLine) {
        for earlier in lines.list.iter().take(place) {
            if hides(lines, earlier, line) {
                let number = earlier.number as u64;
                page.say_number(
                    ": line ",
                    number,
                    " comes first and answers all of its calls",
                );
                return;
            }
        }
        if !self.is_called(line.name) {
            page.say_word(": `", line.name, "` was never called");
        }
    }

    // Whether the run called a site of this name.
    fn is_called(&self, name: &[u8]) -> bool {
        for made in &self.replay.calls {
            if let Some(Entry::Call(_, _, site, _)) = self.ended.journal.get(made.entry) {
                if name_of(self.ended.answers, site) == name {
                    return true;
                }
            }
        }
        false
    }
}
