//! How a run ended: who waits for what, what could go on, or what looks like a mistake though it has halted.
//!
//! Of a quiet run an explanation says which calls never return and which parts wait for them (`quiet`); of a run that was cut, what could come next
//! (`cut`); and of one for which the engine had no more room, how far each of the engine's limits is used up (`room`). `remarks.rt` has what it says
//! of a halted run.
//!
//! Each function here with a `page` writes what its comment names at the end of that page. `note` begins a line there, which the function ends;
//! `rest` writes a last line `and N more`. Calls and cells count from 1. A call *is out* while it is pending. A `Scene` is the run with all that an
//! explanation reads. `moves` are what can come next in it, and which tokens wait for which cell (`Wait`). A `Made` is a call that was made, with its
//! spot and its step; of a pending one, `Called` has what the table says of it. A spot is a numbered place of the program's tree, and the sketch has
//! them all. A step leads from the running term into one of its sides. A mark is the number of a token, and a cell is what an opened pruning puts for
//! its variable.

use crate::ended::Ended;
use crate::moves::{Moves, Wait};
use crate::replay::{Made, Replay};
use crate::scene::{Scene, begin, name_of, reach, say_more};
use crate::script_lines::ScriptLines;
use orc_checker::rest::Called;
use orc_outcome::{End, Summary};
use orc_report::{Page, Subject};
use orc_rules::entry::Entry;
use orc_rules::limits::{MOST_ENTRIES, MOST_FRAMES, MOST_GROUPS, MOST_TOKENS};
use orc_rules::value::Found;
use orc_source_map::Sketch;
use orc_syntax::{Ast, parse};
use orc_verdict::mark_named;
use std::alloc::{AllocError, Global};

/// How many calls, or cells, are shown at most that have a line each. The others are only counted, so that an explanation stays short.
const LINES: u64 = 8;

/// How many calls are shown in one line at most; the others are only counted.
const IN_A_LINE: u64 = 4;

// How many of these calls are pending.
fn count_out(calls: &[Made]) -> u64 {
    let mut count: u64 = 0;
    for call in calls {
        if call.is_out {
            count = count.saturating_add(1);
        }
    }
    count
}

impl Scene<'_, '_> {
    // Each pending call of a quiet run, and why it never returns. Where memory is refused for the lines of the script, the page is refused, too.
    fn silent_calls(&self, page: &mut Page) {
        match ScriptLines::new(self.alloc, self.subject.script_text()) {
            Ok(lines) => self.calls_out(page, &lines),
            Err(_) => page.refuse(),
        }
    }

    // A line for each of the first pending calls, and how many there are more. `lines` are those of the script.
    fn calls_out(&self, page: &mut Page, lines: &ScriptLines) {
        let mut shown: u64 = 0;
        let mut number: u64 = 0;
        for call in &self.replay.calls {
            number = number.saturating_add(1);
            if call.is_out && shown < LINES {
                shown = shown.saturating_add(1);
                self.silent_call(page, number, *call, lines);
            }
        }
        self.rest(page, count_out(&self.replay.calls), shown);
    }

    // The line of one pending call, by its number from 1: `call 3, M(1), made at time 0 in line 1, column 5: line 2 of the script says never`. `note`
    // begins the line.
    fn silent_call(&self, page: &mut Page, number: u64, call: Made, lines: &ScriptLines) {
        page.note("");
        page.say_number("call ", number, ", ");
        self.call(page, call.entry);
        // The checker has taken the same entries, so its list has the same calls, call 1 first: this one is always found there, at this place from 0.
        let at = (number as usize).saturating_sub(1);
        if let Some(kept) = self.replay.marked.calls().get(at) {
            self.silence(page, call, kept.called(), lines);
        }
        page.say("\n");
    }

    // When and where a call was made, and why it never returns. In a quiet run no pending call has a due time: the table says never, or the time
    // would be too great.
    fn silence(&self, page: &mut Page, call: Made, called: Called, lines: &ScriptLines) {
        page.say_number(", made at time ", called.at, " in ");
        self.place(page, call.spot);
        match called.found {
            Found::Never => self.never(page, call, lines),
            Found::After(_, _) => page.say(": its due time is over the greatest time"),
        }
    }

    // Writes which line of the script says never of a call. No built-in site does; nothing is written where no line is found.
    fn never(&self, page: &mut Page, call: Made, lines: &ScriptLines) {
        if let Some(Entry::Call(_, _, site, args)) = self.ended.journal.get(call.entry) {
            let name = name_of(self.ended.answers, site);
            // The first line that fits the call is the one that answers it. `place` is its place in the list.
            if let Some(place) = lines.first(name, args.as_slice()) {
                page.say_number(": line ", lines.number(place), " of the script says never");
            }
        }
    }

    // Each cell that is waited for, and what could give it a value.
    fn waits(&self, page: &mut Page, moves: &Moves) {
        let mut shown: u64 = 0;
        let mut all: u64 = 0;
        for wait in &moves.waits {
            if wait.tokens > 0 {
                all = all.saturating_add(1);
                if shown < LINES {
                    shown = shown.saturating_add(1);
                    self.wait(page, moves, *wait);
                }
            }
        }
        self.rest(page, all, shown);
    }

    // The line of one cell, which `note` begins: what the cell is for, how many tokens wait for it, where the first of them stands, and what could
    // give it a value.
    fn wait(&self, page: &mut Page, moves: &Moves, wait: Wait) {
        page.note("");
        self.cell(page, wait.cell);
        page.say(", has no value, and ");
        // The text calls a token a part.
        page.count(wait.tokens, "part");
        page.say(if wait.tokens == 1 {
            " waits for it ("
        } else {
            " wait for it ("
        });
        self.place(page, self.replay.spot(wait.first, self.sketch));
        page.say("); it could come from ");
        // For each step of the run, whether it is in the right side of the cell's pruning.
        match self.replay.inside(self.alloc, wait.cell) {
            Ok(inside) => self.giver(page, moves, &inside),
            Err(_) => page.refuse(),
        }
        page.say("\n");
    }

    // What could give a cell its value: the pending calls in the right side of the cell's pruning, or, if there are none, a token there that waits
    // itself. `inside` says of each step whether it is in that side. A step leads from the running term into one of its sides.
    fn giver(&self, page: &mut Page, moves: &Moves, inside: &[bool]) {
        if !self.calls_inside(page, inside) {
            self.waiting_inside(page, moves, inside);
        }
    }

    // The first pending calls in the steps that `inside` flags, and how many there are more; answers whether there are any. A step leads from the
    // running term into one of its sides.
    fn calls_inside(&self, page: &mut Page, inside: &[bool]) -> bool {
        let mut all: u64 = 0;
        let mut number: u64 = 0;
        for call in &self.replay.calls {
            number = number.saturating_add(1);
            if call.is_out && inside.get(call.step).copied().unwrap_or(false) {
                if all < IN_A_LINE {
                    page.say_number(if all > 0 { ", call " } else { "call " }, number, "");
                }
                all = all.saturating_add(1);
            }
        }
        say_more(page, all, IN_A_LINE);
        all > 0
    }

    // The place of the first token, by its mark, that waits in the steps that `inside` flags, or `nothing` where none does. A step leads from the
    // running term into one of its sides.
    fn waiting_inside(&self, page: &mut Page, moves: &Moves, inside: &[bool]) {
        for token in &moves.waiting {
            let step = self.replay.token(*token).step;
            if inside.get(step).copied().unwrap_or(false) {
                page.say("what waits itself in ");
                self.place(page, self.replay.spot(*token, self.sketch));
                return;
            }
        }
        page.say("nothing");
    }

    // The lines of a quiet run: its pending calls, who waits for what, and what would end the wait.
    fn quiet(&self, page: &mut Page, moves: &Moves) {
        self.silent_calls(page);
        self.waits(page, moves);
        page.help("a time limit is `x <x< (f | Rwait(10) >> 0)`");
    }

    // The line with the first entries that could come next. If there are none, the line says that the run had just ended when it reached its limit.
    fn next(&self, page: &mut Page, moves: &Moves) {
        if moves.count == 0 {
            page.note("nothing could go on: it has just ended\n");
            return;
        }
        page.note("it could go on with ");
        for (i, entry) in moves.entries.iter().enumerate() {
            page.say(if i > 0 { ", `" } else { "`" });
            self.entry(page, entry);
            page.say("`");
            // What the token of the entry stands on, in brackets.
            self.on(page, entry);
        }
        say_more(page, moves.count, moves.entries.len() as u64);
        page.say("\n");
    }

    // Writes what the token that an entry names stands on, and in which line, in brackets; nothing where the entry names no token, or one that stands
    // on an answer.
    fn on(&self, page: &mut Page, entry: &Entry) {
        let Some(token) = mark_named(entry) else {
            return;
        };
        if let Some(spot) = self.replay.token(token).spot {
            page.say(" (");
            self.term(page, token, spot);
            page.say(", ");
            self.line(page, self.sketch.span(spot).start);
            page.say(")");
        }
    }

    // One line with the first pending calls and their due times; no line where no call is pending.
    fn out(&self, page: &mut Page) {
        let all = count_out(&self.replay.calls);
        if all == 0 {
            return;
        }
        page.note("calls that are out: ");
        let mut shown: u64 = 0;
        let mut number: u64 = 0;
        for call in &self.replay.calls {
            number = number.saturating_add(1);
            if call.is_out && shown < IN_A_LINE {
                page.say(if shown > 0 { ", " } else { "" });
                shown = shown.saturating_add(1);
                self.call(page, call.entry);
                self.due(page, number);
            }
        }
        say_more(page, all, shown);
        page.say("\n");
    }

    // When a pending call, by its number from 1, is due.
    fn due(&self, page: &mut Page, call: u64) {
        match self.replay.marked.due(call) {
            Some((_answer, time)) => page.say_number(", due at ", time, ""),
            None => page.say(", never due"),
        }
    }

    // The lines of a run that was cut: what could come next, which calls are pending, and how often definitions were called, as a recursion without
    // an end may be why.
    fn cut(&self, page: &mut Page, moves: &Moves) {
        self.next(page, moves);
        self.out(page);
        let definitions = self.replay.definitions;
        if definitions > 0 {
            page.note("definitions were called ");
            page.count(definitions, "time");
            page.say("; the last call is made again for ever where nothing stops it\n");
        }
    }

    // The lines on how far each of the engine's limits is used up, one of which has cut the run.
    fn room(&self, page: &mut Page, moves: &Moves) {
        match self.replay.frames(self.alloc, self.ended.program) {
            Ok(frames) => self.limits(page, moves, frames),
            Err(_) => page.refuse(),
        }
    }

    // The lines of `room`. `frames` is how many left sides of `>x>` are round one token at most.
    fn limits(&self, page: &mut Page, moves: &Moves, frames: u64) {
        page.note("the engine can hold no more; by the rules it could go on\n");
        // The second line: how much of each limit is used up.
        page.note("");
        let calls = count_out(&self.replay.calls);
        page.say_number(
            "tokens and calls ",
            moves.tokens.saturating_add(calls),
            " of ",
        );
        page.number(MOST_TOKENS as u64);
        page.say_number(", open sides ", moves.sides, " of ");
        // The engine counts each open side as a group, and the whole program as one more, which `sides` hasn't.
        page.number((MOST_GROUPS as u64).saturating_sub(1));
        page.say_number(", left sides of `>x>` round one token ", frames, " of ");
        page.number(MOST_FRAMES as u64);
        page.say("\n");
    }

    // The whole explanation. `halted` writes its own first line, since the explanation of a halted run may be empty.
    fn end(&self, page: &mut Page, moves: &Moves) {
        if self.ended.summary.end == End::Halted {
            return self.halted(page);
        }
        begin(page, self.ended.summary);
        match self.ended.summary.end {
            End::Quiet => self.quiet(page, moves),
            // The run has reached its limit of entries.
            End::Limit => {
                self.cut(page, moves);
                page.note("help: --limit sets the greatest number of entries, up to ");
                page.number(MOST_ENTRIES);
                page.say("\n");
            }
            // The engine had no more room.
            End::Full => {
                self.cut(page, moves);
                self.room(page, moves);
            }
            // Not reached: a halted run was explained above, and of one without memory `explain_refused_memory` says all.
            End::Halted | End::Memory => {}
        }
    }
}

/// The text that explains that memory was refused in a run: a first line on its end, and one on how far it came. It needs no journal. The error is
/// refused memory for the text.
pub fn explain_refused_memory(alloc: Global, summary: Summary) -> Result<String, AllocError> {
    let mut page = Page::new(alloc);
    begin(&mut page, summary);
    page.note("memory was refused at time ");
    reach(&mut page, summary);
    page.finish()
}

/// The text that explains how a run of these files ended, by its journal: a first line on its end, and lines below it; empty for a halted run that
/// has published something and in which nothing looks like a mistake. `subject` has the source and the script of the run. The error is refused
/// memory, or a journal that the rules don't take, which no run writes.
pub fn explain_end(alloc: Global, subject: &Subject, ended: &Ended) -> Result<String, AllocError> {
    // The source was read before: only memory can be refused here.
    let Ok(ast) = parse(alloc, subject.source.text) else {
        return Err(AllocError);
    };
    let sketch = Sketch::new(alloc, &ast)?;
    end_of(alloc, subject, ended, &ast, &sketch)
}

// The text of `explain_end`, once the source is parsed and sketched.
fn end_of(
    alloc: Global,
    subject: &Subject,
    ended: &Ended,
    ast: &Ast,
    sketch: &Sketch,
) -> Result<String, AllocError> {
    let mut replay = Replay::new(alloc, ended, sketch)?;
    let moves = Moves::new(alloc, ended.program, &mut replay)?;
    let scene = Scene {
        alloc,
        subject,
        ended,
        sketch,
        definitions: ast.definitions.as_slice(),
        replay: &replay,
    };
    let mut page = Page::new(alloc);
    scene.end(&mut page, &moves);
    page.finish()
}
