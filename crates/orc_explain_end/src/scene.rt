//! A run that is explained, and how its calls, entries and terms are written.
//!
//! Each function here with a `page` writes what its comment names at the end of that page; `note` begins a line there. A spot is a numbered place of
//! the program's tree, and a program's *sketch* has its spots (`orc_source_map`). Cells and marks count from 1. A mark is the number of a token, and
//! a cell is what an opened pruning puts for its variable. A scope says what names mean, and a `Param` is what one means: a value, a cell without a
//! value, or void, which never gets one.

use crate::ended::Ended;
use crate::replay::Replay;
use orc_explain_fault::span_at;
use orc_journal_text::{has_line, write_entry};
use orc_outcome::{End, Summary};
use orc_report::{Page, Subject};
use orc_rules::answers::Answers;
use orc_rules::entry::Entry;
use orc_rules::param::Param;
use orc_rules::program::TermNode;
use orc_source_map::{Purpose, Sketch};
use orc_syntax::Definition;
use std::alloc::Global;

/// How many columns of a part of the source are shown at most; a longer one ends with `..`.
const TERM: usize = 28;

/// A run that has ended, replayed, with all that an explanation reads: the texts of its files, the run with its journal, the program's spots, its
/// definitions, and where the run has come to.
#[derive(Clone, Copy)]
pub(crate) struct Scene<'s, 'a> {
    pub alloc: Global,
    pub subject: &'s Subject<'a>,
    pub ended: &'s Ended<'s>,
    pub sketch: &'s Sketch<'a>,
    pub definitions: &'s [Definition<'a>],
    pub replay: &'s Replay<'a>,
}

/// The first line of an explanation: how the run ended, when, and after how many entries.
pub(crate) fn begin(page: &mut Page, summary: Summary) {
    page.say(match summary.end {
        End::Halted => "orc: Halted",
        End::Quiet => "orc: Quiet",
        End::Limit => "orc: Limit",
        End::Full => "orc: Full",
        End::Memory => "orc: Memory",
    });
    page.say(" at time ");
    reach(page, summary);
}

/// The rest of a line on how far a run came: its time, and `, after N entries`, cancels counted.
pub(crate) fn reach(page: &mut Page, summary: Summary) {
    page.number(summary.now);
    page.say_number(", after ", summary.entries, "");
    page.say(if summary.entries == 1 {
        " entry\n"
    } else {
        " entries\n"
    });
}

/// `and N more` in the same line, where there are more than were shown.
pub(crate) fn say_more(page: &mut Page, all: u64, shown: u64) {
    if all > shown {
        page.say_number(" and ", all.saturating_sub(shown), " more");
    }
}

/// The name of the site with this number in the table; empty where there is none.
pub(crate) fn name_of(answers: &Answers, site: u32) -> &[u8] {
    match answers.name(site) {
        Some(name) => name,
        None => b"",
    }
}

impl Scene<'_, '_> {
    /// A line `and N more`, where there are more than were shown.
    pub(crate) fn rest(&self, page: &mut Page, all: u64, shown: u64) {
        if all > shown {
            page.note("");
            page.say_number("and ", all.saturating_sub(shown), " more\n");
        }
    }

    /// `line L, column C` of a spot.
    pub(crate) fn place(&self, page: &mut Page, spot: usize) {
        let source = self.subject.source;
        page.place(source.text, self.sketch.span(spot).start);
    }

    /// `line L` of a byte of the source, from 0.
    pub(crate) fn line(&self, page: &mut Page, at: usize) {
        let source = self.subject.source;
        page.line(source.text, at);
    }

    /// A call that was made, as `NAME(a, b)`, by the place of its entry in the journal, from 0. Nothing where that entry makes no call.
    pub(crate) fn call(&self, page: &mut Page, entry: usize) {
        if let Some(Entry::Call(_, _, site, args)) = self.ended.journal.get(entry) {
            page.word(name_of(self.ended.answers, site));
            page.values(args.as_slice());
        }
    }

    /// An entry as a line of a journal, without its LF. Nothing where the entry has no line: a call of a site that the table doesn't have.
    pub(crate) fn entry(&self, page: &mut Page, entry: &Entry) {
        if has_line(entry, self.ended.answers) {
            let mut text = Vec::new(self.alloc);
            match write_entry(entry, self.ended.answers, &mut text) {
                Ok(_) => page.word(text.trim_ascii_end()),
                Err(_) => page.refuse(),
            }
        }
    }

    // What the pruning of a cell, from 1, is for. Cell 1 is at place 0.
    fn purpose(&self, cell: u64) -> Purpose<'_> {
        let at = (cell as usize).saturating_sub(1);
        match self.replay.cells.get(at) {
            Some(cell) => cell.purpose,
            // Not reached: each cell of the run is in the list.
            None => Purpose::Nothing,
        }
    }

    /// What a cell's value is for: the variable or the argument, and its line.
    pub(crate) fn cell(&self, page: &mut Page, cell: u64) {
        match self.purpose(cell) {
            Purpose::Variable(name) => {
                page.say_word("`", name.text, "`, named in ");
                self.line(page, name.span.start);
            }
            Purpose::Argument(place, name) => {
                page.say_number("argument ", place as u64, "");
                page.say_word(" of `", name.text, "`, called in ");
                self.line(page, name.span.start);
            }
            Purpose::Nothing => page.say("the value of a `<<`"),
        }
    }

    /// What a token stands on, at this spot: a call with its values put in, else the source's text, cut. Nothing where there is no such token.
    pub(crate) fn term(&self, page: &mut Page, token: u64, spot: usize) {
        let span = self.sketch.span(spot);
        let source = self.subject.source;
        // The program's node under the token, and the scope that says what names mean there.
        let Some((number, scope)) = self.replay.node_of(token) else {
            return;
        };
        match self.ended.program.node(number) {
            TermNode::Call(_, list) | TermNode::Site(_, list) => {
                // The name of the call, with which its text begins.
                page.word(source.part(span_at(source.text, span.start)));
                self.operands(page, list, scope);
            }
            _ => self.words(page, spot),
        }
    }

    /// The source's text of a spot, in one line and cut.
    pub(crate) fn words(&self, page: &mut Page, spot: usize) {
        squeeze(page, self.subject.source.part(self.sketch.span(spot)));
    }

    // Writes the arguments of a call in brackets, with the values that they have. `list` is the number of the call's arguments in the program, and
    // `scope` that of the scope, in the marked term, which says what the names mean.
    fn operands(&self, page: &mut Page, list: usize, scope: usize) {
        page.say("(");
        for (i, operand) in self.ended.program.operands(list).iter().enumerate() {
            if i > 0 {
                page.say(", ");
            }
            match self.replay.marked.param(*operand, scope) {
                Param::Is(value) => page.value(value),
                Param::Cell(cell) => self.awaited(page, cell),
                // A variable of the source is bound in the token's scope, so `Name` doesn't come.
                Param::Void | Param::Name(_) => page.say("void"),
            }
        }
        page.say(")");
    }

    // A cell without a value, as `x#1`: its variable, if it has one, and its number.
    fn awaited(&self, page: &mut Page, cell: u64) {
        if let Purpose::Variable(name) = self.purpose(cell) {
            page.word(name.text);
        }
        page.say_number("#", cell, "");
    }
}

// A part of a source in one line, with one blank for all white space between two words, cut where it is longer than `TERM`.
fn squeeze(page: &mut Page, text: &[u8]) {
    let mut shown: usize = 0;
    // Whether white space stands between the last word that was written and the next byte.
    let mut is_apart = false;
    for byte in text {
        match *byte {
            b' ' | b'\t' | b'\r' | b'\n' => is_apart = true,
            byte => {
                if is_apart {
                    page.say(" ");
                    shown = shown.saturating_add(1);
                    is_apart = false;
                }
                if shown >= TERM {
                    page.say("..");
                    return;
                }
                page.byte(byte);
                shown = shown.saturating_add(1);
            }
        }
    }
}
