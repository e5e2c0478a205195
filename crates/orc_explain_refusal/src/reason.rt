//! Why an entry is refused, with carets under the word of its line that is wrong.
//!
//! Words of an entry's line are counted from 0: word 0 is its kind, word 1 what it names first. A mark is the number of a token. A `cancel` is due
//! behind a `bind`, for each call that was pending in the side that the bind dropped. `page.tell` writes words, with the fills in place of their `%`
//! in turn.

use crate::allowed::cancel_in;
use crate::line::say_entry;
use crate::replay::Replay;
use orc_calls::due_time;
use orc_lex::token::Span;
use orc_report::{Fill, Page, left_out, part_at};
use orc_rules::answers::Answers;
use orc_rules::entry::{Entry, RuleFault};
use orc_rules::limits::{MOST_ARGUMENTS, MOST_LEVELS};
use orc_rules::program::Program;
use orc_rules::value::{Answer, Found};
use orc_verdict::{Allowed, entry_of, mark_named, numbers_of};
use std::alloc::Global;

/// An entry that is refused, with its line, what was before it, and what is allowed there.
#[derive(Clone, Copy)]
pub(crate) struct Refused<'r> {
    /// The program that was run.
    pub program: &'r Program,
    /// The table of sites, which says what calls are answered.
    pub answers: &'r Answers,
    /// The run up to the entry.
    pub replay: &'r Replay,
    /// The entries that are allowed in place of it.
    pub allowed: &'r Allowed,
    /// None where a cancel is due behind the last entry.
    pub entry: Option<&'r Entry>,
    /// Its line without the LF; empty where there is no entry.
    pub line: &'r [u8],
    /// The number of its line in the journal's file, from 1.
    pub number: u64,
}

impl Refused<'_> {
    // Shows the entry with carets under a word of its line, or under the whole line where `word` is None. Words count from 0: word 0 is the entry's
    // kind, and word 1 what it names first. What is said next stands behind the carets.
    fn show(&self, page: &mut Page, word: Option<usize>) {
        let part = match word {
            Some(number) => part_at(self.line, b' ', number),
            None => Span {
                start: 0,
                end: self.line.len(),
            },
        };
        // How many columns are left out at the front of a long line. `left_out` takes the column of the part, from 1.
        let first = left_out((part.start as u64).saturating_add(1));
        page.row(self.number, self.line, first, part.start);
        page.carets(self.line, first, part);
    }

    /// Shows the entry, and says behind the carets why it is refused; `why` is the checker's reason. `show` takes the word of the entry's line, from
    /// 0, under which the carets go, and None for the whole line.
    pub(crate) fn say(&self, page: &mut Page, alloc: Global, why: RuleFault) {
        // The number of the call whose `cancel` has to come next, if a cancel is due.
        let cancel = cancel_in(self.allowed);
        // The number is shown only where a cancel is due, so the 0 that stands for None is never shown.
        let cancelled = Fill::Number(cancel.unwrap_or(0));
        let Some(entry) = self.entry else {
            // Without an entry: the journal ends where a cancel is due.
            self.show(page, None);
            page.tell("the journal ends here, and cancel % is due\n", &[cancelled]);
            return;
        };
        match why {
            RuleFault::Cancel => {
                self.show(page, None);
                match cancel {
                    Some(_) => page.tell("cancel % has to come first\n", &[cancelled]),
                    None => page.say("no cancel is due\n"),
                }
            }
            // What the entry names first is there, so what is missing is the cell that a `bind` names besides its token, in word 2 of its line.
            RuleFault::Mark if self.replay.first.stands() => {
                self.show(page, Some(2));
                self.replay.second.say(&self.replay.marked, page);
            }
            RuleFault::Mark => {
                self.show(page, Some(1));
                self.replay.first.say(&self.replay.marked, page);
            }
            RuleFault::Form => self.say_form(page, alloc, entry),
            RuleFault::Number => self.say_number(page, entry),
            RuleFault::Answer => self.say_answer(page, entry),
            RuleFault::Time => self.say_time(page, entry),
            RuleFault::Halted => {
                self.show(page, Some(1));
                page.say("that side hasn't halted\n");
            }
            RuleFault::Deep => {
                self.show(page, None);
                page.tell(
                    "the term would nest over % levels\n",
                    &[Fill::Grouped(MOST_LEVELS as u64)],
                );
            }
            // Refused memory says nothing of the entry.
            RuleFault::Memory => {}
        }
    }

    // The token that the entry names can't make this entry: says which entry the token can make, or that it waits.
    fn say_form(&self, page: &mut Page, alloc: Global, entry: &Entry) {
        // An entry that names no token gets mark 0, which no token has.
        let mark = mark_named(entry).unwrap_or(0);
        match entry_of(&self.replay.marked, self.program, mark) {
            // The token makes an entry of this kind, but with something else behind the first word.
            Some(other) if other.kind().word() == entry.kind().word() => {
                self.show(page, None);
                page.say("this has to be `");
                say_entry(page, alloc, self.answers, &other);
                page.say("`\n");
            }
            // The token makes an entry of another kind, so the carets go under the first word of the line, the kind.
            Some(other) => {
                self.show(page, Some(0));
                let word = Fill::Word(other.kind().word());
                page.tell("mark % may `%`\n", &[Fill::Number(mark), word]);
            }
            None => self.say_waits(page, mark),
        }
    }

    // The token can make no entry: says that it waits for those of its arguments that are cells without a value. Where there is none, or the entry
    // names no token (mark 0), it says only that something else stands there.
    fn say_waits(&self, page: &mut Page, mark: u64) {
        let marked = &self.replay.marked;
        let mut cells: u64 = 0;
        for place in 0..MOST_ARGUMENTS {
            if marked.awaited(self.program, mark, place).is_some() {
                // The argument at this place, or the variable on which the token stands (place 0), is a cell without a value.
                cells = cells.saturating_add(1);
            }
        }
        if cells == 0 {
            self.show(page, None);
            page.say("another kind of term, name, argument, value or taker stands there\n");
            return;
        }
        self.show(page, Some(0));
        // Between `cell` and the first number; later ones stand behind a comma.
        let mut sign = if cells == 1 { " " } else { "s " };
        page.tell("mark % waits for cell", &[Fill::Number(mark)]);
        for place in 0..MOST_ARGUMENTS {
            if let Some(cell) = marked.awaited(self.program, mark, place) {
                page.tell("%%", &[Fill::Text(sign), Fill::Number(cell)]);
                sign = ", ";
            }
        }
        page.say("\n");
    }

    // Says which new number of the entry isn't the next one of its kind: the first that isn't.
    fn say_number(&self, page: &mut Page, entry: &Entry) {
        let marked = &self.replay.marked;
        // The numbers that the entry gives out, of each kind None if it gives out none.
        let new = numbers_of(entry);
        let mark = marked.new_mark();
        // New numbers stand behind the entry's word and what it names, in this order.
        let mut place: usize = 2;
        for (number, next) in [
            (new.cell, marked.new_cell()),
            (new.call, marked.new_call()),
            (new.mark, mark),
            // Of two new marks the second is one more than the first.
            (new.second, mark.saturating_add(1)),
        ] {
            if let Some(number) = number {
                if number != next {
                    self.show(page, Some(place));
                    page.tell("the next number is %\n", &[Fill::Number(next)]);
                    return;
                }
                place = place.saturating_add(1);
            }
        }
    }

    // What the table of sites says of the call that an entry returns, and at what time the call was made. None where the entry returns none, or there
    // is no such call.
    fn returned(&self, entry: &Entry) -> Option<(Found, u64)> {
        let (Entry::Return(call, _, _) | Entry::ReturnHalt(call)) = entry else {
            return None;
        };
        let place = call.checked_sub(1)? as usize;
        let called = self.replay.marked.calls().get(place)?.called();
        Some((called.found, called.at))
    }

    // Says what the answer is in the table of sites, where a return has another one. The entry's answer is the last word of its line.
    fn say_answer(&self, page: &mut Page, entry: &Entry) {
        // `return CALL MARK VALUE` or `return CALL halt`, words counted from 0.
        let answer = match entry {
            Entry::Return(_, _, _) => 3,
            _ => 2,
        };
        self.show(page, Some(answer));
        match self.returned(entry) {
            Some((Found::After(Answer::Value(value), _), _)) => {
                page.tell("the table's answer is %\n", &[Fill::Value(value)]);
            }
            Some((Found::After(Answer::Halt, _), _)) => page.say("the table's answer is halt\n"),
            Some((Found::Never, _)) | None => page.say("the table says never\n"),
        }
    }

    // The entry comes at a wrong time. If it is a return this says when the call is due, and else, of a tick, what is wrong with the tick.
    fn say_time(&self, page: &mut Page, entry: &Entry) {
        self.show(page, Some(1));
        let (Entry::Return(call, _, _) | Entry::ReturnHalt(call)) = entry else {
            self.say_tick(page);
            return;
        };
        let call = Fill::Number(*call);
        // When the call is due; None if it never is. `at` is the time at which the call was made.
        let due = match self.returned(entry) {
            Some((found, at)) => due_time(found, at),
            None => None,
        };
        match due {
            Some(time) => page.tell(
                "call % is due at %, and now it is %\n",
                &[
                    call,
                    Fill::Number(time),
                    Fill::Number(self.replay.marked.now()),
                ],
            ),
            None => page.tell(
                "call % is never due: its due time is over the greatest time\n",
                &[call],
            ),
        }
    }

    // Says why a tick isn't allowed, by the first entry that is: a tick to another time, another entry that can come now, or none, since no call is
    // ever due.
    fn say_tick(&self, page: &mut Page) {
        match self.allowed.entries().first() {
            Some(Entry::Tick(time)) => {
                page.tell("the next due time is %\n", &[Fill::Number(*time)]);
            }
            Some(_) => page.tell(
                "a tick comes only where nothing can be done now: % can\n",
                &[Fill::Count(self.allowed.count(), "thing")],
            ),
            None => page.say("no call that is out is ever due\n"),
        }
    }
}
