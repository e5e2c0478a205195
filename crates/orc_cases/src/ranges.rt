//! With which delays of a range a case fails: `Pay(_) = 1 after 3..7, 12`. A `Line` is the line of a service, and a `Choice` is what the service does
//! in a way: its answers (`Found`: an answer with its delay, or never one) to one call after the other. A choice has a range if one of the
//! alternatives that its calls take has a range of delays.
//!
//! The loops take `rest`, what is left of a slice, apart from the front, as the definitions in specs/ take lists apart.
//!
//! In contracts `map (way_at ..) numbers` is the list of the ways, in their order. `delays` is what the function of that name gives, and `failing_..`
//! the texts that the others append. `line_from`, `lines_from` and `choice_of` turn lines and choices of the code into those of the definitions.

ghost use Rattle.std.specs.Prelude.{◌≡◌, ◌<◌, ◌++◌, IfOk, OnOk, map, option_map};
ghost use Rattle.orc_cases.specs.Digits.{way_at};
ghost use Rattle.orc_cases.specs.Failing.{failing_answer, failing_answers, failing_line, failing_lines};
ghost use Rattle.orc_cases.specs.Intervals.{ascending, intervals};
ghost use Rattle.orc_cases.specs.Places.{AreBelow};
ghost use Rattle.orc_cases.specs.Ranges.{answer_eq, delay_among, delay_in, delays};
ghost use Rattle.orc_cases.specs.Values.{IsCounted, all_choices_of, choice_of, line_from, lines_from};

use crate::choices::Choice;
use crate::frame::{Frame, Line};
use crate::intervals::{Interval, intervals};
use crate::text::{push_intervals, push_mark, push_reply};
use orc_rules::value::{Answer, Found};
use std::alloc::{AllocError, Global};

/// The ways of a case that fail. A way is one choice for each line of the case's services, and its number in the frame stands for it.
#[derive(Clone, Copy)]
pub(crate) struct Failing<'f> {
    /// What the scripts of all ways have in common. In it each way has a number.
    pub(crate) frame: &'f Frame,
    /// The numbers that the ways have in the frame, in the order of the ways.
    pub(crate) numbers: &'f [usize],
    /// Whether each of the first ways fails, in the same order. Ways behind its end were not tried, and count as not failing.
    pub(crate) fails: &'f [bool],
}

impl Failing<'_> {
    // The delays after which a line gives this answer to the call at `place`, one for each way that fails and in which the line takes a range. `line`
    // is the line's place in the frame and `place` that of the call among those that it answers, both from 0, here and below. The clauses ask that
    // the numbers of the ways are numbers in the frame, which has the lines of all ways. The error is refused memory.
    fn delays(
        &self,
        alloc: Global,
        line: usize,
        place: usize,
        answer: Answer,
    ) -> Result<Vec<u64>, AllocError>
        requires counted { IsCounted self.now.frame.now }
        requires below { AreBelow self.now.frame.now.count self.now.numbers.now }
        ensures { IfOk result (λ ds. ds.items ≡ delays line place answer (map (way_at (all_choices_of self.now.frame.now.lines.items)) self.now.numbers.now) self.now.fails.now) }
    {
        let mut delays = Vec::new(alloc);
        // What is left of both lists: of each way its number in the frame, and whether it fails.
        let mut numbers = self.numbers;
        let mut fails = self.fails;
        loop {
            match numbers {
                [] => return Ok(delays),
                [number, more @ ..] => match fails {
                    // The other ways were not tried.
                    [] => return Ok(delays),
                    [does_fail, others @ ..] => {
                        if *does_fail {
                            let choice = self.frame.choice(*number, line);
                            // None if the line takes no range in this way, or gives another answer to the call.
                            if let Some(delay) = delay_in(place, answer, choice) {
                                delays.push(delay)?;
                            }
                        }
                        numbers = more;
                        fails = others;
                    }
                },
            }
        }
    }

    // The delays after which a line gives this answer to the call at `place`, as `delays` has them, each once, as ascending intervals. The clauses
    // ask that the numbers of the ways are numbers in the frame, which has the lines of all ways. The error is refused memory. `line` is the line's
    // place in the frame, and `place` the call's among those that the line answers, both from 0.
    fn intervals(
        &self,
        alloc: Global,
        line: usize,
        place: usize,
        answer: Answer,
    ) -> Result<Vec<Interval>, AllocError>
        requires counted { IsCounted self.now.frame.now }
        requires below { AreBelow self.now.frame.now.count self.now.numbers.now }
        ensures { IfOk result (λ is. is.items ≡ intervals (ascending (delays line place answer (map (way_at (all_choices_of self.now.frame.now.lines.items)) self.now.numbers.now) self.now.fails.now))) }
    {
        let mut delays = self.delays(alloc, line, place, answer)?;
        delays.sort_unstable();
        let found = intervals(alloc, delays.as_slice())?;
        Ok(found)
    }

    // Writes the answer `found` to the call at `place`, with all delays with which some way fails in place of its own delay. The clauses ask that the
    // numbers of the ways are numbers in the frame, which has the lines of all ways. `line` is the line's place in the frame, and `place` the call's
    // among those that the line answers, both from 0. The error is refused memory.
    fn write_answer(
        &self,
        alloc: Global,
        line: usize,
        place: usize,
        found: Found,
        text: &mut Vec<u8>,
    ) -> Result<(), AllocError>
        requires counted { IsCounted self.now.frame.now }
        requires below { AreBelow self.now.frame.now.count self.now.numbers.now }
        ensures { OnOk result (text.new.items ≡ text.old.items ++ failing_answer line place found (map (way_at (all_choices_of self.now.frame.now.lines.items)) self.now.numbers.now) self.now.fails.now) }
    {
        match found {
            Found::Never => text.extend_from_slice(b"never"),
            Found::After(answer, _) => {
                push_reply(text, answer)?;
                text.extend_from_slice(b" after ")?;
                let delays = self.intervals(alloc, line, place, answer)?;
                push_intervals(text, delays.as_slice())
            }
        }
    }

    // Writes the rest of a line from its `=` on, with the LF. `line` is the line's place in the frame, from 0. `answers` are its answers in the way
    // that is shown, to one call after the other; each delay in them is replaced by all those with which some way fails. The clauses ask that the
    // numbers of the ways are numbers in the frame, which has the lines of all ways. The error is refused memory.
    fn write_answers(
        &self,
        alloc: Global,
        line: usize,
        answers: &[Found],
        text: &mut Vec<u8>,
    ) -> Result<(), AllocError>
        requires counted { IsCounted self.now.frame.now }
        requires below { AreBelow self.now.frame.now.count self.now.numbers.now }
        ensures { OnOk result (text.new.items ≡ text.old.items ++ failing_answers line 0 answers.now (map (way_at (all_choices_of self.now.frame.now.lines.items)) self.now.numbers.now) self.now.fails.now) }
    {
        // The call's place among those that the line answers.
        let mut place = 0;
        let mut rest = answers;
        loop {
            match rest {
                [] => return text.extend_from_slice(b"\n"),
                [found, more @ ..] => {
                    // Before the first answer ` = `, before each other ` then `.
                    push_mark(text, place)?;
                    self.write_answer(alloc, line, place, *found, text)?;
                    place += 1;
                    rest = more;
                }
            }
        }
    }

    // Writes the line at a place in the frame, from 0, if its choice has a range; in place of each delay stand all those with which some way fails.
    // The clauses ask that the numbers of the ways are numbers in the frame, which has the lines of all ways. The error is refused memory.
    fn write_line(
        &self,
        alloc: Global,
        place: usize,
        line: &Line,
        choice: Option<&Choice>,
        text: &mut Vec<u8>,
    ) -> Result<(), AllocError>
        requires counted { IsCounted self.now.frame.now }
        requires below { AreBelow self.now.frame.now.count self.now.numbers.now }
        ensures { OnOk result (text.new.items ≡ text.old.items ++ failing_line place (line_from line.now) (option_map (λ c. choice_of c.now) choice.entry) (map (way_at (all_choices_of self.now.frame.now.lines.items)) self.now.numbers.now) self.now.fails.now) }
    {
        match choice {
            Some(choice) => {
                if !choice.is_ranged {
                    return Ok(());
                }
                text.extend_from_slice(line.call.as_slice())?;
                self.write_answers(alloc, place, choice.answers.as_slice(), text)
            }
            // Not reached: a way has a choice for each line.
            None => Ok(()),
        }
    }

    /// The lines whose choice has a range of delays in the way with this number in the frame, each with all delays with which some way fails. The
    /// clauses ask that this number and those of the ways are numbers in the frame, which has the lines of all ways. The error is refused memory.
    pub(crate) fn lines(&self, alloc: Global, number: usize) -> Result<Vec<u8>, AllocError>
        requires counted { IsCounted self.now.frame.now }
        requires below { AreBelow self.now.frame.now.count self.now.numbers.now }
        requires within { number < self.now.frame.now.count }
        ensures { IfOk result (λ t. t.items ≡ failing_lines 0 (lines_from self.now.frame.now.lines.items) (way_at (all_choices_of self.now.frame.now.lines.items) number) (map (way_at (all_choices_of self.now.frame.now.lines.items)) self.now.numbers.now) self.now.fails.now) }
    {
        let mut text = Vec::new(alloc);
        // The line's place in the frame.
        let mut place = 0;
        let mut rest = self.frame.lines.as_slice();
        loop {
            match rest {
                [] => return Ok(text),
                [line, more @ ..] => {
                    let choice = self.frame.choice(number, place);
                    self.write_line(alloc, place, line, choice, &mut text)?;
                    place += 1;
                    rest = more;
                }
            }
        }
    }
}

// Whether two answers are the same: both halt, or both have the same value.
fn is_same_answer(a: Answer, b: Answer) -> bool
    ensures { result ≡ answer_eq a b }
{
    match (a, b) {
        (Answer::Value(v), Answer::Value(w)) => v == w,
        (Answer::Halt, Answer::Halt) => true,
        _ => false,
    }
}

// The delay of what a choice has for a call (`found`), if that is this answer; None for another answer, for `never`, and where there is nothing.
fn delay_among(answer: Answer, found: Option<Found>) -> Option<u64>
    ensures { result ≡ delay_among answer found }
{
    match found {
        Some(Found::After(other, delay)) => {
            if is_same_answer(other, answer) {
                Some(delay)
            } else {
                None
            }
        }
        _ => None,
    }
}

// The delay after which a line with this choice gives this answer to the call at a place, from 0; None if the choice has no range or answers
// otherwise there.
fn delay_in(place: usize, answer: Answer, choice: Option<&Choice>) -> Option<u64>
    ensures { result ≡ delay_in place answer (option_map (λ c. choice_of c.now) choice.entry) }
{
    match choice {
        Some(choice) => {
            if choice.is_ranged {
                delay_among(answer, choice.answers.get(place).copied())
            } else {
                None
            }
        }
        None => None,
    }
}
