//! The frame of a case: what the scripts of all its ways have in common. A way is a number in the frame, from 0, and `push_way` writes it out. A
//! service is a site whose answers the test says. A case has services of its own, and those of `given`, a section for all cases, that it doesn't
//! override. A test gives a service *alternatives*, the first of them the usual one. A choice says which of them each of its calls takes: a call is
//! *off* if it takes another than the first, and a choice or its line is off if one of its calls is.
//!
//! The loops take `rest`, what is left of a slice, apart from the front, as the definitions in specs/ take lists apart.
//!
//! In contracts `way_at (all_choices_of lines) number` is the way with this number, which is its lines' choices, and `IsCounted` says that `count` is
//! the number of ways.

ghost use Rattle.std.specs.Prelude.{◌≡◌, ◌++◌, ◌<◌, IfOk, OnOk, length, map, option_map, slice_get};
ghost use Rattle.orc_ways.specs.Values.{service_of};
ghost use Rattle.orc_ways.specs.Drafting.{service_lines_of};
ghost use Rattle.orc_cases.specs.Digits.{way_at};
ghost use Rattle.orc_cases.specs.Failing.{has_ranged, is_ranged};
ghost use Rattle.orc_cases.specs.Places.{AreBelow};
ghost use Rattle.orc_cases.specs.Services.{names, new_names};
ghost use Rattle.orc_cases.specs.Texts.{answers_text, halts_text};
ghost use Rattle.orc_cases.specs.Values.{IsCounted, all_choices_of, choice_of, line_from, lines_from, services_at, ways_from};
ghost use Rattle.orc_cases.specs.Ways.{combinations, is_shown, line_of, line_text, lines_text, script_text};

use crate::choices::{Choice, choices};
use crate::lines::{other_names, service_at};
use crate::text::{push_answers, push_call, push_end, push_halts};
use orc_ways::test::{Service, ServiceLine};
use std::alloc::{AllocError, Global};

/// A line of a service, which is in the script of each way. A way is one choice of each line of a case's services.
#[derive(Drop)]
pub(crate) struct Line {
    /// What stands before its `=`, such as `Pay(_, 1)`.
    pub(crate) call: Vec<u8>,
    /// What may stand from its `=` on: one choice for each thing that the service may do in a way.
    pub(crate) choices: Vec<Choice>,
}

/// What the scripts of a case have in common.
#[derive(Drop)]
pub(crate) struct Frame {
    /// One for each service of the case: its own services in their order, then those of `given`.
    pub(crate) lines: Vec<Line>,
    /// A line `NAME() = halt` for each name of a service that the test has and the case hasn't.
    pub(crate) halts: Vec<u8>,
    /// How many ways there are: the product of the lines' numbers of choices. Each number below is a way. Its digits are the places of the lines'
    /// choices, each digit in the base of its line's number of choices, the last line's digit the lowest.
    pub(crate) count: usize,
}

// The line of a service, with all that the service may do. The error is refused memory.
fn line_of(alloc: Global, service: &Service<'_>) -> Result<Line, AllocError>
    ensures { IfOk result (λ l. line_from l ≡ line_of (service_of service.now)) }
{
    let mut call = Vec::new(alloc);
    push_call(&mut call, service.name, service.patterns.as_slice())?;
    let choices = choices(alloc, service)?;
    Ok(Line { call, choices })
}

/// The lines of the services at these places of the test's list, each with what it may do. A place that isn't in the list would be left out;
/// `case_places` gives none such. The error is refused memory.
pub(crate) fn lines_of(
    alloc: Global,
    services: &[ServiceLine<'_>],
    places: &[usize],
) -> Result<Vec<Line>, AllocError>
    ensures { IfOk result (λ ls. lines_from ls.items ≡ map line_of (services_at services.now places.now)) }
{
    let mut lines = Vec::new(alloc);
    let mut rest = places;
    loop {
        match rest {
            [] => return Ok(lines),
            [place, more @ ..] => {
                if let Some(service) = service_at(services, *place) {
                    lines.push(line_of(alloc, service)?)?;
                }
                rest = more;
            }
        }
    }
}

/// The text of a line `NAME() = halt` for each name that services of the test have, but none of the services at these places. The error is refused
/// memory.
pub(crate) fn halts_of(
    alloc: Global,
    services: &[ServiceLine<'_>],
    places: &[usize],
) -> Result<Vec<u8>, AllocError>
    ensures { IfOk result (λ t. t.items ≡ halts_text (new_names (names (services_at services.now places.now)) (map (λ l. l.service) (service_lines_of services.now)))) }
{
    let names = other_names(alloc, services, places)?;
    let mut halts = Vec::new(alloc);
    push_halts(&mut halts, names.as_slice())?;
    Ok(halts)
}

// Whether a way's text has a line with this choice. With `only_telling` it has only the lines that tell the way from others: those that are off, or
// whose alternative has a range of delays, each of which is a way. Otherwise it has every line.
fn is_shown(only_telling: bool, choice: &Choice) -> bool
    ensures { result ≡ is_shown only_telling (choice_of choice.now) }
{
    !only_telling || choice.off > 0 || choice.is_ranged
}

// Writes a line with this choice, if `is_shown` says so: what stands before its `=`, and the answers behind. The error is refused memory.
fn push_line(
    text: &mut Vec<u8>,
    line: &Line,
    choice: &Choice,
    only_telling: bool,
) -> Result<(), AllocError>
    ensures { OnOk result (text.new.items ≡ text.old.items ++ line_text only_telling (line_from line.now) (choice_of choice.now)) }
{
    if !is_shown(only_telling, choice) {
        return Ok(());
    }
    text.extend_from_slice(line.call.as_slice())?;
    push_answers(text, choice.answers.as_slice())
}

// Writes the lines of the way with this number, from 0; with `only_telling` those alone that tell it from other ways. `count` is the number of all
// ways of these lines, and `way_at` is the way of a number. The error is refused memory.
fn push_way(
    text: &mut Vec<u8>,
    lines: &[Line],
    count: usize,
    number: usize,
    only_telling: bool,
) -> Result<(), AllocError>
    requires counted { count ≡ length (combinations (all_choices_of lines.now)) }
    requires within { number < count }
    ensures { OnOk result (text.new.items ≡ text.old.items ++ lines_text only_telling (lines_from lines.now) (way_at (all_choices_of lines.now) number)) }
{
    // How many ways the lines have that are still to come.
    let mut left = count;
    // What is left of the number: its digits from this line on.
    let mut digits = number;
    for line in lines {
        let choices = line.choices.as_slice();
        // `left` is how many ways the lines behind this one have: no length here is 0, since their product `count` is over `number`.
        left /= choices.len();
        // The first of the digits is the place of this line's choice.
        let choice = &choices[digits / left];
        push_line(text, line, choice, only_telling)?;
        digits %= left;
    }
    Ok(())
}

// The choice of the line at a place, from 0, in the way with this number, of `count` ways; None where there is no such line. The number's digits are
// the places of the lines' choices, the first line's digit the highest.
fn choice_at(lines: &[Line], count: usize, number: usize, place: usize) -> Option<&Choice>
    requires counted { count ≡ length (combinations (all_choices_of lines.now)) }
    requires within { number < count }
    ensures { option_map (λ c. choice_of c.now) result ≡ slice_get (way_at (all_choices_of lines.now) number) place }
{
    // How many ways the lines have that are still to come, and what is left of the number: its digits from the next line on.
    let mut left = count;
    let mut digits = number;
    // How many lines still stand before the one at `place`.
    let mut before = place;
    for line in lines {
        let choices = line.choices.as_slice();
        // `left` is then how many ways the lines behind this one have, and the first of the digits is the place of this line's choice.
        left /= choices.len();
        let choice = &choices[digits / left];
        if before == 0 {
            return Some(choice);
        }
        before -= 1;
        digits %= left;
    }
    None
}

// Whether there is a choice and it takes an alternative with a range of delays.
fn is_ranged(choice: Option<&Choice>) -> bool
    ensures { result ≡ is_ranged (option_map (λ c. choice_of c.now) choice.entry) }
{
    match choice {
        Some(choice) => choice.is_ranged,
        None => false,
    }
}

impl Frame {
    /// The choice of the line at a place, from 0, in the way with this number in the frame, from 0; None where there is no such line. `counted` asks
    /// that the frame's `count` is the number of ways.
    pub(crate) fn choice(&self, number: usize, place: usize) -> Option<&Choice>
        requires counted { IsCounted self.now }
        requires within { number < self.now.count }
        ensures { option_map (λ c. choice_of c.now) result ≡ slice_get (way_at (all_choices_of self.now.lines.items) number) place }
    {
        choice_at(self.lines.as_slice(), self.count, number, place)
    }

    /// Whether a line takes an alternative with a range of delays in the way with this number in the frame, from 0.
    pub(crate) fn has_range(&self, number: usize) -> bool
        requires counted { IsCounted self.now }
        requires within { number < self.now.count }
        ensures { result ≡ has_ranged 0 (lines_from self.now.lines.items) (way_at (all_choices_of self.now.lines.items) number) }
    {
        // The line's place, from 0.
        let mut place = 0;
        let mut rest = self.lines.as_slice();
        loop {
            match rest {
                [] => return false,
                [_line, more @ ..] => {
                    if is_ranged(self.choice(number, place)) {
                        return true;
                    }
                    place += 1;
                    rest = more;
                }
            }
        }
    }

    /// The text of the lines of the way with this number in the frame, from 0; with `only_telling` of those alone that are off (a call doesn't take
    /// the first alternative) or take an alternative with a range of delays. The error is refused memory.
    pub(crate) fn way(
        &self,
        alloc: Global,
        number: usize,
        only_telling: bool,
    ) -> Result<Vec<u8>, AllocError>
        requires counted { IsCounted self.now }
        requires within { number < self.now.count }
        ensures { IfOk result (λ t. t.items ≡ lines_text only_telling (lines_from self.now.lines.items) (way_at (all_choices_of self.now.lines.items) number)) }
    {
        let mut text = Vec::new(alloc);
        push_way(
            &mut text,
            self.lines.as_slice(),
            self.count,
            number,
            only_telling,
        )?;
        Ok(text)
    }

    // The script of the way with this number in the frame, from 0: the lines of its services, then those that the caller hands in (`behind`), and
    // last a line `NAME() = halt` for each name that the test's services have and the case's haven't (`halts`). The error is refused memory.
    fn script(&self, alloc: Global, number: usize, behind: &[u8]) -> Result<Vec<u8>, AllocError>
        requires counted { IsCounted self.now }
        requires within { number < self.now.count }
        ensures { IfOk result (λ t. t.items ≡ script_text (ways_from self.now) behind.now (way_at (all_choices_of self.now.lines.items) number)) }
    {
        // `false`: all lines of the way, and not only those that tell it from others.
        let mut text = self.way(alloc, number, false)?;
        text.extend_from_slice(behind)?;
        // The caller's text may lack its last LF.
        push_end(&mut text, behind)?;
        text.extend_from_slice(self.halts.as_slice())?;
        Ok(text)
    }

    /// The scripts of the ways with these numbers in the frame, in that order, each with the lines `behind` after those of its services. The error is
    /// refused memory.
    pub(crate) fn scripts(
        &self,
        alloc: Global,
        numbers: &[usize],
        behind: &[u8],
    ) -> Result<Vec<Vec<u8>>, AllocError>
        requires counted { IsCounted self.now }
        requires within { AreBelow self.now.count numbers.now }
        ensures { IfOk result (λ ts. map (λ t. t.items) ts.items ≡ map (λ n. script_text (ways_from self.now) behind.now (way_at (all_choices_of self.now.lines.items) n)) numbers.now) }
    {
        let mut scripts = Vec::new(alloc);
        let mut rest = numbers;
        loop {
            match rest {
                [] => return Ok(scripts),
                [number, more @ ..] => {
                    scripts.push(self.script(alloc, *number, behind)?)?;
                    rest = more;
                }
            }
        }
    }
}
