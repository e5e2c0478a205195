//! What stands below a claim that fails in the table of a test: the way, where the claim fails in its run, or what it saw of a run that a search
//! found. Each writer appends to `text`; its error is refused memory. `sites` are those of the test, whose places are the sites' numbers. A
//! *happening* is a publication, or what became of a call, with its time. The loops aren't `for` loops, since their invariants speak of what is left.
//! A run is made in some *order* of its turns. A `Verdict` says at which happening a claim fails, or that it fails at the end, and a `Course` names
//! that place in a run.
//!
//! With columns from 0, the lines of a way begin in column 11, behind the failure's number; where a claim fails and what it saw in column 9, below
//! the claim's text.

ghost use Rattle.std.specs.Prelude.{◌≡◌, ◌++◌, OnOk, true};
ghost use Rattle.orc_findings.specs.Below.{at_time, failing_text, headed, lines_or_usual, number_text, seen_all, seen_one, seen_text, time_text, timed, way_text};

use crate::course::{Course, Standing, word_of, write_numbered};
use crate::happening::write_occurrence;
use orc_claims::Verdict;
use orc_claims::happening::Happening;
use orc_outcome::End;
use orc_ways::test::SiteName;
use std::alloc::{AllocError, Global};

// Appends the number of a failure, as `    [12]`, and blanks up to column 11, from 0, where the lines of the failure's way begin.
fn write_number(alloc: Global, number: usize, text: &mut Vec<u8>) -> Result<(), AllocError>
    ensures { OnOk result (text.new.items ≡ text.old.items ++ number_text number) }
{
    let head = format!(in alloc; "    [{number}]")?;
    text.extend_from_slice(head.as_bytes())?;
    // As many blanks as are left of column 11; None if the number reaches past it.
    match b"           ".get(head.len()..) {
        Some(blanks) => text.extend_from_slice(blanks),
        None => Ok(()),
    }
}

// Appends lines, each with its LF. `head` stands before each but the first, and before that one, too, if `begins` is true.
fn write_headed(
    begins: bool,
    head: &[u8],
    lines: &[u8],
    text: &mut Vec<u8>,
) -> Result<(), AllocError>
    ensures { OnOk result (text.new.items ≡ text.old.items ++ headed begins head.now lines.now) }
{
    // Whether the next byte is the first of a line that gets the head.
    let mut is_first = begins;
    let mut rest = lines;
    loop {
        match rest {
            [] => return Ok(()),
            [byte, more @ ..] => {
                if is_first {
                    text.extend_from_slice(head)?;
                }
                text.push(*byte)?;
                is_first = *byte == b'\n';
                rest = more;
            }
        }
    }
}

// Appends the lines of a failure's way (how its services behave) that aren't usual. Each but the first gets blanks before it, since the first stands
// behind the failure's number. If there are none it appends a sentence that says so.
fn write_or_usual(lines: &[u8], text: &mut Vec<u8>) -> Result<(), AllocError>
    ensures { OnOk result (text.new.items ≡ text.old.items ++ lines_or_usual lines.now) }
{
    if lines.is_empty() {
        return text.extend_from_slice(b"all services as usual\n");
    }
    write_headed(false, b"           ", lines, text)
}

/// Appends the number of a failure, from 1, and behind it those lines of its way (how the services behave) that aren't usual, or, if there are none,
/// that all services are as usual. `lines` are whole lines with their LF. The error is refused memory.
pub fn write_way(
    alloc: Global,
    number: usize,
    lines: &[u8],
    text: &mut Vec<u8>,
) -> Result<(), AllocError>
    ensures { OnOk result (text.new.items ≡ text.old.items ++ way_text number lines.now) }
{
    write_number(alloc, number, text)?;
    write_or_usual(lines, text)
}

// Appends a time: `time 12`, or `a time over 30` if `latest` is 31 and the time isn't below it. `latest` is the latest time that the claim tells
// apart, and stands for all times from it on. If it is the greatest that there is, all times are told apart.
fn write_time(alloc: Global, latest: u64, time: u64, text: &mut Vec<u8>) -> Result<(), AllocError>
    ensures { OnOk result (text.new.items ≡ text.old.items ++ time_text latest time) }
{
    if time < latest || latest == u64::MAX {
        return write_numbered(alloc, "time ", time, text);
    }
    write_numbered(alloc, "a time over ", latest.saturating_sub(1), text)
}

// Appends a time before what happened then: `time 12: `. Nothing if `latest`, the latest time that the claim tells apart, is 0: the claim asks for
// no time.
fn write_timed(alloc: Global, latest: u64, time: u64, text: &mut Vec<u8>) -> Result<(), AllocError>
    ensures { OnOk result (text.new.items ≡ text.old.items ++ timed latest time) }
{
    if latest == 0 {
        return Ok(());
    }
    write_time(alloc, latest, time, text)?;
    text.extend_from_slice(b": ")
}

// Appends a time behind an end: ` at time 12`. Nothing if `latest`, the latest time that the claim tells apart, is 0: the claim asks for no time.
fn write_at(alloc: Global, latest: u64, time: u64, text: &mut Vec<u8>) -> Result<(), AllocError>
    ensures { OnOk result (text.new.items ≡ text.old.items ++ at_time latest time) }
{
    if latest == 0 {
        return Ok(());
    }
    text.extend_from_slice(b" at ")?;
    write_time(alloc, latest, time, text)
}

// Appends one of the happenings that a claim saw, with its time if `latest`, the latest time that the claim tells apart, isn't 0. A comma stands
// behind it, since the run's end always follows.
fn write_one(
    alloc: Global,
    sites: &[SiteName<'_>],
    latest: u64,
    happening: &Happening,
    text: &mut Vec<u8>,
) -> Result<(), AllocError>
    ensures { OnOk result (text.new.items ≡ text.old.items ++ seen_one sites.now latest happening.now) }
{
    write_timed(alloc, latest, happening.time, text)?;
    write_occurrence(sites, &happening.what, text)?;
    text.extend_from_slice(b", ")?;
    Ok(())
}

/// A run that ended, as claims see it.
#[derive(Clone, Copy)]
pub struct Ended<'s> {
    /// What happened in the run, or the part that a claim sees. Sites have the numbers that claims have for them.
    pub happenings: &'s [Happening],
    /// How the run ended.
    pub end: End,
    /// When the run ended, in units of logical time.
    pub time: u64,
}

impl Ended<'_> {
    /// Appends the line that says where a claim with this verdict fails in the run, at a happening with its time or at the end, and in which order,
    /// from 0, the run was made. The error is refused memory.
    pub fn write_failing(
        &self,
        alloc: Global,
        sites: &[SiteName<'_>],
        verdict: Verdict,
        order: u64,
        text: &mut Vec<u8>,
    ) -> Result<(), AllocError>
        ensures { OnOk result (text.new.items ≡ text.old.items ++ failing_text sites.now self.now.happenings.now self.now.end self.now.time verdict order) }
    {
        let course = Course {
            happenings: self.happenings,
            standing: Standing::Ended(self.end),
            time: self.time,
        };
        // Nine blanks: the line begins below the claim's text.
        text.extend_from_slice(b"         ")?;
        course.write_place(alloc, sites, verdict, text)?;
        write_numbered(alloc, " (order ", order, text)?;
        text.extend_from_slice(b")\n")?;
        Ok(())
    }

    // Appends the happenings, each with its time if `latest`, the latest time that the claim tells apart, isn't 0.
    fn write_all(
        &self,
        alloc: Global,
        sites: &[SiteName<'_>],
        latest: u64,
        text: &mut Vec<u8>,
    ) -> Result<(), AllocError>
        ensures { OnOk result (text.new.items ≡ text.old.items ++ seen_all sites.now latest self.now.happenings.now) }
    {
        let mut rest = self.happenings;
        loop {
            match rest {
                [] => return Ok(()),
                [happening, more @ ..] => {
                    write_one(alloc, sites, latest, happening, text)?;
                    rest = more;
                }
            }
        }
    }

    /// Appends the line that says what a claim saw of the run, which is `happenings`, and how the run ended. `latest` is the latest time that the
    /// claim tells apart; if it is 0 the claim asks for no time, and the line has none. The error is refused memory.
    pub fn write_seen(
        &self,
        alloc: Global,
        sites: &[SiteName<'_>],
        latest: u64,
        text: &mut Vec<u8>,
    ) -> Result<(), AllocError>
        ensures { OnOk result (text.new.items ≡ text.old.items ++ seen_text sites.now latest self.now.happenings.now self.now.end self.now.time) }
    {
        // Nine blanks: the line begins below the claim's text.
        text.extend_from_slice(b"         ")?;
        text.extend_from_slice(b"saw: ")?;
        self.write_all(alloc, sites, latest, text)?;
        text.extend_from_slice(word_of(self.end).as_bytes())?;
        write_at(alloc, latest, self.time, text)?;
        text.push(b'\n')?;
        Ok(())
    }
}

/// Appends lines with this head before each. The error is refused memory.
pub fn write_each(head: &[u8], lines: &[u8], text: &mut Vec<u8>) -> Result<(), AllocError>
    ensures { OnOk result (text.new.items ≡ text.old.items ++ headed true head.now lines.now) }
{
    write_headed(true, head, lines, text)
}
