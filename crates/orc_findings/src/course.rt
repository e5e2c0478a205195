//! Where in a run a claim fails, as text: at a happening, or at the run's end. `sites` are those of the test: a site's number in claims is its place
//! there, from 0. A happening is a publication, or what became of a call, with its time. A `Verdict` says at which happening a claim fails, or that
//! it fails at the end.

ghost use Rattle.std.specs.Prelude.{◌≡◌, ◌++◌, OnOk, decimal};
ghost use Rattle.std.specs.List.{slice_get};
ghost use Rattle.orc_findings.specs.Course.{at_text, end_text, end_word, moment_text, place_text, standing_text};

use crate::happening::{write_happening, write_published};
use orc_claims::Verdict;
use orc_claims::happening::Happening;
use orc_outcome::End;
use orc_ways::test::SiteName;
use std::alloc::{AllocError, Global};

/// How a run stands where its journal ends.
#[derive(Clone, Copy)]
pub(crate) enum Standing {
    /// The run has ended in this way.
    Ended(End),
    /// The run hasn't ended: at the end of the journal it is neither halted nor quiet.
    Running,
}

/// The course of a run in which a claim may fail.
#[derive(Clone, Copy)]
pub(crate) struct Course<'s> {
    /// What happened, where sites have the numbers that claims have for them.
    pub(crate) happenings: &'s [Happening],
    /// Whether and how the run has ended where its journal ends.
    pub(crate) standing: Standing,
    /// The time at the end of the journal, in logical units.
    pub(crate) time: u64,
}

/// What an end is called in texts on claims. A run ends `Full` where it needs more than a limit of the engine allows, and `Limit` where its journal
/// has as many entries as it may.
pub(crate) fn word_of(end: End) -> &'static str
    ensures { result.now ≡ end_word end }
{
    match end {
        End::Halted => "Halted",
        End::Quiet => "Quiet",
        End::Limit => "cut by the limit",
        End::Full => "Full",
        End::Memory => "without memory",
    }
}

// Appends how a run stands: `ended Halted`, or `not ended`. The error is refused memory, here and below.
fn write_standing(standing: Standing, text: &mut Vec<u8>) -> Result<(), AllocError>
    ensures { OnOk result (text.new.items ≡ text.old.items ++ standing_text standing) }
{
    match standing {
        Standing::Ended(end) => {
            text.extend_from_slice(b"ended ")?;
            text.extend_from_slice(word_of(end).as_bytes())
        }
        Standing::Running => text.extend_from_slice(b"not ended"),
    }
}

/// Appends these words and the number behind them; a blank between the two has to be in `words`.
pub(crate) fn write_numbered(
    alloc: Global,
    words: &'static str,
    number: u64,
    text: &mut Vec<u8>,
) -> Result<(), AllocError>
    ensures { OnOk result (text.new.items ≡ text.old.items ++ (words.now ++ decimal number)) }
{
    let line = format!(in alloc; "{words}{number}")?;
    text.extend_from_slice(line.as_bytes())
}

// Appends a happening and its logical time: `time 12: PayB(7) answered 2001`. `sites` are those of the test.
fn write_moment(
    alloc: Global,
    sites: &[SiteName<'_>],
    happening: &Happening,
    text: &mut Vec<u8>,
) -> Result<(), AllocError>
    ensures { OnOk result (text.new.items ≡ text.old.items ++ moment_text sites.now happening.now) }
{
    write_numbered(alloc, "time ", happening.time, text)?;
    text.extend_from_slice(b": ")?;
    write_happening(sites, happening, text)?;
    Ok(())
}

impl Course<'_> {
    // Appends how and when the run has ended, and what it published: `ended Quiet at time 40, having published 1 2`
    fn write_end(&self, alloc: Global, text: &mut Vec<u8>) -> Result<(), AllocError>
        ensures { OnOk result (text.new.items ≡ text.old.items ++ end_text self.now.standing self.now.happenings.now self.now.time) }
    {
        write_standing(self.standing, text)?;
        write_numbered(alloc, " at time ", self.time, text)?;
        text.extend_from_slice(b", having published")?;
        write_published(self.happenings, text)?;
        Ok(())
    }

    // Appends the happening at the place `at` among those of the run, from 0, with its time; the run's end if there is no such happening.
    fn write_at(
        &self,
        alloc: Global,
        sites: &[SiteName<'_>],
        at: usize,
        text: &mut Vec<u8>,
    ) -> Result<(), AllocError>
        ensures { OnOk result (text.new.items ≡ text.old.items ++ at_text sites.now self.now.standing self.now.happenings.now self.now.time (slice_get self.now.happenings.now at)) }
    {
        match self.happenings.get(at) {
            Some(happening) => write_moment(alloc, sites, happening, text),
            None => self.write_end(alloc, text),
        }
    }

    /// Appends where a claim with this verdict fails: at a happening, or at the run's end. For a claim that holds it appends the end, too. The error
    /// is refused memory.
    pub(crate) fn write_place(
        &self,
        alloc: Global,
        sites: &[SiteName<'_>],
        verdict: Verdict,
        text: &mut Vec<u8>,
    ) -> Result<(), AllocError>
        ensures { OnOk result (text.new.items ≡ text.old.items ++ place_text sites.now self.now.standing self.now.happenings.now self.now.time verdict) }
    {
        match verdict {
            Verdict::FailsAt(at) => self.write_at(alloc, sites, at, text),
            Verdict::Holds | Verdict::FailsAtEnd => self.write_end(alloc, text),
        }
    }
}
