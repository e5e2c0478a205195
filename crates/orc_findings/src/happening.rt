//! The text of what happens in a run: `Pay(7, 100) answered 2001`. Each writer appends to `text`; its error is refused memory. The loops aren't `for`
//! loops, since their invariants speak of the rest of the list. An `Occurrence` is a publication, or what became of a call (its `Phase`); a
//! `Happening` has its time, too. `sites` are those that the test names.

ghost use Rattle.std.specs.Prelude.{◌≡◌, ◌++◌, OnOk, true, length};
ghost use Rattle.std.specs.List.{slice_get};
ghost use Rattle.orc_rules.specs.Text.{arguments, closing};
ghost use Rattle.orc_findings.specs.Texts.{happening_text, is_call, name_of, phase_text, publication_text, published_from};

use orc_claims::happening::{Happening, Occurrence, Phase};
use orc_journal_text::write_value;
use orc_rules::value::Value;
use orc_ways::test::SiteName;
use std::alloc::AllocError;

// Appends the values of a call's arguments after the first one, each behind a comma, and the bracket that closes.
fn write_closing(values: &[Value], text: &mut Vec<u8>) -> Result<(), AllocError>
    ensures { OnOk result (text.new.items ≡ text.old.items ++ closing values.now) }
{
    let mut rest = values;
    loop {
        match rest {
            [] => {
                text.push(b')')?;
                return Ok(());
            }
            [value, more @ ..] => {
                text.extend_from_slice(b", ")?;
                write_value(text, *value)?;
                rest = more;
            }
        }
    }
}

// Appends the arguments of a call: `(7, 100)`, or `()` if there are none.
fn write_arguments(values: &[Value], text: &mut Vec<u8>) -> Result<(), AllocError>
    ensures { OnOk result (text.new.items ≡ text.old.items ++ arguments values.now) }
{
    match values {
        [] => text.extend_from_slice(b"()")?,
        [value, more @ ..] => {
            text.push(b'(')?;
            write_value(text, *value)?;
            write_closing(more, text)?;
        }
    }
    Ok(())
}

// Appends what became of a call, behind a blank: ` answered 2001`
fn write_phase(phase: Phase, text: &mut Vec<u8>) -> Result<(), AllocError>
    ensures { OnOk result (text.new.items ≡ text.old.items ++ phase_text phase) }
{
    match phase {
        Phase::Called => text.extend_from_slice(b" called"),
        Phase::Answered(value) => {
            text.extend_from_slice(b" answered ")?;
            write_value(text, value)
        }
        Phase::Halted => text.extend_from_slice(b" halted"),
        Phase::Cancelled => text.extend_from_slice(b" cancelled"),
    }
}

// Appends the name of the site with this number, which is its place in `sites`, from 0; nothing if there is no such site.
fn write_name(sites: &[SiteName<'_>], site: u32, text: &mut Vec<u8>) -> Result<(), AllocError>
    ensures { OnOk result (text.new.items ≡ text.old.items ++ name_of (slice_get sites.now site)) }
{
    match sites.get(site as usize) {
        Some(site) => text.extend_from_slice(site.name),
        None => Ok(()),
    }
}

/// Appends what happens, as `Pay(7, 100) answered 2001` or `published 3`. The number of a call's site is the site's place in `sites`, from 0. The
/// error is refused memory.
pub fn write_occurrence(
    sites: &[SiteName<'_>],
    what: &Occurrence,
    text: &mut Vec<u8>,
) -> Result<(), AllocError>
    ensures { OnOk result (text.new.items ≡ text.old.items ++ happening_text sites.now what.now) }
{
    match what {
        Occurrence::Published(value) => {
            text.extend_from_slice(b"published ")?;
            write_value(text, *value)
        }
        Occurrence::Call(site, args, phase) => {
            write_name(sites, *site, text)?;
            write_arguments(args.as_slice(), text)?;
            write_phase(*phase, text)
        }
    }
}

/// Appends what happens, as `write_occurrence` does, and not when. The error is refused memory.
pub fn write_happening(
    sites: &[SiteName<'_>],
    happening: &Happening,
    text: &mut Vec<u8>,
) -> Result<(), AllocError>
    ensures { OnOk result (text.new.items ≡ text.old.items ++ happening_text sites.now happening.now.what) }
{
    write_occurrence(sites, &happening.what, text)
}

/// Appends the values that are published among these happenings, in order, each behind a blank, or ` nothing` if none is. The error is refused
/// memory.
pub fn write_published(happenings: &[Happening], text: &mut Vec<u8>) -> Result<(), AllocError>
    ensures { OnOk result (text.new.items ≡ text.old.items ++ published_from true happenings.now) }
{
    let mut is_none = true;
    let mut rest = happenings;
    loop {
        match rest {
            [] => {
                if is_none {
                    text.extend_from_slice(b" nothing")?;
                }
                return Ok(());
            }
            [happening, more @ ..] => {
                if let Occurrence::Published(value) = &happening.what {
                    text.push(b' ')?;
                    write_value(text, *value)?;
                    is_none = false;
                }
                rest = more;
            }
        }
    }
}
