//! What a run published, and at which time, from its journal: the text of `orc run --times`.

ghost use Rattle.std.specs.Prelude.{◌≡◌, ◌++◌, IfOk, OnOk, OnErr};
ghost use Rattle.std.specs.Io.KnownBytes.{Appends};
ghost use Rattle.orc_output.specs.Output.{AppendsPrefix};
ghost use Rattle.orc_run.specs.Times.{timed, timed_line};

use orc_journal::Journal;
use orc_journal_text::write_value;
use orc_output::{WriteFault, write_text};
use orc_rules::entry::Entry;
use orc_rules::value::Value;
use std::alloc::{AllocError, Global};
use std::io::Write;

// Adds the line of a value that is published at this time: `42 at 3`. The error is refused memory.
fn write_line(alloc: Global, lines: &mut Vec<u8>, value: Value, now: u64) -> Result<(), AllocError>
    ensures { OnOk result (lines.new.items ≡ lines.old.items ++ timed_line value now) }
{
    write_value(lines, value)?;
    let time = format!(in alloc; " at {now}\n")?;
    lines.extend_from_slice(time.as_bytes())?;
    Ok(())
}

// A line for each value that a journal publishes, with its time. The error is refused memory.
fn times_of(alloc: Global, journal: &Journal) -> Result<Vec<u8>, AllocError>
    ensures told { IfOk result (λ lines. lines.items ≡ timed 0 journal.now.entries) }
{
    let mut lines = Vec::new(alloc);
    // The time so far: that of the last tick.
    let mut now = 0;
    for at in 0..journal.len() {
        let Some(entry) = journal.get(at) else {
            // `at` is a place of the journal.
            unreachable!()
        };
        match entry {
            Entry::Publish(_, value) => write_line(alloc, &mut lines, value, now)?,
            Entry::Tick(time) => now = time,
            // No other entry publishes, or lets time pass.
            _ => {}
        }
    }
    Ok(lines)
}

/// Writes a line for each value that a run published, with its logical time, from its journal. The error is refused memory for the lines, and then
/// nothing was written; or the output's, and then a prefix was.
pub fn write_times<W: Write>(
    alloc: Global,
    journal: &Journal,
    out: &mut W,
) -> Result<(), WriteFault>
    ensures ok { OnOk result (Appends (W.contents out.old) (W.contents out.new) (timed 0 journal.now.entries)) }
    ensures err { OnErr result (AppendsPrefix (W.contents out.old) (W.contents out.new) (timed 0 journal.now.entries)) }
{
    let Ok(lines) = times_of(alloc, journal) else {
        return Err(WriteFault);
    };
    write_text(out, lines.as_slice())
}
