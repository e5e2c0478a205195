//! Writing what a run published.

ghost use Rattle.std.specs.Prelude.{OnOk, OnErr};
ghost use Rattle.std.specs.Io.KnownBytes.{Appends};
ghost use Rattle.orc_rules.specs.Text.{output};
ghost use Rattle.orc_output.specs.Output.{AppendsPrefix};

use crate::output::{WriteFault, write_text};
use orc_journal_text::write_publications;
use orc_rules::value::Value;
use std::alloc::Global;
use std::io::Write;

/// Writes a line for each value, in their order. The fault is that the output failed or took nothing, and then a prefix of the text was written; or
/// that memory for the text was refused, and then nothing was.
pub fn write_values<W: Write>(
    alloc: Global,
    values: &[Value],
    out: &mut W,
) -> Result<(), WriteFault>
    ensures ok { OnOk result (Appends (W.contents out.old) (W.contents out.new) (output values.now)) }
    ensures err { OnErr result (AppendsPrefix (W.contents out.old) (W.contents out.new) (output values.now)) }
{
    let mut text = Vec::new(alloc);
    if write_publications(&mut text, values).is_err() {
        return Err(WriteFault);
    }
    write_text(out, text.as_slice())
}
