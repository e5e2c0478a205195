//! The text of a script's lines, as docs/orc.md, *Scripts*, has it. Each `push_..` appends to `out`; its error is refused memory, and then `out` may
//! end anywhere.
//!
//! The loops take `rest`, what is left of a slice, apart from the front, as the definitions in specs/ take lists apart.

ghost use Rattle.std.specs.Prelude.{◌≡◌, ◌++◌, OnOk, map, codes, decimal, true};
ghost use Rattle.orc_rules.specs.Text.{value_text};
ghost use Rattle.orc_cases.specs.Texts.{after_text, answer_text, answers_text, closing, halts_text, interval_text, intervals_text, lacking_end, mark, more_answers, pattern_text, patterns_text, reply_text};

use crate::intervals::Interval;
use orc_claims::claim::Slot;
use orc_rules::value::{Answer, Found, Value};
use std::alloc::AllocError;

// Appends a value: a number in decimal, `true`, `false` or `signal`. The error is refused memory.
fn push_value(out: &mut Vec<u8>, value: Value) -> Result<(), AllocError>
    ensures { OnOk result (out.new.items ≡ out.old.items ++ value_text value) }
{
    match value {
        Value::Number(number) => {
            let mut buffer = itoa::Buffer::new();
            out.extend_from_slice(buffer.format(number).as_bytes())
        }
        Value::Truth(true) => out.extend_from_slice(b"true"),
        Value::Truth(false) => out.extend_from_slice(b"false"),
        Value::Signal => out.extend_from_slice(b"signal"),
    }
}

// Appends a pattern of a service: a value, or `_`. A service has no variables, so the case for one is never met. The error is refused memory.
fn push_pattern(out: &mut Vec<u8>, pattern: Slot) -> Result<(), AllocError>
    ensures { OnOk result (out.new.items ≡ out.old.items ++ pattern_text pattern) }
{
    match pattern {
        Slot::Literal(value) => push_value(out, value),
        Slot::Any | Slot::Variable(_) => out.extend_from_slice(b"_"),
    }
}

// Appends the patterns behind the first one, each after a comma, and the bracket that closes. The error is refused memory.
fn push_closing(out: &mut Vec<u8>, patterns: &[Slot]) -> Result<(), AllocError>
    ensures { OnOk result (out.new.items ≡ out.old.items ++ closing patterns.now) }
{
    let mut rest = patterns;
    loop {
        match rest {
            [] => return out.extend_from_slice(b")"),
            [pattern, more @ ..] => {
                out.extend_from_slice(b", ")?;
                push_pattern(out, *pattern)?;
                rest = more;
            }
        }
    }
}

// Appends the patterns of a service in brackets: `(_, 1)`, or `()` for none. The error is refused memory.
fn push_patterns(out: &mut Vec<u8>, patterns: &[Slot]) -> Result<(), AllocError>
    ensures { OnOk result (out.new.items ≡ out.old.items ++ patterns_text patterns.now) }
{
    match patterns {
        [] => out.extend_from_slice(b"()"),
        [pattern, more @ ..] => {
            out.extend_from_slice(b"(")?;
            push_pattern(out, *pattern)?;
            push_closing(out, more)
        }
    }
}

// Appends ` after N`, or nothing for a delay of 0. The error is refused memory.
fn push_after(out: &mut Vec<u8>, delay: u64) -> Result<(), AllocError>
    ensures { OnOk result (out.new.items ≡ out.old.items ++ after_text delay) }
{
    if delay == 0 {
        return Ok(());
    }
    let mut buffer = itoa::Buffer::new();
    out.extend_from_slice(b" after ")?;
    out.extend_from_slice(buffer.format(delay).as_bytes())
}

/// Appends what is answered, without its delay. The error is refused memory.
pub(crate) fn push_reply(out: &mut Vec<u8>, answer: Answer) -> Result<(), AllocError>
    ensures { OnOk result (out.new.items ≡ out.old.items ++ reply_text answer) }
{
    match answer {
        Answer::Halt => out.extend_from_slice(b"halt"),
        Answer::Value(value) => push_value(out, value),
    }
}

// Appends a number in decimal. The error is refused memory.
fn push_number(out: &mut Vec<u8>, number: u64) -> Result<(), AllocError>
    ensures { OnOk result (out.new.items ≡ out.old.items ++ decimal number) }
{
    let mut buffer = itoa::Buffer::new();
    out.extend_from_slice(buffer.format(number).as_bytes())
}

// Appends an interval: `3..7`, or `12` for one number. The error is refused memory.
fn push_interval(out: &mut Vec<u8>, interval: Interval) -> Result<(), AllocError>
    ensures { OnOk result (out.new.items ≡ out.old.items ++ interval_text interval) }
{
    push_number(out, interval.first)?;
    if interval.first == interval.last {
        return Ok(());
    }
    out.extend_from_slice(b"..")?;
    push_number(out, interval.last)
}

/// Appends intervals: `3..7, 12`. The error is refused memory.
pub(crate) fn push_intervals(out: &mut Vec<u8>, intervals: &[Interval]) -> Result<(), AllocError>
    ensures { OnOk result (out.new.items ≡ out.old.items ++ intervals_text true intervals.now) }
{
    let mut is_first = true;
    let mut rest = intervals;
    loop {
        match rest {
            [] => return Ok(()),
            [interval, more @ ..] => {
                if !is_first {
                    out.extend_from_slice(b", ")?;
                }
                push_interval(out, *interval)?;
                is_first = false;
                rest = more;
            }
        }
    }
}

/// Appends what stands before the answer to the call at a place, from 0: ` = ` before the first one, ` then ` before each other. The error is refused
/// memory.
pub(crate) fn push_mark(out: &mut Vec<u8>, place: usize) -> Result<(), AllocError>
    ensures { OnOk result (out.new.items ≡ out.old.items ++ mark place) }
{
    match place {
        0 => out.extend_from_slice(b" = "),
        _ => out.extend_from_slice(b" then "),
    }
}

// Appends one answer with its delay, or `never`. The error is refused memory.
fn push_answer(out: &mut Vec<u8>, answer: Found) -> Result<(), AllocError>
    ensures { OnOk result (out.new.items ≡ out.old.items ++ answer_text answer) }
{
    match answer {
        Found::Never => out.extend_from_slice(b"never"),
        Found::After(Answer::Halt, delay) => {
            out.extend_from_slice(b"halt")?;
            push_after(out, delay)
        }
        Found::After(Answer::Value(value), delay) => {
            push_value(out, value)?;
            push_after(out, delay)
        }
    }
}

// Appends the answers behind the first one, each after a `then`, and the LF. The error is refused memory.
fn push_more_answers(out: &mut Vec<u8>, answers: &[Found]) -> Result<(), AllocError>
    ensures { OnOk result (out.new.items ≡ out.old.items ++ more_answers answers.now) }
{
    let mut rest = answers;
    loop {
        match rest {
            [] => return out.extend_from_slice(b"\n"),
            [answer, more @ ..] => {
                out.extend_from_slice(b" then ")?;
                push_answer(out, *answer)?;
                rest = more;
            }
        }
    }
}

/// Appends the rest of a line from its `=` on, with the LF: ` = 1 after 3 then never`. The error is refused memory.
pub(crate) fn push_answers(out: &mut Vec<u8>, answers: &[Found]) -> Result<(), AllocError>
    ensures { OnOk result (out.new.items ≡ out.old.items ++ answers_text answers.now) }
{
    match answers {
        // Not reached: a choice has an answer.
        [] => out.extend_from_slice(b"\n"),
        [answer, more @ ..] => {
            out.extend_from_slice(b" = ")?;
            push_answer(out, *answer)?;
            push_more_answers(out, more)
        }
    }
}

/// Appends the part of a line before its `=`: `Pay(_, 1)`. The error is refused memory.
pub(crate) fn push_call(out: &mut Vec<u8>, name: &[u8], patterns: &[Slot]) -> Result<(), AllocError>
    ensures { OnOk result (out.new.items ≡ out.old.items ++ (name.now ++ patterns_text patterns.now)) }
{
    out.extend_from_slice(name)?;
    push_patterns(out, patterns)
}

/// Appends the LF that `text`, which was appended before, lacks: one if its last line has none, nothing if it is empty. The error is refused memory.
pub(crate) fn push_end(out: &mut Vec<u8>, text: &[u8]) -> Result<(), AllocError>
    ensures { OnOk result (out.new.items ≡ out.old.items ++ lacking_end text.now) }
{
    let mut rest = text;
    loop {
        match rest {
            [] => return Ok(()),
            [last] => {
                if *last == b'\n' {
                    return Ok(());
                }
                return out.extend_from_slice(b"\n");
            }
            // Only the last byte tells.
            [_, more @ ..] => rest = more,
        }
    }
}

/// Appends a line `NAME() = halt` for each of these names. The error is refused memory.
pub(crate) fn push_halts(out: &mut Vec<u8>, names: &[&[u8]]) -> Result<(), AllocError>
    ensures { OnOk result (out.new.items ≡ out.old.items ++ halts_text (map (λ n. n.now) names.now)) }
{
    let mut rest = names;
    loop {
        match rest {
            [] => return Ok(()),
            [name, more @ ..] => {
                out.extend_from_slice(name)?;
                out.extend_from_slice(b"() = halt\n")?;
                rest = more;
            }
        }
    }
}
