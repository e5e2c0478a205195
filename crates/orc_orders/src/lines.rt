//! The lines that tell of outcomes, as `orc outcomes` writes them.

ghost use Rattle.std.specs.Prelude.{◌≡◌, ◌++◌, codes, IfOk, OnOk};
ghost use Rattle.std.specs.List.{flat_map};
ghost use Rattle.orc_rules.specs.Text.{value};
ghost use Rattle.orc_orders.specs.Lines.{end_word, head, lines, unseen_head, unseen_line};

use crate::seen::Seen;
use orc_journal_text::write_value;
use orc_outcome::End;
use orc_rules::value::Value;
use std::alloc::{AllocError, Global};

// The word for how a run ended, in an outcome's line.
fn word_of(end: End) -> &'static str
    ensures { result.now ≡ end_word end }
{
    match end {
        End::Halted => "Halted",
        End::Quiet => "Quiet",
        End::Limit => "Limit",
        End::Full => "Full",
        End::Memory => "Memory",
    }
}

// The part of an outcome's line before the values: `order 3 (43 of 100) Halted:` says that order 3 (a number that decides what comes first in a run)
// is the first whose run came to the outcome, and that 43 of the 100 `orders` did. The error is refused memory.
fn head_of(alloc: Global, orders: u64, seen: &Seen) -> Result<Vec<u8>, AllocError>
    ensures { IfOk result (λ t. t.items ≡ head orders seen.now) }
{
    // By `seen` the first order that came to the outcome, and how many did.
    let first = seen.first;
    let times = seen.times;
    let word = word_of(seen.end);
    let head = format!(in alloc; "order {first} ({times} of {orders}) {word}:")?;
    Ok(head.into_bytes())
}

// The part of an outcome's line before the values where none of `orders` orders came to the outcome, which a search has found:
// `no order (0 of 100) Halted:`. The error is refused memory.
fn unseen_head_of(alloc: Global, orders: u64, end: End) -> Result<Vec<u8>, AllocError>
    ensures { IfOk result (λ t. t.items ≡ unseen_head orders end) }
{
    let word = word_of(end);
    let head = format!(in alloc; "no order (0 of {orders}) {word}:")?;
    Ok(head.into_bytes())
}

// Adds each value to the text `out`, after a space. If memory is refused some of them may be there.
fn write_values(out: &mut Vec<u8>, published: &[Value]) -> Result<(), AllocError>
    ensures { OnOk result (out.new.items ≡ out.old.items ++ flat_map value published.now) }
{
    for value in published {
        out.push(b' ')?;
        write_value(out, *value)?;
    }
    Ok(())
}

// Adds a line to the text `out`: its head, the values, and LF. If memory is refused a part of the line may be there.
fn write_line(out: &mut Vec<u8>, head: &[u8], published: &[Value]) -> Result<(), AllocError>
    ensures { OnOk result (out.new.items ≡ out.old.items ++ (head.now ++ (flat_map value published.now ++ codes "\n"))) }
{
    out.extend_from_slice(head)?;
    write_values(out, published)?;
    out.push(b'\n')?;
    Ok(())
}

/// A text with a line for each of these outcomes, to which the runs in `orders` orders came, such as `order 3 (43 of 100) Halted: 41`. The error is
/// refused memory.
pub fn lines_of(alloc: Global, orders: u64, seen: &[Seen]) -> Result<Vec<u8>, AllocError>
    ensures { IfOk result (λ t. t.items ≡ lines orders seen.now) }
{
    let mut text = Vec::new(alloc);
    for outcome in seen {
        let head = head_of(alloc, orders, outcome)?;
        write_line(&mut text, head.as_slice(), outcome.values.as_slice())?;
    }
    Ok(text)
}

/// Adds to a text the line of an outcome to which none of `orders` orders came, such as `no order (0 of 100) Halted: 43`. The error is refused
/// memory; a part of the line may be there then.
pub fn write_unseen(
    alloc: Global,
    out: &mut Vec<u8>,
    orders: u64,
    end: End,
    published: &[Value],
) -> Result<(), AllocError>
    ensures { OnOk result (out.new.items ≡ out.old.items ++ unseen_line orders end published.now) }
{
    let head = unseen_head_of(alloc, orders, end)?;
    write_line(out, head.as_slice(), published)
}
