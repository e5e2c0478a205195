//! Writing one entry as its line, and values as text. A `Tail` grows at its front: the fields of a line are put from the last one to the first. Of
//! the letters s, a and b are marks (the numbers of tokens), c is a cell (it stands for the x of an opened `f <x< g`), k a call, and v a value.
//! `answers` is the table of sites, which has their names.

ghost use Rattle.std.specs.Prelude.{◌≡◌, ◌++◌, ◌<◌, OnOk, length, ◌∷◌, []};
ghost use Rattle.orc_rules.specs.Text.{value_text, closing, arguments, call, line, output, IsNamed};
ghost use Rattle.orc_rules.specs.declared.entry.Entry.TheVariants as entry;

use crate::tail::Tail;
use orc_rules::answers::Answers;
use orc_rules::entry::Entry;
use orc_rules::value::{Args, Value};
use std::alloc::AllocError;

/// Appends the text of a value. The error is refused memory.
pub fn write_value(out: &mut Vec<u8>, v: Value) -> Result<(), AllocError>
    ensures { OnOk result (out.new.items ≡ out.old.items ++ value_text v) }
{
    let mut text = Tail::new();
    text.put_value(v);
    out.extend_from_slice(text.text())
}

// Appends the line of a publication: the text of the value, and LF.
fn write_publication(out: &mut Vec<u8>, v: Value) -> Result<(), AllocError>
    ensures { OnOk result (out.new.items ≡ out.old.items ++ output (v ∷ [])) }
{
    let mut text = Tail::new();
    text.put(b"\n");
    text.put_value(v);
    out.extend_from_slice(text.text())
}

/// Appends a line for each value, in their order: what a run published. The error is refused memory; some lines may be appended by then.
pub fn write_publications(out: &mut Vec<u8>, values: &[Value]) -> Result<(), AllocError>
    ensures { OnOk result (out.new.items ≡ out.old.items ++ output values.now) }
{
    for value in values {
        write_publication(out, *value)?;
    }
    Ok(())
}

// Appends a call's arguments after the first one, each behind a comma, and the closing bracket. It recurses once an argument, which are
// `MOST_ARGUMENTS` at most.
fn push_closing(out: &mut Vec<u8>, args: &[Value]) -> Result<(), AllocError>
    ensures { OnOk result (out.new.items ≡ out.old.items ++ closing args.now) }
{
    match args {
        [] => out.push(b')')?,
        [v, args @ ..] => {
            out.extend_from_slice(b", ")?;
            write_value(out, *v)?;
            push_closing(out, args)?;
        }
    }
    Ok(())
}

// Appends a call's arguments in brackets, as `(1, 2)`.
fn push_arguments(out: &mut Vec<u8>, args: &[Value]) -> Result<(), AllocError>
    ensures { OnOk result (out.new.items ≡ out.old.items ++ arguments args.now) }
{
    match args {
        [] => out.extend_from_slice(b"()")?,
        [v, args @ ..] => {
            out.push(b'(')?;
            write_value(out, *v)?;
            push_closing(out, args)?;
        }
    }
    Ok(())
}

// Appends a space, the site's name and the arguments in brackets, as ` Add(1, 2)`.
// The attribute names a lemma that the prover needs.
#[tactic(auto, using(std::proofs::lemmas::Option::get_or_from_slice_get))]
fn push_call(out: &mut Vec<u8>, site: u32, args: &Args, answers: &Answers) -> Result<(), AllocError>
    requires { site < length answers.now.names }
    ensures { OnOk result (out.new.items ≡ out.old.items ++ call answers.now.names site args.now) }
{
    out.push(b' ')?;
    // The table has the site, by `requires`.
    let Some(name) = answers.name(site) else {
        return Ok(());
    };
    out.extend_from_slice(name)?;
    push_arguments(out, args.as_slice())?;
    Ok(())
}

// Appends the line of a call: `token` is the mark of the token that makes it, `number` the call's. The table has to have the site. The line's front
// is put together on the stack; the site's name, whose length has no bound, is appended by itself.
fn write_call(
    out: &mut Vec<u8>,
    token: u64,
    number: u64,
    site: u32,
    args: &Args,
    answers: &Answers,
) -> Result<(), AllocError>
    requires { site < length answers.now.names }
    ensures { OnOk result (out.new.items ≡ out.old.items ++ line answers.now.names (entry.Call token number site args.now)) }
{
    // The front of the line, from its last field to its first.
    let mut front = Tail::new();
    front.put_number(number);
    front.put_number(token);
    front.put(b"call");
    out.extend_from_slice(front.text())?;
    push_call(out, site, args, answers)?;
    out.push(b'\n')?;
    Ok(())
}

/// Appends the line of an entry. If it is a call, the table must name its site (`has_line`). The error is refused memory; a part of a call's line may
/// be appended by then.
pub fn write_entry(entry: &Entry, answers: &Answers, out: &mut Vec<u8>) -> Result<(), AllocError>
    requires { IsNamed answers.now.names entry.now }
    ensures { OnOk result (out.new.items ≡ out.old.items ++ line answers.now.names entry.now) }
{
    // The line from its last field to its first. Of the letters s, a and b are marks, c is a cell, k a call, and v a value.
    let mut line = Tail::new();
    line.put(b"\n");
    match entry {
        Entry::End(n) => {
            line.put_number(*n);
            line.put(b"end");
        }
        Entry::Void(n) => {
            line.put_number(*n);
            line.put(b"void");
        }
        Entry::Lost(n) => {
            line.put_number(*n);
            line.put(b"lost");
        }
        Entry::Tick(n) => {
            line.put_number(*n);
            line.put(b"tick");
        }
        Entry::Cancel(n) => {
            line.put_number(*n);
            line.put(b"cancel");
        }
        Entry::Seq(s, a) => {
            line.put_number(*a);
            line.put_number(*s);
            line.put(b"seq");
        }
        Entry::Other(s, a) => {
            line.put_number(*a);
            line.put_number(*s);
            line.put(b"other");
        }
        Entry::Def(s, a) => {
            line.put_number(*a);
            line.put_number(*s);
            line.put(b"def");
        }
        Entry::Right(s, a) => {
            line.put_number(*a);
            line.put_number(*s);
            line.put(b"right");
        }
        Entry::Fork(s, a, b) => {
            line.put_number(*b);
            line.put_number(*a);
            line.put_number(*s);
            line.put(b"fork");
        }
        Entry::Open(s, c, a, b) => {
            line.put_number(*b);
            line.put_number(*a);
            line.put_number(*c);
            line.put_number(*s);
            line.put(b"open");
        }
        Entry::Send(s, a, v) => {
            line.put_value_field(*v);
            line.put_number(*a);
            line.put_number(*s);
            line.put(b"send");
        }
        Entry::Return(k, a, v) => {
            line.put_value_field(*v);
            line.put_number(*a);
            line.put_number(*k);
            line.put(b"return");
        }
        Entry::Bind(s, c, v) => {
            line.put_value_field(*v);
            line.put_number(*c);
            line.put_number(*s);
            line.put(b"bind");
        }
        Entry::Publish(s, v) => {
            line.put_value_field(*v);
            line.put_number(*s);
            line.put(b"publish");
        }
        Entry::ReturnHalt(k) => {
            line.put(b" halt");
            line.put_number(*k);
            line.put(b"return");
        }
        Entry::Call(s, k, site, args) => return write_call(out, *s, *k, *site, args, answers),
    }
    out.extend_from_slice(line.text())
}
