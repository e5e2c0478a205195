//! A text that is read piece by piece into a buffer, the room. Bytes are *used* once the caller has read what they spell. In clauses, where it is
//! known what the reader still has (`R.remaining`), `Consumes` says that these bytes were taken from its front, and `IsAtEnd` that nothing is left.

ghost use Rattle.std.specs.Prelude.{◌≡◌, ◌<◌, ◌≤◌, ◌-◌, ◌+◌, ◌^◌, [], List, ℕ, length, take, drop, slice_range, true, false, IfOk, IfErr, IfSome, OnOk, OnErr};
ghost use Rattle.std.specs.Io.KnownBytes.{Consumes, IsAtEnd};
ghost use Rattle.orc_rules.specs.declared.limits.TheConstants.{LONGEST_JOURNAL};
ghost use Rattle.orc_journal_text.specs.Lines.{IsUnfilled};
ghost use Rattle.orc_journal_text.specs.Pieces.{comes_with, with_rest, MayCome};

use crate::lines::LinesFault;
use crate::text::JournalFault;
use orc_rules::limits::LONGEST_JOURNAL;
use std::alloc::{AllocError, Global};
use std::io::{ErrorKind, Read};
use std::marker::Model;

/// How many bytes the room has at first. A read asks for as many as are free.
const ROOM: usize = 65_536;

/// How often a read is tried that a signal interrupts; after that it counts as failed. The bound makes the loop end.
const MOST_TRIES: usize = 1_000;

/// A text that comes piece by piece. What has come of it and isn't used yet is in the room from `start` to `end`, both counted from 0.
#[derive(Drop)]
pub(crate) struct Pieces<R: Read + Drop> {
    source: R,
    room: Vec<u8>,
    start: usize,
    end: usize,
    /// How many bytes have come in all: at most `LONGEST_JOURNAL` and one read more, which has fewer than 2^63, so the sum fits.
    came: usize,
}

// Contracts see the bytes that came and aren't used, those that the reader still has, if they are known, and how many came.
impl<R: Read + Drop> Model for Pieces<R> {
    ghost use Rattle.std.specs.Prelude.{◌≤◌, ◌<◌, ◌-◌, ◌+◌, ◌^◌, length, slice_range};
    ghost use Rattle.orc_rules.specs.declared.limits.TheConstants.{LONGEST_JOURNAL};
    ghost use Rattle.orc_journal_text.specs.Pieces.{Coming};

    ghost Value = { Coming };

    ghost view = { λ p. record { rest = slice_range p.room.items p.start p.end; left = R.remaining p.source; came = p.came } };

    ghost invariant = { λ p. (p.start ≤ p.end) × (p.end ≤ length p.room.items) × (p.end - p.start ≤ p.came) × (p.came < LONGEST_JOURNAL + 2 ^ 63) × (0 < length p.room.items) };
}

// Reads into the front of `room`: how many bytes came, 0 at the end of the text. None if the read fails or was interrupted too often.
fn read_some<R: Read>(source: &mut R, room: &mut [u8]) -> Option<usize>
    ensures bound { IfSome result (λ n. n ≤ length room.new) }
    ensures bytes { IfSome result (λ n. Consumes (R.remaining source.old) (R.remaining source.new) (take n room.new)) }
    ensures end { IfSome result (λ n. n ≡ 0 → 0 < length room.new → IsAtEnd (R.remaining source.new)) }
{
    for _ in 0..MOST_TRIES {
        match source.read(room) {
            Ok(count) => return Some(count),
            // A signal interrupted the read: another try follows.
            Err(error) if error.kind() == ErrorKind::Interrupted => {}
            Err(_) => return None,
        }
    }
    None
}

// Reads into `room` from place `at` on, as `read_some` does; the bytes before it stay. `at` is in the room, so that 0 means the end of the text.
fn read_at<R: Read>(source: &mut R, room: &mut [u8], at: usize) -> Option<usize>
    requires { at < length room.old }
    ensures front { take at room.new ≡ take at room.old }
    ensures bound { IfSome result (λ n. at + n ≤ length room.new) }
    ensures bytes { IfSome result (λ n. Consumes (R.remaining source.old) (R.remaining source.new) (take n (drop at room.new))) }
    ensures end { IfSome result (λ n. n ≡ 0 → IsAtEnd (R.remaining source.new)) }
{
    read_some(source, &mut room[at..])
}

// Makes some of the room behind `end` free: moves the bytes from `start` to `end` to the front, or doubles the room if they fill it (then `start` is
// 0). The error is refused memory, and then nothing changes.
fn make_room(room: &mut Vec<u8>, start: usize, end: usize) -> Result<(), AllocError>
    requires order { start ≤ end }
    requires inside { end ≤ length room.old.items }
    requires some { 0 < length room.old.items }
    ensures kept { OnOk result (take (end - start) room.new.items ≡ slice_range room.old.items start end) }
    ensures free { OnOk result (end - start < length room.new.items) }
    ensures same { OnErr result (room.new.items ≡ room.old.items) }
{
    let len = room.len();
    if end - start == len {
        // No vector has 2^63 bytes, so the product fits.
        return room.resize(len * 2, 0);
    }
    room.copy_within(start..end, 0);
    Ok(())
}

impl<R: Read + Drop> Pieces<R> {
    /// A text of which nothing has come. The error is refused memory.
    pub(crate) fn new(alloc: Global, source: R) -> Result<Pieces<R>, AllocError>
        ensures { IfOk result (λ p. p ≡ record { rest = []; left = R.remaining source; came = 0 }) }
    {
        let mut room = Vec::new(alloc);
        room.resize(ROOM, 0)?;
        Ok(Pieces {
            source,
            room,
            start: 0,
            end: 0,
            came: 0,
        })
    }

    /// What has come and isn't used.
    pub(crate) fn rest(&self) -> &[u8]
        ensures { result.now ≡ self.now.rest }
    {
        &self.room[self.start..self.end]
    }

    /// Keeps the last `count` bytes of what has come, and drops the others, which are used.
    pub(crate) fn keep_last(&mut self, count: usize)
        requires { count ≤ length self.old.rest }
        ensures { self.new ≡ with_rest self.old (drop (length self.old.rest - count) self.old.rest) }
    {
        self.start = self.end - count;
    }

    /// Reads some more of the text: true if bytes came, false at its end. The fault is J3 if more has come already than the longest text has, J4 if
    /// memory is refused, or `Unread`; then what has come stays.
    pub(crate) fn fill(&mut self) -> Result<bool, LinesFault>
        // One piece more has come. It is empty only at the end of the text.
        ensures came { IfOk result (λ some. (piece : List ℕ) × Consumes self.old.left self.new.left piece × (self.new ≡ comes_with self.old piece self.new.left) × (some ≡ true → 0 < length piece) × (some ≡ false → (piece ≡ []) × IsAtEnd self.new.left)) }
        ensures fits { OnOk result (self.old.came ≤ LONGEST_JOURNAL) }
        ensures few { self.new.came < LONGEST_JOURNAL + 2 ^ 63 }
        ensures fault { IfErr result (IsUnfilled self.old.came) }
        ensures same { OnErr result ((self.new.rest ≡ self.old.rest) × (self.new.came ≡ self.old.came)) }
    {
        // More has come already than the longest text has.
        if self.came > LONGEST_JOURNAL {
            return Err(LinesFault::Text(JournalFault::Long));
        }
        if make_room(&mut self.room, self.start, self.end).is_err() {
            return Err(LinesFault::Text(JournalFault::Memory));
        }
        // The bytes that aren't used are at the front now.
        self.end -= self.start;
        self.start = 0;
        let Some(count) = read_at(&mut self.source, self.room.as_mut_slice(), self.end) else {
            return Err(LinesFault::Unread);
        };
        self.end += count;
        self.came += count;
        Ok(count > 0)
    }

    // Keeps the first of the bytes that aren't used, and drops the others.
    fn keep_first(&mut self)
        requires { 0 < length self.old.rest }
        ensures { self.new ≡ with_rest self.old (take 1 self.old.rest) }
    {
        self.end = self.start + 1;
    }

    /// Reads the text to its end to count its bytes, and drops them. Only the first byte that isn't used is kept: a later call still sees that not
    /// all of the text was used. The fault is J3 if more comes than the longest text has, J4 if memory is refused, or `Unread`.
    pub(crate) fn skip(&mut self) -> Result<(), LinesFault>
        requires { 0 < length self.old.rest }
        // All of the text has come, and it is no longer than the longest journal.
        ensures end { IfOk result (λ _. (more : List ℕ) × MayCome self.old.left more × (self.old.came + length more ≤ LONGEST_JOURNAL)) }
        ensures fault { IfErr result (λ f. (more : List ℕ) × MayCome self.old.left more × IsUnfilled (self.old.came + length more) f) }
        ensures first { self.new.rest ≡ take 1 self.old.rest }
        ensures more { self.old.came ≤ self.new.came }
        ensures few { self.new.came < LONGEST_JOURNAL + 2 ^ 63 }
    {
        self.keep_first();
        while self.fill()? {
            self.keep_first();
        }
        Ok(())
    }
}
