//! A line's end, which is put together on the stack from right to left.

ghost use Rattle.std.specs.Prelude.{◌≡◌, ◌++◌, ◌+◌, ◌≤◌, [], decimal, length};
ghost use Rattle.orc_rules.specs.Text.{number, value, value_text};
ghost use Rattle.orc_journal_text.specs.declared.tail.TheConstants.{ROOM};

use orc_rules::value::Value;
use std::marker::Model;

/// How many bytes a tail has room for. The longest line, calls aside, is an `open`: 4 letters, four numbers of 20 digits with
/// a space each, and LF are 89 bytes.
const ROOM: usize = 96;

/// The end of a text, which grows at its front: so a number's digits are written from the last one on, straight into their place.
#[derive(Drop)]
pub(crate) struct Tail {
    // The text is from `start` on.
    room: [u8; ROOM],
    start: usize,
}

// Contracts see the text.
impl Model for Tail {
    ghost use Rattle.std.specs.Prelude.{◌≤◌, List, ℕ, drop};
    ghost use Rattle.orc_journal_text.specs.declared.tail.TheConstants.{ROOM};

    ghost Value = { List ℕ };

    ghost view = { λ t. drop t.start t.room };

    ghost invariant = { λ t. t.start ≤ ROOM };
}

impl Tail {
    /// No text.
    #[inline(always)]
    pub(crate) fn new() -> Tail
        ensures { result ≡ [] }
    {
        Tail {
            room: [0; ROOM],
            start: ROOM,
        }
    }

    /// The text.
    #[inline(always)]
    pub(crate) fn text(&self) -> &[u8]
        ensures { result.now ≡ self.now }
    {
        &self.room[self.start..]
    }

    /// Puts a text before what the tail has. There must be room for both.
    #[inline(always)]
    pub(crate) fn put(&mut self, text: &[u8])
        requires { length text.now + length self.old ≤ ROOM }
        ensures text { self.new ≡ text.now ++ self.old }
        ensures len { length self.new ≡ length text.now + length self.old }
    {
        let end = self.start;
        self.start = end - text.len();
        self.room[self.start..end].copy_from_slice(text);
    }

    // Puts a number's digits, 20 at most, before what the tail has.
    #[inline(always)]
    fn put_digits(&mut self, n: u64)
        requires { 20 + length self.old ≤ ROOM }
        ensures text { self.new ≡ decimal n ++ self.old }
        ensures few { length self.new ≤ 20 + length self.old }
    {
        // The digits end before `start`, and `write_digits` gives where they begin.
        self.start = itoa::write_digits(n, &mut self.room, self.start);
    }

    /// Puts a space and a number in front: 21 bytes at most.
    #[inline(always)]
    pub(crate) fn put_number(&mut self, n: u64)
        requires { 21 + length self.old ≤ ROOM }
        ensures text { self.new ≡ number n ++ self.old }
        ensures few { length self.new ≤ 21 + length self.old }
    {
        self.put_digits(n);
        self.put(b" ");
    }

    /// Puts a value in front: 21 bytes at most.
    pub(crate) fn put_value(&mut self, v: Value)
        requires { 21 + length self.old ≤ ROOM }
        ensures text { self.new ≡ value_text v ++ self.old }
        ensures few { length self.new ≤ 21 + length self.old }
    {
        match v {
            Value::Number(n) => {
                // `unsigned_abs`, since -2^63 has no positive i64.
                self.put_digits(n.unsigned_abs());
                if n < 0 {
                    self.put(b"-");
                }
            }
            Value::Truth(true) => self.put(b"true"),
            Value::Truth(false) => self.put(b"false"),
            Value::Signal => self.put(b"signal"),
        }
    }

    /// Puts a space and a value in front: 22 bytes at most.
    #[inline(always)]
    pub(crate) fn put_value_field(&mut self, v: Value)
        requires { 22 + length self.old ≤ ROOM }
        ensures text { self.new ≡ value v ++ self.old }
        ensures few { length self.new ≤ 22 + length self.old }
    {
        self.put_value(v);
        self.put(b" ");
    }
}
