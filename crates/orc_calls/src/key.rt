//! A site with its arguments as a list of numbers, which is a key in a hash table.

ghost use Rattle.std.specs.Prelude.{◌≡◌, ◌<◌, ◌++◌, ◌∷◌, [], length};
ghost use Rattle.orc_calls.specs.Counting.{kind_of, amount_of, key};

use orc_rules::value::{Args, Value};
use std::marker::Model;

/// The number of a site, and two numbers for each argument of a call of it: the argument's kind, and which value of its kind it is. Two calls have
/// one key exactly if their sites and arguments are the same.
#[derive(Drop)]
pub(crate) struct Key {
    // 33: the site, and two numbers for each of 16 arguments (`MOST_ARGUMENTS`). From `len` on there is only filling.
    words: [u64; 33],
    len: usize,
}

// Contracts see the first `len` numbers as a list.
impl Model for Key {
    ghost use Rattle.std.specs.Prelude.{ℕ, ◌≤◌, List, take};

    ghost Value = { List ℕ };

    ghost view = { λ k. take k.len k.words };

    ghost invariant = { λ k. k.len ≤ 33 };
}

// A value's kind: 0 for a number from 0 on, 1 for a negative one, 2 for a truth value, 3 for `signal`.
fn kind_of(value: Value) -> u64
    ensures { result ≡ kind_of value }
{
    match value {
        Value::Number(n) => { if n < 0 { 1 } else { 0 } }
        Value::Truth(_) => 2,
        Value::Signal => 3,
    }
}

// Which value of its kind a value is: a number without its sign, 1 for `true`, and 0 for `false` and `signal`.
fn amount_of(value: Value) -> u64
    ensures { result ≡ amount_of value }
{
    match value {
        Value::Number(n) => n.unsigned_abs(),
        Value::Truth(truth) => { if truth { 1 } else { 0 } }
        Value::Signal => 0,
    }
}

impl Key {
    /// An empty list, which is no call's key.
    #[inline(always)]
    pub(crate) fn new() -> Key
        ensures { result ≡ [] }
    {
        Key {
            words: [0; 33],
            len: 0,
        }
    }

    /// Becomes the key of the site with this number and these arguments. What was there before is overwritten.
    // `&mut self` and no result: a key that is returned would be copied twice, all of its 272 bytes.
    pub(crate) fn write(&mut self, site: u32, args: &Args)
        ensures { self.new ≡ key site args.now }
    {
        self.len = 0;
        self.push(site as u64);
        for value in args.as_slice() {
            self.push(kind_of(*value));
            self.push(amount_of(*value));
        }
    }

    // Adds a number at the end, for which there has to be room.
    fn push(&mut self, word: u64)
        requires { length self.old < 33 }
        ensures { self.new ≡ self.old ++ word ∷ [] }
    {
        self.words[self.len] = word;
        self.len += 1;
    }

    /// The numbers in their order.
    pub(crate) fn as_slice(&self) -> &[u64]
        ensures { result.now ≡ self.now }
    {
        &self.words[..self.len]
    }
}
