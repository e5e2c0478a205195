//! A text that is written piece by piece. Each method that writes does so at the end of the text.

ghost use Rattle.std.specs.Prelude.{◌≡◌, true, false};

use orc_rules::value::Value;
use std::alloc::{AllocError, Global};
use std::fmt;

/// The longest word that is shown whole, in bytes.
const LONGEST_WORD: usize = 100;

/// A text that is being written. Once memory for a piece is refused, nothing more is written, and `finish` gives that error: so no other method has
/// one.
#[derive(Drop)]
pub struct Page {
    text: String,
    // Whether memory for a piece of the text was refused; then nothing more is written.
    is_refused: bool,
    /// The gutter's width: how many columns the numbers of lines take, which stand at the left of the lines that are shown.
    pub(crate) gutter: u64,
}

impl Page {
    /// An empty text, with a gutter (the column of lines' numbers at the left) of one digit.
    pub fn new(alloc: Global) -> Page {
        Page {
            text: String::new(alloc),
            is_refused: false,
            gutter: 1,
        }
    }

    /// The whole text. The error is that memory for a part of it was refused.
    pub fn finish(self) -> Result<String, AllocError> {
        let Page {
            text,
            is_refused,
            gutter: _,
        } = self;
        if is_refused {
            Err(AllocError)
        } else {
            Ok(text)
        }
    }

    /// What has been written so far.
    pub fn as_str(&self) -> &str {
        self.text.as_str()
    }

    /// How many bytes have been written. Each is a column as long as all that was said is ASCII.
    pub fn len(&self) -> usize {
        self.text.len()
    }

    /// Takes back what stands behind the first `len` bytes, which are to be whole characters; nothing where there are no more.
    pub fn truncate(&mut self, len: usize) {
        // A turn takes one character off the end, so there are no more turns than bytes.
        for _byte in len..self.text.len() {
            if self.text.len() > len {
                let _sign = self.text.pop();
            }
        }
    }

    /// Writes `text` as it stands, or nothing once memory was refused.
    pub fn say(&mut self, text: &str) {
        if !self.is_refused {
            // The only error is refused memory.
            self.is_refused = self.text.push_str(text).is_err();
        }
    }

    /// If memory was refused while `other` was written, notes this as refused here, too: this text is to contain the other one.
    pub fn heed(&mut self, other: &Page)
        ensures refused { other.now.is_refused ≡ true → self.new.is_refused ≡ true }
        ensures kept { other.now.is_refused ≡ false → self.new ≡ self.old }
    {
        if other.is_refused {
            self.refuse();
        }
    }

    /// Notes that memory was refused for what belongs into this text: nothing more is written, and it isn't given out.
    pub fn refuse(&mut self)
        ensures { self.new.is_refused ≡ true }
    {
        self.is_refused = true;
    }

    /// Whether memory was refused, so that nothing more is written.
    pub fn is_refused(&self) -> bool
        ensures { result ≡ self.now.is_refused }
    {
        self.is_refused
    }

    /// Writes one character as it stands, or nothing once memory was refused.
    pub fn sign(&mut self, sign: char) {
        if !self.is_refused {
            // The only error is refused memory.
            self.is_refused = self.text.push(sign).is_err();
        }
    }

    // Writes an item in the form that its `Display` gives, or nothing once memory was refused.
    fn print<T: fmt::Display + Drop>(&mut self, item: T) {
        if !self.is_refused {
            self.is_refused = write!(self.text, "{item}").is_err();
        }
    }

    /// Writes a number in decimal.
    pub fn number(&mut self, number: u64) {
        self.print(number);
    }

    /// Writes a number in decimal between the words `before` and `behind`.
    pub fn say_number(&mut self, before: &str, number: u64, behind: &str) {
        self.say(before);
        self.number(number);
        self.say(behind);
    }

    /// Writes a number below a million in decimal, with a comma behind its thousands, as 12,345.
    pub fn grouped(&mut self, number: u64) {
        if number < 1_000 {
            return self.number(number);
        }
        self.number(number / 1_000);
        self.say(",");
        // Behind the comma stand three digits, zeros too.
        let units = number % 1_000;
        self.number(units / 100);
        self.number(units / 10 % 10);
        self.number(units % 10);
    }

    /// Writes a value as programs do.
    pub fn value(&mut self, value: Value) {
        match value {
            Value::Number(number) => self.print(number),
            Value::Truth(truth) => self.print(truth),
            Value::Signal => self.say("signal"),
        }
    }

    /// Writes the values of a call's arguments in brackets, with commas between them, as `(1, true)`.
    pub fn values(&mut self, values: &[Value]) {
        self.say("(");
        for (place, value) in values.iter().enumerate() {
            if place > 0 {
                self.say(", ");
            }
            self.value(*value);
        }
        self.say(")");
    }

    /// Writes the number of a character in hexadecimal with four digits at least, as Unicode does behind `U+`.
    pub fn code(&mut self, code: u32) {
        if !self.is_refused {
            self.is_refused = write!(self.text, "{code:04X}").is_err();
        }
    }

    /// Writes the character `sign` as often as `times` says.
    pub fn fill(&mut self, sign: char, times: u64) {
        for _time in 0..times {
            self.sign(sign);
        }
    }

    /// Writes a byte of a text: a tab or a CR is shown as a blank, and what isn't printable ASCII as `?`.
    pub fn byte(&mut self, byte: u8) {
        let shown = match byte {
            b'\t' | b'\r' => b' ',
            32..=126 => byte,
            _ => b'?',
        };
        self.sign(shown as char);
    }

    /// Writes a word of a text. What is beyond its first 100 bytes is left out, and `..` stands for it.
    pub fn word(&mut self, word: &[u8]) {
        for byte in word.iter().take(LONGEST_WORD) {
            self.byte(*byte);
        }
        if word.len() > LONGEST_WORD {
            self.say("..");
        }
    }

    /// Writes a word of a text between the words `before` and `behind`.
    pub fn say_word(&mut self, before: &str, word: &[u8], behind: &str) {
        self.say(before);
        self.word(word);
        self.say(behind);
    }

    /// Writes the name of a file; what isn't printable ASCII is a `?`.
    pub fn path(&mut self, path: &str) {
        for sign in path.chars() {
            let is_shown = sign.is_ascii() && !sign.is_ascii_control();
            self.sign(if is_shown { sign } else { '?' });
        }
    }

    /// Writes a number of things, as `1 call` or `2 calls`: the name gets an `s` unless the number is 1.
    pub fn count(&mut self, number: u64, name: &str) {
        self.number(number);
        self.say(" ");
        self.say(name);
        if number != 1 {
            self.say("s");
        }
    }

    /// Writes the beginning of a line below the lines of a file that were shown: blanks as wide as their numbers, ` = `, and a text. The caller ends
    /// the line.
    pub fn note(&mut self, text: &str) {
        self.inset();
        self.say(" = ");
        self.say(text);
    }

    /// Writes a whole line ` = help: `, with a text that says what to do.
    pub fn help(&mut self, text: &str) {
        self.note("help: ");
        self.say(text);
        self.say("\n");
    }

    /// Writes a whole line ` = expected: `, with a text that says what may stand there.
    pub fn expected(&mut self, text: &str) {
        self.note("expected: ");
        self.say(text);
        self.say("\n");
    }
}
