//! The line and the column of a byte of a text.

ghost use Rattle.std.specs.Prelude.{◌≡◌, ◌≢◌, ℕ, ◌+◌, ◌-◌, ◌<◌, ◌≤◌, length, slice_index, slice_range};
ghost use Rattle.std.specs.List.{count_by};
ghost use Rattle.orc_report.specs.Place.{is_line_feed, begins_character, BeginsLine};

/// Where a byte of a text stands.
#[derive(Clone, Copy, Debug, PartialEq, Eq)]
pub struct Place {
    /// Its line, counted from 1.
    pub line: usize,
    /// Its column in characters, counted from 1.
    pub column: usize,
    /// Where its line's first byte stands in the text, counted from 0.
    pub start: usize,
}

/// Whether a byte of UTF-8 begins a character: each further byte of a character is from 128 to 191.
pub fn begins_character(byte: u8) -> bool
    ensures { result ≡ begins_character byte }
{
    byte < 128 || byte >= 192
}

// Where the line begins in which the byte at `at`, from 0, or the text's end stands: behind the last LF before that byte, or at 0.
fn line_start(text: &[u8], at: usize) -> usize
    requires { at ≤ length text.now }
    ensures { BeginsLine text.now result at }
{
    let mut start = at;
    // Goes back to the text's start, or until the byte before is an LF.
    while start > 0 && text[start - 1] != b'\n' {
        start -= 1;
    }
    start
}

// How many line feeds are among these bytes.
fn line_feeds(bytes: &[u8]) -> usize
    ensures value { result ≡ count_by is_line_feed bytes.now }
    ensures bound { result ≤ length bytes.now }
{
    let mut count: usize = 0;
    for byte in bytes {
        if *byte == b'\n' {
            count += 1;
        }
    }
    count
}

/// How many characters begin in these bytes.
pub(crate) fn characters(bytes: &[u8]) -> usize
    ensures value { result ≡ count_by begins_character bytes.now }
    ensures bound { result ≤ length bytes.now }
{
    let mut count: usize = 0;
    for byte in bytes {
        if begins_character(*byte) {
            count += 1;
        }
    }
    count
}

/// The line and the column, both from 1, of the byte at `at`, from 0, or of the text's end. Lines end with LF. The column is one more than the number
/// of characters of UTF-8 that begin before the byte in its line.
pub fn place_of(text: &[u8], at: usize) -> Place
    requires { at ≤ length text.now }
    ensures line { result.line ≡ 1 + count_by is_line_feed (slice_range text.now 0 at) }
    ensures start { BeginsLine text.now result.start at }
    ensures column { result.column ≡ 1 + count_by begins_character (slice_range text.now result.start at) }
{
    let start = line_start(text, at);
    Place {
        line: 1 + line_feeds(&text[..at]),
        column: 1 + characters(&text[start..at]),
        start,
    }
}
