//! Names of files as words of a command that a reader pastes into a shell.
//!
//! The loops aren't `for` loops, since their invariants speak of the rest of the name.

ghost use Rattle.std.specs.Prelude.{◌≡◌, ◌++◌, OnOk};
ghost use Rattle.std.specs.List.{list_all};
ghost use Rattle.orc_tally.specs.Shell.{escaped, is_plain, word_of};

use std::alloc::AllocError;

// Whether the byte means itself to a shell: an ASCII letter or digit, `-`, `.`, `/`, `_`, or a byte of a character beyond ASCII.
fn is_plain(byte: u8) -> bool
    ensures { result ≡ is_plain byte }
{
    byte.is_ascii_alphanumeric() || matches!(byte, b'-'..=b'/' | b'_' | 128..)
}

// Whether all bytes of a name mean themselves to a shell.
fn are_plain(name: &[u8]) -> bool
    ensures { result ≡ list_all is_plain name.now }
{
    let mut rest = name;
    loop {
        match rest {
            [] => return true,
            [byte, more @ ..] => {
                if !is_plain(*byte) {
                    return false;
                }
                rest = more;
            }
        }
    }
}

// Writes the inside of a name's quotes. Before an apostrophe, which a `\` precedes then, the quotes end, and behind it they begin again. The error is
// refused memory.
fn write_escaped(name: &[u8], text: &mut Vec<u8>) -> Result<(), AllocError>
    ensures { OnOk result (text.new.items ≡ text.old.items ++ escaped name.now) }
{
    let mut rest = name;
    loop {
        match rest {
            [] => return Ok(()),
            [byte, more @ ..] => {
                if *byte == b'\'' {
                    text.extend_from_slice(b"'\\''")?;
                } else {
                    text.push(*byte)?;
                }
                rest = more;
            }
        }
    }
}

/// Writes a name as one word of a command: as it stands if no byte of it means something to a shell, else in quotes. The error is refused memory.
pub fn write_word(name: &[u8], text: &mut Vec<u8>) -> Result<(), AllocError>
    ensures { OnOk result (text.new.items ≡ text.old.items ++ word_of name.now) }
{
    if are_plain(name) {
        return text.extend_from_slice(name);
    }
    text.push(b'\'')?;
    write_escaped(name, text)?;
    text.push(b'\'')?;
    Ok(())
}
