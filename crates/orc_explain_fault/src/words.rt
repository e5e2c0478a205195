//! Tables of words, and how a word is found in one.
//!
//! A match on texts compares byte by byte in each of its arms, which is long to prove. So where there are many words, they are in a table.

/// The reserved words of sources, which no name can be.
pub(crate) const RESERVED: [&[u8]; 6] = [b"def", b"val", b"stop", b"true", b"false", b"signal"];

/// The values that are no numbers.
pub(crate) const CONSTANTS: [&[u8]; 3] = [b"true", b"false", b"signal"];

/// Whether `word` is one of `words`.
pub(crate) fn is_one_of(word: &[u8], words: &[&[u8]]) -> bool {
    words.iter().any(|other| *other == word)
}

/// What a table says of a word; None where the table doesn't have it.
pub fn said_of(word: &[u8], table: &[(&[u8], &'static str)]) -> Option<&'static str> {
    for (other, said) in table {
        if *other == word {
            return Some(*said);
        }
    }
    None
}
