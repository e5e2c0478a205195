//! Entries that are pushed onto a journal, one by one or all those of a sub-run. A *sub-run* is the run of a call of a definition, made apart and
//! merged afterwards. A *mark* is the number of a token.

use orc_journal::{Journal, Version};
use orc_journal_text::write_journal;
use orc_rules::entry::Entry;
use orc_rules::value::Value;
use orc_site::read_script;
use orc_subrun::Numbering;
use std::alloc::{AllocError, Global};
use std::test::Fail;

// The text of a journal; empty if the script can't be read, so that the test fails. The sites of its calls are 3, the built-in `Lt`, 6, the built-in
// `Rwait`, and 7, the script's `A`.
fn text_of(alloc: Global, journal: &Journal) -> Result<Vec<u8>, AllocError> {
    let mut text = Vec::new(alloc);
    if let Ok(answers) = read_script(alloc, b"A(_, _) = 1\n") {
        // The text has the names of the sites, which are in this table of sites.
        write_journal(journal, &answers, &mut text)?;
    }
    Ok(text)
}

// A journal keeps the numbers and values of what was pushed. A push takes the numbers in the order of the entry's line: in that of the call they are
// mark 1, call 2 and site 3, `Lt`. No run has these entries: the journal doesn't ask whether they are allowed.
#[test]
fn keeps_what_is_pushed(rt: HostRuntime) -> Result<(), Fail> {
    let mut journal = Journal::new(rt.alloc(), Version::Two);
    // Seven entries: the bind comes with two cancels.
    journal.reserve(7)?;
    journal.push_call(1, 2, 3, &[Value::Number(-1), Value::Signal])?;
    journal.push(&Entry::Return(2, 5, Value::Number(-9)))?;
    journal.push(&Entry::Send(5, 6, Value::Truth(true)))?;
    // The second call has a number of over 32 bits.
    journal.push_bind(6, 1, Value::Signal, &[3, 4_294_967_296])?;
    journal.push(&Entry::Publish(7, Value::Number(8)))?;
    let text = text_of(rt.alloc(), &journal)?;
    let wanted =
        b"orc-journal 2\ncall 1 2 Lt(-1, signal)\nreturn 2 5 -9\nsend 5 6 true\nbind 6 1 signal\ncancel 3\ncancel 4294967296\npublish 7 8\n";
    assert!(rt; text.as_slice() == wanted.as_slice(), "{text:?}");
    Ok(())
}

// The text of a journal to which the journal of a sub-run was appended: the sub-run's mark 2 becomes `mark` there.
fn appended(alloc: Global, mark: u64) -> Result<Vec<u8>, AllocError> {
    let mut part = Journal::new(alloc, Version::Two);
    part.push_call(1, 1, 7, &[Value::Number(4), Value::Signal])?;
    part.push(&Entry::Return(1, 2, Value::Number(5)))?;
    part.push(&Entry::Publish(2, Value::Number(5)))?;
    let mut journal = Journal::new(alloc, Version::Two);
    journal.push(&Entry::Fork(1, 2, 3))?;
    journal.push_call(2, 1, 6, &[Value::Truth(false)])?;
    // The token of the call is 3. One call was made before, and no cell was opened.
    let numbering = Numbering {
        token: 3,
        mark,
        calls: 1,
        cells: 0,
    };
    journal.append(&part, numbering)?;
    text_of(alloc, &journal)
}

// The first mark of a sub-run is the token's; its other marks and its calls are numbered after those of the journal. The mark 5,000,000,000 has over
// 32 bits.
#[test]
fn appends_a_part_under_its_numbers(rt: HostRuntime) -> Result<(), Fail> {
    let small = appended(rt.alloc(), 4)?;
    let wanted =
        b"orc-journal 2\nfork 1 2 3\ncall 2 1 Rwait(false)\ncall 3 2 A(4, signal)\nreturn 2 4 5\npublish 4 5\n";
    assert!(rt; small.as_slice() == wanted.as_slice(), "{small:?}");
    let large = appended(rt.alloc(), 5_000_000_000)?;
    let wanted =
        b"orc-journal 2\nfork 1 2 3\ncall 2 1 Rwait(false)\ncall 3 2 A(4, signal)\nreturn 2 5000000000 5\npublish 5000000000 5\n";
    assert!(rt; large.as_slice() == wanted.as_slice(), "{large:?}");
    Ok(())
}
