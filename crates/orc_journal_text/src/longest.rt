//! How long the line of an entry can be: no more than a constant and the longest name of a site.

ghost use Rattle.std.specs.Prelude.{◌≡◌, ◌<◌, ◌≤◌, length, true};
ghost use Rattle.orc_journal_text.specs.Lines.{AreNamesWithin};
ghost use Rattle.orc_rules.specs.Text.{line, Fits};
ghost use Rattle.orc_rules.specs.declared.entry.Entry.{Entry as EntryOf};

use orc_rules::answers::Answers;

/// A line has fewer bytes than this, its site's name aside. The longest, of a call with 16 arguments, has 400; these and their commas take 350.
const MOST_UNNAMED: usize = 512;

// Whether no name of a site in the table `answers` has more than `most` bytes.
fn are_names_within(answers: &Answers, most: usize) -> bool
    ensures { result ≡ true → AreNamesWithin answers.now.names most }
{
    // For the prover: the sites have numbers of 32 bits, so `site` doesn't overflow.
    answers.are_apart();
    let mut site: u32 = 0;
    while let Some(name) = answers.name(site) {
        if name.len() > most {
            return false;
        }
        site += 1;
    }
    true
}

/// Whether these are surely as many bytes as the longest line can have, with the sites that the table `answers` names. If they don't begin with a
/// line, no further byte can make one.
pub(crate) fn is_longest(bytes: &[u8], answers: &Answers) -> bool
    ensures some { result ≡ true → 0 < length bytes.now }
    ensures longest { result ≡ true → (e : EntryOf) → Fits answers.now.names e → length (line answers.now.names e) ≤ length bytes.now }
{
    bytes.len() >= MOST_UNNAMED && are_names_within(answers, bytes.len() - MOST_UNNAMED)
}
