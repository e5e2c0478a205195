//! A proved answer from a journal, whoever made the journal: `certify` checks it, and only then writes the run's output from it. A run that ends by
//! itself is Halted, if nothing more can come of its term, or Quiet, if it waits for ever.

ghost use Rattle.std.specs.Prelude.{IfOk, IfErr, IfSome, OnOk, OnErr};
ghost use Rattle.std.specs.Io.KnownBytes.{Appends};
ghost use Rattle.orc_output.specs.Output.{AppendsPrefix};
ghost use Rattle.orc_certify.specs.Certified.{shown, Answers, IsCertified, IsEndOf, Leaves};

use orc_journal::{Journal, Version};
use orc_journal_text::read_journal;
use orc_load::load;
use orc_outcome::End;
use orc_output::{WriteFault, write_text, write_values};
use orc_rules::entry::State;
use orc_verdict::check_journal;
use std::alloc::Global;
use std::io::Write;

// In contracts `shown` is the text to write, `Appends old new text` says that all of `text` was written to the output, and `AppendsPrefix` that a
// prefix of it was. `IsCertified` says that a journal's text is that of a run that ended so by itself.

/// What to write of a run.
#[derive(Clone, Copy, Debug, PartialEq, Eq)]
pub enum Form {
    /// What it published, a line each.
    Values,
    /// Its journal.
    Journal,
}

/// Why a journal gets no answer, or not a whole one.
#[derive(Clone, Copy, Debug, PartialEq, Eq)]
pub enum Unanswered {
    /// The text isn't known to be the journal of a whole run, and nothing was written. The source doesn't load, the text is no journal or one of the
    /// first version, the check refuses it, it has more entries than the limit, the run isn't over at its end, or memory was refused.
    Uncertified,
    /// The output couldn't be written whole, or memory for its text was refused. A prefix of the answer was written.
    Unwritten,
}

/// A journal that was checked, and how its run ended, Halted or Quiet.
#[derive(Drop)]
struct Certificate {
    journal: Journal,
    end: End,
}

// How a run ended whose journal leads to this state. None where the run goes on: then its journal isn't that of a whole run.
fn end_of(state: State) -> Option<End>
    ensures { IfSome result (IsEndOf state) }
{
    match state {
        State::Halted => Some(End::Halted),
        State::Quiet => Some(End::Quiet),
        State::Running => None,
    }
}

// Checks a journal's text against the program that a source spells, with the built-in sites and those of a script. None where it isn't known to be
// the journal of a whole run of at most `limit` entries, cancels counted, or memory was refused.
fn check(
    alloc: Global,
    source: &[u8],
    script: &[u8],
    limit: u64,
    text: &[u8],
) -> Option<Certificate>
    ensures { IfSome result (λ c. IsCertified source.now script.now limit text.now c.journal c.end) }
{
    let Ok(loaded) = load(alloc, source, script) else {
        // The source or the script is at fault, or memory was refused.
        return None;
    };
    let Ok(journal) = read_journal(alloc, text, &loaded.answers) else {
        // The text is no journal of this program's sites, or memory was refused.
        return None;
    };
    // Journals of the first version have no cancels, and a run's journal has them. The length counts cancels, though the limit of a run doesn't.
    if journal.version() != Version::Two || journal.len() as u64 > limit {
        return None;
    }
    let Ok(verdict) = check_journal(alloc, &loaded.program, &loaded.answers, &journal) else {
        // The check refuses an entry, or memory was refused.
        return None;
    };
    let end = end_of(verdict.state)?;
    Some(Certificate { journal, end })
}

// Writes what `form` asks for of a run: the values that `journal` publishes, or `text`, which is the text of that journal. The error is that the
// output couldn't be written whole, or refused memory; a prefix, perhaps an empty one, was written then.
fn write_answer<W: Write>(
    alloc: Global,
    form: Form,
    journal: &Journal,
    text: &[u8],
    out: &mut W,
) -> Result<(), WriteFault>
    ensures ok { OnOk result (Appends (W.contents out.old) (W.contents out.new) (shown form text.now journal.now.entries)) }
    ensures err { OnErr result (AppendsPrefix (W.contents out.old) (W.contents out.new) (shown form text.now journal.now.entries)) }
{
    match form {
        Form::Values => {
            let Ok(values) = journal.published(alloc) else {
                return Err(WriteFault);
            };
            write_values(alloc, values.as_slice(), out)
        }
        Form::Journal => write_text(out, text),
    }
}

/// Gives the answer of a run whose journal this text is. The check has to accept it as the journal of a run of the program that the source spells,
/// with the built-in sites and those of the script. The run has to have ended by itself, with at most `limit` entries, cancels counted. Then what
/// `form` asks for is written to `out`, and the result is how the run ended, Halted or Quiet. Nobody need trust who made the journal.
///
/// The error is `Uncertified` if the text isn't known to be such a journal, or memory was refused; nothing is written then. It is `Unwritten` if the
/// output couldn't be written whole, or memory for its text was refused; a prefix of it was written then.
pub fn certify<W: Write>(
    alloc: Global,
    source: &[u8],
    script: &[u8],
    limit: u64,
    text: &[u8],
    form: Form,
    out: &mut W,
) -> Result<End, Unanswered>
    ensures answered { IfOk result (Answers source.now script.now limit text.now form (W.contents out.old) (W.contents out.new)) }
    ensures unanswered { IfErr result (Leaves source.now script.now limit text.now form (W.contents out.old) (W.contents out.new)) }
{
    let Some(certificate) = check(alloc, source, script, limit, text) else {
        return Err(Unanswered::Uncertified);
    };
    match write_answer(alloc, form, &certificate.journal, text, out) {
        Ok(()) => Ok(certificate.end),
        Err(_) => Err(Unanswered::Unwritten),
    }
}
