//! The program `orc_certify` gives a run's answer from its journal alone. `orc_certify FORM FILE JOURNAL SCRIPT [LIMIT]` checks that JOURNAL is that
//! of a run of FILE with SCRIPT, with at most LIMIT entries, cancels counted. Then it writes what the run published (FORM `values`) or the journal
//! (FORM `journal`). If SCRIPT is an empty file there is no script.
//!
//! The status is that of the run: 0 if it halted, 3 if it is quiet, that is, if it waits for ever. Status 10 says that nothing was written: the
//! journal proves no answer, a file couldn't be read, or memory was refused. Status 6 says that the output couldn't be written whole, and 2 that the
//! command line is wrong.
//!
//! `./orc` starts it while the full program is still being proved. So it is small: it stands on no ledger and no engine.
#![tactic(auto)]

mod certificate;

use certificate::{Form, Unanswered, certify};
use orc_rules::limits::DEFAULT_ENTRIES;
use std::process::ExitCode;
use std::{env, fs, io};

/// The status where the journal proves no answer. No run of `orc` ends with it.
const UNCERTIFIED: u8 = 10;

/// The status if the output couldn't be written whole.
const UNWRITTEN: u8 = 6;

/// The status if the command line is wrong.
const WRONG_WORDS: u8 = 2;

/// What a command line asks for.
#[derive(Drop)]
struct Asked<'a> {
    /// What to write: the values that the run published, or its journal.
    form: Form,
    /// The path of the program's source.
    source: &'a str,
    /// The path of the journal.
    journal: &'a str,
    /// The path of the script.
    script: &'a str,
    /// The most entries that the journal may have, cancels counted.
    limit: u64,
}

// What to write, by the word FORM of the command line. None for another word than `values` and `journal`.
fn form_of(word: &str) -> Option<Form> {
    match word {
        "values" => Some(Form::Values),
        "journal" => Some(Form::Journal),
        _ => None,
    }
}

// The most entries that the journal may have, by the word LIMIT of the command line; the default of `orc run` where that word is missing. None where
// the word is no number below 2^64.
fn limit_of(word: Option<&String>) -> Option<u64> {
    match word {
        Some(word) => word.parse::<u64>().ok(),
        None => Some(DEFAULT_ENTRIES),
    }
}

// What the words of the command line ask for; the first is the program's name. None if there are too few or too many, FORM is none, or LIMIT is no
// number.
fn read_words(words: &[String]) -> Option<Asked<'_>> {
    let [_, form, source, journal, script, rest @ ..] = words else {
        return None;
    };
    if rest.len() > 1 {
        return None;
    }
    Some(Asked {
        form: form_of(form.as_str())?,
        source: source.as_str(),
        journal: journal.as_str(),
        script: script.as_str(),
        limit: limit_of(rest.first())?,
    })
}

// Reads the files, writes the answer to standard output, and gives the process's status. The error is that of a file which can't be read, or refused
// memory for it; nothing was written then.
fn answer(rt: &HostRuntime, asked: &Asked) -> io::Result<u8> {
    let source = fs::read(rt, asked.source)?;
    let script = fs::read(rt, asked.script)?;
    let journal = fs::read(rt, asked.journal)?;
    let answered = certify(
        rt.alloc(),
        source.as_slice(),
        script.as_slice(),
        asked.limit,
        journal.as_slice(),
        asked.form,
        &mut rt.stdout(),
    );
    match answered {
        // 0 if the run halted, 3 if it is quiet: a run that was cut has no certificate.
        Ok(end) => Ok(end.status()),
        Err(Unanswered::Uncertified) => Ok(UNCERTIFIED),
        Err(Unanswered::Unwritten) => Ok(UNWRITTEN),
    }
}

// Reads the words of the command line and the files that they name, and exits with the status of the answer.
fn main(rt: HostRuntime) -> ExitCode {
    let Ok(args) = env::args(&rt) else {
        // A word isn't UTF-8, or memory for the words was refused.
        return ExitCode::from(WRONG_WORDS);
    };
    let Ok(words) = args.collect::<Vec<String>>(rt.alloc()) else {
        // Memory was refused.
        return ExitCode::from(UNCERTIFIED);
    };
    let Some(asked) = read_words(words.as_slice()) else {
        return ExitCode::from(WRONG_WORDS);
    };
    // An error is a file that couldn't be read: then nothing was written, as where the journal proves no answer.
    ExitCode::from(answer(&rt, &asked).unwrap_or(UNCERTIFIED))
}
