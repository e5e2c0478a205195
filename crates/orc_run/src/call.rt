//! What the printed commands that show a failure repeat of the command line: the names of its files, and the options on which failures depend.

ghost use Rattle.std.specs.Prelude.{◌≡◌, ◌++◌, IfOk, OnOk, option_map};
ghost use Rattle.orc_run.specs.Called.{option_text, options_text, script_text};

use orc_cli::{DEFAULT_STATES, DEFAULT_TRIALS, DEFAULT_WAYS, ProgramPaths, TestOptions};
use orc_rules::limits::DEFAULT_ENTRIES;
use orc_tally::write_word;
use std::alloc::{AllocError, Global};

/// The names that a command line has for the files of a test, which the table's title and commands repeat.
#[derive(Clone, Copy)]
pub struct Names<'n> {
    /// The program's source, and the script beside the test if there is one.
    pub program: ProgramPaths<'n>,
    /// The test's file.
    pub test: &'n str,
}

// Writes the option that names the script, as a shell takes it; nothing if the command line names no script. The error is refused memory.
fn write_script(script: Option<&str>, text: &mut Vec<u8>) -> Result<(), AllocError>
    ensures { OnOk result (text.new.items ≡ text.old.items ++ script_text (option_map (λ p. p.now) script.entry)) }
{
    match script {
        Some(name) => {
            text.extend_from_slice(b" --script ")?;
            write_word(name.as_bytes(), text)
        }
        None => Ok(()),
    }
}

// Writes an option with its number, unless that is the `usual` one, its default. `word` is the option with a blank on both sides. The error is
// refused memory.
fn write_option(
    alloc: Global,
    word: &str,
    usual: u64,
    number: u64,
    text: &mut Vec<u8>,
) -> Result<(), AllocError>
    ensures { OnOk result (text.new.items ≡ text.old.items ++ option_text word.now usual number) }
{
    if number == usual {
        return Ok(());
    }
    text.extend_from_slice(word.as_bytes())?;
    let digits = format!(in alloc; "{number}")?;
    text.extend_from_slice(digits.as_bytes())
}

/// The options of a command line on which the failures of a test depend, a blank before each: `--script` if there is one, and those of `--ways`,
/// `--orders`, `--states` and `--limit` that aren't the default. The error is refused memory.
pub fn options_text(
    alloc: Global,
    script: Option<&str>,
    options: &TestOptions,
) -> Result<Vec<u8>, AllocError>
    ensures { IfOk result (λ text. text.items ≡ options_text (option_map (λ p. p.now) script.entry) options.now) }
{
    let mut text = Vec::new(alloc);
    write_script(script, &mut text)?;
    write_option(alloc, " --ways ", DEFAULT_WAYS, options.ways, &mut text)?;
    write_option(
        alloc,
        " --orders ",
        DEFAULT_TRIALS,
        options.orders,
        &mut text,
    )?;
    write_option(
        alloc,
        " --states ",
        DEFAULT_STATES,
        options.states,
        &mut text,
    )?;
    write_option(
        alloc,
        " --limit ",
        DEFAULT_ENTRIES,
        options.limit,
        &mut text,
    )?;
    Ok(text)
}
