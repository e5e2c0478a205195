//! The commands as `clap` reads them, from the table of `arguments.rt`.
//!
//! `clap` borrows all texts: those of the table live as long as the program, and those that are made here are kept in [`ArgumentTexts`]. A `Takes`
//! says what is written for an argument, whose placeholder in the help is `called` here, and a `Beside` which other argument it excludes or needs.

use crate::arguments::{ARGUMENTS, Argument, Beside, COMMANDS, Takes};
use clap::{Arg, ArgAction, Command, value_parser};
use std::alloc::{AllocError, Global};

/// The version, and the logic of the proof kit with which the program was proved (README.md).
const VERSION: &str = "0.1.0 (proved with logic dac8208d650f15bf)";

/// What the help has below the list of commands. The texts of faults and the statuses are defined elsewhere (docs/architecture.md); this is a copy.
const CODES: &str = "Faults, each one line on standard error, a code with its place:
  S, C  the source's text, its names    (a byte, counted from 0)
  L, J  the script, the journal's text  (a line, counted from 1)
  T     the test's text                 (a line, counted from 1)
  K     an entry of the journal         (counted from 1)
  E     the engine

Status:
  0  halted, or done                    4  cut by a limit
  1  a fault in one of the files        5  memory was refused
  2  the command line was refused       6  a file or the output failed
  3  quiet: it waits for ever           7  the engine is at fault";

// The texts of a setting (an option with a range of numbers and a default) that aren't in the table, since they have its numbers.
#[derive(Drop)]
struct Told {
    /// The number where the setting is left out, as a text.
    default: String,
    /// What the help says of the setting, with its range.
    help: String,
}

// An argument of the table, and if it is a setting (an option with a range and a default) its texts; None for any other.
#[derive(Drop)]
struct Row {
    // A row of the table `ARGUMENTS`.
    argument: &'static Argument,
    // The texts of a setting.
    told: Option<Told>,
}

impl Row {
    // An argument with its texts, which are made if it is a setting. The error is refused memory.
    fn new(alloc: Global, argument: &'static Argument) -> Result<Row, AllocError> {
        let told = match &argument.takes {
            Takes::Setting(least, most, default) => {
                let help = argument.help;
                Some(Told {
                    default: format!(in alloc; "{default}")?,
                    help: format!(in alloc; "{help}, {least} to {most}")?,
                })
            }
            // Others have no numbers in their help, and no default that is made here.
            _ => None,
        };
        Ok(Row { argument, told })
    }

    // Whether the command of this name, such as `run`, takes the argument.
    fn is_of(&self, command: &str) -> bool {
        for one in self.argument.of {
            if *one == command {
                return true;
            }
        }
        false
    }

    // Adds to `argument`, which `clap` is to read, what the help says of this row's argument, and the default of a setting.
    fn helping<'a>(&'a self, argument: Arg<'a>) -> Arg<'a> {
        match &self.told {
            Some(told) => argument
                .help(told.help.as_str())
                .default_value(told.default.as_str()),
            None => argument.help(self.argument.help),
        }
    }

    // Adds to `argument`, which `clap` is to read, which other argument this row's excludes or needs. The error is refused memory.
    fn beside<'a>(&self, argument: Arg<'a>) -> Result<Arg<'a>, AllocError> {
        match self.argument.beside {
            Beside::Anything => Ok(argument),
            Beside::Not(other) => argument.conflicts_with(other),
            Beside::Only(other) => argument.requires_arg(other),
        }
    }

    // The row's argument as `clap` reads it, with the placeholder for its text, its range or words, and its default. The error is refused memory.
    fn argument<'a>(&'a self, alloc: Global) -> Result<Arg<'a>, AllocError> {
        let name = self.argument.name;
        // The name, the help, and which other argument is excluded or needed. Without `long` the argument goes by its place.
        let named = self.beside(self.helping(Arg::new(alloc, name)))?;
        Ok(match self.argument.takes {
            Takes::File(called) => named.value_name(called).required(true),
            Takes::MaybeFile(called) => named.value_name(called),
            Takes::Nothing => named.long(name).action(ArgAction::SetTrue),
            Takes::Text(called) => named.long(name).value_name(called),
            Takes::Word(called, words, default) => named
                .long(name)
                .value_name(called)
                .value_parser(words)
                .default_value(default),
            Takes::Number => named
                .long(name)
                .value_name("N")
                .value_parser(value_parser!(u64)),
            Takes::Choice(most) => named
                .long(name)
                .value_name("K")
                .value_parser(value_parser!(u64).range(1..=most)),
            Takes::Setting(least, most, _) => named
                .long(name)
                .value_name("N")
                .value_parser(value_parser!(u64).range(least..=most)),
        })
    }
}

/// All arguments, with the texts that `clap` borrows while it reads a command line: so they are made before the line is read, and live as long as
/// what is read.
pub struct ArgumentTexts {
    /// A row for each argument, in the order of `ARGUMENTS`.
    rows: Vec<Row>,
}

// Written out, so that a caller's proof sees one call and not the drop of each field.
impl Drop for ArgumentTexts {
    fn drop(self) {
        let ArgumentTexts { rows: _ } = self;
    }
}

impl ArgumentTexts {
    /// All arguments with their texts. The error is refused memory.
    pub fn new(alloc: Global) -> Result<ArgumentTexts, AllocError> {
        let mut rows = Vec::new(alloc);
        for argument in ARGUMENTS.iter() {
            rows.push(Row::new(alloc, argument)?)?;
        }
        Ok(ArgumentTexts { rows })
    }

    // A command of `COMMANDS` with its arguments; `about` is what the help says of it. The error is refused memory.
    fn command<'a>(
        &'a self,
        alloc: Global,
        name: &'a str,
        about: &'a str,
    ) -> Result<Command<'a>, AllocError> {
        let mut command = Command::new(alloc, name).about(about);
        for row in self.rows.as_slice() {
            // The table has the arguments of all commands; these are the command's own.
            if row.is_of(name) {
                command = command.arg(row.argument(alloc)?)?;
            }
        }
        Ok(command)
    }

    /// The whole command line as `clap` reads it: `orc` with a subcommand for each command. The error is refused memory.
    pub(crate) fn orc_command<'a>(&'a self, alloc: Global) -> Result<Command<'a>, AllocError> {
        let mut orc = Command::new(alloc, "orc")
            .version(VERSION)
            .about("Run programs of the Orc calculus, and check their journals")
            .after_help(CODES)
            .subcommand_required(true)
            .arg_required_else_help(true);
        for (name, about) in COMMANDS.iter() {
            orc = orc.subcommand(self.command(alloc, *name, *about)?)?;
        }
        Ok(orc)
    }
}
