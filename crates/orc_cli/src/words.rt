//! What the words of a command line ask for, from what `clap` has read of them (`given`, the arguments of one command). `program` are the paths of
//! the program's file and its script. A `Job` is what a command line asks for, with its files and options.
//!
//! A function here gives None where `clap` lacks a value that is always there: a file that it requires, or a setting, which has a default.
//! `read_words` refuses such a line, which doesn't come.

ghost use Rattle.std.specs.Prelude.{◌≡◌, IfOk, false};
ghost use Rattle.orc_cli.specs.Inputs.{shares};
ghost use Rattle.orc_cli.specs.Ranges.{AreInRange};

use crate::commands::ArgumentTexts;
use crate::job::{
    Asked, DrawRunOptions, Job, Order, ProgramPaths, RunOptions, SearchOptions, ShowOptions, Shown,
    SurveyOptions, TestOptions, Wanted,
};
use clap::error::ErrorKind;
use clap::{ArgMatches, Error};
use orc_draw::{Form, Theme};
use orc_rules::limits::DEFAULT_WORKERS;
use std::alloc::Global;
use std::convert::AsStr;

// Whether a flag of this name is on the command line. The function has no contract, so that no caller's proof reads what `clap` states of flags.
// `given` has the command's arguments, as `clap` has read them.
fn is_given(given: &ArgMatches, name: &str) -> bool {
    given.get_flag(name)
}

// What is written of a run: its journal, its values with their times, or its values. `clap` refuses a line with both flags, `--journal` and
// `--times`.
fn wanted_of(given: &ArgMatches) -> Wanted {
    if is_given(given, "journal") {
        Wanted::Journal
    } else if is_given(given, "times") {
        Wanted::Times
    } else {
        Wanted::Values
    }
}

// The order of a run (what comes first where the rules leave it free): the one with the number that `--order` gives, else the fixed one. `Unordered`
// is asked for by a flag, which `options_of` reads.
fn order_of(given: &ArgMatches) -> Order {
    match given.get_one::<u64>("order") {
        Some(number) => Order::Numbered(number),
        None => Order::Fixed,
    }
}

// How a program is run, by the options of `run`. None where `clap` lacks one that has a default. A numbered order is one worker's, so `clap` refuses
// a number of workers beside it, and the default number isn't read. `given` has the command's arguments, as `clap` has read them.
fn options_of(given: &ArgMatches) -> Option<RunOptions> {
    let order = if is_given(given, "unordered") {
        Order::Unordered
    } else {
        order_of(given)
    };
    // The number of `--workers`, unless the order is numbered.
    let workers = match order {
        Order::Numbered(_) => 1,
        Order::Fixed | Order::Unordered => given.get_one::<u64>("workers")?,
    };
    Some(RunOptions {
        workers,
        order,
        limit: given.get_one::<u64>("limit")?,
        wanted: wanted_of(given),
    })
}

// How a program is run in many orders, by the options of `outcomes`. None where `clap` lacks one, though each has a default.
fn survey_options_of(given: &ArgMatches) -> Option<SurveyOptions> {
    Some(SurveyOptions {
        workers: given.get_one::<u64>("workers")?,
        orders: given.get_one::<u64>("orders")?,
        limit: given.get_one::<u64>("limit")?,
    })
}

// Through how many states (places at which a run can be) all schedules are searched at most. None where `--all` isn't given: then nothing is
// searched. `given` has the command's arguments, as `clap` has read them.
fn states_of(given: &ArgMatches) -> Option<u64> {
    if !is_given(given, "all") {
        return None;
    }
    given.get_one::<u64>("states")
}

// The job of `outcomes`: to show one outcome, to search all schedules too, or neither.
fn outcomes_of<'a>(program: ProgramPaths<'a>, given: &ArgMatches<'a>) -> Option<Job<'a>> {
    let survey = survey_options_of(given)?;
    let states = states_of(given);
    // `--show` gives the line of the outcome, from 1. Some: that outcome's journal is asked for.
    if let Some(number) = given.get_one::<u64>("show") {
        let options = ShowOptions {
            survey,
            states,
            number,
        };
        return Some(Job::Show { program, options });
    }
    // Without `--show`: with `--all` the schedules are searched, too.
    match states {
        Some(states) => {
            let options = SearchOptions { survey, states };
            Some(Job::Search { program, options })
        }
        None => Some(Job::Outcomes {
            program,
            options: survey,
        }),
    }
}

// What is written of a test: the script or the journal of the failure that `--fail` names, else a line for each claim. `given` has the command's
// arguments, as `clap` has read them.
fn shown_of(given: &ArgMatches) -> Shown {
    match given.get_one::<u64>("fail") {
        // Without `--fail`: a line for each claim.
        None => Shown::Table,
        Some(number) => {
            if is_given(given, "journal") {
                Shown::Journal(number)
            } else {
                Shown::Script(number)
            }
        }
    }
}

// How a test is made, by the options of `test`. None where `clap` lacks one, though each has a default.
fn test_options_of(given: &ArgMatches) -> Option<TestOptions> {
    Some(TestOptions {
        workers: given.get_one::<u64>("workers")?,
        ways: given.get_one::<u64>("ways")?,
        orders: given.get_one::<u64>("orders")?,
        limit: given.get_one::<u64>("limit")?,
        states: given.get_one::<u64>("states")?,
        shown: shown_of(given),
    })
}

// As what a journal is drawn: as letters, `--width` columns wide, or as SVG in the colours of `--theme`. None where `clap` lacks one of these, though
// each has a default. `given` has the command's arguments, as `clap` has read them.
fn form_of(given: &ArgMatches) -> Option<Form> {
    if is_given(given, "text") {
        return Some(Form::Text(given.get_one::<u64>("width")?));
    }
    let theme = match given.get_str("theme")? {
        "light" => Theme::Light,
        "dark" => Theme::Dark,
        // `auto`: `clap` takes no other word.
        _ => Theme::Auto,
    };
    Some(Form::Svg(theme))
}

// The job of `check`: with the claims of a test, or without. None where `clap` lacks the journal, though it requires one.
fn check_of<'a>(program: ProgramPaths<'a>, given: &ArgMatches<'a>) -> Option<Job<'a>> {
    let journal = given.get_str("journal")?;
    match given.get_str("claims") {
        Some(test) => Some(Job::Claims {
            program,
            journal,
            test,
        }),
        None => Some(Job::Check { program, journal }),
    }
}

// How a program is run whose journal is drawn. None where `clap` lacks the limit, though it has a default. `draw` takes no number of workers, and no
// flag for a run that is unordered. `given` has the command's arguments, as `clap` has read them.
fn drawn_run_of(given: &ArgMatches) -> Option<RunOptions> {
    let order = order_of(given);
    // A numbered order is one worker's; else the default number.
    let workers = match order {
        Order::Numbered(_) => 1,
        // `order_of` never gives Unordered: the `match` only has to name it.
        Order::Fixed | Order::Unordered => DEFAULT_WORKERS as u64,
    };
    Some(RunOptions {
        workers,
        order,
        limit: given.get_one::<u64>("limit")?,
        wanted: Wanted::Journal,
    })
}

// The job of `draw`: of a journal that is given, or of a run that is made for it. None where `clap` lacks an option with a default.
fn draw_of<'a>(program: ProgramPaths<'a>, given: &ArgMatches<'a>) -> Option<Job<'a>> {
    let drawing = orc_draw::Options {
        form: form_of(given)?,
        all: is_given(given, "all"),
    };
    match given.get_str("journal") {
        Some(journal) => Some(Job::Draw {
            program,
            journal,
            options: drawing,
        }),
        None => Some(Job::DrawRun {
            program,
            options: DrawRunOptions {
                run: drawn_run_of(given)?,
                drawing,
            },
        }),
    }
}

// What the words of the command `name`, which takes a script, ask for. None where `clap` lacks a file or a setting, and for another command: `job_of`
// has `print`, and there are no others. `given` has the command's arguments, as `clap` has read them.
fn job_with_script<'a>(
    name: &str,
    program: ProgramPaths<'a>,
    given: &ArgMatches<'a>,
) -> Option<Job<'a>> {
    match name {
        "run" => Some(Job::Run {
            program,
            options: options_of(given)?,
        }),
        "outcomes" => outcomes_of(program, given),
        "check" => check_of(program, given),
        "draw" => draw_of(program, given),
        "test" => Some(Job::Test {
            program,
            test: given.get_str("test")?,
            options: test_options_of(given)?,
        }),
        _ => None,
    }
}

// What the words of the command with this name ask for. None where `clap` lacks a file or a setting, which doesn't come: `clap` requires the files,
// and gives the defaults.
fn job_of<'a>(name: &str, given: &ArgMatches<'a>) -> Option<Job<'a>> {
    let file = given.get_str("file")?;
    // `print` takes no script.
    if name == "print" {
        return Some(Job::Print { file });
    }
    let program = ProgramPaths {
        file,
        script: given.get_str("script"),
    };
    job_with_script(name, program, given)
}

/// Why a command line is refused that names standard input for two files.
const SHARED: &str = "'-' stands for more than one file, and standard input can be read only once";

/// Why a command line is refused whose numbers are out of range. `clap` refuses it before, with the range.
const OUT_OF_RANGE: &str = "the number of workers or of entries is out of range";

/// Reads a command line, whose first word is the program's name. `texts` has what the help says of the arguments. The job of an answer Ok names
/// standard input for one file at most, and the numbers of workers and of entries that it asks for are within the limits.
///
/// The error is `clap`'s: it has the text of the help or of the version where the line asks for them, else why the line is refused; or memory was
/// refused.
pub fn read_words<'a, S: AsStr>(
    alloc: Global,
    words: &'a [S],
    texts: &'a ArgumentTexts,
) -> Result<Asked<'a>, Error>
    ensures once { IfOk result (λ asked. shares asked.job ≡ false) }
    ensures ranges { IfOk result (λ asked. AreInRange asked.job) }
{
    // The commands and arguments as `clap` reads them.
    let mut command = texts.orc_command(alloc)?;
    let matches = command.try_get_matches_from_mut(words)?;
    if let Some((name, given)) = matches.subcommand() {
        // None doesn't come: `clap` gives each command its files and settings.
        if let Some(job) = job_of(name, given) {
            if job.shares_input() {
                return Err(command.error(ErrorKind::ArgumentConflict, SHARED)?);
            }
            if !job.is_in_range() {
                return Err(command.error(ErrorKind::ValueValidation, OUT_OF_RANGE)?);
            }
            let explain = is_given(given, "explain");
            return Ok(Asked { job, explain });
        }
    }
    // Not reached: `clap` gives one of the commands, with all its values.
    Err(command.error(ErrorKind::MissingSubcommand, "no such command")?)
}
