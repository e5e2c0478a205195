//! The arguments that each command takes, and what the help says of them: a table, from which `commands.rt` makes what `clap` reads.
//!
//! Numbers of a range are `i64`, as `clap` has them. A limit of the command line alone is defined here, with its option; all others are in
//! `orc_rules::limits`. A test's *claims* say what must hold of its runs, and its *cases* say how the services may answer.

use orc_rules::limits::{DEFAULT_ENTRIES, DEFAULT_WORKERS, MOST_ENTRIES, MOST_WORKERS};

/// The most orders in which `outcomes` runs a program, or `test` each way.
const MOST_ORDERS: i64 = 1_000_000;

/// In how many orders `outcomes` runs a program where no number is asked for.
const DEFAULT_ORDERS: u64 = 100;

/// The most states (places at which a run can be) of a search of `outcomes --all`, or of one search of `test`; also the greatest number that `--show`
/// takes.
const MOST_STATES: i64 = 10_000_000;

/// The most states (places at which a run can be) of a search of `outcomes --all` or of `test`, where no number is asked for.
pub const DEFAULT_STATES: u64 = 5_000;

/// How many ways of each case (scripts by which its services may answer) `test` tries at most, where no number is asked for.
pub const DEFAULT_WAYS: u64 = 10_000;

/// In how many orders `test` runs each way, where no number is asked for.
pub const DEFAULT_TRIALS: u64 = 20;

/// The most ways of a case (scripts by which its services may answer) that `test` tries: the most that `--ways` takes.
const MOST_WAYS: i64 = 1_000_000;

/// The most failures that a test may report: one of each claim, of which a test has at most 1,024, and one of each case, at most 256. A case in which
/// no claim says how runs end fails if a limit cuts one of its runs.
const MOST_FAILURES: i64 = 1_280;

/// An argument of one or more commands.
pub(crate) struct Argument {
    /// The commands that take the argument, by their names in `COMMANDS`.
    pub(crate) of: &'static [&'static str],
    /// The argument's name. An option is written with `--` before it.
    pub(crate) name: &'static str,
    /// What is written for the argument on the command line.
    pub(crate) takes: Takes,
    /// Which other argument this one excludes or needs.
    pub(crate) beside: Beside,
    /// What the help says of the argument, without its range and its default.
    pub(crate) help: &'static str,
}

/// What is written for an argument. A text is the placeholder for it in the help, such as `FILE`.
pub(crate) enum Takes {
    /// A file by its place on the command line, without the argument's name. It has to be there.
    File(&'static str),
    /// A file by its place on the command line, which may be left out.
    MaybeFile(&'static str),
    /// The argument's name alone: a flag.
    Nothing,
    /// The argument's name, and a text.
    Text(&'static str),
    /// The argument's name, and one of these words. The first field is the placeholder; the last one is the word where the argument is left out.
    Word(&'static str, &'static [&'static str], &'static str),
    /// The argument's name, and any number from 0 to 2^64 - 1.
    Number,
    /// The argument's name, and a number from 1 to this one, without a default: which of several things is meant.
    Choice(i64),
    /// The argument's name, and a number from the first to the second one, both allowed; the third one is the number where the argument is left out.
    Setting(i64, i64, u64),
}

/// Which other argument of its command an argument excludes or needs.
pub(crate) enum Beside {
    /// No other.
    Anything,
    /// The argument excludes the one of this name: only one of them may be written.
    Not(&'static str),
    /// The argument needs the one of this name: it may be written only beside that one.
    Only(&'static str),
}

/// The commands, each with what the help says of it. By these names `words.rt` knows which one is asked for.
pub(crate) const COMMANDS: [(&str, &str); 6] = [
    ("run", "Run a program and write what it publishes"),
    (
        "outcomes",
        "Run a program in many orders and write what came of them",
    ),
    ("check", "Check a journal against a program, by the rules"),
    (
        "draw",
        "Draw what happened in a run, from its journal or made for it",
    ),
    ("print", "Write a program in its plain form"),
    (
        "test",
        "Hold a test's claims against every way in which services may behave",
    ),
];

/// All arguments. The help of a command lists the arguments that the command takes, in this order. A name that means different things to different
/// commands has a row for each.
pub(crate) static ARGUMENTS: [Argument; 29] = [
    Argument {
        of: &["run", "outcomes", "check", "draw", "print", "test"],
        name: "file",
        takes: Takes::File("FILE"),
        beside: Beside::Anything,
        help: "The program's source text; - is standard input",
    },
    Argument {
        of: &["check"],
        name: "journal",
        takes: Takes::File("JOURNAL"),
        beside: Beside::Anything,
        help: "The journal's text; - is standard input",
    },
    Argument {
        of: &["draw"],
        name: "journal",
        takes: Takes::MaybeFile("JOURNAL"),
        beside: Beside::Anything,
        help: "The journal's text; - is standard input [default: that of a run of the program]",
    },
    Argument {
        of: &["test"],
        name: "test",
        takes: Takes::File("TEST"),
        beside: Beside::Anything,
        help: "The test's text; - is standard input",
    },
    Argument {
        of: &["run", "outcomes", "check", "draw", "test"],
        name: "script",
        takes: Takes::Text("F"),
        beside: Beside::Anything,
        help: "The answers of the program's own sites; - is standard input [default: none]",
    },
    Argument {
        of: &["test"],
        name: "ways",
        // The least and the greatest number, and the default.
        takes: Takes::Setting(1, MOST_WAYS, DEFAULT_WAYS),
        beside: Beside::Anything,
        help: "How many ways of each case are tried",
    },
    Argument {
        of: &["test"],
        name: "orders",
        // The least and the greatest number, and the default.
        takes: Takes::Setting(1, MOST_ORDERS, DEFAULT_TRIALS),
        beside: Beside::Anything,
        help: "In how many orders each way is run",
    },
    Argument {
        of: &["test"],
        name: "states",
        // From 0: with 0 nothing is searched.
        takes: Takes::Setting(0, MOST_STATES, DEFAULT_STATES),
        beside: Beside::Anything,
        help: "The greatest number of states of a search for \"every schedule\"",
    },
    Argument {
        of: &["run", "outcomes", "test"],
        name: "workers",
        // The least and the greatest number, and the default.
        takes: Takes::Setting(1, MOST_WORKERS as i64, DEFAULT_WORKERS as u64),
        beside: Beside::Anything,
        help: "The number of workers",
    },
    Argument {
        of: &["run"],
        name: "order",
        takes: Takes::Number,
        // A numbered order is one worker's, so no number of workers may be given.
        beside: Beside::Not("workers"),
        help: "Take another order where the rules leave it free, on one worker",
    },
    Argument {
        of: &["draw"],
        name: "order",
        takes: Takes::Number,
        // Written beside `journal`, the argument is refused.
        beside: Beside::Not("journal"),
        help: "Without JOURNAL: run it in this order, on one worker",
    },
    Argument {
        of: &["run"],
        name: "unordered",
        takes: Takes::Nothing,
        // Written beside `--order`, the argument is refused.
        beside: Beside::Not("order"),
        help: "Let the workers race where the rules leave the order free; runs may differ",
    },
    Argument {
        of: &["outcomes"],
        name: "orders",
        // The least and the greatest number, and the default.
        takes: Takes::Setting(1, MOST_ORDERS, DEFAULT_ORDERS),
        beside: Beside::Anything,
        help: "In how many orders the program is run",
    },
    Argument {
        of: &["run", "outcomes", "test"],
        name: "limit",
        // The least and the greatest number, and the default.
        takes: Takes::Setting(1, MOST_ENTRIES as i64, DEFAULT_ENTRIES),
        beside: Beside::Anything,
        help: "The greatest number of journal entries",
    },
    Argument {
        of: &["draw"],
        name: "limit",
        // The least and the greatest number, and the default.
        takes: Takes::Setting(1, MOST_ENTRIES as i64, DEFAULT_ENTRIES),
        // Written beside `journal`, the argument is refused.
        beside: Beside::Not("journal"),
        help: "The greatest number of journal entries",
    },
    Argument {
        of: &["run"],
        name: "times",
        takes: Takes::Nothing,
        // Written beside `--journal`, the argument is refused.
        beside: Beside::Not("journal"),
        help: "Write the time of each value behind it",
    },
    Argument {
        of: &["run"],
        name: "journal",
        takes: Takes::Nothing,
        beside: Beside::Anything,
        help: "Write the run's journal instead of what it publishes",
    },
    Argument {
        of: &["outcomes"],
        name: "all",
        takes: Takes::Nothing,
        beside: Beside::Anything,
        help: "Search all schedules too: can a run end by itself in yet another way?",
    },
    Argument {
        of: &["outcomes"],
        name: "states",
        // The least and the greatest number, and the default.
        takes: Takes::Setting(1, MOST_STATES, DEFAULT_STATES),
        // Without `--all` the argument is refused.
        beside: Beside::Only("all"),
        help: "With --all: the greatest number of states",
    },
    Argument {
        of: &["outcomes"],
        name: "show",
        // A number from 1 to this one, without a default.
        takes: Takes::Choice(MOST_STATES),
        beside: Beside::Anything,
        help: "Write the journal of a run with the outcome on line K instead",
    },
    Argument {
        of: &["check"],
        name: "claims",
        takes: Takes::Text("TEST"),
        beside: Beside::Anything,
        help: "Hold the claims that a test makes of every run against it; - is standard input",
    },
    Argument {
        of: &["draw"],
        name: "text",
        takes: Takes::Nothing,
        beside: Beside::Anything,
        help: "Draw with letters instead of as SVG",
    },
    Argument {
        of: &["draw"],
        name: "width",
        // From 60 to 400 columns, and 80 where the option is left out.
        takes: Takes::Setting(60, 400, 80),
        // Without `--text` the argument is refused.
        beside: Beside::Only("text"),
        help: "With --text: about how many columns wide",
    },
    Argument {
        of: &["draw"],
        name: "all",
        takes: Takes::Nothing,
        beside: Beside::Anything,
        help: "Give each call of a built-in site a row too",
    },
    Argument {
        of: &["draw"],
        name: "theme",
        // The placeholder in the help, the words that are taken, and the default.
        takes: Takes::Word("COLOURS", &["auto", "light", "dark"], "auto"),
        beside: Beside::Anything,
        help: "The colours of the SVG",
    },
    Argument {
        of: &["test"],
        name: "fail",
        // A number from 1 to this one, without a default.
        takes: Takes::Choice(MOST_FAILURES),
        beside: Beside::Anything,
        help: "Write the script that shows failure K instead",
    },
    Argument {
        of: &["test"],
        name: "journal",
        takes: Takes::Nothing,
        // Without `--fail` the argument is refused.
        beside: Beside::Only("fail"),
        help: "With --fail: write the journal of its run",
    },
    Argument {
        of: &["run"],
        name: "explain",
        takes: Takes::Nothing,
        beside: Beside::Anything,
        help: "Explain what went wrong, or how the run ended",
    },
    Argument {
        of: &["outcomes", "check", "draw", "print", "test"],
        name: "explain",
        takes: Takes::Nothing,
        beside: Beside::Anything,
        help: "Explain what went wrong, below its line",
    },
];
