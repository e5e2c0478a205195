//! What a command line asks for: a job with its files and options. Files are paths, or `-` for standard input. A run has a *journal*: what happened
//! in it, one *entry* after another. A *cancel* is an entry that says that a pending call was dropped.

ghost use Rattle.std.specs.Prelude.{◌≡◌, option_map, true};
ghost use Rattle.orc_cli.specs.Inputs.{are_one, names_input, may_name_input, two_of, two_of_four, share_with, shares};
ghost use Rattle.orc_cli.specs.Ranges.{AreInRange, IsInRange};
ghost use Rattle.orc_cli.specs.Wanted.{keeps_journal};

use orc_rules::limits::{MOST_ENTRIES, MOST_WORKERS};

/// What stands for standard input where a file is named. A file that is itself called so is named `./-`.
pub const STANDARD_INPUT: &str = "-";

/// What a command line asks for: a job, and whether what went wrong is to be explained.
#[derive(Clone, Copy, Debug)]
pub struct Asked<'a> {
    /// What is to be done.
    pub job: Job<'a>,
    /// Whether `--explain` is given.
    pub explain: bool,
}

/// The files of a program, each a path, or `-` for standard input.
#[derive(Clone, Copy, Debug)]
pub struct ProgramPaths<'a> {
    /// The program's source.
    pub file: &'a str,
    /// The script, which says how the program's own sites answer. None where no script is given: then the program has no sites of its own.
    pub script: Option<&'a str>,
}

/// What a command line asks for.
#[derive(Clone, Copy, Debug)]
pub enum Job<'a> {
    /// `run`: run the program, and write what it publishes or its journal.
    Run {
        program: ProgramPaths<'a>,
        options: RunOptions,
    },
    /// `outcomes`: run the program in many orders, and write each outcome: how a run ended, and what it published.
    Outcomes {
        program: ProgramPaths<'a>,
        options: SurveyOptions,
    },
    /// `outcomes --all`: run the program in many orders, then search all its schedules, and write each outcome.
    Search {
        program: ProgramPaths<'a>,
        options: SearchOptions,
    },
    /// `outcomes --show`: write the journal of a run that has the outcome on a line of those that `outcomes` writes.
    Show {
        program: ProgramPaths<'a>,
        options: ShowOptions,
    },
    /// `check`: check a journal, whose file is `journal`, against the program.
    Check {
        program: ProgramPaths<'a>,
        journal: &'a str,
    },
    /// `check --claims`: check a journal against the program, and then the claims of a test against the journal. `journal` and `test` are their
    /// files.
    Claims {
        program: ProgramPaths<'a>,
        journal: &'a str,
        test: &'a str,
    },
    /// `draw` with a journal: draw that journal of the program.
    Draw {
        program: ProgramPaths<'a>,
        journal: &'a str,
        options: orc_draw::Options,
    },
    /// `draw` without a journal: run the program, and draw the journal of that run.
    DrawRun {
        program: ProgramPaths<'a>,
        options: DrawRunOptions,
    },
    /// `print`: write the program in its plain form.
    Print {
        file: &'a str,
    },
    /// `test`: hold the claims of a test, whose file is `test`, against every way in which the test lets services behave.
    Test {
        program: ProgramPaths<'a>,
        test: &'a str,
        options: TestOptions,
    },
}

// Whether a path is `-`, which stands for standard input.
fn is_input(path: &str) -> bool
    ensures { result ≡ names_input path.now }
{
    path == STANDARD_INPUT
}

// Whether a path is given and is `-`, which stands for standard input.
fn may_be_input(path: Option<&str>) -> bool
    ensures { result ≡ may_name_input (option_map (λ p. p.now) path.entry) }
{
    match path {
        Some(path) => is_input(path),
        // No file is named.
        None => false,
    }
}

// Whether at least two of these three are true: then two files are standard input, which can be read only once.
fn are_two(a: bool, b: bool, c: bool) -> bool
    ensures { result ≡ two_of a b c }
{
    a && b || (a || b) && c
}

// Whether at least two of these four are true: then two files are standard input, which can be read only once.
fn are_two_of_four(a: bool, b: bool, c: bool, d: bool) -> bool
    ensures { result ≡ two_of_four a b c d }
{
    are_two(a, b, c) || (a || b || c) && d
}

// Whether so many `workers`, and a `limit` of so many journal entries, are within the limits of the engine: 1 of each at least, and `MOST_WORKERS`
// and `MOST_ENTRIES` at most.
fn is_in_range(workers: u64, limit: u64) -> bool
    ensures { result ≡ true → IsInRange workers limit }
{
    1 <= workers && workers <= MOST_WORKERS as u64 && 1 <= limit && limit <= MOST_ENTRIES
}

impl ProgramPaths<'_> {
    // Whether standard input is named for both files, the program's and the script.
    fn shares_input(&self) -> bool
        ensures { result ≡ are_one self.now }
    {
        is_input(self.file) && may_be_input(self.script)
    }

    // Whether standard input is named for more than one of these three: the program's file, the script, and `other`.
    fn shares_input_with(&self, other: &str) -> bool
        ensures { result ≡ share_with self.now other.now }
    {
        are_two(
            is_input(self.file),
            is_input(other),
            may_be_input(self.script),
        )
    }
}

impl Job<'_> {
    /// Whether standard input is named for more than one of the job's files. It can be read only once, so such a line is refused.
    pub(crate) fn shares_input(&self) -> bool
        ensures { result ≡ shares self.now }
    {
        match *self {
            // These read the program and its script alone.
            Job::Run { program, .. }
            | Job::Outcomes { program, .. }
            | Job::Search { program, .. }
            | Job::Show { program, .. }
            | Job::DrawRun { program, .. } => program.shares_input(),
            // These read a journal, too.
            Job::Check { program, journal }
            | Job::Draw {
                program,
                journal,
                ..
            } => { program.shares_input_with(journal) }
            // This reads four files: the program, its script, a journal and a test.
            Job::Claims {
                program,
                journal,
                test,
            } => are_two_of_four(
                is_input(program.file),
                is_input(journal),
                may_be_input(program.script),
                is_input(test),
            ),
            // `print` reads one file, the program's.
            Job::Print { .. } => false,
            Job::Test { program, test, .. } => program.shares_input_with(test),
        }
    }

    /// Whether the numbers of workers and of journal entries that the job asks for are within the limits of the engine. A job that makes no run asks
    /// for none.
    pub(crate) fn is_in_range(&self) -> bool
        ensures { result ≡ true → AreInRange self.now }
    {
        match *self {
            Job::Run { options, .. } => is_in_range(options.workers, options.limit),
            Job::Outcomes { options, .. } => is_in_range(options.workers, options.limit),
            Job::Search { options, .. } => {
                is_in_range(options.survey.workers, options.survey.limit)
            }
            Job::Show { options, .. } => is_in_range(options.survey.workers, options.survey.limit),
            Job::DrawRun { options, .. } => is_in_range(options.run.workers, options.run.limit),
            Job::Test { options, .. } => is_in_range(options.workers, options.limit),
            // These make no run.
            Job::Check { .. } | Job::Claims { .. } | Job::Draw { .. } | Job::Print { .. } => true,
        }
    }
}

/// How a program is run in many orders: the options of `outcomes`.
#[derive(Clone, Copy, Debug, PartialEq, Eq)]
pub struct SurveyOptions {
    /// How many workers make these runs, each one at a time, 1 to `MOST_WORKERS`.
    pub workers: u64,
    /// In how many orders the program is run, from order 0 on. An order is a number that decides what comes first where the rules leave it free.
    pub orders: u64,
    /// The most entries that a run's journal may have, cancels not counted.
    pub limit: u64,
}

/// How all schedules of a program are searched too: the options of `outcomes --all`.
#[derive(Clone, Copy, Debug, PartialEq, Eq)]
pub struct SearchOptions {
    /// How the program is run in many orders, before the search.
    pub survey: SurveyOptions,
    /// The search looks at so many states (places at which a run can be) at most.
    pub states: u64,
}

/// Which outcome is shown: the options of `outcomes --show`.
#[derive(Clone, Copy, Debug, PartialEq, Eq)]
pub struct ShowOptions {
    /// How the program is run in many orders, whose outcomes come first.
    pub survey: SurveyOptions,
    /// The search of all schedules looks at so many states (places at which a run can be) at most; None for no search.
    pub states: Option<u64>,
    /// The outcome's line, from 1, among those that the same command writes without `--show`.
    pub number: u64,
}

/// How a test is made: the options of `test`.
#[derive(Clone, Copy, Debug, PartialEq, Eq)]
pub struct TestOptions {
    /// How many workers make its runs, each one at a time, 1 to `MOST_WORKERS`.
    pub workers: u64,
    /// At most so many ways of each case are tried, the first ones. A way is one script by which the services of a case of the test may answer.
    pub ways: u64,
    /// In how many orders each way is run, from order 0 on.
    pub orders: u64,
    /// The most entries that a run's journal may have, cancels not counted.
    pub limit: u64,
    /// A search through all schedules of a way looks at so many states at most; 0 for no search.
    pub states: u64,
    /// What is written of the test.
    pub shown: Shown,
}

/// What is written of a test: a table, or one failure's script or journal.
#[derive(Clone, Copy, Debug, PartialEq, Eq)]
pub enum Shown {
    /// A line for each claim, and what shows its failure below it.
    Table,
    /// The script of the failure with this number, from 1.
    Script(u64),
    /// The journal of the run that shows the failure with this number, from 1.
    Journal(u64),
}

/// How a program is run: the options of `run`, and of `draw` where it makes the run.
#[derive(Clone, Copy, Debug, PartialEq, Eq)]
pub struct RunOptions {
    /// How many workers (threads) make the run, 1 to `MOST_WORKERS`.
    pub workers: u64,
    /// What comes first where the rules leave it free.
    pub order: Order,
    /// The most entries that the run's journal may have, cancels not counted.
    pub limit: u64,
    /// What is written of the run.
    pub wanted: Wanted,
}

/// How a run is made and drawn: the options of `draw` without a journal.
#[derive(Clone, Copy, Debug)]
pub struct DrawRunOptions {
    /// How the run is made.
    pub run: RunOptions,
    /// How the run's journal is drawn.
    pub drawing: orc_draw::Options,
}

/// What comes first in a run where the rules leave it free.
#[derive(Clone, Copy, Debug, PartialEq, Eq)]
pub enum Order {
    /// The same order in each run.
    Fixed,
    /// What pseudorandom numbers with this seed choose: the same for the same number. One worker (thread) makes such a run; several would ignore the
    /// number.
    Numbered(u64),
    /// What the workers' threads get to first.
    Unordered,
}

/// What is written of a run.
#[derive(Clone, Copy, Debug, PartialEq, Eq)]
pub enum Wanted {
    /// A line for each value that the run published.
    Values,
    /// A line for each value that the run published, with the logical time at which it came.
    Times,
    /// The run's journal.
    Journal,
}

impl Wanted {
    /// Whether the run has to keep its journal for what is written: the times are read from the journal.
    pub fn keeps_journal(self) -> bool
        ensures { result ≡ keeps_journal self }
    {
        match self {
            Wanted::Values => false,
            Wanted::Times | Wanted::Journal => true,
        }
    }
}
