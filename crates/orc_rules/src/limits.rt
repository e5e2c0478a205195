//! The limits of the project, each said once: code and contracts cite them here. docs/orc.md, *Limits*, shows most of them to users. Each number is
//! still allowed. A token is a place of the program at which a run can go on; a worker is a thread that moves tokens.

/// The most arguments of a call, parameters of a definition, or patterns of a script's line.
pub const MOST_ARGUMENTS: usize = 16;

/// The most entries of a run or a journal, cancels not counted.
pub const MOST_ENTRIES: u64 = 10_000_000;

/// The entries after which a run ends where no limit is asked for.
pub const DEFAULT_ENTRIES: u64 = 100_000;

/// The longest text of a journal, in bytes: 1 GiB.
pub const LONGEST_JOURNAL: usize = 1_073_741_824;

/// The longest source, the longest script (that of a way together with its own lines) and the longest text of a test, in bytes: 1 MiB each.
pub const LONGEST_SOURCE: usize = 1_048_576;

/// The most brackets and `val`s within one another, in one definition or main expression.
pub const MOST_BRACKETS: usize = 200;

/// The most operators in one definition or main expression.
pub const MOST_OPERATORS: usize = 4_000;

/// The most levels that a checked term nests; a check refuses an entry that would make it deeper (Deep).
pub const MOST_LEVELS: usize = 10_000;

/// The most answers in a line of a script.
pub const MOST_ANSWERS: usize = 1_024;

/// The most nodes of a program, in all its terms together.
pub const MOST_NODES: usize = 65_535;

/// The most tokens and pending calls of a run at one time, counted together.
pub const MOST_TOKENS: usize = 65_536;

/// The most groups of a run that are open at one time: the whole program is one, and so is each right side of a `<x<` without a value and each left
/// side of a `;` that hasn't halted.
pub const MOST_GROUPS: usize = 1_024;

/// The most frames of a token: the left sides of `>x>` around it, counted outwards up to the innermost right side of a `<x<`.
pub const MOST_FRAMES: usize = 4_096;

/// The most workers of a run.
pub const MOST_WORKERS: usize = 16;

/// The workers of a run where no number is asked for.
pub const DEFAULT_WORKERS: usize = 4;

/// The most rows of a picture, which `orc draw` makes of a journal.
pub const MOST_ROWS: u64 = 2_000;
