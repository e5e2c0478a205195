//! What explanations say of the built-in sites. Most functions are a match over `Builtin`, so that a new site doesn't compile without its words.

use orc_rules::builtin::Builtin;
use orc_rules::value::Value;

/// The arguments that a built-in site takes.
#[derive(Clone, Copy)]
enum Taken {
    /// Two numbers.
    Numbers,
    /// Two values of any kind.
    Values,
    /// One truth value.
    Truth,
    /// One number, of units of time.
    Time,
}

impl Taken {
    // What a site takes.
    fn of(site: Builtin) -> Taken {
        match site {
            Builtin::Add | Builtin::Sub | Builtin::Lt => Taken::Numbers,
            Builtin::Eq => Taken::Values,
            Builtin::Ift | Builtin::Iff => Taken::Truth,
            Builtin::Rwait => Taken::Time,
        }
    }

    // Whether these arguments are of the kinds and the number that a site takes.
    fn fits(self, args: &[Value]) -> bool {
        match self {
            Taken::Numbers => matches!(args, [Value::Number(_), Value::Number(_)]),
            Taken::Values => args.len() == 2,
            Taken::Truth => matches!(args, [Value::Truth(_)]),
            Taken::Time => matches!(args, [Value::Number(_)]),
        }
    }

    // The arguments that a site takes, in words.
    fn words(self) -> &'static str {
        match self {
            Taken::Numbers => "two numbers",
            Taken::Values => "two values",
            Taken::Truth => "`true` or `false`",
            Taken::Time => "a number of units of time",
        }
    }
}

/// The built-in site of that name. None where there is none.
pub fn built_in_named(name: &[u8]) -> Option<Builtin> {
    for site in Builtin::ALL.iter() {
        if site.name() == name {
            return Some(*site);
        }
    }
    None
}

/// What a built-in site answers, in words.
pub(crate) fn purpose(site: Builtin) -> &'static str {
    match site {
        Builtin::Add => "the sum of two numbers",
        Builtin::Sub => "the difference of two numbers",
        Builtin::Eq => "whether two values are the same",
        Builtin::Lt => "whether a number is less than another",
        Builtin::Ift => "`signal` for `true`, else nothing",
        Builtin::Iff => "`signal` for `false`, else nothing",
        Builtin::Rwait => "`signal` after a time",
    }
}

/// The arguments that a built-in site takes, in words, if `args` are others. None if the site takes `args`.
pub fn wanted_by(site: Builtin, args: &[Value]) -> Option<&'static str> {
    let taken = Taken::of(site);
    if taken.fits(args) {
        None
    } else {
        Some(taken.words())
    }
}

/// Why a call of a built-in site halts though the site takes its arguments. None if no such call of this site halts.
pub fn why_halted(site: Builtin) -> Option<&'static str> {
    match site {
        Builtin::Add => Some("the sum is out of range"),
        Builtin::Sub => Some("the difference is out of range"),
        Builtin::Eq | Builtin::Lt => None,
        Builtin::Ift => Some("`Ift` goes on where it is given `true`"),
        Builtin::Iff => Some("`Iff` goes on where it is given `false`"),
        Builtin::Rwait => Some("the time is negative"),
    }
}
