//! Laws of a ledger's records: each function's contract is the law, and nothing runs. They tie what a token does next, and what comes next, to the
//! rules.
//!
//! The journal may *go on* with an entry if the rules allow that entry at the place to which the journal leads. *Moves of marks* are the entries that
//! use no rule of Orc: `end`, `fork`, `seq` and `other`. A token's *word* is its action: what it does next. A *tick* is the entry that sets the time,
//! a call is *due* when the table of sites answers it, and a run is *quiet* if it hasn't halted, no rule applies and no tick is possible. A group
//! without members is *closed* if it goes without an entry.

ghost use Rattle.orc_ledger_spec.specs.Laws.{WordIsOffered, WaitIsStill, WordIsAllowed, NoneIsLost, NextTicks, NextIsQuiet, WorkHasCause, WorkIsAllowed, TickIsNext, QuietIsNext, RootHasHalted};

/// The journal may go on with an entry of a token exactly if that entry is the token's word (what it does next).
pub fn word_is_offered()
    ensures { WordIsOffered }
{}

/// A token waits exactly if its term allows no move of marks (an entry that uses no rule), and no rule moves the term.
pub fn wait_is_still()
    ensures { WaitIsStill }
{}

/// If a token doesn't wait, the journal may go on, by the rules, with an entry of that token.
pub fn word_is_allowed()
    ensures { WordIsAllowed }
{}

/// Each entry of a token with which the journal may go on, by the rules, is the word (the next action) of one of the records' tokens.
pub fn none_is_lost()
    ensures { NoneIsLost }
{}

/// If the records say that a tick comes next, the rules allow it: nothing moves, and the tick goes to the least due time.
pub fn next_ticks()
    ensures { NextTicks }
{}

/// If the records say that nothing comes next, the run is quiet by the rules: it waits for ever.
pub fn next_is_quiet()
    ensures { NextIsQuiet }
{}

/// Work comes next exactly if a token can move, a group (a right side of a `<x<`, a left side of a `;`, the program) has no members, or a call is
/// due.
pub fn work_has_cause()
    ensures { WorkHasCause }
{}

/// If work comes next, the journal may go on, a group that has published and has no members may be closed, which needs no entry, or the term has
/// halted.
pub fn work_is_allowed()
    ensures { WorkIsAllowed }
{}

/// A tick that the rules allow comes next, unless a move of marks (an entry that uses no rule) comes first, or a group that has published has to be
/// closed first.
pub fn tick_is_next()
    ensures { TickIsNext }
{}

/// If the run is quiet by the rules, Quiet comes next, unless a move of marks (an entry that uses no rule) comes first, or a group that has published
/// has to be closed first.
pub fn quiet_is_next()
    ensures { QuietIsNext }
{}

/// If the program's own group has no members (no token, no pending call, no open group), the term has halted by the rules.
pub fn root_has_halted()
    ensures { RootHasHalted }
{}
