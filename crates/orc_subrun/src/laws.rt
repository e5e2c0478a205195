//! Laws of the definitions: each function's contract is one, and its body is empty. A proof that needs a law calls its function.

ghost use Rattle.orc_subrun.specs.Grafts.{PartIsGrafted, ProgramIsStill};

/// The journal of a part's own run (a *part* is a call of a definition that is run by itself), under its numbers in the enclosing run, continues that
/// run's journal, if it has only local entries (no tick, no cancel, no call that a script answers) and no cancel of an earlier bind is still to come.
/// If the part publishes something, no `>x>`, no `;` and no right side of a `<x<` may enclose it: so the whole publishes that.
pub fn part_is_grafted()
    ensures { PartIsGrafted }
{}

/// The terms of a program name no cell and have no pending call, so they stay the same where the numbers of cells and calls become those of another
/// run.
pub fn program_is_still()
    ensures { ProgramIsStill }
{}
