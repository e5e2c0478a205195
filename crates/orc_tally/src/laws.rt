//! What is reported of claims is true: a law of the definitions, whose function has no body. A *trial* is a run in some *way*, which is one choice of
//! what the services of a test's case answer, and in some *order*, a number that decides whose turn comes. A *claim* says what must hold of each.

ghost use Rattle.orc_tally.specs.Laws.{ToldIsTrue};

/// What is reported of a claim is true of the trials: in how many ways it fails; that the first failure is one, and that no way before has one, nor
/// the same way in an order before; and whether the claim was put to the test.
pub fn told_is_true()
    ensures { ToldIsTrue }
{}
