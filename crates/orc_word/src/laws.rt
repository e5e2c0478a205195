//! What holds over all lists of calls. A *pass* is idle or names a group, which is what runs in one right side of a `<x<`, one left side of a `;`, or
//! the whole program; the group's *word* counts the passes that name it, and has two bits, the marks. A *book* keeps an engine's records over such
//! words; a *record* is what it keeps of a token, a pending call or an inner group. A *leave* makes a pass idle. A *commit* is one call of a book:
//! records come and go, a group's number that was opened is in use from then on, and numbers of groups that are over become free.

ghost use Rattle.orc_word.specs.Counts.{Counts};
ghost use Rattle.orc_word.specs.Ties.{Steps};

/// What holds of the words, the passes and the records, which a book keeps of groups, after every list of events of the machine of `specs/Machine`:
///
/// - *exact*: a word's count is the number of passes that name its group;
/// - *empty*: a group whose word counts 0 has no record, and gets none until its number is opened anew;
/// - *once*: between two openings of a number each mark is won at most once;
/// - *closed*: from the leave that was a group's last to the commit that frees its number the group has no record, and no pass names it;
/// - *fresh*: a number is opened only while no pass names it.
pub fn counts()
    ensures { Counts }
{}

/// Each kind of exchange on the table of words is the event of that machine that has its name, wherever the table's rule holds.
pub fn steps()
    ensures { Steps }
{}
