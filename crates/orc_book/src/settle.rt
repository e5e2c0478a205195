//! After a bind: the ledger has dropped the groups inside a right side, and the book follows. *Burying* such a group notes its word as that of a
//! killed one, which somebody may still name; *settling* takes passes out of posts that have too many, so that they are left. A *group* is what runs
//! in one right side of a `<x<`, one left side of a `;`, or the whole program; a *pass* stands for one of its members (a token, a pending call or a
//! group right inside it), and the group's *word* counts the passes. A *post* is what the book has of a group: its passes, and how many of its tokens
//! are *kept* in the book and *out* with workers. The ledger has the records. `P` names the run, `J` its table of words, for contracts alone.
//! `in_posts f` and `in_words f` are what the passes in posts and words weigh, where `f` gives each pass any weight: so a clause says that none is
//! lost. `leave` gets passes that the caller is to *leave*, so that no word counts them.

ghost use Rattle.std.specs.Prelude.{◌≡◌, ◌+◌, ◌≤◌, ◌<◌, ℕ, true, false, length, vec_len, vec_capacity};
ghost use Rattle.orc_rules.specs.declared.limits.TheConstants.{MOST_GROUPS};
ghost use Rattle.orc_indexes.specs.Same.{weight};
ghost use Rattle.orc_book.specs.Held.{AreHeld, AreLoose, IsMissing, IsSettled, IsThere, StayLoose, bag, word_at};
ghost use Rattle.orc_book.specs.Passes.{GivesUp, in_posts, in_words};
ghost use Rattle.orc_book.specs.Words.{AreThere, HaveDied, kind_at};
ghost use Rattle.orc_ledger_spec.specs.Next.{members, numbers_of};
ghost use Rattle.orc_word.specs.declared.view.View.{View};

use crate::post::{Post, is_settled_at, parent_in, settle_at, spare_at, word_in};
use crate::word_table::{Kind, WordTable};
use orc_ledger::Ledger;
use orc_log::Run;
use orc_word::{Naming, Pass};

// Whether a number is that of an open group, or the program's own, so that the ledger still has the group.
fn is_there<P: Run>(ledger: &Ledger<P>, number: u32) -> bool
    ensures there { result ≡ true → IsThere ledger.now number }
    ensures missing { result ≡ false → IsMissing ledger.now number }
{
    if number == 0 {
        return true;
    }
    match ledger.group_with(number) {
        Some(_) => true,
        None => false,
    }
}

// If the ledger has the group with this number no more, notes that the group's word stands for a killed one. If the enclosing group has a pass too
// many, the word holds that pass from then on, as the killed group's. By `AreLoose` the book has a pass for each member that isn't a token out with
// a worker, or too many; `StayLoose` says that this is still so.
fn bury_one<P: Run, J: Naming>(
    ledger: &Ledger<P>,
    posts: &mut Vec<Post<J>>,
    words: &mut WordTable<J>,
    number: u32,
)
    requires loose { AreLoose posts.old.items ledger.now }
    ensures buried { StayLoose ledger.now posts.old.items posts.new.items }
    ensures held { (f : View → ℕ) → in_posts f posts.new.items + in_words f words.new.stands ≡ in_posts f posts.old.items + in_words f words.old.stands }
    ensures died { HaveDied ledger.now words.old.stands words.new.stands }
    ensures gone { IsMissing ledger.now number → kind_at words.new.stands (word_at posts.old.items number) ≡ Kind.Open number → ⊥ }
{
    if is_there(ledger, number) {
        return;
    }
    // A post keeps the word of its last group. That word may be free since, or stand for a killed group or another open one: then it stays as it is.
    let word = word_in(posts, number);
    let Kind::Open(stood) = words.kind(word) else {
        return;
    };
    if stood != number {
        return;
    }
    // The number of the group that enclosed this one.
    let parent = parent_in(posts, number);
    // The number of that group's word.
    let above = word_in(posts, parent);
    // The enclosing group has lost a member. If its post has a pass too many, `spare_at` takes that out.
    let pass = spare_at(posts, parent, ledger.member_count(parent) as usize);
    words.bury(word, above, pass);
}

// The first number of `from..to` whose group has no members, as that of a group which is gone has none; `to` if there is none.
fn next_empty<P: Run>(ledger: &Ledger<P>, from: u32, to: u32) -> u32
    requires { from ≤ to }
    ensures within { (from ≤ result) × (result ≤ to) }
    ensures some { (i : ℕ) → from ≤ i → i < result → 1 ≤ members (numbers_of ledger.now) ledger.now i }
{
    for number in from..to {
        if ledger.member_count(number) == 0 {
            return number;
        }
    }
    to
}

// Buries each group that the ledger has no more: notes that its word stands for a killed one. A group that has members is there; `next_empty` asks
// that first and passes over most groups, since that is faster than to look at words and posts. `posts` are few enough for a `u32`. By `AreLoose`
// they have a pass for each member of a group that isn't a token out with a worker, or too many; `StayLoose` says that this is still so.
pub(crate) fn bury_missing<P: Run, J: Naming>(
    ledger: &Ledger<P>,
    posts: &mut Vec<Post<J>>,
    words: &mut WordTable<J>,
)
    requires few { length posts.old.items ≤ MOST_GROUPS }
    requires loose { AreLoose posts.old.items ledger.now }
    requires root { kind_at words.old.stands 0 ≡ Kind.Open 0 }
    requires named { (w i : ℕ) → kind_at words.old.stands w ≡ Kind.Open i → word_at posts.old.items i ≡ w }
    ensures buried { StayLoose ledger.now posts.old.items posts.new.items }
    ensures held { (f : View → ℕ) → in_posts f posts.new.items + in_words f words.new.stands ≡ in_posts f posts.old.items + in_words f words.old.stands }
    ensures died { HaveDied ledger.now words.old.stands words.new.stands }
    ensures there { AreThere ledger.now words.new.stands }
{
    let count = posts.len() as u32;
    // From one group without members to the next: each round goes on behind the last one, so the loop ends.
    let mut number = next_empty(ledger, 0, count);
    while number < count {
        bury_one(ledger, posts, words, number);
        number = next_empty(ledger, number + 1, count);
    }
}

// The first number of `from..to` whose post may have passes that are too many or count tokens that are gone; `to` if there is none.
fn next_unsettled<P: Run, J: Naming>(
    ledger: &Ledger<P>,
    posts: &Vec<Post<J>>,
    from: u32,
    to: u32,
) -> u32
    requires { from ≤ to }
    ensures within { (from ≤ result) × (result ≤ to) }
    ensures settled { (i : ℕ) → from ≤ i → i < result → IsSettled ledger.now posts.now.items i }
{
    for number in from..to {
        let members = ledger.member_count(number) as usize;
        if !is_settled_at(posts, number, members) {
            return number;
        }
    }
    to
}

// Fits each post to its group's members. By `AreLoose` it has a pass for each that isn't a token out with a worker, or too many, and those that are
// too many go to `leave`. Of a group without members no token is kept or out. `next_unsettled` passes over posts that fit, which is faster.
pub(crate) fn settle_all<P: Run, J: Naming>(
    ledger: &Ledger<P>,
    posts: &mut Vec<Post<J>>,
    leave: &mut Vec<Pass<J>>,
)
    requires few { length posts.old.items ≤ MOST_GROUPS }
    requires loose { AreLoose posts.old.items ledger.now }
    requires room { vec_len leave.old + weight bag posts.old.items ≤ vec_capacity leave.old }
    ensures held { AreHeld posts.new.items ledger.now }
    ensures words { (i : ℕ) → word_at posts.new.items i ≡ word_at posts.old.items i }
    ensures given { GivesUp leave.old.items leave.new.items (λ f. in_posts f posts.old.items) (λ f. in_posts f posts.new.items) }
    ensures room { vec_len leave.new + weight bag posts.new.items ≤ vec_len leave.old + weight bag posts.old.items }
    ensures capacity { vec_capacity leave.new ≡ vec_capacity leave.old }
{
    let count = posts.len() as u32;
    // From one post that may not fit to the next: each round goes on behind the last one, so the loop ends.
    let mut number = next_unsettled(ledger, posts, 0, count);
    while number < count {
        let members = ledger.member_count(number) as usize;
        settle_at(posts, number, members, leave);
        number = next_unsettled(ledger, posts, number + 1, count);
    }
}
