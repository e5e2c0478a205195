//! A book: the records of a run, and the passes of those that are not out with a worker.
//!
//! A *group* is what runs in one right side of a `<x<` or in one left side of a `;`, or the program as a whole. Its members are its tokens, its
//! pending calls and the groups right inside it. The group's *word*, an atomic counter of `orc_word`, counts *passes*: one for each member. Of a
//! token that is *out* a worker holds the pass; of every other record the book does. To *leave* a pass means that the word counts it no more; the
//! pass is *idle* then, and names no group. Who leaves the last pass of a group closes it (`halt`).
//!
//! A token is found by its *slot*, the place of its record, and its *serial*, its number: slots are used again, serials never. A *post* is what the
//! book has of one group. A bind *kills* the group of its right side and those inside: their records go at once, but a word stands for a killed
//! group until its last pass is left, since workers may have tokens of it still.
//!
//! A call that is refused changes no record, and gives back what was handed in (`Refused`). So calls first ask for all that may be refused, limits
//! and memory, and then change things.
//!
//! In contracts `Moves` says what a token's move does to the ledger, with the numbers of the calls that it cancels; `stands` lists what each word
//! stands for, and `marks` the serials of the tokens that are kept, by slots. The function `stands` of `orc_ledger` is another thing: a law about
//! the journal.
#![tactic(auto)]

mod bind;
mod book;
mod calls;
mod clock;
mod continuation;
mod halt;
mod kept_tokens;
mod looks;
mod lookup;
mod moves;
mod open;
mod out;
mod pair;
mod post;
mod send;
mod settle;
mod steps;
mod sub_runs;
mod token;
mod wait;
mod word_table;

pub use book::Book;
pub use calls::Answered;
pub use clock::Next;
pub use halt::Ended;
pub use looks::{Needs, TokenView, needs_of};
pub use out::{Births, StepOut};
pub use pair::two_binds;
pub use sub_runs::SubRunEnd;
pub use token::{BookFault, Refused, Token};
