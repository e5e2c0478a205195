//! What went wrong, said to a person: at which place, in which line, what was expected, and what may have been meant.
//!
//! `explain` takes the texts that a command line names and a fault that was found in them, and gives the text that follows the fault's own
//! line; `explain_test` does the same for a fault of a test. The line of the place is shown, 100 columns of it at most, with carets under the place.
//! Where a hint says what may have been meant, the first one that fits is given. All of this is read from the texts and the fault alone, so an
//! explanation changes nothing. It never recurs, and takes time in proportion to the texts, but for a look at each service of a test for each site of
//! a line, and for each service below `given`.
//!
//! In all files a function `say_..` writes what its comment names at the end of its `page`. Where it is refused memory it says so by `page.refuse()`,
//! and the page isn't given out.
//!
//! No promise of a run rests on this crate, so it is written to need few proofs: sums saturate, a look-up of what isn't there gives a default, and a
//! loop that ends by a condition is a `for` with a bound that it never reaches.
#![tactic(auto)]

mod bindings;
mod built_in;
mod fault;
mod grammar;
mod hint;
mod journal;
mod outline;
mod scope;
mod script;
mod signs;
mod syntax;
mod test;
mod test_line;
mod test_place;
mod test_site;
mod test_ways;
mod tokens;
mod wanted;
mod words;

pub use built_in::{built_in_named, wanted_by, why_halted};
pub use fault::{Fault, Unread, explain, explain_refused, explain_rows, explain_unread};
pub use script::{Line, Piece, number_of};
pub use test::explain_test;
pub use tokens::span_at;
pub use words::said_of;
