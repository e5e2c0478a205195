//! A program's tree as numbered spots, on which a journal is replayed: what stands at each, where it stands in the source, and the spots of its
//! parts.
//!
//! A journal names marks, and no places of a program. A `Trail` follows its entries from the spot of the main expression on, and knows at which
//! spot each token stands: `fork`, `seq`, `other` and `open` lead to the parts of a spot, `def` to that of a definition's body. A sketch takes
//! memory in proportion to the program, a trail in proportion to the journal, and neither recurs.
//!
//! No promise of a run rests on this crate, so it is written to need few proofs: sums saturate, a look-up of what isn't there gives a default, and a
//! loop that ends by a condition is a `for` with a bound that it never reaches.
#![tactic(auto)]

mod sketch;
mod trail;

pub use sketch::{Purpose, Shape, Sketch};
pub use trail::{Step, Token, Trail, Way};
