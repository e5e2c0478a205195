//! Pictures of journals: which calls were pending when, who won each race, and what was published.
//!
//! `draw` takes a program's tree, the table that answered its calls, and a journal that was checked against both, and gives
//! a picture as SVG or as rows of text. It replays the journal on the tree's sketch (`story`), picks the rows (`rows`), shares the
//! width among the times (`slots`, over `scale`), and writes the signs (`text`, `svg`). It works in whole numbers, never recurs, and takes
//! time in proportion to the journal, but for its searches by entry.
//!
//! A span is a call, a pruning or an otherwise from its beginning to its end; most have a row. An instant is a time that the picture shows, and a
//! slot the place of one entry within its instant, since many entries may have one time.
//!
//! No promise of a run rests on this crate, so it is written to need few proofs: sums saturate, a look-up of what isn't there gives a default, and a
//! loop that ends by a condition is a `for` with a bound that it never reaches.
#![tactic(auto)]

mod fault;
mod labels;
mod legend;
mod markup;
mod picture;
mod rows;
mod scale;
mod slot;
mod slots;
mod story;
mod style;
mod svg;
mod text;

pub use fault::DrawFault;
pub use picture::{Form, Options, Subject, Theme, draw, draw_rows};
