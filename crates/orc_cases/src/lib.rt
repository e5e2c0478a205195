//! The ways of a test's case, each as the text of a script, in their order. A *way* takes one alternative of each service and one number of each
//! range.
#![tactic(auto)]

mod choices;
mod frame;
mod intervals;
pub mod laws;
mod lines;
mod ranges;
mod sizes;
mod text;
mod ways;
mod weights;

pub use orc_ways::limits::MOST_WAYS;
pub use ways::Ways;
