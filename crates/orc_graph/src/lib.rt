//! A program as a graph: the nodes of its terms in few bytes, by the same numbers as in the program.
#![tactic(auto)]

mod definitions;
mod graph;
mod lists;
mod node;
mod numbers;

pub use graph::Graph;
pub use node::Node;
pub use numbers::GraphFault;
