//! What is around a token: the steps from its own one outwards, what takes its publication, and what stands for its names; and so what it does next.
//! A *step* (`orc_tables`) is the entry into a left or right side; those around a token are its path.
#![tactic(auto)]

mod action;
mod arguments;
mod left;
mod parameters;
mod takers;
mod waits;

pub use action::{Action, action_at, are_values, publish_action, site_call_action};
pub use arguments::take_values;
pub use left::{has_published, published_at};
pub use parameters::parameter_scopes;
pub use takers::{Taker, find_taker, leave_others};
pub use waits::list_cells;
