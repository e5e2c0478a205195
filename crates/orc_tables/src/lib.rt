//! The records of a run in tables, each with an invariant of its own: tokens in slots, open groups with their members, calls that pend, the steps
//! that tokens have taken; and how all that is inside the right side of a cell is found in them and leaves them.
#![tactic(auto)]

mod crowd;
mod exits;
mod groups;
mod pending;
mod records;
mod steps;
mod tokens;

pub use crowd::Crowd;
pub use exits::{leave_calls, leave_groups, leave_tokens, side_group, take_out};
pub use groups::Groups;
pub use pending::Pending;
pub use records::{Call, Frame, Group, Side, Standing, Step, Token};
pub use steps::Steps;
pub use tokens::Tokens;
