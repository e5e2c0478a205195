//! Sites: scripts, which say what the sites of a program answer besides the built-in ones, and calls of sites as futures.
//!
//! A call is a future that is polled by hand in logical time: it is ready exactly from the time on at which it is due, with the table's answer.
//! [`Sites`] makes the calls; [`Scripted`] makes those that the table of sites answers.
#![tactic(auto)]

mod due;
mod gate;
pub mod line;
mod open;
mod request;
mod script;
mod scripted;
mod site_call;
mod sites;
pub mod token;

pub use due::{Due, due_after};
pub use gate::Gate;
pub use open::Open;
pub use request::Request;
pub use script::{ScriptFault, read_script, split_line};
pub use scripted::Scripted;
pub use site_call::SiteCall;
pub use sites::{SiteFuture, Sites};
