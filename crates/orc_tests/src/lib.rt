//! Tests of what the program `orc` can't show: sites and gates of one's own, the parts of an engine with workers, a comparison with the reference
//! engine, and the crates by which `orc test` judges a workflow (claims, cases, tallies, and searches of every schedule). None needs `orc_run`, so
//! the gate proves them beside that crate. A test for which the program is enough is a row of `checks/tables`.
//!
//! They are in one crate, since all that a crate calls is read once more for each crate that calls it, and since the gate would prove each of the
//! tested crates twice if it had tests.
#![tactic(auto)]

#[cfg(test)]
mod cases;
#[cfg(test)]
mod gates;
#[cfg(test)]
mod hostile;
#[cfg(test)]
mod parts;
#[cfg(test)]
mod pools;
#[cfg(test)]
mod pushes;
#[cfg(test)]
mod schedules;
#[cfg(test)]
mod search_places;
#[cfg(test)]
mod search_terms;
#[cfg(test)]
mod tally;
#[cfg(test)]
mod watches;
