//! What may be claimed of a run. docs/testing.md, *Claims*, has the same in words; the comments here show how a test writes each. A *happening* is
//! that a value is published, or that something becomes of a call: it is made, answered, halts or is cancelled. It *meets* an event if it is what the
//! event describes.

use orc_rules::value::Value;

/// What stands in the place of a value.
#[derive(Clone, Copy, PartialEq, Eq, Debug)]
pub enum Slot {
    /// `_`: any value.
    Any,
    /// This value.
    Literal(Value),
    /// A variable by its number: the same value wherever it stands in the claim's two events.
    Variable(u32),
}

/// What an event wants to become of a call.
#[derive(Clone, Copy, PartialEq, Eq, Debug)]
pub enum Wanted {
    /// It is made.
    Called,
    /// It is answered with such a value.
    Answered(Slot),
    /// It halts.
    Halted,
    /// It is cancelled.
    Cancelled,
}

/// One thing that may happen.
#[derive(Drop)]
pub enum Simple {
    /// What is wanted becomes of a call of the site of this number, whose arguments fit these slots.
    Call(u32, Vec<Slot>, Wanted),
    /// Such a value is published.
    Published(Slot),
}

/// An event: one of these alternatives happens. The first alternative that a happening meets gives the variables their values.
#[derive(Drop)]
pub struct Event {
    pub alternatives: Vec<Simple>,
}

/// `if A(_) then`, or `if no A(_) then`: the event happens in the run, or doesn't.
#[derive(Drop)]
pub struct Condition {
    pub event: Event,
    /// Whether it is to happen: false behind `no`.
    pub happens: bool,
}

/// A claim without its conditions. Times are in units of logical time; None is no bound.
#[derive(Drop)]
pub enum Plain {
    /// `exactly 2 E by 30`, `at most 2 E`, `at least 2 E`, `no E`: the least and then the greatest number of happenings that meet the event, up to
    /// the time that comes last.
    Count(Event, u64, Option<u64>, Option<u64>),
    /// `at most 2 E at once`: the greatest number of calls that meet the event and are pending at one moment.
    AtOnce(Event, u64),
    /// `E only after F`: before each happening that meets E, one met F with the same values of the variables.
    OnlyAfter(Event, Event),
    /// `no E after F`: behind each happening that meets F, none meets E with the same values of the variables.
    NoneAfter(Event, Event),
    /// `each E then F within 5`: behind each happening that meets E, one meets F with the same values of the variables, at most this much later.
    EachThen(Event, Event, Option<u64>),
    /// `ends Halted or Quiet by 30`: whether it may end as Halted, whether as Quiet, and by when.
    Ends(bool, bool, Option<u64>),
    /// `publishes 1 _ 3`: all values that are published, in this order, where None is any value. `publishes nothing` has none.
    InOrder(Vec<Option<Value>>),
    /// `publishes 1 2 2 in any order`: all values that are published, each as often as it stands here.
    InAnyOrder(Vec<Value>),
    /// `publishes one of 200 404`: one value is published, and it is one of these.
    OneOf(Vec<Value>),
}

/// A claim: if all its conditions are met in a run, the rest holds in it.
#[derive(Drop)]
pub struct Claim {
    /// The conditions; a claim without any is asked of each run.
    pub conditions: Vec<Condition>,
    /// What holds if they are met.
    pub plain: Plain,
}
