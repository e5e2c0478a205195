//! The entries of a journal, what they show, and why they are refused.

ghost use Rattle.std.specs.Prelude.{◌≡◌};
ghost use Rattle.orc_rules.specs.Faults.{reason_status, reason_word, state_word};
ghost use Rattle.orc_rules.specs.Kinds.{kind_of};

use crate::kind::Kind;
use crate::value::{Answer, Args, Value};

/// One line of a journal, its fields in the order of the line. A mark is the number of a token: S is the mark of the token that the entry names, or
/// in `right` of the one that entered the otherwise; A and B are new marks. C is a cell, which stands for the x of an opened `f <x< g`, new in
/// `open`, K a call, new in `call`, and M a site, all by their numbers; V is a value, T a time. docs/orc.md, *Journals*, says under which condition
/// each is allowed and what it does.
#[derive(Drop)]
pub enum Entry {
    /// `end S`
    End(u64),
    /// `fork S A B`
    Fork(u64, u64, u64),
    /// `seq S A`
    Seq(u64, u64),
    /// `other S A`
    Other(u64, u64),
    /// `def S A`
    Def(u64, u64),
    /// `void S`
    Void(u64),
    /// `open S C A B`
    Open(u64, u64, u64, u64),
    /// `send S A V`
    Send(u64, u64, Value),
    /// `call S K M(..)`
    Call(u64, u64, u32, Args),
    /// `return K A V`
    Return(u64, u64, Value),
    /// `return K halt`
    ReturnHalt(u64),
    /// `bind S C V`
    Bind(u64, u64, Value),
    /// `lost C`
    Lost(u64),
    /// `right S A`
    Right(u64, u64),
    /// `publish S V`
    Publish(u64, Value),
    /// `tick T`
    Tick(u64),
    /// `cancel K`
    Cancel(u64),
}

impl Entry {
    /// The entry's kind, which says with which word its line begins and which fields follow.
    pub fn kind(&self) -> Kind
        ensures { result ≡ kind_of self.now }
    {
        match self {
            Entry::End(..) => Kind::End,
            Entry::Fork(..) => Kind::Fork,
            Entry::Seq(..) => Kind::Seq,
            Entry::Other(..) => Kind::Other,
            Entry::Def(..) => Kind::Def,
            Entry::Void(..) => Kind::Void,
            Entry::Open(..) => Kind::Open,
            Entry::Send(..) => Kind::Send,
            Entry::Call(..) => Kind::Call,
            Entry::Return(..) => Kind::Return,
            Entry::ReturnHalt(..) => Kind::ReturnHalt,
            Entry::Bind(..) => Kind::Bind,
            Entry::Lost(..) => Kind::Lost,
            Entry::Right(..) => Kind::Right,
            Entry::Publish(..) => Kind::Publish,
            Entry::Tick(..) => Kind::Tick,
            Entry::Cancel(..) => Kind::Cancel,
        }
    }
}

/// What an observer sees of an entry: the label of its step, or that a call is cancelled. Ticks show nothing, nor do moves of marks (`end`, `fork`,
/// `seq`, `other`), which use no rule of Orc.
#[derive(Drop)]
pub enum Label {
    /// Call K of a site with these arguments, inside the right sides of these cells, the outermost first.
    Call(u64, u32, Args, Vec<u64>),
    /// The answer to call K.
    Return(u64, Answer),
    /// Cell C gets a value.
    Bind(u64, Value),
    /// Cell C will never get one.
    Lost(u64),
    /// The whole publishes a value.
    Publish(Value),
    /// Nothing that can be seen.
    Silent,
    /// Call K is cancelled: a bind has dropped the side in which it was pending.
    Cancel(u64),
}

/// Why an entry is refused, in the order in which the reasons are tested.
#[derive(Clone, Copy, PartialEq, Eq, Debug)]
pub enum RuleFault {
    /// A cancel is due and the entry isn't that one, or the entry is a cancel and none is due.
    Cancel,
    /// No such mark, pending call, cell or otherwise.
    Mark,
    /// The term, a name, an argument or the value isn't of the kind that the entry needs; or the publication isn't taken by what the entry says: a
    /// `>x>`, a cell, or the program.
    Form,
    /// A new number that isn't the next one.
    Number,
    /// A return with another answer than the table's, or of a call that by the table is never answered.
    Answer,
    /// A return not at its due time, or a tick that isn't allowed.
    Time,
    /// The right side of the pruning (`lost`), or the left side of the otherwise (`right`), hasn't halted.
    Halted,
    /// The term after the entry would nest over `MOST_LEVELS` levels.
    Deep,
    /// Memory was refused, or the check needs a number of over 32 bits.
    Memory,
}

impl RuleFault {
    /// The word with which a check names the reason.
    pub fn word(self) -> &'static str
        ensures { result.now ≡ reason_word self }
    {
        match self {
            RuleFault::Cancel => "Cancel",
            RuleFault::Mark => "Mark",
            RuleFault::Form => "Form",
            RuleFault::Number => "Number",
            RuleFault::Answer => "Answer",
            RuleFault::Time => "Time",
            RuleFault::Halted => "Halted",
            RuleFault::Deep => "Deep",
            RuleFault::Memory => "Memory",
        }
    }

    /// The process's exit status where an entry is refused for this reason. Memory has a status of its own, since it says nothing of the entry.
    pub fn status(self) -> u8
        ensures { result ≡ reason_status self }
    {
        match self {
            RuleFault::Memory => 5,
            _ => 1,
        }
    }
}

/// Where a journal has brought a run.
#[derive(Clone, Copy, PartialEq, Eq, Debug)]
pub enum State {
    /// The term has halted: of all rules only PruneLost may still apply.
    Halted,
    /// The term hasn't halted, but no rule can be used, and no tick is possible.
    Quiet,
    /// A rule can be used, now or after a tick.
    Running,
}

impl State {
    /// The word with which a check names the state.
    pub fn word(self) -> &'static str
        ensures { result.now ≡ state_word self }
    {
        match self {
            State::Halted => "Halted",
            State::Quiet => "Quiet",
            State::Running => "Running",
        }
    }
}
