//! The choices of a service: what it may answer in a way, one call after the other. A call that doesn't take the first alternative is *off*
//! (unusual). A service is a site whose answers a test says; a *way* of a case takes one choice of each of the case's services. A `Reply` is an
//! answer with a range of delays, or `never`; `Found` is an answer with one delay, or never one; an `Answer` is a value, or that the call halts
//! without one.
//!
//! The loops take `rest`, what is left of a slice, apart from the front, as the definitions in specs/ take lists apart.

ghost use Rattle.std.specs.Prelude.{◌≡◌, ◌++◌, ◌∷◌, ◌+◌, [], IfOk, OnOk, map};
ghost use Rattle.orc_ways.specs.Values.{histories_of, service_of};
ghost use Rattle.orc_cases.specs.Choices.{all_choices, answers_of, begin, choices, each_followed, followed_by, off_first, one_answer, options, with_calls, with_replies};
ghost use Rattle.orc_cases.specs.Values.{choice_of, choices_from};

use orc_rules::value::{Answer, Found};
use orc_ways::test::{Reply, Service};
use std::alloc::{AllocError, Global};

/// What a service does in a way: its answers to one call after the other. A test gives each service alternatives, of which the first is the usual
/// one.
pub(crate) struct Choice {
    /// How many of its calls don't take the first alternative. Without `in each of N calls` the line's one alternative counts as one call.
    pub(crate) off: u64,
    /// Whether one of the alternatives that the calls take has a range of delays.
    pub(crate) is_ranged: bool,
    /// What it answers to the first call with the same arguments, the second one and so on; the last one answers all further calls too.
    pub(crate) answers: Vec<Found>,
}

// Written out, so that a caller's proof sees one call and not the drop of each field. In the pattern `_` drops a field.
impl Drop for Choice {
    fn drop(self) {
        let Choice {
            off: _,
            is_ranged: _,
            answers: _,
        } = self;
    }
}

/// The sum of two numbers of unusual calls. Where it would overflow the error is refused memory: each such call has an answer that is kept, so memory
/// for them is used up long before.
pub(crate) fn sum(a: u64, b: u64) -> Result<u64, AllocError>
    ensures { IfOk result (λ n. n ≡ a + b) }
{
    match a.checked_add(b) {
        Some(sum) => Ok(sum),
        None => Err(AllocError),
    }
}

impl Choice {
    // The choice without answers yet, in which so many calls are off already: they don't take the first alternative.
    fn begin(alloc: Global, off: u64) -> Choice
        ensures { choice_of result ≡ begin off }
    {
        Choice {
            off,
            is_ranged: false,
            answers: Vec::new(alloc),
        }
    }

    // The choice that answers its first calls as this one does, and further calls as the other one. The error is refused memory.
    fn followed_by(&self, alloc: Global, other: &Choice) -> Result<Choice, AllocError>
        ensures { IfOk result (λ c. choice_of c ≡ followed_by (choice_of self.now) (choice_of other.now)) }
    {
        let mut answers = Vec::new(alloc);
        answers.extend_from_slice(self.answers.as_slice())?;
        answers.extend_from_slice(other.answers.as_slice())?;
        let off = sum(self.off, other.off)?;
        Ok(Choice {
            off,
            is_ranged: self.is_ranged || other.is_ranged,
            answers,
        })
    }
}

// The choice of one answer, in which no call counts as off (unusual): `histories` counts that for the whole alternative. The error is refused memory.
fn one_answer(alloc: Global, is_ranged: bool, answer: Found) -> Result<Choice, AllocError>
    ensures { IfOk result (λ c. choice_of c ≡ one_answer is_ranged answer) }
{
    let mut answers = Vec::new(alloc);
    answers.push(answer)?;
    Ok(Choice {
        off: 0,
        is_ranged,
        answers,
    })
}

// Pushes a choice of one answer for each delay from `low` to `high`, both included. The error is refused memory.
#[tactic(auto, using(crate::proofs::Lists::range_end, crate::proofs::Lists::range_none))]
fn add_delays(
    alloc: Global,
    all: &mut Vec<Choice>,
    answer: Answer,
    low: u64,
    high: u64,
) -> Result<(), AllocError>
    ensures { OnOk result (choices_from all.new.items ≡ choices_from all.old.items ++ answers_of (Reply.Between answer low high)) }
{
    // Not reached: no such range is read.
    if low > high {
        return Ok(());
    }
    let mut delay = low;
    loop {
        // `after 5` is read as a range from 5 to 5, which counts as none.
        all.push(one_answer(alloc, low < high, Found::After(answer, delay))?)?;
        // Asked before the step, since `high` may be the greatest number that there is.
        if delay >= high {
            return Ok(());
        }
        delay += 1;
    }
}

// The answers that a reply stands for, each as a choice, from the low end of its range. The error is refused memory.
fn answers_of(alloc: Global, reply: Reply) -> Result<Vec<Choice>, AllocError>
    ensures { IfOk result (λ cs. choices_from cs.items ≡ answers_of reply) }
{
    let mut all = Vec::new(alloc);
    match reply {
        Reply::Never => all.push(one_answer(alloc, false, Found::Never)?)?,
        Reply::Between(answer, low, high) => add_delays(alloc, &mut all, answer, low, high)?,
    }
    Ok(all)
}

// Pushes the choice `first` followed by each of the others. The error is refused memory.
fn add_followed(
    alloc: Global,
    all: &mut Vec<Choice>,
    first: &Choice,
    others: &[Choice],
) -> Result<(), AllocError>
    ensures { OnOk result (choices_from all.new.items ≡ choices_from all.old.items ++ map (followed_by (choice_of first.now)) (choices_from others.now)) }
{
    let mut rest = others;
    loop {
        match rest {
            [] => return Ok(()),
            [other, more @ ..] => {
                all.push(first.followed_by(alloc, other)?)?;
                rest = more;
            }
        }
    }
}

// All pairs of a choice of `some` followed by one of `others`: for each of `some` in turn, all of `others`. The error is refused memory.
fn each_followed(
    alloc: Global,
    some: &[Choice],
    others: &[Choice],
) -> Result<Vec<Choice>, AllocError>
    ensures { IfOk result (λ cs. choices_from cs.items ≡ each_followed (choices_from some.now) (choices_from others.now)) }
{
    let mut all = Vec::new(alloc);
    let mut rest = some;
    loop {
        match rest {
            [] => return Ok(all),
            [first, more @ ..] => {
                add_followed(alloc, &mut all, first, others)?;
                rest = more;
            }
        }
    }
}

// What one alternative, an answer for each call, stands for: a choice for each combination of the delays of its ranges. In each of them `off` calls
// are off: 0 for the usual alternative, 1 for another. The error is refused memory.
fn histories(alloc: Global, off: u64, replies: &[Reply]) -> Result<Vec<Choice>, AllocError>
    ensures { IfOk result (λ cs. choices_from cs.items ≡ with_replies (begin off ∷ []) replies.now) }
{
    let mut all = Vec::new(alloc);
    // One choice without answers, to which each reply adds its own.
    all.push(Choice::begin(alloc, off))?;
    let mut rest = replies;
    loop {
        match rest {
            [] => return Ok(all),
            [reply, more @ ..] => {
                let answers = answers_of(alloc, *reply)?;
                all = each_followed(alloc, all.as_slice(), answers.as_slice())?;
                rest = more;
            }
        }
    }
}

// What the alternatives of a service stand for, each as choices, in their order. The first alternative is the usual one; in a choice of each other
// one a call is off (unusual). The error is refused memory.
fn options(alloc: Global, alternatives: &[Vec<Reply>]) -> Result<Vec<Choice>, AllocError>
    ensures { IfOk result (λ cs. choices_from cs.items ≡ options 0 (histories_of alternatives.now)) }
{
    let mut all = Vec::new(alloc);
    // How many calls are off in a choice of the alternative that comes next: 0 for the first alternative, 1 for each other.
    let mut off = 0;
    let mut rest = alternatives;
    loop {
        match rest {
            [] => return Ok(all),
            [replies, more @ ..] => {
                let mut choices = histories(alloc, off, replies.as_slice())?;
                all.append(&mut choices)?;
                off = 1;
                rest = more;
            }
        }
    }
}

// What a service may do: with `in each of N calls` each of N calls takes an alternative of its own, and otherwise the line takes one. The error is
// refused memory.
fn all_choices(alloc: Global, service: &Service<'_>) -> Result<Vec<Choice>, AllocError>
    ensures { IfOk result (λ cs. choices_from cs.items ≡ all_choices (service_of service.now)) }
{
    let options = options(alloc, service.alternatives.as_slice())?;
    let mut all = Vec::new(alloc);
    all.push(Choice::begin(alloc, 0))?;
    // How many calls still take an alternative. A service has 1 at least, so `max` changes nothing.
    let mut left = service.calls.max(1);
    while left > 0 {
        all = each_followed(alloc, all.as_slice(), options.as_slice())?;
        left -= 1;
    }
    Ok(all)
}

// The choices in which a call is off (unusual) first, and behind them the usual ones. Both keep their order. The error is refused memory.
fn off_first(alloc: Global, choices: Vec<Choice>) -> Result<Vec<Choice>, AllocError>
    ensures { IfOk result (λ cs. choices_from cs.items ≡ off_first (choices_from choices.items)) }
{
    let mut off = Vec::new(alloc);
    let mut usual = Vec::new(alloc);
    for choice in choices {
        if choice.off > 0 {
            off.push(choice)?;
        } else {
            usual.push(choice)?;
        }
    }
    off.append(&mut usual)?;
    Ok(off)
}

/// What a service may do: first the choices in which a call is off (doesn't take the first alternative), and then the usual ones, each in the order
/// of the alternatives and of their ranges from the low end. The error is refused memory.
#[tactic(auto, unfolding(crate::specs::Choices::choices))]
pub(crate) fn choices(alloc: Global, service: &Service<'_>) -> Result<Vec<Choice>, AllocError>
    ensures { IfOk result (λ cs. choices_from cs.items ≡ choices (service_of service.now)) }
{
    let all = all_choices(alloc, service)?;
    off_first(alloc, all)
}
