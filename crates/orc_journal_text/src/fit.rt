//! Which entries have a *line*, their text in a journal: all but a call of a site that the table of sites (`answers`) doesn't have.

ghost use Rattle.std.specs.Prelude.{◌≡◌, ◌<◌, ◌^◌, true, false};
ghost use Rattle.orc_rules.specs.Text.{AreValues, Fits, IsNamed, IsValue};

use orc_rules::answers::Answers;
use orc_rules::entry::Entry;
use orc_rules::value::Value;

// The three functions below do nothing when they run: `has_line` calls them to show the prover that each field fits 64 bits, as `Fits` asks.

// For the prover alone: a u64 is below 2^64, which the prover knows once a function looks at the number.
fn number_fits(number: u64)
    ensures { number < 2 ^ 64 }
{
    let _number = number;
}

// For the prover alone: a value that is a number has 64 signed bits. Any other value fits anyway.
fn value_fits(value: Value)
    ensures { IsValue value }
{
    match value {
        Value::Number(_number) => {}
        Value::Truth(_) => {}
        Value::Signal => {}
    }
}

// For the prover alone: each of these values fits, as `value_fits` shows. The function recurses over the arguments of one call, `MOST_ARGUMENTS` at
// most.
fn values_fit(list: &[Value])
    ensures { AreValues list.now }
{
    match list {
        [] => {}
        [first, others @ ..] => {
            value_fits(*first);
            values_fit(others);
        }
    }
}

/// Whether an entry has a line: a call has one if the table names its site (`IsNamed`), any other entry always.
pub fn has_line(entry: &Entry, answers: &Answers) -> bool
    ensures named { result ≡ true → IsNamed answers.now.names entry.now }
    ensures fits { result ≡ true → Fits answers.now.names entry.now }
    ensures unnamed { result ≡ false → IsNamed answers.now.names entry.now → ⊥ }
{
    // Only the arm of a call decides something; the others show the prover that their fields fit. Here v is a value, and each other letter stands for
    // a number.
    match entry {
        Entry::End(n) | Entry::Void(n) | Entry::Lost(n) | Entry::Tick(n) | Entry::Cancel(n) =>
            number_fits(*n),
        Entry::ReturnHalt(k) => number_fits(*k),
        Entry::Seq(s, a) | Entry::Other(s, a) | Entry::Def(s, a) | Entry::Right(s, a) => {
            number_fits(*s);
            number_fits(*a);
        }
        Entry::Fork(s, a, b) => {
            number_fits(*s);
            number_fits(*a);
            number_fits(*b);
        }
        Entry::Open(s, c, a, b) => {
            number_fits(*s);
            number_fits(*c);
            number_fits(*a);
            number_fits(*b);
        }
        Entry::Send(s, a, v) | Entry::Return(s, a, v) | Entry::Bind(s, a, v) => {
            number_fits(*s);
            number_fits(*a);
            value_fits(*v);
        }
        Entry::Publish(s, v) => {
            number_fits(*s);
            value_fits(*v);
        }
        Entry::Call(s, k, site, args) => {
            number_fits(*s);
            number_fits(*k);
            values_fit(args.as_slice());
            // The table has the site if it has a name for the site's number.
            return answers.name(*site).is_some();
        }
    }
    true
}
