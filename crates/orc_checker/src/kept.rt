//! Calls as they are kept. `Found` is what the table of sites says of a call: `Never` if it isn't answered, or `After` with the answer and its delay
//! in units of logical time. The answer is a value, or `Halt`: the call halts.

ghost use Rattle.std.specs.Prelude.{◌≡◌};

use crate::rest::Called;
use orc_rules::value::{Answer, Found, Value};
use std::marker::Model;

// A call and what the table of sites says of it, in one enum with a variant for each kind of answer, so that no call takes more than 32 bytes. The
// fields, in this order: the call's node in the marked term, the time at which it was made, the delay of its answer, and the value.
#[derive(Clone, Copy)]
enum Flat {
    Never(u32, u64),
    Halts(u32, u64, u64),
    Number(u32, u64, u64, i64),
    Truth(u32, u64, u64, bool),
    Signal(u32, u64, u64),
}

/// A call that was made, in the 32 bytes in which the checker keeps it. `Kept::called` gives the call back.
#[derive(Clone, Copy)]
pub struct Kept {
    flat: Flat,
}

// For the prover: `inverse` gives back from a call how it is kept. Only with this clause may a type with a model be `Copy`. `inverse_ok` proves that
// a call is kept so.
impl Model for Kept {
    ghost use Rattle.orc_checker.specs.Kept.{called_in, flat_of, is_again};
    ghost use Rattle.orc_checker.specs.declared.rest.Called.{Called};

    ghost Value = { Called };

    ghost view = { λ k. called_in k.flat };

    ghost inverse = { λ c. record { flat = flat_of c.found c.at c.node } };

    ghost inverse_ok = { λ k h. λ i. record { flat = is_again k.flat i } };
}

impl Kept {
    /// Packs a call into its 32 bytes. Nothing is lost: `called` gives the same call back.
    pub fn new(called: Called) -> Kept
        ensures { result ≡ called }
    {
        let node = called.node;
        let at = called.at;
        let flat = match called.found {
            Found::Never => Flat::Never(node, at),
            Found::After(answer, delay) => match answer {
                Answer::Halt => Flat::Halts(node, at, delay),
                Answer::Value(value) => match value {
                    Value::Number(number) => Flat::Number(node, at, delay, number),
                    Value::Truth(truth) => Flat::Truth(node, at, delay, truth),
                    Value::Signal => Flat::Signal(node, at, delay),
                },
            },
        };
        Kept { flat }
    }

    /// The call that was packed by `new`.
    pub fn called(&self) -> Called
        ensures { result ≡ self.now }
    {
        let (node, at, found) = match self.flat {
            Flat::Never(node, at) => (node, at, Found::Never),
            Flat::Halts(node, at, delay) => (node, at, Found::After(Answer::Halt, delay)),
            Flat::Number(node, at, delay, number) => {
                let answer = Answer::Value(Value::Number(number));
                (node, at, Found::After(answer, delay))
            }
            Flat::Truth(node, at, delay, truth) => {
                let answer = Answer::Value(Value::Truth(truth));
                (node, at, Found::After(answer, delay))
            }
            Flat::Signal(node, at, delay) => {
                let answer = Answer::Value(Value::Signal);
                (node, at, Found::After(answer, delay))
            }
        };
        Called { found, at, node }
    }
}
