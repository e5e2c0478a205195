//! Nodes as they are stored, in fewer bytes than a `Node` takes.

ghost use Rattle.std.specs.Prelude.{◌≡◌};

use crate::arena::{Double, Kind, Node, Single, Tip};
use orc_rules::value::Value;
use std::marker::Model;

// A node in one enum, so that no kind takes more than 24 bytes: first the parent, then the kind's own fields, and last the numbers of the parts.
// `Token` has a mark, a node of the program and a scope; `Number`, `Truth` and `Signal`, which are `Tip::Bears`, a mark and a value; `Waits` a call;
// `Feeds` a name, a node of the program and a scope; `Entered` a mark, a node of the program and a scope; `Side` a cell. `Gone` is a node that was
// dropped, `Ended` a `stop` without a token, `Passed` a node that means just its part, and `Both` a `|`.
#[derive(Clone, Copy)]
enum Flat {
    Gone(u32),
    Ended(u32),
    Token(u32, u64, u32, u32),
    Number(u32, u64, i64),
    Truth(u32, u64, bool),
    Signal(u32, u64),
    Waits(u32, u64),
    Feeds(u32, u32, u32, u32, u32),
    Entered(u32, u32, u32, u32, u32),
    Passed(u32, u32),
    Both(u32, u32, u32),
    Side(u32, u64, u32, u32),
}

/// A node as it is stored, in 24 bytes.
#[derive(Clone, Copy)]
pub struct Slot {
    flat: Flat,
}

// `inverse` gets a slot back from its node: only so may a type with a model be `Copy`. `inverse_ok` proves that it is the same slot.
impl Model for Slot {
    ghost use Rattle.orc_term.specs.Slots.{flat_of, node_in, is_again};
    ghost use Rattle.orc_term.specs.declared.arena.Node.{Node};

    ghost Value = { Node };

    ghost view = { λ s. node_in s.flat };

    ghost inverse = { λ n. record { flat = flat_of n.kind n.parent } };

    ghost inverse_ok = { λ s h. λ i. record { flat = is_again s.flat i } };
}

impl Slot {
    /// Stores a node as the `Flat` of its kind: its parent first, then the kind's own fields, and last the numbers of its parts.
    #[inline(always)]
    pub fn new(node: Node) -> Slot
        ensures { result ≡ node }
    {
        let parent = node.parent;
        let flat = match node.kind {
            Kind::Leaf(tip) => match tip {
                Tip::Gone => Flat::Gone(parent),
                Tip::Ended => Flat::Ended(parent),
                Tip::Token(mark, node, scope) => Flat::Token(parent, mark, node, scope),
                Tip::Bears(mark, value) => match value {
                    Value::Number(number) => Flat::Number(parent, mark, number),
                    Value::Truth(truth) => Flat::Truth(parent, mark, truth),
                    Value::Signal => Flat::Signal(parent, mark),
                },
                Tip::Waits(call) => Flat::Waits(parent, call),
            },
            Kind::One(single, part) => match single {
                Single::Feeds(name, node, scope) => Flat::Feeds(parent, name, node, scope, part),
                Single::Entered(mark, node, scope) => {
                    Flat::Entered(parent, mark, node, scope, part)
                }
                Single::Passed => Flat::Passed(parent, part),
            },
            Kind::Two(double, left, right) => match double {
                Double::Both => Flat::Both(parent, left, right),
                Double::Side(cell) => Flat::Side(parent, cell, left, right),
            },
        };
        Slot { flat }
    }

    /// The node that is stored: a `Flat` has its parent first, then the kind's own fields, and last the numbers of its parts.
    #[inline(always)]
    pub fn node(&self) -> Node
        ensures { result ≡ self.now }
    {
        let (kind, parent) = match self.flat {
            Flat::Gone(parent) => (Kind::Leaf(Tip::Gone), parent),
            Flat::Ended(parent) => (Kind::Leaf(Tip::Ended), parent),
            Flat::Token(parent, mark, node, scope) => {
                (Kind::Leaf(Tip::Token(mark, node, scope)), parent)
            }
            Flat::Number(parent, mark, number) => {
                (Kind::Leaf(Tip::Bears(mark, Value::Number(number))), parent)
            }
            Flat::Truth(parent, mark, truth) => {
                (Kind::Leaf(Tip::Bears(mark, Value::Truth(truth))), parent)
            }
            Flat::Signal(parent, mark) => (Kind::Leaf(Tip::Bears(mark, Value::Signal)), parent),
            Flat::Waits(parent, call) => (Kind::Leaf(Tip::Waits(call)), parent),
            Flat::Feeds(parent, name, node, scope, part) => {
                (Kind::One(Single::Feeds(name, node, scope), part), parent)
            }
            Flat::Entered(parent, mark, node, scope, part) => {
                (Kind::One(Single::Entered(mark, node, scope), part), parent)
            }
            Flat::Passed(parent, part) => (Kind::One(Single::Passed, part), parent),
            Flat::Both(parent, left, right) => (Kind::Two(Double::Both, left, right), parent),
            Flat::Side(parent, cell, left, right) => {
                (Kind::Two(Double::Side(cell), left, right), parent)
            }
        };
        Node { kind, parent }
    }
}
