//! The nodes of small terms: what a small term is at its root, and the numbers of its parts among the terms. Here too are the hashes by which nodes
//! are found. A `Param` is what stands as an argument: a name, a value, a cell without a value yet, or void, which never gets one. `Found` is what
//! comes of a call: an answer after a delay, or never one. In a small term calls and cells have no numbers of their own.
//!
//! In contracts `small_of_node terms` is the term of a node whose parts are among `terms`, `tip_of` that of a node without parts, and `out_of` a
//! pending call, as the definitions have them.

ghost use Rattle.std.specs.Prelude.{◌≡◌, ◌&&◌, List, true};
ghost use Rattle.orc_search.specs.Nodes.{small_of_node, tip_of, out_of};
ghost use Rattle.orc_search.specs.Small.{Small};

use orc_rules::builtin::{are_same, is_same};
use orc_rules::param::Param;
use orc_rules::value::{Answer, Found, Value};

/// A pending call: its site by its number in the table, its arguments, and what comes of it: an answer after the time that is left, or never one.
#[derive(Drop)]
pub struct Waiting {
    pub site: u32,
    pub args: Vec<Value>,
    pub rest: Found,
}

/// A term without parts.
#[derive(Drop)]
pub enum Tip {
    /// `stop`.
    Nothing,
    /// A parameter: a value is published.
    Gives(Param),
    /// A call of the site of this number that isn't made yet.
    Asks(u32, Vec<Param>),
    /// A call of the definition of this number.
    Enters(u32, Vec<Param>),
    /// A call of a site that is pending.
    Awaits(Waiting),
}

/// How two terms f and g are joined. A variable is its number.
#[derive(Clone, Copy, PartialEq, Eq)]
pub enum Joint {
    /// `f | g`
    Both,
    /// `f >x> g`
    Feeds(u32),
    /// `f <x< g`, which isn't opened yet.
    Prunes(u32),
    /// `f ; g`
    Instead,
    /// `f <c< g`, an opened pruning. Its cell c has no number of its own: it is how many left sides of opened prunings stand around this one.
    Needs,
}

/// A node: a term without parts, or two terms that are joined, the left and the right one, by their numbers.
#[derive(Drop)]
pub enum Node {
    Tip(Tip),
    Pair(Joint, usize, usize),
}

/// What is asked of a term again and again.
#[derive(Clone, Copy)]
pub struct Summary {
    /// Whether it has halted.
    pub over: bool,
    /// The least time, in logical units, that a call has left which is pending in it; None if no call is pending that will be answered.
    pub left: Option<u64>,
}

// Whether two lists are equal; the other `is_same_..` functions here are alike. Contracts promise only that `true` is right: a node that isn't
// recognized as equal only costs a copy.
fn are_same_params(a: &[Param], b: &[Param]) -> bool
    ensures { result ≡ true → a.now ≡ b.now }
{
    // It recurses over the parameters of one call, which are `MOST_ARGUMENTS` at most.
    match a {
        [] => b.is_empty(),
        [p, rest @ ..] => match b {
            [] => false,
            [q, others @ ..] => *p == *q && are_same_params(rest, others),
        },
    }
}

// Whether two lists of values are equal (`are_same`). The contract promises only that `true` is right; the attribute names a lemma that the prover
// needs.
#[tactic(auto, using(crate::proofs::Nodes::values_same))]
fn are_same_values(a: &[Value], b: &[Value]) -> bool
    ensures { result ≡ true → a.now ≡ b.now }
{
    are_same(a, b)
}

// Whether two pending calls are equal: their sites, what comes of them, and their arguments. Only `true` is promised to be right.
fn is_same_waiting(a: &Waiting, b: &Waiting) -> bool
    ensures { result ≡ true → out_of a.now ≡ out_of b.now }
{
    if a.site != b.site {
        return false;
    }
    if a.rest != b.rest {
        return false;
    }
    are_same_values(&a.args, &b.args)
}

// Whether two terms without parts are equal; those of different kinds never are. Only `true` is promised to be right.
fn is_same_tip(a: &Tip, b: &Tip) -> bool
    ensures { result ≡ true → tip_of a.now ≡ tip_of b.now }
{
    match (a, b) {
        (Tip::Nothing, Tip::Nothing) => true,
        (Tip::Gives(p), Tip::Gives(q)) => *p == *q,
        (Tip::Asks(m, ps), Tip::Asks(n, qs)) => *m == *n && are_same_params(ps, qs),
        (Tip::Enters(d, ps), Tip::Enters(e, qs)) => *d == *e && are_same_params(ps, qs),
        (Tip::Awaits(v), Tip::Awaits(w)) => is_same_waiting(v, w),
        _ => false,
    }
}

/// Whether two nodes are equal. If so, they have the same term among any terms.
pub fn is_same_node(a: &Node, b: &Node) -> bool
    ensures { result ≡ true → (terms : List Small) → small_of_node terms a.now ≡ small_of_node terms b.now }
{
    match (a, b) {
        (Node::Tip(t), Node::Tip(u)) => is_same_tip(t, u),
        (Node::Pair(j, f, g), Node::Pair(k, p, q)) => *j == *k && *f == *p && *g == *q,
        _ => false,
    }
}

/// A hash with a number mixed in: numbers that are mixed in one after another give a hash that differs for most lists of numbers. Nothing is promised
/// of it.
pub fn mix(seed: u64, word: u64) -> u64 {
    // The odd constant is 2^64 over the golden ratio, which spreads its factor over all bits. The low bits of a product come of low bits alone, so a
    // rotation brings upper ones down: `Places` takes a slot from the low bits.
    (seed ^ word)
        .wrapping_add(0x9E37_79B9_7F4A_7C15)
        .wrapping_mul(0x9E37_79B9_7F4A_7C15)
        .rotate_left(29)
}

/// A hash with a value mixed in. Nothing is promised of it, but that equal values give equal hashes. Here and below each kind of thing mixes in a
/// small number of its own, so that a name and a cell of the same number differ.
pub fn mix_value(seed: u64, value: Value) -> u64 {
    match value {
        Value::Number(n) => { mix(mix(seed, if n < 0 { 1 } else { 0 }), n.unsigned_abs()) }
        Value::Truth(truth) => mix(seed, if truth { 2 } else { 3 }),
        Value::Signal => mix(seed, 4),
    }
}

/// A hash with a parameter mixed in, of which as little is promised.
pub fn mix_param(seed: u64, param: Param) -> u64 {
    match param {
        Param::Name(x) => mix(mix(seed, 5), x as u64),
        Param::Is(v) => mix_value(seed, v),
        Param::Cell(c) => mix(mix(seed, 6), c),
        Param::Void => mix(seed, 7),
    }
}

// A hash with parameters mixed in, one after another.
fn mix_params(seed: u64, params: &[Param]) -> u64 {
    let mut mixed = seed;
    for param in params {
        mixed = mix_param(mixed, *param);
    }
    mixed
}

// A hash with what comes of a pending call mixed in: its answer and the delay until then, or that it is never answered.
fn mix_found(seed: u64, found: Found) -> u64 {
    match found {
        Found::After(Answer::Value(v), delay) => mix(mix_value(seed, v), delay),
        Found::After(Answer::Halt, delay) => mix(mix(seed, 8), delay),
        Found::Never => mix(seed, 9),
    }
}

// A hash with a pending call mixed in: its site, its arguments, and what comes of it.
fn mix_waiting(seed: u64, waiting: &Waiting) -> u64 {
    let mut mixed = mix(seed, waiting.site as u64);
    for arg in &waiting.args {
        mixed = mix_value(mixed, *arg);
    }
    mix_found(mixed, waiting.rest)
}

// The hash of a joint. Each kind has a small number of its own.
fn mix_joint(joint: Joint) -> u64 {
    match joint {
        Joint::Both => 10,
        Joint::Feeds(x) => mix(11, x as u64),
        Joint::Prunes(x) => mix(12, x as u64),
        Joint::Instead => 13,
        Joint::Needs => 14,
    }
}

/// The hash by which a node is looked for. Equal nodes have the same one, but no contract says so. The kinds of terms without parts have the numbers
/// 15 to 19.
pub fn hash_of(node: &Node) -> u64 {
    match node {
        Node::Tip(Tip::Nothing) => 15,
        Node::Tip(Tip::Gives(p)) => mix_param(16, *p),
        Node::Tip(Tip::Asks(m, ps)) => mix_params(mix(17, *m as u64), ps),
        Node::Tip(Tip::Enters(e, ps)) => mix_params(mix(18, *e as u64), ps),
        Node::Tip(Tip::Awaits(w)) => mix_waiting(19, w),
        Node::Pair(joint, f, g) => mix(mix(mix_joint(*joint), *f as u64), *g as u64),
    }
}
