//! What a token stands on, and which entries fit it. A function that recurses here does so once an argument, `MOST_ARGUMENTS` times at most. The
//! marked term (`marked`) is what is left of the program's term after the first entries of a journal. A token is on a node of it, which names the
//! node of the program on which the token stands.

ghost use Rattle.std.specs.Prelude.{◌≡◌, List, Option, Some, None, map, is_some, slice_get};
ghost use Rattle.orc_rules.specs.Nodes.{code, definitions, param_of};
ghost use Rattle.orc_rules.specs.Idle.{has_void};
ghost use Rattle.orc_env.specs.Scopes.{close, close_param, env_of};
ghost use Rattle.orc_env.specs.Names.{AreOrdered};
ghost use Rattle.orc_verdict.specs.Standing.{are_these as these, summary, under, mark_of, args_of, is_sent, is_bound, is_whole, is_value, is_void, is_call, fits_as};

use orc_checker::Marked;
use orc_rules::builtin::is_same;
use orc_rules::entry::Entry;
use orc_rules::param::{Operand, Param};
use orc_rules::program::{Program, TermNode};
use orc_rules::value::Value;
use orc_term::arena::{Kind, Tip};
use orc_term::walk::Taker;

/// What a token stands on, as far as an entry's condition depends on it.
#[derive(Clone, Copy)]
pub(crate) enum Standing {
    /// There is no token.
    Nothing,
    /// `stop`.
    Stop,
    /// An operand: a value, a cell that is neither bound nor lost, void (the cell was lost), or the name of a variable that the scope doesn't have.
    On(Param),
    /// A call of this site: whether an argument is void, and whether the arguments are the values that the entry names.
    Site(u32, bool, bool),
    /// A call of a definition: whether there is such a definition.
    Call(bool),
    /// `f | g`.
    Par,
    /// `f >x> g`.
    Seq,
    /// `f <x< g`.
    Prune,
    /// `f ; g`.
    Other,
}

/// Whether the operands of a call, read in this scope, are the values `args`, as many and in this order. The scope, by its number, says what
/// variables mean. The contract asks that each scope extends one of a lower number (`AreOrdered`), as the scopes of a run do.
fn are_these(marked: &Marked, operands: &[Operand], args: &[Value], scope: usize) -> bool
    ensures { AreOrdered marked.now.scopes → result ≡ these (map (close_param (env_of marked.now.cells marked.now.scopes scope)) (map param_of operands.now)) args.now }
{
    match operands {
        [] => args.is_empty(),
        [operand, operands @ ..] => match args {
            [] => false,
            [arg, args @ ..] => match marked.param(*operand, scope) {
                Param::Is(value) => {
                    is_same(value, *arg) && are_these(marked, operands, args, scope)
                }
                // The operand isn't a value: a variable without one, or one that will never have one.
                Param::Name(_) => false,
                Param::Cell(_) => false,
                Param::Void => false,
            },
        },
    }
}

/// Whether some operand is void in this scope: a variable whose cell was lost. The scope, by its number, says what variables mean. The contract asks
/// that each scope extends one of a lower number (`AreOrdered`), as the scopes of a run do.
fn some_void(marked: &Marked, operands: &[Operand], scope: usize) -> bool
    ensures { AreOrdered marked.now.scopes → result ≡ has_void (map (close_param (env_of marked.now.cells marked.now.scopes scope)) (map param_of operands.now)) }
{
    match operands {
        [] => false,
        [operand, operands @ ..] => match marked.param(*operand, scope) {
            Param::Void => true,
            // This operand isn't void, so the others are looked at.
            Param::Name(_) => some_void(marked, operands, scope),
            Param::Cell(_) => some_void(marked, operands, scope),
            Param::Is(_) => some_void(marked, operands, scope),
        },
    }
}

/// Whether there is a definition of that number.
fn is_defined(program: &Program, definition: u32) -> bool
    ensures { result ≡ is_some (slice_get (definitions program.now) definition) }
{
    (definition as usize) < program.definitions().len()
}

/// What a token on this `node` of the program stands on, whose variables are read in this `scope`. `args` are the arguments that the entry names. The
/// contract asks that each scope extends one of a lower number (`AreOrdered`), as the scopes of a run do.
fn on_node(
    marked: &Marked,
    program: &Program,
    args: &[Value],
    node: usize,
    scope: usize,
) -> Standing
    ensures { AreOrdered marked.now.scopes → result ≡ summary (definitions program.now) args.now (close (env_of marked.now.cells marked.now.scopes scope) (code program.now node)) }
{
    match program.node(node) {
        TermNode::Stop => Standing::Stop,
        TermNode::Operand(operand) => Standing::On(marked.param(operand, scope)),
        TermNode::Site(site, list) => {
            let operands = program.operands(list);
            Standing::Site(
                site,
                some_void(marked, operands, scope),
                are_these(marked, operands, args, scope),
            )
        }
        TermNode::Call(definition, _) => Standing::Call(is_defined(program, definition)),
        TermNode::Par(_, _) => Standing::Par,
        TermNode::Seq(_, _, _) => Standing::Seq,
        TermNode::Prune(_, _, _) => Standing::Prune,
        TermNode::Other(_, _) => Standing::Other,
    }
}

/// What a node of the marked term with this `kind` stands on, if it is a token; else Nothing. `args` are the arguments that the entry names. The
/// contract asks that each scope extends one of a lower number (`AreOrdered`), as the scopes of a run do.
pub(crate) fn standing_of(
    marked: &Marked,
    program: &Program,
    args: &[Value],
    kind: Kind,
) -> Standing
    ensures { AreOrdered marked.now.scopes → result ≡ summary (definitions program.now) args.now (under (code program.now) (env_of marked.now.cells marked.now.scopes) kind) }
{
    match kind {
        Kind::Leaf(Tip::Token(_, node, scope)) => {
            on_node(marked, program, args, node as usize, scope as usize)
        }
        Kind::Leaf(Tip::Bears(_, value)) => Standing::On(Param::Is(value)),
        // All other nodes bear no token.
        Kind::Leaf(Tip::Gone) => Standing::Nothing,
        Kind::Leaf(Tip::Ended) => Standing::Nothing,
        Kind::Leaf(Tip::Waits(_)) => Standing::Nothing,
        Kind::One(_, _) => Standing::Nothing,
        Kind::Two(_, _, _) => Standing::Nothing,
    }
}

/// The mark `s` of the token that an entry names. None if it names none, as `right`, whose mark is an otherwise's.
pub fn mark_named(entry: &Entry) -> Option<u64>
    ensures { result ≡ mark_of entry.now }
{
    match entry {
        Entry::End(s) => Some(*s),
        Entry::Fork(s, _, _) => Some(*s),
        Entry::Seq(s, _) => Some(*s),
        Entry::Other(s, _) => Some(*s),
        Entry::Def(s, _) => Some(*s),
        Entry::Void(s) => Some(*s),
        Entry::Open(s, _, _, _) => Some(*s),
        Entry::Send(s, _, _) => Some(*s),
        Entry::Call(s, _, _, _) => Some(*s),
        Entry::Bind(s, _, _) => Some(*s),
        Entry::Publish(s, _) => Some(*s),
        // These entries name no token.
        Entry::Return(_, _, _) => None,
        Entry::ReturnHalt(_) => None,
        Entry::Lost(_) => None,
        Entry::Right(_, _) => None,
        Entry::Tick(_) => None,
        Entry::Cancel(_) => None,
    }
}

/// The arguments that a `call` names, none for any other entry.
pub(crate) fn args_named(entry: &Entry) -> &[Value]
    ensures { result.now ≡ args_of entry.now }
{
    match entry {
        Entry::Call(_, _, _, args) => args.as_slice(),
        _ => &[],
    }
}

/// Whether a publication goes to a `>x>`. `taker` is what takes it; None if the token's node is no part of the term.
fn goes_on(taker: Option<Taker>) -> bool
    ensures { result ≡ is_sent taker }
{
    match taker {
        Some(Taker::Fed(_)) => true,
        _ => false,
    }
}

/// Whether a publication goes to this cell. `taker` is what takes it; None if the token's node is no part of the term.
fn goes_to(cell: u64, taker: Option<Taker>) -> bool
    ensures { result ≡ is_bound cell taker }
{
    match taker {
        Some(Taker::Bound(c, _)) => c == cell,
        _ => false,
    }
}

/// Whether nothing in the term takes a publication, so that the program publishes it. `taker` is what takes it; None if the token's node is no part
/// of the term.
fn goes_out(taker: Option<Taker>) -> bool
    ensures { result ≡ is_whole taker }
{
    match taker {
        Some(Taker::Whole) => true,
        _ => false,
    }
}

/// Whether the token whose `standing` this is stands on this value.
fn on_value(value: Value, standing: Standing) -> bool
    ensures { result ≡ is_value value standing }
{
    match standing {
        Standing::On(Param::Is(w)) => is_same(w, value),
        _ => false,
    }
}

/// Whether the token whose `standing` this is stands on void, a variable whose cell was lost, or on a call of a site with a void argument.
fn on_void(standing: Standing) -> bool
    ensures { result ≡ is_void standing }
{
    match standing {
        Standing::On(Param::Void) => true,
        Standing::Site(_, void, _) => void,
        _ => false,
    }
}

/// Whether the token whose `standing` this is stands on a call of this site with the arguments that the entry names, which `these` tells.
fn on_call(site: u32, standing: Standing) -> bool
    ensures { result ≡ is_call site standing }
{
    match standing {
        Standing::Site(n, _, these) => n == site && these,
        _ => false,
    }
}

/// Whether an entry of a token fits what the token stands on and what takes its publications; `taker` is None where the token's node is no part of
/// the term. True of an entry that names no token.
pub(crate) fn fits_standing(entry: &Entry, standing: Standing, taker: Option<Taker>) -> bool
    ensures { result ≡ fits_as entry.now standing taker }
{
    match entry {
        Entry::End(_) => matches!(standing, Standing::Stop),
        Entry::Fork(_, _, _) => matches!(standing, Standing::Par),
        Entry::Seq(_, _) => matches!(standing, Standing::Seq),
        Entry::Other(_, _) => matches!(standing, Standing::Other),
        Entry::Def(_, _) => matches!(standing, Standing::Call(true)),
        Entry::Open(_, _, _, _) => matches!(standing, Standing::Prune),
        Entry::Void(_) => on_void(standing),
        Entry::Send(_, _, v) => on_value(*v, standing) && goes_on(taker),
        Entry::Call(_, _, site, _) => on_call(*site, standing),
        Entry::Bind(_, c, v) => on_value(*v, standing) && goes_to(*c, taker),
        Entry::Publish(_, v) => on_value(*v, standing) && goes_out(taker),
        // `return`, `lost`, `right`, `tick` and `cancel` name no token.
        _ => true,
    }
}
