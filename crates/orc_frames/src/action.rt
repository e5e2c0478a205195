//! What a token does next, by the node that it is on and what is around it. A *token* marks a part of the program's term that runs. A *step* is the
//! entry into the right side of a `<x<`, or into the left side of a `;` or a `>x>`. A *cell* stands for the x of an opened `f <x< g`, and a *scope*
//! says by number what names stand for. An operand is a name or a value.
//!
//! In contracts a path is what is around a token, the innermost first: `feeding` is the left side of a `>x>`, `aiding` the right side of a cell,
//! `trying` the left side of an otherwise, and `whole` nothing. `seen left` leaves out the otherwises that have published, which take nothing.
//! `what_by` defines what a token does next, `taken` what one on a value does, `of_param` what one at a variable or a value does, and `scan` what one
//! at a call of a site does. A clause for each `code`, `env` and `left` holds whatever the nodes and the scopes mean and whichever otherwises have
//! published. `env_of cells scopes n` is what the names of scope n mean. `close` puts that for the names of a term, `close_param` for one argument
//! and `closed` for a list of operands; `param_of` makes an operand an argument. `code` gives a node's term, and `definitions` lists what the program
//! defines.
//!
//! `from` is the number of a token's innermost step, from which a search goes outwards; 0 is the program as a whole. `scopes` and `cells` are those
//! of the run: scope n is the n-th item of `scopes` (scope 0 has no names), and `cells` says by number what a cell has become (item 0 is no cell).

ghost use Rattle.std.specs.Prelude.{◌≡◌, ℕ, Bool, true, false, None as Nothing};
ghost use Rattle.orc_rules.specs.Term.{Term};
ghost use Rattle.orc_rules.specs.Nodes.{param_of, code, definitions};
ghost use Rattle.orc_env.specs.Scopes.{Env, env_of, close, close_param};
ghost use Rattle.orc_env.specs.Names.{AreOrdered};
ghost use Rattle.orc_frames.specs.Spelling.{seen};
ghost use Rattle.orc_frames.specs.Paths.{path, has_published};
ghost use Rattle.orc_tables.specs.Steps.{AreOutwards};
ghost use Rattle.orc_frames.specs.Doing.{taken, of_param, what_by, scan, closed};

use crate::takers::{Taker, find_taker};
use orc_env::{Bound, StoredScope, meaning};
use orc_graph::{Graph, Node};
use orc_rules::param::Operand;
use orc_rules::value::Value;
use orc_tables::Steps;

/// What a token can do next. `Halt`, `Fork`, `Seq` and `Other` are moves of marks: their entries use no rule of Orc.
#[derive(Clone, Copy)]
pub enum Action {
    /// The token is on `stop`, and ends.
    Halt,
    /// The token is on `f | g`, and becomes a token on each side.
    Fork,
    /// The token enters the left side of a `>x>`.
    Seq,
    /// The token opens a `<x<`, and becomes a token on each side.
    Prune,
    /// The token enters the left side of a `;`.
    Other,
    /// The token calls a definition.
    Def,
    /// The token's variable, or an argument of its call of a site, is void (it will never have a value): the token ends.
    Void,
    /// Nothing around the token takes its value: the program publishes that.
    Publish(Value),
    /// A `>x>` takes the token's value.
    Send(Value),
    /// A `<x<` takes the token's value: the cell with this number, which stands for its x, is bound to the value.
    Bind(u64, Value),
    /// The token calls a site, and all arguments have values.
    Call,
    /// The token waits for the cell with this number, the first one if it waits for several. 0 (no cell has this number) if no cell can end the wait:
    /// the token is at a name that isn't bound, or at a call of a definition that isn't there. No checked program has these.
    Wait(u64),
}

/// What a token on this value does: it depends on what takes the value, from step `from` outwards. Each step enters the left side of a `>x>` or a
/// `;`, or the right side of a `<x<`. If nothing takes the value, or if there is no step `from`, the program publishes it. The contract asks that the
/// step around each step has a lower number (`AreOutwards`), since paths are defined by that; and it promises the answer by the path of steps, in
/// which the left sides of `;` that have published are left out (`seen`): they never take a value.
pub fn publish_action(steps: &Steps, from: usize, value: Value) -> Action
    requires { AreOutwards steps.now.items }
    ensures { (code : ℕ → Term) (env : ℕ → Env) (left : ℕ → Bool) → result ≡ taken value (seen left (path code env steps.now.items from)) }
{
    // There is no step `from`: steps are numbered from 1 to `len`.
    if from > steps.len() {
        return Action::Publish(value);
    }
    match find_taker(steps, from) {
        Taker::Whole => Action::Publish(value),
        Taker::SeqLeft(_, _, _, _) => Action::Send(value),
        Taker::PruneRight(cell, _) => Action::Bind(cell, value),
    }
}

/// Whether each operand of a call has a value in the scope with the number `scope`; `cells` says what each cell has become. The contract promises of
/// `true` alone that `site_call_action`, begun with all these operands, gives `Call`. It asks that each scope extends one of a lower number
/// (`AreOrdered`): only of such scopes `meaning` promises what a name means.
pub fn are_values(
    scopes: &[StoredScope],
    cells: &[Bound],
    operands: &[Operand],
    scope: usize,
) -> bool
    requires { AreOrdered scopes.now }
    ensures { result ≡ true → scan false Nothing (closed (env_of cells.now scopes.now scope) operands.now) ≡ Action.Call }
{
    // It recurses over the operands of one call, which are `MOST_ARGUMENTS` at most; so does `site_call_action`.
    match operands {
        [] => true,
        [operand, operands @ ..] => match meaning(scopes, cells, *operand, scope) {
            Some(Bound::Is(_)) => are_values(scopes, cells, operands, scope),
            // The cell was lost, or isn't bound yet; or the scope doesn't have the operand's name. None of these is a value.
            Some(Bound::Void) => false,
            Some(Bound::Cell(_)) => false,
            None => false,
        },
    }
}

/// What a token at a call of a site does, in the scope with the number `scope`: `Call` where all operands have values, `Void` where one is void, else
/// `Wait`. `operands` are those that are still to be looked at: `waits` says that one before them has no value yet, and `first` is the first unbound
/// cell before them. A caller begins with all operands, false and None. `AreOrdered` asks that each scope extends one of a lower number.
pub fn site_call_action(
    scopes: &[StoredScope],
    cells: &[Bound],
    operands: &[Operand],
    scope: usize,
    waits: bool,
    first: Option<u64>,
) -> Action
    requires { AreOrdered scopes.now }
    ensures { result ≡ scan waits first (closed (env_of cells.now scopes.now scope) operands.now) }
{
    match operands {
        // All operands were looked at, and none is void.
        [] => {
            if waits {
                // 0 if only names that aren't bound have no value.
                Action::Wait(first.unwrap_or(0))
            } else {
                Action::Call
            }
        }
        [operand, operands @ ..] => match meaning(scopes, cells, *operand, scope) {
            // A value: it changes nothing for the others.
            Some(Bound::Is(_)) => site_call_action(scopes, cells, operands, scope, waits, first),
            // One void operand is enough, whatever the others wait for.
            Some(Bound::Void) => Action::Void,
            // A cell without a value yet: the call waits, unless a void operand follows. `first` stays, if there is one already.
            Some(Bound::Cell(cell)) => {
                site_call_action(scopes, cells, operands, scope, true, first.or(Some(cell)))
            }
            // A name that isn't bound; no checked program has one.
            None => site_call_action(scopes, cells, operands, scope, true, first),
        },
    }
}

// What a token does whose term is a variable or a value, `operand`, by what that means in the scope with the number `scope`. `from` is the token's
// innermost step (the entry into a side of a `>x>`, `<x<` or `;` around the token), 0 if it has none.
fn variable_action(
    scopes: &[StoredScope],
    cells: &[Bound],
    steps: &Steps,
    operand: Operand,
    scope: usize,
    from: usize,
) -> Action
    requires ordered { AreOrdered scopes.now }
    requires outwards { AreOutwards steps.now.items }
    ensures { (code : ℕ → Term) (env : ℕ → Env) (left : ℕ → Bool) → result ≡ of_param (seen left (path code env steps.now.items from)) (close_param (env_of cells.now scopes.now scope) (param_of operand)) }
{
    match meaning(scopes, cells, operand, scope) {
        Some(Bound::Is(value)) => publish_action(steps, from, value),
        Some(Bound::Cell(cell)) => Action::Wait(cell),
        Some(Bound::Void) => Action::Void,
        // A name that isn't bound; no checked program has one.
        None => Action::Wait(0),
    }
}

/// What a token does at the node with this number of the program, in the scope with the number `scope`. `from` is the token's innermost step (the
/// entry into a side of a `>x>`, `<x<` or `;` around the token), 0 if it has none. The contract asks that each scope extends one of a lower number
/// (`AreOrdered`), and that the step around each step has a lower number (`AreOutwards`).
pub fn action_at(
    graph: &Graph,
    scopes: &[StoredScope],
    cells: &[Bound],
    steps: &Steps,
    node: u32,
    scope: usize,
    from: usize,
) -> Action
    requires ordered { AreOrdered scopes.now }
    requires outwards { AreOutwards steps.now.items }
    ensures { result ≡ what_by (definitions graph.now) (seen (has_published steps.now.items) (path (code graph.now) (env_of cells.now scopes.now) steps.now.items from)) (close (env_of cells.now scopes.now scope) (code graph.now node)) }
{
    match graph.node(node as usize) {
        Node::Stop => Action::Halt,
        Node::Name(name) => variable_action(scopes, cells, steps, Operand::Name(name), scope, from),
        Node::Is(value) => publish_action(steps, from, value),
        // `list` is the number of the call's list of operands. All are still to be looked at, so none is known to wait.
        Node::Site(_, list) => site_call_action(
            scopes,
            cells,
            graph.operands(list as usize),
            scope,
            false,
            None,
        ),
        Node::Call(definition, _) => match graph.body(definition as usize) {
            // Its arguments need no values: they are passed on as they are.
            Some(_) => Action::Def,
            // There is no such definition; no checked program calls one.
            None => Action::Wait(0),
        },
        Node::Par(_, _) => Action::Fork,
        Node::Seq(_, _, _) => Action::Seq,
        Node::Prune(_, _, _) => Action::Prune,
        Node::Other(_, _) => Action::Other,
    }
}
