//! All that a numbered term may do. Such a term is a small one: its calls and cells have no numbers of their own. A part does something *by itself*
//! (`own_step`), and `lifted_out` says what the whole does by that. A `Successor` is a step: what is seen of it (`Happening`), and the number of the
//! term after it. A node is a `Tip`, which has no parts, or two terms that a `Joint` such as `|` joins. A `Param` is an argument: a name, a value, a
//! cell without a value yet, or void, which never gets one. A `Frame` is what encloses a part directly, and a `Spot` is a part with its depth: how
//! many left sides of opened prunings stand around it.
//!
//! In contracts `smalls terms` is the list of all terms by their numbers, `Extends` says that those which were there stay, and `AllZip (IsSuccessor
//! ..)` that numbered steps are the steps of a list, one by one. `made` are the calls that were made before. A match that hands an option back as it
//! is changes nothing: it is for the prover.

ghost use Rattle.std.specs.Prelude.{◌≡◌, ◌<◌, ◌≤◌, ◌++◌, List, ℕ, length, map, reverse, Some, None, slice_get, IfOk, OnOk, IfSome, IfNone};
ghost use Rattle.std.specs.List.{AllZip};
ghost use Rattle.orc_rules.specs.declared.limits.TheConstants.{MOST_ARGUMENTS};
ghost use Rattle.orc_rules.specs.declared.param.Param.TheVariants.{Cell};
ghost use Rattle.orc_rules.specs.declared.value.Value.{Value as Datum};
ghost use Rattle.orc_rules.specs.Term.{values_of};
ghost use Rattle.orc_rules.specs.Idle.{has_void};
ghost use Rattle.orc_rules.specs.Nodes.{code, definition_of};
ghost use Rattle.orc_rules.specs.Programs.{routine_of};
ghost use Rattle.orc_search.specs.Small.{Out, left_by, nothing, needs, set, set_all};
ghost use Rattle.orc_search.specs.Moves.{SmallDefinition};
ghost use Rattle.orc_search.specs.Successors.{moves, given, asked, entered, returned, silently};
ghost use Rattle.orc_search.specs.States.{next_call};
ghost use Rattle.orc_search.specs.Nodes.{joined, out_of, small_at, smalls, tip_of, Extends};
ghost use Rattle.orc_search.specs.Programs.{small, small_definition, small_definitions};
ghost use Rattle.orc_search.specs.Moving.{successor_of, IsSuccessor};
ghost use Rattle.orc_search.specs.Asked.{coming_of_made};
ghost use Rattle.orc_search.specs.Ready.{IsReady};
ghost use Rattle.orc_search.specs.Own.{becoming_of, list_of, silent_of, own, IsOwn, Turns};
ghost use Rattle.orc_search.specs.Walks.{through, AreAround, IsPlanned};

use crate::change::{Change, changed};
use crate::made::{Made, times_of};
use crate::node::{Joint, Node, Tip, Waiting};
use crate::successor::{Frame, Happening, Successor};
use crate::terms::Terms;
use crate::walk::{Spot, Walk, lifted_out};
use orc_rules::answers::Answers;
use orc_rules::limits::MOST_ARGUMENTS;
use orc_rules::param::Param;
use orc_rules::program::{Definition, Program};
use orc_rules::value::{Answer, Args, Found, Value};
use std::alloc::{AllocError, Global};

/// A program, and what is needed to run it on numbered terms.
#[derive(Drop)]
pub struct Source<'a> {
    pub program: &'a Program,
    /// What its sites answer.
    pub answers: &'a Answers,
    /// The numbers of its nodes' small terms, one for each node, as `numbered` gives them.
    pub numbers: Vec<usize>,
}

// A step of a term without parts to another one: what is seen of it, and the term after it.
#[derive(Drop)]
struct Becoming {
    happening: Happening,
    tip: Tip,
}

// What a term does by itself and not by a part of it. The first of these needs no new terms; the others are worked out once the terms may grow.
#[derive(Drop)]
enum Own {
    // A term without parts, and its step, if it has one.
    Becomes(Option<Becoming>),
    // A call of the definition of this number with these parameters.
    Enters(u32, Vec<Param>),
    // Two terms that are joined, the left and the right one, which may turn into something else (`turned`).
    Joins(Joint, usize, usize),
}

// The silent step to `stop` if `happens`, and otherwise no step.
fn silently(happens: bool) -> Option<Becoming>
    ensures { becoming_of result ≡ silently happens nothing }
{
    if happens {
        Some(Becoming {
            happening: Happening::Unseen,
            tip: Tip::Nothing,
        })
    } else {
        None
    }
}

// The step of a parameter: a value is published, void ends, and a name or a cell without a value waits.
fn given(param: Param) -> Option<Becoming>
    ensures { becoming_of result ≡ given param }
{
    match param {
        Param::Is(value) => Some(Becoming {
            happening: Happening::Published(value),
            tip: Tip::Nothing,
        }),
        Param::Void => silently(true),
        _ => None,
    }
}

// Whether one of the parameters is void.
fn has_void(params: &[Param]) -> bool
    ensures { result ≡ has_void params.now }
{
    for param in params {
        if let Param::Void = *param {
            return true;
        }
    }
    false
}

// The values of parameters; None if one isn't a value. Of more than `MOST_ARGUMENTS` an `Args` has no room.
fn values_of(params: &[Param]) -> Option<Args>
    requires { length params.now ≤ MOST_ARGUMENTS }
    ensures { result ≡ values_of params.now }
{
    let mut args = Args::new();
    for param in params {
        let Param::Is(value) = *param else {
            return None;
        };
        args.push(value);
    }
    Some(args)
}

// What the table answers to the next call of a site with these arguments, after the calls `made`. The error says that 2^64 - 1 of them were made.
fn answer(source: &Source, made: &[Made], site: u32, args: &Args) -> Result<Found, AllocError>
    ensures { IfOk result (λ found. found ≡ coming_of_made source.now.answers.now.sites made.now site args.now 0) }
{
    let Some(nth) = times_of(made, site, args.as_slice()).checked_add(1) else {
        return Err(AllocError);
    };
    Ok(source.answers.find(site, args, nth))
}

// The step by which a call of a site is made, where `rest` is what comes of it: an answer after a delay, or never one. The error is refused memory.
fn call(alloc: Global, site: u32, args: &[Value], rest: Found) -> Result<Becoming, AllocError>
    ensures { IfOk result (λ b. becoming_of (Some b) ≡ asked (λ _ _. record { site = site; args = args.now; rest = rest }) site (Some args.now)) }
{
    // One copy for what is seen, and one for the pending call.
    let made = Vec::from_slice(alloc, args)?;
    let out = Vec::from_slice(alloc, args)?;
    Ok(Becoming {
        happening: Happening::Called(site, made),
        tip: Tip::Awaits(Waiting {
            site,
            args: out,
            rest,
        }),
    })
}

// The step of a call of a site that isn't made yet, after the calls `made`: it is made if all parameters are values, ends silently if one is void,
// and waits otherwise. The error is refused memory, that it has more than `MOST_ARGUMENTS` parameters, or that it is the call 2^64 of its kind.
fn asked(
    alloc: Global,
    source: &Source,
    made: &[Made],
    site: u32,
    params: &[Param],
) -> Result<Option<Becoming>, AllocError>
    // A call with what the table says of the next one, if all parameters are values; and a silent end if one is void.
    ensures { IfOk result (λ o. becoming_of o ≡ asked (next_call (coming_of_made source.now.answers.now.sites made.now)) site (values_of params.now) ++ silently (has_void params.now) nothing) }
{
    if params.len() > MOST_ARGUMENTS {
        return Err(AllocError);
    }
    let Some(args) = values_of(params) else {
        return Ok(silently(has_void(params)));
    };
    let rest = answer(source, made, site, &args)?;
    let becoming = call(alloc, site, args.as_slice(), rest)?;
    Ok(Some(becoming))
}

// What an answered call becomes.
fn left_by(answer: Answer) -> Tip
    ensures { tip_of result ≡ left_by answer }
{
    match answer {
        Answer::Value(value) => Tip::Gives(Param::Is(value)),
        Answer::Halt => Tip::Nothing,
    }
}

// The step by which a pending call returns, once it has a delay of 0 left; None if more time is left, or if it is never answered. The error is
// refused memory.
fn returned(alloc: Global, waiting: &Waiting) -> Result<Option<Becoming>, AllocError>
    ensures { IfOk result (λ o. becoming_of o ≡ returned (out_of waiting.now) waiting.now.rest) }
{
    let Found::After(answer, 0) = waiting.rest else {
        return Ok(None);
    };
    let args = Vec::from_slice(alloc, &waiting.args)?;
    Ok(Some(Becoming {
        happening: Happening::Answered(waiting.site, args, answer),
        tip: left_by(answer),
    }))
}

// What the term of the number `at` does by itself, after the calls `made`. The error is refused memory, a call with more than `MOST_ARGUMENTS`
// parameters, 2^64 calls, or that there is no such term.
fn own_of(
    terms: &Terms,
    alloc: Global,
    source: &Source,
    made: &[Made],
    at: usize,
) -> Result<Own, AllocError>
    ensures { IfOk result (λ o. IsOwn (next_call (coming_of_made source.now.answers.now.sites made.now)) (smalls terms.now) at o) }
{
    match terms.node(at) {
        None => Err(AllocError),
        Some(Node::Pair(joint, f, g)) => Ok(Own::Joins(*joint, *f, *g)),
        Some(Node::Tip(Tip::Nothing)) => Ok(Own::Becomes(None)),
        Some(Node::Tip(Tip::Gives(param))) => Ok(Own::Becomes(given(*param))),
        Some(Node::Tip(Tip::Asks(site, params))) => {
            let becoming = asked(alloc, source, made, *site, params)?;
            Ok(Own::Becomes(becoming))
        }
        Some(Node::Tip(Tip::Enters(definition, params))) => {
            // A copy, since the node that has them is among the terms, which grow when the call is worked out.
            let params = Vec::from_slice(alloc, params)?;
            Ok(Own::Enters(*definition, params))
        }
        Some(Node::Tip(Tip::Awaits(waiting))) => {
            let becoming = returned(alloc, waiting)?;
            Ok(Own::Becomes(becoming))
        }
    }
}

// The definition of that number; None if there is none.
fn definition(program: &Program, number: u32) -> Option<&Definition>
    // As a small definition it is the one of that number.
    ensures there { IfSome result (λ d. slice_get (small_definitions program.now) number ≡ Some (small_definition (definition_of program.now (routine_of d.now)))) }
    ensures none { IfNone result (slice_get (small_definitions program.now) number ≡ None) }
{
    match program.definitions().get(number as usize) {
        Some(called) => Some(called),
        None => None,
    }
}

// The number of the small term of the program's node at the place `node`, from 0; where there is no such node, its term is `stop`. The error is
// refused memory. `IsReady` asks that `source` has the right number for the small term of each node of the program.
fn number_of_node(terms: &mut Terms, source: &Source, node: usize) -> Result<usize, AllocError>
    requires { IsReady (smalls terms.old) source.now }
    // The number is that of the small term of the program's node.
    ensures number { IfOk result (λ n. slice_get (smalls terms.new) n ≡ Some (small (code source.now.program.now node))) }
    ensures kept { Extends (smalls terms.old) (smalls terms.new) }
{
    // A fact for the prover, of which nothing runs: a node that isn't there has the term `stop`.
    source.program.are_unfolded();
    match source.numbers.get(node) {
        Some(number) => Ok(*number),
        None => terms.number_of(Node::Tip(Tip::Nothing)),
    }
}

// The number of what the term `body` becomes if the parameters are put for the names, one after another, as far as there are both. The error is
// refused memory.
fn filled(
    terms: &mut Terms,
    alloc: Global,
    names: &[u32],
    params: &[Param],
    body: usize,
) -> Result<usize, AllocError>
    requires { body < length terms.old }
    // The number is that of `body` with the parameters for the names.
    ensures number { IfOk result (λ n. slice_get (smalls terms.new) n ≡ Some (set_all names.now params.now (small_at (smalls terms.old) body))) }
    ensures kept { Extends (smalls terms.old) (smalls terms.new) }
{
    let mut filled = body;
    for (i, name) in names.iter().enumerate() {
        let Some(param) = params.get(i) else {
            return Ok(filled);
        };
        filled = changed(terms, alloc, Change::Put(*param, *name), filled)?;
    }
    Ok(filled)
}

// The step of a call of the definition of this number: its body, with these parameters for its names; None if there is no such definition. The error
// is refused memory. `IsReady` asks that `source` has the right number for the small term of each node of the program.
fn entered(
    terms: &mut Terms,
    alloc: Global,
    source: &Source,
    number: u32,
    params: &[Param],
) -> Result<Option<Successor>, AllocError>
    requires { IsReady (smalls terms.old) source.now }
    // It is the step that the definitions have for this call, or there is none there either.
    ensures entered { IfOk result (λ o. AllZip (IsSuccessor (smalls terms.new)) (list_of o) (entered (slice_get (small_definitions source.now.program.now) number) params.now)) }
    ensures kept { Extends (smalls terms.old) (smalls terms.new) }
{
    let Some(called) = definition(source.program, number) else {
        return Ok(None);
    };
    let body = number_of_node(terms, source, called.body)?;
    let to = filled(terms, alloc, &called.params, params, body)?;
    Ok(Some(Successor {
        happening: Happening::Unseen,
        to,
    }))
}

// The number of what `f <x< g` becomes when it opens: in f the new cell takes the place of x. `f` and `g` are the numbers of the two sides. `depth`
// is how many left sides of opened prunings stand around the pruning, and so the number of the new cell. The error is refused memory.
fn opened(
    terms: &mut Terms,
    alloc: Global,
    f: usize,
    x: u32,
    g: usize,
    depth: u64,
) -> Result<usize, AllocError>
    requires left { f < length terms.old }
    requires right { g < length terms.old }
    // The number is that of the opened pruning of f, with the cell for x, and g.
    ensures number { IfOk result (λ n. slice_get (smalls terms.new) n ≡ Some (needs (set (Cell depth) x (small_at (smalls terms.old) f)) (small_at (smalls terms.old) g))) }
    ensures kept { Extends (smalls terms.old) (smalls terms.new) }
{
    let left = changed(terms, alloc, Change::Put(Param::Cell(depth), x), f)?;
    let to = terms.number_of(Node::Pair(Joint::Needs, left, g))?;
    Ok(to)
}

// The number of what two joined terms become by themselves; None if they do nothing but by a part. `f` and `g` are their numbers. All such steps are
// silent: a pruning opens, an otherwise goes to its right side, or a cell is lost. `depth` is how many left sides of opened prunings stand around the
// joined term, and so the number of the cell that opens or is lost. The error is refused memory.
fn turned(
    terms: &mut Terms,
    alloc: Global,
    joint: Joint,
    f: usize,
    g: usize,
    depth: u64,
) -> Result<Option<usize>, AllocError>
    requires left { f < length terms.old }
    requires right { g < length terms.old }
    // It is the step that the definitions have for the joined term by itself, or there is none there either.
    ensures turned { IfOk result (λ o. (defs : List SmallDefinition) (ask : ℕ → List Datum → Out) → Turns (smalls terms.new) o (own defs ask depth (joined joint (small_at (smalls terms.old) f) (small_at (smalls terms.old) g)))) }
    ensures kept { Extends (smalls terms.old) (smalls terms.new) }
{
    match joint {
        // A `|` and a `>x>` do nothing but by a part.
        Joint::Both => Ok(None),
        Joint::Feeds(_) => Ok(None),
        Joint::Prunes(x) => {
            let to = opened(terms, alloc, f, x, g, depth)?;
            Ok(Some(to))
        }
        // Once its left side has halted, an otherwise goes to its right side.
        Joint::Instead => {
            if terms.summary(f).over {
                Ok(Some(g))
            } else {
                Ok(None)
            }
        }
        // Once the right side of an opened pruning has halted, the cell is lost: void is put for it, and the left side alone is left.
        Joint::Needs => {
            if terms.summary(g).over {
                let to = changed(terms, alloc, Change::Settle(Param::Void, depth), f)?;
                Ok(Some(to))
            } else {
                Ok(None)
            }
        }
    }
}

/// The step by itself of the part at `spot`, after the calls `made`: what is seen of the step, and the number of the part after it; None if the part
/// has none. `spot` has the part's number and its depth. `IsReady` asks that `source` has the right number for the small term of each node of the
/// program. The error is refused memory, a call with more than `MOST_ARGUMENTS` parameters, or 2^64 calls. The terms that were there stay, also after
/// an error.
pub(crate) fn own_step(
    terms: &mut Terms,
    alloc: Global,
    source: &Source,
    made: &[Made],
    spot: Spot,
) -> Result<Option<Successor>, AllocError>
    requires ready { IsReady (smalls terms.old) source.now }
    requires there { spot.at < length terms.old }
    // It is the step of the part in the list `own` of the definitions, which has one at most.
    ensures own { IfOk result (λ o. AllZip (IsSuccessor (smalls terms.new)) (list_of o) (own (small_definitions source.now.program.now) (next_call (coming_of_made source.now.answers.now.sites made.now)) spot.depth (small_at (smalls terms.old) spot.at))) }
    ensures kept { Extends (smalls terms.old) (smalls terms.new) }
{
    match own_of(terms, alloc, source, made, spot.at)? {
        Own::Becomes(None) => Ok(None),
        Own::Becomes(Some(becoming)) => {
            // The term after the step is among the terms from here on.
            let to = terms.number_of(Node::Tip(becoming.tip))?;
            Ok(Some(Successor {
                happening: becoming.happening,
                to,
            }))
        }
        Own::Enters(definition, params) => {
            let body = entered(terms, alloc, source, definition, &params)?;
            Ok(body)
        }
        Own::Joins(joint, f, g) => {
            let turned = turned(terms, alloc, joint, f, g, spot.depth)?;
            Ok(silent(turned))
        }
    }
}

// Plans that the own parts of the part at `spot` are entered next, as far as they can move (`IsPlanned`); a term without parts has none. The error is
// refused memory, prunings opened in one another 2^64 deep, or that there is no such term.
fn plan(terms: &Terms, walk: &mut Walk, spot: Spot) -> Result<(), AllocError>
    ensures { OnOk result (IsPlanned (smalls terms.now) spot walk.old walk.new) }
{
    match terms.node(spot.at) {
        None => Err(AllocError),
        Some(Node::Tip(_)) => Ok(()),
        Some(Node::Pair(joint, f, g)) => walk.plan_parts(*joint, *f, *g, spot.depth),
    }
}

// The step of the part at `spot` by itself, after the calls `made`, once its own parts are planned to be entered next. The errors are those of `plan`
// and of `own_step`. `IsReady` asks that `source` has the right number for the small term of each node of the program.
fn step(
    terms: &mut Terms,
    alloc: Global,
    source: &Source,
    made: &[Made],
    walk: &mut Walk,
    spot: Spot,
) -> Result<Option<Successor>, AllocError>
    requires ready { IsReady (smalls terms.old) source.now }
    requires there { spot.at < length terms.old }
    // The step is the part's in the list `own` of the definitions, which has one at most.
    ensures own { IfOk result (λ o. AllZip (IsSuccessor (smalls terms.new)) (list_of o) (own (small_definitions source.now.program.now) (next_call (coming_of_made source.now.answers.now.sites made.now)) spot.depth (small_at (smalls terms.old) spot.at))) }
    // The parts of the part are the next tasks of the walk.
    ensures planned { IfOk result (λ _. IsPlanned (smalls terms.old) spot walk.old walk.new) }
    ensures kept { Extends (smalls terms.old) (smalls terms.new) }
{
    plan(terms, walk, spot)?;
    own_step(terms, alloc, source, made, spot)
}

// The silent step to the term of this number, if there is one.
fn silent(turned: Option<usize>) -> Option<Successor>
    ensures { list_of result ≡ silent_of turned }
{
    match turned {
        Some(to) => Some(Successor {
            happening: Happening::Unseen,
            to,
        }),
        None => None,
    }
}

// The step of a part, if it has one, as a step of the whole. `path` has the frames around the part, the outermost first; `AreAround` asks that the
// other parts in these frames are among the terms. The error is refused memory.
fn whole_of(
    terms: &mut Terms,
    alloc: Global,
    path: &[Frame],
    own: Option<Successor>,
) -> Result<Option<Successor>, AllocError>
    requires around { AreAround (length terms.old) (reverse path.now) }
    requires part { IfSome own (λ s. s.to < length terms.old) }
    // It is the step through all frames of the path, the last one first.
    ensures lifted { IfOk result (λ o. AllZip (IsSuccessor (smalls terms.new)) (list_of o) (map (λ s. through (smalls terms.old) (reverse path.now) (successor_of (smalls terms.old) s)) (list_of own))) }
    ensures kept { Extends (smalls terms.old) (smalls terms.new) }
{
    match own {
        Some(successor) => {
            let whole = lifted_out(terms, alloc, path, successor)?;
            Ok(Some(whole))
        }
        None => Ok(None),
    }
}

// Pushes a successor, if there is one. Where memory is refused nothing changes.
fn add(found: &mut Vec<Successor>, successor: Option<Successor>) -> Result<(), AllocError>
    ensures { OnOk result (found.new.items ≡ found.old.items ++ list_of successor) }
{
    if let Some(successor) = successor {
        found.push(successor)?;
    }
    Ok(())
}

/// All that the term of the number `root` may do, in the order of the list `moves` of the definitions, where the calls `made` were made before: what
/// is seen of each step, and the number of the term after it. The error is refused memory, or that a count is past its type: a call with more than
/// `MOST_ARGUMENTS` parameters, 2^64 calls, or prunings opened in one another 2^64 deep. The terms that were there stay, also after an error.
/// `IsReady` asks that `source` has the right number for the small term of each node of the program.
pub fn successors(
    terms: &mut Terms,
    alloc: Global,
    source: &Source,
    made: &[Made],
    root: usize,
) -> Result<Vec<Successor>, AllocError>
    requires ready { IsReady (smalls terms.old) source.now }
    requires there { root < length terms.old }
    // They are the list `moves` of the definitions for this term, one by one.
    ensures all { IfOk result (λ v. AllZip (IsSuccessor (smalls terms.new)) v.items (moves (small_definitions source.now.program.now) (next_call (coming_of_made source.now.answers.now.sites made.now)) 0 (small_at (smalls terms.old) root))) }
    ensures kept { Extends (smalls terms.old) (smalls terms.new) }
{
    let mut walk = Walk::new(alloc);
    let mut found = Vec::new(alloc);
    let mut spot = Spot { at: root, depth: 0 };
    // The loop ends with the walk: no term has as many parts as it has turns, and the bound shows that it ends.
    for _step in 0..u64::MAX {
        // The walk goes on with the part's own parts, which `step` plans. `walk.path` has the frames around the part.
        let own = step(terms, alloc, source, made, &mut walk, spot)?;
        let whole = whole_of(terms, alloc, &walk.path, own)?;
        add(&mut found, whole)?;
        // None: all parts have been entered.
        let Some(next) = walk.next()? else {
            return Ok(found);
        };
        spot = next;
    }
    Err(AllocError)
}
