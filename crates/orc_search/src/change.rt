//! Changes of all of a small term: something is put for a name, a cell is settled, or time passes. In a small term calls and cells have no numbers of
//! their own. A term is named by its number in `Terms`; what it becomes by a change is its *image*, which `Terms` keeps. A node is a `Tip`, which has
//! no parts, or two terms that a `Joint` such as `|` joins. A `Param` is an argument: a name, a value, a cell without a value yet, or void, which
//! never gets one. What goes for a cell's number says how many left sides of opened prunings stand around its own pruning.
//!
//! In contracts `smalls terms` is the list of all terms by their numbers, and `Extends` says that those which were there stay. `changed` is what a
//! term becomes by a change, and `ProgressIs` says that an answer `Is` has the right number.

ghost use Rattle.std.specs.Prelude.{◌≡◌, ◌<◌, List, length, map, Some, true, slice_get, IfOk, IfSome};
ghost use Rattle.orc_rules.specs.Term.{put_param};
ghost use Rattle.orc_search.specs.Small.{settle_param};
ghost use Rattle.orc_search.specs.Ticks.{less};
ghost use Rattle.orc_search.specs.Nodes.{tip_of, small_at, smalls, Extends};
ghost use Rattle.orc_search.specs.declared.change.Progress.TheVariants.{Is};
ghost use Rattle.orc_search.specs.Changes.{changed, changed_param, changed_rest, left_stays, right_stays, IsPlan, IsPart, ProgressIs};

use crate::images::Image;
use crate::node::{Joint, Node, Tip, Waiting, mix, mix_param};
use crate::terms::Terms;
use orc_rules::param::Param;
use orc_rules::value::{Found, Value};
use std::alloc::{AllocError, Global};

/// What happens to all of a term.
#[derive(Clone, Copy)]
pub enum Change {
    /// Substitution: the parameter replaces each free variable of this number.
    Put(Param, u32),
    /// A value, or void, is put for the cell of this number. Cells with a greater number get the next lower one, since one opened pruning fewer is
    /// around them.
    Settle(Param, u64),
    /// So much time passes, in logical units.
    Pass(u64),
}

/// How far the change of a term has come.
#[derive(Clone, Copy)]
pub enum Progress {
    /// It becomes the term of this number.
    Is(usize),
    /// Its part of this number has to be changed before it.
    Wants(usize),
}

/// Whether two changes are the same.
pub(crate) fn is_same_change(a: Change, b: Change) -> bool
    ensures { result ≡ true → a ≡ b }
{
    match (a, b) {
        (Change::Put(p, x), Change::Put(q, y)) => x == y && p == q,
        (Change::Settle(v, m), Change::Settle(w, n)) => m == n && v == w,
        (Change::Pass(by), Change::Pass(so)) => by == so,
        _ => false,
    }
}

/// A hash of a change. Nothing is promised of it. The kinds' numbers follow those of nodes (`hash_of` in `node`).
pub(crate) fn mix_change(change: Change) -> u64 {
    match change {
        Change::Put(q, x) => mix(mix_param(20, q), x as u64),
        Change::Settle(w, n) => mix(mix_param(21, w), n),
        Change::Pass(by) => mix(22, by),
    }
}

// The parameter, with q put for the name x.
fn put_param(q: Param, x: u32, param: Param) -> Param
    ensures { result ≡ put_param q x param }
{
    match param {
        Param::Name(y) => { if x == y { q } else { param } }
        _ => param,
    }
}

// The parameter, with w put for the cell n. A cell with a greater number gets the next lower one, since one opened pruning fewer is around it.
fn settle_param(w: Param, n: u64, param: Param) -> Param
    ensures { result ≡ settle_param w n param }
{
    match param {
        Param::Cell(c) => {
            if n == c {
                w
            } else if n < c {
                Param::Cell(c - 1)
            } else {
                param
            }
        }
        _ => param,
    }
}

// What becomes of a parameter. Time changes none.
fn changed_param(change: Change, param: Param) -> Param
    ensures { result ≡ changed_param change param }
{
    match change {
        Change::Put(q, x) => put_param(q, x, param),
        Change::Settle(w, n) => settle_param(w, n, param),
        Change::Pass(_) => param,
    }
}

// The parameters, changed. The error is refused memory.
fn changed_params(alloc: Global, change: Change, params: &[Param]) -> Result<Vec<Param>, AllocError>
    ensures { IfOk result (λ v. v.items ≡ map (changed_param change) params.now) }
{
    let mut changed = Vec::new(alloc);
    for param in params {
        changed.push(changed_param(change, *param))?;
    }
    Ok(changed)
}

// What comes of a pending call once so much time has passed. A delay doesn't go below 0; a search lets no more time pass than the least one left.
fn less(by: u64, rest: Found) -> Found
    ensures { result ≡ less by rest }
{
    match rest {
        Found::After(answer, delay) => Found::After(answer, delay.saturating_sub(by)),
        Found::Never => Found::Never,
    }
}

// What comes of a pending call after a change. Only time changes it.
fn changed_rest(change: Change, rest: Found) -> Found
    ensures { result ≡ changed_rest change rest }
{
    match change {
        Change::Pass(by) => less(by, rest),
        _ => rest,
    }
}

// What a term without parts becomes. The error is refused memory.
fn changed_tip(alloc: Global, change: Change, tip: &Tip) -> Result<Tip, AllocError>
    ensures { IfOk result (λ t. tip_of t ≡ changed change (tip_of tip.now)) }
{
    match tip {
        Tip::Nothing => Ok(Tip::Nothing),
        Tip::Gives(param) => Ok(Tip::Gives(changed_param(change, *param))),
        Tip::Asks(site, params) => {
            let params = changed_params(alloc, change, params)?;
            Ok(Tip::Asks(*site, params))
        }
        Tip::Enters(definition, params) => {
            let params = changed_params(alloc, change, params)?;
            Ok(Tip::Enters(*definition, params))
        }
        Tip::Awaits(waiting) => {
            let args = Vec::from_slice(alloc, &waiting.args)?;
            Ok(Tip::Awaits(Waiting {
                site: waiting.site,
                args,
                rest: changed_rest(change, waiting.rest),
            }))
        }
    }
}

// Whether the left part of a term that is joined so stays as it is by this change: in `f <x< g` the x of f is the pruning's own, so nothing is put
// for it.
fn left_stays(change: Change, joint: Joint) -> bool
    ensures { result ≡ left_stays change joint }
{
    match (change, joint) {
        (Change::Put(_, x), Joint::Prunes(y)) => x == y,
        _ => false,
    }
}

// Whether the right part of a term that is joined so stays as it is by this change: the g of `f >x> g` has its own x, so nothing is put for it.
fn right_stays(change: Change, joint: Joint) -> bool
    ensures { result ≡ right_stays change joint }
{
    match (change, joint) {
        (Change::Put(_, x), Joint::Feeds(y)) => x == y,
        _ => false,
    }
}

// The node from which the change of the term of the number `at` is made: a term without parts already changed, or the parts of the term before the
// change. The error is refused memory, or that there is no such term.
fn plan(terms: &Terms, alloc: Global, change: Change, at: usize) -> Result<Node, AllocError>
    ensures { IfOk result (λ n. IsPlan (smalls terms.now) change at n) }
{
    match terms.node(at) {
        None => Err(AllocError),
        Some(Node::Pair(joint, f, g)) => Ok(Node::Pair(*joint, *f, *g)),
        Some(Node::Tip(tip)) => {
            let tip = changed_tip(alloc, change, tip)?;
            Ok(Node::Tip(tip))
        }
    }
}

// The number of what the part `at` is after the change: its own if it stays, or that of its image; None if the image isn't kept yet.
fn part(terms: &Terms, change: Change, stays: bool, at: usize) -> Option<usize>
    ensures { IfSome result (λ to. IsPart (smalls terms.now) change stays at to) }
{
    if stays {
        Some(at)
    } else {
        terms.image(change, at)
    }
}

// One step for the term of the number `at`: what it becomes if the images of its parts are kept, and otherwise a part whose image is wanted first,
// the left one before the right one. The error is refused memory, or that there is no such term. The contract promises nothing of a part that is
// wanted.
fn step(terms: &mut Terms, alloc: Global, change: Change, at: usize) -> Result<Progress, AllocError>
    ensures progress { IfOk result (λ s. ProgressIs (smalls terms.old) (smalls terms.new) change at s) }
    ensures kept { Extends (smalls terms.old) (smalls terms.new) }
{
    match plan(terms, alloc, change, at)? {
        Node::Tip(tip) => {
            let to = terms.number_of(Node::Tip(tip))?;
            Ok(Progress::Is(to))
        }
        Node::Pair(joint, f, g) => {
            let Some(left) = part(terms, change, left_stays(change, joint), f) else {
                return Ok(Progress::Wants(f));
            };
            let Some(right) = part(terms, change, right_stays(change, joint), g) else {
                return Ok(Progress::Wants(g));
            };
            let to = terms.number_of(Node::Pair(joint, left, right))?;
            Ok(Progress::Is(to))
        }
    }
}

// One step of the whole change, for the term `at`, which was taken from the end of `todo`: its image is kept, and handed back; or the term goes back
// to `todo`, and behind it the part that is wanted first, and the answer is None. The error is refused memory, or that there is no such term. The
// contract promises nothing of `todo`, nor that the image is kept.
fn advance(
    terms: &mut Terms,
    alloc: Global,
    todo: &mut Vec<usize>,
    change: Change,
    at: usize,
) -> Result<Option<usize>, AllocError>
    ensures is { IfOk result (λ o. IfSome o (λ to. ProgressIs (smalls terms.old) (smalls terms.new) change at (Is to))) }
    ensures kept { Extends (smalls terms.old) (smalls terms.new) }
{
    match step(terms, alloc, change, at)? {
        Progress::Is(to) => {
            terms.keep(Image {
                change,
                from: at,
                to,
            })?;
            Ok(Some(to))
        }
        Progress::Wants(part) => {
            todo.push(at)?;
            todo.push(part)?;
            Ok(None)
        }
    }
}

/// The number of what the term of the number `root` becomes by a change. The error is refused memory. The terms that were there stay, also after an
/// error.
pub fn changed(
    terms: &mut Terms,
    alloc: Global,
    change: Change,
    root: usize,
) -> Result<usize, AllocError>
    requires { root < length terms.old }
    ensures image { IfOk result (λ to. slice_get (smalls terms.new) to ≡ Some (changed change (small_at (smalls terms.old) root))) }
    ensures kept { Extends (smalls terms.old) (smalls terms.new) }
{
    // If too many images are kept, all go here: none may go while the change is worked out.
    terms.begin_change();
    if let Some(to) = terms.image(change, root) {
        return Ok(to);
    }
    // A stack in place of a recursion. The root is at its bottom, so it is empty only once the root's image is known. No change takes as many steps
    // as the loop has turns: the bound shows that it ends.
    let mut todo: Vec<usize> = Vec::new(alloc);
    todo.push(root)?;
    for _step in 0..u64::MAX {
        let Some(at) = todo.pop() else {
            return Err(AllocError);
        };
        let known = advance(terms, alloc, &mut todo, change, at)?;
        if at == root {
            if let Some(to) = known {
                return Ok(to);
            }
        }
    }
    Err(AllocError)
}
