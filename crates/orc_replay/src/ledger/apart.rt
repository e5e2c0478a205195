//! Rows on sub-runs: a ledger of its own runs a call of a definition, and the ledger of the enclosing run merges what that wrote. In contracts `P`
//! stands for the enclosing run and `Q` for the sub-run; `limit` is the most entries of a journal, 1 at least. What is merged is the *part*, the
//! sub-run once it is over.

ghost use Rattle.std.specs.Prelude.{◌≡◌, ◌≤◌, true, false};
ghost use Rattle.orc_rules.specs.declared.limits.TheConstants.{MOST_ENTRIES};
ghost use Rattle.orc_rules.specs.Nodes.{definitions, source};
ghost use Rattle.orc_ledger_spec.specs.Parts.{call_of};

use orc_graph::Graph;
use orc_journal_text::write_journal;
use orc_ledger::{Action, Called, Inputs, Ledger, LedgerFault, Moved, Run, SubRun, SubRunTask};
use orc_load::load;
use orc_rules::answers::Answers;
use orc_rules::value::{Args, Value};
use std::alloc::Global;
use std::marker::Brand;

// The ledger keeps each token (a running part of the program) in a slot; so many slots, from 0, are looked at. No program here has more tokens at a
// time.
const SLOTS: usize = 4;

// Runs a task (a call of a definition) by a ledger of its own, in which each token moves in turn. None if a move is refused, or the run isn't over
// after `limit` rounds. If the call isn't outermost, the enclosing run doesn't publish what the call yields: then a token that would publish stays
// where it is, and its value is the result. `keeps` says whether the ledger keeps the journal or only counts its entries. Each round adds an entry if
// a token can move, so `limit` rounds are enough. The clauses say that graph, answers and limit are those of the sub-run `Q`, whose program is this
// call, with the definitions of the enclosing run `P`.
fn run_apart<Q: Run, P: Run>(
    alloc: Global,
    graph: &Graph,
    answers: &Answers,
    keeps: bool,
    task: SubRunTask,
    limit: usize,
) -> Option<SubRun<P>>
    requires keeps { keeps ≡ P.keeps }
    requires limit { (1 ≤ limit) × (limit ≤ MOST_ENTRIES) }
    requires named { limit ≡ Q.limit }
    requires graph { graph.now ≡ Q.listing }
    requires answers { answers.now.sites ≡ Q.sites }
    requires sites { Q.sites ≡ P.sites }
    requires kept { Q.keeps ≡ P.keeps }
    requires definitions { definitions Q.listing ≡ definitions P.listing }
    requires call { source Q.listing ≡ call_of task.definition task.args }
{
    let inputs = Inputs::new(graph, answers);
    let mut ledger = Ledger::<Q>::begin(alloc, keeps, limit, graph.root()).ok()?;
    // The slot of the last token that would publish and was left where it is.
    let mut last = None;
    for _round in 0..limit {
        for slot in 0..SLOTS {
            // The slot is free.
            let Some(token) = ledger.held(slot) else {
                continue;
            };
            // `what` says what the token does next: it would publish, which is left to the enclosing run.
            if !task.is_outermost && matches!(ledger.what(&inputs, &token), Action::Publish(_)) {
                last = Some(slot);
            } else if !move_on(alloc, &mut ledger, &inputs, slot) {
                return None;
            }
        }
    }
    // None if more is left of the run than such a token.
    ledger.into_sub_run::<P>(&inputs, task, last)
}

// Moves the token in a slot once. True if the token moved or waits, or if the slot has none. False if its move was refused, or it has made a call
// that isn't answered at once with a value.
fn move_on<Q: Run>(
    alloc: Global,
    ledger: &mut Ledger<Q>,
    inputs: &Inputs<'_, Q>,
    slot: usize,
) -> bool {
    let Some(token) = ledger.held(slot) else {
        return true;
    };
    // Lists that the calls of the ledger write over; they aren't read here.
    let mut scopes = Vec::new(alloc);
    let mut cancelled = Vec::new(alloc);
    let mut args = Args::new();
    match ledger.advance(inputs, slot, token, &mut scopes, &mut cancelled) {
        // `advance` makes no call of a site; `call_through` makes it, and takes an answer that comes at once.
        Ok(Moved::Calls) => matches!(
            ledger.call_through(inputs, slot, token, &mut args),
            Ok(Called::Answered(_))
        ),
        Ok(_) => true,
        Err(_) => false,
    }
}

// The sub-run of a task (a call of a definition), if that run is over within a hundred entries, which only the endless `f() = f()` reaches. `Brand`
// is a fresh name for the sub-run, which contracts call `Q` in `run_apart`.
fn part_of<P: Run>(
    alloc: Global,
    inputs: &Inputs<'_, P>,
    keeps: bool,
    task: SubRunTask,
) -> Option<SubRun<P>>
    requires keeps { keeps ≡ P.keeps }
{
    // The graph whose program is the call: the definitions are those of the enclosing one.
    let own = inputs
        .graph
        .for_call(alloc, task.definition, task.args.as_slice())
        .ok()?;
    run_apart::<Brand, P>(alloc, &own, inputs.answers, keeps, task, 100)
}

// The slot of the first token that stands at a call of a definition whose arguments have values. All tokens move until there is such a token, ten
// times at most: in these programs it takes one round. None if there is none by then, or a move is refused.
fn at_call<P: Run>(alloc: Global, ledger: &mut Ledger<P>, inputs: &Inputs<'_, P>) -> Option<usize> {
    for _round in 0..10_usize {
        for slot in 0..SLOTS {
            let Some(token) = ledger.held(slot) else {
                continue;
            };
            // `task` gives the call as a task, and None if the token isn't at such a call.
            if ledger.task(inputs, &token).is_some() {
                return Some(slot);
            }
            if !move_on(alloc, ledger, inputs, slot) {
                return None;
            }
        }
    }
    None
}

// Runs a program up to a call of a definition, makes that call's sub-run, and merges it: gives the ledger then, or why the merge was refused, such as
// a journal limit without room. None where one of the steps before fails. `limit` is the most entries of the journal. `keeps` says whether the ledger
// keeps its journal or only counts the entries.
fn taken<P: Run>(
    alloc: Global,
    inputs: &Inputs<'_, P>,
    keeps: bool,
    limit: usize,
) -> Option<Result<Ledger<P>, LedgerFault>>
    requires keeps { keeps ≡ P.keeps }
    requires limit { (1 ≤ limit) × (limit ≤ MOST_ENTRIES) }
    requires named { limit ≡ P.limit }
{
    let mut ledger = Ledger::<P>::begin(alloc, keeps, limit, inputs.graph.root()).ok()?;
    let slot = at_call(alloc, &mut ledger, inputs)?;
    let token = ledger.held(slot)?;
    let task = ledger.task(inputs, &token)?;
    let part = part_of::<P>(alloc, inputs, keeps, task.copied())?;
    // `is_of` says that the part is the task's, and may be merged where the call is; `append_sub_run` asks that.
    if !part.is_of(&task) {
        return None;
    }
    match ledger.append_sub_run(slot, token, &part) {
        Ok(()) => Some(Ok(ledger)),
        Err(fault) => Some(Err(fault)),
    }
}

// The text of the journal after the merge of the first call's sub-run (`taken`), or why the merge was refused. None where something before it fails.
// `limit` is the most entries of the journal.
fn text_named<P: Run>(
    alloc: Global,
    graph: &Graph,
    answers: &Answers,
    limit: usize,
) -> Option<Result<Vec<u8>, LedgerFault>>
    requires keeps { P.keeps ≡ true }
    requires limit { (1 ≤ limit) × (limit ≤ MOST_ENTRIES) }
    requires named { limit ≡ P.limit }
    requires graph { graph.now ≡ P.listing }
    requires answers { answers.now.sites ≡ P.sites }
{
    let inputs = Inputs::new(graph, answers);
    // `true`: the journal is kept.
    let ledger = match taken::<P>(alloc, &inputs, true, limit)? {
        Ok(ledger) => ledger,
        Err(fault) => return Some(Err(fault)),
    };
    let mut text = Vec::new(alloc);
    match write_journal(&ledger.into_journal(), answers, &mut text) {
        Ok(true) => Some(Ok(text)),
        // Memory was refused, or an entry has no line.
        _ => None,
    }
}

// What is known of a run that doesn't keep its journal: its publications, and how many entries there were.
#[derive(Drop)]
struct Known {
    // What the run has published, in order, and how many entries its journal has.
    values: Vec<Value>,
    entries: usize,
}

// What is known after the merge of the first call's sub-run (`taken`) into a run that doesn't keep its journal. None if the merge is refused, or
// something before it fails. `limit` is the most entries of the journal.
fn known_named<P: Run>(
    alloc: Global,
    graph: &Graph,
    answers: &Answers,
    limit: usize,
) -> Option<Known>
    requires keeps { P.keeps ≡ false }
    requires limit { (1 ≤ limit) × (limit ≤ MOST_ENTRIES) }
    requires named { limit ≡ P.limit }
    requires graph { graph.now ≡ P.listing }
    requires answers { answers.now.sites ≡ P.sites }
{
    let inputs = Inputs::new(graph, answers);
    // `false`: the journal isn't kept.
    let Ok(ledger) = taken::<P>(alloc, &inputs, false, limit)? else {
        return None;
    };
    let entries = ledger.journal_len();
    let values = ledger.into_published().ok()?;
    Some(Known { values, entries })
}

// The text of the journal after the merge in the program of this source, without a script, or why the merge was refused. `limit` is the most entries
// of the journal. None where something before the merge fails, or the limit isn't 1 to 100: `begin` requires 1 at least, and the rows' limits are 100
// at most.
fn text_of(alloc: Global, source: &[u8], limit: usize) -> Option<Result<Vec<u8>, LedgerFault>> {
    let loaded = load(alloc, source, b"").ok()?;
    let graph = Graph::build(alloc, &loaded.program).ok()?;
    if limit < 1 || limit > 100 {
        return None;
    }
    text_named::<Brand>(alloc, &graph, &loaded.answers, limit)
}

// What is known after the merge in the program of this source, without a script, whose journal isn't kept. `limit` is the most entries of the
// journal. None where the merge is refused, something before it fails, or the limit isn't 1 to 100.
fn known_of(alloc: Global, source: &[u8], limit: usize) -> Option<Known> {
    let loaded = load(alloc, source, b"").ok()?;
    let graph = Graph::build(alloc, &loaded.program).ok()?;
    if limit < 1 || limit > 100 {
        return None;
    }
    known_named::<Brand>(alloc, &graph, &loaded.answers, limit)
}

// Whether the merge in the program of this source isn't refused, with `limit` as the most entries, and the journal after the merge is `journal`.
fn has_text(alloc: Global, source: &[u8], limit: usize, journal: &[u8]) -> bool {
    match text_of(alloc, source, limit) {
        Some(Ok(text)) => text.as_slice() == journal,
        _ => false,
    }
}

// A program whose run is the call of `f` alone, with four entries: the call adds 1 to 4.
const SOURCE: &[u8] = b"def f(n) = Add(n, 1)\nf(4)";

// The journal of `SOURCE`, whose entries the rules allow in this order alone: token 2, on the body, makes call 1, and token 3, on the answer 5,
// publishes it.
const JOURNAL: &[u8] = b"orc-journal 2\ndef 1 2\ncall 2 1 Add(4, 1)\nreturn 1 3 5\npublish 3 5\n";

/// Whether the merged journal has the entries of a sub-run in the place of its call, if the limit has room for them; and whether a call whose run
/// isn't over gives no sub-run.
pub(crate) fn stands_in_its_place(alloc: Global) -> bool {
    // A limit of 4 has room for the four entries, and one of 3 hasn't. The last program calls itself for ever.
    has_text(alloc, SOURCE, 4, JOURNAL)
        && matches!(text_of(alloc, SOURCE, 3), Some(Err(LedgerFault::Limit)))
        && text_of(alloc, b"def f() = f()\nf()", 100).is_none()
}

// Programs, and for each the only journal up to the merge, the part's entries included, that the rules allow. A line names the token that moves (a
// `return` the call), then a cell or call and the new marks.
const PLACES: [(&[u8], &[u8]); 5] = [
    // A call whose sub-run opens a cell.
    (
        // Token 2 is on the body, 3 on x, 4 on n, which is 4. The whole program is the call, so it publishes.
        b"def f(n) = x <x< n\nf(4)",
        b"orc-journal 2\ndef 1 2\nopen 2 1 3 4\nbind 4 1 4\npublish 3 4\n",
    ),
    // A call in the right side of a pruning.
    (
        // Token 3 is at the call. The part opens cell 2, and ends with token 5 on x, which is 4 and would bind cell 1.
        b"def f(n) = x <x< n\ny <y< f(4)",
        b"orc-journal 2\nopen 1 1 2 3\ndef 3 4\nopen 4 2 5 6\nbind 6 2 4\n",
    ),
    // A call in the left side of a `>x>`.
    (
        // Token 2 is at the call. The part ends with token 4 on 5, which the `>x>` would take.
        b"def f(n) = Add(n, 1)\nf(4) >x> Add(x, 10)",
        b"orc-journal 2\nseq 1 2\ndef 2 3\ncall 3 1 Add(4, 1)\nreturn 1 4 5\n",
    ),
    // A call that yields nothing, in the right side of a pruning.
    (
        // Token 3 is at the call, and token 4 on the body ends.
        b"def f() = stop\ny <y< f()",
        b"orc-journal 2\nopen 1 1 2 3\ndef 3 4\nend 4\n",
    ),
    // The same call, in the left side of a `>x>`.
    (
        // Token 2 is at the call, and token 3 on the body ends.
        b"def f() = stop\nf() >x> x",
        b"orc-journal 2\nseq 1 2\ndef 2 3\nend 3\n",
    ),
];

/// Whether a sub-run may open cells, and yield a value or nothing, wherever its call is; and whether a run that yields two values gives no sub-run if
/// the enclosing run doesn't publish them.
pub(crate) fn stands_anywhere(alloc: Global) -> bool {
    for (source, journal) in PLACES.iter() {
        if !has_text(alloc, source, 100, journal) {
            return false;
        }
    }
    // The call yields 4 and 1, which the `>x>` takes: more than one token is left, so there is no sub-run.
    text_of(alloc, b"def f(n) = n | 1\nf(4) >x> x", 100).is_none()
}

/// Whether a sub-run whose journal isn't kept has the right publications and number of entries, if the limit has room for them.
pub(crate) fn counts_and_publishes(alloc: Global) -> bool {
    match known_of(alloc, SOURCE, 4) {
        Some(known) => {
            // `f(4)` publishes 5, and has four entries: a limit of 3 has no room for them.
            known.values.as_slice() == [Value::Number(5)].as_slice()
                && known.entries == 4
                && known_of(alloc, SOURCE, 3).is_none()
        }
        None => false,
    }
}
