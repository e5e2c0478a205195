//! The parts of an engine with workers, each alone: words (counts of the passes to a group, which is what runs in one right side of a `<x<`, one left
//! side of a `;`, or the whole program), cells that are bound once, queues of tasks, and calls of sites as futures.

ghost use Rattle.std.specs.Prelude.{◌≡◌, ◌<◌, IsSome};
ghost use Rattle.orc_word.specs.Views.{group_of};

use futures::Future;
use futures::task::{Doorbell, Poll, Solo};
use orc_cell::{Cell, Reader};
use orc_pool::{Own, Queues, Theft, WorkerQueue, worker_queues};
use orc_rules::answers::Answers;
use orc_rules::value::{Answer, Args, Value};
use orc_site::{Due, Request, Scripted, SiteCall, SiteFuture, Sites};
use orc_word::{Bit, Groups, Naming, Pass, Unnamed};
use std::alloc::{AllocError, Global};
use std::marker::Brand;
use std::sync::Wait;
use std::sync::atomic::{AtomicU64, Ordering};
use std::test::Fail;
use std::thread;
use std::thread::Threads;

// How many tasks go through the queues.
const TASKS: u64 = 10_000;

// Whether each of five calls of `take` gave a pass. A pass is taken out of a supply, and is idle until it names a group. The first one is given back
// before the fourth call. `J` is a name of the table of groups, for the prover; so it is below. Tests hand in `Brand`, which stands for the table of
// that call.
fn takes<J: Naming>(made: Unnamed) -> [bool; 5]
    requires { made.table.shared.table_id ≡ J.table }
{
    let (groups, mut supply) = made.named::<J>();
    let first = supply.take(&groups);
    let second = supply.take(&groups);
    let third = supply.take(&groups);
    let took = [first.is_some(), second.is_some(), third.is_some()];
    if let Some(pass) = first {
        supply.give(&groups, pass);
    }
    let fourth = supply.take(&groups);
    let fifth = supply.take(&groups);
    [took[0], took[1], took[2], fourth.is_some(), fifth.is_some()]
}

// The table has one group and a supply of two passes. The third call finds none; the fourth gets the one that came back, and the fifth finds none.
#[test]
fn a_supply_of_two_gives_two(rt: HostRuntime) -> Result<(), Fail> {
    let made = Unnamed::new(rt.alloc(), 1, 2)?;
    assert_eq!(rt; takes::<Brand>(made), [true, true, false, true, false]);
    Ok(())
}

// A group's life: two passes name the group, both try to mark it as published, each leaves it, and it is opened again. None if a step of this life
// isn't possible; else whether each of these holds:
// - a supply of eight passes gives no part of nine;
// - the first mark is won, and no other; both passes see that mark alone;
// - the group isn't opened before its end; the pass that leaves first isn't the last one, and the other is the last one of group 1;
// - the new group has no mark; and of two words the second one counts one pass.
fn live<J: Naming>(made: Unnamed) -> Option<[bool; 8]>
    requires named { made.table.shared.table_id ≡ J.table }
    requires two { 1 < J.table.words }
{
    let (groups, mut supply) = made.named::<J>();
    // Nine passes are asked for, one more than the supply has.
    let parted = supply.part(&groups, 9).is_some();
    let mut first = groups.open(supply.take(&groups)?, 1).ok()?;
    let mut second = groups.enter(&first, supply.take(&groups)?);
    let marks = [
        groups.mark(&mut first, Bit::Published),
        groups.mark(&mut second, Bit::Published),
        groups.mark(&mut first, Bit::Published),
    ];
    let bits = groups.look(&mut second);
    // Refused, since two passes name group 1 still.
    let refused = groups.open(supply.take(&groups)?, 1);
    let opened_early = refused.is_ok();
    let left = groups.leave(first);
    let end = groups.leave(second);
    let is_first_last = left.last.is_some();
    let last = end.last.map(|last| last.group());
    let mut third = groups.open(left.pass, 1).ok()?;
    let fresh = groups.look(&mut third);
    // Ends the use of the table, and gives the words of the two groups, as numbers: the low bits count the passes.
    let words = groups.close();
    Some([
        !parted,
        marks[0] && !marks[1] && !marks[2],
        bits.published && !bits.killed,
        !opened_early,
        !is_first_last,
        last == Some(1),
        !fresh.published && !fresh.killed,
        words.word(0) == 0 && words.word(1) == 1,
    ])
}

// There are two groups, 0 and 1, each with a word (the count of the passes that name it, and its marks), and eight passes. `live` opens group 1.
#[test]
fn a_group_is_opened_anew_once_all_have_left(rt: HostRuntime) -> Result<(), Fail> {
    let made = Unnamed::new(rt.alloc(), 2, 8)?;
    assert_eq!(rt; live::<Brand>(made), Some([true; 8]));
    Ok(())
}

// Has a pass try to win the mark *killed* of its group, which the first one to set it wins, and leave the group. Gives whether the pass won the mark,
// and whether it was the group's last pass.
fn mark_and_leave<J: Naming>(groups: &Groups<J>, pass: Pass<J>) -> (bool, bool)
    requires { IsSome (group_of pass) }
{
    let mut pass = pass;
    let won = groups.mark(&mut pass, Bit::Killed);
    let last = groups.leave(pass).last.is_some();
    (won, last)
}

// Whether just one of two passes won the mark, and just one was the last to leave, each on a thread of its own.
fn in_two_threads<J, R>(rt: &R, groups: &Groups<J>, first: Pass<J>, second: Pass<J>) -> bool
where
    J: Naming + Send + Sync,
    R: Threads + Wait + Sync,
    requires first { IsSome (group_of first) }
    requires second { IsSome (group_of second) }
{
    let (one, two) = thread::join(
        rt,
        move || mark_and_leave(groups, first),
        move || mark_and_leave(groups, second),
    );
    // By place 0 of the answers one thread has won, by place 1 one was the last.
    one.0 != two.0 && one.1 != two.1
}

// In how many of a hundred rounds just one of two threads won the mark, and just one was the last. Each round opens group 0 anew. The supply needs
// two passes for each round, since none is given back. None if a pass can't be taken, or the group can't be opened.
fn rounds<J, R>(rt: &R, made: Unnamed) -> Option<u32>
where
    J: Naming + Send + Sync,
    R: Threads + Wait + Sync,
    requires { made.table.shared.table_id ≡ J.table }
{
    let (groups, mut supply) = made.named::<J>();
    let mut right = 0u32;
    for _ in 0..100u32 {
        let first = groups.open(supply.take(&groups)?, 0).ok()?;
        let second = groups.enter(&first, supply.take(&groups)?);
        if in_two_threads(rt, &groups, first, second) {
            right = right.saturating_add(1);
        }
    }
    Some(right)
}

// There are 200 passes, two for each of the hundred rounds. In each of the rounds one thread wins, and one is last.
#[test]
fn one_of_two_threads_wins_and_one_is_last(rt: HostRuntime) -> Result<(), Fail> {
    let made = Unnamed::new(rt.alloc(), 1, 200)?;
    assert_eq!(rt; rounds::<Brand, _>(&rt, made), Some(100));
    Ok(())
}

// There are two queues, 0 and 1: the end of queue 1 is given once, and there is no queue 2. Of the tasks 1 to 4 a theft takes the first, a pop the
// last.
#[test]
fn what_was_pushed_last_is_popped_and_what_was_first_is_stolen(
    rt: HostRuntime,
) -> Result<(), Fail> {
    let mut queues = Queues::<u32>::new(rt.alloc(), 2)?;
    let mut own = queues.own(1).expect(&rt, "the queue's end");
    assert!(rt; queues.own(1).is_none() && queues.own(2).is_none());
    assert!(rt; queues.theft(2)?.is_none());
    let mut theft = queues.theft(1)?.expect(&rt, "a right to steal");
    for task in 1..5u32 {
        assert_eq!(rt; own.push(task), Ok(()));
    }
    // Thefts and pops take turns up to the fourth. At the last two, a pop and a theft, the queue is empty.
    let taken = [
        theft.steal(),
        own.pop(),
        theft.steal(),
        own.pop(),
        own.pop(),
        theft.steal(),
    ];
    assert_eq!(rt; taken, [Some(1), Some(4), Some(2), Some(3), None, None]);
    Ok(())
}

// Steals until the owner is done and the queue is empty, and gives what was stolen. Whether the owner is done is read before each theft: nothing
// comes into the queue afterwards, so a theft that finds nothing then is the last one. The error is refused memory.
fn steal_all(
    rt: &impl Wait,
    alloc: Global,
    mut theft: Theft<u64>,
    done: &AtomicU64,
) -> Result<Vec<u64>, AllocError> {
    let mut stolen = Vec::new(alloc);
    for _ in rt.forever() {
        let is_over = done.load(Ordering::SeqCst) == 1;
        match theft.steal() {
            Some(task) => stolen.push(task)?,
            None if is_over => break,
            None => thread::yield_now(),
        }
    }
    Ok(stolen)
}

// The owner pushes all tasks, pops one after every third, in the end pops what is left, and sets `done` to 1. Gives what it popped, and what its
// queue had no room for. The error is refused memory.
fn push_all(alloc: Global, mut own: Own<u64>, done: &AtomicU64) -> Result<Vec<u64>, AllocError> {
    let mut kept = Vec::new(alloc);
    for task in 0..TASKS {
        // A full queue gives the task back.
        if let Err(back) = own.push(task) {
            kept.push(back)?;
        }
        if task % 3 == 0
            && let Some(popped) = own.pop()
        {
            kept.push(popped)?;
        }
    }
    for _ in 0..TASKS {
        let Some(task) = own.pop() else { break };
        kept.push(task)?;
    }
    done.store(1, Ordering::SeqCst);
    Ok(kept)
}

// What the owner of a queue kept, and what each of two other threads stole while it worked. The error is refused memory.
fn share_out(
    rt: &(impl Threads + Wait + Sync),
    alloc: Global,
    own: Own<u64>,
    thefts: (Theft<u64>, Theft<u64>),
) -> Result<[Vec<u64>; 3], AllocError> {
    let done = AtomicU64::new(0);
    let flag = &done;
    let (first, second) = thefts;
    let (kept, (one, two)) = thread::join(
        rt,
        move || push_all(alloc, own, flag),
        move || {
            thread::join(
                rt,
                move || steal_all(rt, alloc, first, flag),
                move || steal_all(rt, alloc, second, flag),
            )
        },
    );
    Ok([kept?, one?, two?])
}

// An owner and two thieves share the tasks. What the three have got, sorted, is 0, 1, 2 and so on: none is lost, and none comes out twice.
#[test]
fn each_task_comes_out_once(rt: HostRuntime) -> Result<(), Fail> {
    let mut queues = Queues::<u64>::new(rt.alloc(), 1)?;
    let own = queues.own(0).expect(&rt, "the queue's end");
    let first = queues.theft(0)?.expect(&rt, "a right to steal");
    let second = queues.theft(0)?.expect(&rt, "a right to steal");
    let mut tasks = Vec::new(rt.alloc());
    for part in share_out(&rt, rt.alloc(), own, (first, second))? {
        for task in part.iter() {
            tasks.push(*task)?;
        }
    }
    tasks.sort()?;
    assert_eq!(rt; tasks.len() as u64, TASKS);
    let mut expected = 0u64;
    for task in tasks.iter() {
        assert_eq!(rt; *task, expected);
        expected = expected.saturating_add(1);
    }
    Ok(())
}

// The second worker has the tasks 1 to 4 and the third one 9. Each takes its own last task first, and else the first task of another, the next
// worker's before the others'.
#[test]
fn a_worker_takes_its_own_tasks_and_then_those_of_the_others(rt: HostRuntime) -> Result<(), Fail> {
    let mut dealt = worker_queues::<u32>(rt.alloc(), 3)?;
    assert_eq!(rt; dealt.len(), 3);
    let mut third = dealt.pop().expect(&rt, "a worker's queue");
    let mut second = dealt.pop().expect(&rt, "a worker's queue");
    let mut first = dealt.pop().expect(&rt, "a worker's queue");
    for task in 1..5u32 {
        assert_eq!(rt; second.push(task), Ok(()));
    }
    assert_eq!(rt; third.push(9), Ok(()));
    let taken = [
        second.next(),
        first.next(),
        third.next(),
        third.next(),
        second.next(),
        first.next(),
        second.next(),
        third.next(),
    ];
    let wanted = [
        Some(4),
        Some(1),
        Some(9),
        Some(2),
        Some(3),
        None,
        None,
        None,
    ];
    assert_eq!(rt; taken, wanted);
    assert_eq!(rt; worker_queues::<u32>(rt.alloc(), 0)?.len(), 0);
    Ok(())
}

// Each task that the worker finds in its own queue or steals grows by one, until it finds none. There are `TASKS`, so the loop has turns enough.
fn grow_all(worker_queue: &mut WorkerQueue<&mut u64>) {
    for _ in 0..TASKS {
        let Some(task) = worker_queue.next() else {
            return;
        };
        *task = task.saturating_add(1);
    }
}

// Four workers' queues, the first of which has all the tasks: the other workers have to steal. A task is a reference to its number. The error is
// refused memory.
fn dealt_to_one<'t>(
    alloc: Global,
    tasks: &'t mut [u64],
) -> Result<Vec<WorkerQueue<&'t mut u64>>, AllocError> {
    let mut dealt = worker_queues(alloc, 4)?;
    for task in tasks.iter_mut() {
        if let Some(worker_queue) = dealt.get_mut(0) {
            // A task that the queue has no room for is dropped: it doesn't grow, so the test fails.
            let _full = worker_queue.push(task);
        }
    }
    Ok(dealt)
}

// Has four workers, on four threads, do all tasks: each grows by one. The error is refused memory.
fn grow_on_four<R: Threads + Sync>(
    rt: &R,
    alloc: Global,
    tasks: &mut [u64],
) -> Result<(), AllocError> {
    let mut dealt = dealt_to_one(alloc, tasks)?;
    thread::for_each_mut(
        rt,
        &mut dealt,
        4,
        &|_: usize, worker_queue: &mut WorkerQueue<&mut u64>| { grow_all(worker_queue) },
    );
    Ok(())
}

// Before, the tasks are the numbers 0, 1, 2 and so on. Each grows by one once, so they are 1, 2, 3 and so on afterwards.
#[test]
fn each_task_is_done_once_by_four_workers(rt: HostRuntime) -> Result<(), Fail> {
    let mut tasks = Vec::new(rt.alloc());
    for task in 0..TASKS {
        tasks.push(task)?;
    }
    grow_on_four(&rt, rt.alloc(), &mut tasks)?;
    let mut expected = 0u64;
    for task in tasks.iter() {
        expected = expected.saturating_add(1);
        assert_eq!(rt; *task, expected);
    }
    Ok(())
}

// A cell has two names, `cell` and `shared`, and a note remembers what was read by it. The second bind, by the other name, gives its box back, and
// both names read what the first one has put there.
#[test]
fn a_cell_is_bound_once(rt: HostRuntime) -> Result<(), Fail> {
    let alloc = rt.alloc();
    let one = Value::Number(1);
    let two = Value::Number(2);
    let cell = Cell::new(alloc)?;
    let shared = cell.share()?;
    let mut note = cell.note();
    assert_eq!(rt; cell.read(&mut note), None);
    assert!(rt; cell.bind(Box::new(alloc, one)?).is_ok());
    match shared.bind(Box::new(alloc, two)?) {
        Ok(()) => assert!(rt; false, "bound twice"),
        Err(back) => assert_eq!(rt; *back, two),
    }
    assert_eq!(rt; cell.read(&mut note), Some(&one));
    let mut other = shared.note();
    assert_eq!(rt; shared.read(&mut other), Some(&one));
    // A law: two notes of one cell that have read have read the same. Nothing runs.
    note.agree(other);
    Ok(())
}

// A thread that binds a cell has read it, and so has one that comes too late to bind it: the note that each hands in has the first value. A reader is
// a cell with a note of it.
#[test]
fn a_bind_reads(rt: HostRuntime) -> Result<(), Fail> {
    let alloc = rt.alloc();
    let cell = Cell::new(alloc)?;
    let mut reader = Reader::new(&cell);
    assert_eq!(rt; reader.read(), None);
    let mut note = cell.note();
    assert!(rt;
        cell.bind_and_note(Box::new(alloc, 1u64)?, &mut note)
            .is_ok()
    );
    assert_eq!(rt; cell.read(&mut note), Some(&1));
    let mut late = cell.note();
    assert!(rt;
        cell.bind_and_note(Box::new(alloc, 2u64)?, &mut late)
            .is_err()
    );
    assert_eq!(rt; cell.read(&mut late), Some(&1));
    assert_eq!(rt; reader.read(), Some(&1));
    Ok(())
}

// A call of `Rwait` with this delay that is made at this time, as call 1 and the first one with this argument (`nth`). None doesn't come: the site is
// built in. The error is refused memory.
fn rwait<'a>(
    answers: &'a Answers,
    delay: i64,
    made_at: u64,
) -> Result<Option<SiteCall<'a>>, AllocError> {
    let Some(site) = answers.site_named(b"Rwait") else {
        return Ok(None);
    };
    let mut args = Args::new();
    args.push(Value::Number(delay));
    let request = Request {
        number: 1,
        site,
        args,
        nth: 1,
        made_at,
    };
    Ok(Some(Scripted::new(answers).call(&request)?))
}

// Polls a call once, as the one task of this thread (`Solo`): its answer, or None while it is pending.
fn poll(solo: &Solo, call: &mut SiteCall<'_>) -> Option<Answer> {
    let mut cx = solo.begin();
    let polled = call.poll(&mut cx);
    cx.end(&polled);
    match polled {
        Poll::Ready(answer) => Some(answer),
        Poll::Pending => None,
    }
}

// Moments in the order in which they are handed in, and whether a call has an answer then that is due at 8. An earlier moment than the greatest so
// far is ignored, so the call keeps its answer at 3.
const MOMENTS: [(u64, bool); 5] = [(7, false), (6, false), (8, true), (3, true), (9, true)];

// The call is made at 5 with a delay of 3, so it is due at 8. Before that a poll finds it pending, and from then on it gives the signal.
#[test]
fn a_call_is_ready_from_its_due_time_on(rt: HostRuntime) -> Result<(), Fail> {
    let answers = Answers::builtin(rt.alloc())?;
    let solo = Solo::new(&rt, Doorbell::parking())?;
    let mut call = rwait(&answers, 3, 5)?.expect(&rt, "a call of Rwait");
    let signal = Some(Answer::Value(Value::Signal));
    assert_eq!(rt; call.due(), Due::At(8));
    assert_eq!(rt; poll(&solo, &mut call), None);
    for (moment, is_due) in MOMENTS.iter() {
        call.at(*moment);
        let polled = poll(&solo, &mut call);
        let answer = if *is_due { signal } else { None };
        assert!(rt; polled == answer && call.due() == Due::At(8), "at {moment}");
    }
    Ok(())
}

// The greatest time is 2^64 - 1. A call that is made then and due at once has its answer; one that would be due later never has.
#[test]
fn a_time_over_the_greatest_never_comes(rt: HostRuntime) -> Result<(), Fail> {
    let answers = Answers::builtin(rt.alloc())?;
    let solo = Solo::new(&rt, Doorbell::parking())?;
    let mut now = rwait(&answers, 0, u64::MAX)?.expect(&rt, "a call of Rwait");
    assert_eq!(rt; now.due(), Due::At(u64::MAX));
    assert_eq!(rt; poll(&solo, &mut now), Some(Answer::Value(Value::Signal)));
    let mut never = rwait(&answers, 1, u64::MAX)?.expect(&rt, "a call of Rwait");
    assert_eq!(rt; never.due(), Due::Never);
    assert_eq!(rt; poll(&solo, &mut never), None);
    Ok(())
}
