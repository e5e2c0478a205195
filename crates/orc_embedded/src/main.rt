//! A program that runs a workflow on sites of its own: a clerk on another thread serves each call, and takes a millisecond for it.
//!
//! A program that uses the engine needs three parts of its own: how to make a call (`Office`), a call that was made (`Errand`), and the run.
#![tactic(auto)]

mod office;

use crossbeam_channel::{Sender, unbounded};
use office::{Job, Office, serve};
use orc_load::{Loaded, load};
use orc_outcome::Played;
use orc_rules::value::Value;
use orc_site::Open;
use orc_workers::{EngineFault, RunOptions, run_pool};
use std::alloc::Global;
use std::sync::Wait;
use std::sync::atomic::{AtomicU64, Ordering};
use std::thread::Threads;
use std::{io, thread};

/// The workflow asks a hotel and a hostel for a bed. The first answer gets the guest.
const WORKFLOW: &[u8] = b"val price = Hotel(2) | Hostel(2)\nprice";

/// The script: what the two services answer, and after how much logical time. The hotel is first, so the call of the hostel is cancelled.
const SERVICES: &[u8] = b"Hotel(_) = 70 after 3\nHostel(_) = 35 after 5\n";

/// How many threads run the workflow.
const WORKERS: usize = 2;

/// The most entries of the run's journal: far more than this workflow needs.
const LIMIT: u64 = 1000;

// Runs the workflow on the sites of the office and with `Open`, a gate that holds no call: another one could make a worker wait before its call. Then
// it sends the clerk home, whatever has come of the run: else the clerk would wait for calls forever. `keeps` asks for the run's journal.
fn run<R: Threads + Wait + Sync>(
    rt: &R,
    alloc: Global,
    loaded: &Loaded,
    office: &Office<'_, R>,
) -> Result<Played, EngineFault> {
    let options = RunOptions {
        workers: WORKERS,
        keeps: true,
        limit: LIMIT,
    };
    let played = run_pool(
        rt,
        alloc,
        &loaded.program,
        &loaded.answers,
        office,
        &Open,
        options,
    );
    // This fails only if the clerk is gone already.
    let _ = office.jobs.send(rt, None);
    played
}

// Runs the workflow beside its clerk, and prints what came of it. The error is that standard output takes nothing more.
fn main(rt: HostRuntime) -> io::Result<()> {
    let alloc = rt.alloc();
    // The two texts are right, so nothing but memory can be missing. What is sent by `jobs` comes out of the clerk's `inbox`.
    let (Ok(loaded), Ok((jobs, inbox))) = (
        load(alloc, WORKFLOW, SERVICES),
        unbounded::<Job, Global>(alloc),
    ) else {
        return println!(&rt; "memory was refused");
    };
    let office = Office {
        rt: &rt,
        alloc,
        answers: &loaded.answers,
        jobs: &jobs,
        cancelled: AtomicU64::new(0),
    };
    // The workflow and the clerk run side by side, each on a thread of its own.
    let (played, served) = thread::join(
        &rt,
        || run(&rt, alloc, &loaded, &office),
        || serve(&rt, &inbox),
    );
    let Ok(played) = played else {
        return println!(&rt; "the engine has failed");
    };
    // The run publishes one value, the price.
    for value in &played.published {
        if let Value::Number(price) = value {
            println!(&rt; "a bed for {price}")?;
        }
    }
    println!(&rt;
        "{served} calls were served, and {} was cancelled",
        office.cancelled.load(Ordering::SeqCst)
    )
}
