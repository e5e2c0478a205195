//! Runs programs on many workers again and again, and writes how many of the runs were *odd*: ended otherwise than they have to, or left a journal
//! that the check doesn't accept. `checks/storms` reads that.
//!
//!     orc_stress [ROUNDS]                     runs each program ROUNDS times on 2, 4 and 16 workers, and some with calls that are held
//!     orc_stress NAME [WORKERS [ROUNDS]]      runs one program on WORKERS workers, ROUNDS times; NAME may also be `due`, `asks` or `nap`
//!
//! The first ROUNDS is 3 by default, and behind a NAME both numbers are 1. So are they there if they can't be read. If the first word is neither a
//! number nor a NAME, the program writes the names and ends with status 2.
//!
//! A `Storm` is a program with how its runs have to end. `Played` is a run that has ended: how (`summary`), what it published, and its journal. A
//! run's *gate* may hold each call before its site makes it.
#![tactic(auto)]

mod gates;
mod storm;

use gates::{Sleepy, Slow, Turnstile};
use orc_load::Loaded;
use orc_outcome::Played;
use orc_site::{Gate, Scripted};
use orc_workers::EngineFault;
use std::alloc::Global;
use std::process::ExitCode;
use std::sync::Wait;
use std::thread::Threads;
use std::time::Clock;
use std::{env, io};
use storm::{ALONE, ASKS, NAP, STORMS, Storm, run};

/// How often each program is run if no argument says it.
const ROUNDS: u32 = 3;

/// The status of a command line whose first word is neither a number of rounds nor a program's name.
const UNKNOWN: u8 = 2;

// Whether a run of this program (`storm`) ended as it has to, and the check accepts its journal. False if the engine gave a fault instead of a run.
fn is_right(alloc: Global, storm: &Storm, played: Result<Played, EngineFault>) -> bool {
    match played {
        Ok(played) => storm.is_right(&played) && storm.is_accepted(alloc, &played),
        Err(_) => false,
    }
}

// Runs a program on `workers` workers up to `limit` entries, with sites that answer as the table says. The error is the engine's.
fn run_scripted<R: Threads + Wait + Sync, G: Gate + Sync>(
    rt: &R,
    alloc: Global,
    loaded: &Loaded,
    gate: &G,
    workers: usize,
    limit: u64,
) -> Result<Played, EngineFault> {
    let sites = Scripted::new(&loaded.answers);
    run(rt, alloc, loaded, &sites, gate, workers, limit)
}

// How many of `rounds` runs of a program on `workers` workers are odd; all if the program can't be loaded. The gate `Slow` holds no call, but doesn't
// say so: then the engine asks it for each call, and runs the program on its workers.
fn count_odd<R: Threads + Wait + Sync>(
    rt: &R,
    alloc: Global,
    storm: &Storm,
    workers: usize,
    rounds: u32,
) -> u32 {
    let Ok(loaded) = storm.load(alloc) else {
        return rounds;
    };
    let mut odd = 0u32;
    for _ in 0..rounds {
        let played = run_scripted(rt, alloc, &loaded, &Slow, workers, storm.limit);
        if !is_right(alloc, storm, played) {
            odd = odd.saturating_add(1);
        }
    }
    odd
}

// How many of `rounds` runs are odd in which a gate holds each call until `workers` calls are in it. A run in which a call gave up waiting is odd,
// too. All are odd if the program can't be loaded.
fn count_held<R: Threads + Wait + Sync>(
    rt: &R,
    alloc: Global,
    storm: &Storm,
    workers: usize,
    rounds: u32,
) -> u32 {
    let Ok(loaded) = storm.load(alloc) else {
        return rounds;
    };
    let mut odd = 0u32;
    for _ in 0..rounds {
        let gate = Turnstile::new(workers as u64);
        let played = run_scripted(rt, alloc, &loaded, &gate, workers, storm.limit);
        if !is_right(alloc, storm, played) || !gate.held_all() {
            odd = odd.saturating_add(1);
        }
    }
    odd
}

// Runs every program of `STORMS` `rounds` times on each number of workers, and writes how many of the runs are odd: ended otherwise than they have
// to, or left a journal that the check doesn't accept. Then it runs four programs `rounds` times on as many workers as they make calls, with a gate
// that holds each call until all have come.
fn run_all<R: Threads + Wait + Sync + Print>(rt: &R, alloc: Global, rounds: u32) -> io::Result<()> {
    for storm in &STORMS {
        for workers in [2, 4, 16] {
            let odd = count_odd(rt, alloc, storm, workers, rounds);
            println!(rt;
                "{} on {workers} workers, {rounds} runs: {odd} odd",
                storm.name
            )?;
        }
    }
    // Numbers of workers, and programs that make as many calls in parallel. Each worker has to make one of them while the gate holds the others.
    let held = [
        (2, b"Add(1, 2) | Add(3, 4)".as_slice()),
        (
            4,
            b"Add(1, 2) | Add(3, 4) | (Add(5, 6) | Add(7, 8))".as_slice(),
        ),
        (
            8,
            b"(Add(1, 2) | Add(3, 4) | (Add(5, 6) | Add(7, 8))) | ((Add(1, 2) | Add(3, 4)) | (Add(5, 6) | Add(7, 8)))".as_slice(),
        ),
        (
            16,
            b"def four(n) = Add(n, 1) | Add(n, 2) | (Add(n, 3) | Add(n, 4))\nfour(0) | four(4) | (four(8) | four(12))".as_slice(),
        ),
    ];
    for (workers, source) in held {
        let odd = count_held(rt, alloc, &Storm::held(source, workers), workers, rounds);
        println!(rt; "held on {workers} workers, {rounds} runs: {odd} odd")?;
    }
    Ok(())
}

// Writes how a run of this program (`storm`) ended, whether it ended as it has to, and whether the check accepts its journal. It checks twice, since
// `checks/memory` may refuse memory for the first check.
fn tell<R: Print>(
    rt: &R,
    alloc: Global,
    storm: &Storm,
    played: Result<Played, EngineFault>,
) -> io::Result<()> {
    match played {
        Ok(played) => {
            let is_accepted = storm.is_accepted(alloc, &played)
                || storm.is_accepted(alloc, &played);
            println!(rt;
                "{:?}, as it has to: {}, accepted: {is_accepted}",
                played.summary.end,
                storm.is_right(&played)
            )
        }
        Err(fault) => println!(rt; "fault {fault:?}"),
    }
}

// How many microseconds each call of the program's site `Ask` sleeps: a millisecond in `asks`, whose calls can sleep beside each other, and a second
// in `nap`, during which `checks/storms` measures what idle workers cost. None if the program calls no site that sleeps.
fn sleep_of(storm: &Storm) -> Option<u64> {
    if storm.name == ASKS.name {
        Some(1_000)
    } else if storm.name == NAP.name {
        Some(1_000_000)
    } else {
        None
    }
}

// Runs one program `rounds` times on `workers` workers, and writes how each run ended. A program that isn't loaded was refused memory: its texts are
// right.
fn run_one<R: Threads + Wait + Sync + Print + Clock>(
    rt: &R,
    alloc: Global,
    storm: &Storm,
    workers: usize,
    rounds: u32,
) -> io::Result<()> {
    for _ in 0..rounds {
        let Ok(loaded) = storm.load(alloc) else {
            println!(rt; "fault Memory")?;
            continue;
        };
        let played = match sleep_of(storm) {
            Some(sleep) => {
                let sites = Sleepy::new(rt, &loaded.answers, sleep);
                run(rt, alloc, &loaded, &sites, &Slow, workers, storm.limit)
            }
            None => run_scripted(rt, alloc, &loaded, &Slow, workers, storm.limit),
        };
        tell(rt, alloc, storm, played)?;
    }
    Ok(())
}

// The program with this name, of those in `STORMS` and `ALONE`. None if no program has this name.
fn storm_named(name: &str) -> Option<Storm> {
    for storm in &STORMS {
        if storm.name == name {
            return Some(*storm);
        }
    }
    for storm in &ALONE {
        if storm.name == name {
            return Some(*storm);
        }
    }
    None
}

// Writes to standard error that `word` is no number and names no program, and which names there are.
fn tell_names<R: Eprint>(rt: &R, alloc: Global, word: &str) -> io::Result<()> {
    let mut names = String::new(alloc);
    for storm in &STORMS {
        names.push(' ')?;
        names.push_str(storm.name)?;
    }
    for storm in &ALONE {
        names.push(' ')?;
        names.push_str(storm.name)?;
    }
    eprintln!(rt; "orc_stress: {word} is no number of rounds, and none of{names}")
}

// The number in the word at this place, from 0, the program's own name; `otherwise` if there is no such word or it is no number.
fn number_of(words: &[String], place: usize, otherwise: u32) -> u32 {
    match words.get(place) {
        Some(word) => word.parse::<u32>().unwrap_or(otherwise),
        None => otherwise,
    }
}

// Does what the words of the command line say, and gives status 0, or `UNKNOWN` if the first word is no program's name and no number.
fn main(rt: HostRuntime) -> io::Result<ExitCode> {
    let alloc = rt.alloc();
    let words = env::args(&rt)?.collect::<Vec<String>>(alloc)?;
    // Word 0 is the program's own name. Word 1 is the name of a program to run, or a number of rounds.
    let Some(word) = words.get(1) else {
        run_all(&rt, alloc, ROUNDS)?;
        return Ok(ExitCode::SUCCESS);
    };
    if let Some(storm) = storm_named(word.as_str()) {
        // Word 2 is the number of workers, and word 3 how often to run; each is 1 if it is missing or no number.
        let workers = number_of(words.as_slice(), 2, 1) as usize;
        let rounds = number_of(words.as_slice(), 3, 1);
        run_one(&rt, alloc, &storm, workers, rounds)?;
        return Ok(ExitCode::SUCCESS);
    }
    match word.parse::<u32>() {
        Ok(rounds) => {
            run_all(&rt, alloc, rounds)?;
            Ok(ExitCode::SUCCESS)
        }
        Err(_) => {
            tell_names(&rt, alloc, word.as_str())?;
            Ok(ExitCode::from(UNKNOWN))
        }
    }
}
