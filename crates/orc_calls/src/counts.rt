//! How many calls there were of each site with the same arguments. A *site* is a service or a built-in function that a program calls; a script is a
//! text whose lines answer the calls of some sites. `answers` is the table of sites, by their numbers: it says what answers each of them.

ghost use Rattle.std.specs.Prelude.{◌≡◌, ◌≤◌, [], length, IfOk, OnOk, OnErr};
ghost use Rattle.orc_calls.specs.Counting.{nth_in, CountsOne, CountsCall, NextFound, NextNth};

use crate::bare::BareCounts;
use crate::key::Key;
use orc_rules::answers::Answers;
use orc_rules::value::{Args, Found};
use std::alloc::{AllocError, Global};
use std::collections::HashMap;
use std::hash::{BuildHasherDefault, FoldHasher};
use std::marker::Model;

/// How many calls there were of each site with the same arguments. Only the calls of sites that scripts answer are counted, since no other site's
/// answers depend on it (`AreCounted`).
#[derive(Drop)]
pub struct Counts {
    // The counts of the calls without arguments, for which nothing has to be hashed.
    bare: BareCounts,
    // The calls with arguments. The key is the site with its arguments (`Key`), and the value is which such call is the next one, from 1; 1, if the
    // key isn't there.
    next: HashMap<Vec<u64>, u64, BuildHasherDefault<FoldHasher>>,
    // Where memory comes from.
    alloc: Global,
}

// Contracts see the keys, each with its next call; that is 1 or more, also for a key that isn't there.
impl Model for Counts {
    ghost use Rattle.std.specs.Prelude.{ℕ, ◌++◌, List, map};
    ghost use Rattle.orc_calls.specs.Counting.{bare_entries, entry_of, AreFromOne, HasNoBare};

    ghost Value = { List (List ℕ × ℕ) };

    ghost view = { λ c. bare_entries 0 c.bare ++ map entry_of c.next.entries };

    ghost invariant = { λ c. AreFromOne (map entry_of c.next.entries) × HasNoBare (map entry_of c.next.entries) };
}

/// The next call of a site with some arguments.
#[derive(Clone, Copy)]
pub struct NextCall {
    /// Which call of the site with these arguments it is, from 1. If no script answers the site it is always 1.
    pub nth: u64,
    /// The table's answer to it and its delay, or that there will be none.
    pub found: Found,
}

impl Counts {
    /// Counts in which no call is counted yet.
    pub fn new(alloc: Global) -> Counts
        ensures { result ≡ [] }
    {
        Counts {
            bare: BareCounts::new(alloc),
            next: HashMap::new(alloc),
            alloc,
        }
    }

    /// A copy of these counts. The error is refused memory.
    pub fn copy(&self) -> Result<Counts, AllocError>
        ensures { IfOk result (λ c. c ≡ self.now) }
    {
        let bare = self.bare.copy(self.alloc)?;
        let next = self.next.clone()?;
        Ok(Counts {
            bare,
            next,
            alloc: self.alloc,
        })
    }

    // Which call without arguments of the site with this number the next one is, from 1.
    #[inline(always)]
    fn nth_bare(&self, site: u32) -> u64
        ensures nth { result ≡ nth_in self.now site [] }
        ensures from_1 { 1 ≤ result }
    {
        let next = self.bare.get(site);
        // 0: no such call was counted.
        if next == 0 { 1 } else { next }
    }

    // Which call of a site with these arguments, of which there are some, the next one is, from 1. `site` is the site's number.
    // Not inlined: a caller would clear the key's 272 bytes at each call of a site, counted or not.
    #[inline(never)]
    fn nth_by_key(&self, site: u32, args: &Args) -> u64
        requires { 1 ≤ length args.now }
        ensures nth { result ≡ nth_in self.now site args.now }
        ensures from_1 { 1 ≤ result }
    {
        let mut key = Key::new();
        key.write(site, args);
        match self.next.get(key.as_slice()) {
            Some(next) => *next,
            None => 1,
        }
    }

    // Which call of the site with this number and these arguments the next one is, from 1; 1 for a site whose calls aren't counted.
    #[inline(always)]
    fn nth(&self, site: u32, args: &Args) -> u64
        ensures nth { result ≡ nth_in self.now site args.now }
        ensures from_1 { 1 ≤ result }
    {
        if args.as_slice().is_empty() {
            self.nth_bare(site)
        } else {
            self.nth_by_key(site, args)
        }
    }

    /// The next call of the site with this number and these arguments: which one it is and what the table of sites says of it. The counts are looked
    /// into once where a script answers the site, and else not at all. The clauses hold where the counts are those of the calls that were made
    /// (`AreCounted`).
    #[inline(always)]
    pub fn next_call(&self, answers: &Answers, site: u32, args: &Args) -> NextCall
        ensures nth { NextNth answers.now.sites self.now site args.now result.nth }
        ensures from_1 { 1 ≤ result.nth }
        ensures found { NextFound answers.now.sites self.now site args.now result.found }
    {
        let nth = if answers.is_scripted(site) {
            self.nth(site, args)
        } else {
            1
        };
        NextCall {
            nth,
            found: answers.find(site, args, nth),
        }
    }

    /// Counts a call of the site with this number and these arguments if a script answers the site; else nothing changes, since no other site's
    /// answers depend on how many calls there were. The error is refused memory, and then nothing changes either.
    #[inline(always)]
    pub fn add(&mut self, answers: &Answers, site: u32, args: &Args) -> Result<(), AllocError>
        ensures added { OnOk result (CountsCall answers.now.sites site args.now self.old self.new) }
        ensures refused { OnErr result (self.new ≡ self.old) }
    {
        if answers.is_scripted(site) {
            self.add_one(site, args)?;
        }
        Ok(())
    }

    // Counts one more call of the site with this number and these arguments. The error is refused memory, and then nothing changes.
    fn add_one(&mut self, site: u32, args: &Args) -> Result<(), AllocError>
        ensures added { OnOk result (CountsOne site args.now self.old self.new) }
        ensures refused { OnErr result (self.new ≡ self.old) }
    {
        if args.as_slice().is_empty() {
            self.add_bare(site)
        } else {
            self.add_by_key(site, args)
        }
    }

    // Counts one more call without arguments of the site with this number. The error is refused memory, and then nothing changes.
    fn add_bare(&mut self, site: u32) -> Result<(), AllocError>
        ensures added { OnOk result (CountsOne site [] self.old self.new) }
        ensures refused { OnErr result (self.new ≡ self.old) }
    {
        let Some(more) = self.nth_bare(site).checked_add(1) else {
            // No memory holds 2^64 calls.
            return Err(AllocError);
        };
        self.bare.set(site, more)?;
        Ok(())
    }

    // Counts one more call of the site with this number and these arguments, of which there are some. The error is refused memory, and then nothing
    // changes.
    #[inline(never)]
    fn add_by_key(&mut self, site: u32, args: &Args) -> Result<(), AllocError>
        requires { 1 ≤ length args.now }
        ensures added { OnOk result (CountsOne site args.now self.old self.new) }
        ensures refused { OnErr result (self.new ≡ self.old) }
    {
        let mut key = Key::new();
        key.write(site, args);
        if let Some(next) = self.next.get_mut(key.as_slice()) {
            let Some(more) = next.checked_add(1) else {
                // No memory holds 2^64 calls.
                return Err(AllocError);
            };
            *next = more;
            return Ok(());
        }
        // The table keeps the key as a list of its own.
        let words = Vec::from_slice(self.alloc, key.as_slice())?;
        // This was the first such call, so the next one is the second.
        self.next.insert(words, 2)?;
        Ok(())
    }
}
