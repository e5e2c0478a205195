//! Which places of a table hold the members of a group. A *group* is what runs in one branch: a right side of `<x<`, a left side of `;`, or the whole
//! program. A *chain* is a doubly linked list of these places, so that a place is added and removed in constant time. It is proved only that a
//! listing names no place twice. Otherwise chains are hints: a wrong one costs time, nothing else. A group's *members* are the tokens, pending calls
//! and groups directly in it. Each of these has a table, and each table has chains of its own.

ghost use Rattle.std.specs.Prelude.{◌≡◌, ◌≤◌, ℕ, slice_get};
ghost use Rattle.orc_indexes.specs.Same.{weight};
ghost use Rattle.orc_indexes.specs.Same.{is_this};

use crate::memory::{push_within, reserve};
use orc_rules::limits::MOST_GROUPS;
use std::alloc::{AllocError, Global};

// A place in the chain of its group. The members of group 0, the program's own, aren't chained, since that group is never dropped.
#[derive(Clone, Copy)]
struct Link {
    // The number of the group in whose chain the place is; 0 for a place in no chain.
    group: u32,
    // The place before it in the chain, whose member was put in later; `NOWHERE` for the first.
    before: usize,
    // The place after it in the chain, whose member was put in earlier; `NOWHERE` for the last.
    after: usize,
    // Greater for a place that was put in later: ranks fall along a chain.
    rank: u64,
}

// No place. A list has no item there, so a link that leads there needs no test of its own: nothing is found and nothing written.
const NOWHERE: usize = usize::MAX;

// A place in no chain.
const ALONE: Link = Link {
    group: 0,
    before: NOWHERE,
    after: NOWHERE,
    rank: 0,
};

/// The places of each group's members in a table, the latest first. They are hints: a caller tests each member that they name, and counts them.
#[derive(Drop)]
pub struct Chains {
    // By the number of a group: the first place of its chain. It grows when a group with a greater number gets a member.
    firsts: Vec<usize>,
    // By place: its link; `ALONE` if no member of a chained group is there.
    links: Vec<Link>,
    // The greatest rank that was given out.
    rank: u64,
}

// Writes `after` into the link before this one, or, if this link is the first, as the first place of its group.
fn set_after(firsts: &mut Vec<usize>, links: &mut Vec<Link>, link: Link, after: usize) {
    match links.get_mut(link.before) {
        Some(before) => before.after = after,
        // `link.before` is `NOWHERE`: this link is the first of its chain.
        None => {
            if let Some(first) = firsts.get_mut(link.group as usize) {
                *first = after;
            }
        }
    }
}

// Writes `before` into the link that follows this one, if one does.
fn set_before(links: &mut Vec<Link>, link: Link, before: usize) {
    if let Some(after) = links.get_mut(link.after) {
        after.before = before;
    }
}

// Writes `link` as the link of a place. Where there is no such place nothing changes.
fn set_link(links: &mut Vec<Link>, place: usize, link: Link) {
    if let Some(old) = links.get_mut(place) {
        *old = link;
    }
}

// The link of a place. None where there is no such place.
#[inline(always)]
fn find_link(links: &Vec<Link>, place: usize) -> Option<Link>
    ensures { result ≡ slice_get links.now.items place }
{
    links.get(place).copied()
}

// The link of a place; `ALONE` where there is no such place.
#[inline(always)]
fn link_at(links: &Vec<Link>, place: usize) -> Link {
    match find_link(links, place) {
        Some(link) => link,
        None => ALONE,
    }
}

// The first place of the chain of the group with this number, or `NOWHERE` if the chain is empty. None for group 0, for `MOST_GROUPS` and more, and
// if memory is refused.
#[inline(always)]
fn reach_first(firsts: &mut Vec<usize>, group: u32) -> Option<usize> {
    if group == 0 {
        return None;
    }
    // No group with so great a number has a chain yet.
    if group as usize >= firsts.len() {
        grow_firsts(firsts, group as usize);
    }
    firsts.get(group as usize).copied()
}

// Gives each group up to this one that has no chain yet an empty one, if the number is below `MOST_GROUPS`. Stops early if memory is refused.
// Not inlined, since a number is seldom met for the first time.
#[cold]
#[inline(never)]
fn grow_firsts(firsts: &mut Vec<usize>, group: usize) {
    if group >= MOST_GROUPS {
        return;
    }
    for _group in firsts.len()..group + 1 {
        if reserve(firsts).is_err() {
            return;
        }
        push_within(firsts, NOWHERE);
    }
}

impl Chains {
    /// No places, and room for one. The error is refused memory.
    pub fn begin(alloc: Global) -> Result<Chains, AllocError> {
        let mut links = Vec::new(alloc);
        reserve(&mut links)?;
        Ok(Chains {
            firsts: Vec::new(alloc),
            links,
            rank: 0,
        })
    }

    /// Makes room for one more place. The error is refused memory, and then nothing changes.
    #[inline(always)]
    pub fn reserve(&mut self) -> Result<(), AllocError> {
        reserve(&mut self.links)
    }

    /// Notes that this place holds a member of this group. A new place has to be the next one behind the others, and needs room (`reserve`).
    #[inline(always)]
    pub fn put(&mut self, place: usize, group: u32) {
        // Most often a token is replaced by one of the same group. What is done otherwise isn't inlined.
        if let Some(link) = self.links.get(place)
            && link.group == group
        {
            return;
        }
        self.move_to(place, group);
    }

    // Moves a place from the chain that it is in, if any, to the front of this group's chain.
    #[inline(never)]
    fn move_to(&mut self, place: usize, group: u32) {
        // A new place, for which `reserve` has made room.
        if place == self.links.len() && place < self.links.capacity() {
            self.links.push_reserved(ALONE);
        }
        self.take(place);
        // The place that is the first of the group's chain so far, and comes to stand after this one.
        let Some(first) = reach_first(&mut self.firsts, group) else {
            // Group 0 isn't chained; for any other the place stays out of a chain, which costs time alone.
            return;
        };
        // It never saturates: no run puts in 2^64 members.
        self.rank = self.rank.saturating_add(1);
        let link = Link {
            group,
            before: NOWHERE,
            after: first,
            rank: self.rank,
        };
        // Makes it the first place of the chain, and the one before what was the first.
        set_after(&mut self.firsts, &mut self.links, link, place);
        set_before(&mut self.links, link, place);
        set_link(&mut self.links, place, link);
    }

    /// Notes that no member is at this place.
    pub fn take(&mut self, place: usize) {
        let link = link_at(&self.links, place);
        // The place is in no chain.
        if link.group == 0 {
            return;
        }
        // Its neighbours in the chain become each other's.
        set_after(&mut self.firsts, &mut self.links, link, link.after);
        set_before(&mut self.links, link, link.before);
        set_link(&mut self.links, place, ALONE);
    }

    /// Follows a `Vec::swap_remove`: the member at `place` is gone, and the one at `last` has moved to `place`. `last` may be `place` itself.
    #[inline(always)]
    pub fn swap_take(&mut self, place: usize, last: usize) {
        self.take(place);
        let link = link_at(&self.links, last);
        // The place `last` is in no chain. This is also so if `last` is `place`, which was just emptied.
        if link.group == 0 {
            return;
        }
        // The neighbours of `last` name `place` from now on.
        set_after(&mut self.firsts, &mut self.links, link, place);
        set_before(&mut self.links, link, place);
        set_link(&mut self.links, place, link);
        set_link(&mut self.links, last, ALONE);
    }

    /// Writes the places of a group's members over `places`, the latest first and each once; not all where memory is refused. They are hints.
    pub fn list(&self, group: u32, places: &mut Vec<usize>)
        ensures once { (k : ℕ) → weight (is_this k) places.new.items ≤ 1 }
    {
        places.clear();
        let mut at = match self.firsts.get(group as usize) {
            Some(first) => *first,
            // The group has no chain yet.
            None => return,
        };
        // The rank of the place before. Ranks fall along a chain: the test below makes sure of it, so that the loop ends and names no place twice.
        let mut rank = u64::MAX;
        while let Some(link) = find_link(&self.links, at) {
            if link.rank >= rank || reserve(places).is_err() {
                return;
            }
            push_within(places, at);
            rank = link.rank;
            at = link.after;
        }
    }
}
