//! Lists of names that are found by their text.

ghost use Rattle.std.specs.Prelude.{◌≡◌, ◌-◌, ◌++◌, ◌∷◌, [], ℕ, List, map, length, take, bytes_eq, slice_get, option_map, OnOk, OnErr};
ghost use Rattle.std.specs.HashMap.{get_by};
ghost use Rattle.orc_syntax.specs.Ast.{text_of};
ghost use Rattle.orc_scope.specs.Scope.{position};
ghost use Rattle.orc_scope.specs.Names.{late};
ghost use Rattle.orc_scope.specs.declared.names.TheConstants.{EARLY};

use std::alloc::{AllocError, Global};
use std::collections::HashMap;
use std::marker::Model;

// In contracts a `Names` is the list of its texts, and `position` is the first place of a text in a list.

/// So many names at the front are compared one by one: most scopes have no more, and a hash takes longer.
const EARLY: usize = 8;

/// Names in their order. A name is found by its text, and the time that this takes doesn't grow with their number.
pub struct Names<'a> {
    /// All names. One that comes more than once has its place where it comes first.
    texts: Vec<&'a [u8]>,
    /// The places of the names that aren't among the first `EARLY`.
    places: HashMap<&'a [u8], usize>,
}

// Written out, so that a caller's proof sees one call and not the drop of each field. In the pattern `_` drops a field.
impl Drop for Names<'_> {
    fn drop(self) {
        let Names {
            texts: _,
            places: _,
        } = self;
    }
}

// Contracts see the list of the names' texts.
impl<'a> Model for Names<'a> {
    ghost Value = { List (List ℕ) };

    ghost view = { λ n. map text_of n.texts.items };

    // The table has the names whose first place isn't among the first `EARLY`, each with that place, and no others.
    ghost invariant = { λ n. (text : List ℕ) → get_by (λ k. bytes_eq text k.now) n.places ≡ late EARLY (position (map text_of n.texts.items) text) };
}

// Whether two names are the same. They are compared from the end: names that begin alike are many.
#[inline(always)]
#[tactic(auto, using(crate::proofs::Early::all_dropped, crate::proofs::Early::one_more, crate::proofs::Early::same_bytes))]
fn is_same(name: &[u8], text: &[u8]) -> bool
    ensures { result ≡ bytes_eq name.now text.now }
{
    if name.len() != text.len() {
        return false;
    }
    let mut at = name.len();
    while at > 0 {
        at -= 1;
        if name[at] != text[at] {
            return false;
        }
    }
    true
}

// The place of a name among these names, from 0: the first one. None if the name isn't among them.
#[inline(always)]
#[tactic(auto, using(crate::proofs::Early::place_here, crate::proofs::Early::place_later, crate::proofs::Early::place_nowhere))]
fn place_among(names: &[&[u8]], text: &[u8]) -> Option<usize>
    ensures { result ≡ position (map text_of names.now) text.now }
{
    let mut at = 0;
    while at < names.len() {
        if is_same(names[at], text) {
            return Some(at);
        }
        at += 1;
    }
    None
}

impl<'a> Names<'a> {
    /// No names.
    pub fn new(alloc: Global) -> Names<'a>
        ensures { result ≡ [] }
    {
        Names {
            texts: Vec::new(alloc),
            places: HashMap::new(alloc),
        }
    }

    /// How many names there are.
    pub fn len(&self) -> usize
        ensures { result ≡ length self.now }
    {
        self.texts.len()
    }

    /// The place of a name, from 0: the first one. None if it isn't there.
    // Inlined, with what it calls: a look-up among few names takes less than a call.
    #[inline(always)]
    #[tactic(auto, using(crate::proofs::Early::found_early, crate::proofs::Early::found_late, crate::proofs::Early::found_nowhere))]
    pub fn find(&self, text: &[u8]) -> Option<usize>
        ensures { result ≡ position self.now text.now }
    {
        // So many names at the front aren't in the table, and are compared one by one.
        let early = self.texts.len().min(EARLY);
        match place_among(&self.texts[..early], text) {
            Some(at) => Some(at),
            None if self.texts.len() > EARLY => self.places.get(&text).copied(),
            None => None,
        }
    }

    /// The name at a place, from 0. None if there are no more names than that.
    pub fn get(&self, place: usize) -> Option<&'a [u8]>
        ensures { option_map (λ n. n.now) result ≡ slice_get self.now place }
    {
        self.texts.get(place).copied()
    }

    /// Adds a name at the end. The error is refused memory, and then nothing changes.
    pub fn push(&mut self, text: &'a [u8]) -> Result<(), AllocError>
        ensures added { OnOk result (self.new ≡ self.old ++ text.now ∷ []) }
        ensures refused { OnErr result (self.new ≡ self.old) }
    {
        let at = self.texts.len();
        // Room first: once the table has the place, nothing may be refused.
        self.texts.reserve(1)?;
        if at >= EARLY && self.find(text).is_none() {
            self.places.insert(text, at)?;
        }
        self.texts.push(text)?;
        Ok(())
    }

    // Removes the last name, if there is one.
    fn pop(&mut self)
        ensures { self.new ≡ take (length self.old - 1) self.old }
    {
        let Some(text) = self.texts.pop() else {
            return;
        };
        // The table has another place if the name came earlier too, and that one stays.
        let at = self.texts.len();
        if at >= EARLY && self.places.get(&text).copied() == Some(at) {
            self.places.remove(&text);
        }
    }

    /// Keeps the first `len` names, and removes the others. If there are no more, all stay.
    // Inlined, since mostly no name goes.
    #[inline(always)]
    pub fn truncate(&mut self, len: usize)
        ensures { self.new ≡ take len self.old }
    {
        // One by one: each name that goes may have to leave the table too.
        while self.texts.len() > len {
            self.pop();
        }
    }
}
