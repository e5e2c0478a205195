//! A list to which an equal item isn't added again, so that an item's place is its number.

ghost use Rattle.std.specs.Prelude.{◌≡◌, ◌⊎◌, ◌++◌, ◌∷◌, [], length, true, Some, slice_get, IfOk, OnOk, OnErr};
ghost use Rattle.orc_rules.specs.Timed.{IsIn};

use orc_search::places::Places;
use std::alloc::{AllocError, Global};
use std::marker::Model;

/// An item that `Once` finds by a hash, and then compares.
pub trait Hashed {
    /// A hash by which the item is looked for. Nothing is promised of it.
    fn hash(&self) -> u64;

    /// Whether the other one is equal. Only true is promised to mean it.
    fn is_same(&self, other: &Self) -> bool
        ensures { result ≡ true → self.now ≡ other.now };
}

/// Items in the order in which they were added. An item that is added again has its place again, unless another item with an equal hash came between:
/// then it is in the list twice.
pub struct Once<T> {
    // The items: each one's place here is its number.
    list: Vec<T>,
    // By a hash: the place of the item that was last added with it. Nothing is promised of it: the item that is found there is compared.
    places: Places,
}

// Written out, so that a caller's proof sees one call and not the drop of each field.
impl<T: Drop> Drop for Once<T> {
    fn drop(self) {
        let Once { list: _, places: _ } = self;
    }
}

// Contracts see a list of items, and nothing of the places.
impl<T> Model for Once<T> {
    ghost use Rattle.std.specs.Prelude.{List};

    ghost Value = { List T };

    ghost view = { λ o. o.list.items };
}

impl<T: Copy> Once<T> {
    /// The item at that place, from 0; None if there is none.
    pub fn get(&self, at: usize) -> Option<T>
        ensures { result ≡ slice_get self.now at }
    {
        match self.list.get(at) {
            Some(item) => Some(*item),
            None => None,
        }
    }
}

impl<T: Hashed + Drop> Once<T> {
    /// No items.
    pub fn new(alloc: Global) -> Once<T>
        ensures { result ≡ [] }
    {
        Once {
            list: Vec::new(alloc),
            places: Places::new(alloc),
        }
    }

    /// How many items there are.
    pub fn len(&self) -> usize
        ensures { result ≡ length self.now }
    {
        self.list.len()
    }

    /// The items in the order in which they were added.
    pub fn as_slice(&self) -> &[T]
        ensures { result.now ≡ self.now }
    {
        &self.list
    }

    // The place, from 0, of the item that was last added with this hash; None if none is known. Another item may have the same hash.
    fn place_of(&self, hash: u64) -> Option<usize> {
        self.places.get(hash)
    }

    // Notes that an item with this hash is at this place. The error is refused memory.
    fn remember(&mut self, hash: u64, place: usize) -> Result<(), AllocError>
        ensures { self.new ≡ self.old }
    {
        self.places.insert(hash, place)
    }

    // Whether an equal item is at that place. Only true is promised to mean it.
    fn stands_at(&self, place: usize, item: &T) -> bool
        ensures { result ≡ true → slice_get self.now place ≡ Some item.now }
    {
        match self.list.get(place) {
            Some(found) => found.is_same(item),
            None => false,
        }
    }

    // Adds an item behind the others, and gives its place, from 0. The error is refused memory, and then nothing changes.
    fn push(&mut self, item: T) -> Result<usize, AllocError>
        ensures place { IfOk result (λ at. at ≡ length self.old) }
        ensures added { OnOk result (self.new ≡ self.old ++ item ∷ []) }
        ensures refused { OnErr result (self.new ≡ self.old) }
    {
        let place = self.list.len();
        self.list.push(item)?;
        Ok(place)
    }

    /// The place of an item, from 0; it is added behind the others unless it is found among them. The error is refused memory. The items that were
    /// there stay, in both cases; after an error the new one may be there too.
    pub fn place(&mut self, item: T) -> Result<usize, AllocError>
        ensures there { IfOk result (λ at. slice_get self.new at ≡ Some item) }
        ensures kept { (self.new ≡ self.old) ⊎ (self.new ≡ self.old ++ item ∷ []) }
    {
        let hash = item.hash();
        if let Some(place) = self.place_of(hash) {
            if self.stands_at(place, &item) {
                return Ok(place);
            }
        }
        let place = self.push(item)?;
        self.remember(hash, place)?;
        Ok(place)
    }

    /// Adds an item behind the others, unless it is found among them. The error is refused memory. The items that were there stay, in both cases.
    #[tactic(auto, using(crate::proofs::Growing::get_in))]
    pub fn add(&mut self, item: T) -> Result<(), AllocError>
        ensures there { OnOk result (IsIn item self.new) }
        ensures kept { (self.new ≡ self.old) ⊎ (self.new ≡ self.old ++ item ∷ []) }
    {
        self.place(item)?;
        Ok(())
    }
}
