//! Images: what terms became by changes. They are kept so that a part which occurs often in a term is changed once. A `Change` puts something for a
//! name, settles a cell or lets time pass, in a whole term. Terms are named by their numbers in `Terms`.

ghost use Rattle.std.specs.Prelude.{◌≡◌, ◌⊎◌, ◌++◌, ◌∷◌, [], slice_get, IfSome};
ghost use Rattle.orc_search.specs.Changes.{IsIn};

use crate::change::{Change, is_same_change, mix_change};
use crate::node::mix;
use crate::places::Places;
use std::alloc::{AllocError, Global};
use std::marker::Model;

/// With so many images or more `make_room` drops them all, so that little is kept beside the terms.
const MOST: usize = 65_536;

/// A change, and a term with what it becomes by it, by their numbers.
#[derive(Clone, Copy)]
pub struct Image {
    pub change: Change,
    pub from: usize,
    pub to: usize,
}

/// Images in the order in which they were found.
pub struct Images {
    list: Vec<Image>,
    // Where the image last found of a term by a change stands. Nothing is promised of it: what is found there is compared.
    places: Places,
    alloc: Global,
}

// Written out, so that a caller's proof sees one call and not the drop of each field.
impl Drop for Images {
    fn drop(self) {
        let Images {
            list: _,
            places: _,
            alloc: _,
        } = self;
    }
}

impl Model for Images {
    ghost use Rattle.std.specs.Prelude.{List};
    ghost use Rattle.orc_search.specs.declared.images.Image.{Image};

    ghost Value = { List Image };

    ghost view = { λ i. i.list.items };
}

// The hash of a term's image by a change. By one change two terms have different ones: so, while a change is worked out, no image takes another's
// place and is then missing.
fn hash_of(change: Change, from: usize) -> u64 {
    mix(mix_change(change), from as u64)
}

impl Images {
    /// No images.
    pub fn new(alloc: Global) -> Images
        ensures { result ≡ [] }
    {
        Images {
            list: Vec::new(alloc),
            places: Places::new(alloc),
            alloc,
        }
    }

    // The image at that place, from 0; None if there is none.
    fn get(&self, place: usize) -> Option<Image>
        ensures { result ≡ slice_get self.now place }
    {
        match self.list.get(place) {
            Some(image) => Some(*image),
            None => None,
        }
    }

    // Where the image of this term by this change may stand; None if it isn't known.
    fn place_of(&self, change: Change, from: usize) -> Option<usize> {
        self.places.get(hash_of(change, from))
    }

    // Notes that the image of this term by this change is at that place. The error is refused memory.
    fn remember(&mut self, change: Change, from: usize, place: usize) -> Result<(), AllocError>
        ensures { self.new ≡ self.old }
    {
        self.places.insert(hash_of(change, from), place)
    }

    /// The number of what the term `from` becomes by a change; None if that isn't kept.
    pub fn of(&self, change: Change, from: usize) -> Option<usize>
        ensures { IfSome result (λ to. IsIn self.now change from to) }
    {
        let place = self.place_of(change, from)?;
        let image = self.get(place)?;
        // Another image may stand at that place, so the one that is found is compared.
        if image.from == from && is_same_change(image.change, change) {
            Some(image.to)
        } else {
            None
        }
    }

    /// Drops all images if there are `MOST` or more.
    pub fn make_room(&mut self)
        ensures { (self.new ≡ self.old) ⊎ (self.new ≡ []) }
    {
        if self.list.len() >= MOST {
            self.list = Vec::new(self.alloc);
            self.places = Places::new(self.alloc);
        }
    }

    /// Adds an image behind the others. The error is refused memory; it may have been added then, too.
    pub fn push(&mut self, image: Image) -> Result<(), AllocError>
        ensures { (self.new ≡ self.old) ⊎ (self.new ≡ self.old ++ image ∷ []) }
    {
        let place = self.list.len();
        self.list.push(image)?;
        self.remember(image.change, image.from, place)?;
        Ok(())
    }
}
