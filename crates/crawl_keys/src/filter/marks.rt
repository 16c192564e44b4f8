//! A table that quickly rules out most texts that are not suffixes of the filter.
ghost use Rattle.std.specs.Prelude.{◌≡◌, ℕ, List, true};
ghost use Rattle.crawl_keys.specs.Marks.{is_marked};

use crate::assignment::hash;
use std::alloc::{AllocError, Global};
use std::marker::Model;

/// The number of cells per marked text. With 16, about one in sixteen of the other texts has a cell that is marked.
const PLACES_A_TEXT: usize = 16;

/// Marks of texts, each in the cell that the text's hash selects.
#[derive(Drop)]
pub(super) struct Marks {
    places: Vec<bool>,
}

// In contracts, marks are the table, which has at least one cell.
impl Model for Marks {
    ghost use Rattle.std.specs.Prelude.{Bool, List, length, ◌<◌};

    ghost Value = { List Bool };

    ghost view = { λ marks. marks.places.items };

    ghost invariant = { λ marks. 0 < length marks.places.items };
}

impl Marks {
    /// A table for `count` texts, with no text marked.
    pub(super) fn new(alloc: Global, count: usize) -> Result<Marks, AllocError> {
        // An odd number: with an even one, the hashes of similar texts gather in few cells.
        let places = count.saturating_mul(PLACES_A_TEXT).saturating_add(1);
        Ok(Marks {
            places: vec![in alloc; false; places]?,
        })
    }

    /// Marks a text. Texts that were marked stay marked.
    pub(super) fn mark(&mut self, text: &str)
        ensures own { is_marked self.new text.now ≡ true }
        ensures others { (other : List ℕ) → is_marked self.old other ≡ true → is_marked self.new other ≡ true }
    {
        let place = hash(text) as usize % self.places.len();
        self.places[place] = true;
    }

    /// Whether the text's cell is marked, by this text or by another one.
    pub(super) fn has(&self, text: &str) -> bool
        ensures { result ≡ is_marked self.now text.now }
    {
        let index = hash(text) as usize % self.places.len();
        self.places[index]
    }
}
