//! A table of indices of a list, four bytes each, found by the hashes of the texts at these indices.
ghost use Rattle.std.specs.Prelude.{◌≡◌, ◌≢◌, ◌<◌, ◌≤◌, ◌^◌, ℕ, true, false, length, set, IfOk, IfSome, IfNone};
ghost use Rattle.hash_index.specs.Lists.{has_text_at};
ghost use Rattle.hash_index.specs.Slots as spec;
ghost use Rattle.hash_index.specs.Slots.{slot_of, word_at, capacity_with, AreTaken, IsFirstVacant, IsInSlots, Misses};

use crate::text_list::{TextList, has_text_at};
use std::alloc::{AllocError, Global};
use std::marker::Model;

/// The number of slots that a hash has, next to each other: 32 bytes.
const BUCKET: usize = 8;

/// The word of a vacant slot.
const VACANT: u32 = 0;

/// The word that is read past the end of the table.
const NO_SLOT: u32 = u32::MAX;

/// The number of different indices that a slot can store.
pub const INDEX_LIMIT: usize = 1 << 31;

/// A table of slots. A hash has a bucket of them, and takes the first vacant one, for good.
///
/// A taken slot stores the exclusive or of an index and the mark of its hash. If a search for another hash reads it, the result is
/// mostly past the end of the list, so no text is compared in vain.
#[derive(Debug, Drop)]
pub struct Slots {
    numbers: Vec<u32>,
}

// Contracts see the numbers in the table.
impl Model for Slots {
    ghost use Rattle.std.specs.Prelude.{List, ℕ};

    ghost Value = { List ℕ };

    ghost view = { λ slots. slots.numbers.items };
}

/// The result of a search in the slots.
pub enum Search {
    /// The text is at this index.
    Found(usize),
    /// None of the hash's slots leads to the text, and this is the first that is vacant.
    Vacant(usize),
    /// None leads to the text, and all slots of the hash are taken.
    Full,
}

impl Slots {
    /// Makes a table without slots. It takes no memory.
    pub fn none(alloc: Global) -> Slots {
        Slots {
            numbers: Vec::new(alloc),
        }
    }

    /// Makes vacant slots for `count` texts.
    pub fn new(alloc: Global, count: usize) -> Result<Slots, AllocError>
        ensures { IfOk result (λ slots. count ≤ capacity_with (length slots)) }
    {
        // A third of the slots stay vacant, so all slots of a hash are rarely taken.
        let needed = count.saturating_add(count.div_ceil(2)).max(BUCKET);
        let Some(length) = needed.checked_next_power_of_two() else {
            return Err(AllocError);
        };
        Ok(Slots {
            numbers: vec![in alloc; VACANT; length]?,
        })
    }

    /// Returns the number of texts for which there are slots: two thirds of them.
    pub fn capacity(&self) -> usize
        ensures { result ≡ capacity_with (length self.now) }
    {
        let count = self.numbers.len();
        count - count.div_ceil(3)
    }

    /// Returns the allocator that the memory of the slots comes from.
    pub fn allocator(&self) -> Global {
        *self.numbers.allocator()
    }

    /// Looks for the text, which has this hash, in the slots of the hash.
    #[tactic(auto, using(crate::proofs::Taking::misses_to))]
    pub fn search<L: TextList>(&self, list: &L, text: &str, hash: u64) -> Search
        ensures found { (index : ℕ) → result ≡ Search.Found index → has_text_at (L.texts list.now) index text.now ≡ true }
        ensures vacant { (slot : ℕ) → result ≡ Search.Vacant slot → IsFirstVacant self.now hash slot × Misses (λ index. has_text_at (L.texts list.now) index text.now) self.now hash }
        ensures full { result ≡ Search.Full → AreTaken self.now hash 8 × Misses (λ index. has_text_at (L.texts list.now) index text.now) self.now hash }
    {
        for number in 0..BUCKET {
            let word = self.word(hash, number);
            if word == VACANT {
                return Search::Vacant(self.slot(hash, number));
            }
            let index = index_in(hash, word);
            if has_text_at(list, index, text) {
                return Search::Found(index);
            }
        }
        Search::Full
    }

    /// Returns the first index that a slot of the hash leads to and that a list for these slots can have, or `usize::MAX` if there
    /// is none.
    pub fn guess(&self, hash: u64) -> usize {
        let limit = self.capacity();
        for number in 0..BUCKET {
            let word = self.word(hash, number);
            if word == VACANT {
                return usize::MAX;
            }
            let index = index_in(hash, word);
            if index < limit {
                return index;
            }
        }
        usize::MAX
    }

    /// Whether a slot of the hash has the index.
    pub fn has(&self, hash: u64, index: usize) -> bool
        requires { index < 2 ^ 31 }
        ensures { result ≡ false → IsInSlots self.now hash index → ⊥ }
    {
        let word = word_of(hash, index);
        for number in 0..BUCKET {
            if self.word(hash, number) == word {
                return true;
            }
        }
        false
    }

    /// Puts the index into the first vacant slot of the hash, and returns whether there was one.
    pub fn put(&mut self, hash: u64, index: usize) -> bool
        requires { index < 2 ^ 31 }
        ensures own { result ≡ true → IsInSlots self.new hash index }
        ensures full { result ≡ false → AreTaken self.new hash 8 }
        ensures others { (other k : ℕ) → IsInSlots self.old other k → IsInSlots self.new other k }
        ensures taken { (other : ℕ) → AreTaken self.old other 8 → AreTaken self.new other 8 }
    {
        match self.first_vacant(hash) {
            Some(slot) => {
                self.put_at(slot, hash, index);
                true
            }
            None => false,
        }
    }

    /// Returns the first vacant slot of the hash, or `None` if all of its slots are taken.
    fn first_vacant(&self, hash: u64) -> Option<usize>
        ensures vacant { IfSome result (λ slot. IsFirstVacant self.now hash slot) }
        ensures full { IfNone result (AreTaken self.now hash 8) }
    {
        for number in 0..BUCKET {
            if self.word(hash, number) == VACANT {
                return Some(self.slot(hash, number));
            }
        }
        None
    }

    /// Puts the index into this slot, which is the first vacant one of the hash.
    pub fn put_at(&mut self, slot: usize, hash: u64, index: usize)
        requires few { index < 2 ^ 31 }
        requires vacant { IsFirstVacant self.old hash slot }
        ensures length { length self.new ≡ length self.old }
        ensures own { IsInSlots self.new hash index }
        ensures others { (other k : ℕ) → IsInSlots self.old other k → IsInSlots self.new other k }
        ensures taken { (other : ℕ) → AreTaken self.old other 8 → AreTaken self.new other 8 }
    {
        let word = word_of(hash, index);
        // Always true, since the slot is one of the table.
        if slot < self.numbers.len() {
            self.numbers[slot] = word;
        }
    }

    /// Returns the word in a slot of the hash, by the slot's number in the bucket.
    fn word(&self, hash: u64, number: usize) -> u32
        ensures { result ≡ word_at self.now hash number }
    {
        match self.numbers.get(self.slot(hash, number)) {
            Some(word) => *word,
            None => NO_SLOT,
        }
    }

    /// Returns the position in the table of a hash's slot.
    fn slot(&self, hash: u64, number: usize) -> usize
        ensures { result ≡ slot_of self.now hash number }
    {
        hash as usize & self.numbers.len().saturating_sub(1) ^ number
    }
}

/// Returns the word in a slot of the hash that has this index.
fn word_of(hash: u64, index: usize) -> u32
    requires { index < 2 ^ 31 }
    ensures { result ≡ spec.word_of hash index }
{
    (mark_of(hash) ^ index) as u32 + 1
}

/// Returns the index for the word of a taken slot of the hash.
fn index_in(hash: u64, word: u32) -> usize
    requires { word ≢ 0 }
    ensures { (index : ℕ) → word ≡ spec.word_of hash index → result ≡ index }
{
    mark_of(hash) ^ (word - 1) as usize
}

/// Returns the upper bits of a hash. The lower ones choose the bucket.
fn mark_of(hash: u64) -> usize
    ensures value { result ≡ spec.mark_of hash }
    ensures few { result < 2 ^ 31 }
{
    (hash >> 33) as usize
}
