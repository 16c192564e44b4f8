//! The hash index: finds a text's position in a list that its caller keeps.
ghost use Rattle.std.specs.Prelude.{◌≡◌, ◌<◌, ◌≤◌, ◌^◌, ◌∷◌, ◌++◌, ℕ, List, [], Some, None, true, false, length, IfOk, bytes_eq};
ghost use Rattle.hash_index.specs.Lists.{index_of};
ghost use Rattle.hash_index.specs.Index.{IsKept, IsIndexOf, with_slots, capacity_of};

use crate::keyed::Keyed;
use crate::overflow::Overflow;
use crate::slots::{INDEX_LIMIT, Search, Slots};
use crate::text_list::TextList;
use std::alloc::{AllocError, Global};

/// The least number of texts for which slots are made.
const FIRST_TEXTS: usize = 16;

/// Maps each text of a list to its index. The caller keeps the list and lends it to each call; no text is in it twice.
///
/// A search looks at the slots of the text's hash, which are next to each other, and mostly at one text. The result does not depend
/// on the hash function: it is always the index that the text has in the list. The list has at most 2^31 texts, and the index takes
/// some 6 to 12 bytes for each.
#[derive(Debug, Drop)]
pub struct HashIndex {
    pub(crate) slots: Slots,
    pub(crate) overflow: Overflow,
}

impl HashIndex {
    /// Makes the index of an empty list. It takes no memory.
    pub fn new(alloc: Global) -> HashIndex {
        HashIndex {
            slots: Slots::none(alloc),
            overflow: Overflow::new(alloc),
        }
    }

    /// Makes the index of an empty list, with slots for `count` texts. It allocates no slots until there are more texts than that.
    pub fn with_capacity(alloc: Global, count: usize) -> Result<HashIndex, AllocError>
        ensures { IfOk result (λ index. count ≤ capacity_of index) }
    {
        Ok(HashIndex {
            slots: Slots::new(alloc, count)?,
            overflow: Overflow::new(alloc),
        })
    }

    /// Returns the number of texts for which there are slots.
    pub fn capacity(&self) -> usize
        ensures { result ≡ capacity_of self.now }
    {
        self.slots.capacity()
    }

    /// Returns an index at which a text with this hash may be: the first that its slots name. The list is not read, so the text at
    /// that index may be another. A caller that looks for many texts can read the texts at these indices first, so that all reads
    /// of memory wait at the same time.
    pub fn guess(&self, hash: u64) -> usize {
        self.slots.guess(hash)
    }

    /// Returns the index of the key's text in the list, or `None` if it is not there.
    pub fn find<L: TextList, K: Keyed>(&self, list: &L, key: &K) -> Option<usize>
        requires index { IsIndexOf L.hash (L.texts list.now) self.now }
        requires hash { K.hash (K.text key.now) ≡ L.hash (K.text key.now) }
        ensures { result ≡ index_of (L.texts list.now) (K.text key.now) }
    {
        self.find_text(list, key.text(), key.text_hash())
    }

    /// Returns the index of a text in the list, by the text and its hash.
    fn find_text<L: TextList>(&self, list: &L, text: &str, hash: u64) -> Option<usize>
        requires index { IsIndexOf L.hash (L.texts list.now) self.now }
        requires hash { hash ≡ L.hash text.now }
        ensures { result ≡ index_of (L.texts list.now) text.now }
    {
        match self.slots.search(list, text, hash) {
            Search::Found(index) => Some(index),
            Search::Vacant(_) => None,
            Search::Full => self.overflow.find(list, text, hash),
        }
    }

    /// Returns the index of the key's text in the list. If the text is not there, the result is `None`, and the index that the list
    /// assigns next is kept for it. The caller may then push the text or not: nothing has to be undone. The only error is out of
    /// memory, which is also returned if the list has 2^31 texts.
    pub fn find_or_insert<L: TextList, K: Keyed>(
        &mut self,
        list: &L,
        key: &K,
    ) -> Result<Option<usize>, AllocError>
        requires index { IsIndexOf L.hash (L.texts list.now) self.old }
        requires hash { K.hash (K.text key.now) ≡ L.hash (K.text key.now) }
        ensures found { IfOk result (λ found. found ≡ index_of (L.texts list.now) (K.text key.now)) }
        // Even after an error it is the index of the list. If the text was new, it is also that of the list with the text.
        ensures before { IsIndexOf L.hash (L.texts list.now) self.new }
        ensures pushed { IfOk result (λ found. found ≡ None → IsIndexOf L.hash (L.texts list.now ++ K.text key.now ∷ []) self.new) }
        // No slots are allocated while there are slots for one more text.
        ensures capacity { length (L.texts list.now) < capacity_of self.old → capacity_of self.new ≡ capacity_of self.old }
    {
        self.make_room(list)?;
        self.find_text_or_insert(list, key.text(), key.text_hash())
    }

    /// Does what [`HashIndex::find_or_insert`] does, by a text and its hash, after room was made. The number of slots does not
    /// change.
    fn find_text_or_insert<L: TextList>(
        &mut self,
        list: &L,
        text: &str,
        hash: u64,
    ) -> Result<Option<usize>, AllocError>
        requires index { IsIndexOf L.hash (L.texts list.now) self.old }
        requires hash { hash ≡ L.hash text.now }
        requires few { length (L.texts list.now) < 2 ^ 31 }
        ensures found { IfOk result (λ found. found ≡ index_of (L.texts list.now) text.now) }
        ensures before { IsIndexOf L.hash (L.texts list.now) self.new }
        ensures pushed { IfOk result (λ found. found ≡ None → IsIndexOf L.hash (L.texts list.now ++ text.now ∷ []) self.new) }
        ensures capacity { capacity_of self.new ≡ capacity_of self.old }
    {
        match self.slots.search(list, text, hash) {
            Search::Found(index) => Ok(Some(index)),
            Search::Vacant(slot) => {
                self.slots.put_at(slot, hash, list.text_count());
                Ok(None)
            }
            Search::Full => {
                let alloc = self.slots.allocator();
                self.overflow.find_or_insert(alloc, list, text, hash)
            }
        }
    }

    /// Makes slots for one more text if there are none.
    fn make_room<L: TextList>(&mut self, list: &L) -> Result<(), AllocError>
        requires { IsIndexOf L.hash (L.texts list.now) self.old }
        ensures index { IsIndexOf L.hash (L.texts list.now) self.new }
        ensures few { IfOk result (λ _. length (L.texts list.now) < 2 ^ 31) }
        ensures capacity { length (L.texts list.now) < capacity_of self.old → capacity_of self.new ≡ capacity_of self.old }
    {
        let count = list.text_count();
        if INDEX_LIMIT <= count {
            return Err(AllocError);
        }
        if self.slots.capacity() <= count {
            self.grow(list, count.saturating_mul(2).max(FIRST_TEXTS))?;
        }
        Ok(())
    }

    /// Makes slots for `count` texts. The maps of the overflow do not change: if many texts were chosen to collide, nearly all of
    /// them are in these maps, and would otherwise be sorted each time.
    fn grow<L: TextList>(&mut self, list: &L, count: usize) -> Result<(), AllocError>
        requires index { IsIndexOf L.hash (L.texts list.now) self.old }
        requires few { length (L.texts list.now) < 2 ^ 31 }
        ensures { IsIndexOf L.hash (L.texts list.now) self.new }
    {
        let mut slots = Slots::new(self.slots.allocator(), count)?;
        for index in 0..list.text_count() {
            self.put_anew(&mut slots, list.text_at(index), list.hash_at(index), index)?;
        }
        self.slots = slots;
        Ok(())
    }

    /// Puts the index into other slots, which will replace these, or into the overflow if all slots of its hash are taken. If the
    /// index is not in these slots, it is in the overflow already.
    fn put_anew(
        &mut self,
        slots: &mut Slots,
        text: &str,
        hash: u64,
        index: usize,
    ) -> Result<(), AllocError>
        requires { index < 2 ^ 31 }
        ensures own { IfOk result (λ _. IsKept self.old hash text.now index → IsKept (with_slots self.new slots.new) hash text.now index) }
        ensures others { (other : List ℕ) (h k : ℕ) → bytes_eq text.now other ≡ false → IsKept (with_slots self.old slots.old) h other k → IsKept (with_slots self.new slots.new) h other k }
        // With the old slots too, each index stays kept, even after an error.
        ensures own_before { IsKept self.old hash text.now index → IsKept self.new hash text.now index }
        ensures others_before { (other : List ℕ) (h k : ℕ) → bytes_eq text.now other ≡ false → IsKept self.old h other k → IsKept self.new h other k }
    {
        if slots.put(hash, index) || !self.slots.has(hash, index) {
            return Ok(());
        }
        self.overflow.put(self.slots.allocator(), text, hash, index)
    }
}
