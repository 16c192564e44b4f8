//! The ids of a document, in one block of memory.
ghost use Rattle.std.specs.Prelude.{◌≡◌, ◌∷◌, ◌++◌, ◌<◌, ◌≤◌, [], IfOk, OnErr, OnOk, get_or, length, slice_index_or, flat_map, IsPermutation};
ghost use Rattle.page_anchors.specs.Ids.{DoBound, pointed, texts_from};
ghost use Rattle.page_anchors.specs.Indicated.{DoAscend};

use std::alloc::{AllocError, Global};
use std::marker::Model;

/// An allocation failed.
pub type NoMemory = AllocError;

/// The ids of a document, in any order. Together they have less than 4 GiB.
#[derive(Drop)]
pub struct Ids {
    /// The ids, one after the other.
    bytes: Vec<u8>,
    /// The end of each id, which is the start of the next.
    ends: Vec<u32>,
}

// Contracts see the ids, in order.
impl Model for Ids {
    ghost use Rattle.std.specs.Prelude.{ℕ, List, length};
    ghost use Rattle.page_anchors.specs.Ids.{DoBound, texts_from};

    ghost Value = { List (List ℕ) };

    ghost view = { λ ids. texts_from ids.bytes.items 0 ids.ends.items };

    ghost invariant = { λ ids. DoBound 0 ids.ends.items (length ids.bytes.items) };
}

impl Ids {
    /// Creates a list without ids. The call allocates nothing.
    pub fn new(alloc: Global) -> Ids
        ensures { result ≡ [] }
    {
        Ids {
            bytes: Vec::new(alloc),
            ends: Vec::new(alloc),
        }
    }

    /// Creates an empty list, with room for `count` ids of `length` bytes together.
    ///
    /// # Errors
    /// Out of memory.
    pub fn with_room(alloc: Global, count: usize, length: usize) -> Result<Ids, NoMemory>
        ensures { IfOk result (λ ids. ids ≡ []) }
    {
        let bytes = Vec::with_capacity(alloc, length)?;
        let ends = Vec::with_capacity(alloc, count)?;
        Ok(Ids { bytes, ends })
    }

    /// Returns the number of ids.
    #[tactic(auto, using(crate::proofs::Block::count_of))]
    pub fn len(&self) -> usize
        ensures { result ≡ length self.now }
    {
        self.ends.as_slice().len()
    }

    /// Returns the number of bytes of all ids together.
    #[tactic(auto, using(crate::proofs::Block::bytes_of))]
    pub fn byte_count(&self) -> usize
        ensures { result ≡ length (flat_map (λ id. id) self.now) }
    {
        self.bytes.as_slice().len()
    }

    /// Returns the id with this index.
    #[tactic(auto, using(crate::proofs::Block::count_of))]
    pub fn id(&self, index: usize) -> &[u8]
        requires { index < length self.now }
        ensures { result.now ≡ slice_index_or self.now index [] }
    {
        id_at(self.bytes.as_slice(), self.ends.as_slice(), index)
    }

    /// Appends an id.
    ///
    /// # Errors
    /// Out of memory, or the ids would have 4 GiB or more. In both cases all ids are removed.
    #[tactic(auto, using(crate::proofs::Block::bound_pushed, crate::proofs::Block::ids_more))]
    pub fn push(&mut self, id: &[u8]) -> Result<(), NoMemory>
        ensures pushed { OnOk result (self.new ≡ self.old ++ id.now ∷ []) }
        ensures gone { OnErr result (self.new ≡ []) }
    {
        match push_id(id, &mut self.bytes, &mut self.ends) {
            Ok(()) => Ok(()),
            Err(refused) => {
                self.bytes.clear();
                self.ends.clear();
                Err(refused)
            }
        }
    }

    /// Frees unused memory.
    pub fn shrink_to_fit(&mut self)
        ensures { self.new ≡ self.old }
    {
        self.bytes.shrink_to_fit();
        self.ends.shrink_to_fit();
    }

    /// Returns the same ids in ascending byte order, in exactly the memory that they need.
    ///
    /// # Errors
    /// Out of memory.
    pub fn ascending(&self, alloc: Global) -> Result<Ids, NoMemory>
        ensures ascend { IfOk result (λ ids. DoAscend ids) }
        ensures same { IfOk result (λ ids. IsPermutation self.now ids) }
    {
        let mut ids = self.pointers(alloc)?;
        ids.sort()?;
        let mut sorted = Ids::with_room(alloc, ids.len(), self.bytes.len())?;
        sorted.push_all(ids.as_slice())?;
        Ok(sorted)
    }

    /// Returns references to the ids, in the order of their indices.
    #[tactic(auto, using(crate::proofs::Block::pointed_push, std::proofs::lemmas::List::take_more, std::proofs::lemmas::List::take_all))]
    fn pointers(&self, alloc: Global) -> Result<Vec<&[u8]>, NoMemory>
        ensures { IfOk result (λ ids. pointed ids.items ≡ self.now) }
    {
        let count = self.len();
        let mut ids = Vec::with_capacity(alloc, count)?;
        for index in 0..count {
            ids.push(self.id(index))?;
        }
        Ok(ids)
    }

    /// Appends copies of these ids, in order.
    fn push_all(&mut self, ids: &[&[u8]]) -> Result<(), NoMemory>
        ensures { OnOk result (self.new ≡ self.old ++ pointed ids.now) }
    {
        for id in ids {
            self.push(*id)?;
        }
        Ok(())
    }
}

/// Returns the id with this index; the ids end at these positions of the bytes.
#[tactic(auto, using(crate::proofs::Block::id_within, crate::proofs::Block::id_is))]
fn id_at<'b>(bytes: &'b [u8], ends: &[u32], index: usize) -> &'b [u8]
    requires within { index < length ends.now }
    requires bound { DoBound 0 ends.now (length bytes.now) }
    ensures { result.now ≡ slice_index_or (texts_from bytes.now 0 ends.now) index [] }
{
    let begin = begin_of(ends, index);
    let end = ends[index] as usize;
    &bytes[begin..end]
}

/// Returns the position at which the id with this index begins.
fn begin_of(ends: &[u32], index: usize) -> usize
    requires { index < length ends.now }
    ensures { result ≡ get_or (0 ∷ ends.now) index 0 }
{
    if index == 0 {
        return 0;
    }
    ends[index - 1] as usize
}

/// Appends an id to the bytes, and its end to the ends. Fails if an allocation fails, or if the bytes would be 4 GiB or more.
fn push_id(id: &[u8], bytes: &mut Vec<u8>, ends: &mut Vec<u32>) -> Result<(), NoMemory>
    ensures bytes { OnOk result (bytes.new.items ≡ bytes.old.items ++ id.now) }
    ensures ends { OnOk result (ends.new.items ≡ ends.old.items ++ length bytes.new.items ∷ []) }
{
    bytes.extend_from_slice(id)?;
    let end = end_of(bytes.as_slice())?;
    ends.push(end)?;
    Ok(())
}

/// Returns the number of bytes. Fails if that is 4 GiB or more.
fn end_of(bytes: &[u8]) -> Result<u32, NoMemory>
    ensures { IfOk result (λ end. end ≡ length bytes.now) }
{
    match u32::try_from(bytes.len()) {
        Ok(end) => Ok(end),
        Err(_) => Err(AllocError),
    }
}
