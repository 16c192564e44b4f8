//! The links and ids of a document, as `html_links` finds them.
ghost use Rattle.std.specs.Prelude.{◌≡◌, ◌<◌, ◌∷◌, ◌++◌, [], IfOk, OnOk, length, slice_index_or};

use html_links::{CountedLinks, DocumentIds, Links};
use page_anchors::Ids;
use std::alloc::{AllocError, Global};

/// The texts of a document's links, and the positions of their values in the document.
#[derive(Drop)]
pub struct RawLinks {
    pub(crate) texts: Ids,
    pub(crate) positions: Vec<usize>,
}

impl RawLinks {
    /// Creates a list without links. The call allocates nothing.
    pub fn new(alloc: Global) -> RawLinks
        ensures texts { result.texts ≡ [] }
        ensures positions { result.positions.items ≡ [] }
    {
        RawLinks {
            texts: Ids::new(alloc),
            positions: Vec::new(alloc),
        }
    }

    /// Creates a list without links, with room for `count` texts of `length` bytes together.
    pub(crate) fn with_room(
        alloc: Global,
        count: usize,
        length: usize,
    ) -> Result<RawLinks, AllocError>
        ensures { IfOk result (λ links. links.texts ≡ []) }
    {
        Ok(RawLinks {
            texts: Ids::with_room(alloc, count, length)?,
            positions: Vec::with_capacity(alloc, count)?,
        })
    }

    /// Removes the links. The memory is reused for the next ones.
    pub(crate) fn clear(&mut self) -> Result<(), AllocError>
        ensures texts { OnOk result (self.new.texts ≡ []) }
        ensures positions { OnOk result (self.new.positions.items ≡ []) }
    {
        self.positions.clear();
        self.texts = Ids::with_room(self.allocator(), self.texts.len(), self.texts.byte_count())?;
        Ok(())
    }

    /// The number of links.
    pub(crate) fn len(&self) -> usize
        ensures { result ≡ length self.now.texts }
    {
        self.texts.len()
    }

    /// The allocator of the list's memory.
    pub(crate) fn allocator(&self) -> Global {
        *self.positions.allocator()
    }

    /// The number of bytes of all texts.
    pub(crate) fn byte_count(&self) -> usize {
        self.texts.byte_count()
    }

    /// The text of the link with this index.
    pub(crate) fn text(&self, index: usize) -> &[u8]
        requires { index < length self.now.texts }
        ensures { result.now ≡ slice_index_or self.now.texts index [] }
    {
        self.texts.id(index)
    }

    /// The text of the link with this index; empty if there is none.
    #[tactic(auto, using(std::proofs::lemmas::List::get_or_default))]
    pub(crate) fn text_or_empty(&self, index: usize) -> &[u8]
        ensures { result.now ≡ slice_index_or self.now.texts index [] }
    {
        if index < self.len() {
            self.text(index)
        } else {
            &[]
        }
    }

    /// The position of the link with this index.
    pub(crate) fn position(&self, index: usize) -> usize
        ensures { result ≡ slice_index_or self.now.positions.items index 0 }
    {
        self.positions.get(index).copied().unwrap_or(0)
    }

    /// Appends a link whose value is at this position.
    pub(crate) fn push_at(&mut self, position: usize, text: &[u8]) -> Result<(), AllocError>
        ensures texts { OnOk result (self.new.texts ≡ self.old.texts ++ text.now ∷ []) }
        ensures positions { OnOk result (self.new.positions.items ≡ self.old.positions.items ++ position ∷ []) }
    {
        self.positions.push(position)?;
        self.texts.push(text)
    }
}

impl Links for RawLinks {
    ghost texts = { λ found. found.texts };

    ghost positions = { λ found. found.positions.items };

    fn push(&mut self, position: usize, text: &[u8]) -> Result<(), AllocError> {
        self.push_at(position, text)
    }
}

impl CountedLinks for RawLinks {
    fn count(&self) -> usize {
        self.positions.len().min(self.texts.len())
    }
}

/// The ids of a document, in order.
#[derive(Drop)]
pub(crate) struct RawIds {
    pub(crate) ids: Ids,
}

impl RawIds {
    /// Creates a list without ids. The call allocates nothing.
    pub(crate) fn new(alloc: Global) -> RawIds
        ensures { result.ids ≡ [] }
    {
        RawIds {
            ids: Ids::new(alloc),
        }
    }
}

impl DocumentIds for RawIds {
    ghost texts = { λ found. found.ids };

    fn push(&mut self, text: &[u8]) -> Result<(), AllocError> {
        self.ids.push(text)
    }
}
