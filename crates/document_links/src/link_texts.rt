//! The texts of links, in one block of memory.
ghost use Rattle.std.specs.Prelude.{◌≡◌, ◌∷◌, ◌++◌, ◌<◌, [], true, length, slice_index_or, IfOk, OnErr, OnOk, flat_map};
ghost use Rattle.document_links.specs.Texts.{fits, all_fit};

use page_anchors::Ids;
use std::alloc::{AllocError, Global};
use std::marker::Model;

/// The texts of links. Each fits in a line after the five bytes of `link `. Together they have less than 4 GiB.
#[derive(Drop)]
pub struct LinkTexts {
    texts: Ids,
}

// Contracts see the texts, in order.
impl Model for LinkTexts {
    ghost use Rattle.std.specs.Prelude.{◌≡◌, ℕ, List, true};
    ghost use Rattle.document_links.specs.Texts.{all_fit};

    ghost Value = { List (List ℕ) };

    ghost view = { λ links. links.texts };

    ghost invariant = { λ links. all_fit links.texts ≡ true };
}

impl LinkTexts {
    /// Creates an empty list. The call allocates nothing.
    pub fn new(alloc: Global) -> LinkTexts
        ensures { result ≡ [] }
    {
        LinkTexts {
            texts: Ids::new(alloc),
        }
    }

    /// Creates an empty list, with room for `count` texts of `length` bytes together.
    ///
    /// # Errors
    /// Out of memory.
    pub(crate) fn with_room(
        alloc: Global,
        count: usize,
        length: usize,
    ) -> Result<LinkTexts, AllocError>
        ensures { IfOk result (λ links. links ≡ []) }
    {
        let texts = Ids::with_room(alloc, count, length)?;
        Ok(LinkTexts { texts })
    }

    /// The number of texts.
    pub fn len(&self) -> usize
        ensures count { result ≡ length self.now }
        ensures fit { all_fit self.now ≡ true }
    {
        self.texts.len()
    }

    /// The number of bytes of all texts.
    pub fn byte_count(&self) -> usize
        ensures { result ≡ length (flat_map (λ text. text) self.now) }
    {
        self.texts.byte_count()
    }

    /// The text with this index.
    pub fn text(&self, index: usize) -> &str
        requires { index < length self.now }
        ensures text { result.now ≡ slice_index_or self.now index [] }
        ensures fit { fits 5 result.now ≡ true }
    {
        match simdutf8::basic::from_utf8(self.texts.id(index)) {
            Ok(text) => text,
            Err(_) => unreachable!(),
        }
    }

    /// The bytes of the text with this index. It is not tested for UTF-8 again, as `text` does.
    pub fn bytes(&self, index: usize) -> &[u8]
        requires { index < length self.now }
        ensures { result.now ≡ slice_index_or self.now index [] }
    {
        self.texts.id(index)
    }

    /// Appends the text of a link.
    ///
    /// # Errors
    /// Out of memory, also if the texts would have 4 GiB or more. Then all texts are removed.
    pub fn push(&mut self, text: &[u8]) -> Result<(), AllocError>
        requires { fits 5 text.now ≡ true }
        ensures pushed { OnOk result (self.new ≡ self.old ++ text.now ∷ []) }
        ensures gone { OnErr result (self.new ≡ []) }
    {
        self.texts.push(text)
    }
}
