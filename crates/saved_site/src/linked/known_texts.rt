//! Texts of links, each found by its hash.
ghost use Rattle.std.specs.Prelude.{◌≡◌, ◌<◌, ◌++◌, ℕ, List, [], None, true, length, get_or, IfOk, IfSome, OnOk, Contains};
ghost use Rattle.crawl_keys.specs.Folders.{is_of_folder};
ghost use Rattle.saved_pages.specs.SavedWeb.{link_url};
ghost use Rattle.saved_site.specs.LinkTables.{AreKnown, AreOfFolder, LeadsTo};

use hash_index::{HashIndex, Keyed};
use saved_pages::LinkText;
use std::alloc::{AllocError, Global};
use std::marker::Model;

/// A text, and the index of the URL that a link with it leads to, if it leads to one.
#[derive(Drop)]
struct KnownText {
    text: String,
    hash: u64,
    index: Option<u32>,
}

// Contracts see the text and the index.
impl Model for KnownText {
    ghost use Rattle.std.specs.Prelude.{◌≡◌, ℕ, List, Option, string_bytes};
    ghost use Rattle.hash_order.specs.HashOrder.{hash_of};

    ghost Value = { List ℕ × Option ℕ };

    ghost view = { λ known. (string_bytes known.text, known.index) };

    ghost invariant = { λ known. known.hash ≡ hash_of (string_bytes known.text) };
}

impl KnownText {
    /// Copies a link's text and keeps its hash, with the index of the URL to which it leads, if it leads to one.
    fn new(alloc: Global, key: &LinkText<'_>, index: Option<u32>) -> Result<KnownText, AllocError>
        ensures { IfOk result (λ known. known ≡ (key.now, index)) }
    {
        let text = String::from_str(alloc, key.as_str())?;
        Ok(KnownText {
            text,
            hash: key.text_hash(),
            index,
        })
    }
}

impl Keyed for KnownText {
    ghost use Rattle.hash_order.specs.HashOrder.{hash_of};

    ghost text = { λ known. known.0 };

    ghost hash = { hash_of };

    fn text(&self) -> &str {
        self.text.as_str()
    }

    fn text_hash(&self) -> u64 {
        self.hash
    }
}

/// Texts of links, and the indices of the URLs that links with them lead to.
#[derive(Drop)]
pub(crate) struct KnownTexts {
    texts: Vec<KnownText>,
    index: HashIndex,
}

// Contracts see the list.
impl Model for KnownTexts {
    ghost use Rattle.std.specs.Prelude.{ℕ, List, Option, map};
    ghost use Rattle.hash_order.specs.HashOrder.{hash_of};
    ghost use Rattle.hash_index.specs.Index.{IsIndexOf};

    ghost Value = { List (List ℕ × Option ℕ) };

    ghost view = { λ known. known.texts.items };

    ghost invariant = { λ known. IsIndexOf hash_of (map (λ one. one.0) known.texts.items) known.index };
}

impl KnownTexts {
    /// No text is known.
    pub(crate) fn new(alloc: Global) -> KnownTexts
        ensures { result ≡ [] }
    {
        KnownTexts {
            texts: Vec::new(alloc),
            index: HashIndex::new(alloc),
        }
    }

    /// How many texts are known.
    pub(crate) fn len(&self) -> usize {
        self.texts.len()
    }

    /// The index that is known of a text.
    #[tactic(auto, using(crate::proofs::LinkIndices::within_at))]
    pub(crate) fn find(&self, key: &LinkText<'_>) -> Option<Option<u32>>
        ensures { IfSome result (λ index. Contains self.now (key.now, index)) }
    {
        match self.index.find(&self.texts, key) {
            Some(at) => Some(index_at(&self.texts, at)),
            None => None,
        }
    }

    /// Adds a text, if it is not known.
    #[tactic(auto, using(crate::proofs::LinkIndices::folder_push))]
    pub(crate) fn add(
        &mut self,
        alloc: Global,
        key: &LinkText<'_>,
        index: Option<u32>,
    ) -> Result<(), AllocError>
        ensures known { (base : List ℕ) (urls : List (List ℕ)) → AreKnown base urls self.old → LeadsTo urls index (link_url base key.now) → OnOk result (AreKnown base urls self.new) }
        ensures of_folder { is_of_folder key.now ≡ true → AreOfFolder self.old → OnOk result (AreOfFolder self.new) }
    {
        let found = self.index.find_or_insert(&self.texts, key)?;
        if found.is_some() {
            return Ok(());
        }
        let known = KnownText::new(alloc, key, index)?;
        self.texts.push(known)?;
        Ok(())
    }
}

/// The index that is known of the text at an index.
fn index_at(texts: &[KnownText], at: usize) -> Option<u32>
    requires { at < length texts.now }
    ensures { result ≡ (get_or texts.now at ([], None)).1 }
{
    let known = &texts[at];
    known.index
}
