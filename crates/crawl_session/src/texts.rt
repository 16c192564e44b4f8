//! Texts, each once.
ghost use Rattle.std.specs.Prelude.{◌≡◌, [], not, IfOk};
ghost use Rattle.crawl_core.specs.Kept.{has_text};
ghost use Rattle.crawl_session.specs.Compacting.{with_text};

use crawl_core::{NoMemory, Text};
use hash_index::HashIndex;
use std::alloc::Global;
use std::marker::Model;

/// Texts, each once, in the order in which they came.
#[derive(Drop)]
pub(crate) struct Texts {
    texts: Vec<Text>,
    /// The index of each of these.
    index: HashIndex,
}

impl Model for Texts {
    ghost use Rattle.std.specs.Prelude.{List, ℕ, map};
    ghost use Rattle.hash_order.specs.HashOrder.{hash_of};
    ghost use Rattle.hash_index.specs.Index.{IsIndexOf};

    ghost Value = { List (List ℕ) };

    ghost view = { λ t. t.texts.items };

    ghost invariant = { λ t. IsIndexOf hash_of (map (λ text. text) t.texts.items) t.index };
}

impl Texts {
    /// None.
    pub(crate) fn new(alloc: Global) -> Texts
        ensures { result ≡ [] }
    {
        Texts {
            texts: Vec::new(alloc),
            index: HashIndex::new(alloc),
        }
    }

    /// Takes the text in, and answers whether it is new.
    ///
    /// # Errors
    /// Out of memory. The texts are as before.
    pub(crate) fn insert(&mut self, text: Text) -> Result<bool, NoMemory>
        ensures new { IfOk result (λ new. new ≡ not (has_text self.old text)) }
        ensures texts { IfOk result (λ _. self.new ≡ with_text self.old text) }
    {
        self.texts.reserve(1)?;
        match self.index.find_or_insert(&self.texts, &text)? {
            Some(_) => Ok(false),
            None => {
                self.texts.push_reserved(text);
                Ok(true)
            }
        }
    }

    /// Returns the texts, in order.
    pub(crate) fn as_slice(&self) -> &[Text]
        ensures { result.now ≡ self.now }
    {
        &self.texts
    }
}
