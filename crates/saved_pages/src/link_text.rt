//! The text of a link, with its hash.
ghost use Rattle.std.specs.Prelude.{◌≡◌, ℕ, List};
ghost use Rattle.saved_pages.specs.SavedWeb.{link_url};

use crawl_keys::before_fragment;
use hash_index::Keyed;
use hash_order::hash_of;
use std::marker::Model;

/// The text of a link, as a key for what is known about it. Its hash is computed once.
#[derive(Drop)]
pub struct LinkText<'a> {
    hash: u64,
    text: &'a str,
}

// Contracts see the text.
impl<'a> Model for LinkText<'a> {
    ghost use Rattle.std.specs.Prelude.{◌≡◌, ℕ, List};
    ghost use Rattle.hash_order.specs.HashOrder.{hash_of};

    ghost Value = { List ℕ };

    ghost view = { λ link. link.text.now };

    ghost invariant = { λ link. link.hash ≡ hash_of link.text.now };
}

impl<'a> LinkText<'a> {
    /// Computes the hash of the text.
    pub fn new(text: &'a str) -> LinkText<'a>
        ensures { result ≡ text.now }
    {
        LinkText {
            hash: hash_of(text),
            text,
        }
    }

    /// Returns the text.
    pub fn as_str(&self) -> &'a str
        ensures { result.now ≡ self.now }
    {
        self.text
    }

    /// Returns the text without its fragment. It leads to the same URL. Most texts have no fragment.
    pub fn before_fragment(&self) -> LinkText<'a>
        ensures { (base : List ℕ) → link_url base result ≡ link_url base self.now }
    {
        let front = before_fragment(self.text);
        if front.len() < self.text.len() {
            return LinkText::new(front);
        }
        LinkText {
            hash: self.hash,
            text: self.text,
        }
    }
}

impl Keyed for LinkText<'_> {
    ghost use Rattle.hash_order.specs.HashOrder.{hash_of};

    ghost text = { λ link. link };

    ghost hash = { hash_of };

    fn text(&self) -> &str {
        self.text
    }

    fn text_hash(&self) -> u64 {
        self.hash
    }
}
