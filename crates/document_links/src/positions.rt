//! The indices of a document's links with a canonical URL, and its invalid links.
ghost use Rattle.std.specs.Prelude.{◌≡◌, ◌∷◌, ◌++◌, [], true, OnOk, Some, map, string_bytes};
ghost use Rattle.std.specs.Str.{IsUtf8};
ghost use Rattle.document_links.specs.Schemes.{invalid_kind, lacks_slashes};

use crate::page_base::resolved;
use crate::scheme::{InvalidKind, invalid_kind, is_web, lacks_slashes, names_host, scheme_of};
use crawl_keys::{Base, CanonUrl};
use std::alloc::{AllocError, Global};

/// The links with a canonical URL in the file at a URL, and its invalid links. A link is identified by its index among all links of
/// the file; `text_places` finds its location.
#[derive(Drop)]
pub struct LinkPlaces {
    pub url: CanonUrl,
    /// The indices of the links with a canonical URL, in order.
    pub indices: Vec<u32>,
    /// The invalid links, in order.
    pub invalid: Vec<InvalidLink>,
}

/// A link that has no URL, lacks its slashes, has an unknown scheme, or names a local file.
#[derive(Drop)]
pub struct InvalidLink {
    /// Its index among the links of its file.
    pub index: usize,
    pub kind: InvalidKind,
    /// Its text as a crawl reads it.
    pub text: String,
    ghost is_its_kind: { invalid_kind (string_bytes text) ≡ Some kind },
}

/// The indices of the links with a canonical URL, and the invalid links, in order.
#[derive(Drop)]
pub(crate) struct Positions {
    alloc: Global,
    /// The URL of the page, against which links are resolved.
    page: Base,
    /// The index of the next link.
    index: usize,
    kept: Vec<u32>,
    invalid: Vec<InvalidLink>,
    /// Whether four bytes cannot hold an index.
    is_far: bool,
}

impl Positions {
    /// Makes empty lists for the page at a URL, with room for the indices of `links` links.
    pub(crate) fn new(
        alloc: Global,
        url: &CanonUrl,
        links: usize,
    ) -> Result<Positions, AllocError> {
        Ok(Positions {
            alloc,
            page: Base::new(alloc, url)?,
            index: 0,
            kept: Vec::with_capacity(alloc, links)?,
            invalid: Vec::new(alloc),
            is_far: false,
        })
    }

    /// Sets the index of the next link.
    pub(crate) fn begin_at(&mut self, index: usize) {
        self.index = index;
    }

    /// Keeps the index of the link with this text if it leads to a canonical URL, and the link itself if it is invalid. A link that
    /// lacks its slashes may be both.
    pub(crate) fn push(&mut self, text: &[u8]) -> Result<(), AllocError>
        ensures { lacks_slashes text.now ≡ true → IsUtf8 text.now → OnOk result (map (λ link. string_bytes link.text) self.new.invalid.items ≡ map (λ link. string_bytes link.text) self.old.invalid.items ++ text.now ∷ []) }
    {
        if self.has_url(text)? {
            self.keep()?;
            if !lacks_slashes(text) {
                return Ok(());
            }
        }
        self.push_invalid(text)
    }

    /// Stores the link with this text as invalid if it lacks its slashes.
    pub(crate) fn push_slashless(&mut self, text: &[u8]) -> Result<(), AllocError>
        ensures { lacks_slashes text.now ≡ true → IsUtf8 text.now → OnOk result (map (λ link. string_bytes link.text) self.new.invalid.items ≡ map (λ link. string_bytes link.text) self.old.invalid.items ++ text.now ∷ []) }
    {
        if lacks_slashes(text) {
            self.push_invalid(text)
        } else {
            Ok(())
        }
    }

    /// Does what `push` does, for a text without a colon. It has no scheme, so if it names no host, it has a canonical URL.
    pub(crate) fn push_plain(&mut self, text: &[u8]) -> Result<(), AllocError> {
        if names_host(text) {
            self.push(text)
        } else {
            self.keep()
        }
    }

    /// Keeps the index of the link.
    fn keep(&mut self) -> Result<(), AllocError>
        ensures { self.new.invalid.items ≡ self.old.invalid.items }
    {
        match u32::try_from(self.index) {
            Ok(index) => self.kept.push(index)?,
            Err(_) => self.is_far = true,
        }
        Ok(())
    }

    /// Stores the link with this text as invalid, unless its scheme is another known one.
    #[tactic(auto, using(crate::proofs::Slashless::kind_without_slashes))]
    fn push_invalid(&mut self, text: &[u8]) -> Result<(), AllocError>
        ensures { lacks_slashes text.now ≡ true → IsUtf8 text.now → OnOk result (map (λ link. string_bytes link.text) self.new.invalid.items ≡ map (λ link. string_bytes link.text) self.old.invalid.items ++ text.now ∷ []) }
    {
        let Ok(text) = str::from_utf8(text) else {
            return Ok(());
        };
        if let Some(kind) = invalid_kind(text.as_bytes()) {
            let index = self.index;
            let text = String::from_str(self.alloc, text)?;
            self.invalid.push(InvalidLink { index, kind, text })?;
        }
        Ok(())
    }

    /// Whether a link with this text has a canonical URL. A text without a scheme and a host always has one.
    fn has_url(&self, text: &[u8]) -> Result<bool, AllocError> {
        match scheme_of(text) {
            None if !names_host(text) => Ok(true),
            scheme if is_web(scheme) => Ok(resolved(self.alloc, &self.page, text)?.is_some()),
            _ => Ok(false),
        }
    }

    /// The indices, or none if four bytes cannot hold one, and the invalid links.
    pub(crate) fn into_lists(self) -> (Vec<u32>, Vec<InvalidLink>) {
        let Positions {
            mut kept,
            invalid,
            is_far,
            ..
        } = self;
        if is_far {
            kept.clear();
        }
        (kept, invalid)
    }
}
