//! Link texts, and the URLs to which they lead.
ghost use Rattle.std.specs.Prelude.{◌≡◌, ◌<◌, true, [], length, get_or, IfOk, IfErr, IfSome, Contains};
ghost use Rattle.crawl_keys.specs.Folders.{is_of_folder};
ghost use Rattle.saved_web.specs.KnownLinks.{AreLinks, AreOfFolder};
ghost use Rattle.saved_pages.specs.SavedWeb.{link_url};

use crawl_keys::{Base, CanonUrl};
use crawl_pages::FetchError;
use hash_index::{HashIndex, Keyed};
use hash_order::hash_of;
use saved_pages::LinkText;
use std::alloc::{AllocError, Global};
use std::marker::Model;

/// The memory of a list is reused if it has room for at most this number of texts.
const FEW_TEXTS: usize = 64;

/// The greatest number of texts that are stored. Most texts of a page with more links occur only once.
const MOST_TEXTS: usize = 4_096;

/// A link text, and the URL to which it leads, if any.
#[derive(Drop)]
pub struct KnownLink<'a> {
    text: &'a str,
    link: Option<CanonUrl>,
}

// Contracts see a pair of a text and a URL or none.
impl<'a> Model for KnownLink<'a> {
    ghost use Rattle.std.specs.Prelude.{ℕ, List, Option};

    ghost Value = { List ℕ × Option (List ℕ) };

    ghost view = { λ known. (known.text.now, known.link) };
}

impl Keyed for KnownLink<'_> {
    ghost use Rattle.hash_order.specs.HashOrder.{hash_of};

    ghost text = { λ known. known.0 };

    ghost hash = { hash_of };

    fn text(&self) -> &str {
        self.text
    }

    // Called only when the index grows.
    fn text_hash(&self) -> u64 {
        hash_of(self.text)
    }
}

/// Link texts with their URLs, each found by its text.
#[derive(Drop)]
pub struct KnownLinks<'a> {
    links: Vec<KnownLink<'a>>,
    index: HashIndex,
}

// Contracts see the list.
impl<'a> Model for KnownLinks<'a> {
    ghost use Rattle.std.specs.Prelude.{ℕ, List, Option, map};
    ghost use Rattle.hash_order.specs.HashOrder.{hash_of};
    ghost use Rattle.hash_index.specs.Index.{IsIndexOf};

    ghost Value = { List (List ℕ × Option (List ℕ)) };

    ghost view = { λ known. known.links.items };

    ghost invariant = { λ known. IsIndexOf hash_of (map (λ link. link.0) known.links.items) known.index };
}

impl<'a> KnownLinks<'a> {
    /// Makes an empty list.
    pub fn new(alloc: Global) -> KnownLinks<'a>
        ensures { result ≡ [] }
    {
        KnownLinks {
            links: Vec::new(alloc),
            index: HashIndex::new(alloc),
        }
    }

    /// Removes all texts. The memory is reused if it is small.
    pub fn clear(&mut self, alloc: Global)
        ensures { self.new ≡ [] }
    {
        if self.links.is_empty() {
            return;
        }
        if self.links.len() > FEW_TEXTS {
            *self = KnownLinks::new(alloc);
            return;
        }
        self.links.clear();
        self.index = HashIndex::new(alloc);
    }

    /// Returns the number of known texts.
    pub fn len(&self) -> usize {
        self.links.len()
    }

    /// Returns the URL to which a link with this text leads, if it is known.
    #[tactic(auto, using(crate::proofs::KnownLinks::texts, crate::proofs::KnownLinks::within_at))]
    pub fn find(&self, text: &LinkText<'a>) -> Option<&Option<CanonUrl>>
        ensures { IfSome result (λ link. Contains self.now (text.now, link.now)) }
    {
        match self.index.find(&self.links, text) {
            Some(index) => Some(link_at(&self.links, index)),
            None => None,
        }
    }

    /// Returns the URL to which a link with this text leads, and stores it, unless too many texts are known. Links with the same
    /// text share the text of their URL. The only error is out of memory.
    pub fn link(
        &mut self,
        alloc: Global,
        base: &Base,
        text: &LinkText<'a>,
    ) -> Result<Option<CanonUrl>, FetchError>
        requires { AreLinks base.now self.old }
        ensures link { IfOk result (λ link. link ≡ link_url base.now text.now) }
        ensures known { AreLinks base.now self.new }
        ensures of_folder { is_of_folder text.now ≡ true → AreOfFolder self.old → AreOfFolder self.new }
        ensures refused { IfErr result (λ e. e ≡ FetchError.NoMemory) }
    {
        if self.links.len() < MOST_TEXTS {
            return self.learn(alloc, base, text);
        }
        match self.find(text) {
            Some(link) => Ok(copy_of(link)?),
            None => Ok(base.link(alloc, text.as_str())?),
        }
    }

    // Likewise, if there is room for one more text.
    #[tactic(auto, using(crate::proofs::KnownLinks::texts, crate::proofs::KnownLinks::within_at))]
    fn learn(
        &mut self,
        alloc: Global,
        base: &Base,
        text: &LinkText<'a>,
    ) -> Result<Option<CanonUrl>, FetchError>
        requires { AreLinks base.now self.old }
        ensures link { IfOk result (λ link. link ≡ link_url base.now text.now) }
        ensures known { AreLinks base.now self.new }
        ensures of_folder { is_of_folder text.now ≡ true → AreOfFolder self.old → AreOfFolder self.new }
        ensures refused { IfErr result (λ e. e ≡ FetchError.NoMemory) }
    {
        let found = self.index.find_or_insert(&self.links, text)?;
        if let Some(index) = found {
            return Ok(copy_of(link_at(&self.links, index))?);
        }
        let link = base.link(alloc, text.as_str())?;
        let known = KnownLink {
            text: text.as_str(),
            link: copy_of(&link)?,
        };
        self.links.push(known)?;
        Ok(link)
    }
}

/// Returns the URL of the text at the index, if it leads to one.
fn link_at<'l>(links: &'l [KnownLink<'_>], index: usize) -> &'l Option<CanonUrl>
    requires { index < length links.now }
    ensures { result.now ≡ (get_or links.now index ([], None)).1 }
{
    let known = &links[index];
    &known.link
}

/// Returns a copy of the link that shares its text.
pub fn copy_of(link: &Option<CanonUrl>) -> Result<Option<CanonUrl>, AllocError>
    ensures { IfOk result (λ copy. copy ≡ link.now) }
{
    match link {
        Some(url) => Ok(Some(url.clone()?)),
        None => Ok(None),
    }
}
