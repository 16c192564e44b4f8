//! The anchors of a document, and its links to anchors.
ghost use Rattle.std.specs.Prelude.{◌≡◌, length, option_map};
ghost use Rattle.document_links.specs.Anchors.{begin_of, end_of, known_index, link_at, link_of};
ghost use Rattle.page_anchors.specs.Indicated.{DoAscend};

use crawl_keys::CanonUrl;
use page_anchors::Ids;

/// A link to an anchor.
#[derive(Clone, Copy)]
pub struct AnchorLink<'a> {
    /// The text after its first `#`.
    pub fragment: &'a [u8],
    /// Its index among the links of its document. `None` if four bytes cannot hold it.
    pub index: Option<u32>,
}

/// The value in place of an index that four bytes cannot hold.
pub(crate) const FAR: u32 = u32::MAX;

/// The anchors of a document, and its links to anchors.
#[derive(Drop)]
pub struct Anchors {
    /// Each `id`, and each `name` of an `a`, in ascending byte order.
    pub ids: Ids,
    /// For each link, the text after its first `#`.
    pub(crate) fragments: Ids,
    /// For each link, its index among the links of the document, or `FAR`.
    pub(crate) indices: Vec<u32>,
    /// For each target, the number of links to it and to the targets before it.
    pub(crate) ends: Vec<u32>,
    ghost ascend: { DoAscend ids },
}

/// The anchors of the document at a URL.
#[derive(Drop)]
pub struct PageAnchors {
    pub url: CanonUrl,
    pub anchors: Anchors,
    /// The targets of its links to anchors; `Anchors::links_to` takes their indices.
    pub targets: Vec<Target>,
}

/// The target of a link.
#[derive(Drop)]
pub enum Target {
    /// The page of the site with this number.
    Page(usize),
    /// A URL that is not a page of the site.
    Other(CanonUrl),
}

impl Anchors {
    /// The number of the first link to the target with this index, and the number after the last one.
    pub fn links_to(&self, target: usize) -> (usize, usize)
        ensures begin { result.0 ≡ begin_of self.now.ends.items (length self.now.indices.items) target }
        ensures end { result.1 ≡ end_of self.now.ends.items (length self.now.indices.items) target }
    {
        (self.begin_of(target), self.end_of(target))
    }

    /// The number of the first link to the target with this index.
    fn begin_of(&self, target: usize) -> usize
        ensures { result ≡ begin_of self.now.ends.items (length self.now.indices.items) target }
    {
        if target == 0 {
            return 0;
        }
        self.end_of(target - 1)
    }

    /// The number after the last link to the target with this index.
    fn end_of(&self, target: usize) -> usize
        ensures { result ≡ end_of self.now.ends.items (length self.now.indices.items) target }
    {
        match self.ends.get(target) {
            Some(end) => *end as usize,
            None => self.indices.len(),
        }
    }

    /// The link with this number.
    #[tactic(auto, using(crate::proofs::Rows::row_at, crate::proofs::Rows::no_fragment, crate::proofs::Rows::no_index))]
    pub fn link(&self, number: usize) -> Option<AnchorLink<'_>>
        ensures { option_map link_of result ≡ link_at self.now.fragments self.now.indices.items number }
    {
        match self.indices.get(number) {
            Some(index) if number < self.fragments.len() => Some(AnchorLink {
                fragment: self.fragments.id(number),
                index: known_index(*index),
            }),
            _ => None,
        }
    }
}

/// Returns the index, or `None` if it is the value for one that four bytes cannot hold.
fn known_index(index: u32) -> Option<u32>
    ensures { result ≡ known_index index }
{
    if index == FAR { None } else { Some(index) }
}
