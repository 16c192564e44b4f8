//! Finds the anchors of a document, and its links to anchors.
ghost use Rattle.std.specs.Prelude.{◌≡◌, ◌∷◌, ◌++◌, ◌&&◌, [], true, None, IfOk, OnOk, bytes_eq, flat_map, length, if◌then◌else◌, nat_lt};
ghost use Rattle.page_anchors.specs.Indicated.{DoAscend, is_indicated};
ghost use Rattle.document_links.specs.Anchors.{known_index};
ghost use Rattle.document_links.specs.Keeping.{AreKept, HasRows, IsBuilt, IsEven, kept_link, kept_of, led, parsed, row_of, rows_of, rows_unless};
ghost use Rattle.document_links.specs.KeptAnchors.{index_of};

use crate::anchors::{Anchors, FAR};
use crate::cleaning::{has_breaks, trimmed_end, without_breaks};
use crate::link_writer::LinkWriter;
use crate::marked_links::{MarkedLink, marked_links, run_len};
use crate::raw_links::RawLinks;
use crate::targets::Targets;
use crawl_keys::CanonUrl;
use page_anchors::{Ids, is_indicated};
use std::alloc::{AllocError, Global};

/// The anchors of a document, and the targets of its links to anchors: the URLs of links with a `#`, in order. Links with the same
/// text before the `#` share a target. Links to existing anchors of the document itself are left out.
#[derive(Drop)]
pub struct AnchorTargets {
    pub anchors: Anchors,
    pub urls: Vec<CanonUrl>,
}

impl Anchors {
    /// Anchors with these ids, without links.
    fn with(ids: Ids, alloc: Global) -> Anchors
        requires { DoAscend ids }
        ensures ids { result.ids ≡ ids }
        ensures fragments { result.fragments ≡ [] }
        ensures indices { result.indices.items ≡ [] }
        ensures ends { result.ends.items ≡ [] }
    {
        Anchors {
            ids,
            fragments: Ids::new(alloc),
            indices: Vec::new(alloc),
            ends: Vec::new(alloc),
        }
    }

    /// Appends the links to the next target, and returns whether one is left. `is_own` says whether the target is the document itself.
    fn push_target(
        &mut self,
        raw: &RawLinks,
        is_own: bool,
        links: &[MarkedLink],
    ) -> Result<bool, AllocError>
        requires { IsEven self.old }
        ensures ids { OnOk result (self.new.ids ≡ self.old.ids) }
        ensures even { OnOk result (IsEven self.new) }
        ensures rows { OnOk result (rows_of self.new ≡ rows_of self.old ++ flat_map (row_of raw.now.texts is_own self.old.ids) links.now) }
        ensures ends { IfOk result (λ some. self.new.ends.items ≡ (if some then self.old.ends.items ++ length self.new.indices.items ∷ [] else self.old.ends.items)) }
        ensures some { IfOk result (λ some. some ≡ nat_lt (length self.old.indices.items) (length self.new.indices.items)) }
    {
        let begin = self.indices.len();
        for link in links {
            self.push_text(link.fragment(raw), link.index, is_own)?;
        }
        let end = self.indices.len();
        if begin < end {
            self.ends.push(in_four_bytes(end)?)?;
        }
        Ok(begin < end)
    }

    /// Appends a link, unless the document itself has the anchor. `text` is the text after its first `#`.
    #[tactic(auto, using(crate::proofs::Trimming::unbroken))]
    fn push_text(&mut self, text: &[u8], index: usize, is_own: bool) -> Result<(), AllocError>
        requires { IsEven self.old }
        ensures { OnOk result (HasRows self.old self.new (rows_unless (is_own && is_indicated self.old.ids (parsed text.now)) (parsed text.now) index)) }
    {
        let text = trimmed_end(text);
        if !has_breaks(text) {
            return self.push_link(text, index, is_own);
        }
        let fragment = without_breaks(*self.indices.allocator(), text)?;
        self.push_link(fragment.as_slice(), index, is_own)
    }

    /// Appends a link with this fragment, unless the document itself has the anchor.
    fn push_link(&mut self, fragment: &[u8], index: usize, is_own: bool) -> Result<(), AllocError>
        requires { IsEven self.old }
        ensures { OnOk result (HasRows self.old self.new (rows_unless (is_own && is_indicated self.old.ids fragment.now) fragment.now index)) }
    {
        let exists = self.has_own(fragment, is_own)?;
        if exists {
            return Ok(());
        }
        self.fragments.push(fragment)?;
        self.indices.push(stored_index(index))?;
        Ok(())
    }

    /// Whether a link with this fragment leads to an anchor of the document itself.
    fn has_own(&self, fragment: &[u8], is_own: bool) -> Result<bool, AllocError>
        ensures { IfOk result (λ exists. exists ≡ (is_own && is_indicated self.now.ids fragment.now)) }
    {
        if !is_own {
            return Ok(false);
        }
        is_indicated(*self.indices.allocator(), &self.ids, fragment)
    }

    /// Frees unused memory, since there are many such values, which live long.
    fn shrink_to_fit(&mut self)
        ensures ids { self.new.ids ≡ self.old.ids }
        ensures fragments { self.new.fragments ≡ self.old.fragments }
        ensures indices { self.new.indices.items ≡ self.old.indices.items }
        ensures ends { self.new.ends.items ≡ self.old.ends.items }
    {
        self.fragments.shrink_to_fit();
        self.indices.shrink_to_fit();
        self.ends.shrink_to_fit();
    }
}

/// The index in four bytes, or `FAR`.
fn stored_index(index: usize) -> u32
    ensures { known_index result ≡ index_of index }
{
    match u32::try_from(index) {
        Ok(index) => index,
        Err(_) => FAR,
    }
}

/// The number in four bytes. If it does not fit, the error is out of memory.
fn in_four_bytes(number: usize) -> Result<u32, AllocError>
    ensures { IfOk result (λ small. small ≡ number) }
{
    match u32::try_from(number) {
        Ok(number) => Ok(number),
        Err(_) => Err(AllocError),
    }
}

/// The anchors of a document at a URL, from its ids and links; `writer` resolves the links.
///
/// # Errors
/// Out of memory.
pub(crate) fn anchors_of(
    alloc: Global,
    ids: &Ids,
    raw: &RawLinks,
    writer: LinkWriter,
    url: &CanonUrl,
) -> Result<AnchorTargets, AllocError>
    requires { writer.links ≡ [] }
    ensures { IfOk result (λ found. AreKept writer.base writer.charset url.now ids.now raw.now.texts found) }
{
    let mut targets = Targets::new(alloc, writer, url)?;
    let links = marked_links(alloc, raw, &mut targets)?;
    let mut found = AnchorTargets {
        anchors: Anchors::with(ids.ascending(alloc)?, alloc),
        urls: Vec::new(alloc),
    };
    found.push_all(raw, url, &targets, links.as_slice())?;
    found.anchors.shrink_to_fit();
    Ok(found)
}

impl AnchorTargets {
    /// Appends these links of the document at a URL, target by target.
    fn push_all(
        &mut self,
        raw: &RawLinks,
        url: &CanonUrl,
        targets: &Targets<'_>,
        links: &[MarkedLink],
    ) -> Result<(), AllocError>
        requires { IsBuilt self.old }
        ensures ids { OnOk result (self.new.anchors.ids ≡ self.old.anchors.ids) }
        ensures built { OnOk result (IsBuilt self.new) }
        ensures kept { OnOk result (kept_of self.new ≡ kept_of self.old ++ flat_map (kept_link raw.now.texts self.old.anchors.ids targets.now.urls.items url.now) links.now) }
    {
        let mut rest = links;
        'targets: while let Some(first) = rest.first() {
            let (own, more) = rest.split_at(run_len(first.target, rest));
            match targets.url(first.target) {
                Some(target) => self.push_target(raw, url, target, own)?,
                None => {}
            }
            rest = more;
        }
        Ok(())
    }

    /// Appends these links, which lead to one target.
    fn push_target(
        &mut self,
        raw: &RawLinks,
        url: &CanonUrl,
        target: &CanonUrl,
        links: &[MarkedLink],
    ) -> Result<(), AllocError>
        requires { IsBuilt self.old }
        ensures ids { OnOk result (self.new.anchors.ids ≡ self.old.anchors.ids) }
        ensures built { OnOk result (IsBuilt self.new) }
        ensures kept { OnOk result (kept_of self.new ≡ kept_of self.old ++ led target.now (flat_map (row_of raw.now.texts (bytes_eq target.now url.now) self.old.anchors.ids) links.now)) }
    {
        let is_own = target.as_str() == url.as_str();
        if self.anchors.push_target(raw, is_own, links)? {
            self.urls.push(target.clone()?)?;
        }
        Ok(())
    }
}
