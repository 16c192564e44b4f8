//! The URLs to which the links of pages lead, as indices.
ghost use Rattle.std.specs.Prelude.{◌≡◌, true, None, IfOk, OnOk, count_by, is_none, filter_map};
ghost use Rattle.saved_pages.specs.UrlIndices.{KeepIndices, LeadTo};
ghost use Rattle.saved_pages.specs.SavedWeb.{link_url};
ghost use Rattle.saved_site.specs.LinkTables.{LeadsTo, IsTable, IsTableOf};
ghost use Rattle.saved_site.specs.LinkedPages.{IsLed, page_led};
ghost use Rattle.saved_site.specs.Meaning.{under_page};
ghost use Rattle.saved_site.specs.declared.linked.link_table.LinkTable.{LinkTable};

use crate::linked::known_texts::KnownTexts;
use crate::linked::linked_page::Leads;
use crate::page::{LineText, Under};
use crawl_keys::{Base, CanonUrl, before_fragment, is_of_folder};
use document_links::LinkTexts;
use saved_pages::{LinkText, UrlList};
use std::alloc::{AllocError, Global};
use std::mem;

/// The most texts that are known of a folder.
const MOST_TEXTS: usize = 4_096;

/// The URLs that links lead to, and what is known of links by their texts on the pages of a folder.
#[derive(Drop)]
pub(crate) struct LinkTable {
    pub(crate) urls: UrlList,
    pub(crate) known: KnownTexts,
    /// Room for the indices of a page's links.
    room: Vec<u32>,
}

impl LinkTable {
    /// One of no URL.
    pub(crate) fn new(alloc: Global) -> LinkTable
        ensures { IsTable None result }
    {
        LinkTable {
            urls: UrlList::new(alloc),
            known: KnownTexts::new(alloc),
            room: Vec::new(alloc),
        }
    }

    /// The same for the links of the next page. What is known stays known where the last one was in its folder.
    pub(crate) fn turned(self, alloc: Global, last: &Option<Base>, next: &Base) -> LinkTable
        requires { IsTable last.now self }
        ensures known { IsTableOf next.now result }
        ensures urls { result.urls ≡ self.urls }
    {
        if stays(last, next) {
            return self;
        }
        self.forgotten(alloc)
    }

    /// The same with no text known.
    fn forgotten(self, alloc: Global) -> LinkTable
        ensures none { (base : _) → IsTableOf base result }
        ensures urls { result.urls ≡ self.urls }
    {
        let LinkTable { urls, room, .. } = self;
        LinkTable {
            urls,
            known: KnownTexts::new(alloc),
            room,
        }
    }

    /// The URLs to which a page leads, by its links or its redirect.
    #[tactic(auto, using(crate::proofs::LinkIndices::led_page))]
    pub(crate) fn leads(
        &mut self,
        alloc: Global,
        base: &Base,
        under: &Under,
    ) -> Result<Leads, AllocError>
        requires { IsTableOf base.now self.old }
        ensures page { IfOk result (λ leads. page_led self.new.urls leads ≡ under_page base.now under.now) }
        ensures led { IfOk result (IsLed self.new.urls) }
        ensures keep { KeepIndices self.old.urls self.new.urls }
        ensures known { OnOk result (IsTableOf base.now self.new) }
    {
        match under {
            Under::Links(links) => {
                let mut room = mem::replace(&mut self.room, Vec::new(alloc));
                let skipped = self.find_indices(alloc, base, links, &mut room)?;
                let indices = room.as_slice().to_vec(alloc)?;
                self.room = room;
                Ok(Leads::Links { indices, skipped })
            }
            Under::Moved(text) => {
                let to = moved_to(alloc, base, text)?;
                Ok(Leads::Moved(to))
            }
        }
    }

    /// Replaces the indices by those of these links' URLs, and returns the number of links that lead to no URL.
    fn find_indices(
        &mut self,
        alloc: Global,
        base: &Base,
        links: &LinkTexts,
        indices: &mut Vec<u32>,
    ) -> Result<u64, AllocError>
        requires { IsTableOf base.now self.old }
        ensures lead { OnOk result (LeadTo self.new.urls indices.new.items (filter_map (link_url base.now) links.now)) }
        ensures skipped { IfOk result (λ skipped. skipped ≡ count_by (λ text. is_none (link_url base.now text)) links.now) }
        ensures keep { KeepIndices self.old.urls self.new.urls }
        ensures known { OnOk result (IsTableOf base.now self.new) }
    {
        indices.clear();
        let mut skipped: u64 = 0;
        let count = links.len();
        let mut number = 0;
        // Not a `for`: the proof needs the end of each arm.
        'texts: while number < count {
            let text = links.text(number);
            number += 1;
            match self.index(alloc, base, text)? {
                Some(index) => indices.push(index)?,
                None => skipped += 1,
            }
        }
        Ok(skipped)
    }

    /// The index of the URL that a link with this text leads to, if it leads to one.
    fn index(&mut self, alloc: Global, base: &Base, text: &str) -> Result<Option<u32>, AllocError>
        requires { IsTableOf base.now self.old }
        ensures leads { IfOk result (λ index. LeadsTo self.new.urls index (link_url base.now text.now)) }
        ensures keep { KeepIndices self.old.urls self.new.urls }
        ensures known { OnOk result (IsTableOf base.now self.new) }
    {
        // It leads to the page itself, so it is not known of a folder.
        if begins_fragment(text) {
            return url_index(&mut self.urls, alloc, base, text);
        }
        let key = LinkText::new(before_fragment(text));
        match self.known.find(&key) {
            Some(index) => Ok(index),
            None => self.learn(alloc, base, &key),
        }
    }

    /// Likewise for a text that is not known: if it leads to one URL from all pages of the folder, it is known from now on.
    fn learn(
        &mut self,
        alloc: Global,
        base: &Base,
        key: &LinkText<'_>,
    ) -> Result<Option<u32>, AllocError>
        requires { IsTableOf base.now self.old }
        ensures leads { IfOk result (λ index. LeadsTo self.new.urls index (link_url base.now key.now)) }
        ensures keep { KeepIndices self.old.urls self.new.urls }
        ensures known { OnOk result (IsTableOf base.now self.new) }
    {
        let index = url_index(&mut self.urls, alloc, base, key.as_str())?;
        if is_of_folder(key.as_str()) && self.known.len() < MOST_TEXTS {
            self.known.add(alloc, key, index)?;
        }
        Ok(index)
    }
}

/// Whether the text of a link is only a fragment.
fn begins_fragment(text: &str) -> bool {
    matches!(text.as_bytes(), [b'#', ..])
}

/// Whether what is known of the last page stays known on the next one.
#[tactic(auto, using(crate::proofs::LinkIndices::known_in_folder))]
fn stays(last: &Option<Base>, next: &Base) -> bool
    ensures { result ≡ true → (table : LinkTable) → IsTable last.now table → IsTableOf next.now table }
{
    match last {
        Some(base) => base.shares_folder(next),
        None => false,
    }
}

/// The index of the URL that a link with this text leads to, which is put to the others.
fn url_index(
    urls: &mut UrlList,
    alloc: Global,
    base: &Base,
    text: &str,
) -> Result<Option<u32>, AllocError>
    ensures leads { IfOk result (λ index. LeadsTo urls.new index (link_url base.now text.now)) }
    ensures keep { KeepIndices urls.old urls.new }
{
    match base.link(alloc, text)? {
        Some(url) => {
            let index = urls.find_or_insert(&url)?;
            Ok(Some(index))
        }
        None => Ok(None),
    }
}

/// The URL to which a redirect leads.
fn moved_to(alloc: Global, base: &Base, text: &LineText) -> Result<Option<CanonUrl>, AllocError>
    ensures { IfOk result (λ to. to ≡ link_url base.now text.now) }
{
    match simdutf8::basic::from_utf8(text.as_bytes()) {
        Ok(text) => base.link(alloc, text),
        Err(_) => unreachable!(),
    }
}
