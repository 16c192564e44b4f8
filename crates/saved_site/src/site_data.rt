//! The pages of a site, and what is known of them.
use crate::new_page::NewPage;
use crate::page_maker::PageMaker;
use crate::page_sink::PageSink;
use crawl_keys::CanonUrl;
use document_links::{InvalidLink, LinkPlaces};
use site_files::{Alias, Note};
use std::alloc::{AllocError, Global};
use std::mem;

/// The notes about the page at a URL.
#[derive(Drop)]
struct PageNotes {
    url: CanonUrl,
    notes: Vec<Note>,
}

/// The pages, and what is known of them.
#[derive(Drop)]
pub(crate) struct SiteData<S> {
    /// The pages that each thread has made.
    pub(crate) sinks: Vec<S>,
    pub(crate) notes: Vec<Note>,
    pub(crate) aliases: Vec<Alias>,
    pub(crate) documents: Vec<CanonUrl>,
    pub(crate) places: Vec<LinkPlaces>,
    /// The notes about the pages of a round that has not ended.
    page_notes: Vec<PageNotes>,
}

impl<S: PageSink> SiteData<S> {
    /// No pages and no notes.
    pub(crate) fn new(alloc: Global) -> SiteData<S> {
        SiteData {
            sinks: Vec::new(alloc),
            notes: Vec::new(alloc),
            aliases: Vec::new(alloc),
            documents: Vec::new(alloc),
            places: Vec::new(alloc),
            page_notes: Vec::new(alloc),
        }
    }

    /// Adds what is known of these pages.
    pub(crate) fn push_all(&mut self, pages: Vec<NewPage>) -> Result<(), AllocError> {
        let mut pages = pages;
        for page in pages.iter_mut() {
            self.push(page)?;
        }
        Ok(())
    }

    /// Takes over what is known of a page, except its lines and its anchors, which the sink has.
    fn push(&mut self, page: &mut NewPage) -> Result<(), AllocError> {
        if page.is_document {
            self.documents.push(page.url.clone()?)?;
        }
        self.push_alias(page)?;
        self.push_places(page)?;
        self.push_notes(page)
    }

    /// Adds an alias from the page's URL to the own URL of its file, if the page is an alias.
    fn push_alias(&mut self, page: &mut NewPage) -> Result<(), AllocError> {
        let Some(own) = page.own.take() else {
            return Ok(());
        };
        let url = page.url.clone()?;
        self.aliases.push(Alias { url, own })?;
        Ok(())
    }

    /// Adds the positions of the page's links and its invalid links, if it has any.
    fn push_places(&mut self, page: &mut NewPage) -> Result<(), AllocError> {
        if page.positions.is_empty() && page.invalid.is_empty() {
            return Ok(());
        }
        let alloc = *self.places.allocator();
        let url = page.url.clone()?;
        let indices = mem::replace(&mut page.positions, Vec::new(alloc));
        let invalid = mem::replace(&mut page.invalid, Vec::new(alloc));
        self.places.push(LinkPlaces {
            url,
            indices,
            invalid,
        })?;
        Ok(())
    }

    /// Adds the notes about a page to those of the round, if there are any.
    fn push_notes(&mut self, page: &mut NewPage) -> Result<(), AllocError> {
        if page.notes.is_empty() {
            return Ok(());
        }
        let alloc = *self.page_notes.allocator();
        let url = page.url.clone()?;
        let notes = mem::replace(&mut page.notes, Vec::new(alloc));
        self.page_notes.push(PageNotes { url, notes })?;
        Ok(())
    }

    /// Adds the pages of the makers of a round.
    pub(crate) fn add_makers(&mut self, makers: Vec<PageMaker<S>>) -> Result<(), AllocError> {
        for maker in makers {
            self.sinks.push(maker.into_sink())?;
        }
        Ok(())
    }

    /// Sorts the lists of documents and of positions by the URLs of the pages.
    pub(crate) fn sort(&mut self) -> Result<(), AllocError> {
        let documents = &mut self.documents;
        documents.sort_by(|a: &CanonUrl, b: &CanonUrl| a.as_str().cmp(b.as_str()))?;
        let places = &mut self.places;
        places.sort_by(|a: &LinkPlaces, b: &LinkPlaces| a.url.as_str().cmp(b.url.as_str()))
    }

    /// Moves the notes about the pages of a round to the others, in the order of the pages' URLs.
    pub(crate) fn end_round(&mut self) -> Result<(), AllocError> {
        let alloc = *self.notes.allocator();
        let mut page_notes = mem::replace(&mut self.page_notes, Vec::new(alloc));
        page_notes.sort_by(|a: &PageNotes, b: &PageNotes| a.url.as_str().cmp(b.url.as_str()))?;
        for one in page_notes.iter_mut() {
            self.notes.append(&mut one.notes)?;
        }
        Ok(())
    }
}
