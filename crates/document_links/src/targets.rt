//! The URLs to which a document's links lead.
ghost use Rattle.std.specs.Prelude.{◌≡◌, [], None, IfOk, IfSome, OnOk, option_map, slice_index_or};
ghost use Rattle.document_links.specs.Keeping.{AreTargets, GivesNumber, HasNumber, IsTarget};

use crate::link_writer::LinkWriter;
use crate::page_base::resolved;
use crawl_keys::{Base, CanonUrl};
use std::alloc::{AllocError, Global};
use std::collections::BTreeMap;

/// The URLs to which a document's links lead. Links with the same text up to their `#` have one number, and are resolved once.
#[derive(Drop)]
pub(crate) struct Targets<'t> {
    alloc: Global,
    writer: LinkWriter,
    base: Base,
    numbers: BTreeMap<&'t [u8], usize>,
    /// The last text and its number. Many links have the same text as the link before.
    last: Option<(&'t [u8], usize)>,
    /// The URL for each number, if the links have a canonical URL.
    urls: Vec<Option<CanonUrl>>,
}

impl<'t> Targets<'t> {
    /// An empty list of targets, for the document at a URL.
    pub(crate) fn new(
        alloc: Global,
        writer: LinkWriter,
        url: &CanonUrl,
    ) -> Result<Targets<'t>, AllocError>
        requires { writer.links ≡ [] }
        ensures targets { IfOk result (λ targets. AreTargets targets) }
        ensures base { IfOk result (λ targets. targets.writer.base ≡ writer.base) }
        ensures charset { IfOk result (λ targets. targets.writer.charset ≡ writer.charset) }
        ensures page { IfOk result (λ targets. targets.base ≡ url.now) }
    {
        Ok(Targets {
            alloc,
            writer,
            base: Base::new(alloc, url)?,
            numbers: BTreeMap::new(alloc),
            last: None,
            urls: Vec::new(alloc),
        })
    }

    /// The number of links with this text, which ends at their first `#`. The first number is 0. A new text is resolved, and gets the
    /// next number.
    pub(crate) fn number_of(&mut self, text: &'t [u8]) -> Result<usize, AllocError>
        requires { AreTargets self.old }
        ensures { IfOk result (λ number. GivesNumber self.old self.new text.now number) }
    {
        match self.find(text) {
            Some(number) => {
                self.last = Some((text, number));
                Ok(number)
            }
            None => self.insert(text),
        }
    }

    /// The number of links with this text, if it has one. No clause says that it is found: a text that is not found is resolved again,
    /// which only takes time.
    fn find(&self, text: &[u8]) -> Option<usize>
        requires { AreTargets self.now }
        ensures { IfSome result (λ number. HasNumber self.now text.now number) }
    {
        if let Some((last, number)) = self.last
            && last == text
        {
            return Some(number);
        }
        self.numbers.get(text).copied()
    }

    /// Gives the next number to this text.
    fn insert(&mut self, text: &'t [u8]) -> Result<usize, AllocError>
        requires { AreTargets self.old }
        ensures { IfOk result (λ number. GivesNumber self.old self.new text.now number) }
    {
        let number = self.urls.len();
        let url = url_of(self.alloc, &mut self.writer, &self.base, text)?;
        self.urls.push(url)?;
        self.numbers.insert(text, number)?;
        self.last = Some((text, number));
        Ok(number)
    }

    /// The URL for a number.
    pub(crate) fn url(&self, number: usize) -> Option<&CanonUrl>
        ensures { option_map (λ url. url.now) result ≡ slice_index_or self.now.urls.items number None }
    {
        match self.urls.get(number) {
            Some(Some(url)) => Some(url),
            _ => None,
        }
    }
}

/// The URL to which a link leads, by its text as it is written.
#[tactic(auto, using(crate::proofs::Fitting::fits_utf8, crate::proofs::Fitting::plain_clean, crate::proofs::Parsing::resolve_written, crate::proofs::Fitting::has_room_whole))]
fn url_of(
    alloc: Global,
    writer: &mut LinkWriter,
    base: &Base,
    link: &[u8],
) -> Result<Option<CanonUrl>, AllocError>
    requires { writer.old.links ≡ [] }
    ensures base { writer.new.base ≡ writer.old.base }
    ensures charset { writer.new.charset ≡ writer.old.charset }
    ensures links { OnOk result (writer.new.links ≡ []) }
    ensures url { IfOk result (λ url. IsTarget writer.old.base writer.old.charset base.now link.now url) }
{
    if writer.keeps(link) {
        return resolved(alloc, base, link);
    }
    let texts = writer.texts_of(link)?;
    if texts.len() != 1 {
        return Ok(None);
    }
    resolved(alloc, base, texts.text(0).as_bytes())
}
