//! A page whose links are the indices of URLs.
ghost use Rattle.std.specs.Prelude.{◌≡◌, ◌++◌, ◌∷◌, [], slice_get, IfOk, OnOk, filter_map};
ghost use Rattle.saved_site.specs.LinkedPages.{page_led};

use crawl_keys::CanonUrl;
use crawl_pages::{Links, Page};
use hash_index::Keyed;
use std::alloc::{AllocError, Global};

/// The URLs to which a page leads.
#[derive(Drop)]
pub(crate) enum Leads {
    /// The indices of its links' URLs, in order, and how many further links lead to no URL.
    Links { indices: Vec<u32>, skipped: u64 },
    /// The URL to which it moved.
    Moved(Option<CanonUrl>),
}

/// A page whose links are the indices of URLs in a list.
#[derive(Drop)]
pub(crate) struct LinkedPage {
    pub(crate) url: CanonUrl,
    pub(crate) leads: Leads,
}

impl Keyed for LinkedPage {
    ghost use Rattle.hash_order.specs.HashOrder.{hash_of};

    ghost text = { λ page. page.url };

    ghost hash = { hash_of };

    fn text(&self) -> &str {
        self.url.as_str()
    }

    fn text_hash(&self) -> u64 {
        self.url.text_hash()
    }
}

impl LinkedPage {
    /// The page with the URLs of its links.
    pub(crate) fn page(&self, alloc: Global, urls: &[CanonUrl]) -> Result<Page, AllocError>
        ensures { IfOk result (λ page. page ≡ page_led urls.now self.now.leads) }
    {
        match &self.leads {
            Leads::Links { indices, skipped } => {
                let links = urls_at(alloc, urls, indices.as_slice())?;
                Ok(Page::Found {
                    links: Links::from(links),
                    skipped: *skipped,
                })
            }
            Leads::Moved(Some(url)) => Ok(Page::Moved {
                to: Some(url.clone()?),
            }),
            Leads::Moved(None) => Ok(Page::Moved { to: None }),
        }
    }
}

/// The URLs at these indices, sharing their texts.
fn urls_at(alloc: Global, urls: &[CanonUrl], indices: &[u32]) -> Result<Vec<CanonUrl>, AllocError>
    ensures { IfOk result (λ links. links.items ≡ filter_map (slice_get urls.now) indices.now) }
{
    let mut links = Vec::with_capacity(alloc, indices.len())?;
    for index in indices {
        push_url(&mut links, urls, *index)?;
    }
    Ok(links)
}

/// Appends the URL at the index.
#[tactic(auto, using(saved_pages::proofs::PageIndex::item_at, crate::proofs::LedPages::url_there, crate::proofs::LedPages::no_url_there))]
fn push_url(links: &mut Vec<CanonUrl>, urls: &[CanonUrl], index: u32) -> Result<(), AllocError>
    ensures { OnOk result (links.new.items ≡ links.old.items ++ filter_map (slice_get urls.now) (index ∷ [])) }
{
    match urls.get(index as usize) {
        Some(url) => {
            let copy = url.clone()?;
            links.push(copy)?;
            Ok(())
        }
        None => Ok(()),
    }
}
