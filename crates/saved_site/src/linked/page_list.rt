//! Pages, each found by its URL.
ghost use Rattle.std.specs.Prelude.{◌≡◌, ◌++◌, ◌∷◌, [], IfOk, if◌then◌else◌, is_some};
ghost use Rattle.hash_index.specs.Lists.{index_of};
ghost use Rattle.saved_site.specs.Linked.{page_with};
ghost use Rattle.saved_site.specs.LinkedPages.{IsPageList, found_all, urls_of};

use crate::linked::linked_page::LinkedPage;
use crawl_keys::CanonUrl;
use crawl_pages::Page;
use hash_index::HashIndex;
use std::alloc::{AllocError, Global};
use std::marker::Model;

/// Pages, of each URL one.
#[derive(Drop)]
pub(crate) struct PageList {
    pub(crate) list: Vec<LinkedPage>,
    /// The index of each URL's page.
    pub(crate) index: HashIndex,
}

impl PageList {
    /// None.
    pub(crate) fn new(alloc: Global) -> PageList
        ensures pages { IsPageList result }
        ensures none { result.list.items ≡ [] }
    {
        PageList {
            list: Vec::new(alloc),
            index: HashIndex::new(alloc),
        }
    }

    /// The same with a page, unless its URL has one.
    pub(crate) fn with_page(self, page: LinkedPage) -> Result<PageList, AllocError>
        requires { IsPageList self }
        ensures pages { IfOk result IsPageList }
        ensures list { IfOk result (λ pages. pages.list.items ≡ (if is_some (index_of (urls_of self.list.items) page.url) then self.list.items else self.list.items ++ page ∷ [])) }
    {
        let PageList {
            mut list,
            mut index,
        } = self;
        let found = index.find_or_insert(&list, &page)?;
        if found.is_some() {
            return Ok(PageList { list, index });
        }
        list.push(page)?;
        Ok(PageList { list, index })
    }

    /// Whether there is a page with the URL.
    pub(crate) fn has(&self, url: &CanonUrl) -> bool
        requires { IsPageList self.now }
        ensures { result ≡ is_some (index_of (urls_of self.now.list.items) url.now) }
    {
        self.index.find(&self.list, url).is_some()
    }

    /// The page with the URL, whose links have these URLs.
    #[tactic(auto, using(crate::proofs::LedPages::none_there))]
    pub(crate) fn page(
        &self,
        alloc: Global,
        urls: &[CanonUrl],
        url: &CanonUrl,
    ) -> Result<Option<Page>, AllocError>
        requires { IsPageList self.now }
        ensures { IfOk result (λ page. page ≡ page_with (found_all urls.now self.now.list.items) url.now) }
    {
        let Some(at) = self.index.find(&self.list, url) else {
            return Ok(None);
        };
        match self.list.get(at) {
            Some(page) => {
                let page = page.page(alloc, urls)?;
                Ok(Some(page))
            }
            None => Ok(None),
        }
    }
}

/// The pages that one thread made, and the URLs that their links lead to.
#[derive(Drop)]
pub(crate) struct ThreadPages {
    urls: Vec<CanonUrl>,
    pages: PageList,
}

// Contracts see what is found at each URL.
impl Model for ThreadPages {
    ghost use Rattle.std.specs.Prelude.{ℕ, List};
    ghost use Rattle.crawl_pages.specs.declared.page.Page.{Page};

    ghost Value = { List (List ℕ × Page) };

    ghost use Rattle.saved_site.specs.LinkedPages.{IsPageList, found_all};

    ghost view = { λ made. found_all made.urls.items made.pages.list.items };

    ghost invariant = { λ made. IsPageList made.pages };
}

impl ThreadPages {
    /// These pages.
    pub(crate) fn new(urls: Vec<CanonUrl>, pages: PageList) -> ThreadPages
        requires { IsPageList pages }
        ensures { result ≡ found_all urls.items pages.list.items }
    {
        ThreadPages { urls, pages }
    }

    /// Whether there is a page at the URL.
    #[tactic(auto, using(crate::proofs::LedPages::has_found))]
    pub(crate) fn has(&self, url: &CanonUrl) -> bool
        ensures { result ≡ is_some (page_with self.now url.now) }
    {
        self.pages.has(url)
    }

    /// The page at the URL, if there is one.
    pub(crate) fn page(&self, alloc: Global, url: &CanonUrl) -> Result<Option<Page>, AllocError>
        ensures { IfOk result (λ page. page ≡ page_with self.now url.now) }
    {
        self.pages.page(alloc, self.urls.as_slice(), url)
    }
}
