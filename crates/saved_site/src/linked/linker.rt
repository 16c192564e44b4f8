//! The pages that one thread makes, with the indices of their links' URLs, and their anchors.
ghost use Rattle.std.specs.Prelude.{◌≡◌, ◌++◌, [], true, IfOk, OnOk, if◌then◌else◌};
ghost use Rattle.std.specs.Option.{option_to_list};
ghost use Rattle.saved_pages.specs.UrlIndices.{KeepIndices};
ghost use Rattle.saved_site.specs.Below.{is_next};
ghost use Rattle.saved_site.specs.Linked.{AreKept, found_of, with_found};
ghost use Rattle.saved_site.specs.LinkedPages.{IsLed, IsLonger, IsPageList, page_led};
ghost use Rattle.saved_site.specs.LinkTables.{IsTableOf};
ghost use Rattle.saved_site.specs.Meaning.{under_page};
ghost use Rattle.saved_site.specs.Served.{HaveAnchors};

use crate::below::is_next;
use crate::linked::link_table::LinkTable;
use crate::linked::linked_page::LinkedPage;
use crate::linked::page_list::{PageList, ThreadPages};
use crate::linked::push_if;
use crate::page::SitePage;
use crate::page_sink::PageSink;
use crate::site_name::SiteName;
use crawl_keys::Base;
use document_links::PageAnchors;
use std::alloc::{AllocError, Global};
use std::marker::{Model, PhantomData};

/// Pages of the site with this top, whose links are looked up as they come.
#[derive(Drop)]
pub(crate) struct Linker<K: SiteName> {
    alloc: Global,
    top: String,
    table: LinkTable,
    /// The page that came last.
    last: Option<Base>,
    pages: PageList,
    /// The anchors of these pages.
    anchors: Vec<PageAnchors>,
    of: PhantomData<K>,
}

// Contracts see the top, and what is found at each URL.
impl<K: SiteName> Model for Linker<K> {
    ghost use Rattle.std.specs.Prelude.{ℕ, List, string_bytes};
    ghost use Rattle.crawl_pages.specs.declared.page.Page.{Page};

    ghost Value = { List ℕ × List (List ℕ × Page) };

    ghost use Rattle.saved_site.specs.Linked.{AreKept};
    ghost use Rattle.saved_site.specs.LinkTables.{IsTable};
    ghost use Rattle.saved_site.specs.LinkedPages.{AreLed, IsPageList, found_all};
    ghost use Rattle.saved_site.specs.Served.{HaveAnchors};

    ghost view = { λ linker. (string_bytes linker.top, found_all linker.table.urls linker.pages.list.items) };

    ghost invariant = { λ linker. IsTable linker.last linker.table × (IsPageList linker.pages × (AreLed linker.table.urls linker.pages.list.items × (AreKept K.serves (string_bytes linker.top) (found_all linker.table.urls linker.pages.list.items) × HaveAnchors K.serves (found_all linker.table.urls linker.pages.list.items) linker.anchors.items))) };
}

impl<K: SiteName + Send + Sync> PageSink for Linker<K> {
    ghost serves = { K.serves };

    fn empty(alloc: Global, top: &str) -> Result<Linker<K>, AllocError>
        ensures { IfOk result (λ linker. linker ≡ (top.now, [])) }
    {
        let top = String::from_str(alloc, top)?;
        Ok(Linker {
            alloc,
            top,
            table: LinkTable::new(alloc),
            last: None,
            pages: PageList::new(alloc),
            anchors: Vec::new(alloc),
            of: PhantomData,
        })
    }

    /// A page that is not below the top is left out.
    fn with_page(self, page: SitePage) -> Result<Linker<K>, AllocError>
        requires { ∥ K.serves page ∥₁ }
        ensures { IfOk result (λ linker. linker ≡ (self.0, with_found self.0 self.1 (found_of page))) }
    {
        let is_next = is_next(self.alloc, self.top.as_str(), &[], page.url())?;
        if !is_next {
            return Ok(self);
        }
        self.with_kept(page)
    }
}

impl<K: SiteName> Linker<K> {
    /// The same with a page below the top, and with its anchors.
    fn with_kept(self, page: SitePage) -> Result<Linker<K>, AllocError>
        requires kept { is_next self.0 [] page.url ≡ true }
        requires served { ∥ K.serves page ∥₁ }
        ensures { IfOk result (λ linker. linker ≡ (self.0, with_found self.0 self.1 (found_of page))) }
    {
        // For the proof: the page fits in lines.
        page.fits_lines();
        let base = Base::new(self.alloc, page.url())?;
        let Linker {
            alloc,
            top,
            table,
            last,
            pages,
            anchors,
            ..
        } = self;
        let table = table.turned(alloc, &last, &base);
        let count = pages.list.len();
        let both = with_led(alloc, table, pages, &base, &page)?;
        let (table, pages) = both;
        let is_new = count < pages.list.len();
        let anchors = with_own(anchors, is_new, page.into_anchors())?;
        Ok(Linker {
            alloc,
            top,
            table,
            last: Some(base),
            pages,
            anchors,
            of: PhantomData,
        })
    }

    /// Whether its pages are those of the site with this top.
    pub(crate) fn is_of(&self, top: &str) -> bool
        ensures { result ≡ true → self.now.0 ≡ top.now }
    {
        self.top.as_str() == top
    }

    /// Its pages and their anchors.
    pub(crate) fn into_pages(self) -> (ThreadPages, Vec<PageAnchors>)
        ensures pages { result.0 ≡ self.1 }
        ensures kept { AreKept K.serves self.0 result.0 }
        ensures anchors { HaveAnchors K.serves result.0 result.1.items }
    {
        let Linker {
            table,
            pages,
            anchors,
            ..
        } = self;
        let LinkTable { urls, .. } = table;
        (ThreadPages::new(urls.into_urls(), pages), anchors)
    }
}

/// The anchors with those of a page, if the page is new and has any.
#[tactic(auto, using(crate::proofs::Anchors::none_added))]
fn with_own(
    anchors: Vec<PageAnchors>,
    is_new: bool,
    own: Option<PageAnchors>,
) -> Result<Vec<PageAnchors>, AllocError>
    ensures { IfOk result (λ all. all.items ≡ anchors.items ++ (if is_new then option_to_list own else [])) }
{
    let mut anchors = anchors;
    match own {
        Some(own) => push_if(is_new, own, &mut anchors)?,
        None => {}
    }
    Ok(anchors)
}

/// The pages with one more, whose links are looked up in a table, and that.
fn with_led(
    alloc: Global,
    table: LinkTable,
    pages: PageList,
    base: &Base,
    page: &SitePage,
) -> Result<(LinkTable, PageList), AllocError>
    requires table { IsTableOf base.now table }
    requires pages { IsPageList pages }
    ensures { IfOk result (λ both. IsLonger base.now page.now table.urls pages.list.items both.0 both.1) }
{
    let mut table = table;
    let one = led(alloc, &mut table, base, page)?;
    let pages = pages.with_page(one)?;
    Ok((table, pages))
}

/// The page, whose links are looked up.
fn led(
    alloc: Global,
    table: &mut LinkTable,
    base: &Base,
    page: &SitePage,
) -> Result<LinkedPage, AllocError>
    requires { IsTableOf base.now table.old }
    ensures url { IfOk result (λ one. one.url ≡ page.now.url) }
    ensures leads { IfOk result (λ one. page_led table.new.urls one.leads ≡ under_page base.now page.now.under) }
    ensures there { IfOk result (λ one. IsLed table.new.urls one.leads) }
    ensures keep { KeepIndices table.old.urls table.new.urls }
    ensures known { OnOk result (IsTableOf base.now table.new) }
{
    let leads = table.leads(alloc, base, page.under())?;
    let url = page.url().clone()?;
    Ok(LinkedPage { url, leads })
}
