//! The pages of a site, as a saved web and as a source for a crawl, and what is known of them.
ghost use Rattle.std.specs.Prelude.{◌≡◌, ◌==◌, IfErr, IfOk, length, not, string_bytes};
ghost use Rattle.saved_site.specs.Aliases.{AreAliases};
ghost use Rattle.saved_site.specs.Below.{IsWebBelow};
ghost use Rattle.saved_site.specs.Linked.{IsSiteSource};
ghost use Rattle.saved_site.specs.Meaning.{IsOfWeb, IsSiteWeb};
ghost use Rattle.saved_site.specs.Served.{AliasesAscend, AnchorsAscend, AreServed, HaveAnchors, IsServedPage};
ghost use Rattle.saved_site.specs.Sitemaps.{AreListed, named_sitemaps};
ghost use Rattle.saved_site.specs.declared.page.SitePage.{SitePage};

use crate::aliases::aliases_among;
use crate::linked::{LinkedPages, Linker};
use crate::page_sink::PageSink;
use crate::rounds::make_all;
use crate::site_data::SiteData;
use crate::site_name::SiteName;
use crate::site_reader::SiteReader;
use crate::sitemaps::ListedUrls;
use crate::tasks::TaskQueue;
use crate::web_text::WebText;
use crawl_keys::CanonUrl;
use document_links::{LinkPlaces, PageAnchors};
use site_files::{Alias, FileBytes, Note, SiteError, SiteFiles};
use std::alloc::{AllocError, Global};
use std::marker::Brand;
use std::thread::Threads;

/// The saved web of a site.
#[derive(Drop)]
pub struct Web {
    pub text: WebText,
    /// Notes about what was skipped or changed, in the order of names and then of URLs.
    pub notes: Vec<Note>,
}

/// The pages of a site as a source for a crawl, and what is known of them.
#[derive(Drop)]
pub struct LinkedSite {
    pub pages: LinkedPages,
    /// Notes about what was skipped or changed, in the order of names and then of URLs.
    pub notes: Vec<Note>,
    /// The aliases, in the order of their URLs.
    pub aliases: Vec<Alias>,
    /// The own URLs of its HTML and XHTML documents, in the order of their URLs.
    pub documents: Vec<CanonUrl>,
    /// The anchors of its pages, in the order of their URLs, if the rules ask for them and they are known.
    pub anchors: Vec<PageAnchors>,
    /// The positions of the links in its documents and their invalid links, in the order of the documents' URLs, if the rules ask for
    /// them.
    pub places: Vec<LinkPlaces>,
    /// The URLs that the sitemaps of the site list, in order. A sitemap is known by its name, or another one names it.
    pub listed: Vec<CanonUrl>,
    /// Whether the site has a sitemap that is known by its name.
    pub has_sitemap: bool,
}

/// Makes the saved web of a site from the bytes of its files. `seeds` are links on the top at which a crawl starts. Like links in
/// documents, they can have another spelling or a query.
///
/// # Errors
/// `TooLarge`, `NoMemory`.
pub fn site_web<R: Threads + Sync, B: FileBytes + Sync>(
    rt: &R,
    alloc: Global,
    files: &SiteFiles<'_>,
    seeds: &[String],
    bytes: &B,
) -> Result<Web, SiteError>
    ensures web { IfOk result (λ web. IsSiteWeb web.text) }
    ensures below { IfOk result (λ web. IsWebBelow (string_bytes files.now.site.top) web.text) }
    ensures error { IfErr result IsOfWeb }
{
    let site = SiteReader::new(files, bytes);
    let data = data_of(rt, alloc, &site, seeds)?;
    let SiteData { sinks, notes, .. } = data;
    let text = WebText::new(alloc, files.top(), sinks)?;
    Ok(Web { text, notes })
}

/// Makes the pages of that saved web, without its text.
///
/// # Errors
/// `TooLarge`, `NoMemory`.
pub fn site_pages<R: Threads + Sync, B: FileBytes + Sync>(
    rt: &R,
    alloc: Global,
    files: &SiteFiles<'_>,
    seeds: &[String],
    bytes: &B,
) -> Result<LinkedSite, SiteError>
    ensures source { IfOk result (λ site. IsSiteSource (string_bytes files.now.site.top) site.pages) }
    // Each page is the one that a server returns for its URL.
    ensures served { IfOk result (λ site. AreServed (IsServedPage files.now (B.reads bytes.now)) site.pages) }
    // The anchors are those of the pages.
    ensures anchors { IfOk result (λ site. HaveAnchors (IsServedPage files.now (B.reads bytes.now)) site.pages site.anchors.items) }
    ensures order { IfOk result (λ site. AnchorsAscend site.anchors.items × AliasesAscend site.aliases.items) }
    ensures aliases { IfOk result (λ site. AreAliases site.pages site.aliases.items) }
    // The URLs that sitemaps list are the links of their pages.
    ensures listed { IfOk result (λ site. AreListed files.now site.pages site.listed.items) }
    ensures sitemaps { IfOk result (λ site. site.has_sitemap ≡ not (length (named_sitemaps files.now) == 0)) }
    ensures error { IfErr result IsOfWeb }
{
    named_pages::<Brand, R, B>(rt, alloc, files, seeds, bytes)
}

/// Makes these pages, with a name for the site.
fn named_pages<K: SiteName + Send + Sync, R: Threads + Sync, B: FileBytes + Sync>(
    rt: &R,
    alloc: Global,
    files: &SiteFiles<'_>,
    seeds: &[String],
    bytes: &B,
) -> Result<LinkedSite, SiteError>
    requires { (page : SitePage) → IsServedPage files.now (B.reads bytes.now) page → K.serves page }
    ensures source { IfOk result (λ site. IsSiteSource (string_bytes files.now.site.top) site.pages) }
    ensures served { IfOk result (λ site. AreServed K.serves site.pages) }
    ensures anchors { IfOk result (λ site. HaveAnchors K.serves site.pages site.anchors.items) }
    ensures order { IfOk result (λ site. AnchorsAscend site.anchors.items × AliasesAscend site.aliases.items) }
    ensures aliases { IfOk result (λ site. AreAliases site.pages site.aliases.items) }
    ensures listed { IfOk result (λ site. AreListed files.now site.pages site.listed.items) }
    ensures sitemaps { IfOk result (λ site. site.has_sitemap ≡ not (length (named_sitemaps files.now) == 0)) }
    ensures error { IfErr result IsOfWeb }
{
    let site: SiteReader<'_, '_, B, Linker<K>> = SiteReader::new(files, bytes);
    let mut data = data_of(rt, alloc, &site, seeds)?;
    data.sort()?;
    Ok(linked_site(alloc, files, data)?)
}

/// The site with these pages.
fn linked_site<K: SiteName>(
    alloc: Global,
    files: &SiteFiles<'_>,
    data: SiteData<Linker<K>>,
) -> Result<LinkedSite, AllocError>
    ensures source { IfOk result (λ site. IsSiteSource (string_bytes files.now.site.top) site.pages) }
    ensures served { IfOk result (λ site. AreServed K.serves site.pages) }
    ensures anchors { IfOk result (λ site. HaveAnchors K.serves site.pages site.anchors.items) }
    ensures order { IfOk result (λ site. AnchorsAscend site.anchors.items × AliasesAscend site.aliases.items) }
    ensures aliases { IfOk result (λ site. AreAliases site.pages site.aliases.items) }
    ensures listed { IfOk result (λ site. AreListed files.now site.pages site.listed.items) }
    ensures sitemaps { IfOk result (λ site. site.has_sitemap ≡ not (length (named_sitemaps files.now) == 0)) }
{
    let SiteData {
        sinks,
        notes,
        aliases,
        documents,
        places,
        ..
    } = data;
    let both = LinkedPages::new(alloc, files.top(), sinks)?;
    let (pages, anchors) = both;
    let aliases = aliases_among(alloc, &pages, aliases)?;
    let listed = ListedUrls::new(alloc, files, &pages)?;
    Ok(LinkedSite {
        pages,
        notes,
        aliases,
        documents,
        anchors,
        places,
        listed: listed.urls,
        has_sitemap: listed.has_sitemap,
    })
}

/// Makes all pages of a site.
fn data_of<R: Threads + Sync, B: FileBytes + Sync, S: PageSink>(
    rt: &R,
    alloc: Global,
    site: &SiteReader<'_, '_, B, S>,
    seeds: &[String],
) -> Result<SiteData<S>, SiteError>
    ensures { IfErr result IsOfWeb }
{
    let files = site.files;
    let mut data = SiteData::new(alloc);
    files.copy_notes(&mut data.notes)?;
    let mut queue = TaskQueue::new(alloc, files, seeds)?;
    make_all(rt, site, &mut queue, &mut data)?;
    Ok(data)
}
