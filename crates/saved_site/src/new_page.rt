//! Makes the page of a task from the contents of its file.
ghost use Rattle.std.specs.Prelude.{◌≡◌, ◌∷◌, ◌++◌, [], IfOk, IfSome, OnOk, Some, map, option_map, string_bytes};
ghost use Rattle.saved_site.specs.FileLinks.{IsFilePage, IsPageOf, IsPageWith, is_read};
ghost use Rattle.saved_site.specs.SiteAnchors.{HaveUrls, KeepsAnchors, target_url};
ghost use Rattle.saved_site.specs.SiteTexts.{begins_slash, is_path, is_url, link_to, redirect_to, target_at, text_to, with_query, without_origin};
ghost use Rattle.saved_site.specs.TaskPages.{IsReadPage};
ghost use Rattle.saved_site.specs.declared.page.Under.TheVariants.{Links};
ghost use Rattle.site_files.specs.Files.{url_of};
ghost use Rattle.site_files.specs.Server.{after_front, query_of};

use crate::file_document::file_document;
use crate::page::{LineText, SiteAnchors, SitePage, Under};
use crate::spellings::{link_spellings, text_spelling};
use crate::task::Task;
use crawl_keys::CanonUrl;
use document_links::{
    AnchorTargets, Document, InvalidLink, LINK_FRONT, LinkTexts, RawLinks, Target, fits,
    is_document,
};
use site_files::{FileKind, Left, Note, SiteFiles};
use std::alloc::{AllocError, Global};

/// A new page, and what is known of it.
#[derive(Drop)]
pub(crate) struct NewPage {
    /// The number of its task.
    pub(crate) number: usize,
    pub(crate) url: CanonUrl,
    /// The page, unless its URL is too long or the page is in a sink.
    pub(crate) page: Option<SitePage>,
    /// The number of bytes of the page in a saved web, at least.
    pub(crate) byte_count: usize,
    pub(crate) spellings: Vec<Task>,
    /// The own URL of the file, if the page is an alias.
    pub(crate) own: Option<CanonUrl>,
    /// Whether the URL is the own one of an HTML or XHTML document.
    pub(crate) is_document: bool,
    /// The positions of its links and its invalid links, if the rules ask for them.
    pub(crate) positions: Vec<u32>,
    pub(crate) invalid: Vec<InvalidLink>,
    pub(crate) notes: Vec<Note>,
}

/// Makes the page at the own URL of a file of this kind with these contents. A file of unknown kind has no links, unless its first bytes
/// are those of a document. `room` is memory for the links.
#[tactic(auto, using(crate::proofs::TaskPages::file_page, crate::proofs::TaskPages::unread_page))]
fn file_page(
    alloc: Global,
    files: &SiteFiles<'_>,
    task: &Task,
    kind: FileKind,
    body: &[u8],
    room: &mut RawLinks,
) -> Result<NewPage, AllocError>
    ensures { IfOk result (λ new. IfSome new.page (IsFilePage files.now task.now.url kind body.now)) }
{
    if !is_read(kind, body) {
        return empty_page(alloc, task);
    }
    let document = file_document(alloc, files, &task.url, kind, body, room)?;
    document_page(alloc, files, task, document)
}

/// Whether the links of a file of this kind with these contents are read.
fn is_read(kind: FileKind, body: &[u8]) -> bool
    ensures { result ≡ is_read kind body.now }
{
    match kind {
        FileKind::Html
        | FileKind::Xml
        | FileKind::Svg
        | FileKind::Style
        | FileKind::Feed
        | FileKind::UrlList => true,
        FileKind::Unknown => is_document(body),
    }
}

/// Makes the page at the own URL of a file of this kind, of which this was read. If it cannot be read, the page has no links.
pub(crate) fn read_page(
    alloc: Global,
    files: &SiteFiles<'_>,
    task: &Task,
    kind: FileKind,
    body: Option<&[u8]>,
    room: &mut RawLinks,
) -> Result<NewPage, AllocError>
    ensures { IfOk result (λ new. IfSome new.page (IsReadPage files.now task.now.url kind (option_map (λ b. b.now) body.entry))) }
{
    match body {
        Some(body) => file_page(alloc, files, task, kind, body, room),
        None => empty_page(alloc, task),
    }
}

/// Whether a file of this kind with these contents is an HTML or XHTML document. Of a file that cannot be read there are no contents.
pub(crate) fn is_html(kind: FileKind, body: &[u8]) -> bool {
    match kind {
        FileKind::Html | FileKind::Xml => true,
        FileKind::Unknown => is_document(body),
        FileKind::Svg | FileKind::Style | FileKind::Feed | FileKind::UrlList => false,
    }
}

/// Makes a page without links.
pub(crate) fn empty_page(alloc: Global, task: &Task) -> Result<NewPage, AllocError>
    ensures { IfOk result (λ new. IfSome new.page (IsPageOf task.now.url (Links []))) }
{
    NewPage::new(task, Under::Links(LinkTexts::new(alloc)), Vec::new(alloc))
}

/// Makes the page of a document, with its anchors and the targets of its links to anchors if they are known.
#[tactic(auto, using(crate::proofs::TaskPages::page_keeps))]
fn document_page(
    alloc: Global,
    files: &SiteFiles<'_>,
    task: &Task,
    document: Document,
) -> Result<NewPage, AllocError>
    ensures links { IfOk result (λ new. IfSome new.page (λ page. (page.url ≡ task.now.url) × (page.under ≡ Links document.links))) }
    ensures anchors { IfOk result (λ new. IfSome new.page (λ page. KeepsAnchors files.now document.anchors page.anchors)) }
{
    let notes = document_notes(alloc, task, &document)?;
    let spellings = link_spellings(alloc, files, &task.url, &document.links)?;
    let Document {
        links,
        anchors,
        positions,
        invalid,
        ..
    } = document;
    let anchors = site_anchors(files, anchors)?;
    let mut new = NewPage::with_anchors(task, Under::Links(links), anchors, notes)?;
    new.spellings = spellings;
    new.positions = positions;
    new.invalid = invalid;
    Ok(new)
}

/// The notes about a document: about its unknown encoding, and about links that were skipped.
fn document_notes(
    alloc: Global,
    task: &Task,
    document: &Document,
) -> Result<Vec<Note>, AllocError> {
    let mut notes = Vec::new(alloc);
    if let Some(name) = &document.encoding {
        notes.push(Note {
            left: Left::Encoding,
            place: format!(in alloc; "{} ({})", task.url.as_str(), name.as_str())?,
        })?;
    }
    if document.has_skipped {
        notes.push(Note::at(alloc, Left::LongLinks, &task.url)?)?;
    }
    Ok(notes)
}

/// The anchors of a document, with the pages of the site to which its links to anchors lead.
fn site_anchors(
    files: &SiteFiles<'_>,
    anchors: Option<AnchorTargets>,
) -> Result<Option<SiteAnchors>, AllocError>
    ensures { IfOk result (KeepsAnchors files.now anchors) }
{
    let Some(AnchorTargets { anchors, urls }) = anchors else {
        return Ok(None);
    };
    let targets = targets_at(files, urls)?;
    Ok(Some(SiteAnchors { anchors, targets }))
}

/// The targets at these URLs, in the same order.
fn targets_at(files: &SiteFiles<'_>, urls: Vec<CanonUrl>) -> Result<Vec<Target>, AllocError>
    ensures { IfOk result (λ targets. HaveUrls files.now urls.items targets.items) }
{
    let mut targets = Vec::with_capacity(*urls.allocator(), urls.len())?;
    'links: for url in urls {
        push_target(files, url, &mut targets)?;
    }
    Ok(targets)
}

/// Appends the target at a URL.
fn push_target(
    files: &SiteFiles<'_>,
    url: CanonUrl,
    targets: &mut Vec<Target>,
) -> Result<(), AllocError>
    ensures { OnOk result (map (target_url files.now) targets.new.items ≡ map (target_url files.now) targets.old.items ++ Some url ∷ []) }
{
    targets.push(target_at(files, url))?;
    Ok(())
}

/// The target at a URL: the page of the site with this URL, if there is one.
fn target_at(files: &SiteFiles<'_>, url: CanonUrl) -> Target
    ensures { target_url files.now result ≡ Some url }
{
    match files.find(url.as_str()) {
        Some(page) => Target::Page(page),
        None => Target::Other(url),
    }
}

/// Makes the page of an alias, whose only link is the own URL of its file.
pub(crate) fn alias_page(
    alloc: Global,
    files: &SiteFiles<'_>,
    task: &Task,
    own: &CanonUrl,
) -> Result<NewPage, AllocError>
    ensures { IfOk result (λ new. IfSome new.page (IsPageOf task.now.url (Links (link_to (text_to files.now own.now))))) }
{
    let links = own_link(alloc, files, own)?;
    let mut new = NewPage::new(task, Under::Links(links), Vec::new(alloc))?;
    if new.page.is_some() {
        new.own = Some(own.clone()?);
    }
    Ok(new)
}

/// A link to a URL of the site, if it fits in a line.
fn own_link(alloc: Global, files: &SiteFiles<'_>, own: &CanonUrl) -> Result<LinkTexts, AllocError>
    ensures { IfOk result (λ links. links ≡ link_to (text_to files.now own.now)) }
{
    let mut links = LinkTexts::new(alloc);
    let text = without_origin(own.as_str(), files.origin()).as_bytes();
    if fits(LINK_FRONT, text) {
        links.push(text)?;
    }
    Ok(links)
}

/// Makes the page of a redirect to this target. Other spellings of the redirect's URL and those with a query lead to the target with
/// their query, as for a folder without its slash.
pub(crate) fn moved_page(
    alloc: Global,
    files: &SiteFiles<'_>,
    task: &Task,
    target: &str,
) -> Result<NewPage, AllocError>
    ensures { IfOk result (λ new. IfSome new.page (IsPageOf task.now.url (redirect_to (text_to files.now (target_at files.now task.now.entry task.now.url target.now))))) }
{
    let target = target_of(alloc, files, task, target)?;
    let text = without_origin(target.as_str(), files.origin());
    let spellings = target_spellings(alloc, files, &task.url, text)?;
    let mut new = moved_to(alloc, task, text)?;
    new.spellings = spellings;
    Ok(new)
}

/// The other spelling of a page that is the target with this text of a redirect at a URL, if it is one.
fn target_spellings(
    alloc: Global,
    files: &SiteFiles<'_>,
    url: &CanonUrl,
    text: &str,
) -> Result<Vec<Task>, AllocError> {
    let mut all = Vec::new(alloc);
    if files.can_spell(text.as_bytes())
        && let Some(spelling) = text_spelling(alloc, files, url, text)?
    {
        all.push(spelling)?;
    }
    Ok(all)
}

/// The target of a redirect, with the query of the URL if that is not the redirect's own.
fn target_of(
    alloc: Global,
    files: &SiteFiles<'_>,
    task: &Task,
    target: &str,
) -> Result<String, AllocError>
    ensures { IfOk result (λ own. string_bytes own ≡ target_at files.now task.now.entry task.now.url target.now) }
{
    if is_at_own_url(files, task) {
        String::from_str(alloc, target)
    } else {
        with_query(alloc, target, task.url.as_str())
    }
}

/// Whether the URL of a task is that of its page.
fn is_at_own_url(files: &SiteFiles<'_>, task: &Task) -> bool
    ensures { result ≡ is_url task.now.url (url_of files.now task.now.entry) }
{
    match files.url(task.entry) {
        Some(url) => *url == task.url,
        None => false,
    }
}

/// The target with the query of a URL, if that has one.
fn with_query(alloc: Global, target: &str, url: &str) -> Result<String, AllocError>
    ensures { IfOk result (λ text. string_bytes text ≡ with_query target.now url.now) }
{
    let mut text = String::from_str(alloc, target)?;
    if let Some(query) = query_of(url) {
        text.push_str("?")?;
        text.push_str(query)?;
    }
    Ok(text)
}

/// The query of a URL.
fn query_of(url: &str) -> Option<&str>
    ensures { option_map (λ query. query.now) result ≡ query_of url.now }
{
    match url.split_once('?') {
        Some((_, query)) => Some(query),
        None => None,
    }
}

/// A redirect to this text. A text that does not fit in a line is skipped with a note, and the page has no link.
fn moved_to(alloc: Global, task: &Task, text: &str) -> Result<NewPage, AllocError>
    ensures { IfOk result (λ new. IfSome new.page (IsPageOf task.now.url (redirect_to text.now))) }
{
    let mut notes = Vec::new(alloc);
    let under = match LineText::new(alloc, text.as_bytes())? {
        Some(text) => Under::Moved(text),
        None => {
            notes.push(Note::at(alloc, Left::LongTarget, &task.url)?)?;
            Under::Links(LinkTexts::new(alloc))
        }
    };
    NewPage::new(task, under, notes)
}

/// The URL without its scheme and authority, if they are those of the site. Two slashes after them stay, because they would begin a host.
fn without_origin<'a>(url: &'a str, origin: &str) -> &'a str
    ensures { result.now ≡ without_origin origin.now url.now }
{
    let Some(path) = after_origin(url, origin) else {
        return url;
    };
    if is_path(path.as_bytes()) { path } else { url }
}

/// What is after the origin in a URL. A function of its own, so that a lemma gives its result.
fn after_origin<'a>(url: &'a str, origin: &str) -> Option<&'a str>
    ensures { option_map (λ path. path.now) result ≡ after_front origin.now url.now }
{
    url.strip_prefix(origin)
}

/// Whether a text begins with one slash, as a path does.
fn is_path(text: &[u8]) -> bool
    ensures { result ≡ is_path text.now }
{
    match text {
        [b'/', rest @ ..] => !begins_slash(rest),
        _ => false,
    }
}

/// Whether a text begins with a slash.
fn begins_slash(text: &[u8]) -> bool
    ensures { result ≡ begins_slash text.now }
{
    matches!(text, [b'/', ..])
}

impl NewPage {
    /// Creates the page of a task without anchors, as yet without spellings, positions and invalid links. If its URL is too long for a line,
    /// there is a note instead of the page.
    fn new(task: &Task, under: Under, notes: Vec<Note>) -> Result<NewPage, AllocError>
        ensures { IfOk result (λ new. IfSome new.page (IsPageOf task.now.url under)) }
    {
        NewPage::with_anchors(task, under, None, notes)
    }

    /// The same with these anchors.
    fn with_anchors(
        task: &Task,
        under: Under,
        anchors: Option<SiteAnchors>,
        notes: Vec<Note>,
    ) -> Result<NewPage, AllocError>
        ensures { IfOk result (λ new. IfSome new.page (IsPageWith task.now.url under anchors)) }
    {
        let own = task.url.clone()?;
        let url = task.url.clone()?;
        let page = SitePage::new(own, under, anchors);
        let mut notes = notes;
        let alloc = *notes.allocator();
        if page.is_none() {
            notes.push(Note::at(alloc, Left::LongUrl, &task.url)?)?;
        }
        Ok(NewPage {
            number: 0,
            url,
            byte_count: byte_count_of(&page),
            page,
            spellings: Vec::new(alloc),
            own: None,
            is_document: false,
            positions: Vec::new(alloc),
            invalid: Vec::new(alloc),
            notes,
        })
    }
}

/// Returns the number of bytes of the page's lines; 0 if there is no page.
fn byte_count_of(page: &Option<SitePage>) -> usize {
    match page {
        Some(page) => page.byte_count(),
        None => 0,
    }
}
