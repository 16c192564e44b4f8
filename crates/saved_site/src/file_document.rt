//! What is read of a file that can have links.
ghost use Rattle.std.specs.Prelude.{◌≡◌, IfOk, None, option_map};
ghost use Rattle.saved_site.specs.FileLinks.{AreOptions, IsFileDocument, root_of, syntax_of};

use crate::web_text::WEB_LIMIT;
use crawl_keys::CanonUrl;
use document_links::{
    Document, RawLinks, ReadOptions, Syntax, read_document, read_feed, read_style_sheet,
    read_url_list,
};
use site_files::{FileKind, SiteFiles};
use std::alloc::{AllocError, Global};

/// Reads the document, style sheet, feed, sitemap or list of URLs in a file of this kind, at its own URL. `room` is memory for its links.
pub(crate) fn file_document(
    alloc: Global,
    files: &SiteFiles<'_>,
    url: &CanonUrl,
    kind: FileKind,
    body: &[u8],
    room: &mut RawLinks,
) -> Result<Document, AllocError>
    ensures { IfOk result (λ document. IsFileDocument files.now url.now kind body.now document.links document.anchors) }
{
    let options = options_of(files, kind);
    match kind {
        FileKind::Style => {
            let sheet = read_style_sheet(alloc, body, url, options, room)?;
            Ok(without_anchors(sheet))
        }
        FileKind::Feed => {
            let feed = read_feed(alloc, body, url, options, room)?;
            Ok(without_anchors(feed))
        }
        FileKind::UrlList => {
            let list = read_url_list(alloc, body, url, options, room)?;
            Ok(without_anchors(list))
        }
        FileKind::Html | FileKind::Xml | FileKind::Svg | FileKind::Unknown => {
            read_document(alloc, body, url, options, room)
        }
    }
}

/// The same without anchors. A style sheet, a feed and a list of URLs have none, but no clause says so of what is read of them.
fn without_anchors(document: Document) -> Document
    ensures links { result.links ≡ document.links }
    ensures anchors { result.anchors ≡ None }
{
    Document {
        anchors: None,
        ..document
    }
}

/// What is read of a file of this kind. After 2^30 bytes of links, the limit of a saved web, no more are read: either the saved web is
/// too large, or the page is not in it because its URL is too long.
fn options_of<'a>(files: &'a SiteFiles<'_>, kind: FileKind) -> ReadOptions<'a>
    ensures { AreOptions files.now kind result }
{
    let rules = files.rules();
    ReadOptions {
        syntax: syntax_of(kind),
        styles: rules.styles,
        root: root_of(files),
        anchors: rules.anchors,
        places: rules.places,
        byte_limit: WEB_LIMIT,
    }
}

/// The syntax of a document in a file of this kind. A document that is found by its first bytes is HTML. Style sheets, feeds and lists of
/// URLs are read without a syntax.
fn syntax_of(kind: FileKind) -> Syntax
    ensures { result ≡ syntax_of kind }
{
    match kind {
        FileKind::Xml | FileKind::Svg => Syntax::Xhtml,
        FileKind::Html | FileKind::Style | FileKind::Feed | FileKind::UrlList | FileKind::Unknown =>
            Syntax::Html,
    }
}

/// The path of the top, if absolute paths are below it.
pub fn root_of<'a>(files: &'a SiteFiles<'_>) -> Option<&'a str>
    ensures { option_map (λ path. path.now) result ≡ root_of files.now }
{
    if files.rules().rooted {
        files.top().strip_prefix(files.origin())
    } else {
        None
    }
}
