//! How a file with links is written.
use html_links::Syntax;

/// How a file with links is written.
#[derive(Clone, Copy)]
pub enum TextKind {
    /// A document in this syntax. `styles` says whether the links of its styles are links of the document.
    Document { syntax: Syntax, styles: bool },
    /// A style sheet.
    StyleSheet,
    /// A sitemap, an index of sitemaps, or a feed, in XML.
    Feed,
    /// A list of URLs, one per line.
    UrlList,
}
