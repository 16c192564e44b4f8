//! The results of a check.
ghost use Rattle.std.specs.Prelude.{◌≡◌};
ghost use Rattle.check_report.specs.Text.{is_broken};

/// The results of a check. Each list is printed in the given order, under its own heading; an empty list is not printed.
#[derive(Clone, Copy)]
pub struct Findings<'a> {
    /// The name of the site, such as its URL or its folder.
    pub base: &'a str,
    pub totals: Totals,
    /// The missing pages and anchors, then the invalid links, then the links that lead out of the site.
    pub broken: &'a [Broken],
    /// The files with the most broken, invalid and leaving links, most first. All of them are printed, so a caller passes ten, say.
    pub worst: &'a [FileCount],
    /// The redirects that pages link to.
    pub redirects: &'a [Redirect],
    /// The unreached files.
    pub unreached: &'a [String],
    /// The documents that no sitemap lists.
    pub unlisted: &'a [String],
    /// The entries of the ignore list that match nothing.
    pub unused_ignores: &'a [String],
    /// A hint at a missing or wrong BASE.
    pub base_hint: Option<&'a BaseHint>,
}

/// What a report lists.
#[derive(Clone, Copy, Debug, Default)]
pub struct Lists {
    /// Whether a report as text lists all locations of a broken link, not only three. The other forms list all.
    pub all: bool,
    /// Whether the report counts and lists unreached files.
    pub unreached: bool,
    /// Whether the report counts and lists the documents that no sitemap lists.
    pub unlisted: bool,
    /// Whether a report as text lists the broken links by target, not by file.
    pub by_target: bool,
}

/// The optional contents of a report.
#[derive(Clone, Copy)]
pub struct Contents<'a> {
    pub lists: Lists,
    /// The external links, if the report counts and lists them.
    pub external: Option<&'a [External]>,
    /// The folder that annotations put before a file's name; empty for none.
    pub folder: &'a str,
    /// The URL of the folder's sources, to which the HTML page and SARIF link each location; empty for none.
    pub source_url: &'a str,
}

/// The counts of a check.
#[derive(Clone, Copy)]
pub struct Totals {
    /// The documents that were found, each at its own URL.
    pub pages: u64,
    /// The other files that were found, each at its own URL.
    pub files: u64,
    /// The other URLs of these files that links lead to.
    pub aliases: u64,
    /// The links in these files.
    pub links: u64,
    /// The links to missing pages and anchors.
    pub broken_links: u64,
    /// The missing pages.
    pub broken_urls: u64,
    /// The missing anchors in pages that exist.
    pub broken_anchors: u64,
    /// The invalid links: those that are no URL, have an unknown scheme or name a local file. A target without locations counts as one.
    pub invalid_links: u64,
    /// The links that lead out of the site: above the folder, or to the host of BASE and not below BASE. A target without locations
    /// counts as one. A link to a page that a mapped folder has is not among them.
    pub leaving_links: u64,
    /// The redirects that pages link to.
    pub moved: u64,
}

/// Whether something is missing or invalid, or leads out of the site. A page at which the check starts can be missing though no link
/// leads to it.
pub fn is_broken(totals: Totals) -> bool
    ensures { result ≡ is_broken totals }
{
    totals.broken_links > 0
        || totals.broken_urls > 0
        || totals.broken_anchors > 0
        || totals.invalid_links > 0
        || totals.leaving_links > 0
}

/// What is wrong with a link.
#[derive(Clone, Copy)]
pub enum Kind {
    /// There is no such page.
    NoPage,
    /// The page exists and does not have the anchor.
    NoAnchor,
    /// The link is no URL.
    NotUrl,
    /// The scheme of the link is not known.
    UnknownScheme,
    /// The link names a file of the reader's computer.
    LocalFile,
    /// The link leads above the folder.
    Leaves,
    /// The link leads to the host of BASE, and not below BASE.
    OutsideBase,
    /// The link leads to a page of a folder that the caller mapped, and that folder does not have it.
    NotInMap,
}

/// The target of broken links: a missing page or anchor, the text of an invalid link, or a URL that is not below the top.
#[derive(Drop)]
pub struct Broken {
    /// The page, or the page followed by `#` and the anchor, or the invalid link, or the path or URL outside the site.
    pub target: String,
    pub kind: Kind,
    /// The number of pages that link to it.
    pub pages: u64,
    /// The locations of the links to it; empty for a page at which the check starts and that no page links to.
    pub places: Vec<Place>,
    /// The page of the site with the same file name, if the page is missing and there is exactly one.
    pub same_name: Option<String>,
    /// A file that another rule of the host would find, and that rule, such as `about.html exists: --fallback html`. For a page that a
    /// mapped folder does not have, that folder.
    pub hint: Option<String>,
}

/// The location of a link.
#[derive(Drop)]
pub struct Place {
    /// The path of the file in the folder.
    pub file: String,
    /// The line, from 1.
    pub line: u64,
    /// The column in characters, from 1.
    pub column: u64,
    /// The link as it is written in the file, if it differs from the target.
    pub written: Option<String>,
}

/// The start that many links share, if it shows that BASE is missing or wrong: a folder that is not in the site, or a whole URL.
#[derive(Drop)]
pub struct BaseHint {
    /// A path of folders between slashes; or a URL that begins with `http://` or `https://`.
    pub folder: String,
    /// The number of locations of links to missing pages whose path begins with the folder; or the number of links that begin with the
    /// URL.
    pub paths: u64,
    /// The number of locations of links to missing pages that are a path from the root; or the number of links that lead to http or
    /// https URLs.
    pub of: u64,
}

/// A redirect.
#[derive(Drop)]
pub struct Redirect {
    pub page: String,
    /// The URL that it redirects to, if it is known.
    pub target: Option<String>,
    /// The number of pages that link to it.
    pub pages: u64,
}

/// An external URL.
#[derive(Drop)]
pub struct External {
    pub url: String,
    /// The number of links to it.
    pub links: u64,
}

/// A file and the number of broken, invalid and leaving links in it.
#[derive(Drop)]
pub struct FileCount {
    pub file: String,
    pub links: u64,
}
