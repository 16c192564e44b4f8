//! The settings of a saved web of a folder and of its check.
use crate::maps::FolderMap;
use check_report::Lists;
use site_check::Scope;

/// The form of a report.
#[derive(Clone, Copy, Debug, PartialEq, Eq)]
pub enum CheckForm {
    /// Text.
    Text {
        /// Whether it has colour, as ANSI escape codes.
        colour: bool,
    },
    /// JSON, one object per line.
    Json,
    /// GitHub annotations.
    Annotations,
    /// An HTML page.
    Page,
    /// JUnit XML.
    Junit,
    /// SARIF 2.1.0, as JSON.
    Sarif,
}

/// Whether links are rewritten.
#[derive(Clone, Copy, Debug, PartialEq, Eq)]
pub enum Fix {
    /// No.
    Off,
    /// No, but the changes are printed as a diff, in place of the report.
    Diff,
    /// Yes, before the check.
    Write,
}

impl Default for CheckForm {
    fn default() -> CheckForm {
        CheckForm::Text { colour: false }
    }
}

/// The form of a report, and what it lists.
#[derive(Clone, Copy, Default)]
pub struct ReportOptions {
    pub form: CheckForm,
    pub lists: Lists,
    /// Whether external links are listed.
    pub external: bool,
}

/// The settings of `site`, which prints a folder as a saved web.
#[derive(Drop)]
pub struct SiteOptions {
    pub folder: String,
    /// The URL of the top of the folder.
    pub base: String,
    /// The name of the site list, if there is one. It says which file or redirect each URL is.
    pub index: Option<String>,
    /// The names of index files; if there are none, `index.html`, `index.htm` and `index.xhtml`.
    pub index_files: Vec<String>,
    /// Whether a path without a page is looked up again with `.html` added, unless it ends with a slash.
    pub html_fallback: bool,
    /// Whether only the exact spelling of a page's URL is accepted.
    pub exact: bool,
    /// Whether a `?` in a file name is the start of a query.
    pub queries: bool,
    /// Whether symbolic links that lead out of the folder are followed.
    pub follow: bool,
    /// Whether `url()` and `@import` in style sheets, style elements and style attributes are links.
    pub styles: bool,
    /// Whether a file without a known suffix is an HTML document if it begins like one. A site list can have such files in any case.
    pub sniff: bool,
}

/// The settings of `check`, which reports the broken links of a folder.
#[derive(Drop)]
pub struct CheckOptions {
    pub site: SiteOptions,
    /// Whether the report has paths instead of URLs.
    pub paths: bool,
    /// The number of workers, 1 to 512.
    pub workers: u32,
    /// Whether anchors are checked.
    pub anchors: bool,
    /// Which findings are reported.
    pub scope: Scope,
    pub report: ReportOptions,
    /// The URL of the folder's sources, with which the URLs of locations begin in an HTML page and in SARIF; empty for none.
    pub source_url: String,
    /// The folders in which links are looked up that lead out of the site.
    pub maps: Vec<FolderMap>,
    /// The links on the top at which the search starts; if there are none, it starts at the top.
    pub seeds: Vec<String>,
    /// Whether only what the search reaches is checked, and not all documents.
    pub reachable: bool,
    /// Whether links are rewritten.
    pub fix: Fix,
}
