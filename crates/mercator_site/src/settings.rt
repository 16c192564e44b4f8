//! The settings of a check of a folder or of files in memory.
use crate::mapped::MappedFolder;
use crate::options::ReportOptions;
use site_check::Scope;

/// The settings of a check.
#[derive(Clone, Copy)]
pub struct CheckSettings<'a> {
    /// The number of workers that crawl the site.
    pub workers: u32,
    /// The name of the site in the report.
    pub name: &'a str,
    /// The prefix that is removed from each URL in the report.
    pub front: &'a str,
    /// The ignore list: each entry matches the targets that begin with it.
    pub ignores: &'a [String],
    /// The links on the site's top at which the search starts; if there are none, it starts at the top.
    pub seeds: &'a [String],
    /// Whether only what the search reaches is checked, and not all documents.
    pub reachable: bool,
    /// Which findings are reported.
    pub scope: Scope,
    /// Whether the URL of the folder is not known, so that a link that leads above the top is reported by its path from the top.
    pub rooted: bool,
    /// The folders in which links are looked up that lead out of the site.
    pub maps: &'a [MappedFolder<'a>],
    pub report: ReportOptions,
    /// The folder that annotations put before the names of files; empty for files in memory.
    pub folder: &'a str,
    /// The URL of the folder's sources, with which the URLs of locations begin in an HTML page and in SARIF; empty for none.
    pub source_url: &'a str,
}
