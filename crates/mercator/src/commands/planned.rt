//! What a command line asks for.
ghost use Rattle.std.specs.Prelude.{◌≡◌};
ghost use Rattle.mercator.specs.Plans.{explains, file_of, listed_or, file_of_error};

use crate::commands::error::CommandError;
use crawl_report::Sections;
use mercator_site::{CheckOptions, SiteOptions};
use session_log::{CompactPlan, ListPlan, LogPlan, SessionPlan};

/// What the arguments of a command line ask for.
///
/// [`plan`](crate::plan) returns only plans whose numbers are within the limits. Its crawls have at least one seed or a file of
/// seeds, and read at most one of their two files from the input.
///
/// # Example
///
/// Whether arguments ask for a key:
///
/// ```rust
/// fn asks_for_a_key(alloc: Global, arguments: &[String]) -> bool {
///     match plan(alloc, arguments) {
///         Ok(Plan::Key { .. }) => true,
///         _ => false,
///     }
/// }
/// ```
#[derive(Drop)]
pub enum Plan {
    /// `crawl`: print the report of a crawl of a saved web.
    Crawl {
        /// The number of workers, each with its own queue: 1 to 512.
        workers: u32,
        /// The most URLs that are waiting or in progress at a time: 1 to 2^40.
        max: u64,
        /// Whether the number of URLs of each queue follows the report.
        queues: bool,
        /// The file of the saved web; `-` is the input.
        file: String,
        /// The seeds on the command line, which come after those of a file of seeds.
        seeds: Vec<String>,
        /// The other options.
        options: CrawlOptions,
    },
    /// `site`: print a folder as a saved web.
    Site(SiteOptions),
    /// `check`: print the report of the broken links of a folder.
    Check {
        /// The settings of the check.
        options: CheckOptions,
        /// The file of the ignore list, if there is one.
        ignores: Option<String>,
    },
    /// `key`: print the key line of a URL.
    Key {
        /// The URL, as it was given.
        url: String,
        /// The number of queues: 1 to 512.
        workers: u32,
    },
    /// `replay`: print the replies to a script.
    Replay {
        /// The file of the script; `-` is the input.
        file: String,
    },
    /// `serve`: answer the requests of the input.
    Serve(SessionPlan),
    /// `serve --log`: resume from a log, append the requests of the input to it, and answer them.
    ServeLog(LogPlan),
    /// `serve --log --list`: print the URLs of the log, or their numbers, without serving.
    List(ListPlan),
    /// `serve --log --compact`: write a compacted copy of the log to a new file, without serving.
    Compact(CompactPlan),
}

/// The other options of a crawl.
#[derive(Drop)]
pub struct CrawlOptions {
    /// The suffix of the hosts to crawl; without one, all hosts.
    pub within: Option<String>,
    /// The file of seeds, if there is one; `-` is the input.
    pub listed: Option<String>,
    /// Which sections the report has. Unreached pages are listed only for the hosts to crawl.
    pub sections: Sections,
    /// Whether the report is JSON, one object per line.
    pub json: bool,
    /// Whether an incomplete crawl reports the first affected URL and the losses.
    pub explain: bool,
    /// Whether the number of fetched pages is reported while the crawl runs.
    pub progress: bool,
}

/// The fields of a [`Plan::Crawl`], which functions take whole.
#[derive(Clone, Copy)]
pub(in crate::commands) struct CrawlPlan<'a> {
    pub workers: u32,
    pub max: u64,
    pub queues: bool,
    pub file: &'a String,
    pub seeds: &'a Vec<String>,
    pub options: &'a CrawlOptions,
}

impl Plan {
    /// Returns the FILE of the plan; the empty text for a key and a compaction, which have none.
    pub fn file(&self) -> &str
        ensures { result.now ≡ file_of self.now }
    {
        match self {
            Plan::Crawl { file, .. } | Plan::Replay { file } => file.as_str(),
            Plan::Site(options) => options.folder.as_str(),
            Plan::Check { options, .. } => options.site.folder.as_str(),
            Plan::Key { .. } => "",
            Plan::Serve(_) | Plan::ServeLog(_) => "-",
            Plan::List(list) => list.file.as_str(),
            Plan::Compact(_) => "",
        }
    }

    /// Whether an incomplete crawl reports the first affected URL and the losses.
    pub fn explains(&self) -> bool
        ensures { result ≡ explains self.now }
    {
        match self {
            Plan::Crawl { options, .. } => options.explain,
            _ => false,
        }
    }

    /// Returns the file that this error is about: the file of seeds, the ignore list or the site list if that cannot be read, the log
    /// if that cannot be used, else FILE.
    pub fn file_of_error(&self, error: &CommandError) -> &str
        ensures { result.now ≡ file_of_error self.now error.now }
    {
        match (self, error) {
            (Plan::Crawl { file, options, .. }, CommandError::CannotReadSeeds) => {
                listed_or(&options.listed, file.as_str())
            }
            (Plan::Check { options, ignores }, CommandError::CannotReadIgnores) => {
                listed_or(ignores, options.site.folder.as_str())
            }
            (Plan::Check { options, .. }, CommandError::CannotReadIndex) => {
                listed_or(&options.site.index, options.site.folder.as_str())
            }
            (Plan::Site(options), CommandError::CannotReadIndex) => {
                listed_or(&options.index, options.folder.as_str())
            }
            (Plan::ServeLog(log), CommandError::Log(_)) => log.file.as_str(),
            (Plan::Compact(given), CommandError::Log(_)) => given.log.file.as_str(),
            _ => self.file(),
        }
    }
}

/// Returns the name of the list if there is one, else FILE.
fn listed_or<'a>(listed: &'a Option<String>, file: &'a str) -> &'a str
    ensures { result.now ≡ listed_or listed.now file.now }
{
    match listed {
        Some(listed) => listed.as_str(),
        None => file,
    }
}
