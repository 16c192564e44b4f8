//! Theorems that connect the definitions of this crate and of the crates below it. Each is the contract of a function that
//! does nothing when it is called.
ghost use Rattle.std.specs.Prelude.{◌≡◌, ℕ, List, Some, Bool};
ghost use Rattle.crawl_pages.specs.declared.page.PageResult.{PageResult};
ghost use Rattle.mercator.specs.Outputs.{AskForOneText, Gains};
ghost use Rattle.mercator.specs.WebCrawl.{CrawlPlan, IsCrawlReport, IsCrawlText, IsPlain, IsBasicText, IsSiteCrawl};
ghost use Rattle.mercator.specs.declared.commands.planned.Plan.{Plan};

// Laws of the crates below.
pub use crawl_replay::laws::{hosts_keep_to_their_subqueues, lines_mean_what_the_format_says};
pub use crawl_run::laws::{nothing_lost_lacks_nothing, urls_without_a_result_are_lost};

/// What a crawl finds and prints depends only on the saved web, the seeds and the filter.
///
/// - `pages`: two crawls of the same bytes, from the same file of seeds and the same seeds, within the same suffixes, find
///   equal pages.
/// - `reports`: two such crawls without a file of seeds have equal reports.
/// - `outputs`: suppose that two plans crawl the same standard input from the same seeds on the command line, within the
///   same suffix and without a file of seeds. Suppose that they ask for the same sections of a report and, if they ask for
///   the lines of queues, for the same number of workers. If each appended its text to an output that held the same before,
///   then both outputs hold the same afterwards, for any numbers of workers and any limits of pending URLs.
pub fn same_bytes_for_any_workers()
    ensures pages { (bytes listed : List ℕ) (seeds suffixes : List (List ℕ)) (pages others : List PageResult) → IsSiteCrawl bytes listed seeds suffixes pages → IsSiteCrawl bytes listed seeds suffixes others → pages ≡ others }
    ensures reports { (bytes : List ℕ) (seeds suffixes : List (List ℕ)) (text other : List ℕ) → IsCrawlReport bytes seeds suffixes text → IsCrawlReport bytes seeds suffixes other → text ≡ other }
    ensures outputs { (plan other : Plan) (bytes before after its : List ℕ) → AskForOneText plan other → Gains plan (Some bytes) (Some before) (Some after) → Gains other (Some bytes) (Some before) (Some its) → after ≡ its }
{}

/// If a crawl asks for no more than the lines of queues and of sources, its text is the report of its pages, followed by
/// these lines.
#[tactic(auto, using(crate::proofs::BasicTexts::basic_text))]
pub fn plain_crawls_tell_the_report()
    ensures { (workers : ℕ) (with_sources : Bool) (plan : CrawlPlan) (bytes listed : List ℕ) (seeds suffixes : List (List ℕ)) (text : List ℕ)
        → IsPlain with_sources plan → IsCrawlText workers plan bytes listed seeds suffixes text → IsBasicText workers plan.queues with_sources bytes listed seeds suffixes text }
{}
