//! What holds of reports. None does anything when it is called.
ghost use Rattle.std.specs.Prelude.{◌≡◌, ◌↔◌, ℕ, Bool, List, Contains, IsPermutation, IsSortedByKey};
ghost use Rattle.std.specs.Cmp.Lexicographic.{slice_cmp};
ghost use Rattle.std.specs.Ordering.{nat_cmp};
ghost use Rattle.crawl_pages.specs.ResultOrder.{results_at, HasEachUrlOnce};
ghost use Rattle.crawl_pages.specs.declared.page.PageResult.{PageResult};
ghost use Rattle.crawl_report.specs.ReportText.{report};
ghost use Rattle.crawl_report.specs.Today.{listed_text, text_with};

/// If results ascend, the text of a report with results, queues and sources is the report of the results, then a line for
/// each queue, and then the sources of what is missing.
#[tactic(auto, using(crate::proofs::Format::text_same))]
pub fn text_is_the_format()
    ensures { (with_queues with_sources : Bool) (pages : List PageResult) (counts : List ℕ) → IsSortedByKey (λ r. r.url) (slice_cmp nat_cmp) pages → text_with with_queues with_sources pages counts ≡ listed_text with_queues with_sources pages counts }
{}

/// Given texts have one ascending order.
pub fn one_order()
    ensures { (texts own other : List (List ℕ)) → IsPermutation texts own → IsPermutation texts other → IsSortedByKey (λ url. url) (slice_cmp nat_cmp) own → IsSortedByKey (λ url. url) (slice_cmp nat_cmp) other → own ≡ other }
{}

/// Results of different URLs may come in any order: the report is the same.
#[tactic(auto, using(crate::proofs::ReportLaws::report_across, crate::proofs::ReportLaws::report_same))]
pub fn any_order_of_arrival()
    // If the results of each URL come in the same order in both.
    ensures across { (results others : List PageResult) → ((url : List ℕ) → results_at url results ≡ results_at url others) → report results ≡ report others }

    // If each URL comes once.
    ensures permuted { (results others : List PageResult) → HasEachUrlOnce results → IsPermutation results others → report results ≡ report others }
    ensures same { (results others : List PageResult) → HasEachUrlOnce results → HasEachUrlOnce others → ((one : PageResult) → Contains results one ↔ Contains others one) → report results ≡ report others }
{}
