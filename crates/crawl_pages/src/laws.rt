//! Laws of the order of results. None does anything when it is called.
ghost use Rattle.std.specs.Prelude.{◌≡◌, List, IsPermutation};
ghost use Rattle.crawl_pages.specs.ResultOrder.{results_by_url, IsInOrder};
ghost use Rattle.crawl_pages.specs.declared.page.PageResult.{PageResult};

/// Results in order are all of the results, in ascending order of URL; those with the same URL stay in the given order. No other
/// list is in that order.
pub fn one_order()
    ensures all { (results : List PageResult) → IsPermutation results (results_by_url results) }
    ensures in_order { (results : List PageResult) → IsInOrder results (results_by_url results) }
    ensures only { (results ordered : List PageResult) → IsInOrder results ordered → ordered ≡ results_by_url results }
{}
