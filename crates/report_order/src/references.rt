//! References to results, sorted by URL.
ghost use Rattle.std.specs.Prelude.{◌≡◌, IfOk, map};
ghost use Rattle.crawl_pages.specs.ResultOrder.{results_by_url};

use crawl_pages::PageResult;
use std::alloc::{AllocError, Global};

/// Returns references to the results, in ascending byte order of URL. Results with the same URL stay in the given order.
pub fn results_by_url(alloc: Global, results: &[PageResult]) -> Result<Vec<&PageResult>, AllocError>
    ensures { IfOk result (λ ordered. map (λ r. r.now) ordered.items ≡ results_by_url results.now) }
{
    let mut ordered = references(alloc, results)?;
    ordered.sort_by(|a, b| a.url.cmp(&b.url))?;
    Ok(ordered)
}

/// Returns a reference to each result, in the given order.
fn references(alloc: Global, results: &[PageResult]) -> Result<Vec<&PageResult>, AllocError>
    ensures { IfOk result (λ all. map (λ r. r.now) all.items ≡ results.now) }
{
    results.iter().collect(alloc)
}
