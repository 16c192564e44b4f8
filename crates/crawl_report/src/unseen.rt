//! Pages of a saved web that no result has.
ghost use Rattle.std.specs.Prelude.{◌≡◌, ℕ, List, IfOk, IsPermutation, IsSortedByKey};
ghost use Rattle.std.specs.Cmp.Lexicographic.{slice_cmp};
ghost use Rattle.std.specs.Ordering.{nat_cmp};
ghost use Rattle.crawl_keys.specs.HostFilter.{allows};
ghost use Rattle.crawl_sources.specs.Tallies.{pointed};
ghost use Rattle.crawl_report.specs.Unreached.{has_result, unreached_of, unseen_of, is_in};

use crawl_keys::{CanonUrl, Filter};
use crawl_pages::{NoMemory, PageResult};
use hash_order::HashedText;
use std::alloc::Global;
use std::collections::BTreeSet;

type Urls<'a> = BTreeSet<HashedText<'a>>;

/// Returns the URLs that the filter allows and no result has, in ascending byte order.
///
/// # Errors
/// Only out of memory.
pub fn unreached<'r>(
    alloc: Global,
    filter: &Filter,
    results: &'r [PageResult],
    urls: &'r [CanonUrl],
) -> Result<Vec<&'r CanonUrl>, NoMemory>
    ensures same { IfOk result (λ found. IsPermutation (unreached_of (allows filter.now) results.now urls.now) (pointed found.items)) }
    ensures sorted { IfOk result (λ found. IsSortedByKey (λ url. url) (slice_cmp nat_cmp) (pointed found.items)) }
{
    if urls.is_empty() {
        return Ok(Vec::new(alloc));
    }
    let seen = urls_of(alloc, results)?;
    let mut found = not_seen(alloc, filter, &seen, urls)?;
    found.sort_by(|a, b| a.cmp(b))?;
    Ok(found)
}

/// Returns the URLs of the results as a set.
fn urls_of(alloc: Global, results: &[PageResult]) -> Result<Urls<'_>, NoMemory>
    ensures { IfOk result (λ set. (url : List ℕ) → is_in set url ≡ has_result results.now url) }
{
    let mut set = BTreeSet::new(alloc);
    for one in results {
        set.insert(one.url.hashed())?;
    }
    Ok(set)
}

/// Returns the URLs that the filter allows and that are not in the set.
fn not_seen<'r>(
    alloc: Global,
    filter: &Filter,
    seen: &Urls<'r>,
    urls: &'r [CanonUrl],
) -> Result<Vec<&'r CanonUrl>, NoMemory>
    ensures { IfOk result (λ found. pointed found.items ≡ unseen_of (allows filter.now) seen.now urls.now) }
{
    let mut found = Vec::new(alloc);
    for url in urls {
        if filter.allows(url) && !seen.contains(&url.hashed()) {
            found.push(url)?;
        }
    }
    Ok(found)
}
