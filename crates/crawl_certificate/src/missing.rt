//! What a run misses: seeds and links that were not accepted, and entries without a result. For each error the least URL that has
//! it.
ghost use Rattle.std.specs.Prelude.{◌≡◌, ℕ, List, Bool, not, ◌&&◌, map, length, bytes_eq};
ghost use Rattle.std.specs.List.{list_any};
ghost use Rattle.crawl_keys.specs.HostFilter.{allows};
ghost use Rattle.crawl_certificate.specs.CertErrors.{contains_url};
ghost use Rattle.crawl_certificate.specs.Least.{IsLeast, url_of};
ghost use Rattle.crawl_certificate.specs.Culprits.{is_lost};
ghost use Rattle.crawl_certificate.specs.Lookups.{pointed};

use crate::least::{culprit_if, lesser};
use crate::lookups::Accepted;
use crawl_frontier::Entry;
use crawl_keys::{CanonUrl, Filter};

/// Whether the filter allows the URL, but no entry has it.
fn is_missing(filter: &Filter, accepted: &Accepted<'_>, url: &CanonUrl) -> bool
    ensures { result ≡ is_lost (allows filter.now) accepted.now url.now }
{
    filter.allows(url) && accepted.find(url).is_none()
}

/// Returns the least allowed URL among these that was not accepted.
pub fn least_missing<'a>(
    filter: &Filter,
    accepted: &Accepted<'_>,
    urls: &'a [CanonUrl],
) -> Option<&'a CanonUrl>
    ensures { IsLeast (λ url. contains_url urls.now url && is_lost (allows filter.now) accepted.now url) (url_of result) }
{
    let mut least = None;
    for url in urls {
        let one = culprit_if(url, is_missing(filter, accepted, url));
        least = lesser(least, one);
    }
    least
}

/// Returns the least URL of an entry that is not marked.
pub fn least_unmarked<'e>(entries: &'e [&Entry], marks: &[bool]) -> Option<&'e CanonUrl>
    requires { length marks.now ≡ length entries.now }
    ensures { (marked : List ℕ → Bool) → marks.now ≡ map (λ e. marked e.url) (pointed entries.now) → IsLeast (λ url. list_any (λ e. bytes_eq e.url url && not (marked e.url)) (pointed entries.now)) (url_of result) }
{
    let mut least = None;
    for (index, entry) in entries.iter().enumerate() {
        let one = culprit_if(&entry.url, !marks[index]);
        least = lesser(least, one);
    }
    least
}
