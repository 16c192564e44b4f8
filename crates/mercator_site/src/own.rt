//! The URLs of a site: those below its top.
ghost use Rattle.std.specs.Prelude.{◌≡◌};
ghost use Rattle.crawl_certificate.specs.Certificate.{IsAscending, result_urls};
ghost use Rattle.mercator_site.specs.Own.{from_own, own_of, while_own};
ghost use Rattle.site_files.specs.Below.{begins};

use crawl_keys::CanonUrl;
use crawl_pages::PageResult;

/// Whether the URL belongs to the site with this top.
pub(crate) fn is_own(top: &CanonUrl, url: &CanonUrl) -> bool
    ensures { result ≡ begins top.now url.now }
{
    begins(top.as_str(), url)
}

/// Whether the URL begins with this text.
pub(crate) fn begins(front: &str, url: &CanonUrl) -> bool
    ensures { result ≡ begins front.now url.now }
{
    url.as_str().as_bytes().starts_with(front.as_bytes())
}

/// The results of the site's own URLs. Results are in the order of their URLs, so these are consecutive.
#[tactic(auto, using(crate::proofs::OwnPages::own_are_together))]
pub(crate) fn own_results<'a>(top: &CanonUrl, results: &'a [PageResult]) -> &'a [PageResult]
    ensures { IsAscending (result_urls results.now) → result.now ≡ own_of top.now results.now }
{
    while_own(top, from_own(top, results))
}

/// The results from the first of the site's own URLs on.
fn from_own<'a>(top: &CanonUrl, results: &'a [PageResult]) -> &'a [PageResult]
    ensures { result.now ≡ from_own top.now results.now }
{
    for (index, one) in results.iter().enumerate() {
        if is_own(top, &one.url) {
            return results.split_at(index).1;
        }
    }
    &[]
}

/// The results before the first URL that is not the site's own.
fn while_own<'a>(top: &CanonUrl, results: &'a [PageResult]) -> &'a [PageResult]
    ensures { result.now ≡ while_own top.now results.now }
{
    for (index, one) in results.iter().enumerate() {
        if !is_own(top, &one.url) {
            return results.split_at(index).0;
        }
    }
    results
}
