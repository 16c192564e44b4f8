//! Whether an entry is unfounded: no seed and no link leads to it, or the filter does not allow it.
ghost use Rattle.std.specs.Prelude.{◌≡◌, ◌==◌, Bool, not, ◌&&◌, map, length, if◌then◌else◌, bytes_eq};
ghost use Rattle.std.specs.List.{list_any};
ghost use Rattle.crawl_queues.specs.declared.entry.Entry.{Entry};
ghost use Rattle.crawl_keys.specs.HostFilter.{allows};
ghost use Rattle.crawl_certificate.specs.Least.{IsLeast, url_of};
ghost use Rattle.crawl_certificate.specs.Lookups.{pointed, is_in};

use crate::least::{culprit_if, lesser};
use crate::lookups::Urls;
use crawl_frontier::Entry;
use crawl_keys::{CanonUrl, Filter};

/// The least URL of an entry that is not founded. `marks` says which entries are linked.
pub fn least_unfounded<'e, 'a>(
    filter: &Filter,
    seeds: &Urls<'a>,
    entries: &'e [&'a Entry],
    marks: &[bool],
) -> Option<&'e CanonUrl>
    requires { length marks.now ≡ length entries.now }
    ensures { (linked : Entry → Bool) → marks.now ≡ map linked (pointed entries.now) → IsLeast (λ url. list_any (λ e. bytes_eq e.url url && not (allows filter.now e.url && (if e.hops == 0 then is_in seeds.now e.url else linked e))) (pointed entries.now)) (url_of result) }
{
    let mut least = None;
    for (index, entry) in entries.iter().enumerate() {
        let founded = is_founded(filter, seeds, entry, marks[index]);
        let one = culprit_if(&entry.url, !founded);
        least = lesser(least, one);
    }
    least
}

/// Whether the entry is allowed, and is a seed if it has no hops, or else is linked.
pub fn is_founded<'a>(filter: &Filter, seeds: &Urls<'a>, entry: &'a Entry, is_linked: bool) -> bool
    ensures { result ≡ (allows filter.now entry.now.url && (if entry.now.hops == 0 then is_in seeds.now entry.now.url else is_linked)) }
{
    filter.allows(&entry.url)
        && if entry.hops == 0 {
            seeds.contains(&entry.url.hashed())
        } else {
            is_linked
        }
}
