//! Whether the indices of the links of all pages are known.
ghost use Rattle.std.specs.Prelude.{◌≡◌, ◌≤◌, ◌⊎◌, All, false, true, length, bytes_eq};
ghost use Rattle.site_check.specs.Aliases.{is_alias};
ghost use Rattle.site_check.specs.Complete.{IsIndexed, rises_from};
ghost use Rattle.site_check.specs.Leads.{indices_at};

use crate::leads::{LinkIndices, indices_of};
use crawl_keys::CanonUrl;
use crawl_pages::{Page, PageResult};
use site_files::Alias;

/// Whether each page that was found has an index for each of its links, in order, except the pages of aliases. Without `positions` no
/// page is read. `saved_site` makes such indices, but no clause of it says so: call this for a proof.
pub(crate) fn has_indices<'p>(
    positions: bool,
    indices: &LinkIndices<'p>,
    aliases: &[Alias],
    results: &'p [PageResult],
) -> bool
    ensures { result ≡ true → positions ≡ true → All (IsIndexed (indices_at indices.now) aliases.now) results.now }
{
    if !positions {
        return true;
    }
    for one in results {
        if !is_indexed(indices, aliases, one) {
            return false;
        }
    }
    true
}

/// Whether the page of a result has an index for each of its links, in order, or is that of an alias.
fn is_indexed<'p>(indices: &LinkIndices<'p>, aliases: &[Alias], one: &'p PageResult) -> bool
    ensures { result ≡ true → IsIndexed (indices_at indices.now) aliases.now one.now }
{
    match &one.page {
        Page::Found { links, .. } => are_indexed(indices, aliases, &one.url, links.as_slice()),
        Page::Moved { .. } => true,
        Page::Missing => true,
    }
}

/// Whether there is an index for each of these links of the page at a URL, in order, or the page is that of an alias.
fn are_indexed<'p>(
    indices: &LinkIndices<'p>,
    aliases: &[Alias],
    url: &'p CanonUrl,
    links: &[CanonUrl],
) -> bool
    ensures { result ≡ true → is_alias aliases.now url.now ≡ false → (length links.now ≡ 0) ⊎ ((length links.now ≤ length (indices_at indices.now url.now)) × (rises_from 0 (indices_at indices.now url.now) ≡ true)) }
{
    let count = links.len();
    if count == 0 {
        return true;
    }
    if are_enough(indices_of(indices, url), count) {
        return true;
    }
    is_alias(aliases, url.as_str())
}

/// Whether there are at least this number of indices, in order.
fn are_enough(indices: &[u32], count: usize) -> bool
    ensures { result ≡ true → (count ≤ length indices.now) × (rises_from 0 indices.now ≡ true) }
{
    if indices.len() < count {
        return false;
    }
    rises(indices)
}

/// Whether each index is less than the next.
#[tactic(auto, using(crate::proofs::PageIndices::rising_more, crate::proofs::PageIndices::rising_stop, crate::proofs::PageIndices::rising_end))]
fn rises(indices: &[u32]) -> bool
    ensures { result ≡ rises_from 0 indices.now }
{
    let mut least: u64 = 0;
    let mut left = indices;
    'indices: loop {
        match left.split_first() {
            Some((index, following)) => {
                let index = u64::from(*index);
                if index < least {
                    return false;
                }
                least = index + 1;
                left = following;
            }
            None => return true,
        }
    }
}

/// Whether the URL is that of an alias. The aliases are in the order of their URLs.
fn is_alias(aliases: &[Alias], url: &str) -> bool
    ensures { result ≡ true → is_alias aliases.now url.now ≡ true }
{
    match aliases.binary_search_by(|alias| alias.url.as_str().cmp(url)) {
        Ok(number) => is_alias_at(aliases, number, url),
        Err(_) => false,
    }
}

/// Whether the alias with this number has this URL.
fn is_alias_at(aliases: &[Alias], number: usize, url: &str) -> bool
    ensures { result ≡ true → is_alias aliases.now url.now ≡ true }
{
    match aliases.get(number) {
        Some(alias) => has_url(alias, url),
        None => false,
    }
}

/// Whether an alias has this URL.
fn has_url(alias: &Alias, url: &str) -> bool
    ensures { result ≡ bytes_eq alias.now.url url.now }
{
    alias.url.as_str() == url
}
