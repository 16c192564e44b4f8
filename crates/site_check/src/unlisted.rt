//! The documents that no sitemap lists.
ghost use Rattle.std.specs.Prelude.{◌≡◌, ◌||◌, ℕ, List, IfOk, OnOk, filter, map, string_bytes};
ghost use Rattle.std.specs.List.{list_any};
ghost use Rattle.site_check.specs.Aliases.{is_in};
ghost use Rattle.site_check.specs.Broken.{matches_target, shown};
ghost use Rattle.site_check.specs.Ignored.{not_ignored, unused_by};
ghost use Rattle.site_check.specs.Unlisted.{is_missed, is_not_found_page, is_other_of, unlisted_in, unlisted_of};

use crate::ignored::{is_ignored, matches_target};
use crate::input::CheckInput;
use crate::names::last_part;
use crate::shown::shown;
use crate::url_sets::{UrlSet, document_urls};
use crawl_keys::CanonUrl;
use crawl_pages::NoMemory;
use site_files::Alias;
use std::alloc::Global;
use std::collections::BTreeSet;

/// The documents that no sitemap lists, as they are printed, if they are reported.
pub(crate) fn unlisted(alloc: Global, input: CheckInput<'_>) -> Result<Vec<String>, NoMemory>
    ensures { IfOk result (λ all. map string_bytes all.items ≡ unlisted_in input.entry.front.now input.entry.aliases.now input.entry.documents.now input.entry.listed) }
{
    match input.listed {
        Some(listed) => unlisted_of(alloc, input.front, input.aliases, input.documents, listed),
        None => Ok(Vec::new(alloc)),
    }
}

/// Leaves out the documents that an entry of the ignore list matches, and the unused entries that match one of them. An entry with a file
/// matches no document.
pub fn ignore_unlisted(
    entries: &[String],
    documents: &mut Vec<String>,
    unused_entries: &mut Vec<String>,
)
    ensures documents { map string_bytes documents.new.items ≡ not_ignored (map string_bytes entries.now) (map string_bytes documents.old.items) }
    ensures unused { map string_bytes unused_entries.new.items ≡ unused_by (map string_bytes documents.old.items) (map string_bytes unused_entries.old.items) }
{
    leave_used(documents.as_slice(), unused_entries);
    leave_ignored(entries, documents);
}

/// Leaves out the entries that match one of these documents.
fn leave_used(documents: &[String], entries: &mut Vec<String>)
    ensures { map string_bytes entries.new.items ≡ unused_by (map string_bytes documents.now) (map string_bytes entries.old.items) }
{
    entries.retain(|entry| !is_used_for(entry.as_str(), documents));
}

/// Leaves out the documents that an entry matches.
fn leave_ignored(entries: &[String], documents: &mut Vec<String>)
    ensures { map string_bytes documents.new.items ≡ not_ignored (map string_bytes entries.now) (map string_bytes documents.old.items) }
{
    documents.retain(|document| !is_ignored(entries, document.as_str()));
}

/// Whether the entry matches one of these documents.
fn is_used_for(entry: &str, documents: &[String]) -> bool
    ensures { result ≡ list_any (matches_target entry.now) (map string_bytes documents.now) }
{
    for document in documents {
        if matches_target(entry, document.as_str()) {
            return true;
        }
    }
    false
}

/// The documents of which none of these URLs is the own URL or an alias, in order, as they are printed, without those with the file name
/// `404.html`.
fn unlisted_of(
    alloc: Global,
    front: &str,
    aliases: &[Alias],
    documents: &[CanonUrl],
    listed: &[CanonUrl],
) -> Result<Vec<String>, NoMemory>
    ensures { IfOk result (λ all. map string_bytes all.items ≡ unlisted_of front.now aliases.now documents.now listed.now) }
{
    let listed = document_urls(alloc, listed)?;
    let owns = own_urls(alloc, &listed, aliases)?;
    in_neither(alloc, front, &listed, &owns, documents)
}

/// The own URLs of the aliases that are in a set.
fn own_urls<'a>(
    alloc: Global,
    listed: &UrlSet<'a>,
    aliases: &'a [Alias],
) -> Result<UrlSet<'a>, NoMemory>
    ensures { IfOk result (λ owns. (own : List ℕ) → is_in owns own ≡ list_any (is_other_of (is_in listed.now) own) aliases.now) }
{
    let mut owns = BTreeSet::new(alloc);
    for alias in aliases {
        add_own(listed, alias, &mut owns)?;
    }
    Ok(owns)
}

/// Adds the own URL of an alias that is in a set.
fn add_own<'a>(listed: &UrlSet<'a>, alias: &'a Alias, owns: &mut UrlSet<'a>) -> Result<(), NoMemory>
    ensures { OnOk result ((own : List ℕ) → is_in owns.new own ≡ (is_in owns.old own || is_other_of (is_in listed.now) own alias.now)) }
{
    let url = alias.url.hashed();
    if listed.contains(&url) {
        let own = alias.own.hashed();
        owns.insert(own)?;
    }
    Ok(())
}

/// The documents that are in neither of these sets, in order, as they are printed, without those with the file name `404.html`.
fn in_neither<'a>(
    alloc: Global,
    front: &str,
    listed: &UrlSet<'a>,
    owns: &UrlSet<'a>,
    documents: &'a [CanonUrl],
) -> Result<Vec<String>, NoMemory>
    ensures { IfOk result (λ all. map string_bytes all.items ≡ map (shown front.now) (filter (is_missed (is_in listed.now) (is_in owns.now)) documents.now)) }
{
    let mut all = Vec::new(alloc);
    for own in documents {
        if is_missed(listed, owns, own) {
            all.push(String::from_str(alloc, shown(front, own.as_str()))?)?;
        }
    }
    Ok(all)
}

/// Whether a document is in neither of these sets, and does not have the file name `404.html`.
fn is_missed<'a>(listed: &UrlSet<'a>, owns: &UrlSet<'a>, own: &'a CanonUrl) -> bool
    ensures { result ≡ is_missed (is_in listed.now) (is_in owns.now) own.now }
{
    let url = own.hashed();
    !listed.contains(&url) && !owns.contains(&url) && !is_not_found_page(own.as_str())
}

/// Whether a URL has the file name `404.html`.
fn is_not_found_page(url: &str) -> bool
    ensures { result ≡ is_not_found_page url.now }
{
    last_part(url) == "404.html".as_bytes()
}
