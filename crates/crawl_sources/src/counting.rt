//! How many results link to each of some URLs.
ghost use Rattle.std.specs.Prelude.{◌≡◌, ℕ, Bool, List, [], Some, OnOk, IfOk, IsSome, true, if◌then◌else◌, option_map, bytes_eq};
ghost use Rattle.std.specs.List.{list_any};
ghost use Rattle.crawl_pages.specs.declared.page.PageResult.{PageResult};
ghost use Rattle.crawl_sources.specs.Tallies.{counted, count_of, pointed, IsTally};

use crate::tally::Tally;
use crawl_keys::CanonUrl;
use crawl_pages::{NoMemory, PageResult, links_of};
use hash_order::HashedText;
use std::alloc::Global;
use std::collections::BTreeMap;

/// A count for each of some URLs.
pub type Tallies<'a> = BTreeMap<HashedText<'a>, Tally<'a>>;

/// Counts, for the URL of each result of `listed`, the results that link to it. Each count has the least URL of these results, and if
/// `all` is set, all their URLs.
///
/// # Errors
/// Only out of memory.
pub fn tally_links<'a>(
    alloc: Global,
    listed: &[&'a PageResult],
    results: &'a [PageResult],
    all: bool,
) -> Result<Tallies<'a>, NoMemory>
    ensures known { IfOk result (λ tallies. (url : List ℕ) → list_any (λ r. bytes_eq r.url url) (pointed listed.now) ≡ true → IsSome (count_of tallies url)) }
    ensures counted { IfOk result (λ tallies. (url : List ℕ) → IsTally all results.now url (count_of tallies url)) }
{
    let mut tallies = no_tallies(alloc, listed)?;
    count_results(&mut tallies, all, results)?;
    Ok(tallies)
}

/// Returns the count for this URL. There must be one.
pub fn tally_of<'t, 'a>(tallies: &'t Tallies<'a>, url: &'a CanonUrl) -> &'t Tally<'a>
    requires { IsSome (count_of tallies.now url.now) }
    ensures { count_of tallies.now url.now ≡ Some result.now }
{
    match tallies.get(&url.hashed()) {
        Some(tally) => tally,
        None => unreachable!("there is a count"),
    }
}

/// Returns a count of 0 for the URL of each of these results.
fn no_tallies<'a>(alloc: Global, listed: &[&'a PageResult]) -> Result<Tallies<'a>, NoMemory>
    ensures known { IfOk result (λ tallies. (url : List ℕ) → list_any (λ r. bytes_eq r.url url) (pointed listed.now) ≡ true → IsSome (count_of tallies url)) }
    ensures none { IfOk result (λ tallies. (all : Bool) (url : List ℕ) → IsTally all [] url (count_of tallies url)) }
{
    let mut tallies = BTreeMap::new(alloc);
    for one in listed {
        tallies.insert(one.url.hashed(), Tally::new(alloc))?;
    }
    Ok(tallies)
}

/// Counts the links of these results, which are numbered from 1.
#[tactic(auto, using(std::proofs::lemmas::List::take_more, crate::proofs::Counts::tally_more))]
fn count_results<'a>(
    tallies: &mut Tallies<'a>,
    all: bool,
    results: &'a [PageResult],
) -> Result<(), NoMemory>
    ensures counted { OnOk result ((url : List ℕ) → IsTally all [] url (count_of tallies.old url) → IsTally all results.now url (count_of tallies.new url)) }
    ensures kept { OnOk result ((url : List ℕ) → IsSome (count_of tallies.old url) → IsSome (count_of tallies.new url)) }
{
    let mut number: u64 = 0;
    for one in results {
        number += 1;
        count_links(tallies, all, number, one.url.as_str(), links_of(&one.page))?;
    }
    Ok(())
}

/// Counts the result with this number and this URL once for each URL among its links.
fn count_links<'a>(
    tallies: &mut Tallies<'a>,
    all: bool,
    number: u64,
    page: &'a str,
    links: &'a [CanonUrl],
) -> Result<(), NoMemory>
    ensures { OnOk result ((url : List ℕ) → count_of tallies.new url ≡ option_map (λ c. if list_any (λ link. bytes_eq link url) links.now then counted all number page.now c else c) (count_of tallies.old url)) }
{
    for link in links {
        count_link(tallies, all, number, page, link)?;
    }
    Ok(())
}

/// Adds the page to the count for the link's URL, if there is one. A page that was already counted there adds nothing.
fn count_link<'a>(
    tallies: &mut Tallies<'a>,
    all: bool,
    number: u64,
    page: &'a str,
    link: &'a CanonUrl,
) -> Result<(), NoMemory>
    ensures { OnOk result ((url : List ℕ) → count_of tallies.new url ≡ option_map (λ c. if bytes_eq link.now url then counted all number page.now c else c) (count_of tallies.old url)) }
{
    if let Some(tally) = tallies.get_mut(&link.hashed()) {
        tally.add(all, number, page)?;
    }
    Ok(())
}
