//! One pass over the results: which entries have a result, and to which entries results link. The URL of each result, and each
//! link, is looked up once.
ghost use Rattle.std.specs.Prelude.{◌≡◌, ◌+◌, ◌==◌, ℕ, Bool, false, ◌&&◌, ◌||◌, not, List, map, length, None, IfOk, bytes_eq};
ghost use Rattle.crawl_queues.specs.declared.entry.Entry.{Entry};
ghost use Rattle.crawl_keys.specs.HostFilter.{allows};
ghost use Rattle.crawl_pages.specs.Pages.{links_of};
ghost use Rattle.crawl_certificate.specs.CertErrors.{is_accepted, contains_url, has_result, is_one_hop_after, is_linked};
ghost use Rattle.crawl_certificate.specs.Culprits.{is_lost, is_a_link, is_a_stray, is_twice};
ghost use Rattle.crawl_certificate.specs.Least.{IsLeast, url_of, url_if, lesser};
ghost use Rattle.crawl_certificate.specs.Marks.{AreMarks};

use crate::least::{culprit_if, lesser};
use crate::lookups::Accepted;
use crate::missing::least_missing;
use crawl_frontier::Entry;
use crawl_keys::{CanonUrl, Filter};
use crawl_pages::{PageResult, links_of};
use std::alloc::{AllocError, Global};

/// What results show: for each of these errors, the least URL that has it.
#[derive(Clone, Copy)]
pub struct LeastUrls<'r, 'e> {
    /// A link that the filter allows is not accepted.
    pub missing: Option<&'r CanonUrl>,
    /// The URL of a result was not accepted.
    pub stray: Option<&'r CanonUrl>,
    /// Two results have the same URL, which is that of an entry. Only meaningful if there is no stray.
    pub twice: Option<&'e CanonUrl>,
}

/// What a pass over the results finds.
#[derive(Drop)]
pub struct Marks<'r, 'e> {
    /// For each entry, whether a result has its URL.
    pub fetched: Vec<bool>,
    /// For each entry, whether a result of an entry with one hop less links to it.
    pub linked: Vec<bool>,
    pub least: LeastUrls<'r, 'e>,
}

impl<'r, 'e> LeastUrls<'r, 'e> {
    /// Combines what two lists of results show: for each error the lesser of the two URLs.
    pub fn and(self, more: LeastUrls<'r, 'e>) -> LeastUrls<'r, 'e>
        ensures missing { url_of result.missing ≡ lesser (url_of self.entry.missing) (url_of more.entry.missing) }
        ensures stray { url_of result.stray ≡ lesser (url_of self.entry.stray) (url_of more.entry.stray) }
        ensures twice { url_of result.twice ≡ lesser (url_of self.entry.twice) (url_of more.entry.twice) }
    {
        LeastUrls {
            missing: lesser(self.missing, more.missing),
            stray: lesser(self.stray, more.stray),
            twice: lesser(self.twice, more.twice),
        }
    }
}

/// Makes a pass over the results: which entries they mark, and the errors that they show.
///
/// The entry of the first result is searched for at the index `first`, and that of each other result after the entry of the result
/// before it: each worker's results are in the order of its subqueue's entries.
pub fn marks_of<'r, 'e>(
    alloc: Global,
    filter: &Filter,
    accepted: &'e Accepted<'_>,
    first: usize,
    results: &'r [PageResult],
) -> Result<Marks<'r, 'e>, AllocError>
    ensures { IfOk result (AreMarks (allows filter.now) accepted.now results.now) }
{
    let mut fetched = no_marks(alloc, accepted)?;
    let mut linked = no_marks(alloc, accepted)?;
    let least = mark_results(filter, accepted, &mut fetched, &mut linked, first, results);
    Ok(Marks {
        fetched,
        linked,
        least,
    })
}

/// Returns a list in which no entry is marked.
#[tactic(auto, using(crate::proofs::Places::none_marked))]
pub fn no_marks(alloc: Global, accepted: &Accepted<'_>) -> Result<Vec<bool>, AllocError>
    ensures { IfOk result (λ marks. marks.items ≡ map (λ _. false) accepted.now) }
{
    let marks = vec![in alloc; false; accepted.entries().len()]?;
    Ok(marks)
}

/// Marks the entries that have a result, and those to which results link. Returns the least URL of each error.
fn mark_results<'r, 'e>(
    filter: &Filter,
    accepted: &'e Accepted<'_>,
    fetched: &mut [bool],
    linked: &mut [bool],
    first: usize,
    results: &'r [PageResult],
) -> LeastUrls<'r, 'e>
    requires none_fetched { fetched.old ≡ map (λ _. false) accepted.now }
    requires none_linked { linked.old ≡ map (λ _. false) accepted.now }
    ensures fetched { fetched.new ≡ map (λ e. has_result results.now e.url) accepted.now }
    ensures linked { linked.new ≡ map (is_linked accepted.now results.now) accepted.now }
    ensures missing { IsLeast (λ url. is_a_link results.now url && is_lost (allows filter.now) accepted.now url) (url_of result.missing) }
    ensures stray { IsLeast (is_a_stray accepted.now results.now) (url_of result.stray) }
    ensures twice { url_of result.stray ≡ None → IsLeast (is_twice results.now) (url_of result.twice) }
{
    let mut least = LeastUrls {
        missing: None,
        stray: None,
        twice: None,
    };
    let mut guess = first;
    for one in results {
        let of_one = mark_result(filter, accepted, fetched, linked, &mut guess, one);
        least = least.and(of_one);
    }
    least
}

/// Marks the entry of the result, and the entries to which the result links and that have one hop more. `twice` returns whether the
/// entry was marked before. The guess becomes the index after the entry that was found.
fn mark_result<'r, 'e>(
    filter: &Filter,
    accepted: &'e Accepted<'_>,
    fetched: &mut [bool],
    linked: &mut [bool],
    guess: &mut usize,
    one: &'r PageResult,
) -> LeastUrls<'r, 'e>
    requires long_fetched { length fetched.old ≡ length accepted.now }
    requires long_linked { length linked.old ≡ length accepted.now }
    ensures fetched { (known : List ℕ → Bool) → fetched.old ≡ map (λ e. known e.url) accepted.now → fetched.new ≡ map (λ e. known e.url || bytes_eq one.now.url e.url) accepted.now }
    ensures linked { (known : Entry → Bool) → linked.old ≡ map known accepted.now → linked.new ≡ map (λ e. known e || (contains_url (links_of one.now.page) e.url && is_one_hop_after accepted.now one.now.url e)) accepted.now }
    ensures missing { IsLeast (λ url. contains_url (links_of one.now.page) url && is_lost (allows filter.now) accepted.now url) (url_of result.missing) }
    ensures stray { url_of result.stray ≡ url_if (not (is_accepted accepted.now one.now.url)) one.now.url }
    ensures twice { (known : List ℕ → Bool) → fetched.old ≡ map (λ e. known e.url) accepted.now → url_of result.stray ≡ None → url_of result.twice ≡ url_if (known one.now.url) one.now.url }
{
    let links = links_of(&one.page);
    match accepted.find_by(*guess, &one.url) {
        Some(index) => {
            *guess = index.saturating_add(1);
            let twice = fetched[index];
            fetched[index] = true;
            let entry = accepted.entry(index);
            let missing = mark_links(filter, accepted, linked, entry.hops, links);
            LeastUrls {
                missing,
                stray: None,
                twice: culprit_if(&entry.url, twice),
            }
        }
        None => LeastUrls {
            missing: least_missing(filter, accepted, links),
            stray: Some(&one.url),
            twice: None,
        },
    }
}

/// Marks the entries of these links that have one hop more than `hops`, and returns the least allowed link that is not accepted.
///
/// Links that were new on one page are entries that follow each other, so the entry of each link is looked for first after that
/// of the link before it.
fn mark_links<'a>(
    filter: &Filter,
    accepted: &Accepted<'_>,
    linked: &mut [bool],
    hops: u32,
    links: &'a [CanonUrl],
) -> Option<&'a CanonUrl>
    requires long { length linked.old ≡ length accepted.now }
    ensures linked { (known : Entry → Bool) → linked.old ≡ map known accepted.now → linked.new ≡ map (λ e. known e || (contains_url links.now e.url && e.hops == hops + 1)) accepted.now }
    ensures missing { IsLeast (λ url. contains_url links.now url && is_lost (allows filter.now) accepted.now url) (url_of result) }
{
    let mut missing = None;
    let mut guess = 0;
    for link in links {
        let one = mark(filter, accepted, linked, hops, &mut guess, link);
        missing = lesser(missing, one);
    }
    missing
}

/// Marks the entry of the link, if it has one hop more than `hops`. Returns the link if it is allowed and was not accepted.
fn mark<'a>(
    filter: &Filter,
    accepted: &Accepted<'_>,
    linked: &mut [bool],
    hops: u32,
    guess: &mut usize,
    link: &'a CanonUrl,
) -> Option<&'a CanonUrl>
    requires long { length linked.old ≡ length accepted.now }
    ensures linked { (known : Entry → Bool) → linked.old ≡ map known accepted.now → linked.new ≡ map (λ e. known e || (bytes_eq link.now e.url && e.hops == hops + 1)) accepted.now }
    ensures missing { url_of result ≡ url_if (is_lost (allows filter.now) accepted.now link.now) link.now }
{
    match accepted.find_by(*guess, link) {
        Some(index) => {
            *guess = index.saturating_add(1);
            let entry = accepted.entry(index);
            if is_next(hops, entry) {
                linked[index] = true;
                return None;
            }
            None
        }
        None => culprit_if(link, filter.allows(link)),
    }
}

/// Whether the entry has one hop more than `hops`.
pub fn is_next(hops: u32, entry: &Entry) -> bool
    ensures { result ≡ (entry.now.hops == hops + 1) }
{
    u64::from(entry.hops) == u64::from(hops) + 1
}
