//! Checks the results of a crawl of a site's saved web.
ghost use Rattle.std.specs.Prelude.{◌≡◌, ◌==◌, ◌++◌, ◌<◌, ℕ, List, [], true, All, Contains, IfOk, IsPermutation, OnOk, map, not, string_bytes, length, flat_map, option_map};
ghost use Rattle.check_report.specs.Text.{is_broken};
ghost use Rattle.crawl_sources.specs.Tallies.{pointed};
ghost use Rattle.site_files.specs.declared.files.SiteFiles.{SiteFiles};
ghost use Rattle.site_check.specs.Base.{hint_at};
ghost use Rattle.site_check.specs.Broken.{linked_at, redirects_of, result_at, rows_with, ways_with};
ghost use Rattle.site_check.specs.Complete.{AreOnce, HasAllLinks, HasIndices, IsKeptPlace};
ghost use Rattle.site_check.specs.Documents.{AreInOrder, AreSearchable};
ghost use Rattle.site_check.specs.Hints.{hints_at, hints_in};
ghost use Rattle.site_check.specs.Ignored.{not_ignored, anchors_in, anchors_left, text_at, unused};
ghost use Rattle.site_check.specs.Invalid.{AreTexts, invalid_rows_in, row_of, text_of, texts_if};
ghost use Rattle.site_check.specs.LackedLinks.{lack_of};
ghost use Rattle.site_check.specs.LackedPlaces.{HasAllLacks, HasLackLeads};
ghost use Rattle.site_check.specs.Lacks.{AreAnchors, AreLacks, is_any};
ghost use Rattle.site_check.specs.Leads.{indices_in, leads_from, number_in, targets_of};
ghost use Rattle.site_check.specs.Leaving.{leaving_in, outside_at, outside_linked, row_at, shown_at};
ghost use Rattle.site_check.specs.LinkBase.{base_hint_of};
ghost use Rattle.site_check.specs.Located.{AddsListed, IsListed, IsLocatedRow, KeepsRows, listed, located_row, page_text, placed_at, target_texts};
ghost use Rattle.site_check.specs.Locations.{IsLocated};
ghost use Rattle.site_check.specs.Names.{AreNamed};
ghost use Rattle.site_check.specs.Reported.{AreReported, AreRows, ReportsAnchors};
ghost use Rattle.site_check.specs.AnchorGroups.{AddsGroups, anchor_row};
ghost use Rattle.site_check.specs.Anchors.{anchor_text};
ghost use Rattle.site_check.specs.RowMeanings.{rows_in, way_of};
ghost use Rattle.site_check.specs.Totals.{totals_of};
ghost use Rattle.site_check.specs.Unlisted.{unlisted_in};
ghost use Rattle.site_check.specs.Unreached.{unreached_in};
ghost use Rattle.site_check.specs.Worst.{file_links, worst_of};

use crate::anchors::push_anchors;
use crate::check_error::CheckError;
use crate::complete::{Targets, has_all_places};
use crate::file_entries::leave_out;
use crate::ignored::unused;
use crate::indexed::has_indices;
use crate::input::CheckInput;
use crate::invalid::{InvalidText, invalid_texts, push_texts};
use crate::leads::{ANCHORS, Lead, ListedLead, Maps, PAGES, TEXTS, URLS, link_indices, targets};
use crate::leaving::{outside_leads, outside_urls, push_outside};
use crate::link_base::base_hint;
use crate::linked::{Linked, linked_results};
use crate::located::TargetPlace;
use crate::missing_anchors::{MissingAnchor, MissingAnchorLink, missing_anchors, sort_by_anchor};
use crate::names::{Named, lower_names_of, names_of};
use crate::outside::Outside;
use crate::rows::{broken_rows, redirect_rows};
use crate::shown::shown;
use crate::site_pages::{Pages, Site, documents_of};
use crate::threads::{lacked_by, leads_by, locate_by};
use crate::totals::totals_of;
use crate::unlisted::unlisted;
use crate::unreached::unreached;
use crate::worst::worst;
use check_report::{BaseHint, Broken, FileCount, Findings, Redirect, Totals, is_broken};
use crawl_pages::{NoMemory, PageResult};
use site_files::{FileBytes, SiteFiles};
use std::alloc::Global;
use std::thread::{Threads, join};

/// The results of a check.
#[derive(Drop)]
pub struct Checked {
    pub totals: Totals,
    pub broken: Vec<Broken>,
    pub worst: Vec<FileCount>,
    pub redirects: Vec<Redirect>,
    pub unreached: Vec<String>,
    pub unlisted: Vec<String>,
    pub unused_ignores: Vec<String>,
    pub base_hint: Option<BaseHint>,
}

impl Checked {
    /// The results, with this name of the site, as `check_report` prints them.
    pub fn findings<'a>(&'a self, base: &'a str) -> Findings<'a>
        ensures base { result.base.now ≡ base.now }
        ensures totals { result.totals ≡ self.now.totals }
        ensures broken { result.broken.now ≡ self.now.broken.items }
        ensures worst { result.worst.now ≡ self.now.worst.items }
        ensures redirects { result.redirects.now ≡ self.now.redirects.items }
        ensures unreached { result.unreached.now ≡ self.now.unreached.items }
        ensures unlisted { result.unlisted.now ≡ self.now.unlisted.items }
        ensures unused_ignores { result.unused_ignores.now ≡ self.now.unused_ignores.items }
        ensures base_hint { option_map (λ hint. hint.now) result.base_hint ≡ self.now.base_hint }
    {
        Findings {
            base,
            totals: self.totals,
            broken: self.broken.as_slice(),
            worst: self.worst.as_slice(),
            redirects: self.redirects.as_slice(),
            unreached: self.unreached.as_slice(),
            unlisted: self.unlisted.as_slice(),
            unused_ignores: self.unused_ignores.as_slice(),
            base_hint: self.base_hint.as_ref(),
        }
    }

    /// Whether something is broken.
    pub fn is_broken(&self) -> bool
        ensures { result ≡ is_broken self.now.totals }
    {
        is_broken(self.totals)
    }
}

/// Finds the broken links in the results of a crawl of a site's saved web. The results are in the order of their URLs, each URL
/// once. The threads that the site's rules name look for anchors, and for locations in files that are read again. Sixteen threads
/// count links and find those to missing pages, or one thread if the rules name fewer than four.
///
/// # Errors
/// `FileUnread`, `FileChanged`, `LinkLost`, `NoMemory`.
#[tactic(auto, using(crate::proofs::AllRows::ways_of_all))]
pub fn check_site<'f, R: Threads + Sync, B: FileBytes + Sync>(
    rt: &R,
    alloc: Global,
    results: &[PageResult],
    files: &'f SiteFiles<'f>,
    bytes: &B,
    input: CheckInput<'_>,
) -> Result<Checked, CheckError>
    // The rows are what entries with a file leave of rows for exactly the missing results, the texts of invalid links in found pages, if
    // the check lists them, the missing results on the site's host that are not below its top, and missing anchors; each without those
    // that an entry matches. A missing page has the number of results that link to it, the only page with its file name, in the same case
    // or else in another, unless a link to the missing page is in the file of that page, and the hint at what a server with other rules
    // finds. The unused entries are those that match none of these and no location.
    ensures rows { IfOk result (λ checked. AreReported input.entry.front.now (map string_bytes input.entry.ignores.now) input.entry.scope input.entry.places.now input.entry.rooted input.entry.maps.now files.now results.now input.entry.found.now checked.broken.items (map string_bytes checked.unused_ignores.items)) }
    // If documents, aliases and results are in the order of their URLs, each URL once, the rows of anchors are those of exactly the anchors
    // to which a link of a found page leads and that the document at its target lacks, each once and in the order of URLs and fragments,
    // with the number of results that have such a link, and without those that an entry matches.
    ensures anchors { IfOk result (λ checked. AreInOrder input.entry.anchors.now input.entry.aliases.now results.now → ReportsAnchors input.entry.front.now (map string_bytes input.entry.ignores.now) input.entry.anchors.now input.entry.aliases.now files.now results.now checked.broken.items) }
    // Each location of a row is that of a link in what was read of the file of a page. If the row reports a missing page, the page links to
    // it, directly or by a redirect, and so does the link in the file, by the URL that `indexed_links` finds for it.
    ensures places { IfOk result (λ checked. All (IsLocated input.entry.front.now input.entry.places.now files.now results.now (B.reads bytes.now)) checked.broken.items) }
    // No link to a missing page is left out. If each URL is that of one result, and the rules of the site ask for positions, each link of a
    // page that leads to a missing page, directly or by a redirect, has an index. The link with this index in the file leads there, too, and
    // its location is in the row of the missing page, unless an entry matches the page or the location. The link of an alias has none.
    ensures complete { IfOk result (λ checked. AreOnce results.now → HasAllLinks input.entry.front.now (map string_bytes input.entry.ignores.now) input.entry.aliases.now input.entry.places.now files.now results.now (B.reads bytes.now) checked.broken.items) }
    // No link to a missing anchor is left out. If documents, aliases and results are in the order of their URLs, each URL once, the location
    // of each kept link to an anchor that its document lacks is in a row of the anchor, unless the index of the link is not known, or an
    // entry matches the anchor or the location.
    ensures anchor_places { IfOk result (λ checked. AreInOrder input.entry.anchors.now input.entry.aliases.now results.now → HasAllLacks input.entry.front.now (map string_bytes input.entry.ignores.now) input.entry.anchors.now input.entry.aliases.now files.now results.now (B.reads bytes.now) checked.broken.items) }
    // The rows of redirects are the moved results that are linked to.
    ensures redirects { IfOk result (λ checked. map way_of checked.redirects.items ≡ redirects_of input.entry.front.now results.now) }
    // The unreached files are those of which a search from the starts found no page, by the first URL of each, in order, if they are listed.
    ensures unreached { IfOk result (λ checked. map string_bytes checked.unreached.items ≡ unreached_in input.entry.front.now files.now input.entry.reached) }
    // The worst files are the first ten of those with locations, in the order of the number of their locations and then of their names.
    ensures worst { IfOk result (λ checked. map file_links checked.worst.items ≡ worst_of checked.broken.items) }
    // The unlisted documents are those of which no sitemap lists the own URL or an alias, in order, without `404.html`, if they are listed.
    ensures unlisted { IfOk result (λ checked. map string_bytes checked.unlisted.items ≡ unlisted_in input.entry.front.now input.entry.aliases.now input.entry.documents.now input.entry.listed) }
    // The hint of BASE is the first folder that at least half and at least two of the paths from the root in the rows of missing pages
    // begin with, if the site has no file in it and its URL is not known. Otherwise it is the first URL but the top with which at least half
    // and at least two of the links begin, if the folder has files for at least half of those links. There is none if at least half of the
    // links begin with the top, after the number of locations of links to missing pages is taken off. Otherwise it is the URL of the first
    // folder on the host, if at least two links begin with it, and the folder has files for at least half of those.
    ensures base_hint { IfOk result (λ checked. option_map hint_at checked.base_hint ≡ base_hint_of input.entry.rooted files.now results.now checked.broken.items) }
    // The totals count the documents and the other files at their own URLs, their links, the pages at aliases, and the rows.
    ensures totals { IfOk result (λ checked. checked.totals ≡ totals_of input.entry.aliases.now input.entry.documents.now results.now checked.broken.items checked.redirects.items) }
    // By the totals something is broken if and only if there is a row.
    ensures verdict { IfOk result (λ checked. is_broken checked.totals ≡ not (length checked.broken.items == 0)) }
{
    let documents = documents_of(alloc, files, input.anchors)?;
    let site = site_of(results, files, input, documents.as_slice());
    let linked = linked_results(rt, alloc, results, files.threads())?;
    let all = linked.as_slice();
    let sought = sought_by(rt, alloc, input, site, all)?;
    let places = locate_by(rt, alloc, site, all, sought.leads.as_slice(), bytes)?;
    results_of(alloc, input, site, all, &sought, places.as_slice())
}

/// Puts together what the threads of a check read: the results, the anchors and aliases, and the files of the site.
fn site_of<'p, 'f>(
    results: &'p [PageResult],
    files: &'f SiteFiles<'f>,
    input: CheckInput<'p>,
    documents: &'p [Option<usize>],
) -> Site<'p, 'f>
    ensures files { result.files.now ≡ files.now }
    ensures results { result.pages.results.now ≡ results.now }
    ensures anchors { result.pages.anchors.now ≡ input.entry.anchors.now }
    ensures aliases { result.pages.aliases.now ≡ input.entry.aliases.now }
    ensures documents { result.pages.documents.now ≡ documents.now }
{
    Site {
        pages: Pages {
            results,
            anchors: input.anchors,
            aliases: input.aliases,
            documents,
        },
        files,
    }
}

/// What is broken, and the links whose locations are reported.
#[derive(Drop)]
struct BrokenLinks<'p> {
    anchors: Vec<MissingAnchor>,
    invalid: Vec<InvalidText<'p>>,
    outside: Vec<Outside<'p>>,
    /// The links to missing pages and missing anchors, the invalid links, and the links that lead out of the site, page by page, in the
    /// order of a page's text. Those that an entry of the ignore list matches are left out.
    leads: Vec<ListedLead>,
}

/// Finds the links to missing pages and missing anchors, the invalid links, and the links that lead out of the site.
#[tactic(auto, using(crate::proofs::LeadTargets::all_listed))]
fn sought_by<'p, R: Threads + Sync>(
    rt: &R,
    alloc: Global,
    input: CheckInput<'p>,
    site: Site<'p, '_>,
    linked: &[Linked<'p>],
) -> Result<BrokenLinks<'p>, CheckError>
    ensures invalid { IfOk result (λ sought. AreTexts (texts_if input.entry.scope.invalid input.entry.places.now site.entry.pages.results.now) (map text_of sought.invalid.items)) }
    ensures anchors { IfOk result (λ sought. AreSearchable site.entry.files.now site.entry.pages → AreAnchors input.entry.front.now site.entry.pages.anchors.now site.entry.pages.aliases.now site.entry.files.now site.entry.pages.results.now (map anchor_row sought.anchors.items)) }
    ensures anchor_leads { IfOk result (λ sought. AreSearchable site.entry.files.now site.entry.pages → HasLackLeads input.entry.front.now (map string_bytes input.entry.ignores.now) site.entry.pages.anchors.now site.entry.pages.aliases.now site.entry.files.now site.entry.pages.results.now (map anchor_text sought.anchors.items) sought.leads.items) }
    ensures outside { IfOk result (λ sought. map outside_at sought.outside.items ≡ outside_linked input.entry.rooted input.entry.maps.now site.entry.files.now site.entry.pages.results.now input.entry.found.now) }
    ensures whole { IfOk result (λ sought. All (Contains sought.leads.items) (map (listed 0) (leads_from (number_in (targets_of input.entry.front.now (map string_bytes input.entry.ignores.now) (map result_at linked.now))) (indices_in input.entry.places.now) 0 site.entry.pages.results.now))) }
    ensures leads { IfOk result (λ sought. All (IsListed (leads_from (number_in (targets_of input.entry.front.now (map string_bytes input.entry.ignores.now) (map result_at linked.now))) (indices_in input.entry.places.now) 0 site.entry.pages.results.now)) sought.leads.items) }
    ensures indexed { IfOk result (λ _. All (HasIndices site.entry.files.now.rules.now.places (number_in (targets_of input.entry.front.now (map string_bytes input.entry.ignores.now) (map result_at linked.now))) (indices_in input.entry.places.now) input.entry.aliases.now) site.entry.pages.results.now) }
{
    let threads = site.files.threads().max(1);
    let of_pages = move || -> Result<Vec<ListedLead>, CheckError>
        ensures { IfOk result (λ all. (all.items ≡ map (listed 0) (leads_from (number_in (targets_of input.entry.front.now (map string_bytes input.entry.ignores.now) (map result_at linked.entry.now))) (indices_in input.entry.places.now) 0 site.entry.pages.results.now)) × All (HasIndices site.entry.files.now.rules.now.places (number_in (targets_of input.entry.front.now (map string_bytes input.entry.ignores.now) (map result_at linked.entry.now))) (indices_in input.entry.places.now) input.entry.aliases.now) site.entry.pages.results.now) }
    { listed_leads(rt, alloc, input, site, linked) };
    let of_anchors = move || -> Result<Vec<MissingAnchorLink<'_>>, NoMemory>
        ensures { IfOk result (λ all. 0 < threads → AreSearchable site.entry.files.now site.entry.pages → AreLacks site.entry.pages.anchors.now site.entry.pages.aliases.now site.entry.files.now site.entry.pages.results.now is_any (map lack_of all.items)) }
    { lacked_by(rt, alloc, site, threads) };
    let (leads, lacked) = join(rt, of_pages, of_anchors);
    let mut leads = leads?;
    let mut lacked = lacked?;
    sort_by_anchor(&mut lacked)?;
    let anchors = lacked_anchors(alloc, input, lacked.as_slice(), &mut leads)?;
    let invalid = found_texts(alloc, input, site.pages.results, &mut leads)?;
    let outside = outside_urls(rt, alloc, input, site)?;
    let leaving = outside_leads(rt, alloc, input, site, outside.as_slice())?;
    push_listed(URLS, leaving.as_slice(), &mut leads)?;
    sort_by_page(&mut leads)?;
    Ok(BrokenLinks {
        anchors,
        invalid,
        outside,
        leads,
    })
}

/// Sorts links by the results that have them, and those of a result by their indices.
fn sort_by_page(leads: &mut Vec<ListedLead>) -> Result<(), NoMemory>
    ensures { IsPermutation leads.old.items leads.new.items }
{
    leads.sort_by(|a: &ListedLead, b: &ListedLead| {
        (a.lead.source, a.lead.index).cmp(&(b.lead.source, b.lead.index))
    })
}

/// The links to missing pages that are not ignored, directly or by a redirect, as links to targets of their list.
fn listed_leads<'p, R: Threads + Sync>(
    rt: &R,
    alloc: Global,
    input: CheckInput<'p>,
    site: Site<'p, '_>,
    linked: &[Linked<'p>],
) -> Result<Vec<ListedLead>, CheckError>
    ensures { IfOk result (λ all. (all.items ≡ map (listed 0) (leads_from (number_in (targets_of input.entry.front.now (map string_bytes input.entry.ignores.now) (map result_at linked.now))) (indices_in input.entry.places.now) 0 site.entry.pages.results.now)) × All (HasIndices site.entry.files.now.rules.now.places (number_in (targets_of input.entry.front.now (map string_bytes input.entry.ignores.now) (map result_at linked.now))) (indices_in input.entry.places.now) input.entry.aliases.now) site.entry.pages.results.now) }
{
    let leads = page_leads(rt, alloc, input, site, linked)?;
    let mut all = Vec::new(alloc);
    push_listed(PAGES, leads.as_slice(), &mut all)?;
    Ok(all)
}

/// The anchors of these links, which are sorted by them. Appends the links to anchors that no entry matches.
fn lacked_anchors(
    alloc: Global,
    input: CheckInput<'_>,
    links: &[MissingAnchorLink<'_>],
    all: &mut Vec<ListedLead>,
) -> Result<Vec<MissingAnchor>, NoMemory>
    ensures leads { OnOk result (AddsListed 1 all.old.items all.new.items) }
    ensures groups { IfOk result (λ anchors. AddsGroups input.entry.front.now (map string_bytes input.entry.ignores.now) (map lack_of links.now) (map anchor_row anchors.items) all.old.items all.new.items) }
{
    let mut leads = Vec::new(alloc);
    let anchors = missing_anchors(alloc, input, links, &mut leads)?;
    push_listed(ANCHORS, leads.as_slice(), all)?;
    Ok(anchors)
}

/// The texts of the invalid links in found pages, if the check lists them. Appends the links with a text that no entry matches.
fn found_texts<'a>(
    alloc: Global,
    input: CheckInput<'a>,
    results: &'a [PageResult],
    all: &mut Vec<ListedLead>,
) -> Result<Vec<InvalidText<'a>>, NoMemory>
    ensures texts { IfOk result (λ texts. AreTexts (texts_if input.entry.scope.invalid input.entry.places.now results.now) (map text_of texts.items)) }
    ensures leads { OnOk result (AddsListed 2 all.old.items all.new.items) }
{
    let mut leads = Vec::new(alloc);
    let texts = invalid_texts(alloc, input, results, &mut leads)?;
    push_listed(TEXTS, leads.as_slice(), all)?;
    Ok(texts)
}

/// Appends these links as links to targets of the list with this number.
fn push_listed(list: usize, leads: &[Lead], all: &mut Vec<ListedLead>) -> Result<(), NoMemory>
    ensures { OnOk result (all.new.items ≡ all.old.items ++ map (listed list) leads.now) }
{
    for lead in leads {
        all.push(ListedLead { list, lead: *lead })?;
    }
    Ok(())
}

/// The links to missing pages that are not ignored, directly or by a redirect.
///
/// # Errors
/// `LinkLost`, `NoMemory`.
fn page_leads<'p, R: Threads + Sync>(
    rt: &R,
    alloc: Global,
    input: CheckInput<'p>,
    site: Site<'p, '_>,
    linked: &[Linked<'p>],
) -> Result<Vec<Lead>, CheckError>
    ensures leads { IfOk result (λ all. all.items ≡ leads_from (number_in (targets_of input.entry.front.now (map string_bytes input.entry.ignores.now) (map result_at linked.now))) (indices_in input.entry.places.now) 0 site.entry.pages.results.now) }
    ensures indexed { IfOk result (λ _. All (HasIndices site.entry.files.now.rules.now.places (number_in (targets_of input.entry.front.now (map string_bytes input.entry.ignores.now) (map result_at linked.now))) (indices_in input.entry.places.now) input.entry.aliases.now) site.entry.pages.results.now) }
{
    let numbers = targets(alloc, input.front, input.ignores, linked)?;
    let is_empty = numbers.is_empty();
    if is_empty {
        return Ok(Vec::new(alloc));
    }
    let indices = link_indices(alloc, input.places)?;
    let results = site.pages.results;
    let positions = site.files.rules().places;
    let is_known = has_indices(positions, &indices, input.aliases, results);
    if !is_known {
        return Err(CheckError::LinkLost);
    }
    let maps = Maps {
        numbers: &numbers,
        indices: &indices,
    };
    let leads = leads_by(rt, alloc, maps, results, site.files.threads())?;
    Ok(leads)
}

/// The results of a check, with the locations of the links.
fn results_of(
    alloc: Global,
    input: CheckInput<'_>,
    site: Site<'_, '_>,
    linked: &[Linked<'_>],
    sought: &BrokenLinks<'_>,
    places: &[TargetPlace],
) -> Result<Checked, CheckError>
    ensures rows { IfOk result (λ checked. AreRows input.entry.front.now (map string_bytes input.entry.ignores.now) site.entry.files.now linked.now sought.now.anchors.items sought.now.invalid.items sought.now.outside.items checked.broken.items (map string_bytes checked.unused_ignores.items)) }
    ensures located { IfOk result (λ checked. All (IsLocatedRow (map placed_at places.now) (target_texts input.entry.front.now linked.now sought.now.anchors.items sought.now.invalid.items sought.now.outside.items)) (map located_row checked.broken.items)) }
    ensures whole { IfOk result (λ checked. All (IsKeptPlace input.entry.front.now (map string_bytes input.entry.ignores.now) linked.now sought.now.anchors.items checked.broken.items) (map placed_at places.now)) }
    ensures redirects { IfOk result (λ checked. map way_of checked.redirects.items ≡ flat_map (ways_with input.entry.front.now) (map linked_at linked.now)) }
    ensures worst { IfOk result (λ checked. map file_links checked.worst.items ≡ worst_of checked.broken.items) }
    ensures unreached { IfOk result (λ checked. map string_bytes checked.unreached.items ≡ unreached_in input.entry.front.now site.entry.files.now input.entry.reached) }
    ensures unlisted { IfOk result (λ checked. map string_bytes checked.unlisted.items ≡ unlisted_in input.entry.front.now input.entry.aliases.now input.entry.documents.now input.entry.listed) }
    ensures base_hint { IfOk result (λ checked. option_map hint_at checked.base_hint ≡ base_hint_of input.entry.rooted site.entry.files.now site.entry.pages.results.now checked.broken.items) }
    ensures totals { IfOk result (λ checked. checked.totals ≡ totals_of input.entry.aliases.now input.entry.documents.now site.entry.pages.results.now checked.broken.items checked.redirects.items) }
{
    let others = Others {
        anchors: sought.anchors.as_slice(),
        invalid: sought.invalid.as_slice(),
        outside: sought.outside.as_slice(),
    };
    let Rows {
        broken,
        unused_ignores,
    } = rows_of(alloc, input, site, linked, others, places)?;
    let redirects = redirect_rows(alloc, input.front, linked)?;
    let Lists {
        unreached,
        unlisted,
        base_hint,
    } = lists_of(alloc, input, site, broken.as_slice())?;
    let totals = totals_of(
        alloc,
        input.aliases,
        input.documents,
        site.pages.results,
        broken.as_slice(),
        redirects.as_slice(),
    )?;
    let worst = worst(alloc, broken.as_slice())?;
    Ok(Checked {
        totals,
        broken,
        worst,
        redirects,
        unreached,
        unlisted,
        unused_ignores,
        base_hint,
    })
}

/// The rows of what is broken, and the entries of the ignore list that match nothing.
#[derive(Drop)]
struct Rows {
    broken: Vec<Broken>,
    unused_ignores: Vec<String>,
}

/// The rows that are reported, and the unused entries.
fn rows_of(
    alloc: Global,
    input: CheckInput<'_>,
    site: Site<'_, '_>,
    linked: &[Linked<'_>],
    others: Others<'_>,
    places: &[TargetPlace],
) -> Result<Rows, CheckError>
    ensures rows { IfOk result (λ rows. AreRows input.entry.front.now (map string_bytes input.entry.ignores.now) site.entry.files.now linked.now others.entry.anchors.now others.entry.invalid.now others.entry.outside.now rows.broken.items (map string_bytes rows.unused_ignores.items)) }
    ensures located { IfOk result (λ rows. All (IsLocatedRow (map placed_at places.now) (target_texts input.entry.front.now linked.now others.entry.anchors.now others.entry.invalid.now others.entry.outside.now)) (map located_row rows.broken.items)) }
    ensures whole { IfOk result (λ rows. All (IsKeptPlace input.entry.front.now (map string_bytes input.entry.ignores.now) linked.now others.entry.anchors.now rows.broken.items) (map placed_at places.now)) }
{
    let mut broken = broken_all(alloc, input, site, linked, others, places)?;
    let unused_ignores = unused_entries(alloc, input, linked, others, broken.as_slice())?;
    leave_out(input.ignores, &mut broken);
    let targets = Targets {
        front: input.front,
        linked,
        anchors: others.anchors,
    };
    let is_whole = has_all_places(targets, input.ignores, broken.as_slice(), places);
    if !is_whole {
        return Err(CheckError::LinkLost);
    }
    Ok(Rows {
        broken,
        unused_ignores,
    })
}

/// What is listed next to the rows.
#[derive(Drop)]
struct Lists {
    unreached: Vec<String>,
    unlisted: Vec<String>,
    base_hint: Option<BaseHint>,
}

/// The unreached files, the documents that no sitemap lists, and the hint of BASE for these rows.
fn lists_of(
    alloc: Global,
    input: CheckInput<'_>,
    site: Site<'_, '_>,
    broken: &[Broken],
) -> Result<Lists, NoMemory>
    ensures unreached { IfOk result (λ lists. map string_bytes lists.unreached.items ≡ unreached_in input.entry.front.now site.entry.files.now input.entry.reached) }
    ensures unlisted { IfOk result (λ lists. map string_bytes lists.unlisted.items ≡ unlisted_in input.entry.front.now input.entry.aliases.now input.entry.documents.now input.entry.listed) }
    ensures base_hint { IfOk result (λ lists. option_map hint_at lists.base_hint ≡ base_hint_of input.entry.rooted site.entry.files.now site.entry.pages.results.now broken.now) }
{
    let unreached = unreached(alloc, input, site.files)?;
    let unlisted = unlisted(alloc, input)?;
    let base_hint = base_hint(alloc, input.rooted, site.files, site.pages.results, broken)?;
    Ok(Lists {
        unreached,
        unlisted,
        base_hint,
    })
}

/// What is reported after the missing pages: the missing anchors, the texts of invalid links, and the URLs outside the site.
#[derive(Clone, Copy)]
struct Others<'a> {
    anchors: &'a [MissingAnchor],
    invalid: &'a [InvalidText<'a>],
    outside: &'a [Outside<'a>],
}

/// The rows of the missing pages and of these others, with the locations of the links to them.
fn broken_all(
    alloc: Global,
    input: CheckInput<'_>,
    site: Site<'_, '_>,
    linked: &[Linked<'_>],
    others: Others<'_>,
    places: &[TargetPlace],
) -> Result<Vec<Broken>, NoMemory>
    ensures rows { IfOk result (λ all. rows_in all.items ≡ flat_map (rows_with input.entry.front.now (map string_bytes input.entry.ignores.now)) (map linked_at linked.now)) }
    ensures names { IfOk result (λ all. AreNamed input.entry.front.now site.entry.files.now all.items) }
    ensures hints { IfOk result (λ all. hints_in all.items ≡ flat_map (hints_at input.entry.front.now (map string_bytes input.entry.ignores.now) site.entry.files.now) (map result_at linked.now)) }
    ensures anchors { IfOk result (λ all. anchors_in all.items ≡ anchors_left (map string_bytes input.entry.ignores.now) (map anchor_row others.entry.anchors.now)) }
    ensures invalid { IfOk result (λ all. invalid_rows_in all.items ≡ map row_of (not_ignored (map string_bytes input.entry.ignores.now) (map text_of others.entry.invalid.now))) }
    ensures leaving { IfOk result (λ all. leaving_in all.items ≡ flat_map (row_at (map string_bytes input.entry.ignores.now)) (map outside_at others.entry.outside.now)) }
    ensures located { IfOk result (λ all. All (IsLocatedRow (map placed_at places.now) (target_texts input.entry.front.now linked.now others.entry.anchors.now others.entry.invalid.now others.entry.outside.now)) (map located_row all.items)) }
{
    let mut all = missing_rows(alloc, input, site, linked, places)?;
    push_anchors(alloc, input.ignores, others.anchors, places, &mut all)?;
    push_texts(alloc, input.ignores, others.invalid, places, &mut all)?;
    push_outside(alloc, input.ignores, others.outside, places, &mut all)?;
    Ok(all)
}

/// The rows of the missing pages. Which pages have a file name is only looked up if a page is missing.
#[tactic(auto, using(crate::proofs::LocatedRows::keeps_none))]
fn missing_rows(
    alloc: Global,
    input: CheckInput<'_>,
    site: Site<'_, '_>,
    linked: &[Linked<'_>],
    places: &[TargetPlace],
) -> Result<Vec<Broken>, NoMemory>
    ensures rows { IfOk result (λ all. rows_in all.items ≡ flat_map (rows_with input.entry.front.now (map string_bytes input.entry.ignores.now)) (map linked_at linked.now)) }
    ensures names { IfOk result (λ all. AreNamed input.entry.front.now site.entry.files.now all.items) }
    ensures hints { IfOk result (λ all. hints_in all.items ≡ flat_map (hints_at input.entry.front.now (map string_bytes input.entry.ignores.now) site.entry.files.now) (map result_at linked.now)) }
    ensures anchors { IfOk result (λ all. anchors_in all.items ≡ []) }
    ensures invalid { IfOk result (λ all. invalid_rows_in all.items ≡ []) }
    ensures leaving { IfOk result (λ all. leaving_in all.items ≡ []) }
    ensures located { IfOk result (λ all. KeepsRows (map placed_at places.now) 0 (map (page_text input.entry.front.now) linked.now) [] (map located_row all.items)) }
{
    if has_none(linked) {
        return Ok(Vec::new(alloc));
    }
    let exact = names_of(alloc, site.files)?;
    let lower = lower_names_of(alloc, site.files)?;
    let named = Named {
        files: site.files,
        exact: &exact,
        lower: &lower,
    };
    broken_rows(alloc, input, named, linked, places)
}

/// Whether none of the results is that of a missing page, so that there is no row and no hint.
#[tactic(auto, using(crate::proofs::AllRows::no_row_there, crate::proofs::AllRows::no_hint_there))]
fn has_none(linked: &[Linked<'_>]) -> bool
    ensures rows { result ≡ true → (front : List ℕ) (entries : List (List ℕ)) → flat_map (rows_with front entries) (map linked_at linked.now) ≡ [] }
    ensures hints { result ≡ true → (front : List ℕ) (entries : List (List ℕ)) (files : SiteFiles) → flat_map (hints_at front entries files) (map result_at linked.now) ≡ [] }
{
    for one in linked {
        if one.result.page.is_missing() {
            return false;
        }
    }
    true
}

/// The entries that match no missing page, none of these others, and no location of these rows.
fn unused_entries(
    alloc: Global,
    input: CheckInput<'_>,
    linked: &[Linked<'_>],
    others: Others<'_>,
    rows: &[Broken],
) -> Result<Vec<String>, NoMemory>
    ensures { IfOk result (λ all. map string_bytes all.items ≡ unused (map string_bytes input.entry.ignores.now) (((map anchor_text others.entry.anchors.now ++ map text_of others.entry.invalid.now) ++ map shown_at others.entry.outside.now) ++ flat_map (text_at input.entry.front.now) (map result_at linked.now)) rows.now) }
{
    let mut texts = anchor_texts(alloc, others.anchors)?;
    push_invalid(others.invalid, &mut texts)?;
    push_urls(others.outside, &mut texts)?;
    push_missing(input.front, linked, &mut texts)?;
    let all = unused(alloc, input.ignores, texts.as_slice(), rows)?;
    Ok(all)
}

/// Returns the text of each anchor, as it is printed.
fn anchor_texts(alloc: Global, anchors: &[MissingAnchor]) -> Result<Vec<&str>, NoMemory>
    ensures { IfOk result (λ texts. pointed texts.items ≡ map anchor_text anchors.now) }
{
    let mut texts = Vec::new(alloc);
    for anchor in anchors {
        texts.push(anchor.text.as_str())?;
    }
    Ok(texts)
}

/// Appends the texts of invalid links.
fn push_invalid<'a>(invalid: &[InvalidText<'a>], texts: &mut Vec<&'a str>) -> Result<(), NoMemory>
    ensures { OnOk result (pointed texts.new.items ≡ pointed texts.old.items ++ map text_of invalid.now) }
{
    for one in invalid {
        texts.push(one.text())?;
    }
    Ok(())
}

/// Appends the URLs outside the site, as they are printed.
fn push_urls<'a>(outside: &'a [Outside<'_>], texts: &mut Vec<&'a str>) -> Result<(), NoMemory>
    ensures { OnOk result (pointed texts.new.items ≡ pointed texts.old.items ++ map shown_at outside.now) }
{
    for one in outside {
        texts.push(one.text.as_str())?;
    }
    Ok(())
}

/// Appends the missing pages, as they are printed.
fn push_missing<'a>(
    front: &str,
    linked: &[Linked<'a>],
    texts: &mut Vec<&'a str>,
) -> Result<(), NoMemory>
    ensures { OnOk result (pointed texts.new.items ≡ pointed texts.old.items ++ flat_map (text_at front.now) (map result_at linked.now)) }
{
    for one in linked {
        if one.result.page.is_missing() {
            texts.push(shown(front, one.result.url.as_str()))?;
        }
    }
    Ok(())
}
