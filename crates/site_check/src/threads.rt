//! Passes over pages by several threads. Each thread takes a chunk of the pages, or of n threads the k-th takes each n-th page.
ghost use Rattle.std.specs.Prelude.{◌≡◌, ◌++◌, ◌+◌, ◌<◌, ◌^◌, ℕ, All, IfOk, IsOk, Result, Vec, length, map, slice_index_or};
ghost use Rattle.std.specs.List.{flat_map};
ghost use Rattle.std.specs.declared.alloc.AllocError.{AllocError};
ghost use Rattle.std.specs.declared.alloc.Global.{Global};
ghost use Rattle.site_check.specs.Complete.{HasPlace, HasTaken, is_taken};
ghost use Rattle.site_check.specs.Documents.{AreSearchable};
ghost use Rattle.site_check.specs.LackedLinks.{lack_of};
ghost use Rattle.site_check.specs.Lacks.{AreLacks, is_any};
ghost use Rattle.site_check.specs.Leads.{indices_at, leads_from, number_at};
ghost use Rattle.site_check.specs.Broken.{result_at};
ghost use Rattle.site_check.specs.Located.{IsTargetPlace, LeadsAsSaid, items_of, placed_at};
ghost use Rattle.site_check.specs.declared.check_error.CheckError.{CheckError};
ghost use Rattle.site_check.specs.declared.located.TargetPlace.{TargetPlace};
ghost use Rattle.site_check.specs.declared.missing_anchors.MissingAnchorLink.{MissingAnchorLink};

use crate::anchors::every_lacked;
use crate::check_error::CheckError;
use crate::leads::{Lead, ListedLead, Maps, leads_from};
use crate::linked::Linked;
use crate::located::{TargetPlace, every_place, sort_by_target};
use crate::missing_anchors::MissingAnchorLink;
use crate::own_links::LinkSite;
use crate::site_pages::Site;
use crawl_pages::{NoMemory, PageResult};
use site_files::FileBytes;
use std::alloc::Global;
use std::thread;
use std::thread::{Threads, join};

/// How often results are halved: the number of threads is two to this power. They are more than run at the same time, since the
/// pages of one chunk can have more links than those of another.
const HALVINGS: u32 = 4;

/// Some of the results, the first of which has this number, and what their links are looked for in.
#[derive(Clone, Copy)]
struct Chunk<'a, 'p> {
    maps: Maps<'a, 'p>,
    start: usize,
    results: &'p [PageResult],
}

impl<'a, 'p> Chunk<'a, 'p> {
    /// Half of the results each, about.
    fn halves(self) -> (Chunk<'a, 'p>, Chunk<'a, 'p>)
        ensures maps { (result.0.maps ≡ self.entry.maps) × (result.1.maps ≡ self.entry.maps) }
        ensures results { self.entry.results.now ≡ result.0.results.now ++ result.1.results.now }
        ensures front { result.0.start ≡ self.entry.start }
        ensures back { self.entry.start + length self.entry.results.now < 2 ^ 64 → result.1.start ≡ self.entry.start + length result.0.results.now }
    {
        let maps = self.maps;
        let start = self.start;
        let half = self.results.len() / 2;
        let (front, back) = self.results.split_at(half);
        (
            Chunk {
                maps,
                start,
                results: front,
            },
            Chunk {
                maps,
                start: start.saturating_add(half),
                results: back,
            },
        )
    }
}

/// The links of results that lead to targets, by threads if there may be four.
pub(crate) fn leads_by<'p, R: Threads + Sync>(
    rt: &R,
    alloc: Global,
    maps: Maps<'_, 'p>,
    results: &'p [PageResult],
    count: usize,
) -> Result<Vec<Lead>, NoMemory>
    ensures { IfOk result (λ all. all.items ≡ leads_from (number_at maps.entry.numbers.now) (indices_at maps.entry.indices.now) 0 results.now) }
{
    let halvings = if count < 4 { 0 } else { HALVINGS };
    let chunk = Chunk {
        maps,
        start: 0,
        results,
    };
    leads_of_chunk(rt, alloc, halvings, chunk)
}

/// Those of a chunk, by a thread for each half of it, as often as it is halved. If none can be started this one reads both.
fn leads_of_chunk<R: Threads + Sync>(
    rt: &R,
    alloc: Global,
    halvings: u32,
    chunk: Chunk<'_, '_>,
) -> Result<Vec<Lead>, NoMemory>
    ensures { chunk.entry.start + length chunk.entry.results.now < 2 ^ 64 → IfOk result (λ all. all.items ≡ leads_from (number_at chunk.entry.maps.numbers.now) (indices_at chunk.entry.maps.indices.now) chunk.entry.start chunk.entry.results.now) }
{
    if halvings == 0 {
        return leads_from(alloc, chunk.maps, chunk.start, chunk.results);
    }
    let fewer = halvings - 1;
    let (front, back) = chunk.halves();
    let of_front = move || -> Result<Vec<Lead>, NoMemory>
        ensures { front.entry.start + length front.entry.results.now < 2 ^ 64 → IfOk result (λ all. all.items ≡ leads_from (number_at front.entry.maps.numbers.now) (indices_at front.entry.maps.indices.now) front.entry.start front.entry.results.now) }
    { leads_of_chunk(rt, alloc, fewer, front) };
    let of_back = move || -> Result<Vec<Lead>, NoMemory>
        ensures { back.entry.start + length back.entry.results.now < 2 ^ 64 → IfOk result (λ all. all.items ≡ leads_from (number_at back.entry.maps.numbers.now) (indices_at back.entry.maps.indices.now) back.entry.start back.entry.results.now) }
    { leads_of_chunk(rt, alloc, fewer, back) };
    let (first, second) = join(rt, of_front, of_back);
    let mut first = first?;
    let mut second = second?;
    first.append(&mut second)?;
    Ok(first)
}

/// The anchors that documents lack and results link to, by several threads.
pub(crate) fn lacked_by<'p, R: Threads + Sync>(
    rt: &R,
    alloc: Global,
    site: Site<'p, '_>,
    count: usize,
) -> Result<Vec<MissingAnchorLink<'p>>, NoMemory>
    ensures { IfOk result (λ all. 0 < count → AreSearchable site.entry.files.now site.entry.pages → AreLacks site.entry.pages.anchors.now site.entry.pages.aliases.now site.entry.files.now site.entry.pages.results.now is_any (map lack_of all.items)) }
{
    let chunks = lacked_in_parts(rt, alloc, site, count)?;
    joined(alloc, chunks)
}

/// Those of the pages that each of this number of threads takes.
fn lacked_in_parts<'p, R: Threads + Sync>(
    rt: &R,
    alloc: Global,
    site: Site<'p, '_>,
    count: usize,
) -> Result<Vec<Result<Vec<MissingAnchorLink<'p>>, NoMemory>>, NoMemory>
    ensures len { IfOk result (λ chunks. length chunks.items ≡ count) }
    ensures lacks { IfOk result (λ chunks. (rest : ℕ) (other : Result (Vec MissingAnchorLink Global) AllocError) → rest < count → IfOk (slice_index_or chunks.items rest other) (λ all. AreSearchable site.entry.files.now site.entry.pages → AreLacks site.entry.pages.anchors.now site.entry.pages.aliases.now site.entry.files.now site.entry.pages.results.now (is_taken count rest) (map lack_of all.items))) }
{
    let pages = site.pages;
    let files = site.files;
    thread::map_indices(
        rt,
        alloc,
        count,
        &|rest: usize| { every_lacked(alloc, pages, files, rest, count) },
    )
}

/// The locations of these links, which are together by their pages, sorted by their targets. Each thread reads the pages that it takes.
///
/// # Errors
/// `FileUnread`, `FileChanged`, `LinkLost`, `NoMemory`.
pub(crate) fn locate_by<'p, R: Threads + Sync, B: FileBytes + Sync>(
    rt: &R,
    alloc: Global,
    site: Site<'p, '_>,
    linked: &[Linked<'p>],
    leads: &[ListedLead],
    bytes: &B,
) -> Result<Vec<TargetPlace>, CheckError>
    ensures links { IfOk result (λ places. All (IsTargetPlace (LeadsAsSaid site.entry.pages.results.now (map result_at linked.now)) site.entry.files.now site.entry.pages.results.now (B.reads bytes.now) leads.now) (map placed_at places.items)) }
    ensures whole { IfOk result (λ places. All (HasPlace (LeadsAsSaid site.entry.pages.results.now (map result_at linked.now)) site.entry.files.now site.entry.pages.results.now (B.reads bytes.now) (map placed_at places.items)) leads.now) }
{
    let count = site.files.threads().min(leads.len()).max(1);
    let on = LinkSite { site, linked };
    let chunks = places_by(rt, alloc, on, leads, bytes, count)?;
    let mut places = joined(alloc, chunks)?;
    sort_by_target(&mut places)?;
    Ok(places)
}

/// The locations of the links of the pages that each of this number of threads takes.
fn places_by<R: Threads + Sync, B: FileBytes + Sync>(
    rt: &R,
    alloc: Global,
    on: LinkSite<'_, '_, '_>,
    leads: &[ListedLead],
    bytes: &B,
    count: usize,
) -> Result<Vec<Result<Vec<TargetPlace>, CheckError>>, NoMemory>
    ensures len { IfOk result (λ chunks. length chunks.items ≡ count) }
    ensures links { IfOk result (λ chunks. All (λ chunk. IfOk chunk (λ places. All (IsTargetPlace (LeadsAsSaid on.entry.site.pages.results.now (map result_at on.entry.linked.now)) on.entry.site.files.now on.entry.site.pages.results.now (B.reads bytes.now) leads.now) (map placed_at places.items))) chunks.items) }
    ensures whole { IfOk result (λ chunks. (rest : ℕ) (other : Result (Vec TargetPlace Global) CheckError) → rest < count → IfOk (slice_index_or chunks.items rest other) (λ places. All (HasTaken (LeadsAsSaid on.entry.site.pages.results.now (map result_at on.entry.linked.now)) on.entry.site.files.now on.entry.site.pages.results.now (B.reads bytes.now) count rest (map placed_at places.items)) leads.now)) }
{
    thread::map_indices(
        rt,
        alloc,
        count,
        &|rest: usize| { every_place(alloc, on, leads, bytes, rest, count) },
    )
}

/// All that the threads found, or the error of the first that failed.
#[tactic(auto, using(crate::proofs::Placed::chunk_more))]
fn joined<T: Drop, E: From<NoMemory> + Drop>(
    alloc: Global,
    chunks: Vec<Result<Vec<T>, E>>,
) -> Result<Vec<T>, E>
    ensures items { IfOk result (λ all. all.items ≡ flat_map items_of chunks.items) }
    ensures succeed { IfOk result (λ _. All (λ chunk. IsOk chunk) chunks.items) }
{
    let mut all = Vec::new(alloc);
    'chunks: for chunk in chunks {
        let mut chunk = chunk?;
        all.append(&mut chunk)?;
    }
    Ok(all)
}
