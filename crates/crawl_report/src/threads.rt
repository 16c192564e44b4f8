//! The lines of the results, in consecutive chunks that threads print.
ghost use Rattle.std.specs.Prelude.{◌≡◌, IfOk, flat_map};
ghost use Rattle.crawl_report.specs.Json.{printed_line};
ghost use Rattle.crawl_report.specs.Printing.{joined};
ghost use Rattle.crawl_report.specs.Rows.{result_lines};

use crate::out::Out;
use crate::results::with_results;
use crawl_pages::{NoMemory, PageResult};
use std::alloc::Global;
use std::thread::{Threads, join};

/// With fewer results, threads are not worth their cost.
const LEAST: usize = 4096;

/// How often the results are halved: 2 to this power threads print a chunk each.
const HALVINGS: u32 = 2;

/// Returns a line for each result, in chunks. With `in_threads`, four threads print them if there are many.
pub fn results_in_chunks<R: Threads + Sync>(
    rt: &R,
    alloc: Global,
    json: bool,
    in_threads: bool,
    pages: &[PageResult],
) -> Result<Vec<Vec<u8>>, NoMemory>
    ensures { IfOk result (λ chunks. joined chunks.items ≡ flat_map (printed_line json) (result_lines pages.now)) }
{
    let halvings = if in_threads && pages.len() >= LEAST {
        HALVINGS
    } else {
        0
    };
    lines_of_chunk(rt, alloc, json, halvings, pages)
}

/// Returns a line for each result. A thread prints each half, unless none can be started, and halves it again.
fn lines_of_chunk<R: Threads + Sync>(
    rt: &R,
    alloc: Global,
    json: bool,
    halvings: u32,
    pages: &[PageResult],
) -> Result<Vec<Vec<u8>>, NoMemory>
    ensures { IfOk result (λ chunks. joined chunks.items ≡ flat_map (printed_line json) (result_lines pages.now)) }
{
    if halvings == 0 {
        return lines_in_one_chunk(alloc, json, pages);
    }
    let fewer = halvings - 1;
    let (front, back) = pages.split_at(pages.len() / 2);
    let of_front = move || -> Result<Vec<Vec<u8>>, NoMemory>
        ensures { IfOk result (λ chunks. joined chunks.items ≡ flat_map (printed_line json) (result_lines front.entry.now)) }
    { lines_of_chunk(rt, alloc, json, fewer, front) };
    let of_back = move || -> Result<Vec<Vec<u8>>, NoMemory>
        ensures { IfOk result (λ chunks. joined chunks.items ≡ flat_map (printed_line json) (result_lines back.entry.now)) }
    { lines_of_chunk(rt, alloc, json, fewer, back) };
    let (first, second) = join(rt, of_front, of_back);
    let mut chunks = first?;
    let mut others = second?;
    chunks.append(&mut others)?;
    Ok(chunks)
}

/// Returns a line for each result, in one chunk.
#[tactic(auto, using(crate::proofs::Printed::joined_push, crate::proofs::Printed::printed_in_one_chunk))]
fn lines_in_one_chunk(
    alloc: Global,
    json: bool,
    pages: &[PageResult],
) -> Result<Vec<Vec<u8>>, NoMemory>
    ensures { IfOk result (λ chunks. joined chunks.items ≡ flat_map (printed_line json) (result_lines pages.now)) }
{
    let empty = Out::new(alloc, json);
    let lines = with_results(empty, pages)?;
    let mut chunks = Vec::new(alloc);
    chunks.push(lines.into_bytes())?;
    Ok(chunks)
}
