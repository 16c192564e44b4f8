//! A report as bytes.
ghost use Rattle.std.specs.Prelude.{◌≡◌, IfOk, flat_map};
ghost use Rattle.crawl_report.specs.Json.{printed_line};
ghost use Rattle.crawl_report.specs.Lines as line;
ghost use Rattle.crawl_report.specs.Lines.{line_of};
ghost use Rattle.crawl_report.specs.Printing.{Adds, joined};
ghost use Rattle.crawl_report.specs.Rows.{printed, rows_after, total_of, queue_lines};

use crate::out::Out;
use crate::report::{Report, with_sections};
use crate::row::Row;
use crate::threads::results_in_chunks;
use crawl_pages::{NoMemory, Page, PageResult};
use std::alloc::Global;
use std::thread::Threads;

/// Returns the report as consecutive chunks of bytes: a line for each row, as text or as a JSON object, each ended by LF.
///
/// The rows come in this order: the results, their total, the queues, the sections in the order of `Sections`. With `in_threads`,
/// four threads print the lines of the results if there are many.
///
/// # Errors
/// Only out of memory. If a thread cannot be started, the thread that would have started it prints its chunk.
#[tactic(auto, using(crate::proofs::Printed::joined_push, crate::proofs::Printed::whole_report))]
pub fn print_in_chunks<R: Threads + Sync>(
    rt: &R,
    alloc: Global,
    report: &Report<'_>,
    json: bool,
    in_threads: bool,
) -> Result<Vec<Vec<u8>>, NoMemory>
    ensures { IfOk result (λ chunks. joined chunks.items ≡ printed json report.now) }
{
    let mut chunks = results_in_chunks(rt, alloc, json, in_threads, report.pages)?;
    let rest = rest_of(alloc, report, json)?;
    chunks.push(rest)?;
    Ok(chunks)
}

/// Returns all lines except those of the results.
#[tactic(auto, using(crate::proofs::Adding::adds_both, crate::proofs::Adding::adds_same))]
fn rest_of(alloc: Global, report: &Report<'_>, json: bool) -> Result<Vec<u8>, NoMemory>
    ensures { IfOk result (λ text. text.items ≡ flat_map (printed_line json) (rows_after report.now)) }
{
    let empty = Out::new(alloc, json);
    let total = empty.with(total_of(report.pages))?;
    let queues = with_queues(total, report.queues)?;
    let all = with_sections(alloc, queues, report)?;
    Ok(all.into_bytes())
}

/// Returns the row of the total: the number of results, and how many are found, missing and moved.
pub(crate) fn total_of(pages: &[PageResult]) -> Row<'static>
    ensures { line_of result ≡ total_of pages.now }
{
    let mut found: usize = 0;
    let mut missing: usize = 0;
    let mut moved: usize = 0;
    for one in pages {
        match &one.page {
            Page::Found { .. } => found += 1,
            Page::Moved { .. } => moved += 1,
            Page::Missing => missing += 1,
        }
    }
    Row::Total {
        results: pages.len(),
        found,
        missing,
        moved,
    }
}

/// Returns what is printed, followed by a line for each queue. The queues are numbered from 0.
#[tactic(auto, using(crate::proofs::Adding::adds_none, crate::proofs::Adding::lines_all))]
pub(crate) fn with_queues(mut out: Out, counts: &[u64]) -> Result<Out, NoMemory>
    ensures { IfOk result (λ more. Adds out more (queue_lines counts.now)) }
{
    for (queue, count) in counts.iter().enumerate() {
        out = out.with(queue_row(queue, count))?;
    }
    Ok(out)
}

/// Returns the row of a queue: its number, from 0, and how many URLs it had.
fn queue_row(queue: usize, count: &u64) -> Row<'static>
    ensures { line_of result ≡ line.queue queue count.now }
{
    Row::Queue {
        queue,
        urls: *count,
    }
}
