//! The lines of results.
ghost use Rattle.std.specs.Prelude.{◌≡◌, ◌<◌, [], length, IfOk};
ghost use Rattle.crawl_report.specs.Lines.{line_of};
ghost use Rattle.crawl_report.specs.Printing.{Adds};
ghost use Rattle.crawl_report.specs.Rows.{page_line, result_lines};

use crate::out::Out;
use crate::row::Row;
use crawl_pages::{NoMemory, Page, PageResult};

/// Room is made for the lines of this number of results at a time.
const LINES_AT_A_TIME: usize = 32;

/// About how many bytes a result's line has in addition to its URL.
const BYTES_WITHOUT_URL: usize = 16;

/// Returns what is printed, followed by a line for each result.
#[tactic(auto, using(crate::proofs::Adding::adds_none, crate::proofs::Adding::adds_same, crate::proofs::Adding::adds_both, std::proofs::lemmas::List::map_more, crate::proofs::Adding::lines_all, crate::proofs::Prelude::result_lines))]
pub(crate) fn with_results(mut out: Out, pages: &[PageResult]) -> Result<Out, NoMemory>
    ensures { IfOk result (λ more. Adds out more (result_lines pages.now)) }
{
    for (index, one) in pages.iter().enumerate() {
        let roomy = with_room_at(out, pages, index)?;
        out = roomy.with(row_of(one))?;
    }
    Ok(out)
}

/// Returns what is printed. If the index is that of the first of [`LINES_AT_A_TIME`] results, it has room for their lines.
///
/// The lengths of their URLs are read one after another, so that all these reads wait for memory at the same time.
fn with_room_at(out: Out, pages: &[PageResult], index: usize) -> Result<Out, NoMemory>
    requires { index < length pages.now }
    ensures { IfOk result (λ more. Adds out more []) }
{
    if !index.is_multiple_of(LINES_AT_A_TIME) {
        return Ok(out);
    }
    let next = &pages[index..];
    out.with_room(room_for(&next[..next.len().min(LINES_AT_A_TIME)]))
}

/// About how many bytes the lines of these results have.
fn room_for(pages: &[PageResult]) -> usize {
    let mut room = pages.len().saturating_mul(BYTES_WITHOUT_URL);
    for one in pages {
        room = room.saturating_add(one.url.as_str().len());
    }
    room
}

/// Returns the row of a result. The links of a page include those that are skipped.
pub(crate) fn row_of(one: &PageResult) -> Row<'_>
    ensures { line_of result ≡ page_line one.now.url one.now.page }
{
    let url = one.url.as_str();
    match &one.page {
        Page::Found { links, skipped } => Row::Page {
            url,
            // A `u64` might not hold the sum.
            links: links.as_slice().len() as u128 + u128::from(*skipped),
            skipped: *skipped,
        },
        Page::Moved { .. } => Row::Moved { url },
        Page::Missing => Row::Missing { url },
    }
}
