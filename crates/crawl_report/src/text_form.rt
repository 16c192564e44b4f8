//! The report of a crawl: a line for each result, then the total.
ghost use Rattle.std.specs.Prelude.{◌≡◌, IfOk};
ghost use Rattle.crawl_pages.specs.ResultOrder.{results_by_url};
ghost use Rattle.crawl_report.specs.Printing.{Adds};
ghost use Rattle.crawl_report.specs.ReportText.{report};
ghost use Rattle.crawl_report.specs.Rows.{result_lines};
ghost use Rattle.crawl_sources.specs.Tallies.{pointed};

use crate::out::Out;
use crate::printing::total_of;
use crate::results::row_of;
use crawl_pages::{NoMemory, PageResult};
use report_order::results_by_url;
use std::alloc::Global;

/// The report of the results, each line ended by LF.
///
/// First a line for each result, in ascending byte order of URL; results with one URL stay in the order given. The line is
/// `ok LINKS SKIPPED URL` if a page was found (LINKS includes the skipped links), `moved URL` if it has moved, and
/// otherwise `missing URL`. Then `total N ok A missing B`: A of the N results were found, and B are missing. If C of them
/// have moved, it ends in ` moved C`.
///
/// # Errors
/// Only out of memory.
pub fn report_text(alloc: Global, results: &[PageResult]) -> Result<Vec<u8>, NoMemory>
    ensures { IfOk result (λ text. text.items ≡ report results.now) }
{
    let ordered = results_by_url(alloc, results)?;
    let lines = with_each(Out::new(alloc, false), &ordered)?;
    let text = lines.with(total_of(results))?;
    Ok(text.into_bytes())
}

/// Prints a line for each of these results.
#[tactic(auto, using(crate::proofs::Adding::adds_none, crate::proofs::Adding::pointed_line_at, crate::proofs::Adding::adds_same, crate::proofs::Adding::lines_all))]
fn with_each(mut out: Out, results: &[&PageResult]) -> Result<Out, NoMemory>
    ensures { IfOk result (λ more. Adds out more (result_lines (pointed results.now))) }
{
    for one in results {
        out = out.with(row_of(one))?;
    }
    Ok(out)
}
