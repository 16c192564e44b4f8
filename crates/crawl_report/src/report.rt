//! A report as a value, and the lines of its sections.
ghost use Rattle.std.specs.Prelude.{IfOk};
ghost use Rattle.crawl_report.specs.Printing.{Adds};
ghost use Rattle.crawl_report.specs.Rows.{section_lines};
ghost use Rattle.crawl_sources.specs.Tallies.{pointed};

mod moved;
mod referrers;
mod unreached;

use crate::out::Out;
use crate::report::moved::with_moved;
use crate::report::referrers::with_sources;
use crate::report::unreached::with_unreached;
use crate::sections::Sections;
use crawl_keys::CanonUrl;
use crawl_pages::{NoMemory, PageResult};
use std::alloc::Global;

/// A report.
#[derive(Clone, Copy)]
pub struct Report<'r> {
    /// The results, in the order in which they are printed. Those of a crawl are in ascending order of their URLs.
    pub pages: &'r [PageResult],
    /// How many URLs each queue had. Empty if this is not printed.
    pub queues: &'r [u64],
    /// The pages that no result has, as [`unreached`](crate::unreached) returns them. Empty if they are not printed.
    pub unreached: &'r [&'r CanonUrl],
    pub sections: Sections,
}

/// Prints the lines of the sections.
#[tactic(auto, using(crate::proofs::Adding::then_more))]
pub(crate) fn with_sections(alloc: Global, out: Out, report: &Report<'_>) -> Result<Out, NoMemory>
    ensures { IfOk result (λ more. Adds out more (section_lines report.now.sections report.now.pages.now (pointed report.now.unreached.now))) }
{
    let Sections { sources, moved, .. } = report.sections;
    let out = with_sources(alloc, out, report.pages, sources, moved)?;
    let out = with_moved(out, report.pages, moved)?;
    with_unreached(out, report.unreached)
}
