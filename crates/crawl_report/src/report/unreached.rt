//! The lines of pages that no result has.
ghost use Rattle.std.specs.Prelude.{IfOk, map};
ghost use Rattle.crawl_report.specs.Lines as line;
ghost use Rattle.crawl_report.specs.Printing.{Adds};
ghost use Rattle.crawl_sources.specs.Tallies.{pointed};

use crate::out::Out;
use crate::row::Row;
use crawl_keys::CanonUrl;
use crawl_pages::NoMemory;

/// Prints a line for each of these URLs.
#[tactic(auto, using(crate::proofs::Adding::adds_none, crate::proofs::Adding::pointed_line_at, crate::proofs::Adding::adds_same, crate::proofs::Adding::lines_all))]
pub fn with_unreached(mut out: Out, urls: &[&CanonUrl]) -> Result<Out, NoMemory>
    ensures { IfOk result (λ more. Adds out more (map line.unreached (pointed urls.now))) }
{
    for url in urls {
        out = out.with(Row::Unreached { url: url.as_str() })?;
    }
    Ok(out)
}
