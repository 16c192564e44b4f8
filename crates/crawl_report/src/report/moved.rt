//! The URLs to which pages moved.
ghost use Rattle.std.specs.Prelude.{◌≡◌, true, IfOk, option_map};
ghost use Rattle.crawl_report.specs.Printing.{Adds};
ghost use Rattle.crawl_report.specs.Rows.{moved_lines};

use crate::out::Out;
use crate::row::Row;
use crawl_keys::CanonUrl;
use crawl_pages::{NoMemory, Page, PageResult};

/// Prints the URLs to which the pages moved, if this is listed.
pub fn with_moved(out: Out, pages: &[PageResult], moved: bool) -> Result<Out, NoMemory>
    ensures { IfOk result (λ more. Adds out more (moved_lines moved pages.now)) }
{
    if moved {
        with_targets(out, pages)
    } else {
        Ok(out)
    }
}

/// Prints a line for each page that moved, with the URL to which it moved, if it has one.
#[tactic(auto, using(crate::proofs::Adding::adds_none, crate::proofs::Adding::lines_all))]
fn with_targets(mut out: Out, pages: &[PageResult]) -> Result<Out, NoMemory>
    ensures { IfOk result (λ more. Adds out more (moved_lines true pages.now)) }
{
    for one in pages {
        if let Page::Moved { to } = &one.page {
            out = out.with(Row::To {
                target: text_of(to),
                url: one.url.as_str(),
            })?;
        }
    }
    Ok(out)
}

/// Returns the text of the URL, if there is one.
fn text_of(url: &Option<CanonUrl>) -> Option<&str>
    ensures { option_map (λ t. t.now) result ≡ url.now }
{
    match url {
        Some(url) => Some(url.as_str()),
        None => None,
    }
}
