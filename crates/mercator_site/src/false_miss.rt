//! Missing pages of a crawl for which a server returns something, which would be a bug.
ghost use Rattle.std.specs.Prelude.{◌≡◌, ◌&&◌, All, Any, IfOk, false, true};
ghost use Rattle.crawl_pages.specs.Pages.{is_missing};
ghost use Rattle.document_links.specs.Texts.{fits};
ghost use Rattle.mercator_site.specs.Misses.{IsFalseMiss, IsRightlyMissed, is_long_file};

use crawl_pages::PageResult;
use document_links::{LINK_FRONT, fits};
use site_files::SiteFiles;
use std::alloc::{AllocError, Global};

/// Whether one of these results is missing, although a server returns a page or a redirect for its URL. The saved web of a site has no
/// page for a file whose own URL is too long for a line, so such a file is not counted. There is no such result, but no clause says so:
/// each missing page is looked up for a proof.
pub(crate) fn has_false_miss(
    alloc: Global,
    files: &SiteFiles<'_>,
    results: &[PageResult],
) -> Result<bool, AllocError>
    ensures none { IfOk result (λ has. has ≡ false → All (IsRightlyMissed files.now) results.now) }
    ensures some { IfOk result (λ has. has ≡ true → Any (IsFalseMiss files.now) results.now) }
{
    for one in results {
        let is_wrong = is_false_miss(alloc, files, one)?;
        if is_wrong {
            return Ok(true);
        }
    }
    Ok(false)
}

/// Whether this is such a result.
fn is_false_miss(alloc: Global, files: &SiteFiles<'_>, one: &PageResult) -> Result<bool, AllocError>
    ensures none { IfOk result (λ is. is ≡ false → IsRightlyMissed files.now one.now) }
    ensures some { IfOk result (λ is. is ≡ true → IsFalseMiss files.now one.now) }
{
    if !is_short_miss(one) {
        return Ok(false);
    }
    match files.served(alloc, &one.url)? {
        Some(number) => Ok(!is_long_file(files, number)),
        None => Ok(false),
    }
}

/// Whether a result is missing, and its URL fits in a line.
fn is_short_miss(one: &PageResult) -> bool
    ensures { result ≡ (is_missing one.now.page && fits 5 one.now.url) }
{
    one.page.is_missing() && fits(LINK_FRONT, one.url.as_str().as_bytes())
}

/// Whether the page with this number is a file whose own URL is too long for a line.
fn is_long_file(files: &SiteFiles<'_>, number: usize) -> bool
    ensures { result ≡ is_long_file files.now number }
{
    match files.own_url(number) {
        Some(own) => !fits(LINK_FRONT, own.as_str().as_bytes()),
        None => false,
    }
}
