//! Which pages are below the top of a site, and in order.
ghost use Rattle.std.specs.Prelude.{◌≡◌, IfOk};
ghost use Rattle.saved_site.specs.Below.{is_next};
ghost use Rattle.saved_site.specs.Pages.{is_after};

use crawl_keys::CanonUrl;
use site_files::is_below;
use std::alloc::{AllocError, Global};

/// Whether a URL is below the top, and after the last one.
pub(crate) fn is_next(
    alloc: Global,
    top: &str,
    last: &[u8],
    url: &CanonUrl,
) -> Result<bool, AllocError>
    ensures { IfOk result (λ is. is ≡ is_next top.now last.now url.now) }
{
    if !is_after(last, url.as_str().as_bytes()) {
        return Ok(false);
    }
    is_below(alloc, top, url)
}

/// Whether a URL is after the last one, byte by byte.
fn is_after(last: &[u8], url: &[u8]) -> bool
    ensures { result ≡ is_after last.now url.now }
{
    last.cmp(url).is_lt()
}
