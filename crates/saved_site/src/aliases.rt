//! The aliases of a site among its pages.
ghost use Rattle.std.specs.Prelude.{◌≡◌, ◌∷◌, [], true, IfOk, List};
ghost use Rattle.crawl_pages.specs.declared.page.Page.TheVariants as variant;
ghost use Rattle.saved_site.specs.Aliases.{AreAliases, alias_page};
ghost use Rattle.saved_site.specs.Linked.{PageFound, page_at};
ghost use Rattle.saved_site.specs.Served.{AliasesAscend};

use crate::linked::LinkedPages;
use crawl_keys::CanonUrl;
use crawl_pages::{Fetch, Page};
use site_files::Alias;
use std::alloc::{AllocError, Global};

/// Returns the aliases whose page has only the link to the file's own URL, in the order of their URLs. Every alias has such a page, but no
/// clause says so of the pages that are passed here. So each is looked up, and one without such a page would be left out.
pub(crate) fn aliases_among(
    alloc: Global,
    pages: &LinkedPages,
    aliases: Vec<Alias>,
) -> Result<Vec<Alias>, AllocError>
    ensures pages { IfOk result (λ all. AreAliases pages.now all.items) }
    ensures order { IfOk result (λ all. AliasesAscend all.items) }
{
    let mut all = Vec::with_capacity(alloc, aliases.len())?;
    'aliases: for alias in aliases {
        let has_alias = has_alias(alloc, pages, &alias)?;
        if has_alias {
            all.push(alias)?;
        }
    }
    in_order(all)
}

/// The aliases in the order of their URLs. Of those with one URL, the first is left.
fn in_order(aliases: Vec<Alias>) -> Result<Vec<Alias>, AllocError>
    ensures order { IfOk result (λ ordered. AliasesAscend ordered.items) }
    ensures pages { (pages : List PageFound) → AreAliases pages aliases.items → IfOk result (λ ordered. AreAliases pages ordered.items) }
{
    let mut ordered = aliases;
    ordered.sort_by(|a: &Alias, b: &Alias| a.url.as_str().cmp(b.url.as_str()))?;
    ordered.dedup_by(|one, last| one.url.as_str() == last.url.as_str());
    Ok(ordered)
}

/// Whether the page at the alias has only the link to the own URL. The only error is out of memory.
fn has_alias(alloc: Global, pages: &LinkedPages, alias: &Alias) -> Result<bool, AllocError>
    ensures { IfOk result (λ has. has ≡ true → page_at pages.now alias.now.url ≡ alias_page alias.now) }
{
    match pages.fetch(alloc, &alias.url) {
        Ok(page) => Ok(is_alias_page(&page, &alias.own)),
        Err(_) => Err(AllocError),
    }
}

/// Whether a page has only the link to this URL.
fn is_alias_page(page: &Page, own: &CanonUrl) -> bool
    ensures { result ≡ true → page.now ≡ variant.Found (own.now ∷ []) 0 }
{
    match page {
        Page::Found { links, skipped } => *skipped == 0 && is_only(links.as_slice(), own),
        Page::Moved { .. } => false,
        Page::Missing => false,
    }
}

/// Whether there is exactly one link, and it is to this URL.
fn is_only(links: &[CanonUrl], own: &CanonUrl) -> bool
    ensures { result ≡ true → links.now ≡ own.now ∷ [] }
{
    match links {
        [one] => is_same(one, own),
        _ => false,
    }
}

/// Whether both URLs have the same text.
fn is_same(one: &CanonUrl, other: &CanonUrl) -> bool
    ensures { result ≡ true → one.now ≡ other.now }
{
    one.as_str() == other.as_str()
}
