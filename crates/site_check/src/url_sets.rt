//! URLs of a site as sets, in which they can be looked up.
ghost use Rattle.std.specs.Prelude.{◌≡◌, ℕ, List, IfOk};
ghost use Rattle.site_check.specs.Aliases.{is_alias, is_document, is_in};

use crawl_keys::CanonUrl;
use crawl_pages::NoMemory;
use hash_order::HashedText;
use site_files::Alias;
use std::alloc::Global;
use std::collections::BTreeSet;

/// A set of URLs.
pub(crate) type UrlSet<'a> = BTreeSet<HashedText<'a>>;

/// The URLs of these aliases.
pub(crate) fn alias_urls(alloc: Global, aliases: &[Alias]) -> Result<UrlSet<'_>, NoMemory>
    ensures { IfOk result (λ set. (url : List ℕ) → is_in set url ≡ is_alias aliases.now url) }
{
    let mut set = BTreeSet::new(alloc);
    for alias in aliases {
        set.insert(alias.url.hashed())?;
    }
    Ok(set)
}

/// The own URLs of these documents.
pub(crate) fn document_urls(alloc: Global, documents: &[CanonUrl]) -> Result<UrlSet<'_>, NoMemory>
    ensures { IfOk result (λ set. (url : List ℕ) → is_in set url ≡ is_document documents.now url) }
{
    let mut set = BTreeSet::new(alloc);
    for own in documents {
        set.insert(own.hashed())?;
    }
    Ok(set)
}
