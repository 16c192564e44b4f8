//! The seeds of a check.
ghost use Rattle.std.specs.Prelude.{◌≡◌, IfOk, map, string_bytes};
ghost use Rattle.mercator_site.specs.Seeds.{is_one, is_path, is_slash, seed_link};

use std::alloc::{AllocError, Global};

/// The links at which a search starts. If the URL of the folder is not known (`rooted`), the root of its host is the top, so a path from
/// the root becomes one from the top.
pub(crate) fn seed_links(
    alloc: Global,
    rooted: bool,
    links: &[String],
) -> Result<Vec<String>, AllocError>
    ensures { IfOk result (λ seeds. map string_bytes seeds.items ≡ map (seed_link rooted) (map string_bytes links.now)) }
{
    let mut seeds = Vec::new(alloc);
    for link in links {
        seeds.push(seed_link(alloc, rooted, link.as_str())?)?;
    }
    Ok(seeds)
}

/// The link at which a search starts.
pub(crate) fn seed_link(alloc: Global, rooted: bool, link: &str) -> Result<String, AllocError>
    ensures { IfOk result (λ seed. string_bytes seed ≡ seed_link rooted link.now) }
{
    let mut seed = String::new(alloc);
    if rooted && is_path(link.as_bytes()) {
        seed.push_str(".")?;
    }
    seed.push_str(link)?;
    Ok(seed)
}

/// Whether the link begins with exactly one slash.
fn is_path(link: &[u8]) -> bool
    ensures { result ≡ is_path link.now }
{
    match link.split_first() {
        Some((first, more)) => is_slash(*first) && is_one(more),
        None => false,
    }
}

/// Whether what comes after a slash does not begin with another one.
fn is_one(more: &[u8]) -> bool
    ensures { result ≡ is_one more.now }
{
    match more.split_first() {
        Some((next, _)) => !is_slash(*next),
        None => true,
    }
}

/// Whether a URL parser reads this byte as a slash.
fn is_slash(byte: u8) -> bool
    ensures { result ≡ is_slash byte }
{
    byte == b'/' || byte == b'\\'
}
