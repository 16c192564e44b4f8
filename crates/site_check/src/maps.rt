//! The folders in which links that lead out of a site were looked up.
ghost use Rattle.std.specs.Prelude.{◌≡◌, ◌==◌, ◌-◌, ◌&&◌, length, option_map};
ghost use Rattle.site_check.specs.Broken.{begins};
ghost use Rattle.site_check.specs.Maps.{better, folder_of, is_longer, is_under};

use crate::input::MapName;
use crate::shown::begins;

/// The folder of the map with the longest prefix of those that a URL is under, if there is one.
#[tactic(auto, using(std::proofs::lemmas::List::Sums::fold_more))]
pub(crate) fn folder_of<'a>(maps: &'a [MapName<'a>], url: &str) -> Option<&'a str>
    ensures { option_map (λ folder. folder.now) result ≡ folder_of maps.now url.now }
{
    let mut best = None;
    for map in maps {
        best = better(url, best, *map);
    }
    match best {
        Some(map) => Some(map.folder),
        None => None,
    }
}

/// The map, if the URL is under it and its prefix is longer than that of the best map so far; otherwise that one.
fn better<'a>(url: &str, best: Option<MapName<'a>>, map: MapName<'a>) -> Option<MapName<'a>>
    ensures { result ≡ better url.now best.entry map.entry }
{
    if is_under(url, map) && is_longer(best, map) {
        Some(map)
    } else {
        best
    }
}

/// Whether the prefix of a map is longer than that of the best map so far.
fn is_longer(best: Option<MapName<'_>>, map: MapName<'_>) -> bool
    ensures { result ≡ is_longer best.entry map.entry }
{
    match best {
        Some(best) => best.prefix.len() < map.prefix.len(),
        None => true,
    }
}

/// Whether a URL begins with the prefix of a map, or is the prefix without its slash.
pub fn is_under(url: &str, map: MapName<'_>) -> bool
    ensures { result ≡ is_under url.now map.entry }
{
    begins(map.prefix, url) || is_folder(url, map.prefix)
}

/// Whether a URL is the prefix without its last byte, which is a slash.
fn is_folder(url: &str, prefix: &str) -> bool
    ensures { result ≡ (begins url.now prefix.now && length prefix.now - length url.now == 1) }
{
    begins(url, prefix) && prefix.len().saturating_sub(url.len()) == 1
}
