//! URLs with `http` or `https` that the parser spells in another way: with upper-case letters, with the scheme's default
//! port, or without a path.
ghost use Rattle.std.specs.Prelude.{◌≡◌, ◌≤◌, ◌++◌, ◌∷◌, length, IfErr, IfOk, IfSome, string_bytes};
ghost use Rattle.url.specs.Ascii.{slash};
ghost use Rattle.url.specs.Input.{lowercase};
ghost use Rattle.crawl_keys.specs.Cased.{IsCut, IsFront, IsFrontOf, IsLowered, IsWithPort, LeadsAnywhere};

use crate::plain::{HostPlace, is_plain, plain_host_len};
use crate::{CanonUrl, KeyError};
use std::alloc::{AllocError, Global};

/// The canonical URL of such a text, which is the same on every page. `None` means unknown.
pub fn respelled(alloc: Global, text: &str) -> Result<Option<CanonUrl>, KeyError>
    ensures url { IfOk result (λ found. IfSome found (λ url. LeadsAnywhere text.now url)) }
    ensures refused { IfErr result (λ e. e ≡ KeyError.NoMemory) }
{
    let Some((scheme, following)) = text.split_once(':') else {
        return Ok(None);
    };
    let Some(rest) = following.strip_prefix("//") else {
        return Ok(None);
    };
    let Some((front, port)) = front_of(scheme) else {
        return Ok(None);
    };
    let (authority, path) = before_path(rest);
    // This is tested before memory is allocated.
    if !is_plain(b'/', path.as_bytes()) {
        return Ok(None);
    }
    let host = without_port(authority, port);
    in_lower_case(alloc, front, host, path)
}

/// The scheme `http` or `https` in lower case, with its slashes, and its default port.
#[tactic(auto, using(crate::proofs::CasedLinks::http_front, crate::proofs::CasedLinks::https_front))]
fn front_of(scheme: &str) -> Option<(&'static str, &'static str)>
    ensures front { IfSome result (λ pair. IsFrontOf scheme.now pair.0.now pair.1.now) }
    ensures short { IfSome result (λ pair. length pair.0.now ≤ 8) }
{
    if scheme.eq_ignore_ascii_case("http") {
        return Some(("http://", ":80"));
    }
    if scheme.eq_ignore_ascii_case("https") {
        return Some(("https://", ":443"));
    }
    None
}

/// The text before the first slash, and the text after it.
#[tactic(auto, using(crate::proofs::PlainLemmas::cut_at))]
fn before_path(text: &str) -> (&str, &str)
    ensures { IsCut text.now result.0.now result.1.now }
{
    match text.split_once('/') {
        Some((front, back)) => (front, back),
        None => (text, ""),
    }
}

/// The authority without this port, or the whole authority if it does not end with the port.
fn without_port<'a>(authority: &'a str, port: &str) -> &'a str
    ensures { IsWithPort authority.now result.now port.now }
{
    match authority.strip_suffix(port) {
        Some(host) => host,
        None => authority,
    }
}

/// The canonical URL that is `front`, the host in lower case, a slash and the path, if all of it is plain.
#[tactic(auto, using(crate::proofs::CasedLinks::spelled_front))]
fn in_lower_case(
    alloc: Global,
    front: &str,
    host: &str,
    path: &str,
) -> Result<Option<CanonUrl>, KeyError>
    requires web { IsFront front.now }
    requires short { length front.now ≤ 8 }
    ensures url { IfOk result (λ found. IfSome found (λ url. IsLowered front.now host.now path.now url)) }
    ensures refused { IfErr result (λ e. e ≡ KeyError.NoMemory) }
{
    let text = lowered(alloc, host, path)?;
    let back = text.as_str();
    let Some(len) = plain_host_len(back.as_bytes()) else {
        return Ok(None);
    };
    if len != host.len() {
        return Ok(None);
    }
    let start = front.len();
    let place = HostPlace {
        start,
        end: start + len,
    };
    let url = CanonUrl::join(alloc, front, back, place)?;
    Ok(Some(url))
}

/// The host in lower case, a slash and the path.
fn lowered(alloc: Global, host: &str, path: &str) -> Result<String, AllocError>
    ensures { IfOk result (λ text. string_bytes text ≡ lowercase host.now ++ slash ∷ path.now) }
{
    let mut text = String::with_capacity(alloc, host.len() + path.len() + 1)?;
    text.push_str(host)?;
    text.make_ascii_lowercase();
    text.push_str("/")?;
    text.push_str(path)?;
    Ok(text)
}
