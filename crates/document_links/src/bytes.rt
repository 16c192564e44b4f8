//! Cutting bytes.
ghost use Rattle.std.specs.Prelude.{◌≡◌, ◌∷◌, ◌==◌, [], drop, not, take, MatchOption};
ghost use Rattle.html_links.specs.Shown.{Stopped, following, front};

use memchr::memchr;

/// The first `count` bytes, or all if there are fewer.
#[tactic(auto, using(std::proofs::lemmas::List::take_all))]
pub(crate) fn first_bytes(count: usize, bytes: &[u8]) -> &[u8]
    ensures { result.now ≡ take count bytes.now }
{
    bytes.get(..count).unwrap_or(bytes)
}

/// The bytes after the first `count`.
#[tactic(auto, using(std::proofs::lemmas::List::drop_all, std::proofs::lemmas::List::take_rest))]
pub(crate) fn after_front(count: usize, bytes: &[u8]) -> &[u8]
    ensures { result.now ≡ drop count bytes.now }
{
    bytes.get(count..).unwrap_or(&[])
}

/// The first byte and the bytes after it. `None` if there are no bytes.
pub(crate) fn parts(bytes: &[u8]) -> Option<(u8, &[u8])>
    ensures { MatchOption result (bytes.now ≡ []) (λ x. bytes.now ≡ x.0 ∷ x.1.now) }
{
    match bytes.split_first() {
        Some((first, more)) => Some((*first, more)),
        None => None,
    }
}

/// The bytes after this byte, if it is the first.
pub(crate) fn after_byte(byte: u8, bytes: &[u8]) -> Option<&[u8]>
    ensures { MatchOption result (Stopped (λ b. b == byte) bytes.now) (λ more. bytes.now ≡ byte ∷ more.now) }
{
    let Some((first, more)) = parts(bytes) else {
        return None;
    };
    if first == byte { Some(more) } else { None }
}

/// The bytes before the first one of this value, and those after it.
#[tactic(auto, using(std::proofs::lemmas::List::take_rest, html_links::proofs::Cuts::quote_cut, html_links::proofs::Cuts::no_quote))]
pub(crate) fn split_byte(byte: u8, bytes: &[u8]) -> Option<(&[u8], &[u8])>
    ensures { MatchOption result (following (λ b. not (b == byte)) bytes.now ≡ [])
        (λ x. (x.0.now ≡ front (λ b. not (b == byte)) bytes.now) × (byte ∷ x.1.now ≡ following (λ b. not (b == byte)) bytes.now)) }
{
    match memchr(byte, bytes) {
        Some(at) => Some((&bytes[..at], &bytes[at + 1..])),
        None => None,
    }
}
