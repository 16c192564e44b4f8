//! URLs with an opaque path, such as `mailto:` URLs, recognized without the parser.
ghost use Rattle.std.specs.Prelude.{◌≡◌, ◌≤◌, length, false, true};
ghost use Rattle.std.specs.List.{prefix_len};
ghost use Rattle.url.specs.Scheme as spec;
ghost use Rattle.crawl_keys.specs.Opaque.{IsOpaque, IsWord};
ghost use Rattle.crawl_keys.specs.Plain.{is_lower};

use crate::plain::{begins_path, is_plain};

/// Whether the text is such a URL, which does not depend on the page. `false` means unknown.
pub fn is_opaque(text: &str) -> bool
    ensures { result ≡ true → IsOpaque text.now }
{
    match text.as_bytes() {
        [b'a'..=b'z', ..] => has_opaque_path(text),
        _ => false,
    }
}

/// Whether a text that begins with a letter is a URL with an opaque path. `false` means unknown.
#[tactic(auto, using(crate::proofs::PlainLemmas::cut_at))]
fn has_opaque_path(text: &str) -> bool
    ensures { result ≡ true → IsOpaque text.now }
{
    match text.split_once(':') {
        Some((scheme, path)) if is_other_scheme(scheme) => {
            !begins_path(path.as_bytes()) && is_plain(0, text.as_bytes())
        }
        _ => false,
    }
}

/// Whether the scheme has only lower-case letters, and is not special.
fn is_other_scheme(scheme: &str) -> bool
    ensures word { result ≡ true → IsWord scheme.now }
    ensures other { result ≡ true → spec.is_special (spec.scheme_type scheme.now) ≡ false }
{
    is_word(scheme.as_bytes()) && !is_special(scheme)
}

/// Whether there are bytes, and all are lower-case letters.
fn is_word(bytes: &[u8]) -> bool
    ensures { result ≡ true → IsWord bytes.now }
{
    letters_len(bytes) == bytes.len() && !bytes.is_empty()
}

/// The number of lower-case letters that the bytes begin with.
#[tactic(auto, using(url::proofs::InputLemmas::prefix_len_is, crate::proofs::OpaqueLinks::letter_test))]
fn letters_len(bytes: &[u8]) -> usize
    ensures value { result ≡ prefix_len is_lower bytes.now }
    ensures within { result ≤ length bytes.now }
{
    let mut len = 0;
    while len < bytes.len() && bytes[len].is_ascii_lowercase() {
        len += 1;
    }
    len
}

/// Whether the URL Standard calls the scheme special.
#[tactic(auto, using(crate::proofs::OpaqueLinks::file_special, crate::proofs::OpaqueLinks::other_special))]
fn is_special(scheme: &str) -> bool
    ensures { result ≡ spec.is_special (spec.scheme_type scheme.now) }
{
    scheme == "file" || default_port(scheme).is_some()
}

/// The port that the URL Standard gives the scheme.
#[tactic(auto, unfolding(url::specs::Scheme::default_port))]
fn default_port(scheme: &str) -> Option<u16>
    ensures { result ≡ spec.default_port scheme.now }
{
    if scheme == "http" || scheme == "ws" {
        Some(80)
    } else if scheme == "https" || scheme == "wss" {
        Some(443)
    } else if scheme == "ftp" {
        Some(21)
    } else {
        None
    }
}
