//! Which URLs are below the top of a site.
ghost use Rattle.std.specs.Prelude.{◌≡◌, ◌++◌, ◌∷◌, [], true, IfOk};
ghost use Rattle.percent_encoding.specs.Percent.{percent_decode};
ghost use Rattle.site_files.specs.Below.{begins, is_below, is_slash, without_slashes};

use crawl_keys::CanonUrl;
use percent_encoding::percent_decode;
use std::alloc::{AllocError, Global};

/// Whether a URL begins with the top, as it is or after both are percent-decoded.
pub fn is_below(alloc: Global, top: &str, url: &CanonUrl) -> Result<bool, AllocError>
    ensures { IfOk result (λ is. is ≡ is_below top.now url.now) }
{
    let url = url.as_str();
    if begins(top.as_bytes(), url.as_bytes()) {
        return Ok(true);
    }
    let top = unescaped(alloc, top.as_bytes())?;
    let url = unescaped(alloc, url.as_bytes())?;
    Ok(begins(top.as_slice(), url.as_slice()))
}

/// Whether a text is a URL with one slash at its end, once the escapes of both are read.
pub(crate) fn is_slashed(alloc: Global, url: &str, text: &str) -> Result<bool, AllocError>
    ensures { IfOk result (λ is. is ≡ true → percent_decode text.now ≡ percent_decode (without_slashes url.now) ++ 47 ∷ []) }
{
    let mut read = unescaped(alloc, without_slashes(url.as_bytes()))?;
    read.push(b'/')?;
    let text = unescaped(alloc, text.as_bytes())?;
    Ok(text.as_slice() == read.as_slice())
}

/// Whether the text begins with these bytes.
fn begins(front: &[u8], text: &[u8]) -> bool
    ensures { result ≡ begins front.now text.now }
{
    text.starts_with(front)
}

/// The text with its escapes read.
pub(crate) fn unescaped(alloc: Global, text: &[u8]) -> Result<Vec<u8>, AllocError>
    ensures { IfOk result (λ read. read.items ≡ percent_decode text.now) }
{
    let mut read = Vec::new(alloc);
    percent_decode(text).append_to(&mut read)?;
    Ok(read)
}

/// The text without the slashes at its end.
#[tactic(auto, using(crate::proofs::Slashes::cut_one, crate::proofs::Slashes::keeps))]
fn without_slashes(text: &[u8]) -> &[u8]
    ensures { result.now ≡ without_slashes text.now }
{
    let mut rest = text;
    'slashes: while let Some((last, front)) = rest.split_last() {
        if is_slash(*last) {
            rest = front;
        } else {
            break;
        }
    }
    rest
}

/// Whether the byte is a slash, which ends the name of a folder in a URL.
pub(crate) fn is_slash(byte: u8) -> bool
    ensures { result ≡ is_slash byte }
{
    byte == b'/'
}
