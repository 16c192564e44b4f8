//! The candidates of a `srcset`.
ghost use Rattle.std.specs.Prelude.{◌≡◌, ◌≤◌, ◌<◌, ◌∷◌, ◌++◌, [], length, OnOk, MatchOption, false, take_while};
ghost use Rattle.html_links.specs.Shown.{front, following, is_space, Stopped};
ghost use Rattle.html_links.specs.Positions.{all_at};
ghost use Rattle.html_links.specs.Candidates.{Between, Descriptors, read, candidates_of, are_commas, without_commas, after_shorter, is_between, is_unspaced};

use crate::Links;
use crate::bytes::{is_space, parts};
use std::alloc::AllocError;

/// Whether the byte may be between two candidates: white space or a comma.
fn is_between(byte: u8) -> bool
    ensures { result ≡ is_between byte }
{
    is_space(byte) || byte == b','
}

/// The number of white space bytes and commas at the front.
fn between_len(bytes: &[u8]) -> usize
    ensures { result ≡ length (take_while is_between bytes.now) }
{
    bytes.iter().take_while(|byte| is_between(**byte)).count()
}

/// The bytes from the start of the next candidate. They are empty if no candidate follows.
#[tactic(auto, using(std::proofs::lemmas::List::take_rest, crate::proofs::Cuts::after_cut, crate::proofs::Jumps::stopped))]
fn skip_between(bytes: &[u8]) -> &[u8]
    ensures skipped { result.now ≡ following is_between bytes.now }
    ensures stopped { Stopped is_between result.now }
{
    &bytes[between_len(bytes)..]
}

/// Whether the byte may be part of a candidate's URL or of a keyword: it is not white space.
fn is_unspaced(byte: u8) -> bool
    ensures { result ≡ is_unspaced byte }
{
    !is_space(byte)
}

/// The number of bytes before the first white space, or of all bytes if there is none.
fn unspaced_len(bytes: &[u8]) -> usize
    ensures { result ≡ length (take_while is_unspaced bytes.now) }
{
    bytes.iter().take_while(|byte| is_unspaced(**byte)).count()
}

/// The bytes before the first white space, and those from it on.
#[tactic(auto, using(crate::proofs::Cuts::front_cut, crate::proofs::Cuts::after_cut))]
pub(crate) fn split_unspaced(bytes: &[u8]) -> (&[u8], &[u8])
    ensures word { result.0.now ≡ front is_unspaced bytes.now }
    ensures rest { result.1.now ≡ following is_unspaced bytes.now }
{
    bytes.split_at(unspaced_len(bytes))
}

/// The bytes before a comma at the end.
#[tactic(auto, using(crate::proofs::Sources::kept))]
fn before_comma(url: &[u8]) -> Option<&[u8]>
    ensures { MatchOption result (without_commas url.now ≡ url.now) (λ front. url.now ≡ front.now ++ 44 ∷ []) }
{
    let Some((last, front)) = url.split_last() else {
        return None;
    };
    if *last == b',' { Some(front) } else { None }
}

/// The URL of a candidate without the commas at its end.
#[tactic(auto, using(crate::proofs::Sources::one_comma))]
fn without_commas(url: &[u8]) -> &[u8]
    ensures { result.now ≡ without_commas url.now }
{
    let mut front = url;
    'commas: while let Some(more) = before_comma(front) {
        front = more;
    }
    front
}

/// The bytes after the descriptors of a candidate, which end with a comma outside of parentheses.
fn skip_descriptors(bytes: &[u8]) -> &[u8]
    ensures reads { read (Descriptors false) bytes.now ≡ read Between result.now }
    ensures leaves { length result.now ≤ length bytes.now }
{
    let mut hidden = false;
    let mut rest = bytes;
    'descriptors: loop {
        let Some((first, more)) = parts(rest) else {
            return rest;
        };
        if hidden {
            hidden = first != b')';
        } else if first == b',' {
            return more;
        } else {
            hidden = first == b'(';
        }
        rest = more;
    }
}

/// The bytes after the descriptors of a candidate. It has none if its URL ended with a comma.
fn after_descriptors<'a>(url: &[u8], candidate: &[u8], bytes: &'a [u8]) -> &'a [u8]
    ensures reads { read (after_shorter url.now candidate.now) bytes.now ≡ read Between result.now }
    ensures leaves { length result.now ≤ length bytes.now }
{
    if url.len() < candidate.len() {
        bytes
    } else {
        skip_descriptors(bytes)
    }
}

/// The next URL, and the bytes after its candidate.
#[tactic(auto, using(crate::proofs::Sources::no_candidate, crate::proofs::Sources::one_candidate, crate::proofs::Sources::candidate_less))]
fn next_candidate(bytes: &[u8]) -> Option<(&[u8], &[u8])>
    ensures gives { MatchOption result (candidates_of bytes.now ≡ []) (λ x. candidates_of bytes.now ≡ x.0.now ∷ candidates_of x.1.now) }
    ensures leaves { MatchOption result (candidates_of bytes.now ≡ []) (λ x. length x.1.now < length bytes.now) }
{
    let start = skip_between(bytes);
    let (candidate, more) = split_unspaced(start);
    if candidate.is_empty() {
        return None;
    }
    let url = without_commas(candidate);
    Some((url, after_descriptors(url, candidate, more)))
}

/// Passes on the URLs of a `srcset`, all at this position.
#[tactic(auto, using(crate::proofs::Placing::more_mapped, crate::proofs::Placing::last_mapped))]
pub(crate) fn push_candidates<L: Links>(
    text: &[u8],
    position: usize,
    links: &mut L,
) -> Result<(), AllocError>
    ensures texts { OnOk result (L.texts links.new ≡ L.texts links.old ++ candidates_of text.now) }
    ensures positions { OnOk result (L.positions links.new ≡ L.positions links.old ++ all_at position (candidates_of text.now)) }
{
    let mut rest = text;
    'candidates: while let Some((url, more)) = next_candidate(rest) {
        links.push(position, url)?;
        rest = more;
    }
    Ok(())
}
