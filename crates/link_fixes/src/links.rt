//! Compares the links of a document with those after a change.
ghost use Rattle.std.specs.Prelude.{◌≡◌, ◌<◌, IfOk, length, slice_index_or, []};
ghost use Rattle.link_fixes.specs.Links.{all_lead_on, is_moved, leads_on};

use crate::moves::{Move, moves_to};
use crawl_keys::{Base, CanonUrl};
use document_links::LinkTexts;
use std::alloc::{AllocError, Global};

/// Whether each link on a page has the text or the URL of the one with the same index before, or the URL of a move of that.
pub(crate) fn all_lead_on(
    alloc: Global,
    page: &Base,
    moves: &[Move],
    old: &LinkTexts,
    new: &LinkTexts,
) -> Result<bool, AllocError>
    ensures { IfOk result (λ same. same ≡ all_lead_on page.now moves.now old.now new.now) }
{
    if old.len() != new.len() {
        return Ok(false);
    }
    for index in 0..old.len() {
        if !leads_on(alloc, page, moves, old.text(index), new.text(index))? {
            return Ok(false);
        }
    }
    Ok(true)
}

/// Whether the new text of a link on a page is the old one, or leads to the URL of the old one or to that of a move of it.
fn leads_on(
    alloc: Global,
    page: &Base,
    moves: &[Move],
    old: &str,
    new: &str,
) -> Result<bool, AllocError>
    ensures { IfOk result (λ same. same ≡ leads_on page.now moves.now old.now new.now) }
{
    if old == new {
        return Ok(true);
    }
    let from = page.link(alloc, old)?;
    let to = page.link(alloc, new)?;
    Ok(is_moved(moves, &from, &to))
}

/// Whether two links lead to the same URL, or the first one to a URL that is moved to that of the second.
fn is_moved(moves: &[Move], from: &Option<CanonUrl>, to: &Option<CanonUrl>) -> bool
    ensures { result ≡ is_moved moves.now from.now to.now }
{
    match (from, to) {
        (Some(from), Some(to)) => from == to || moves_to(moves, from, to),
        _ => false,
    }
}
