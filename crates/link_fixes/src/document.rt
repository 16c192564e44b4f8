//! Rewrites the links of a document.
ghost use Rattle.std.specs.Prelude.{◌≡◌, ℕ, List, None, true, IfOk, IfSome};
ghost use Rattle.document_links.specs.Encoding.{HasLinkTexts};
ghost use Rattle.link_fixes.specs.Documents.{IsFixed};
ghost use Rattle.link_fixes.specs.Links.{all_lead_on};

use crate::edits::{Edit, fixed};
use crate::links::all_lead_on;
use crate::location::position_of;
use crate::moves::{Move, move_from};
use crate::new_link::{LinkPage, new_link};
use crawl_keys::{Base, CanonUrl};
use document_links::{
    Document, RawLinks, ReadOptions, TextKind, TextPlace, read_document, text_places,
};
use std::alloc::{AllocError, Global};

/// The URL of a document, how it is read, and the moves of its links.
#[derive(Clone, Copy)]
pub struct FixInput<'a> {
    pub url: &'a CanonUrl,
    /// How the document is read, with the indices of its links (`places`).
    pub options: ReadOptions<'a>,
    pub moves: &'a [Move],
}

/// A document whose links were rewritten.
#[derive(Drop)]
pub struct DocumentFix {
    /// The new document, if a link was rewritten.
    pub new: Option<Vec<u8>>,
    /// The number of links that were rewritten.
    pub moved: usize,
    /// The number of links for which there is a move, and that still lead to the same URL as before.
    pub left: usize,
    /// The first of these links, by its location in the document.
    pub first_left: Option<LeftLink>,
}

/// The location of a link for which there is a move, and why it was not rewritten.
#[derive(Clone, Copy)]
pub struct LeftLink {
    pub line: u64,
    pub column: u64,
    pub reason: LeftReason,
}

/// Why a link was not rewritten.
#[derive(Clone, Copy)]
pub enum LeftReason {
    /// The document is not in UTF-8, or begins with a byte order mark.
    Encoding,
    /// The document does not have the link literally at its position, or another link at this position was rewritten.
    Written,
    /// It has no path, or its new text would need escapes or lead elsewhere.
    NewText,
    /// Another link of the document would lead elsewhere, or a text that is no link would change.
    OtherChanges,
}

/// The edits of a document, and the links without one.
#[derive(Drop)]
struct Edits {
    edits: Vec<Edit>,
    /// The first link in the document without an edit.
    left: Option<LeftLink>,
    /// The first link in the document with or without one, which stays if no link is rewritten.
    first: Option<LeftLink>,
}

/// A link for which there is a move.
#[derive(Clone, Copy)]
struct Lead<'a> {
    /// Its index among all links of the document.
    index: usize,
    step: &'a Move,
}

/// Rewrites the links of a document for which there is a move. A link stays as it is if the document does not have it literally, or if its
/// new text would need escapes. The document stays as it is if one of its links would lead to another URL than before or than that of its
/// move, or if an edit moved no link.
///
/// # Errors
/// Out of memory.
pub fn fix_document(
    alloc: Global,
    body: &[u8],
    input: FixInput<'_>,
) -> Result<DocumentFix, AllocError>
    // The new document is the old one after edits. Each of its links has the text or the URL of the one with the same index in the old
    // document, or the URL of a move of that.
    ensures { IfOk result (λ fix. IfSome fix.new (λ new. IsFixed input.entry body.now new.items)) }
{
    let base = Base::new(alloc, input.url)?;
    fix_on(alloc, body, input, &base)
}

/// Rewrites the links of a document on the page with this base.
fn fix_on(
    alloc: Global,
    body: &[u8],
    input: FixInput<'_>,
    base: &Base,
) -> Result<DocumentFix, AllocError>
    requires { base.now ≡ input.url.now }
    ensures { IfOk result (λ fix. IfSome fix.new (λ new. IsFixed input.entry body.now new.items)) }
{
    let mut room = RawLinks::new(alloc);
    let old = read_document(alloc, body, input.url, input.options, &mut room)?;
    fix_links(alloc, body, input, base, &old, &mut room)
}

/// Rewrites the links of a document that has these links.
fn fix_links(
    alloc: Global,
    body: &[u8],
    input: FixInput<'_>,
    base: &Base,
    old: &Document,
    room: &mut RawLinks,
) -> Result<DocumentFix, AllocError>
    requires base { base.now ≡ input.url.now }
    requires old { HasLinkTexts input.options body.now old.now.links }
    ensures { IfOk result (λ fix. IfSome fix.new (λ new. IsFixed input.entry body.now new.items)) }
{
    let leads = leads_in(alloc, base, old, input.moves)?;
    let Edits { edits, left, first } = edits_of(alloc, body, input, base, leads.as_slice())?;
    if edits.is_empty() {
        return Ok(unchanged(leads.len(), first));
    }
    let new = fixed(alloc, body, edits.as_slice())?;
    match left_in(alloc, new.as_slice(), input, base, old, room)? {
        // An edit that moved no link changed something else.
        Some(count) if count.saturating_add(edits.len()) == leads.len() => Ok(DocumentFix {
            new: Some(new),
            moved: edits.len(),
            left: count,
            first_left: left,
        }),
        _ => Ok(unchanged(leads.len(), first)),
    }
}

/// A document that stays as it is, with this number of links that are moved, of which this is the first.
fn unchanged(left: usize, first_left: Option<LeftLink>) -> DocumentFix
    ensures { result.new ≡ None }
{
    DocumentFix {
        new: None,
        moved: 0,
        left,
        first_left,
    }
}

/// The number of links of a new document for which there is a move. `None` if one of its links leads to another URL than in the old document and
/// than that of its move.
fn left_in(
    alloc: Global,
    new: &[u8],
    input: FixInput<'_>,
    base: &Base,
    old: &Document,
    room: &mut RawLinks,
) -> Result<Option<usize>, AllocError>
    requires base { base.now ≡ input.url.now }
    ensures { IfOk result (λ left. IfSome left (λ _. (news : List (List ℕ)) × HasLinkTexts input.entry.options new.now news × (all_lead_on input.entry.url.now input.entry.moves.now old.now.links news ≡ true))) }
{
    let after = read_document(alloc, new, input.url, input.options, room)?;
    left_of(alloc, input, base, old, &after)
}

/// The same for a new document that was read.
fn left_of(
    alloc: Global,
    input: FixInput<'_>,
    base: &Base,
    old: &Document,
    after: &Document,
) -> Result<Option<usize>, AllocError>
    requires { base.now ≡ input.url.now }
    ensures { IfOk result (λ left. IfSome left (λ _. all_lead_on input.entry.url.now input.entry.moves.now old.now.links after.now.links ≡ true)) }
{
    if !all_lead_on(alloc, base, input.moves, &old.links, &after.links)? {
        return Ok(None);
    }
    let leads = leads_in(alloc, base, after, input.moves)?;
    Ok(Some(leads.len()))
}

/// The links of a document for which there is a move.
fn leads_in<'a>(
    alloc: Global,
    base: &Base,
    document: &Document,
    moves: &'a [Move],
) -> Result<Vec<Lead<'a>>, AllocError> {
    let mut leads = Vec::new(alloc);
    let mut rest = document.positions.as_slice();
    for index in 0..document.links.len() {
        let Some(url) = base.link(alloc, document.links.text(index))? else {
            continue;
        };
        let Some((position, more)) = rest.split_first() else {
            break;
        };
        rest = more;
        push_lead(*position as usize, move_from(moves, &url), &mut leads)?;
    }
    Ok(leads)
}

/// Appends the link with this index, if there is a move for it.
fn push_lead<'a>(
    index: usize,
    step: Option<&'a Move>,
    leads: &mut Vec<Lead<'a>>,
) -> Result<(), AllocError> {
    if let Some(step) = step {
        leads.push(Lead { index, step })?;
    }
    Ok(())
}

/// The edits that rewrite these links of a document, and the first link without one. There are no edits if its text is not its bytes.
fn edits_of(
    alloc: Global,
    body: &[u8],
    input: FixInput<'_>,
    base: &Base,
    leads: &[Lead<'_>],
) -> Result<Edits, AllocError> {
    let mut found = Edits {
        edits: Vec::new(alloc),
        left: None,
        first: None,
    };
    if leads.is_empty() {
        return Ok(found);
    }
    let is_text = is_text(body);
    let places = places_of(alloc, body, input.options, leads)?;
    let page = LinkPage {
        base,
        root: input.options.root,
    };
    for (lead, place) in leads.iter().zip(places) {
        let reason = if is_text {
            push_edit_at(alloc, body, page, &place, lead.step, &mut found.edits)?
        } else {
            Some(LeftReason::Encoding)
        };
        note_link(&mut found, &place, reason);
    }
    in_order(&mut found.edits)?;
    Ok(found)
}

/// Notes a link at a place, which has an edit or, for a reason, none.
fn note_link(found: &mut Edits, place: &TextPlace, reason: Option<LeftReason>) {
    let link = left_at(place, reason.unwrap_or(LeftReason::OtherChanges));
    found.first = Some(earlier(found.first, link));
    if reason.is_some() {
        found.left = Some(earlier(found.left, link));
    }
}

/// The one of two links that is first in the document. The attributes of a tag are not read in their order.
fn earlier(noted: Option<LeftLink>, link: LeftLink) -> LeftLink {
    match noted {
        Some(noted) if !is_before(link, noted) => noted,
        _ => link,
    }
}

/// Whether a link is before another one in the document.
fn is_before(link: LeftLink, other: LeftLink) -> bool {
    link.line < other.line || link.line == other.line && link.column < other.column
}

/// The link at a place, which stays as it is for this reason.
fn left_at(place: &TextPlace, reason: LeftReason) -> LeftLink {
    LeftLink {
        line: place.line,
        column: place.column,
        reason,
    }
}

/// The locations of these links.
fn places_of(
    alloc: Global,
    body: &[u8],
    options: ReadOptions<'_>,
    leads: &[Lead<'_>],
) -> Result<Vec<TextPlace>, AllocError> {
    let indices = indices_of(alloc, leads)?;
    text_places(alloc, body, kind_of(options), indices.as_slice())
}

/// Sorts edits by position, and leaves out each that begins before the end of another.
fn in_order(edits: &mut Vec<Edit>) -> Result<(), AllocError> {
    edits.sort_by(|a: &Edit, b: &Edit| a.start.cmp(&b.start))?;
    edits.dedup_by(|a: &mut Edit, b: &mut Edit| a.start < b.end);
    Ok(())
}

/// Whether a document is UTF-8 without a byte order mark.
fn is_text(body: &[u8]) -> bool {
    !body.starts_with(&[0xef, 0xbb, 0xbf]) && simdutf8::is_utf8(body)
}

/// The kind of a document that is read with these options.
fn kind_of(options: ReadOptions<'_>) -> TextKind {
    TextKind::Document {
        syntax: options.syntax,
        styles: options.styles,
    }
}

/// The indices of these links among all links of their document.
fn indices_of(alloc: Global, leads: &[Lead<'_>]) -> Result<Vec<usize>, AllocError> {
    leads.iter().map(|lead| lead.index).collect(alloc)
}

/// Appends the edit that rewrites the link at a place, or returns why there is none: the text does not have the link there as it is
/// written, or the last edit is there, or the link has no new text.
fn push_edit_at(
    alloc: Global,
    text: &[u8],
    page: LinkPage<'_>,
    place: &TextPlace,
    step: &Move,
    edits: &mut Vec<Edit>,
) -> Result<Option<LeftReason>, AllocError> {
    let written = place.written.as_str();
    let Some(start) = position_of(text, place.line, place.column) else {
        return Ok(Some(LeftReason::Written));
    };
    if !has_at(text, start, written.as_bytes()) || is_in_last(edits.as_slice(), start) {
        return Ok(Some(LeftReason::Written));
    }
    match new_link(alloc, page, written, step)? {
        Some(new) => {
            edits.push(Edit {
                start,
                end: start.saturating_add(written.len()),
                text: new,
            })?;
            Ok(None)
        }
        None => Ok(Some(LeftReason::NewText)),
    }
}

/// Whether a position is in the last edit.
fn is_in_last(edits: &[Edit], position: usize) -> bool {
    match edits.last() {
        Some(edit) => edit.start <= position && position < edit.end,
        None => false,
    }
}

/// Whether a text has these bytes at a position.
fn has_at(text: &[u8], start: usize, bytes: &[u8]) -> bool {
    match text.get(start..) {
        Some(rest) => rest.starts_with(bytes),
        None => false,
    }
}
