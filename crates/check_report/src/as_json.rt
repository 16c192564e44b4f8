//! Prints a row as a JSON object.
ghost use Rattle.std.specs.Prelude.{◌≡◌, ◌++◌, OnOk};
ghost use Rattle.check_report.specs.Json.{has_hint, has_page, is_leaving, is_missing, json_line, members_of, object_line, place_kind, row_kind, target_kind, wrong_key, wrong_word};
ghost use Rattle.check_report.specs.Rows as line;
ghost use Rattle.check_report.specs.Rows.{line_of};

use crate::member::{Member, put_object};
use crate::put::NoMemory;
use crate::row::{Counts, Row, Section};
use crate::schemes::scheme_note;
use crate::value::{BaseHint, Broken, External, FileCount, Kind, Place, Redirect, Totals};

/// Appends the row as an object without spaces and LF, if the row has an object. The start and the end of a section, the number of other
/// locations of a target and the end of the report have none.
pub fn put_json(out: &mut Vec<u8>, row: Row<'_>) -> Result<(), NoMemory>
    ensures { OnOk result (out.new.items ≡ out.old.items ++ json_line (line_of row.entry)) }
{
    match row {
        Row::Total {
            base,
            totals,
            counts,
        } => put_total(out, base, totals, counts),
        Row::Hint(hint) => put_base_hint(out, hint),
        Row::Broken(broken) => put_broken(out, broken),
        Row::Place(broken, place) => put_place(out, broken, place),
        Row::More(places) => put_more(out, places as u64),
        Row::Worst(count) => put_worst(out, count),
        Row::Redirect(page) => put_redirect(out, page),
        Row::External(url) => put_external(out, url),
        Row::Name(section, text) => put_name(out, section, text),
        Row::Begin(_) | Row::Finish(_) | Row::Rest(_, _) | Row::Last => Ok(()),
    }
}

/// Appends the object of the totals: the name of the site, and the counts. An optional count that is absent is omitted.
fn put_total(out: &mut Vec<u8>, base: &str, totals: Totals, counts: Counts) -> Result<(), NoMemory>
    ensures { OnOk result (out.new.items ≡ out.old.items ++ object_line (members_of (line.total base.now totals counts))) }
{
    put_object(
        out,
        &[
            Member::Text("kind", "total"),
            Member::Text("base", base),
            Member::Count("pages", totals.pages),
            Member::Count("files", totals.files),
            Member::Count("aliases", totals.aliases),
            Member::Count("links", totals.links),
            Member::Count("redirects", totals.moved),
            Member::CountIf("unreached", counts.unreached),
            Member::CountIf("unlisted", counts.unlisted),
            Member::CountIf("external", counts.external),
            Member::Count("broken", totals.broken_links),
            Member::Count("missing_pages", totals.broken_urls),
            Member::Count("missing_anchors", totals.broken_anchors),
            Member::Count("invalid", totals.invalid_links),
            Member::Count("leaving", totals.leaving_links),
        ],
    )
}

/// Appends the object of the hint at a missing BASE: the folder, and the numbers of paths that begin with it and of all.
fn put_base_hint(out: &mut Vec<u8>, hint: &BaseHint) -> Result<(), NoMemory>
    ensures { OnOk result (out.new.items ≡ out.old.items ++ object_line (members_of (line.hint hint.now))) }
{
    put_object(
        out,
        &[
            Member::Text("kind", "hint"),
            Member::Text("base", hint.folder.as_str()),
            Member::Count("paths", hint.paths),
            Member::Count("of", hint.of),
        ],
    )
}

/// Appends the object of a target: a missing page or anchor, or a link that is invalid or leads out of the site. The page that is
/// suggested and the hint are null if there are none. Rows of some kinds have no such members.
fn put_broken(out: &mut Vec<u8>, broken: &Broken) -> Result<(), NoMemory>
    ensures { OnOk result (out.new.items ≡ out.old.items ++ object_line (members_of (line.broken broken.now))) }
{
    let kind = broken.kind;
    put_object(
        out,
        &[
            Member::Text("kind", target_kind(kind)),
            Member::Text("target", broken.target.as_str()),
            Member::Text(wrong_key(kind), wrong_word(kind)),
            Member::Count("pages", broken.pages),
            Member::TextOrNullIf(has_page(kind), "same_name", &broken.same_name),
            Member::TextOrNullIf(has_hint(kind), "hint", &broken.hint),
        ],
    )
}

/// Appends the object of the location of a link: the target, what is wrong, the file, the line, the column, the link as it is written,
/// null if that is its target, and the question about the link, if there is one.
fn put_place<'r>(out: &mut Vec<u8>, broken: &'r Broken, place: &'r Place) -> Result<(), NoMemory>
    ensures { OnOk result (out.new.items ≡ out.old.items ++ object_line (members_of (line.place broken.now place.now))) }
{
    let kind = broken.kind;
    put_object(
        out,
        &[
            Member::Text("kind", place_kind(kind)),
            Member::Text("target", broken.target.as_str()),
            Member::Text(wrong_key(kind), wrong_word(kind)),
            Member::Text("file", place.file.as_str()),
            Member::Count("line", place.line),
            Member::Count("column", place.column),
            Member::TextOrNull("written", &place.written),
            Member::TextIfAny("question", scheme_note(broken, place)),
        ],
    )
}

/// Appends the object of the number of locations that are not listed.
fn put_more(out: &mut Vec<u8>, places: u64) -> Result<(), NoMemory>
    ensures { OnOk result (out.new.items ≡ out.old.items ++ object_line (members_of (line.more places))) }
{
    put_object(
        out,
        &[
            Member::Text("kind", "more"),
            Member::Count("places", places),
        ],
    )
}

/// Appends the object of a file and the number of broken links in it.
fn put_worst(out: &mut Vec<u8>, count: &FileCount) -> Result<(), NoMemory>
    ensures { OnOk result (out.new.items ≡ out.old.items ++ object_line (members_of (line.worst count.now))) }
{
    put_object(
        out,
        &[
            Member::Text("kind", "worst"),
            Member::Text("file", count.file.as_str()),
            Member::Count("links", count.links),
        ],
    )
}

/// Appends the object of a redirect. `to` is null if its target is not known; `pages` counts the pages that link to it.
fn put_redirect(out: &mut Vec<u8>, page: &Redirect) -> Result<(), NoMemory>
    ensures { OnOk result (out.new.items ≡ out.old.items ++ object_line (members_of (line.redirect page.now))) }
{
    put_object(
        out,
        &[
            Member::Text("kind", "redirect"),
            Member::Text("page", page.page.as_str()),
            Member::TextOrNull("to", &page.target),
            Member::Count("pages", page.pages),
        ],
    )
}

/// Appends the object of an external URL and the number of links to it.
fn put_external(out: &mut Vec<u8>, url: &External) -> Result<(), NoMemory>
    ensures { OnOk result (out.new.items ≡ out.old.items ++ object_line (members_of (line.external url.now))) }
{
    put_object(
        out,
        &[
            Member::Text("kind", "external"),
            Member::Text("url", url.url.as_str()),
            Member::Count("links", url.links),
        ],
    )
}

/// Appends the object of an unreached file, of a document that no sitemap lists, or of an unused entry of the ignore list.
fn put_name(out: &mut Vec<u8>, section: Section, text: &str) -> Result<(), NoMemory>
    ensures { OnOk result (out.new.items ≡ out.old.items ++ object_line (members_of (line.name section text.now))) }
{
    put_object(
        out,
        &[
            Member::Text("kind", row_kind(section)),
            Member::Text("name", text),
        ],
    )
}

/// The value of `kind` for the rows in a section.
fn row_kind(section: Section) -> &'static str
    ensures { result.now ≡ row_kind section }
{
    match section {
        Section::Broken => "broken",
        Section::Worst => "worst",
        Section::Redirects => "redirect",
        Section::Unreached => "unreached",
        Section::Unlisted => "unlisted",
        Section::External => "external",
        Section::Unused => "unused",
    }
}

/// Whether a page or an anchor is missing.
fn is_missing(kind: Kind) -> bool
    ensures { result ≡ is_missing kind }
{
    match kind {
        Kind::NoPage | Kind::NoAnchor => true,
        Kind::NotUrl
        | Kind::UnknownScheme
        | Kind::LocalFile
        | Kind::Leaves
        | Kind::OutsideBase
        | Kind::NotInMap => false,
    }
}

/// Whether a page can be suggested for a target.
fn has_page(kind: Kind) -> bool
    ensures { result ≡ has_page kind }
{
    match kind {
        Kind::NoPage | Kind::NoAnchor | Kind::OutsideBase => true,
        Kind::NotUrl | Kind::UnknownScheme | Kind::LocalFile | Kind::Leaves | Kind::NotInMap =>
            false,
    }
}

/// Whether the row of a target has a hint.
fn has_hint(kind: Kind) -> bool
    ensures { result ≡ has_hint kind }
{
    match kind {
        Kind::NoPage | Kind::NoAnchor | Kind::NotInMap => true,
        Kind::NotUrl | Kind::UnknownScheme | Kind::LocalFile | Kind::Leaves | Kind::OutsideBase =>
            false,
    }
}

/// Whether the link leads out of the site.
fn is_leaving(kind: Kind) -> bool
    ensures { result ≡ is_leaving kind }
{
    match kind {
        Kind::Leaves | Kind::OutsideBase | Kind::NotInMap => true,
        Kind::NoPage | Kind::NoAnchor | Kind::NotUrl | Kind::UnknownScheme | Kind::LocalFile =>
            false,
    }
}

/// The value of `kind` for the row of a target.
fn target_kind(kind: Kind) -> &'static str
    ensures { result.now ≡ target_kind kind }
{
    if is_missing(kind) {
        "broken"
    } else if is_leaving(kind) {
        "leaving"
    } else {
        "invalid"
    }
}

/// The value of `kind` for the row of a location.
fn place_kind(kind: Kind) -> &'static str
    ensures { result.now ≡ place_kind kind }
{
    if is_missing(kind) {
        "place"
    } else if is_leaving(kind) {
        "leaving_place"
    } else {
        "invalid_place"
    }
}

/// The name of the member that says what is wrong.
fn wrong_key(kind: Kind) -> &'static str
    ensures { result.now ≡ wrong_key kind }
{
    if is_missing(kind) {
        "missing"
    } else {
        "reason"
    }
}

/// What is wrong, in a word.
fn wrong_word(kind: Kind) -> &'static str
    ensures { result.now ≡ wrong_word kind }
{
    match kind {
        Kind::NoPage => "page",
        Kind::NoAnchor => "anchor",
        Kind::NotUrl => "not_url",
        Kind::UnknownScheme => "unknown_scheme",
        Kind::LocalFile => "local_file",
        Kind::Leaves => "above_folder",
        Kind::OutsideBase => "outside_base",
        Kind::NotInMap => "not_in_map",
    }
}
