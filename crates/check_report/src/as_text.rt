//! Prints a row as text.
ghost use Rattle.std.specs.Prelude.{◌≡◌, ◌++◌, OnOk};
ghost use Rattle.check_report.specs.Rows.{line_of};
ghost use Rattle.check_report.specs.Text.{base_hint_line, begin_text, broken_text, broken_total, external_text, link_end, message, more_links, more_text, name_text, place_head, place_text, redirect_text, rest_text, site_total, target_start, text_line, title, total_text, verdict, worst_text};

use crate::escape::Escape;
use crate::hints::put_base_hint;
use crate::piece::{Piece, put_all};
use crate::put::{NoMemory, noun, put};
use crate::row::{Counts, Row, Section};
use crate::schemes::scheme_note;
use crate::value::{
    BaseHint, Broken, External, FileCount, Kind, Place, Redirect, Totals, is_broken,
};

const BOLD: &str = "\x1b[1m";

const RED: &str = "\x1b[31m";

const GREEN: &str = "\x1b[32m";

const PLAIN: &str = "\x1b[0m";

/// The link as it is written, after its target.
const WRITTEN: &str = " (written as ";

/// Appends the lines of a row. The end of a section and the end of the report have none.
pub fn put_text(out: &mut Vec<u8>, row: Row<'_>, colour: bool) -> Result<(), NoMemory>
    ensures { OnOk result (out.new.items ≡ out.old.items ++ text_line colour (line_of row.entry)) }
{
    match row {
        Row::Total { totals, counts, .. } => put_total(out, totals, counts, colour),
        Row::Hint(hint) => put_hint_line(out, hint),
        Row::Begin(section) => put_begin(out, section, colour),
        Row::Broken(broken) => put_broken(out, broken, colour),
        Row::Place(broken, place) => put_place(out, broken, place, colour),
        Row::More(count) => put_more(out, count as u64),
        Row::Rest(broken, count) => put_rest(out, broken, count as u64, colour),
        Row::Worst(count) => put_worst(out, count),
        Row::Redirect(redirect) => put_redirect(out, redirect),
        Row::External(url) => put_external(out, url),
        Row::Name(section, text) => put_name(out, section, text),
        Row::Finish(_) | Row::Last => Ok(()),
    }
}

/// Appends the two lines of the totals: the counts of the site, and the counts of what is broken.
fn put_total(
    out: &mut Vec<u8>,
    totals: Totals,
    counts: Counts,
    colour: bool,
) -> Result<(), NoMemory>
    ensures { OnOk result (out.new.items ≡ out.old.items ++ total_text colour totals counts) }
{
    put_site_total(out, totals, counts)?;
    put_broken_total(out, totals, colour)
}

/// Appends the first line of the totals. An optional count that is absent is omitted.
fn put_site_total(out: &mut Vec<u8>, totals: Totals, counts: Counts) -> Result<(), NoMemory>
    ensures { OnOk result (out.new.items ≡ out.old.items ++ site_total totals counts) }
{
    put_all(
        out,
        &[
            Piece::Counted("pages ", totals.pages),
            Piece::Counted(", other files ", totals.files),
            Piece::Counted(", links ", totals.links),
            Piece::Counted(", redirects ", totals.moved),
            Piece::Counted(", aliases ", totals.aliases),
            Piece::CountedIf(", unreached files ", counts.unreached),
            Piece::CountedIf(", documents that no sitemap lists ", counts.unlisted),
            Piece::CountedIf(", external URLs ", counts.external),
            Piece::Text("\n"),
        ],
    )
}

/// Appends the second line of the totals. If the report has colour, the number of broken links is red or green. The numbers of invalid
/// links and of links that lead out of the site are omitted if they are 0.
fn put_broken_total(out: &mut Vec<u8>, totals: Totals, colour: bool) -> Result<(), NoMemory>
    ensures { OnOk result (out.new.items ≡ out.old.items ++ broken_total colour totals) }
{
    put_all(
        out,
        &[
            Piece::Code(colour, verdict(totals)),
            Piece::Counted("broken links ", totals.broken_links),
            Piece::Code(colour, PLAIN),
            Piece::Counted(", missing pages ", totals.broken_urls),
            Piece::Counted(", missing anchors ", totals.broken_anchors),
            Piece::CountedSome(", invalid links ", totals.invalid_links),
            Piece::CountedSome(", leaving links ", totals.leaving_links),
            Piece::Text("\n"),
        ],
    )
}

/// Red if something is wrong, otherwise green.
fn verdict(totals: Totals) -> &'static str
    ensures { result.now ≡ verdict totals }
{
    if is_broken(totals) { RED } else { GREEN }
}

/// Appends the line of the hint at BASE.
fn put_hint_line(out: &mut Vec<u8>, hint: &BaseHint) -> Result<(), NoMemory>
    ensures { OnOk result (out.new.items ≡ out.old.items ++ base_hint_line hint.now) }
{
    put_base_hint(out, Escape::Shown, hint)?;
    put(out, "\n")
}

/// Appends an empty line and the title of the section, which is bold if the report has colour.
fn put_begin(out: &mut Vec<u8>, section: Section, colour: bool) -> Result<(), NoMemory>
    ensures { OnOk result (out.new.items ≡ out.old.items ++ begin_text colour section) }
{
    put_all(
        out,
        &[
            Piece::Text("\n"),
            Piece::Code(colour, BOLD),
            Piece::Text(title(section)),
            Piece::Code(colour, PLAIN),
        ],
    )
}

/// The title of a section, with its LF. The section of broken links has no title.
fn title(section: Section) -> &'static str
    ensures { result.now ≡ title section }
{
    match section {
        Section::Broken => "",
        Section::Worst => "files with the most broken, invalid and leaving links:\n",
        Section::Redirects =>
            "links to redirects (not errors; in documents, --fix --dry-run shows where):\n",
        Section::Unreached => "unreached files:\n",
        Section::Unlisted =>
            "documents that no sitemap lists (list them, or leave them out with --ignore):\n",
        Section::External => "external links (not checked):\n",
        Section::Unused => "unused --ignore entries:\n",
    }
}

/// Appends the line of a target without locations: what is wrong with it, and what is suggested. A target with locations is in the
/// line of each.
fn put_broken(out: &mut Vec<u8>, broken: &Broken, colour: bool) -> Result<(), NoMemory>
    ensures { OnOk result (out.new.items ≡ out.old.items ++ broken_text colour broken.now) }
{
    if broken.places.len() > 0 {
        return Ok(());
    }
    put_target_start(out, broken, colour)?;
    put_all(
        out,
        &[
            Piece::SameName(Escape::Shown, &broken.same_name),
            Piece::Hint(Escape::Shown, &broken.hint),
            Piece::Text("\n"),
        ],
    )
}

/// Appends the line of a broken link: the location, the target, the link as it is written, the note about its scheme, and what is
/// suggested.
fn put_place<'r>(
    out: &mut Vec<u8>,
    broken: &'r Broken,
    place: &'r Place,
    colour: bool,
) -> Result<(), NoMemory>
    ensures { OnOk result (out.new.items ≡ out.old.items ++ place_text colour broken.now place.now) }
{
    put_place_head(out, place, colour)?;
    put_target_start(out, broken, colour)?;
    put_link_end(out, Escape::Shown, broken, place)
}

/// Appends the link as it is written, the note about its scheme, and what is suggested, and ends the line.
pub fn put_link_end<'r>(
    out: &mut Vec<u8>,
    how: Escape,
    broken: &'r Broken,
    place: &'r Place,
) -> Result<(), NoMemory>
    ensures { OnOk result (out.new.items ≡ out.old.items ++ link_end how broken.now place.now) }
{
    put_all(
        out,
        &[
            Piece::Written(how, WRITTEN, broken, &place.written),
            Piece::Note(" ", scheme_note(broken, place)),
            Piece::SameName(how, &broken.same_name),
            Piece::Hint(how, &broken.hint),
            Piece::Text("\n"),
        ],
    )
}

/// Appends a location, as compilers print it. It is bold if the report has colour.
fn put_place_head(out: &mut Vec<u8>, place: &Place, colour: bool) -> Result<(), NoMemory>
    ensures { OnOk result (out.new.items ≡ out.old.items ++ place_head colour place.now) }
{
    put_all(
        out,
        &[
            Piece::Code(colour, BOLD),
            Piece::Shown(place.file.as_str()),
            Piece::Counted(":", place.line),
            Piece::Counted(":", place.column),
            Piece::Text(": "),
            Piece::Code(colour, PLAIN),
        ],
    )
}

/// Appends the target, and what is wrong with it, in red if the report has colour.
fn put_target_start(out: &mut Vec<u8>, broken: &Broken, colour: bool) -> Result<(), NoMemory>
    ensures { OnOk result (out.new.items ≡ out.old.items ++ target_start colour broken.now) }
{
    put_all(
        out,
        &[
            Piece::Target(Escape::Shown, broken),
            Piece::Text(": "),
            Piece::Code(colour, RED),
            Piece::Text(message(broken.kind)),
            Piece::Code(colour, PLAIN),
        ],
    )
}

/// The text about what is wrong.
pub fn message(kind: Kind) -> &'static str
    ensures { result.now ≡ message kind }
{
    match kind {
        Kind::NoPage => "no such page",
        Kind::NoAnchor => "no such anchor",
        Kind::NotUrl => "not a URL",
        Kind::UnknownScheme => "unknown scheme",
        Kind::LocalFile => "local file",
        Kind::Leaves => "leaves the folder",
        Kind::OutsideBase => "outside BASE on the same host, not checked",
        Kind::NotInMap => "no such page in the mapped folder",
    }
}

/// Appends the line for the number of locations that are not listed.
fn put_more(out: &mut Vec<u8>, count: u64) -> Result<(), NoMemory>
    ensures { OnOk result (out.new.items ≡ out.old.items ++ more_text count) }
{
    put_all(
        out,
        &[
            Piece::Counted("  and ", count),
            Piece::Text(more_links(count)),
        ],
    )
}

/// The text after this number of links that are not listed, with the option that lists them.
fn more_links(count: u64) -> &'static str
    ensures { result.now ≡ more_links count }
{
    noun(
        count,
        " more link (--all-sources lists it)\n",
        " more links (--all-sources lists them)\n",
    )
}

/// Appends the line of a target of which not all locations are listed: what is wrong with it, and the number of the others.
fn put_rest(out: &mut Vec<u8>, broken: &Broken, count: u64, colour: bool) -> Result<(), NoMemory>
    ensures { OnOk result (out.new.items ≡ out.old.items ++ rest_text colour broken.now count) }
{
    put_target_start(out, broken, colour)?;
    put_all(
        out,
        &[Piece::Counted(": ", count), Piece::Text(more_links(count))],
    )
}

/// Appends the line of a file: the number of broken, invalid and leaving links in it, and its name.
fn put_worst(out: &mut Vec<u8>, count: &FileCount) -> Result<(), NoMemory>
    ensures { OnOk result (out.new.items ≡ out.old.items ++ worst_text count.now) }
{
    put_all(
        out,
        &[
            Piece::Counted("  ", count.links),
            Piece::Text(" "),
            Piece::Shown(count.file.as_str()),
            Piece::Text("\n"),
        ],
    )
}

/// Appends the line of a redirect: its URL, its target, and the number of pages that link to it.
fn put_redirect(out: &mut Vec<u8>, redirect: &Redirect) -> Result<(), NoMemory>
    ensures { OnOk result (out.new.items ≡ out.old.items ++ redirect_text redirect.now) }
{
    put_all(
        out,
        &[
            Piece::Text("  "),
            Piece::Page(Escape::Shown, redirect.page.as_str()),
            Piece::Text(" -> "),
            Piece::Moved(Escape::Shown, &redirect.target),
            Piece::Counted(" (linked from ", redirect.pages),
            Piece::Text(noun(redirect.pages, " page", " pages")),
            Piece::Text(")\n"),
        ],
    )
}

/// Appends the line of an external URL: the number of links to it, and the URL.
fn put_external(out: &mut Vec<u8>, url: &External) -> Result<(), NoMemory>
    ensures { OnOk result (out.new.items ≡ out.old.items ++ external_text url.now) }
{
    put_all(
        out,
        &[
            Piece::Counted("  ", url.links),
            Piece::Text(" "),
            Piece::Shown(url.url.as_str()),
            Piece::Text("\n"),
        ],
    )
}

/// Appends the line of an unreached file, of a document that no sitemap lists, or of an unused entry of the ignore list.
fn put_name(out: &mut Vec<u8>, section: Section, text: &str) -> Result<(), NoMemory>
    ensures { OnOk result (out.new.items ≡ out.old.items ++ name_text section text.now) }
{
    put_all(
        out,
        &[
            Piece::Text("  "),
            Piece::Name(Escape::Shown, section, text),
            Piece::Text("\n"),
        ],
    )
}
