//! Prints a row in the HTML page.
ghost use Rattle.std.specs.Prelude.{◌≡◌, ◌++◌, OnOk, codes};
ghost use Rattle.check_report.specs.Page.{broken_row, count_items, counts_links, external_row, head_part, hint_paragraph, link_end, link_start, page_line, page_start, page_total, place_row, redirect_row, script_part, section_start, source_line, source_start, style_part, tail_part, title_count, title_noun, tools_part, verdict_start, worst_row};
ghost use Rattle.check_report.specs.Rows.{line_of};
ghost use Rattle.check_report.specs.Text.{name_in};
ghost use Rattle.check_report.specs.declared.escape.Escape.TheVariants as escape;

mod parts;

use crate::as_text::message;
use crate::escape::Escape;
use crate::hints::put_base_hint;
use crate::paths::{base_url, path_uri};
use crate::piece::{Piece, put_all};
use crate::put::{NoMemory, noun, put};
use crate::row::{Counts, Row, Section};
use crate::schemes::scheme_note;
use crate::value::{BaseHint, Broken, External, FileCount, Place, Redirect, Totals, is_broken};
use parts::{HEAD, SCRIPT, STYLE, TAIL, TOOLS};

/// The link as it is written, after its location.
const WRITTEN: &str = "\t(written as ";

/// Appends the HTML of a row. The row of the totals starts the page, and the last row ends it. Locations are links to the sources at
/// the URL, if it is not empty.
pub fn put_page(out: &mut Vec<u8>, source_url: &str, row: Row<'_>) -> Result<(), NoMemory>
    ensures { OnOk result (out.new.items ≡ out.old.items ++ page_line source_url.now (line_of row.entry)) }
{
    match row {
        Row::Total {
            base,
            totals,
            counts,
        } => put_total(out, base, totals, counts),
        Row::Hint(hint) => put_hint(out, hint),
        Row::Begin(section) => put(out, section_start(section)),
        Row::Finish(_) => put(out, "</pre>\n</section>\n"),
        Row::Broken(broken) => put_broken(out, broken),
        Row::Place(broken, place) => put_place(out, source_url, broken, place),
        Row::More(_) | Row::Rest(_, _) => Ok(()),
        Row::Worst(count) => put_worst(out, count),
        Row::Redirect(page) => put_redirect(out, page),
        Row::External(url) => put_external(out, url),
        Row::Name(section, text) => put_name(out, section, text),
        Row::Last => put(out, tail_part()),
    }
}

// ---- fixed texts

/// The page up to the text of its title.
#[tactic(auto, unfolding(crate::specs::Page::head_part))]
fn head_part() -> &'static str
    ensures { result.now ≡ head_part }
{
    HEAD
}

/// The text from the end of the title to the script, with the style sheet.
#[tactic(auto, unfolding(crate::specs::Page::style_part))]
fn style_part() -> &'static str
    ensures { result.now ≡ style_part }
{
    STYLE
}

/// The script, and the text from there to the name of the site.
#[tactic(auto, unfolding(crate::specs::Page::script_part))]
fn script_part() -> &'static str
    ensures { result.now ≡ script_part }
{
    SCRIPT
}

/// The end of the list of counts, and the form for search and order.
#[tactic(auto, unfolding(crate::specs::Page::tools_part))]
fn tools_part() -> &'static str
    ensures { result.now ≡ tools_part }
{
    TOOLS
}

/// The end of the page, after the last section.
#[tactic(auto, unfolding(crate::specs::Page::tail_part))]
fn tail_part() -> &'static str
    ensures { result.now ≡ tail_part }
{
    TAIL
}

/// The start of a section, with its heading, up to its rows.
fn section_start(section: Section) -> &'static str
    ensures { result.now ≡ section_start section }
{
    match section {
        Section::Broken =>
            "<section id=broken aria-labelledby=h-broken>\n<h2 id=h-broken>Broken links</h2>\n<pre class=plain>\n",
        Section::Worst =>
            "<section id=worst aria-labelledby=h-worst>\n<h2 id=h-worst>Files with the most broken, invalid and leaving links</h2>\n<pre>\n",
        Section::Redirects =>
            "<section id=redirects aria-labelledby=h-redirects>\n<h2 id=h-redirects>Links to redirects (not errors; in documents, --fix --dry-run shows where)</h2>\n<pre>\n",
        Section::Unreached =>
            "<section id=unreached aria-labelledby=h-unreached>\n<h2 id=h-unreached>Unreached files</h2>\n<pre>\n",
        Section::Unlisted =>
            "<section id=unlisted aria-labelledby=h-unlisted>\n<h2 id=h-unlisted>Documents that no sitemap lists</h2>\n<pre>\n",
        Section::External =>
            "<section id=external aria-labelledby=h-external>\n<h2 id=h-external>External links (not checked)</h2>\n<pre>\n",
        Section::Unused =>
            "<section id=unused aria-labelledby=h-unused>\n<h2 id=h-unused>Unused --ignore entries</h2>\n<pre>\n",
    }
}

// ---- totals

/// Appends the page up to its first section: the title, the heading, the counts, and the form for search and order.
fn put_total(out: &mut Vec<u8>, base: &str, totals: Totals, counts: Counts) -> Result<(), NoMemory>
    ensures { OnOk result (out.new.items ≡ out.old.items ++ page_total base.now totals counts) }
{
    put_start(out, base, totals)?;
    put_count_items(out, totals, counts)
}

/// Appends the page up to the list of counts. The title and the heading have the count and the name of the site.
fn put_start(out: &mut Vec<u8>, base: &str, totals: Totals) -> Result<(), NoMemory>
    ensures { OnOk result (out.new.items ≡ out.old.items ++ page_start base.now totals) }
{
    let count = title_count(totals);
    let noun = title_noun(totals);
    put_all(
        out,
        &[
            Piece::Counted(head_part(), count),
            Piece::Text(noun),
            Piece::Text(" - "),
            Piece::Escaped(Escape::Html, base),
            Piece::Text(style_part()),
            Piece::Text(script_part()),
            Piece::Escaped(Escape::Html, base),
            Piece::Counted(verdict_start(totals), count),
            Piece::Text("</b>"),
            Piece::Text(noun),
            Piece::Text("</h1>\n<ul>\n"),
        ],
    )
}

/// The number of broken links; if there are none, that of missing pages, to which no link leads; if there are none, that of invalid
/// links; if there are none, that of links that lead out of the site.
fn title_count(totals: Totals) -> u64
    ensures { result ≡ title_count totals }
{
    if counts_links(totals) {
        totals.broken_links
    } else if totals.broken_urls > 0 {
        totals.broken_urls
    } else if totals.invalid_links > 0 {
        totals.invalid_links
    } else {
        totals.leaving_links
    }
}

/// What that number counts, with a space before it.
fn title_noun(totals: Totals) -> &'static str
    ensures { result.now ≡ title_noun totals }
{
    if counts_links(totals) {
        noun(totals.broken_links, " broken link", " broken links")
    } else if totals.broken_urls > 0 {
        noun(totals.broken_urls, " missing page", " missing pages")
    } else if totals.invalid_links > 0 {
        noun(totals.invalid_links, " invalid link", " invalid links")
    } else {
        noun(totals.leaving_links, " leaving link", " leaving links")
    }
}

/// Whether the title counts broken links: unless there are none, and something else is wrong.
fn counts_links(totals: Totals) -> bool
    ensures { result ≡ counts_links totals }
{
    totals.broken_links > 0
        || totals.broken_urls == 0 && totals.invalid_links == 0 && totals.leaving_links == 0
}

/// The start tags of the heading. Its class is `bad` if something is wrong, otherwise `good`.
fn verdict_start(totals: Totals) -> &'static str
    ensures { result.now ≡ verdict_start totals }
{
    if is_broken(totals) {
        "</p>\n<h1 class=bad><b>"
    } else {
        "</p>\n<h1 class=good><b>"
    }
}

/// Appends the list of counts, and the form for search and order. The numbers of invalid links and of links that lead out of the site
/// are items if they are not 0, and the optional counts if the report has them.
fn put_count_items(out: &mut Vec<u8>, totals: Totals, counts: Counts) -> Result<(), NoMemory>
    ensures { OnOk result (out.new.items ≡ out.old.items ++ count_items totals counts) }
{
    put_all(
        out,
        &[
            Piece::Item("<li>pages <b>", totals.pages),
            Piece::Item("<li>other files <b>", totals.files),
            Piece::Item("<li>links <b>", totals.links),
            Piece::Item("<li>redirects <b>", totals.moved),
            Piece::Item("<li>other URLs of pages <b>", totals.aliases),
            Piece::Item("<li>missing pages <b>", totals.broken_urls),
            Piece::Item("<li>missing anchors <b>", totals.broken_anchors),
            Piece::ItemSome("<li>invalid links <b>", totals.invalid_links),
            Piece::ItemSome("<li>leaving links <b>", totals.leaving_links),
            Piece::ItemIf("<li>unreached files <b>", counts.unreached),
            Piece::ItemIf("<li>documents that no sitemap lists <b>", counts.unlisted),
            Piece::ItemIf("<li>external URLs <b>", counts.external),
            Piece::Text(tools_part()),
        ],
    )
}

// ---- rows

/// Appends the hint at BASE, as a paragraph.
fn put_hint(out: &mut Vec<u8>, hint: &BaseHint) -> Result<(), NoMemory>
    ensures { OnOk result (out.new.items ≡ out.old.items ++ hint_paragraph hint.now) }
{
    put(out, "<p>")?;
    put_base_hint(out, Escape::Html, hint)?;
    put(out, "</p>\n")
}

/// Appends the line of a target: the target, a tab, what is wrong with it, and what is suggested.
fn put_broken(out: &mut Vec<u8>, broken: &Broken) -> Result<(), NoMemory>
    ensures { OnOk result (out.new.items ≡ out.old.items ++ broken_row broken.now) }
{
    put_all(
        out,
        &[
            Piece::Text("<b>"),
            Piece::Target(Escape::Html, broken),
            Piece::Text("</b>\t"),
            Piece::Text(message(broken.kind)),
            Piece::SameName(Escape::Html, &broken.same_name),
            Piece::Hint(Escape::Html, &broken.hint),
            Piece::Text("\n"),
        ],
    )
}

/// Appends the line of a location. A tab is before the location, before the link as it is written, and before the note about its scheme.
/// The location is a link if the URL of the sources is not empty.
fn put_place<'r>(
    out: &mut Vec<u8>,
    source_url: &str,
    broken: &'r Broken,
    place: &'r Place,
) -> Result<(), NoMemory>
    ensures { OnOk result (out.new.items ≡ out.old.items ++ place_row source_url.now broken.now place.now) }
{
    put_link_start(out, source_url, place)?;
    put_all(
        out,
        &[
            Piece::Escaped(Escape::Html, place.file.as_str()),
            Piece::Counted(":", place.line),
            Piece::Counted(":", place.column),
            Piece::Text(link_end(source_url)),
            Piece::Written(Escape::Html, WRITTEN, broken, &place.written),
            Piece::Note("\t", scheme_note(broken, place)),
            Piece::Text("\n"),
        ],
    )
}

/// Appends a tab, and the start of the link of a location to its sources, if there is one.
fn put_link_start(out: &mut Vec<u8>, source_url: &str, place: &Place) -> Result<(), NoMemory>
    ensures { OnOk result (out.new.items ≡ out.old.items ++ link_start source_url.now place.now) }
{
    if source_url.is_empty() {
        return put(out, "\t");
    }
    put_source_start(out, source_url)?;
    put_source_line(out, place)
}

/// Appends a tab, and the start of a link up to the URL of the sources.
fn put_source_start(out: &mut Vec<u8>, source_url: &str) -> Result<(), NoMemory>
    ensures { OnOk result (out.new.items ≡ out.old.items ++ source_start source_url.now) }
{
    let base = base_url(*out.allocator(), source_url)?;
    put_all(
        out,
        &[
            Piece::Text("\t<a href=\""),
            Piece::Escaped(Escape::Html, base.as_str()),
        ],
    )
}

/// Appends the path of the file of a location, its line, and the end of the start tag.
fn put_source_line(out: &mut Vec<u8>, place: &Place) -> Result<(), NoMemory>
    ensures { OnOk result (out.new.items ≡ out.old.items ++ source_line place.now) }
{
    let path = path_uri(*out.allocator(), place.file.as_str())?;
    put_all(
        out,
        &[
            Piece::Escaped(Escape::Html, path.as_str()),
            Piece::Counted("#L", place.line),
            Piece::Text("\">"),
        ],
    )
}

/// The end of the link of a location, if there is one.
fn link_end(source_url: &str) -> &'static str
    ensures { result.now ≡ link_end source_url.now }
{
    if source_url.is_empty() { "" } else { "</a>" }
}

/// Appends the line of a file: its name, a tab, and the number of broken, invalid and leaving links in it.
fn put_worst(out: &mut Vec<u8>, count: &FileCount) -> Result<(), NoMemory>
    ensures { OnOk result (out.new.items ≡ out.old.items ++ worst_row count.now) }
{
    put_all(
        out,
        &[
            Piece::Escaped(Escape::Html, count.file.as_str()),
            Piece::Counted("\t", count.links),
            Piece::Text("\n"),
        ],
    )
}

/// Appends the line of a redirect. Tabs separate its URL, its target, and the number of pages that link to it.
fn put_redirect(out: &mut Vec<u8>, page: &Redirect) -> Result<(), NoMemory>
    ensures { OnOk result (out.new.items ≡ out.old.items ++ redirect_row page.now) }
{
    put_all(
        out,
        &[
            Piece::Page(Escape::Html, page.page.as_str()),
            Piece::Text("\tto "),
            Piece::Moved(Escape::Html, &page.target),
            Piece::Counted("\tlinked from ", page.pages),
            Piece::Text(noun(page.pages, " page", " pages")),
            Piece::Text("\n"),
        ],
    )
}

/// Appends the line of an external URL: the URL, a tab, and the number of links to it.
fn put_external(out: &mut Vec<u8>, url: &External) -> Result<(), NoMemory>
    ensures { OnOk result (out.new.items ≡ out.old.items ++ external_row url.now) }
{
    put_all(
        out,
        &[
            Piece::Escaped(Escape::Html, url.url.as_str()),
            Piece::Counted("\t", url.links),
            Piece::Text("\n"),
        ],
    )
}

/// Appends the line of an unreached file, of a document that no sitemap lists, or of an unused entry of the ignore list.
fn put_name(out: &mut Vec<u8>, section: Section, text: &str) -> Result<(), NoMemory>
    ensures { OnOk result (out.new.items ≡ out.old.items ++ name_in escape.Html section text.now ++ codes "\n") }
{
    put_all(
        out,
        &[Piece::Name(Escape::Html, section, text), Piece::Text("\n")],
    )
}
