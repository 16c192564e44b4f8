//! A line of a report, and its two forms: a line of text, and a JSON object.
ghost use Rattle.std.specs.Prelude.{◌≡◌, ◌++◌, ◌∷◌, [], OnOk, IfOk, decimal, string_bytes, option_map};
ghost use Rattle.json.specs.Token.{begin_object, end_object};
ghost use Rattle.json.specs.Tree.{json_tokens};
ghost use Rattle.crawl_report.specs.ReportText.{moved_part};
ghost use Rattle.crawl_report.specs.Json.{json_of, json_line};
ghost use Rattle.crawl_report.specs.Lines as line;
ghost use Rattle.crawl_report.specs.Lines.{line_of, line_text, text_line};

use crate::as_json::{put_count, put_text, put_text_or_null, put_url};
use crawl_pages::NoMemory;
use itoa::Buffer;
use json::Writer;

/// What a line of a report says. URLs are texts.
#[derive(Clone, Copy)]
pub enum Row<'r> {
    /// A page was found.
    Page {
        url: &'r str,
        /// How many links it has, those that are skipped too.
        links: u128,
        skipped: u64,
    },
    /// The page has moved.
    Moved {
        url: &'r str,
    },
    /// There is no page.
    Missing {
        url: &'r str,
    },
    /// How many results there are; and how many found a page, are missing, and moved.
    Total {
        results: usize,
        found: usize,
        missing: usize,
        moved: usize,
    },
    /// How many URLs a queue had.
    Queue {
        queue: usize,
        urls: u64,
    },
    /// How many results link to the URL, and the least of their URLs.
    From {
        pages: u64,
        first: Option<&'r str>,
        url: &'r str,
    },
    /// A page that links to the URL.
    Link {
        page: &'r str,
        url: &'r str,
    },
    /// The URL to which the page at the URL moved, if it has one.
    To {
        target: Option<&'r str>,
        url: &'r str,
    },
    /// A page of the web that no result has.
    Unreached {
        url: &'r str,
    },
}

/// Puts the row's line at the end.
pub fn push_line(text: &mut String, row: Row<'_>) -> Result<(), NoMemory>
    ensures { OnOk result (string_bytes text.new ≡ string_bytes text.old ++ text_line (line_of row.entry)) }
{
    push_text(text, row)?;
    text.push('\n')
}

/// Appends the row's line without its LF.
fn push_text(text: &mut String, row: Row<'_>) -> Result<(), NoMemory>
    ensures { OnOk result (string_bytes text.new ≡ string_bytes text.old ++ line_text (line_of row.entry)) }
{
    match row {
        Row::Page {
            url,
            links,
            skipped,
        } => push_page(text, url, links, skipped),
        Row::Moved { url } => write!(text, "moved {url}"),
        Row::Missing { url } => write!(text, "missing {url}"),
        Row::Total {
            results,
            found,
            missing,
            moved,
        } => {
            write!(text, "total {results} ok {found} missing {missing}")?;
            push_moved(text, moved)
        }
        Row::Queue { queue, urls } => write!(text, "queue {queue} {urls}"),
        Row::From { pages, first, url } => {
            let first = first.unwrap_or("-");
            write!(text, "from {pages} {first} {url}")
        }
        Row::Link { page, url } => write!(text, "link {page} {url}"),
        Row::To { target, url } => {
            let target = target.unwrap_or("-");
            write!(text, "to {target} {url}")
        }
        Row::Unreached { url } => write!(text, "unreached {url}"),
    }
}

/// A page's line by its fields: nearly all lines are pages', and `write!` takes many times as long.
fn push_page(text: &mut String, url: &str, links: u128, skipped: u64) -> Result<(), NoMemory>
    ensures { OnOk result (string_bytes text.new ≡ string_bytes text.old ++ line_text (line.page url.now links skipped)) }
{
    text.push_str("ok ")?;
    push_count(text, links)?;
    text.push(' ')?;
    push_count(text, u128::from(skipped))?;
    text.push(' ')?;
    text.push_str(url)
}

/// Appends a count in decimal digits.
fn push_count(text: &mut String, count: u128) -> Result<(), NoMemory>
    ensures { OnOk result (string_bytes text.new ≡ string_bytes text.old ++ decimal count) }
{
    let mut buffer = Buffer::new();
    text.push_str(buffer.format(count))
}

/// Appends ` moved` and the number of pages that moved, or nothing if there are none.
fn push_moved(text: &mut String, count: usize) -> Result<(), NoMemory>
    ensures { OnOk result (string_bytes text.new ≡ string_bytes text.old ++ moved_part count) }
{
    if count == 0 {
        return Ok(());
    }
    write!(text, " moved {count}")
}

/// The bytes, and after them the row's object with no space, ended by LF.
pub fn with_json(text: Vec<u8>, row: Row<'_>) -> Result<Vec<u8>, NoMemory>
    ensures { IfOk result (λ more. more.items ≡ text.items ++ json_line (line_of row.entry)) }
{
    let mut out = Writer::new(text);
    out.begin_object()?;
    put_row(&mut out, row)?;
    out.end_object()?;
    let mut text = out.into_inner();
    text.push(b'\n')?;
    Ok(text)
}

/// Writes the members of the row. The caller starts and ends the object.
fn put_row(out: &mut Writer, row: Row<'_>) -> Result<(), NoMemory>
    requires { out.old.tokens ≡ begin_object ∷ [] }
    ensures tokens { OnOk result (out.new.tokens ++ end_object ∷ [] ≡ json_tokens (json_of (line_of row.entry))) }
    ensures before { out.new.before ≡ out.old.before }
{
    match row {
        Row::Page {
            url,
            links,
            skipped,
        } => put_page(out, url, links, skipped),
        Row::Moved { url } => put_url(out, "moved", url),
        Row::Missing { url } => put_url(out, "missing", url),
        Row::Total {
            results,
            found,
            missing,
            moved,
        } => put_total(out, results, found, missing, moved),
        Row::Queue { queue, urls } => put_queue(out, queue, urls),
        Row::From { pages, first, url } => put_from(out, pages, first, url),
        Row::Link { page, url } => put_link(out, page, url),
        Row::To { target, url } => put_to(out, target, url),
        Row::Unreached { url } => put_url(out, "unreached", url),
    }
}

/// Writes the members for a found page. `links` includes the links that are skipped.
fn put_page(out: &mut Writer, url: &str, links: u128, skipped: u64) -> Result<(), NoMemory>
    requires { out.old.tokens ≡ begin_object ∷ [] }
    ensures tokens { OnOk result (out.new.tokens ++ end_object ∷ [] ≡ json_tokens (json_of (line.page url.now links skipped))) }
    ensures before { out.new.before ≡ out.old.before }
{
    put_url(out, "ok", url)?;
    put_count(out, "links", links)?;
    put_count(out, "skipped", u128::from(skipped))
}

/// Writes the members for the total: the number of results, and how many are found, missing and moved.
fn put_total(
    out: &mut Writer,
    results: usize,
    found: usize,
    missing: usize,
    moved: usize,
) -> Result<(), NoMemory>
    requires { out.old.tokens ≡ begin_object ∷ [] }
    ensures tokens { OnOk result (out.new.tokens ++ end_object ∷ [] ≡ json_tokens (json_of (line.total results found missing moved))) }
    ensures before { out.new.before ≡ out.old.before }
{
    put_text(out, "kind", "total")?;
    put_count(out, "results", results as u128)?;
    put_count(out, "ok", found as u128)?;
    put_count(out, "missing", missing as u128)?;
    put_count(out, "moved", moved as u128)
}

/// Writes the members for a queue: its number, from 0, and how many URLs it had.
fn put_queue(out: &mut Writer, queue: usize, urls: u64) -> Result<(), NoMemory>
    requires { out.old.tokens ≡ begin_object ∷ [] }
    ensures tokens { OnOk result (out.new.tokens ++ end_object ∷ [] ≡ json_tokens (json_of (line.queue queue urls))) }
    ensures before { out.new.before ≡ out.old.before }
{
    put_text(out, "kind", "queue")?;
    put_count(out, "queue", queue as u128)?;
    put_count(out, "urls", u128::from(urls))
}

/// Writes the members for the sources of a URL: how many pages link to it, and the first of them, or null if none does.
fn put_from(out: &mut Writer, pages: u64, first: Option<&str>, url: &str) -> Result<(), NoMemory>
    requires { out.old.tokens ≡ begin_object ∷ [] }
    ensures tokens { OnOk result (out.new.tokens ++ end_object ∷ [] ≡ json_tokens (json_of (line.from pages (option_map (λ p. p.now) first.entry) url.now))) }
    ensures before { out.new.before ≡ out.old.before }
{
    put_text(out, "kind", "from")?;
    put_count(out, "pages", u128::from(pages))?;
    put_text_or_null(out, "first", first)?;
    put_text(out, "url", url)
}

/// Writes the members for a page that links to a URL whose sources are printed.
fn put_link(out: &mut Writer, page: &str, url: &str) -> Result<(), NoMemory>
    requires { out.old.tokens ≡ begin_object ∷ [] }
    ensures tokens { OnOk result (out.new.tokens ++ end_object ∷ [] ≡ json_tokens (json_of (line.link page.now url.now))) }
    ensures before { out.new.before ≡ out.old.before }
{
    put_text(out, "kind", "link")?;
    put_text(out, "page", page)?;
    put_text(out, "url", url)
}

/// Writes the members for a page that moved. `to` is null if the page has no target.
fn put_to(out: &mut Writer, target: Option<&str>, url: &str) -> Result<(), NoMemory>
    requires { out.old.tokens ≡ begin_object ∷ [] }
    ensures tokens { OnOk result (out.new.tokens ++ end_object ∷ [] ≡ json_tokens (json_of (line.to (option_map (λ p. p.now) target.entry) url.now))) }
    ensures before { out.new.before ≡ out.old.before }
{
    put_text(out, "kind", "to")?;
    put_text_or_null(out, "to", target)?;
    put_text(out, "url", url)
}
