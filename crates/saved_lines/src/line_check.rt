//! The checks of a line of a saved web, and the page that it adds.
ghost use Rattle.std.specs.Prelude.{◌≡◌, true, false, Some, Ok, OnOk, IfOk, IsUtf8, is_some};
ghost use Rattle.crawl_keys.specs.CanonicalText.{canonical};
ghost use Rattle.crawl_keys.specs.Outcome.{Gives};
ghost use Rattle.std.specs.Result.{result_ok};
ghost use Rattle.text_lines.specs.FirstLine.{after_line, line_in};
ghost use Rattle.text_lines.specs.Lines.{text_of};
ghost use Rattle.saved_pages.specs.WebChecks.{header_of, page_error, under_error, line_error, Reports};
ghost use Rattle.saved_pages.specs.WebLines.{page_url, is_page};
ghost use Rattle.saved_pages.specs.PageLists.{has};
ghost use Rattle.saved_lines.specs.AddedPages.{kept_before, Adds, Follows};

use crawl_keys::{KeyError, canonical, is_canonical};
use saved_pages::{KnownPage, Line, Pages, WebError, line_of};
use std::alloc::Global;
use text_lines::{short_text, split_line, text_of};

/// What the checks of a line need to know about the lines above it, in addition to the pages and the line's number.
#[derive(Clone, Copy)]
pub struct Above {
    /// The web has version 2.
    pub second: bool,
    /// A link is under the last page.
    pub link: bool,
    /// A moved line is under the last page.
    pub moved: bool,
}

impl Above {
    /// Returns what is known before the first line.
    pub fn nothing() -> Above
        ensures { result ≡ record { second = false; link = false; moved = false } }
    {
        Above {
            second: false,
            link: false,
            moved: false,
        }
    }

    /// Returns what is known after the first line, which has the version.
    fn in_version(self, second: bool) -> Above
        ensures { result ≡ record self { second = second } }
    {
        Above { second, ..self }
    }

    /// Returns what is known after a page line: the page has no links and has not moved. The version stays.
    fn under_new_page(self) -> Above
        ensures { result ≡ record { second = self.second; link = false; moved = false } }
    {
        Above {
            link: false,
            moved: false,
            ..self
        }
    }

    /// Returns what is known after a link.
    fn with_link(self) -> Above
        ensures { result ≡ record self { link = true } }
    {
        Above { link: true, ..self }
    }

    /// Returns what is known after a moved line.
    fn with_moved(self) -> Above
        ensures { result ≡ record self { moved = true } }
    {
        Above {
            moved: true,
            ..self
        }
    }
}

/// Checks the line with this number, which is the first line of `rest`. If it is a page, adds the page. `pages` are those of the
/// lines above it. Returns what the checks of the next line need to know.
pub fn add_line<'a>(
    alloc: Global,
    pages: &mut Pages<'a>,
    number: u64,
    above: Above,
    line: &str,
    rest: &'a str,
) -> Result<Above, WebError>
    ensures reports { Reports result (line_error (kept_before number pages.old above) line.now) }
    ensures adds { OnOk result (Adds pages.old pages.new (page_url line.now) (after_line rest.now)) }
    // A page line that passes the checks has a URL.
    ensures page { OnOk result (is_page line.now ≡ is_some (page_url line.now)) }
    ensures follows { IfOk result (λ new. Follows number line.now above new) }
{
    let text = short_text(number, line)?;
    add_text(alloc, pages, number, above, text, rest)
}

/// Like [`add_line`], for a line that may not be UTF-8. The page that it adds ends with the line, so the result is of use only for
/// the checks of later lines.
pub fn check_line<'a>(
    alloc: Global,
    pages: &mut Pages<'a>,
    number: u64,
    above: Above,
    line: &'a [u8],
) -> Result<Above, WebError>
    ensures reports { Reports result (line_error (kept_before number pages.old above) line.now) }
    ensures adds { OnOk result (Adds pages.old pages.new (page_url line.now) (after_line line.now)) }
    ensures page { OnOk result (is_page line.now ≡ is_some (page_url line.now)) }
    ensures follows { IfOk result (λ new. Follows number line.now above new) }
    ensures utf8 { OnOk result (IsUtf8 line.now) }
{
    let text = text_of(number, line)?;
    add_text(alloc, pages, number, above, text, text)
}

/// Like [`add_line`], for a line with this text.
fn add_text<'a>(
    alloc: Global,
    pages: &mut Pages<'a>,
    number: u64,
    above: Above,
    text: &str,
    rest: &'a str,
) -> Result<Above, WebError>
    requires { text_of number text.now ≡ Ok text.now }
    ensures reports { Reports result (line_error (kept_before number pages.old above) text.now) }
    ensures adds { OnOk result (Adds pages.old pages.new (page_url text.now) (after_line rest.now)) }
    ensures page { OnOk result (is_page text.now ≡ is_some (page_url text.now)) }
    ensures follows { IfOk result (λ new. Follows number text.now above new) }
{
    if number == 1 {
        return Ok(above.in_version(header(text)?));
    }
    match line_of(text) {
        Line::Page(url) => {
            add_page(alloc, pages, number, url, rest)?;
            Ok(above.under_new_page())
        }
        Line::Link(_) => {
            check_under(number, !pages.is_empty(), above.moved)?;
            Ok(above.with_link())
        }
        Line::Moved(_) if !above.second => Err(WebError::BadLine(number)),
        Line::Moved(_) => {
            check_under(number, !pages.is_empty(), above.link || above.moved)?;
            Ok(above.with_moved())
        }
        Line::Empty => Ok(above),
        Line::Other => Err(WebError::BadLine(number)),
    }
}

/// Returns whether the first line, which is this text, says version 2.
pub fn header(text: &str) -> Result<bool, WebError>
    ensures { Gives WebError.NoMemory (λ second. second) result (header_of text.now) }
{
    match text {
        "savedweb 1" => Ok(false),
        "savedweb 2" => Ok(true),
        _ => Err(WebError::BadHeader),
    }
}

/// Adds the page whose URL is written in this text.
fn add_page<'a>(
    alloc: Global,
    pages: &mut Pages<'a>,
    number: u64,
    text: &str,
    rest: &'a str,
) -> Result<(), WebError>
    ensures reports { Reports result (page_error number (has pages.old) (canonical text.now)) }
    ensures adds { OnOk result (Adds pages.old pages.new (result_ok (canonical text.now)) (after_line rest.now)) }
{
    let following = after_word(rest);
    if is_written(text, following) {
        return add_known(pages, number, KnownPage::written(following));
    }
    match canonical(alloc, text) {
        Ok(url) => add_known(pages, number, KnownPage::new(alloc, url, following)?),
        Err(KeyError::NoMemory) => Err(WebError::NoMemory),
        Err(KeyError::NotUrl | KeyError::NotHttp) => Err(WebError::BadPageUrl(number)),
    }
}

/// Adds a page, which is on the line with this number, unless there is a page with its URL.
fn add_known<'a>(pages: &mut Pages<'a>, number: u64, page: KnownPage<'a>) -> Result<(), WebError>
    ensures reports { Reports result (page_error number (has pages.old) (Ok page.entry.url)) }
    ensures adds { OnOk result (Adds pages.old pages.new (Some page.entry.url) page.entry.following) }
{
    if pages.add(page)? {
        Ok(())
    } else {
        Err(WebError::PageTwice(number))
    }
}

/// Whether the text is a canonical URL and is also the first line of `following`. `false` means unknown.
fn is_written(text: &str, following: &str) -> bool
    ensures url { result ≡ true → canonical text.now ≡ Ok text.now }
    ensures line { result ≡ true → line_in following.now ≡ text.now }
{
    is_canonical(text) && split_line(following).0 == text
}

/// Returns the text after `page` and a space at its start, or the whole text if it does not start so. The lines after the first are
/// the same.
#[tactic(auto, using(text_lines::proofs::CutLines::after_page))]
fn after_word(rest: &str) -> &str
    ensures { after_line result.now ≡ after_line rest.now }
{
    match rest.strip_prefix("page ") {
        Some(text) => text,
        None => rest,
    }
}

/// Checks a line that needs a page above it. `mixed` says that the lines under that page exclude this line.
fn check_under(number: u64, some_page: bool, mixed: bool) -> Result<(), WebError>
    ensures { Reports result (under_error number some_page mixed) }
{
    if !some_page {
        return Err(WebError::LinkBeforePage(number));
    }
    if mixed {
        return Err(WebError::MovedMixed(number));
    }
    Ok(())
}
