//! The texts of errors.
ghost use Rattle.std.specs.Prelude.{◌≡◌, ◌++◌, Some, codes};
ghost use Rattle.mercator.specs.ErrorText.{error_text, line_text, reason_text, web_text, seeds_text, list_text, script_text, crawl_text, finish_text, cert_text, site_text};

use crate::commands::error::CommandError;
use crawl_certificate::CertError;
use crawl_frontier::FinishError;
use crawl_replay::ScriptError;
use crawl_run::CrawlError;
use crawl_sources::SeedsError;
use mercator_site::FolderError;
use saved_web::WebError;
use site_files::ListError;
use std::fmt;
use std::fmt::Display;

/// The text of an error, with the file that it is about.
#[derive(Clone, Copy)]
pub struct ErrorText<'a> {
    /// The name of the file, with its hidden characters escaped.
    pub file: &'a str,
    /// The error.
    pub error: &'a CommandError,
}

impl fmt::Display for ErrorText<'_> {
    ghost output = { λ shown. Some (error_text shown.file.now shown.error.now) };

    fn fmt<W: fmt::Write>(&self, f: &mut fmt::Formatter<W>) -> fmt::Result {
        match self.error {
            CommandError::CannotRead => {
                let file = self.file;
                write!(f, "cannot read {file}")
            }
            CommandError::CannotReadSeeds => {
                let file = self.file;
                write!(f, "cannot read {file} (--seeds)")
            }
            CommandError::CannotReadIgnores => {
                let file = self.file;
                write!(f, "cannot read {file} (--ignore)")
            }
            CommandError::CannotReadIndex => {
                let file = self.file;
                write!(f, "cannot read {file} (--index)")
            }
            CommandError::CannotWrite => f.write_str("cannot write"),
            CommandError::CannotFix => {
                let file = self.file;
                write!(f, "cannot rewrite every file of {file}")
            }
            CommandError::NoMemory => f.write_str("out of memory"),
            CommandError::BadSuffix => f.write_str("bad suffix"),
            CommandError::Url(why) => {
                let why = *why;
                write!(f, "URL: {why}")
            }
            CommandError::Seed(number, why) => {
                let (number, why) = (*number, *why);
                write!(f, "seed {number}: {why}")
            }
            CommandError::Seeds(error) => About {
                what: "seeds",
                reason: seeds_reason(*error),
            }
            .fmt(f),
            CommandError::NoSeed => f.write_str(
                "seeds: no seed in the list or on the command line",
            ),
            CommandError::Web(error) => About {
                what: "saved web",
                reason: web_reason(*error),
            }
            .fmt(f),
            CommandError::Script(error) => About {
                what: "script",
                reason: script_reason(*error),
            }
            .fmt(f),
            CommandError::Crawl(failure) => CrawlText(failure.error).fmt(f),
            CommandError::Site(error) => SiteText {
                file: self.file,
                error,
            }
            .fmt(f),
            CommandError::Log(error) => {
                let (file, error) = (self.file, *error);
                write!(f, "log {file}: {error}")
            }
        }
    }
}

/// What is wrong, with the number of the line if it is wrong with one line.
#[derive(Clone, Copy)]
struct Reason {
    line: Option<u64>,
    reason: &'static str,
}

impl fmt::Display for Reason {
    ghost output = { λ shown. Some (reason_text shown.line shown.reason.now) };

    fn fmt<W: fmt::Write>(&self, f: &mut fmt::Formatter<W>) -> fmt::Result {
        let reason = self.reason;
        match self.line {
            Some(number) => write!(f, "line {number}: {reason}"),
            None => f.write_str(reason),
        }
    }
}

/// What is wrong, after the name of what it is wrong with.
#[derive(Clone, Copy)]
struct About {
    what: &'static str,
    reason: Reason,
}

impl fmt::Display for About {
    ghost output = { λ shown. Some (shown.what.now ++ codes ": " ++ reason_text shown.reason.line shown.reason.reason.now) };

    fn fmt<W: fmt::Write>(&self, f: &mut fmt::Formatter<W>) -> fmt::Result {
        let (what, reason) = (self.what, self.reason);
        write!(f, "{what}: {reason}")
    }
}

/// What is wrong with the line of this number.
fn at(number: u64, reason: &'static str) -> Reason
    ensures { reason_text result.line result.reason.now ≡ line_text number reason.now }
{
    Reason {
        line: Some(number),
        reason,
    }
}

/// What is wrong with no line in particular.
fn of_no_line(reason: &'static str) -> Reason
    ensures { reason_text result.line result.reason.now ≡ reason.now }
{
    Reason { line: None, reason }
}

/// What is wrong with a saved web.
fn web_reason(error: WebError) -> Reason
    ensures { reason_text result.line result.reason.now ≡ web_text error }
{
    match error {
        WebError::LineTooLong(number) => at(number, "line too long"),
        WebError::NotText(number) => at(number, "not UTF-8"),
        WebError::BadHeader => of_no_line("bad header"),
        WebError::BadLine(number) => at(number, "bad line"),
        WebError::LinkBeforePage(number) => at(number, "link before page"),
        WebError::MovedMixed(number) => at(number, "mixed page"),
        WebError::BadPageUrl(number) => at(number, "bad page URL"),
        WebError::PageTwice(number) => at(number, "page twice"),
        WebError::NoMemory => of_no_line("out of memory"),
    }
}

/// What is wrong with a file of seeds.
fn seeds_reason(error: SeedsError) -> Reason
    ensures { reason_text result.line result.reason.now ≡ seeds_text error }
{
    match error {
        SeedsError::LineTooLong(number) => at(number, "line too long"),
        SeedsError::NotText(number) => at(number, "not UTF-8"),
        SeedsError::NotUrl(number) => at(number, "not a URL"),
        SeedsError::NotHttp(number) => at(number, "not http or https"),
        SeedsError::NoMemory => of_no_line("out of memory"),
    }
}

/// What is wrong with a site list.
fn list_reason(error: ListError) -> Reason
    ensures { reason_text result.line result.reason.now ≡ list_text error }
{
    match error {
        ListError::LineTooLong(number) => at(number, "line too long"),
        ListError::NotText(number) => at(number, "not UTF-8"),
        ListError::BadLine(number) => at(number, "bad line"),
        ListError::NotUrl(number) => at(number, "not a URL"),
        ListError::NotHttp(number) => at(number, "not http or https"),
        ListError::BadFile(number) => at(number, "bad file name"),
        ListError::NoMemory => of_no_line("out of memory"),
    }
}

/// What is wrong with a script.
fn script_reason(error: ScriptError) -> Reason
    ensures { reason_text result.line result.reason.now ≡ script_text error }
{
    match error {
        ScriptError::LineTooLong(number) => at(number, "line too long"),
        ScriptError::NotText(number) => at(number, "not UTF-8"),
        ScriptError::BadHeader => of_no_line("bad header"),
        ScriptError::BadLine(number) => at(number, "bad line"),
        ScriptError::BadUrl(number) => at(number, "bad URL"),
        ScriptError::NoMemory => of_no_line("out of memory"),
    }
}

/// Why the result of a crawl is not certified.
fn cert_reason(error: CertError) -> Reason
    ensures { reason_text result.line result.reason.now ≡ cert_text error }
{
    match error {
        CertError::SeedMissing => of_no_line("seed missing"),
        CertError::NotFetched => of_no_line("page not fetched"),
        CertError::LinkMissing => of_no_line("link missing"),
        CertError::Unfounded => of_no_line("unfounded URL"),
        CertError::Twice => of_no_line("fetched twice"),
        CertError::NoMemory => of_no_line("out of memory"),
    }
}

#[derive(Clone, Copy)]
struct CrawlText(CrawlError);

impl fmt::Display for CrawlText {
    ghost output = { λ shown. Some (crawl_text shown.0) };

    fn fmt<W: fmt::Write>(&self, f: &mut fmt::Formatter<W>) -> fmt::Result {
        match self.0 {
            CrawlError::Frontier(error) => error.fmt(f),
            CrawlError::Run(error) => write!(f, "incomplete: {error}"),
            CrawlError::Finish(error) => {
                let text = FinishText(error);
                write!(f, "incomplete: {text}")
            }
            CrawlError::Cert(error) => About {
                what: "incomplete",
                reason: cert_reason(error),
            }
            .fmt(f),
            CrawlError::NoMemory => f.write_str("out of memory"),
        }
    }
}

#[derive(Clone, Copy)]
struct FinishText(FinishError);

impl fmt::Display for FinishText {
    ghost output = { λ shown. Some (finish_text shown.0) };

    fn fmt<W: fmt::Write>(&self, f: &mut fmt::Formatter<W>) -> fmt::Result {
        match self.0 {
            FinishError::MissingPart => f.write_str("part missing"),
            FinishError::Unsettled { .. } => f.write_str("gate not closed"),
            FinishError::Disagree { queue } => write!(f, "subqueue {queue} disagrees"),
            FinishError::NoMemory => f.write_str("out of memory"),
        }
    }
}

/// The text of an error about a folder with this name.
#[derive(Clone, Copy)]
struct SiteText<'a> {
    file: &'a str,
    error: &'a FolderError,
}

impl fmt::Display for SiteText<'_> {
    ghost output = { λ shown. Some (site_text shown.file.now shown.error.now) };

    fn fmt<W: fmt::Write>(&self, f: &mut fmt::Formatter<W>) -> fmt::Result {
        let file = self.file;
        match self.error {
            FolderError::CannotReadFolder => write!(f, "cannot read {file}: not a readable folder"),
            FolderError::BadBase => f.write_str(
                "BASE: must be the http or https URL of a folder, without a query, such as https://example.org/docs/",
            ),
            FolderError::BadHost => {
                f.write_str("BASE: the host may contain only letters, digits, - and .")
            }
            FolderError::NoFiles => write!(f, "{file}: no files"),
            FolderError::List(error) => About {
                what: "index",
                reason: list_reason(*error),
            }
            .fmt(f),
            FolderError::NoneListed => f.write_str("index: no URL below BASE"),
            FolderError::BadSeed => f.write_str("--seed: not a URL below BASE"),
            FolderError::CannotReadMap(folder) => write!(
                f,
                "cannot read {folder}: not a readable folder (--map)"
            ),
            FolderError::NoMapFiles(folder) => write!(f, "{folder}: no files (--map)"),
            FolderError::NoStart(link) => write!(f, "{link}: no such page to start at"),
            FolderError::NoDocuments => write!(
                f,
                "{file}: no HTML documents (if a generator makes the site, pass the folder that it writes)"
            ),
            FolderError::TooLarge => write!(f, "{file}: more than 1073741824 bytes of links"),
            FolderError::PagesLost => write!(f, "{file}: a page was lost; please report this bug"),
            FolderError::FileUnread => write!(f, "{file}: a file changed while it was checked"),
            FolderError::FileChanged => write!(
                f,
                "{file}: a link in a file changed while it was checked"
            ),
            FolderError::LinkLost => write!(f, "{file}: a link was lost; please report this bug"),
            FolderError::Crawl(failure) => CrawlText(failure.error).fmt(f),
            FolderError::NoMemory => f.write_str("out of memory"),
        }
    }
}
