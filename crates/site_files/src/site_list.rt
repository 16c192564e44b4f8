//! Site lists: the URLs of a site, one per line, each with its file or the target of its redirect.
ghost use Rattle.std.specs.Prelude.{◌≡◌, IfOk, Some, string_bytes, option_map};
ghost use Rattle.std.specs.Str.Lines.{lines};
ghost use Rattle.crawl_keys.specs.CanonicalText.{canonical};
ghost use Rattle.crawl_keys.specs.Outcome.{Gives};
ghost use Rattle.site_files.specs.SiteList.{checked, columns_in, content_of, error_of, fields, fields_in, is_bad_file, is_bad_name, is_path, kind_in, line_error, list_in, row, row_in, row_of, url_error, url_in};
ghost use Rattle.site_files.specs.declared.site_list.ListError.TheVariants as wrong;

use crate::kinds::{FileKind, kind_of_type};
use crawl_keys::{CanonUrl, KeyError, canonical};
use std::alloc::{AllocError, AllocFailed, Global};
use text_lines::{LineError, first_line, split_space, text_of};

/// Why bytes are not a site list, in the order of the checks of a line. Lines are numbered from 1.
#[derive(Clone, Copy, Debug, PartialEq, Eq)]
pub enum ListError {
    /// The line with this number has more than [`LINE_LIMIT`](text_lines::LINE_LIMIT) bytes.
    LineTooLong(u64),
    /// The line with this number is not UTF-8.
    NotText(u64),
    /// The line with this number is not empty, and does not have a URL, a type and a name, separated by spaces.
    BadLine(u64),
    /// The first field of the line with this number is not a URL.
    NotUrl(u64),
    /// The URL in the line with this number is neither `http` nor `https`.
    NotHttp(u64),
    /// The file in the line with this number is not a path below the folder.
    BadFile(u64),
    /// An allocation failed. This may replace any other result.
    NoMemory,
}

impl From<LineError> for ListError {
    ghost from_gives = { λ line error. error ≡ error_of line };

    fn from(line: LineError) -> ListError {
        match line {
            LineError::TooLong(number) => ListError::LineTooLong(number),
            LineError::NotText(number) => ListError::NotText(number),
        }
    }
}

impl From<AllocError> for ListError {
    ghost from_gives = { λ _ error. error ≡ wrong.NoMemory };

    fn from(_refused: AllocError) -> ListError {
        ListError::NoMemory
    }
}

impl<T: Drop> From<AllocFailed<T>> for ListError {
    ghost from_gives = { λ _ error. error ≡ wrong.NoMemory };

    fn from(_refused: AllocFailed<T>) -> ListError {
        ListError::NoMemory
    }
}

/// What a list has for a URL.
#[derive(Clone, Copy, Debug, PartialEq, Eq, Drop)]
pub(crate) enum Content {
    /// A file of this kind, or of none if it has no links.
    File(Option<FileKind>),
    /// A redirect.
    Redirect,
}

impl Content {
    /// The kind of the file. A redirect has no links.
    pub(crate) fn kind(self) -> Option<FileKind>
        ensures { result ≡ kind_in self }
    {
        match self {
            Content::File(kind) => kind,
            Content::Redirect => None,
        }
    }
}

/// A URL of a list.
#[derive(Drop)]
pub(crate) struct ListedUrl {
    pub(crate) url: CanonUrl,
    pub(crate) content: Content,
}

/// The URLs of a site with their files and redirects, in the order of the lines.
#[derive(Drop)]
pub struct SiteList {
    pub(crate) urls: Vec<ListedUrl>,
    /// For each URL the path of its file in the folder, or the target of its redirect.
    pub(crate) names: Vec<String>,
}

/// Reads a site list. Empty lines are skipped.
///
/// # Errors
/// That of the first line that fails a check, and there the first of the checks, in the order of [`ListError`]; `NoMemory` if an
/// allocation failed.
pub fn read_site_list(alloc: Global, bytes: &[u8]) -> Result<SiteList, ListError>
    ensures { Gives ListError.NoMemory columns_in result (list_in (lines bytes.now)) }
{
    let mut urls = Vec::new(alloc);
    let mut names = Vec::new(alloc);
    let mut rest = bytes;
    let mut number: u64 = 0;
    while let Some((line, more)) = first_line(rest) {
        rest = more;
        number += 1;
        if let Some(found) = row_of(alloc, number, line)? {
            urls.push(found.listed)?;
            names.push(found.name)?;
        }
    }
    Ok(SiteList { urls, names })
}

/// A line of a list that is not empty.
#[derive(Drop)]
struct ListRow {
    listed: ListedUrl,
    name: String,
}

/// Reads the line with this number; `None` if it is empty.
fn row_of(alloc: Global, number: u64, line: &[u8]) -> Result<Option<ListRow>, ListError>
    ensures checks { Gives ListError.NoMemory (λ _. tt) result (checked (line_error number line.now)) }
    ensures row { IfOk result (λ found. option_map (λ r. row r.listed.content (string_bytes r.name) r.listed.url) found ≡ row_in line.now) }
{
    let text = text_of(number, line)?;
    if text.is_empty() {
        return Ok(None);
    }
    match fields_in(text) {
        Some(found) => Ok(Some(row_with(alloc, number, found)?)),
        None => Err(ListError::BadLine(number)),
    }
}

/// The line with this number, which has these fields.
fn row_with(alloc: Global, number: u64, found: Fields<'_>) -> Result<ListRow, ListError>
    ensures checks { Gives ListError.NoMemory (λ _. tt) result (checked (url_error number (fields found.entry.url.now found.entry.name.now found.entry.content) (canonical found.entry.url.now))) }
    ensures row { IfOk result (λ r. Some (row r.listed.content (string_bytes r.name) r.listed.url) ≡ row_of (fields found.entry.url.now found.entry.name.now found.entry.content)) }
{
    let Fields { url, content, name } = found;
    let url = url_of(alloc, number, url)?;
    if is_bad_file(content, name) {
        return Err(ListError::BadFile(number));
    }
    let name = String::from_str(alloc, name)?;
    let listed = ListedUrl { url, content };
    Ok(ListRow { listed, name })
}

/// The canonical URL of the first field of the line with this number.
fn url_of(alloc: Global, number: u64, text: &str) -> Result<CanonUrl, ListError>
    ensures { Gives ListError.NoMemory (λ url. url) result (url_in number (canonical text.now)) }
{
    match canonical(alloc, text) {
        Ok(url) => Ok(url),
        Err(KeyError::NotUrl) => Err(ListError::NotUrl(number)),
        Err(KeyError::NotHttp) => Err(ListError::NotHttp(number)),
        Err(KeyError::NoMemory) => Err(ListError::NoMemory),
    }
}

/// The fields of a line.
#[derive(Clone, Copy)]
struct Fields<'a> {
    url: &'a str,
    content: Content,
    name: &'a str,
}

/// The fields of a line: a URL, a type, and a name that is not empty, separated by spaces.
fn fields_in(text: &str) -> Option<Fields<'_>>
    ensures { option_map (λ f. fields f.url.now f.name.now f.content) result ≡ fields_in text.now }
{
    let (url, rest) = split_space(text)?;
    let (kind, name) = split_space(rest)?;
    if name.is_empty() {
        return None;
    }
    let content = content_of(kind)?;
    Some(Fields { url, content, name })
}

/// What is at a URL of this type: `redirect`, `-` if the type is unknown, or a media type.
fn content_of(kind: &str) -> Option<Content>
    ensures { result ≡ content_of kind.now }
{
    if kind == "redirect" {
        return Some(Content::Redirect);
    }
    if kind == "-" {
        return Some(Content::File(Some(FileKind::Unknown)));
    }
    if !kind.as_bytes().contains(&b'/') {
        return None;
    }
    Some(Content::File(kind_of_type(kind)))
}

/// Whether the name of a file is not a path below a folder.
fn is_bad_file(content: Content, name: &str) -> bool
    ensures { result ≡ is_bad_file content name.now }
{
    match content {
        Content::Redirect => false,
        Content::File(_) => !is_path(name),
    }
}

/// Whether a text is a relative path, and none of its names is empty, `.` or `..`.
fn is_path(file: &str) -> bool
    ensures { result ≡ is_path file.now }
{
    !file
        .as_bytes()
        .split(|byte| *byte == b'/')
        .any(|name| is_bad_name(name))
}

/// Whether a name in a path is empty or means another folder.
fn is_bad_name(name: &[u8]) -> bool
    ensures { result ≡ is_bad_name name.now }
{
    name.is_empty() || name == b".".as_slice() || name == b"..".as_slice()
}
