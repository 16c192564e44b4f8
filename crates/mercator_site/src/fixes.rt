//! The files of a folder with links that a check can rewrite: those to redirects, and those to missing pages of which the site has one with
//! the same name.
use crate::check::{CrawledSite, checked_of, crawled_site};
use crate::crawl::crawl_site;
use crate::error::FolderError;
use crate::folder::{
    FolderInput, FolderSettings, Names, files_of, folder_settings, names_of, settings_of,
};
use crate::notes::push_page_notes;
use crate::options::CheckOptions;
use crate::settings::CheckSettings;
use crate::start::check_starts;
use check_report::{Broken, Kind, Place};
use crawl_keys::{CanonUrl, KeyError, canonical};
use crawl_pages::{Page, PageResult, links_of};
use document_links::{ReadOptions, Syntax};
use link_fixes::{DocumentFix, FixInput, Move, adds_slash, fix_document};
use saved_site::{LinkedSite, OnDisk, root_of, site_pages};
use site_files::{Body, FileBytes, FileKind, Note, SiteFiles, before_query};
use std::alloc::{AllocError, Global};
use std::collections::BTreeMap;
use std::fs::Files;
use std::sync::Wait;
use std::thread::Threads;

/// A file with links that can be rewritten.
#[derive(Drop)]
pub struct FileFix {
    /// The path of the file in the folder.
    pub file: String,
    /// The contents of the file.
    pub old: Vec<u8>,
    /// The new contents, and the numbers of links that were rewritten and that were not.
    pub fix: DocumentFix,
}

/// Checks a folder, and returns the files with links that can be rewritten, in the order of their names. Nothing is written. `ignores` has
/// the bytes of an ignore list. Appends a note about everything that is skipped or changed.
///
/// # Errors
/// Those of `report_of_folder`.
pub fn fixes_of_folder<R: Files<File: Send, Dir: Send> + Threads + Wait + Sync>(
    rt: &R,
    alloc: Global,
    options: &CheckOptions,
    ignores: &[u8],
    notes: &mut Vec<Note>,
) -> Result<Vec<FileFix>, FolderError> {
    let made = folder_settings(alloc, options, ignores)?;
    let folder = options.site.folder.as_str();
    let names = names_of(rt, alloc, folder, &made.rules, None, notes)?;
    fixes_of_names(rt, alloc, options, &made, &names, notes)
}

/// Checks a folder with these names, and returns the files with links that can be rewritten.
fn fixes_of_names<R: Files<File: Send, Dir: Send> + Threads + Wait + Sync>(
    rt: &R,
    alloc: Global,
    options: &CheckOptions,
    made: &FolderSettings,
    names: &Names,
    notes: &mut Vec<Note>,
) -> Result<Vec<FileFix>, FolderError> {
    let files = files_of(alloc, names, options.site.base.as_str(), &made.rules)?;
    // Links that lead out of the site are never rewritten, so the folders of maps are not read.
    let found = FolderInput {
        top: files.top(),
        seeds: made.seeds.as_slice(),
        known: made.ignores.as_slice(),
        maps: &[],
    };
    let settings = settings_of(options, found);
    let folder = options.site.folder.as_str();
    let bytes = OnDisk { rt, alloc, folder };
    fixes_of_site(rt, alloc, &files, &bytes, settings, notes)
}

/// Checks a site, and returns its files with links that can be rewritten.
fn fixes_of_site<R: Threads + Wait + Sync, B: FileBytes + Sync>(
    rt: &R,
    alloc: Global,
    files: &SiteFiles<'_>,
    bytes: &B,
    settings: CheckSettings<'_>,
    notes: &mut Vec<Note>,
) -> Result<Vec<FileFix>, FolderError> {
    check_starts(alloc, files, settings.seeds, settings.reachable)?;
    let site = site_pages(rt, alloc, files, settings.seeds, bytes)?;
    push_page_notes(alloc, notes, settings.front, site.notes.as_slice())?;
    fixes_of_pages(rt, alloc, &site, files, bytes, settings)
}

/// Crawls these pages of a site, and returns the files with links that can be rewritten.
fn fixes_of_pages<R: Threads + Wait + Sync, B: FileBytes + Sync>(
    rt: &R,
    alloc: Global,
    site: &LinkedSite,
    files: &SiteFiles<'_>,
    bytes: &B,
    settings: CheckSettings<'_>,
) -> Result<Vec<FileFix>, FolderError> {
    let top = files.top_url();
    let crawls = crawl_site(rt, alloc, &site.pages, files, top, settings)?;
    let crawled = crawled_site(site, &crawls, top);
    fixes_of_crawled(rt, alloc, crawled, files, bytes, settings)
}

/// Checks a site that was crawled, and returns the files with links that can be rewritten.
fn fixes_of_crawled<R: Threads + Sync, B: FileBytes + Sync>(
    rt: &R,
    alloc: Global,
    crawled: CrawledSite<'_>,
    files: &SiteFiles<'_>,
    bytes: &B,
    settings: CheckSettings<'_>,
) -> Result<Vec<FileFix>, FolderError> {
    let checked = checked_of(rt, alloc, crawled, files, bytes, settings)?;
    let rows = checked.broken.as_slice();
    let moves = moves_of(alloc, files, settings.front, crawled.own, rows)?;
    Ok(file_fixes(alloc, files, bytes, crawled.own, moves.as_slice())?)
}

/// A move of links that lead to the result with this number.
#[derive(Clone, Copy)]
struct Step {
    from: usize,
    /// What the links are moved to if the result is that of a missing page, and `None` if it is a redirect.
    namesake: Option<Namesake>,
}

/// The moves of links, by the URLs to which the links lead.
type Steps = BTreeMap<String, Step>;

/// The row of a missing page, and the page of the site with the same name, by their numbers.
#[derive(Clone, Copy)]
struct Namesake {
    row: usize,
    page: usize,
}

/// The pages with the same names, by the targets of the rows.
type Namesakes = BTreeMap<String, Namesake>;

/// A move of links in the page with this number.
#[derive(Clone, Copy)]
struct FileMove {
    /// The index of the page's file in the names.
    file: usize,
    page: usize,
    step: Step,
}

/// The moves of all links of these pages, in the order of their files, each once. `front` is removed from the URLs of the rows.
fn moves_of(
    alloc: Global,
    files: &SiteFiles<'_>,
    front: &str,
    results: &[PageResult],
    rows: &[Broken],
) -> Result<Vec<FileMove>, AllocError> {
    let steps = steps_of(alloc, files, front, results, rows)?;
    let mut moves = Vec::new(alloc);
    for one in results {
        push_page_moves(files, &steps, rows, one, &mut moves)?;
    }
    in_order(&mut moves)?;
    Ok(moves)
}

/// The moves of links to these results.
fn steps_of(
    alloc: Global,
    files: &SiteFiles<'_>,
    front: &str,
    results: &[PageResult],
    rows: &[Broken],
) -> Result<Steps, AllocError> {
    let namesakes = namesakes_in(alloc, files, front, rows)?;
    let mut steps = BTreeMap::new(alloc);
    for (from, one) in results.iter().enumerate() {
        if let Some(step) = step_of(alloc, files, front, &namesakes, from, one)? {
            let url = String::from_str(alloc, one.url.as_str())?;
            steps.insert(url, step)?;
        }
    }
    Ok(steps)
}

/// The pages with the same names as the targets of these rows, if links may be moved to them.
fn namesakes_in(
    alloc: Global,
    files: &SiteFiles<'_>,
    front: &str,
    rows: &[Broken],
) -> Result<Namesakes, AllocError> {
    let mut namesakes = BTreeMap::new(alloc);
    for (number, row) in rows.iter().enumerate() {
        if let Some(page) = namesake_of(alloc, files, front, row)? {
            let key = String::from_str(alloc, row.target.as_str())?;
            namesakes.insert(key, Namesake { row: number, page })?;
        }
    }
    Ok(namesakes)
}

/// The page with the same name as the target of a row, if links may be moved to it.
fn namesake_of(
    alloc: Global,
    files: &SiteFiles<'_>,
    front: &str,
    row: &Broken,
) -> Result<Option<usize>, AllocError> {
    let Some(name) = &row.same_name else {
        return Ok(None);
    };
    let target = row.target.as_str();
    if name.contains('?') || !is_certain(target, name.as_str()) || !may_move(files, row) {
        return Ok(None);
    }
    let url = format!(in alloc; "{front}{name}")?;
    Ok(files.find(url.as_str()))
}

/// Whether the target of a row surely means this page, by their URLs as they are reported: both have the same file name, or the same
/// path but for the case of ASCII letters.
fn is_certain(target: &str, name: &str) -> bool {
    let path = before_query(target);
    let file = file_name(name);
    // The URL of a folder ends with no file name.
    let is_same_file = !file.is_empty() && file_name(path) == file;
    is_same_file || path.eq_ignore_ascii_case(name)
}

/// What follows the last slash of a URL without a query.
fn file_name(url: &str) -> &str {
    match url.rsplit_once('/') {
        Some((_, name)) => name,
        None => url,
    }
}

/// Whether a row is that of a missing page, and links to it may be moved to a page with the same name. A name of index files says nothing
/// about a page. Without BASE, a path from the root may be meant for another folder of the host.
fn may_move(files: &SiteFiles<'_>, row: &Broken) -> bool {
    let is_elsewhere = files.rules().rooted && has_root_path(row.places.as_slice());
    let is_page = matches!(row.kind, Kind::NoPage);
    is_page && !is_elsewhere && !is_index(files, before_query(row.target.as_str()))
}

/// Whether one of the links at these locations is written as a path from the root.
fn has_root_path(places: &[Place]) -> bool {
    for place in places {
        if let Some(text) = &place.written {
            if matches!(text.as_bytes(), [b'/' | b'\\', ..]) {
                return true;
            }
        }
    }
    false
}

/// Whether a URL without a query ends with the name of an index file.
fn is_index(files: &SiteFiles<'_>, url: &str) -> bool {
    let name = file_name(url);
    for one in files.rules().index_files.as_slice() {
        if one.as_str() == name {
            return true;
        }
    }
    false
}

/// The move of links to the result with this number, if there is one.
fn step_of(
    alloc: Global,
    files: &SiteFiles<'_>,
    front: &str,
    namesakes: &Namesakes,
    from: usize,
    one: &PageResult,
) -> Result<Option<Step>, AllocError> {
    match &one.page {
        Page::Found { .. } => Ok(None),
        Page::Moved { to } => redirect_step(alloc, files, from, &one.url, to),
        Page::Missing => Ok(namesake_step(front, namesakes, from, one.url.as_str())),
    }
}

/// The move of links to a redirect, if the redirect only adds a slash to the path, and a server returns a file for its target.
fn redirect_step(
    alloc: Global,
    files: &SiteFiles<'_>,
    from: usize,
    url: &CanonUrl,
    to: &Option<CanonUrl>,
) -> Result<Option<Step>, AllocError> {
    let Some(to) = to else {
        return Ok(None);
    };
    if !adds_slash(url, to) || !has_file(alloc, files, to)? {
        return Ok(None);
    }
    Ok(Some(Step {
        from,
        namesake: None,
    }))
}

/// Whether a server returns a file for a URL.
fn has_file(alloc: Global, files: &SiteFiles<'_>, url: &CanonUrl) -> Result<bool, AllocError> {
    match files.served(alloc, url)? {
        Some(page) => Ok(files.own_url(page).is_some()),
        None => Ok(false),
    }
}

/// The move of links to a missing page, if there is a page with the same name.
fn namesake_step(front: &str, namesakes: &Namesakes, from: usize, url: &str) -> Option<Step> {
    let target = url.strip_prefix(front).unwrap_or(url);
    let namesake = *namesakes.get(target)?;
    Some(Step {
        from,
        namesake: Some(namesake),
    })
}

/// Appends the moves of the links of a result, if it is a page with a document. A link to a missing page is moved only if it is reported.
fn push_page_moves(
    files: &SiteFiles<'_>,
    steps: &Steps,
    rows: &[Broken],
    one: &PageResult,
    moves: &mut Vec<FileMove>,
) -> Result<(), AllocError> {
    let Some(page) = files.find(one.url.as_str()) else {
        return Ok(());
    };
    let Some(document) = files.document(page) else {
        return Ok(());
    };
    if syntax_of(document.kind).is_none() {
        return Ok(());
    }
    let file = document.index;
    for link in links_of(&one.page) {
        if let Some(step) = steps.get(link.as_str()) {
            if is_reported(rows, step.namesake, document.name) {
                let step = *step;
                moves.push(FileMove { file, page, step })?;
            }
        }
    }
    Ok(())
}

/// Whether the row of a missing page has a location in the file with this name, or it is no missing page.
fn is_reported(rows: &[Broken], namesake: Option<Namesake>, file: &str) -> bool {
    let Some(namesake) = namesake else {
        return true;
    };
    match rows.get(namesake.row) {
        Some(row) => has_place(row.places.as_slice(), file),
        None => false,
    }
}

/// Whether one of the locations, which are in the order of their files, is in the file with this name.
fn has_place(places: &[Place], file: &str) -> bool {
    places
        .binary_search_by(|place| place.file.as_str().cmp(file))
        .is_ok()
}

/// Sorts moves by file and old URL, and leaves each once. Results are in the order of their URLs.
fn in_order(moves: &mut Vec<FileMove>) -> Result<(), AllocError> {
    moves.sort_by(|a: &FileMove, b: &FileMove| {
        (a.file, a.step.from).cmp(&(b.file, b.step.from))
    })?;
    moves.dedup_by(|a: &mut FileMove, b: &mut FileMove| {
        a.file == b.file && a.step.from == b.step.from
    });
    Ok(())
}

/// The syntax of a file of this kind, if it is a document.
fn syntax_of(kind: FileKind) -> Option<Syntax> {
    match kind {
        FileKind::Html | FileKind::Unknown => Some(Syntax::Html),
        FileKind::Xml | FileKind::Svg => Some(Syntax::Xhtml),
        FileKind::Style | FileKind::Feed | FileKind::UrlList => None,
    }
}

/// The files with these moves, which are in the order of their files.
fn file_fixes<B: FileBytes>(
    alloc: Global,
    files: &SiteFiles<'_>,
    bytes: &B,
    results: &[PageResult],
    moves: &[FileMove],
) -> Result<Vec<FileFix>, AllocError> {
    let mut all = Vec::new(alloc);
    let mut rest = moves;
    for _ in 0..moves.len() {
        let (own, more) = split_file(rest);
        if let Some(fix) = fix_of(alloc, files, bytes, results, own)? {
            all.push(fix)?;
        }
        rest = more;
    }
    Ok(all)
}

/// The moves in the file of the first one, and those in the others.
fn split_file(moves: &[FileMove]) -> (&[FileMove], &[FileMove]) {
    let Some(first) = moves.first() else {
        return (&[], &[]);
    };
    for (index, one) in moves.iter().enumerate() {
        if one.file != first.file {
            return moves.split_at(index);
        }
    }
    (moves, &[])
}

/// The file of these moves, if there are some, it is a document, and it can be read.
fn fix_of<B: FileBytes>(
    alloc: Global,
    files: &SiteFiles<'_>,
    bytes: &B,
    results: &[PageResult],
    moves: &[FileMove],
) -> Result<Option<FileFix>, AllocError> {
    let Some(first) = moves.first() else {
        return Ok(None);
    };
    let Some(file) = files.document(first.page) else {
        return Ok(None);
    };
    let mut body = Body::new(alloc);
    if bytes.read(file, &mut body)?.is_some() {
        return Ok(None);
    }
    let steps = moves_at(alloc, files, results, moves)?;
    if steps.is_empty() {
        return Ok(None);
    }
    match fixed(alloc, files, first.page, body.as_slice(), steps.as_slice())? {
        Some(fix) => Ok(Some(file_fix(alloc, file.name, body.as_slice(), fix)?)),
        None => Ok(None),
    }
}

/// The file with this name, these contents, and these new contents.
fn file_fix(
    alloc: Global,
    name: &str,
    body: &[u8],
    fix: DocumentFix,
) -> Result<FileFix, AllocError> {
    let file = String::from_str(alloc, name)?;
    let old = body.to_vec(alloc)?;
    Ok(FileFix { file, old, fix })
}

/// The moves with their URLs.
fn moves_at(
    alloc: Global,
    files: &SiteFiles<'_>,
    results: &[PageResult],
    moves: &[FileMove],
) -> Result<Vec<Move>, AllocError> {
    let mut all = Vec::new(alloc);
    for one in moves {
        if let Some(from) = results.get(one.step.from) {
            push_move(alloc, files, from, one.step.namesake, &mut all)?;
        }
    }
    Ok(all)
}

/// Appends the move of links to a result.
fn push_move(
    alloc: Global,
    files: &SiteFiles<'_>,
    one: &PageResult,
    namesake: Option<Namesake>,
    moves: &mut Vec<Move>,
) -> Result<(), AllocError> {
    let found = match namesake {
        Some(namesake) => namesake_url(alloc, files, &one.url, namesake.page)?,
        None => redirect_url(&one.page)?,
    };
    if let Some(to) = found {
        let from = one.url.clone()?;
        moves.push(Move { from, to })?;
    }
    Ok(())
}

/// The URL to which a result redirects.
fn redirect_url(page: &Page) -> Result<Option<CanonUrl>, AllocError> {
    match page {
        Page::Moved { to: Some(to) } => Ok(Some(to.clone()?)),
        _ => Ok(None),
    }
}

/// The URL of the page with this number, with the query of another URL. `None` if a server returns another page for it.
fn namesake_url(
    alloc: Global,
    files: &SiteFiles<'_>,
    from: &CanonUrl,
    page: usize,
) -> Result<Option<CanonUrl>, AllocError> {
    let Some(url) = files.url(page) else {
        return Ok(None);
    };
    let Some((_, query)) = from.as_str().split_once('?') else {
        return Ok(Some(url.clone()?));
    };
    let path = url.as_str();
    let text = format!(in alloc; "{path}?{query}")?;
    let Some(url) = url_of(alloc, text.as_str())? else {
        return Ok(None);
    };
    if files.served(alloc, &url)? == Some(page) {
        Ok(Some(url))
    } else {
        Ok(None)
    }
}

/// The URL with this text, if it is one.
fn url_of(alloc: Global, text: &str) -> Result<Option<CanonUrl>, AllocError> {
    match canonical(alloc, text) {
        Ok(url) => Ok(Some(url)),
        Err(KeyError::NoMemory) => Err(AllocError),
        Err(_) => Ok(None),
    }
}

/// The document of the page with this number and these contents after moves of its links. `None` if the page is no document.
fn fixed<'a>(
    alloc: Global,
    files: &'a SiteFiles<'_>,
    page: usize,
    body: &[u8],
    moves: &'a [Move],
) -> Result<Option<DocumentFix>, AllocError> {
    let Some(file) = files.document(page) else {
        return Ok(None);
    };
    let (Some(url), Some(syntax)) = (files.own_url(page), syntax_of(file.kind)) else {
        return Ok(None);
    };
    let input = FixInput {
        url,
        options: options_of(files, syntax),
        moves,
    };
    Ok(Some(fix_document(alloc, body, input)?))
}

/// How a document in this syntax is read.
fn options_of<'a>(files: &'a SiteFiles<'_>, syntax: Syntax) -> ReadOptions<'a> {
    ReadOptions {
        syntax,
        styles: files.rules().styles,
        root: root_of(files),
        anchors: false,
        places: true,
        byte_limit: usize::MAX,
    }
}
