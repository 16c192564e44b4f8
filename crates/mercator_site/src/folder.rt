//! A folder's saved web, and the report of its check.
ghost use Rattle.std.specs.Prelude.{◌≡◌, [], IfErr, IfOk, map, string_bytes, false, true};
ghost use Rattle.mercator_site.specs.Asks.{asks_in, asks_with, seeds_of};
ghost use Rattle.mercator_site.specs.Ends.{IsCheckOf, IsFolderCheck, front_of, name_of};
ghost use Rattle.mercator_site.specs.Errors.{IsSiteIncomplete, is_unfinished};
ghost use Rattle.mercator_site.specs.IndexUrls.{is_index_url};
ghost use Rattle.mercator_site.specs.Rules.{AreCheckRules, AreMapRules, AreRules, index_names};
ghost use Rattle.saved_site.specs.Below.{IsWebAt, IsWebBelow};
ghost use Rattle.saved_site.specs.Meaning.{IsSiteWeb};
ghost use Rattle.site_check.specs.Ignored.{entries_in};
ghost use Rattle.site_files.specs.Below.{IsTop};

use crate::check::{CheckReport, report_of_site};
use crate::error::FolderError;
use crate::index_url::is_index_url;
use crate::mapped::{MapNames, MappedFolder, map_names, mapped_folders, site_names};
use crate::options::{CheckOptions, SiteOptions};
use crate::seeds::seed_links;
use crate::settings::CheckSettings;
use saved_site::{OnDisk, Web, WebText, site_web};
use site_check::read_ignores;
use site_files::{FolderNames, Note, Rules, SiteFiles, SiteList, folder_names, read_site_list};
use std::alloc::{AllocError, Global};
use std::fs::Files;
use std::sync::Wait;
use std::thread::Threads;

/// The number of threads that read documents.
const THREADS: usize = 4;

/// The rules by which names become pages, without anchors and positions. A site list has the exact URL of each page.
fn rules_of(alloc: Global, options: &SiteOptions) -> Result<Rules, AllocError>
    ensures { IfOk result (AreRules options.now) }
{
    Ok(Rules {
        index_files: index_files(alloc, options.index_files.as_slice())?,
        html_fallback: options.html_fallback,
        queries: options.queries,
        exact: options.exact || options.index.is_some(),
        follow: options.follow,
        anchors: false,
        places: false,
        styles: options.styles,
        sniff: options.sniff || options.index.is_some(),
        rooted: false,
        threads: THREADS,
    })
}

/// The names of index files that are given or, if there are none, the usual ones.
fn index_files(alloc: Global, given: &[String]) -> Result<Vec<String>, AllocError>
    ensures { IfOk result (λ names. map string_bytes names.items ≡ index_names (map string_bytes given.now)) }
{
    match given {
        [] => usual_index_files(alloc),
        [_, ..] => copies(alloc, given),
    }
}

/// Copies of these texts.
fn copies(alloc: Global, texts: &[String]) -> Result<Vec<String>, AllocError>
    ensures { IfOk result (λ copies. map string_bytes copies.items ≡ map string_bytes texts.now) }
{
    let mut copies = Vec::new(alloc);
    for text in texts {
        copies.push(String::from_str(alloc, text.as_str())?)?;
    }
    Ok(copies)
}

/// The usual names of index files.
fn usual_index_files(alloc: Global) -> Result<Vec<String>, AllocError>
    ensures { IfOk result (λ names. map string_bytes names.items ≡ index_names []) }
{
    let mut names = Vec::new(alloc);
    names.push(String::from_str(alloc, "index.html")?)?;
    names.push(String::from_str(alloc, "index.htm")?)?;
    names.push(String::from_str(alloc, "index.xhtml")?)?;
    Ok(names)
}

/// The rules of a check: with the positions of links, and with anchors if they are checked. Without BASE, the root is the top.
fn check_rules(alloc: Global, options: &CheckOptions) -> Result<Rules, AllocError>
    ensures { IfOk result (AreCheckRules options.now) }
{
    let mut rules = rules_of(alloc, &options.site)?;
    rules.anchors = options.anchors;
    rules.places = true;
    rules.rooted = options.paths;
    Ok(rules)
}

/// The rules of the folders of maps: those of a check, but no site list has their URLs.
fn map_rules(alloc: Global, options: &SiteOptions) -> Result<Rules, AllocError>
    ensures { IfOk result (AreMapRules options.now) }
{
    let mut rules = rules_of(alloc, options)?;
    rules.exact = options.exact;
    Ok(rules)
}

/// What a check makes of its options and of the ignore list before it reads any names.
#[derive(Drop)]
pub(crate) struct FolderSettings {
    /// The rules of the folder.
    pub(crate) rules: Rules,
    /// The rules of the folders of maps.
    map_rules: Rules,
    /// The links at which the search starts.
    pub(crate) seeds: Vec<String>,
    /// The entries of the ignore list.
    pub(crate) ignores: Vec<String>,
}

/// What a check makes of these options, and of the bytes of an ignore list.
pub(crate) fn folder_settings(
    alloc: Global,
    options: &CheckOptions,
    ignores: &[u8],
) -> Result<FolderSettings, AllocError>
    ensures rules { IfOk result (λ made. AreCheckRules options.now made.rules) }
    ensures map_rules { IfOk result (λ made. AreMapRules options.now.site made.map_rules) }
    ensures seeds { IfOk result (λ made. map string_bytes made.seeds.items ≡ seeds_of options.now) }
    ensures ignores { IfOk result (λ made. map string_bytes made.ignores.items ≡ entries_in ignores.now) }
{
    let rules = check_rules(alloc, options)?;
    let map_rules = map_rules(alloc, &options.site)?;
    let seeds = seed_links(alloc, options.paths, options.seeds.as_slice())?;
    let entries = read_ignores(alloc, ignores)?;
    Ok(FolderSettings {
        rules,
        map_rules,
        seeds,
        ignores: entries,
    })
}

/// The names of a site's files: those in a folder, or those of a site list.
#[derive(Drop)]
pub(crate) enum Names {
    Folder(FolderNames),
    List(SiteList),
}

/// The names in a folder, or those in the bytes of a site list. Appends a note about each name in the folder that is skipped.
pub(crate) fn names_of<R: Files<File: Send, Dir: Send> + Threads + Sync>(
    rt: &R,
    alloc: Global,
    folder: &str,
    rules: &Rules,
    list: Option<&[u8]>,
    notes: &mut Vec<Note>,
) -> Result<Names, FolderError>
    ensures { IfErr result (λ error. is_unfinished error ≡ false) }
{
    if let Some(bytes) = list {
        return Ok(Names::List(read_site_list(alloc, bytes)?));
    }
    let mut names = folder_names(rt, alloc, folder, rules)?;
    notes.append(&mut names.notes)?;
    Ok(Names::Folder(names))
}

/// The pages of a site with these names.
///
/// # Errors
/// `BadBase`, also if BASE is the URL of an index file; `NoFiles`, `NoneListed`, `NoMemory`.
pub(crate) fn files_of<'a>(
    alloc: Global,
    names: &'a Names,
    base: &'a str,
    rules: &'a Rules,
) -> Result<SiteFiles<'a>, FolderError>
    ensures top { IfOk result (λ files. IsTop base.now (string_bytes files.site.top)) }
    ensures url { IfOk result (λ files. files.site.top_url ≡ string_bytes files.site.top) }
    ensures by_rules { IfOk result (λ files. files.rules.now ≡ rules.now) }
    ensures folder { IfOk result (λ _. is_index_url base.now rules.now.index_files.items ≡ false) }
    ensures plain { IfErr result (λ error. is_unfinished error ≡ false) }
{
    if is_index_url(base.as_bytes(), rules.index_files.as_slice()) {
        return Err(FolderError::BadBase);
    }
    match names {
        Names::Folder(found) => Ok(SiteFiles::new(alloc, site_names(found, base, rules))?),
        Names::List(list) => Ok(SiteFiles::listed(alloc, list, base, rules)?),
    }
}

/// Makes the saved web of a folder. `list` has the bytes of the site list, if the options name one. Appends a note about everything that
/// is skipped or changed.
///
/// # Errors
/// `CannotReadFolder`, `List`, `BadBase`, `NoFiles`, `NoneListed`, `TooLarge`, `NoMemory`. The notes about the names of the folder stay
/// after an error.
pub fn web_of_folder<R: Files<File: Send, Dir: Send> + Threads + Sync>(
    rt: &R,
    alloc: Global,
    options: &SiteOptions,
    list: Option<&[u8]>,
    notes: &mut Vec<Note>,
) -> Result<WebText, FolderError>
    ensures web { IfOk result IsSiteWeb }
    ensures below { IfOk result (IsWebAt (string_bytes options.now.base)) }
    ensures plain { IfErr result (λ error. is_unfinished error ≡ false) }
{
    let rules = rules_of(alloc, options)?;
    let names = names_of(rt, alloc, options.folder.as_str(), &rules, list, notes)?;
    web_of_names(rt, alloc, options, &rules, &names, notes)
}

/// Makes the saved web of a folder with these names.
fn web_of_names<R: Files<File: Send, Dir: Send> + Threads + Sync>(
    rt: &R,
    alloc: Global,
    options: &SiteOptions,
    rules: &Rules,
    names: &Names,
    notes: &mut Vec<Note>,
) -> Result<WebText, FolderError>
    ensures web { IfOk result IsSiteWeb }
    ensures below { IfOk result (IsWebAt (string_bytes options.now.base)) }
    ensures plain { IfErr result (λ error. is_unfinished error ≡ false) }
{
    let files = files_of(alloc, names, options.base.as_str(), rules)?;
    web_of_files(rt, alloc, options.folder.as_str(), &files, notes)
}

/// Makes the saved web of a folder with these files.
fn web_of_files<R: Files<File: Send, Dir: Send> + Threads + Sync>(
    rt: &R,
    alloc: Global,
    folder: &str,
    files: &SiteFiles<'_>,
    notes: &mut Vec<Note>,
) -> Result<WebText, FolderError>
    ensures web { IfOk result IsSiteWeb }
    ensures below { IfOk result (IsWebBelow (string_bytes files.now.site.top)) }
    ensures plain { IfErr result (λ error. is_unfinished error ≡ false) }
{
    let bytes = OnDisk { rt, alloc, folder };
    let Web {
        text,
        notes: mut found,
    } = site_web(rt, alloc, files, &[], &bytes)?;
    notes.append(&mut found)?;
    Ok(text)
}

/// Checks a folder. `list` has the bytes of the site list, if the options name one. `ignores` has the bytes of an ignore list: the
/// targets that equal or begin with one of its lines are ignored. Appends a note about everything that is skipped or changed.
///
/// # Errors
/// `CannotReadFolder`, `List`, `CannotReadMap`, `NoMapFiles`, `BadBase`, `NoFiles`, `NoneListed`, `BadSeed`, `NoStart`, `NoDocuments`,
/// `TooLarge`, `PagesLost`, `FileUnread`, `FileChanged`, `LinkLost`, `BadHost`, `NoMemory`; `Crawl` if the crawl is incomplete. The notes about the names of the folder stay
/// after an error.
pub fn report_of_folder<R: Files<File: Send, Dir: Send> + Threads + Wait + Sync>(
    rt: &R,
    alloc: Global,
    options: &CheckOptions,
    list: Option<&[u8]>,
    ignores: &[u8],
    notes: &mut Vec<Note>,
) -> Result<CheckReport, FolderError>
    ensures folder { IfOk result (λ report. IsFolderCheck options.now ignores.now report.is_broken report.text.items) }
    ensures incomplete { IfErr result (λ error. is_unfinished error ≡ true → IsSiteIncomplete options.now) }
{
    let made = folder_settings(alloc, options, ignores)?;
    let folder = options.site.folder.as_str();
    let names = names_of(rt, alloc, folder, &made.rules, list, notes)?;
    let maps = map_names(rt, alloc, options.maps.as_slice(), &made.map_rules)?;
    let read = ReadFolder {
        made: &made,
        names: &names,
        maps: maps.as_slice(),
    };
    report_of_names(rt, alloc, options, read, notes)
}

/// What a check knows before it looks at files: the names in a folder and in the folders of maps, and what it made of its options.
#[derive(Clone, Copy)]
struct ReadFolder<'a> {
    made: &'a FolderSettings,
    names: &'a Names,
    maps: &'a [MapNames<'a>],
}

/// Checks a folder whose names were read.
fn report_of_names<R: Files<File: Send, Dir: Send> + Threads + Wait + Sync>(
    rt: &R,
    alloc: Global,
    options: &CheckOptions,
    read: ReadFolder<'_>,
    notes: &mut Vec<Note>,
) -> Result<CheckReport, FolderError>
    requires rules { AreCheckRules options.now read.made.now.rules }
    requires map_rules { AreMapRules options.now.site read.made.now.map_rules }
    requires seeds { map string_bytes read.made.now.seeds.items ≡ seeds_of options.now }
    ensures checked { IfOk result (λ report. IsCheckOf options.now (map (λ one. one.map.now) read.entry.maps.now) (map string_bytes read.entry.made.now.ignores.items) report.is_broken report.text.items) }
    ensures incomplete { IfErr result (λ error. is_unfinished error ≡ true → IsSiteIncomplete options.now) }
{
    let base = options.site.base.as_str();
    let files = files_of(alloc, read.names, base, &read.made.rules)?;
    report_with_files(rt, alloc, options, read, &files, notes)
}

/// Checks a folder whose names were read, and which has these files.
fn report_with_files<'a, R: Files<File: Send, Dir: Send> + Threads + Wait + Sync>(
    rt: &R,
    alloc: Global,
    options: &'a CheckOptions,
    read: ReadFolder<'a>,
    files: &'a SiteFiles<'_>,
    notes: &mut Vec<Note>,
) -> Result<CheckReport, FolderError>
    requires rules { AreCheckRules options.now files.now.rules.now }
    requires map_rules { AreMapRules options.now.site read.made.now.map_rules }
    requires seeds { map string_bytes read.made.now.seeds.items ≡ seeds_of options.now }
    requires top { IsTop (string_bytes options.now.site.base) (string_bytes files.now.site.top) }
    requires url { files.now.site.top_url ≡ string_bytes files.now.site.top }
    ensures checked { IfOk result (λ report. IsCheckOf options.now (map (λ one. one.map.now) read.entry.maps.now) (map string_bytes read.entry.made.now.ignores.items) report.is_broken report.text.items) }
    ensures incomplete { IfErr result (λ error. is_unfinished error ≡ true → IsSiteIncomplete options.now) }
{
    let made = read.made;
    let folders = mapped_folders(alloc, read.maps, &made.map_rules)?;
    let found = FolderInput {
        top: files.top(),
        seeds: made.seeds.as_slice(),
        known: made.ignores.as_slice(),
        maps: folders.as_slice(),
    };
    let settings = settings_of(options, found);
    let folder = options.site.folder.as_str();
    let bytes = OnDisk { rt, alloc, folder };
    report_of_site(rt, alloc, files, &bytes, settings, notes)
}

/// What the settings of a check of a folder have that is not in its options.
#[derive(Clone, Copy)]
pub(crate) struct FolderInput<'a> {
    /// The URL of the top.
    pub(crate) top: &'a str,
    /// The links at which the search starts.
    pub(crate) seeds: &'a [String],
    /// The entries of the ignore list.
    pub(crate) known: &'a [String],
    /// The folders of the maps.
    pub(crate) maps: &'a [MappedFolder<'a>],
}

/// The settings of the check. Without BASE the site has the name of the folder, and URLs are printed without the top's URL.
pub(crate) fn settings_of<'a>(
    options: &'a CheckOptions,
    found: FolderInput<'a>,
) -> CheckSettings<'a>
    ensures asks { asks_in result ≡ asks_with options.now (map string_bytes found.entry.seeds.now) (front_of options.now found.entry.top.now) (map string_bytes found.entry.known.now) found.entry.maps.now }
    ensures workers { result.workers ≡ options.now.workers }
    ensures name { result.name.now ≡ name_of options.now found.entry.top.now }
{
    CheckSettings {
        workers: options.workers,
        name: name_of(options, found.top),
        front: front_of(options, found.top),
        ignores: found.known,
        seeds: found.seeds,
        reachable: options.reachable,
        scope: options.scope,
        rooted: options.paths,
        maps: found.maps,
        report: options.report,
        folder: options.site.folder.as_str(),
        source_url: options.source_url.as_str(),
    }
}

/// The name of the site: the folder if the report has paths, otherwise the URL of the top.
fn name_of<'a>(options: &'a CheckOptions, top: &'a str) -> &'a str
    ensures { result.now ≡ name_of options.now top.now }
{
    if options.paths {
        options.site.folder.as_str()
    } else {
        top
    }
}

/// The prefix that is removed from each URL.
fn front_of<'a>(options: &CheckOptions, top: &'a str) -> &'a str
    ensures { result.now ≡ front_of options.now top.now }
{
    if options.paths { top } else { "" }
}
