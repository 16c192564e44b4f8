//! The hint at another URL of the folder, or at a missing BASE.
ghost use Rattle.std.specs.Prelude.{◌++◌, ◌∷◌, ◌≡◌, IfOk, List, OnOk, Some, count_by, if◌then◌else◌, option_map, string_bytes, ℕ};
ghost use Rattle.std.specs.Option.{option_to_list};
ghost use Rattle.crawl_sources.specs.Tallies.{pointed};
ghost use Rattle.site_check.specs.Base.{hint_at};
ghost use Rattle.site_check.specs.LinkBase.{Cuts, after_slash, are_enough, base_hint_of, elsewhere_hint, first_hint, folder_to, folder_with, folders_to, foreign_hint, goes_below, has_file_at, hint_at_folder, hint_below, hint_in, hint_of_paths, hint_of_urls, hint_with_counts, hint_without_files, is_known, leads_to_file, link_hint, path_hint_of, root_hint, url_hint_of};

use crate::base::{has_folder, often_first, path_counts, root_paths};
use crate::own_fronts::{front_hint, own_hint};
use crate::page_links::{are_few_below, count_with, foreign_urls, link_urls};
use crate::shown::begins;
use crate::totals::number_of;
use check_report::{BaseHint, Broken};
use crawl_pages::{NoMemory, PageResult};
use site_files::SiteFiles;
use std::alloc::Global;

/// The folder or URL that BASE would name: by links, or else by the paths from the root that lead to missing pages.
pub(crate) fn base_hint(
    alloc: Global,
    rooted: bool,
    files: &SiteFiles<'_>,
    results: &[PageResult],
    rows: &[Broken],
) -> Result<Option<BaseHint>, NoMemory>
    ensures { IfOk result (λ hint. option_map hint_at hint ≡ base_hint_of rooted files.now results.now rows.now) }
{
    match url_hint(alloc, files, results, rows)? {
        Some(hint) => Ok(Some(hint)),
        None => path_hint(alloc, rooted, files, results, rows),
    }
}

/// The URL that BASE would name: by all links, or else by pages with a link to their own path, or by those without links below the top.
fn url_hint(
    alloc: Global,
    files: &SiteFiles<'_>,
    results: &[PageResult],
    rows: &[Broken],
) -> Result<Option<BaseHint>, NoMemory>
    ensures { IfOk result (λ hint. option_map hint_at hint ≡ url_hint_of files.now results.now rows.now) }
{
    match link_hint(alloc, files, results, rows)? {
        Some(hint) => Ok(Some(hint)),
        None => elsewhere_hint(alloc, files, results),
    }
}

/// The URL that BASE would name, by pages with a link to their own path, or else by those without links below the top.
fn elsewhere_hint(
    alloc: Global,
    files: &SiteFiles<'_>,
    results: &[PageResult],
) -> Result<Option<BaseHint>, NoMemory>
    ensures { IfOk result (λ hint. option_map hint_at hint ≡ elsewhere_hint files.now results.now) }
{
    match own_hint(alloc, files, results)? {
        Some(hint) => Ok(Some(hint)),
        None => foreign_hint(alloc, files, results),
    }
}

/// The hint at a URL with which many links in pages without a link below the top begin, such as a sitemap.
fn foreign_hint(
    alloc: Global,
    files: &SiteFiles<'_>,
    results: &[PageResult],
) -> Result<Option<BaseHint>, NoMemory>
    ensures { IfOk result (λ hint. option_map hint_at hint ≡ foreign_hint files.now results.now) }
{
    let urls = foreign_urls(alloc, files.top(), results)?;
    match hint_of_urls(alloc, files, urls.as_slice())? {
        Some(hint) => Ok(Some(front_hint(alloc, results, hint.folder.as_str())?)),
        None => Ok(None),
    }
}

/// The hint at a URL with which many links begin, unless at least half of the links begin with the top and lead to pages.
fn link_hint(
    alloc: Global,
    files: &SiteFiles<'_>,
    results: &[PageResult],
    rows: &[Broken],
) -> Result<Option<BaseHint>, NoMemory>
    ensures { IfOk result (λ hint. option_map hint_at hint ≡ link_hint files.now results.now rows.now) }
{
    if !are_few_below(files.top(), results, rows) {
        return Ok(None);
    }
    let all = link_urls(alloc, results)?;
    hint_of_urls(alloc, files, all.as_slice())
}

/// The folder that BASE would name, by the paths from the root that lead to missing pages, or its URL if BASE is given.
fn path_hint(
    alloc: Global,
    rooted: bool,
    files: &SiteFiles<'_>,
    results: &[PageResult],
    rows: &[Broken],
) -> Result<Option<BaseHint>, NoMemory>
    ensures { IfOk result (λ hint. option_map hint_at hint ≡ path_hint_of rooted files.now results.now rows.now) }
{
    let paths = root_paths(alloc, files.top(), rows)?;
    match root_hint(alloc, files, paths.as_slice())? {
        Some(hint) => hint_at_path(alloc, rooted, files, results, hint),
        None => Ok(None),
    }
}

/// The hint at a folder below the top: as a path from the root, or at its URL if BASE is given.
fn hint_at_path(
    alloc: Global,
    rooted: bool,
    files: &SiteFiles<'_>,
    results: &[PageResult],
    hint: BaseHint,
) -> Result<Option<BaseHint>, NoMemory>
    ensures { IfOk result (λ found. option_map hint_at found ≡ (if rooted then Some (after_slash (hint_at hint)) else hint_below files.now results.now (string_bytes hint.folder))) }
{
    if rooted {
        return Ok(Some(after_slash(alloc, hint)?));
    }
    hint_below(alloc, files, results, hint.folder.as_str())
}

/// The hint with a slash before its folder.
fn after_slash(alloc: Global, hint: BaseHint) -> Result<BaseHint, NoMemory>
    ensures { IfOk result (λ new. hint_at new ≡ after_slash (hint_at hint)) }
{
    let mut folder = String::from_str(alloc, "/")?;
    folder.push_str(hint.folder.as_str())?;
    Ok(BaseHint {
        folder,
        paths: hint.paths,
        of: hint.of,
    })
}

/// The hint at the URL of a folder below the top, if enough links begin with it and lead to files.
fn hint_below(
    alloc: Global,
    files: &SiteFiles<'_>,
    results: &[PageResult],
    folder: &str,
) -> Result<Option<BaseHint>, NoMemory>
    ensures { IfOk result (λ hint. option_map hint_at hint ≡ hint_below files.now results.now folder.now) }
{
    let text = url_below(alloc, files, folder)?;
    let url = text.as_str();
    let all = link_urls(alloc, results)?;
    let urls = all.as_slice();
    hint_in(alloc, files, urls, urls.len() as u64, url)
}

/// The URL of a folder below the top.
fn url_below(alloc: Global, files: &SiteFiles<'_>, folder: &str) -> Result<String, NoMemory>
    ensures { IfOk result (λ url. string_bytes url ≡ string_bytes files.now.site.top ++ folder.now) }
{
    let mut url = String::from_str(alloc, files.top())?;
    url.push_str(folder)?;
    Ok(url)
}

/// The hint at a folder in which most of the paths are: one without which they lead to files, or else their first folder.
fn root_hint(
    alloc: Global,
    files: &SiteFiles<'_>,
    paths: &[&str],
) -> Result<Option<BaseHint>, NoMemory>
    ensures { IfOk result (λ hint. option_map hint_at hint ≡ root_hint files.now (pointed paths.now)) }
{
    match hint_of_paths(alloc, files, paths)? {
        Some(hint) => Ok(Some(hint)),
        None => hint_at_folder(alloc, files, paths),
    }
}

/// The hint at a folder with one to six slashes in which most of the paths are, and without which they lead to files.
fn hint_of_paths(
    alloc: Global,
    files: &SiteFiles<'_>,
    paths: &[&str],
) -> Result<Option<BaseHint>, NoMemory>
    ensures { IfOk result (λ hint. option_map hint_at hint ≡ hint_of_paths files.now (pointed paths.now)) }
{
    first_hint(alloc, files, paths, paths.len() as u64, &[1, 2, 3, 4, 5, 6])
}

/// The hint at the first folder of most of the paths, unless the site has it.
fn hint_at_folder(
    alloc: Global,
    files: &SiteFiles<'_>,
    paths: &[&str],
) -> Result<Option<BaseHint>, NoMemory>
    ensures { IfOk result (λ hint. option_map hint_at hint ≡ hint_at_folder files.now (pointed paths.now)) }
{
    match folder_with(alloc, paths, paths.len() as u64, 1)? {
        Some(folder) => hint_without_files(alloc, files, paths, folder),
        None => Ok(None),
    }
}

/// The hint at a folder, unless the site has it.
fn hint_without_files(
    alloc: Global,
    files: &SiteFiles<'_>,
    paths: &[&str],
    folder: &str,
) -> Result<Option<BaseHint>, NoMemory>
    ensures { IfOk result (λ hint. option_map hint_at hint ≡ hint_without_files files.now (pointed paths.now) folder.now) }
{
    if is_known(files, folder) {
        return Ok(None);
    }
    let name = String::from_str(alloc, folder)?;
    Ok(Some(BaseHint {
        folder: name,
        paths: count_with(folder, paths),
        of: paths.len() as u64,
    }))
}

/// The hint at a URL with three to eight slashes with which many of these links begin. The third slash ends the host.
fn hint_of_urls(
    alloc: Global,
    files: &SiteFiles<'_>,
    urls: &[&str],
) -> Result<Option<BaseHint>, NoMemory>
    ensures { IfOk result (λ hint. option_map hint_at hint ≡ hint_of_urls files.now (pointed urls.now)) }
{
    first_hint(alloc, files, urls, urls.len() as u64, &[3, 4, 5, 6, 7, 8])
}

/// Whether the part is at least half of all, which are at least two.
fn are_enough(part: u64, of: u64) -> bool
    ensures { result ≡ are_enough part of }
{
    2 <= of && of.saturating_sub(part) <= part
}

/// The first hint at a URL with one of these numbers of slashes, which rise: if no URL with one of them begins enough links, none with more
/// slashes does.
#[tactic(auto, using(crate::proofs::LinkFolders::hint_here, crate::proofs::LinkFolders::hint_later, crate::proofs::LinkFolders::none_with, crate::proofs::LinkFolders::no_hint))]
fn first_hint(
    alloc: Global,
    files: &SiteFiles<'_>,
    urls: &[&str],
    of: u64,
    numbers: &[usize],
) -> Result<Option<BaseHint>, NoMemory>
    ensures { IfOk result (λ hint. option_map hint_at hint ≡ first_hint files.now (pointed urls.now) of numbers.now) }
{
    for slashes in numbers {
        let Some(folder) = folder_with(alloc, urls, of, *slashes)? else {
            return Ok(None);
        };
        match hint_in(alloc, files, urls, of, folder)? {
            Some(hint) => return Ok(Some(hint)),
            None => {}
        }
    }
    Ok(None)
}

/// The first URL with this number of slashes with which at least half and at least two of the links begin.
fn folder_with<'a>(
    alloc: Global,
    urls: &[&'a str],
    of: u64,
    slashes: usize,
) -> Result<Option<&'a str>, NoMemory>
    ensures { IfOk result (λ folder. option_map (λ f. f.now) folder ≡ folder_with (pointed urls.now) of slashes) }
{
    let folders = folders_to(alloc, urls, slashes)?;
    let those = folders.as_slice();
    let counts = path_counts(alloc, those)?;
    Ok(often_first(of, &counts, those))
}

/// The texts of URLs to their slashes with this number. URLs with fewer slashes have none.
#[tactic(auto, using(crate::proofs::LinkFolders::folders_more, crate::proofs::LinkFolders::folders_end))]
fn folders_to<'a>(alloc: Global, urls: &[&'a str], slashes: usize) -> Result<Vec<&'a str>, NoMemory>
    ensures { IfOk result (λ folders. pointed folders.items ≡ folders_to slashes (pointed urls.now)) }
{
    let mut folders = Vec::new(alloc);
    for url in urls {
        push_folder(*url, slashes, &mut folders)?;
    }
    Ok(folders)
}

/// Appends the text to the slash with this number, unless the URL has fewer slashes.
fn push_folder<'a>(url: &'a str, slashes: usize, folders: &mut Vec<&'a str>) -> Result<(), NoMemory>
    ensures { OnOk result (pointed folders.new.items ≡ pointed folders.old.items ++ option_to_list (folder_to slashes url.now)) }
{
    match folder_to(slashes, url) {
        Some(folder) => {
            folders.push(folder)?;
            Ok(())
        }
        None => Ok(()),
    }
}

/// The text to the end of its slash with this number. `None` if it has fewer slashes.
#[tactic(auto, using(crate::proofs::LinkFolders::front_none, crate::proofs::LinkFolders::stripped))]
fn folder_to(slashes: usize, url: &str) -> Option<&str>
    ensures { option_map (λ folder. folder.now) result ≡ folder_to slashes url.now }
{
    match rest_after(slashes, url) {
        Some(rest) => url.strip_suffix(rest),
        None => None,
    }
}

/// What is after the slash with this number. `None` if there are fewer slashes.
#[tactic(auto, using(crate::proofs::LinkFolders::rest_all))]
fn rest_after(slashes: usize, url: &str) -> Option<&str>
    ensures { Cuts (folder_to slashes url.now) url.now (option_map (λ rest. rest.now) result) }
{
    if slashes == 0 {
        return Some(url);
    }
    match url.split_once('/') {
        Some((part, rest)) => rest_after(slashes - 1, rest),
        None => None,
    }
}

/// The hint at a folder or URL, unless the site has it, or fewer than two links go below it, or fewer than half of those would lead to
/// files at the top.
#[tactic(auto, using(crate::proofs::LinkFolders::hint_at_known, crate::proofs::LinkFolders::hint_elsewhere))]
fn hint_in(
    alloc: Global,
    files: &SiteFiles<'_>,
    urls: &[&str],
    of: u64,
    folder: &str,
) -> Result<Option<BaseHint>, NoMemory>
    ensures { IfOk result (λ hint. option_map hint_at hint ≡ hint_in files.now (pointed urls.now) of folder.now) }
{
    if is_known(files, folder) {
        return Ok(None);
    }
    let paths = count_with(folder, urls);
    let longer = count_below(folder, urls);
    let found = count_files(alloc, files, folder, urls)?;
    hint_with_counts(alloc, of, folder, paths, longer, found)
}

/// Whether the site has a folder: the top begins with it, or a page after the top.
fn is_known(files: &SiteFiles<'_>, folder: &str) -> bool
    ensures { result ≡ is_known files.now folder.now }
{
    begins(folder, files.top()) || has_folder(files, folder)
}

/// The hint at a URL with these numbers of links, if of the `longer` ones that go below it enough lead to files.
fn hint_with_counts(
    alloc: Global,
    of: u64,
    folder: &str,
    paths: u64,
    longer: u64,
    found: u64,
) -> Result<Option<BaseHint>, NoMemory>
    ensures { IfOk result (λ hint. option_map hint_at hint ≡ hint_with_counts of folder.now paths longer found) }
{
    if !are_enough(found, longer) {
        return Ok(None);
    }
    let folder = String::from_str(alloc, folder)?;
    Ok(Some(BaseHint { folder, paths, of }))
}

/// The number of URLs that begin with the folder and do not end there.
#[tactic(auto, using(crate::proofs::LinkCounts::count_more, crate::proofs::LinkCounts::count_fits, crate::proofs::LinkCounts::count_end))]
fn count_below(folder: &str, urls: &[&str]) -> u64
    ensures { result ≡ count_by (goes_below folder.now) (pointed urls.now) }
{
    let mut count: u64 = 0;
    for url in urls {
        count += number_of(goes_below(folder, *url));
    }
    count
}

/// Whether a URL begins with the folder and does not end there.
fn goes_below(folder: &str, url: &str) -> bool
    ensures { result ≡ goes_below folder.now url.now }
{
    folder.len() < url.len() && begins(folder, url)
}

/// The number of URLs that go below the folder and lead to files if the folder is the top.
#[tactic(auto, using(crate::proofs::LinkCounts::count_more, crate::proofs::LinkCounts::count_fits, crate::proofs::LinkCounts::count_end))]
fn count_files(
    alloc: Global,
    files: &SiteFiles<'_>,
    folder: &str,
    urls: &[&str],
) -> Result<u64, NoMemory>
    ensures { IfOk result (λ count. count ≡ count_by (leads_to_file files.now folder.now) (pointed urls.now)) }
{
    let mut count: u64 = 0;
    for url in urls {
        let is_counted = leads_to_file(alloc, files, folder, *url)?;
        count += number_of(is_counted);
    }
    Ok(count)
}

/// Whether a URL goes below the folder, and is that of a file if the folder is the top.
#[tactic(auto, using(crate::proofs::LinkFolders::leads_on, crate::proofs::LinkFolders::leads_off))]
fn leads_to_file(
    alloc: Global,
    files: &SiteFiles<'_>,
    folder: &str,
    url: &str,
) -> Result<bool, NoMemory>
    ensures { IfOk result (λ leads. leads ≡ leads_to_file files.now folder.now url.now) }
{
    match url.strip_prefix(folder) {
        Some(path) => has_file_at(alloc, files, path),
        None => Ok(false),
    }
}

/// Whether a file has the URL of this path from the top. The path is not empty.
fn has_file_at(alloc: Global, files: &SiteFiles<'_>, path: &str) -> Result<bool, NoMemory>
    ensures { IfOk result (λ has. has ≡ has_file_at files.now path.now) }
{
    if path.is_empty() {
        return Ok(false);
    }
    let mut url = String::from_str(alloc, files.top())?;
    url.push_str(path)?;
    Ok(files.file_of(url.as_str()).is_some())
}
