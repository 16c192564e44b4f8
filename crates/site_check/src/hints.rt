//! Why a page is missing: a symbolic link that is not followed, a rule that another server has, or a folder without an index file.
ghost use Rattle.std.specs.Prelude.{◌≡◌, ◌++◌, [], IfOk, OnOk, codes, unwrap_or, option_map, string_bytes};
ghost use Rattle.site_files.specs.Files.{name_at};
ghost use Rattle.site_check.specs.Hints.{fallback_text, hint_of, hint_text, index_text, marked, name_in};

use crawl_pages::NoMemory;
use site_files::{Hint, SiteFiles, split_name};
use std::alloc::Global;

/// The hint that is reported with the missing page at a URL, if there is one.
pub(crate) fn hint_of(
    alloc: Global,
    files: &SiteFiles<'_>,
    url: &str,
) -> Result<Option<String>, NoMemory>
    ensures { IfOk result (λ hint. option_map string_bytes hint ≡ hint_of files.now url.now) }
{
    match files.hint(alloc, url)? {
        Some(hint) => {
            let text = hint_text(alloc, files, hint)?;
            Ok(Some(text))
        }
        None => Ok(None),
    }
}

/// The file that is found and the option with which it is, that a folder has no index file, or where a symbolic link leads.
fn hint_text(alloc: Global, files: &SiteFiles<'_>, hint: Hint) -> Result<String, NoMemory>
    ensures { IfOk result (λ text. string_bytes text ≡ hint_text files.now hint) }
{
    match hint {
        Hint::HtmlFallback(index) => fallback_text(alloc, name_in(files, index)),
        Hint::IndexFile(index) => {
            let (path, query) = split_name(name_in(files, index), files.rules().queries);
            index_text(alloc, path, query)
        }
        Hint::LeadsOut => String::from_str(alloc, "a symbolic link out of the folder: --follow"),
        Hint::LeadsNowhere => String::from_str(alloc, "a symbolic link to nothing"),
        Hint::NoIndexFile => String::from_str(alloc, "the folder has no index file"),
    }
}

/// The name of the file with this index, which is that of a file.
fn name_in<'a>(files: &SiteFiles<'a>, index: usize) -> &'a str
    ensures { result.now ≡ name_in files.now index }
{
    files.name(index).unwrap_or("")
}

/// The hint for a page whose file has this name: the fallback finds it.
fn fallback_text(alloc: Global, name: &str) -> Result<String, NoMemory>
    ensures { IfOk result (λ text. string_bytes text ≡ fallback_text name.now) }
{
    let mut text = String::from_str(alloc, name)?;
    text.push_str(" exists: --fallback html")?;
    Ok(text)
}

/// The hint for a folder that has the file with this path and query: it is an index file under other rules, which name it without its query.
fn index_text(alloc: Global, path: &str, query: Option<&str>) -> Result<String, NoMemory>
    ensures { IfOk result (λ text. string_bytes text ≡ index_text path.now (option_map (λ q. q.now) query.entry)) }
{
    match path.rsplit_once('/') {
        Some((folder, file)) => folder_text(alloc, folder, file, query),
        None => folder_text(alloc, ".", path, query),
    }
}

/// The hint for a folder that has a file with this query.
fn folder_text(
    alloc: Global,
    folder: &str,
    file: &str,
    query: Option<&str>,
) -> Result<String, NoMemory>
    ensures { IfOk result (λ text. string_bytes text ≡ folder.now ++ codes "/ has " ++ file.now ++ marked (option_map (λ q. q.now) query.entry) ++ codes ": --index-file " ++ file.now) }
{
    let mut text = String::from_str(alloc, folder)?;
    text.push_str("/ has ")?;
    text.push_str(file)?;
    push_query(&mut text, query)?;
    text.push_str(": --index-file ")?;
    text.push_str(file)?;
    Ok(text)
}

/// Appends a query after its question mark.
fn push_query(text: &mut String, query: Option<&str>) -> Result<(), NoMemory>
    ensures { OnOk result (string_bytes text.new ≡ string_bytes text.old ++ marked (option_map (λ q. q.now) query.entry)) }
{
    match query {
        Some(query) => {
            text.push('?')?;
            text.push_str(query)?;
            Ok(())
        }
        None => Ok(()),
    }
}
