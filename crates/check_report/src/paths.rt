//! The paths of files in annotations, JUnit XML and SARIF, and links to their sources.
ghost use Rattle.std.specs.Prelude.{◌≡◌, ◌-◌, ◌++◌, IfOk, length, slice_get, string_bytes};
ghost use Rattle.check_report.specs.Paths.{base_url, front_path, path_in, path_uri, slash_after, without_here};

use crate::put::NoMemory;
use percent_encoding::{AsciiSet, NON_ALPHANUMERIC, ascii_set, percent_encode};
use std::alloc::Global;

/// The bytes that are escaped in the path of a URL: all but letters, digits, `-`, `.`, `_`, `~` and `/`.
pub const PATH: AsciiSet = ascii_set!(
    NON_ALPHANUMERIC
        .remove(b'-')
        .remove(b'.')
        .remove(b'_')
        .remove(b'~')
        .remove(b'/')
);

/// The folder without a leading `./`.
pub fn without_here(folder: &str) -> &str
    ensures { result.now ≡ without_here folder.now }
{
    folder.strip_prefix("./").unwrap_or(folder)
}

/// The slash to put after the folder, if it does not end with one.
pub fn slash_after(folder: &str) -> &'static str
    ensures { result.now ≡ slash_after (slice_get folder.now (length folder.now - 1)) }
{
    match folder.as_bytes().last() {
        None | Some(b'/') => "",
        Some(_) => "/",
    }
}

/// The path of a file in a folder.
pub fn path_in(alloc: Global, folder: &str, file: &str) -> Result<String, NoMemory>
    ensures { IfOk result (λ path. string_bytes path ≡ path_in folder.now file.now) }
{
    let mut path = front_path(alloc, without_here(folder))?;
    path.push_str(file)?;
    Ok(path)
}

/// A folder and a slash, or nothing for an empty name and for the current folder.
fn front_path(alloc: Global, folder: &str) -> Result<String, NoMemory>
    ensures { IfOk result (λ path. string_bytes path ≡ front_path folder.now) }
{
    let mut path = String::new(alloc);
    if folder == "." {
        return Ok(path);
    }
    path.push_str(folder)?;
    path.push_str(slash_after(folder))?;
    Ok(path)
}

/// A path in a URL.
#[tactic(auto, using(crate::proofs::PathBytes::path_encoded))]
pub fn path_uri(alloc: Global, path: &str) -> Result<String, NoMemory>
    ensures { IfOk result (λ uri. string_bytes uri ≡ path_uri path.now) }
{
    let mut uri = String::new(alloc);
    percent_encode(path.as_bytes(), PATH).append_to(&mut uri)?;
    Ok(uri)
}

/// The URL of the sources, with a slash at its end.
pub fn base_url(alloc: Global, source_url: &str) -> Result<String, NoMemory>
    ensures { IfOk result (λ url. string_bytes url ≡ base_url source_url.now) }
{
    let mut url = String::from_str(alloc, source_url)?;
    url.push_str(slash_after(source_url))?;
    Ok(url)
}
