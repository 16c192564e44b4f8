//! Names in URLs.
ghost use Rattle.std.specs.Prelude.{◌≡◌, ◌++◌, ◌∷◌, [], IfOk, MatchOption, None, OnOk, Some, if◌then◌else◌, string_bytes, option_map};
ghost use Rattle.std.specs.List.{join_with_byte};
ghost use Rattle.percent_encoding.specs.Percent.{percent_decode, percent_encode};
ghost use Rattle.site_files.specs.Names.{IsCut, shown};
ghost use Rattle.site_files.specs.Server.{is_parent, is_same_folder, looked_up, names_of, respelled, stepped};

use crate::below::is_slash;
use percent_encoding::{AsciiSet, NON_ALPHANUMERIC, ascii_set, percent_decode, percent_encode};
use std::alloc::{AllocError, Global};

/// What is escaped in a part of a path: all but letters, digits, and what the URL Standard leaves there, without `%`.
const IN_NAME: AsciiSet = ascii_set!(
    NON_ALPHANUMERIC
        .remove(b'-')
        .remove(b'.')
        .remove(b'_')
        .remove(b'~')
        .remove(b'!')
        .remove(b'$')
        .remove(b'&')
        .remove(b'\'')
        .remove(b'(')
        .remove(b')')
        .remove(b'*')
        .remove(b'+')
        .remove(b',')
        .remove(b';')
        .remove(b'=')
        .remove(b':')
        .remove(b'@')
        .remove(b'[')
        .remove(b']')
        .remove(b'|')
);

/// What is escaped in a file's name with its folders.
const IN_PATH: AsciiSet = ascii_set!(IN_NAME.remove(b'/'));

/// What is escaped in the query of a file's name.
const IN_QUERY: AsciiSet = ascii_set!(
    IN_NAME
        .add(b'\'')
        .remove(b'%')
        .remove(b'/')
        .remove(b'?')
        .remove(b'\\')
        .remove(b'^')
        .remove(b'`')
        .remove(b'{')
        .remove(b'}')
);

/// Appends the path of a file or folder below the top, with its escapes.
pub(crate) fn push_name(name: &[u8], url: &mut String) -> Result<(), AllocError>
    ensures { OnOk result (string_bytes url.new ≡ string_bytes url.old ++ percent_encode IN_PATH name.now) }
{
    percent_encode(name, IN_PATH).append_to(url)
}

/// Appends a canonical path with its escapes written as those of a file's page are.
#[tactic(auto, using(crate::proofs::Ways::respelled_cut, crate::proofs::Ways::respelled_last))]
pub(crate) fn push_respelled(alloc: Global, path: &[u8], url: &mut String) -> Result<(), AllocError>
    ensures { OnOk result (string_bytes url.new ≡ string_bytes url.old ++ respelled path.now) }
{
    let mut rest = path;
    'names: while let Some((name, more)) = cut_name(rest) {
        push_again(alloc, name, IN_NAME, url)?;
        url.push('/')?;
        rest = more;
    }
    push_again(alloc, rest, IN_NAME, url)
}

/// Returns the path that a server looks up for a path below the top, whose escapes are read: without empty names, so consecutive slashes
/// are one. `None` if it leads above the top: a dot after an escaped slash is not resolved when the URL is parsed.
#[tactic(auto, using(crate::proofs::Ways::ends_cut, crate::proofs::Ways::shown_back))]
pub(crate) fn looked_up(alloc: Global, path: &[u8]) -> Result<Option<Vec<u8>>, AllocError>
    ensures { IfOk result (λ found. option_map (λ p. p.items) found ≡ looked_up path.now) }
{
    let mut way = Vec::new(alloc);
    let mut rest = path;
    'names: while let Some((name, more)) = cut_name(rest) {
        if !step(&mut way, name)? {
            return Ok(None);
        }
        rest = more;
    }
    if !step(&mut way, rest)? {
        return Ok(None);
    }
    if is_same_folder(rest) || is_parent(rest) {
        way.push(b"".as_slice())?;
    }
    Ok(Some(joined(alloc, way.as_slice())?))
}

/// Follows one more name, and returns `false` if that leads above the top.
#[tactic(auto, using(crate::proofs::Ways::without_last_back, crate::proofs::Ways::shown_back))]
fn step<'p>(way: &mut Vec<&'p [u8]>, name: &'p [u8]) -> Result<bool, AllocError>
    ensures { IfOk result (λ goes. (if goes then Some (shown way.new.items) else None) ≡ stepped (shown way.old.items) name.entry.now) }
{
    if is_same_folder(name) {
        return Ok(true);
    }
    if is_parent(name) {
        return Ok(way.pop().is_some());
    }
    way.push(name)?;
    Ok(true)
}

/// The names with a slash between each two.
#[tactic(auto, using(crate::proofs::Ways::join_slashed))]
fn joined(alloc: Global, names: &[&[u8]]) -> Result<Vec<u8>, AllocError>
    ensures { IfOk result (λ path. path.items ≡ join_with_byte 47 (shown names.now)) }
{
    let mut path = Vec::new(alloc);
    let Some((first, more)) = names.split_first() else {
        return Ok(path);
    };
    path.extend_from_slice(first)?;
    let mut rest = more;
    'names: while let Some((name, others)) = rest.split_first() {
        path.push(b'/')?;
        path.extend_from_slice(name)?;
        rest = others;
    }
    Ok(path)
}

/// What is before the first slash of a path, and what is after it, if it has one.
#[tactic(auto, using(crate::proofs::Ways::cut_at, crate::proofs::Ways::no_cut))]
fn cut_name(path: &[u8]) -> Option<(&[u8], &[u8])>
    ensures { MatchOption result (names_of path.now ≡ path.now ∷ []) (λ cut. IsCut path.now cut.0.now cut.1.now) }
{
    'bytes: for (index, byte) in path.iter().enumerate() {
        if is_slash(*byte) {
            return Some((&path[..index], &path[index + 1..]));
        }
    }
    None
}

/// Whether the name is that of the folder itself.
fn is_same_folder(name: &[u8]) -> bool
    ensures { result ≡ is_same_folder name.now }
{
    name.is_empty() || name == b".".as_slice()
}

/// Whether the name is that of the folder above.
fn is_parent(name: &[u8]) -> bool
    ensures { result ≡ is_parent name.now }
{
    name == b"..".as_slice()
}

/// Appends a question mark and a query with its escapes written as those of a file's page are.
pub(crate) fn push_query(alloc: Global, query: &[u8], url: &mut String) -> Result<(), AllocError>
    ensures { OnOk result (string_bytes url.new ≡ string_bytes url.old ++ 63 ∷ percent_encode IN_QUERY (percent_decode query.now)) }
{
    url.push('?')?;
    push_again(alloc, query, IN_QUERY, url)
}

/// Appends a text without its escapes, escaped once more.
fn push_again(alloc: Global, text: &[u8], set: AsciiSet, url: &mut String) -> Result<(), AllocError>
    ensures { OnOk result (string_bytes url.new ≡ string_bytes url.old ++ percent_encode set (percent_decode text.now)) }
{
    let mut bytes = Vec::new(alloc);
    percent_decode(text).append_to(&mut bytes)?;
    percent_encode(bytes.as_slice(), set).append_to(url)
}
