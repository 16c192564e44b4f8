//! Pages with the name of one that is not there, in the same case or in another.
ghost use Rattle.std.specs.Prelude.{◌≡◌, ◌∷◌, ◌++◌, [], ℕ, List, None, Some, filter, if◌then◌else◌, IfOk, MatchOption, OnOk, slice_get, string_bytes, unwrap_or, option_copied, option_map, bytes_eq};
ghost use Rattle.std.specs.Str.{str_to_ascii_lowercase};
ghost use Rattle.site_files.specs.Files.{PageFile, page_file, pages_of};
ghost use Rattle.site_check.specs.declared.names.Key.TheVariants.{Name};
ghost use Rattle.site_check.specs.Names.{AreKnown, AreLower, AreNames, IsKnown, after_slashes, has_key, has_name, is_slash, key_of, known_at, known_with, last_name, last_part, lower_at, lower_path, name_for_part, named_at, named_page, one_or_path, only_name, only_path, name_of_page, other_form, folder_form, page_at, same_name, has_place_in, without_slash};

use crate::shown::shown;
use check_report::Place;
use crawl_pages::NoMemory;
use site_files::{SiteFiles, before_query};
use std::alloc::Global;
use std::collections::BTreeMap;

/// Which pages of a site have a name, which is that of the file or folder at the end of their URLs.
#[derive(Clone, Copy)]
pub(crate) enum Namesakes {
    /// The page with this number.
    One(usize),
    Several,
}

/// What pages are found by, in lower case: the names that their URLs end with, or their whole URLs without a query.
#[derive(Clone, Copy)]
pub(crate) enum Key {
    Name,
    Path,
}

/// The pages that are made of files, by their names.
type Names<'a> = BTreeMap<&'a [u8], Namesakes>;

/// The same by one of their keys in lower case.
type LowerKeys = BTreeMap<Vec<u8>, Namesakes>;

/// The same by their names in lower case, and by their whole paths in lower case.
#[derive(Drop)]
pub(crate) struct LowerNames {
    names: LowerKeys,
    paths: LowerKeys,
}

/// The files of a site, and its pages by their names: as these are, and in lower case.
#[derive(Clone, Copy)]
pub(crate) struct Named<'a, 'f> {
    pub(crate) files: &'a SiteFiles<'f>,
    pub(crate) exact: &'a Names<'f>,
    pub(crate) lower: &'a LowerNames,
}

/// The pages of a site by their names.
#[tactic(auto, using(crate::proofs::Namesakes::names_more))]
pub(crate) fn names_of<'a>(alloc: Global, files: &'a SiteFiles<'_>) -> Result<Names<'a>, NoMemory>
    ensures { IfOk result (λ names. AreKnown has_name files.now (named_at names)) }
{
    let mut names = BTreeMap::new(alloc);
    for number in 0..files.page_count() {
        add_page(&mut names, files, number)?;
    }
    Ok(names)
}

/// Adds the page with this number under its name, if there is such a page and it is made of a file.
fn add_page<'a>(
    names: &mut Names<'a>,
    files: &'a SiteFiles<'_>,
    number: usize,
) -> Result<(), NoMemory>
    ensures { OnOk result ((name : List ℕ) → named_at names.new name ≡ known_at (has_name name) (slice_get (pages_of files.now) number) number (named_at names.old name)) }
{
    match files.page(number) {
        Some((url, file)) => {
            add_file(names, url, file, number)?;
            Ok(())
        }
        None => Ok(()),
    }
}

/// Adds a page at a URL, if it is made of a file.
fn add_file<'a>(
    names: &mut Names<'a>,
    url: &'a str,
    file: Option<usize>,
    number: usize,
) -> Result<(), NoMemory>
    ensures { OnOk result ((name : List ℕ) → named_at names.new name ≡ known_at (has_name name) (Some (page_file url.now file)) number (named_at names.old name)) }
{
    match file {
        Some(_) => {
            add_name(names, last_name(url), number)?;
            Ok(())
        }
        None => Ok(()),
    }
}

/// Adds a page with this name. A name that was added before means several pages from then on.
fn add_name<'a>(names: &mut Names<'a>, name: &'a [u8], number: usize) -> Result<(), NoMemory>
    ensures { OnOk result ((other : List ℕ) → named_at names.new other ≡ (if bytes_eq name.now other then Some (known_with (named_at names.old other) number) else named_at names.old other)) }
{
    let known = known_with(names.get(&name), number);
    names.insert(name, known)?;
    Ok(())
}

/// The pages of a site by their names and by their paths, in lower case.
pub(crate) fn lower_names_of(alloc: Global, files: &SiteFiles<'_>) -> Result<LowerNames, NoMemory>
    ensures { IfOk result (λ lower. AreLower files.now lower) }
{
    let names = lower_keys_of(alloc, files, Key::Name)?;
    let paths = lower_keys_of(alloc, files, Key::Path)?;
    Ok(LowerNames { names, paths })
}

/// The pages of a site by a key in lower case.
#[tactic(auto, using(crate::proofs::Namesakes::names_more))]
fn lower_keys_of(alloc: Global, files: &SiteFiles<'_>, key: Key) -> Result<LowerKeys, NoMemory>
    ensures { IfOk result (λ keys. AreKnown (has_key key) files.now (lower_at keys)) }
{
    let mut keys = BTreeMap::new(alloc);
    for number in 0..files.page_count() {
        add_lower_page(alloc, &mut keys, files, key, number)?;
    }
    Ok(keys)
}

/// Adds the page with this number under its key in lower case, if there is such a page and it is made of a file.
fn add_lower_page(
    alloc: Global,
    keys: &mut LowerKeys,
    files: &SiteFiles<'_>,
    key: Key,
    number: usize,
) -> Result<(), NoMemory>
    ensures { OnOk result ((text : List ℕ) → lower_at keys.new text ≡ known_at (has_key key text) (slice_get (pages_of files.now) number) number (lower_at keys.old text)) }
{
    match files.page(number) {
        Some((url, file)) => {
            add_lower_file(alloc, keys, url, key, file, number)?;
            Ok(())
        }
        None => Ok(()),
    }
}

/// Adds a page at a URL under its key in lower case, if it is made of a file.
fn add_lower_file(
    alloc: Global,
    keys: &mut LowerKeys,
    url: &str,
    key: Key,
    file: Option<usize>,
    number: usize,
) -> Result<(), NoMemory>
    ensures { OnOk result ((text : List ℕ) → lower_at keys.new text ≡ known_at (has_key key text) (Some (page_file url.now file)) number (lower_at keys.old text)) }
{
    match file {
        Some(_) => {
            let text = key_of(key, url).to_ascii_lowercase(alloc)?;
            add_lower_key(keys, text, number)?;
            Ok(())
        }
        None => Ok(()),
    }
}

/// Adds a page with this key in lower case. A key that was added before means several pages from then on.
fn add_lower_key(keys: &mut LowerKeys, text: Vec<u8>, number: usize) -> Result<(), NoMemory>
    ensures { OnOk result ((other : List ℕ) → lower_at keys.new other ≡ (if bytes_eq text.items other then Some (known_with (lower_at keys.old other) number) else lower_at keys.old other)) }
{
    let known = known_with(keys.get(text.as_slice()), number);
    keys.insert(text, known)?;
    Ok(())
}

/// Returns which pages have a name after this page is added: only this one, or several.
fn known_with(known: Option<&Namesakes>, number: usize) -> Namesakes
    ensures { result ≡ known_with (option_copied known.entry) number }
{
    match known {
        None => Namesakes::One(number),
        Some(_) => Namesakes::Several,
    }
}

/// What is reported with a target whose links are at these positions: the page with its name, or else the page in another form.
pub(crate) fn same_name(
    alloc: Global,
    front: &str,
    named: Named<'_, '_>,
    target: &str,
    places: &[Place],
) -> Result<Option<String>, NoMemory>
    requires { AreNames named.files.now named.exact.now named.lower.now }
    ensures { IfOk result (λ found. option_map string_bytes found ≡ same_name front.now named.entry.files.now target.now places.now) }
{
    match named_page(alloc, front, named, target, places)? {
        Some(name) => Ok(Some(name)),
        None => other_form(alloc, front, named.files, before_query(target), places),
    }
}

/// The only page of the site with the name of a target, unless one of the places is in its file. If no page has the name, the only one
/// counts that has it in another case. If several have it, the only one counts whose path is the same in another case.
fn named_page(
    alloc: Global,
    front: &str,
    named: Named<'_, '_>,
    target: &str,
    places: &[Place],
) -> Result<Option<String>, NoMemory>
    requires { AreNames named.files.now named.exact.now named.lower.now }
    ensures { IfOk result (λ found. option_map string_bytes found ≡ named_page front.now named.entry.files.now places.now target.now) }
{
    let name = last_name(target);
    if name.is_empty() {
        return Ok(None);
    }
    only_name(alloc, front, named, target, name, places)
}

/// The page of a folder for an HTML file of its name, or of an HTML file for a folder of its name, unless one of the places is in its file.
fn other_form(
    alloc: Global,
    front: &str,
    files: &SiteFiles<'_>,
    path: &str,
    places: &[Place],
) -> Result<Option<String>, NoMemory>
    ensures { IfOk result (λ found. option_map string_bytes found ≡ other_form front.now files.now places.now path.now) }
{
    match path.strip_suffix(".html") {
        Some(name) => page_at(alloc, front, files, name, "/", places),
        None => folder_form(alloc, front, files, path, places),
    }
}

/// The page of an HTML file for a folder of its name, unless one of the places is in the file.
fn folder_form(
    alloc: Global,
    front: &str,
    files: &SiteFiles<'_>,
    path: &str,
    places: &[Place],
) -> Result<Option<String>, NoMemory>
    ensures { IfOk result (λ found. option_map string_bytes found ≡ folder_form front.now files.now places.now path.now) }
{
    match path.strip_suffix("/") {
        Some(name) => page_at(alloc, front, files, name, ".html", places),
        None => Ok(None),
    }
}

/// The page with this name and this end after the front, unless one of the places is in its file.
fn page_at(
    alloc: Global,
    front: &str,
    files: &SiteFiles<'_>,
    name: &str,
    end: &str,
    places: &[Place],
) -> Result<Option<String>, NoMemory>
    ensures { IfOk result (λ found. option_map string_bytes found ≡ page_at front.now files.now places.now (front.now ++ name.now ++ end.now)) }
{
    let mut text = String::from_str(alloc, front)?;
    text.push_str(name)?;
    text.push_str(end)?;
    let url = text.as_str();
    name_of_file(alloc, front, files, url, files.file_of(url), places)
}

/// The page that is meant by this name of a target or, if no page has it, by the name in another case, unless one of the places is in
/// its file.
fn only_name(
    alloc: Global,
    front: &str,
    named: Named<'_, '_>,
    target: &str,
    name: &[u8],
    places: &[Place],
) -> Result<Option<String>, NoMemory>
    requires { AreNames named.files.now named.exact.now named.lower.now }
    ensures { IfOk result (λ found. option_map string_bytes found ≡ name_for_part front.now named.entry.files.now places.now target.now name.now) }
{
    match named.exact.get(name) {
        Some(known) => one_or_path(alloc, front, named, target, *known, places),
        None => only_lower(alloc, front, named, target, name, places),
    }
}

/// The page that is meant by this name of a target in any case, unless one of the places is in its file.
fn only_lower(
    alloc: Global,
    front: &str,
    named: Named<'_, '_>,
    target: &str,
    name: &[u8],
    places: &[Place],
) -> Result<Option<String>, NoMemory>
    requires { AreNames named.files.now named.exact.now named.lower.now }
    ensures { IfOk result (λ found. option_map string_bytes found ≡ one_or_path front.now named.entry.files.now places.now target.now (filter (has_key Name (str_to_ascii_lowercase name.now)) (pages_of named.entry.files.now))) }
{
    let lower = name.to_ascii_lowercase(alloc)?;
    match named.lower.names.get(lower.as_slice()) {
        Some(known) => one_or_path(alloc, front, named, target, *known, places),
        None => Ok(None),
    }
}

/// The page, if only one has the name or, if several have it, the only one with the path of the target in another case, unless one of the
/// places is in its file.
fn one_or_path(
    alloc: Global,
    front: &str,
    named: Named<'_, '_>,
    target: &str,
    known: Namesakes,
    places: &[Place],
) -> Result<Option<String>, NoMemory>
    requires { AreNames named.files.now named.exact.now named.lower.now }
    ensures { (pages : List PageFile) → IsKnown (pages_of named.entry.files.now) pages (Some known) → IfOk result (λ found. option_map string_bytes found ≡ one_or_path front.now named.entry.files.now places.now target.now pages) }
{
    match known {
        Namesakes::One(number) => name_of_page(alloc, front, named.files, number, places),
        Namesakes::Several => only_path(alloc, front, named, target, places),
    }
}

/// The only page whose path differs from that of a target in nothing but case, unless one of the places is in its file.
fn only_path(
    alloc: Global,
    front: &str,
    named: Named<'_, '_>,
    target: &str,
    places: &[Place],
) -> Result<Option<String>, NoMemory>
    requires { AreNames named.files.now named.exact.now named.lower.now }
    ensures { IfOk result (λ found. option_map string_bytes found ≡ only_path front.now named.entry.files.now places.now target.now) }
{
    let path = lower_path(alloc, front, target)?;
    match named.lower.paths.get(path.as_slice()) {
        Some(known) => name_of_known(alloc, front, named.files, *known, places),
        None => Ok(None),
    }
}

/// The path of a target in lower case, after the front.
fn lower_path(alloc: Global, front: &str, target: &str) -> Result<Vec<u8>, NoMemory>
    ensures { IfOk result (λ path. path.items ≡ lower_path front.now target.now) }
{
    let mut text = String::from_str(alloc, front)?;
    text.push_str(before_query(target))?;
    let path = text.as_str().as_bytes().to_ascii_lowercase(alloc)?;
    Ok(path)
}

/// The page, if it is the only one, unless one of the places is in its file.
fn name_of_known(
    alloc: Global,
    front: &str,
    files: &SiteFiles<'_>,
    known: Namesakes,
    places: &[Place],
) -> Result<Option<String>, NoMemory>
    ensures { (pages : List PageFile) → IsKnown (pages_of files.now) pages (Some known) → IfOk result (λ found. option_map string_bytes found ≡ only_name front.now files.now places.now pages) }
{
    match known {
        Namesakes::One(number) => name_of_page(alloc, front, files, number, places),
        Namesakes::Several => Ok(None),
    }
}

/// The page with this number, unless one of the places is in its file.
fn name_of_page(
    alloc: Global,
    front: &str,
    files: &SiteFiles<'_>,
    number: usize,
    places: &[Place],
) -> Result<Option<String>, NoMemory>
    ensures { (page : PageFile) → slice_get (pages_of files.now) number ≡ Some page → IfOk result (λ found. option_map string_bytes found ≡ only_name front.now files.now places.now (page ∷ [])) }
{
    match files.page(number) {
        Some((url, file)) => { name_of_file(alloc, front, files, url, file, places) }
        None => Ok(None),
    }
}

/// The page at a URL that is made of a file, unless one of the places is in that.
fn name_of_file(
    alloc: Global,
    front: &str,
    files: &SiteFiles<'_>,
    url: &str,
    file: Option<usize>,
    places: &[Place],
) -> Result<Option<String>, NoMemory>
    ensures { IfOk result (λ found. option_map string_bytes found ≡ name_of_page front.now files.now places.now url.now file) }
{
    match file {
        Some(index) => { unless_within(alloc, shown(front, url), files.name(index), places) }
        None => Ok(None),
    }
}

/// The text, unless one of the places is in the file.
fn unless_within(
    alloc: Global,
    text: &str,
    file: Option<&str>,
    places: &[Place],
) -> Result<Option<String>, NoMemory>
    ensures { IfOk result (λ found. option_map string_bytes found ≡ (if has_place_in (unwrap_or (option_map (λ name. name.now) file.entry) []) places.now then None else Some text.now)) }
{
    if has_place_in(file.unwrap_or(""), places) {
        return Ok(None);
    }
    let name = String::from_str(alloc, text)?;
    Ok(Some(name))
}

/// Whether one of the places is in the file.
fn has_place_in(file: &str, places: &[Place]) -> bool
    ensures { result ≡ has_place_in file.now places.now }
{
    for place in places {
        if place.file.as_str() == file {
            return true;
        }
    }
    false
}

/// The file name that a URL ends with.
pub(crate) fn last_part(url: &str) -> &[u8]
    ensures { result.now ≡ last_part url.now }
{
    after_slashes(before_query(url).as_bytes())
}

/// The key of the page at a URL.
fn key_of(key: Key, url: &str) -> &[u8]
    ensures { result.now ≡ key_of key url.now }
{
    match key {
        Key::Name => last_name(url),
        Key::Path => before_query(url).as_bytes(),
    }
}

/// The name of the file or folder that a URL ends with. There may be a slash after that of a folder.
fn last_name(url: &str) -> &[u8]
    ensures { result.now ≡ last_name url.now }
{
    after_slashes(without_slash(before_query(url)).as_bytes())
}

/// The path without a slash at its end.
#[tactic(auto, using(crate::proofs::Forms::slash_cut, crate::proofs::Forms::no_slash))]
fn without_slash(path: &str) -> &str
    ensures { result.now ≡ without_slash path.now }
{
    match path.strip_suffix("/") {
        Some(rest) => rest,
        None => path,
    }
}

/// What follows the last slash, or all.
#[tactic(auto, using(crate::proofs::Namesakes::name_first, crate::proofs::Namesakes::name_more, crate::proofs::Namesakes::name_on))]
fn after_slashes(path: &[u8]) -> &[u8]
    ensures { result.now ≡ after_slashes path.now }
{
    let mut name = path;
    let mut rest = path;
    'bytes: while let Some((byte, more)) = split_byte(rest) {
        name = name_on(byte, more, name);
        rest = more;
    }
    name
}

/// What follows a byte that is a slash, or the name so far.
fn name_on<'a>(byte: u8, more: &'a [u8], name: &'a [u8]) -> &'a [u8]
    ensures { result.now ≡ (if is_slash byte then more.now else name.now) }
{
    if byte == b'/' { more } else { name }
}

/// The first byte, and those after it.
pub(crate) fn split_byte(bytes: &[u8]) -> Option<(u8, &[u8])>
    ensures { MatchOption result (bytes.now ≡ []) (λ x. bytes.now ≡ x.0 ∷ x.1.now) }
{
    match bytes.split_first() {
        Some((first, more)) => Some((*first, more)),
        None => None,
    }
}
