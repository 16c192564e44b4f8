//! Shows the names of pages to people: with the characters that their escapes encode.
ghost use Rattle.std.specs.Prelude.{◌≡◌, ◌-◌, ◌*◌, ◌≤◌, ◌++◌, IfOk, IfSome, OnOk, Some, None, chars, if◌then◌else◌, drop, length, string_bytes, take};
ghost use Rattle.std.specs.Char.{encode_utf8};
ghost use Rattle.percent_encoding.specs.Percent.{percent_decode};
ghost use Rattle.check_report.specs.Names.{all_decoded, at_percent, decoded, ends_with_link, escapes_of, has_host, is_command, is_readable, is_text, page_in, page_name, readable_at, readable_in, readable_only, target_in, target_name, unescaped, with_end, with_ends};
ghost use Rattle.shown_text.specs.Shown.{is_hidden};

use crate::escape::{Escape, put_escaped};
use crate::put::NoMemory;
use crate::value::{Broken, Kind};
use percent_encoding::percent_decode;
use std::alloc::Global;

/// Appends the name of a page, escaped for its position.
pub fn put_page_name(out: &mut Vec<u8>, how: Escape, text: &str) -> Result<(), NoMemory>
    ensures { OnOk result (out.new.items ≡ out.old.items ++ page_in how text.now) }
{
    if is_command(how) {
        return put_escaped(out, how, text);
    }
    let name = page_name(*out.allocator(), text)?;
    put_escaped(out, how, name.as_str())
}

/// Appends the name of a target, escaped for its position.
pub fn put_target_name(out: &mut Vec<u8>, how: Escape, broken: &Broken) -> Result<(), NoMemory>
    ensures { OnOk result (out.new.items ≡ out.old.items ++ target_in how broken.now) }
{
    if is_command(how) {
        return put_escaped(out, how, broken.target.as_str());
    }
    let name = target_name(*out.allocator(), broken)?;
    put_escaped(out, how, name.as_str())
}

/// Whether the position is in a GitHub command, in which names stay as they are.
fn is_command(how: Escape) -> bool
    ensures { result ≡ is_command how }
{
    match how {
        Escape::Data | Escape::Property => true,
        Escape::Shown | Escape::Html => false,
    }
}

/// A target as people read it: the text of a link as it is written, and the name of a page.
pub fn target_name(alloc: Global, broken: &Broken) -> Result<String, NoMemory>
    ensures { IfOk result (λ name. string_bytes name ≡ target_name broken.now) }
{
    let target = broken.target.as_str();
    if is_text(broken.kind) {
        String::from_str(alloc, target)
    } else {
        page_name(alloc, target)
    }
}

/// Whether the name of the target in this position ends with this link: then the link as it is written says nothing more.
pub fn ends_with_link(
    alloc: Global,
    how: Escape,
    broken: &Broken,
    link: &str,
) -> Result<bool, NoMemory>
    ensures { IfOk result (λ ends. ends ≡ ends_with_link how broken.now link.now) }
{
    if is_command(how) {
        return Ok(broken.target.as_bytes().ends_with(link.as_bytes()));
    }
    let name = target_name(alloc, broken)?;
    Ok(name.as_bytes().ends_with(link.as_bytes()))
}

/// Whether the target is the text of a link, as it is written.
fn is_text(kind: Kind) -> bool
    ensures { result ≡ is_text kind }
{
    match kind {
        Kind::NotUrl | Kind::UnknownScheme | Kind::LocalFile => true,
        Kind::NoPage | Kind::NoAnchor | Kind::Leaves | Kind::OutsideBase | Kind::NotInMap => false,
    }
}

/// A page as people read it: a URL with a host as it is, and a path with the characters that its escapes encode.
pub fn page_name(alloc: Global, text: &str) -> Result<String, NoMemory>
    ensures { IfOk result (λ name. string_bytes name ≡ page_name text.now) }
{
    if has_host(text) {
        String::from_str(alloc, text)
    } else {
        decoded(alloc, text)
    }
}

/// Whether the text is a URL with a host.
pub fn has_host(text: &str) -> bool
    ensures { result ≡ has_host text.now }
{
    text.as_bytes().starts_with(b"http://") || text.as_bytes().starts_with(b"https://")
}

/// The text with the readable characters that its escapes encode, but for a space at its beginning or end.
#[tactic(auto, unfolding(crate::specs::Names::decoded))]
fn decoded(alloc: Global, text: &str) -> Result<String, NoMemory>
    ensures { IfOk result (λ name. string_bytes name ≡ decoded text.now) }
{
    let all = all_decoded(alloc, text)?;
    with_ends(alloc, all.as_str())
}

/// The text with the readable characters that its escapes encode.
fn all_decoded(alloc: Global, text: &str) -> Result<String, NoMemory>
    ensures { IfOk result (λ all. string_bytes all ≡ all_decoded text.now) }
{
    let bytes = unescaped(alloc, text.as_bytes())?;
    String::from_utf8_lossy(alloc, bytes.as_slice())
}

/// The text with an escape in place of a space at its beginning or end, which nobody would see.
fn with_ends(alloc: Global, text: &str) -> Result<String, NoMemory>
    ensures { IfOk result (λ name. string_bytes name ≡ with_ends text.now) }
{
    let mut name = String::new(alloc);
    match text.strip_prefix(" ") {
        Some(rest) => {
            name.push_str("%20")?;
            push_with_end(&mut name, rest)?;
        }
        None => push_with_end(&mut name, text)?,
    }
    Ok(name)
}

/// Appends a text, with an escape in place of a space at its end.
fn push_with_end(name: &mut String, text: &str) -> Result<(), NoMemory>
    ensures { OnOk result (string_bytes name.new ≡ string_bytes name.old ++ with_end text.now) }
{
    match text.strip_suffix(" ") {
        Some(rest) => {
            name.push_str(rest)?;
            name.push_str("%20")
        }
        None => name.push_str(text),
    }
}

/// The bytes of the text, with readable characters in place of their escapes.
fn unescaped(alloc: Global, text: &[u8]) -> Result<Vec<u8>, NoMemory>
    ensures { IfOk result (λ all. all.items ≡ unescaped text.now) }
{
    let mut all = Vec::new(alloc);
    let mut rest = text;
    'bytes: while !rest.is_empty() {
        rest = put_first(alloc, &mut all, rest)?;
    }
    Ok(all)
}

/// Appends the readable character that the escapes at the start of the text encode, or else its first byte, and returns the rest.
#[tactic(auto, using(crate::proofs::Decoding::byte_put, crate::proofs::Decoding::escapes_put))]
fn put_first<'a>(alloc: Global, all: &mut Vec<u8>, text: &'a [u8]) -> Result<&'a [u8], NoMemory>
    ensures bytes { IfOk result (λ rest. all.new.items ++ unescaped rest.now ≡ all.old.items ++ unescaped text.now) }
    ensures shorter { IfOk result (λ rest. length rest.now ≤ length text.now - 1) }
{
    let Some(first) = text.first() else {
        return Ok(text);
    };
    match at_percent(alloc, text)? {
        Some((c, count)) => {
            put_char(all, c)?;
            Ok(after(text, 3 * count))
        }
        None => {
            all.push(*first)?;
            Ok(after(text, 1))
        }
    }
}

/// Appends a character.
fn put_char(all: &mut Vec<u8>, c: char) -> Result<(), NoMemory>
    ensures { OnOk result (all.new.items ≡ all.old.items ++ encode_utf8 c) }
{
    let mut bytes = [0; 4];
    all.extend_from_slice(c.encode_utf8(&mut bytes).as_bytes())
}

/// The text after this number of bytes.
fn after(text: &[u8], count: usize) -> &[u8]
    ensures { result.now ≡ drop count text.now }
{
    &text[count.min(text.len())..]
}

/// The text up to this number of bytes.
fn first(text: &[u8], count: usize) -> &[u8]
    ensures { result.now ≡ take count text.now }
{
    &text[..count.min(text.len())]
}

/// The readable character that the escapes at the start of the text encode, and their number.
fn at_percent(alloc: Global, text: &[u8]) -> Result<Option<(char, usize)>, NoMemory>
    ensures found { IfOk result (λ found. found ≡ at_percent text.now) }
    ensures few { IfOk result (λ found. IfSome found (λ it. it.1 ≤ 4)) }
    ensures some { IfOk result (λ found. IfSome found (λ it. 1 ≤ it.1)) }
{
    match text.first() {
        Some(b'%') => readable_at(alloc, text),
        _ => Ok(None),
    }
}

/// The readable character that one to four escapes at the start of the text encode, and their number.
fn readable_at(alloc: Global, text: &[u8]) -> Result<Option<(char, usize)>, NoMemory>
    ensures found { IfOk result (λ found. found ≡ readable_at text.now) }
    ensures few { IfOk result (λ found. IfSome found (λ it. it.1 ≤ 4)) }
    ensures some { IfOk result (λ found. IfSome found (λ it. 1 ≤ it.1)) }
{
    if let Some(found) = escapes_of(alloc, text, 1)? {
        return Ok(Some(found));
    }
    if let Some(found) = escapes_of(alloc, text, 2)? {
        return Ok(Some(found));
    }
    if let Some(found) = escapes_of(alloc, text, 3)? {
        return Ok(Some(found));
    }
    escapes_of(alloc, text, 4)
}

/// The readable character that this number of escapes at the start of the text encode, and the number.
fn escapes_of(alloc: Global, text: &[u8], count: usize) -> Result<Option<(char, usize)>, NoMemory>
    requires { count ≤ 4 }
    ensures found { IfOk result (λ found. found ≡ escapes_of text.now count) }
    ensures number { IfOk result (λ found. IfSome found (λ it. it.1 ≡ count)) }
{
    let bytes = escaped_bytes(alloc, first(text, 3 * count))?;
    match readable_in(bytes.as_slice()) {
        Some(c) => Ok(Some((c, count))),
        None => Ok(None),
    }
}

/// The bytes that these escapes encode.
fn escaped_bytes(alloc: Global, escapes: &[u8]) -> Result<Vec<u8>, NoMemory>
    ensures { IfOk result (λ bytes. bytes.items ≡ percent_decode escapes.now) }
{
    let mut bytes = Vec::new(alloc);
    percent_decode(escapes).append_to(&mut bytes)?;
    Ok(bytes)
}

/// The readable character that the bytes are.
#[tactic(auto, using(crate::proofs::Decoding::readable_text, crate::proofs::Decoding::readable_other))]
fn readable_in(bytes: &[u8]) -> Option<char>
    ensures { result ≡ readable_in bytes.now }
{
    match str::from_utf8(bytes) {
        Ok(text) => readable_only(text),
        Err(_) => None,
    }
}

/// The only character of the text, if it is readable.
#[tactic(auto, using(crate::proofs::Decoding::no_char, crate::proofs::Decoding::more_chars))]
fn readable_only(text: &str) -> Option<char>
    ensures { result ≡ readable_only (chars text.now) }
{
    let mut rest = text.chars();
    match rest.next() {
        Some(c) if rest.as_str().is_empty() => if_readable(c),
        Some(_) => None,
        None => None,
    }
}

/// The character, if it is readable.
fn if_readable(c: char) -> Option<char>
    ensures { result ≡ (if is_readable c then Some c else None) }
{
    if is_readable(c) { Some(c) } else { None }
}

/// Whether the character is a space, or beyond ASCII and not hidden.
fn is_readable(c: char) -> bool
    ensures { result ≡ is_readable c }
{
    c == ' ' || u32::from(c) >= 128 && !is_hidden(c)
}

/// Whether the character is one that a text shows as its escape: a control character, a separator or a bidirectional control.
fn is_hidden(c: char) -> bool
    ensures { result ≡ is_hidden c }
{
    c.is_control() || matches!(c, '\u{2028}'..='\u{202e}' | '\u{2066}'..='\u{2069}')
}
