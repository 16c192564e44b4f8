//! The encoding of a document or a style sheet.
ghost use Rattle.std.specs.Prelude.{◌≡◌, ◌≢◌, ℕ, ◌<◌, bytes_eq, false, option_map, take, true, IsAscii, IfOk, IfSome, IsNone, IsSome};
ghost use Rattle.std.specs.Str.{is_utf8};
ghost use Rattle.document_links.specs.Charsets.{charset_declared, charset_named, charset_rule, charset_unmarked, closed_label, document_charset, sheet_charset, sheet_label, utf8_names, utf8_or, windows_names};
ghost use Rattle.document_links.specs.Encoding.{character_of, charset_of, has_mark, is_in_unicode, is_known, likely_byte, names_encoding, windows_text};
ghost use Rattle.document_links.specs.Places.{keeps_ascii};
ghost use Rattle.document_links.specs.Schemes.{is_among};
ghost use Rattle.document_links.specs.Starts.{start_of};
ghost use Rattle.document_links.specs.Written.{is_unicode};

use crate::bytes::split_byte;
use crate::document_start::start_of;
use crate::line_text::is_text;
use crate::name_list::is_among;
use crate::prescan::{bare_label, declared};
use crate::text_kind::TextKind;
use std::alloc::{AllocError, Global};

/// Names of UTF-8, and names of UTF-16, which mean UTF-8 in a `meta`.
const UTF8_NAMES: &str =
    "utf-8 utf8 unicode-1-1-utf-8 unicode11utf8 unicode20utf8 x-unicode20utf8 utf_8 u8 utf-16 utf-16le utf-16be csunicode iso-10646-ucs-2 ucs-2 unicode unicodefeff unicodefffe";

/// Names of windows-1252.
const WINDOWS_NAMES: &str =
    "windows-1252 iso-8859-1 latin1 us-ascii ascii ansi_x3.4-1968 cp1252 1252 cp819 csisolatin1 ibm819 iso-ir-100 iso8859-1 iso88591 iso_8859-1 iso_8859-1:1987 l1 x-cp1252";

/// The encoding of a document.
#[derive(Clone, Copy, Debug, PartialEq, Eq)]
pub(crate) enum Charset {
    Utf8,
    Utf16Le,
    Utf16Be,
    Windows1252,
    /// Any other encoding. Only ASCII is read.
    Other,
}

impl Charset {
    /// Whether the queries of links are in UTF-8.
    pub(crate) fn is_unicode(self) -> bool
        ensures { result ≡ is_unicode self }
    {
        !matches!(self, Charset::Windows1252 | Charset::Other)
    }
}

/// Finds the encoding of a document, from its first bytes, its head, and whether it is valid UTF-8; or of another file, from its
/// first bytes.
pub(crate) fn charset_of(body: &[u8], kind: TextKind) -> Charset
    ensures value { result ≡ charset_of kind body.now }
    ensures ascii { IsAscii body.now → keeps_ascii result ≡ true }
    ensures marked { has_mark body.now ≡ true → result ≡ Charset.Utf8 }
    ensures unnamed { names_encoding kind body.now ≡ false → result ≡ Charset.Utf8 }
    ensures known { is_in_unicode kind ≡ true → is_known result ≡ true }
    ensures valid { is_utf8 body.now ≡ true → is_known result ≡ true }
{
    match body {
        [0xef, 0xbb, 0xbf, ..] => Charset::Utf8,
        [0xff, 0xfe, ..] => Charset::Utf16Le,
        [0xfe, 0xff, ..] => Charset::Utf16Be,
        _ => charset_unmarked(body, kind),
    }
}

/// The encoding of a file without a byte order mark. Feeds and lists of URLs are in UTF-8.
fn charset_unmarked(body: &[u8], kind: TextKind) -> Charset
    ensures value { result ≡ charset_unmarked kind body.now }
    ensures ascii { keeps_ascii result ≡ true }
    ensures unnamed { names_encoding kind body.now ≡ false → result ≡ Charset.Utf8 }
    ensures known { is_in_unicode kind ≡ true → is_known result ≡ true }
    ensures valid { is_utf8 body.now ≡ true → is_known result ≡ true }
{
    match kind {
        TextKind::Document { .. } => document_unmarked(body),
        TextKind::StyleSheet => sheet_unmarked(body),
        TextKind::Feed | TextKind::UrlList => Charset::Utf8,
    }
}

/// The encoding of a style sheet without a byte order mark.
fn sheet_unmarked(body: &[u8]) -> Charset
    ensures value { result ≡ sheet_charset body.now }
    ensures ascii { keeps_ascii result ≡ true }
    ensures unnamed { bytes_eq (take 10 body.now) charset_rule ≡ false → result ≡ Charset.Utf8 }
    ensures valid { is_utf8 body.now ≡ true → is_known result ≡ true }
{
    match named_in_sheet(body) {
        Some(name) => charset_named(bare_label(name), body),
        None => Charset::Utf8,
    }
}

/// The name of the encoding in the `@charset` with which a style sheet begins. Only the spelling `@charset "NAME";` counts.
pub(crate) fn named_in_sheet(body: &[u8]) -> Option<&[u8]>
    ensures value { option_map (λ name. name.now) result ≡ sheet_label (start_of body.now) }
    ensures rule { IsSome result → bytes_eq (take 10 body.now) charset_rule ≡ true }
{
    sheet_label(start_of(body))
}

/// The name in the `@charset` with which these first bytes begin.
fn sheet_label(start: &[u8]) -> Option<&[u8]>
    ensures value { option_map (λ name. name.now) result ≡ sheet_label start.now }
    ensures rule { IsSome result → bytes_eq (take 10 start.now) charset_rule ≡ true }
{
    if start.starts_with(b"@charset \"") {
        closed_label(&start[10..])
    } else {
        None
    }
}

/// The name before `";`.
fn closed_label(text: &[u8]) -> Option<&[u8]>
    ensures { option_map (λ name. name.now) result ≡ closed_label text.now }
{
    match split_byte(b'"', text) {
        Some((name, rest)) => {
            if rest.starts_with(b";") {
                Some(name)
            } else {
                None
            }
        }
        None => None,
    }
}

/// The encoding of a document without a byte order mark.
fn document_unmarked(body: &[u8]) -> Charset
    ensures value { result ≡ document_charset body.now }
    ensures ascii { keeps_ascii result ≡ true }
    ensures valid { is_utf8 body.now ≡ true → is_known result ≡ true }
{
    match declared(start_of(body)) {
        Some(name) => charset_declared(name, body),
        None => undeclared(body, Charset::Windows1252),
    }
}

/// Returns UTF-8 if the document is valid UTF-8, and otherwise `otherwise`.
fn undeclared(body: &[u8], otherwise: Charset) -> Charset
    requires { keeps_ascii otherwise ≡ true }
    ensures value { result ≡ utf8_or otherwise body.now }
    ensures ascii { keeps_ascii result ≡ true }
    ensures valid { is_utf8 body.now ≡ true → result ≡ Charset.Utf8 }
{
    if is_text(body) {
        Charset::Utf8
    } else {
        otherwise
    }
}

/// Returns the encoding with this name in a document, in which `x-user-defined` means windows-1252.
fn charset_declared(name: &[u8], body: &[u8]) -> Charset
    ensures value { result ≡ charset_declared body.now name.now }
    ensures ascii { keeps_ascii result ≡ true }
    ensures valid { is_utf8 body.now ≡ true → is_known result ≡ true }
{
    if name.eq_ignore_ascii_case(b"x-user-defined") {
        Charset::Windows1252
    } else {
        charset_named(name, body)
    }
}

/// Returns the encoding with this name. If the name is not known here, a document that is valid UTF-8 is in UTF-8.
fn charset_named(name: &[u8], body: &[u8]) -> Charset
    ensures value { result ≡ charset_named name.now body.now }
    ensures ascii { keeps_ascii result ≡ true }
    ensures valid { is_utf8 body.now ≡ true → is_known result ≡ true }
{
    if is_utf8_name(name) {
        Charset::Utf8
    } else if is_windows_name(name) {
        Charset::Windows1252
    } else {
        undeclared(body, Charset::Other)
    }
}

/// Whether this is a name of UTF-8, or of UTF-16.
fn is_utf8_name(name: &[u8]) -> bool
    ensures { result ≡ is_among name.now utf8_names }
{
    is_among(name, UTF8_NAMES)
}

/// Whether this is a name of windows-1252.
fn is_windows_name(name: &[u8]) -> bool
    ensures { result ≡ is_among name.now windows_names }
{
    is_among(name, WINDOWS_NAMES)
}

/// The characters of 0x80 to 0x9f.
static WINDOWS: [char; 32] = [
    '\u{20ac}', '\u{81}', '\u{201a}', '\u{192}', '\u{201e}', '\u{2026}', '\u{2020}', '\u{2021}',
    '\u{2c6}', '\u{2030}', '\u{160}', '\u{2039}', '\u{152}', '\u{8d}', '\u{17d}', '\u{8f}',
    '\u{90}', '\u{2018}', '\u{2019}', '\u{201c}', '\u{201d}', '\u{2022}', '\u{2013}', '\u{2014}',
    '\u{2dc}', '\u{2122}', '\u{161}', '\u{203a}', '\u{153}', '\u{9d}', '\u{17e}', '\u{178}',
];

/// The text of a document in windows-1252.
pub(crate) fn from_windows(alloc: Global, body: &[u8]) -> Result<Vec<u8>, AllocError>
    ensures ascii { IsAscii body.now → IfOk result (λ text. text.items ≡ body.now) }
    ensures text { IfOk result (λ text. text.items ≡ windows_text body.now) }
{
    let mut text = String::new(alloc);
    for byte in body {
        text.push(character_of(*byte))?;
    }
    Ok(text.into_bytes())
}

/// Returns the character of a byte in windows-1252.
fn character_of(byte: u8) -> char
    ensures own { byte < 128 → result ≡ byte }
    ensures all { result ≡ character_of byte }
{
    match byte {
        0x80..=0x9f => WINDOWS[(byte - 0x80) as usize],
        _ => byte as char,
    }
}

/// For each remainder of a character's number by 79, the only byte above ASCII that can be that character.
static LIKELY: [u8; 79] = [
    0x91, 0x92, 0x82, 0, 0x93, 0x94, 0x84, 0x83, 0x86, 0x87, 0x95, 0, 0, 0, 0x85, 0, 0, 0, 0, 0, 0,
    0x98, 0x8c, 0x9c, 0x89, 0, 0, 0, 0, 0x99, 0, 0, 0, 0x8b, 0x9b, 0, 0x8a, 0x9a, 0, 0, 0, 0, 0, 0,
    0, 0, 0, 0, 0, 0, 0, 0, 0, 0, 0, 0, 0, 0, 0, 0, 0x9f, 0, 0, 0, 0, 0x8e, 0x9e, 0, 0, 0x80, 0, 0,
    0, 0, 0x96, 0x97, 0, 0, 0x88,
];

/// The byte for a character in windows-1252.
#[tactic(auto, using(crate::proofs::WindowsBytes::likely))]
pub(crate) fn windows_byte(character: char) -> Option<u8>
    ensures byte { IfSome result (λ byte. character_of byte ≡ character) }
    ensures none { IsNone result → (byte : ℕ) → byte < 256 → character_of byte ≢ character }
{
    let byte = likely_byte(character as u32);
    if character_of(byte) == character {
        Some(byte)
    } else {
        None
    }
}

/// The only byte that can be the character with this number.
fn likely_byte(number: u32) -> u8
    ensures { result ≡ likely_byte number }
{
    if number < 0x100 {
        number as u8
    } else {
        LIKELY[(number % 79) as usize]
    }
}

/// The text of a document in UTF-16 after its byte order mark. A single byte at the end becomes U+FFFD.
pub(crate) fn from_utf16(
    alloc: Global,
    body: &[u8],
    is_little: bool,
) -> Result<Vec<u8>, AllocError> {
    let mut units = Vec::new(alloc);
    for pair in body.get(2..).unwrap_or(&[]).chunks(2) {
        units.push(unit_of(pair, is_little))?;
    }
    let text = String::from_utf16_lossy(alloc, units.as_slice())?;
    Ok(text.into_bytes())
}

/// The unit of UTF-16 with these two bytes, or U+FFFD for a single byte.
fn unit_of(pair: &[u8], is_little: bool) -> u16 {
    match pair {
        [first, second] if is_little => u16::from_le_bytes([*first, *second]),
        [first, second] => u16::from_be_bytes([*first, *second]),
        _ => 0xfffd,
    }
}
