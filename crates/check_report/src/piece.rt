//! Texts in pieces, each of which is appended in its own way.
ghost use Rattle.std.specs.Prelude.{◌≡◌, ◌++◌, OnOk, Some, option_map, string_bytes};
ghost use Rattle.check_report.specs.Page.{item_if, item_some, total_item};
ghost use Rattle.check_report.specs.Pieces.{piece_text, text_of};
ghost use Rattle.check_report.specs.Text.{bracketed, hint_text, name_in, redirect_target, same_name_text, written_text};

use crate::escape::{Escape, put_escaped};
use crate::names::{ends_with_link, put_page_name, put_target_name};
use crate::put::{
    NoMemory, put, put_code, put_counted, put_counted_if, put_counted_some, put_note,
};
use crate::row::Section;
use crate::value::Broken;
use crate::xml::{put_attribute, put_xml};
use shown_text::put_shown;

/// A piece of a text.
#[derive(Clone, Copy)]
pub enum Piece<'a> {
    /// A fixed text.
    Text(&'static str),
    /// A fixed text and a count.
    Counted(&'static str, u64),
    /// A fixed text and a count if there is a count, otherwise nothing.
    CountedIf(&'static str, Option<usize>),
    /// A fixed text and a count if the count is not 0, otherwise nothing.
    CountedSome(&'static str, u64),
    /// An escape code if the report has colour, otherwise nothing.
    Code(bool, &'static str),
    /// A text whose hidden characters are escaped.
    Shown(&'a str),
    /// A text, escaped for its position.
    Escaped(Escape, &'a str),
    /// The name of a page, escaped for its position.
    Page(Escape, &'a str),
    /// The name of a target, escaped for its position.
    Target(Escape, &'a Broken),
    /// A name in a section: a page, or an entry of the ignore list as it is.
    Name(Escape, Section, &'a str),
    /// The target of a redirect; `-` if it is not known.
    Moved(Escape, &'a Option<String>),
    /// The page that is suggested, in parentheses, or nothing if there is none.
    SameName(Escape, &'a Option<String>),
    /// A hint in parentheses, or nothing if there is none.
    Hint(Escape, &'a Option<String>),
    /// A fixed text with an opening parenthesis, the link to a target as it is written, and a closing parenthesis; nothing if the link
    /// is not known, or if the name of the target ends with it. Text and name are for the position.
    Written(Escape, &'static str, &'a Broken, &'a Option<String>),
    /// A blank and a note in parentheses; nothing if the note is empty.
    Note(&'static str, &'static str),
    /// An item of the HTML page's list of counts: the HTML before the count, and the count.
    Item(&'static str, u64),
    /// Such an item if there is a count, otherwise nothing.
    ItemIf(&'static str, Option<usize>),
    /// Such an item if the count is not 0, otherwise nothing.
    ItemSome(&'static str, u64),
    /// An attribute of XML: its name and its value.
    Attribute(&'static str, &'a str),
    /// A text, escaped for XML.
    Xml(&'a str),
}

/// Appends these pieces, one after the other.
pub fn put_all(out: &mut Vec<u8>, pieces: &[Piece<'_>]) -> Result<(), NoMemory>
    ensures { OnOk result (out.new.items ≡ out.old.items ++ text_of pieces.now) }
{
    for piece in pieces {
        put_piece(out, *piece)?;
    }
    Ok(())
}

/// Appends a piece.
fn put_piece(out: &mut Vec<u8>, piece: Piece<'_>) -> Result<(), NoMemory>
    ensures { OnOk result (out.new.items ≡ out.old.items ++ piece_text piece.entry) }
{
    match piece {
        Piece::Text(text) => put(out, text),
        Piece::Counted(word, count) => put_counted(out, word, count),
        Piece::CountedIf(word, count) => put_counted_if(out, word, count),
        Piece::CountedSome(word, count) => put_counted_some(out, word, count),
        Piece::Code(colour, text) => put_code(out, colour, text),
        Piece::Shown(text) => put_shown(out, text),
        Piece::Escaped(how, text) => put_escaped(out, how, text),
        Piece::Page(how, text) => put_page_name(out, how, text),
        Piece::Target(how, broken) => put_target_name(out, how, broken),
        Piece::Name(how, section, text) => put_name_in(out, how, section, text),
        Piece::Moved(how, page) => put_redirect_target(out, how, page),
        Piece::SameName(how, page) => put_same_name(out, how, page),
        Piece::Hint(how, hint) => put_hint(out, how, hint),
        Piece::Written(how, word, broken, link) => put_written(out, how, word, broken, link),
        Piece::Note(blank, note) => put_note(out, blank, note),
        Piece::Item(word, count) => put_item(out, word, count),
        Piece::ItemIf(word, count) => put_item_if(out, word, count),
        Piece::ItemSome(word, count) => put_item_some(out, word, count),
        Piece::Attribute(name, text) => put_attribute(out, name, text),
        Piece::Xml(text) => put_xml(out, text),
    }
}

// ---- names and links

/// Appends a name in a section: a page, or an entry of the ignore list as it is.
fn put_name_in(out: &mut Vec<u8>, how: Escape, section: Section, text: &str) -> Result<(), NoMemory>
    ensures { OnOk result (out.new.items ≡ out.old.items ++ name_in how section text.now) }
{
    match section {
        Section::Unreached | Section::Unlisted => put_page_name(out, how, text),
        Section::Broken
        | Section::Worst
        | Section::Redirects
        | Section::External
        | Section::Unused => put_escaped(out, how, text),
    }
}

/// Appends the target of a redirect.
fn put_redirect_target(
    out: &mut Vec<u8>,
    how: Escape,
    page: &Option<String>,
) -> Result<(), NoMemory>
    ensures { OnOk result (out.new.items ≡ out.old.items ++ redirect_target how (option_map string_bytes page.now)) }
{
    match page {
        Some(page) => put_page_name(out, how, page.as_str()),
        None => put(out, "-"),
    }
}

/// Appends the page that is suggested, in parentheses, or nothing if there is none.
fn put_same_name(out: &mut Vec<u8>, how: Escape, page: &Option<String>) -> Result<(), NoMemory>
    ensures { OnOk result (out.new.items ≡ out.old.items ++ same_name_text how (option_map string_bytes page.now)) }
{
    match page {
        Some(page) => {
            put(out, " (did you mean ")?;
            put_page_name(out, how, page.as_str())?;
            put(out, "?)")
        }
        None => Ok(()),
    }
}

/// Appends the hint, in parentheses, or nothing if there is none.
fn put_hint(out: &mut Vec<u8>, how: Escape, hint: &Option<String>) -> Result<(), NoMemory>
    ensures { OnOk result (out.new.items ≡ out.old.items ++ hint_text how (option_map string_bytes hint.now)) }
{
    match hint {
        Some(hint) => put_bracketed(out, " (", how, hint.as_str()),
        None => Ok(()),
    }
}

/// Appends a word and the link as it is written, in parentheses; nothing if that is not known, or if the name of the target ends with it.
fn put_written(
    out: &mut Vec<u8>,
    how: Escape,
    word: &str,
    broken: &Broken,
    link: &Option<String>,
) -> Result<(), NoMemory>
    ensures { OnOk result (out.new.items ≡ out.old.items ++ written_text how word.now broken.now (option_map string_bytes link.now)) }
{
    match link {
        Some(link) => put_link_written(out, how, word, broken, link.as_str()),
        None => Ok(()),
    }
}

/// Appends a word and the link as it is written, in parentheses, unless the name of the target ends with it.
fn put_link_written(
    out: &mut Vec<u8>,
    how: Escape,
    word: &str,
    broken: &Broken,
    link: &str,
) -> Result<(), NoMemory>
    ensures { OnOk result (out.new.items ≡ out.old.items ++ written_text how word.now broken.now (Some link.now)) }
{
    if ends_with_link(*out.allocator(), how, broken, link)? {
        Ok(())
    } else {
        put_bracketed(out, word, how, link)
    }
}

/// Appends a word with the opening parenthesis, a text, and the closing parenthesis.
fn put_bracketed(out: &mut Vec<u8>, word: &str, how: Escape, text: &str) -> Result<(), NoMemory>
    ensures { OnOk result (out.new.items ≡ out.old.items ++ bracketed how word.now text.now) }
{
    put(out, word)?;
    put_escaped(out, how, text)?;
    put(out, ")")
}

// ---- items

/// Appends an item of a list. `word` is the HTML before the count, with the start tags.
fn put_item(out: &mut Vec<u8>, word: &str, count: u64) -> Result<(), NoMemory>
    ensures { OnOk result (out.new.items ≡ out.old.items ++ total_item word.now count) }
{
    put_counted(out, word, count)?;
    put(out, "</b></li>\n")
}

/// Appends an item if there is a count. `word` is the HTML before the count.
fn put_item_if(out: &mut Vec<u8>, word: &str, count: Option<usize>) -> Result<(), NoMemory>
    ensures { OnOk result (out.new.items ≡ out.old.items ++ item_if word.now count) }
{
    match count {
        Some(count) => put_item(out, word, count as u64),
        None => Ok(()),
    }
}

/// Appends an item if the count is not 0. `word` is the HTML before the count.
fn put_item_some(out: &mut Vec<u8>, word: &str, count: u64) -> Result<(), NoMemory>
    ensures { OnOk result (out.new.items ≡ out.old.items ++ item_some word.now count) }
{
    if count == 0 {
        Ok(())
    } else {
        put_item(out, word, count)
    }
}
