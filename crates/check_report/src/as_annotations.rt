//! Prints a row as a GitHub annotation.
ghost use Rattle.std.specs.Prelude.{◌≡◌, ◌++◌, OnOk};
ghost use Rattle.check_report.specs.Annotations.{annotation_line, broken_annotation, file_start, hint_annotation, name_annotation, place_annotation, unlisted_annotation};
ghost use Rattle.check_report.specs.Rows.{line_of};

use crate::as_text::{message, put_link_end};
use crate::escape::Escape;
use crate::hints::put_base_hint;
use crate::paths::{slash_after, without_here};
use crate::piece::{Piece, put_all};
use crate::put::{NoMemory, put};
use crate::row::{Row, Section};
use crate::value::{BaseHint, Broken, Place};

/// Appends the annotation of a row, if it has one; the path of its file starts with the folder.
pub fn put_annotation(out: &mut Vec<u8>, folder: &str, row: Row<'_>) -> Result<(), NoMemory>
    ensures { OnOk result (out.new.items ≡ out.old.items ++ annotation_line folder.now (line_of row.entry)) }
{
    match row {
        Row::Hint(hint) => put_hint(out, hint),
        Row::Broken(broken) => put_broken(out, broken),
        Row::Place(broken, place) => put_place(out, folder, broken, place),
        Row::Name(section, text) => put_name(out, section, text),
        Row::Total { .. }
        | Row::Begin(_)
        | Row::Finish(_)
        | Row::More(_)
        | Row::Rest(_, _)
        | Row::Worst(_)
        | Row::Redirect(_)
        | Row::External(_)
        | Row::Last => Ok(()),
    }
}

/// Appends a `::notice` command for the hint at BASE.
fn put_hint(out: &mut Vec<u8>, hint: &BaseHint) -> Result<(), NoMemory>
    ensures { OnOk result (out.new.items ≡ out.old.items ++ hint_annotation hint.now) }
{
    put(out, "::notice::")?;
    put_base_hint(out, Escape::Data, hint)?;
    put(out, "\n")
}

/// Appends an `::error` command without a location if the target has no locations; otherwise nothing.
fn put_broken(out: &mut Vec<u8>, broken: &Broken) -> Result<(), NoMemory>
    ensures { OnOk result (out.new.items ≡ out.old.items ++ broken_annotation broken.now) }
{
    if broken.places.len() > 0 {
        return Ok(());
    }
    put_all(
        out,
        &[
            Piece::Text("::error::"),
            Piece::Target(Escape::Data, broken),
            Piece::Text(": "),
            Piece::Text(message(broken.kind)),
            Piece::SameName(Escape::Data, &broken.same_name),
            Piece::Hint(Escape::Data, &broken.hint),
            Piece::Text("\n"),
        ],
    )
}

/// Appends an `::error` command for a broken link: the file, the line and the column, the target, what is wrong with it, the link as it
/// is written, the note about its scheme, and what is suggested.
fn put_place<'r>(
    out: &mut Vec<u8>,
    folder: &str,
    broken: &'r Broken,
    place: &'r Place,
) -> Result<(), NoMemory>
    ensures { OnOk result (out.new.items ≡ out.old.items ++ place_annotation folder.now broken.now place.now) }
{
    put_file_start(out, without_here(folder))?;
    put_all(
        out,
        &[
            Piece::Escaped(Escape::Property, place.file.as_str()),
            Piece::Counted(",line=", place.line),
            Piece::Counted(",col=", place.column),
            Piece::Text("::"),
            Piece::Target(Escape::Data, broken),
            Piece::Text(": "),
            Piece::Text(message(broken.kind)),
        ],
    )?;
    put_link_end(out, Escape::Data, broken, place)
}

/// Appends `::error file=` with the folder and a slash, or without them for the current folder.
fn put_file_start(out: &mut Vec<u8>, folder: &str) -> Result<(), NoMemory>
    ensures { OnOk result (out.new.items ≡ out.old.items ++ file_start folder.now) }
{
    if folder == "." {
        return put(out, "::error file=");
    }
    put_all(
        out,
        &[
            Piece::Text("::error file="),
            Piece::Escaped(Escape::Property, folder),
            Piece::Text(slash_after(folder)),
        ],
    )
}

/// Appends an `::error` command without a location for a document that no sitemap lists; nothing for other names.
fn put_name(out: &mut Vec<u8>, section: Section, text: &str) -> Result<(), NoMemory>
    ensures { OnOk result (out.new.items ≡ out.old.items ++ name_annotation section text.now) }
{
    match section {
        Section::Unlisted => put_unlisted(out, text),
        Section::Broken
        | Section::Worst
        | Section::Redirects
        | Section::Unreached
        | Section::External
        | Section::Unused => Ok(()),
    }
}

/// Appends an `::error` command for a document that no sitemap lists.
fn put_unlisted(out: &mut Vec<u8>, document: &str) -> Result<(), NoMemory>
    ensures { OnOk result (out.new.items ≡ out.old.items ++ unlisted_annotation document.now) }
{
    put_all(
        out,
        &[
            Piece::Text("::error::"),
            Piece::Escaped(Escape::Data, document),
            Piece::Text(": not in a sitemap\n"),
        ],
    )
}
