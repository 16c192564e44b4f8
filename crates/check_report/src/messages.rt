//! The messages about findings in JUnit XML and SARIF.
ghost use Rattle.std.specs.Prelude.{◌≡◌, ◌++◌, IfOk, OnOk, Some, codes, option_map, string_bytes};
ghost use Rattle.check_report.specs.Messages.{advice_part, hint_part, link_message, message_start, rule_id, same_name_part, target_message, unlisted_message, written_part};
ghost use Rattle.check_report.specs.Text.{noted};

use crate::as_text::message;
use crate::escape::Escape;
use crate::names::{ends_with_link, page_name, target_name};
use crate::put::{NoMemory, push_around};
use crate::schemes::scheme_note;
use crate::value::{Broken, Kind, Place};
use std::alloc::Global;

/// The name of a kind of finding.
pub fn rule_id(kind: Kind) -> &'static str
    ensures { result.now ≡ rule_id kind }
{
    match kind {
        Kind::NoPage => "missing-page",
        Kind::NoAnchor => "missing-anchor",
        Kind::NotUrl => "not-a-url",
        Kind::UnknownScheme => "unknown-scheme",
        Kind::LocalFile => "local-file",
        Kind::Leaves => "leaves-the-folder",
        Kind::OutsideBase => "outside-base",
        Kind::NotInMap => "not-in-map",
    }
}

/// The name of the finding of a document that no sitemap lists.
pub const NOT_IN_SITEMAP: &str = "not-in-sitemap";

/// The message about a document that no sitemap lists.
#[tactic(auto, unfolding(crate::specs::Messages::unlisted_message))]
pub fn unlisted_message(alloc: Global, document: &str) -> Result<String, NoMemory>
    ensures { IfOk result (λ text. string_bytes text ≡ unlisted_message document.now) }
{
    let mut text = page_name(alloc, document)?;
    text.push_str(": not in a sitemap")?;
    Ok(text)
}

/// The message about a link: its target, what is wrong with it, the link as it is written, the note about its scheme, and what is
/// suggested.
#[tactic(auto, unfolding(crate::specs::Messages::link_message))]
pub fn link_message(alloc: Global, broken: &Broken, place: &Place) -> Result<String, NoMemory>
    ensures { IfOk result (λ text. string_bytes text ≡ link_message broken.now place.now) }
{
    let mut text = message_start(alloc, broken)?;
    push_written(alloc, &mut text, broken, &place.written)?;
    push_note(&mut text, scheme_note(broken, place))?;
    push_advice(alloc, &mut text, broken)?;
    Ok(text)
}

/// The message about a target without locations: what is wrong with it, and what is suggested.
#[tactic(auto, unfolding(crate::specs::Messages::target_message))]
pub fn target_message(alloc: Global, broken: &Broken) -> Result<String, NoMemory>
    ensures { IfOk result (λ text. string_bytes text ≡ target_message broken.now) }
{
    let mut text = message_start(alloc, broken)?;
    push_advice(alloc, &mut text, broken)?;
    Ok(text)
}

/// A target and what is wrong with it.
fn message_start(alloc: Global, broken: &Broken) -> Result<String, NoMemory>
    ensures { IfOk result (λ text. string_bytes text ≡ message_start broken.now) }
{
    let mut text = target_name(alloc, broken)?;
    text.push_str(": ")?;
    text.push_str(message(broken.kind))?;
    Ok(text)
}

/// Appends the link as it is written, in parentheses; nothing if that is not known, or if the name of the target ends with it.
fn push_written(
    alloc: Global,
    text: &mut String,
    broken: &Broken,
    link: &Option<String>,
) -> Result<(), NoMemory>
    ensures { OnOk result (string_bytes text.new ≡ string_bytes text.old ++ written_part broken.now (option_map string_bytes link.now)) }
{
    match link {
        Some(link) => push_link(alloc, text, broken, link.as_str()),
        None => Ok(()),
    }
}

/// Appends the link as it is written, in parentheses, unless the name of the target ends with it.
fn push_link(alloc: Global, text: &mut String, broken: &Broken, link: &str) -> Result<(), NoMemory>
    ensures { OnOk result (string_bytes text.new ≡ string_bytes text.old ++ written_part broken.now (Some link.now)) }
{
    if ends_with_link(alloc, Escape::Shown, broken, link)? {
        Ok(())
    } else {
        push_around(text, " (written as ", link, ")")
    }
}

/// Appends a space and a note in parentheses, or nothing if the note is empty.
fn push_note(text: &mut String, note: &str) -> Result<(), NoMemory>
    ensures { OnOk result (string_bytes text.new ≡ string_bytes text.old ++ noted (codes " ") note.now) }
{
    if note.is_empty() {
        return Ok(());
    }
    push_around(text, " (", note, ")")
}

/// Appends the page that is suggested, and the hint.
fn push_advice(alloc: Global, text: &mut String, broken: &Broken) -> Result<(), NoMemory>
    ensures { OnOk result (string_bytes text.new ≡ string_bytes text.old ++ advice_part broken.now) }
{
    push_same_name(alloc, text, &broken.same_name)?;
    push_hint(text, &broken.hint)
}

/// Appends the page that is suggested, in parentheses, or nothing if there is none.
fn push_same_name(alloc: Global, text: &mut String, page: &Option<String>) -> Result<(), NoMemory>
    ensures { OnOk result (string_bytes text.new ≡ string_bytes text.old ++ same_name_part (option_map string_bytes page.now)) }
{
    match page {
        Some(page) => {
            let mut name = page_name(alloc, page.as_str())?;
            name.push_str("?")?;
            push_around(text, " (did you mean ", name.as_str(), ")")
        }
        None => Ok(()),
    }
}

/// Appends the hint, in parentheses, or nothing if there is none.
fn push_hint(text: &mut String, hint: &Option<String>) -> Result<(), NoMemory>
    ensures { OnOk result (string_bytes text.new ≡ string_bytes text.old ++ hint_part (option_map string_bytes hint.now)) }
{
    match hint {
        Some(hint) => push_around(text, " (", hint.as_str(), ")"),
        None => Ok(()),
    }
}
