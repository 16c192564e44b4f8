//! What comes before the settings in the first line of a log: which part of a crawl it is of, and its identity.
ghost use Rattle.std.specs.Prelude.{◌≡◌, ◌++◌, IfOk, string_bytes, option_map};
ghost use Rattle.crawl_session.specs.LogStarts as spec;

use crawl_core::NoMemory;
use crawl_replay::number32;
use std::alloc::Global;
use text_lines::split_space;

/// `part I of K` for a part with its number and how many there are, and `identity TEXT`, each with a space after it.
///
/// # Errors
/// Out of memory.
pub fn start_text(
    alloc: Global,
    part: Option<(u32, u32)>,
    identity: Option<&str>,
) -> Result<String, NoMemory>
    ensures { IfOk result (λ text. string_bytes text ≡ spec.start_text part (option_map (λ t. t.now) identity.entry)) }
{
    let mut text = part_text(alloc, part)?;
    push_identity(&mut text, identity)?;
    Ok(text)
}

/// Returns `part I of K` with a space after it, or an empty text for a crawl that is not divided.
fn part_text(alloc: Global, part: Option<(u32, u32)>) -> Result<String, NoMemory>
    ensures { IfOk result (λ text. string_bytes text ≡ spec.part_text part) }
{
    let mut text = String::new(alloc);
    match part {
        None => Ok(text),
        Some((number, parts)) => {
            write!(text, "part {number} of {parts} ")?;
            Ok(text)
        }
    }
}

/// Appends `identity TEXT` with a space after it, if there is an identity.
fn push_identity(text: &mut String, identity: Option<&str>) -> Result<(), NoMemory>
    ensures { IfOk result (λ _. string_bytes text.new ≡ string_bytes text.old ++ spec.identity_text (option_map (λ t. t.now) identity.entry)) }
{
    match identity {
        None => Ok(()),
        Some(identity) => {
            write!(text, "identity {identity} ")?;
            Ok(())
        }
    }
}

/// What a log's first line begins with: its part, its identity, and what follows them, which is the whole line if it
/// names neither.
pub fn read_start(line: &str) -> (Option<(u32, u32)>, Option<&str>, &str)
    ensures { (result.0, (option_map (λ t. t.now) result.1, result.2.now)) ≡ spec.read_start line.now }
{
    let (part, rest) = read_part(line);
    match value_of(rest, "identity") {
        Some((identity, rest)) => (part, Some(identity), rest),
        None => (part, None, rest),
    }
}

/// Returns the part that the line begins with, and what follows it: the whole line if it names none.
fn read_part(line: &str) -> (Option<(u32, u32)>, &str)
    ensures { (result.0, result.1.now) ≡ spec.read_part line.now }
{
    match part_in(line) {
        Some((number, parts, rest)) => (Some((number, parts)), rest),
        None => (None, line),
    }
}

/// Reads `part I of K` at the beginning of the line: the number of the part, the number of parts, and the rest of the line.
fn part_in(line: &str) -> Option<(u32, u32, &str)>
    ensures { option_map (λ x. (x.0, (x.1, x.2.now))) result ≡ spec.part_in line.now }
{
    let (number, rest) = value_of(line, "part")?;
    let (parts, rest) = value_of(rest, "of")?;
    let number = number32(number)?;
    let parts = number32(parts)?;
    Some((number, parts, rest))
}

/// The word after this one, at the beginning of the text, and what follows it.
fn value_of<'a>(text: &'a str, word: &str) -> Option<(&'a str, &'a str)>
    ensures { option_map (λ x. (x.0.now, x.1.now)) result ≡ spec.value_of word.now text.now }
{
    let (first, rest) = split_space(text)?;
    if first != word {
        return None;
    }
    split_space(rest)
}
