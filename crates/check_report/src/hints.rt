//! The text of the hint at BASE.
ghost use Rattle.std.specs.Prelude.{◌≡◌, ◌++◌, IfOk, OnOk, string_bytes};
ghost use Rattle.check_report.specs.Hints.{base_hint, base_hint_text, folder_end, hint_counts, hint_end};

use crate::escape::{Escape, put_escaped};
use crate::names::has_host;
use crate::put::{NoMemory, push_around, push_count};
use crate::value::BaseHint;
use std::alloc::Global;

/// Appends the text of the hint, escaped for its position.
pub fn put_base_hint(out: &mut Vec<u8>, how: Escape, hint: &BaseHint) -> Result<(), NoMemory>
    ensures { OnOk result (out.new.items ≡ out.old.items ++ base_hint how hint.now) }
{
    let text = base_hint_text(*out.allocator(), hint)?;
    put_escaped(out, how, text.as_str())
}

/// The text of the hint: how many links begin with the URL or the folder, and what to pass as BASE.
#[tactic(auto, unfolding(crate::specs::Hints::base_hint_text))]
pub fn base_hint_text(alloc: Global, hint: &BaseHint) -> Result<String, NoMemory>
    ensures { IfOk result (λ text. string_bytes text ≡ base_hint_text hint.now) }
{
    let mut text = hint_counts(alloc, hint)?;
    push_hint_end(&mut text, hint.folder.as_str())?;
    Ok(text)
}

/// How many links begin with the URL or the folder, and of how many.
fn hint_counts(alloc: Global, hint: &BaseHint) -> Result<String, NoMemory>
    ensures { IfOk result (λ text. string_bytes text ≡ hint_counts hint.now) }
{
    let mut text = String::new(alloc);
    text.push_str("hint: ")?;
    push_count(&mut text, hint.paths)?;
    text.push_str(" of ")?;
    push_count(&mut text, hint.of)?;
    Ok(text)
}

/// Appends the URL or the folder with which these links begin, and what to pass as BASE.
fn push_hint_end(text: &mut String, start: &str) -> Result<(), NoMemory>
    ensures { OnOk result (string_bytes text.new ≡ string_bytes text.old ++ hint_end start.now) }
{
    if has_host(start) {
        push_around(text, " HTTP links begin with ", start, ": pass it as BASE")
    } else {
        push_folder_end(text, start)
    }
}

/// Appends the folder with which these links begin, and what to pass as BASE: a URL that ends with the folder.
fn push_folder_end(text: &mut String, folder: &str) -> Result<(), NoMemory>
    ensures { OnOk result (string_bytes text.new ≡ string_bytes text.old ++ folder_end folder.now) }
{
    text.push_str(" paths from the root begin with ")?;
    push_around(
        text,
        folder,
        ", which is not in the folder: pass BASE, such as https://HOST",
        folder,
    )
}
