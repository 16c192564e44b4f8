//! Writes JSON objects member by member.
ghost use Rattle.std.specs.Prelude.{◌≡◌, ◌++◌, ◌∷◌, [], IfOk, OnOk, decimal, flat_map, if◌then◌else◌, option_map, string_bytes};
ghost use Rattle.json.specs.Json.{object};
ghost use Rattle.json.specs.Print.{print};
ghost use Rattle.json.specs.Token.{key, number, string};
ghost use Rattle.json.specs.Tree.{json_tokens};
ghost use Rattle.check_report.specs.Json.{object_line, text_or_null};
ghost use Rattle.check_report.specs.Objects.{count_tokens, member_tokens, members_from, text_tokens};

use crate::put::{NoMemory, put};
use json::Writer;
use std::mem;

/// A member of an object: its name and its value.
#[derive(Clone, Copy)]
pub enum Member<'a> {
    /// A string.
    Text(&'static str, &'a str),
    /// A string, or null if there is no text.
    TextOrNull(&'static str, &'a Option<String>),
    /// A string, or null if there is no text. The object has this member only if the condition holds.
    TextOrNullIf(bool, &'static str, &'a Option<String>),
    /// A string. The object has this member only if the text is not empty.
    TextIfAny(&'static str, &'static str),
    /// A number.
    Count(&'static str, u64),
    /// A number. The object has this member only if there is a count.
    CountIf(&'static str, Option<usize>),
}

/// Appends an object with these members, without spaces, and LF.
#[tactic(auto, unfolding(crate::specs::Json::object_line))]
pub fn put_object(out: &mut Vec<u8>, members: &[Member<'_>]) -> Result<(), NoMemory>
    ensures { OnOk result (out.new.items ≡ out.old.items ++ object_line (members_from members.now)) }
{
    let alloc = *out.allocator();
    *out = with_object(mem::replace(out, Vec::new(alloc)), members)?;
    put(out, "\n")
}

/// Appends an object with these members, without spaces.
#[tactic(auto, using(crate::proofs::Objects::object_written))]
fn with_object(out: Vec<u8>, members: &[Member<'_>]) -> Result<Vec<u8>, NoMemory>
    ensures { IfOk result (λ more. more.items ≡ out.items ++ print (json_tokens (object (members_from members.now)))) }
{
    let mut writer = Writer::new(out);
    writer.begin_object()?;
    put_members(&mut writer, members)?;
    writer.end_object()?;
    Ok(writer.into_inner())
}

/// Writes these members. The caller starts and ends the object.
fn put_members(out: &mut Writer, members: &[Member<'_>]) -> Result<(), NoMemory>
    ensures tokens { OnOk result (out.new.tokens ≡ out.old.tokens ++ flat_map member_tokens members.now) }
    ensures before { out.new.before ≡ out.old.before }
{
    for member in members {
        put_member(out, *member)?;
    }
    Ok(())
}

/// Writes a member.
fn put_member(out: &mut Writer, member: Member<'_>) -> Result<(), NoMemory>
    ensures tokens { OnOk result (out.new.tokens ≡ out.old.tokens ++ member_tokens member.entry) }
    ensures before { out.new.before ≡ out.old.before }
{
    match member {
        Member::Text(name, text) => put_text(out, name, text),
        Member::TextOrNull(name, text) => put_text_or_null(out, name, text),
        Member::TextOrNullIf(is_there, name, text) => put_text_or_null_if(
            out, is_there, name, text,
        ),
        Member::TextIfAny(name, text) => put_text_if_any(out, name, text),
        Member::Count(name, count) => put_count(out, name, count),
        Member::CountIf(name, count) => put_count_if(out, name, count),
    }
}

/// Writes a member whose value is a string.
pub fn put_text(out: &mut Writer, name: &str, text: &str) -> Result<(), NoMemory>
    ensures tokens { OnOk result (out.new.tokens ≡ out.old.tokens ++ key name.now ∷ string text.now ∷ []) }
    ensures before { out.new.before ≡ out.old.before }
{
    out.key(name)?;
    out.string(text)
}

/// Writes a member whose value is a string, or null if there is no text.
fn put_text_or_null(out: &mut Writer, name: &str, text: &Option<String>) -> Result<(), NoMemory>
    ensures tokens { OnOk result (out.new.tokens ≡ out.old.tokens ++ key name.now ∷ json_tokens (text_or_null (option_map string_bytes text.now))) }
    ensures before { out.new.before ≡ out.old.before }
{
    out.key(name)?;
    match text {
        Some(text) => out.string(text.as_str()),
        None => out.null(),
    }
}

/// Writes such a member if the condition holds, otherwise nothing.
fn put_text_or_null_if(
    out: &mut Writer,
    is_there: bool,
    name: &str,
    text: &Option<String>,
) -> Result<(), NoMemory>
    ensures tokens { OnOk result (out.new.tokens ≡ out.old.tokens ++ (if is_there then key name.now ∷ json_tokens (text_or_null (option_map string_bytes text.now)) else [])) }
    ensures before { out.new.before ≡ out.old.before }
{
    if is_there {
        put_text_or_null(out, name, text)
    } else {
        Ok(())
    }
}

/// Writes a member whose value is a string, or nothing if that is empty.
fn put_text_if_any(out: &mut Writer, name: &str, text: &str) -> Result<(), NoMemory>
    ensures tokens { OnOk result (out.new.tokens ≡ out.old.tokens ++ text_tokens name.now text.now) }
    ensures before { out.new.before ≡ out.old.before }
{
    if text.is_empty() {
        Ok(())
    } else {
        put_text(out, name, text)
    }
}

/// Writes a member whose value is a number.
pub fn put_count(out: &mut Writer, name: &str, count: u64) -> Result<(), NoMemory>
    ensures tokens { OnOk result (out.new.tokens ≡ out.old.tokens ++ key name.now ∷ number (decimal count) ∷ []) }
    ensures before { out.new.before ≡ out.old.before }
{
    out.key(name)?;
    out.u64(count)
}

/// Writes a member whose value is a number, or nothing if there is no count.
fn put_count_if(out: &mut Writer, name: &str, count: Option<usize>) -> Result<(), NoMemory>
    ensures tokens { OnOk result (out.new.tokens ≡ out.old.tokens ++ count_tokens name.now count) }
    ensures before { out.new.before ≡ out.old.before }
{
    match count {
        Some(count) => put_count(out, name, count as u64),
        None => Ok(()),
    }
}
