//! Escapes texts for XML 1.0.
ghost use Rattle.std.specs.Prelude.{◌≡◌, ◌-◌, ◌≤◌, ◌++◌, IfOk, IsUtf8, OnOk, length};
ghost use Rattle.check_report.specs.Junit.{attribute, xml, xml_char};

use crate::escape::put_html_char;
use crate::put::{NoMemory, put};

/// Appends an attribute, with the space before it.
#[tactic(auto, unfolding(crate::specs::Junit::attribute))]
pub fn put_attribute(out: &mut Vec<u8>, name: &str, text: &str) -> Result<(), NoMemory>
    ensures { OnOk result (out.new.items ≡ out.old.items ++ attribute name.now text.now) }
{
    put(out, " ")?;
    put(out, name)?;
    put(out, "=\"")?;
    put_xml(out, text)?;
    put(out, "\"")
}

/// Appends a text, escaped for XML. Characters that XML does not allow, and hidden ones, are shown as escapes such as `\u{1b}`.
#[tactic(auto, using(crate::proofs::Suites::xml_done))]
pub fn put_xml(out: &mut Vec<u8>, text: &str) -> Result<(), NoMemory>
    ensures { OnOk result (out.new.items ≡ out.old.items ++ xml text.now) }
{
    let mut rest = text;
    'chars: while !rest.is_empty() {
        rest = put_first(out, rest)?;
    }
    Ok(())
}

/// Appends the first character of the text, escaped, and returns the rest.
#[tactic(auto, using(crate::proofs::Suites::xml_put))]
fn put_first<'a>(out: &mut Vec<u8>, text: &'a str) -> Result<&'a str, NoMemory>
    ensures text { IfOk result (λ rest. out.new.items ++ xml rest.now ≡ out.old.items ++ xml text.now) }
    ensures shorter { IfOk result (λ rest. length rest.now ≤ length text.now - 1) }
    ensures utf8 { IfOk result (λ rest. IsUtf8 rest.now) }
{
    let mut rest = text.chars();
    match rest.next() {
        Some(c) => {
            put_xml_char(out, c)?;
            Ok(rest.as_str())
        }
        None => Ok(text),
    }
}

/// Appends a character, escaped.
fn put_xml_char(out: &mut Vec<u8>, c: char) -> Result<(), NoMemory>
    ensures { OnOk result (out.new.items ≡ out.old.items ++ xml_char c) }
{
    if c == '\u{fffe}' {
        return put(out, "\\u{fffe}");
    }
    if c == '\u{ffff}' {
        return put(out, "\\u{ffff}");
    }
    put_html_char(out, c)
}
