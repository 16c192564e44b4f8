//! Members of a JSON object.
ghost use Rattle.std.specs.Prelude.{◌≡◌, ◌++◌, ◌∷◌, [], OnOk, decimal, codes, option_map};
ghost use Rattle.json.specs.Token.{key, string, number};
ghost use Rattle.json.specs.Tree.{json_tokens};
ghost use Rattle.crawl_report.specs.Members.{text_or_null};

use crawl_pages::NoMemory;
use itoa::Buffer;
use json::Writer;

/// Writes the members `kind` and `url`.
pub fn put_url(out: &mut Writer, kind: &str, url: &str) -> Result<(), NoMemory>
    ensures tokens { OnOk result (out.new.tokens ≡ (out.old.tokens ++ key (codes "kind") ∷ string kind.now ∷ []) ++ key (codes "url") ∷ string url.now ∷ []) }
    ensures before { out.new.before ≡ out.old.before }
{
    put_text(out, "kind", kind)?;
    put_text(out, "url", url)
}

/// Writes a member whose value is a string.
pub fn put_text(out: &mut Writer, name: &str, text: &str) -> Result<(), NoMemory>
    ensures tokens { OnOk result (out.new.tokens ≡ out.old.tokens ++ key name.now ∷ string text.now ∷ []) }
    ensures before { out.new.before ≡ out.old.before }
{
    out.key(name)?;
    out.string(text)
}

/// Writes a member whose value is a string, or null if there is no text.
pub fn put_text_or_null(out: &mut Writer, name: &str, text: Option<&str>) -> Result<(), NoMemory>
    ensures tokens { OnOk result (out.new.tokens ≡ out.old.tokens ++ key name.now ∷ json_tokens (text_or_null (option_map (λ t. t.now) text.entry))) }
    ensures before { out.new.before ≡ out.old.before }
{
    out.key(name)?;
    match text {
        Some(text) => out.string(text),
        None => out.null(),
    }
}

/// Writes a member whose value is a number.
#[tactic(auto, using(crate::proofs::Printed::decimal_IsNumber))]
pub fn put_count(out: &mut Writer, name: &str, count: u128) -> Result<(), NoMemory>
    ensures tokens { OnOk result (out.new.tokens ≡ out.old.tokens ++ key name.now ∷ number (decimal count) ∷ []) }
    ensures before { out.new.before ≡ out.old.before }
{
    let mut buffer = Buffer::new();
    out.key(name)?;
    out.number(buffer.format(count))
}
