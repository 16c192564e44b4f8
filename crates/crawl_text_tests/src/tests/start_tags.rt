//! The start tags of documents, of which commands show only the links. A tag is its name, its attributes with their values in
//! brackets, and a slash if it closes itself.
use html_links::{AttributeAt, StartTagAt, tags};
use std::alloc::Global;

/// A document and its start tags.
const ROWS: &[(&str, &str)] = &[
    // Attributes: bare, in quotes, in capitals, without a value; a tag that closes itself, and one that has no end.
    (
        "<a href=x/y class = 'b' ID=\"c\" d e=>f",
        "a href[x/y] class[b] ID[c] d[] e[];",
    ),
    ("<g/><h =x==y /i>", "g/;h =x[=y] i[];"),
    ("<j k='l'm=n/ o><a b='c", "j k[l] m[n/] o[];"),
    // Comments and their odd ends.
    ("<!doctype html><a><!-- <b> --><c>", "a;c;"),
    ("<!--><d><!---><e><!-- --!> <f>", "d;e;f;"),
    ("<!- > <g><!-- <!-- --> <h>", "g;h;"),
    ("<!-- -- > <i>", ""),
    // End tags, bogus comments, and text that is not a tag.
    ("a < b <1> </a href='>'><c>", "c;"),
    ("<?x <b> ><c></ d><e></><f>", "c;e;f;"),
    ("<a></g h=\"<i>\"><j k='", "a;"),
    // Elements that contain only text.
    ("<Title><b></title><p>", "Title;p;"),
    ("<style>a<b></styles></ style></STYLE x='>'><i>", "style;i;"),
    ("<textarea></textarea", "textarea;"),
    ("<plaintext></plaintext><a>", "plaintext;"),
    // Scripts, and their escaped states.
    ("<script>if(a<b)'</scrip>'</script/><u>", "script;u;"),
    ("<script><!--<a></script><b>", "script;b;"),
    ("<script><!--<script></script><a></script><b>", "script;b;"),
    ("<script><!--<script>--></script><c>", "script;c;"),
    ("<script><!--<scripts></script><d>", "script;d;"),
    ("<script><!-- --><script></script><e>", "script;e;"),
];

/// The text after the attribute, if the text begins with it.
fn after_attribute<'a>(attribute: &AttributeAt, text: &'a [u8]) -> Option<&'a [u8]> {
    let name = text.strip_prefix(b" ")?.strip_prefix(attribute.name)?;
    let value = name.strip_prefix(b"[")?.strip_prefix(attribute.value)?;
    value.strip_prefix(b"]")
}

/// The text after the tag, if the text begins with it.
fn past_tag<'a>(tag: &StartTagAt, text: &'a [u8]) -> Option<&'a [u8]> {
    let mut rest = text.strip_prefix(tag.name)?;
    for attribute in &tag.attributes {
        rest = after_attribute(attribute, rest)?;
    }
    let end = if tag.self_closing { "/;" } else { ";" };
    rest.strip_prefix(end.as_bytes())
}

/// Whether the text has exactly these tags.
fn are_found(found: &[StartTagAt], text: &[u8]) -> bool {
    let mut rest = text;
    for tag in found {
        match past_tag(tag, rest) {
            Some(following) => rest = following,
            None => return false,
        }
    }
    rest.is_empty()
}

fn has_tags(alloc: Global, html: &str, text: &str) -> bool {
    match tags(alloc, html.as_bytes()) {
        Ok(found) => are_found(&found, text.as_bytes()),
        Err(_) => false,
    }
}

#[test]
fn start_tags(rt: HostRuntime) {
    for (html, text) in ROWS {
        assert!(rt; has_tags(rt.alloc(), html, text), "{html}");
    }
}
