//! What a link seems to lack: a scheme, the colon of one, or the slashes after it.
ghost use Rattle.std.specs.Prelude.{◌≡◌};
ghost use Rattle.std.specs.List.{list_all, list_any};
ghost use Rattle.check_report.specs.Schemes.{are_mail, begins_with_letter, has_dot, is_letter, is_mail_address, is_mail_byte, is_mail_text, is_slash, is_web, kind_note, lacks_colon, lacks_slashes, link_note, names_host, scheme_note, slashes_note};

use crate::value::{Broken, Kind, Place};

/// A question about the link at a location, if it leads to a missing page and seems to lack a scheme, or the colon of one, or if it lacks
/// its slashes and leads to no page of the site or is invalid; otherwise an empty text.
pub fn scheme_note(broken: &Broken, place: &Place) -> &'static str
    ensures { result.now ≡ scheme_note broken.now place.now }
{
    match &place.written {
        Some(link) => kind_note(broken.kind, link.as_str()),
        None => kind_note(broken.kind, broken.target.as_str()),
    }
}

/// The question about a link to a target of this kind. Links to missing anchors, and those with an unknown or a local scheme, have none.
fn kind_note(kind: Kind, link: &str) -> &'static str
    ensures { result.now ≡ kind_note kind link.now }
{
    match kind {
        Kind::NoPage => link_note(link),
        Kind::NotUrl | Kind::Leaves | Kind::OutsideBase | Kind::NotInMap => slashes_note(link),
        Kind::NoAnchor | Kind::UnknownScheme | Kind::LocalFile => "",
    }
}

/// The question about a link to a missing page, by its text.
fn link_note(link: &str) -> &'static str
    ensures { result.now ≡ link_note link.now }
{
    if lacks_colon(link) {
        "is a colon missing?"
    } else if link.as_bytes().starts_with(b"www.") {
        "is https:// missing?"
    } else if is_mail_address(link) {
        "is mailto: missing?"
    } else {
        slashes_note(link)
    }
}

/// Whether the link begins with `http` or `https` and two slashes, without a colon.
fn lacks_colon(link: &str) -> bool
    ensures { result ≡ lacks_colon link.now }
{
    link.as_bytes().starts_with(b"http//") || link.as_bytes().starts_with(b"https//")
}

/// The question about a link that may lack its slashes, by its text.
fn slashes_note(link: &str) -> &'static str
    ensures { result.now ≡ slashes_note link.now }
{
    if lacks_slashes(link) {
        "are slashes missing?"
    } else {
        ""
    }
}

/// Whether the link begins with `http:` or `https:`, and not with two slashes after that.
fn lacks_slashes(link: &str) -> bool
    ensures { result ≡ lacks_slashes link.now }
{
    match link.split_once(':') {
        Some((scheme, following)) => {
            is_web(scheme.as_bytes()) && !names_host(following.as_bytes())
        }
        None => false,
    }
}

/// Whether the scheme is `http` or `https`, in any case.
fn is_web(scheme: &[u8]) -> bool
    ensures { result ≡ is_web scheme.now }
{
    scheme.eq_ignore_ascii_case(b"http") || scheme.eq_ignore_ascii_case(b"https")
}

/// Whether the text begins with two slashes of either kind.
fn names_host(text: &[u8]) -> bool
    ensures { result ≡ names_host text.now }
{
    match text {
        [first, second, ..] => is_slash(*first) && is_slash(*second),
        _ => false,
    }
}

/// Whether the byte is a slash of either kind.
fn is_slash(byte: u8) -> bool
    ensures { result ≡ is_slash byte }
{
    byte == b'/' || byte == b'\\'
}

/// Whether the link is a mail address: a name, `@` and a host.
fn is_mail_address(link: &str) -> bool
    ensures { result ≡ is_mail_address link.now }
{
    match link.split_once('@') {
        Some((name, host)) => are_mail(name.as_bytes(), host.as_bytes()),
        None => false,
    }
}

/// Whether these are the name and the host of a mail address. The host begins with a letter and has a dot: `logo@2x.png` is a picture.
fn are_mail(name: &[u8], host: &[u8]) -> bool
    ensures { result ≡ are_mail name.now host.now }
{
    !name.is_empty()
        && is_mail_text(name)
        && begins_with_letter(host)
        && has_dot(host)
        && is_mail_text(host)
}

/// Whether each byte may be in the name or in the host of a mail address. This is true of an empty text.
fn is_mail_text(text: &[u8]) -> bool
    ensures { result ≡ is_mail_text text.now }
{
    text.iter().all(|byte| is_mail_byte(*byte))
}

/// Whether the byte is an ASCII letter or digit, `+`, `-`, `.` or `_`.
fn is_mail_byte(byte: u8) -> bool
    ensures { result ≡ is_mail_byte byte }
{
    is_letter(byte) || matches!(byte, b'0'..=b'9' | b'+' | b'-' | b'.' | b'_')
}

/// Whether the byte is an ASCII letter.
fn is_letter(byte: u8) -> bool
    ensures { result ≡ is_letter byte }
{
    matches!(byte, b'A'..=b'Z' | b'a'..=b'z')
}

/// Whether the first byte is an ASCII letter.
fn begins_with_letter(text: &[u8]) -> bool
    ensures { result ≡ begins_with_letter text.now }
{
    match text.first() {
        Some(first) => is_letter(*first),
        None => false,
    }
}

/// Whether the text has a dot.
fn has_dot(text: &[u8]) -> bool
    ensures { result ≡ has_dot text.now }
{
    text.iter().any(|byte| *byte == b'.')
}
