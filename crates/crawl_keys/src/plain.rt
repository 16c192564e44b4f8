//! Texts in common forms: those that the URL parser leaves unchanged. A test of each byte recognizes them.
ghost use Rattle.std.specs.Prelude.{◌≡◌, ◌-◌, ◌<◌, ◌≤◌, ℕ, length, true, IfSome};
ghost use Rattle.std.specs.List.{list_all, prefix_len};
ghost use Rattle.crawl_keys.specs.Lanes.{Follow};
ghost use Rattle.crawl_keys.specs.Links.{IsLink};
ghost use Rattle.crawl_keys.specs.Links as links;
ghost use Rattle.crawl_keys.specs.Plain as spec;
ghost use Rattle.crawl_keys.specs.Spelled.{IsSpelled};

use crate::lanes::{LANES, follow, host_run, other_run};

/// The position of the host in the text of a URL.
#[derive(Clone, Copy)]
pub struct HostPlace {
    /// The position of its first byte.
    pub start: usize,
    /// The position after its last byte.
    pub end: usize,
}

/// How a link is resolved.
#[derive(Clone, Copy)]
pub enum PlainLink {
    /// Its text is a canonical URL.
    Absolute(HostPlace),
    /// It is appended to the page's scheme. Its host, after two slashes, has this many bytes.
    ByHost(usize),
    /// It is appended to what the page's text has before its path.
    Rooted,
    /// It is appended to the page's text before its query.
    Query,
    /// It leads to the page itself.
    Same,
    /// It may lead into the page's folder, or into one above it.
    Relative,
    /// It is none of these.
    Other,
}

/// How a link with this text is resolved.
pub fn plain_link(text: &str) -> PlainLink
    ensures { IsLink text.now result }
{
    match text.as_bytes() {
        [] | [b'#', ..] => PlainLink::Same,
        [b'/', b'/', rest @ ..] => match plain_host_len(rest) {
            Some(len) => PlainLink::ByHost(len),
            None => PlainLink::Other,
        },
        [b'/', ..] if is_plain(0, text.as_bytes()) => PlainLink::Rooted,
        [b'?', ..] if is_plain(0, text.as_bytes()) => PlainLink::Query,
        [b'/' | b'?', ..] => PlainLink::Other,
        [b'h', ..] => match host_place(text) {
            Some(host) => PlainLink::Absolute(host),
            None => PlainLink::Relative,
        },
        _ => PlainLink::Relative,
    }
}

/// How many times the text begins with `../`, and the text after that.
#[tactic(auto, using(crate::proofs::PlainLinks::after_more))]
pub fn after_ups(text: &str) -> (usize, &str)
    ensures { text.now ≡ links.after_ups result.0 result.1.now }
{
    if !matches!(text.as_bytes(), [b'.', ..]) {
        return (0, text);
    }
    let mut ups: usize = 0;
    let mut rest = text;
    while let Some(more) = rest.strip_prefix("../") {
        rest = more;
        ups += 1;
    }
    (ups, rest)
}

/// The position of the host in a text that is seen to be a canonical URL. `None` means unknown: the text may be canonical too.
pub fn host_place(text: &str) -> Option<HostPlace>
    ensures { IfSome result (λ place. IsSpelled text.now place.start place.end) }
{
    if let Some(rest) = text.strip_prefix("http://") {
        let len = plain_host_len(rest.as_bytes())?;
        return Some(HostPlace {
            start: 7,
            end: 7 + len,
        });
    }
    if let Some(rest) = text.strip_prefix("https://") {
        let len = plain_host_len(rest.as_bytes())?;
        return Some(HostPlace {
            start: 8,
            end: 8 + len,
        });
    }
    None
}

/// The length of the host that `rest` begins with, if all of `rest`, the text after a scheme and its slashes, is plain.
pub fn plain_host_len(rest: &[u8]) -> Option<usize>
    ensures plain { IfSome result (λ len. spec.is_plain_host rest.now ≡ true) }
    ensures len { IfSome result (λ len. len ≡ spec.host_len rest.now) }
    ensures within { IfSome result (λ len. len ≤ length rest.now) }
{
    let len = host_len(rest);
    let (host, tail) = rest.split_at(len);
    if begins_path(tail) && is_named(host) && is_plain(0, tail) {
        Some(len)
    } else {
        None
    }
}

/// The length of the host that the bytes begin with.
fn host_len(bytes: &[u8]) -> usize
    ensures value { result ≡ spec.host_len bytes.now }
    ensures within { result ≤ length bytes.now }
{
    let mut len = 0;
    if bytes.len() >= LANES {
        len = host_run(bytes, 0);
    }
    while len < bytes.len() && is_host_byte(bytes[len]) {
        len += 1;
    }
    len
}

/// The number of bytes before the first `mark`.
#[tactic(auto, using(url::proofs::InputLemmas::prefix_len_is, std::proofs::lemmas::Bool::cases_lt))]
pub fn len_before(bytes: &[u8], mark: u8) -> usize
    ensures value { result ≡ prefix_len (spec.is_other mark) bytes.now }
    ensures within { result ≤ length bytes.now }
{
    if bytes.len() < LANES {
        return len_before_short(bytes, mark);
    }
    let last = bytes.len() - LANES;
    let mut at = 0;
    while at < last {
        let run = other_run(bytes, at, mark);
        if run < LANES {
            return at + run;
        }
        at += LANES;
    }
    // These 16 bytes may overlap those before.
    last + other_run(bytes, last, mark)
}

/// The number of bytes before the first `mark`; the bytes are tested one at a time.
#[tactic(auto, using(url::proofs::InputLemmas::prefix_len_is))]
fn len_before_short(bytes: &[u8], mark: u8) -> usize
    ensures value { result ≡ prefix_len (spec.is_other mark) bytes.now }
    ensures within { result ≤ length bytes.now }
{
    for (place, byte) in bytes.iter().enumerate() {
        if *byte == mark {
            return place;
        }
    }
    bytes.len()
}

/// Whether the bytes begin with a slash.
pub fn begins_path(tail: &[u8]) -> bool
    ensures { result ≡ (spec.first_is_slash tail.now) }
{
    matches!(tail, [b'/', ..])
}

/// Whether the last label begins with a letter.
fn is_named(host: &[u8]) -> bool
    ensures { result ≡ spec.is_named host.now }
{
    match last_label(host) {
        [first, ..] => first.is_ascii_lowercase(),
        [] => false,
    }
}

/// Returns what follows the last dot of the host, or the whole host if it has no dot.
fn last_label(host: &[u8]) -> &[u8]
    ensures { result.now ≡ spec.last_label host.now }
{
    match host.iter().rposition(|&byte| byte == b'.') {
        Some(dot) => &host[dot + 1..],
        None => host,
    }
}

/// Whether the text of a path and a query, which follows the byte `last`, stays unchanged. `false` means unknown.
pub fn is_plain(last: u8, text: &[u8]) -> bool
    ensures { result ≡ true → spec.is_plain last text.now ≡ true }
{
    let run = plain_run(last, text);
    run == text.len() || has_plain_query(last, text, run)
}

/// A lower bound on how many bytes of the text stay unchanged by the rule for a path, whether or not it has a query: all bytes, or
/// those before a group of 16 in which one is not allowed.
fn plain_run(last: u8, text: &[u8]) -> usize
    ensures value { result ≡ length text.now → spec.is_plain last text.now ≡ true }
    ensures within { result ≤ length text.now }
{
    if text.len() <= LANES {
        return if is_plain_short(last, text) {
            text.len()
        } else {
            0
        };
    }
    if may_follow(last, text[0]) {
        follow_run(text)
    } else {
        0
    }
}

/// A lower bound on how far each byte of a text of more than 16 bytes may follow the byte before it: to the end, or to the start of
/// a group of 16 in which one may not.
#[tactic(auto, using(std::proofs::lemmas::Bool::cases_lt))]
fn follow_run(text: &[u8]) -> usize
    requires { LANES < length text.now }
    ensures value { result ≡ length text.now → Follow text.now 0 (length text.now - 1) }
    ensures within { result ≤ length text.now }
{
    let last = text.len() - LANES - 1;
    let mut at = 0;
    while at < last {
        if !follow(text, at) {
            return at;
        }
        at += LANES;
    }
    // These 16 bytes may overlap those before.
    if follow(text, last) { text.len() } else { last }
}

/// Whether the text stays unchanged if the rule for a path applies only up to the first `?`. By that rule at least the first `run`
/// bytes stay unchanged. `false` means unknown.
#[tactic(auto, using(crate::proofs::PlainLemmas::plain_query))]
fn has_plain_query(last: u8, text: &[u8], run: usize) -> bool
    requires { run ≤ length text.now }
    ensures { result ≡ true → spec.is_plain last text.now ≡ true }
{
    let end = len_before(text, b'?');
    // A byte that a path does not allow is before the query.
    if end > run + LANES {
        return false;
    }
    let (path, query) = text.split_at(end);
    !query.is_empty() && plain_run(last, path) == path.len() && are_kept(query)
}

/// Whether a query keeps each byte unchanged.
fn are_kept(bytes: &[u8]) -> bool
    ensures { result ≡ list_all spec.is_kept bytes.now }
{
    bytes.iter().all(|byte| is_kept(*byte))
}

/// Whether each byte may follow the one before it; the bytes are tested one at a time. `false` means unknown.
#[tactic(auto, using(std::proofs::lemmas::List::drop_more, crate::proofs::PlainLemmas::plain_then, std::proofs::lemmas::List::drop_all))]
fn is_plain_short(last: u8, text: &[u8]) -> bool
    ensures { result ≡ true → spec.is_plain last text.now ≡ true }
{
    let mut before = last;
    for &byte in text {
        if !may_follow(before, byte) {
            return false;
        }
        before = byte;
    }
    true
}

/// Whether a path keeps the byte unchanged after `last`. After a slash the byte must be one that may begin a segment.
fn may_follow(last: u8, byte: u8) -> bool
    ensures { result ≡ spec.may_follow last byte }
{
    if last == b'/' {
        may_begin(byte)
    } else {
        is_kept(byte)
    }
}

/// Bytes that a path and a query keep unchanged.
const KEPT: u8 = 1;

/// Those of these bytes that may begin a segment.
const FIRST: u8 = 2;

/// Bytes that a domain keeps unchanged.
const HOST: u8 = 4;

// One digit for each byte. Its low three bits are the flags above.
static CLASS: [u8; 256] = *b"\
    00000000000000000000000000000000\
    03003130333337517777777777330303\
    33333333333333333333333333330307\
    07777777777777777777777777703030\
    00000000000000000000000000000000\
    00000000000000000000000000000000\
    00000000000000000000000000000000\
    00000000000000000000000000000000";

/// Whether a path and a query keep this byte unchanged.
fn is_kept(byte: u8) -> bool
    ensures { result ≡ spec.is_kept byte }
{
    CLASS[byte as usize] & KEPT != 0
}

/// Whether a segment that begins with this byte stays unchanged: the segment is not empty and not a dot segment.
fn may_begin(byte: u8) -> bool
    ensures { result ≡ spec.may_begin byte }
{
    CLASS[byte as usize] & FIRST != 0
}

/// Whether a domain keeps this byte unchanged: a lower case letter, a digit, `-`, `.` or `_`.
fn is_host_byte(byte: u8) -> bool
    ensures { result ≡ spec.is_host_byte byte }
{
    CLASS[byte as usize] & HOST != 0
}
