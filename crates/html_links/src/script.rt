//! The end of a script's text.
ghost use Rattle.std.specs.Prelude.{◌≡◌, ◌==◌, if◌then◌else◌};
ghost use Rattle.html_links.specs.Comments.{bytes_at};
ghost use Rattle.html_links.specs.Tags.{class_of, is_letter};
ghost use Rattle.html_links.specs.RawText.{ends_name};
ghost use Rattle.html_links.specs.Script.{letters_if, letter_after, text_step, escaped_step, double_step, end_step, change_step, step, run};
ghost use Rattle.html_links.specs.declared.script.State.TheVariants.{Text, LessThan, EndTagOpen, EndTagName, EscapeStart, EscapedDashDash, EscapedLessThan, EscapedEndTagOpen, EscapedEndTagName, DoubleEscapeStart, DoubleEscapedDashDash, DoubleEscapeEnd};
ghost use Rattle.html_links.specs.declared.script.Next.TheVariants.{Go};
ghost use Rattle.html_links.specs.Scans.{Scans, LeavesScan};

use crate::bytes::{Class, class_of, parts, split_quoted};
use crate::raw_text::is_letter;

/// The Standard's states of a script's text. A number is that of the letters of `script` in a name, or 7 if it has others.
#[derive(Clone, Copy)]
pub(crate) enum State {
    Text,
    LessThan,
    EndTagOpen,
    EndTagName(u8),
    EscapeStart,
    EscapeStartDash,
    Escaped,
    EscapedDash,
    EscapedDashDash,
    EscapedLessThan,
    EscapedEndTagOpen,
    EscapedEndTagName(u8),
    DoubleEscapeStart(u8),
    DoubleEscaped,
    DoubleEscapedDash,
    DoubleEscapedDashDash,
    DoubleEscapedLessThan,
    DoubleEscapeEnd(u8),
}

/// A state to go to, or the end, at this byte.
#[derive(Clone, Copy)]
pub(crate) enum Next {
    Go(State),
    Ends,
}

/// The next state and the bytes from which it continues, the bytes after the end tag's name, or the end of the document.
#[derive(Clone, Copy)]
enum Scan<'a> {
    Go(State, &'a [u8]),
    Ends(&'a [u8]),
    Unfinished,
}

/// `count` if the byte is this letter, in any case, and otherwise 7. `letter` must be in lower case.
fn letters_if(letter: u8, count: u8, byte: u8) -> u8
    ensures { result ≡ letters_if letter count byte }
{
    if byte.to_ascii_lowercase() == letter {
        count
    } else {
        7
    }
}

/// The number of letters of `script` in a name after one more letter, or 7 if the name no longer begins like `script`.
fn letter_after(count: u8, byte: u8) -> u8
    ensures { result ≡ letter_after count byte }
{
    match count {
        0 => letters_if(b's', 1, byte),
        1 => letters_if(b'c', 2, byte),
        2 => letters_if(b'r', 3, byte),
        3 => letters_if(b'i', 4, byte),
        4 => letters_if(b'p', 5, byte),
        5 => letters_if(b't', 6, byte),
        _ => 7,
    }
}

/// Whether the byte ends the name of a tag in a script: white space, `/` or `>`.
fn ends_name(byte: u8) -> bool
    ensures { result ≡ ends_name (class_of byte) }
{
    matches!(class_of(byte), Class::Space | Class::Slash | Class::Greater)
}

/// The step at a byte in the Standard's script data state.
fn text_step(byte: u8) -> Next
    ensures { result ≡ text_step byte }
{
    if byte == b'<' {
        Next::Go(State::LessThan)
    } else {
        Next::Go(State::Text)
    }
}

/// The step at a byte in the Standard's script data escaped state.
fn escaped_step(byte: u8) -> Next
    ensures { result ≡ escaped_step byte }
{
    match byte {
        b'-' => Next::Go(State::EscapedDash),
        b'<' => Next::Go(State::EscapedLessThan),
        _ => Next::Go(State::Escaped),
    }
}

/// The step at a byte in the Standard's script data double escaped state.
fn double_step(byte: u8) -> Next
    ensures { result ≡ double_step byte }
{
    match byte {
        b'-' => Next::Go(State::DoubleEscapedDash),
        b'<' => Next::Go(State::DoubleEscapedLessThan),
        _ => Next::Go(State::DoubleEscaped),
    }
}

/// The end of the script if the name is `script` and the byte ends it, and otherwise `other`. `count` is that of the name.
fn end_step(count: u8, byte: u8, other: Next) -> Next
    ensures { result ≡ end_step count byte other }
{
    if count != 6 {
        return other;
    }
    if ends_name(byte) { Next::Ends } else { other }
}

/// If the byte ends the name, the state `changed` if the name is `script`, and `same` if not. If it does not, `other`.
fn change_step(count: u8, byte: u8, changed: State, same: State, other: Next) -> Next
    ensures { result ≡ change_step count byte (Go changed) (Go same) other }
{
    if !ends_name(byte) {
        return other;
    }
    if count == 6 {
        Next::Go(changed)
    } else {
        Next::Go(same)
    }
}

/// The state `dashed` if the byte is a `-`, and otherwise `other`.
fn dash_step(byte: u8, dashed: State, other: Next) -> Next
    ensures { result ≡ (if byte == 45 then Go dashed else other) }
{
    if byte == b'-' {
        Next::Go(dashed)
    } else {
        other
    }
}

/// The state `slashed` if the byte is a `/`, and otherwise `other`.
fn slash_step(byte: u8, slashed: State, other: Next) -> Next
    ensures { result ≡ (if byte == 47 then Go slashed else other) }
{
    if byte == b'/' {
        Next::Go(slashed)
    } else {
        other
    }
}

/// The script data state if the byte is a `>`, which ends the escaped text, and otherwise `other`.
fn greater_step(byte: u8, other: Next) -> Next
    ensures { result ≡ (if byte == 62 then Go Text else other) }
{
    if byte == b'>' {
        Next::Go(State::Text)
    } else {
        other
    }
}

/// The script data escape start state if the byte is a `!`, and otherwise `other`.
fn bang_step(byte: u8, other: Next) -> Next
    ensures { result ≡ (if byte == 33 then Go EscapeStart else other) }
{
    if byte == b'!' {
        Next::Go(State::EscapeStart)
    } else {
        other
    }
}

/// The state `lettered` if the byte is an ASCII letter, and otherwise `other`.
fn letter_step(byte: u8, lettered: State, other: Next) -> Next
    ensures { result ≡ (if is_letter byte then Go lettered else other) }
{
    if is_letter(byte) {
        Next::Go(lettered)
    } else {
        other
    }
}

/// The step at a byte in the Standard's script data less-than sign state.
fn less_than(byte: u8) -> Next
    ensures { result ≡ step LessThan byte }
{
    slash_step(byte, State::EndTagOpen, bang_step(byte, text_step(byte)))
}

/// The step at a byte in the Standard's script data end tag open state.
fn end_tag_open(byte: u8) -> Next
    ensures { result ≡ step EndTagOpen byte }
{
    letter_step(
        byte,
        State::EndTagName(letter_after(0, byte)),
        text_step(byte),
    )
}

/// The step at a byte in the Standard's script data end tag name state. `count` is that of the name so far.
fn end_tag_name(count: u8, byte: u8) -> Next
    ensures { result ≡ step (EndTagName count) byte }
{
    letter_step(
        byte,
        State::EndTagName(letter_after(count, byte)),
        end_step(count, byte, text_step(byte)),
    )
}

/// The step at a byte in the Standard's script data escaped dash dash state.
fn escaped_dash_dash(byte: u8) -> Next
    ensures { result ≡ step EscapedDashDash byte }
{
    dash_step(
        byte,
        State::EscapedDashDash,
        greater_step(byte, escaped_step(byte)),
    )
}

/// The step at a byte in the Standard's script data escaped less-than sign state.
fn escaped_less_than(byte: u8) -> Next
    ensures { result ≡ step EscapedLessThan byte }
{
    slash_step(
        byte,
        State::EscapedEndTagOpen,
        letter_step(
            byte,
            State::DoubleEscapeStart(letter_after(0, byte)),
            escaped_step(byte),
        ),
    )
}

/// The step at a byte in the Standard's script data escaped end tag open state.
fn escaped_end_tag_open(byte: u8) -> Next
    ensures { result ≡ step EscapedEndTagOpen byte }
{
    letter_step(
        byte,
        State::EscapedEndTagName(letter_after(0, byte)),
        escaped_step(byte),
    )
}

/// The step at a byte in the Standard's script data escaped end tag name state. `count` is that of the name so far.
fn escaped_end_tag_name(count: u8, byte: u8) -> Next
    ensures { result ≡ step (EscapedEndTagName count) byte }
{
    letter_step(
        byte,
        State::EscapedEndTagName(letter_after(count, byte)),
        end_step(count, byte, escaped_step(byte)),
    )
}

/// The step at a byte in the Standard's script data double escape start state. `count` is that of the name so far.
fn double_escape_start(count: u8, byte: u8) -> Next
    ensures { result ≡ step (DoubleEscapeStart count) byte }
{
    letter_step(
        byte,
        State::DoubleEscapeStart(letter_after(count, byte)),
        change_step(
            count,
            byte,
            State::DoubleEscaped,
            State::Escaped,
            escaped_step(byte),
        ),
    )
}

/// The step at a byte in the Standard's script data double escaped dash dash state.
fn double_escaped_dash_dash(byte: u8) -> Next
    ensures { result ≡ step DoubleEscapedDashDash byte }
{
    dash_step(
        byte,
        State::DoubleEscapedDashDash,
        greater_step(byte, double_step(byte)),
    )
}

/// The step at a byte in the Standard's script data double escape end state. `count` is that of the name so far.
fn double_escape_end(count: u8, byte: u8) -> Next
    ensures { result ≡ step (DoubleEscapeEnd count) byte }
{
    letter_step(
        byte,
        State::DoubleEscapeEnd(letter_after(count, byte)),
        change_step(
            count,
            byte,
            State::Escaped,
            State::DoubleEscaped,
            double_step(byte),
        ),
    )
}

/// The Standard's step from a state at a byte, together with the steps that reconsume the byte.
fn step(state: State, byte: u8) -> Next
    ensures { result ≡ step state byte }
{
    match state {
        State::Text => text_step(byte),
        State::LessThan => less_than(byte),
        State::EndTagOpen => end_tag_open(byte),
        State::EndTagName(count) => end_tag_name(count, byte),
        State::EscapeStart => dash_step(byte, State::EscapeStartDash, text_step(byte)),
        State::EscapeStartDash => dash_step(byte, State::EscapedDashDash, text_step(byte)),
        State::Escaped => escaped_step(byte),
        State::EscapedDash => dash_step(byte, State::EscapedDashDash, escaped_step(byte)),
        State::EscapedDashDash => escaped_dash_dash(byte),
        State::EscapedLessThan => escaped_less_than(byte),
        State::EscapedEndTagOpen => escaped_end_tag_open(byte),
        State::EscapedEndTagName(count) => escaped_end_tag_name(count, byte),
        State::DoubleEscapeStart(count) => double_escape_start(count, byte),
        State::DoubleEscaped => double_step(byte),
        State::DoubleEscapedDash => dash_step(
            byte,
            State::DoubleEscapedDashDash,
            double_step(byte),
        ),
        State::DoubleEscapedDashDash => double_escaped_dash_dash(byte),
        State::DoubleEscapedLessThan => slash_step(
            byte,
            State::DoubleEscapeEnd(0),
            double_step(byte),
        ),
        State::DoubleEscapeEnd(count) => double_escape_end(count, byte),
    }
}

/// The bytes after the text before the next `<` in a script that is not escaped.
#[tactic(auto, using(crate::proofs::Scripts::read_less, crate::proofs::Scripts::opened_less, crate::proofs::Scripts::read_no_less))]
fn open_text(bytes: &[u8]) -> Scan<'_>
    ensures scans { Scans result Text bytes.now }
    ensures leaves { LeavesScan result bytes.now }
{
    match split_quoted(b'<', bytes) {
        Some((_, opened)) => Scan::Go(State::LessThan, opened),
        None => Scan::Unfinished,
    }
}

/// The step at the first byte. If the script ends at this byte, which is after the end tag's name, the byte is kept.
#[tactic(auto, using(crate::proofs::Scripts::cut))]
fn scan_byte(state: State, bytes: &[u8]) -> Scan<'_>
    ensures scans { Scans result state bytes.now }
    ensures leaves { LeavesScan result bytes.now }
{
    match parts(bytes) {
        Some((first, more)) => match step(state, first) {
            Next::Go(next) => Scan::Go(next, more),
            Next::Ends => Scan::Ends(bytes),
        },
        None => Scan::Unfinished,
    }
}

/// One step of a script. In the script data state, it is over all bytes up to and including the next `<`.
fn next_scan(state: State, bytes: &[u8]) -> Scan<'_>
    ensures scans { Scans result state bytes.now }
    ensures leaves { LeavesScan result bytes.now }
{
    match state {
        State::Text => open_text(bytes),
        _ => scan_byte(state, bytes),
    }
}

/// The bytes after the name of the end tag that ends a script. `None` if the script does not end.
pub(crate) fn after_script(bytes: &[u8]) -> Option<&[u8]>
    ensures { bytes_at result ≡ run Text bytes.now }
{
    let mut state = State::Text;
    let mut rest = bytes;
    'steps: loop {
        match next_scan(state, rest) {
            Scan::Go(next, more) => {
                state = next;
                rest = more;
            }
            Scan::Ends(here) => return Some(here),
            Scan::Unfinished => return None,
        }
    }
}
