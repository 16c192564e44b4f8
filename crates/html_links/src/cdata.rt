//! The end of a CDATA section.
ghost use Rattle.std.specs.Prelude.{◌≡◌, ◌==◌, if◌then◌else◌};
ghost use Rattle.html_links.specs.Comments.{bytes_at};
ghost use Rattle.html_links.specs.Cdata.{bogus_step, letter, name_after, run, step};
ghost use Rattle.html_links.specs.declared.cdata.State.TheVariants.{Name, Section, End};
ghost use Rattle.html_links.specs.declared.cdata.Next.TheVariants.{Go};

use crate::bytes::parts;

/// The states after a `<![`: in the name of a CDATA section after this number of its bytes, the Standard's states of the section,
/// and a bogus comment.
#[derive(Clone, Copy)]
pub(crate) enum State {
    Name(u8),
    Section,
    Bracket,
    End,
    Bogus,
}

/// A state to go to, or the end, at this byte.
#[derive(Clone, Copy)]
pub(crate) enum Next {
    Go(State),
    Ends,
}

/// The byte of `CDATA[` after this number of its bytes.
fn letter(count: u8) -> u8
    ensures { result ≡ letter count }
{
    match count {
        0 => b'C',
        1 => b'D',
        2 => b'A',
        3 => b'T',
        4 => b'A',
        _ => b'[',
    }
}

/// The step at a byte in a bogus comment.
fn bogus_step(byte: u8) -> Next
    ensures { result ≡ bogus_step byte }
{
    if byte == b'>' {
        Next::Ends
    } else {
        Next::Go(State::Bogus)
    }
}

/// The state after one more byte of `CDATA[`.
fn name_after(count: u8) -> State
    ensures { result ≡ name_after count }
{
    if count < 5 {
        State::Name(count + 1)
    } else {
        State::Section
    }
}

/// The step at a byte after this number of bytes of `CDATA[`.
fn name_step(count: u8, byte: u8) -> Next
    ensures { result ≡ step (Name count) byte }
{
    if byte == letter(count) {
        Next::Go(name_after(count))
    } else {
        bogus_step(byte)
    }
}

/// The step at a byte after `]]` in a section.
fn end_step(byte: u8) -> Next
    ensures { result ≡ step End byte }
{
    match byte {
        b'>' => Next::Ends,
        b']' => Next::Go(State::End),
        _ => Next::Go(State::Section),
    }
}

/// The state `bracketed` if the byte is a `]`, and otherwise the CDATA section state.
fn bracket_step(bracketed: State, byte: u8) -> Next
    ensures { result ≡ (if byte == 93 then Go bracketed else Go Section) }
{
    if byte == b']' {
        Next::Go(bracketed)
    } else {
        Next::Go(State::Section)
    }
}

/// The step from a state at a byte.
fn step(state: State, byte: u8) -> Next
    ensures { result ≡ step state byte }
{
    match state {
        State::Name(count) => name_step(count, byte),
        State::Section => bracket_step(State::Bracket, byte),
        State::Bracket => bracket_step(State::End, byte),
        State::End => end_step(byte),
        State::Bogus => bogus_step(byte),
    }
}

/// The bytes after a CDATA section or bogus comment, from those after its `<![`. `None` if it does not end.
#[inline(never)]
pub(crate) fn after_cdata(bytes: &[u8]) -> Option<&[u8]>
    ensures { bytes_at result ≡ run (Name 0) bytes.now }
{
    let mut state = State::Name(0);
    let mut rest = bytes;
    'bytes: loop {
        let Some((first, more)) = parts(rest) else {
            return None;
        };
        match step(state, first) {
            Next::Go(next) => {
                state = next;
                rest = more;
            }
            Next::Ends => return Some(more),
        }
    }
}
