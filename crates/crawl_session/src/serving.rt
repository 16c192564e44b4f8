//! A session over an input and an output: an answer line for each line, immediately.
ghost use Rattle.std.specs.Prelude.{◌≡◌, ℕ, ◌<◌, ◌≤◌, List, [], ◌∷◌, ◌++◌, length, take, drop, true, false, IfOk, string_bytes};
ghost use Rattle.std.specs.Io.KnownBytes.{Appends, Consumes, IsAtEnd};
ghost use Rattle.std.specs.Str.Lines.{lines};
ghost use Rattle.crawl_session.specs.Input.{Ends, Holds, ServesInput, AnswersWhole, Turns, held_limit};
ghost use Rattle.crawl_session.specs.Serving.{ServesAll};
ghost use Rattle.crawl_session.specs.declared.serving.ServeError.TheVariants as wrong;

use crate::log::whole_len;
use crate::session::Session;
use crawl_core::NoMemory;
use std::alloc::{AllocError, AllocFailed, Global};
use std::io::{ErrorKind, Read, Write};
use text_lines::{LINE_LIMIT, first_line};

/// The most bytes that a read asks for.
pub const READ_SIZE: usize = 65_536;

/// The most bytes that are held of a line whose end was not read: enough to see that it is too long, with or without a CR
/// before its end.
pub const HELD_LIMIT: usize = LINE_LIMIT + 2;

/// Why a session ends before its input does.
#[derive(Clone, Copy, Debug, PartialEq, Eq)]
pub enum ServeError {
    /// A read failed.
    CannotRead,
    /// A write or a flush failed.
    CannotWrite,
    /// An allocation failed.
    NoMemory,
}

impl From<AllocError> for ServeError {
    ghost from_gives = { λ _ error. error ≡ wrong.NoMemory };

    fn from(_refused: AllocError) -> ServeError {
        ServeError::NoMemory
    }
}

impl<T: Drop> From<AllocFailed<T>> for ServeError {
    ghost from_gives = { λ _ error. error ≡ wrong.NoMemory };

    fn from(_refused: AllocFailed<T>) -> ServeError {
        ServeError::NoMemory
    }
}

/// Answers each line of the input, to its end.
///
/// All lines that end in the bytes of one read are answered, and their answers written and flushed, before the next read.
///
/// # Errors
/// Those of [`ServeError`]. What was answered before is written.
pub fn serve<I: Read, O: Write>(
    alloc: Global,
    session: &mut Session,
    input: &mut I,
    out: &mut O,
) -> Result<(), ServeError>
    ensures { IfOk result (λ _. ServesInput session.old (I.remaining input.old) (O.contents out.old) (O.contents out.new) session.new) }
{
    let mut buffer = vec![in alloc; 0u8; READ_SIZE]?;
    serve_by(alloc, session, input, out, &mut buffer)
}

/// Answers the lines of the input to its end, and reads them into this buffer.
fn serve_by<I: Read, O: Write>(
    alloc: Global,
    session: &mut Session,
    input: &mut I,
    out: &mut O,
    buffer: &mut [u8],
) -> Result<(), ServeError>
    requires { 0 < length buffer.old }
    ensures { IfOk result (λ _. ServesInput session.old (I.remaining input.old) (O.contents out.old) (O.contents out.new) session.new) }
{
    let mut held = Vec::new(alloc);
    for _turn in 0..u64::MAX {
        let continues = turn(alloc, session, input, out, buffer, &mut held)?;
        if !continues {
            return Ok(());
        }
    }
    Err(ServeError::CannotRead)
}

/// One read, and the answers to all lines that end in what was read, or at the end of the input. Answers whether there may be
/// more.
fn turn<I: Read, O: Write>(
    alloc: Global,
    session: &mut Session,
    input: &mut I,
    out: &mut O,
    buffer: &mut [u8],
    held: &mut Vec<u8>,
) -> Result<bool, ServeError>
    requires { 0 < length buffer.old }
    ensures turns { IfOk result (λ continues. continues ≡ true → (tail : List ℕ) → Holds held.old.items tail → Turns session.old tail (I.remaining input.old) (I.remaining input.new) (O.contents out.old) (O.contents out.new) held.new.items session.new) }
    ensures ends { IfOk result (λ continues. continues ≡ false → (tail : List ℕ) → Holds held.old.items tail → Ends session.old tail (I.remaining input.old) (I.remaining input.new) (O.contents out.old) (O.contents out.new) session.new) }
{
    let count = read_some(input, buffer)?;
    if count == 0 {
        let answers = answers_to(alloc, session, held)?;
        write_out(out, &answers)?;
        return Ok(false);
    }
    let answers = answer_whole(alloc, session, held, &buffer[..count])?;
    write_out(out, &answers)?;
    Ok(true)
}

/// One read that no signal interrupts; 0 only at the end.
fn read_some<I: Read>(input: &mut I, buffer: &mut [u8]) -> Result<usize, ServeError>
    requires { 0 < length buffer.old }
    ensures within { IfOk result (λ n. n ≤ length buffer.new) }
    ensures bytes { IfOk result (λ n. Consumes (I.remaining input.old) (I.remaining input.new) (take n buffer.new)) }
    ensures end { IfOk result (λ n. n ≡ 0 → IsAtEnd (I.remaining input.new)) }
{
    for _turn in 0..u64::MAX {
        match input.read(buffer) {
            Ok(count) => return Ok(count),
            Err(error) => {
                if error.kind() != ErrorKind::Interrupted {
                    return Err(ServeError::CannotRead);
                }
            }
        }
    }
    Err(ServeError::CannotRead)
}

/// Answers the lines that end in the bytes, which follow those that are held, and holds what follows them.
fn answer_whole(
    alloc: Global,
    session: &mut Session,
    held: &mut Vec<u8>,
    bytes: &[u8],
) -> Result<String, NoMemory>
    ensures { IfOk result (λ text. (tail : List ℕ) → Holds held.old.items tail → AnswersWhole session.old tail bytes.now (string_bytes text) held.new.items session.new) }
{
    let whole = whole_len(bytes);
    if whole == 0 {
        hold(held, bytes)?;
        return Ok(String::new(alloc));
    }
    held.extend_from_slice(&bytes[..whole])?;
    let answers = answers_to(alloc, session, held)?;
    held.clear();
    hold(held, &bytes[whole..])?;
    Ok(answers)
}

/// Holds the bytes too, up to the limit.
fn hold(held: &mut Vec<u8>, bytes: &[u8]) -> Result<(), NoMemory>
    ensures { IfOk result (λ _. held.new.items ≡ take held_limit (held.old.items ++ bytes.now)) }
{
    held.extend_from_slice(bytes)?;
    held.truncate(HELD_LIMIT);
    Ok(())
}

/// The answer lines of all lines of the bytes.
fn answers_to(alloc: Global, session: &mut Session, bytes: &[u8]) -> Result<String, NoMemory>
    ensures { IfOk result (λ text. ServesAll session.old (lines bytes.now) (string_bytes text) session.new) }
{
    let mut answers = String::new(alloc);
    let mut rest = bytes;
    while let Some((line, more)) = first_line(rest) {
        rest = more;
        answer_line(session, line, &mut answers)?;
    }
    Ok(answers)
}

/// Answers a line, at the end of the text.
fn answer_line(session: &mut Session, line: &[u8], text: &mut String) -> Result<(), NoMemory>
    ensures { IfOk result (λ _. (added : List ℕ) × (string_bytes text.new ≡ string_bytes text.old ++ added) × ServesAll session.old (line.now ∷ []) added session.new) }
{
    let answer = session.answer(line)?;
    writeln!(text, "{answer}")?;
    Ok(())
}

/// Writes the text and flushes it. Any failure is a `CannotWrite`.
fn write_out<O: Write>(out: &mut O, text: &str) -> Result<(), ServeError>
    ensures { IfOk result (λ _. Appends (O.contents out.old) (O.contents out.new) text.now) }
{
    if out.write_all(text.as_bytes()).is_err() || out.flush().is_err() {
        return Err(ServeError::CannotWrite);
    }
    Ok(())
}
