//! Checksums in a log: a line after each append that ends a line, over all bytes before it.
ghost use Rattle.std.specs.Prelude.{◌≡◌, ◌<◌, ◌++◌, ◌∷◌, ℕ, List, [], false, true, length, IfSome, MatchOption, None, OnOk};
ghost use Rattle.std.specs.Hash.DefaultHasher.{finish, initial, write};
ghost use Rattle.crawl_session.specs.Sums as spec;

use crate::log::whole_len;
use crawl_core::NoMemory;
use memchr::{memchr, memmem};
use std::hash::{DefaultHasher, Hasher};
use std::marker::Model;

/// The first byte of a checksum line.
const MARK: u8 = b'#';

/// The length of a checksum line.
const SUM_LEN: usize = 10;

/// The checksum of the bytes of a log, from its beginning up to some point.
#[derive(Drop)]
pub struct LogSum {
    hasher: DefaultHasher,
}

impl Model for LogSum {
    ghost use Rattle.std.specs.declared.hash.DefaultHasher.{DefaultHasher};

    ghost Value = { DefaultHasher };

    ghost view = { λ s. s.hasher };
}

impl LogSum {
    /// The checksum of no bytes.
    pub fn new() -> LogSum
        ensures { result ≡ initial }
    {
        LogSum {
            hasher: DefaultHasher::new(),
        }
    }

    /// Pushes what a log gains of these bytes of requests, which follow the end of a line if `start`: their whole lines, a checksum
    /// line if there are any, and the rest.
    ///
    /// # Errors
    /// Out of memory.
    #[tactic(auto, using(crate::proofs::SumLines::push_each))]
    pub fn push(&mut self, start: bool, bytes: &[u8], out: &mut Vec<u8>) -> Result<(), NoMemory>
        ensures gained { OnOk result (out.new.items ≡ out.old.items ++ spec.summed self.old start bytes.now) }
        ensures sum { OnOk result (self.new ≡ write self.old (spec.summed self.old start bytes.now)) }
    {
        let (lines, rest) = bytes.split_at(whole_len(bytes));
        if lines.is_empty() {
            return self.push_kept(start, rest, out);
        }
        self.push_kept(start, lines, out)?;
        self.push_sum(out)?;
        self.push_kept(true, rest, out)
    }

    /// Pushes bytes of requests without a checksum.
    fn push_kept(&mut self, start: bool, bytes: &[u8], out: &mut Vec<u8>) -> Result<(), NoMemory>
        ensures gained { OnOk result (out.new.items ≡ out.old.items ++ spec.kept start bytes.now) }
        ensures sum { OnOk result (self.new ≡ write self.old (spec.kept start bytes.now)) }
    {
        let from = out.len();
        push_kept(start, bytes, out)?;
        self.hasher.write(&out[from..]);
        Ok(())
    }

    /// Pushes a checksum line.
    fn push_sum(&mut self, out: &mut Vec<u8>) -> Result<(), NoMemory>
        ensures gained { OnOk result (out.new.items ≡ out.old.items ++ spec.sum_after self.old) }
        ensures sum { OnOk result (self.new ≡ write self.old (spec.sum_after self.old)) }
    {
        let line = sum_text(self.hasher.finish());
        out.extend_from_slice(&line)?;
        self.hasher.write(&line);
        Ok(())
    }
}

/// Pushes bytes of requests, of which the first follows the end of a line if `start`. No line of them begins with `#` then.
#[tactic(auto, using(crate::proofs::SumLines::kept_more))]
fn push_kept(start: bool, bytes: &[u8], out: &mut Vec<u8>) -> Result<(), NoMemory>
    ensures { OnOk result (out.new.items ≡ out.old.items ++ spec.kept start bytes.now) }
{
    if !has_mark(start, bytes) {
        return out.extend_from_slice(bytes);
    }
    let mut at_start = start;
    for byte in bytes {
        out.push(kept_byte(at_start, *byte))?;
        at_start = *byte == b'\n';
    }
    Ok(())
}

/// Returns whether a line of the bytes may begin with `#`.
fn has_mark(start: bool, bytes: &[u8]) -> bool
    ensures { result ≡ false → spec.kept start bytes.now ≡ bytes.now }
{
    if start && is_sum(bytes) {
        return true;
    }
    memmem::find(bytes, b"\n#").is_some()
}

/// Returns the byte, but a space for `#` at the start of a line.
fn kept_byte(start: bool, byte: u8) -> u8
    ensures { result ≡ spec.kept_byte start byte }
{
    if start && byte == MARK { b' ' } else { byte }
}

/// Returns the checksum line with the low 32 bits of this number.
fn sum_text(sum: u64) -> [u8; SUM_LEN]
    ensures { result ≡ spec.sum_text sum }
{
    [
        MARK,
        hex_digit(sum >> 28),
        hex_digit(sum >> 24),
        hex_digit(sum >> 20),
        hex_digit(sum >> 16),
        hex_digit(sum >> 12),
        hex_digit(sum >> 8),
        hex_digit(sum >> 4),
        hex_digit(sum),
        b'\n',
    ]
}

/// Returns the hexadecimal digit of the low four bits.
pub fn hex_digit(number: u64) -> u8
    ensures { result ≡ spec.digit number }
{
    b"0123456789abcdef"[(number % 16) as usize]
}

/// A check of the checksum lines of a log, from its beginning up to some point.
#[derive(Drop)]
pub struct SumCheck {
    hash: LogSum,
    /// The number of lines.
    line: u64,
    /// The number of the last checksum line, or 1 if there is none.
    right: u64,
}

impl Model for SumCheck {
    ghost use Rattle.crawl_session.specs.Sums.{Checked};

    ghost Value = { Checked };

    ghost view = { λ c. record { hash = c.hash; line = c.line; right = c.right } };
}

impl SumCheck {
    /// Checks nothing so far.
    pub fn new() -> SumCheck
        ensures { result ≡ spec.unchecked }
    {
        SumCheck {
            hash: LogSum::new(),
            line: 0,
            right: 1,
        }
    }

    /// Checks more lines. Returns the numbers of the lines between which they are damaged, if they are: of the last checksum that is
    /// right, and of the first that is wrong. An unfinished line is left out.
    pub fn check(&mut self, bytes: &[u8]) -> Option<(u64, u64)>
        ensures wrong { result ≡ spec.wrong_after self.old (spec.ended_lines bytes.now) }
        ensures right { result ≡ None → self.new ≡ spec.checked_after self.old (spec.ended_lines bytes.now) }
    {
        let mut rest = bytes;
        while let Some((line, more)) = ended_line(rest) {
            if !self.is_right(line) {
                return Some(self.next());
            }
            self.take(line);
            rest = more;
        }
        None
    }

    /// Returns whether a line is no checksum, or the right one.
    fn is_right(&self, line: &[u8]) -> bool
        ensures { result ≡ spec.is_right self.now line.now }
    {
        if is_sum(line) {
            line == sum_text(self.hash.hasher.finish()).as_slice()
        } else {
            true
        }
    }

    /// Counts a line that is right.
    fn take(&mut self, line: &[u8])
        ensures { self.new ≡ spec.after_line self.old line.now (spec.is_sum line.now) }
    {
        self.hash.hasher.write(line);
        self.line = self.line.saturating_add(1);
        if is_sum(line) {
            self.right = self.line;
        }
    }

    /// Returns the numbers of the last checksum and of the next line.
    pub fn next(&self) -> (u64, u64)
        ensures { result ≡ (self.now.right, spec.next_line self.now.line) }
    {
        (self.right, self.line.saturating_add(1))
    }

    /// Returns the checksum of all lines that were checked.
    pub fn into_sum(self) -> LogSum
        ensures { result ≡ self.hash }
    {
        self.hash
    }
}

/// Returns whether a line is a checksum, by its first byte.
fn is_sum(line: &[u8]) -> bool
    ensures { result ≡ spec.is_sum line.now }
{
    line.first() == Some(&MARK)
}

/// Returns the first line with its LF, and what follows it. `None` if there is no LF.
fn ended_line(bytes: &[u8]) -> Option<(&[u8], &[u8])>
    ensures cut { MatchOption result (spec.ended_lines bytes.now ≡ []) (λ x. spec.ended_lines bytes.now ≡ x.0.now ∷ spec.ended_lines x.1.now) }
    ensures shorter { IfSome result (λ x. length x.1.now < length bytes.now) }
{
    match memchr(b'\n', bytes) {
        Some(end) => Some((&bytes[..end + 1], &bytes[end + 1..])),
        None => None,
    }
}
