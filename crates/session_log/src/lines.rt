//! The lines of a log, read from its file in turns, and checked.
ghost use Rattle.std.specs.Prelude.{◌≡◌, ◌<◌, ◌≤◌, ◌-◌, true, length, vec_len, IfErr, IfOk};
ghost use Rattle.session_log.specs.LogFile.{IsReadError, IsRightSum};

use crate::error::LogError;
use crawl_session::{LogSum, READ_SIZE, SumCheck, whole_len};
use std::alloc::{AllocError, Global};
use std::io::{self, Read, Seek, SeekFrom};

/// Whole lines between two positions of the file of a log.
#[derive(Drop)]
pub struct LineReader<'f, F> {
    file: &'f mut F,
    /// The end of the lines that were read.
    at: u64,
    /// The end of the last line.
    end: u64,
    buffer: Vec<u8>,
    /// The number of bytes of the lines that were read last.
    count: usize,
    ghost within: { count ≤ vec_len buffer },
}

impl<'f, F: Read + Seek> LineReader<'f, F> {
    /// The lines between these positions.
    pub fn new(
        alloc: Global,
        file: &'f mut F,
        at: u64,
        end: u64,
    ) -> Result<LineReader<'f, F>, AllocError> {
        let buffer = vec![in alloc; 0u8; READ_SIZE]?;
        Ok(LineReader {
            file,
            at,
            end,
            buffer,
            count: 0,
        })
    }

    /// Reads the next lines. Returns whether there are any. There are none after the last line, or if the next one is longer than
    /// the buffer.
    pub fn read(&mut self) -> io::Result<bool>
        ensures less { IfOk result (λ some. some ≡ true → self.new.end - self.new.at < self.old.end - self.old.at) }
    {
        self.count = read_lines(&mut *self.file, &mut self.buffer, self.at, self.end)?;
        self.at = self.at.saturating_add(self.count as u64);
        Ok(0 < self.count)
    }

    /// Returns the lines that were read last.
    pub fn as_slice(&self) -> &[u8] {
        &self.buffer[..self.count]
    }

    /// Returns whether all lines were read.
    pub fn is_done(&self) -> bool {
        self.end <= self.at
    }

    /// Fails with `CannotRead` if not all lines were read.
    pub fn finish(&self) -> Result<(), LogError>
        ensures { IfErr result IsReadError }
    {
        if self.is_done() {
            Ok(())
        } else {
            Err(LogError::CannotRead)
        }
    }
}

/// Reads whole lines between these positions of the file, and returns their number of bytes: 0 if the first line is longer than the
/// buffer.
fn read_lines<F: Read + Seek>(
    file: &mut F,
    buffer: &mut [u8],
    at: u64,
    end: u64,
) -> io::Result<usize>
    ensures within { IfOk result (λ count. count ≤ length buffer.new) }
    ensures left { IfOk result (λ count. count ≤ end - at) }
    ensures length { length buffer.new ≡ length buffer.old }
{
    let count = end.saturating_sub(at).min(buffer.len() as u64) as usize;
    file.seek(SeekFrom::Start(at))?;
    file.read_exact(&mut buffer[..count])?;
    Ok(whole_len(&buffer[..count]))
}

/// Returns the checksum of the file up to this position, which is the end of a line. Each checksum before it must be right.
///
/// # Errors
/// `Damaged` with the first wrong checksum, or with the next line if that is too long for a log. `CannotRead`, `NoMemory`.
#[tactic(auto, using(crate::proofs::Logs::checks_none, crate::proofs::Logs::checks_more, crate::proofs::Logs::right_sum))]
pub fn checked_sum<F: Read + Seek>(
    alloc: Global,
    file: &mut F,
    end: u64,
) -> Result<LogSum, LogError>
    ensures right { IfOk result IsRightSum }
    ensures error { IfErr result IsReadError }
{
    let mut lines = LineReader::new(alloc, file, 0, end)?;
    let mut check = SumCheck::new();
    while lines.read()? {
        if let Some((right, wrong)) = check.check(lines.as_slice()) {
            return Err(LogError::Damaged(right, wrong));
        }
    }
    if !lines.is_done() {
        let (right, wrong) = check.next();
        return Err(LogError::Damaged(right, wrong));
    }
    Ok(check.into_sum())
}
