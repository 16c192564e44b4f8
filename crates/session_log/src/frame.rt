//! The bytes of an append.
ghost use Rattle.std.specs.Prelude.{◌≡◌, OnOk};
ghost use Rattle.session_log.specs.LogFile.{framed, sum_with};

use crawl_session::LogSum;
use std::alloc::{AllocError, Global};

/// The bytes of the last append to a file, and the checksum of all bytes of the file.
#[derive(Drop)]
pub struct Frame {
    bytes: Vec<u8>,
    /// The checksum, if the file has checksums.
    sum: Option<LogSum>,
}

impl Frame {
    /// No append yet to a file with this checksum.
    pub fn new(alloc: Global, sum: Option<LogSum>) -> Frame
        ensures { result.sum ≡ sum }
    {
        Frame {
            bytes: Vec::new(alloc),
            sum,
        }
    }

    /// Fills the frame with what the file gains of these bytes of requests, which follow the end of a line if `start`.
    pub fn fill(&mut self, start: bool, bytes: &[u8]) -> Result<(), AllocError>
        ensures text { OnOk result (self.new.bytes.items ≡ framed self.old.sum start bytes.now) }
        ensures sum { OnOk result (self.new.sum ≡ sum_with self.old.sum (framed self.old.sum start bytes.now)) }
    {
        self.bytes.clear();
        match &mut self.sum {
            Some(sum) => sum.push(start, bytes, &mut self.bytes),
            None => self.bytes.extend_from_slice(bytes),
        }
    }

    /// Returns the bytes.
    pub fn as_slice(&self) -> &[u8]
        ensures { result.now ≡ self.now.bytes.items }
    {
        &self.bytes
    }
}
