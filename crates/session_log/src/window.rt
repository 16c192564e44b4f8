//! A buffer of bytes that were read and not handed on yet.
ghost use Rattle.std.specs.Prelude.{◌≡◌, ◌<◌, ◌≤◌, [], drop, length, vec_len, IfOk, OnOk};
ghost use Rattle.std.specs.Io.KnownBytes.{IsAtEnd, Keeps, prepend_known};

use crawl_session::READ_SIZE;
use std::alloc::{AllocError, Global};
use std::io::{self, Read};

/// A buffer of bytes that were read and not handed on yet.
#[derive(Drop)]
pub struct Window {
    bytes: Vec<u8>,
    from: usize,
    to: usize,
    ghost ordered: { from ≤ to },
    ghost within: { to ≤ vec_len bytes },
    ghost room: { 0 < vec_len bytes },
}

impl Window {
    ghost use Rattle.session_log.specs.LogFile.{items};

    /// An empty buffer, with room for one read.
    pub fn new(alloc: Global) -> Result<Window, AllocError>
        ensures { IfOk result (λ window. items window ≡ []) }
    {
        let bytes = vec![in alloc; 0u8; READ_SIZE]?;
        Ok(Window {
            bytes,
            from: 0,
            to: 0,
        })
    }

    /// Returns these bytes.
    pub fn as_slice(&self) -> &[u8]
        ensures { result.now ≡ items self.now }
    {
        &self.bytes[self.from..self.to]
    }

    /// Reads if no bytes are left.
    pub fn fill<I: Read>(&mut self, input: &mut I) -> io::Result<()>
        ensures kept { Keeps (prepend_known (items self.old) (I.remaining input.old)) (prepend_known (items self.new) (I.remaining input.new)) }
        ensures end { OnOk result (items self.new ≡ [] → IsAtEnd (I.remaining input.new)) }
    {
        if self.from == self.to {
            let count = input.read(&mut self.bytes)?;
            self.from = 0;
            self.to = count;
        }
        Ok(())
    }

    /// Hands on `count` bytes.
    pub fn consume(&mut self, count: usize)
        requires { count ≤ length (items self.old) }
        ensures { items self.new ≡ drop count (items self.old) }
    {
        self.from += count;
    }
}
