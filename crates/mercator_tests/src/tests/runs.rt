//! Runs of the program by its arguments, with a reader and writers that may fail.
use crawl_run::Observe;
use mercator::{Platform, run_words};
use session_log::testing::NoLocks;
use std::alloc::{AllocError, Global};
use std::fs::Files;
use std::io::{self, ErrorKind, Read, Write};
use std::sync::Wait;
use std::thread::Threads;

/// The exit statuses: success, an error, an incomplete crawl, a bad command line.
pub const DONE: u8 = 0;

pub const ERROR: u8 = 1;

pub const INCOMPLETE: u8 = 2;

pub const BAD_COMMAND: u8 = 3;

/// A run of the program.
pub struct Row {
    /// The name of the row.
    pub name: &'static str,
    /// The arguments, separated by spaces.
    pub arguments: &'static str,
    /// The contents of the input.
    pub input: &'static str,
    pub status: u8,
    /// The contents of the writers at the end.
    pub out: &'static str,
    pub err: &'static str,
}

/// What fails in a run.
#[derive(Clone, Copy)]
pub struct Failing {
    /// Whether a read fails after the last byte of the input.
    pub reads: bool,
    /// The number of bytes that the output accepts.
    pub out: usize,
    /// Whether a flush of the output succeeds.
    pub flushes: bool,
    /// The number of bytes that the writer for messages accepts.
    pub err: usize,
}

/// More bytes than any row has.
pub const ALL: usize = 1_000_000;

/// A reader that returns at most this number of bytes per read, and then ends or fails.
#[derive(Drop)]
pub struct Reader<'a> {
    pub left: &'a [u8],
    pub most: usize,
    pub fails: bool,
}

impl Read for Reader<'_> {
    fn read(&mut self, buf: &mut [u8]) -> io::Result<usize> {
        if self.fails && self.left.is_empty() {
            return Err(io::Error::from(ErrorKind::Other));
        }
        let most = buf.len().min(self.most);
        self.left.read(&mut buf[..most])
    }
}

/// A writer that accepts this number of bytes, one at a time, and whose flush succeeds or fails.
#[derive(Drop)]
struct Writer {
    taken: Vec<u8>,
    takes: usize,
    flushes: bool,
}

impl Write for Writer {
    fn write(&mut self, buf: &[u8]) -> io::Result<usize> {
        if self.takes == 0 || buf.is_empty() {
            return Err(io::Error::from(ErrorKind::Other));
        }
        self.takes -= 1;
        self.taken.push(buf[0])?;
        Ok(1)
    }

    fn flush(&mut self) -> io::Result<()> {
        if self.flushes {
            Ok(())
        } else {
            Err(io::Error::from(ErrorKind::Other))
        }
    }
}

/// The arguments in a text that are separated by spaces.
fn arguments(alloc: Global, text: &str) -> Result<Vec<String>, AllocError> {
    let mut arguments = Vec::new(alloc);
    for word in text.split(' ') {
        if !word.is_empty() {
            arguments.push(String::from_str(alloc, word)?)?;
        }
    }
    Ok(arguments)
}

/// An observer that does nothing.
#[derive(Clone, Copy)]
struct Unobserved;

impl Observe for Unobserved {
    fn fetched(&self, _pages: u64) {}
}

/// A platform that cannot lock files, without an observer and without colour.
fn platform_of<R>(rt: &R) -> Platform<'_, R, NoLocks, Unobserved> {
    Platform {
        rt,
        locks: &NoLocks,
        observer: None,
        has_colour: false,
    }
}

fn ends<R: Files<File: Send, Dir: Send> + Threads + Wait + Sync>(
    rt: &R,
    alloc: Global,
    arguments: &[String],
    row: &Row,
    failing: Failing,
) -> bool {
    let mut input = Reader {
        left: row.input.as_bytes(),
        most: ALL,
        fails: failing.reads,
    };
    let mut out = Writer {
        taken: Vec::new(alloc),
        takes: failing.out,
        flushes: failing.flushes,
    };
    let mut err = Writer {
        taken: Vec::new(alloc),
        takes: failing.err,
        flushes: false,
    };
    let status = run_words(
        &platform_of(rt),
        alloc,
        arguments,
        &mut input,
        &mut out,
        &mut err,
    );
    status == row.status
        && out.taken.as_slice() == row.out.as_bytes()
        && err.taken.as_slice() == row.err.as_bytes()
}

/// Whether the program ends as the row says, with these failures.
pub fn holds<R: Files<File: Send, Dir: Send> + Threads + Wait + Sync>(
    rt: &R,
    alloc: Global,
    row: &Row,
    failing: Failing,
) -> bool {
    match arguments(alloc, row.arguments) {
        Ok(arguments) => ends(rt, alloc, &arguments, row, failing),
        Err(_) => false,
    }
}
