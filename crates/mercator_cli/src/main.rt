//! The program `mercator`.
#![tactic(auto)]

mod progress;

use mercator::{CommandError, PlanError, Platform, run_words};
use progress::Progress;
use std::env::VarError;
use std::fs::{self, Files};
use std::io::{ErrorKind, IsTerminal, Write};
use std::process::ExitCode;
use std::rt::Env;
use std::{env, io};

/// Runs the command line that this process was started with, and exits with its status.
fn main(rt: HostRuntime) -> ExitCode {
    let _placeholders = (placeholder(&rt), placeholder(&rt), placeholder(&rt));
    let arguments = match arguments(&rt) {
        Ok(arguments) => arguments,
        Err(error) => return ExitCode::from(without_arguments(&mut rt.stderr(), &error)),
    };
    let progress = Progress::new(&rt);
    ExitCode::from(run_words(
        &platform_of(&rt, &progress),
        rt.alloc(),
        &arguments,
        &mut rt.reader(),
        &mut io::writer(&rt),
        &mut rt.stderr(),
    ))
}

/// Opens a descriptor that takes the place of a standard one that was closed when the program started. Without it, a log that is
/// opened later could become standard output. It is that of a folder, so that reads and writes there fail; `None` if it cannot
/// be opened.
fn placeholder<R: Files>(rt: &R) -> Option<R::File> {
    fs::open(rt, "/").ok()
}

/// Returns the platform of a process, with this observer.
fn platform_of<'p, V>(
    rt: &'p HostRuntime,
    observer: &'p V,
) -> Platform<'p, HostRuntime, HostRuntime, V> {
    Platform {
        rt,
        locks: rt,
        observer: Some(observer),
        has_colour: has_colour(rt, rt.stdout().is_terminal()),
    }
}

/// Returns whether reports may have colour: on a terminal, if `NO_COLOR` is not set or empty.
fn has_colour(rt: &(impl Env + AllocGlobal), is_terminal: bool) -> bool {
    is_terminal
        && match env::var(rt, "NO_COLOR") {
            Ok(text) => text.is_empty(),
            Err(VarError::NotPresent) => true,
            Err(_) => false,
        }
}

/// Returns the arguments after the program's name.
fn arguments(rt: &(impl Env + AllocGlobal)) -> io::Result<Vec<String>> {
    Ok(env::args(rt)?.skip(1).collect(rt.alloc())?)
}

/// Reports that the arguments cannot be read, because memory ran out or one is not UTF-8, and returns the exit status.
fn without_arguments<E: Write>(err: &mut E, error: &io::Error) -> u8 {
    let (line, status) = if error.kind() == ErrorKind::OutOfMemory {
        ("mercator: out of memory\n", CommandError::NoMemory.status())
    } else {
        (
            "error: the command line is not UTF-8\n",
            PlanError::BAD_COMMAND_LINE,
        )
    };
    let _ = err.write_all(line.as_bytes());
    status
}
