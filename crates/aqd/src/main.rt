//! The program: it makes the words, the input, the output, the two disks and the clock, calls the server, and ends with its status.
#![tactic(auto)]

mod causes;

use crate::causes::{say_begun, say_cause};
use aq_base::{ReaderSource, Words, WriterSink};
use aq_clock::SystemClock;
use aq_disk::FileDisk;
use aq_run::serve;
use std::alloc::{AllocError, Global};
use std::env::{Env, FillError};
use std::process::ExitCode;
use std::{io, mem};

/// The files of the two databases, in the current folder.
pub const HOME_FILE: &str = "home.aq";

pub const AWAY_FILE: &str = "away.aq";

/// The lengths that are tried for an argument, as powers of two: the last is longer than any system passes.
const FIRST_POWER: u32 = 8;

const LAST_POWER: u32 = 24;

/// The argument at a place, of which 0 is the program's name, as its bytes, or None past the last.
fn argument(alloc: Global, rt: &HostRuntime, at: usize) -> Result<Option<Vec<u8>>, AllocError> {
    for power in FIRST_POWER..LAST_POWER {
        let mut bytes = vec![in alloc; 0u8; 1 << power]?;
        match rt.arg(at, &mut bytes) {
            Ok(length) => {
                bytes.truncate(length);
                return Ok(Some(bytes));
            }
            Err(FillError::NotPresent) => return Ok(None),
            Err(FillError::TooLong) => {}
        }
    }
    Err(AllocError)
}

/// The arguments behind the program's name, each as its bytes.
fn arguments(alloc: Global, rt: &HostRuntime) -> Result<Vec<Vec<u8>>, AllocError> {
    let mut all = Vec::new(alloc);
    for at in 1..usize::MAX {
        match argument(alloc, rt, at)? {
            Some(bytes) => all.push(bytes)?,
            None => break,
        }
    }
    Ok(all)
}

fn words(alloc: Global, rt: &HostRuntime) -> Result<Words, AllocError> {
    Words::of_arguments(alloc, &arguments(alloc, rt)?)
}

/// The file of that name as a disk. It is not opened yet.
fn disk(rt: &HostRuntime, name: &str) -> Result<FileDisk<HostRuntime>, AllocError> {
    FileDisk::at(rt.clone()?, rt.alloc(), name)
}

fn main(rt: HostRuntime) -> ExitCode {
    let alloc = rt.alloc();
    let Ok(words) = words(alloc, &rt) else {
        return ExitCode::from(4);
    };
    let Ok(home) = disk(&rt, HOME_FILE) else {
        return ExitCode::from(4);
    };
    let Ok(away) = disk(&rt, AWAY_FILE) else {
        return ExitCode::from(4);
    };
    let Ok(machine) = rt.clone() else {
        return ExitCode::from(4);
    };
    let mut input = ReaderSource::of(rt.reader());
    let mut out = WriterSink::of(io::writer(&rt));
    let clock = SystemClock::new(machine);
    let outcome = serve(alloc, &words, &mut input, &mut out, home, away, clock);
    let status = outcome.status;
    say_begun(&rt, HOME_FILE, &outcome.home);
    say_begun(&rt, AWAY_FILE, &outcome.away);
    say_cause(&rt, status, &outcome.home, &outcome.away);
    // The process ends with its memory: to take a history apart entry by entry first would cost a long run some hundredths of its time.
    mem::forget(outcome);
    ExitCode::from(status)
}
