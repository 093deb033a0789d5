// Measures a journal over a file, and commits as bytes.
mod appends;
mod commits;
mod mounts;

use crate::fault::Fault;
use crate::words::{number, word};
use aq_disk::DiskFile;
use std::alloc::Global;
use std::env::Args;
use std::rt::Files;
use std::time::Clock;

/// How often what is read or spelled is measured.
const ROUNDS: u32 = 5;

fn report_in<R: Files + Clock + Print + AllocGlobal>(
    rt: &R,
    folder: &str,
    words: &mut Args<Global>,
) -> Result<(), Fault>
where
    R::File: DiskFile,
{
    let appends = number(words)?;
    let frames = number(words)?;
    let changes = number(words)?;
    appends::report(rt, rt.alloc(), folder, appends)?;
    mounts::report(rt, folder, frames)?;
    commits::report(rt, rt.alloc(), changes)
}

pub fn report<R: Files + Clock + Print + AllocGlobal>(
    rt: &R,
    words: &mut Args<Global>,
) -> Result<(), Fault>
where
    R::File: DiskFile,
{
    let folder = word(words)?;
    report_in(rt, folder.as_str(), words)
}
