// Calls of the server over devices in memory.
use aq_base::{MemorySink, MemorySource, Words};
use aq_clock::StepClock;
use aq_disk::{Disk, Fill, MemoryDisk};
use aq_run::{Outcome, serve};
use std::alloc::{AllocError, Global};

pub const SERIAL: &[&str] = &["run", "--serial"];

pub const DUMP: &[&str] = &["dump"];

/// The bytes of a disk that was not begun.
pub const EMPTY: &[u8] = b"";

// ---- disks

/// The disks of the two databases.
#[derive(Drop)]
pub struct Disks {
    pub home: MemoryDisk,
    pub away: MemoryDisk,
}

/// The bytes of a disk, and the numbers of its calls that fail.
pub type Planned<'a> = (&'a [u8], &'a [u64]);

fn disk_of(alloc: Global, planned: Planned<'_>) -> Result<MemoryDisk, AllocError> {
    let bytes = planned.0.to_vec(alloc)?;
    let failing = planned.1.to_vec(alloc)?;
    MemoryDisk::of(alloc, bytes, failing, None)
}

/// Disks of these bytes, of which these calls fail.
pub fn disks_of(alloc: Global, home: Planned<'_>, away: Planned<'_>) -> Result<Disks, AllocError> {
    let home = disk_of(alloc, home)?;
    let away = disk_of(alloc, away)?;
    Ok(Disks { home, away })
}

/// What two disks hold.
#[derive(Drop)]
pub struct Files {
    pub home: Vec<u8>,
    pub away: Vec<u8>,
}

/// Files that were not begun.
pub fn no_files(alloc: Global) -> Files {
    Files {
        home: Vec::new(alloc),
        away: Vec::new(alloc),
    }
}

fn image(alloc: Global, disk: &MemoryDisk, fill: Fill) -> Result<Vec<u8>, AllocError> {
    disk.image(alloc, disk.calls(), fill)
}

/// What a crash leaves of the disks now, with what was not synced filled so.
pub fn left(alloc: Global, disks: &Disks, fill: Fill) -> Result<Files, AllocError> {
    let home = image(alloc, &disks.home, fill)?;
    let away = image(alloc, &disks.away, fill)?;
    Ok(Files { home, away })
}

// ---- calls

fn words_of(alloc: Global, list: &[&str]) -> Result<Words, AllocError> {
    let mut words = Words::new(alloc);
    for word in list {
        words.push(word)?;
    }
    Ok(words)
}

// The status of a call, and its disks; its history goes.
fn end_of(outcome: Outcome<MemoryDisk, StepClock>) -> (u8, Disks) {
    let Outcome {
        status,
        history: _,
        home,
        away,
        clock: _,
    } = outcome;
    (status, Disks { home, away })
}

fn serve_over(
    alloc: Global,
    words: &Words,
    source: &mut MemorySource,
    sink: &mut MemorySink,
    disks: Disks,
) -> (u8, Disks) {
    let Disks { home, away } = disks;
    let clock = StepClock::from(0);
    end_of(serve(alloc, words, source, sink, home, away, clock))
}

/// How a call ended, the disks that it left, and what it wrote.
#[derive(Drop)]
pub struct Served {
    pub status: u8,
    pub disks: Disks,
    pub sink: MemorySink,
}

impl Served {
    pub fn is(&self, status: u8, text: &str) -> bool {
        self.status == status && self.sink.taken() == text.as_bytes()
    }

    pub fn text(&self) -> &str {
        str::from_utf8(self.sink.taken()).unwrap_or("")
    }
}

// What a call is given: the words of its command line, and an input that works.
#[derive(Drop)]
struct Given {
    words: Words,
    source: MemorySource,
}

fn give(alloc: Global, words: &[&str], input: &str) -> Result<Given, AllocError> {
    let words = words_of(alloc, words)?;
    let bytes = input.as_bytes().to_vec(alloc)?;
    Ok(Given {
        words,
        source: MemorySource::of(bytes, Vec::new(alloc)),
    })
}

/// Calls the server over these disks, with an input and an output that work.
pub fn call_over(
    alloc: Global,
    words: &[&str],
    input: &str,
    disks: Disks,
) -> Result<Served, AllocError> {
    let Given { words, mut source } = give(alloc, words, input)?;
    let mut sink = MemorySink::of(alloc, Vec::new(alloc), None);
    let (status, disks) = serve_over(alloc, &words, &mut source, &mut sink, disks);
    Ok(Served {
        status,
        disks,
        sink,
    })
}

/// The status of a call over empty disks, with this input and this output.
pub fn status_by(
    alloc: Global,
    words: &[&str],
    source: &mut MemorySource,
    sink: &mut MemorySink,
) -> Result<u8, AllocError> {
    let words = words_of(alloc, words)?;
    let disks = disks_of(alloc, (EMPTY, &[]), (EMPTY, &[]))?;
    let (status, _left) = serve_over(alloc, &words, source, sink, disks);
    Ok(status)
}
