// Appends to journals on files, each beside a plain write of as many bytes with one sync of its data.
use crate::fault::Fault;
use crate::timing::{hundredths, since};
use aq_disk::{DiskFile, FileDisk};
use redo_journal::Journal;
use std::alloc::Global;
use std::fs;
use std::fs::OpenFile;
use std::io::Write;
use std::rt::Files;
use std::time::{Clock, Instant};

const BODY: [u8; 100] = [7; 100];

/// What a frame has besides its bodies: its length, how many bodies it has, and a closed gate.
const FRAME: usize = 10;

/// What a body of 100 bytes has besides: its length.
const LENGTH: usize = 1;

/// A plain file, and what is written to it.
#[derive(Drop)]
struct Plain<F> {
    file: F,
    frame: Vec<u8>,
}

/// A journal with frames of so many bodies, a plain file beside it, and how many nanoseconds each has taken.
struct Lane<'a, R: Files>
where
    R::File: DiskFile,
{
    bodies: usize,
    journal: Journal<FileDisk<&'a R>>,
    plain: Plain<R::File>,
    grown: u64,
    written: u64,
}

impl<'a, R: Files> Drop for Lane<'a, R>
where
    R::File: DiskFile,
{
    fn drop(self) {
        let Self {
            bodies: _,
            journal: _,
            plain: _,
            grown: _,
            written: _,
        } = self;
    }
}

/// The name of a file in a folder.
fn path_in(alloc: Global, folder: &str, name: &str, bodies: usize) -> Result<String, Fault> {
    Ok(format!(in alloc; "{folder}/{name}{bodies}")?)
}

/// As many bytes as a frame of so many bodies has.
fn plain_frame(alloc: Global, bodies: usize) -> Result<Vec<u8>, Fault> {
    let size = bodies
        .saturating_mul(BODY.len() + LENGTH)
        .saturating_add(FRAME);
    let mut frame = Vec::new(alloc);
    frame.resize(size, 7)?;
    Ok(frame)
}

fn beside<R: Files>(
    rt: &R,
    alloc: Global,
    folder: &str,
    bodies: usize,
) -> Result<Plain<R::File>, Fault> {
    let path = path_in(alloc, folder, "plain", bodies)?;
    let frame = plain_frame(alloc, bodies)?;
    let file = fs::create(rt, path.as_str())?;
    Ok(Plain { file, frame })
}

fn journal<'a, R: Files>(
    rt: &'a R,
    alloc: Global,
    folder: &str,
    bodies: usize,
) -> Result<Journal<FileDisk<&'a R>>, Fault>
where
    R::File: DiskFile,
{
    let path = path_in(alloc, folder, "grown", bodies)?;
    let disk = FileDisk::at(rt, alloc, path.as_str())?;
    match Journal::mount(alloc, disk) {
        Ok((journal, _)) => Ok(journal),
        Err(_) => Err(Fault::Refused),
    }
}

fn opened<'a, R: Files>(
    rt: &'a R,
    alloc: Global,
    folder: &str,
    bodies: usize,
) -> Result<Lane<'a, R>, Fault>
where
    R::File: DiskFile,
{
    let journal = journal(rt, alloc, folder, bodies)?;
    let plain = beside(rt, alloc, folder, bodies)?;
    Ok(Lane {
        bodies,
        journal,
        plain,
        grown: 0,
        written: 0,
    })
}

/// Appends one frame to the journal, and writes as many bytes to the plain file. They take turns, since what a
/// sync costs changes from one moment to the next.
fn step<R: Files + Clock>(rt: &R, lane: &mut Lane<'_, R>) -> Result<(), Fault>
where
    R::File: DiskFile,
{
    let begun = Instant::now(rt)?;
    for _ in 0..lane.bodies {
        lane.journal.prepare(&BODY)?;
    }
    lane.journal.append()?;
    lane.grown = lane.grown.saturating_add(since(rt, begun)?);
    let begun = Instant::now(rt)?;
    lane.plain.file.write_all(&lane.plain.frame)?;
    lane.plain.file.sync_data()?;
    lane.written = lane.written.saturating_add(since(rt, begun)?);
    Ok(())
}

fn a_second(count: u64, nanos: u64) -> u64 {
    count.saturating_mul(1_000_000_000) / nanos.max(1)
}

fn print_lane<R: Files + Print>(rt: &R, lane: &Lane<'_, R>, appends: u64) -> Result<(), Fault>
where
    R::File: DiskFile,
{
    let bodies = lane.bodies;
    let rate = a_second(appends, lane.grown);
    let plain = a_second(appends, lane.written);
    let ratio = hundredths(lane.written, lane.grown);
    println!(rt;
        "frames of {bodies} bodies: {rate} appends a second, plain writes with a sync {plain}, ratio in hundredths {ratio}"
    )?;
    Ok(())
}

/// Lanes of frames with 1, 10 and 100 bodies, which take turns too.
#[derive(Drop)]
struct Lanes<'a, R: Files>
where
    R::File: DiskFile,
{
    one: Lane<'a, R>,
    ten: Lane<'a, R>,
    hundred: Lane<'a, R>,
}

fn opened_all<'a, R: Files>(rt: &'a R, alloc: Global, folder: &str) -> Result<Lanes<'a, R>, Fault>
where
    R::File: DiskFile,
{
    Ok(Lanes {
        one: opened(rt, alloc, folder, 1)?,
        ten: opened(rt, alloc, folder, 10)?,
        hundred: opened(rt, alloc, folder, 100)?,
    })
}

fn run<R: Files + Clock>(rt: &R, lanes: &mut Lanes<'_, R>, appends: u64) -> Result<(), Fault>
where
    R::File: DiskFile,
{
    for _ in 0..appends {
        step(rt, &mut lanes.one)?;
        step(rt, &mut lanes.ten)?;
        step(rt, &mut lanes.hundred)?;
    }
    Ok(())
}

fn print_all<R: Files + Print>(rt: &R, lanes: &Lanes<'_, R>, appends: u64) -> Result<(), Fault>
where
    R::File: DiskFile,
{
    print_lane(rt, &lanes.one, appends)?;
    print_lane(rt, &lanes.ten, appends)?;
    print_lane(rt, &lanes.hundred, appends)?;
    let one = lanes.one.grown;
    let of_ten = hundredths(one.saturating_mul(10), lanes.ten.grown);
    let of_hundred = hundredths(one.saturating_mul(100), lanes.hundred.grown);
    println!(rt;
        "bodies a second to those of frames of one, in hundredths: of ten {of_ten}, of a hundred {of_hundred}"
    )?;
    Ok(())
}

pub fn report<R: Files + Clock + Print>(
    rt: &R,
    alloc: Global,
    folder: &str,
    appends: u64,
) -> Result<(), Fault>
where
    R::File: DiskFile,
{
    let mut lanes = opened_all(rt, alloc, folder)?;
    run(rt, &mut lanes, appends)?;
    print_all(rt, &lanes, appends)
}
