// A journal is begun, grows and is compacted twice, and a crash comes at each call of its disk.
ghost use Rattle.std.specs.Prelude.{◌≡◌, [], None};

use crate::disks::{are_bodies, disk_in, disk_of};
use aq_disk::{Disk, Fill, MemoryDisk};
use checkpoint::{CompactFault, compact};
use payload_records::List;
use redo_journal::{FrameAt, Journal};
use std::alloc::{AllocError, Global};

// The bodies of each append. The third one has nothing to write.
const APPENDS: [&[&[u8]]; 3] = [&[b"a"], &[b"bc", b""], &[]];

// What stands on the disk after the mount, after each append, and after each compaction.
const STATES: [&[&[u8]]; 6] = [
    &[],
    &[b"a"],
    &[b"a", b"bc", b""],
    &[b"a", b"bc", b""],
    &[b"all"],
    &[b"again"],
];

const FILLS: [Fill; 5] = [
    Fill::Old,
    Fill::New,
    Fill::Byte(0),
    Fill::Byte(1),
    Fill::Byte(255),
];

// ---- all steps up to the first that fails; the ends are how many calls were made when each was answered

// The disk with its journal written anew, and whether that was done.
fn compacted(alloc: Global, journal: Journal<MemoryDisk>, body: &[u8]) -> (MemoryDisk, bool)
    requires queued { journal.queued ≡ [] }
    requires fine { journal.failed_at ≡ None }
{
    match compact(alloc, journal, body) {
        Ok(disk) => (disk, true),
        Err(CompactFault::Fault(disk)) => (disk, false),
        Err(CompactFault::Memory(disk)) => (disk, false),
    }
}

fn rewritten(alloc: Global, disk: MemoryDisk, body: &[u8]) -> (MemoryDisk, bool) {
    match Journal::mount(alloc, disk) {
        Ok((journal, _)) => compacted(alloc, journal, body),
        Err(fault) => (disk_in(fault), false),
    }
}

fn rewritten_twice(
    alloc: Global,
    disk: MemoryDisk,
    ends: &mut Vec<u64>,
) -> Result<MemoryDisk, AllocError> {
    let (disk, is_done) = rewritten(alloc, disk, b"all");
    if !is_done {
        return Ok(disk);
    }
    ends.push(disk.calls())?;
    let (disk, is_done) = rewritten(alloc, disk, b"again");
    if is_done {
        ends.push(disk.calls())?;
    }
    Ok(disk)
}

fn prepare(journal: &mut Journal<MemoryDisk>, bodies: &[&[u8]]) -> Result<(), AllocError> {
    for body in bodies {
        journal.prepare(body)?;
    }
    Ok(())
}

// Whether no append fails.
fn appends(
    journal: &mut Journal<MemoryDisk>,
    ends: &mut Vec<u64>,
    all: &[&[&[u8]]],
) -> Result<bool, AllocError> {
    for bodies in all {
        prepare(journal, bodies)?;
        if journal.append().is_err() {
            return Ok(false);
        }
        ends.push(journal.disk().calls())?;
    }
    Ok(true)
}

fn grown(
    alloc: Global,
    mut journal: Journal<MemoryDisk>,
    ends: &mut Vec<u64>,
) -> Result<MemoryDisk, AllocError> {
    ends.push(journal.disk().calls())?;
    let is_done = appends(&mut journal, ends, &APPENDS)?;
    let disk = journal.into_disk();
    if is_done {
        rewritten_twice(alloc, disk, ends)
    } else {
        Ok(disk)
    }
}

fn run(alloc: Global, failing: &[u64], ends: &mut Vec<u64>) -> Result<MemoryDisk, AllocError> {
    match Journal::mount(alloc, disk_of(alloc, b"", failing)?) {
        Ok((journal, _)) => grown(alloc, journal, ends),
        Err(fault) => Ok(disk_in(fault)),
    }
}

// ---- what may stand on an image

fn is_state(frames: &List<FrameAt>, state: usize) -> bool {
    match STATES.get(state) {
        Some(wanted) => are_bodies(frames, wanted),
        None => false,
    }
}

// What was answered at a call number, or, inside the next step, what that step leaves.
fn are_allowed(frames: &List<FrameAt>, call: u64, ends: &[u64]) -> bool {
    let done = ends.iter().filter(|end| **end <= call).count();
    is_state(frames, done.saturating_sub(1)) || (!ends.contains(&call) && is_state(frames, done))
}

fn is_allowed(alloc: Global, image: &[u8], call: u64, ends: &[u64]) -> Result<bool, AllocError> {
    match Journal::mount(alloc, disk_of(alloc, image, &[])?) {
        Ok((_, frames)) => Ok(are_allowed(&frames, call, ends)),
        Err(_) => Ok(false),
    }
}

fn is_filled(
    alloc: Global,
    disk: &MemoryDisk,
    ends: &[u64],
    call: u64,
    fill: Fill,
) -> Result<bool, AllocError> {
    if call > disk.calls() {
        return Ok(true);
    }
    let image = disk.image(alloc, call, fill)?;
    is_allowed(alloc, &image, call, ends)
}

// Whether each fill of the image of a call number is allowed.
fn all_allowed(
    alloc: Global,
    disk: &MemoryDisk,
    ends: &[u64],
    call: u64,
    fills: &[Fill],
) -> Result<bool, AllocError> {
    for fill in fills {
        if !is_filled(alloc, disk, ends, call, *fill)? {
            return Ok(false);
        }
    }
    Ok(true)
}

// ---- a crash, and a fault, at each call

// The first call at which a crash leaves what is not allowed.
fn first_wrong(alloc: Global, disk: &MemoryDisk, ends: &[u64]) -> Result<u64, AllocError> {
    for call in 0..31 {
        if !all_allowed(alloc, disk, ends, call, &FILLS)? {
            return Ok(call);
        }
    }
    Ok(31)
}

// The mount takes 8 calls, the appends 4, 4 and none, the compactions 2 to mount and 5 each.
fn first_wrong_crash(alloc: Global) -> Result<u64, AllocError> {
    let mut ends = Vec::new(alloc);
    let disk = run(alloc, &[], &mut ends)?;
    if ends.as_slice() != [8, 12, 16, 16, 23, 30].as_slice() {
        return Ok(0);
    }
    first_wrong(alloc, &disk, &ends)
}

#[test]
fn crash_at_each_call(rt: HostRuntime) -> Result<(), AllocError> {
    let wrong = first_wrong_crash(rt.alloc())?;
    assert!(rt; wrong == 31, "a crash at call {wrong}");
    Ok(())
}

fn is_fault_allowed(alloc: Global, call: u64) -> Result<bool, AllocError> {
    let mut ends = Vec::new(alloc);
    let disk = run(alloc, &[call], &mut ends)?;
    let last = disk.calls();
    let is_one = last <= 30 && disk.faults() == 1;
    Ok(is_one && all_allowed(alloc, &disk, &ends, last, &FILLS)?)
}

#[test]
fn fault_at_each_call(rt: HostRuntime) -> Result<(), AllocError> {
    for call in 1..31 {
        assert!(rt; is_fault_allowed(rt.alloc(), call)?, "call {call} fails");
    }
    Ok(())
}
