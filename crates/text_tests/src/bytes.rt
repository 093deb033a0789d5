// Journals as bytes: the worked rows.
ghost use Rattle.std.specs.Prelude.{◌≡◌, [], None};

use crate::disks::{disk_of, holds, mounted};
use crate::journals::ONE_COMMIT;
use aq_disk::{Disk, MemoryDisk};
use checkpoint::compact;
use redo_journal::{Journal, Side};
use std::alloc::{AllocError, Global};

// A begun journal up to its first gate.
const HEADER: [u8; 28] = [
    1, 65, 81, 74, 82, 78, 76, 0, 0, 0, 0, 0, 0, 0, 0, 24, 0, 0, 0, 0, 0, 0, 0, 0, 0, 0, 0, 2,
];

// One of version 1 whose side B is active, and begins at 68.
const OLD_TURNED: [u8; 28] = [
    1, 65, 81, 74, 82, 78, 76, 1, 0, 0, 0, 0, 0, 0, 0, 24, 0, 0, 0, 0, 0, 0, 0, 68, 0, 0, 0, 1,
];

// One of version 2 whose side A is active again.
const TURNED_BACK: [u8; 28] = [
    1, 65, 81, 74, 82, 78, 76, 0, 0, 0, 0, 0, 0, 0, 0, 24, 0, 0, 0, 0, 0, 0, 0, 68, 0, 0, 0, 2,
];

// A commit that puts a table and its exception queue.
const COMMIT: [u8; 28] = [
    0x01, 0x01, 0x01, 0x74, 0x01, 0x03, 0x71, 0x74, 0x79, 0x00, 0x01, 0x01, 0x00, 0x00, 0x03, 0x03,
    0x74, 0x5f, 0x65, 0x01, 0x74, 0x01, 0x00, 0x00, 0x00, 0x00, 0x00, 0x00,
];

// That commit in its frame: an open gate, the length, one body, and its length.
const FRAME: [u8; 39] = [
    1, 0, 0, 0, 0, 0, 0, 0, 30, 1, 28, 0x01, 0x01, 0x01, 0x74, 0x01, 0x03, 0x71, 0x74, 0x79, 0x00,
    0x01, 0x01, 0x00, 0x00, 0x03, 0x03, 0x74, 0x5f, 0x65, 0x01, 0x74, 0x01, 0x00, 0x00, 0x00, 0x00,
    0x00, 0x00,
];

// A closed gate with the version of the area behind it.
const NEXT_AREA: [u8; 5] = [0, 0, 0, 0, 2];

// ---- a journal is begun on an empty disk, and a commit is appended

// A second body is prepared, and withdrawn.
fn is_prepared(journal: &mut Journal<MemoryDisk>) -> bool {
    if journal.prepare(&COMMIT).is_err() || journal.prepare(b"another").is_err() {
        return false;
    }
    journal.withdraw();
    true
}

// It takes four calls, and there is nothing to append then.
fn is_appended(journal: &mut Journal<MemoryDisk>) -> bool {
    let before = journal.disk().calls();
    let is_appended = journal.append().is_ok() && journal.append().is_ok();
    is_appended && journal.disk().calls() == before.wrapping_add(4)
}

fn is_at(journal: &Journal<MemoryDisk>, version: u32, side: Side, root: u64) -> bool {
    let active = journal.active();
    journal.version() == version && active.side == side && active.root == root
}

fn grows(alloc: Global, journal: &mut Journal<MemoryDisk>) -> bool {
    holds(alloc, journal.disk(), &[&HEADER, &[0]])
        && is_prepared(journal)
        && is_appended(journal)
        && holds(alloc, journal.disk(), &[&HEADER, &FRAME, &[0]])
        && is_at(journal, 2, Side::A, 24)
        && journal.count() == 1
        && journal.active().gate == 67
}

// Before anything is written, an empty disk has no bytes as its image.
fn is_begun(alloc: Global) -> Result<bool, AllocError> {
    let disk = disk_of(alloc, b"", &[])?;
    let is_empty = holds(alloc, &disk, &[]);
    Ok(match mounted(alloc, disk) {
        Some((mut journal, count)) => is_empty && count == 0 && grows(alloc, &mut journal),
        None => false,
    })
}

// ---- a journal of version 1 is compacted to one of version 2 behind it, and that one in front of it

fn compacted(alloc: Global, journal: Journal<MemoryDisk>) -> Option<MemoryDisk>
    requires queued { journal.queued ≡ [] }
    requires fine { journal.failed_at ≡ None }
{
    match compact(alloc, journal, &COMMIT) {
        Ok(disk) => Some(disk),
        Err(_) => None,
    }
}

// The disk, compacted, if it has one frame in that version and on that side.
fn turned(
    alloc: Global,
    disk: MemoryDisk,
    version: u32,
    side: Side,
    root: u64,
) -> Option<MemoryDisk> {
    let (journal, count) = mounted(alloc, disk)?;
    if count == 1 && journal.count() == 1 && is_at(&journal, version, side, root) {
        compacted(alloc, journal)
    } else {
        None
    }
}

fn once(alloc: Global, disk: MemoryDisk) -> Option<MemoryDisk> {
    let disk = turned(alloc, disk, 1, Side::A, 24)?;
    let parts: &[&[u8]] = &[&OLD_TURNED, &FRAME, &NEXT_AREA, &FRAME, &[0]];
    if holds(alloc, &disk, parts) {
        Some(disk)
    } else {
        None
    }
}

// The new area just fits in front of the other one.
fn twice(alloc: Global, disk: MemoryDisk) -> Option<MemoryDisk> {
    let disk = turned(alloc, disk, 2, Side::B, 68)?;
    let parts: &[&[u8]] = &[&TURNED_BACK, &FRAME, &NEXT_AREA, &FRAME, &[0]];
    if holds(alloc, &disk, parts) {
        Some(disk)
    } else {
        None
    }
}

fn back(alloc: Global, disk: MemoryDisk) -> Option<(Journal<MemoryDisk>, usize)> {
    mounted(alloc, twice(alloc, once(alloc, disk)?)?)
}

fn is_compacted(alloc: Global) -> Result<bool, AllocError> {
    let disk = disk_of(alloc, ONE_COMMIT, &[])?;
    Ok(match back(alloc, disk) {
        Some((journal, count)) => {
            count == 1 && is_at(&journal, 2, Side::A, 24) && journal.active().gate == 67
        }
        None => false,
    })
}

#[test]
fn journals_are_written_as_their_bytes(rt: HostRuntime) -> Result<(), AllocError> {
    assert!(rt; is_begun(rt.alloc())?);
    assert!(rt; is_compacted(rt.alloc())?);
    Ok(())
}
