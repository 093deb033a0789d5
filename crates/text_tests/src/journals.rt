// Disks whose bodies are commits, read back: worked bytes, and one journal with its end cut off or a byte changed.
ghost use Rattle.std.specs.Option.{ForSome};
ghost use Rattle.redo_records.specs.Laws.{IsVersion};

use crate::disks::disk_of;
use aq_disk::MemoryDisk;
use database_recovery::{damaged_at, recover};
use payload_records::List;
use redo_journal::{Damage, FrameAt, Journal, MountFault};
use std::alloc::{AllocError, Global};
use std::process::Abort;

/// A journal of version 1 with one commit, which puts a table and its exception queue.
pub const ONE_COMMIT: &[u8] =
    b"\x01AQJRNL\0\0\0\0\0\0\0\0\x18\0\0\0\0\0\0\0\0\0\0\0\x01\x01\0\0\0\0\0\0\0\x1e\x01\x1c\x01\x01\x01t\x01\x03qty\0\x01\x01\0\0\x03\x03t_e\x01t\x01\0\0\0\0\0\0\0";

// Four frames of version 2, the last with the commits of two sessions.
const TWO_IN_ONE: &[u8] =
    b"\x01AQJRNL\0\0\0\0\0\0\0\0\x18\0\0\0\0\0\0\0\0\0\0\0\x02\x01\0\0\0\0\0\0\0\x1e\x01\x1c\x01\x01\x01t\x01\x03qty\0\x01\x01\0\0\x03\x03t_e\x01t\x01\0\0\0\0\0\0\x01\0\0\0\0\0\0\0\x0f\x01\x0d\x05\x03\x01q\x01t\0\0\0\x05\0\0\0\x01\0\0\0\0\0\0\0\x0f\x01\x0d\x09\x03\x01q\x01t\0\x01\x01\x05\0\0\0\x01\0\0\0\0\0\0\0\x37\x02\x1a\x0d\x09\x01\x01q\x03\0\x1a\x02\x02\0\0\x01\x01\x02\x0d\x01\0\x01\0\0\0\0\x0d\0\0\x1a\x0e\x09\x02\x01q\x03\0\x1c\x04\x02\0\0\x01\x01\x04\x0e\x02\0\x01\0\0\0\0\x0e\0\0\0";

// The same in version 1, whose messages have no properties.
const OLD_TWO_IN_ONE: &[u8] =
    b"\x01AQJRNL\0\0\0\0\0\0\0\0\x18\0\0\0\0\0\0\0\0\0\0\0\x01\x01\0\0\0\0\0\0\0\x1e\x01\x1c\x01\x01\x01t\x01\x03qty\0\x01\x01\0\0\x03\x03t_e\x01t\x01\0\0\0\0\0\0\x01\0\0\0\0\0\0\0\x0f\x01\x0d\x05\x03\x01q\x01t\0\0\0\x05\0\0\0\x01\0\0\0\0\0\0\0\x0f\x01\x0d\x09\x03\x01q\x01t\0\x01\x01\x05\0\0\0\x01\0\0\0\0\0\0\0\x35\x02\x19\x0d\x09\x01\x01q\x03\0\x1a\x02\x02\0\0\x01\x01\x02\x0d\x01\0\x01\0\0\0\0\x0d\0\x19\x0e\x09\x02\x01q\x03\0\x1c\x04\x02\0\0\x01\x01\x04\x0e\x02\0\x01\0\0\0\0\x0e\0\0";

// Five commits on side A, and on side B, which is active, all that they come to.
const COMPACTED: &[u8] =
    b"\x01AQJRNL\x01\0\0\0\0\0\0\0\x18\0\0\0\0\0\0\0\xab\0\0\0\x02\x01\0\0\0\0\0\0\0\x1e\x01\x1c\x01\x01\x01t\x01\x03qty\0\x01\x01\0\0\x03\x03t_e\x01t\x01\0\0\0\0\0\0\x01\0\0\0\0\0\0\0\x0f\x01\x0d\x04\x03\x01q\x01t\0\0\0\x05\0\0\0\x01\0\0\0\0\0\0\0\x0f\x01\x0d\x07\x03\x01q\x01t\0\x01\x01\x05\0\0\0\x01\0\0\0\0\0\0\0\x1c\x01\x1a\x0a\x09\x01\x01q\x03\0\x14\x02\x02\0\0\x01\x01\x06\x0a\x01\0\x01\0\0\0\0\x0a\0\0\x01\0\0\0\0\0\0\0\x09\x01\x07\x0d\x0c\x01\x01\x0d\x10\x01\0\0\0\0\x02\x01\0\0\0\0\0\0\0\x2e\x01\x2c\x0d\x12\x02\x02\x0d\x01\x01t\x01\x03qty\0\x01\x01\0\0\x03\x03t_e\x01t\x01\0\0\0\0\0\0\x03\x01q\x01t\0\x01\x01\x05\0\0\0\0";

// A closed gate, whichever byte it is, with bytes behind it that are no frame.
const CLOSED: &[u8] = b"\x01AQJRNL\0\0\0\0\0\0\0\0\x18\0\0\0\0\0\0\0\0\0\0\0\x01\x07\xff\xff";

// An open gate, and a length past the end.
const TOO_LONG: &[u8] =
    b"\x01AQJRNL\0\0\0\0\0\0\0\0\x18\0\0\0\0\0\0\0\0\0\0\0\x01\x01\xff\xff\xff\xff\xff\xff\xff\xff";

// ---- what a disk says

#[derive(Clone, Copy, PartialEq, Eq)]
enum Told {
    // The offset at which it is damaged.
    Damaged(u64),
    // The moment of its latest commit, 0 where there is none.
    Latest(u64),
}

fn latest_told(alloc: Global, version: u32, frames: List<FrameAt>) -> Option<Told>
    requires { IsVersion version }
{
    match recover(alloc, version, frames) {
        Ok(store) => Some(Told::Latest(store.tables().latest)),
        Err(_) => None,
    }
}

fn damage_told(alloc: Global, damage: Damage) -> Option<Told>
    requires { ForSome damage.version IsVersion }
{
    match damaged_at(alloc, damage) {
        Ok(offset) => Some(Told::Damaged(offset)),
        Err(_) => None,
    }
}

// What is told of a disk, if there is memory.
fn said_of(alloc: Global, disk: MemoryDisk) -> Option<Told> {
    match Journal::mount(alloc, disk) {
        Ok((journal, frames)) => latest_told(alloc, journal.version(), frames),
        Err(MountFault::Damaged(damage, _)) => damage_told(alloc, damage),
        Err(_) => None,
    }
}

fn is_told(alloc: Global, bytes: &[u8], wanted: Told) -> bool {
    match disk_of(alloc, bytes, &[]) {
        Ok(disk) => said_of(alloc, disk) == Some(wanted),
        Err(_) => false,
    }
}

// ---- the journal of one commit in a version, with a byte changed or its end cut off

type Alteration = (usize, u8, Told);

const ALTERATIONS: [Alteration; 14] = [
    (0, 0, Told::Latest(0)),
    (0, 2, Told::Damaged(0)),
    (1, 0, Told::Damaged(0)),
    (7, 1, Told::Damaged(16)),
    (15, 23, Told::Damaged(8)),
    (15, 64, Told::Damaged(8)),
    (27, 3, Told::Damaged(24)),
    (28, 2, Told::Latest(0)),
    // a length one too great and one too small; and no body
    (36, 0x1f, Told::Damaged(28)),
    (36, 0x1d, Told::Damaged(28)),
    (37, 0, Told::Damaged(28)),
    // the moment; and the closed gate, as it is and as another byte
    (39, 2, Told::Latest(2)),
    (67, 0, Told::Latest(1)),
    (67, 0xff, Told::Latest(1)),
];

fn change(bytes: &mut [u8], at: usize, byte: u8) {
    if let Some(place) = bytes.get_mut(at) {
        *place = byte;
    }
}

fn altered(alloc: Global, version: u8, at: usize, byte: u8) -> Result<Vec<u8>, AllocError> {
    let mut bytes = ONE_COMMIT.to_vec(alloc)?;
    change(&mut bytes, 27, version);
    change(&mut bytes, at, byte);
    Ok(bytes)
}

fn is_altered(alloc: Global, version: u8, row: &Alteration) -> bool {
    match altered(alloc, version, row.0, row.1) {
        Ok(bytes) => is_told(alloc, &bytes, row.2),
        Err(_) => false,
    }
}

fn check_altered(rt: &impl Abort, alloc: Global, version: u8, rows: &[Alteration]) {
    for row in rows {
        assert!(rt;
            is_altered(alloc, version, row),
            "version {version}, byte {}",
            row.0
        );
    }
}

fn told_of_cut(left: usize) -> Told {
    match left {
        0 | 1 => Told::Latest(0),
        2..24 => Told::Damaged(0),
        24..29 => Told::Damaged(8),
        _ => Told::Damaged(28),
    }
}

// The first length at which a cut is not told so.
fn first_wrong_cut(alloc: Global, bytes: &[u8]) -> usize {
    for left in 0..bytes.len() {
        if !is_told(alloc, &bytes[..left], told_of_cut(left)) {
            return left;
        }
    }
    bytes.len()
}

fn wrong_cut(alloc: Global, version: u8) -> Result<usize, AllocError> {
    let bytes = altered(alloc, version, 67, 0)?;
    Ok(first_wrong_cut(alloc, &bytes))
}

#[test]
fn altered_journals(rt: HostRuntime) -> Result<(), AllocError> {
    for version in 1..3u8 {
        check_altered(&rt, rt.alloc(), version, &ALTERATIONS);
        let cut = wrong_cut(rt.alloc(), version)?;
        assert!(rt; cut == 68, "version {version}, the first {cut} bytes");
    }
    Ok(())
}

// ---- worked journals, how many bodies each of their frames has, and what is told

type Row = (&'static [u8], &'static [usize], Told);

const WORKED: [Row; 6] = [
    (ONE_COMMIT, &[1], Told::Latest(1)),
    (TWO_IN_ONE, &[1, 1, 1, 2], Told::Latest(14)),
    (OLD_TWO_IN_ONE, &[1, 1, 1, 2], Told::Latest(14)),
    (COMPACTED, &[1], Told::Latest(13)),
    (CLOSED, &[], Told::Latest(0)),
    (TOO_LONG, &[], Told::Damaged(28)),
];

fn are_counts(frames: &List<FrameAt>, counts: &[usize]) -> bool {
    let mut all = frames.iter().zip(counts);
    frames.len() == counts.len() && all.all(|(frame, count)| frame.bodies.len() == *count)
}

fn is_counted(alloc: Global, disk: MemoryDisk, counts: &[usize]) -> bool {
    match Journal::mount(alloc, disk) {
        Ok((_, frames)) => are_counts(&frames, counts),
        Err(_) => counts.is_empty(),
    }
}

fn is_worked(alloc: Global, row: &Row) -> bool {
    match disk_of(alloc, row.0, &[]) {
        Ok(disk) => is_counted(alloc, disk, row.1) && is_told(alloc, row.0, row.2),
        Err(_) => false,
    }
}

fn check_worked(rt: &impl Abort, alloc: Global, rows: &[Row]) {
    for (at, row) in rows.iter().enumerate() {
        assert!(rt; is_worked(alloc, row), "row {at}");
    }
}

// The gate at the end is open, with nothing behind it: what stands before it is read in the version of its area.
fn is_open_told(alloc: Global) -> Result<bool, AllocError> {
    let mut bytes = OLD_TWO_IN_ONE.to_vec(alloc)?;
    let last = OLD_TWO_IN_ONE.len().saturating_sub(1);
    change(&mut bytes, last, 1);
    Ok(is_told(alloc, &bytes, Told::Damaged(last as u64)))
}

#[test]
fn worked_journals(rt: HostRuntime) -> Result<(), AllocError> {
    check_worked(&rt, rt.alloc(), &WORKED);
    assert!(rt; is_open_told(rt.alloc())?);
    Ok(())
}
