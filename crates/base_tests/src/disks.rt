// A disk in memory with its images, a write and its sync on it, and a file.
use aq_disk::{Disk, DiskFile, Failed, FileAction, FileDisk, Fill, MemoryDisk, write_synced};
use std::alloc::{AllocError, Global};
use std::fs;
use std::rt::Files;

// ---- a disk in memory

// A look at the length, and a write no further than behind the end.
fn writes(disk: &mut MemoryDisk, at: u64, from: &[u8]) -> bool {
    match disk.len() {
        Ok(length) => disk.write_at(at.min(length), from).is_ok(),
        Err(_) => false,
    }
}

fn reads(disk: &mut MemoryDisk, at: u64, wanted: &[u8]) -> bool {
    let mut buffer = *b"....";
    disk.read(at, &mut buffer) == Ok(wanted.len()) && buffer.starts_with(wanted)
}

// Behind the end, and over it; the sync at call 6 fails, and what comes behind call 9.
fn works(disk: &mut MemoryDisk) -> bool {
    writes(disk, 2, b"cd")
        && disk.sync().is_ok()
        && writes(disk, 1, b"XYZW")
        && disk.sync().is_err()
        && reads(disk, 3, b"ZW")
        && write_synced(disk, 0, b"gh").is_ok()
        && disk.len() == Err(Failed)
        && (disk.calls(), disk.faults()) == (10, 2)
}

// The number of the call, what stands where a write was torn, and the image.
const IMAGES: [(u64, Fill, &[u8]); 9] = [
    (0, Fill::Byte(7), b"ab"),
    (2, Fill::New, b"abcd"),
    (2, Fill::Old, b"ab"),
    (2, Fill::Byte(7), b"ab\x07\x07"),
    (3, Fill::Byte(7), b"abcd"),
    (7, Fill::Old, b"abcd"),
    (7, Fill::New, b"aXYZW"),
    (7, Fill::Byte(0), b"a\0\0\0\0"),
    (10, Fill::Old, b"ghYZW"),
];

fn has_image(disk: &MemoryDisk, alloc: Global, call: u64, fill: Fill, wanted: &[u8]) -> bool {
    if disk.calls() < call {
        return false;
    }
    match disk.image(alloc, call, fill) {
        Ok(image) => image.as_slice() == wanted,
        Err(_) => false,
    }
}

fn has_images(disk: &MemoryDisk, alloc: Global, images: &[(u64, Fill, &[u8])]) -> bool {
    for (call, fill, wanted) in images {
        if !has_image(disk, alloc, *call, *fill, wanted) {
            return false;
        }
    }
    true
}

fn is_disk(alloc: Global, bytes: Vec<u8>, failing: Vec<u64>) -> bool {
    match MemoryDisk::of(alloc, bytes, failing, Some(9)) {
        Ok(mut disk) => works(&mut disk) && has_images(&disk, alloc, &IMAGES),
        Err(_) => false,
    }
}

#[test]
fn calls_are_answered_and_leave_their_images(rt: HostRuntime) -> Result<(), AllocError> {
    let bytes = b"ab".to_vec(rt.alloc())?;
    assert!(rt; is_disk(rt.alloc(), bytes, [6].to_vec(rt.alloc())?));
    Ok(())
}

// ---- a file

const PATH: &str = "aq_disk.test";

// What is written stands there, and nothing past its end.
fn keeps<R: Files + Drop>(disk: &mut FileDisk<R>) -> bool
where
    R::File: DiskFile,
{
    let mut buffer = *b"........";
    disk.len() == Ok(0)
        && disk.write_at(0, b"abcdef").is_ok()
        && disk.write_at(4, b"EFG").is_ok()
        && disk.sync().is_ok()
        && disk.read(2, &mut buffer) == Ok(5)
        && buffer == *b"cdEFG..."
}

// A file that is not there yet is made, and nothing is written past its limit.
fn is_made<R: Files + Drop>(disk: &mut FileDisk<R>) -> bool
where
    R::File: DiskFile,
{
    keeps(disk)
        && disk.write_at(4_611_686_018_427_387_904, b"x").is_err()
        && disk.write_at(4_611_686_018_427_387_905, b"").is_err()
        && (disk.calls(), disk.faults()) == (7, 2)
}

// Whether a file at that path is made, where it is new, or has that length, where it has one.
fn is_file(rt: &HostRuntime, path: &str, length: Result<u64, Failed>) -> Result<bool, AllocError> {
    let mut disk = FileDisk::at(rt.clone()?, rt.alloc(), path)?;
    Ok(if length == Ok(0) {
        is_made(&mut disk)
    } else {
        disk.len() == length && disk.sync().is_ok() == length.is_ok()
    })
}

fn is_refused<R: Files + Drop>(disk: &mut FileDisk<R>) -> bool
where
    R::File: DiskFile,
{
    let is_refused = disk.len().is_err();
    is_refused && matches!(disk.first_fault(), Some(fault) if fault.action == FileAction::Lock)
}

// A file that a disk holds is refused to another one, and nothing is looked at.
fn is_held(rt: &HostRuntime, path: &str) -> Result<bool, AllocError> {
    let mut holder = FileDisk::at(rt.clone()?, rt.alloc(), path)?;
    let mut other = FileDisk::at(rt.clone()?, rt.alloc(), path)?;
    Ok(holder.len() == Ok(7) && is_refused(&mut other) && holder.sync().is_ok())
}

fn is_removed(rt: &HostRuntime, path: &str) -> bool {
    fs::remove_file(rt, path).is_ok()
}

#[test]
fn a_file_reads_as_it_was_written(rt: HostRuntime) -> Result<(), AllocError> {
    let is_made = is_file(&rt, PATH, Ok(0))?;
    let is_there = is_file(&rt, PATH, Ok(7))?;
    let is_held = is_held(&rt, PATH)?;
    let is_removed = is_removed(&rt, PATH);
    assert!(rt; is_made && is_there && is_held && is_removed);
    assert!(rt; is_file(&rt, "no-such-folder/aq_disk.test", Err(Failed))?);
    Ok(())
}
