// Disks in memory, and the journals on them.
ghost use Rattle.std.specs.Prelude.{◌≡◌, [], None, IfSome};

use aq_disk::{Disk, Fill, MemoryDisk};
use payload_records::List;
use redo_journal::{FrameAt, Journal, MountFault};
use std::alloc::{AllocError, Global};

/// A disk of these bytes whose calls of these numbers fail.
pub fn disk_of(alloc: Global, bytes: &[u8], failing: &[u64]) -> Result<MemoryDisk, AllocError> {
    MemoryDisk::of(alloc, bytes.to_vec(alloc)?, failing.to_vec(alloc)?, None)
}

/// The disk that a mount gives back.
pub fn disk_in(fault: MountFault<MemoryDisk>) -> MemoryDisk {
    match fault {
        MountFault::Fault(disk) => disk,
        MountFault::Damaged(_damage, disk) => disk,
        MountFault::Memory(disk) => disk,
    }
}

/// The journal of a disk, and how many frames it has, if it has one.
pub fn mounted(alloc: Global, disk: MemoryDisk) -> Option<(Journal<MemoryDisk>, usize)>
    ensures queued { IfSome result (λ r. r.0.queued ≡ []) }
    ensures fine { IfSome result (λ r. r.0.failed_at ≡ None) }
{
    match Journal::mount(alloc, disk) {
        Ok((journal, frames)) => Some((journal, frames.len())),
        Err(_) => None,
    }
}

fn is_joined(bytes: &[u8], parts: &[&[u8]]) -> bool {
    let mut rest = bytes;
    for part in parts {
        match rest.strip_prefix(*part) {
            Some(behind) => rest = behind,
            None => return false,
        }
    }
    rest.is_empty()
}

/// Whether a disk reads as these parts, one behind the other.
pub fn holds(alloc: Global, disk: &MemoryDisk, parts: &[&[u8]]) -> bool {
    match disk.image(alloc, disk.calls(), Fill::New) {
        Ok(image) => is_joined(image.as_slice(), parts),
        Err(_) => false,
    }
}

fn is_body(body: &List<u8>, wanted: &[u8]) -> bool {
    body.len() == wanted.len() && body.iter().zip(wanted).all(|(byte, other)| byte == other)
}

/// Whether these are the bodies of the frames, one behind the other.
pub fn are_bodies(frames: &List<FrameAt>, wanted: &[&[u8]]) -> bool {
    let mut rest = wanted.iter();
    for frame in frames {
        for body in &frame.bodies {
            match rest.next() {
                Some(wanted) if is_body(body, wanted) => {}
                _ => return false,
            }
        }
    }
    rest.next().is_none()
}
