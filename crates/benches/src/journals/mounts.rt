// A journal of many frames is mounted, and beside it the same file is read and cut without any check.
use super::ROUNDS;
use crate::fault::{Fault, right};
use crate::timing::{Least, hundredths, since};
use aq_disk::{DiskFile, FileDisk};
use payload_records::List;
use redo_journal::{FrameAt, Journal};
use std::alloc::Global;
use std::fs;
use std::rt::Files;
use std::time::{Clock, Instant};

/// A begun journal up to its first gate.
const HEADER: [u8; 28] = [
    1, 65, 81, 74, 82, 78, 76, 0, 0, 0, 0, 0, 0, 0, 0, 24, 0, 0, 0, 0, 0, 0, 0, 0, 0, 0, 0, 2,
];

/// An open gate, the length, one body, and its length.
const HEAD: [u8; 11] = [1, 0, 0, 0, 0, 0, 0, 0, 102, 1, 100];

const BODY: [u8; 100] = [7; 100];

/// A journal with so many frames, each of one body.
fn spell(bytes: &mut Vec<u8>, frames: u64) -> Result<(), Fault> {
    bytes.extend_from_slice(&HEADER)?;
    for _ in 0..frames {
        bytes.extend_from_slice(&HEAD)?;
        bytes.extend_from_slice(&BODY)?;
    }
    bytes.push(0)?;
    Ok(())
}

fn mount_time<R: Files + Clock>(
    rt: &R,
    alloc: Global,
    path: &str,
    wanted: u64,
) -> Result<u64, Fault>
where
    R::File: DiskFile,
{
    let begun = Instant::now(rt)?;
    let disk = FileDisk::at(rt, alloc, path)?;
    let Ok((_, frames)) = Journal::mount(alloc, disk) else {
        return Err(Fault::Refused);
    };
    let cost = since(rt, begun);
    right(frames.len() as u64 == wanted).and(cost)
}

/// Where the body of the frame at the front stands, and what stands behind the frame: both are taken from the
/// lengths, which are believed.
fn cut(bytes: &[u8]) -> Option<(&[u8], &[u8])> {
    let [1, _, _, _, _, _, _, _, _, 1, size, behind @ ..] = bytes else {
        return None;
    };
    let size = *size as usize;
    if size > behind.len() {
        return None;
    }
    Some((&behind[..size], &behind[size..]))
}

fn add_frame(
    frames: &mut Vec<FrameAt>,
    alloc: Global,
    offset: u64,
    body: &[u8],
) -> Result<(), Fault> {
    let mut bodies = List::new(alloc);
    bodies.push(List::from_vec(body.to_vec(alloc)?))?;
    frames.push(FrameAt { offset, bodies })?;
    Ok(())
}

/// All frames of these bytes, with a copy of each body.
fn cut_all(frames: &mut Vec<FrameAt>, alloc: Global, bytes: &[u8]) -> Result<(), Fault> {
    let mut rest = bytes;
    let mut offset: u64 = 0;
    for _ in 0..bytes.len() {
        let Some((body, behind)) = cut(rest) else {
            break;
        };
        add_frame(frames, alloc, offset, body)?;
        offset = offset.wrapping_add(body.len() as u64);
        rest = behind;
    }
    Ok(())
}

/// All bodies of these bytes, where they stand.
fn see_all<'a>(bodies: &mut Vec<&'a [u8]>, bytes: &'a [u8]) -> Result<(), Fault> {
    let mut rest = bytes;
    for _ in 0..bytes.len() {
        let Some((body, behind)) = cut(rest) else {
            break;
        };
        bodies.push(body)?;
        rest = behind;
    }
    Ok(())
}

fn behind_header(bytes: &[u8]) -> &[u8] {
    &bytes[HEADER.len().min(bytes.len())..]
}

/// Nanoseconds to read the file and cut it into frames.
fn cut_time<R: Files + Clock + AllocGlobal>(rt: &R, path: &str, wanted: u64) -> Result<u64, Fault> {
    let begun = Instant::now(rt)?;
    let bytes = fs::read(rt, path)?;
    let mut frames = Vec::new(rt.alloc());
    cut_all(&mut frames, rt.alloc(), behind_header(&bytes))?;
    let cost = since(rt, begun);
    right(frames.len() as u64 == wanted).and(cost)
}

/// Nanoseconds to read the file and find its bodies, which stay where they stand.
fn see_time<R: Files + Clock + AllocGlobal>(rt: &R, path: &str, wanted: u64) -> Result<u64, Fault> {
    let begun = Instant::now(rt)?;
    let bytes = fs::read(rt, path)?;
    let mut bodies = Vec::new(rt.alloc());
    see_all(&mut bodies, behind_header(&bytes))?;
    let cost = since(rt, begun);
    right(bodies.len() as u64 == wanted).and(cost)
}

fn write<R: Files + AllocGlobal>(rt: &R, path: &str, frames: u64) -> Result<(), Fault> {
    let mut bytes = Vec::new(rt.alloc());
    spell(&mut bytes, frames)?;
    fs::write(rt, path, &bytes)?;
    Ok(())
}

fn measure<R: Files + Clock + Print + AllocGlobal>(
    rt: &R,
    path: &str,
    frames: u64,
) -> Result<(), Fault>
where
    R::File: DiskFile,
{
    let (mut mounting, mut cutting, mut seeing) = (Least::NONE, Least::NONE, Least::NONE);
    write(rt, path, frames)?;
    for _ in 0..ROUNDS {
        mounting.note(mount_time(rt, rt.alloc(), path, frames)?);
        cutting.note(cut_time(rt, path, frames)?);
        seeing.note(see_time(rt, path, frames)?);
    }
    fs::remove_file(rt, path)?;
    print(
        rt,
        frames,
        mounting.taken / 1000,
        cutting.taken / 1000,
        seeing.taken / 1000,
    )
}

fn print<R: Print>(rt: &R, frames: u64, mounted: u64, cut: u64, seen: u64) -> Result<(), Fault> {
    let ratio = hundredths(mounted, cut);
    let to_seen = hundredths(mounted, seen);
    println!(rt;
        "{frames} frames: mounted in {mounted} microseconds, read and cut without a check in {cut}, ratio in hundredths {ratio}"
    )?;
    println!(rt; "without copies of the bodies in {seen}, ratio in hundredths {to_seen}")?;
    Ok(())
}

pub fn report<R: Files + Clock + Print + AllocGlobal>(
    rt: &R,
    folder: &str,
    frames: u64,
) -> Result<(), Fault>
where
    R::File: DiskFile,
{
    let path = format!(in rt.alloc(); "{folder}/mounted")?;
    measure(rt, path.as_str(), frames)
}
