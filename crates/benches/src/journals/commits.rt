// A commit of many changes is encoded and decoded.
use super::ROUNDS;
use crate::fault::{Fault, right};
use crate::timing::{Least, since};
use queue_rows::Commit;
use redo_records::{decode, encode};
use std::alloc::Global;
use std::time::{Clock, Instant};

/// A message with a payload, a slot and two properties.
const MESSAGE: &[u8] =
    b"\x09\x01\x01q\x03\0\x14\x02\x02\0\0\x01\x01\x02\x0a\x01\0\x01\0\0\0\0\x0a\0\x02\x03lvl\x01\x04\x04zone\x02\x01n";

/// A slot that was taken.
const DONE: &[u8] = b"\x0c\xac\x02\x01\x05";

fn spell(bytes: &mut Vec<u8>, change: &[u8], changes: u64) -> Result<(), Fault> {
    bytes.push(10)?;
    for _ in 0..changes {
        bytes.extend_from_slice(change)?;
    }
    Ok(())
}

fn encoded<R: Clock>(rt: &R, commit: &Commit, bytes: &[u8]) -> Result<u64, Fault> {
    let begun = Instant::now(rt)?;
    let again = encode(commit)?;
    let cost = since(rt, begun);
    right(again.as_slice() == bytes)?;
    cost
}

/// Nanoseconds to decode these bytes, and to encode what they spell.
fn times<R: Clock>(rt: &R, alloc: Global, bytes: &[u8]) -> Result<(u64, u64), Fault> {
    let begun = Instant::now(rt)?;
    let commit = decode(alloc, 2, bytes)?;
    let decoded = since(rt, begun);
    let encoded = encoded(rt, &commit, bytes);
    drop(commit);
    Ok((decoded?, encoded?))
}

fn measure<R: Clock + Print>(
    rt: &R,
    alloc: Global,
    what: &str,
    bytes: &[u8],
    changes: u64,
) -> Result<(), Fault> {
    let mut decoding = Least::NONE;
    let mut encoding = Least::NONE;
    for _ in 0..ROUNDS {
        let (decoded, encoded) = times(rt, alloc, bytes)?;
        decoding.note(decoded);
        encoding.note(encoded);
    }
    let encoded = encoding.taken / changes.max(1);
    let decoded = decoding.taken / changes.max(1);
    println!(rt; "a change that is {what}, in nanoseconds: encoded {encoded}, decoded {decoded}")?;
    Ok(())
}

/// A commit of so many times this change is measured.
fn report_of<R: Clock + Print>(
    rt: &R,
    alloc: Global,
    what: &str,
    change: &[u8],
    changes: u64,
) -> Result<(), Fault> {
    let mut bytes = Vec::new(alloc);
    spell(&mut bytes, change, changes)?;
    measure(rt, alloc, what, &bytes, changes)
}

pub fn report<R: Clock + Print>(rt: &R, alloc: Global, changes: u64) -> Result<(), Fault> {
    report_of(rt, alloc, "a message", MESSAGE, changes)?;
    report_of(rt, alloc, "of a slot", DONE, changes)
}
