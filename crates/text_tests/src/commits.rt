// Commits as bytes, worked by hand, and bytes that spell none.
use queue_rows::{Change, Commit};
use redo_records::{DecodeFault, decode, encode};
use std::alloc::Global;
use std::process::Abort;

// A message with two properties, in version 2.
const MESSAGE: &[u8] =
    b"\x0a\x09\x01\x01q\x03\0\x14\x02\x02\0\0\x01\x01\x02\x0a\x01\0\x01\0\0\0\0\x0a\0\x02\x03lvl\x01\x04\x04zone\x02\x01n";

/// A message in version 1, which has no properties.
pub const OLD_MESSAGE: &[u8] =
    b"\x15\x09\x03\x02mq\x03\0\x2a\x02\x02\0\0\x01\x01\x02\x15\x01\0\x01\x01\x01r\x01\x03inq\0\0\x15\0";

const SPELLED: [&[u8]; 9] = [
    b"\x05\x0b\xac\x02\x01\x05",
    // a table and its exception queue
    b"\x01\x01\x01t\x01\x03qty\0\x01\x01\0\0\x03\x03t_e\x01t\x01\0\0\0\0\0\0",
    MESSAGE,
    // a message with a datum that is a text
    b"\x01\x09\x01\x01q\0\0\0\0\x01\x02\x01n\0\0\0\0\0",
    // a subscriber with an address, and one with a rule
    b"\x0d\x05\x02mq\x01r\x01\x03inq\0\x05\x01q\x01r\0\x01\x051 = 1",
    // a schedule
    b"\x11\x07\x02mq\x03inq\x01\x11\x01\xac\x02\x01\x05\0\0\0",
    // what drops
    b"\x01\x02\x01t\x04\x01q\x06\x01q\x01r\x08\x01q\x01r",
    // what comes of slots, a purge, an arrival, and the counters
    b"\x01\x0a\x05\x01\x02\x01\x09\x03\x0c\x01\x01\x01\x0d\x01\x01\x01\x0e\x01\x01\x01\x0f\x01\x01q\x09\x10\x01\x11\x01\x02\x03\x12\x01\x02\x03",
    // the greatest moment
    b"\xff\xff\xff\xff\xff\xff\xff\xff\xff\x01\x10\x01",
];

fn is_written(commit: &Commit, bytes: &[u8]) -> bool {
    match encode(commit) {
        Ok(written) => written.as_slice() == bytes,
        Err(_) => false,
    }
}

fn is_written_again(alloc: Global, bytes: &[u8]) -> bool {
    match decode(alloc, 2, bytes) {
        Ok(commit) => is_written(&commit, bytes),
        Err(_) => false,
    }
}

fn check_spelled(rt: &impl Abort, alloc: Global, rows: &[&[u8]]) {
    for bytes in rows {
        assert!(rt; is_written_again(alloc, bytes), "{bytes:?}");
    }
}

#[test]
fn read_and_written_again(rt: HostRuntime) {
    check_spelled(&rt, rt.alloc(), &SPELLED);
}

// Whether it is the commit at 5 of the message 300, of which slot 1 is ready at 5.
fn is_ready(commit: &Commit) -> bool {
    let is_slot = match commit.changes.get(0) {
        Some(Change::Ready { id, slot, at }) => *id == 300 && *slot == 1 && *at == 5,
        _ => false,
    };
    is_slot && commit.moment == 5 && commit.changes.len() == 1
}

fn is_told(alloc: Global, version: u32) -> bool {
    let version = if version == 1 { 1 } else { 2 };
    match decode(alloc, version, b"\x05\x0b\xac\x02\x01\x05") {
        Ok(commit) => is_ready(&commit),
        Err(_) => false,
    }
}

// What is written in version 2 is what was read in version 1, with its properties, of which it has none.
fn is_longer(commit: &Commit, bytes: &[u8]) -> bool {
    match encode(commit) {
        Ok(written) => written.as_slice().strip_suffix(&[0]) == Some(bytes),
        Err(_) => false,
    }
}

fn is_written_anew(alloc: Global, bytes: &[u8]) -> bool {
    match decode(alloc, 1, bytes) {
        Ok(commit) => is_longer(&commit, bytes),
        Err(_) => false,
    }
}

#[test]
fn both_versions_are_read(rt: HostRuntime) {
    assert!(rt; is_told(rt.alloc(), 1) && is_told(rt.alloc(), 2));
    assert!(rt; is_written_anew(rt.alloc(), OLD_MESSAGE));
}

const UNSPELLED: [&[u8]; 19] = [
    b"",
    // no change, an end too early, and no such change
    b"\x05",
    b"\x05\x0b\xac\x02\x01",
    b"\x05\0",
    b"\x05\x13",
    // a longer spelling of 300, and a number past 64 bits
    b"\x05\x0b\xac\x82\0\x01\x05",
    b"\xff\xff\xff\xff\xff\xff\xff\xff\xff\x02\x10\x01",
    // no name
    b"\x01\x02\x01T",
    b"\x01\x02\0",
    // fields out of order, one field twice; no column, and one column twice
    b"\x01\x01\x01t\x02\x01b\0\x01a\0\x01\x01\0\0",
    b"\x01\x01\x01t\x02\x01a\0\x01a\0\x01\x01\0\0",
    b"\x01\x01\x01t\0\0\0\0",
    b"\x01\x01\x01t\0\x02\x01\x01\0\0",
    // a datum that is an empty text; a flag of 2
    b"\x01\x09\x01\x01q\0\0\0\0\x01\x02\0\0\0\0\0\0",
    b"\x01\x05\x01q\x01r\0\x02",
    // a rule that is not its print, no rule, and no text
    b"\x01\x05\x01q\x01r\0\x01\x031=1",
    b"\x01\x05\x01q\x01r\0\x01\x011",
    b"\x01\x05\x01q\x01r\0\x01\x01\xff",
    OLD_MESSAGE,
];

fn spells_none(alloc: Global, version: u32, bytes: &[u8]) -> bool {
    let version = if version == 1 { 1 } else { 2 };
    match decode(alloc, version, bytes) {
        Ok(_) => false,
        Err(fault) => matches!(fault, DecodeFault::NoSpelling),
    }
}

fn check_unspelled(rt: &impl Abort, alloc: Global, rows: &[&[u8]]) {
    for bytes in rows {
        assert!(rt; spells_none(alloc, 2, bytes), "{bytes:?}");
    }
}

#[test]
fn what_spells_none(rt: HostRuntime) {
    check_unspelled(&rt, rt.alloc(), &UNSPELLED);
    assert!(rt; spells_none(rt.alloc(), 1, MESSAGE));
}
