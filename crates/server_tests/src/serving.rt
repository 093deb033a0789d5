// The server over sources and sinks in memory: that it does not want memory where there is enough, and what failing devices are told.
use crate::fixtures::{DUMP, SERIAL, status_by};
use aq_base::{MemorySink, MemorySource};
use std::process::Abort;
use std::test::Fail;

const USAGE: &str = "usage: aqd run | run --serial | dump | compact | gen N S K | audit\n";

const ONE_TABLE: &str = "{\"session\":\"s1\",\"at\":\"home\"}
{\"s\":\"s1\",\"do\":\"create-table\",\"table\":\"t\",\"fields\":{\"qty\":\"num\"}}
";

const NO_TABLES: &str = "database home next 1 transaction 1 latest 0
database away next 1 transaction 1 latest 0
";

const ONE_TABLE_TEXT: &str = "s1.1 create-table ok\ns1 end\n";

/// Which reads and writes fail, counted from 1, and for how many bytes the sink has room.
#[derive(Clone, Copy)]
struct Devices {
    reads: &'static [u64],
    writes: &'static [u64],
    room: Option<u64>,
}

const WORKING: Devices = Devices {
    reads: &[],
    writes: &[],
    room: None,
};

const NARROW: Devices = Devices {
    reads: &[],
    writes: &[],
    room: Some(10),
};

const CLOSED: Devices = Devices {
    reads: &[],
    writes: &[1],
    room: None,
};

const UNREADABLE: Devices = Devices {
    reads: &[1],
    writes: &[],
    room: None,
};

const CUT_OFF: Devices = Devices {
    reads: &[2],
    writes: &[],
    room: None,
};

fn check(
    rt: &(impl Abort + AllocGlobal),
    devices: Devices,
    words: &[&str],
    input: &str,
    status: u8,
    text: &str,
) -> Result<(), Fail> {
    let alloc = rt.alloc();
    let bytes = input.as_bytes().to_vec(alloc)?;
    let mut source = MemorySource::of(bytes, devices.reads.to_vec(alloc)?);
    let mut sink = MemorySink::of(alloc, devices.writes.to_vec(alloc)?, devices.room);
    let answer = status_by(alloc, words, &mut source, &mut sink)?;
    assert_eq!(rt; answer, status, "{input}");
    assert_eq!(rt; sink.taken(), text.as_bytes(), "{input}");
    Ok(())
}

// A body that always answers want of memory meets every clause.
#[test]
fn memory_is_not_wanting_where_there_is_enough(rt: HostRuntime) -> Result<(), Fail> {
    check(&rt, WORKING, SERIAL, ONE_TABLE, 0, ONE_TABLE_TEXT)?;
    check(&rt, WORKING, SERIAL, "{}", 2, "bad line 1\n")?;
    check(&rt, WORKING, DUMP, "", 0, NO_TABLES)
}

#[test]
fn words_that_are_no_command_are_told_the_usage(rt: HostRuntime) -> Result<(), Fail> {
    check(&rt, WORKING, &["run", "fast"], ONE_TABLE, 1, USAGE)?;
    check(&rt, NARROW, &[], "", 1, "usage: aqd")?;
    check(&rt, CLOSED, &[], "", 1, "")
}

#[test]
fn failing_sources_are_told(rt: HostRuntime) -> Result<(), Fail> {
    check(&rt, UNREADABLE, SERIAL, ONE_TABLE, 3, "")?;
    check(&rt, CUT_OFF, SERIAL, ONE_TABLE, 3, "")
}

#[test]
fn failing_sinks_are_told(rt: HostRuntime) -> Result<(), Fail> {
    check(&rt, NARROW, SERIAL, ONE_TABLE, 7, "s1.1 creat")?;
    check(&rt, CLOSED, SERIAL, ONE_TABLE, 7, "")?;
    check(&rt, CLOSED, SERIAL, "", 0, "")?;
    check(&rt, NARROW, SERIAL, "{}", 2, "bad line 1")?;
    check(&rt, NARROW, DUMP, "", 7, "database h")
}
