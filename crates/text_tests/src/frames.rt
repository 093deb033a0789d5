// Frames with their bodies, and the tables that they lead to, as these are printed.
use aq_base::DbId;
use database_recovery::{damaged_at, recover};
use payload_records::List;
use queue_rows::Tables;
use redo_journal::{Damage, FrameAt};
use std::alloc::{AllocError, Global};
use std::process::Abort;
use transcript::print_tables;

// A queue of a multi-consumer table; a message of which one slot was taken and one expired, so that it was moved; and one with
// properties, of which one slot waits and one was dropped, and which is the copy of one that has arrived.
const MESSAGES: [&[u8]; 10] = [
    b"\x01\x01\x01m\x01\x03qty\0\x01\x01\x01\0\x03\x03m_e\x01m\x01\0\0\0\0\0\0",
    b"\x04\x03\x02mq\x01m\0\0\0\x05\0\0\0",
    b"\x07\x03\x02mq\x01m\0\x01\x01\x05\0\0\0",
    b"\x0a\x05\x02mq\x01a\0\0",
    b"\x0d\x05\x02mq\x01b\0\0",
    b"\x10\x09\x01\x02mq\x03\0 \x02\x02\0\0\x01\x01\x02\x10\x01\0\x02\x01\x01a\0\0\0\x10\x01\x14\x01\x01b\0\0\0\x10\x01\x14\0",
    b"\x13\x0c\x01\x01\x13",
    b"\x14\x0d\x01\x02\x14\x0f\x01\x03m_e\x14",
    b"\x15\x09\x02\x02mq\x03\0*\x04\x01\x01\x07VIP \"7\"\x01\x03m_e\x01\x01\x09\x15\x02\0\x02\x01\x01a\0\x01\x01\x1e\0\x01\x01b\x01\x05bills\0\0\x15\x01(\x01\x04rank\x01\x0a",
    b"\x16\x0e\x02\x02\x16\x11\x02\x02\x02",
];

const MESSAGES_PRINTED: &str = "database home next 3 transaction 3 latest 22\n\
table m fields {\"qty\":\"num\"} sort enq_time multi none\n\
queue m_e table m exception enqueue off dequeue off max_retries 0 retry_delay 0 retention 0 lowest 0\n\
queue mq table m normal enqueue on dequeue on max_retries 5 retry_delay 0 retention 0 lowest 0\n\
subscriber mq a address null rule null\n\
subscriber mq b address null rule null\n\
message h1 queue m_e place [0,16,1] priority 1 corr null exception null enq 16 group 1 moved true {\"qty\":1}\n\
slot h1.1 name a address null processed retries 0 at 19 expires 20\n\
slot h1.2 name b address null expired retries 0 at 20 expires 20\n\
slot h1.0 name null address null ready retries 0 at 20 expires null\n\
message h2 queue mq place [0,21,2] priority -1 corr \"VIP \\\"7\\\"\" exception m_e enq 21 group 2 moved false {\"qty\":-5} props {\"rank\":5}\n\
slot h2.1 name a address null waiting retries 1 at 30 expires null\n\
slot h2.2 name b address bills dropped retries 0 at 22 expires 40\n\
seen a2.2 as h2\n";

// A queue with subscribers and a schedule.
const CATALOG: [&[u8]; 7] = [
    b"\x01\x01\x06orders\x03\x05price\0\x03qty\0\x06region\x01\x02\0\x01\x01\0\x03\x08orders_e\x06orders\x01\0\0\0\0\0\0",
    b"\x05\x03\x08orders_q\x06orders\0\0\0\x02\0\0\0",
    b"\x09\x03\x08orders_q\x06orders\0\x01\x01\x02\0\0\0",
    b"\x0d\x05\x08orders_q\x04east\0\x01\x1dtab.user_data.region = 'east'",
    b"\x11\x05\x08orders_q\x04rush\0\x01*tab.priority < 0 OR tab.corrid LIKE 'VIP%'",
    b"\x14\x05\x08orders_q\x04acct\x01\x05bills\x01/tab.user_data.qty * tab.user_data.price >= 1000",
    b"\x17\x07\x08orders_q\x05bills\x01\x17\0\0\0\0\0",
];

const CATALOG_PRINTED: &str = "database away next 1 transaction 1 latest 23\n\
table orders fields {\"price\":\"num\",\"qty\":\"num\",\"region\":\"text\"} sort priority,enq_time multi none\n\
queue orders_e table orders exception enqueue off dequeue off max_retries 0 retry_delay 0 retention 0 lowest 0\n\
queue orders_q table orders normal enqueue on dequeue on max_retries 2 retry_delay 0 retention 0 lowest 0\n\
subscriber orders_q east address null rule \"tab.user_data.region = 'east'\"\n\
subscriber orders_q rush address null rule \"tab.priority < 0 OR tab.corrid LIKE 'VIP%'\"\n\
subscriber orders_q acct address bills rule \"tab.user_data.qty * tab.user_data.price >= 1000\"\n\
schedule orders_q to bills enabled start 23 duration null period null latency 0 failures 0 next 0\n";

// ---- frames

fn add_body(bodies: &mut List<List<u8>>, alloc: Global, bytes: &[u8]) -> Result<(), AllocError> {
    bodies.push(List::from_vec(bytes.to_vec(alloc)?))
}

fn add_bodies(bodies: &mut List<List<u8>>, alloc: Global, all: &[&[u8]]) -> Result<(), AllocError> {
    for bytes in all {
        add_body(bodies, alloc, bytes)?;
    }
    Ok(())
}

fn add_frame(
    frames: &mut List<FrameAt>,
    alloc: Global,
    offset: u64,
    all: &[&[u8]],
) -> Result<(), AllocError> {
    let mut bodies = List::new(alloc);
    add_bodies(&mut bodies, alloc, all)?;
    frames.push(FrameAt { offset, bodies })
}

fn add_frames(
    frames: &mut List<FrameAt>,
    alloc: Global,
    first: &[&[u8]],
    second: &[&[u8]],
) -> Result<(), AllocError> {
    add_frame(frames, alloc, 28, first)?;
    add_frame(frames, alloc, 500, second)
}

/// A frame of some bodies at 28, and one of others at 500.
fn frames(alloc: Global, first: &[&[u8]], second: &[&[u8]]) -> Result<List<FrameAt>, AllocError> {
    let mut frames = List::new(alloc);
    add_frames(&mut frames, alloc, first, second)?;
    Ok(frames)
}

// ---- what they lead to

fn has_print(alloc: Global, db: DbId, tables: &Tables, wanted: &str) -> bool {
    match print_tables(alloc, db, tables) {
        Ok(text) => text.as_slice() == wanted.as_bytes(),
        Err(_) => false,
    }
}

fn leads_to(alloc: Global, db: DbId, frames: List<FrameAt>, wanted: &str) -> bool {
    match recover(alloc, 2, frames) {
        Ok(store) => has_print(alloc, db, store.tables(), wanted),
        Err(_) => false,
    }
}

#[test]
fn tables_are_recovered(rt: HostRuntime) -> Result<(), AllocError> {
    let alloc = rt.alloc();
    let messages = frames(alloc, &MESSAGES[..3], &MESSAGES[3..])?;
    assert!(rt; leads_to(alloc, DbId::Home, messages, MESSAGES_PRINTED));
    let catalog = frames(alloc, &CATALOG[..6], &CATALOG[6..])?;
    assert!(rt; leads_to(alloc, DbId::Away, catalog, CATALOG_PRINTED));
    Ok(())
}

// ---- the first damage

// What stands in the second frame, and where a disk is damaged at 900 behind both, in the first of which a queue table is put.
const DAMAGED: [(&[u8], u64); 4] = [
    // a queue of the table fits
    (b"\x04\x03\x02mq\x01m\0\0\0\x05\0\0\0", 900),
    // nothing is spelled by a moment alone, no message has the id 300, and no table has the name x
    (b"\x05", 500),
    (b"\x05\x0b\xac\x02\x01\x05", 500),
    (b"\x04\x03\x02mq\x01x\0\0\0\x05\0\0\0", 500),
];

fn told(alloc: Global, second: &[u8]) -> Result<u64, AllocError> {
    let damage = Damage {
        offset: 900,
        version: Some(2),
        frames: frames(alloc, &MESSAGES[..1], &[second])?,
    };
    damaged_at(alloc, damage)
}

fn check_told(rt: &impl Abort, alloc: Global, rows: &[(&[u8], u64)]) -> Result<(), AllocError> {
    for (second, offset) in rows {
        assert!(rt; told(alloc, second)? == *offset, "{second:?}");
    }
    Ok(())
}

#[test]
fn the_first_damage_is_told(rt: HostRuntime) -> Result<(), AllocError> {
    check_told(&rt, rt.alloc(), &DAMAGED)
}
