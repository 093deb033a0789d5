// Runs of which each call of a disk fails in turn, and what a crash leaves then.
use crate::fixtures::{DUMP, Disks, Files, SERIAL, Served, call_over, disks_of, left, no_files};
use crate::runs::{FIRST_PATH, ORDERS, Run, SECOND_PATH, SHOP, Sure};
use aq_disk::{Disk, Fill};
use std::alloc::{AllocError, Global};
use std::process::Abort;
use std::test::Fail;

// The numbers of calls that fail.
#[derive(Clone, Copy)]
struct Failing<'a> {
    home: &'a [u64],
    away: &'a [u64],
}

const ALL_WORK: Failing<'static> = Failing {
    home: &[],
    away: &[],
};

// A call over these files.
fn over(
    alloc: Global,
    words: &[&str],
    input: &str,
    files: &Files,
    failing: Failing<'_>,
) -> Result<Served, AllocError> {
    let home = (files.home.as_slice(), failing.home);
    let away = (files.away.as_slice(), failing.away);
    let disks = disks_of(alloc, home, away)?;
    call_over(alloc, words, input, disks)
}

// ---- what was told is kept

fn are_sure(all: &[Sure], told: &str, dump: &str) -> bool {
    for (line, is_there, text) in all {
        if told.contains(*line) && dump.contains(*text) != *is_there {
            return false;
        }
    }
    true
}

// The dump of what a crash leaves now.
fn dump_of(alloc: Global, disks: &Disks, fill: Fill) -> Result<Served, AllocError> {
    let files = left(alloc, disks, fill)?;
    over(alloc, DUMP, "", &files, ALL_WORK)
}

fn keeps(alloc: Global, run: &Served, sure: &[Sure], fill: Fill) -> Result<bool, AllocError> {
    let dump = dump_of(alloc, &run.disks, fill)?;
    Ok(dump.status == 0 && are_sure(sure, run.text(), dump.text()))
}

fn keeps_all(alloc: Global, run: &Served, sure: &[Sure]) -> Result<bool, AllocError> {
    Ok(
        keeps(alloc, run, sure, Fill::Old)?
            && keeps(alloc, run, sure, Fill::New)?
            && keeps(alloc, run, sure, Fill::Byte(255))?,
    )
}

// ---- runs

// Whether a run in which no call fails prints what it should, and a crash leaves all that it told.
fn is_whole(alloc: Global, files: &Files, run: Run) -> Result<bool, AllocError> {
    let served = over(alloc, SERIAL, run.script, files, ALL_WORK)?;
    Ok(served.is(0, run.printed) && keeps_all(alloc, &served, run.sure)?)
}

// Whether a run in which these calls fail is told so, and a crash leaves all that it told.
fn survives(
    alloc: Global,
    files: &Files,
    run: Run,
    failing: Failing<'_>,
) -> Result<bool, AllocError> {
    let served = over(alloc, SERIAL, run.script, files, failing)?;
    Ok(served.status == 5 && keeps_all(alloc, &served, run.sure)?)
}

// How many calls of home's disk a run makes, and how many of away's.
fn calls_of(alloc: Global, files: &Files, run: Run) -> Result<(u64, u64), AllocError> {
    let served = over(alloc, SERIAL, run.script, files, ALL_WORK)?;
    Ok((served.disks.home.calls(), served.disks.away.calls()))
}

fn check_home(
    rt: &impl Abort,
    alloc: Global,
    files: &Files,
    run: Run,
    calls: u64,
) -> Result<(), Fail> {
    for call in 1..=calls {
        let numbers = [call];
        let failing = Failing {
            home: &numbers,
            away: &[],
        };
        assert!(rt; survives(alloc, files, run, failing)?, "home {call}");
    }
    Ok(())
}

fn check_away(
    rt: &impl Abort,
    alloc: Global,
    files: &Files,
    run: Run,
    calls: u64,
) -> Result<(), Fail> {
    for call in 1..=calls {
        let numbers = [call];
        let failing = Failing {
            home: &[],
            away: &numbers,
        };
        assert!(rt; survives(alloc, files, run, failing)?, "away {call}");
    }
    Ok(())
}

fn check(rt: &impl Abort, alloc: Global, files: &Files, run: Run) -> Result<(), Fail> {
    let (home, away) = calls_of(alloc, files, run)?;
    assert!(rt; home > 10 && away > 1 && is_whole(alloc, files, run)?);
    check_home(rt, alloc, files, run, home)?;
    check_away(rt, alloc, files, run, away)
}

// ---- a run behind another

// What a run of the script leaves of files that were not begun.
fn first_run(alloc: Global, script: &str) -> Result<Served, AllocError> {
    let files = no_files(alloc);
    over(alloc, SERIAL, script, &files, ALL_WORK)
}

fn left_by(alloc: Global, script: &str) -> Result<Files, AllocError> {
    let served = first_run(alloc, script)?;
    left(alloc, &served.disks, Fill::New)
}

#[test]
fn a_run_goes_on_from_what_an_earlier_one_left(rt: HostRuntime) -> Result<(), Fail> {
    let files = left_by(rt.alloc(), FIRST_PATH.script)?;
    assert!(rt; is_whole(rt.alloc(), &files, SECOND_PATH)?);
    Ok(())
}

#[test]
fn the_first_path_survives_each_failure(rt: HostRuntime) -> Result<(), Fail> {
    let files = no_files(rt.alloc());
    check(&rt, rt.alloc(), &files, FIRST_PATH)
}

#[test]
fn orders_survive_each_failure(rt: HostRuntime) -> Result<(), Fail> {
    let files = left_by(rt.alloc(), SHOP)?;
    check(&rt, rt.alloc(), &files, ORDERS)
}
