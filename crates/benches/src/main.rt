//! Measures what calls of the crates below take. The first word says of which, and with no words it only shows that both locks of
//! `turns` keep every entry, and how to be called.
#![tactic(auto)]

mod fault;
mod indexes;
mod journals;
mod locks;
mod patterns;
mod timing;
mod turns;
mod words;

use aq_disk::DiskFile;
use fault::Fault;
use std::alloc::Global;
use std::env::Args;
use std::rt::Files;
use std::sync::Wait;
use std::thread::Threads;
use std::time::{Clock, CpuClock};
use std::{env, io};

fn report<R: Files + Clock + CpuClock + Print + AllocGlobal + Threads + Wait + Sync>(
    rt: &R,
    what: &str,
    words: &mut Args<Global>,
) -> Result<(), Fault>
where
    R::File: DiskFile,
{
    match what {
        "index" => indexes::report(rt, words),
        "journal" => journals::report(rt, words),
        "like" => patterns::report(rt, rt.alloc()),
        "locks" => locks::report(rt, rt.alloc()),
        "turnstile" => turns::report(rt),
        _ => Err(Fault::Usage),
    }
}

fn usage<R: Print>(rt: &R) -> io::Result<()> {
    println!(rt; "usage: benches index due|tree ROWS ROUNDS")?;
    println!(rt; "       benches index due NOT-DUE DUE ROUNDS")?;
    println!(rt; "       benches index pick|walk MESSAGES SCHEDULES ROUNDS")?;
    println!(rt; "       benches journal FOLDER APPENDS FRAMES CHANGES")?;
    println!(rt; "       benches like|locks|turnstile")
}

fn print<R: Print>(rt: &R, outcome: Result<(), Fault>) -> io::Result<()> {
    match outcome {
        Ok(()) => Ok(()),
        Err(Fault::Usage) => usage(rt),
        Err(fault) => println!(rt; "nothing measured: {fault:?}"),
    }
}

fn main(rt: HostRuntime) -> io::Result<()> {
    let mut words = env::args(&rt)?;
    words.next();
    let outcome = match words.next() {
        Some(what) => report(&rt, what.as_str(), &mut words),
        None => turns::show(&rt).and(Err(Fault::Usage)),
    };
    print(&rt, outcome)
}
