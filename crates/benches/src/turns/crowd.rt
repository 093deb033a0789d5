// The same threads and the same list as those that gather through a turnstile, under a mutex of std.
use std::alloc::{AllocError, Global};
use std::sync::{Mutex, Wait};
use std::thread;
use std::thread::Threads;
use turnstile::number_log::NumberLog;

fn add<R: Wait>(rt: &R, lock: &Mutex<NumberLog>, actor: u32, number: u32) -> bool {
    lock.lock(rt).add(actor, number).is_ok()
}

fn work<R: Wait>(rt: &R, lock: &Mutex<NumberLog>, worker: &mut Worker) {
    for number in 0..worker.turns {
        if !add(rt, lock, worker.actor, number) {
            worker.done = false;
        }
    }
}

#[derive(Drop)]
struct Worker {
    actor: u32,
    turns: u32,
    done: bool,
}

/// Each of so many threads, numbered from 0, adds the numbers below `turns` in order, each with this effort. The error is want of memory alone.
pub fn crowded<R: Threads + Wait + Sync>(
    rt: &R,
    alloc: Global,
    actors: u32,
    turns: u32,
    effort: u32,
) -> Result<NumberLog, AllocError> {
    let mut workers = Vec::new(alloc);
    for actor in 0..actors {
        workers.push(Worker {
            actor,
            turns,
            done: true,
        })?;
    }
    let lock = Mutex::new(NumberLog::new(alloc, effort));
    let threads = workers.len();
    if threads > 0 {
        thread::for_each_mut(
            rt,
            workers.as_mut_slice(),
            threads,
            &|_, worker| { work(rt, &lock, worker) },
        );
    }
    let all = workers.iter().all(|worker| worker.done);
    let log = lock.into_inner();
    if all { Ok(log) } else { Err(AllocError) }
}
