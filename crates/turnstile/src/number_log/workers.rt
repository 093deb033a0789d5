//! Workers that add to one list in threads of their own.
ghost use Rattle.std.specs.Prelude.{◌≡◌, ℕ, ◌≤◌, [], true, vec_len, vec_capacity, IfOk};
ghost use Rattle.turnstile.specs.Passes.{known, IsPassOf, first_known, AllJoined};
ghost use Rattle.turnstile.specs.Counting.{IsGathered};
ghost use Rattle.turnstile.specs.Workers.{IsFresh, IsBack, AreFresh, AreBack, Leads, IsManned, AreCounted};

use crate::lock::Turnstile;
use crate::number_log::{NumberLog, count};
use crate::pass::Pass;
use std::alloc::{AllocError, Global};
use std::sync::Wait;
use std::thread;
use std::thread::Threads;

/// One thread's pass and number, and whether it has added all that it was to add.
pub struct Worker {
    /// It is of the turnstile that the workers share.
    pub pass: Pass<NumberLog>,
    /// The number of the pass, which is the worker's place.
    pub actor: u32,
    /// All numbers were added.
    pub done: bool,
}

fn work<R: Wait>(rt: &R, turnstile: &Turnstile<NumberLog>, worker: &mut Worker, turns: u32)
    requires { IsFresh turnstile.now worker.old }
    ensures { IsBack turnstile.now turns worker.new × (worker.new.actor ≡ worker.old.actor) }
{
    let actor = worker.actor;
    let counted = count(rt, turnstile, &mut worker.pass, actor, turns);
    worker.done = counted.is_ok();
}

fn run<R: Threads + Wait + Sync>(
    rt: &R,
    turnstile: &Turnstile<NumberLog>,
    workers: &mut [Worker],
    turns: u32,
)
    requires { AreFresh turnstile.now workers.old }
    ensures { AreBack turnstile.now turns workers.new }
{
    let threads = workers.len();
    if threads == 0 {
        return;
    }
    thread::for_each_mut(
        rt,
        workers,
        threads,
        &|_, worker| { work(rt, turnstile, worker, turns) },
    );
}

fn split_all(
    turnstile: &Turnstile<NumberLog>,
    first: &mut Pass<NumberLog>,
    workers: &mut Vec<Worker>,
    actors: u32,
)
    requires pass { IsPassOf turnstile.now first.old }
    requires new { (o : ℕ) × (known first.old ≡ first_known actors o) }
    requires room { (workers.old.items ≡ []) × (actors ≤ vec_capacity workers.old) }
    ensures pass { IsPassOf turnstile.now first.new × Leads actors (known first.new)
        × ((known first.new).joined ≡ []) }
    ensures opening { (known first.new).opening ≡ (known first.old).opening }
    ensures workers { (vec_len workers.new ≡ actors) × AreFresh turnstile.now workers.new.items
        × IsManned (known first.new) actors }
{
    for actor in 0..actors {
        let pass = turnstile.split(first, actor);
        workers.push_reserved(Worker {
            pass,
            actor,
            done: false,
        });
    }
}

/// Says whether all were done.
fn join_all(
    turnstile: &Turnstile<NumberLog>,
    first: &mut Pass<NumberLog>,
    mut workers: Vec<Worker>,
    _turns: u32,
) -> bool
    requires pass { IsPassOf turnstile.now first.old × Leads (vec_len workers) (known first.old)
        × ((known first.old).joined ≡ []) }
    requires workers { AreBack turnstile.now _turns workers.items
        × IsManned (known first.old) (vec_len workers) }
    ensures pass { IsPassOf turnstile.now first.new × Leads (vec_len workers) (known first.new) }
    ensures opening { (known first.new).opening ≡ (known first.old).opening }
    ensures all { AllJoined (known first.new) }
    ensures counted { AreCounted (vec_len workers) _turns result (known first.new) }
{
    let mut all = true;
    while let Some(worker) = workers.pop() {
        let Worker {
            pass,
            actor: _,
            done,
        } = worker;
        turnstile.join(first, pass);
        all &= done;
    }
    workers.destroy_empty();
    all
}

/// Each of so many threads, numbered from 0, adds the numbers below `turns` in order, each with this effort. The error is want of memory alone.
pub fn gathered<R: Threads + Wait + Sync>(
    rt: &R,
    alloc: Global,
    actors: u32,
    turns: u32,
    effort: u32,
) -> Result<NumberLog, AllocError>
    ensures { IfOk result (λ log. (log.effort ≡ effort) × IsGathered actors turns log.pairs.items) }
{
    let mut workers: Vec<Worker> = Vec::new(alloc);
    if workers.reserve(actors as usize).is_err() {
        workers.destroy_empty();
        return Err(AllocError);
    }
    let (turnstile, mut first) = match Turnstile::new(
        alloc,
        NumberLog::new(alloc, effort),
        actors,
    ) {
        Ok(pair) => pair,
        Err(_) => {
            workers.destroy_empty();
            return Err(AllocError);
        }
    };
    split_all(&turnstile, &mut first, &mut workers, actors);
    run(rt, &turnstile, workers.as_mut_slice(), turns);
    let all = join_all(&turnstile, &mut first, workers, turns);
    let log = turnstile.close(first);
    if all { Ok(log) } else { Err(AllocError) }
}
