// In which order threads that enter again at once are let in.
use super::crowd::crowded;
use crate::fault::Fault;
use std::alloc::Global;
use std::sync::Wait;
use std::thread::Threads;
use turnstile::number_log::{NumberLog, gathered};

/// What a list of turns shows, from where each thread has entered to where the first has entered for the last time.
#[derive(Clone, Copy)]
struct Order {
    turns: u64,
    /// Turns behind one of the same thread.
    again: u64,
    /// The greatest number of turns of others between two turns of one thread.
    longest: u64,
}

fn of(alloc: Global, log: &NumberLog, threads: u32, turns: u32) -> Result<Order, Fault> {
    let mut last: Vec<Option<u64>> = Vec::new(alloc);
    for _ in 0..threads {
        last.push(None)?;
    }
    let mut order = Order {
        turns: 0,
        again: 0,
        longest: 0,
    };
    let mut entered = 0u32;
    let mut at = 0u64;
    for (actor, number) in &log.pairs {
        at = at.wrapping_add(1);
        let Some(place) = last.get_mut(*actor as usize) else {
            continue;
        };
        match place.replace(at) {
            None => entered = entered.saturating_add(1),
            Some(before) if entered == threads => order.note(at.wrapping_sub(before)),
            Some(_) => {}
        }
        if number.wrapping_add(1) == turns {
            break;
        }
    }
    Ok(order)
}

impl Order {
    /// One more turn, so many turns behind the thread's last one.
    fn note(&mut self, behind: u64) {
        let others = behind.saturating_sub(1);
        self.turns = self.turns.saturating_add(1);
        if others == 0 {
            self.again = self.again.saturating_add(1);
        }
        self.longest = self.longest.max(others);
    }

    fn print<R: Print>(self, rt: &R, name: &str) -> Result<(), Fault> {
        let (turns, again, longest) = (self.turns, self.again, self.longest);
        let share = again.saturating_mul(10_000).checked_div(turns).unwrap_or(0);
        println!(rt;
            "  {name}: {again} of {turns} turns behind one of the same thread, {}.{:02} %; at most {longest} turns of others between two of one thread",
            share / 100,
            share % 100
        )?;
        Ok(())
    }
}

/// Prints what both locks' lists show.
pub fn report<R: Threads + Wait + Sync + AllocGlobal + Print>(
    rt: &R,
    threads: u32,
    turns: u32,
    effort: u32,
) -> Result<(), Fault> {
    println!(rt; "{threads} threads, {turns} turns of effort {effort} each, order")?;
    let ours = gathered(rt, rt.alloc(), threads, turns, effort)?;
    of(rt.alloc(), &ours, threads, turns)?.print(rt, "turnstile")?;
    let theirs = crowded(rt, rt.alloc(), threads, turns, effort)?;
    of(rt.alloc(), &theirs, threads, turns)?.print(rt, "mutex")
}
