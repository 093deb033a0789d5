// What turns cost.
use super::crowd::crowded;
use crate::fault::Fault;
use crate::timing::{hundredths, nanoseconds, since};
use std::sync::Wait;
use std::thread::Threads;
use std::time::{Clock, CpuClock, Duration, Instant};
use turnstile::number_log::gathered;

/// Nanoseconds of time, and of all processors' time, for so many turns.
#[derive(Clone, Copy)]
struct Cost {
    time: u64,
    processor: u64,
    turns: u64,
}

impl Cost {
    const NONE: Cost = Cost {
        time: 0,
        processor: 0,
        turns: 0,
    };

    fn and(self, other: Cost) -> Cost {
        Cost {
            time: self.time.saturating_add(other.time),
            processor: self.processor.saturating_add(other.processor),
            turns: self.turns.saturating_add(other.turns),
        }
    }

    fn turns_in_a_second(self) -> u64 {
        self.turns
            .saturating_mul(1_000_000_000)
            .checked_div(self.time)
            .unwrap_or(0)
    }

    fn processor_in_a_turn(self) -> u64 {
        self.processor.checked_div(self.turns).unwrap_or(0)
    }
}

/// When a measurement began.
#[derive(Clone, Copy)]
struct Begun {
    at: Instant,
    processor: Duration,
}

impl Begun {
    fn now<R: Clock + CpuClock>(rt: &R) -> Result<Begun, Fault> {
        Ok(Begun {
            at: Instant::now(rt)?,
            processor: rt.process_cpu_time()?,
        })
    }

    fn cost<R: Clock + CpuClock>(self, rt: &R, turns: usize) -> Result<Cost, Fault> {
        let processor = rt.process_cpu_time()?;
        Ok(Cost {
            time: since(rt, self.at)?,
            processor: nanoseconds(processor.saturating_sub(self.processor)),
            turns: turns as u64,
        })
    }
}

fn of_turnstile<R: Threads + Wait + Sync + Clock + CpuClock + AllocGlobal>(
    rt: &R,
    threads: u32,
    turns: u32,
    effort: u32,
) -> Result<Cost, Fault> {
    let begun = Begun::now(rt)?;
    let log = gathered(rt, rt.alloc(), threads, turns, effort)?;
    begun.cost(rt, log.pairs.len())
}

fn of_mutex<R: Threads + Wait + Sync + Clock + CpuClock + AllocGlobal>(
    rt: &R,
    threads: u32,
    turns: u32,
    effort: u32,
) -> Result<Cost, Fault> {
    let begun = Begun::now(rt)?;
    let log = crowded(rt, rt.alloc(), threads, turns, effort)?;
    begun.cost(rt, log.pairs.len())
}

/// Prints both locks' turns a second and processor time a turn, and the turnstile's costs as ratios to the mutex's.
pub fn compare<R: Threads + Wait + Sync + Clock + CpuClock + AllocGlobal + Print>(
    rt: &R,
    threads: u32,
    turns: u32,
    effort: u32,
    rounds: u32,
) -> Result<(), Fault> {
    let mut ours = Cost::NONE;
    let mut theirs = Cost::NONE;
    for _ in 0..rounds {
        ours = ours.and(of_turnstile(rt, threads, turns, effort)?);
        theirs = theirs.and(of_mutex(rt, threads, turns, effort)?);
    }
    println!(rt; "{threads} threads, {turns} turns of effort {effort} each, {rounds} rounds")?;
    print(rt, "turnstile", ours)?;
    print(rt, "mutex", theirs)?;
    let time = hundredths(theirs.turns_in_a_second(), ours.turns_in_a_second());
    let processor = hundredths(ours.processor_in_a_turn(), theirs.processor_in_a_turn());
    println!(rt;
        "  ratio: time {}.{:02}, processor time {}.{:02}",
        time / 100,
        time % 100,
        processor / 100,
        processor % 100
    )?;
    Ok(())
}

fn print<R: Print>(rt: &R, name: &str, cost: Cost) -> Result<(), Fault> {
    let turns = cost.turns_in_a_second();
    let processor = cost.processor_in_a_turn();
    println!(rt; "  {name}: {turns} turns a second, {processor} ns of processor time a turn")?;
    Ok(())
}
