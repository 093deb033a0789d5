//! Who tries first. This is advice alone: no clause rests on it, and a pass whose number was lost tries all the same after a while.
use std::array;
use std::hint::spin_loop;
use std::sync::Wait;
use std::sync::atomic::{AtomicU64, Ordering};
use std::thread::yield_now;
use std::time::Duration;

/// Words to sleep on. Tickets that far apart share one, which costs a needless wake and no more.
const WAIT_WORDS: usize = 128;

/// A thread with fewer turns ahead of its own is woken, and looks for its turn before it sleeps again.
const NEAR: u64 = 2;

/// For how many looks it spins, and for how many it then leaves its processor to whoever has use for it.
const SPINS: u32 = 20;

const YIELDS: u32 = 50;

/// The first sleep in microseconds for each turn ahead. The next ones double up to a millisecond.
const SLEEP: u64 = 64;

const DOUBLINGS: u32 = 4;

/// After so many sleeps, at the front about a second, a thread tries the lock even if its ticket was not served.
const PATIENCE: u32 = 1_000;

const EMPTY: u64 = 0;

const ASLEEP: u64 = 1;

/// A queue of waiting threads. Tickets are served in the order in which they are drawn.
#[derive(Drop)]
pub struct TicketQueue {
    drawn: AtomicU64,
    /// How many turns are over. The ticket with this number is the next.
    served: AtomicU64,
    wait_words: [AtomicU64; WAIT_WORDS],
}

/// A place in the queue, and how often its holder has slept.
#[derive(Drop)]
pub struct Ticket {
    number: u64,
    sleeps: u32,
}

impl TicketQueue {
    /// A queue in which nobody waits.
    pub fn new() -> TicketQueue {
        TicketQueue {
            drawn: AtomicU64::new(0),
            served: AtomicU64::new(0),
            wait_words: array::from_fn(|_| AtomicU64::new(EMPTY)),
        }
    }

    /// Draws the next ticket.
    pub fn draw(&self) -> Ticket {
        Ticket {
            number: self.drawn.fetch_add(1, Ordering::SeqCst),
            sleeps: 0,
        }
    }

    /// Waits until the ticket is served, or patience ends.
    pub fn wait<R: Wait>(&self, rt: &R, ticket: &mut Ticket) {
        for _ in 0..PATIENCE {
            self.look(ticket);
            if self.ahead(ticket) == 0 {
                return;
            }
            self.sleep(rt, ticket);
        }
    }

    /// Sleeps until the ticket is served, for a while that grows with each sleep, and with the turns ahead.
    pub fn sleep<R: Wait>(&self, rt: &R, ticket: &mut Ticket) {
        let ahead = self.ahead(ticket);
        let time = (SLEEP << ticket.sleeps.min(DOUBLINGS)).saturating_mul(ahead.max(1));
        ticket.sleeps = ticket.sleeps.saturating_add(1);
        let word = self.wait_word(ticket.number);
        // Who says first that it sleeps and then looks again misses no call.
        word.store(ASLEEP, Ordering::SeqCst);
        if self.ahead(ticket) == ahead {
            word.park_timeout(rt, ASLEEP as u32, Duration::from_micros(time));
        }
    }

    /// Serves the next ticket, and wakes who sleeps with it. The one behind it is woken too: to wake takes as long as some turns.
    pub fn call_next(&self) {
        let next = self.served.fetch_add(1, Ordering::SeqCst).wrapping_add(1);
        self.wake(next);
        self.wake(next.wrapping_add(NEAR - 1));
    }

    fn wake(&self, number: u64) {
        let word = self.wait_word(number);
        if word.load(Ordering::SeqCst) == ASLEEP {
            word.store(EMPTY, Ordering::SeqCst);
            word.wake_all();
        }
    }

    // Looks for a while, as long as the ticket is near the front.
    fn look(&self, ticket: &Ticket) {
        for look in 0..SPINS + YIELDS {
            let ahead = self.ahead(ticket);
            if ahead == 0 || ahead >= NEAR {
                return;
            }
            if look < SPINS {
                spin_loop();
            } else {
                yield_now();
            }
        }
    }

    /// How many turns are to end before this ticket's.
    fn ahead(&self, ticket: &Ticket) -> u64 {
        ticket
            .number
            .saturating_sub(self.served.load(Ordering::SeqCst))
    }

    fn wait_word(&self, number: u64) -> &AtomicU64 {
        &self.wait_words[(number % WAIT_WORDS as u64) as usize]
    }
}
