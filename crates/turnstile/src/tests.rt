use crate::lock::Turnstile;
use crate::number_log::{NumberLog, add};
use crate::ticket_queue::TicketQueue;
use std::test::Fail;

#[test]
fn a_pass_sees_what_was_there_before_it(rt: HostRuntime) -> Result<(), Fail> {
    let made = Turnstile::new(rt.alloc(), NumberLog::new(rt.alloc(), 7), 9);
    let Ok((turnstile, mut first)) = made else {
        panic!(rt; "no memory");
    };
    let before = add(&rt, &turnstile, &mut first, 9, 70);
    let mut other = turnstile.split(&mut first, 1);
    let mut turn = turnstile.enter(&rt, &mut other);
    let seen = turn.value().pairs.len();
    turn.leave();
    let after = add(&rt, &turnstile, &mut other, 1, 30);
    turnstile.join(&mut first, other);
    let log = turnstile.close(first);
    before?;
    after?;
    assert_eq!(rt; seen, 1);
    assert_eq!(rt; log.effort, 7);
    assert!(rt; log.pairs.as_slice() == [(9, 70), (1, 30)].as_slice());
    Ok(())
}

#[test]
fn tickets_are_served_in_order(rt: HostRuntime) {
    let queue = TicketQueue::new();
    let mut tickets = [queue.draw(), queue.draw(), queue.draw()];
    for ticket in &mut tickets {
        queue.wait(&rt, ticket);
        queue.call_next();
    }
}

#[test]
fn a_lost_ticket_only_costs_time(rt: HostRuntime) -> Result<(), Fail> {
    let made = Turnstile::new(rt.alloc(), NumberLog::new(rt.alloc(), 0), 9);
    let Ok((turnstile, mut first)) = made else {
        panic!(rt; "no memory");
    };
    turnstile.queue.draw();
    let added = add(&rt, &turnstile, &mut first, 9, 70);
    let log = turnstile.close(first);
    added?;
    assert_eq!(rt; log.pairs.len(), 1);
    Ok(())
}
