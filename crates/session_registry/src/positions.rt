// Where a session stands in queues.
ghost use Rattle.std.specs.Prelude.{◌≡◌, IfOk, filter, not, option_copied, slice_set, position};
ghost use Rattle.std.specs.Str.{bytes_eq};
ghost use Rattle.queue_rows.specs.Session.{is_position, is_same_position, positioned};
ghost use Rattle.sessions.specs.Effects.{positions_after};
ghost use Rattle.session_registry.specs.Sessions.{elsewhere, positions_by};

use crate::new_positions::NewPositions;
use payload_records::{Boxed, Copied, List, Name};
use queue_rows::Position;
use sessions::PositionMove;
use std::alloc::AllocError;
use std::mem;

fn is_position(position: &Position, queue: &Name, consumer: Option<&Name>) -> bool
    ensures { result ≡ is_position queue.now (option_copied consumer.entry) position.now }
{
    position.queue == *queue && position.consumer.as_ref() == consumer
}

fn keep_others(positions: &mut Vec<Position>, queue: &Name, consumer: Option<&Name>)
    ensures { positions.new.items ≡ elsewhere queue.now (option_copied consumer.entry) positions.old.items }
{
    positions.retain(|p| !is_position(p, queue, consumer));
}

/// The positions but those in the queue for the consumer.
fn without(
    positions: &List<Position>,
    queue: &Name,
    consumer: Option<&Name>,
) -> Result<List<Position>, AllocError>
    ensures { IfOk result (λ ps. ps ≡ elsewhere queue.now (option_copied consumer.entry) positions.now) }
{
    let mut others = positions.copied()?.into_vec();
    keep_others(&mut others, queue, consumer);
    Ok(List::from_vec(others))
}

fn place_of(positions: &List<Position>, wanted: &Position) -> Option<usize>
    ensures { result ≡ position (λ p. is_same_position p wanted.now) positions.now }
{
    positions.iter().position(|p| is_position(p, &wanted.queue, wanted.consumer.as_ref()))
}

/// The positions with that one in the place of one in the same queue for the same consumer. It takes no memory where there is one.
fn with(positions: &List<Position>, given: Boxed<Position>) -> Result<NewPositions, AllocError>
    ensures { IfOk result (λ new. positions_by new positions.now ≡ positioned given positions.now) }
{
    match place_of(positions, given.get()) {
        Some(at) => Ok(NewPositions::Replaced {
            at,
            position: given,
        }),
        None => {
            let mut others = positions.copied()?;
            others.push(given.into_inner())?;
            Ok(NewPositions::Others(others))
        }
    }
}

/// The position at that place becomes this one.
pub fn replace(positions: &mut List<Position>, at: usize, position: Position)
    ensures { positions.new ≡ slice_set positions.old at position }
{
    if at < positions.len() {
        positions.set(at, position);
    }
}

fn leave_items(positions: &mut Vec<Position>, queue: &Name)
    ensures { positions.new.items ≡ filter (λ p. not (bytes_eq p.queue queue.now)) positions.old.items }
{
    positions.retain(|p| p.queue != *queue);
}

/// None of the positions is in that queue. It takes no memory.
pub fn leave_queue(positions: &mut List<Position>, queue: &Name)
    ensures { positions.new ≡ filter (λ p. not (bytes_eq p.queue queue.now)) positions.old }
{
    let alloc = positions.allocator();
    let mut kept = mem::replace(positions, List::new(alloc)).into_vec();
    leave_items(&mut kept, queue);
    *positions = List::from_vec(kept);
}

/// The positions of a session after a move, for a statement that asked for that queue and consumer.
pub fn moved(
    positions: &List<Position>,
    position: PositionMove,
    queue: &Name,
    consumer: Option<&Name>,
) -> Result<NewPositions, AllocError>
    ensures { IfOk result (λ new. positions_by new positions.now
        ≡ positions_after position queue.now (option_copied consumer.entry) positions.now) }
{
    match position {
        PositionMove::Keep => Ok(NewPositions::Same),
        PositionMove::Forget => {
            let others = without(positions, queue, consumer)?;
            Ok(NewPositions::Others(others))
        }
        PositionMove::Set(given) => with(positions, given),
    }
}
