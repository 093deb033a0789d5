// Rows of small numbers, and how they go into an index and out of it.
ghost use Rattle.std.specs.Prelude.{◌<◌};

use payload_records::Name;
use place_keys::Place;
use sort_index::{Ready, ReadyIndex};
use std::alloc::{AllocError, Global};
use std::test::Fail;

/// A row: the number of its queue and consumer, the last number of its place, its id and its slot.
#[derive(Clone, Copy)]
pub(crate) struct Row {
    pub(crate) names: u64,
    pub(crate) place: i64,
    pub(crate) id: u64,
    pub(crate) slot: u32,
}

/// A queue, a consumer and a place.
#[derive(Drop)]
pub(crate) struct Key {
    pub(crate) queue: Name,
    pub(crate) consumer: Option<Name>,
    pub(crate) place: Place,
}

/// How many queues and consumers there are: each of two queues has one without a name, and one with the other queue's.
pub(crate) const ALL_NAMES: u64 = 4;

fn consumer_of(alloc: Global, names: u64) -> Result<Option<Name>, Fail> {
    match names {
        1 => Ok(Some(Name::read(alloc, "b")?)),
        3 => Ok(Some(Name::read(alloc, "a")?)),
        _ => Ok(None),
    }
}

fn place_of(alloc: Global, last: i64) -> Result<Place, AllocError> {
    Ok(Place::from_numbers([0, last, last].to_vec(alloc)?))
}

pub(crate) fn key_of(alloc: Global, names: u64, place: i64) -> Result<Key, Fail> {
    let queue = Name::read(alloc, if names < 2 { "a" } else { "b" })?;
    let consumer = consumer_of(alloc, names)?;
    Ok(Key {
        queue,
        consumer,
        place: place_of(alloc, place)?,
    })
}

fn replace(index: &mut ReadyIndex, key: Key, id: u64, slot: u32) -> Option<u32>
    requires room { 0 < index.old.spare }
{
    let Key {
        queue,
        consumer,
        place,
    } = key;
    let taken = index.take(&queue, consumer.as_ref(), &place, id);
    index.put(queue, consumer, place, id, slot);
    taken
}

/// Puts a row in, in place of the one that has its place and its id, and tells that one's slot.
pub(crate) fn put(index: &mut ReadyIndex, alloc: Global, row: &Row) -> Result<Option<u32>, Fail> {
    index.reserve(1)?;
    let key = key_of(alloc, row.names, row.place)?;
    Ok(replace(index, key, row.id, row.slot))
}

/// Takes the row out that has the place and the id, and tells its slot.
pub(crate) fn take(index: &mut ReadyIndex, alloc: Global, row: &Row) -> Result<Option<u32>, Fail> {
    let key = key_of(alloc, row.names, row.place)?;
    Ok(index.take(&key.queue, key.consumer.as_ref(), &key.place, row.id))
}

/// Takes the first row out at the row's place.
pub(crate) fn take_out(index: &mut ReadyIndex, alloc: Global, row: &Row) -> Result<(), Fail> {
    let key = key_of(alloc, row.names, row.place)?;
    index.take_out(&key.queue, key.consumer.as_ref(), &key.place);
    Ok(())
}

/// Whether this row was found, or none where none is wanted.
pub(crate) fn is_row(found: Option<&Ready>, wanted: Option<Row>) -> bool {
    match (found, wanted) {
        (None, None) => true,
        (Some(found), Some(wanted)) => {
            let last = found.place.numbers().last();
            last == Some(&wanted.place) && found.id == wanted.id && found.slot == wanted.slot
        }
        _ => false,
    }
}

/// The id and the slot, as the index tells them.
pub(crate) fn told(row: Option<Row>) -> Option<(u64, u32)> {
    let row = row?;
    Some((row.id, row.slot))
}
