// The places of a session's marks.
ghost use Rattle.std.specs.Prelude.{◌≡◌, ◌<◌, ◌≤◌, ◌+◌, [], ◌∷◌, ◌++◌, length, vec_len, vec_capacity, option_copied, false};
ghost use Rattle.std.specs.Option.{option_map, option_map_or};
ghost use Rattle.slot_marks.specs.Marks.{kept_beside};
ghost use Rattle.row_locks.specs.Entries.{present, entry_at, entries_keeping, is_entry_in};
ghost use Rattle.row_locks.specs.Groups.{group_in, group_meant, have_names};

use crate::groups::GroupRef;
use payload_records::Name;
use slot_marks::Mark;

/// Puts an item last, where there is room.
pub(crate) fn put_last<T: Drop>(items: &mut Vec<T>, item: T)
    requires { vec_len items.old < vec_capacity items.old }
    ensures items { items.new.items ≡ items.old.items ++ item ∷ [] }
    ensures len { vec_len items.new ≡ vec_len items.old + 1 }
    ensures capacity { vec_capacity items.old ≤ vec_capacity items.new }
{
    let Ok(()) = items.push(item) else {
        unreachable!()
    };
}

/// Makes the mark at a place removed where the new one is.
pub(crate) fn keep_at(entries: &mut Vec<Option<Mark>>, at: usize, new: &Mark)
    requires { at < length entries.old.items }
    ensures items { entries.new.items ≡ entries_keeping entries.old.items at new.now }
    ensures len { vec_len entries.new ≡ vec_len entries.old }
    ensures capacity { vec_capacity entries.old ≤ vec_capacity entries.new }
{
    if let Some(own) = &mut entries[at] {
        keep_beside(new, own);
    }
}

/// The marks that are present, moved in their order into an empty vector that has room for them.
#[tactic(auto, using(std::proofs::lemmas::Grind::common_steps, crate::proofs::IndexLemmas::present_push_some, crate::proofs::IndexLemmas::present_push_none))]
pub(crate) fn moved(entries: Vec<Option<Mark>>, mut room: Vec<Mark>) -> Vec<Mark>
    requires empty { room.items ≡ [] }
    requires fits { vec_len entries ≤ vec_capacity room }
    ensures { result.items ≡ present entries.items }
{
    for entry in entries {
        match entry {
            None => {}
            Some(mark) => {
                let Ok(()) = room.push(mark) else {
                    unreachable!()
                };
            }
        }
    }
    room
}

/// Whether the mark at a place is in the group.
pub(crate) fn is_entry_in_group(entries: &[Option<Mark>], at: usize, group: GroupRef<'_>) -> bool
    ensures { result ≡ is_entry_in (group_meant group.entry) (entry_at entries.now at) }
{
    match entries.get(at) {
        Some(Some(mark)) => mark.is_in_group(group.queue, group.number, group.consumer),
        _ => false,
    }
}

/// Whether the mark at a place is in a group with those names.
pub(crate) fn has_entry_names(
    entries: &[Option<Mark>],
    at: usize,
    queue: &Name,
    consumer: Option<&Name>,
) -> bool
    ensures { let group = group_in (entry_at entries.now at) in
        result ≡ have_names queue.now (option_copied consumer.entry) group }
{
    match entries.get(at) {
        Some(Some(mark)) => has_names(mark, queue, consumer),
        _ => false,
    }
}

fn has_names(mark: &Mark, queue: &Name, consumer: Option<&Name>) -> bool
    ensures { result ≡ have_names queue.now (option_copied consumer.entry) mark.now.group }
{
    match &mark.group {
        None => false,
        Some(group) => mark.is_in_group(queue, group.get().number, consumer),
    }
}

fn keep_beside(new: &Mark, own: &mut Mark)
    ensures { own.new ≡ kept_beside new.now own.old }
{
    if own.is_on(new.id, new.slot) {
        own.removed |= new.removed;
    }
}
