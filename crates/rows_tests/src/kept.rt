// Messages kept under their positions, the index of their ready slots, and the choice by it beside that by a walk.
ghost use Rattle.std.specs.Prelude.{◌≡◌, [], IsTrue, IfOk};
ghost use Rattle.slot_marks.specs.Marks.{marks_of};
ghost use Rattle.choice_laws.specs.Entries.{Entry};
ghost use Rattle.message_choice.specs.Asking.{AreSound};
ghost use Rattle.message_choice.specs.Indexed.{IndexesReady};
ghost use Rattle.rows_tests.specs.Kept.{numbered_from};

use crate::calls::have_few;
use message_choice::{Choice, Pick, StampedMessages, choose, choose_by_walk};
use queue_rows::{MsgRow, QueueRow, TableRow};
use ready_slots::ReadySlots;
use row_locks::RowLocks;
use row_tree::Tree;
use sort_index::Steps;
use std::alloc::{AllocError, Global};
use std::sync::ledger::Ledger;

/// Messages under their positions.
#[derive(Clone, Copy)]
pub struct Numbered<'a> {
    pub messages: &'a Tree<MsgRow>,
}

impl<'a> StampedMessages for Numbered<'a> {
    ghost entries = { λ n. numbered_from 0 n.messages.now };

    fn message_at(&self, stamp: u64) -> Option<&MsgRow> {
        self.messages.get(stamp as usize)
    }
}

/// The index of all messages.
pub fn index_of(messages: &Tree<MsgRow>, alloc: Global) -> Result<ReadySlots, AllocError>
    ensures { IfOk result (λ ready. IndexesReady (numbered_from 0 messages.now) ready) }
{
    let _most = messages.len();
    let mut ready = ReadySlots::new(alloc);
    let mut stamp = 0;
    for message in messages {
        ready.put(stamp, message)?;
        stamp += 1;
    }
    Ok(ready)
}

fn has_no_mark(locks: &RowLocks, actor: u32) -> bool
    ensures { IsTrue result → marks_of locks.now actor ≡ [] }
{
    locks.marks_of(actor).next().is_none()
}

/// Whether the choice can be made: the table is not grouped, or the session has no marks.
pub fn can_choose(messages: &Tree<MsgRow>, locks: &RowLocks, actor: u32, pick: &Pick<'_>) -> bool
    ensures { IsTrue result
        → AreSound (marks_of locks.now actor) pick.now.queue.now pick.now.table.now messages.now }
{
    have_few(messages) && (!pick.table.grouped || has_no_mark(locks, actor))
}

/// Whether both are the same message and slot, or the same lack of one.
pub fn are_same(left: Choice<'_>, right: Choice<'_>) -> bool {
    match (left, right) {
        (
            Choice::Found { message, slot },
            Choice::Found {
                message: other,
                slot: other_slot,
            },
        ) => message.id == other.id && slot == other_slot,
        (Choice::EndOfGroup, Choice::EndOfGroup) | (Choice::Nothing, Choice::Nothing) => true,
        _ => false,
    }
}

/// Whether both choose the same.
pub fn choose_alike<L: Ledger>(
    kept: &Numbered<'_>,
    ready: &ReadySlots,
    locks: &RowLocks,
    actor: u32,
    pick: &Pick<'_>,
    steps: &mut Steps<L>,
) -> bool
    requires indexed { IndexesReady (numbered_from 0 kept.now.messages.now) ready.now }
    requires sound { let messages = kept.now.messages.now in
        AreSound (marks_of locks.now actor) pick.now.queue.now pick.now.table.now messages }
{
    let by_index = choose(kept, ready.index(), locks, actor, pick, steps);
    let by_walk = choose_by_walk(kept.messages, locks, actor, pick, steps);
    are_same(by_index, by_walk)
}
