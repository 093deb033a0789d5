// Tables in which a dequeue's message is found.
ghost use Rattle.std.specs.Prelude.{◌≡◌, ◌+◌, ◌≤◌};
ghost use Rattle.slot_marks.specs.Marks.{marks_of};
ghost use Rattle.queue_rows.specs.Dequeueing.{Look, chosen};
ghost use Rattle.message_choice.specs.Asking.{AreSound, IsLookOf};
ghost use Rattle.message_choice.specs.Wanted.{IsSlotFor, chosen_by, most_steps};

use crate::asking::{Choice, Pick};
use crate::choosing::choose_by_walk;
use queue_rows::{MessageTables, Tables};
use row_locks::RowLocks;
use sort_index::Steps;
use std::sync::ledger::Ledger;

/// Tables that find the message which a dequeue chooses.
pub trait ChoosesMessages: MessageTables {
    /// Which message a dequeue chooses for the session of that number, and which slot of it: of the messages that the session may be
    /// given and that it asks for, the one with the least place, by the navigation. It takes no memory, and adds to `steps` the
    /// number of rows of an index that it looks at.
    fn choose<'a, L: Ledger>(
        &'a self,
        locks: &RowLocks,
        actor: u32,
        pick: &Pick<'_>,
        steps: &mut Steps<L>,
    ) -> Choice<'a>
        requires sound { let messages = (Self.tables self.now).messages in
            AreSound (marks_of locks.now actor) pick.now.queue.now pick.now.table.now messages }
        ensures choice { (l : Look) → IsLookOf pick.now actor locks.now (Self.tables self.now).messages l
            → chosen l ≡ chosen_by result }
        ensures slot { (l : Look) → IsLookOf pick.now actor locks.now (Self.tables self.now).messages l
            → IsSlotFor l result }
        ensures steps { (l : Look) → IsLookOf pick.now actor locks.now (Self.tables self.now).messages l
            → steps.new ≤ steps.old + most_steps l };
}

/// The tables themselves, by a walk over all messages.
impl ChoosesMessages for Tables {
    fn choose<'a, L: Ledger>(
        &'a self,
        locks: &RowLocks,
        actor: u32,
        pick: &Pick<'_>,
        steps: &mut Steps<L>,
    ) -> Choice<'a> {
        choose_by_walk(&self.messages, locks, actor, pick, steps)
    }
}
