// Searches in the rows of a queue and consumer.
ghost use Rattle.std.specs.Prelude.{◌≡◌, ◌+◌, IfSome};
ghost use Rattle.row_tree.specs.Found.{kept_by};
ghost use Rattle.choice_laws.specs.Entries.{message_at, messages_of};
ghost use Rattle.message_choice.specs.Asking.{AreSoundFor, look_of};
ghost use Rattle.message_choice.specs.Searched.{CanSearch, first_in, looks_in};
ghost use Rattle.message_choice.specs.Wanted.{HasSlotFor, message_of, passes};

use crate::StampedMessages;
use crate::asking::{Asking, Filter, Hit};
use crate::search::{Search, hit_of};
use place_keys::Place;
use sort_index::{ReadyIndex, RowsPast, Steps};
use std::sync::ledger::Ledger;

// The message with that stamp and the slot that may be given of it, where it passes.
fn hit_at<'a, M: StampedMessages>(
    messages: &'a M,
    asking: &Asking<'_>,
    filter: Filter,
    stamp: u64,
) -> Option<Hit<'a>>
    requires { AreSoundFor asking.now (messages_of (M.entries messages.now)) }
    ensures message { message_of result
        ≡ kept_by (passes (look_of asking.now) filter) (message_at (M.entries messages.now) stamp) }
    ensures slot { IfSome result (λ hit. HasSlotFor (look_of asking.now) hit.message.now hit.slot) }
{
    let message = messages.message_at(stamp)?;
    hit_of(asking, filter, message)
}

// The first message that passes, of those to which these rows lead.
fn search_in<'a, M: StampedMessages, L: Ledger>(
    messages: &'a M,
    asking: &Asking<'_>,
    filter: Filter,
    rows: RowsPast<'_>,
    steps: &mut Steps<L>,
) -> Option<Hit<'a>>
    requires { AreSoundFor asking.now (messages_of (M.entries messages.now)) }
    ensures message { let entries = M.entries messages.now in
        message_of result ≡ first_in (look_of asking.now) filter entries rows.entry }
    ensures slot { IfSome result (λ hit. HasSlotFor (look_of asking.now) hit.message.now hit.slot) }
    ensures steps { let entries = M.entries messages.now in
        steps.new ≡ steps.old + looks_in (look_of asking.now) filter entries rows.entry }
{
    let mut rows = rows;
    while let Some(row) = rows.next(steps) {
        if let Some(hit) = hit_at(messages, asking, filter, row.id) {
            return Some(hit);
        }
    }
    None
}

// By the rows of the queue and consumer.
impl<M: StampedMessages> Search<M> for ReadyIndex {
    ghost rows_of = { λ messages. messages_of (M.entries messages) };

    ghost can_search = { λ ready messages asking. CanSearch asking (M.entries messages) ready.groups };

    fn nearest<'a, L: Ledger>(
        &self,
        messages: &'a M,
        asking: &Asking<'_>,
        filter: Filter,
        after: Option<&Place>,
        steps: &mut Steps<L>,
    ) -> Option<Hit<'a>> {
        let pick = asking.pick;
        let rows = self.rows_past(&pick.queue.name, pick.consumer, after);
        search_in(messages, asking, filter, rows, steps)
    }
}
