// A way to the nearest of the messages that a dequeue may give.
ghost use Rattle.std.specs.Prelude.{◌≡◌, ◌+◌, ◌≤◌, List, Some, IfSome, option_copied};
ghost use Rattle.row_tree.specs.Found.{kept_by};
ghost use Rattle.queue_rows.specs.declared.rows.MsgRow.{MsgRow};
ghost use Rattle.message_choice.specs.Asking.{IsSoundFor, look_of};
ghost use Rattle.message_choice.specs.Offered.{nearest_for, search_limit};
ghost use Rattle.message_choice.specs.Wanted.{HasSlotFor, message_of, passes};
ghost use Rattle.message_choice.specs.declared.asking.Asking.{Asking};

use crate::asking::{Asking, Filter, Hit};
use crate::test::{given_slot, lies_in};
use place_keys::Place;
use queue_rows::MsgRow;
use sort_index::Steps;
use std::sync::ledger::Ledger;

/// A way to the nearest of some messages.
pub(crate) trait Search<M> {
    ghost rows_of: { M → List MsgRow };

    ghost can_search: { Self → M → Asking → Type 0 };

    /// The nearest message past a place, where one is given, that the dequeue may give and the filter lets through.
    fn nearest<'a, L: Ledger>(
        &self,
        messages: &'a M,
        asking: &Asking<'_>,
        filter: Filter,
        after: Option<&Place>,
        steps: &mut Steps<L>,
    ) -> Option<Hit<'a>>
        requires { can_search self.now messages.now asking.now }
        ensures message { message_of result
            ≡ nearest_for asking.now filter (option_copied after.entry) (rows_of messages.now) }
        ensures slot { IfSome result (λ hit. HasSlotFor (look_of asking.now) hit.message.now hit.slot) }
        ensures steps { steps.new ≤ steps.old + search_limit asking.now filter (rows_of messages.now) };
}

/// The message and the slot that may be given of it, where it passes.
pub(crate) fn hit_of<'a>(
    asking: &Asking<'_>,
    filter: Filter,
    message: &'a MsgRow,
) -> Option<Hit<'a>>
    requires { IsSoundFor asking.now message.now }
    ensures message { message_of result ≡ kept_by (passes (look_of asking.now) filter) (Some message.now) }
    ensures slot { IfSome result (λ hit. HasSlotFor (look_of asking.now) hit.message.now hit.slot) }
{
    let slot = given_slot(asking, message)?;
    if lies_in(filter, message) {
        Some(Hit { message, slot })
    } else {
        None
    }
}
