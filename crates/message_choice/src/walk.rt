// Searches by a walk over all messages.
ghost use Rattle.std.specs.Prelude.{◌≡◌, Some, IfSome, option_copied};
ghost use Rattle.place_keys.specs.Place.{stands_before};
ghost use Rattle.row_tree.specs.Found.{kept_by};
ghost use Rattle.queue_rows.specs.Dequeueing.{Look, nearer};
ghost use Rattle.message_choice.specs.Asking.{AreSoundFor, IsSoundFor, look_of};
ghost use Rattle.message_choice.specs.Offered.{nearest_for};
ghost use Rattle.message_choice.specs.Wanted.{HasSlotFor, is_behind, message_of, passes_behind};

use crate::asking::{Asking, Filter, Hit};
use crate::search::{Search, hit_of};
use place_keys::{Place, compare};
use queue_rows::MsgRow;
use row_tree::Tree;
use sort_index::Steps;
use std::sync::ledger::Ledger;

fn is_behind(after: Option<&Place>, message: &MsgRow) -> bool
    ensures { result ≡ is_behind (option_copied after.entry) message.now }
{
    match after {
        Some(place) => compare(place, &message.place).is_lt(),
        None => true,
    }
}

// The message and the slot that may be given of it, where it passes and stands past the place.
fn hit_behind<'a>(
    asking: &Asking<'_>,
    filter: Filter,
    after: Option<&Place>,
    message: &'a MsgRow,
) -> Option<Hit<'a>>
    requires { IsSoundFor asking.now message.now }
    ensures message { let test = passes_behind (look_of asking.now) filter (option_copied after.entry) in
        message_of result ≡ kept_by test (Some message.now) }
    ensures slot { IfSome result (λ hit. HasSlotFor (look_of asking.now) hit.message.now hit.slot) }
{
    if is_behind(after, message) {
        hit_of(asking, filter, message)
    } else {
        None
    }
}

// The one that stands before the other, or the first of the two.
fn nearer<'a>(best: Option<Hit<'a>>, hit: Hit<'a>) -> Hit<'a>
    ensures message { Some result.message.now ≡ nearer (message_of best.entry) hit.entry.message.now }
    ensures slot { (l : Look) → IfSome best.entry (λ h. HasSlotFor l h.message.now h.slot)
        → HasSlotFor l hit.entry.message.now hit.entry.slot
        → HasSlotFor l result.message.now result.slot }
{
    match best {
        Some(best) => {
            if compare(&hit.message.place, &best.message.place).is_lt() {
                hit
            } else {
                best
            }
        }
        None => hit,
    }
}

// The nearest of all.
fn nearest_of<'a>(
    messages: &'a Tree<MsgRow>,
    asking: &Asking<'_>,
    filter: Filter,
    after: Option<&Place>,
) -> Option<Hit<'a>>
    requires { AreSoundFor asking.now messages.now }
    ensures message { message_of result
        ≡ nearest_for asking.now filter (option_copied after.entry) messages.now }
    ensures slot { IfSome result (λ hit. HasSlotFor (look_of asking.now) hit.message.now hit.slot) }
{
    let mut best: Option<Hit<'a>> = None;
    for message in messages {
        if let Some(hit) = hit_behind(asking, filter, after, message) {
            best = Some(nearer(best, hit));
        }
    }
    best
}

/// By a walk, which looks at no row of an index.
pub(crate) struct Walk;

impl Search<Tree<MsgRow>> for Walk {
    ghost rows_of = { λ messages. messages };

    ghost can_search = { λ walk messages asking. AreSoundFor asking messages };

    fn nearest<'a, L: Ledger>(
        &self,
        messages: &'a Tree<MsgRow>,
        asking: &Asking<'_>,
        filter: Filter,
        after: Option<&Place>,
        _steps: &mut Steps<L>,
    ) -> Option<Hit<'a>> {
        nearest_of(messages, asking, filter, after)
    }
}
