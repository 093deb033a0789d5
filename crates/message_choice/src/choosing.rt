// Which message a dequeue chooses, by its navigation.
ghost use Rattle.std.specs.Prelude.{◌≡◌, ◌+◌, ◌*◌, ◌≤◌, true, pos, int_lt};
ghost use Rattle.std.specs.Prelude.{Some, IfSome, option_copied};
ghost use Rattle.place_keys.specs.Place.{stands_before};
ghost use Rattle.slot_marks.specs.Marks.{marks_of};
ghost use Rattle.queue_rows.specs.Tables.{lane_of};
ghost use Rattle.queue_rows.specs.Dequeueing as def;
ghost use Rattle.queue_rows.specs.declared.rows.MsgRow.{MsgRow};
ghost use Rattle.queue_rows.specs.Dequeueing.{Look, chosen, end_of_group, found_or, next_or_first, nothing};
ghost use Rattle.queue_rows.specs.Dequeueing.{least, past, of_group, past_group};
ghost use Rattle.queue_rows.specs.declared.statement.Navigation.TheVariants.{Next};
ghost use Rattle.choice_laws.specs.Entries.{AreRising, messages_of};
ghost use Rattle.message_choice.specs.Asking.{AreSound, IsLookOf, look_of};
ghost use Rattle.ready_slots.specs.Indexed.{IndexesReady};
ghost use Rattle.message_choice.specs.Offered.{choice_by, choice_limit, offered, search_limit};
ghost use Rattle.message_choice.specs.Wanted.{HasSlotFor, IsSlotFor, chosen_by, message_of, most_steps};
ghost use Rattle.message_choice.specs.declared.asking.Filter.TheVariants as filters;

use crate::StampedMessages;
use crate::asking::{Asking, Choice, Filter, Hit, Pick};
use crate::search::Search;
use crate::test::is_browse;
use crate::walk::Walk;
use place_keys::Place;
use queue_rows::{MsgRow, Navigation, Position};
use row_locks::RowLocks;
use row_tree::Tree;
use sort_index::{ReadyIndex, Steps};
use std::sync::ledger::Ledger;

fn found<'a>(hit: Hit<'a>) -> Choice<'a>
    ensures choice { chosen_by result ≡ def.found hit.entry.message.now }
    ensures slot { (l : Look) → HasSlotFor l hit.entry.message.now hit.entry.slot → IsSlotFor l result }
{
    Choice::Found {
        message: hit.message,
        slot: hit.slot,
    }
}

fn found_or<'a>(otherwise: Choice<'a>, hit: Option<Hit<'a>>) -> Choice<'a>
    ensures choice { chosen_by result ≡ found_or (chosen_by otherwise.entry) (message_of hit.entry) }
    ensures slot { (l : Look) → IfSome hit.entry (λ h. HasSlotFor l h.message.now h.slot)
        → IsSlotFor l otherwise.entry → IsSlotFor l result }
{
    match hit {
        Some(hit) => found(hit),
        None => otherwise,
    }
}

// The nearest of all.
fn choose_first<'a, M, S: Search<M>, L: Ledger>(
    messages: &'a M,
    search: &S,
    asking: &Asking<'_>,
    steps: &mut Steps<L>,
) -> Choice<'a>
    requires { S.can_search search.now messages.now asking.now }
    ensures choice { chosen_by result
        ≡ found_or nothing (least (offered asking.now (S.rows_of messages.now))) }
    ensures slot { IsSlotFor (look_of asking.now) result }
    ensures steps { steps.new ≤ steps.old + search_limit asking.now filters.All (S.rows_of messages.now) }
{
    found_or(
        Choice::Nothing,
        search.nearest(messages, asking, Filter::All, None, steps),
    )
}

// The nearest past the position, and where there is none, of all, unless it is only browsed.
fn choose_behind<'a, M, S: Search<M>, L: Ledger>(
    messages: &'a M,
    search: &S,
    asking: &Asking<'_>,
    position: &Position,
    steps: &mut Steps<L>,
) -> Choice<'a>
    requires { S.can_search search.now messages.now asking.now }
    ensures choice { let messages = offered asking.now (S.rows_of messages.now) in
        chosen_by result ≡ next_or_first asking.now.pick.now.mode position.now messages }
    ensures slot { IsSlotFor (look_of asking.now) result }
    ensures steps { steps.new
        ≤ steps.old + 2 * search_limit asking.now filters.All (S.rows_of messages.now) }
{
    match search.nearest(messages, asking, Filter::All, Some(&position.place), steps) {
        Some(hit) => found(hit),
        None if is_browse(asking.pick.mode) => Choice::Nothing,
        None => choose_first(messages, search, asking, steps),
    }
}

// The nearest past the position, of its group.
fn choose_in_group<'a, M, S: Search<M>, L: Ledger>(
    messages: &'a M,
    search: &S,
    asking: &Asking<'_>,
    position: &Position,
    steps: &mut Steps<L>,
) -> Choice<'a>
    requires { S.can_search search.now messages.now asking.now }
    ensures choice { let own = of_group position.now (offered asking.now (S.rows_of messages.now)) in
        chosen_by result ≡ found_or end_of_group (least (past position.now own)) }
    ensures slot { IsSlotFor (look_of asking.now) result }
    ensures steps { let filter = filters.InGroup position.now.group in
        steps.new ≤ steps.old + search_limit asking.now filter (S.rows_of messages.now) }
{
    let filter = Filter::InGroup(position.group);
    found_or(
        Choice::EndOfGroup,
        search.nearest(messages, asking, filter, Some(&position.place), steps),
    )
}

// The position's place, where all lanes of later groups stand past it: where its lane is past its own group, or it has none, they
// may not.
fn place_before_groups(position: &Position) -> Option<&Place>
    ensures { (m : MsgRow) → int_lt (pos position.now.group) (lane_of m.place) ≡ true
        → IfSome result (λ place. stands_before place.now m.place ≡ true) }
{
    match position.place.numbers() {
        [lane, ..] if i128::from(*lane) <= i128::from(position.group) => Some(&position.place),
        _ => None,
    }
}

// The nearest of the lanes of later groups.
fn choose_past_group<'a, M, S: Search<M>, L: Ledger>(
    messages: &'a M,
    search: &S,
    asking: &Asking<'_>,
    position: &Position,
    steps: &mut Steps<L>,
) -> Choice<'a>
    requires { S.can_search search.now messages.now asking.now }
    ensures choice { chosen_by result
        ≡ found_or nothing (least (past_group position.now (offered asking.now (S.rows_of messages.now)))) }
    ensures slot { IsSlotFor (look_of asking.now) result }
    ensures steps { let filter = filters.PastGroup position.now.group in
        steps.new ≤ steps.old + search_limit asking.now filter (S.rows_of messages.now) }
{
    let filter = Filter::PastGroup(position.group);
    let after = place_before_groups(position);
    found_or(
        Choice::Nothing,
        search.nearest(messages, asking, filter, after, steps),
    )
}

// The next in the position's group, or in the whole queue.
fn choose_next<'a, M, S: Search<M>, L: Ledger>(
    messages: &'a M,
    search: &S,
    asking: &Asking<'_>,
    position: &Position,
    steps: &mut Steps<L>,
) -> Choice<'a>
    requires { S.can_search search.now messages.now asking.now }
    ensures choice { chosen_by result
        ≡ choice_by asking.now Next (Some position.now) (S.rows_of messages.now) }
    ensures slot { IsSlotFor (look_of asking.now) result }
    ensures steps { steps.new
        ≤ steps.old + choice_limit asking.now Next (Some position.now) (S.rows_of messages.now) }
{
    let grouped = asking.pick.table.grouped;
    if grouped {
        choose_in_group(messages, search, asking, position, steps)
    } else {
        choose_behind(messages, search, asking, position, steps)
    }
}

// From where the session stands.
fn choose_from<'a, M, S: Search<M>, L: Ledger>(
    messages: &'a M,
    search: &S,
    asking: &Asking<'_>,
    position: &Position,
    steps: &mut Steps<L>,
) -> Choice<'a>
    requires { S.can_search search.now messages.now asking.now }
    ensures choice { let navigation = asking.now.pick.now.navigation in
        chosen_by result ≡ choice_by asking.now navigation (Some position.now) (S.rows_of messages.now) }
    ensures slot { IsSlotFor (look_of asking.now) result }
    ensures steps { let navigation = asking.now.pick.now.navigation in
        let limit = choice_limit asking.now navigation (Some position.now) (S.rows_of messages.now) in
        steps.new ≤ steps.old + limit }
{
    match asking.pick.navigation {
        Navigation::First => choose_first(messages, search, asking, steps),
        Navigation::Next => choose_next(messages, search, asking, position, steps),
        Navigation::NextTransaction => choose_past_group(messages, search, asking, position, steps),
    }
}

// By the navigation, from where the session stands, or from the beginning.
fn choose_asked<'a, M, S: Search<M>, L: Ledger>(
    messages: &'a M,
    search: &S,
    asking: &Asking<'_>,
    steps: &mut Steps<L>,
) -> Choice<'a>
    requires { S.can_search search.now messages.now asking.now }
    ensures choice { let navigation = asking.now.pick.now.navigation in
        let position = option_copied asking.now.pick.now.position in
        chosen_by result ≡ choice_by asking.now navigation position (S.rows_of messages.now) }
    ensures slot { IsSlotFor (look_of asking.now) result }
    ensures steps { let navigation = asking.now.pick.now.navigation in
        let position = option_copied asking.now.pick.now.position in
        steps.new ≤ steps.old + choice_limit asking.now navigation position (S.rows_of messages.now) }
{
    match asking.pick.position {
        Some(position) => choose_from(messages, search, asking, position, steps),
        None => choose_first(messages, search, asking, steps),
    }
}

/// Which message a dequeue chooses for the session of that number, and which slot of it: of the messages that the session may be
/// given and that it asks for, the one with the least place, by the navigation. It takes no memory, and adds to `steps` the
/// number of rows that it looks at.
pub fn choose<'a, M: StampedMessages, L: Ledger>(
    messages: &'a M,
    ready: &ReadyIndex,
    locks: &RowLocks,
    actor: u32,
    pick: &Pick<'_>,
    steps: &mut Steps<L>,
) -> Choice<'a>
    requires rising { AreRising (M.entries messages.now) }
    requires indexed { IndexesReady (M.entries messages.now) ready.now.groups }
    requires sound { let messages = messages_of (M.entries messages.now) in
        AreSound (marks_of locks.now actor) pick.now.queue.now pick.now.table.now messages }
    ensures choice { (l : Look) → IsLookOf pick.now actor locks.now (messages_of (M.entries messages.now)) l
        → chosen l ≡ chosen_by result }
    ensures slot { (l : Look) → IsLookOf pick.now actor locks.now (messages_of (M.entries messages.now)) l
        → IsSlotFor l result }
    ensures steps { (l : Look) → IsLookOf pick.now actor locks.now (messages_of (M.entries messages.now)) l
        → steps.new ≤ steps.old + most_steps l }
{
    let asking = Asking { locks, actor, pick };
    choose_asked(messages, ready, &asking, steps)
}

/// The same by a walk over all messages, which looks at no row of an index. It takes no memory.
pub fn choose_by_walk<'a, L: Ledger>(
    messages: &'a Tree<MsgRow>,
    locks: &RowLocks,
    actor: u32,
    pick: &Pick<'_>,
    steps: &mut Steps<L>,
) -> Choice<'a>
    requires sound { AreSound (marks_of locks.now actor) pick.now.queue.now pick.now.table.now messages.now }
    ensures choice { (l : Look) → IsLookOf pick.now actor locks.now messages.now l
        → chosen l ≡ chosen_by result }
    ensures slot { (l : Look) → IsLookOf pick.now actor locks.now messages.now l → IsSlotFor l result }
    ensures steps { (l : Look) → IsLookOf pick.now actor locks.now messages.now l
        → steps.new ≤ steps.old + most_steps l }
{
    let asking = Asking { locks, actor, pick };
    choose_asked(messages, &Walk, &asking, steps)
}
