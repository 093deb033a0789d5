// The choice as it is defined: of all messages that may be given those that the navigation asks for, and of these the one with the least
// place. It asks no index, and of the marks no more than their lists.
use crate::any_rows::SESSIONS;
use message_choice::{Choice, Pick};
use payload_records::Name;
use place_keys::compare;
use queue_rows::{Mode, MsgRow, Navigation, Position, lane_of};
use row_locks::RowLocks;
use row_tree::Tree;
use rule_checks::is_met;
use rule_conditions::like;
use slot_marks::{Group, Mark};

/// Who asks, and for what.
#[derive(Clone, Copy)]
pub struct Question<'a> {
    pub locks: &'a RowLocks,
    pub actor: u32,
    pub pick: &'a Pick<'a>,
}

// ---- which messages may be given

fn slot_for(pick: &Pick<'_>, message: &MsgRow) -> Option<u32> {
    let Some(consumer) = pick.consumer else {
        return Some(if pick.queue.kind.is_exception() { 0 } else { 1 });
    };
    let mut slot = 1;
    for row in &message.slots {
        if row.is_local_for(consumer) {
            return Some(slot);
        }
        slot = slot.checked_add(1)?;
    }
    None
}

fn is_of_group(group: &Group, message: &MsgRow, consumer: Option<&Name>) -> bool {
    group.queue == message.queue
        && group.number == message.group
        && group.consumer.as_ref() == consumer
}

// Whether the mark is on the slot, or on its group.
fn is_on(mark: &Mark, message: &MsgRow, slot: u32) -> bool {
    let consumer = message
        .slot(u64::from(slot))
        .and_then(|row| row.name.as_ref());
    (mark.id == message.id && mark.slot == slot)
        || mark
            .group
            .as_ref()
            .is_some_and(|group| is_of_group(group.get(), message, consumer))
}

fn has_mark(locks: &RowLocks, session: u32, message: &MsgRow, slot: u32) -> bool {
    locks
        .marks_of(session)
        .any(|mark| is_on(mark, message, slot))
}

fn is_held(question: &Question<'_>, message: &MsgRow, slot: u32) -> bool {
    (0..SESSIONS).any(|session| {
        session != question.actor && has_mark(question.locks, session, message, slot)
    })
}

fn has_removed(question: &Question<'_>, message: &MsgRow, slot: u32) -> bool {
    question.locks.marks_of(question.actor).any(|mark| mark.removed
        && mark.id == message.id
        && mark.slot == slot)
}

fn is_available(question: &Question<'_>, message: &MsgRow, slot: u32) -> bool {
    message.is_slot_ready(u64::from(slot))
        && !has_removed(question, message, slot)
        && (is_browse(question.pick.mode) || !is_held(question, message, slot))
}

fn meets(pick: &Pick<'_>, message: &MsgRow) -> bool {
    let has_corr = match (pick.corr, &message.facts.corr) {
        (None, _) => true,
        (Some(pattern), Some(corr)) => like(corr.as_str(), pattern.as_str()),
        (Some(_), None) => false,
    };
    has_corr && is_met(pick.condition, &message.facts, &pick.table.fields)
}

fn is_candidate(question: &Question<'_>, message: &MsgRow) -> bool {
    let pick = question.pick;
    message.queue == pick.queue.name
        && slot_for(pick, message).is_some_and(|slot| is_available(question, message, slot))
        && meets(pick, message)
}

// ---- where the navigation looks

#[derive(Clone, Copy)]
enum Region<'a> {
    All,
    Past(&'a Position),
    PastInGroup(&'a Position),
    PastGroup(&'a Position),
}

fn is_browse(mode: Mode) -> bool {
    matches!(mode, Mode::Browse)
}

fn is_past(position: &Position, message: &MsgRow) -> bool {
    compare(&position.place, &message.place).is_lt()
}

fn lies_in(region: Region<'_>, message: &MsgRow) -> bool {
    match region {
        Region::All => true,
        Region::Past(position) => is_past(position, message),
        Region::PastInGroup(position) => {
            message.group == position.group && is_past(position, message)
        }
        Region::PastGroup(position) => {
            i128::from(position.group) < i128::from(lane_of(&message.place))
        }
    }
}

// ---- the least of them

fn is_nearer(message: &MsgRow, best: Option<&MsgRow>) -> bool {
    best.is_none_or(|best| compare(&message.place, &best.place).is_lt())
}

fn least<'a>(
    messages: &'a Tree<MsgRow>,
    question: &Question<'_>,
    region: Region<'_>,
) -> Option<&'a MsgRow> {
    let mut best = None;
    for message in messages {
        if is_candidate(question, message) && lies_in(region, message) && is_nearer(message, best) {
            best = Some(message);
        }
    }
    best
}

fn found_or<'a>(
    otherwise: Choice<'a>,
    message: Option<&'a MsgRow>,
    question: &Question<'_>,
) -> Choice<'a> {
    let Some(message) = message else {
        return otherwise;
    };
    match slot_for(question.pick, message) {
        Some(slot) => Choice::Found { message, slot },
        None => otherwise,
    }
}

// The least of all, unless it is only browsed.
fn first_again<'a>(messages: &'a Tree<MsgRow>, question: &Question<'_>) -> Choice<'a> {
    if is_browse(question.pick.mode) {
        return Choice::Nothing;
    }
    let message = least(messages, question, Region::All);
    found_or(Choice::Nothing, message, question)
}

/// What is chosen.
pub fn choose_plainly<'a>(messages: &'a Tree<MsgRow>, question: &Question<'_>) -> Choice<'a> {
    let pick = question.pick;
    let (otherwise, region) = match (pick.navigation, pick.position) {
        (Navigation::First, _) | (_, None) => (Choice::Nothing, Region::All),
        (Navigation::Next, Some(position)) if pick.table.grouped => {
            (Choice::EndOfGroup, Region::PastInGroup(position))
        }
        (Navigation::Next, Some(position)) => {
            (first_again(messages, question), Region::Past(position))
        }
        (Navigation::NextTransaction, Some(position)) => {
            (Choice::Nothing, Region::PastGroup(position))
        }
    };
    found_or(otherwise, least(messages, question, region), question)
}
