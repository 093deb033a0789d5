// A dequeue that is not refused: by the id of a message, or by its navigation.
ghost use Rattle.std.specs.Prelude.{◌≡◌, ◌<◌, Some, find, IfOk, option_copied};
ghost use Rattle.queue_rows.specs.Session.{is_position, message_named};
ghost use Rattle.dequeue_ops.specs.Asked.{AreSoundFor, Does, IsChosen, IsPickOf, IsSoundFor, by_choice, by_name, by_request, position_at};
ghost use Rattle.dequeue_ops.specs.Given.{MayCommit};

use crate::answered::{give_nothing, refuse};
use crate::given::give;
use crate::request::{Asked, Request};
use message_choice::{Choice, ChoosesMessages, Claim, Pick, claim};
use payload_records::{Boxed, Copied, List, Name};
use queue_rows::{MessageTables, MsgId, MsgRow, Position, Reply};
use sessions::{Effect, PositionMove};
use sort_index::Steps;
use std::alloc::AllocError;
use std::marker::Brand;
use std::sync::ledger::{Blank, Ledger};

fn is_position(queue: &Name, consumer: Option<&Name>, position: &Position) -> bool
    ensures { result ≡ is_position queue.now (option_copied consumer.entry) position.now }
{
    position.queue == *queue && position.consumer.as_ref() == consumer
}

fn position_in<'a>(
    positions: &'a List<Position>,
    queue: &Name,
    consumer: Option<&Name>,
) -> Option<&'a Position>
    ensures { option_copied result
        ≡ find (is_position queue.now (option_copied consumer.entry)) positions.now }
{
    positions.iter().find(|p| is_position(queue, consumer, *p))
}

// What the request asks the choice for.
fn pick_of<'a>(asked: &Asked<'a>) -> Pick<'a>
    ensures pick { IsPickOf asked.now result }
    ensures queue { result.queue.now ≡ asked.now.queue.now }
    ensures table { result.table.now ≡ asked.now.table.now }
    ensures mode { result.mode ≡ asked.now.request.now.ask.now.mode }
{
    let ask = asked.request.ask;
    let consumer = ask.consumer.as_ref();
    Pick {
        queue: asked.queue,
        table: asked.table,
        consumer,
        mode: ask.mode,
        navigation: ask.navigation,
        position: position_in(&asked.request.session.positions, &ask.queue, consumer),
        corr: ask.corr.as_ref(),
        condition: asked.condition,
    }
}

// ---- by id

// The committed message of an id; an id of the other database names none of this one.
fn message_named<'a, T: MessageTables>(
    store: &'a T,
    request: &Request<'_>,
    id: MsgId,
) -> Option<&'a MsgRow>
    ensures { option_copied result ≡ message_named (T.tables store.now) request.now.session.now.at id }
{
    if id.db == request.session.at {
        store.message(id.number)
    } else {
        None
    }
}

// A message that is named: it is given, or it is said why not.
fn give_message<T: MessageTables>(
    store: &T,
    asked: &Asked<'_>,
    message: &MsgRow,
) -> Result<Effect, AllocError>
    requires commits { MayCommit (T.tables store.now) asked.now.request.now.moment }
    requires sound { IsSoundFor asked.now message.now }
    ensures { IfOk result
        (Does asked.now.request.now (by_name (T.tables store.now) asked.now (Some message.now))) }
{
    let request = asked.request;
    match claim(request.locks, request.actor, &pick_of(asked), message) {
        Claim::Given { slot } => give(store, asked, message, slot, PositionMove::Keep),
        Claim::Held(other) => Ok(refuse(request, Reply::Held(other))),
        Claim::NotARecipient => Ok(refuse(request, Reply::NotARecipient)),
        Claim::NoSuchMessage => Ok(refuse(request, Reply::NoSuchMessage)),
    }
}

fn give_named<T: MessageTables>(
    store: &T,
    asked: &Asked<'_>,
    id: MsgId,
) -> Result<Effect, AllocError>
    requires commits { MayCommit (T.tables store.now) asked.now.request.now.moment }
    requires sound { AreSoundFor asked.now (T.tables store.now).messages }
    ensures { IfOk result (Does asked.now.request.now (by_name (T.tables store.now) asked.now
        (message_named (T.tables store.now) asked.now.request.now.session.now.at id))) }
{
    match message_named(store, asked.request, id) {
        Some(message) => give_message(store, asked, message),
        None => Ok(refuse(asked.request, Reply::NoSuchMessage)),
    }
}

// ---- by navigation

// The session stands at the message that it was given.
fn position_at(request: &Request<'_>, message: &MsgRow) -> Result<Boxed<Position>, AllocError>
    ensures { IfOk result (λ p. p ≡ position_at request.now message.now) }
{
    let position = Position {
        queue: request.ask.queue.copied()?,
        consumer: Copied::copied(&request.ask.consumer)?,
        place: message.place.copied()?,
        group: message.group,
    };
    Boxed::new(request.alloc, position)
}

fn choose<'a, T: ChoosesMessages, L: Ledger>(
    store: &'a T,
    asked: &Asked<'_>,
    blank: Blank,
) -> Choice<'a>
    requires name { blank.name ≡ L.name }
    requires parts { blank.parts ≡ L.parts }
    requires some { 0 < blank.parts }
    requires sound { AreSoundFor asked.now (T.tables store.now).messages }
    ensures { IsChosen (T.tables store.now) asked.now result }
{
    let request = asked.request;
    let mut steps = Steps::<L>::new(blank);
    store.choose(request.locks, request.actor, &pick_of(asked), &mut steps)
}

fn give_chosen<T: ChoosesMessages>(store: &T, asked: &Asked<'_>) -> Result<Effect, AllocError>
    requires commits { MayCommit (T.tables store.now) asked.now.request.now.moment }
    requires sound { AreSoundFor asked.now (T.tables store.now).messages }
    ensures { IfOk result (Does asked.now.request.now (by_choice (T.tables store.now) asked.now)) }
{
    match choose::<T, Brand>(store, asked, Blank::new(1)) {
        Choice::Found { message, slot } => {
            let position = PositionMove::Set(position_at(asked.request, message)?);
            give(store, asked, message, slot, position)
        }
        Choice::EndOfGroup => Ok(refuse(asked.request, Reply::EndOfGroup)),
        Choice::Nothing => Ok(give_nothing(asked)),
    }
}

/// The message of the id that is asked for, or the one to which the navigation leads.
pub(crate) fn dequeue_by<T: ChoosesMessages>(
    store: &T,
    asked: &Asked<'_>,
) -> Result<Effect, AllocError>
    requires commits { MayCommit (T.tables store.now) asked.now.request.now.moment }
    requires sound { AreSoundFor asked.now (T.tables store.now).messages }
    ensures { IfOk result (Does asked.now.request.now (by_request (T.tables store.now) asked.now)) }
{
    match asked.request.ask.msgid {
        Some(id) => give_named(store, asked, id),
        None => give_chosen(store, asked),
    }
}
