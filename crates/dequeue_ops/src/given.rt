// A message that is given, by the mode and visibility that are asked for.
ghost use Rattle.std.specs.Prelude.{◌≡◌, [], ◌∷◌, true, false, Some, IfOk};
ghost use Rattle.queue_rows.specs.Commits.{commit_of};
ghost use Rattle.queue_rows.specs.declared.session.Pending.TheVariants.{Remove};
ghost use Rattle.dequeue_ops.specs.Asked.{Does, IsFreeToGive, giving};
ghost use Rattle.dequeue_ops.specs.Given.{IsReply, MayCommit, mark_of, showing};

use crate::reply::{retries_of, shown_in};
use crate::request::Asked;
use message_groups::group_of;
use payload_records::{Boxed, Copied, List};
use queue_rows::{
    Change, GivenMessage, MessageTables, Mode, MsgId, MsgRow, Pending, Reply, Visibility,
};
use sessions::{Effect, PositionMove, changes_alone};
use slot_marks::Mark;
use std::alloc::{AllocError, Global};

// ---- the reply

fn message_reply(asked: &Asked<'_>, message: &MsgRow, slot: u32) -> Result<Reply, AllocError>
    ensures { IfOk result (IsReply asked.now message.now slot) }
{
    let given = GivenMessage {
        id: MsgId {
            db: asked.request.session.at,
            number: message.id,
        },
        priority: message.facts.priority,
        retries: retries_of(message, slot),
        corr: Copied::copied(&message.facts.corr)?,
        payload: shown_in(asked.request.ask.mode, asked.table, message)?,
        props: message.facts.props.copied()?,
    };
    Ok(Reply::Message(Boxed::new(asked.request.alloc, given)?))
}

// ---- what becomes of the slot

// A message that is given: what is answered, and where the session then stands.
#[derive(Drop)]
struct Delivery {
    reply: Reply,
    position: PositionMove,
}

fn mark_on(
    asked: &Asked<'_>,
    removed: bool,
    message: &MsgRow,
    slot: u32,
) -> Result<Mark, AllocError>
    ensures { IfOk result (λ mark. mark ≡ mark_of asked.now removed message.now slot) }
{
    Ok(Mark {
        id: message.id,
        slot,
        removed,
        group: group_of(asked.table, message, slot)?,
    })
}

fn showing(alloc: Global, delivery: Delivery) -> Effect
    ensures { result ≡ showing delivery }
{
    let mut effect = Effect::answered(alloc, delivery.reply);
    effect.position = delivery.position;
    effect
}

fn locking(
    asked: &Asked<'_>,
    message: &MsgRow,
    slot: u32,
    delivery: Delivery,
) -> Result<Effect, AllocError>
    ensures { IfOk result
        (λ e. e ≡ record (showing delivery) { mark = Some (mark_of asked.now false message.now slot) }) }
{
    let mark = mark_on(asked, false, message, slot)?;
    let mut effect = showing(asked.request.alloc, delivery);
    effect.mark = Some(mark);
    Ok(effect)
}

fn taking_later(
    asked: &Asked<'_>,
    message: &MsgRow,
    slot: u32,
    delivery: Delivery,
) -> Result<Effect, AllocError>
    ensures { IfOk result (λ e. e ≡ record (showing delivery) {
      mark = Some (mark_of asked.now true message.now slot);
      pend = Some (Remove message.now.id slot);
    }) }
{
    let mark = mark_on(asked, true, message, slot)?;
    let mut effect = showing(asked.request.alloc, delivery);
    effect.mark = Some(mark);
    effect.pend = Some(Pending::Remove {
        id: message.id,
        slot,
    });
    Ok(effect)
}

// What a removal commits that is a transaction of its own.
fn removal<T: MessageTables>(
    store: &T,
    asked: &Asked<'_>,
    id: u64,
    slot: u32,
) -> Result<List<Change>, AllocError>
    requires { MayCommit (T.tables store.now) asked.now.request.now.moment }
    ensures { IfOk result (λ changes. changes
        ≡ commit_of (T.tables store.now) asked.now.request.now.moment (Remove id slot ∷ [])) }
{
    let request = asked.request;
    let pending = Pending::Remove { id, slot };
    changes_alone(request.alloc, store, &pending, request.moment)
}

fn taking_at_once<T: MessageTables>(
    store: &T,
    asked: &Asked<'_>,
    message: &MsgRow,
    slot: u32,
    delivery: Delivery,
) -> Result<Effect, AllocError>
    requires { MayCommit (T.tables store.now) asked.now.request.now.moment }
    ensures { IfOk result (λ e. e ≡ record (showing delivery) {
      commit = commit_of (T.tables store.now) asked.now.request.now.moment (Remove message.now.id slot ∷ []);
      unmark = Some (mark_of asked.now true message.now slot);
    }) }
{
    let commit = removal(store, asked, message.id, slot)?;
    let mark = mark_on(asked, true, message, slot)?;
    let mut effect = showing(asked.request.alloc, delivery);
    effect.commit = commit;
    effect.unmark = Some(mark);
    Ok(effect)
}

fn give_as<T: MessageTables>(
    store: &T,
    asked: &Asked<'_>,
    message: &MsgRow,
    slot: u32,
    delivery: Delivery,
) -> Result<Effect, AllocError>
    requires commits { MayCommit (T.tables store.now) asked.now.request.now.moment }
    requires reply { IsReply asked.now message.now slot delivery.reply }
    requires free { IsFreeToGive asked.now message.now slot }
    ensures { IfOk result (Does asked.now.request.now
        (giving (T.tables store.now) asked.now delivery.position message.now slot)) }
{
    match (asked.request.ask.mode, asked.request.ask.visibility) {
        (Mode::Browse, _) => Ok(showing(asked.request.alloc, delivery)),
        (Mode::Locked, Visibility::Immediate) => Ok(showing(asked.request.alloc, delivery)),
        (Mode::Locked, Visibility::OnCommit) => locking(asked, message, slot, delivery),
        (Mode::Remove, Visibility::Immediate) => {
            taking_at_once(store, asked, message, slot, delivery)
        }
        (Mode::RemoveNodata, Visibility::Immediate) => {
            taking_at_once(store, asked, message, slot, delivery)
        }
        (Mode::Remove, Visibility::OnCommit) => taking_later(asked, message, slot, delivery),
        (Mode::RemoveNodata, Visibility::OnCommit) => taking_later(asked, message, slot, delivery),
    }
}

/// The slot of the message is given to the session, which then stands as is said.
pub(crate) fn give<T: MessageTables>(
    store: &T,
    asked: &Asked<'_>,
    message: &MsgRow,
    slot: u32,
    position: PositionMove,
) -> Result<Effect, AllocError>
    requires commits { MayCommit (T.tables store.now) asked.now.request.now.moment }
    requires free { IsFreeToGive asked.now message.now slot }
    ensures { IfOk result (Does asked.now.request.now
        (giving (T.tables store.now) asked.now position message.now slot)) }
{
    let delivery = Delivery {
        reply: message_reply(asked, message, slot)?,
        position,
    };
    give_as(store, asked, message, slot, delivery)
}
