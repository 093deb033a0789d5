// Due work, found in a run.
ghost use Rattle.std.specs.Prelude.{◌≡◌, IfOk, IfSome, is_some, true, []};
ghost use Rattle.queue_rows.specs.Statements.{slot_sent};
ghost use Rattle.queue_rows.specs.Turns.{due_at, is_due};
ghost use Rattle.aq_base.specs.declared.DbId.TheVariants.{Home, Away};
ghost use Rattle.run_laws.specs.ValidRun.{IsValidWorld};

use aq_base::DbId;
use due_slots::DueTables;
use payload_records::List;
use queue_rows::{Change, SlotRef};
use run_state::RunState;
use std::alloc::AllocError;
use time_manager::due;

/// The slot that is being sent, if one is.
#[tactic(auto, using(crate::proofs::Sizes::sent_slot))]
pub(crate) fn slot_sent(state: &RunState) -> Option<SlotRef>
    ensures { result ≡ slot_sent state.now }
{
    match state.transit() {
        Some(transit) => Some(transit.slot),
        None => None,
    }
}

/// What is due at a database.
#[tactic(auto, using(crate::proofs::Sizes::apart_at, crate::proofs::Sizes::due_is, crate::proofs::Sizes::few_slots_at))]
fn due_at(state: &RunState, db: DbId) -> Result<List<Change>, AllocError>
    requires { IsValidWorld state.now }
    ensures { IfOk result (λ changes. changes ≡ due_at db state.now) }
{
    due(
        state.database(db).store(),
        db,
        state.locks(db),
        slot_sent(state).as_ref(),
        state.moment(),
    )
}

/// What is due at both databases.
#[derive(Drop)]
pub struct DueWork {
    /// What is due at home.
    pub home: List<Change>,
    /// What is due at away.
    pub away: List<Change>,
}

/// Whether no row of a database is due yet, so that nothing is.
#[tactic(auto, using(crate::proofs::Early::early_at))]
fn is_early(state: &RunState, db: DbId) -> bool
    requires { IsValidWorld state.now }
    ensures { result ≡ true → due_at db state.now ≡ [] }
{
    match state.database(db).store().due_rows() {
        Some(rows) => rows.due(state.moment()).is_none(),
        None => false,
    }
}

/// What is due at both databases, where anything is at one of them.
#[tactic(auto, unfolding(queue_rows::specs::Turns::is_due))]
fn work_at_both(state: &RunState) -> Result<Option<DueWork>, AllocError>
    requires { IsValidWorld state.now }
    ensures any { IfOk result (λ due. is_some due ≡ is_due state.now) }
    ensures work { IfOk result (λ due. IfSome due (λ work.
        (work.home ≡ due_at Home state.now) × (work.away ≡ due_at Away state.now))) }
{
    let home = due_at(state, DbId::Home)?;
    let away = due_at(state, DbId::Away)?;
    if home.is_empty() && away.is_empty() {
        return Ok(None);
    }
    Ok(Some(DueWork { home, away }))
}

/// What is due at both databases, where anything is at one of them. Mostly nothing is, and two looks tell.
#[tactic(auto, unfolding(queue_rows::specs::Turns::is_due))]
pub fn due_work(state: &RunState) -> Result<Option<DueWork>, AllocError>
    requires { IsValidWorld state.now }
    ensures any { IfOk result (λ due. is_some due ≡ is_due state.now) }
    ensures work { IfOk result (λ due. IfSome due (λ work.
        (work.home ≡ due_at Home state.now) × (work.away ≡ due_at Away state.now))) }
{
    if is_early(state, DbId::Home) && is_early(state, DbId::Away) {
        return Ok(None);
    }
    work_at_both(state)
}
