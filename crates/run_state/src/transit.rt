// The slot that is being sent to the other database.
use queue_rows::SlotRef;

/// A slot that is being sent, and how far it has come.
#[derive(Clone, Copy, Debug)]
pub struct Transit {
    /// The slot.
    pub slot: SlotRef,
    /// How far it has come.
    pub stage: Stage,
}

/// How far a slot that is being sent has come.
#[derive(Clone, Copy, Debug)]
pub enum Stage {
    /// It is on its way.
    OnItsWay,
    /// It came, and its pair stands at this place, counted from 0, among those that the destination has seen.
    Came(u64),
}
