// What changes make of the messages that they name.
ghost use Rattle.std.specs.Prelude.{◌≡◌, ◌==◌, ◌++◌, [], ◌∷◌, ℕ, IfOk, OnOk, None, find, nat_eq, option_copied, position};
ghost use Rattle.std.specs.HashMap.{get};
ghost use Rattle.queue_rows.specs.Rows.{changed_nth};
ghost use Rattle.queue_rows.specs.Settling.{named_by, moment_by};
ghost use Rattle.exception_queues.specs.Left.{left_some};
ghost use Rattle.exception_queues.specs.Outcomes.{outcome_of, outcome_after, next_outcome, Advances, AreOutcomes, GoesOn, Keeps, named_with, IsFollowed};

use crate::left::{left_some, message_of};
use crate::names::{moment_by, named_by};
use payload_records::{List, SmallList};
use queue_rows::{Change, MessageTables, MsgRow};
use smallvec::SmallVec;
use std::alloc::{AllocError, Global};
use std::collections::HashMap;

/// So many outcomes are found by a walk, and the others by a map.
const FEW: usize = 4;

/// What changes make of a message that they name.
#[derive(Drop)]
pub(crate) struct Outcome {
    /// The message's number.
    pub(crate) id: u64,
    /// The message as they leave it; none where it is not there, or goes.
    pub(crate) message: Option<MsgRow>,
    /// The moment of the last of them that names it.
    pub(crate) moment: u64,
}

impl Outcome {
    fn advance(&mut self, change: &Change) -> Result<(), AllocError>
        ensures { OnOk result (self.new ≡ next_outcome change.now self.old) }
    {
        self.message = left_some(self.message.take(), change)?;
        self.moment = moment_by(self.id, self.moment, change);
        Ok(())
    }
}

fn outcome_among(few: &SmallList<Outcome>, id: u64) -> Option<&Outcome>
    ensures { option_copied result ≡ find (λ o. o.id == id) few.now }
{
    few.iter().find(|o| o.id == id)
}

fn place_of(few: &SmallList<Outcome>, id: u64) -> Option<usize>
    ensures { result ≡ position (λ o. o.id == id) few.now }
{
    few.iter().position(|o| o.id == id)
}

fn advance_at(few: &mut SmallList<Outcome>, at: usize, change: &Change) -> Result<(), AllocError>
    ensures { OnOk result (few.new ≡ changed_nth (next_outcome change.now) at few.old) }
{
    match few.get_mut(at) {
        Some(outcome) => outcome.advance(change),
        None => Ok(()),
    }
}

fn advance_in(many: &mut HashMap<u64, Outcome>, id: u64, change: &Change) -> Result<(), AllocError>
    ensures { OnOk result (Advances id change.now (get nat_eq many.old) (get nat_eq many.new)) }
{
    match many.get_mut(&id) {
        Some(outcome) => outcome.advance(change),
        None => Ok(()),
    }
}

/// The messages that changes name, each once, in the order in which they are first named, and the outcome of each. A
/// few take no map.
pub(crate) struct Outcomes {
    names: SmallVec<u64, FEW>,
    few: SmallList<Outcome>,
    many: HashMap<u64, Outcome>,
}

impl Drop for Outcomes {
    fn drop(self) {
        let Self {
            names: _,
            few: _,
            many: _,
        } = self;
    }
}

impl Outcomes {
    fn new(alloc: Global) -> Outcomes
        ensures names { result.names.items ≡ [] }
        ensures outcomes { (id : ℕ) → outcome_of result id ≡ None }
    {
        Outcomes {
            names: SmallVec::new(alloc),
            few: SmallList::new(alloc),
            many: HashMap::new(alloc),
        }
    }

    /// The messages, in the order in which they are first named.
    pub(crate) fn names(&self) -> &[u64]
        ensures { result.now ≡ self.now.names.items }
    {
        self.names.as_slice()
    }

    /// The outcome of a message that is named.
    pub(crate) fn outcome(&self, id: u64) -> Option<&Outcome>
        ensures { option_copied result ≡ outcome_of self.now id }
    {
        match outcome_among(&self.few, id) {
            Some(outcome) => Some(outcome),
            None => self.many.get(&id),
        }
    }

    fn keep(&mut self, outcome: Outcome) -> Result<(), AllocError>
        requires { outcome_of self.old outcome.id ≡ None }
        ensures names { OnOk result (self.new.names.items ≡ self.old.names.items) }
        ensures outcomes { OnOk result (Keeps outcome self.old self.new) }
    {
        if self.few.len() < FEW {
            return self.few.push(outcome);
        }
        self.many.insert(outcome.id, outcome)?;
        Ok(())
    }

    fn begin<T: MessageTables>(&mut self, tables: &T, id: u64) -> Result<(), AllocError>
        requires { outcome_of self.old id ≡ None }
        ensures names { OnOk result (self.new.names.items ≡ self.old.names.items ++ id ∷ []) }
        ensures outcomes { OnOk result (Keeps (outcome_after (T.tables tables.now) [] id) self.old self.new) }
    {
        self.keep(Outcome {
            id,
            message: message_of(tables, id)?,
            moment: 0,
        })?;
        self.names.push(id)?;
        Ok(())
    }

    fn advance(&mut self, id: u64, change: &Change) -> Result<(), AllocError>
        ensures names { OnOk result (self.new.names.items ≡ self.old.names.items) }
        ensures outcomes { OnOk result (Advances id change.now (outcome_of self.old) (outcome_of self.new)) }
    {
        match place_of(&self.few, id) {
            Some(at) => advance_at(&mut self.few, at, change),
            None => advance_in(&mut self.many, id, change),
        }
    }

    // Follows a message that the change names.
    fn follow_named<T: MessageTables>(
        &mut self,
        tables: &T,
        id: u64,
        change: &Change,
    ) -> Result<(), AllocError>
        ensures names { OnOk result (self.new.names.items ≡ named_with id self.old) }
        ensures outcomes { OnOk result (IsFollowed (T.tables tables.now) id change.now self.old self.new) }
    {
        if self.outcome(id).is_none() {
            self.begin(tables, id)?;
        }
        self.advance(id, change)
    }

    /// Goes on by one more change.
    fn follow<T: MessageTables>(&mut self, tables: &T, change: &Change) -> Result<(), AllocError>
        ensures { GoesOn result (T.tables tables.now) change.now self.old self.new }
    {
        match named_by(change) {
            Some(id) => self.follow_named(tables, id, change),
            None => Ok(()),
        }
    }
}

/// The messages that the changes name, and the outcome of each. A message is looked for in the tables once.
pub(crate) fn outcomes_of<T: MessageTables>(
    tables: &T,
    changes: &List<Change>,
) -> Result<Outcomes, AllocError>
    ensures { IfOk result (λ outcomes. AreOutcomes (T.tables tables.now) changes.now outcomes) }
{
    let mut outcomes = Outcomes::new(changes.allocator());
    for change in changes {
        outcomes.follow(tables, change)?;
    }
    Ok(outcomes)
}
