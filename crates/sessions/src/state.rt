// What a session keeps, and what a statement of it does.
ghost use Rattle.std.specs.Prelude.{◌≡◌, []};
ghost use Rattle.sessions.specs.Effects.{plain_effect};
ghost use Rattle.sessions.specs.declared.state.Verdict.TheVariants.{Answer};

use aq_base::DbId;
use payload_records::{Boxed, List};
use queue_rows::{Change, Pending, Position, Reply};
use slot_marks::Mark;
use std::alloc::Global;

/// What a session keeps from statement to statement. Its marks stand in the locks of its database.
pub struct SessionState {
    /// The database in which it works.
    pub at: DbId,
    /// How many of its statements were called.
    pub next: u32,
    /// What it has done and not committed, in order.
    pub pending: List<Pending>,
    /// Where it stands in queues.
    pub positions: List<Position>,
    /// The moment since which its next statement waits, where it does.
    pub parked: Option<u64>,
    /// The call whose reply was not told yet, where there is one.
    pub untold: Option<Untold>,
    /// Whether it goes on.
    pub live: bool,
}

impl Drop for SessionState {
    fn drop(self) {
        let Self {
            at: _,
            next: _,
            pending: _,
            positions: _,
            parked: _,
            untold: _,
            live: _,
        } = self;
    }
}

/// A call whose reply was not told yet.
#[derive(Clone, Copy)]
pub struct Untold {
    /// Its number among those of its session, counted from 1.
    pub number: u32,
    /// How many commits were made up to it at home.
    pub home: u64,
    /// How many commits were made up to it at away.
    pub away: u64,
}

/// What a statement does, as values: nothing is changed before these are taken over.
#[derive(Drop)]
pub struct Effect {
    /// What the session is told, or that it waits.
    pub verdict: Verdict,
    /// What is committed at once; where it is empty there is no commit.
    pub commit: List<Change>,
    /// What the session has done besides, and not committed.
    pub pend: Option<Pending>,
    /// The mark that the session gets.
    pub mark: Option<Mark>,
    /// The mark that the session loses.
    pub unmark: Option<Mark>,
    /// Where the session stands afterwards.
    pub position: PositionMove,
}

impl Effect {
    /// That it comes to this, and this is committed at once, with nothing besides. It takes no memory.
    pub fn plain(verdict: Verdict, commit: List<Change>) -> Effect
        ensures { result ≡ plain_effect verdict commit }
    {
        Effect {
            verdict,
            commit,
            pend: None,
            mark: None,
            unmark: None,
            position: PositionMove::Keep,
        }
    }

    /// That it is answered so, with nothing besides. It takes no memory.
    pub fn answered(alloc: Global, reply: Reply) -> Effect
        ensures { result ≡ plain_effect (Answer reply) [] }
    {
        Effect::plain(Verdict::Answer(reply), List::new(alloc))
    }
}

/// What becomes of a statement.
#[derive(Drop)]
pub enum Verdict {
    /// It is answered.
    Answer(Reply),
    /// It waits for a message or for a commit, and is tried again.
    Park,
}

/// What a statement does to where its session stands in queues.
#[derive(Drop)]
pub enum PositionMove {
    /// It stays where it stands.
    Keep,
    /// It stands nowhere any more in the queue that was asked, for the consumer that was.
    Forget,
    /// It stands there in that queue. Most statements move nothing, so what one sets stands on the heap.
    Set(Boxed<Position>),
}
