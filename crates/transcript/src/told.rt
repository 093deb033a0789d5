// Which calls a history tells, noted in one walk over it.
ghost use Rattle.std.specs.Prelude.{◌≡◌, ℕ, true, false, slice_get, OnOk, IfOk};
ghost use Rattle.transcript.specs.Told.{is_next, is_up_to, has_call, NotesCall, NotesEntry, AreToldBy};

use payload_records::List;
use queue_rows::{Entry, Step};
use std::alloc::{AllocError, Global};
use std::collections::HashSet;

/// A call: whose it is, and the number of its statement.
#[derive(PartialEq, Eq, Hash, Drop)]
pub(crate) struct Call {
    session: u32,
    number: u32,
}

/// The calls whose replies were told. A session is told of its statements in order, so that a number has nearly all of them.
pub(crate) struct ToldCalls {
    // Of each session up to which statement it was told of every one.
    counts: List<u32>,
    // The calls past that, and those of nobody's session.
    others: HashSet<Call>,
}

impl Drop for ToldCalls {
    fn drop(self) {
        let Self {
            counts: _,
            others: _,
        } = self;
    }
}

impl ToldCalls {
    // No call, where there are so many sessions.
    #[tactic(auto, using(crate::proofs::Counts::none_counted))]
    fn none(alloc: Global, sessions: usize) -> Result<ToldCalls, AllocError>
        ensures { IfOk result (λ told. (session number : ℕ) → has_call told session number ≡ false) }
    {
        Ok(ToldCalls {
            counts: List::from_vec(vec![in alloc; 0; sessions]?),
            others: HashSet::new(alloc),
        })
    }

    // Whether the session was told of every statement before that one, and of none from there on.
    fn is_next(&self, session: u32, number: u32) -> bool
        ensures { result ≡ is_next (slice_get self.now.counts session) number }
    {
        match self.counts.get(session as usize) {
            Some(count) => u64::from(number) == u64::from(*count) + 1,
            None => false,
        }
    }

    fn count(&mut self, session: u32, number: u32)
        requires { is_next (slice_get self.old.counts session) number ≡ true }
        ensures { NotesCall session number self.old self.new }
    {
        self.counts.set(session as usize, number);
    }

    fn keep(&mut self, session: u32, number: u32) -> Result<(), AllocError>
        ensures { OnOk result (NotesCall session number self.old self.new) }
    {
        self.others.insert(Call { session, number })?;
        Ok(())
    }

    fn note(&mut self, session: u32, number: u32) -> Result<(), AllocError>
        ensures { OnOk result (NotesCall session number self.old self.new) }
    {
        if self.is_next(session, number) {
            self.count(session, number);
            Ok(())
        } else {
            self.keep(session, number)
        }
    }

    fn note_entry(&mut self, entry: &Entry) -> Result<(), AllocError>
        ensures { OnOk result (NotesEntry entry.now self.old self.new) }
    {
        match entry.step {
            Step::Told { number } => self.note(entry.actor, number),
            _ => Ok(()),
        }
    }

    /// The calls that these entries tell, most of them of so many sessions.
    pub(crate) fn of(
        alloc: Global,
        sessions: usize,
        entries: &List<Entry>,
    ) -> Result<ToldCalls, AllocError>
        ensures { IfOk result (AreToldBy entries.now) }
    {
        let mut told = ToldCalls::none(alloc, sessions)?;
        for entry in entries {
            told.note_entry(entry)?;
        }
        Ok(told)
    }

    fn is_counted(&self, session: u32, number: u32) -> bool
        ensures { result ≡ is_up_to (slice_get self.now.counts session) number }
    {
        match self.counts.get(session as usize) {
            Some(count) => 0 < number && number <= *count,
            None => false,
        }
    }

    /// Whether that session's call of its statement of that number is among them.
    pub(crate) fn has(&self, session: u32, number: u32) -> bool
        ensures { result ≡ has_call self.now session number }
    {
        self.is_counted(session, number) || self.others.contains(&Call { session, number })
    }
}
