// Lines that were read, for lines that are the same.
ghost use Rattle.std.specs.Prelude.{◌≡◌, IfSome, Some};
ghost use Rattle.script_text.specs.Alike.{IsEarlierEnqueue};
ghost use Rattle.script_text.specs.Line.{line_of};
ghost use Rattle.script_text.specs.Readable.{IsReadable};
ghost use Rattle.script_text.specs.declared.line.Line.TheVariants.{Asked};

use crate::alike::{EarlierEnqueue, EarlierEnqueues};
use payload_records::{Copied, Name, Shared};
use queue_rows::Statement;
use std::alloc::{AllocError, Global};
use std::marker::Model;

// Whether it is a statement that scripts mostly ask again and again. Others differ from line to line.
fn is_repeated(statement: &Statement) -> bool {
    matches!(
        statement,
        Statement::Dequeue(_) | Statement::Commit | Statement::Rollback
    )
}

/// A line that was read, the session that asks in it with its number, and what it asks.
pub struct Earlier {
    line: Vec<u8>,
    /// The session's name.
    pub session: Name,
    /// The session's number.
    pub at: usize,
    /// The statement.
    pub statement: Shared<Statement>,
}

impl Drop for Earlier {
    fn drop(self) {
        let Self {
            line: _,
            session: _,
            at: _,
            statement: _,
        } = self;
    }
}

impl Earlier {
    fn into_line(self) -> Vec<u8> {
        let Self {
            line,
            session: _,
            at: _,
            statement: _,
        } = self;
        line
    }
}

// A line that was read, if one is kept, with what it says.
#[derive(Drop)]
struct EarlierLine {
    kept: Option<Earlier>,
}

impl Model for EarlierLine {
    ghost use Rattle.std.specs.Prelude.{◌≡◌, Option, Some, IfSome};
    ghost use Rattle.script_text.specs.Line.{line_of};
    ghost use Rattle.script_text.specs.Readable.{IsReadable};
    ghost use Rattle.script_text.specs.declared.earlier.Earlier.{Earlier};
    ghost use Rattle.script_text.specs.declared.line.Line.TheVariants.{Asked};

    ghost Value = { Option Earlier };

    ghost view = { λ l. l.kept };

    ghost invariant = { λ l. IfSome l.kept (λ e.
        (line_of e.line.items ≡ Some (Asked e.session e.statement)) × IsReadable e.statement) };
}

impl EarlierLine {
    // What is kept, where its line is the same.
    fn same(&self, line: &[u8]) -> Option<&Earlier>
        ensures { IfSome result (λ e. (line_of line.now ≡ Some (Asked e.now.session e.now.statement))
            × IsReadable e.now.statement) }
    {
        let earlier = self.kept.as_ref()?;
        if earlier.line.as_slice() == line {
            Some(earlier)
        } else {
            None
        }
    }

    // Keeps the line in place of the one that was kept. At want of memory none is kept.
    fn keep(
        &mut self,
        alloc: Global,
        line: &[u8],
        session: Name,
        at: usize,
        statement: Shared<Statement>,
    ) -> Result<(), AllocError>
        requires said { line_of line.now ≡ Some (Asked session statement) }
        requires readable { IsReadable statement }
    {
        let mut bytes = match self.kept.take() {
            Some(earlier) => earlier.into_line(),
            None => Vec::new(alloc),
        };
        bytes.clear();
        bytes.extend_from_slice(line)?;
        self.kept = Some(Earlier {
            line: bytes,
            session,
            at,
            statement,
        });
        Ok(())
    }
}

/// How many lines are kept at most.
const PLACES: usize = 4096;

/// What mixes a sum. It is odd, so that sums that differ stay so, and its bits follow no pattern.
const FACTOR: u64 = 0x9E37_79B9_7F4A_7C15;

/// A sum of bytes of twelve bits, the same for the same ones. They are taken eight at a time.
pub fn sum_of(bytes: &[u8]) -> u64 {
    let mut sum = bytes.len() as u64;
    let mut rest = bytes;
    while let Some((first, behind)) = rest.split_first_chunk::<8>() {
        sum = (sum ^ u64::from_le_bytes(*first)).wrapping_mul(FACTOR);
        rest = behind;
    }
    for byte in rest {
        sum = sum.wrapping_mul(31).wrapping_add(u64::from(*byte));
    }
    sum.wrapping_mul(FACTOR) >> 52
}

// Where a line is kept, if it is: lines that are the same have the same place.
fn place_of(line: &[u8]) -> usize {
    sum_of(line) as usize % PLACES
}

/// Lines that were read, of those that scripts mostly say again and again: the last one of each place.
#[derive(Drop)]
pub struct EarlierLines {
    places: Vec<EarlierLine>,
    enqueues: EarlierEnqueues,
}

impl EarlierLines {
    /// None yet. Where there is no memory for all places there are fewer of them, or none.
    pub fn new(alloc: Global) -> EarlierLines {
        let mut places = Vec::new(alloc);
        let _ = places.reserve(PLACES);
        for _ in 0..PLACES {
            if places.push(EarlierLine { kept: None }).is_err() {
                break;
            }
        }
        EarlierLines {
            places,
            enqueues: EarlierEnqueues::new(alloc),
        }
    }

    /// What is kept of a line that is the same, if one is.
    pub fn same(&self, line: &[u8]) -> Option<&Earlier>
        ensures { IfSome result (λ e. (line_of line.now ≡ Some (Asked e.now.session e.now.statement))
            × IsReadable e.now.statement) }
    {
        self.places.get(place_of(line))?.same(line)
    }

    /// An enqueue of which a line may be the same but for the payload, if one is kept.
    pub fn near(&self, line: &[u8]) -> Option<&EarlierEnqueue>
        ensures { IfSome result (λ e. IsEarlierEnqueue e.now) }
    {
        self.enqueues.near(line)
    }

    /// Keeps a line that was read, where the same lines mostly come again, or such that are the same but for the payload.
    #[tactic(auto, unfolding(queue_rows::specs::Within::is_within))]
    pub fn note(
        &mut self,
        alloc: Global,
        line: &[u8],
        session: Name,
        at: usize,
        statement: &Shared<Statement>,
    ) -> Result<(), AllocError>
        requires said { line_of line.now ≡ Some (Asked session statement.now) }
        requires readable { IsReadable statement.now }
    {
        if let Statement::Enqueue(ask) = &**statement {
            return self.enqueues.note(alloc, line, session, at, ask);
        }
        if !is_repeated(statement) {
            return Ok(());
        }
        let statement = statement.copied()?;
        match self.places.get_mut(place_of(line)) {
            Some(place) => place.keep(alloc, line, session, at, statement),
            None => Ok(()),
        }
    }
}
