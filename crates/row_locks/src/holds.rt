// How many marks of all sessions are of each group, and who has them.
ghost use Rattle.std.specs.Prelude.{◌≡◌, ◌<◌, ◌≤◌, ◌+◌, ◌/◌, ℕ, Some, None, IsSome, OnOk, true, nat_eq, if◌then◌else◌};
ghost use Rattle.std.specs.Option.{option_map};
ghost use Rattle.row_locks.specs.Changes.{SameValues};
ghost use Rattle.row_locks.specs.Groups.{hold_at, block_hold, block_of, hold_in, key_hold, hold_room, held_count, counted_out, SetsHold, CountsIn, CountsOut};

use crate::groups::GroupKey;
use crate::hashing::NumberHasher;
use std::alloc::{AllocError, Global};
use std::collections::HashMap;
use std::hash::BuildHasherDefault;

/// How many neighbouring numbers stand together.
const BLOCK: u64 = 16;

/// The marks of all sessions with one key.
#[derive(Clone, Copy, Debug, PartialEq, Eq)]
pub(crate) struct GroupHold {
    /// The session that took the last one.
    pub(crate) session: u32,
    /// How many there are.
    pub(crate) count: usize,
}

/// The marks with sixteen neighbouring numbers and the same names. The sessions stand apart, since a look needs them alone.
#[derive(Clone, Copy)]
pub(crate) struct GroupBlock {
    /// The sessions, where there are marks.
    sessions: [Option<u32>; 16],
    /// How many marks there are, where there are any.
    counts: [usize; 16],
}

/// The marks of all sessions by the keys of their groups. Those of sixteen neighbouring numbers with the same names stand
/// together, since sessions mostly touch groups in the order of their numbers.
#[derive(Drop)]
pub(crate) struct GroupHolds {
    blocks: HashMap<(u64, u64), GroupBlock, BuildHasherDefault<NumberHasher>>,
}

impl GroupHolds {
    /// No marks, and no room. It takes no memory.
    pub(crate) fn new(alloc: Global) -> GroupHolds
        ensures { (number names : ℕ) → hold_in result number names ≡ None }
    {
        GroupHolds {
            blocks: HashMap::with_hasher(alloc, BuildHasherDefault::new()),
        }
    }

    /// Makes room for so many marks.
    pub(crate) fn reserve(&mut self, marks: usize) -> Result<(), AllocError>
        ensures holds { SameValues (hold_in self.old) (hold_in self.new) }
        ensures ok { OnOk result (marks ≤ hold_room self.new) }
        ensures room { hold_room self.old ≤ hold_room self.new }
    {
        self.blocks.reserve(marks)
    }

    /// The session that took the last mark with a key.
    pub(crate) fn session_of(&self, key: GroupKey) -> Option<u32>
        ensures { result ≡ option_map (λ it. it.session) (key_hold self.now key) }
    {
        match self.blocks.get(&(key.number / BLOCK, key.names)) {
            None => None,
            Some(block) => block.sessions[(key.number % BLOCK) as usize],
        }
    }

    /// Counts one more mark of a session, where there is room.
    pub(crate) fn count_in(&mut self, key: GroupKey, session: u32)
        requires room { 0 < hold_room self.old }
        requires fits { held_count (key_hold self.old key) < usize.MAX }
        ensures holds { CountsIn self.old self.new key session }
        ensures room { hold_room self.old ≤ hold_room self.new + 1 }
    {
        let hold = GroupHold {
            session,
            count: self.count(key) + 1,
        };
        if !self.blocks.contains_key(&(key.number / BLOCK, key.names)) {
            self.begin(key);
        }
        self.write(key, Some(hold));
    }

    /// Counts one mark less. It takes no memory.
    pub(crate) fn count_out(&mut self, key: GroupKey)
        ensures holds { CountsOut self.old self.new key }
        ensures room { hold_room self.old ≤ hold_room self.new }
    {
        let left = counted_out(self.find(key));
        if self.blocks.contains_key(&(key.number / BLOCK, key.names)) {
            self.write(key, left);
            self.end_empty(key);
        }
    }

    fn find(&self, key: GroupKey) -> Option<GroupHold>
        ensures { result ≡ key_hold self.now key }
    {
        match self.blocks.get(&(key.number / BLOCK, key.names)) {
            None => None,
            Some(block) => hold_at(block, (key.number % BLOCK) as usize),
        }
    }

    fn count(&self, key: GroupKey) -> usize
        ensures { result ≡ held_count (key_hold self.now key) }
    {
        match self.find(key) {
            None => 0,
            Some(hold) => hold.count,
        }
    }

    fn begin(&mut self, key: GroupKey)
        requires room { 0 < hold_room self.old }
        requires absent { block_of self.old key ≡ None }
        ensures there { IsSome (block_of self.new key) }
        ensures holds { SameValues (hold_in self.old) (hold_in self.new) }
        ensures room { hold_room self.old ≤ hold_room self.new + 1 }
    {
        let blank = GroupBlock {
            sessions: [None; 16],
            counts: [0; 16],
        };
        let Ok(_) = self.blocks.insert((key.number / BLOCK, key.names), blank) else {
            unreachable!()
        };
    }

    fn write(&mut self, key: GroupKey, hold: Option<GroupHold>)
        requires there { IsSome (block_of self.old key) }
        ensures holds { SetsHold self.old self.new key hold }
        ensures room { hold_room self.new ≡ hold_room self.old }
    {
        if let Some(block) = self.blocks.get_mut(&(key.number / BLOCK, key.names)) {
            set_hold(block, (key.number % BLOCK) as usize, hold);
        }
    }

    fn end_empty(&mut self, key: GroupKey)
        ensures holds { SameValues (hold_in self.old) (hold_in self.new) }
        ensures room { hold_room self.old ≤ hold_room self.new }
    {
        if self.is_empty_block(key) {
            self.blocks.remove(&(key.number / BLOCK, key.names));
        }
    }

    fn is_empty_block(&self, key: GroupKey) -> bool
        ensures { result ≡ true → (at : ℕ) → block_hold (block_of self.now key) at ≡ None }
    {
        match self.blocks.get(&(key.number / BLOCK, key.names)) {
            None => false,
            Some(block) => block.sessions.iter().all(|session| session.is_none()),
        }
    }
}

fn counted_out(hold: Option<GroupHold>) -> Option<GroupHold>
    ensures { result ≡ counted_out hold }
{
    let hold = hold?;
    let count = hold.count.saturating_sub(1);
    if count == 0 {
        return None;
    }
    Some(GroupHold {
        session: hold.session,
        count,
    })
}

fn hold_at(block: &GroupBlock, at: usize) -> Option<GroupHold>
    requires { at < 16 }
    ensures { result ≡ hold_at block.now at }
{
    match block.sessions[at] {
        None => None,
        Some(session) => Some(GroupHold {
            session,
            count: block.counts[at],
        }),
    }
}

fn set_hold(block: &mut GroupBlock, at: usize, hold: Option<GroupHold>)
    requires { at < 16 }
    ensures { (n : ℕ) → hold_at block.new n ≡ (if nat_eq at n then hold else hold_at block.old n) }
{
    match hold {
        None => {
            block.sessions[at] = None;
        }
        Some(hold) => {
            block.sessions[at] = Some(hold.session);
            block.counts[at] = hold.count;
        }
    }
}
