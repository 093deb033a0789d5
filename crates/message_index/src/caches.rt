// The indexes beside the messages that are let go where they find no memory.
ghost use Rattle.std.specs.Prelude.{[]};
ghost use Rattle.message_index.specs.Caches.{AreOf};

use crate::due_cache::DueCache;
use crate::ready_cache::ReadyCache;
use crate::remote_cache::RemoteCache;
use std::alloc::Global;

/// The indexes of ready slots, of those that go to the other database, and of what is due, each where it is kept.
pub struct Caches {
    /// The index of ready slots.
    pub ready: ReadyCache,
    /// The index of ready slots that go to the other database.
    pub remote: RemoteCache,
    /// The index of what is due.
    pub due: DueCache,
}

impl Drop for Caches {
    fn drop(self) {
        let Self {
            ready: _,
            remote: _,
            due: _,
        } = self;
    }
}

impl Caches {
    /// Those of no messages. It takes no memory.
    pub fn new(alloc: Global) -> Caches
        ensures { AreOf [] [] result }
    {
        Caches {
            ready: ReadyCache::new(alloc),
            remote: RemoteCache::new(alloc),
            due: DueCache::new(alloc),
        }
    }
}
