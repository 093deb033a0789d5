// The two counts of a disk.
ghost use Rattle.std.specs.Prelude.{◌≡◌, ◌<◌, ◌≤◌, ◌-◌, ◌^◌, OnOk, OnErr};
ghost use Rattle.aq_disk.specs.Causes.{HasCause, Rose};
ghost use Rattle.aq_disk.specs.Disk.{next_call};

use crate::Failed;

/// How many calls were made, and how many of them failed.
#[derive(Clone, Copy)]
pub struct Counts {
    pub calls: u64,
    pub faults: u64,
}

impl Counts {
    pub const ZERO: Counts = Counts {
        calls: 0,
        faults: 0,
    };

    /// Takes the next number. Past the last there is none, which is a fault.
    pub fn next(&mut self) -> Result<(), Failed>
        ensures number { self.new.calls ≡ next_call self.old.calls }
        ensures ok { OnOk result (self.old.calls < self.new.calls) }
        ensures at_end { OnErr result (self.old.calls ≡ 2 ^ 64 - 1) }
        ensures cause { HasCause self.old.faults self.new.faults result }
    {
        if self.calls == u64::MAX {
            return Err(self.fail());
        }
        self.calls += 1;
        Ok(())
    }

    /// Counts a fault.
    pub fn fail(&mut self) -> Failed
        ensures number { self.new.calls ≡ self.old.calls }
        ensures later { self.old.faults ≤ self.new.faults }
        ensures rose { Rose self.old.faults self.new.faults }
    {
        self.faults = self.faults.saturating_add(1);
        Failed
    }
}
