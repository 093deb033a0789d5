// The steps of a run that make its commits durable. They take no memory.
ghost use Rattle.std.specs.Prelude.{◌≡◌, IsOk, IsSome, OnOk, OnErr, true, false};
ghost use Rattle.queue_rows.specs.Turns.{flushed, is_durable, told};
ghost use Rattle.session_registry.specs.Sessions.{IsAbsent, OfSession};
ghost use Rattle.durable_state.specs.Going.{AddsEntries, Goes};
ghost use Rattle.durable_state.specs.Held.{HasFailed};
ghost use Rattle.durable_state.specs.Writing.{WritesHomeFirst};

use crate::broken::Halted;
use crate::durable_state::DurableState;
use aq_disk::Disk;

impl<D: Disk> DurableState<D> {
    /// Whether a call on a disk has failed, so that nothing can be made durable any more.
    pub fn has_failed(&self) -> bool
        ensures failed { result ≡ true → HasFailed self.now }
        ensures fine { result ≡ false → HasFailed self.now → ⊥ }
    {
        self.logs.has_failed()
    }

    /// Makes each commit durable, where one is not: all that is queued is written at home, and then at away. Where a call on a disk failed,
    /// now or before, nothing is durable that was not, and from then on nothing can be made so.
    pub fn flush(&mut self, actor: u32) -> Result<(), Halted>
        ensures ok { OnOk result (self.new.world ≡ flushed actor self.old.world) }
        ensures err { OnErr result (self.new.world ≡ self.old.world) }
        ensures adds { AddsEntries actor self.old self.new }
        ensures disks { Goes D.seen D.is_image D.calls D.faults self.old self.new }
        ensures halted { OnErr result (HasFailed self.new) }
        ensures unfailed { OnOk result (HasFailed self.new → ⊥) }

        // Where none had failed before, home is written first; and what fails is due, since a commit is not durable.
        ensures order { (HasFailed self.old → ⊥)
            → WritesHomeFirst self.old.away self.new.home self.new.away }
        ensures due { OnErr result ((HasFailed self.old → ⊥) → is_durable self.old.world ≡ false) }
    {
        if self.logs.has_failed() {
            return Err(Halted);
        }
        if self.state.is_durable() {
            return Ok(());
        }
        self.logs.append()?;
        self.state.flush(actor);
        self.logs.count();
        Ok(())
    }

    /// Tells the session of that number, which was not told yet, the reply to its statement, once every commit is durable. Where a call on
    /// a disk failed, it is not told.
    pub fn tell(&mut self, at: u32, number: u32) -> Result<(), Halted>
        requires { OfSession at self.old.world (λ s. IsSome s.untold) }
        ensures ok { OnOk result (OfSession at self.old.world (λ s.
            self.new.world ≡ told at s number self.old.world)) }
        ensures absent { IsAbsent at self.old.world → IsOk result × (self.new ≡ self.old) }
        ensures err { OnErr result (self.new.world ≡ self.old.world) }
        ensures adds { AddsEntries at self.old self.new }
        ensures disks { Goes D.seen D.is_image D.calls D.faults self.old self.new }
        ensures halted { OnErr result (HasFailed self.new) }
        ensures fine { OnOk result (HasFailed self.new → HasFailed self.old) }
        ensures order { (HasFailed self.old → ⊥)
            → WritesHomeFirst self.old.away self.new.home self.new.away }
    {
        let Some(_) = self.state.session(at) else {
            return Ok(());
        };
        self.flush(at)?;
        self.state.tell(at, number);
        self.logs.pass();
        Ok(())
    }
}
