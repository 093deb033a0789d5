//! The time in which a pass has the value.
ghost use Rattle.std.specs.Prelude.{◌≡◌};
ghost use Rattle.turnstile.specs.Passes.{known, IsPassOf, IsTurnOf, after_turn, Grew};

use crate::grows::Grows;
use crate::lock::Turnstile;
use crate::pass::Pass;
use crate::rule::{Announce, PutIn, Release};

/// The value, in the hands of one pass. It is not dropped, so that `leave` has to spend it.
pub struct Turn<'a, W: Grows> {
    pub(crate) pass: &'a mut Pass<W>,
    pub(crate) turnstile: &'a Turnstile<W>,
    pub(crate) value: W,
}

impl<'a, W: Grows> Turn<'a, W> {
    /// Puts the value back and lets the next pass in. The value has to have grown by entries of this pass's actor alone;
    /// the pass has then seen all of its entries, and the new ones are its own.
    pub fn leave(self)
        requires turn { IsTurnOf self.turnstile.now self.pass.now }
        requires grew { Grew W.opening W.entries W.actor (known self.pass.now) self.value }
        ensures pass { IsPassOf self.entry.turnstile.now self.exit.0.now }
        ensures knows { known self.exit.0.now
            ≡ after_turn (known self.entry.pass.now) (W.entries self.entry.value) }
    {
        let Turn {
            pass,
            turnstile,
            value,
        } = self;
        let shared = &turnstile.table.shared;
        let none = shared.exchange(&mut pass.seat, 0, Some(value));
        let None = none else { unreachable!() };
        shared.store::<Announce<W>>(&mut pass.seat, 0, 1);
        shared.load::<PutIn<W>>(&mut pass.seat, 0);
        shared.store::<Release<W>>(&mut pass.seat, 0, 0);
        turnstile.queue.call_next();
    }
}
