//! The smallest value that a turnstile can hold, and a run in which threads add to it.
ghost use Rattle.std.specs.Prelude.{◌≡◌, ℕ, List, [], ◌∷◌, ◌++◌, OnOk, OnErr};
ghost use Rattle.turnstile.specs.Passes.{known, IsPassOf};
ghost use Rattle.turnstile.specs.Counting.{Adds, numbered};

#[cfg(test)]
mod tests;
mod workers;

use crate::grows::Grows;
use crate::lock::Turnstile;
use crate::pass::Pass;
use std::alloc::{AllocError, Global};
use std::hint::spin_loop;
use std::sync::Wait;
pub use workers::gathered;

/// A list to which each actor adds numbers.
#[derive(Drop)]
pub struct NumberLog {
    /// How long an addition takes, in pauses of the processor. It stays as it was at the start.
    pub effort: u32,
    /// The actor and the number of each entry, in the order in which they were added.
    pub pairs: Vec<(u32, u32)>,
}

impl Grows for NumberLog {
    type Opening = u32;

    type Entry = (u32, u32);

    ghost opening = { λ t. t.effort };

    ghost entries = { λ t. t.pairs.items };

    ghost actor = { λ e. e.0 };
}

impl NumberLog {
    /// An empty list.
    pub fn new(alloc: Global, effort: u32) -> NumberLog
        ensures effort { result.effort ≡ effort }
        ensures empty { result.pairs.items ≡ [] }
    {
        NumberLog {
            effort,
            pairs: Vec::new(alloc),
        }
    }

    /// Adds one number of an actor. The error is want of memory, and then nothing is added.
    pub fn add(&mut self, actor: u32, number: u32) -> Result<(), AllocError>
        ensures effort { self.new.effort ≡ self.old.effort }
        ensures ok { OnOk result (self.new.pairs.items ≡ self.old.pairs.items ++ (actor, number) ∷ []) }
        ensures err { OnErr result (self.new.pairs.items ≡ self.old.pairs.items) }
    {
        for _ in 0..self.effort {
            spin_loop();
        }
        self.pairs.push((actor, number))?;
        Ok(())
    }
}

/// Takes one turn and adds one number under the pass's own. The error is want of memory, and then nothing is added.
pub fn add<R: Wait>(
    rt: &R,
    turnstile: &Turnstile<NumberLog>,
    pass: &mut Pass<NumberLog>,
    actor: u32,
    number: u32,
) -> Result<(), AllocError>
    requires pass { IsPassOf turnstile.now pass.old }
    requires actor { (known pass.old).actor ≡ actor }
    ensures pass { IsPassOf turnstile.now pass.new }
    ensures ok { OnOk result (Adds (known pass.old) (known pass.new) ((actor, number) ∷ [])) }
    ensures err { OnErr result (Adds (known pass.old) (known pass.new) []) }
{
    let mut turn = turnstile.enter(rt, pass);
    let log = turn.value();
    let added = log.add(actor, number);
    turn.leave();
    added
}

/// Adds the numbers below `turns` in order, in a turn each. The error is want of memory, and then those before it were added.
pub fn count<R: Wait>(
    rt: &R,
    turnstile: &Turnstile<NumberLog>,
    pass: &mut Pass<NumberLog>,
    actor: u32,
    turns: u32,
) -> Result<(), AllocError>
    requires pass { IsPassOf turnstile.now pass.old }
    requires actor { (known pass.old).actor ≡ actor }
    ensures pass { IsPassOf turnstile.now pass.new }
    ensures same { ((known pass.new).actor ≡ actor)
        × ((known pass.new).first ≡ (known pass.old).first)
        × ((known pass.new).made ≡ (known pass.old).made)
        × ((known pass.new).joined ≡ (known pass.old).joined) }
    ensures ok { OnOk result ((known pass.new).own ≡ (known pass.old).own ++ numbered actor turns) }
    ensures err { OnErr result
        ((added : ℕ) × ((known pass.new).own ≡ (known pass.old).own ++ numbered actor added)) }
{
    for number in 0..turns {
        add(rt, turnstile, pass, actor, number)?;
    }
    Ok(())
}
