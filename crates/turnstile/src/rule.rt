//! The rule of the table under a turnstile, and its kinds of step. No value of these types but `Start` is made.
use crate::grows::Grows;
use atomic_table::{Join, Play, Split, TableRule};
use std::collections::LinkedList;
use std::marker::{Brand, PhantomData};
use std::snapshot::Snapshot;

/// What a pass knows, and where its turn stands.
pub struct View<O, E> {
    /// The number under which the pass enters.
    pub actor: u32,
    /// It is the pass that `new` gave.
    pub first: bool,
    /// The turn is this pass's.
    pub holds: bool,
    /// The value is out with it.
    pub out: bool,
    /// The opening of the value at the start. Nothing once the pass was joined.
    pub opening: Option<O>,
    /// The entries that it knows the value's list begins with.
    pub seen: LinkedList<E>,
    /// What a pass had seen that was joined just now.
    pub told: LinkedList<E>,
    /// The entries that it has made, in their order.
    pub own: LinkedList<E>,
    /// The entries of a value that is at home, while the turn is this pass's.
    pub home: LinkedList<E>,
    /// Of the first pass: the numbers of the passes that it has made.
    pub made: LinkedList<u32>,
    /// Of the first pass: each number that it has joined, with that pass's own entries.
    pub joined: LinkedList<(u32, LinkedList<E>)>,
}

/// What the rule is told once: the value at the start, and the first pass's number.
pub struct Start<W> {
    /// The value at the start.
    pub value: Snapshot<W>,
    /// The first pass's number.
    pub actor: u32,
}

impl<W> Drop for Start<W> {
    fn drop(self) {
        let Self { value: _, actor: _ } = self;
    }
}

/// The fact about the word, the slot and all views that each step keeps.
pub struct Law<W> {
    of: PhantomData<W>,
}

impl<W: Grows> TableRule<Option<W>, View<W::Opening, W::Entry>, Start<W>> for Law<W> {
    ghost use Rattle.turnstile.specs.Rule.{Kept};
    ghost use Rattle.turnstile.specs.Views.{first_view};

    ghost holds = { λ start. Kept W.opening W.entries W.actor (W.opening start.value.value) };

    ghost first = { λ start. first_view start.actor (W.opening start.value.value) };
}

/// Takes the turn, or finds that it is another's.
pub struct Take<W> {
    of: PhantomData<W>,
}

impl<W: Grows> Play<Option<W>, View<W::Opening, W::Entry>> for Take<W> {
    ghost use Rattle.turnstile.specs.Steps.{took};

    ghost then = { took W.opening W.entries W.actor };
}

/// Takes the value out.
pub struct TakeOut<W> {
    of: PhantomData<W>,
}

impl<W: Grows> Play<Option<W>, View<W::Opening, W::Entry>> for TakeOut<W> {
    ghost use Rattle.turnstile.specs.Steps.{went_out};

    ghost then = { went_out W.opening W.entries W.actor };
}

/// Says which entries the value has that comes home.
pub struct Announce<W> {
    of: PhantomData<W>,
}

impl<W: Grows> Play<Option<W>, View<W::Opening, W::Entry>> for Announce<W> {
    ghost use Rattle.turnstile.specs.Steps.{told_home};

    ghost then = { told_home W.opening W.entries W.actor };
}

/// Puts the value in.
pub struct PutIn<W> {
    of: PhantomData<W>,
}

impl<W: Grows> Play<Option<W>, View<W::Opening, W::Entry>> for PutIn<W> {
    ghost use Rattle.turnstile.specs.Steps.{came_in};

    ghost then = { came_in W.opening W.entries W.actor };
}

/// Gives the turn up.
pub struct Release<W> {
    of: PhantomData<W>,
}

impl<W: Grows> Play<Option<W>, View<W::Opening, W::Entry>> for Release<W> {
    ghost use Rattle.turnstile.specs.Steps.{released};

    ghost then = { released W.opening W.entries W.actor };
}

/// Learns which of two lists is the longer, and that the other begins it.
pub struct Learn<W> {
    of: PhantomData<W>,
}

impl<W: Grows> Play<Option<W>, View<W::Opening, W::Entry>> for Learn<W> {
    ghost use Rattle.turnstile.specs.Steps.{learned};

    ghost then = { learned W.opening W.entries W.actor };
}

/// A number that a call picks, since a split has no parameter of its own.
pub trait Number {
    ghost use Rattle.std.specs.Prelude.{ℕ};

    ghost number: { ℕ };
}

impl Number for Brand {
    ghost number = { 0 };
}

/// Makes a pass with this number.
pub struct Cut<N> {
    number: PhantomData<N>,
}

impl<O, E, N: Number> Split<View<O, E>> for Cut<N> {
    ghost use Rattle.turnstile.specs.Views.{with_made, new_view};

    ghost left = { λ v. with_made v N.number };

    ghost right = { λ v. new_view v N.number };
}

/// Takes a pass back.
pub struct Merge;

impl<O, E> Join<View<O, E>> for Merge {
    ghost use Rattle.turnstile.specs.Views.{with_joined, spent_view};

    ghost both = { with_joined };

    ghost spent = { spent_view };
}
