//! The lock.
ghost use Rattle.std.specs.Prelude.{◌≡◌, ◌≢◌, [], ◌∷◌, true, false, Contains, IfOk, IfErr, Some};
ghost use mathlib.Core.List.{IsPrefix};
ghost use Rattle.turnstile.specs.Steps.{HasTurn};

use crate::grows::Grows;
use crate::pass::Pass;
use crate::rule::{Cut, Law, Learn, Merge, Number, Start, Take, TakeOut, View};
use crate::ticket_queue::TicketQueue;
use crate::turn::Turn;
use atomic_table::{Refused, Table};
use std::alloc::{AllocFailed, Global};
use std::marker::Brand;
use std::snapshot::Snapshot;
use std::sync::Wait;

/// One value that one pass at a time may replace. It is not dropped: `close` gives the value back.
pub struct Turnstile<W: Grows> {
    pub(crate) table: Table<Option<W>, View<W::Opening, W::Entry>, Start<W>, Law<W>, Global>,
    pub(crate) queue: TicketQueue,
    ghost counts: { (table.shared.table_id.words ≡ 1) × (table.shared.table_id.slots ≡ 1) },
}

/// The value of a table's only slot.
fn only<W>(mut slots: Vec<Option<W>>) -> W
    requires { (x : W) × (slots.items ≡ Some x ∷ []) }
    ensures { slots.items ≡ Some result ∷ [] }
{
    let Some(Some(value)) = slots.pop() else {
        unreachable!()
    };
    slots.destroy_empty();
    value
}

impl<W: Grows> Turnstile<W> {
    ghost use Rattle.turnstile.specs.Passes.{known, IsPassOf, IsTurnOf, first_known, has_made, new_known, in_turn, has_joined, AllJoined, Continues, Closes};

    /// Puts a value with no entries behind a turnstile, and gives the first pass, under this number.
    /// The error is want of memory alone and hands the value back.
    pub fn new(alloc: Global, value: W, actor: u32) -> Result<(Turnstile<W>, Pass<W>), W>
        requires { W.entries value ≡ [] }
        ensures ok { IfOk result
            (λ r. IsPassOf r.0 r.1 × (known r.1 ≡ first_known actor (W.opening value))) }
        ensures err { IfErr result (λ x. x ≡ value) }
    {
        let about = Start {
            value: Snapshot::of(&value),
            actor,
        };
        let mut slots = Vec::new(alloc);
        if let Err(AllocFailed { value }) = slots.push(Some(value)) {
            slots.destroy_empty();
            let Some(value) = value else { unreachable!() };
            return Err(value);
        }
        match Table::new(alloc, &[0], slots, &about) {
            Ok((table, seat)) => {
                let queue = TicketQueue::new();
                Ok((Turnstile { table, queue }, Pass { seat }))
            }
            Err(Refused { slots }) => Err(only(slots)),
        }
    }

    fn split_as<N: Number>(&self, pass: &mut Pass<W>, actor: u32) -> Pass<W>
        requires pass { IsPassOf self.now pass.old }
        requires first { (known pass.old).first ≡ true }
        requires number { ((known pass.old).actor ≢ actor) × (¬ Contains (known pass.old).made actor)
            × (N.number ≡ actor) }
        ensures pass { IsPassOf self.now pass.new × (known pass.new ≡ has_made (known pass.old) actor) }
        ensures new { IsPassOf self.now result × (known result ≡ new_known (known pass.old) actor) }
    {
        let seat = self.table.shared.split_seat::<Cut<N>>(&mut pass.seat);
        Pass { seat }
    }

    /// A new pass under a number of its own, made by the first pass. It has seen what `pass` has seen, and has no entries.
    pub fn split(&self, pass: &mut Pass<W>, actor: u32) -> Pass<W>
        requires pass { IsPassOf self.now pass.old }
        requires first { (known pass.old).first ≡ true }
        requires number { ((known pass.old).actor ≢ actor) × (¬ Contains (known pass.old).made actor) }
        ensures pass { IsPassOf self.now pass.new × (known pass.new ≡ has_made (known pass.old) actor) }
        ensures new { IsPassOf self.now result × (known result ≡ new_known (known pass.old) actor) }
    {
        self.split_as::<Brand>(pass, actor)
    }

    // Waits for the turn.
    fn take<R: Wait>(&self, rt: &R, pass: &mut Pass<W>)
        requires { IsPassOf self.now pass.old }
        ensures same { pass.new.seat.table_id ≡ pass.old.seat.table_id }
        ensures turn { HasTurn W.opening W.entries W.actor pass.old.seat.me pass.new.seat.me }
    {
        let mut ticket = self.queue.draw();
        for _ in rt.forever() {
            self.queue.wait(rt, &mut ticket);
            let shared = &self.table.shared;
            let found = shared.compare_exchange::<Take<W>>(&mut pass.seat, 0, 0, 1);
            if found == 0 {
                return;
            }
            self.queue.sleep(rt, &mut ticket);
        }
        unreachable!()
    }

    /// Waits for the turn of this pass, and takes no memory. Passes that wait are let in mostly in the order in which they came.
    /// The value has the opening given at the start. Its entries begin with all that the pass has seen, and those of its actor are the ones that the pass made.
    pub fn enter<'a, R: Wait>(&'a self, rt: &R, pass: &'a mut Pass<W>) -> Turn<'a, W>
        requires { IsPassOf self.now pass.old }
        // The turn is a turn of this very pass and turnstile.
        ensures same { (result.pass.ghost_name ≡ pass.entry.ghost_name)
            × (result.turnstile.now ≡ self.now) }
        ensures turn { IsTurnOf self.now result.pass.now
            × (known result.pass.now ≡ in_turn (known pass.old) (W.entries result.value)) }
        ensures value { Continues W.opening W.entries W.actor (known pass.old) result.value }
    {
        self.take(rt, pass);
        let shared = &self.table.shared;
        shared.load::<TakeOut<W>>(&mut pass.seat, 0);
        let taken = shared.exchange(&mut pass.seat, 0, None);
        let Some(value) = taken else { unreachable!() };
        Turn {
            pass,
            turnstile: self,
            value,
        }
    }

    /// Takes a pass back: the first pass then knows its number and entries as joined, and has seen the longer of the two lists.
    pub fn join(&self, pass: &mut Pass<W>, other: Pass<W>)
        requires pass { IsPassOf self.now pass.old × ((known pass.old).first ≡ true) }
        requires other { IsPassOf self.now other × ((known other).first ≡ false) }
        ensures pass { IsPassOf self.now pass.new
            × (known pass.new ≡ has_joined (known pass.old) (known other)) }
        ensures this { IsPrefix (known pass.old).seen (known pass.new).seen }
        ensures that { IsPrefix (known other).seen (known pass.new).seen }
    {
        let shared = &self.table.shared;
        let Pass { seat } = other;
        shared.join_seat::<Merge>(&mut pass.seat, seat);
        shared.load::<Learn<W>>(&mut pass.seat, 0);
    }

    /// Gives the value back once all passes were joined. By actor its entries are the first pass's own and each joined pass's own.
    pub fn close(self, pass: Pass<W>) -> W
        requires pass { IsPassOf self pass × ((known pass).first ≡ true) }
        requires joined { AllJoined (known pass) }
        ensures { Closes W.opening W.entries W.actor (known pass) result }
    {
        let Pass { seat } = pass;
        let Turnstile { table, queue: _ } = self;
        let mut closed = table.close_with(seat);
        let slot = closed.take(0);
        closed.free();
        let Some(value) = slot else { unreachable!() };
        value
    }
}
