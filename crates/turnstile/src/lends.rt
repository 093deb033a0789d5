//! The value of a turn. Its clause names the row of `Turn`, which the file that declares `Turn` cannot import.
ghost use Rattle.std.specs.Prelude.{◌≡◌, []};
ghost use Rattle.std.specs.Borrow.{sem, follows};
ghost use mir.Syntax.{named};
ghost use Rattle.turnstile.specs.contracts.turn.Turn.{the_row};
ghost use Rattle.turnstile.specs.Written.{with_value};

use crate::grows::Grows;
use crate::turn::Turn;

impl<'a, W: Grows> Turn<'a, W> {
    /// The value. When the borrow ends, the turn has what was written through it.
    pub fn value(&mut self) -> &mut W
        ensures* writes_back { sem 𝓛 (follows
            (the_row (record { mir = named 1; lft = [] }) W.row W.Opening.row W.Entry.row
            (record { opening = W.opening; entries = W.entries; actor = W.actor }))
            W.row self.entry.ghost_name result.ghost_name (with_value self.old)) }
        ensures value { result.now ≡ self.old.value }
    {
        &mut self.value
    }
}
