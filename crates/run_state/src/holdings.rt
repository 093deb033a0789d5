// What becomes of what a session holds when it calls.
ghost use Rattle.std.specs.Prelude.{◌≡◌, OnOk, IfSome};
ghost use Rattle.run_state.specs.CallEffects.{mark_of, with_marked, with_unmarked};
ghost use Rattle.session_registry.specs.Sessions.{changed_at, HasRoom, IsFreeIn};

use crate::call_effect::Holdings;
use session_registry::SessionRegistry;
use slot_marks::Mark;
use std::alloc::AllocError;

/// Makes room for the mark that the session of that number gets.
pub fn make_room(
    registry: &mut SessionRegistry,
    at: u32,
    holdings: &Holdings,
) -> Result<(), AllocError>
    ensures sessions { registry.new.sessions ≡ registry.old.sessions }
    ensures room { OnOk result (IfSome (mark_of holdings.now) (λ mark. HasRoom at registry.new)) }
{
    match holdings {
        Holdings::Kept { mark: Some(_), .. } => registry.reserve(at),
        _ => Ok(()),
    }
}

/// The session of that number takes the mark, if there is one.
pub fn take(registry: &mut SessionRegistry, at: u32, mark: Option<Mark>)
    requires room { IfSome mark (λ m. HasRoom at registry.old) }
    requires free { IfSome mark (λ m. IsFreeIn at m registry.old.sessions) }
    ensures { registry.new.sessions ≡ changed_at at (with_marked mark) registry.old.sessions }
{
    if let Some(mark) = mark {
        registry.take(at, mark);
    }
}

/// The session of that number loses the mark, if there is one.
pub fn release(registry: &mut SessionRegistry, at: u32, unmark: Option<Mark>)
    ensures { registry.new.sessions ≡ changed_at at (with_unmarked unmark) registry.old.sessions }
{
    if let Some(mark) = unmark {
        registry.release(at, mark.id, mark.slot);
    }
}
