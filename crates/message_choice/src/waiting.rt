// Whether a wait for a message goes on.
ghost use Rattle.std.specs.Prelude.{◌≡◌};
ghost use Rattle.queue_rows.specs.Meaning.{still_waits};
ghost use Rattle.queue_rows.specs.Session.{Session};

use aq_base::MOMENT_LIMIT;

/// Whether a session that waits since that moment, or begins to, goes on waiting for so many seconds: until they have passed, and
/// never at the greatest moment.
pub fn still_waits(parked: Option<u64>, wait: u64, moment: u64) -> bool
    ensures { (s : Session) → s.parked ≡ parked → result ≡ still_waits s wait moment }
{
    if moment >= MOMENT_LIMIT {
        return false;
    }
    match parked {
        Some(since) => moment < since || moment - since < wait,
        None => wait > 0,
    }
}
