// Entries get the call numbers of the disks behind them.
ghost use Rattle.std.specs.Prelude.{◌≡◌};
ghost use Rattle.durable_state.specs.Counted.{counted, counted_at};

use crate::disk_calls::DiskCalls;
use payload_records::List;
use queue_rows::Entry;
use run_state::ReservedList;

fn set_calls(entries: &mut List<Entry>, at: usize, numbers: DiskCalls)
    ensures { entries.new ≡ counted_at at numbers entries.old }
{
    if let Some(entry) = entries.get_mut(at) {
        entry.home_calls = numbers.home;
        entry.away_calls = numbers.away;
    }
}

/// Puts into each entry the call numbers behind it. It takes no memory.
pub(crate) fn set_all_calls(entries: &mut List<Entry>, calls: &ReservedList<DiskCalls>)
    ensures { entries.new ≡ counted entries.old calls.now.items }
{
    for at in 0..calls.len() {
        if let Some(numbers) = calls.get(at) {
            set_calls(entries, at, *numbers);
        }
    }
}
