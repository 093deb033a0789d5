// A clock that gives the readings of a list.
ghost use Rattle.std.specs.Prelude.{◌≡◌, Some, []};
ghost use Rattle.aq_clock.specs.Clock.{list_reading, told, told_as_planned};

use crate::Clock;

/// A clock that gives the readings of a list in order. Past the list each reading is one above that before it, up
/// to 2^64 - 1, and an empty list counts as one that ended with 0.
#[derive(Drop)]
pub struct ListClock {
    list: Vec<u64>,
    taken: u64,
}

impl ListClock {
    /// A clock that has given no reading yet.
    pub fn of(list: Vec<u64>) -> ListClock
        ensures given { ⟦<ListClock as Clock>⟧.given result ≡ Some [] }
        ensures plan { ⟦<ListClock as Clock>⟧.plan result ≡ Some (list_reading list.items) }
    {
        ListClock { list, taken: 0 }
    }
}

impl Clock for ListClock {
    ghost given = { λ c. told (list_reading c.list.items) c.taken };

    ghost plan = { λ c. Some (list_reading c.list.items) };

    ghost as_planned = { λ c readings rule given plan.
        told_as_planned (list_reading c.list.items) c.taken readings rule given plan };

    fn now(&mut self) -> u64 {
        let reading = reading_at(&self.list, self.taken);
        self.taken = self.taken.saturating_add(1);
        reading
    }
}

// The reading of a number, counted from 0.
fn reading_at(list: &[u64], number: u64) -> u64
    ensures { result ≡ list_reading list.now number }
{
    let (number, count) = (number as usize, list.len());
    if number < count {
        return list[number];
    }
    let last = if count == 0 { 0 } else { list[count - 1] };
    last.saturating_add((number - count) as u64)
        .saturating_add(1)
}
