// When a schedule sends, and what a failure makes of it.
ghost use Rattle.std.specs.Prelude.{◌≡◌, ◌≤◌, ◌%◌, ◌^◌, min, IfOk};
ghost use Rattle.queue_rows.specs.Propagating.{into_period, lasts, is_open_at, is_last_failure, delayed};

use payload_records::Copied;
use queue_rows::ScheduleRow;
use std::alloc::AllocError;

/// So many failures in a row disable a schedule.
const FAILURE_LIMIT: u64 = 16;
/// From so many failures on the delay no longer grows.
const DELAY_LIMIT: u64 = 10;

fn remainder(number: u64, divisor: u64) -> u64
    ensures { result ≡ number % divisor }
{
    if divisor == 0 {
        number
    } else {
        number % divisor
    }
}

fn into_period(schedule: &ScheduleRow, moment: u64) -> u64
    ensures { result ≡ into_period schedule.now schedule.now.period moment }
{
    let elapsed = moment.saturating_sub(schedule.start);
    match schedule.period {
        Some(period) => remainder(elapsed, period),
        None => elapsed,
    }
}

fn lasts(schedule: &ScheduleRow, moment: u64) -> bool
    ensures { result ≡ lasts schedule.now moment }
{
    match schedule.duration {
        Some(duration) => into_period(schedule, moment) < duration,
        None => true,
    }
}

/// Whether the schedule is enabled, has begun, does not wait after a failure, and its duration has not passed.
pub(crate) fn is_open_at(schedule: &ScheduleRow, moment: u64) -> bool
    ensures { result ≡ is_open_at moment schedule.now }
{
    schedule.enabled
        && schedule.start <= moment
        && schedule.next <= moment
        && lasts(schedule, moment)
}

/// Whether one more failure disables the schedule.
pub(crate) fn is_last_failure(schedule: &ScheduleRow) -> bool
    requires { schedule.now.failures ≤ 15 }
    ensures { result ≡ is_last_failure schedule.now }
{
    schedule.failures + 1 == FAILURE_LIMIT
}

// For how long nothing is sent after so many failures, in seconds.
#[tactic(auto, using(crate::proofs::Delays::short))]
fn delay(failures: u64) -> u64
    ensures delay { result ≡ 2 ^ min failures 10 }
    ensures bound { result ≤ 1024 }
{
    2_u64.pow(failures.min(DELAY_LIMIT) as u32)
}

/// The schedule after one more failure: it waits, and the last failure disables it.
pub(crate) fn delayed(schedule: &ScheduleRow, moment: u64) -> Result<ScheduleRow, AllocError>
    requires failures { schedule.now.failures ≤ 15 }
    requires moment { moment ≤ 2 ^ 62 }
    ensures { IfOk result (λ row. row ≡ delayed schedule.now moment) }
{
    let mut row = schedule.copied()?;
    row.failures = schedule.failures + 1;
    row.next = moment + delay(row.failures);
    row.enabled = schedule.enabled && !is_last_failure(schedule);
    Ok(row)
}
