// Numbers of seconds, and moments.
ghost use Rattle.std.specs.Prelude.{◌≡◌, IfOk, IsErrOf, Some, None, nat_le, true};
ghost use Rattle.serde_json.specs.View.{view};
ghost use Rattle.aq_base.specs.declared.limits.TheConstants.{MOMENT_LIMIT};
ghost use Rattle.queue_rows.specs.Within.{if_some, is_time, is_span, is_wait};
ghost use Rattle.script_text.specs.Statement.{seconds_at, span_at, start_at, latency_at, wait_at};

use crate::fault::LineFault;
use crate::member::{given_at, number_between};
use aq_base::{MOMENT_LIMIT, TIME_LIMIT, WAIT_LIMIT};
use serde_json::Value;

/// The seconds between two moments of sending where nothing is said.
const DEFAULT_LATENCY: u64 = 60;

/// Some seconds, none where nothing is said.
pub fn seconds_at(value: &Value, key: &str) -> Result<u64, LineFault>
    ensures ok { IfOk result (λ n. seconds_at key.now (view value.now) ≡ Some n) }
    ensures within { IfOk result (λ n. is_time n ≡ true) }
    ensures bad { IsErrOf result LineFault.Bad → seconds_at key.now (view value.now) ≡ None }
{
    match given_at(value, key) {
        Some(member) => number_between(0, TIME_LIMIT, member).ok_or(LineFault::Bad),
        None => Ok(0),
    }
}

/// Some seconds, but not 0, where they are given.
pub fn span_at(value: &Value, key: &str) -> Result<Option<u64>, LineFault>
    ensures ok { IfOk result (λ n. span_at key.now (view value.now) ≡ Some n) }
    ensures within { IfOk result (λ n. if_some is_span n ≡ true) }
    ensures bad { IsErrOf result LineFault.Bad → span_at key.now (view value.now) ≡ None }
{
    match given_at(value, key) {
        Some(member) => Ok(Some(number_between(1, TIME_LIMIT, member).ok_or(LineFault::Bad)?)),
        None => Ok(None),
    }
}

/// The moment at which a schedule begins, where it is given.
pub fn start_at(value: &Value) -> Result<Option<u64>, LineFault>
    ensures ok { IfOk result (λ n. start_at (view value.now) ≡ Some n) }
    ensures within { IfOk result (λ n. if_some (λ moment. nat_le moment MOMENT_LIMIT) n ≡ true) }
    ensures bad { IsErrOf result LineFault.Bad → start_at (view value.now) ≡ None }
{
    match given_at(value, "start") {
        Some(member) => Ok(Some(number_between(0, MOMENT_LIMIT, member).ok_or(LineFault::Bad)?)),
        None => Ok(None),
    }
}

/// The seconds between two moments at which a schedule sends.
pub fn latency_at(value: &Value) -> Result<u64, LineFault>
    ensures ok { IfOk result (λ n. latency_at (view value.now) ≡ Some n) }
    ensures within { IfOk result (λ n. is_time n ≡ true) }
    ensures bad { IsErrOf result LineFault.Bad → latency_at (view value.now) ≡ None }
{
    match given_at(value, "latency") {
        Some(member) => number_between(0, TIME_LIMIT, member).ok_or(LineFault::Bad),
        None => Ok(DEFAULT_LATENCY),
    }
}

/// The seconds that a statement waits, none where nothing is said.
pub fn wait_at(value: &Value) -> Result<u64, LineFault>
    ensures ok { IfOk result (λ n. wait_at (view value.now) ≡ Some n) }
    ensures within { IfOk result (λ n. is_wait n ≡ true) }
    ensures bad { IsErrOf result LineFault.Bad → wait_at (view value.now) ≡ None }
{
    match given_at(value, "wait") {
        Some(member) => number_between(0, WAIT_LIMIT, member).ok_or(LineFault::Bad),
        None => Ok(0),
    }
}
