// What the bytes of a journal say.
ghost use Rattle.std.specs.Prelude.{◌≡◌, ◌≤◌, ◌<◌, ◌+◌, ◌^◌, [], ℕ, length, Some, None, Ok, Err, IfSome, IfNone, IfOk, IfErr, OnOk, OnErr, IsErrOf, option_and_then};
ghost use Rattle.redo_journal.specs.Num.{septets_at, within_64_bits, num_at, split_at, run_at, items_at};
ghost use Rattle.redo_journal.specs.Journal.{bodies_of, frame_at, chain_from};
ghost use Rattle.redo_journal.specs.Reading.{length_at};
ghost use Rattle.redo_journal.specs.declared.read.ReadFault.TheVariants.{Memory};
ghost use Rattle.redo_journal.specs.declared.read.ChainFault.TheVariants.{Memory as NoMemory};
ghost use Rattle.redo_journal.specs.Broken.{IsBrokenAt};

use crate::frame::{Damage, FrameAt};
use payload_records::List;
use std::alloc::{AllocError, AllocFailed, Global};

// The most bytes of a number.
const MOST_SEPTETS: u32 = 10;

/// Why bytes are not read.
#[derive(Clone, Copy)]
pub(crate) enum ReadFault {
    /// They are not as they must be.
    Bad,
    Memory,
}

impl From<AllocError> for ReadFault {
    ghost from_gives = { λ _ e. e ≡ Memory };

    fn from(_: AllocError) -> Self {
        ReadFault::Memory
    }
}

impl<T: Drop> From<AllocFailed<T>> for ReadFault {
    ghost from_gives = { λ _ e. e ≡ Memory };

    fn from(_: AllocFailed<T>) -> Self {
        ReadFault::Memory
    }
}

// A number of 64 bits at the front that takes at most so many bytes, and what stands behind it.
#[tactic(auto, using(crate::proofs::Reading::read_none, crate::proofs::Reading::read_last, crate::proofs::Reading::read_more, crate::proofs::Reading::read_broken, crate::proofs::Reading::read_zero, crate::proofs::Reading::read_wide))]
fn septets_at(places: u32, bytes: &[u8]) -> Option<(u64, &[u8])>
    ensures some { IfSome result (λ r. septets_at places bytes.now ≡ Some (r.0, r.1.now)) }
    ensures none { IfNone result (option_and_then within_64_bits (septets_at places bytes.now) ≡ None) }
{
    if places == 0 {
        return None;
    }
    let [first, rest @ ..] = bytes else {
        return None;
    };
    if *first < 128 {
        return Some((u64::from(*first), rest));
    }
    let (high, left) = septets_at(places - 1, rest)?;
    if high == 0 || high >= 1 << 57 {
        return None;
    }
    Some((u64::from(*first - 128) + 128 * high, left))
}

// A number at the front, and what stands behind it.
#[tactic(auto, unfolding(crate::specs::Num::num_at), using(crate::proofs::Reading::read_within))]
fn num_at(bytes: &[u8]) -> Option<(u64, &[u8])>
    ensures some { IfSome result (λ r. num_at bytes.now ≡ Some (r.0, r.1.now)) }
    ensures none { IfNone result (num_at bytes.now ≡ None) }
{
    septets_at(MOST_SEPTETS, bytes)
}

// The first so many bytes, and those behind them.
fn split_at(n: u64, bytes: &[u8]) -> Option<(&[u8], &[u8])>
    ensures some { IfSome result (λ r. split_at n bytes.now ≡ Some (r.0.now, r.1.now)) }
    ensures none { IfNone result (split_at n bytes.now ≡ None) }
{
    if n > bytes.len() as u64 {
        return None;
    }
    Some((&bytes[..n as usize], &bytes[n as usize..]))
}

fn run_at(bytes: &[u8]) -> Option<(&[u8], &[u8])>
    ensures some { IfSome result (λ r. run_at bytes.now ≡ Some (r.0.now, r.1.now)) }
    ensures none { IfNone result (run_at bytes.now ≡ None) }
{
    let (n, rest) = num_at(bytes)?;
    split_at(n, rest)
}

// So many runs, one behind the other, and what stands behind them.
#[tactic(auto, using(std::proofs::lemmas::Grind::common_steps, crate::proofs::Items::items_step, crate::proofs::Items::items_stop, crate::proofs::Items::items_end))]
fn items_at(alloc: Global, n: u64, bytes: &[u8]) -> Result<(List<List<u8>>, &[u8]), ReadFault>
    ensures ok { IfOk result (λ r. items_at run_at n bytes.now ≡ Some (r.0, r.1.now)) }
    ensures bad { IsErrOf result ReadFault.Bad → items_at run_at n bytes.now ≡ None }
{
    let mut items = List::new(alloc);
    let mut rest = bytes;
    for at in 0..n {
        let Some((item, left)) = run_at(rest) else {
            return Err(ReadFault::Bad);
        };
        items.push(List::from_vec(item.to_vec(alloc)?))?;
        rest = left;
    }
    Ok((items, rest))
}

// All of the bytes as at least one body.
#[tactic(auto, unfolding(crate::specs::Journal::bodies_of))]
fn bodies_of(alloc: Global, bytes: &[u8]) -> Result<List<List<u8>>, ReadFault>
    ensures ok { IfOk result (λ bodies. bodies_of bytes.now ≡ Some bodies) }
    ensures bad { IsErrOf result ReadFault.Bad → bodies_of bytes.now ≡ None }
{
    let Some((n, rest)) = num_at(bytes) else {
        return Err(ReadFault::Bad);
    };
    let (bodies, left) = items_at(alloc, n, rest)?;
    if !left.is_empty() || bodies.is_empty() {
        return Err(ReadFault::Bad);
    }
    Ok(bodies)
}

// The number in the first eight bytes, and what stands behind them.
fn length_at(bytes: &[u8]) -> Option<(u64, &[u8])>
    ensures some { IfSome result (λ r. length_at bytes.now ≡ Some (r.0, r.1.now)) }
    ensures none { IfNone result (length_at bytes.now ≡ None) }
{
    let [a, b, c, d, e, f, g, h, rest @ ..] = bytes else {
        return None;
    };
    let number = u64::from_be_bytes([*a, *b, *c, *d, *e, *f, *g, *h]);
    Some((number, rest))
}

// What stands behind an open gate: the bodies of its frame, and what follows from the next gate on.
#[tactic(auto, unfolding(crate::specs::Journal::frame_at), using(crate::proofs::Frames::frame_none, crate::proofs::Frames::frame_short, crate::proofs::Frames::frame_last, crate::proofs::Frames::frame_bad, crate::proofs::Frames::frame_some))]
fn frame_at(alloc: Global, bytes: &[u8]) -> Result<(List<List<u8>>, &[u8]), ReadFault>
    ensures ok { IfOk result (λ r. frame_at bytes.now ≡ Some (r.0, r.1.now)) }
    ensures bad { IsErrOf result ReadFault.Bad → frame_at bytes.now ≡ None }
    ensures shorter { IfOk result (λ r. length r.1.now ≤ length bytes.now) }
{
    let Some((size, rest)) = length_at(bytes) else {
        return Err(ReadFault::Bad);
    };
    let Some((frame, left)) = split_at(size, rest) else {
        return Err(ReadFault::Bad);
    };
    if left.is_empty() {
        return Err(ReadFault::Bad);
    }
    let bodies = bodies_of(alloc, frame)?;
    Ok((bodies, left))
}

/// Why there is no chain of frames.
#[derive(Drop)]
pub(crate) enum ChainFault {
    /// Here the bytes are damaged.
    Broken(Damage),
    Memory,
}

impl From<AllocError> for ChainFault {
    ghost from_gives = { λ _ e. e ≡ NoMemory };

    fn from(_: AllocError) -> Self {
        ChainFault::Memory
    }
}

// Whoever knows the area tells its version.
fn broken(offset: u64, frames: List<FrameAt>) -> ChainFault
    ensures { result ≡ ChainFault.Broken (record { offset = offset; version = None; frames = frames }) }
{
    ChainFault::Broken(Damage {
        offset,
        version: None,
        frames,
    })
}

// The frames from a gate on, which is the first of the bytes, and the closed gate that ends them.
pub(crate) fn frames_from(
    alloc: Global,
    first: u64,
    bytes: &[u8],
) -> Result<(List<FrameAt>, u64), ChainFault>
    requires { first + length bytes.now ≤ 2 ^ 63 }
    ensures ok { IfOk result (λ r.
        chain_from (length bytes.now) first bytes.now ≡ record { frames = r.0; end = Ok r.1 }) }
    ensures broken { IfErr result (λ e. IsBrokenAt e (chain_from (length bytes.now) first bytes.now)) }
{
    let mut frames = List::new(alloc);
    let mut gate = first;
    let mut rest = bytes;
    while let [byte, behind @ ..] = rest {
        if *byte != 1 {
            return Ok((frames, gate));
        }
        match frame_at(alloc, behind) {
            Ok((bodies, left)) => {
                frames.push(FrameAt {
                    offset: gate,
                    bodies,
                })?;
                gate += 1 + (behind.len() - left.len()) as u64;
                rest = left;
            }
            Err(ReadFault::Bad) => return Err(broken(gate, frames)),
            Err(ReadFault::Memory) => return Err(ChainFault::Memory),
        }
    }
    Err(broken(gate, frames))
}
