// The tables that the frames of a journal lead to.
ghost use Rattle.std.specs.Prelude.{◌≡◌, IfOk, IfErr, OnOk, Ok, Err};
ghost use Rattle.std.specs.Bool.{OnTrue};
ghost use Rattle.std.specs.Option.{ForSome};
ghost use Rattle.redo_records.specs.Laws.{IsVersion};
ghost use Rattle.redo_records.specs.Recovered.{after_body, after_bodies, after_frames};
ghost use Rattle.database_recovery.specs.Recovering.{Makes, frames_from, IsFaultOf, up_to_damage};
ghost use Rattle.database_recovery.specs.Sound.{IsSound};

use crate::RecoveryFault;
use crate::judge::make_fitting;
use message_store::PreparedStore;
use payload_records::List;
use redo_journal::{Damage, FrameAt};
use redo_records::{DecodeFault, decode, one_spelling};
use std::alloc::{AllocError, Global};

// Makes the commit that a body is, and answers whether it is one that fits.
fn make_body(
    alloc: Global,
    version: u32,
    store: &mut PreparedStore,
    body: &[u8],
) -> Result<bool, AllocError>
    requires version { IsVersion version }
    requires sound { IsSound store.old.tables }
    ensures made { IfOk result (λ made.
        Makes (after_body version store.old.tables body.now) made store.new.tables) }
    ensures sound { IfOk result (λ made. OnTrue made (IsSound store.new.tables)) }
{
    one_spelling();
    let commit = match decode(alloc, version, body) {
        Ok(commit) => commit,
        Err(DecodeFault::NoSpelling) => return Ok(false),
        Err(DecodeFault::Memory) => return Err(AllocError),
    };
    match decode(alloc, version, body) {
        Ok(again) => make_fitting(alloc, store, commit, &again.changes),
        Err(_) => Err(AllocError),
    }
}

// Makes the commits that the bodies of a frame are, and answers whether each is one that fits.
fn make_bodies(
    alloc: Global,
    version: u32,
    store: &mut PreparedStore,
    bodies: List<List<u8>>,
) -> Result<bool, AllocError>
    requires version { IsVersion version }
    requires sound { IsSound store.old.tables }
    ensures made { IfOk result (λ made.
        Makes (after_bodies version store.old.tables bodies) made store.new.tables) }
    ensures sound { IfOk result (λ made. OnTrue made (IsSound store.new.tables)) }
{
    let mut bodies = bodies.into_vec();
    for body in bodies.drain(..) {
        let bytes = body.into_vec();
        if !make_body(alloc, version, store, &bytes)? {
            return Ok(false);
        }
    }
    Ok(true)
}

fn make_frames(
    alloc: Global,
    version: u32,
    store: &mut PreparedStore,
    frames: List<FrameAt>,
) -> Result<(), RecoveryFault>
    requires version { IsVersion version }
    requires sound { IsSound store.old.tables }
    ensures made { OnOk result (frames_from version store.old.tables frames ≡ Ok store.new.tables) }
    ensures sound { OnOk result (IsSound store.new.tables) }
    ensures damaged { IfErr result (IsFaultOf (frames_from version store.old.tables frames)) }
{
    let mut frames = frames.into_vec();
    for frame in frames.drain(..) {
        let FrameAt { offset, bodies } = frame;
        if !make_bodies(alloc, version, store, bodies)? {
            return Err(RecoveryFault::Damaged(offset));
        }
    }
    Ok(())
}

/// The tables that the frames of an area of that version lead to, from empty ones. `Damaged` tells the gate of the first frame of which a
/// body is no commit, or one that does not fit.
pub fn recover(
    alloc: Global,
    version: u32,
    frames: List<FrameAt>,
) -> Result<PreparedStore, RecoveryFault>
    requires { IsVersion version }
    ensures tables { IfOk result (λ store. after_frames version frames ≡ Ok store.tables) }
    ensures sound { IfOk result (λ store. IsSound store.tables) }
    ensures damaged { IfErr result (IsFaultOf (after_frames version frames)) }
{
    let mut store = PreparedStore::new(alloc);
    match make_frames(alloc, version, &mut store, frames) {
        Ok(()) => Ok(store),
        Err(fault) => Err(fault),
    }
}

/// Where a disk is damaged that is damaged there at the latest: at the first frame in front of it of which a body is no commit, or one that
/// does not fit, or else there.
pub fn damaged_at(alloc: Global, damage: Damage) -> Result<u64, AllocError>
    requires { ForSome damage.version IsVersion }
    ensures { IfOk result (λ at. up_to_damage damage ≡ Err at) }
{
    let Damage {
        offset,
        version,
        frames,
    } = damage;
    let Some(version) = version else {
        return Ok(offset);
    };
    match recover(alloc, version, frames) {
        Ok(_) => Ok(offset),
        Err(RecoveryFault::Damaged(at)) => Ok(at),
        Err(RecoveryFault::Memory) => Err(AllocError),
    }
}
