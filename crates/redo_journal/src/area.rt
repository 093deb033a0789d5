// What stands in front of a journal's frames.
ghost use Rattle.std.specs.Prelude.{◌≡◌, ◌≤◌, ◌+◌, ◌^◌, ℕ, [], length, slice_range, Ok, Err, None, true, IfOk, IfErr};
ghost use Rattle.std.specs.Int.{w64, from_be_bytes};
ghost use Rattle.std.specs.Str.{bytes_eq};
ghost use Rattle.redo_journal.specs.Journal.{is_header, side_of, root_of, version_at, is_unbegun, is_root, is_known_version, IsKnownVersion, outline_at, outline_of, mounted_of, pointer_of};
ghost use Rattle.redo_journal.specs.Begun.{mounted_by};
ghost use Rattle.redo_journal.specs.Broken.{IsDamagedAt, IsFaultOfKnownVersion, in_version};

use crate::frame::{Active, Damage, FrameAt, Side};
use crate::read::{ChainFault, frames_from};
use payload_records::List;
use std::alloc::Global;

const MAGIC: [u8; 6] = [65, 81, 74, 82, 78, 76];

const FIRST_ROOT: u64 = 24;

// What beginnings of versions 1 and 2 write from offset 1 on: the magic, side A, its root 24, no root B, the
// version, and a closed gate.
const BEGINNING_1: [u8; 28] = [
    65, 81, 74, 82, 78, 76, 0, 0, 0, 0, 0, 0, 0, 0, 24, 0, 0, 0, 0, 0, 0, 0, 0, 0, 0, 0, 1, 0,
];

const BEGINNING_2: [u8; 28] = [
    65, 81, 74, 82, 78, 76, 0, 0, 0, 0, 0, 0, 0, 0, 24, 0, 0, 0, 0, 0, 0, 0, 0, 0, 0, 0, 2, 0,
];

// The journal that a disk's bytes are.
#[derive(Drop)]
pub(crate) struct Found {
    pub(crate) version: u32,
    pub(crate) active: Active,
    pub(crate) frames: List<FrameAt>,
}

fn number_at(bytes: &[u8], at: usize) -> u64
    requires { at + 8 ≤ length bytes.now }
    ensures { result ≡ from_be_bytes w64 (slice_range bytes.now at (at + 8)) }
{
    let b = &bytes[at..at + 8];
    u64::from_be_bytes([b[0], b[1], b[2], b[3], b[4], b[5], b[6], b[7]])
}

fn version_at(bytes: &[u8], root: usize) -> u32
    requires { root + 4 ≤ length bytes.now }
    ensures { result ≡ version_at root bytes.now }
{
    let b = &bytes[root..root + 4];
    u32::from_be_bytes([b[0], b[1], b[2], b[3]])
}

fn is_header(bytes: &[u8]) -> bool
    ensures { result ≡ is_header bytes.now }
{
    bytes.len() >= 24 && bytes[0] == 1 && &bytes[1..7] == MAGIC.as_slice()
}

fn side_of(bytes: &[u8]) -> Side
    requires { 24 ≤ length bytes.now }
    ensures { result ≡ side_of bytes.now }
{
    if bytes[7] == 1 { Side::B } else { Side::A }
}

fn root_of(side: Side, bytes: &[u8]) -> u64
    requires { 24 ≤ length bytes.now }
    ensures { result ≡ root_of side bytes.now }
{
    match side {
        Side::A => number_at(bytes, 8),
        Side::B => number_at(bytes, 16),
    }
}

/// Where a header has the root of a side.
pub fn pointer_of(side: Side) -> u64
    ensures { result ≡ pointer_of side }
{
    match side {
        Side::A => 8,
        Side::B => 16,
    }
}

// Whether these bytes stand from offset 1 to 29.
#[tactic(auto, using(crate::proofs::Areas::front_of_range))]
fn has_marks(bytes: &[u8], marks: &[u8]) -> bool
    requires { 1 ≤ length bytes.now }
    ensures { result ≡ bytes_eq (slice_range bytes.now 1 29) marks.now }
{
    let end = bytes.len().min(29);
    &bytes[1..end] == marks
}

/// Whether nothing but a beginning was ever written.
pub(crate) fn is_unbegun(bytes: &[u8]) -> bool
    ensures { result ≡ is_unbegun bytes.now }
{
    bytes.len() <= 1
        || bytes[0] == 0
        || (bytes[0] != 1 && (has_marks(bytes, &BEGINNING_1) || has_marks(bytes, &BEGINNING_2)))
}

fn is_root(root: u64, bytes: &[u8]) -> bool
    ensures { result ≡ is_root root bytes.now }
{
    root >= FIRST_ROOT && bytes.len() >= 5 && root <= (bytes.len() - 5) as u64
}

fn is_known_version(version: u32) -> bool
    ensures value { result ≡ is_known_version version }
    ensures known { result ≡ true → IsKnownVersion version }
{
    version == 1 || version == 2
}

// There is no area, and so no frame.
fn no_area(alloc: Global, offset: u64) -> ChainFault
    ensures { result ≡ ChainFault.Broken (record { offset = offset; version = None; frames = [] }) }
{
    ChainFault::Broken(Damage {
        offset,
        version: None,
        frames: List::new(alloc),
    })
}

// What is broken in the area of a version.
fn in_version(version: u32, fault: ChainFault) -> ChainFault
    requires { IsKnownVersion version }
    ensures value { result ≡ in_version version fault }
    ensures known { IsFaultOfKnownVersion result }
{
    match fault {
        ChainFault::Broken(damage) => ChainFault::Broken(Damage {
            offset: damage.offset,
            version: Some(version),
            frames: damage.frames,
        }),
        ChainFault::Memory => ChainFault::Memory,
    }
}

#[tactic(auto, using(crate::proofs::Areas::no_root, crate::proofs::Areas::no_version, crate::proofs::Areas::area_ok, crate::proofs::Areas::area_broken))]
fn area_at(alloc: Global, side: Side, root: u64, bytes: &[u8]) -> Result<Found, ChainFault>
    requires { length bytes.now ≤ 2 ^ 62 }
    ensures ok { IfOk result (λ f. mounted_of (outline_at side root bytes.now) ≡ Ok (mounted_by f)) }
    ensures damaged { IfErr result (λ e. IsDamagedAt e (outline_at side root bytes.now)) }
    ensures version { IfOk result (λ f. IsKnownVersion f.version) }
    ensures known { IfErr result IsFaultOfKnownVersion }
{
    if !is_root(root, bytes) {
        return Err(no_area(alloc, pointer_of(side)));
    }
    let version = version_at(bytes, root as usize);
    if !is_known_version(version) {
        return Err(no_area(alloc, root));
    }
    match frames_from(alloc, root + 4, &bytes[root as usize + 4..]) {
        Ok((frames, gate)) => Ok(Found {
            version,
            active: Active { side, root, gate },
            frames,
        }),
        Err(fault) => Err(in_version(version, fault)),
    }
}

/// The journal that the bytes of a begun disk are.
pub(crate) fn find(alloc: Global, bytes: &[u8]) -> Result<Found, ChainFault>
    requires { length bytes.now ≤ 2 ^ 62 }
    ensures ok { IfOk result (λ f. mounted_of (outline_of bytes.now) ≡ Ok (mounted_by f)) }
    ensures damaged { IfErr result (λ e. IsDamagedAt e (outline_of bytes.now)) }
    ensures version { IfOk result (λ f. IsKnownVersion f.version) }
    ensures known { IfErr result IsFaultOfKnownVersion }
{
    if !is_header(bytes) {
        return Err(no_area(alloc, 0));
    }
    let side = side_of(bytes);
    area_at(alloc, side, root_of(side, bytes), bytes)
}
