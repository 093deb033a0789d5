// A new area of a journal, as bytes.
ghost use Rattle.std.specs.Prelude.{◌≡◌, ◌≤◌, ◌++◌, ◌∷◌, [], length, IfOk};
ghost use Rattle.redo_journal.specs.Num.{num};
ghost use Rattle.redo_journal.specs.Journal.{area};

use crate::encode::put_num;
use std::alloc::{AllocError, Global};

// The version that is written, and an open gate.
const OPENING: [u8; 5] = [0, 0, 0, 2, 1];

// The most bytes of the number 1 and of another one.
const COUNTS: usize = 20;

// The most bytes of an area beside its body: the opening, the length, the counts, and a closed gate.
const OTHERS: usize = 34;

#[tactic(auto, using(crate::proofs::Room::num_short))]
// That there is one body, and how long it is.
fn counts_of(alloc: Global, body: &[u8]) -> Result<Vec<u8>, AllocError>
    ensures { IfOk result (λ v. v.items ≡ num 1 ++ num (length body.now)) }
{
    let mut counts = Vec::with_capacity(alloc, COUNTS)?;
    put_num(&mut counts, 1);
    put_num(&mut counts, body.len() as u64);
    Ok(counts)
}

/// The bytes of an area with one frame, which holds this body.
pub fn compacted_area(alloc: Global, body: &[u8]) -> Result<Vec<u8>, AllocError>
    ensures { IfOk result (λ v. v.items ≡ area (body.now ∷ [])) }
{
    let counts = counts_of(alloc, body)?;
    let size = (counts.len() + body.len()) as u64;
    let mut area = Vec::with_capacity(alloc, body.len().saturating_add(OTHERS))?;
    area.extend_from_slice(&OPENING)?;
    area.extend_from_slice(&size.to_be_bytes())?;
    area.extend_from_slice(&counts)?;
    area.extend_from_slice(body)?;
    area.push(0)?;
    Ok(area)
}
