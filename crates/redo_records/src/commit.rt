// Commits: a moment, and one or more changes.
ghost use Rattle.std.specs.Prelude.{◌≡◌, length, IfOk, OnOk, IsErrOf, Some, None};
ghost use Rattle.redo_records.specs.Gives.{Gives};
ghost use Rattle.redo_records.specs.Laws.{IsVersion};
ghost use Rattle.redo_records.specs.Reading.{changes_of, decode};
ghost use Rattle.redo_records.specs.Spellable.{CanBeSpelled};
ghost use Rattle.redo_records.specs.Spelled.{HasSpelling};
ghost use Rattle.redo_records.specs.Spelling.{encode};

use crate::DecodeFault;
use crate::changes::{change_at, put_change};
use crate::numbers::{num_at, put_num};
use payload_records::List;
use queue_rows::{Change, Commit};
use std::alloc::{AllocError, Global};

/// Writes the one spelling of the commit of these changes at that moment in place of what stood in a vector, whose memory is used
/// again: what `encode` gives.
#[tactic(auto, unfolding(crate::specs::Spelling::spelling))]
pub fn encode_into(out: &mut Vec<u8>, moment: u64, changes: &List<Change>) -> Result<(), AllocError>
    ensures bytes { OnOk result
        (out.new.items ≡ encode (record { moment = moment; changes = changes.now })) }
    ensures spelled { OnOk result (CanBeSpelled (record { moment = moment; changes = changes.now })
        → HasSpelling 2 (record { moment = moment; changes = changes.now })) }
{
    out.clear();
    put_num(out, moment)?;
    for change in changes {
        put_change(out, change)?;
    }
    Ok(())
}

/// The one spelling of a commit, in version 2, which is read again as it where the commit can be spelled: what its types leave open
/// of that `CanBeSpelled` says. It fails for want of memory, and for a name that is too long to be one.
pub fn encode(commit: &Commit) -> Result<Vec<u8>, AllocError>
    ensures bytes { IfOk result (λ v. v.items ≡ encode commit.now) }
    ensures spelled { OnOk result (CanBeSpelled commit.now → HasSpelling 2 commit.now) }
{
    let mut out = Vec::new(commit.changes.allocator());
    encode_into(&mut out, commit.moment, &commit.changes)?;
    Ok(out)
}

fn changes_of(alloc: Global, version: u32, bytes: &[u8]) -> Result<List<Change>, DecodeFault>
    ensures { Gives (λ cs. cs) result (changes_of (length bytes.now) version bytes.now) }
{
    let mut changes = List::new(alloc);
    let mut rest = bytes;
    while !rest.is_empty() {
        let (change, behind) = change_at(alloc, version, rest)?;
        changes.push(change)?;
        rest = behind;
    }
    Ok(changes)
}

#[tactic(auto, unfolding(crate::specs::Reading::decode))]
fn commit_at(alloc: Global, version: u32, bytes: &[u8]) -> Result<Commit, DecodeFault>
    ensures { Gives (λ c. c) result (decode version bytes.now) }
{
    let (moment, rest) = num_at(bytes)?;
    let changes = changes_of(alloc, version, rest)?;
    if changes.is_empty() {
        return Err(DecodeFault::NoSpelling);
    }
    Ok(Commit { moment, changes })
}

/// The commit that bytes spell in a version. `NoSpelling` is told exactly where they spell none.
pub fn decode(alloc: Global, version: u32, bytes: &[u8]) -> Result<Commit, DecodeFault>
    requires { IsVersion version }
    ensures ok { IfOk result (λ c. decode version bytes.now ≡ Some c) }
    ensures no_spelling { IsErrOf result DecodeFault.NoSpelling → decode version bytes.now ≡ None }
{
    commit_at(alloc, version, bytes)
}
