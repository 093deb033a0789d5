// The summary of a run.
ghost use Rattle.std.specs.Prelude.{◌≡◌, IfOk};
ghost use Rattle.sha2.specs.Sha256.{sha256};
ghost use Rattle.transcript.specs.Print.{print};
ghost use Rattle.run_summary.specs.Summary.{summary};

use crate::counts::{count_calls, count_enqueued, count_removed};
use queue_rows::History;
use sha2::{Digest, Sha256};
use std::alloc::{AllocError, Global};
use transcript::print;

fn digest_of(alloc: Global, history: &History) -> Result<[u8; 32], AllocError>
    ensures { IfOk result (λ digest. digest ≡ sha256 (print history.now)) }
{
    let text = print(alloc, history)?;
    Ok(Sha256::digest(text.as_slice()))
}

/// Four lines: how many calls there were, how many messages were put in, how many slots were done, and the SHA-256 digest
/// of the transcript.
#[tactic(auto, unfolding(crate::specs::Summary::summary))]
pub fn summary(alloc: Global, history: &History) -> Result<Vec<u8>, AllocError>
    ensures { IfOk result (λ text. text.items ≡ summary history.now) }
{
    let calls = count_calls(&history.entries)?;
    let enqueued = count_enqueued(&history.entries)?;
    let removed = count_removed(&history.entries)?;
    let digest = hex::encode(alloc, digest_of(alloc, history)?)?;
    let text = format!(in alloc;
        "calls {calls}\nenqueued {enqueued}\nremoved {removed}\nsha256 {digest}\n"
    )?;
    Ok(text.into_bytes())
}
