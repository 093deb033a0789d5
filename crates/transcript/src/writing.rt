// Writing the text of a history, a piece at a time.
ghost use Rattle.std.specs.Prelude.{◌≡◌, ◌≤◌, [], string_bytes, OnOk, OnErr, IsErrOf};
ghost use Rattle.std.specs.Io.KnownBytes.{Appends};
ghost use Rattle.aq_base.specs.Causes.{HasCause, Rose};
ghost use Rattle.aq_base.specs.declared.writing.SinkFault.{SinkFault};
ghost use Rattle.transcript.specs.Pieces.{AppendsFront, Sends};
ghost use Rattle.transcript.specs.Print.{print};
ghost use Rattle.transcript.specs.declared.writing.PrintFault.TheVariants.{Memory, Sink as SinkFailed};

use crate::history::put_entry;
use crate::told::ToldCalls;
use aq_base::{Sink, SinkFault, write_all};
use queue_rows::History;
use std::alloc::{AllocError, Global};

/// Why not all of a history was written.
#[derive(Clone, Copy, Debug, PartialEq, Eq)]
pub enum PrintFault {
    /// There was no memory for the text.
    Memory,
    /// The sink took no more.
    Sink(SinkFault),
}

impl From<AllocError> for PrintFault {
    ghost from_gives = { λ _ e. e ≡ Memory };

    fn from(_: AllocError) -> Self {
        PrintFault::Memory
    }
}

impl From<SinkFault> for PrintFault {
    ghost from_gives = { λ fault e. e ≡ SinkFailed fault };

    fn from(fault: SinkFault) -> Self {
        PrintFault::Sink(fault)
    }
}

// So many bytes are written at once.
const PIECE: usize = 65536;

// Writes what the text holds, and empties it. Its room is kept.
fn put_out<O: Sink>(out: &mut O, text: &mut String) -> Result<(), SinkFault>
    ensures ok { OnOk result (Appends (O.taken out.old) (O.taken out.new) (string_bytes text.old)) }
    ensures empty { OnOk result (string_bytes text.new ≡ []) }
    ensures front { OnErr result (AppendsFront (O.taken out.old) (O.taken out.new) (string_bytes text.old)) }
    ensures cause { HasCause (O.faults out.old) (O.faults out.new) result }
{
    write_all(out, text.as_bytes())?;
    text.clear();
    Ok(())
}

// Writes what the text holds, where that is a piece.
fn put_piece<O: Sink>(out: &mut O, text: &mut String) -> Result<(), SinkFault>
    ensures sent { OnOk result
        (Sends (O.taken out.old) (O.taken out.new) (string_bytes text.old) (string_bytes text.new)) }
    ensures front { OnErr result (AppendsFront (O.taken out.old) (O.taken out.new) (string_bytes text.old)) }
    ensures cause { HasCause (O.faults out.old) (O.faults out.new) result }
{
    if text.len() < PIECE {
        return Ok(());
    }
    put_out(out, text)
}

/// Writes the text of a history, as `print` makes it, but a piece at a time: no more of it stands in memory than
/// a piece and an entry. Where it fails, some first bytes were written. `Memory` may be told when some were
/// written already, `Sink` only where the sink failed.
#[tactic(auto, unfolding(crate::specs::Print::print))]
pub fn print_to<O: Sink>(alloc: Global, out: &mut O, history: &History) -> Result<(), PrintFault>
    ensures whole { OnOk result (Appends (O.taken out.old) (O.taken out.new) (print history.now)) }
    ensures front { AppendsFront (O.taken out.old) (O.taken out.new) (print history.now) }
    ensures later { O.faults out.old ≤ O.faults out.new }
    ensures failed { (fault : SinkFault) → IsErrOf result (PrintFault.Sink fault)
        → Rose (O.faults out.old) (O.faults out.new) }
{
    let told = ToldCalls::of(alloc, history.scripts.len(), &history.entries)?;
    let mut text = String::new(alloc);
    for entry in &history.entries {
        put_entry(&mut text, history, &told, entry)?;
        put_piece(out, &mut text)?;
    }
    put_out(out, &mut text)?;
    Ok(())
}
