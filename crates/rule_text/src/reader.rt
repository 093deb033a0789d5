// Reads conditions from texts.
ghost use Rattle.std.specs.Prelude.{◌≡◌, [], Ok, IfOk, IfErr};
ghost use Rattle.std.specs.Str.{IsUtf8};
ghost use Rattle.rule_text.specs.Outline.{start};
ghost use Rattle.rule_conditions.specs.Grammar.{IsTextOf};
ghost use Rattle.rule_conditions.specs.Reading.{condition_of};
ghost use Rattle.rule_conditions.specs.declared.condition.Cond.{Cond};
ghost use Rattle.rule_text.specs.Reading.{Reads, StopsWith, FaultTells, TellsStop, IsReadAs, ReadsPrints};
ghost use Rattle.rule_conditions.specs.Lexing.{behind_space};

use crate::fault::ReadFault;
use crate::lexer::{behind_space, token_at};
use crate::outline::{Outline, Phase};
use crate::stop::Stop;
use payload_records::List;
use rule_conditions::Cond;
use std::alloc::Global;

fn start(alloc: Global) -> Outline
    ensures { result ≡ start }
{
    Outline {
        alternatives: List::new(alloc),
        parts: List::new(alloc),
        frames: List::new(alloc),
        phase: Phase::Unit,
    }
}

#[tactic(auto, using(crate::proofs::Readings::ends_at, crate::proofs::Readings::short_at))]
fn ended<'a>(outline: Outline, rest: &'a [u8]) -> Result<Cond, Stop<'a>>
    requires { rest.now ≡ [] }
    ensures ok { IfOk result (λ condition. Reads outline rest.now (Ok condition)) }
    ensures err { IfErr result (λ e. StopsWith e (Reads outline rest.now)) }
{
    match outline.finish()? {
        Some(condition) => Ok(condition),
        None => Err(Stop::At(rest)),
    }
}

#[tactic(auto, using(crate::proofs::Readings::fails_at, crate::proofs::Steppable::never_refused))]
fn condition_at<'a>(alloc: Global, text: &'a [u8]) -> Result<Cond, Stop<'a>>
    requires { IsUtf8 text.now }
    ensures ok { IfOk result (λ condition. Reads start (behind_space text.now) (Ok condition)) }
    ensures err { IfErr result (λ e. StopsWith e (Reads start (behind_space text.now))) }
{
    let mut outline = start(alloc);
    let mut rest = behind_space(text);
    'tokens: while !rest.is_empty() {
        let (token, after) = token_at(alloc, &outline, rest)?;
        match outline.step(alloc, token)? {
            Some(next) => outline = next,
            None => unreachable!(),
        }
        rest = behind_space(after);
    }
    ended(outline, rest)
}

/// The condition of which a text is one. A text of none is told by how many of its first bytes begin a text of
/// a condition: the most that do.
#[tactic(auto, using(crate::proofs::Sound::read_is_text, crate::proofs::Complete::printed_is_found, crate::proofs::Begins::left_within))]
pub fn read(alloc: Global, text: &str) -> Result<Cond, ReadFault>
    ensures ok { IfOk result (λ condition. IsTextOf text.now condition) }
    ensures complete { (condition : Cond) → IsTextOf text.now condition → IsReadAs result condition }
    ensures printed { ReadsPrints text.now result }
    ensures bad { IfErr result (λ e. FaultTells e text.now) }
    ensures computed { IfOk result (λ condition. condition_of text.now ≡ Ok condition) }
    ensures stopped { IfErr result (λ e. TellsStop e text.now) }
{
    let bytes = text.as_bytes();
    match condition_at(alloc, bytes) {
        Ok(condition) => Ok(condition),
        Err(Stop::At(rest)) => Err(ReadFault::Bad {
            at: (bytes.len() - rest.len()) as u64,
        }),
        Err(Stop::Memory) => Err(ReadFault::Memory),
    }
}
