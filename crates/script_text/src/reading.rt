// A whole script.
ghost use Rattle.std.specs.Prelude.{◌≡◌, ◌≤◌, ◌<◌, ◌+◌, [], ◌∷◌, IfOk, IfErr, IfSome, IfNone, Ok, true, length, position, option_map};
ghost use Rattle.script_text.specs.Script.{is_line_feed, lines_of, lines_in, lines_left, room_of, with_lines, past_limit, script, line_feeds};
ghost use Rattle.script_text.specs.Script.{IsFaultOf};
ghost use Rattle.script_text.specs.Readable.{AreReadable};
ghost use Rattle.aq_base.specs.declared.limits.TheConstants.{INPUT_LIMIT};

use crate::earlier::EarlierLines;
use crate::fault::{LineFault, ScriptFault};
use crate::sessions::Sessions;
use aq_base::INPUT_LIMIT;
use memchr::memchr;
use payload_records::List;
use queue_rows::SessionScript;
use std::alloc::Global;

/// The bytes of the shortest line that asks a statement, as {"s":"a","do":"commit"}, with its line feed.
const SHORTEST_LINE: usize = 24;

#[tactic(auto, using(json_frames::proofs::Positions::first_is_position))]
fn line_end(text: &[u8]) -> Option<usize>
    ensures end { result ≡ position is_line_feed text.now }
    ensures within { IfSome result (λ at. at < length text.now) }
{
    memchr(b'\n', text)
}

/// The first line of a text, and what stands behind its line feed if it has one.
fn cut_line(text: &[u8]) -> (&[u8], Option<&[u8]>)
    ensures lines { lines_of text.now
        ≡ result.0.now ∷ lines_left true (option_map (λ rest. rest.now) result.1) }
    ensures shorter { room_of (option_map (λ rest. rest.now) result.1) ≤ length text.now }
{
    match line_end(text) {
        Some(at) => (&text[..at], Some(&text[at + 1..])),
        None => (text, None),
    }
}

/// The next line to be read of what is left, and what stands behind its line feed if it has one. Of a whole text the last line
/// is read too; of the front of a longer one it is not, since it goes on.
fn next_line(left: Option<&[u8]>, is_whole: bool) -> Option<(&[u8], Option<&[u8]>)>
    ensures some { IfSome result (λ next. lines_left is_whole (option_map (λ rest. rest.now) left.entry)
        ≡ next.0.now ∷ lines_left is_whole (option_map (λ rest. rest.now) next.1)) }
    ensures shorter { IfSome result (λ next.
        room_of (option_map (λ rest. rest.now) next.1) < room_of (option_map (λ rest. rest.now) left.entry)) }
    ensures none { IfNone result (lines_left is_whole (option_map (λ rest. rest.now) left.entry) ≡ []) }
{
    let (line, behind) = cut_line(left?);
    if is_whole {
        return Some((line, behind));
    }
    Some((line, Some(behind?)))
}

fn read_lines(alloc: Global, bytes: &[u8], is_whole: bool) -> Result<Sessions, ScriptFault>
    requires { length bytes.now ≤ INPUT_LIMIT }
    ensures ok { IfOk result (λ sessions. with_lines 1 [] (lines_in is_whole bytes.now) ≡ Ok sessions) }
    ensures bad { IfErr result (λ fault. IsFaultOf fault (with_lines 1 [] (lines_in is_whole bytes.now))) }
{
    let mut sessions = Sessions::new(alloc, bytes.len() / SHORTEST_LINE + 1);
    let mut earlier = EarlierLines::new(alloc);
    let mut number = 1u64;
    let mut rest = Some(bytes);
    while let Some((line, behind)) = next_line(rest, is_whole) {
        match sessions.add_line(alloc, &mut earlier, line) {
            Ok(()) => {}
            Err(LineFault::Bad) => return Err(ScriptFault::Bad { line: number }),
            Err(LineFault::Memory) => return Err(ScriptFault::Memory),
        }
        number += 1;
        rest = behind;
    }
    Ok(sessions)
}

fn count_line_feeds(bytes: &[u8]) -> u64
    ensures count { result ≡ line_feeds bytes.now }
    ensures within { result ≤ length bytes.now }
{
    bytes.iter().filter(|byte| **byte == b'\n').count() as u64
}

// Why a text is no script whose bytes up to the limit of an input are these, and which goes on.
fn past_limit(alloc: Global, front: &[u8]) -> ScriptFault
    requires { length front.now ≤ INPUT_LIMIT }
    ensures { IsFaultOf result (past_limit front.now) }
{
    match read_lines(alloc, front, false) {
        Ok(_) => ScriptFault::Bad {
            line: 1 + count_line_feeds(front),
        },
        Err(fault) => fault,
    }
}

/// Reads a script. `Bad` tells its first bad line, and comes exactly where it is none.
///
/// A text that is longer than an input may be is bad at the line of the first byte too many, where none before it is bad; so a
/// caller that has read one byte more than the limit need read no further.
#[tactic(auto, unfolding(crate::specs::Script::script))]
pub fn read(alloc: Global, bytes: &[u8]) -> Result<List<SessionScript>, ScriptFault>
    ensures ok { IfOk result (λ sessions. script bytes.now ≡ Ok sessions) }
    ensures bad { IfErr result (λ fault. IsFaultOf fault (script bytes.now)) }
    ensures readable { IfOk result AreReadable }
{
    if bytes.len() > INPUT_LIMIT {
        return Err(past_limit(alloc, &bytes[..INPUT_LIMIT]));
    }
    Ok(read_lines(alloc, bytes, true)?.into_list())
}
