// Texts between apostrophes in a condition's text.
ghost use Rattle.std.specs.Prelude.{◌≡◌, [], false};
ghost use Rattle.std.specs.Str.{IsUtf8};
ghost use Rattle.rule_conditions.specs.Lexing.{char_len, has_room, content_at};
ghost use Rattle.rule_text.specs.Lexing.{Gives};

use crate::stop::Stop;
use rule_conditions::TEXT_LIMIT;
use std::alloc::Global;

const APOSTROPHE: u8 = b'\'';

/// How many bytes the character that begins with this one has.
fn char_len(byte: u8) -> usize
    ensures { result ≡ char_len byte }
{
    match byte {
        0..0x80 => 1,
        0x80..0xe0 => 2,
        0xe0..0xf0 => 3,
        _ => 4,
    }
}

/// Whether the byte goes on with a character, or begins one that fits the limit.
fn has_room(content: &[u8], byte: u8) -> bool
    ensures { result ≡ has_room content.now byte }
{
    let goes_on = 0x80 <= byte && byte < 0xc0;
    goes_on || (content.len() <= TEXT_LIMIT && content.len() + char_len(byte) <= TEXT_LIMIT)
}

/// The content of a text behind its first apostrophe, and what is left behind its last.
pub fn content_at<'a>(alloc: Global, rest: &'a [u8]) -> Result<(Vec<u8>, &'a [u8]), Stop<'a>>
    ensures { Gives (λ x. (x.0.items, x.1.now)) result (content_at [] false rest.now) }
{
    let mut content = Vec::new(alloc);
    let mut closed = false;
    let mut rest = rest;
    while let Some((byte, after)) = rest.split_first() {
        let is_apostrophe = *byte == APOSTROPHE;
        if closed && !is_apostrophe {
            return Ok((content, rest));
        }
        if is_apostrophe && !closed {
            closed = true;
        } else {
            if !has_room(content.as_slice(), *byte) {
                return Err(Stop::At(rest));
            }
            content.push(*byte)?;
            closed = false;
        }
        rest = after;
    }
    if closed {
        Ok((content, rest))
    } else {
        Err(Stop::At(rest))
    }
}
