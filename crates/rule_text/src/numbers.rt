// Numbers in a condition's text.
ghost use Rattle.std.specs.Prelude.{◌≡◌, ◌-◌, ◌+◌, ◌*◌, ◌<◌, ◌≤◌, IsTrue, IfOk, ◌↔◌};
ghost use Rattle.rule_conditions.specs.Tokens.{is_digit, is_word_byte};
ghost use Rattle.rule_conditions.specs.Lexing.{limit, signed, digits_at, unsigned_at, number_at};
ghost use Rattle.rule_text.specs.Lexing.{Gives};

use crate::stop::Stop;

/// The greatest number without its sign.
fn limit(negative: bool) -> u64
    ensures { result ≡ limit negative }
{
    if negative {
        0x8000_0000_0000_0000
    } else {
        0x7fff_ffff_ffff_ffff
    }
}

fn signed(negative: bool, size: u64) -> i64
    requires { size ≤ limit negative }
    ensures { result ≡ signed negative size }
{
    if !negative {
        return size as i64;
    }
    if size == 0 {
        return 0;
    }
    -1 - (size - 1) as i64
}

pub fn is_digit(byte: u8) -> bool
    ensures { result ≡ is_digit byte }
{
    b'0' <= byte && byte <= b'9'
}

pub fn is_word_byte(byte: u8) -> bool
    ensures { result ≡ is_word_byte byte }
{
    (b'a' <= byte && byte <= b'z')
        || (b'A' <= byte && byte <= b'Z')
        || is_digit(byte)
        || byte == b'_'
        || byte == b'.'
}

fn has_room(negative: bool, size: u64, digit: u64) -> bool
    requires { digit < 10 }
    ensures { IsTrue result ↔ (size * 10 + digit ≤ limit negative) }
{
    size <= (limit(negative) - digit) / 10
}

fn digits_at<'a>(negative: bool, first: u64, rest: &'a [u8]) -> Result<(u64, &'a [u8]), Stop<'a>>
    requires { first ≤ limit negative }
    ensures gives { Gives (λ x. (x.0, x.1.now)) result (digits_at negative first rest.now) }
    ensures within { IfOk result (λ x. x.0 ≤ limit negative) }
{
    let mut size = first;
    let mut rest = rest;
    while let Some((byte, after)) = rest.split_first() {
        if !is_digit(*byte) {
            break;
        }
        let digit = (*byte - b'0') as u64;
        if !has_room(negative, size, digit) {
            return Err(Stop::At(rest));
        }
        size = size * 10 + digit;
        rest = after;
    }
    match rest.first() {
        Some(byte) if is_word_byte(*byte) => Err(Stop::At(rest)),
        _ => Ok((size, rest)),
    }
}

fn unsigned_at<'a>(negative: bool, rest: &'a [u8]) -> Result<(i64, &'a [u8]), Stop<'a>>
    ensures { Gives (λ x. (x.0, x.1.now)) result (unsigned_at negative rest.now) }
{
    match rest.split_first() {
        Some((byte, after)) if is_digit(*byte) => {
            let (size, after) = digits_at(negative, (*byte - b'0') as u64, after)?;
            Ok((signed(negative, size), after))
        }
        _ => Err(Stop::At(rest)),
    }
}

/// The number at the front, and what is left behind it.
pub fn number_at<'a>(rest: &'a [u8]) -> Result<(i64, &'a [u8]), Stop<'a>>
    ensures { Gives (λ x. (x.0, x.1.now)) result (number_at rest.now) }
{
    match rest.split_first() {
        Some((b'-', after)) => unsigned_at(true, after),
        _ => unsigned_at(false, rest),
    }
}
