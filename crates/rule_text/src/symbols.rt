// Signs in a condition's text.
ghost use Rattle.std.specs.Prelude.{◌≡◌, option_map};
ghost use Rattle.rule_conditions.specs.Lexing.{is_comparison_byte, behind_less, behind_greater, behind_bang, comparison_at};
ghost use Rattle.rule_text.specs.Lexing.{Gives, parenthesis, symbol};
ghost use Rattle.rule_text.specs.Outline.{meant};

use crate::outline::Outline;
use crate::stop::Stop;
use crate::tokens::Token;
use rule_conditions::Cmp;

fn parenthesis(outline: &Outline, byte: u8) -> Option<Token>
    ensures { option_map meant result ≡ parenthesis outline.now byte }
{
    match byte {
        b'(' if outline.takes_open() => Some(Token::Open),
        b')' if outline.takes_close() => Some(Token::Close),
        _ => None,
    }
}

/// The token that is this byte alone, where it may come.
pub fn symbol(outline: &Outline, byte: u8) -> Option<Token>
    ensures { option_map meant result ≡ symbol outline.now byte }
{
    if !outline.takes_sign() {
        return parenthesis(outline, byte);
    }
    match byte {
        b'*' => Some(Token::Times),
        b'+' => Some(Token::Plus),
        b'-' => Some(Token::Minus),
        _ => parenthesis(outline, byte),
    }
}

/// Whether a sign of a comparison begins with the byte.
pub fn is_comparison_byte(byte: u8) -> bool
    ensures { result ≡ is_comparison_byte byte }
{
    byte == b'=' || byte == b'<' || byte == b'>' || byte == b'!'
}

fn behind_less(rest: &[u8]) -> (Cmp, &[u8])
    ensures { (result.0, result.1.now) ≡ behind_less rest.now }
{
    match rest.split_first() {
        Some((b'=', after)) => (Cmp::LessEqual, after),
        Some((b'>', after)) => (Cmp::Unequal, after),
        _ => (Cmp::Less, rest),
    }
}

fn behind_greater(rest: &[u8]) -> (Cmp, &[u8])
    ensures { (result.0, result.1.now) ≡ behind_greater rest.now }
{
    match rest.split_first() {
        Some((b'=', after)) => (Cmp::GreaterEqual, after),
        _ => (Cmp::Greater, rest),
    }
}

fn behind_bang<'a>(rest: &'a [u8]) -> Result<(Cmp, &'a [u8]), Stop<'a>>
    ensures { Gives (λ x. (x.0, x.1.now)) result (behind_bang rest.now) }
{
    match rest.split_first() {
        Some((b'=', after)) => Ok((Cmp::Unequal, after)),
        _ => Err(Stop::At(rest)),
    }
}

/// The sign of a comparison that begins with the byte, and what is left behind it.
pub fn comparison_at<'a>(byte: u8, rest: &'a [u8]) -> Result<(Cmp, &'a [u8]), Stop<'a>>
    ensures { Gives (λ x. (x.0, x.1.now)) result (comparison_at byte rest.now) }
{
    match byte {
        b'<' => Ok(behind_less(rest)),
        b'>' => Ok(behind_greater(rest)),
        b'!' => behind_bang(rest),
        _ => Ok((Cmp::Equal, rest)),
    }
}
