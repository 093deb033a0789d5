// One token of a condition's text.
ghost use Rattle.std.specs.Prelude.{◌≡◌, ◌∷◌, [], false, IfOk};
ghost use Rattle.std.specs.Str.{IsUtf8};
ghost use Rattle.rule_conditions.specs.Tokens.{is_space};
ghost use Rattle.rule_conditions.specs.Lexing.{is_comparison_byte, content_at, behind_space, quoted_at, number_token, comparison_token};
ghost use Rattle.rule_text.specs.Lexing.{Gives, other_at, token_at};
ghost use Rattle.rule_text.specs.Outline.{meant};

use crate::numbers::{is_digit, number_at};
use crate::outline::Outline;
use crate::quoted::content_at;
use crate::stop::Stop;
use crate::symbols::{comparison_at, is_comparison_byte, symbol};
use crate::tokens::Token;
use crate::words::word_at;
use payload_records::Text;
use rule_conditions::Atom;
use std::alloc::{AllocError, Global};

fn is_space(byte: u8) -> bool
    ensures { result ≡ is_space byte }
{
    byte == b' ' || byte == b'\t' || byte == b'\n' || byte == b'\r'
}

/// What is left behind the space at the front.
pub fn behind_space(rest: &[u8]) -> &[u8]
    ensures { result.now ≡ behind_space rest.now }
{
    let mut rest = rest;
    while let Some((byte, after)) = rest.split_first() {
        if !is_space(*byte) {
            break;
        }
        rest = after;
    }
    rest
}

fn text_of(alloc: Global, content: &[u8]) -> Result<Text, AllocError>
    requires { IsUtf8 content.now }
    ensures { IfOk result (λ text. text ≡ content.now) }
{
    let content = String::from_utf8_lossy(alloc, content)?;
    Text::of(alloc, content.as_str())
}

/// A text behind its first apostrophe, and what is left behind its last.
#[tactic(auto, using(crate::proofs::Content::content_is_utf8))]
fn quoted_at<'a>(alloc: Global, rest: &'a [u8]) -> Result<(Token, &'a [u8]), Stop<'a>>
    requires { IsUtf8 rest.now }
    ensures { Gives (λ x. (meant x.0, x.1.now)) result (quoted_at rest.now) }
{
    let (content, after) = content_at(alloc, rest)?;
    let text = text_of(alloc, content.as_slice())?;
    Ok((Token::Operand(Atom::Text(text)), after))
}

fn number_token<'a>(rest: &'a [u8]) -> Result<(Token, &'a [u8]), Stop<'a>>
    ensures { Gives (λ x. (meant x.0, x.1.now)) result (number_token rest.now) }
{
    let (number, after) = number_at(rest)?;
    Ok((Token::Operand(Atom::Number(number)), after))
}

fn comparison_token<'a>(byte: u8, rest: &'a [u8]) -> Result<(Token, &'a [u8]), Stop<'a>>
    ensures { Gives (λ x. (meant x.0, x.1.now)) result (comparison_token byte rest.now) }
{
    let (how, after) = comparison_at(byte, rest)?;
    Ok((Token::Compared(how), after))
}

fn other_at<'a>(
    alloc: Global,
    outline: &Outline,
    byte: u8,
    text: &'a [u8],
    rest: &'a [u8],
) -> Result<(Token, &'a [u8]), Stop<'a>>
    requires { text.now ≡ byte ∷ rest.now }
    ensures { Gives (λ x. (meant x.0, x.1.now)) result (other_at outline.now byte rest.now) }
{
    match symbol(outline, byte) {
        Some(token) => Ok((token, rest)),
        None => {
            if outline.takes_test() && is_comparison_byte(byte) {
                comparison_token(byte, rest)
            } else {
                word_at(alloc, outline, text)
            }
        }
    }
}

/// The token at the front, of those that may come, and what is left behind it.
#[tactic(auto, using(crate::proofs::Content::behind_apostrophe))]
pub fn token_at<'a>(
    alloc: Global,
    outline: &Outline,
    text: &'a [u8],
) -> Result<(Token, &'a [u8]), Stop<'a>>
    requires { IsUtf8 text.now }
    ensures { Gives (λ x. (meant x.0, x.1.now)) result (token_at outline.now text.now) }
{
    let Some((byte, rest)) = text.split_first() else {
        return Err(Stop::At(text));
    };
    if *byte == b'\'' && outline.takes_text() {
        quoted_at(alloc, rest)
    } else if (is_digit(*byte) || *byte == b'-') && outline.takes_atom() {
        number_token(text)
    } else {
        other_at(alloc, outline, *byte, text, rest)
    }
}
