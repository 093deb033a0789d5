// Words in a condition's text.
ghost use Rattle.std.specs.Prelude.{◌≡◌, ◌≤◌, [], take, drop, length, ◌&&◌, IsTrue, IfSome, IfOk, string_bytes};
ghost use Rattle.std.specs.List.{list_all, find};
ghost use Rattle.std.specs.Char.{to_ascii_lowercase};
ghost use Rattle.std.specs.Str.{IsUtf8, str_to_ascii_lowercase};
ghost use Rattle.payload_records.specs.Name.{is_name_byte, is_small_letter};
ghost use Rattle.rule_conditions.specs.Tokens.{is_end_of_word};
ghost use Rattle.rule_conditions.specs.Lexing.{is_begun, is_field_name};
ghost use Rattle.rule_text.specs.Lexing.{Gives, spelled, begins_word, is_whole, is_named, begins_any, word_split, found_word, word_token, word_at};
ghost use Rattle.rule_text.specs.Outline.{meant, takes_word};

use crate::numbers::is_word_byte;
use crate::outline::Outline;
use crate::stop::Stop;
use crate::tokens::{Token, Word};
use payload_records::{NAME_LIMIT, Name, NameFault};
use rule_conditions::Atom;
use std::alloc::{AllocError, Global};

/// Each word.
pub const WORDS: [Word; 10] = [
    Word::Or,
    Word::And,
    Word::Not,
    Word::Is,
    Word::Like,
    Word::Null,
    Word::Priority,
    Word::Corr,
    Word::Cell,
    Word::Prop,
];

fn spelled(word: Word) -> &'static str
    ensures { result.now ≡ spelled word }
{
    match word {
        Word::Or => "or",
        Word::And => "and",
        Word::Not => "not",
        Word::Is => "is",
        Word::Like => "like",
        Word::Null => "null",
        Word::Priority => "tab.priority",
        Word::Corr => "tab.corrid",
        Word::Cell => "tab.user_data.",
        Word::Prop => "tab.user_prop.",
    }
}

/// Whether these small letters begin with the head, in letters of either case.
#[tactic(auto, using(crate::proofs::Splitting::none_begun))]
fn is_begun(letters: &[u8], head: &[u8]) -> bool
    ensures { result ≡ is_begun letters.now head.now }
{
    let mut letters = letters;
    for byte in head {
        let Some((letter, after)) = letters.split_first() else {
            return false;
        };
        if byte.to_ascii_lowercase() != *letter {
            return false;
        }
        letters = after;
    }
    true
}

fn is_name_byte(byte: u8) -> bool
    ensures { result ≡ is_name_byte (to_ascii_lowercase byte) }
{
    byte.is_ascii_alphabetic() || byte.is_ascii_digit() || byte == b'_'
}

fn begins_name(byte: u8) -> bool
    ensures { result ≡ is_small_letter (to_ascii_lowercase byte) }
{
    byte.is_ascii_alphabetic()
}

fn has_field_name_bytes(text: &[u8]) -> bool
    ensures { result ≡ list_all (λ b. is_name_byte (to_ascii_lowercase b)) text.now }
{
    text.iter().all(|byte| is_name_byte(*byte))
}

fn is_field_name(text: &[u8]) -> bool
    ensures { result ≡ is_field_name text.now }
{
    match text {
        [] => false,
        [first, ..] => begins_name(*first)
            && has_field_name_bytes(text)
            && text.len() <= NAME_LIMIT,
    }
}

/// Whether a name stands behind the word's letters.
fn is_named(word: Word) -> bool
    ensures { result ≡ is_named word }
{
    matches!(word, Word::Cell | Word::Prop)
}

fn begins_word(word: Word, head: &[u8]) -> bool
    ensures { result ≡ begins_word word head.now }
{
    let letters = spelled(word).as_bytes();
    if is_named(word) && head.len() > letters.len() {
        let (front, name) = head.split_at(letters.len());
        is_begun(letters, front) && is_field_name(name)
    } else {
        is_begun(letters, head)
    }
}

fn is_whole(word: Word, head: &[u8]) -> bool
    ensures { result ≡ is_whole word head.now }
{
    let len = spelled(word).len();
    if is_named(word) {
        head.len() > len && begins_word(word, head)
    } else {
        head.len() == len && begins_word(word, head)
    }
}

#[tactic(auto, unfolding(crate::specs::Lexing::begins_any))]
fn begins_any(outline: &Outline, head: &[u8]) -> bool
    ensures { result ≡ begins_any outline.now head.now }
{
    WORDS.iter().any(|word| outline.takes_word(*word) && begins_word(*word, head))
}

fn found_word(outline: &Outline, words: &[Word], head: &[u8]) -> Option<Word>
    ensures value { result
        ≡ find (λ word. takes_word outline.now word && is_whole word head.now) words.now }
    ensures whole { IfSome result (λ word. IsTrue (is_whole word head.now)) }
{
    for word in words {
        if outline.takes_word(*word) && is_whole(*word, head) {
            return Some(*word);
        }
    }
    None
}

/// How many bytes at the front begin a word that may come.
#[tactic(auto, using(crate::proofs::Splitting::split_on, crate::proofs::Splitting::split_off))]
fn word_len(outline: &Outline, rest: &[u8]) -> usize
    ensures within { result ≤ length rest.now }
    ensures split { word_split outline.now [] rest.now ≡ (take result rest.now, drop result rest.now) }
{
    let mut len = 0;
    while len < rest.len() && begins_any(outline, &rest[..len + 1]) {
        len += 1;
    }
    len
}

fn is_end_of_word(rest: &[u8]) -> bool
    ensures { result ≡ is_end_of_word rest.now }
{
    match rest.first() {
        None => true,
        Some(byte) => !is_word_byte(*byte),
    }
}

fn lowered(alloc: Global, text: &[u8]) -> Result<String, AllocError>
    requires { IsUtf8 text.now }
    ensures { IfOk result (λ t. string_bytes t ≡ str_to_ascii_lowercase text.now) }
{
    let mut lowered = String::from_utf8_lossy(alloc, text)?;
    lowered.make_ascii_lowercase();
    Ok(lowered)
}

#[tactic(auto, using(crate::proofs::Letters::name_is_utf8, crate::proofs::Letters::lowered_is_name))]
fn name_of<'a>(alloc: Global, text: &[u8]) -> Result<Name, Stop<'a>>
    requires { IsTrue (is_field_name text.now) }
    ensures { Gives (λ name. name) result (Ok (str_to_ascii_lowercase text.now)) }
{
    match Name::read(alloc, lowered(alloc, text)?.as_str()) {
        Ok(name) => Ok(name),
        Err(NameFault::Memory) => Err(Stop::Memory),
        Err(NameFault::Bad) => unreachable!(),
    }
}

fn word_token<'a>(alloc: Global, word: Word, head: &[u8]) -> Result<Token, Stop<'a>>
    requires { IsTrue (is_whole word head.now) }
    ensures { Gives meant result (Ok (word_token word head.now)) }
{
    match word {
        Word::Or => Ok(Token::Or),
        Word::And => Ok(Token::And),
        Word::Not => Ok(Token::Not),
        Word::Is => Ok(Token::Is),
        Word::Like => Ok(Token::Like),
        Word::Null => Ok(Token::Operand(Atom::Null)),
        Word::Priority => Ok(Token::Operand(Atom::Priority)),
        Word::Corr => Ok(Token::Operand(Atom::Corr)),
        Word::Cell => {
            let len = spelled(word).len();
            Ok(Token::Operand(Atom::Cell(name_of(alloc, &head[len..])?)))
        }
        Word::Prop => {
            let len = spelled(word).len();
            Ok(Token::Operand(Atom::Prop(name_of(alloc, &head[len..])?)))
        }
    }
}

/// The word at the front, of those that may come, and what is left behind it.
#[tactic(auto, unfolding(crate::specs::Lexing::found_word))]
pub fn word_at<'a>(
    alloc: Global,
    outline: &Outline,
    rest: &'a [u8],
) -> Result<(Token, &'a [u8]), Stop<'a>>
    ensures { Gives (λ x. (meant x.0, x.1.now)) result (word_at outline.now rest.now) }
{
    let (head, after) = rest.split_at(word_len(outline, rest));
    match found_word(outline, &WORDS, head) {
        Some(word) if is_end_of_word(after) => Ok((word_token(alloc, word, head)?, after)),
        _ => Err(Stop::At(after)),
    }
}
