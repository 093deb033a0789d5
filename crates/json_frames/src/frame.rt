// An object's text but for an object within it.
ghost use Rattle.std.specs.Prelude.{◌≡◌, ◌<◌, ◌==◌, ◌++◌, ◌∷◌, [], List, ℕ, length, position, option_map, IfOk, IfSome, IfNone, is_some, true, false};
ghost use Rattle.std.specs.List.{list_all};
ghost use Rattle.std.specs.Str.{is_utf8};
ghost use Rattle.json_frames.specs.Frame.{is_plain, opens_plain, is_open, ends_at, is_front, is_flat, json_of, cut_around, is_around, frame_of, IsFrame};

use crate::mode::is_closed;
use memchr::memchr;
use serde_json::Value;
use std::alloc::{AllocError, Global};
use std::marker::Model;

fn are_plain(text: &[u8]) -> bool
    ensures { result ≡ list_all is_plain text.now }
{
    text.iter()
        .all(|byte| !(*byte == b'{' || *byte == b'[' || *byte == b'\\'))
}

fn opens_plain(text: &[u8]) -> bool
    ensures { result ≡ opens_plain text.now }
{
    match text {
        [b'{', rest @ ..] => are_plain(rest),
        _ => false,
    }
}

fn is_open(text: &[u8]) -> bool
    ensures { result ≡ is_open text.now }
{
    match text {
        [b'{', rest @ ..] => are_plain(rest) && is_closed(rest),
        _ => false,
    }
}

#[tactic(auto, using(crate::proofs::Ends::last_is_end, crate::proofs::Ends::no_last))]
fn ends_at(byte: u8, text: &[u8]) -> bool
    ensures { result ≡ ends_at byte text.now }
{
    match text.last() {
        Some(last) => *last == byte,
        None => false,
    }
}

fn is_front(text: &[u8]) -> bool
    ensures { result ≡ is_front text.now }
{
    is_open(text) && ends_at(b':', text)
}

fn is_flat(text: &[u8]) -> bool
    ensures { result ≡ is_flat text.now }
{
    opens_plain(text) && ends_at(b'}', text)
}

/// Two texts between which any flat object may stand: the whole is one JSON object then, the same but for that one.
pub struct Frame {
    front: Vec<u8>,
    back: Vec<u8>,
}

impl Drop for Frame {
    fn drop(self) {
        let Self { front: _, back: _ } = self;
    }
}

impl Model for Frame {
    ghost use Rattle.std.specs.Prelude.{ℕ, List};
    ghost use Rattle.json_frames.specs.Frame.{IsFrame};

    ghost Value = { List ℕ × List ℕ };

    ghost view = { λ f. (f.front.items, f.back.items) };

    ghost invariant = { λ f. IsFrame f.front.items f.back.items };
}

#[tactic(auto, using(crate::proofs::Positions::first_is_position))]
fn first_open(text: &[u8]) -> Option<usize>
    ensures at { result ≡ position (λ byte. byte == 123) text.now }
    ensures within { IfSome result (λ at. at < length text.now) }
{
    memchr(b'{', text)
}

#[tactic(auto, using(crate::proofs::Positions::first_is_position))]
fn first_close(text: &[u8]) -> Option<usize>
    ensures at { result ≡ position (λ byte. byte == 125) text.now }
    ensures within { IfSome result (λ at. at < length text.now) }
{
    memchr(b'}', text)
}

// Before and behind the first object in a text that opens an object.
fn cut(text: &[u8]) -> Option<(&[u8], &[u8])>
    ensures { option_map (λ parts. (parts.0.now, parts.1.now)) result ≡ cut_around text.now }
{
    let (_first, behind) = text.split_first()?;
    let open = first_open(behind)?;
    let (_before, inner) = behind.split_at(open);
    let close = first_close(inner)?;
    let (front, _rest) = text.split_at(open + 1);
    let (_inner, back) = inner.split_at(close + 1);
    Some((front, back))
}

// What stands between the two in a text that begins with the one and ends with the other.
#[tactic(auto, using(crate::proofs::Inner::parted, crate::proofs::Inner::too_short, crate::proofs::Inner::front_is, crate::proofs::Inner::back_is))]
fn between<'t>(front: &[u8], text: &'t [u8], back: &[u8]) -> Option<&'t [u8]>
    ensures some { IfSome result (λ inner. text.now ≡ front.now ++ (inner.now ++ back.now)) }
    ensures none { IfNone result ((inner : List ℕ)
        → text.now ≡ front.now ++ (inner ++ back.now) → ⊥) }
{
    if text.len() < front.len() + back.len() {
        return None;
    }
    let (before, rest) = text.split_at(front.len());
    let (inner, behind) = rest.split_at(rest.len() - back.len());
    if before != front {
        return None;
    }
    if behind != back {
        return None;
    }
    Some(inner)
}

fn joined(alloc: Global, front: &[u8], inner: &[u8], back: &[u8]) -> Result<Vec<u8>, AllocError>
    ensures { IfOk result (λ text. text.items ≡ front.now ++ (inner.now ++ back.now)) }
{
    let mut text = Vec::new(alloc);
    text.extend_from_slice(front)?;
    text.extend_from_slice(inner)?;
    text.extend_from_slice(back)?;
    Ok(text)
}

// Whether the whole is JSON where an object without members stands between the two.
#[tactic(auto, using(crate::proofs::Texts::json_read, crate::proofs::Texts::json_unread))]
fn is_json_around(alloc: Global, front: &[u8], back: &[u8]) -> Result<bool, AllocError>
    ensures { IfOk result (λ is. is
        ≡ is_some (json_of (front.now ++ ((123 ∷ 125 ∷ []) ++ back.now)))) }
{
    let text = joined(alloc, front, b"{}", back)?;
    match Value::from_slice(alloc, &text) {
        Ok(_value) => Ok(true),
        Err(e) if e.is_memory() => Err(AllocError),
        Err(_e) => Ok(false),
    }
}

#[tactic(auto, using(crate::proofs::Texts::text_is_utf8, crate::proofs::Texts::other_is_not))]
fn is_text(bytes: &[u8]) -> bool
    ensures { result ≡ is_utf8 bytes.now }
{
    match std::str::from_utf8(bytes) {
        Ok(_text) => true,
        Err(_fault) => false,
    }
}

fn is_around(alloc: Global, front: &[u8], back: &[u8]) -> Result<bool, AllocError>
    ensures { IfOk result (λ is. is ≡ is_around front.now back.now) }
{
    if is_front(front) && is_text(front) && is_text(back) {
        is_json_around(alloc, front, back)
    } else {
        Ok(false)
    }
}

fn copied(alloc: Global, bytes: &[u8]) -> Result<Vec<u8>, AllocError>
    ensures { IfOk result (λ copy. copy.items ≡ bytes.now) }
{
    let mut copy = Vec::new(alloc);
    copy.extend_from_slice(bytes)?;
    Ok(copy)
}

fn framed(alloc: Global, front: &[u8], back: &[u8]) -> Result<Frame, AllocError>
    requires { IsFrame front.now back.now }
    ensures { IfOk result (λ frame. frame ≡ (front.now, back.now)) }
{
    let front = copied(alloc, front)?;
    let back = copied(alloc, back)?;
    Ok(Frame { front, back })
}

impl Frame {
    /// The text around the first object within a text, where it is known that any flat object may stand there: the text is a JSON
    /// object, and before that one it has no list, no other object and no escape.
    #[tactic(auto, using(crate::proofs::Frames::from_around))]
    pub fn around(alloc: Global, text: &[u8]) -> Result<Option<Frame>, AllocError>
        ensures found { IfOk result (λ found. found ≡ frame_of text.now) }
        ensures frame { IfOk result (λ found. IfSome found (λ frame. IsFrame frame.0 frame.1)) }
    {
        let Some((front, back)) = cut(text) else {
            return Ok(None);
        };
        if !is_around(alloc, front, back)? {
            return Ok(None);
        }
        Ok(Some(framed(alloc, front, back)?))
    }

    /// The whole, with that text in it.
    pub fn with(&self, alloc: Global, inner: &[u8]) -> Result<Vec<u8>, AllocError>
        ensures { IfOk result (λ text. text.items ≡ self.now.0 ++ (inner.now ++ self.now.1)) }
    {
        joined(alloc, &self.front, inner, &self.back)
    }

    /// The flat object that stands in a text where it can stand in the frame, if the text is the same around it.
    #[tactic(auto, using(crate::proofs::Inner::one_part))]
    pub fn inner<'t>(&self, text: &'t [u8]) -> Option<&'t [u8]>
        ensures some { IfSome result (λ inner. (text.now ≡ self.now.0 ++ (inner.now ++ self.now.1))
            × (is_flat inner.now ≡ true)) }
        ensures none { IfNone result ((inner : List ℕ)
            → text.now ≡ self.now.0 ++ (inner ++ self.now.1) → is_flat inner ≡ false) }
    {
        let inner = between(&self.front, text, &self.back)?;
        if is_flat(inner) { Some(inner) } else { None }
    }
}
