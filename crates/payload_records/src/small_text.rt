// Texts that lie in place where they are short, and are shared where they are long.
ghost use Rattle.std.specs.Prelude.{◌≡◌, ◌≤◌, ◌+◌, ◌++◌, length, take, slice_range, IsUtf8, IfOk, Some, refl};
ghost use Rattle.std.specs.Bool.{Decides};
ghost use Rattle.std.specs.Int.{w64, from_le_bytes};
ghost use Rattle.std.specs.Cmp.{on_equiv, on_per, on_po, on_total, partial_equiv_from_equiv};
ghost use Rattle.std.specs.Cmp.Lexicographic.{slice_cmp, nat_list_eq_equiv, nat_list_cmp_total, texts_ties, texts_po};
ghost use Rattle.std.specs.Ordering.{nat_cmp};
ghost use Rattle.std.specs.Str.{bytes_eq};

use crate::{Copied, Shared};
use std::alloc::{AllocError, Global};
use std::cmp::Ordering;
use std::marker::Model;
use std::{fmt, str};

/// The most bytes that lie in place.
pub(crate) const IN_PLACE: usize = 22;

/// A text of at most 22 bytes, in place. Contracts see it as its bytes. Behind them all is zero, so that two texts are the
/// same where all 22 bytes and the lengths are, which takes a few words to see and no step for each byte.
#[derive(Drop)]
struct InlineText {
    bytes: [u8; 22],
    len: u8,
}

impl Model for InlineText {
    ghost use Rattle.std.specs.Prelude.{List, ℕ, ◌≡◌, ◌≤◌, ◌-◌, ◌++◌, take, replicate, IsUtf8};

    ghost Value = { List ℕ };

    ghost view = { λ s. take s.len s.bytes };

    ghost invariant = { λ s. (s.len ≤ 22) × ∥ IsUtf8 (take s.len s.bytes) ∥₁
        × (s.bytes ≡ take s.len s.bytes ++ replicate (22 - s.len) 0) };
}

impl InlineText {
    fn of(text: &str) -> InlineText
        requires { length text.now ≤ 22 }
        ensures { result ≡ text.now }
    {
        let mut bytes = [0; 22];
        bytes[..text.len()].copy_from_slice(text.as_bytes());
        InlineText {
            bytes,
            len: text.len() as u8,
        }
    }

    fn as_str(&self) -> &str
        ensures { result.now ≡ self.now }
    {
        unsafe { str::from_utf8_unchecked(&self.bytes[..self.len as usize]) }
    }

    fn is_same(&self, other: &InlineText) -> bool
        ensures { result ≡ bytes_eq self.now other.now }
    {
        self.len == other.len && are_same_bytes(&self.bytes, &other.bytes)
    }

    fn again(&self) -> InlineText
        ensures { result ≡ self.now }
    {
        InlineText {
            bytes: self.bytes,
            len: self.len,
        }
    }
}

// Whether the bytes are the same. Three words have all of them in, and some in two.
fn are_same_bytes(left: &[u8; 22], right: &[u8; 22]) -> bool
    ensures { Decides result (left.now ≡ right.now) }
{
    is_same_word(left, right, 0) && is_same_word(left, right, 8) && is_same_word(left, right, 14)
}

fn is_same_word(left: &[u8], right: &[u8], at: usize) -> bool
    requires { (at + 8 ≤ length left.now) × (at + 8 ≤ length right.now) }
    ensures { Decides result
        (slice_range left.now at (at + 8) ≡ slice_range right.now at (at + 8)) }
{
    word_at(left, at) == word_at(right, at)
}

fn word_at(bytes: &[u8], at: usize) -> u64
    requires { at + 8 ≤ length bytes.now }
    ensures { result ≡ from_le_bytes w64 (slice_range bytes.now at (at + 8)) }
{
    let b = &bytes[at..at + 8];
    u64::from_le_bytes([b[0], b[1], b[2], b[3], b[4], b[5], b[6], b[7]])
}

enum Storage {
    Inline(InlineText),
    OnHeap(Shared<String>),
}

impl Drop for Storage {
    fn drop(self) {
        match self {
            Self::Inline(_) => {}
            Self::OnHeap(_) => {}
        }
    }
}

/// The bytes of a text, which contracts see. A copy takes no memory.
#[derive(Drop)]
pub(crate) struct SmallText {
    storage: Storage,
    alloc: Global,
}

impl Model for SmallText {
    ghost use Rattle.std.specs.Prelude.{List, ℕ};

    ghost Value = { List ℕ };

    ghost use Rattle.payload_records.specs.SmallText.{stored_bytes};

    ghost view = { λ t. stored_bytes t.storage };
}

impl SmallText {
    /// The bytes of a text: up to 22 in place, which takes no memory.
    pub(crate) fn of(alloc: Global, text: &str) -> Result<SmallText, AllocError>
        ensures { IfOk result (λ t. t ≡ text.now) }
    {
        let storage = if text.len() <= IN_PLACE {
            Storage::Inline(InlineText::of(text))
        } else {
            Storage::OnHeap(Shared::new(alloc, String::from_str(alloc, text)?)?)
        };
        Ok(SmallText { storage, alloc })
    }

    /// The bytes, and then those of another text.
    pub(crate) fn followed_by(&self, more: &str) -> Result<SmallText, AllocError>
        ensures { IfOk result (λ t. t ≡ self.now ++ more.now) }
    {
        let mut text = String::from_str(self.alloc, self.as_str())?;
        text.push_str(more)?;
        SmallText::of(self.alloc, text.as_str())
    }

    /// The bytes as a text. It takes no memory.
    pub(crate) fn as_str(&self) -> &str
        ensures { result.now ≡ self.now }
    {
        match &self.storage {
            Storage::Inline(text) => text.as_str(),
            Storage::OnHeap(text) => text.as_str(),
        }
    }

    /// Whether the other text has the same bytes. It takes no memory.
    pub(crate) fn is_same(&self, other: &SmallText) -> bool
        ensures { result ≡ bytes_eq self.now other.now }
    {
        match (&self.storage, &other.storage) {
            (Storage::Inline(text), Storage::Inline(other)) => text.is_same(other),
            _ => self.as_str() == other.as_str(),
        }
    }

    /// How the bytes stand to those of the other text. It takes no memory.
    pub(crate) fn order(&self, other: &SmallText) -> Ordering
        ensures { result ≡ slice_cmp nat_cmp self.now other.now }
    {
        // (texts that are compared are mostly the same, which is seen sooner than their order)
        if self.is_same(other) {
            return Ordering::Equal;
        }
        self.as_str().cmp(other.as_str())
    }
}

impl Copied for SmallText {
    fn copied(&self) -> Result<Self, AllocError> {
        let storage = match &self.storage {
            Storage::Inline(text) => Storage::Inline(text.again()),
            Storage::OnHeap(text) => Storage::OnHeap(text.copied()?),
        };
        Ok(SmallText {
            storage,
            alloc: self.alloc,
        })
    }
}

impl fmt::Debug for SmallText {
    fn fmt<W: fmt::Write>(&self, f: &mut fmt::Formatter<W>) -> fmt::Result {
        fmt::Debug::fmt(&self.as_str(), f)
    }
}
