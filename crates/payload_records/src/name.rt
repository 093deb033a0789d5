// Names of tables, queues, sessions, fields and consumers.
ghost use Rattle.std.specs.Prelude.{◌≡◌, ◌++◌, IsTrue, IfOk, OnOk, IsErrOf, Some, false, refl};
ghost use Rattle.std.specs.Cmp.{on_equiv, on_per, on_po, on_total, partial_equiv_from_equiv};
ghost use Rattle.std.specs.Cmp.Rules.{hashing};
ghost use Rattle.std.specs.Cmp.Lexicographic.{slice_cmp, nat_list_eq_equiv, nat_list_cmp_total, texts_ties, texts_po};
ghost use Rattle.std.specs.List.{list_all};
ghost use Rattle.std.specs.Hash as fed;
ghost use Rattle.std.proofs.Common.{rules};
ghost use Rattle.std.specs.Ordering.{nat_cmp};
ghost use Rattle.std.specs.Str.{bytes_eq};
ghost use Rattle.payload_records.specs.Name.{is_name, is_name_byte, is_small_letter};
ghost use Rattle.payload_records.specs.declared.name.NameFault.TheVariants.{Memory};

use crate::small_text::SmallText;
use crate::{Copied, NAME_LIMIT};
use std::alloc::{AllocError, Global};
use std::cmp::Ordering;
use std::fmt;
use std::hash::{Hash, Hasher};
use std::marker::Model;

/// A name, which contracts see as its bytes.
#[derive(Drop)]
pub struct Name {
    bytes: SmallText,
}

impl Model for Name {
    ghost use Rattle.std.specs.Prelude.{List, ℕ};

    ghost Value = { List ℕ };

    ghost view = { λ n. n.bytes };
}

/// Why a text was not read as a name.
#[derive(Clone, Copy, Debug, PartialEq, Eq)]
pub enum NameFault {
    /// It is no name.
    Bad,
    /// There was no memory for it.
    Memory,
}

impl From<AllocError> for NameFault {
    ghost from_gives = { λ _ e. e ≡ Memory };

    fn from(_: AllocError) -> Self {
        NameFault::Memory
    }
}

fn is_small_letter(byte: u8) -> bool
    ensures { result ≡ is_small_letter byte }
{
    byte.is_ascii_lowercase()
}

fn is_name_byte(byte: u8) -> bool
    ensures { result ≡ is_name_byte byte }
{
    is_small_letter(byte) || byte.is_ascii_digit() || byte == b'_'
}

fn has_name_bytes(text: &[u8]) -> bool
    ensures { result ≡ list_all is_name_byte text.now }
{
    text.iter().all(|byte| is_name_byte(*byte))
}

fn is_name(text: &[u8]) -> bool
    ensures { result ≡ is_name text.now }
{
    match text {
        [] => false,
        [first, ..] => {
            is_small_letter(*first) && has_name_bytes(text) && text.len() <= NAME_LIMIT
        }
    }
}

impl Name {
    /// The name that a text is. `Bad` is told exactly where the text is none: a small letter, and
    /// then small letters, digits and underscores, 128 bytes at most.
    pub fn read(alloc: Global, text: &str) -> Result<Name, NameFault>
        ensures ok { IfOk result (λ name. name ≡ text.now) }
        ensures named { OnOk result (IsTrue (is_name text.now)) }
        ensures bad { IsErrOf result NameFault.Bad → is_name text.now ≡ false }
    {
        if !is_name(text.as_bytes()) {
            return Err(NameFault::Bad);
        }
        Ok(Name {
            bytes: SmallText::of(alloc, text)?,
        })
    }

    /// Whether it could be read as a name: so it is, unless a text behind it has made it none. It takes no memory.
    pub fn is_name(&self) -> bool
        ensures { result ≡ is_name self.now }
    {
        is_name(self.as_str().as_bytes())
    }

    /// The name with a text behind it. Nothing holds it to the limit of a name that is read.
    pub fn with_suffix(&self, suffix: &str) -> Result<Name, AllocError>
        ensures { IfOk result (λ name. name ≡ self.now ++ suffix.now) }
    {
        Ok(Name {
            bytes: self.bytes.followed_by(suffix)?,
        })
    }

    /// The bytes of the name as a text. It takes no memory.
    pub fn as_str(&self) -> &str
        ensures { result.now ≡ self.now }
    {
        self.bytes.as_str()
    }
}

impl Copied for Name {
    fn copied(&self) -> Result<Self, AllocError> {
        Ok(Name {
            bytes: self.bytes.copied()?,
        })
    }
}

impl PartialEq for Name {
    ghost eq = { bytes_eq };

    ghost laws = { on_per (λ n. n) (partial_equiv_from_equiv nat_list_eq_equiv) };

    fn eq(&self, other: &Self) -> bool {
        self.bytes.is_same(&other.bytes)
    }
}

impl Eq for Name {
    ghost laws = { on_equiv (λ n. n) nat_list_eq_equiv };
}

impl PartialOrd for Name {
    ghost partial_cmp = { λ a b. Some (slice_cmp nat_cmp a b) };

    ghost laws = { on_po (λ n. n) texts_po };

    fn partial_cmp(&self, other: &Self) -> Option<Ordering> {
        Some(self.cmp(other))
    }
}

impl Ord for Name {
    ghost cmp = { slice_cmp nat_cmp };

    ghost total = { on_total (λ n. n) nat_list_cmp_total };

    ghost matches_partial_cmp = { λ a b. refl };

    ghost matches_eq = { texts_ties };

    fn cmp(&self, other: &Self) -> Ordering {
        self.bytes.order(&other.bytes)
    }
}

impl Hash for Name {
    ghost hash_input = { λ n. fed.str n };

    ghost respects_eq = { Prim.search (hashing, rules) };

    fn hash<H: Hasher>(&self, state: &mut H) {
        self.as_str().hash(state);
    }
}

impl fmt::Debug for Name {
    fn fmt<W: fmt::Write>(&self, f: &mut fmt::Formatter<W>) -> fmt::Result {
        fmt::Debug::fmt(&self.as_str(), f)
    }
}
