// A value with several owners, which contracts see as the value itself.
ghost use Rattle.std.specs.Prelude.{◌≡◌, IfOk};
ghost use Rattle.std.specs.Cmp.{on_equiv, on_per};
ghost use Rattle.std.specs.Borrow.{LendsSoOk, sem};
ghost use Rattle.payload_records.specs.contracts.shared.Shared.{the_row};

use crate::Copied;
use std::alloc::{AllocError, Global};
use std::marker::Model;
use std::ops::Deref;
use std::sync::Arc;

/// A value that is never changed and has one or more owners, in any threads. Contracts see it as the
/// value itself, so that a copy, which is one more owner, equals what it copies.
#[derive(Debug, Drop)]
pub struct Shared<T> {
    inner: Arc<T>,
}

impl<T> Model for Shared<T> {
    ghost use Rattle.std.specs.Prelude.{◌≡◌};

    ghost Value = { T };

    ghost coded = { T.code };

    ghost view = { λ s. s.inner.value };
}

impl<T: Drop> Shared<T> {
    /// Puts a value on the heap, with one owner.
    pub fn new(alloc: Global, value: T) -> Result<Shared<T>, AllocError>
        ensures { IfOk result (λ s. s ≡ value) }
    {
        Ok(Shared {
            inner: Arc::new(alloc, value)?,
        })
    }
}

impl<T: Copied + Drop> Shared<T> {
    /// The value as one's own: it is taken out where it has no other owner, and copied else.
    pub fn into_inner(self) -> Result<T, AllocError>
        ensures { IfOk result (λ value. value ≡ self) }
    {
        match Arc::try_unwrap(self.inner) {
            Ok(value) => Ok(value),
            Err(inner) => inner.copied(),
        }
    }

    /// Lends the value to be written. Where it has other owners, this one gets a copy of it first, and the others keep
    /// theirs. At want of memory it is as before.
    pub fn make_mut(&mut self, alloc: Global) -> Result<&mut T, AllocError>
        ensures* writes_back { sem 𝓛 (LendsSoOk (the_row T.row) T.row self.entry result
            (λ new written. new ≡ written) (λ new. new ≡ self.old)) }
        ensures value { IfOk result (λ value. value.now ≡ self.old) }
    {
        if Arc::strong_count(&self.inner) != 1 {
            let value = self.inner.copied()?;
            self.inner = Arc::new(alloc, value)?;
        }
        match Arc::get_mut(&mut self.inner) {
            Some(value) => Ok(value),
            None => Err(AllocError),
        }
    }
}

impl<T> Deref for Shared<T> {
    type Target = T;

    ghost deref_gives = { λ s x. x ≡ s };

    /// The value. It takes no memory.
    fn deref(&self) -> &T
        ensures { result.now ≡ self.now }
    {
        &self.inner
    }
}

impl<T> Copied for Shared<T> {
    /// One more owner of the value. It takes no memory, and answers want of it only where the count
    /// of owners is full.
    fn copied(&self) -> Result<Self, AllocError> {
        Ok(Shared {
            inner: Arc::try_clone(&self.inner)?,
        })
    }
}

impl<T: PartialEq> PartialEq for Shared<T> {
    ghost eq = { λ a b. T.eq a b };

    ghost laws = { on_per (λ s. s) T.laws };

    fn eq(&self, other: &Self) -> bool {
        **self == **other
    }
}

impl<T: Eq> Eq for Shared<T> {
    ghost laws = { on_equiv (λ s. s) T.Eq.laws };
}
