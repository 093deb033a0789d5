// Items that have names, and how one is sought.
ghost use Rattle.std.specs.Prelude.{◌≡◌, Bool, List as Sequence, ℕ};
ghost use Rattle.std.specs.Str.{bytes_eq};
ghost use Rattle.named_list.specs.Sought.{HasName};

use payload_records::Name;

/// An item that has a name.
pub trait Named: Sized {
    /// Its name.
    ghost name_of: { Self → Sequence ℕ };

    /// Its name. It takes no memory.
    fn name(&self) -> &Name
        ensures { result.now ≡ name_of self.now };
}

/// What an item is sought by: its name, and maybe more.
pub trait Sought<T: Named> {
    /// The name of what is sought.
    ghost wanted: { Self → Sequence ℕ };

    /// Whether an item is what is sought.
    ghost is: { Self → T → Bool };

    /// The name of what is sought. It takes no memory.
    fn name(&self) -> &Name
        ensures { result.now ≡ wanted self.now };

    /// Whether an item is what is sought. It takes no memory.
    fn is(&self, item: &T) -> bool
        ensures { result ≡ is self.now item.now };

    /// What is sought has the name.
    ghost has_name: { HasName T.name_of wanted is };
}

/// The first item of the name.
impl<T: Named> Sought<T> for Name {
    ghost wanted = { λ name. name };

    ghost is = { λ name item. bytes_eq (T.name_of item) name };

    ghost has_name = { λ name item same. same };

    fn name(&self) -> &Name {
        self
    }

    fn is(&self, item: &T) -> bool {
        *item.name() == *self
    }
}
