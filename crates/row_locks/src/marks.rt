// Going over the marks of one session.
ghost use Rattle.std.specs.Prelude.{◌≡◌, []};
ghost use Rattle.std.specs.Iterator.{YieldsFirstRef, item_count};
ghost use Rattle.row_locks.specs.Entries.{present};

use slot_marks::Mark;
use std::marker::Model;

/// The marks of a session in the order taken, each lent.
#[derive(Drop)]
pub struct Marks<'a> {
    entries: &'a [Option<Mark>],
}

impl<'a> Model for Marks<'a> {
    ghost use Rattle.std.specs.Prelude.{List as Sequence};
    ghost use Rattle.slot_marks.specs.declared.mark.Mark.{Mark};
    ghost use Rattle.row_locks.specs.Entries.{present};

    ghost Value = { Sequence Mark };

    ghost view = { λ m. present m.entries.now };
}

impl<'a> Marks<'a> {
    /// No marks. It takes no memory.
    pub(crate) fn none() -> Marks<'a>
        ensures { result ≡ [] }
    {
        Marks { entries: &[] }
    }

    /// The marks that are present.
    pub(crate) fn of(entries: &'a [Option<Mark>]) -> Marks<'a>
        ensures { result ≡ present entries.now }
    {
        Marks { entries }
    }
}

impl<'a> Iterator for Marks<'a> {
    type Item = &'a Mark;

    ghost next_gives = { YieldsFirstRef (λ m. m) };

    ghost remaining = { item_count (λ m. m) };

    fn next(&mut self) -> Option<&'a Mark> {
        while let Some((first, rest)) = self.entries.split_first() {
            self.entries = rest;
            if let Some(mark) = first {
                return Some(mark);
            }
        }
        None
    }
}
