// The rows of a queue and consumer past a place, one after the other.
ghost use Rattle.std.specs.Prelude.{◌≡◌, ◌+◌, ◌<◌, [], ◌∷◌, drop, filter, length, option_copied, slice_get, IfNone, IfSome};
ghost use Rattle.std.specs.Option.{option_to_list, unwrap_or};
ghost use Rattle.sort_index.specs.Ready.{is_past};

use crate::bounds::PastPlace;
use crate::{Ready, Steps};
use place_keys::Place;
use row_tree::Ordered;
use std::marker::Model;
use std::sync::ledger::Ledger;

/// The rows of a queue and consumer past a place, each lent. Contracts see those that are to come.
#[derive(Drop)]
pub struct RowsPast<'a> {
    rows: Option<&'a Ordered<Ready>>,
    at: usize,
}

impl<'a> Model for RowsPast<'a> {
    ghost use Rattle.std.specs.Prelude.{List, [], drop, option_copied};
    ghost use Rattle.std.specs.Option.{unwrap_or};
    ghost use Rattle.sort_index.specs.declared.group.Ready.{Ready};

    ghost Value = { List Ready };

    ghost view = { λ p. drop p.at (unwrap_or (option_copied p.rows) []) };
}

// How many rows stand before those past all at a place, where one is given.
#[tactic(auto, using(crate::proofs::Past::all_past, crate::proofs::Past::behind_past))]
fn rank_past(rows: &Ordered<Ready>, after: Option<&Place>) -> usize
    ensures { drop result rows.now ≡ filter (is_past (option_copied after.entry)) rows.now }
{
    match after {
        None => 0,
        Some(place) => rows.rank(&PastPlace { place }),
    }
}

impl<'a> RowsPast<'a> {
    /// None. It takes no memory.
    pub(crate) fn none() -> RowsPast<'a>
        ensures { result ≡ [] }
    {
        RowsPast { rows: None, at: 0 }
    }

    /// Those of these rows that stand past all at a place, where one is given. It takes no memory.
    pub(crate) fn of(rows: &'a Ordered<Ready>, after: Option<&Place>) -> RowsPast<'a>
        ensures { result ≡ filter (is_past (option_copied after.entry)) rows.now }
    {
        let at = rank_past(rows, after);
        RowsPast {
            rows: Some(rows),
            at,
        }
    }

    /// The next of the rows, or None where there is no more. It takes no memory.
    pub fn next<L: Ledger>(&mut self, steps: &mut Steps<L>) -> Option<&'a Ready>
        ensures some { IfSome result (λ row. self.old ≡ row.now ∷ self.new) }
        ensures none { IfNone result ((self.old ≡ []) × (self.new ≡ [])) }
        ensures steps { steps.new ≡ steps.old + length (option_to_list result) }
    {
        match row_at(self.rows, self.at) {
            None => None,
            Some(row) => {
                self.at += 1;
                steps.tick();
                Some(row)
            }
        }
    }
}

// The row at an index of rows, where they are there.
fn row_at<'a>(rows: Option<&'a Ordered<Ready>>, at: usize) -> Option<&'a Ready>
    ensures row { option_copied result ≡ slice_get (unwrap_or (option_copied rows.entry) []) at }
    ensures within { IfSome result (λ _. at < usize.MAX) }
{
    let rows = rows?;
    if at >= rows.len() {
        return None;
    }
    rows.get(at)
}
