// Changes of a group where it stands.
ghost use Rattle.std.specs.Prelude.{◌≡◌, ◌+◌, ◌<◌, ◌==◌, ◌^◌, ⊤, length};
ghost use Rattle.std.specs.List.{find};
ghost use Rattle.std.specs.Option.{option_map};
ghost use Rattle.row_tree.specs.Changes.{set_in_order};
ghost use Rattle.sort_index.specs.Ready.{is_row, ready_cmp, without_row};
ghost use Rattle.sort_index.specs.ReadyLaws.{own_names};

use crate::bounds::AtRow;
use crate::{Group, Ready};
use place_keys::Place;
use row_tree::{Change, Spare};

/// A row that is put in, in place of the one that stands at its place with its id.
#[derive(Drop)]
pub(crate) struct RowSet {
    pub(crate) row: Ready,
    pub(crate) spare: Spare<Ready>,
}

/// The row with an id at a place is taken out. It tells the row's slot, and whether no row is left.
#[derive(Drop)]
pub(crate) struct RowTaken<'a> {
    pub(crate) place: &'a Place,
    pub(crate) id: u64,
}

impl Change<Group> for RowSet {
    type Told = ();

    ghost allowed = { λ _ group. length group.rows + 1 < 2 ^ 64 };

    ghost changed = { λ set group. record group { rows = set_in_order ready_cmp set.row group.rows } };

    ghost tells = { λ _ _. tt };

    fn change(self, mut group: Group) -> (Group, ()) {
        group.rows.set(self.row, self.spare);
        (group, ())
    }

    ghost stays = { λ set group. own_names group (set_in_order ready_cmp set.row group.rows) };
}

impl<'a> Change<Group> for RowTaken<'a> {
    type Told = (Option<u32>, bool);

    ghost allowed = { λ _ _. ⊤ };

    ghost changed = { λ t group. record group { rows = without_row t.place.now t.id group.rows } };

    ghost tells = { λ t group. (
      option_map (λ row. row.slot) (find (is_row t.place.now t.id) group.rows),
      length (without_row t.place.now t.id group.rows) == 0,
    ) };

    fn change(self, mut group: Group) -> (Group, (Option<u32>, bool)) {
        let slot = taken_slot(
            group.rows.take_at(&AtRow {
                place: self.place,
                id: self.id,
            }),
        );
        let is_empty = group.rows.len() == 0;
        (group, (slot, is_empty))
    }

    ghost stays = { λ t group. own_names group (without_row t.place.now t.id group.rows) };
}

fn taken_slot(taken: Option<(Ready, Spare<Ready>)>) -> Option<u32>
    ensures { result ≡ option_map (λ taken. taken.0.slot) taken }
{
    let (row, _spare) = taken?;
    Some(row.slot)
}
