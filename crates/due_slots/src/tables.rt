// Tables with the rows of what is due.
ghost use Rattle.std.specs.Prelude.{◌≡◌, ◌==◌, IfSome, position};
ghost use Rattle.due_slots.specs.Named.{NamesDue};

use due_index::DueIndex;
use queue_rows::MessageTables;

/// Tables, and the rows of what may be due in them.
pub trait DueTables: MessageTables {
    /// The rows, where they are kept: whatever due work may name at a moment has one then or before, a slot by its number, and a
    /// message that goes by the number 0. Where none are kept, due work goes over all messages. It takes no memory.
    fn due_rows(&self) -> Option<&DueIndex>
        ensures { IfSome result (λ index. NamesDue (Self.tables self.now) index.now.rows) };

    /// Where the message of that number stands among all. It takes no memory.
    fn rank_of(&self, id: u64) -> Option<usize>
        ensures { result ≡ position (λ m. m.id == id) (Self.tables self.now).messages };
}
