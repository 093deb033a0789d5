// Messages found by their numbers.
ghost use Rattle.std.specs.Prelude.{◌≡◌, ◌==◌, find, option_copied};
ghost use Rattle.message_index.specs.Messages.{ids_of};

use crate::message_index::MessageIndex;
use queue_rows::MsgRow;
use row_tree::Tree;

/// The first message of that number, by the index of all. It does not go over the messages.
pub fn find<'a>(messages: &'a Tree<MsgRow>, index: &MessageIndex, id: u64) -> Option<&'a MsgRow>
    requires { index.now.ids ≡ ids_of messages.now }
    ensures { option_copied result ≡ find (λ m. m.id == id) messages.now }
{
    let at = index.position(id)?;
    messages.get(at)
}
