// Messages that are found by their stamps.
ghost use Rattle.std.specs.Prelude.{◌≡◌, List, option_copied};
ghost use Rattle.choice_laws.specs.Entries.{Entry, message_at};

use queue_rows::MsgRow;

/// Messages that are kept under stamps.
pub trait StampedMessages {
    ghost entries: { Self → List Entry };

    /// The message with that stamp. It takes no memory.
    fn message_at(&self, stamp: u64) -> Option<&MsgRow>
        ensures { option_copied result ≡ message_at (entries self.now) stamp };
}
