// Copies of tables.
ghost use Rattle.std.specs.Prelude.{◌≡◌, IfOk};

use payload_records::Copied;
use queue_rows::{MsgRow, Tables};
use row_tree::Tree;
use std::alloc::{AllocError, Global};

fn copied_messages(alloc: Global, messages: &Tree<MsgRow>) -> Result<Tree<MsgRow>, AllocError>
    ensures { IfOk result (λ copies. copies ≡ messages.now) }
{
    let mut copies = Tree::new();
    for message in messages {
        copies.append(alloc, message.copied()?)?;
    }
    Ok(copies)
}

/// A copy, which is the same tables.
pub fn copied_tables(alloc: Global, tables: &Tables) -> Result<Tables, AllocError>
    ensures { IfOk result (λ copy. copy ≡ tables.now) }
{
    Ok(Tables {
        tables: tables.tables.copied(alloc)?,
        queues: tables.queues.copied(alloc)?,
        subs: tables.subs.copied(alloc)?,
        schedules: tables.schedules.copied()?,
        messages: copied_messages(alloc, &tables.messages)?,
        seen: tables.seen.copied(alloc)?,
        next: tables.next,
        transaction: tables.transaction,
        latest: tables.latest,
    })
}
