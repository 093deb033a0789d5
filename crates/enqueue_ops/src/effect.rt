// Effects of enqueues.
ghost use Rattle.std.specs.Prelude.{◌≡◌, None};
ghost use Rattle.enqueue_ops.specs.Enqueued.{IsRefusal};

use queue_rows::Reply;
use sessions::Effect;
use std::alloc::Global;

/// The enqueue is refused.
pub(crate) fn refused(alloc: Global, reply: Reply) -> Effect
    ensures means { IsRefusal reply result }
    ensures unmarked { result.mark ≡ None }
{
    Effect::answered(alloc, reply)
}
