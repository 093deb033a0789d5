// The law of two nodes and the link between them, a function without a body.
ghost use Rattle.link_laws.specs.Laws.{LinkIsSafe};

/// Over every list of events from two valid databases, whatever the link loses, repeats and reorders and whenever
/// a node restarts: each slot is copied at most once, as it was, and what is confirmed stands at its destination.
pub fn link_is_safe()
    ensures { LinkIsSafe }
{}
