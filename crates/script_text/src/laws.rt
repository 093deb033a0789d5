// What a caller may rely on without reading on.
ghost use Rattle.std.specs.Prelude.{List, ℕ};
ghost use Rattle.script_text.specs.Script.{NeedsOnlyTheFront};

/// What a text says as a script depends on no byte past the first one that is too many.
pub fn script_needs_only_the_front()
    ensures { (bytes : List ℕ) → NeedsOnlyTheFront bytes }
{}
