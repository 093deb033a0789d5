// How many rows are looked at, worked out.
ghost use Rattle.rows_tests.specs.Bound.{StepsInExample};

/// In the example at most two rows are looked at where both ready messages may be given, and four where the nearest is held.
pub fn steps_in_example()
    ensures { StepsInExample }
{}
