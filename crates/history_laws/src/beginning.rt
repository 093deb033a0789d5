// A law over the definitions of `queue_rows`, a function without a body.
ghost use Rattle.history_laws.specs.Beginning.{ExampleBegins};

/// A history may begin with the tables of the example and its script.
pub fn example_begins()
    ensures { ExampleBegins }
{}
