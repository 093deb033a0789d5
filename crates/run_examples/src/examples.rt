// Examples, each a function without a body.
ghost use Rattle.run_examples.specs.Examples.{
  ExampleIsExpired,
  ExampleIsGivenUp,
  ExampleIsPut,
  ExampleIsSent,
  ExampleIsTaken,
  ExampleIsWaited,
};

/// A message is taken: its slot is processed, and what was committed is durable when that is told.
pub fn example_is_taken()
    ensures { ExampleIsTaken }
{}

/// A message is rolled back once too often, and goes to the exception queue.
pub fn example_is_given_up()
    ensures { ExampleIsGivenUp }
{}

/// A message is put in beside another one: both are ready.
pub fn example_is_put()
    ensures { ExampleIsPut }
{}

/// A message expires, and goes to the exception queue, before a statement is called.
pub fn example_expires()
    ensures { ExampleIsExpired }
{}

/// A dequeue waits, which is noted once, and is answered when its wait is over.
pub fn example_waits()
    ensures { ExampleIsWaited }
{}

/// A message is sent to the other database, where it arrives once, and is confirmed when that is durable.
pub fn example_is_sent()
    ensures { ExampleIsSent }
{}
