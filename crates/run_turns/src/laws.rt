// Laws of worlds and legal histories, each a function without a body.
ghost use Rattle.run_turns.specs.Laws.{
  EndedStays,
  LegalCallsInOrder,
  SerialCallsAll,
  SerialFrontIsLegal,
  SerialIsDone,
  SerialIsLegal,
  SerialIsOne,
  StillStays,
};

/// A round in which no session is live changes nothing.
pub fn ended_stays()
    ensures { EndedStays }
{}

/// A step of the closing turn changes nothing when nothing is due and nothing can be sent.
pub fn still_stays()
    ensures { StillStays }
{}

/// There is one serial history of the same scripts and tables.
pub fn serial_is_one()
    ensures { SerialIsOne }
{}

/// In the serial history each session has called all of its statements, each once, in order.
pub fn serial_calls_all()
    ensures { SerialCallsAll }
{}

/// In a legal history each session has called the first some of its statements, each once, in order.
pub fn legal_calls_in_order()
    ensures { LegalCallsInOrder }
{}

/// The serial history is legal, by readings of the clock that counts seconds from the opening moment.
pub fn serial_is_legal()
    ensures { SerialIsLegal }
{}

/// The first part of a serial history is legal.
pub fn serial_front_is_legal()
    ensures { SerialFrontIsLegal }
{}

/// When the serial schedule has come to its end, each session has its End, every commit is durable, and nothing is due or can be sent.
pub fn serial_is_done()
    ensures { SerialIsDone }
{}
