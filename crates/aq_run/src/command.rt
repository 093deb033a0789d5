// The commands of the program, and the words that ask for them.
ghost use Rattle.std.specs.Prelude.{◌≡◌};
ghost use Rattle.aq_run.specs.Words.{is_serial_run, is_dump, is_compact, command_of};

use aq_base::Words;

/// A command of the program.
#[derive(Clone, Copy, Debug, PartialEq, Eq)]
pub enum Command {
    /// The script that is read is run over both databases.
    Run {
        /// Whether the turns follow the serial schedule. If not, each session is a thread of its own.
        serially: bool,
        /// Whether the trace of the run is printed in place of its transcript.
        traced: bool,
    },
    /// The tables of both databases are printed.
    Dump,
    /// The journals of both databases are compacted.
    Compact,
    /// A script is generated, run serially over two empty databases in memory, and summed up.
    Generate {
        /// The number that the script is drawn from.
        number: u64,
        /// How many sessions it has.
        sessions: u32,
        /// How many statements each of them has.
        statements: u32,
    },
    /// The trace that is read is checked against both databases.
    Audit,
}

fn is_serial_run(words: &Words) -> bool
    ensures { result ≡ is_serial_run words.now }
{
    words.count() == 2 && words.get(0) == Some("run") && words.get(1) == Some("--serial")
}

fn is_dump(words: &Words) -> bool
    ensures { result ≡ is_dump words.now }
{
    words.count() == 1 && words.get(0) == Some("dump")
}

fn is_compact(words: &Words) -> bool
    ensures { result ≡ is_compact words.now }
{
    words.count() == 1 && words.get(0) == Some("compact")
}

/// The command that the words ask for, if they ask for one that is there.
pub fn command_of(words: &Words) -> Option<Command>
    ensures { result ≡ command_of words.now }
{
    if is_serial_run(words) {
        Some(Command::Run {
            serially: true,
            traced: false,
        })
    } else if is_dump(words) {
        Some(Command::Dump)
    } else if is_compact(words) {
        Some(Command::Compact)
    } else {
        None
    }
}
