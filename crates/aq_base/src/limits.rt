// The limits of an input and of what it asks for.
ghost use Rattle.std.specs.Prelude.{◌≡◌, ◌-◌, ◌^◌};

/// The most bytes of an input.
pub const INPUT_LIMIT: usize = 67_108_864;
/// The most bytes of a line, without its line feed.
pub const LINE_LIMIT: usize = 65_536;
/// The most statements of a script.
pub const STATEMENT_LIMIT: usize = 1_000_000;
/// The most sessions of a script.
pub const SESSION_LIMIT: usize = 64;
/// The most bytes of the name of a queue table, whose exception queue has two more.
pub const TABLE_NAME_LIMIT: usize = 126;
/// The most recipients that an enqueue may list, and that a message may have.
pub const RECIPIENT_LIMIT: usize = 64;
/// The most subscribers of a queue.
pub const SUBSCRIBER_LIMIT: usize = 1_024;
/// The most agents of a listen.
pub const AGENT_LIMIT: usize = 64;
/// The most bytes of a correlation.
pub const CORRELATION_LIMIT: usize = 128;
/// The most bytes of a rule, a condition or a pattern.
pub const CONDITION_LIMIT: usize = 4_000;
/// The most seconds that a statement may wait.
pub const WAIT_LIMIT: u64 = 86_400;
/// The most seconds of a delay, an expiration, a retry delay, a retention, a latency, a duration and
/// a period.
pub const TIME_LIMIT: u64 = 1_000_000_000;
/// The most retries that a queue may allow.
pub const MAX_RETRIES_LIMIT: u64 = 2_147_483_647;
/// The greatest moment, in seconds: a later reading of a clock counts as this.
pub const MOMENT_LIMIT: u64 = 1 << 62;
/// The greatest number of a message that can be named.
pub const ID_LIMIT: u64 = (1 << 62) - 1;
/// The greatest number that the next message of a database may be going to have.
pub const NEXT_LIMIT: u64 = 1 << 61;

/// The number of each limit, so that none of them can be another one.
pub fn limits_have_their_numbers()
    ensures input { INPUT_LIMIT ≡ 67108864 }
    ensures line { LINE_LIMIT ≡ 65536 }
    ensures statements { STATEMENT_LIMIT ≡ 1000000 }
    ensures sessions { SESSION_LIMIT ≡ 64 }
    ensures table_name { TABLE_NAME_LIMIT ≡ 126 }
    ensures recipients { RECIPIENT_LIMIT ≡ 64 }
    ensures subscribers { SUBSCRIBER_LIMIT ≡ 1024 }
    ensures agents { AGENT_LIMIT ≡ 64 }
    ensures correlation { CORRELATION_LIMIT ≡ 128 }
    ensures condition { CONDITION_LIMIT ≡ 4000 }
    ensures wait { WAIT_LIMIT ≡ 86400 }
    ensures time { TIME_LIMIT ≡ 1000000000 }
    ensures max_retries { MAX_RETRIES_LIMIT ≡ 2147483647 }
    ensures moment { MOMENT_LIMIT ≡ 2 ^ 62 }
    ensures id { ID_LIMIT ≡ 2 ^ 62 - 1 }
    ensures next { NEXT_LIMIT ≡ 2 ^ 61 }
{}
