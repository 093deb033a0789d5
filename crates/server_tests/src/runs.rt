// Scripts, what their runs print, and what a dump has once a line was told.

/// Once the line was told, a dump has the text, or lacks it.
pub type Sure = (&'static str, bool, &'static str);

/// A run: its script, what it prints, and what is sure by what was told of it.
#[derive(Clone, Copy)]
pub struct Run {
    pub script: &'static str,
    pub printed: &'static str,
    pub sure: &'static [Sure],
}

// ---- one session

const ONE_SESSION: &str = "{\"session\":\"s1\",\"at\":\"home\"}
{\"s\":\"s1\",\"do\":\"create-table\",\"table\":\"t\",\"fields\":{\"qty\":\"num\"}}
{\"s\":\"s1\",\"do\":\"create-queue\",\"queue\":\"q\",\"table\":\"t\"}
{\"s\":\"s1\",\"do\":\"start-queue\",\"queue\":\"q\"}
{\"s\":\"s1\",\"do\":\"enqueue\",\"queue\":\"q\",\"payload\":{\"qty\":3},\"visibility\":\"immediate\"}
{\"s\":\"s1\",\"do\":\"dequeue\",\"queue\":\"q\",\"visibility\":\"immediate\"}
";

/// From empty disks to a message that is put in and taken out.
pub const FIRST_PATH: Run = Run {
    script: ONE_SESSION,
    printed: "s1.1 create-table ok
s1.2 create-queue ok
s1.3 start-queue ok
s1.4 enqueue ok h1
s1.5 dequeue message h1 priority 1 retries 0 corr null {\"qty\":3}
s1 end
",
    sure: &[
        ("create-table ok", true, "table t fields"),
        ("create-queue ok", true, "queue q table t normal"),
        ("start-queue ok", true, "enqueue on dequeue on"),
        ("enqueue ok", true, "database home next 2"),
        ("dequeue message", false, "message h1"),
    ],
};

/// The same over what that run left.
pub const SECOND_PATH: Run = Run {
    script: ONE_SESSION,
    printed: "s1.1 create-table exists
s1.2 create-queue exists
s1.3 start-queue ok
s1.4 enqueue ok h2
s1.5 dequeue message h2 priority 1 retries 0 corr null {\"qty\":3}
s1 end
",
    sure: &[
        ("", true, "queue q table t normal enqueue on dequeue on"),
        ("enqueue ok", true, "database home next 3"),
        ("dequeue message", false, "message h2"),
    ],
};

// ---- orders

/// Orders at home, whose bills go to away.
pub const SHOP: &str = "{\"session\":\"admin\",\"at\":\"home\"}
{\"session\":\"books\",\"at\":\"away\"}
{\"s\":\"admin\",\"do\":\"create-table\",\"table\":\"orders\",\"fields\":{\"price\":\"num\",\"qty\":\"num\",\"region\":\"text\"},\
\"sort\":[\"priority\",\"enq_time\"],\"multi\":true}
{\"s\":\"admin\",\"do\":\"create-queue\",\"queue\":\"orders_q\",\"table\":\"orders\",\"max_retries\":2}
{\"s\":\"admin\",\"do\":\"start-queue\",\"queue\":\"orders_q\"}
{\"s\":\"admin\",\"do\":\"add-subscriber\",\"queue\":\"orders_q\",\"name\":\"east\",\"rule\":\"tab.user_data.region = 'east'\"}
{\"s\":\"admin\",\"do\":\"add-subscriber\",\"queue\":\"orders_q\",\"name\":\"rush\",\
\"rule\":\"tab.priority < 0 OR tab.corrid LIKE 'VIP%'\"}
{\"s\":\"admin\",\"do\":\"add-subscriber\",\"queue\":\"orders_q\",\"name\":\"acct\",\"address\":\"bills\",\
\"rule\":\"tab.user_data.qty * tab.user_data.price >= 1000\"}
{\"s\":\"admin\",\"do\":\"schedule\",\"queue\":\"orders_q\",\"to\":\"bills\",\"latency\":0}
{\"s\":\"books\",\"do\":\"create-table\",\"table\":\"bills_t\",\"fields\":{\"price\":\"num\",\"qty\":\"num\",\"region\":\"text\"}}
{\"s\":\"books\",\"do\":\"create-queue\",\"queue\":\"bills\",\"table\":\"bills_t\"}
{\"s\":\"books\",\"do\":\"start-queue\",\"queue\":\"bills\"}
";

/// Orders that come, are taken, rolled back and billed, over what the shop left.
pub const ORDERS: Run = Run {
    script: "{\"session\":\"web\",\"at\":\"home\"}
{\"session\":\"east\",\"at\":\"home\"}
{\"session\":\"rush\",\"at\":\"home\"}
{\"session\":\"acct\",\"at\":\"away\"}
{\"s\":\"web\",\"do\":\"enqueue\",\"queue\":\"orders_q\",\"payload\":{\"qty\":2,\"price\":100,\"region\":\"east\"}}
{\"s\":\"web\",\"do\":\"enqueue\",\"queue\":\"orders_q\",\"payload\":{\"qty\":5,\"price\":300,\"region\":\"west\"},\
\"priority\":-1,\"corr\":\"VIP7\"}
{\"s\":\"web\",\"do\":\"enqueue\",\"queue\":\"orders_q\",\"payload\":{\"qty\":1,\"price\":10,\"region\":\"west\"}}
{\"s\":\"web\",\"do\":\"enqueue\",\"queue\":\"orders_q\",\"payload\":{\"qty\":9,\"price\":500,\"region\":\"east\"},\"priority\":0}
{\"s\":\"web\",\"do\":\"commit\"}
{\"s\":\"east\",\"do\":\"dequeue\",\"queue\":\"orders_q\",\"consumer\":\"east\",\"wait\":60}
{\"s\":\"east\",\"do\":\"rollback\"}
{\"s\":\"east\",\"do\":\"dequeue\",\"queue\":\"orders_q\",\"consumer\":\"east\"}
{\"s\":\"east\",\"do\":\"dequeue\",\"queue\":\"orders_q\",\"consumer\":\"east\"}
{\"s\":\"east\",\"do\":\"commit\"}
{\"s\":\"rush\",\"do\":\"dequeue\",\"queue\":\"orders_q\",\"consumer\":\"rush\",\"wait\":60}
{\"s\":\"rush\",\"do\":\"commit\"}
{\"s\":\"acct\",\"do\":\"dequeue\",\"queue\":\"bills\",\"visibility\":\"immediate\",\"wait\":60}
{\"s\":\"acct\",\"do\":\"dequeue\",\"queue\":\"bills\",\"visibility\":\"immediate\",\"wait\":60}
",
    printed: "web.1 enqueue ok h1
web.2 enqueue ok h2
web.3 enqueue no-recipients
web.4 enqueue ok h3
web.5 commit ok
east.1 dequeue message h3 priority 0 retries 0 corr null {\"price\":500,\"qty\":9,\"region\":\"east\"}
rush.1 dequeue message h2 priority -1 retries 0 corr \"VIP7\" {\"price\":300,\"qty\":5,\"region\":\"west\"}
offer h2.2 to bills
web end
east.2 rollback ok
rush.2 commit ok
arrive h2.2 as a1
east.3 dequeue message h3 priority 0 retries 1 corr null {\"price\":500,\"qty\":9,\"region\":\"east\"}
rush end
acct.1 dequeue message a1 priority -1 retries 0 corr \"VIP7\" {\"price\":300,\"qty\":5,\"region\":\"west\"}
confirm h2.2
east.4 dequeue message h1 priority 1 retries 0 corr null {\"price\":100,\"qty\":2,\"region\":\"east\"}
offer h3.2 to bills
east.5 commit ok
arrive h3.2 as a2
east end
acct.2 dequeue message a2 priority 0 retries 0 corr null {\"price\":500,\"qty\":9,\"region\":\"east\"}
confirm h3.2
acct end
",
    // Of each commit what it leaves for good, by the first reply that was told behind it, or by a step that rests on it.
    sure: &[
        (
            "",
            true,
            "rule \"tab.user_data.qty * tab.user_data.price >= 1000\"\nschedule orders_q to bills enabled",
        ),
        (
            "",
            true,
            "queue bills table bills_t normal enqueue on dequeue on",
        ),
        (
            "web.5 commit ok",
            true,
            "database home next 4 transaction 2",
        ),
        (
            "offer h2.2 to bills",
            true,
            "database home next 4 transaction 2",
        ),
        (
            "east.2 rollback ok",
            false,
            "slot h3.1 name east address null ready retries 0",
        ),
        (
            "rush.2 commit ok",
            false,
            "slot h2.1 name rush address null ready",
        ),
        ("east.3 dequeue message", true, "seen h2.2 as a1"),
        ("acct.1 dequeue message", false, "message a1"),
        ("confirm h2.2", true, "seen h2.2 as a1"),
        ("east.4 dequeue message", false, "message h2"),
        ("east.5 commit ok", false, "message h1"),
        (
            "east.5 commit ok",
            false,
            "slot h3.1 name east address null ready",
        ),
        ("acct.2 dequeue message", true, "seen h3.2 as a2"),
        ("acct.2 dequeue message", false, "message a2"),
        ("confirm h3.2", true, "seen h3.2 as a2"),
    ],
};
