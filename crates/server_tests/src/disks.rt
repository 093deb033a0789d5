// What the server is told of damaged and failing disks.
use crate::fixtures::{DUMP, EMPTY, Planned, SERIAL, call_over, disks_of};
use crate::runs::FIRST_PATH;
use std::alloc::{AllocError, Global};
use std::test::Fail;

// A header that is cut off.
const CUT: &[u8] = b"\x01A";

// An area whose first gate is open, and then ends.
const ENDS: &[u8] = b"\x01AQJRNL\0\0\0\0\0\0\0\0\x18\0\0\0\0\0\0\0\0\0\0\0\x02\x01";

// Two disks with the calls that fail, and what a call over them is told.
struct Case {
    home: Planned<'static>,
    away: Planned<'static>,
    status: u8,
    text: &'static str,
}

const CASES: &[Case] = &[
    Case {
        home: (CUT, &[]),
        away: (ENDS, &[]),
        status: 6,
        text: "damaged home 0\n",
    },
    Case {
        home: (EMPTY, &[]),
        away: (ENDS, &[]),
        status: 6,
        text: "damaged away 28\n",
    },
    Case {
        home: (CUT, &[1]),
        away: (ENDS, &[]),
        status: 5,
        text: "",
    },
    Case {
        home: (EMPTY, &[]),
        away: (EMPTY, &[1]),
        status: 5,
        text: "",
    },
];

fn is_told(alloc: Global, words: &[&str], input: &str, case: &Case) -> Result<bool, AllocError> {
    let disks = disks_of(alloc, case.home, case.away)?;
    let answer = call_over(alloc, words, input, disks)?;
    Ok(answer.is(case.status, case.text))
}

#[test]
fn damaged_and_failing_disks_are_told(rt: HostRuntime) -> Result<(), Fail> {
    let script = FIRST_PATH.script;
    for case in CASES {
        let is_run = is_told(rt.alloc(), SERIAL, script, case)?;
        assert!(rt;
            is_run && is_told(rt.alloc(), DUMP, "", case)?,
            "{}",
            case.text
        );
    }
    Ok(())
}

// Home's first sync, with which its journal begins, is its fourth call; its fifth sync, behind which the first commit counts, its
// twelfth.
const RUNS: &[Case] = &[
    Case {
        home: (EMPTY, &[4]),
        away: (EMPTY, &[]),
        status: 5,
        text: "",
    },
    Case {
        home: (EMPTY, &[12]),
        away: (EMPTY, &[]),
        status: 5,
        text: "s1.1 create-table untold\n",
    },
];

#[test]
fn a_reply_is_untold_where_its_commit_is_not_durable(rt: HostRuntime) -> Result<(), Fail> {
    for case in RUNS {
        let is_so = is_told(rt.alloc(), SERIAL, FIRST_PATH.script, case)?;
        assert!(rt; is_so, "{}", case.text);
    }
    Ok(())
}
