// Measures `like` on patterns of many `%`.
use crate::fault::{Fault, right};
use crate::timing::{Least, hundredths, since};
use rule_conditions::like;
use std::alloc::Global;
use std::time::{Clock, Instant};

/// How long the text is, in bytes: the longest that a condition may hold.
const TEXT: usize = 4_000;

/// How often each pattern is measured.
const ROUNDS: u32 = 5;

/// A pattern, a piece so many times between two others, and whether the text is like it.
#[derive(Clone, Copy)]
struct Pattern {
    what: &'static str,
    front: &'static str,
    piece: &'static str,
    times: usize,
    end: &'static str,
    matches: bool,
}

const RUN: Pattern = Pattern {
    what: "a run of % and a character that is not there",
    front: "",
    piece: "%",
    times: TEXT - 1,
    end: "b",
    matches: false,
};

const PAIRS: Pattern = Pattern {
    what: "% and a character by turns, and one that is not there",
    front: "",
    piece: "%a",
    times: TEXT / 2 - 1,
    end: "%b",
    matches: false,
};

const ANY: Pattern = Pattern {
    what: "% and _ by turns",
    front: "",
    piece: "%_",
    times: TEXT / 2,
    end: "",
    matches: true,
};

const LATE: Pattern = Pattern {
    what: "% and half of the text, and a character that is not there",
    front: "%",
    piece: "a",
    times: TEXT / 2,
    end: "b",
    matches: false,
};

const BLOCKS: Pattern = Pattern {
    what: "% and seven characters by turns, and one that is not there",
    front: "",
    piece: "%aaaaaaa",
    times: TEXT / 8 - 1,
    end: "%aab",
    matches: false,
};

/// A piece so many times.
fn repeat(text: &mut String, piece: &str, times: usize) -> Result<(), Fault> {
    for _ in 0..times {
        text.push_str(piece)?;
    }
    Ok(())
}

fn spell(text: &mut String, pattern: &Pattern) -> Result<(), Fault> {
    repeat(text, pattern.front, 1)?;
    repeat(text, pattern.piece, pattern.times)?;
    repeat(text, pattern.end, 1)
}

/// Microseconds that one attempt took, which is to end so.
fn attempt<R: Clock>(rt: &R, text: &str, pattern: &str, matches: bool) -> Result<u64, Fault> {
    let begun = Instant::now(rt)?;
    let is_like = like(text, pattern);
    let nanos = since(rt, begun)?;
    right(is_like == matches)?;
    Ok(nanos / 1000)
}

fn least_attempt<R: Clock>(rt: &R, text: &str, pattern: &str, matches: bool) -> Result<u64, Fault> {
    let mut cost = Least::NONE;
    for _ in 0..ROUNDS {
        cost.note(attempt(rt, text, pattern, matches)?);
    }
    Ok(cost.taken)
}

#[inline(never)]
fn is_same(left: u8, right: u8) -> bool {
    left == right
}

fn count_same(text: &[u8], byte: u8) -> usize {
    let mut same: usize = 0;
    for other in text {
        if is_same(*other, byte) {
            same = same.wrapping_add(1);
        }
    }
    same
}

/// Microseconds of the plain product: each byte of the pattern is compared with each of the text.
fn product<R: Clock>(rt: &R, text: &[u8], pattern: &[u8]) -> Result<u64, Fault> {
    let begun = Instant::now(rt)?;
    let mut same: usize = 0;
    for byte in pattern {
        same = same.wrapping_add(count_same(text, *byte));
    }
    let nanos = since(rt, begun)?;
    right(same != usize::MAX)?;
    Ok(nanos / 1000)
}

fn measure<R: Clock + Print>(
    rt: &R,
    what: &str,
    text: &str,
    pattern: &str,
    matches: bool,
) -> Result<(), Fault> {
    let cost = least_attempt(rt, text, pattern, matches)?;
    let plain = product(rt, text.as_bytes(), pattern.as_bytes())?;
    let ratio = hundredths(cost, plain);
    println!(rt;
        "{what}: {cost} microseconds, the product of the lengths {plain}, ratio in hundredths {ratio}"
    )?;
    Ok(())
}

fn report_of<R: Clock + Print>(
    rt: &R,
    alloc: Global,
    text: &str,
    pattern: &Pattern,
) -> Result<(), Fault> {
    let mut spelled = String::new(alloc);
    spell(&mut spelled, pattern)?;
    measure(rt, pattern.what, text, spelled.as_str(), pattern.matches)
}

fn report_all<R: Clock + Print>(rt: &R, alloc: Global, text: &str) -> Result<(), Fault> {
    report_of(rt, alloc, text, &RUN)?;
    report_of(rt, alloc, text, &PAIRS)?;
    report_of(rt, alloc, text, &ANY)?;
    report_of(rt, alloc, text, &LATE)?;
    report_of(rt, alloc, text, &BLOCKS)
}

pub fn report<R: Clock + Print>(rt: &R, alloc: Global) -> Result<(), Fault> {
    let mut text = String::new(alloc);
    repeat(&mut text, "a", TEXT)?;
    report_all(rt, alloc, text.as_str())
}
