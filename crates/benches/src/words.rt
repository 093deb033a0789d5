// The words that say what is measured.
use crate::fault::Fault;
use std::alloc::Global;
use std::env::Args;

/// The next word.
pub fn word(words: &mut Args<Global>) -> Result<String, Fault> {
    words.next().ok_or(Fault::Usage)
}

/// The next word, as a number.
pub fn number(words: &mut Args<Global>) -> Result<u64, Fault> {
    let word = word(words)?;
    word.as_str().parse::<u64>().ok().ok_or(Fault::Usage)
}
