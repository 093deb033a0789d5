//! Tests of what is read and written: conditions, transcripts, and the bytes of journals and commits.
#![tactic(auto)]

#[cfg(test)]
mod bytes;
#[cfg(test)]
mod commits;
#[cfg(test)]
mod condition_texts;
#[cfg(test)]
mod conditions;
#[cfg(test)]
mod crashes;
#[cfg(test)]
mod disks;
#[cfg(test)]
mod frames;
#[cfg(test)]
mod journals;
#[cfg(test)]
mod transcripts;
