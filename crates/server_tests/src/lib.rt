//! Tests of the server as a whole, from words, bytes and disks to bytes and a status.
#![tactic(auto)]

#[cfg(test)]
mod crashes;
#[cfg(test)]
mod disks;
#[cfg(test)]
mod fixtures;
#[cfg(test)]
mod runs;
#[cfg(test)]
mod serving;
