//! Tests of the crates that stand on rows: locks, the store, how commits are judged, and what is found to take, to send and to do.
#![tactic(auto)]

#[cfg(test)]
mod any_rows;
#[cfg(test)]
mod arrivals;
#[cfg(test)]
mod asked;
#[cfg(test)]
mod asked_changes;
mod bound;
#[cfg(test)]
mod calls;
#[cfg(test)]
mod commits;
#[cfg(test)]
mod confirmations;
#[cfg(test)]
mod due_cases;
#[cfg(test)]
mod fit_cases;
#[cfg(test)]
mod kept;
#[cfg(test)]
mod locks;
#[cfg(test)]
mod picks;
#[cfg(test)]
mod plain;
#[cfg(test)]
mod plain_rows;
#[cfg(test)]
mod random;
#[cfg(test)]
mod remote;
#[cfg(test)]
mod rows;
#[cfg(test)]
mod store_commits;
#[cfg(test)]
mod stores;
#[cfg(test)]
mod texts;

pub use bound::steps_in_example;
