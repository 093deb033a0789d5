//! Tests of the crates that stand on no rows: bytes in and out, clocks, disks, values, records, places, and the ordered indexes.
#![tactic(auto)]

#[cfg(test)]
mod bytes;
#[cfg(test)]
mod clocks;
#[cfg(test)]
mod disks;
#[cfg(test)]
mod due;
#[cfg(test)]
mod names;
#[cfg(test)]
mod numbers;
#[cfg(test)]
mod pairs;
#[cfg(test)]
mod places;
#[cfg(test)]
mod ready_plain;
#[cfg(test)]
mod ready_random;
#[cfg(test)]
mod ready_rows;
#[cfg(test)]
mod ready_worked;
#[cfg(test)]
mod records;
#[cfg(test)]
mod trees;
#[cfg(test)]
mod values;
