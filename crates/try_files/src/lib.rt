//! Tests of what reads and writes files: shelves and sinks, the lines of a text, S-records, scripts and session files,
//! the text of an outcome, and snapshots.
#![tactic(auto)]

#[cfg(test)]
mod faults;
#[cfg(test)]
mod lines;
#[cfg(test)]
mod outcomes;
#[cfg(test)]
mod records;
#[cfg(test)]
mod scripts;
#[cfg(test)]
mod shelves;
#[cfg(test)]
mod snapshots;
