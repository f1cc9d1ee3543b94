//! Tests of the processor over a memory of longs: operands and arithmetic, frames, exceptions, plain instructions and
//! what only a supervisor does, and whole steps.
#![tactic(auto)]

#[cfg(test)]
mod bench;
#[cfg(test)]
mod entry;
#[cfg(test)]
mod families;
#[cfg(test)]
mod fields;
#[cfg(test)]
mod finishes;
#[cfg(test)]
mod frames;
#[cfg(test)]
mod operands;
#[cfg(test)]
mod pieces;
#[cfg(test)]
mod privileged;
#[cfg(test)]
mod products;
#[cfg(test)]
mod shifts;
#[cfg(test)]
mod steps;
#[cfg(test)]
mod sums;
#[cfg(test)]
mod vector;
#[cfg(test)]
mod writes;
