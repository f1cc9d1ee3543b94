//! Tests of machines and their parts: searches through tables, kept translations, shadow tables, devices, boards in user
//! mode, guests' turns, and generated sessions.
#![tactic(auto)]

#[cfg(test)]
mod boards;
#[cfg(test)]
mod devices;
#[cfg(test)]
mod generated;
#[cfg(test)]
mod guest_kept;
#[cfg(test)]
mod guest_port;
#[cfg(test)]
mod hosts;
#[cfg(test)]
mod kept;
#[cfg(test)]
mod memory;
#[cfg(test)]
mod shadow;
#[cfg(test)]
mod used;
#[cfg(test)]
mod user_runs;
#[cfg(test)]
mod walks;
