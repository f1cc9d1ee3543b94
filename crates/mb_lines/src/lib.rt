//! The lines of a text file, with their numbers.
//!
//! Each format of files that goes by lines reads them so: [`Lines`] knows where a line ends and which
//! number it has, and passes over lines without characters. `specs/Lines` has the definitions.
#![tactic(auto)]

mod line;
mod lines;

pub use line::Line;
pub use lines::Lines;
