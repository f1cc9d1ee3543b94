//! The top call where nothing outside can fail.

ghost use Rattle.std.specs.Prelude.{◌≡◌, map, string_bytes};
ghost use Rattle.mb_outside.specs.Stored.{stored_or_empty};
ghost use Rattle.mb_words.specs.Words.{asked_by};
ghost use Rattle.mb_program.specs.Causes.{IsUnfailing};

use crate::top::run_program;
use mb_board::Native;
use mb_outside::{NoFailShelf, NoFailSink};
use std::alloc::Global;

/// Runs the words over these files and sinks that take everything, and gives the status. A file that is
/// missing reads as an empty one.
pub fn run_unfailing(alloc: Global, words: &[String], files: Vec<(String, Vec<u8>)>) -> u8
    ensures answered { IsUnfailing (asked_by (map string_bytes words.now)) (stored_or_empty files.items) result }
    ensures read { result ≡ 5 → ⊥ }
    ensures put { result ≡ 6 → ⊥ }
{
    let mut shelf = NoFailShelf::new(files);
    let mut out = NoFailSink::new();
    let mut diag = NoFailSink::new();
    let mut native = Native::new();
    run_program(alloc, words, &mut shelf, &mut out, &mut diag, &mut native)
}
