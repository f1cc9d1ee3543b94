//! The top call.

ghost use Rattle.std.specs.Prelude.{map, string_bytes};
ghost use Rattle.mb_words.specs.Words.{asked_by};
ghost use Rattle.mb_program.specs.Around.{around_of, diag_of};
ghost use Rattle.mb_program.specs.Direct.{HasRoomToRun};
ghost use Rattle.mb_program.specs.Headline.{Headline};
ghost use Rattle.mb_program.specs.Causes.{Causes};

use crate::command::run_words;
use mb_board::Native;
use mb_ends::{status, tell};
use mb_outside::{Shelf, Sink};
use std::alloc::Global;

/// Reads the words, of which the first is the program's name, runs their command, and says on diag how
/// it ended. What boards carry out in user mode is counted by `native`: the guests' own steps, where a command runs
/// guests. The answer is the exit status:
///
/// - 0: the text of the command was written to out: the outcome of a run with its disk, the records of an image, a
///   listing, the outcomes of all guests of a session with their disks, that each of them shows the same on the board
///   and under the monitor, the summary of guests that were made, what a debugger's commands print, with the outcome of
///   its guest, a snapshot of all guests of a session, or the outcomes of a snapshot's guests.
/// - 1: the same was written, and some guest differs.
/// - 2: the words ask for nothing.
/// - 3: a file has more bytes than one of its kind may have (67,108,864, and a snapshot 1,073,741,824), or is no image
///   for this RAM, no contents for this disk, no script, no source, no session, no snapshot, or no commands of a
///   debugger, or a session has no guest of the number that the words name; the line on diag says which, and why.
/// - 4: the guests of a session, or of a snapshot, do not fit on its board; the line on diag says how many bytes they
///   need, and have.
/// - 5: the shelf failed.
/// - 6: out failed, and has a first part of the text.
/// - 7: memory ran out.
pub fn run_program<F: Shelf, O: Sink, E: Sink>(
    alloc: Global,
    words: &[String],
    shelf: &mut F,
    out: &mut O,
    diag: &mut E,
    native: &mut Native,
) -> u8
    requires room { HasRoomToRun native.old }
    // What `host` promises, of the words, what the shelf tells, out before and after, and the status alone.
    ensures headline { Headline (map string_bytes words.entry.now) (F.told shelf.old)
        (O.taken out.old) (O.taken out.new) result }
    // What each command promises, and what each status says of its cause, a fact a field.
    ensures causes { Causes (asked_by (map string_bytes words.entry.now))
        (around_of F.Shelf O.Sink shelf.old shelf.new out.old out.new native.old native.new)
        (diag_of E.Sink diag.old diag.new) result }
{
    let end = run_words(alloc, words, shelf, out, native);
    let _ = tell(diag, &end);
    status(&end)
}
