//! The records of an image.

ghost use Rattle.std.specs.Prelude.{All};
ghost use Rattle.mb_srec.specs.Image.{IsAddressed, contents_of};
ghost use Rattle.mb_program.specs.Answers.{asm_shown, shows};
ghost use Rattle.mb_program.specs.Around.{sink_seen};
ghost use Rattle.mb_program.specs.Ends.{IsGivenUncounted};

use mb_ends::End;
use mb_outside::{Sink, put_all};
use mb_srec::{Image, write_records};
use std::alloc::Global;

/// Writes an image as S-records.
pub(crate) fn show_records<O: Sink>(alloc: Global, image: &Image, out: &mut O) -> End
    requires { All IsAddressed (contents_of image.now) }
    ensures { IsGivenUncounted (shows (asm_shown (contents_of image.now)))
        (sink_seen O.Sink out.old) (sink_seen O.Sink out.new) result }
{
    let Ok(text) = write_records(alloc, image) else {
        return End::Memory;
    };
    match put_all(out, &text) {
        Ok(()) => End::Done,
        Err(_) => End::Output,
    }
}
