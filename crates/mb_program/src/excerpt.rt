//! An excerpt of a machine's opening memory.

ghost use Rattle.std.specs.Prelude.{◌*◌, All};
ghost use Rattle.mb_srec.specs.Image.{LiesBelow, contents_of};
ghost use Rattle.mb_words.specs.Words.{excerpt_said};
ghost use Rattle.mb_program.specs.Answers.{dis_shown, shows};
ghost use Rattle.mb_program.specs.Around.{sink_seen};
ghost use Rattle.mb_program.specs.Ends.{IsGivenUncounted};

use crate::opening::opening_ram;
use mb_ends::End;
use mb_listing::list_memory;
use mb_outside::Sink;
use mb_srec::Image;
use mb_words::Dis;
use std::alloc::Global;

/// Writes the listing of an excerpt.
pub(crate) fn show_excerpt<O: Sink>(alloc: Global, dis: &Dis, image: &Image, out: &mut O) -> End
    requires { All (LiesBelow (1024 * dis.now.ram)) (contents_of image.now) }
    ensures { IsGivenUncounted (shows (dis_shown (excerpt_said dis.now) (contents_of image.now)))
        (sink_seen O.Sink out.old) (sink_seen O.Sink out.new) result }
{
    let Ok(ram) = opening_ram(alloc, image, 1024 * dis.ram) else {
        return End::Memory;
    };
    match list_memory(&ram, dis.at, dis.count, out) {
        Ok(()) => End::Done,
        Err(_) => End::Output,
    }
}
