//! The memory that a machine opens with.

ghost use Rattle.std.specs.Prelude.{◌≡◌, IfOk, All, length};
ghost use Rattle.mb_srec.specs.Image.{contents_of, LiesBelow};
ghost use Rattle.mb_program.specs.Answers.{opening_ram};

use mb_outside::Memory;
use mb_srec::Image;
use std::alloc::Global;

/// So many bytes of memory as an image leaves them: 0 where it gives nothing.
#[tactic(auto, unfolding(def_machine::specs::Machine::reset_with))]
pub(crate) fn opening_ram(alloc: Global, image: &Image, size: u32) -> Result<Vec<u8>, Memory>
    requires in_ram { All (LiesBelow size) (contents_of image.now) }
    ensures ram { IfOk result (λ ram. ram.items ≡ opening_ram (contents_of image.now) size) }
    ensures size { IfOk result (λ ram. length ram.items ≡ size) }
{
    let Ok(mut ram) = vec![in alloc; 0u8; size as usize] else {
        return Err(Memory);
    };
    image.put_into(&mut ram);
    Ok(ram)
}
