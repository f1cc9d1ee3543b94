//! The line of a kept translation.

ghost use Rattle.std.specs.Prelude.{◌≡◌, ◌<◌};
ghost use Rattle.mb_report.specs.Buffered.{Buffers};
ghost use Rattle.mb_report.specs.Kept.{space_letter, hex5, flags_of, kept_line};

use crate::buffered::Buffered;
use crate::digits::{hex_digit, hex8};
use mb_model::Kept;
use mb_outside::Sink;
use mb_port::Space;

fn space_letter(space: Space) -> u8
    ensures { result ≡ space_letter space }
{
    match space {
        Space::Super => b'S',
        Space::User => b'U',
    }
}

fn hex5(n: u32) -> [u8; 5]
    ensures { result ≡ hex5 n }
{
    let [_, _, _, a, b, c, d, e] = hex8(n);
    [a, b, c, d, e]
}

fn flags(kept: Kept) -> u8
    ensures flags { result ≡ flags_of kept }
    ensures digit { result < 16 }
{
    8 * u8::from(kept.w) + (4 * u8::from(kept.s) + (2 * u8::from(kept.g) + u8::from(kept.m)))
}

/// Writes the line of a kept translation: `S` or `U` for its space, the numbers of its page and of its frame in five
/// digits, and one digit that is the sum of 8 for W, 4 for S, 2 for G and 1 for M.
pub fn write_kept<O: Sink>(text: &mut Buffered, out: &mut O, kept: Kept)
    ensures { Buffers text.old text.new (O.taken out.old) (O.taken out.new) (O.faults out.old) (O.faults out.new)
        (kept_line kept) }
{
    text.add(out, &[space_letter(kept.space), b' ']);
    text.add(out, &hex5(kept.page));
    text.add(out, b" ");
    text.add(out, &hex5(kept.frame));
    text.add(out, &[b' ', hex_digit(flags(kept)), b'\n']);
}
