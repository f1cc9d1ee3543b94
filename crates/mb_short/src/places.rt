//! Where operands in memory stand, and PC past the words of an instruction.

ghost use Rattle.std.specs.Prelude.{◌≡◌, ◌<◌};
ghost use Rattle.mb_instr.specs.declared.size.Size.TheVariants.{Word};
ghost use Rattle.mb_instr.specs.Operands.{lower};
ghost use Rattle.mb_instr.specs.Registers.{address_register};
ghost use Rattle.mb_instr.specs.Sizes.{sign_extended};
ghost use Rattle.mb_ea.specs.Addresses.{sum, increment_of};
ghost use Rattle.mb_ea.specs.Resolve.{step_over_of};
ghost use Rattle.def_instructions.specs.Attempt.{past};
ghost use Rattle.mb_table.specs.Forms.{place_ea};
ghost use Rattle.mb_short.specs.Operands.{place_at, indexed_at};

use mb_ea::index;
use mb_instr::{Plain, Size};
use mb_table::Place;

/// How far `(An)+` and `-(An)` step: A7 stays even.
#[inline(always)]
fn increment(size: Size, register: u8) -> u32
    ensures { result ≡ increment_of size register }
{
    if size == Size::Byte && register == 7 {
        2
    } else {
        u32::from(size.bytes())
    }
}

/// Where an operand stands.
#[inline(always)]
pub(crate) fn address(place: Place, size: Size, plain: &Plain) -> u32
    requires { lower (place_ea place) < 8 }
    ensures { result ≡ place_at place size plain.now }
{
    match place {
        Place::At(n) => plain.a[n as usize],
        Place::Up(n) => plain.a[n as usize],
        Place::Down(n) => plain.a[n as usize].wrapping_sub(increment(size, n)),
    }
}

/// The address register of an operand steps, once it stands there.
#[inline(always)]
pub(crate) fn step_over(place: Place, size: Size, plain: &mut Plain)
    requires { lower (place_ea place) < 8 }
    ensures { plain.new ≡ step_over_of (place_ea place) size plain.old }
{
    match place {
        Place::At(_) => {}
        Place::Up(n) => plain.a[n as usize] = plain.a[n as usize].wrapping_add(increment(size, n)),
        Place::Down(n) => plain.a[n as usize] = plain.a[n as usize].wrapping_sub(increment(
            size, n,
        )),
    }
}

/// The address (d16,An).
#[inline(always)]
pub(crate) fn near(base: u8, displacement: u16, plain: &Plain) -> u32
    requires { base < 8 }
    ensures { result ≡ sum (address_register plain.now base) (sign_extended Word displacement) }
{
    plain.a[base as usize].wrapping_add(Size::Word.sign_extend(u32::from(displacement)))
}

/// The address (d8,An,Xn) with this brief extension word.
#[inline(always)]
pub(crate) fn indexed(base: u8, word: u16, plain: &Plain) -> u32
    requires { base < 8 }
    ensures { result ≡ indexed_at base word plain.now }
{
    let displaced = plain.a[base as usize].wrapping_add(Size::Byte.sign_extend(u32::from(word)));
    displaced.wrapping_add(index(word, plain))
}

/// PC goes past three words.
#[inline(always)]
pub(crate) fn pass_three(plain: &mut Plain)
    ensures { plain.new ≡ past 3 plain.old }
{
    plain.pc = plain.pc.wrapping_add(6);
}

/// PC goes past one word.
#[inline(always)]
pub(crate) fn pass_one(plain: &mut Plain)
    ensures { plain.new ≡ past 1 plain.old }
{
    plain.pc = plain.pc.wrapping_add(2);
}

/// PC goes past two words.
#[inline(always)]
pub(crate) fn pass_two(plain: &mut Plain)
    ensures { plain.new ≡ past 2 plain.old }
{
    plain.pc = plain.pc.wrapping_add(4);
}
