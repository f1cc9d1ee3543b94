//! PEA, LINK and UNLK.

ghost use Rattle.std.specs.Prelude.{◌≡◌, ◌<◌};
ghost use Rattle.mb_port.specs.Routine.{run};
ghost use Rattle.mb_instr.specs.Operands.{IsEa, IsInMemory};
ghost use Rattle.def_instructions.specs.Stack.{pea_of, link_of, unlk_of};
ghost use Rattle.mb_operands.specs.Endings.{carried_by};

use mb_instr::{Ea, Plain, Size};
use mb_operands::{Stream, Undone, find_address, push, read_memory, unread};
use mb_port::{Port, Space};
use mb_writes::Ended;

/// PEA: the address of an operand is formed, and then pushed.
#[inline(always)]
pub fn pea<P: Port>(
    ea: &Ea,
    stream: Stream,
    plain: &mut Plain,
    port: &mut P,
    ended: &mut Ended,
) -> Result<(), Undone>
    requires operand { IsEa Size.Long ea.now }
    requires place { IsInMemory ea.now }
    ensures means { run P.bus (pea_of ea.now stream.at stream.space plain.old) (P.world port.old)
        ≡ (carried_by result ended.new plain.new, P.world port.new) }
    ensures rest { P.rest port.new ≡ P.rest port.old }
{
    let place = match find_address(Size::Long, ea, stream, plain, port) {
        Ok(place) => place,
        Err(refused) => return Err(unread(&refused, ended)),
    };
    plain.a[7] = plain.a[7].wrapping_sub(4);
    push(place, plain.a[7], stream.space, plain, port, ended)
}

/// LINK: the register is pushed, A7 itself with its new value, and becomes A7, which then moves by the displacement.
#[inline(always)]
pub fn link<P: Port>(
    register: u8,
    displacement: u32,
    space: Space,
    plain: &mut Plain,
    port: &mut P,
    ended: &mut Ended,
) -> Result<(), Undone>
    requires { register < 8 }
    ensures means { run P.bus (link_of register displacement space plain.old) (P.world port.old)
        ≡ (carried_by result ended.new plain.new, P.world port.new) }
    ensures rest { P.rest port.new ≡ P.rest port.old }
{
    let register = register as usize;
    let frame = plain.a[7].wrapping_sub(4);
    plain.a[7] = frame;
    let pushed = plain.a[register];
    plain.a[register] = frame;
    plain.a[7] = frame.wrapping_add(displacement);
    push(pushed, frame, space, plain, port, ended)
}

/// UNLK: A7 becomes the register, which gets the long there, and rises. A7 itself becomes the long.
#[inline(always)]
pub fn unlk<P: Port>(
    register: u8,
    space: Space,
    plain: &mut Plain,
    port: &mut P,
    ended: &mut Ended,
) -> Result<(), Undone>
    requires { register < 8 }
    ensures means { run P.bus (unlk_of register space plain.old) (P.world port.old)
        ≡ (carried_by result ended.new plain.new, P.world port.new) }
    ensures rest { P.rest port.new ≡ P.rest port.old }
{
    let register = register as usize;
    let frame = plain.a[register];
    match read_memory(space, frame, Size::Long, port) {
        Ok(value) => {
            plain.a[7] = frame.wrapping_add(4);
            plain.a[register] = value;
            Ok(())
        }
        Err(refused) => Err(unread(&refused, ended)),
    }
}
