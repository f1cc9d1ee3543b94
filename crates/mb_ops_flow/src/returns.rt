//! RTS, RTD and RTR.

ghost use Rattle.std.specs.Prelude.{◌≡◌};
ghost use Rattle.mb_port.specs.Routine.{run};
ghost use Rattle.def_instructions.specs.Returns.{rts_of, rtd_of, rtr_of};
ghost use Rattle.mb_operands.specs.Endings.{performed_by};

use mb_instr::{Plain, Size};
use mb_operands::{Undone, read_memory, unread};
use mb_port::{Port, Space};
use mb_writes::Ended;

/// RTS: to the address on the stack, which is taken from it.
#[inline(always)]
pub fn rts<P: Port>(
    space: Space,
    plain: &mut Plain,
    port: &mut P,
    ended: &mut Ended,
) -> Result<bool, Undone>
    ensures means { run P.bus (rts_of space plain.old) (P.world port.old)
        ≡ (performed_by result ended.new plain.new, P.world port.new) }
    ensures rest { P.rest port.new ≡ P.rest port.old }
{
    match read_memory(space, plain.a[7], Size::Long, port) {
        Ok(target) => {
            plain.a[7] = plain.a[7].wrapping_add(4);
            plain.pc = target;
            Ok(true)
        }
        Err(refused) => Err(unread(&refused, ended)),
    }
}

/// RTD: the same, and then the displacement is added to the stack pointer.
#[inline(always)]
pub fn rtd<P: Port>(
    displacement: u16,
    space: Space,
    plain: &mut Plain,
    port: &mut P,
    ended: &mut Ended,
) -> Result<bool, Undone>
    ensures means { run P.bus (rtd_of displacement space plain.old) (P.world port.old)
        ≡ (performed_by result ended.new plain.new, P.world port.new) }
    ensures rest { P.rest port.new ≡ P.rest port.old }
{
    let offset = Size::Word.sign_extend(u32::from(displacement));
    match read_memory(space, plain.a[7], Size::Long, port) {
        Ok(target) => {
            plain.a[7] = plain.a[7].wrapping_add(4).wrapping_add(offset);
            plain.pc = target;
            Ok(true)
        }
        Err(refused) => Err(unread(&refused, ended)),
    }
}

/// RTR: a word on the stack, whose low five bits are the condition codes, and behind it the address.
#[inline(always)]
pub fn rtr<P: Port>(
    space: Space,
    plain: &mut Plain,
    port: &mut P,
    ended: &mut Ended,
) -> Result<bool, Undone>
    ensures means { run P.bus (rtr_of space plain.old) (P.world port.old)
        ≡ (performed_by result ended.new plain.new, P.world port.new) }
    ensures rest { P.rest port.new ≡ P.rest port.old }
{
    let codes = match read_memory(space, plain.a[7], Size::Word, port) {
        Ok(codes) => codes,
        Err(refused) => return Err(unread(&refused, ended)),
    };
    let behind = plain.a[7].wrapping_add(2);
    let target = match read_memory(space, behind, Size::Long, port) {
        Ok(target) => target,
        Err(refused) => return Err(unread(&refused, ended)),
    };
    plain.a[7] = behind.wrapping_add(4);
    plain.pc = target;
    plain.ccr = (codes % 32) as u8;
    Ok(true)
}
