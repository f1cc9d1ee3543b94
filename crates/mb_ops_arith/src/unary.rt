//! Rows of one operand, and immediates to CCR.

ghost use Rattle.std.specs.Prelude.{◌≡◌, ◌<◌};
ghost use Rattle.mb_port.specs.Routine.{run};
ghost use Rattle.mb_instr.specs.Operands.{IsEa, IsDestination};
ghost use Rattle.def_instructions.specs.Unary.{clr_of, put_in_register_of, ext_of, combine_with_ccr_of};
ghost use Rattle.mb_operands.specs.Endings.{carried_by};

use mb_alu::{Flagged, LogicKind, extend, logic};
use mb_ea::resolve;
use mb_instr::{Ea, Plain, Size};
use mb_operands::{Stream, Undone, finish_with, unread, with_low};
use mb_port::Port;
use mb_writes::Ended;

/// The bits of the condition codes.
const CODES: u32 = 0x1F;

/// CLR: 0 is moved to the operand, which is not read.
pub(crate) fn clr<P: Port>(
    size: Size,
    ea: &Ea,
    stream: Stream,
    plain: &mut Plain,
    port: &mut P,
    ended: &mut Ended,
) -> Result<(), Undone>
    requires operand { IsEa size ea.now }
    requires destination { IsDestination ea.now }
    ensures means { run P.bus (clr_of size ea.now stream.at stream.space plain.old) (P.world port.old)
        ≡ (carried_by result ended.new plain.new, P.world port.new) }
    ensures rest { P.rest port.new ≡ P.rest port.old }
{
    let target = match resolve(ea, size, plain, stream.at, stream.space, port) {
        Ok(target) => target,
        Err(refused) => return Err(unread(&refused, ended)),
    };
    plain.ccr = logic(LogicKind::Pass, size, 0, 0, plain.ccr).ccr;
    finish_with(target, size, 0, stream.space, plain, port, ended)
}

/// Makes these the low bytes of a data register, and the condition codes.
#[inline(always)]
pub fn put_in_register(register: u8, size: Size, flagged: Flagged, plain: &mut Plain)
    requires { register < 8 }
    ensures { plain.new ≡ put_in_register_of register size flagged plain.old }
{
    let n = register as usize;
    plain.d[n] = with_low(size, plain.d[n], flagged.value);
    plain.ccr = flagged.ccr;
}

/// EXT and EXTB.
#[inline(always)]
pub(crate) fn ext(from: Size, to: Size, register: u8, plain: &mut Plain)
    requires { register < 8 }
    ensures { plain.new ≡ ext_of from to register plain.old }
{
    let extended = extend(from, to, plain.d[register as usize], plain.ccr);
    put_in_register(register, to, extended, plain);
}

/// ORI, ANDI and EORI to CCR.
#[inline(always)]
pub(crate) fn combine_with_ccr(kind: LogicKind, word: u16, plain: &mut Plain)
    ensures { plain.new ≡ combine_with_ccr_of kind word plain.old }
{
    let before = plain.ccr;
    let combined = logic(kind, Size::Byte, u32::from(word), u32::from(before), before);
    plain.ccr = (combined.value & CODES) as u8;
}
