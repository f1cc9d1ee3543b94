//! JMP and JSR.

ghost use Rattle.std.specs.Prelude.{◌≡◌};
ghost use Rattle.mb_port.specs.Routine.{run};
ghost use Rattle.mb_instr.specs.Operands.{IsEa, IsInMemory};
ghost use Rattle.def_instructions.specs.Flow.{jmp_of, jsr_of};
ghost use Rattle.mb_operands.specs.Endings.{performed_by};

use crate::branches::call;
use mb_instr::{Ea, Plain, Size};
use mb_operands::{Stream, Undone, find_address, unread};
use mb_port::Port;
use mb_writes::Ended;

/// JMP: to the address of the operand.
#[inline(always)]
pub fn jmp<P: Port>(
    ea: &Ea,
    stream: Stream,
    plain: &mut Plain,
    port: &mut P,
    ended: &mut Ended,
) -> Result<bool, Undone>
    requires operand { IsEa Size.Long ea.now }
    requires place { IsInMemory ea.now }
    ensures means { run P.bus (jmp_of ea.now stream.at stream.space plain.old) (P.world port.old)
        ≡ (performed_by result ended.new plain.new, P.world port.new) }
    ensures rest { P.rest port.new ≡ P.rest port.old }
{
    match find_address(Size::Long, ea, stream, plain, port) {
        Ok(target) => {
            plain.pc = target;
            Ok(true)
        }
        Err(refused) => Err(unread(&refused, ended)),
    }
}

/// JSR: the address is formed, then the next instruction's is pushed.
#[inline(always)]
pub fn jsr<P: Port>(
    ea: &Ea,
    stream: Stream,
    plain: &mut Plain,
    port: &mut P,
    ended: &mut Ended,
) -> Result<bool, Undone>
    requires operand { IsEa Size.Long ea.now }
    requires place { IsInMemory ea.now }
    ensures means { run P.bus (jsr_of ea.now stream.at stream.space plain.old) (P.world port.old)
        ≡ (performed_by result ended.new plain.new, P.world port.new) }
    ensures rest { P.rest port.new ≡ P.rest port.old }
{
    match find_address(Size::Long, ea, stream, plain, port) {
        Ok(target) => call(target, stream.space, plain, port, ended),
        Err(refused) => Err(unread(&refused, ended)),
    }
}
