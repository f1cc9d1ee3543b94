//! CMP2.

ghost use Rattle.std.specs.Prelude.{◌≡◌};
ghost use Rattle.mb_port.specs.Routine.{run};
ghost use Rattle.mb_instr.specs.Operands.{IsEa, IsInMemory};
ghost use Rattle.def_instructions.specs.Bounds.{cmp2_of};
ghost use Rattle.mb_operands.specs.Endings.{carried_by};

use mb_instr::{Ea, Plain, Size};
use mb_operands::{Stream, Undone, compare_bounds, unread};
use mb_port::Port;
use mb_writes::Ended;

/// CMP2; the word says which register is compared.
#[inline(always)]
pub fn cmp2<P: Port>(
    size: Size,
    ea: &Ea,
    word: u16,
    stream: Stream,
    plain: &mut Plain,
    port: &mut P,
    ended: &mut Ended,
) -> Result<(), Undone>
    requires operand { IsEa size ea.now }
    requires place { IsInMemory ea.now }
    ensures means { run P.bus (cmp2_of size ea.now word stream.at stream.space plain.old) (P.world port.old)
        ≡ (carried_by result ended.new plain.new, P.world port.new) }
    ensures rest { P.rest port.new ≡ P.rest port.old }
{
    match compare_bounds(size, ea, word, stream, plain, port) {
        Ok(ccr) => {
            plain.ccr = ccr;
            Ok(())
        }
        Err(refused) => Err(unread(&refused, ended)),
    }
}
