//! ADDQ and SUBQ.

ghost use Rattle.std.specs.Prelude.{◌≡◌, ◌<◌};
ghost use Rattle.mb_port.specs.Routine.{run};
ghost use Rattle.mb_instr.specs.Operands.{IsEa, IsDestination};
ghost use Rattle.def_instructions.specs.Arithmetic.{combine_quick_of};
ghost use Rattle.mb_ops_arith.specs.Changes.{moved_of, sum_of};
ghost use Rattle.mb_operands.specs.Endings.{carried_by};

use crate::modifying::modify;
use crate::operations::{Change, Operation, Sum};
use mb_instr::{Ea, Plain, Size};
use mb_operands::{Stream, Undone};
use mb_port::Port;
use mb_writes::Ended;

/// Of an address register all of it counts, and no condition code changes.
#[inline(always)]
#[tactic(auto, unfolding(def_instructions::specs::Arithmetic::combine_quick_of))]
pub(crate) fn combine_quick<P: Port>(
    sum: Sum,
    quick: u8,
    size: Size,
    ea: &Ea,
    stream: Stream,
    plain: &mut Plain,
    port: &mut P,
    ended: &mut Ended,
) -> Result<(), Undone>
    requires operand { IsEa size ea.now }
    requires destination { IsDestination ea.now }
    ensures means { run P.bus
        (combine_quick_of (sum_of sum size quick)
        (λ address. moved_of sum address quick) size ea.now stream.at stream.space plain.old)
        (P.world port.old) ≡ (carried_by result ended.new plain.new, P.world port.new) }
    ensures rest { P.rest port.new ≡ P.rest port.old }
{
    let quick = u32::from(quick);
    match ea.address_number() {
        Some(n) => {
            let n = n as usize;
            plain.a[n] = sum.moved(plain.a[n], quick);
            Ok(())
        }
        None => {
            let change = Change::By(Operation::Sum(sum), quick);
            modify(change, size, ea, stream, plain, port, ended)
        }
    }
}
