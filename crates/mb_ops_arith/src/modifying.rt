//! Operands that are read, changed and written back.

ghost use Rattle.std.specs.Prelude.{◌≡◌};
ghost use Rattle.mb_port.specs.Routine.{run};
ghost use Rattle.mb_instr.specs.Operands.{IsEa, IsDestination};
ghost use Rattle.def_instructions.specs.Modifying.{modify_of};
ghost use Rattle.mb_ops_arith.specs.Changes.{change_of};
ghost use Rattle.mb_operands.specs.Endings.{carried_by};

use crate::operations::Change;
use crate::unary::put_in_register;
use mb_instr::{Ea, Plain, Size};
use mb_operands::{Stream, Undone, fetch_operand, finish_with, unread};
use mb_port::Port;
use mb_writes::Ended;

/// Reads an operand, wherever it stands, changes it, and writes it back.
#[inline(never)]
fn modify_operand<P: Port>(
    change: Change,
    size: Size,
    ea: &Ea,
    stream: Stream,
    plain: &mut Plain,
    port: &mut P,
    ended: &mut Ended,
) -> Result<(), Undone>
    requires operand { IsEa size ea.now }
    requires destination { IsDestination ea.now }
    ensures means { run P.bus (modify_of (change_of change size) size ea.now stream.at stream.space plain.old)
        (P.world port.old) ≡ (carried_by result ended.new plain.new, P.world port.new) }
    ensures rest { P.rest port.new ≡ P.rest port.old }
{
    let operand = match fetch_operand(size, ea, stream, plain, port) {
        Ok(operand) => operand,
        Err(refused) => return Err(unread(&refused, ended)),
    };
    let changed = change.apply(size, operand.value, plain.ccr);
    plain.ccr = changed.ccr;
    finish_with(
        operand.target,
        size,
        changed.value,
        stream.space,
        plain,
        port,
        ended,
    )
}

/// Reads an operand, changes it, and writes it back. Its first extension word is at `stream.at`. A data register is
/// changed where it is.
#[inline(always)]
#[tactic(auto, using(crate::proofs::WithoutBus::without_bus))]
pub(crate) fn modify<P: Port>(
    change: Change,
    size: Size,
    ea: &Ea,
    stream: Stream,
    plain: &mut Plain,
    port: &mut P,
    ended: &mut Ended,
) -> Result<(), Undone>
    requires operand { IsEa size ea.now }
    requires destination { IsDestination ea.now }
    ensures means { run P.bus (modify_of (change_of change size) size ea.now stream.at stream.space plain.old)
        (P.world port.old) ≡ (carried_by result ended.new plain.new, P.world port.new) }
    ensures rest { P.rest port.new ≡ P.rest port.old }
{
    if let Ea::Dn(register) = *ea {
        let old = size.low(plain.d[register as usize]);
        let changed = change.apply(size, old, plain.ccr);
        put_in_register(register, size, changed, plain);
        return Ok(());
    }
    modify_operand(change, size, ea, stream, plain, port, ended)
}
