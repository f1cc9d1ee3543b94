//! MOVE to and from CCR, and Scc.

ghost use Rattle.std.specs.Prelude.{◌≡◌, ◌<◌};
ghost use Rattle.mb_port.specs.Routine.{run};
ghost use Rattle.mb_instr.specs.Operands.{IsEa, IsDestination};
ghost use Rattle.def_instructions.specs.Moves.{move_to_ccr_of, move_from_ccr_of, condition_byte, scc_of};
ghost use Rattle.mb_operands.specs.Endings.{carried_by};

use mb_ea::resolve;
use mb_instr::{Condition, Ea, Plain, Size};
use mb_operands::{Stream, Undone, fetch_operand, finish_with, is_met, unread};
use mb_port::Port;
use mb_writes::Ended;

/// MOVE to CCR: a word is read, and its low five bits are the condition codes.
#[inline(always)]
pub fn move_to_ccr<P: Port>(
    ea: &Ea,
    stream: Stream,
    plain: &mut Plain,
    port: &mut P,
    ended: &mut Ended,
) -> Result<(), Undone>
    requires { IsEa Size.Word ea.now }
    ensures means { run P.bus (move_to_ccr_of ea.now stream.at stream.space plain.old) (P.world port.old)
        ≡ (carried_by result ended.new plain.new, P.world port.new) }
    ensures rest { P.rest port.new ≡ P.rest port.old }
{
    match fetch_operand(Size::Word, ea, stream, plain, port) {
        Ok(operand) => {
            plain.ccr = (operand.value % 32) as u8;
            Ok(())
        }
        Err(refused) => Err(unread(&refused, ended)),
    }
}

/// MOVE from CCR: a word with X, N, Z, V and C in bits 4 to 0. The destination is not read.
#[inline(always)]
pub fn move_from_ccr<P: Port>(
    ea: &Ea,
    stream: Stream,
    plain: &mut Plain,
    port: &mut P,
    ended: &mut Ended,
) -> Result<(), Undone>
    requires operand { IsEa Size.Word ea.now }
    requires destination { IsDestination ea.now }
    ensures means { run P.bus (move_from_ccr_of ea.now stream.at stream.space plain.old) (P.world port.old)
        ≡ (carried_by result ended.new plain.new, P.world port.new) }
    ensures rest { P.rest port.new ≡ P.rest port.old }
{
    let codes = u32::from(plain.ccr % 32);
    let target = match resolve(ea, Size::Word, plain, stream.at, stream.space, port) {
        Ok(target) => target,
        Err(refused) => return Err(unread(&refused, ended)),
    };
    finish_with(target, Size::Word, codes, stream.space, plain, port, ended)
}

/// A byte of ones, or of zeros.
#[inline(always)]
fn condition_byte(met: bool) -> u32
    ensures { result ≡ condition_byte met }
{
    if met { 0xff } else { 0 }
}

/// Scc: ones where the condition is met, else zeros. The destination is not read.
#[inline(always)]
pub fn scc<P: Port>(
    condition: Condition,
    ea: &Ea,
    stream: Stream,
    plain: &mut Plain,
    port: &mut P,
    ended: &mut Ended,
) -> Result<(), Undone>
    requires operand { IsEa Size.Byte ea.now }
    requires destination { IsDestination ea.now }
    ensures means { run P.bus (scc_of condition ea.now stream.at stream.space plain.old) (P.world port.old)
        ≡ (carried_by result ended.new plain.new, P.world port.new) }
    ensures rest { P.rest port.new ≡ P.rest port.old }
{
    let byte = condition_byte(is_met(condition, plain.ccr));
    let target = match resolve(ea, Size::Byte, plain, stream.at, stream.space, port) {
        Ok(target) => target,
        Err(refused) => return Err(unread(&refused, ended)),
    };
    finish_with(target, Size::Byte, byte, stream.space, plain, port, ended)
}
