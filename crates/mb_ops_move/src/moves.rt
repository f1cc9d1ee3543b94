//! MOVEQ, MOVE, MOVEA and LEA.

ghost use Rattle.std.specs.Prelude.{◌≡◌, ◌<◌};
ghost use Rattle.mb_port.specs.Routine.{run};
ghost use Rattle.mb_instr.specs.Operands.{IsEa, IsInMemory, IsDestination};
ghost use Rattle.def_instructions.specs.Moves.{moveq_of, move_operand_of, movea_of, lea_of};
ghost use Rattle.mb_operands.specs.Endings.{carried_by};

use mb_alu::{LogicKind, extend, logic};
use mb_ea::resolve;
use mb_instr::{Ea, Plain, Size};
use mb_operands::{Stream, Undone, behind, fetch_operand, find_address, finish_with, unread};
use mb_port::Port;
use mb_writes::Ended;

/// MOVEQ: the byte, sign-extended.
#[inline(always)]
pub fn moveq(register: u8, immediate: u8, plain: &mut Plain)
    requires { register < 8 }
    ensures { plain.new ≡ moveq_of register immediate plain.old }
{
    let extended = extend(Size::Byte, Size::Long, u32::from(immediate), plain.ccr);
    plain.d[register as usize] = extended.value;
    plain.ccr = extended.ccr;
}

/// MOVE: the source is read before the destination's address is formed, and the pieces are written last.
#[inline(always)]
pub fn move_operand<P: Port>(
    size: Size,
    destination: &Ea,
    from: &Ea,
    stream: Stream,
    plain: &mut Plain,
    port: &mut P,
    ended: &mut Ended,
) -> Result<(), Undone>
    requires target { IsEa size destination.now }
    requires destination { IsDestination destination.now }
    requires source { IsEa size from.now }
    ensures means { run P.bus (move_operand_of size destination.now from.now stream.at stream.space plain.old)
        (P.world port.old) ≡ (carried_by result ended.new plain.new, P.world port.new) }
    ensures rest { P.rest port.new ≡ P.rest port.old }
{
    let source = match fetch_operand(size, from, stream, plain, port) {
        Ok(source) => source,
        Err(refused) => return Err(unread(&refused, ended)),
    };
    let target_word_at = behind(size, from, stream.at);
    let target = match resolve(destination, size, plain, target_word_at, stream.space, port) {
        Ok(target) => target,
        Err(refused) => return Err(unread(&refused, ended)),
    };
    plain.ccr = logic(LogicKind::Pass, size, source.value, 0, plain.ccr).ccr;
    finish_with(target, size, source.value, stream.space, plain, port, ended)
}

/// MOVEA: the source, read at its size, goes to the whole register with its sign.
#[inline(always)]
pub fn movea<P: Port>(
    size: Size,
    register: u8,
    from: &Ea,
    stream: Stream,
    plain: &mut Plain,
    port: &mut P,
    ended: &mut Ended,
) -> Result<(), Undone>
    requires source { IsEa size from.now }
    requires register { register < 8 }
    ensures means { run P.bus (movea_of size register from.now stream.at stream.space plain.old) (P.world port.old)
        ≡ (carried_by result ended.new plain.new, P.world port.new) }
    ensures rest { P.rest port.new ≡ P.rest port.old }
{
    match fetch_operand(size, from, stream, plain, port) {
        Ok(source) => {
            plain.a[register as usize] = size.sign_extend(source.value);
            Ok(())
        }
        Err(refused) => Err(unread(&refused, ended)),
    }
}

/// LEA: the address of an operand, which is not read.
#[inline(always)]
pub fn lea<P: Port>(
    register: u8,
    ea: &Ea,
    stream: Stream,
    plain: &mut Plain,
    port: &mut P,
    ended: &mut Ended,
) -> Result<(), Undone>
    requires operand { IsEa Size.Long ea.now }
    requires place { IsInMemory ea.now }
    requires register { register < 8 }
    ensures means { run P.bus (lea_of register ea.now stream.at stream.space plain.old) (P.world port.old)
        ≡ (carried_by result ended.new plain.new, P.world port.new) }
    ensures rest { P.rest port.new ≡ P.rest port.old }
{
    match find_address(Size::Long, ea, stream, plain, port) {
        Ok(place) => {
            plain.a[register as usize] = place;
            Ok(())
        }
        Err(refused) => Err(unread(&refused, ended)),
    }
}
