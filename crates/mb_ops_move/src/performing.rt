//! Instructions that move, each by its row.

ghost use Rattle.std.specs.Prelude.{◌≡◌, true};
ghost use Rattle.mb_port.specs.Routine.{run};
ghost use Rattle.mb_instr.specs.Codes.{IsInstr};
ghost use Rattle.mb_instr.specs.Shapes.{operands_at};
ghost use Rattle.mb_instr.specs.Rows.{move_row};
ghost use Rattle.mb_instr.specs.declared.instruction.Instr.TheVariants as instr;
ghost use Rattle.def_instructions.specs.Rows.{perform_move_of};
ghost use Rattle.def_instructions.specs.Ends.{closing, restoring};
ghost use Rattle.mb_operands.specs.Endings.{is_unread, performed_by, carried_by};

use crate::codes::{move_from_ccr, move_to_ccr, scc};
use crate::lines::{move16_absolute, move16_post};
use crate::movem::movem;
use crate::moves::{lea, move_operand, movea, moveq};
use crate::peripheral::movep;
use crate::registers::{exg, swap};
use crate::stack::{link, pea, unlk};
use mb_instr::{Move, Plain, Size};
use mb_operands::{Stream, Undone, put_back};
use mb_port::Port;
use mb_writes::Ended;

/// Carries out the instruction by its row. None changes the flow of control.
#[rattlefmt::skip]
#[inline(always)]
fn carry_out<P: Port>(
    instruction: &Move,
    stream: Stream,
    plain: &mut Plain,
    port: &mut P,
    ended: &mut Ended,
) -> Result<(), Undone>
    requires { IsInstr (instr.Move instruction.now) }
    ensures means { run P.bus
        (perform_move_of instruction.now (operands_at (move_row instruction.now) stream.at) stream.space plain.old)
        (P.world port.old) ≡ (carried_by result ended.new plain.new, P.world port.new) }
    ensures rest { P.rest port.new ≡ P.rest port.old }
{
    let first_word = Stream { at: stream.at.wrapping_add(2), ..stream };
    let second_word = Stream { at: stream.at.wrapping_add(4), ..stream };
    match *instruction {
        Move::Move { size, ref destination, ref source } =>
            move_operand(size, destination, source, first_word, plain, port, ended),
        Move::Moveq { register, immediate } => {
            moveq(register, immediate, plain);
            Ok(())
        }
        Move::MovemLoad { size, ref ea, mask } => movem(true, size, ea, mask, second_word, plain, port, ended),
        Move::MovemStore { size, ref ea, mask } => movem(false, size, ea, mask, second_word, plain, port, ended),
        Move::Movea { size, register, ref source } =>
            movea(size, register, source, first_word, plain, port, ended),
        Move::Lea { register, ref ea } => lea(register, ea, first_word, plain, port, ended),
        Move::Exg { x, kind, y } => {
            exg(x, kind, y, plain);
            Ok(())
        }
        Move::Swap { register } => {
            swap(register, plain);
            Ok(())
        }
        Move::ToCcr { ref ea } => move_to_ccr(ea, first_word, plain, port, ended),
        Move::FromCcr { ref ea } => move_from_ccr(ea, first_word, plain, port, ended),
        Move::Scc { condition, ref ea } => scc(condition, ea, first_word, plain, port, ended),
        Move::Pea { ref ea } => pea(ea, first_word, plain, port, ended),
        Move::LinkW { register, displacement } =>
            link(register, Size::Word.sign_extend(u32::from(displacement)), stream.space, plain, port, ended),
        Move::LinkL { register, displacement } => link(register, displacement, stream.space, plain, port, ended),
        Move::Unlk { register } => unlk(register, stream.space, plain, port, ended),
        Move::Movep { register, is_store, size, address, displacement } =>
            movep(register, is_store, size, address, displacement, stream.space, plain, port, ended),
        Move::Move16Abs { kind, register, address } =>
            move16_absolute(kind, register, address, stream.space, plain, port, ended),
        Move::Move16Post { x, word } => move16_post(x, word, stream.space, plain, port, ended),
    }
}

/// Carries out an instruction that moves, which stands at `stream.at`, on the registers in place. PC is past its
/// words already. Where it is not done, how it ended goes to `ended`; after a refused read the registers before the
/// instruction count, and `plain` may have some that were stepped.
#[inline(always)]
pub fn perform_move_in_place<P: Port>(
    instruction: &Move,
    stream: Stream,
    plain: &mut Plain,
    port: &mut P,
    ended: &mut Ended,
) -> Result<bool, Undone>
    requires { IsInstr (instr.Move instruction.now) }
    ensures means { run P.bus
        (perform_move_of instruction.now (operands_at (move_row instruction.now) stream.at) stream.space plain.old)
        (P.world port.old) ≡ (performed_by result ended.new plain.new, P.world port.new) }
    ensures rest { P.rest port.new ≡ P.rest port.old }
{
    match carry_out(instruction, stream, plain, port, ended) {
        Ok(()) => Ok(false),
        Err(undone) => Err(undone),
    }
}

/// Carries out an instruction that moves, which stands at `stream.at`. PC is past its words already. After a
/// refused read the registers are as before.
pub fn perform_move<P: Port>(
    instruction: &Move,
    stream: Stream,
    plain: &mut Plain,
    port: &mut P,
) -> Ended
    requires { IsInstr (instr.Move instruction.now) }
    ensures means { run P.bus
        (closing (restoring plain.old
        (perform_move_of instruction.now (operands_at (move_row instruction.now) stream.at) stream.space plain.old)))
        (P.world port.old) ≡ ((result, plain.new), P.world port.new) }
    ensures unread { is_unread result ≡ true → plain.new ≡ plain.old }
    ensures rest { P.rest port.new ≡ P.rest port.old }
{
    let before = *plain;
    let mut ended = Ended::Done { flow: false };
    let done = perform_move_in_place(instruction, stream, plain, port, &mut ended);
    put_back(done, ended, &before, plain)
}
