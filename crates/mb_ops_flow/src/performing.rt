//! Instructions that go elsewhere, each by its row.

ghost use Rattle.std.specs.Prelude.{◌≡◌, true};
ghost use Rattle.mb_port.specs.Routine.{run};
ghost use Rattle.mb_instr.specs.Codes.{IsInstr};
ghost use Rattle.mb_instr.specs.Shapes.{operands_at};
ghost use Rattle.mb_instr.specs.Rows.{flow_row};
ghost use Rattle.mb_instr.specs.declared.instruction.Instr.TheVariants as instr;
ghost use Rattle.def_instructions.specs.Rows.{perform_flow_of};
ghost use Rattle.def_instructions.specs.Ends.{closing, restoring};
ghost use Rattle.mb_operands.specs.Endings.{is_unread, performed_by};

use crate::bounds::{chk, chk2};
use crate::branches::branch;
use crate::jumps::{jmp, jsr};
use crate::loops::dbcc;
use crate::returns::{rtd, rtr, rts};
use crate::traps::{trap, trapcc, trapv};
use mb_instr::{Flow, Plain};
use mb_operands::{Stream, Undone, put_back};
use mb_port::Port;
use mb_writes::Ended;

/// Carries out the instruction by its row. The answer is whether it changed the flow of control, or how it ended
/// otherwise.
#[rattlefmt::skip]
#[inline(always)]
fn carry_out<P: Port>(
    instruction: &Flow,
    stream: Stream,
    plain: &mut Plain,
    port: &mut P,
    ended: &mut Ended,
) -> Result<bool, Undone>
    requires { IsInstr (instr.Flow instruction.now) }
    ensures means { run P.bus
        (perform_flow_of instruction.now (operands_at (flow_row instruction.now) stream.at) stream.space plain.old)
        (P.world port.old) ≡ (performed_by result ended.new plain.new, P.world port.new) }
    ensures rest { P.rest port.new ≡ P.rest port.old }
{
    let first_word = Stream { at: stream.at.wrapping_add(2), ..stream };
    let second_word = Stream { at: stream.at.wrapping_add(4), ..stream };
    match *instruction {
        Flow::Nop => Ok(false),
        Flow::Bcc { condition, displacement } =>
            branch(condition, displacement, first_word, plain, port, ended),
        Flow::Chk { register, size, ref ea } => chk(register, size, ea, first_word, plain, port, ended),
        Flow::Chk2 { size, ref ea, word } => chk2(size, ea, word, second_word, plain, port, ended),
        Flow::Dbcc { condition, register, displacement } =>
            Ok(dbcc(condition, register, displacement, first_word.at, plain)),
        Flow::Jmp { ref ea } => jmp(ea, first_word, plain, port, ended),
        Flow::Jsr { ref ea } => jsr(ea, first_word, plain, port, ended),
        Flow::Rtd { displacement } => rtd(displacement, stream.space, plain, port, ended),
        Flow::Rtr => rtr(stream.space, plain, port, ended),
        Flow::Rts => rts(stream.space, plain, port, ended),
        Flow::Trap { number } => trap(number, plain, ended),
        Flow::Trapcc { condition, .. } => trapcc(condition, plain, ended),
        Flow::Trapv => trapv(plain, ended),
    }
}

/// Carries out an instruction that goes elsewhere, which stands at `stream.at`, on the registers in place. PC is past
/// its words already. Where it is not done, how it ended goes to `ended`; after a refused read the registers before the
/// instruction count, and `plain` may have some that were stepped.
#[inline(always)]
pub fn perform_flow_in_place<P: Port>(
    instruction: &Flow,
    stream: Stream,
    plain: &mut Plain,
    port: &mut P,
    ended: &mut Ended,
) -> Result<bool, Undone>
    requires { IsInstr (instr.Flow instruction.now) }
    ensures means { run P.bus
        (perform_flow_of instruction.now (operands_at (flow_row instruction.now) stream.at) stream.space plain.old)
        (P.world port.old) ≡ (performed_by result ended.new plain.new, P.world port.new) }
    ensures rest { P.rest port.new ≡ P.rest port.old }
{
    carry_out(instruction, stream, plain, port, ended)
}

/// Carries out an instruction that goes elsewhere, which stands at `stream.at`. PC is past its words already. After a
/// refused read the registers are as before.
pub fn perform_flow<P: Port>(
    instruction: &Flow,
    stream: Stream,
    plain: &mut Plain,
    port: &mut P,
) -> Ended
    requires { IsInstr (instr.Flow instruction.now) }
    ensures means { run P.bus
        (closing (restoring plain.old
        (perform_flow_of instruction.now (operands_at (flow_row instruction.now) stream.at) stream.space plain.old)))
        (P.world port.old) ≡ ((result, plain.new), P.world port.new) }
    ensures unread { is_unread result ≡ true → plain.new ≡ plain.old }
    ensures rest { P.rest port.new ≡ P.rest port.old }
{
    let before = *plain;
    let mut ended = Ended::Done { flow: false };
    let done = perform_flow_in_place(instruction, stream, plain, port, &mut ended);
    put_back(done, ended, &before, plain)
}
