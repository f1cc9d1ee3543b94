//! Instructions that compute, each by its row.

ghost use Rattle.std.specs.Prelude.{◌≡◌, true};
ghost use Rattle.mb_port.specs.Routine.{run};
ghost use Rattle.mb_instr.specs.Codes.{IsInstr};
ghost use Rattle.mb_instr.specs.Shapes.{operands_at};
ghost use Rattle.mb_instr.specs.Rows.{arith_row};
ghost use Rattle.mb_instr.specs.declared.instruction.Instr.TheVariants as instr;
ghost use Rattle.def_instructions.specs.Rows.{perform_arith_of};
ghost use Rattle.def_instructions.specs.Ends.{closing, restoring};
ghost use Rattle.mb_operands.specs.Endings.{is_unread, performed_by, carried_by};

use crate::groups::{
    bits_row, comparison_row, decimal_row, immediate_row, locked_row, pair_row,
    register_result_row, single_row,
};
use mb_instr::{Arith, Plain};
use mb_operands::{Stream, Undone, put_back};
use mb_port::Port;
use mb_writes::Ended;

/// Carries out the instruction by its row, which one of the groups has.
#[rattlefmt::skip]
#[inline(always)]
fn carry_out<P: Port>(
    instruction: &Arith,
    stream: Stream,
    plain: &mut Plain,
    port: &mut P,
    ended: &mut Ended,
) -> Result<(), Undone>
    requires { IsInstr (instr.Arith instruction.now) }
    ensures means { run P.bus
        (perform_arith_of instruction.now (operands_at (arith_row instruction.now) stream.at) stream.space plain.old)
        (P.world port.old) ≡ (carried_by result ended.new plain.new, P.world port.new) }
    ensures rest { P.rest port.new ≡ P.rest port.old }
{
    match instruction {
        Arith::Add { .. } | Arith::Sub { .. } | Arith::And { .. } | Arith::Or { .. } | Arith::Eor { .. }
        | Arith::Addx { .. } | Arith::Subx { .. } => pair_row(instruction, stream, plain, port, ended),
        Arith::Addi { .. } | Arith::Subi { .. } | Arith::Andi { .. } | Arith::Ori { .. } | Arith::Eori { .. }
        | Arith::OriCcr { .. } | Arith::AndiCcr { .. } | Arith::EoriCcr { .. } | Arith::Addq { .. }
        | Arith::Subq { .. } => immediate_row(instruction, stream, plain, port, ended),
        Arith::Cmp { .. } | Arith::Cmpi { .. } | Arith::Cmpm { .. } | Arith::Cmp2 { .. } | Arith::Cmpa { .. }
        | Arith::Tst { .. } => comparison_row(instruction, stream, plain, port, ended),
        Arith::Adda { .. } | Arith::Suba { .. } | Arith::MulW { .. } | Arith::MulL { .. } | Arith::DivW { .. }
        | Arith::DivL { .. } => register_result_row(instruction, stream, plain, port, ended),
        Arith::Neg { .. } | Arith::Negx { .. } | Arith::Not { .. } | Arith::Clr { .. } | Arith::ShiftMem { .. }
        | Arith::Nbcd { .. } | Arith::ExtW { .. } | Arith::ExtL { .. } | Arith::ExtbL { .. }
        | Arith::ShiftReg { .. } => single_row(instruction, stream, plain, port, ended),
        Arith::BitReg { .. } | Arith::BitImm { .. } | Arith::Field { .. } =>
            bits_row(instruction, stream, plain, port, ended),
        Arith::Abcd { .. } | Arith::Sbcd { .. } | Arith::Pack { .. } | Arith::Unpk { .. } =>
            decimal_row(instruction, stream, plain, port, ended),
        Arith::Tas { .. } | Arith::Cas { .. } | Arith::Cas2 { .. } =>
            locked_row(instruction, stream, plain, port, ended),
    }
}

/// Carries out an instruction that computes, which stands at `stream.at`, on the registers in place. PC is past its
/// words already. Where it is not done, how it ended goes to `ended`; after a refused read the registers before the
/// instruction count, and `plain` may have some that were stepped.
#[inline(always)]
pub fn perform_arith_in_place<P: Port>(
    instruction: &Arith,
    stream: Stream,
    plain: &mut Plain,
    port: &mut P,
    ended: &mut Ended,
) -> Result<bool, Undone>
    requires { IsInstr (instr.Arith instruction.now) }
    ensures means { run P.bus
        (perform_arith_of instruction.now (operands_at (arith_row instruction.now) stream.at) stream.space plain.old)
        (P.world port.old) ≡ (performed_by result ended.new plain.new, P.world port.new) }
    ensures rest { P.rest port.new ≡ P.rest port.old }
{
    match carry_out(instruction, stream, plain, port, ended) {
        Ok(()) => Ok(false),
        Err(undone) => Err(undone),
    }
}

/// Carries out an instruction that computes, which stands at `stream.at`. PC is past its words already. After a
/// refused read the registers are as before.
pub fn perform_arith<P: Port>(
    instruction: &Arith,
    stream: Stream,
    plain: &mut Plain,
    port: &mut P,
) -> Ended
    requires { IsInstr (instr.Arith instruction.now) }
    ensures means { run P.bus
        (closing (restoring plain.old
        (perform_arith_of instruction.now (operands_at (arith_row instruction.now) stream.at) stream.space plain.old)))
        (P.world port.old) ≡ ((result, plain.new), P.world port.new) }
    ensures unread { is_unread result ≡ true → plain.new ≡ plain.old }
    ensures rest { P.rest port.new ≡ P.rest port.old }
{
    let before = *plain;
    let mut ended = Ended::Done { flow: false };
    let done = perform_arith_in_place(instruction, stream, plain, port, &mut ended);
    put_back(done, ended, &before, plain)
}
