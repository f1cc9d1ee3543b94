//! Privileged instructions, each by its row.

ghost use Rattle.std.specs.Prelude.{◌≡◌, ◌≢◌, IfErr};
ghost use Rattle.mb_port.specs.Routine.{run};
ghost use Rattle.mb_instr.specs.Codes.{IsInstr};
ghost use Rattle.mb_instr.specs.Shapes.{operands_at};
ghost use Rattle.mb_instr.specs.Rows.{system_row};
ghost use Rattle.mb_instr.specs.declared.instruction.Instr.TheVariants as instr;
ghost use Rattle.def_processor.specs.SystemEnds.{system_closing, system_performed_by};
ghost use Rattle.def_processor.specs.System.{perform_system_of};
ghost use Rattle.mb_system.specs.Ends.{SystemEnds};

use crate::control::movec;
use crate::spaces::{moves, pflush, ptest};
use crate::status::{change_status, move_from_status, move_to_status, move_usp, stop};
use mb_alu::LogicKind;
use mb_instr::System;
use mb_model::Cpu;
use mb_port::Port;
use mb_writes::Ended;

/// Carries out the instruction by its row. The answer is whether T0 asks for a trace after it, or how it ended
/// otherwise.
#[inline(always)]
fn carry_out<P: Port>(
    instruction: &System,
    at: u32,
    cpu: &mut Cpu,
    port: &mut P,
) -> Result<bool, Ended>
    requires row { IsInstr (instr.System instruction.now) }
    requires stays { instruction.now ≢ System.Rte }
    ensures means { run P.bus (perform_system_of instruction.now (operands_at (system_row instruction.now) at) cpu.old)
        (P.world port.old) ≡ (system_performed_by result cpu.new, P.world port.new) }
    ensures ends { IfErr result (λ end. SystemEnds end cpu.old cpu.new) }
    ensures rest { P.rest port.new ≡ P.rest port.old }
{
    let first_word = at.wrapping_add(2);
    match instruction {
        System::AndiSr { word } => {
            change_status(LogicKind::And, *word, cpu);
            return Ok(true);
        }
        System::OriSr { word } => {
            change_status(LogicKind::Or, *word, cpu);
            return Ok(true);
        }
        System::EoriSr { word } => {
            change_status(LogicKind::Eor, *word, cpu);
            return Ok(true);
        }
        System::ToSr { ea } => return move_to_status(ea, first_word, cpu, port),
        System::FromSr { ea } => move_from_status(ea, first_word, cpu, port)?,
        System::Stop { word } => {
            stop(*word, cpu);
            return Ok(true);
        }
        System::MoveUsp { from_usp, register } => move_usp(*from_usp, *register, cpu),
        System::Movec { to_control, word } => movec(*to_control, *word, cpu, port)?,
        System::Moves { size, ea, word } => {
            moves(*size, ea, *word, at.wrapping_add(4), cpu, port)?;
        }
        System::Reset => port.reset_devices(),
        System::Cinv { .. } | System::Cpush { .. } => {}
        System::Pflush { kind, register } => pflush(*kind, *register, cpu, port),
        System::Ptest { is_read, register } => ptest(*is_read, *register, cpu, port),
        System::Rte => unreachable!(),
    }
    Ok(false)
}

/// Carries out a privileged instruction but RTE in supervisor mode, which stands at `at`. PC is past its words already.
#[inline(always)]
#[tactic(auto, using(crate::proofs::Ends::closed_as))]
pub fn perform_system<P: Port>(instruction: &System, at: u32, cpu: &mut Cpu, port: &mut P) -> Ended
    requires row { IsInstr (instr.System instruction.now) }
    requires stays { instruction.now ≢ System.Rte }
    ensures means { run P.bus
        (system_closing cpu.old
        (perform_system_of instruction.now (operands_at (system_row instruction.now) at) cpu.old))
        (P.world port.old) ≡ ((result, cpu.new), P.world port.new) }
    ensures ends { SystemEnds result cpu.old cpu.new }
    ensures rest { P.rest port.new ≡ P.rest port.old }
{
    match carry_out(instruction, at, cpu, port) {
        Ok(flow) => Ended::Done { flow },
        Err(ended) => ended,
    }
}
