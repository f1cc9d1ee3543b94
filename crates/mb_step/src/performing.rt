//! Instructions, each by its family.

ghost use Rattle.std.specs.Prelude.{◌≡◌, true};
ghost use Rattle.mb_port.specs.Routine.{run};
ghost use Rattle.mb_instr.specs.Codes.{IsInstr};
ghost use Rattle.def_instructions.specs.Rows.{perform_of};
ghost use Rattle.def_instructions.specs.Ends.{closing};
ghost use Rattle.mb_operands.specs.Endings.{is_unread, performed_in_place};

use mb_instr::vectors::PRIVILEGED;
use mb_instr::{Instr, Plain};
use mb_operands::{Stream, Undone, put_back, refused};
use mb_ops_arith::perform_arith_in_place;
use mb_ops_flow::perform_flow_in_place;
use mb_ops_move::perform_move_in_place;
use mb_port::Port;
use mb_writes::Ended;

/// Carries out the instruction that stands at `stream.at`, on the registers in place. PC is past its words already.
/// Where it is not done, how it ended goes to `ended`; after a refused read the registers before the instruction count,
/// and `plain` may have some that were stepped.
#[inline(always)]
pub(crate) fn perform_in_place<P: Port>(
    instruction: &Instr,
    stream: Stream,
    plain: &mut Plain,
    port: &mut P,
    ended: &mut Ended,
) -> Result<bool, Undone>
    requires { IsInstr instruction.now }
    ensures means { run P.bus (perform_of instruction.now stream.at stream.space plain.old) (P.world port.old)
        ≡ (performed_in_place result ended.new plain.old plain.new, P.world port.new) }
    ensures rest { P.rest port.new ≡ P.rest port.old }
{
    match instruction {
        Instr::Move(instruction) => perform_move_in_place(instruction, stream, plain, port, ended),
        Instr::Arith(instruction) => perform_arith_in_place(
            instruction,
            stream,
            plain,
            port,
            ended,
        ),
        Instr::Flow(instruction) => perform_flow_in_place(instruction, stream, plain, port, ended),
        Instr::System(_) => Err(refused(PRIVILEGED, ended)),
    }
}

/// Carries out the instruction that stands at `stream.at`. PC is past its words already. After a refused read the
/// registers are as before.
pub fn perform<P: Port>(
    instruction: &Instr,
    stream: Stream,
    plain: &mut Plain,
    port: &mut P,
) -> Ended
    requires { IsInstr instruction.now }
    ensures means { run P.bus (closing (perform_of instruction.now stream.at stream.space plain.old)) (P.world port.old)
        ≡ ((result, plain.new), P.world port.new) }
    ensures unread { is_unread result ≡ true → plain.new ≡ plain.old }
    ensures rest { P.rest port.new ≡ P.rest port.old }
{
    let before = *plain;
    let mut ended = Ended::Done { flow: false };
    let done = perform_in_place(instruction, stream, plain, port, &mut ended);
    put_back(done, ended, &before, plain)
}
