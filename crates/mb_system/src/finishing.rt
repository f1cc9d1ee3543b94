//! The last part of a row that stores, which works on the registers alone.

ghost use Rattle.std.specs.Prelude.{◌≡◌, IfErr};
ghost use Rattle.mb_port.specs.Routine.{run};
ghost use Rattle.mb_ea.specs.Addresses.{IsTarget, IsPlace};
ghost use Rattle.def_instructions.specs.Operands.{finish_with_of};
ghost use Rattle.def_processor.specs.SystemEnds.{finish_row_of, system_carried_by};
ghost use Rattle.mb_system.specs.Ends.{SystemEnds};

use mb_ea::Target;
use mb_instr::{Plain, Size};
use mb_model::Cpu;
use mb_operands::finish_with;
use mb_port::{Port, Space};
use mb_writes::Ended;

/// A value goes to its target, and the registers become the processor's.
#[inline(always)]
#[tactic(auto, using(crate::proofs::Ends::unfinished, crate::proofs::Ends::cut_within))]
pub(crate) fn finish_row<P: Port>(
    target: Target,
    size: Size,
    value: u32,
    space: Space,
    plain: &mut Plain,
    cpu: &mut Cpu,
    port: &mut P,
) -> Result<(), Ended>
    requires target { IsTarget size target }
    requires place { IsPlace target }
    ensures means { run P.bus (finish_row_of cpu.old (finish_with_of target size value space plain.old))
        (P.world port.old)
        ≡ (system_carried_by result cpu.new, P.world port.new) }
    ensures ends { IfErr result (λ end. SystemEnds end cpu.old cpu.new) }
    ensures rest { P.rest port.new ≡ P.rest port.old }
{
    let mut ended = Ended::Done { flow: false };
    let done = match finish_with(target, size, value, space, plain, port, &mut ended) {
        Ok(()) => Ok(()),
        Err(_) => Err(ended),
    };
    cpu.regs.set_plain(plain);
    done
}
