//! The class of a step, as the monitor finds it.

ghost use Rattle.std.specs.Prelude.{◌≡◌, ◌<◌};
ghost use Rattle.def_guests.specs.Exits.{class_of_vector, is_refusal};
ghost use Rattle.def_guests.specs.Classes.{assisted};

use def_guests::Class;
use mb_instr::status::{T0, T1};
use mb_instr::vectors::{ACCESS_ERROR, ILLEGAL, LINE_A, LINE_F, ODD_COUNTER, PRIVILEGED};
use mb_model::Cpu;
use mb_port::word_has;
use mb_step::rank;

/// The class of a step that has begun, with an interrupt of this level asked for, where the board has no part in it: an
/// interrupt is entered, STOP holds the processor, or a trace bit is set.
pub(crate) fn assisted(level: u8, cpu: &Cpu) -> Option<Class>
    ensures { result ≡ assisted level cpu.now }
{
    let sr = cpu.regs.sr;
    if rank(level) > cpu.regs.interrupt_mask() {
        Some(Class::Entered)
    } else if cpu.stopped {
        Some(Class::Idle)
    } else if word_has(sr, T1) || word_has(sr, T0) {
        Some(Class::Traced)
    } else {
        None
    }
}

/// Whether a vector is of what is no instruction that user mode carries out: an odd PC, an illegal or a privileged
/// instruction, line A or line F.
pub(crate) fn is_refusal(vector: u8) -> bool
    ensures { result ≡ is_refusal vector }
{
    matches!(vector, ODD_COUNTER | ILLEGAL | PRIVILEGED | LINE_A | LINE_F)
}

/// The class of a step that the board left by this vector.
pub(crate) fn class_of_vector(vector: u8) -> Class
    ensures { result ≡ class_of_vector vector }
{
    if vector == ACCESS_ERROR {
        Class::Denied
    } else if is_refusal(vector) {
        Class::Privileged
    } else {
        Class::Trapped
    }
}
