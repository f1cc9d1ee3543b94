//! What the processor does around an instruction, as routines over a bus: what only a supervisor does, exceptions and
//! their return, and a step.
//!
//! With `def_instructions`, which says what each instruction does, this crate is the manual in definitions. It has no
//! code but the words in which the definitions and the code above say why an exception is entered, and how an entry and
//! a step end.
#![tactic(auto)]

ghost use Rattle.std.specs.Prelude.{◌≡◌};
ghost use Rattle.def_processor.specs.Raise.{step_end};

mod entering;

pub use entering::{Cause, Entered};

/// How a step ended.
#[derive(Clone, Copy, Debug, PartialEq, Eq)]
pub enum StepEnd {
    /// An instruction, with the exceptions that it caused, or the entry of an interrupt.
    Went,
    /// STOP holds the processor.
    Idle,
    /// An exception could not be entered: the processor takes no more steps.
    Halted,
}

/// How a step ended, with the last exception that it entered.
#[derive(Clone, Copy, PartialEq, Eq)]
pub enum Finish {
    /// An instruction, which entered no exception.
    Went,
    /// An instruction that entered an exception, or the entry of an interrupt: the vector, of a step's last exception.
    Entered(u8),
    /// STOP holds the processor.
    Idle,
    /// An exception could not be entered: the processor takes no more steps.
    Halted,
}

impl Finish {
    /// How the step ended, without a word of exceptions.
    #[inline(always)]
    pub fn step_end(self) -> StepEnd
        ensures { result ≡ step_end self }
    {
        match self {
            Finish::Went | Finish::Entered(_) => StepEnd::Went,
            Finish::Idle => StepEnd::Idle,
            Finish::Halted => StepEnd::Halted,
        }
    }
}
