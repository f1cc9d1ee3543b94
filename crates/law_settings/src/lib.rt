//! What is set is found again.
//!
//! The definitions of `def_processor` say what MOVEC, MOVE to SR, MOVE to USP and the entry of an exception do; the
//! laws here say that they belong together. A control register that is set holds what was written, and no other
//! register changes; an exception's handler begins in supervisor mode, with no trace, and with the interrupt mask of
//! its cause.
#![tactic(auto)]

ghost use Rattle.law_settings.specs.Control.{MachineKeepsRegisters, SetIsHeld, OthersStay, RestStays, MovedIsReadBack};
ghost use Rattle.law_settings.specs.Status.{StatusIsKept, StatusIsReadBack, UspIsReadBack, UspIsControl};
ghost use Rattle.law_settings.specs.Entries.{EntryIsAtHandler, HandlersAreSupervisors, HandlersHaveCodes};
ghost use Rattle.law_settings.specs.Entries.{HandlersHaveFrames, HandlersHaveMask, HandlersHaveMaster};
ghost use Rattle.law_settings.specs.Entries.{HandlersTraceNoFlow, HandlersTraceNothing};

/// Control registers, at every type of states and over every bus that keeps its registers of memory management.
pub fn control_registers_are_kept<S>()
    ensures set { SetIsHeld S }
    ensures others { OthersStay S }
    ensures rest { RestStays S }
    ensures read_back { MovedIsReadBack S }
{}

/// There are such buses: the machine's own is one.
pub fn machine_keeps_registers()
    ensures { MachineKeepsRegisters }
{}

/// The status register and the user stack pointer, over every bus.
pub fn status_is_kept<S>()
    ensures status { StatusIsKept S }
    ensures read_back { StatusIsReadBack S }
    ensures usp { UspIsReadBack }
    ensures control { UspIsControl S }
{}

/// The entry of an exception that is done leaves the processor as its handler begins.
pub fn entries_reach_handlers<S>()
    ensures { EntryIsAtHandler S }
{}

/// What the handler of an exception begins with.
pub fn handlers_begin()
    ensures supervisor { HandlersAreSupervisors }
    ensures untraced { HandlersTraceNothing }
    ensures flow { HandlersTraceNoFlow }
    ensures codes { HandlersHaveCodes }
    ensures mask { HandlersHaveMask }
    ensures master { HandlersHaveMaster }
    ensures frames { HandlersHaveFrames }
{}
