//! Laws of the bus and of runs.

ghost use Rattle.def_machine.specs.Laws.{BytesStay, FaultsTell, TranslationsStayBeside};
ghost use Rattle.def_machine.specs.Enters.{EntersStacked};
ghost use Rattle.def_machine.specs.Laws.{CallsLeaveTheSize, CallsStandBeneath, PlacesStandBeneath, RunsLeaveTheSize};
ghost use Rattle.def_machine.specs.Laws.{StartsHaveTheBuild, CallsLeaveTheBuild, RunsLeaveTheBuild};

/// Whatever is called, a memory of bytes stays one, by every rule of keeping.
pub fn memory_stays_bytes()
    ensures { BytesStay }
{}

/// Memory keeps its size, whatever is called, and however many steps a machine takes.
pub fn memory_keeps_its_size()
    ensures calls { CallsLeaveTheSize }
    ensures runs { RunsLeaveTheSize }
{}

/// What is read or written leaves the registers of translation, and what is kept.
pub fn accesses_stand_beneath()
    ensures calls { CallsStandBeneath }
    ensures places { PlacesStandBeneath }
{}

/// What a refused access tells, and what stands after it: bits of tables that were set, entries that were kept, and
/// whatever earlier accesses did. The refused piece itself is not accessed.
pub fn refused_accesses()
    ensures tell { FaultsTell }
    ensures beside { TranslationsStayBeside }
{}

/// Where supervisor operands are not translated, the entry of an exception with one frame in RAM writes that frame, and
/// goes on at the long that its vector names.
pub fn entries_are_stacked()
    ensures { EntersStacked }
{}

/// The devices show the size with which the machine began, and a disk stays attached, after whatever calls and steps,
/// and whatever arrives.
pub fn devices_keep_their_build()
    ensures start { StartsHaveTheBuild }
    ensures calls { CallsLeaveTheBuild }
    ensures runs { RunsLeaveTheBuild }
{}
