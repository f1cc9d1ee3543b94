//! What holds of generated programs.

ghost use Rattle.mb_gen.specs.Laws.{ProgramsAreRead};

/// The words of a program decode as its instructions, one after the other.
pub fn programs_are_read()
    ensures { ProgramsAreRead }
{}
