//! A board in user mode, beside the guest that it runs.
//!
//! Where the board's memory holds a guest's RAM and shadow tables, and its kept translations say what the tables say
//! ([`specs/Related`]), each lawful call of the board in user space answers as the guest's held bus does: what the
//! shadow allows is carried out at the guest's place, moved, and anything else is refused with the very fault. So does
//! a whole fetch, instruction and attempt, by the twins of every instruction; and of the board nothing changes outside
//! the guest's RAM but what is kept. [`specs/Ready`] says what makes a board ready for a guest, and what leaves it so.
//! The code has the laws.
#![tactic(auto)]

ghost use Rattle.law_mirror.specs.Laws.{MirrorsCalls, IsAlike, StaysInside};
ghost use Rattle.law_mirror.specs.Attempts.{AttemptsStay, FetchesStay, RowsStay};
ghost use Rattle.law_mirror.specs.Ready.{NativeTranslation, EntersUntranslated, StartsFlushed, StaysReady, OnBoard};

/// One call: the board and the held guest answer alike, are related again, and the board changes nothing outside the
/// guest's RAM.
pub fn board_mirrors_calls()
    ensures calls { MirrorsCalls }
    ensures alike { IsAlike }
    ensures inside { StaysInside }
{}

/// A whole attempt, and its two parts: an instruction is fetched, and carried out.
pub fn board_mirrors_attempts()
    ensures attempts { AttemptsStay }
    ensures fetches { FetchesStay }
    ensures rows { RowsStay }
{}

/// The board is made ready for a guest by its registers and a flush of all, and stays so whatever changes elsewhere.
pub fn board_is_made_ready()
    ensures translation { NativeTranslation }
    ensures entry { EntersUntranslated }
    ensures flushed { StartsFlushed }
    ensures stays { StaysReady }
    ensures entries { OnBoard }
{}
