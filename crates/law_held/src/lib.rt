//! A guest alone, whose shadow says which of its accesses the board may make: what keeps the shadow truthful, and how
//! the guest's own step goes on where an access that the shadow does not allow was refused.
//!
//! Stands on `def_guests`'s definitions and knows no board. Between the guest's own bus and the board's stands the held
//! bus: the guest's, but for each access that the shadow does not allow, which is refused and changes nothing.
//! [`specs/Truth`] has what the shadow says of the guest's translations, and [`specs/Denied`] what is left of an
//! instruction of which the held guest was denied an access. The code has the laws.
#![tactic(auto)]

ghost use Rattle.law_held.specs.Truth.{AccessesKeepTruth, CallsKeepTruth, RunsKeepTruth};
ghost use Rattle.law_held.specs.Sound.{HeldGuards, HeldKeeps, GuestIsHeld};
ghost use Rattle.law_held.specs.Denied.{FetchesGoOn, RowsGoOn, AttemptsGoOn};
ghost use Rattle.law_held.specs.Refills.{AttemptsBeginAgain};
ghost use Rattle.law_held.specs.Names.{WordsName};

/// Each access, and each other call of the guest, keeps its shadow truthful, and one list of kept translations with at
/// most one a page.
pub fn shadow_stays_truthful()
    ensures accesses { AccessesKeepTruth }
    ensures calls { CallsKeepTruth }
{}

/// And so does a run over its bus.
pub fn runs_stay_truthful<A>()
    ensures { RunsKeepTruth A }
{}

/// The held bus refuses calls as instructions want it, and changes memory alone. What the shadow allows, the guest's
/// own bus does as the held one.
pub fn held_bus_is_guarded()
    ensures guarded { HeldGuards }
    ensures keeps { HeldKeeps }
    ensures allowed { GuestIsHeld }
{}

/// What is left of a guest's instruction where the held one was denied a call.
pub fn held_guest_goes_on()
    ensures fetched { FetchesGoOn }
    ensures carried { RowsGoOn }
    ensures attempted { AttemptsGoOn }
{}

/// An attempt that was denied a read which is refilled comes to the same once it is.
pub fn held_guest_begins_again()
    ensures { AttemptsBeginAgain }
{}

/// The words of a MOVEM name it.
pub fn words_name()
    ensures { WordsName }
{}
