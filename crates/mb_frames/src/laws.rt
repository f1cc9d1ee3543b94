//! Laws about the definitions, each the contract of a function that does nothing.

ghost use Rattle.std.specs.Prelude.{◌<◌, ◌^◌, ℕ};
ghost use Rattle.mb_frames.specs.AccessFields.{AccessCase, access_fields};
ghost use Rattle.mb_frames.specs.Worked.{FetchFromInvalidPage, LineIntoInvalidPage, LockedPastMemory, OtherFieldsAreZero};
ghost use Rattle.mb_frames.specs.Worked.{MovemDownIntoInvalidPage, MovemFromInvalidPage, MovemIntoDevice};
ghost use Rattle.mb_frames.specs.Worked.{MovemIntoInvalidPage, ReadIntoInvalidPage, StackOnInvalidPage, StackPastMemory};
ghost use Rattle.mb_frames.specs.Worked.{UserLinePastMemory, UserWriteOnInvalidPage, WriteIntoInvalidPage};
ghost use Rattle.mb_frames.specs.Worked.{WriteOfNothing, WritePastMemory, WriteWithinLargePage};

/// The fields of an access error are those of frames that were worked out by hand.
#[tactic(auto, unfolding(mb_port::specs::Pieces::span_of, mb_port::specs::Pieces::weight_of))]
pub fn worked_frames()
    ensures other_fields_are_zero { OtherFieldsAreZero }
    ensures fetch_from_invalid_page { FetchFromInvalidPage }
    ensures read_into_invalid_page { ReadIntoInvalidPage }
    ensures locked_past_memory { LockedPastMemory }
    ensures write_into_invalid_page { WriteIntoInvalidPage }
    ensures write_past_memory { WritePastMemory }
    ensures user_write_on_invalid_page { UserWriteOnInvalidPage }
    ensures write_within_large_page { WriteWithinLargePage }
    ensures write_of_nothing { WriteOfNothing }
    ensures movem_into_invalid_page { MovemIntoInvalidPage }
    ensures movem_into_device { MovemIntoDevice }
    ensures movem_down_into_invalid_page { MovemDownIntoInvalidPage }
    ensures movem_from_invalid_page { MovemFromInvalidPage }
    ensures line_into_invalid_page { LineIntoInvalidPage }
    ensures user_line_past_memory { UserLinePastMemory }
    ensures stack_on_invalid_page { StackOnInvalidPage }
    ensures stack_past_memory { StackPastMemory }
{}

/// In each of the five cases the bits of the special status word from CT on are clear: where a trace
/// is due, whoever makes the frame sets CT.
#[tactic(auto, using(crate::proofs::TraceBit::clear_from_ct))]
pub fn no_trace_bit()
    ensures { (case : AccessCase) (page : ℕ) → (access_fields case page).ssw < 2 ^ 13 }
{}
