//! What a board counts of its runs in user mode.

ghost use Rattle.std.specs.Prelude.{◌≡◌, ℕ, ◌+◌, ◌^◌, ◌<◌};
ghost use Rattle.mb_instr.specs.declared.registers.Plain.{Plain};
ghost use Rattle.def_runs.specs.Marks.{with_spelled};
ghost use Rattle.def_runs.specs.Native.{NativeState, nothing_counted, with_exception, with_retired};
ghost use Rattle.mb_board.specs.Spelling.{gathered, Begins, IsRetired, Spell};

use std::marker::Model;

/// 31 to the 18, modulo 2^64: a trail moves up by so much for the eighteen numbers of registers.
const EIGHTEEN_PLACES: u64 = 0xACA1_9D5E_CDAA_61C1;

/// 31 to the 36, modulo 2^64: a trail moves up by so much for a step.
const STEP_PLACES: u64 = 0xF702_D5B1_13A7_D381;

/// What eighteen places are to be multiplied by to become 1.
const EIGHTEEN_PLACES_BACK: u64 = 0xA148_4A23_F44C_AE41;

/// What a board counts: its steps, its exits, and the trail of its steps. [`crate::Board::run`] alone raises the three
/// numbers.
#[derive(Drop)]
pub struct Native {
    retired: u64,
    exceptions: u64,
    trail: u64,
}

impl Model for Native {
    ghost use Rattle.def_runs.specs.Native.{NativeState};

    ghost Value = { NativeState };

    ghost view = { λ n. record { retired = n.retired; exceptions = n.exceptions; trail = n.trail } };
}

/// A trail with the eighteen numbers of registers that spell this in base 31.
#[inline(always)]
#[tactic(auto, using(crate::proofs::Spellings::places))]
fn with_spelled(trail: u64, spelling: u64) -> u64
    ensures { result ≡ with_spelled trail spelling }
{
    trail.wrapping_mul(EIGHTEEN_PLACES).wrapping_add(spelling)
}

/// What the ends of steps spell, summed in the places of the trail, with one more end. Where the trail before it has
/// the registers at the step's beginning, that behind it has those at its end, at which the next step begins.
#[inline(always)]
pub(crate) fn with_end(ends: u64, end: u64) -> u64
    ensures { (p q : Plain) → (native : NativeState) → (begun steps : ℕ) → Begins p native (gathered begun steps ends)
        → Spell q end → Begins q (with_retired p q native) (gathered begun (steps + 1) result) }
{
    ends.wrapping_mul(STEP_PLACES).wrapping_add(end)
}

/// The trail behind so many steps, which began with this one, by what their ends spell.
#[inline(always)]
#[tactic(auto, using(crate::proofs::Spellings::sums))]
pub(crate) fn gathered(begun: u64, steps: u32, ends: u64) -> u64
    ensures { result ≡ gathered begun steps ends }
{
    begun
        .wrapping_mul(STEP_PLACES.wrapping_pow(steps))
        .wrapping_add(ends.wrapping_mul(EIGHTEEN_PLACES + 1))
}

impl Native {
    /// Nothing is counted yet.
    pub fn new() -> Native
        ensures { result ≡ nothing_counted }
    {
        Native {
            retired: 0,
            exceptions: 0,
            trail: 0,
        }
    }

    /// How many steps were carried out: those that entered no exception and did not halt the board.
    pub fn retired(&self) -> u64
        ensures { result ≡ self.now.retired }
    {
        self.retired
    }

    /// How many runs ended with an exception, the board being neither halted nor off.
    pub fn exceptions(&self) -> u64
        ensures { result ≡ self.now.exceptions }
    {
        self.exceptions
    }

    /// The trail of the steps that were carried out: of each, in order, the registers at its beginning and then those
    /// at its end, D0 to D7, A0 to A7, PC and CCR. With a number x more, t becomes 31 t + x modulo 2^64.
    pub fn trail(&self) -> u64
        ensures { result ≡ self.now.trail }
    {
        self.trail
    }

    /// A step was carried out; the registers at its beginning and at its end spell these.
    #[inline(always)]
    pub(crate) fn retire(&mut self, beginning: u64, end: u64)
        requires { self.old.retired + 1 < 2 ^ 64 }
        ensures { IsRetired beginning end self.old self.new }
    {
        self.retired += 1;
        self.trail = with_spelled(with_spelled(self.trail, beginning), end);
    }

    /// The trail with the registers that spell this, at which the next step begins.
    #[inline(always)]
    pub(crate) fn begun(&self, beginning: u64) -> u64
        ensures { (p : Plain) → Spell p beginning → Begins p self.now result }
    {
        with_spelled(self.trail, beginning)
    }

    /// So many steps were carried out. `begun` is the trail with the registers at which the next step begins, and these
    /// spell `beginning`.
    #[inline(always)]
    pub(crate) fn retire_all(&mut self, steps: u32, begun: u64, beginning: u64)
        requires { self.old.retired + steps < 2 ^ 64 }
        ensures retired { self.new.retired ≡ self.old.retired + steps }
        ensures exceptions { self.new.exceptions ≡ self.old.exceptions }
        ensures trail { (p : Plain) → (after : NativeState) → Begins p after begun → Spell p beginning
            → self.new.trail ≡ after.trail }
    {
        self.retired += u64::from(steps);
        self.trail = begun
            .wrapping_sub(beginning)
            .wrapping_mul(EIGHTEEN_PLACES_BACK);
    }

    /// A step entered an exception, by which a run is left.
    pub(crate) fn except(&mut self)
        requires { self.old.exceptions + 1 < 2 ^ 64 }
        ensures { self.new ≡ with_exception self.old }
    {
        self.exceptions += 1;
    }
}
