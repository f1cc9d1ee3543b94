//! What registers spell once few of them have changed.

ghost use Rattle.std.specs.Prelude.{◌≡◌, ◌+◌, ◌-◌, ◌*◌, ◌%◌, ◌^◌, ◌<◌};
ghost use Rattle.mb_board.specs.Spelling.{flow_of, spelled_in_parts, without_flow, Spell};

use crate::spelling::{fits, spelling};
use mb_instr::Plain;
use mb_step::Follower;

/// What D0 to D7 and A0 to A7 count in a spelling, modulo 2^64: D0 stands before seventeen others.
const PLACES: [u64; 16] = [
    0x47A2_1DD9_C491_E21F,
    0xAFBA_E830_50A9_DE01,
    0x0DED_414B_E191_DDDF,
    0x08B5_129F_59DB_6A41,
    0x52DC_8CFC_E1DD_C99F,
    0x0AEE_5720_EE83_0681,
    0x005A_44E0_07B1_A55F,
    0x0002_E972_94E4_B2C1,
    26_439_622_160_671,
    852_891_037_441,
    27_512_614_111,
    887_503_681,
    28_629_151,
    923_521,
    29_791,
    961,
];

/// What a register counts in a spelling, by its number among all sixteen.
#[inline(always)]
#[tactic(auto, using(crate::proofs::Followed::places))]
fn place_of(register: u8) -> u64
    requires { register < 16 }
    ensures { result ≡ 31 ^ (17 - register) % 2 ^ 64 }
{
    PLACES[register as usize]
}

/// The sum, modulo 2^64, once what it has at this place has become another digit.
#[inline(always)]
#[tactic(auto, using(crate::proofs::Followed::digits))]
fn with_digit(sum: u64, place: u64, old: u32, new: u32) -> u64
    ensures { (result + place * old) % 2 ^ 64 ≡ (sum + place * new) % 2 ^ 64 }
{
    sum.wrapping_add(place.wrapping_mul(u64::from(new).wrapping_sub(u64::from(old))))
}

/// What D0 to D7 and A0 to A7 spell, with two zeros behind them, modulo 2^64.
#[derive(Clone, Copy)]
pub(crate) struct Digits {
    sum: u64,
}

impl Follower for Digits {
    ghost follows = { λ digits d a. digits.sum ≡ spelled_in_parts d a 0 };

    #[inline(always)]
    fn data(&mut self, register: u8, before: u32, now: &Plain) {
        self.sum = with_digit(
            self.sum,
            place_of(register),
            before,
            now.d[register as usize],
        );
    }

    #[inline(always)]
    fn address(&mut self, register: u8, before: u32, now: &Plain) {
        self.sum = with_digit(
            self.sum,
            place_of(8 + register),
            before,
            now.a[register as usize],
        );
    }

    #[inline(always)]
    fn all(&mut self, now: &Plain) {
        *self = Digits::of(spelling(now), now);
    }
}

impl Digits {
    /// Those of registers that spell this.
    #[inline(always)]
    pub(crate) fn of(spelled: u64, registers: &Plain) -> Digits
        requires { Spell registers.now spelled }
        ensures { result.sum ≡ without_flow registers.now }
    {
        Digits {
            sum: spelled.wrapping_sub(flow_of(registers)),
        }
    }

    /// What the registers spell that it follows.
    #[inline(always)]
    pub(crate) fn spelling(&self, registers: &Plain) -> u64
        requires { self.now.sum ≡ without_flow registers.now }
        ensures { Spell registers.now result }
    {
        fits(registers);
        self.sum.wrapping_add(flow_of(registers))
    }
}

/// What PC and the condition codes spell.
#[inline(always)]
fn flow_of(registers: &Plain) -> u64
    ensures means { result ≡ flow_of registers.now }
    ensures few { result < 2 ^ 40 }
{
    u64::from(registers.pc) * 31 + u64::from(registers.ccr)
}
