//! What registers spell: the digits of a number in base 31.

ghost use Rattle.std.specs.Prelude.{◌≡◌, ◌<◌, ◌^◌, length, All};
ghost use Rattle.def_runs.specs.Marks.{sum_with_all, HasNumbers};
ghost use Rattle.mb_board.specs.Fits.{IsFit};
ghost use Rattle.mb_board.specs.Spelling.{Spell};

use mb_instr::Plain;

/// The sum with eight more digits behind its own.
#[inline(always)]
#[tactic(auto, using(crate::proofs::Spellings::spellings))]
fn with_eight(sum: u64, numbers: &[u32; 8]) -> u64
    ensures means { result ≡ sum_with_all sum numbers.now }
    ensures eight { length numbers.now ≡ 8 }
    ensures longs { All (λ v. v < 2 ^ 32) numbers.now }
{
    let [first, a, b, c, d, e, f, g] = *numbers;
    let others = u64::from(a) * 887_503_681
        + u64::from(b) * 28_629_151
        + u64::from(c) * 923_521
        + u64::from(d) * 29_791
        + u64::from(e) * 961
        + u64::from(f) * 31
        + u64::from(g);
    sum.wrapping_mul(852_891_037_441)
        .wrapping_add(u64::from(first).wrapping_mul(27_512_614_111))
        .wrapping_add(others)
}

/// Eight longs.
#[inline(always)]
fn eight_longs(numbers: &[u32; 8])
    ensures eight { length numbers.now ≡ 8 }
    ensures longs { All (λ v. v < 2 ^ 32) numbers.now }
{
    let [_a, _b, _c, _d, _e, _f, _g, _h] = *numbers;
}

/// Registers, as they are, fit a processor.
#[inline(always)]
pub(crate) fn fits(registers: &Plain)
    ensures fit { IsFit registers.now }
    ensures numbers { HasNumbers registers.now }
{
    eight_longs(&registers.d);
    eight_longs(&registers.a);
    let _counter = u64::from(registers.pc);
}

/// What registers spell, modulo 2^64: D0 to D7, A0 to A7, PC and CCR are the digits, the highest first.
#[inline(always)]
pub(crate) fn spelling(registers: &Plain) -> u64
    ensures { Spell registers.now result }
{
    with_eight(with_eight(0, &registers.d), &registers.a)
        .wrapping_mul(961)
        .wrapping_add(u64::from(registers.pc) * 31 + u64::from(registers.ccr))
}
