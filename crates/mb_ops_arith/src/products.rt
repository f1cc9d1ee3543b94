//! Multiplication and division.

ghost use Rattle.std.specs.Prelude.{◌≡◌, ◌<◌};
ghost use Rattle.mb_instr.specs.FurtherWords.{pair_word};
ghost use Rattle.mb_alu.specs.Products.{IsBounded, div_of};
ghost use Rattle.mb_alu.specs.declared.quotients.Divided.TheVariants.{Done};
ghost use Rattle.mb_alu.specs.declared.width.Width.TheVariants as width;
ghost use Rattle.def_instructions.specs.Ends.{carried};
ghost use Rattle.def_instructions.specs.Products.{multiply_word_of, divided_by_word, divide_word_of};
ghost use Rattle.def_instructions.specs.Products.{multiply_to_long_of, multiply_to_wide_of, multiply_long_of};
ghost use Rattle.def_instructions.specs.Products.{dividend_of, width_in, divided_by_long, divide_long_of};
ghost use Rattle.mb_operands.specs.Endings.{carried_by};

use mb_alu::{Divided, Width, div, mul};
use mb_instr::Plain;
use mb_instr::vectors::ZERO_DIVIDE;
use mb_operands::{Undone, trapped};
use mb_writes::Ended;

/// MULU.W and MULS.W: the product is the whole register.
#[inline(always)]
pub fn multiply_word(signed: bool, register: u8, value: u32, plain: &mut Plain)
    requires { register < 8 }
    ensures { carried plain.new ≡ multiply_word_of signed register value plain.old }
{
    let n = register as usize;
    let product = mul(signed, Width::Word, value, plain.d[n], plain.ccr);
    plain.d[n] = product.value as u32;
    plain.ccr = product.ccr;
}

/// What a division by a word leaves: the quotient in the low word of the register, the remainder in the high one.
#[inline(always)]
fn leave_words(
    register: u8,
    divided: Divided,
    plain: &mut Plain,
    ended: &mut Ended,
) -> Result<(), Undone>
    requires register { register < 8 }
    requires divided { IsBounded width.Word divided }
    ensures means { carried_by result ended.new plain.new ≡ divided_by_word register divided plain.old }
{
    match divided {
        Divided::Done {
            quotient,
            remainder,
            ccr,
        } => {
            plain.d[register as usize] = remainder * 0x1_0000 + quotient;
            plain.ccr = ccr;
            Ok(())
        }
        Divided::Overflow(ccr) => {
            plain.ccr = ccr;
            Ok(())
        }
        Divided::ZeroDivide(ccr) => {
            plain.ccr = ccr;
            Err(trapped(ZERO_DIVIDE, ended))
        }
    }
}

/// DIVU.W and DIVS.W.
#[inline(always)]
pub(crate) fn divide_word(
    signed: bool,
    register: u8,
    value: u32,
    plain: &mut Plain,
    ended: &mut Ended,
) -> Result<(), Undone>
    requires { register < 8 }
    ensures means { carried_by result ended.new plain.new ≡ divide_word_of signed register value plain.old }
{
    let dividend = u64::from(plain.d[register as usize]);
    let divided = div(signed, Width::Word, value, dividend, plain.ccr);
    leave_words(register, divided, plain, ended)
}

/// The register of the low long, or of the quotient.
#[inline(always)]
fn low_register(word: u16) -> usize
    ensures value { result ≡ (pair_word word).low }
    ensures range { result < 8 }
{
    (word >> 12 & 7) as usize
}

/// The register of the high long, or of the remainder.
#[inline(always)]
fn high_register(word: u16) -> usize
    ensures value { result ≡ (pair_word word).high }
    ensures range { result < 8 }
{
    (word & 7) as usize
}

/// Whether the numbers are signed.
#[inline(always)]
fn is_signed(word: u16) -> bool
    ensures { result ≡ (pair_word word).is_signed }
{
    word >> 11 & 1 == 1
}

/// Whether the product or the dividend has 64 bits.
#[inline(always)]
fn is_wide(word: u16) -> bool
    ensures { result ≡ (pair_word word).is_wide }
{
    word >> 10 & 1 == 1
}

/// MULU.L and MULS.L with a product of 32 bits.
#[inline(always)]
fn multiply_to_long(word: u16, value: u32, plain: &mut Plain)
    ensures { plain.new ≡ multiply_to_long_of word value plain.old }
{
    let n = low_register(word);
    let product = mul(is_signed(word), Width::Long, value, plain.d[n], plain.ccr);
    plain.d[n] = product.value as u32;
    plain.ccr = product.ccr;
}

/// The same with a product of 64 bits: the register of the low long is written first.
#[inline(always)]
fn multiply_to_wide(word: u16, value: u32, plain: &mut Plain)
    ensures { plain.new ≡ multiply_to_wide_of word value plain.old }
{
    let n = low_register(word);
    let product = mul(is_signed(word), Width::Wide, value, plain.d[n], plain.ccr);
    plain.d[n] = (product.value & 0xFFFF_FFFF) as u32;
    plain.d[high_register(word)] = (product.value >> 32) as u32;
    plain.ccr = product.ccr;
}

/// MULU.L and MULS.L; `word` names the registers.
#[inline(always)]
pub fn multiply_long(word: u16, value: u32, plain: &mut Plain)
    ensures { carried plain.new ≡ multiply_long_of word value plain.old }
{
    if is_wide(word) {
        multiply_to_wide(word, value, plain);
    } else {
        multiply_to_long(word, value, plain);
    }
}

/// The dividend: 64 bits in two registers, or 32 in one.
#[inline(always)]
fn dividend(word: u16, plain: &Plain) -> u64
    ensures { result ≡ dividend_of word plain.now }
{
    let low = u64::from(plain.d[low_register(word)]);
    if is_wide(word) {
        u64::from(plain.d[high_register(word)]) * 0x1_0000_0000 + low
    } else {
        low
    }
}

/// How wide the operands of a division are.
#[inline(always)]
fn width(word: u16) -> Width
    ensures { result ≡ width_in word }
{
    if is_wide(word) {
        Width::Wide
    } else {
        Width::Long
    }
}

/// What a division by a long comes to; `word` names the registers.
#[inline(always)]
pub fn divided_long(word: u16, value: u32, plain: &Plain) -> Divided
    ensures { result ≡ div_of (pair_word word).is_signed (width_in word) value (dividend_of word plain.now)
        plain.now.ccr }
{
    div(
        is_signed(word),
        width(word),
        value,
        dividend(word, plain),
        plain.ccr,
    )
}

/// A quotient and its remainder come to the registers that `word` names, that of the remainder first.
#[inline(always)]
pub fn put_quotient(word: u16, quotient: u32, remainder: u32, ccr: u8, plain: &mut Plain)
    ensures { carried plain.new ≡ divided_by_long word (Done quotient remainder ccr) plain.old }
{
    plain.d[high_register(word)] = remainder;
    plain.d[low_register(word)] = quotient;
    plain.ccr = ccr;
}

/// What a division by a long leaves.
#[inline(always)]
fn leave_longs(
    word: u16,
    divided: Divided,
    plain: &mut Plain,
    ended: &mut Ended,
) -> Result<(), Undone>
    ensures means { carried_by result ended.new plain.new ≡ divided_by_long word divided plain.old }
{
    match divided {
        Divided::Done {
            quotient,
            remainder,
            ccr,
        } => {
            put_quotient(word, quotient, remainder, ccr, plain);
            Ok(())
        }
        Divided::Overflow(ccr) => {
            plain.ccr = ccr;
            Ok(())
        }
        Divided::ZeroDivide(ccr) => {
            plain.ccr = ccr;
            Err(trapped(ZERO_DIVIDE, ended))
        }
    }
}

/// DIVUL.L, DIVSL.L, DIVU.L and DIVS.L.
#[inline(always)]
pub(crate) fn divide_long(
    word: u16,
    value: u32,
    plain: &mut Plain,
    ended: &mut Ended,
) -> Result<(), Undone>
    ensures means { carried_by result ended.new plain.new ≡ divide_long_of word value plain.old }
{
    let divided = divided_long(word, value, plain);
    leave_longs(word, divided, plain, ended)
}
