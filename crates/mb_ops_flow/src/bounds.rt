//! CHK and CHK2.

ghost use Rattle.std.specs.Prelude.{◌≡◌, ◌<◌};
ghost use Rattle.mb_port.specs.Routine.{run};
ghost use Rattle.mb_instr.specs.Operands.{IsEa, IsInMemory};
ghost use Rattle.mb_alu.specs.Signs.{signed_of};
ghost use Rattle.def_instructions.specs.Bounds.{check_bound_of, chk_of, check_carry_of, chk2_of};
ghost use Rattle.mb_operands.specs.Endings.{performed_by};

use mb_alu::Conditions;
use mb_instr::vectors::OUT_OF_BOUNDS;
use mb_instr::{Ea, Plain, Size};
use mb_operands::{Stream, Undone, compare_bounds, fetch_operand, trapped, unread};
use mb_port::Port;
use mb_writes::Ended;

/// The signed value of the low bytes that count.
#[inline(always)]
fn signed(size: Size, value: u32) -> i64
    ensures { result ≡ signed_of size value }
{
    let low = i64::from(size.low(value));
    match size {
        Size::Byte if low >= 0x80 => low - 0x100,
        Size::Word if low >= 0x8000 => low - 0x1_0000,
        Size::Long if low >= 0x8000_0000 => low - 0x1_0000_0000,
        Size::Byte | Size::Word | Size::Long => low,
    }
}

/// A value below 0 or above the bound traps; then N says whether it is below 0, and the other condition codes stay.
#[inline(always)]
fn check_bound(
    size: Size,
    bound: u32,
    value: u32,
    plain: &mut Plain,
    ended: &mut Ended,
) -> Result<bool, Undone>
    ensures means { performed_by result ended.new plain.new ≡ check_bound_of size bound value plain.old }
{
    let bound = signed(size, bound);
    let value = signed(size, value);
    if value < 0 || bound < value {
        let codes = Conditions {
            n: value < 0,
            ..Conditions::of(plain.ccr)
        };
        plain.ccr = codes.ccr();
        Err(trapped(OUT_OF_BOUNDS, ended))
    } else {
        Ok(false)
    }
}

/// CHK.
#[inline(always)]
pub fn chk<P: Port>(
    register: u8,
    size: Size,
    ea: &Ea,
    stream: Stream,
    plain: &mut Plain,
    port: &mut P,
    ended: &mut Ended,
) -> Result<bool, Undone>
    requires register { register < 8 }
    requires operand { IsEa size ea.now }
    ensures means { run P.bus (chk_of register size ea.now stream.at stream.space plain.old) (P.world port.old)
        ≡ (performed_by result ended.new plain.new, P.world port.new) }
    ensures rest { P.rest port.new ≡ P.rest port.old }
{
    match fetch_operand(size, ea, stream, plain, port) {
        Ok(bound) => check_bound(size, bound.value, plain.d[register as usize], plain, ended),
        Err(refused) => Err(unread(&refused, ended)),
    }
}

/// A value out of bounds, which C says, traps.
#[inline(always)]
fn check_carry(plain: &Plain, ended: &mut Ended) -> Result<bool, Undone>
    ensures means { performed_by result ended.new plain.now ≡ check_carry_of plain.now }
{
    if Conditions::of(plain.ccr).c {
        Err(trapped(OUT_OF_BOUNDS, ended))
    } else {
        Ok(false)
    }
}

/// CHK2; the word says which register is compared.
#[inline(always)]
pub fn chk2<P: Port>(
    size: Size,
    ea: &Ea,
    word: u16,
    stream: Stream,
    plain: &mut Plain,
    port: &mut P,
    ended: &mut Ended,
) -> Result<bool, Undone>
    requires operand { IsEa size ea.now }
    requires place { IsInMemory ea.now }
    ensures means { run P.bus (chk2_of size ea.now word stream.at stream.space plain.old) (P.world port.old)
        ≡ (performed_by result ended.new plain.new, P.world port.new) }
    ensures rest { P.rest port.new ≡ P.rest port.old }
{
    match compare_bounds(size, ea, word, stream, plain, port) {
        Ok(ccr) => {
            plain.ccr = ccr;
            check_carry(plain, ended)
        }
        Err(refused) => Err(unread(&refused, ended)),
    }
}
