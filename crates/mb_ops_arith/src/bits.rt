//! BTST, BCHG, BCLR and BSET.

ghost use Rattle.std.specs.Prelude.{◌≡◌, ◌<◌, ◌^◌, ◌≢◌};
ghost use Rattle.mb_port.specs.Routine.{run};
ghost use Rattle.mb_instr.specs.Operands.{IsEa, IsDestination};
ghost use Rattle.def_instructions.specs.Bits.{bit_size, bit_after, change_bit_of, bit_row_of};
ghost use Rattle.mb_operands.specs.Endings.{carried_by};

use crate::modifying::modify;
use crate::operations::Change;
use mb_alu::{Conditions, Flagged};
use mb_instr::{BitKind, Ea, Plain, Size};
use mb_operands::{Stream, Undone, fetch_operand, unread};
use mb_port::Port;
use mb_writes::Ended;

/// The size of the operand that the bit is one of.
#[inline(always)]
fn bit_size(ea: &Ea) -> Size
    requires { IsEa Size.Byte ea.now }
    ensures value { result ≡ bit_size ea.now }
    ensures range { IsEa result ea.now }
{
    match *ea {
        Ea::Dn(_) => Size::Long,
        Ea::An(_)
        | Ea::Ind(_)
        | Ea::Post(_)
        | Ea::Pre(_)
        | Ea::Disp(_, _)
        | Ea::Index(_, _)
        | Ea::AbsW(_)
        | Ea::AbsL(_)
        | Ea::PcDisp(_)
        | Ea::PcIndex(_)
        | Ea::Imm(_) => Size::Byte,
    }
}

/// The number that has that bit alone.
#[inline(always)]
fn alone(place: u32) -> u32
    requires { place < 32 }
    ensures { result ≡ 2 ^ place }
{
    1 << place
}

/// The value with that bit inverted, cleared or set.
#[inline(always)]
fn bit_after(kind: BitKind, place: u32, value: u32) -> u32
    requires { place < 32 }
    ensures { result ≡ bit_after kind place value }
{
    let bit = alone(place);
    match kind {
        BitKind::Test => value,
        BitKind::Change => value ^ bit,
        BitKind::Clear => value & !bit,
        BitKind::Set => value | bit,
    }
}

/// The value after the row, and the condition codes: Z is the complement of the bit, whose number counts modulo the
/// bits of the operand.
#[inline(always)]
#[tactic(auto, unfolding(def_instructions::specs::Bits::change_bit_of))]
pub(crate) fn change_bit(kind: BitKind, number: u32, size: Size, value: u32, ccr: u8) -> Flagged
    ensures { result ≡ change_bit_of kind number size value ccr }
{
    let place = number % (8 * u32::from(size.bytes()));
    let codes = Conditions {
        z: value >> place & 1 == 0,
        ..Conditions::of(ccr)
    };
    Flagged {
        value: bit_after(kind, place, value),
        ccr: codes.ccr(),
    }
}

/// BTST.
#[inline(always)]
fn test_bit<P: Port>(
    number: u32,
    ea: &Ea,
    stream: Stream,
    plain: &mut Plain,
    port: &mut P,
    ended: &mut Ended,
) -> Result<(), Undone>
    requires { IsEa Size.Byte ea.now }
    ensures means { run P.bus (bit_row_of BitKind.Test number ea.now stream.at stream.space plain.old)
        (P.world port.old) ≡ (carried_by result ended.new plain.new, P.world port.new) }
    ensures rest { P.rest port.new ≡ P.rest port.old }
{
    let size = bit_size(ea);
    match fetch_operand(size, ea, stream, plain, port) {
        Ok(operand) => {
            plain.ccr = change_bit(BitKind::Test, number, size, operand.value, plain.ccr).ccr;
            Ok(())
        }
        Err(refused) => Err(unread(&refused, ended)),
    }
}

/// BTST, BCHG, BCLR and BSET. The operand's first extension word is at `stream.at`.
#[inline(always)]
pub(crate) fn bit_row<P: Port>(
    kind: BitKind,
    number: u32,
    ea: &Ea,
    stream: Stream,
    plain: &mut Plain,
    port: &mut P,
    ended: &mut Ended,
) -> Result<(), Undone>
    requires operand { IsEa Size.Byte ea.now }
    requires destination { kind ≢ BitKind.Test → IsDestination ea.now }
    ensures means { run P.bus (bit_row_of kind number ea.now stream.at stream.space plain.old) (P.world port.old)
        ≡ (carried_by result ended.new plain.new, P.world port.new) }
    ensures rest { P.rest port.new ≡ P.rest port.old }
{
    match kind {
        BitKind::Test => test_bit(number, ea, stream, plain, port, ended),
        BitKind::Change | BitKind::Clear | BitKind::Set => {
            modify(
                Change::Bit(kind, number),
                bit_size(ea),
                ea,
                stream,
                plain,
                port,
                ended,
            )
        }
    }
}
