//! TAS, CAS and CAS2.

ghost use Rattle.std.specs.Prelude.{◌≡◌, ◌<◌};
ghost use Rattle.mb_port.specs.Routine.{run};
ghost use Rattle.mb_instr.specs.Operands.{IsEa, IsInMemory, IsData};
ghost use Rattle.mb_instr.specs.FurtherWords.{swap_word};
ghost use Rattle.def_instructions.specs.Locked.{test_and_set_of, tas_of};
ghost use Rattle.def_instructions.specs.Locked.{cas_codes, cas_loaded, cas_equal, cas_of};
ghost use Rattle.def_instructions.specs.Locked.{cas2_codes, cas2_of};
ghost use Rattle.mb_operands.specs.Endings.{carried_by};

use crate::modifying::modify;
use crate::operations::Change;
use mb_alu::{Flagged, LogicKind, compare, logic};
use mb_ea::resolve;
use mb_instr::{Ea, Plain, Size};
use mb_operands::{Stream, Undone, place, unread, with_low};
use mb_port::{Port, Space};
use mb_writes::{Ended, get_operand, probe_operand, put_operand};

/// The byte with bit 7 set, and the condition codes by the byte as it was.
#[inline(always)]
pub(crate) fn test_and_set(value: u32, ccr: u8) -> Flagged
    ensures { result ≡ test_and_set_of value ccr }
{
    Flagged {
        value: value | 0x80,
        ccr: logic(LogicKind::Pass, Size::Byte, value, 0, ccr).ccr,
    }
}

/// TAS. The byte is always written.
#[inline(always)]
pub(crate) fn tas<P: Port>(
    ea: &Ea,
    stream: Stream,
    plain: &mut Plain,
    port: &mut P,
    ended: &mut Ended,
) -> Result<(), Undone>
    requires operand { IsEa Size.Byte ea.now }
    requires place { IsData ea.now }
    ensures means { run P.bus (tas_of ea.now stream.at stream.space plain.old) (P.world port.old)
        ≡ (carried_by result ended.new plain.new, P.world port.new) }
    ensures rest { P.rest port.new ≡ P.rest port.old }
{
    if let Ea::Dn(_) = *ea {
        return modify(
            Change::TestAndSet,
            Size::Byte,
            ea,
            stream,
            plain,
            port,
            ended,
        );
    }
    let target = match resolve(ea, Size::Byte, plain, stream.at, stream.space, port) {
        Ok(target) => target,
        Err(refused) => return Err(unread(&refused, ended)),
    };
    let places = match probe_operand(stream.space, place(target), Size::Byte, port) {
        Ok(places) => places,
        Err(refused) => return Err(unread(&refused, ended)),
    };
    let value = get_operand(&places, Size::Byte, port);
    let set = test_and_set(value, plain.ccr);
    put_operand(&places, Size::Byte, set.value, port);
    plain.ccr = set.ccr;
    Ok(())
}

/// The number of the data register Dc.
#[inline(always)]
fn compared(word: u16) -> usize
    ensures value { result ≡ (swap_word word).compared }
    ensures range { result < 8 }
{
    (word & 7) as usize
}

/// The number of the data register Du.
#[inline(always)]
fn update(word: u16) -> usize
    ensures value { result ≡ (swap_word word).update }
    ensures range { result < 8 }
{
    (word >> 6 & 7) as usize
}

/// The number of the register that holds the operand's address, of all sixteen.
#[inline(always)]
fn pointer(word: u16) -> u8
    ensures value { result ≡ (swap_word word).pointer }
    ensures range { result < 16 }
{
    (word >> 12) as u8
}

/// The condition codes of the operand less Dc.
#[inline(always)]
fn codes(size: Size, word: u16, value: u32, plain: &Plain) -> u8
    ensures { result ≡ cas_codes size word value plain.now }
{
    compare(size, plain.d[compared(word)], value, plain.ccr)
}

/// Whether Dc and the operand are the same.
#[inline(always)]
fn is_equal(size: Size, word: u16, value: u32, plain: &Plain) -> bool
    ensures { result ≡ cas_equal size word value plain.now }
{
    size.low(plain.d[compared(word)]) == value
}

/// Puts the operand into the low bytes of Dc.
#[inline(always)]
fn load_compared(size: Size, word: u16, value: u32, plain: &mut Plain)
    ensures { plain.new ≡ cas_loaded size word value plain.old }
{
    let n = compared(word);
    plain.d[n] = with_low(size, plain.d[n], value);
}

/// CAS.
#[inline(always)]
pub(crate) fn cas<P: Port>(
    size: Size,
    ea: &Ea,
    word: u16,
    stream: Stream,
    plain: &mut Plain,
    port: &mut P,
    ended: &mut Ended,
) -> Result<(), Undone>
    requires operand { IsEa size ea.now }
    requires place { IsInMemory ea.now }
    ensures means { run P.bus (cas_of size ea.now word stream.at stream.space plain.old) (P.world port.old)
        ≡ (carried_by result ended.new plain.new, P.world port.new) }
    ensures rest { P.rest port.new ≡ P.rest port.old }
{
    let target = match resolve(ea, size, plain, stream.at, stream.space, port) {
        Ok(target) => target,
        Err(refused) => return Err(unread(&refused, ended)),
    };
    let places = match probe_operand(stream.space, place(target), size, port) {
        Ok(places) => places,
        Err(refused) => return Err(unread(&refused, ended)),
    };
    let value = get_operand(&places, size, port);
    let codes = codes(size, word, value, plain);
    if is_equal(size, word, value, plain) {
        put_operand(&places, size, plain.d[update(word)], port);
    } else {
        load_compared(size, word, value, plain);
    }
    plain.ccr = codes;
    Ok(())
}

/// The condition codes of CAS2: of the first operand that is not the same as its Dc, else of operand 2.
#[inline(always)]
fn pair_codes(size: Size, first: u16, second: u16, one: u32, two: u32, plain: &Plain) -> u8
    ensures { result ≡ cas2_codes size first second one two plain.now }
{
    if is_equal(size, first, one, plain) {
        codes(size, second, two, plain)
    } else {
        codes(size, first, one, plain)
    }
}

/// CAS2: both operands are checked and read. Where both are the same as theirs, operand 1 is written first.
#[inline(always)]
pub(crate) fn cas2<P: Port>(
    size: Size,
    first: u16,
    second: u16,
    space: Space,
    plain: &mut Plain,
    port: &mut P,
    ended: &mut Ended,
) -> Result<(), Undone>
    ensures means { run P.bus (cas2_of size first second space plain.old) (P.world port.old)
        ≡ (carried_by result ended.new plain.new, P.world port.new) }
    ensures rest { P.rest port.new ≡ P.rest port.old }
{
    let places = match probe_operand(space, plain.register(pointer(first)), size, port) {
        Ok(places) => places,
        Err(refused) => return Err(unread(&refused, ended)),
    };
    let others = match probe_operand(space, plain.register(pointer(second)), size, port) {
        Ok(others) => others,
        Err(refused) => return Err(unread(&refused, ended)),
    };
    let one = get_operand(&places, size, port);
    let two = get_operand(&others, size, port);
    let codes = pair_codes(size, first, second, one, two, plain);
    if is_equal(size, first, one, plain) && is_equal(size, second, two, plain) {
        put_operand(&places, size, plain.d[update(first)], port);
        put_operand(&others, size, plain.d[update(second)], port);
    } else {
        load_compared(size, second, two, plain);
        load_compared(size, first, one, plain);
    }
    plain.ccr = codes;
    Ok(())
}
