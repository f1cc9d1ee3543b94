//! What the frame of an access error holds, in each of its five cases. CT is clear: where a trace is due, whoever
//! makes the frame sets it.

ghost use Rattle.std.specs.Prelude.{◌≡◌, ◌<◌, ◌≤◌, ◌-◌, ◌%◌, ◌^◌, ℕ};
ghost use Rattle.mb_frames.specs.AccessFields.{size_code, transfer_type, transfer_modifier, access_bits, bit_if};
ghost use Rattle.mb_frames.specs.AccessFields.{status, writeback_status, memory_aligned, register_aligned};
ghost use Rattle.mb_frames.specs.AccessFields.{with_writeback_1, with_writeback_2, with_writeback_3};
ghost use Rattle.mb_frames.specs.AccessFields.{AccessCase, access_fields};
ghost use Rattle.mb_writes.specs.Transfers.{refused_transfer};

use mb_frames::{ATC, Access, CM, LK, MA, Pend, RW, SIZE, TT, V};
use mb_port::{Fault, LINE, Space};
use mb_writes::{Movem, MovemFault, WriteFault};

/// SIZE: the code of a length.
fn size_code(len: u8) -> u16
    ensures value { result ≡ size_code len }
    ensures range { result < 4 }
{
    match len {
        1 => 1,
        2 => 2,
        LINE => 3,
        _ => 0,
    }
}

/// TT: a line of MOVE16 or any other access.
fn transfer_type(len: u8) -> u16
    ensures value { result ≡ transfer_type len }
    ensures range { result < 2 }
{
    if len == LINE { 1 } else { 0 }
}

/// TM: the space of an access.
fn transfer_modifier(space: Space, code: bool) -> u16
    ensures value { result ≡ transfer_modifier space code }
    ensures range { result < 8 }
{
    match (space, code) {
        (Space::User, false) => 1,
        (Space::User, true) => 2,
        (Space::Super, false) => 5,
        (Space::Super, true) => 6,
    }
}

/// SIZE, TT and TM, as a status has them in its low seven bits.
fn access_bits(len: u8, space: Space, code: bool) -> u16
    ensures value { result ≡ access_bits len space code }
    ensures range { result < 2 ^ 7 }
{
    size_code(len) * SIZE + transfer_type(len) * TT + transfer_modifier(space, code)
}

/// A bit where it is set.
fn bit_if(set: bool, bit: u16) -> u16
    ensures value { result ≡ bit_if set bit }
    ensures range { result ≤ bit }
{
    if set { bit } else { 0 }
}

/// The special status word without CM, LK and RW, of an operand that begins at `start`.
fn status(fault: &Fault, start: u32, page: u32) -> u16
    requires { 0 < page }
    ensures value { result ≡ status fault.now start page }
    ensures range { result < 2 ^ 12 }
{
    let is_other_page = fault.at / page != start / page;
    bit_if(fault.atc && is_other_page, MA)
        + bit_if(fault.atc, ATC)
        + access_bits(fault.len, fault.space, fault.code)
}

/// The status of a writeback that is valid.
fn writeback_status(space: Space, len: u8) -> u16
    ensures { result ≡ writeback_status space len }
{
    V + access_bits(len, space, false)
}

/// The value of a piece in the low bytes of a long.
#[tactic(auto, using(crate::proofs::Pending::value_whole))]
fn register_aligned(pend: &Pend) -> u32
    ensures { result ≡ register_aligned pend.now }
{
    if pend.len < 4 {
        pend.value % (1 << (8 * pend.len))
    } else {
        pend.value
    }
}

/// How many bytes of its long are behind a piece.
fn bytes_behind(pend: &Pend) -> u32
    ensures value { result ≡ 4 - pend.now.at % 4 - pend.now.len }
    ensures range { result ≤ 4 }
{
    4u32.saturating_sub(pend.at % 4)
        .saturating_sub(u32::from(pend.len))
}

/// The value of a piece where the memory's long has it.
fn memory_aligned(pend: &Pend) -> u32
    ensures { result ≡ memory_aligned pend.now }
{
    (u64::from(register_aligned(pend)) << (8 * bytes_behind(pend))) as u32
}

/// Makes a piece the first writeback, whose data are where the memory's long has them.
fn set_writeback_1(pend: &Pend, space: Space, access: &mut Access)
    ensures { access.new ≡ with_writeback_1 space (Some pend.now) access.old }
{
    access.wb1s = writeback_status(space, pend.len);
    access.wb1a = pend.at;
    access.wb1d = memory_aligned(pend);
}

/// Makes a piece the second writeback.
fn set_writeback_2(pend: &Pend, space: Space, access: &mut Access)
    ensures { access.new ≡ with_writeback_2 space (Some pend.now) access.old }
{
    access.wb2s = writeback_status(space, pend.len);
    access.wb2a = pend.at;
    access.wb2d = register_aligned(pend);
}

/// Makes a piece the third writeback.
fn set_writeback_3(pend: &Pend, space: Space, access: &mut Access)
    ensures { access.new ≡ with_writeback_3 space (Some pend.now) access.old }
{
    access.wb3s = writeback_status(space, pend.len);
    access.wb3a = pend.at;
    access.wb3d = register_aligned(pend);
}

/// The fields where a fetch, a read or a locked check was refused, of an operand whose first byte is `first`.
pub fn read_fields(fault: &Fault, first: u32, page: u32) -> Access
    requires { 0 < page }
    ensures { result ≡ access_fields (AccessCase.Read fault.now first) page }
{
    let ea = if fault.code { fault.at } else { first };
    let mut access = Access::default();
    access.ea = ea;
    access.ssw = status(fault, ea, page) + bit_if(fault.write, LK) + RW;
    access.fa = fault.at;
    access
}

/// The fields where a write was refused. Its pieces are left as writebacks.
pub fn write_fields(refused: &WriteFault, page: u32) -> Access
    requires { 0 < page }
    ensures { result ≡
        access_fields (AccessCase.Write refused.now.fault refused.now.first refused.now.rest.items) page }
{
    let space = refused.fault.space;
    let mut access = Access::default();
    access.ea = refused.first;
    access.ssw = status(&refused.fault, refused.first, page);
    access.fa = refused.fault.at;
    match refused.rest.as_slice() {
        [] => {}
        [first] => set_writeback_1(first, space, &mut access),
        [first, second] => {
            set_writeback_1(first, space, &mut access);
            set_writeback_2(second, space, &mut access);
        }
        [first, second, third, ..] => {
            set_writeback_1(first, space, &mut access);
            set_writeback_2(second, space, &mut access);
            set_writeback_3(third, space, &mut access);
        }
    }
    access
}

/// The fields where the write of a line was refused.
pub fn line_fields(fault: &Fault, line: [u32; 4], page: u32) -> Access
    requires { 0 < page }
    ensures { result ≡ access_fields (AccessCase.Line fault.now line) page }
{
    let mut access = Access::default();
    access.ea = fault.at;
    access.ssw = status(fault, fault.at, page);
    access.fa = fault.at;
    access.wb1s = writeback_status(fault.space, LINE);
    access.wb1a = fault.at;
    access.wb1d = line[0];
    access.pd1 = line[1];
    access.pd2 = line[2];
    access.pd3 = line[3];
    access
}

/// The fields where a transfer of a MOVEM was refused. `words` are its operation and mask words, `next` is the address
/// of the next instruction.
pub fn movem_fields(refused: &MovemFault, words: u32, next: u32, page: u32) -> Access
    requires { 0 < page }
    ensures { result ≡ access_fields (refused_transfer refused.now words next) page }
{
    let movem = Movem::of(words);
    let start = movem.transfer_at(refused.first, refused.done);
    let mut access = Access::default();
    access.ea = refused.first;
    access.ssw = status(&refused.fault, start, page) + CM + bit_if(movem.is_load, RW);
    access.fa = refused.fault.at;
    access.pd1 = next;
    access.pd2 = words;
    access.pd3 = u32::from(refused.done);
    access
}

/// The fields where the check of a frame's piece was refused.
pub fn check_fields(fault: &Fault) -> Access
    ensures { (page : ℕ) → result ≡ access_fields (AccessCase.Check fault.now) page }
{
    let mut access = Access::default();
    access.ea = fault.at;
    access.ssw = bit_if(fault.atc, ATC) + access_bits(fault.len, Space::Super, false);
    access.fa = fault.at;
    access
}
