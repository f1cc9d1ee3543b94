//! The frames that a return takes from the stacks. The registers are changed in place.

ghost use Rattle.std.specs.Prelude.{◌≡◌, [], length, IfOk, IfErr};
ghost use Rattle.mb_port.specs.Routine.{run};
ghost use Rattle.mb_frames.specs.Layout.{frame_length};
ghost use Rattle.def_processor.specs.Return.{read_head_of, read_longs_of, access_longs, continues, is_movem};
ghost use Rattle.def_processor.specs.Return.{are_movem_words, can_continue, drop_bytes_of, restore_of, take_access_of, take_frame_of};
ghost use Rattle.def_processor.specs.Return.{take_second_of, take_throwaway_of, take_frames_of};
ghost use Rattle.mb_entry.specs.Takes.{head_seen, headed, longs_read, took, CanGoOn};
ghost use Rattle.mb_entry.specs.Clauses.{NotTaken};

use crate::frame_longs::{access_from, high, low};
use arrayvec::ArrayVec;
use mb_decode::{Decoded, decode};
use mb_ea::ReadFault;
use mb_frames::{Access, CM, FIELDS_PLACE, FORMAT_PLACE, LONGEST, LONGS, PC_PLACE, SR_PLACE};
use mb_instr::vectors::FORMAT_ERROR;
use mb_instr::{Instr, Move, Regs, Size};
use mb_model::kept_status;
use mb_operands::read_memory;
use mb_port::{Port, Space, word_has};
use mb_writes::{Ended, count};

/// The formats of frames.
const SHORT: u8 = 0;

const THROWAWAY: u8 = 1;

const ADDRESS: u8 = 2;

const ACCESS: u8 = 7;

/// What every frame begins with.
#[derive(Clone, Copy)]
struct Head {
    sr: u16,
    pc: u32,
    format: u8,
}

/// Reads what a frame begins with.
fn read_head<P: Port>(at: u32, port: &mut P) -> Result<Head, ReadFault>
    ensures means { run P.bus (read_head_of at) (P.world port.old) ≡ (headed result, P.world port.new) }
    ensures rest { P.rest port.new ≡ P.rest port.old }
{
    let sr = read_memory(Space::Super, at.wrapping_add(SR_PLACE), Size::Word, port)?;
    let pc = read_memory(Space::Super, at.wrapping_add(PC_PLACE), Size::Long, port)?;
    let word = read_memory(
        Space::Super,
        at.wrapping_add(FORMAT_PLACE),
        Size::Word,
        port,
    )?;
    Ok(Head {
        sr: kept_status(sr),
        pc,
        format: (word >> 12) as u8,
    })
}

/// Reads the longs of an access error's fields.
fn read_longs<P: Port>(at: u32, port: &mut P) -> Result<ArrayVec<u32, LONGS>, ReadFault>
    ensures means { run P.bus (read_longs_of access_longs at []) (P.world port.old)
        ≡ (longs_read result, P.world port.new) }
    ensures all { IfOk result (λ longs. length longs.items ≡ LONGS) }
    ensures rest { P.rest port.new ≡ P.rest port.old }
{
    let mut longs = ArrayVec::new();
    let mut at = at;
    for i in 0..LONGS {
        match read_memory(Space::Super, at, Size::Long, port) {
            Ok(long) => longs.push(long),
            Err(refused) => return Err(refused),
        }
        at = at.wrapping_add(4);
    }
    Ok(longs)
}

/// CM of the special status word: whether the access error came from a transfer of a MOVEM, with which RTE goes on.
pub fn continues(access: &Access) -> bool
    ensures { result ≡ continues access.now }
{
    word_has(access.ssw, CM)
}

/// Whether the instruction is a MOVEM.
fn is_movem(instruction: &Move) -> bool
    ensures { result ≡ is_movem instruction.now }
{
    matches!(
        instruction,
        Move::MovemLoad { .. } | Move::MovemStore { .. }
    )
}

/// Whether the operation and mask words are those of a MOVEM: with zeros behind them they are a whole one.
fn are_movem_words(words: u32) -> bool
    ensures { result ≡ are_movem_words words }
{
    match decode(&[high(words), low(words), 0, 0]) {
        Decoded::Whole(Instr::Move(instruction), _) => is_movem(&instruction),
        _ => false,
    }
}

/// Whether a MOVEM can go on by the fields of its access error.
fn can_continue(access: &Access) -> bool
    ensures { result ≡ can_continue access.now }
{
    are_movem_words(access.pd2) && access.pd3 <= u32::from(count(low(access.pd2)))
}

/// Drops bytes from the active stack.
fn drop_bytes(regs: &mut Regs, bytes: u32)
    ensures { regs.new ≡ drop_bytes_of bytes regs.old }
{
    regs.set_active_stack(regs.active_stack().wrapping_add(bytes));
}

/// How many bytes a frame of a format has.
fn frame_length(format: u8) -> u32
    ensures { result ≡ frame_length format }
{
    match format {
        ACCESS => LONGEST as u32,
        ADDRESS => 12,
        _ => 8,
    }
}

/// Takes a frame of a format from the active stack, with its SR and PC.
fn restore(format: u8, head: &Head, regs: &mut Regs)
    ensures { regs.new ≡ restore_of format (head_seen head.now) regs.old }
{
    drop_bytes(regs, frame_length(format));
    regs.sr = head.sr;
    regs.pc = head.pc;
}

/// Takes the frame of an access error, all of which is read before it is judged.
fn take_access<P: Port>(head: &Head, regs: &mut Regs, port: &mut P) -> Result<Option<Access>, Ended>
    ensures means { run P.bus (take_access_of (head_seen head.now) regs.old) (P.world port.old)
        ≡ (took result regs.new, P.world port.new) }
    ensures lawful { IfOk result CanGoOn }
    ensures refused { IfErr result NotTaken }
    ensures kept { IfErr result (λ ended. regs.new ≡ regs.old) }
    ensures rest { P.rest port.new ≡ P.rest port.old }
{
    let behind = regs.active_stack().wrapping_add(FIELDS_PLACE);
    let longs = match read_longs(behind, port) {
        Ok(longs) => longs,
        Err(refused) => return Err(Ended::ReadFault(refused)),
    };
    let access = access_from(longs.as_slice());
    if continues(&access) && !can_continue(&access) {
        return Err(Ended::Refused(FORMAT_ERROR));
    }
    restore(ACCESS, head, regs);
    Ok(Some(access))
}

/// Takes the frame that is returned by. The fields are those of an access error, where it is one's.
fn take_frame<P: Port>(head: &Head, regs: &mut Regs, port: &mut P) -> Result<Option<Access>, Ended>
    ensures means { run P.bus (take_frame_of (head_seen head.now) regs.old) (P.world port.old)
        ≡ (took result regs.new, P.world port.new) }
    ensures lawful { IfOk result CanGoOn }
    ensures refused { IfErr result NotTaken }
    ensures kept { IfErr result (λ ended. regs.new ≡ regs.old) }
    ensures rest { P.rest port.new ≡ P.rest port.old }
{
    match head.format {
        SHORT => {
            restore(SHORT, head, regs);
            Ok(None)
        }
        ADDRESS => {
            restore(ADDRESS, head, regs);
            Ok(None)
        }
        ACCESS => take_access(head, regs, port),
        _ => Err(Ended::Refused(FORMAT_ERROR)),
    }
}

/// Takes the frame on the active stack, below a throwaway frame.
fn take_second<P: Port>(regs: &mut Regs, port: &mut P) -> Result<Option<Access>, Ended>
    ensures means { run P.bus (take_second_of regs.old) (P.world port.old)
        ≡ (took result regs.new, P.world port.new) }
    ensures lawful { IfOk result CanGoOn }
    ensures refused { IfErr result NotTaken }
    ensures kept { IfErr result (λ ended. regs.new ≡ regs.old) }
    ensures rest { P.rest port.new ≡ P.rest port.old }
{
    match read_head(regs.active_stack(), port) {
        Ok(head) => take_frame(&head, regs, port),
        Err(refused) => Err(Ended::ReadFault(refused)),
    }
}

/// Takes a throwaway frame, and the one on the stack that it leads to. Where that is not taken, the throwaway frame and
/// SR come back.
fn take_throwaway<P: Port>(
    head: &Head,
    regs: &mut Regs,
    port: &mut P,
) -> Result<Option<Access>, Ended>
    ensures means { run P.bus (take_throwaway_of (head_seen head.now) regs.old) (P.world port.old)
        ≡ (took result regs.new, P.world port.new) }
    ensures lawful { IfOk result CanGoOn }
    ensures refused { IfErr result NotTaken }
    ensures kept { IfErr result (λ ended. regs.new ≡ regs.old) }
    ensures rest { P.rest port.new ≡ P.rest port.old }
{
    let (top, sr) = (regs.active_stack(), regs.sr);
    drop_bytes(regs, frame_length(THROWAWAY));
    regs.sr = head.sr;
    let taken = if regs.is_supervisor() {
        take_second(regs, port)
    } else {
        Err(Ended::Refused(FORMAT_ERROR))
    };
    if taken.is_err() {
        regs.sr = sr;
        regs.set_active_stack(top);
    }
    taken
}

/// Takes the frame on the active stack, and below a throwaway frame another one. The registers are then as they were
/// saved; where no frame is taken, as before. The fields are those of an access error, where the frame is one's.
pub(crate) fn take_frames<P: Port>(regs: &mut Regs, port: &mut P) -> Result<Option<Access>, Ended>
    ensures means { run P.bus (take_frames_of regs.old) (P.world port.old) ≡ (took result regs.new, P.world port.new) }
    ensures lawful { IfOk result CanGoOn }
    ensures refused { IfErr result NotTaken }
    ensures kept { IfErr result (λ ended. regs.new ≡ regs.old) }
    ensures rest { P.rest port.new ≡ P.rest port.old }
{
    let head = match read_head(regs.active_stack(), port) {
        Ok(head) => head,
        Err(refused) => return Err(Ended::ReadFault(refused)),
    };
    if head.format == THROWAWAY {
        take_throwaway(&head, regs, port)
    } else {
        take_frame(&head, regs, port)
    }
}
