//! What is stacked for a cause, and where; and the registers once it is written.

ghost use Rattle.std.specs.Prelude.{◌≡◌, ◌*◌, ◌<◌};
ghost use Rattle.mb_frames.specs.Layout.{vector_offset_of};
ghost use Rattle.def_processor.specs.Entry.{frame_of, throwaway_of, stacked, handler_stack, with_handler_stack};
ghost use Rattle.def_processor.specs.Entry.{frames_of, handler_regs};
ghost use Rattle.mb_entry.specs.Stacks.{seen, frames_seen};

use crate::status::{handler_status, thrown_status, without_master};
use arrayvec::ArrayVec;
use def_processor::Cause;
use mb_frames::{Frame, LONGEST, to_bytes};
use mb_instr::Regs;
use mb_instr::vectors::{CONDITION_MET, ODD_COUNTER, OUT_OF_BOUNDS, TRACE, ZERO_DIVIDE};

/// The bytes of a frame, and the logical address of the lowest.
#[derive(Drop)]
pub(crate) struct Stacked {
    pub(crate) at: u32,
    pub(crate) bytes: ArrayVec<u8, LONGEST>,
}

/// The frames of an exception. An interrupt can have a second one.
#[derive(Drop)]
pub(crate) struct Frames {
    pub(crate) first: Stacked,
    pub(crate) second: Option<Stacked>,
}

/// The offset of a vector in the table.
pub(crate) fn offset(vector: u8) -> u16
    ensures value { result ≡ 4 * vector }
    ensures range { result < 0x1000 }
{
    4 * u16::from(vector)
}

/// The frame of a cause, with the saved status register.
fn frame(sr: u16, cause: &Cause) -> Frame
    ensures frame { result ≡ frame_of sr cause.now }
    ensures offset { vector_offset_of result < 0x1000 }
{
    let pc = cause.pc;
    let offset = offset(cause.vector);
    match (cause.access, cause.vector) {
        (Some(access), _) => Frame::Access {
            sr,
            pc,
            offset,
            access,
        },
        (None, ODD_COUNTER | ZERO_DIVIDE | OUT_OF_BOUNDS | CONDITION_MET | TRACE) =>
            Frame::Address {
                sr,
                pc,
                offset,
                address: cause.address,
            },
        (None, _) => Frame::Short { sr, pc, offset },
    }
}

/// The frame of an interrupt above the one on the master stack.
fn throwaway(sr: u16, cause: &Cause) -> Frame
    ensures frame { result ≡ throwaway_of sr cause.now }
    ensures offset { vector_offset_of result < 0x1000 }
{
    Frame::Throwaway {
        sr: thrown_status(sr),
        pc: cause.pc,
        offset: offset(cause.vector),
    }
}

/// A frame below the top of a stack.
fn stack(frame: &Frame, top: u32) -> Stacked
    requires { vector_offset_of frame.now < 0x1000 }
    ensures { seen result ≡ stacked frame.now top }
{
    let bytes = to_bytes(frame);
    Stacked {
        at: top.wrapping_sub(bytes.len() as u32),
        bytes,
    }
}

/// The stack of a handler.
fn handler_stack(regs: &Regs) -> u32
    ensures { result ≡ handler_stack regs.now }
{
    if regs.is_master() { regs.msp } else { regs.isp }
}

/// Makes this the stack of a handler.
fn set_handler_stack(regs: &mut Regs, top: u32)
    ensures { regs.new ≡ with_handler_stack regs.old top }
{
    if regs.is_master() {
        regs.msp = top;
    } else {
        regs.isp = top;
    }
}

/// The frames of a cause. PC is the one that is stacked.
#[tactic(auto, unfolding(def_processor::specs::Entry::frames_of))]
pub(crate) fn frames_for(cause: &Cause, regs: &Regs) -> Frames
    ensures { frames_seen result ≡ frames_of cause.now regs.now }
{
    let first = stack(&frame(regs.sr, cause), handler_stack(regs));
    let second = if cause.level > 0 && regs.is_master() {
        Some(stack(&throwaway(regs.sr, cause), regs.isp))
    } else {
        None
    };
    Frames { first, second }
}

/// Makes the registers those of the handler, once the frames are written. PC is still the one that was stacked.
pub(crate) fn set_handler_regs(cause: &Cause, frames: &Frames, regs: &mut Regs)
    requires { cause.now.level < 8 }
    ensures { regs.new ≡ handler_regs cause.now (frames_seen frames.now) regs.old }
{
    set_handler_stack(regs, frames.first.at);
    regs.sr = handler_status(cause, regs.sr);
    regs.pc = cause.pc;
    if let Some(second) = &frames.second {
        regs.sr = without_master(regs.sr);
        regs.isp = second.at;
    }
}
