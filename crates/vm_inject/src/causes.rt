//! The cause of an exception, from its frame.

ghost use Rattle.std.specs.Prelude.{◌≡◌, false};
ghost use Rattle.mb_instr.specs.Registers.{is_supervisor};
ghost use Rattle.def_runs.specs.Frames.{address_by, cause_in};

use mb_entry::Cause;
use mb_frames::Frame;
use mb_model::Cpu;

/// The address of an instruction whose frame does not have it. Of TRAP, one word long, the PC is the next one's; of one
/// that was not carried out it is its own.
fn address_by(vector: u8, pc: u32) -> u32
    ensures { result ≡ address_by vector pc }
{
    match vector {
        32..=47 => pc.wrapping_sub(2),
        _ => pc,
    }
}

/// The guest's own cause of the exception with which a board ended one of its steps, from the frame that the board
/// stacked: `exit` is the vector, 3 to 8, 10, 11 or 32 to 47. The guest enters it by its own registers and stacks.
///
/// A board carries out all of a guest in user mode. So a privilege violation, exit 8, is the guest's own only where the
/// guest itself is in user mode; `cpu`, the guest's processor, says so, and nothing else is read of it. The frames are
/// those of the manual's chapter on exception processing: format $2 has the address of the instruction, format $0 does
/// not.
pub fn cause_of(frame: &Frame, exit: u8, cpu: &Cpu) -> Cause
    requires { exit ≡ 8 → is_supervisor cpu.now.regs.sr ≡ false }
    ensures { result ≡ cause_in frame.now exit }
{
    let (pc, address) = match *frame {
        Frame::Address { pc, address, .. } => (pc, address),
        Frame::Short { pc, .. } | Frame::Throwaway { pc, .. } | Frame::Access { pc, .. } => {
            (pc, address_by(exit, pc))
        }
    };
    Cause {
        vector: exit,
        pc,
        address,
        access: None,
        level: 0,
    }
}
