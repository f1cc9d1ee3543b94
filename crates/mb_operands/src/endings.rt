//! Ends of instructions that are not done, beside the answer of a call.
//!
//! Such an end is large, and nearly every instruction is done: an answer that holds it would be filled, copied and
//! waited for at each step.

ghost use Rattle.std.specs.Prelude.{◌≡◌, true};
ghost use Rattle.mb_writes.specs.declared.ends.Ended.TheVariants as ends;
ghost use Rattle.def_instructions.specs.Ends.{closed};
ghost use Rattle.mb_operands.specs.Endings.{is_unread, performed_in_place};

use mb_ea::ReadFault;
use mb_instr::Plain;
use mb_writes::{Ended, WriteFault};

/// Not done, or with an exception: how it ended stands beside.
#[derive(Clone, Copy, PartialEq, Eq)]
pub struct Undone;

/// A read was refused.
#[inline(never)]
pub fn unread(refused: &ReadFault, ended: &mut Ended) -> Undone
    ensures { ended.new ≡ ends.ReadFault refused.now }
{
    *ended = Ended::ReadFault(*refused);
    Undone
}

/// A write was refused.
#[inline(never)]
pub fn unwritten(refused: WriteFault, ended: &mut Ended) -> Undone
    ensures { ended.new ≡ ends.WriteFault refused }
{
    *ended = Ended::WriteFault(refused);
    Undone
}

/// An exception of this vector follows.
#[inline(never)]
pub fn trapped(vector: u8, ended: &mut Ended) -> Undone
    ensures { ended.new ≡ ends.Trap vector }
{
    *ended = Ended::Trap(vector);
    Undone
}

/// It is not carried out, and an exception of this vector follows.
#[inline(never)]
pub fn refused(vector: u8, ended: &mut Ended) -> Undone
    ensures { ended.new ≡ ends.Refused vector }
{
    *ended = Ended::Refused(vector);
    Undone
}

/// It ended so.
#[inline(never)]
pub fn left_undone(how: Ended, ended: &mut Ended) -> Undone
    ensures { ended.new ≡ how }
{
    *ended = how;
    Undone
}

/// How an instruction ended that worked on the registers in place. After a refused read those before it come back.
pub fn put_back(
    done: Result<bool, Undone>,
    ended: Ended,
    before: &Plain,
    plain: &mut Plain,
) -> Ended
    ensures means { closed (performed_in_place done ended before.now plain.old) ≡ (result, plain.new) }
    ensures unread { is_unread result ≡ true → plain.new ≡ before.now }
{
    match done {
        Ok(flow) => Ended::Done { flow },
        Err(_) => {
            if let Ended::ReadFault(_) = &ended {
                *plain = *before;
            }
            ended
        }
    }
}
