//! MOVE16.

ghost use Rattle.std.specs.Prelude.{◌≡◌, ◌<◌, ◌%◌};
ghost use Rattle.mb_port.specs.Routine.{run};
ghost use Rattle.mb_instr.specs.FurtherWords.{line_word};
ghost use Rattle.def_instructions.specs.Lines.{line_address, move_line_of, past_line, past_lines};
ghost use Rattle.def_instructions.specs.Lines.{move16_absolute_of, move16_post_of};
ghost use Rattle.mb_operands.specs.Endings.{carried_by};

use mb_ea::ReadFault;
use mb_instr::{LineMove, Plain};
use mb_operands::{Undone, left_undone, unread};
use mb_port::{Port, Space};
use mb_writes::Ended;

/// How many bytes a line has.
const LINE: u32 = 16;

/// The line that has an address.
#[inline(always)]
fn line_address(address: u32) -> u32
    ensures value { result ≡ line_address address }
    ensures aligned { result % 16 ≡ 0 }
{
    address / LINE * LINE
}

/// Reads a line, and then writes it, whatever the registers after the instruction.
#[inline(always)]
fn move_line<P: Port>(
    from: u32,
    to: u32,
    space: Space,
    port: &mut P,
    ended: &mut Ended,
) -> Result<(), Undone>
    ensures means { (after : Plain) → run P.bus (move_line_of from to space after) (P.world port.old)
        ≡ (carried_by result ended.new after, P.world port.new) }
    ensures rest { P.rest port.new ≡ P.rest port.old }
{
    let first = line_address(from);
    let line = match port.read_line(space, first) {
        Ok(line) => line,
        Err(fault) => return Err(unread(&ReadFault { fault, first }, ended)),
    };
    match port.write_line(space, line_address(to), line) {
        Ok(()) => Ok(()),
        Err(fault) => Err(left_undone(Ended::LineFault { fault, line }, ended)),
    }
}

/// Steps an address register past a line.
#[inline(always)]
fn step_past_line(register: u8, plain: &mut Plain)
    requires { register < 8 }
    ensures { plain.new ≡ past_line register plain.old }
{
    let register = register as usize;
    plain.a[register] = plain.a[register].wrapping_add(LINE);
}

/// MOVE16 between `(An)+` or `(An)` and an absolute address.
pub fn move16_absolute<P: Port>(
    kind: LineMove,
    register: u8,
    place: u32,
    space: Space,
    plain: &mut Plain,
    port: &mut P,
    ended: &mut Ended,
) -> Result<(), Undone>
    requires { register < 8 }
    ensures means { run P.bus (move16_absolute_of kind register place space plain.old) (P.world port.old)
        ≡ (carried_by result ended.new plain.new, P.world port.new) }
    ensures rest { P.rest port.new ≡ P.rest port.old }
{
    let address = plain.a[register as usize];
    match kind {
        LineMove::PostToAbsolute => {
            step_past_line(register, plain);
            move_line(address, place, space, port, ended)
        }
        LineMove::AbsoluteToPost => {
            step_past_line(register, plain);
            move_line(place, address, space, port, ended)
        }
        LineMove::IndirectToAbsolute => move_line(address, place, space, port, ended),
        LineMove::AbsoluteToIndirect => move_line(place, address, space, port, ended),
    }
}

/// Steps both registers past a line; one that is both steps once.
#[inline(always)]
fn step_past_lines(x: u8, y: u8, plain: &mut Plain)
    requires { (x < 8) × (y < 8) }
    ensures { plain.new ≡ past_lines x y plain.old }
{
    step_past_line(x, plain);
    if x != y {
        step_past_line(y, plain);
    }
}

/// The register of the destination, in bits 14 to 12 of the word.
#[inline(always)]
fn destination(word: u16) -> u8
    ensures value { result ≡ (line_word word).destination }
    ensures register { result < 8 }
{
    (word >> 12 & 7) as u8
}

/// MOVE16 `(Ax)+,(Ay)+`.
pub fn move16_post<P: Port>(
    x: u8,
    word: u16,
    space: Space,
    plain: &mut Plain,
    port: &mut P,
    ended: &mut Ended,
) -> Result<(), Undone>
    requires { x < 8 }
    ensures means { run P.bus (move16_post_of x word space plain.old) (P.world port.old)
        ≡ (carried_by result ended.new plain.new, P.world port.new) }
    ensures rest { P.rest port.new ≡ P.rest port.old }
{
    let y = destination(word);
    let from = plain.a[x as usize];
    let to = plain.a[y as usize];
    step_past_lines(x, y, plain);
    move_line(from, to, space, port, ended)
}
