//! The lines that commands print.

ghost use Rattle.std.specs.Prelude.{◌≡◌, ◌+◌, ◌<◌, ◌≤◌, ◌^◌, length};
ghost use Rattle.mb_outside.specs.Prints.{Prints};
ghost use Rattle.mb_report.specs.Buffered.{Buffers};
ghost use Rattle.mb_report.specs.Digits.{hex8};
ghost use Rattle.mb_report.specs.Kept.{kept_line};
ghost use Rattle.mb_report.specs.Text.{word_line};
ghost use Rattle.std.specs.List.{flat_map};
ghost use Rattle.def_guests.specs.Seats.{machine_on};
ghost use Rattle.vm_debug.specs.Debugs.{kept_text, place_line, registers_text, rows_text};

use itoa::Buffer;
use mb_board::Board;
use mb_outside::{Sink, SinkFault};
use mb_report::{Buffered, hex8, state_word, write_kept, write_registers, write_row, write_word};
use mb_walk::Ram;
use vm_guest::Guest;

/// Prints where a guest is, and what is said behind that.
pub(crate) fn print_place<O: Sink>(
    guest: &Guest,
    board: &Board,
    behind: &[u8],
    out: &mut O,
) -> Result<(), SinkFault>
    requires { guest.now.base + guest.now.size ≤ length board.now.world.ram }
    ensures { Prints (O.taken out.old) (O.taken out.new) (O.faults out.old) (O.faults out.new)
        (place_line (machine_on guest.now board.now.world.ram) behind.now) result }
{
    let outcome = guest.outcome(board);
    let mut text = Buffered::new();
    text.add(out, b"at ");
    let mut buffer = Buffer::new();
    text.add(out, buffer.format(outcome.steps).as_bytes());
    text.add(out, b" pc ");
    text.add(out, &hex8(outcome.cpu.regs.pc));
    text.add(out, b" ");
    text.add(out, state_word(outcome.state));
    text.add(out, behind);
    text.add(out, b"\n");
    text.finish(out)
}

/// Prints a name and an address.
pub(crate) fn print_address<O: Sink>(name: &[u8], at: u32, out: &mut O) -> Result<(), SinkFault>
    ensures { Prints (O.taken out.old) (O.taken out.new) (O.faults out.old) (O.faults out.new)
        (word_line name.now (hex8 at)) result }
{
    let mut text = Buffered::new();
    write_word(&mut text, out, name, &hex8(at));
    text.finish(out)
}

/// Prints a guest's registers.
pub(crate) fn print_registers<O: Sink>(
    guest: &Guest,
    board: &Board,
    out: &mut O,
) -> Result<(), SinkFault>
    requires { guest.now.base + guest.now.size ≤ length board.now.world.ram }
    ensures { Prints (O.taken out.old) (O.taken out.new) (O.faults out.old) (O.faults out.new)
        (registers_text (machine_on guest.now board.now.world.ram)) result }
{
    let mut text = Buffered::new();
    write_registers(&mut text, out, &guest.outcome(board));
    text.finish(out)
}

/// Prints so many rows of a guest's memory, or those before the first that leaves it.
pub(crate) fn print_rows<O: Sink>(
    guest: &Guest,
    board: &Board,
    at: u32,
    count: u32,
    out: &mut O,
) -> Result<(), SinkFault>
    requires { guest.now.base + guest.now.size ≤ length board.now.world.ram }
    ensures { Prints (O.taken out.old) (O.taken out.new) (O.faults out.old) (O.faults out.new)
        (rows_text (machine_on guest.now board.now.world.ram).world.ram at count) result }
{
    let _size = board.size();
    let mut text = Buffered::new();
    write_rows(&mut text, out, guest.outcome(board).ram, at, count);
    text.finish(out)
}

/// Writes so many rows of memory, or those before the first that leaves it.
fn write_rows<O: Sink>(text: &mut Buffered, out: &mut O, ram: &[u8], at: u32, count: u32)
    requires { length ram.now < 2 ^ 32 }
    ensures { Buffers text.old text.new (O.taken out.old) (O.taken out.new) (O.faults out.old) (O.faults out.new)
        (rows_text ram.now at count) }
{
    let mut place = at as usize;
    for _row in 0..count {
        if place + 16 > ram.len() {
            write_word(text, out, &hex8(place as u32), b"outside");
            return;
        }
        write_row(text, out, place as u32, &ram[place..place + 16]);
        place += 16;
    }
}

/// How many translations a guest keeps.
fn kept_count(guest: &Guest) -> u32
    ensures { result ≡ length guest.now.kept }
{
    let mut count = 0;
    while guest.kept(count).is_some() {
        count += 1;
    }
    count
}

/// Writes the lines of the translations that a guest keeps, from the oldest on.
fn write_all_kept<O: Sink>(text: &mut Buffered, out: &mut O, guest: &Guest)
    ensures { Buffers text.old text.new (O.taken out.old) (O.taken out.new) (O.faults out.old) (O.faults out.new)
        (flat_map kept_line guest.now.kept) }
{
    let mut place = 0;
    while let Some(kept) = guest.kept(place) {
        write_kept(text, out, kept);
        place += 1;
    }
}

/// Prints what translations a guest keeps.
pub(crate) fn print_kept<O: Sink>(guest: &Guest, out: &mut O) -> Result<(), SinkFault>
    ensures { Prints (O.taken out.old) (O.taken out.new) (O.faults out.old) (O.faults out.new)
        (kept_text guest.now.kept) result }
{
    let mut text = Buffered::new();
    let mut buffer = Buffer::new();
    write_word(
        &mut text,
        out,
        b"kept",
        buffer.format(kept_count(guest)).as_bytes(),
    );
    write_all_kept(&mut text, out, guest);
    text.finish(out)
}
