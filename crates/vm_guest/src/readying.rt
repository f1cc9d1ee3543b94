//! The board is made ready to carry out a guest's instructions.

ghost use Rattle.std.specs.Prelude.{◌≡◌, ◌≤◌, ◌%◌, true, length};
ghost use Rattle.mb_model.specs.declared.outcome.RunState.TheVariants.{Running};
ghost use Rattle.def_processor.specs.SystemEnds.{with_registers};
ghost use Rattle.def_machine.specs.Machine.{takes_steps};
ghost use Rattle.vm_guest.specs.Native.{native_cpu, native_world};

use def_guests::MONITOR_BYTES;
use mb_board::Board;
use mb_instr::status::{I, LEVELS};
use mb_instr::{Plain, Regs};
use mb_model::Cpu;
use mb_port::translation::{E, MASK, S};
use mb_port::{MmuReg, Port};

/// The transparent register that matches each address of supervisor space.
const ALL_OF_SUPERVISOR: u32 = 0xff * MASK + S + E;

/// The processor with which the board carries out a guest: user mode with all interrupts masked and no trace, vectors
/// at 0, and these registers.
fn native_cpu(plain: &Plain) -> Cpu
    ensures { result ≡ with_registers plain.now native_cpu }
{
    let mut regs = Regs {
        d: [0; 8],
        a: [0; 7],
        usp: 0,
        // the board's frames are stacked in the monitor's bytes
        isp: MONITOR_BYTES,
        msp: 0,
        pc: 0,
        sr: (LEVELS - 1) * I,
    };
    regs.set_plain(plain);
    Cpu {
        regs,
        vbr: 0,
        sfc: 0,
        dfc: 0,
        cacr: 0,
        stopped: false,
    }
}

/// Gives a board that takes steps the registers with which it carries out a guest. All else stays.
pub(crate) fn set_registers(board: &mut Board, plain: &Plain)
    requires goes { takes_steps board.old.state ≡ true }
    ensures { board.new
        ≡ record board.old { cpu = with_registers plain.now native_cpu; state = Running } }
{
    board.set_cpu(&native_cpu(plain));
}

/// Makes the board ready for the space whose tables have this root, a multiple of 512. All but its memory becomes as
/// after a reset first, so nothing is kept. The supervisor's operands stand at their own addresses.
pub(crate) fn make_ready(board: &mut Board, root: u32)
    requires room { 8 ≤ length board.old.world.ram }
    requires root { root % 512 ≡ 0 }
    ensures world { board.new.world ≡ native_world root board.old.world.devices board.old.world.ram }
    ensures state { board.new.state ≡ Running }
{
    board.reset();
    board.set_mmu(MmuReg::Tc, E);
    board.set_mmu(MmuReg::Dtt0, ALL_OF_SUPERVISOR);
    board.set_mmu(MmuReg::Urp, root);
}
