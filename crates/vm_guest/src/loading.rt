//! A guest's RAM at its start.

ghost use Rattle.std.specs.Prelude.{◌≡◌, ◌+◌, ◌%◌, ◌^◌, ◌<◌, ◌≤◌, length, replicate};
ghost use Rattle.mb_walk.specs.Memory.{overwritten};
ghost use Rattle.def_machine.specs.Machine.{with_ram};
ghost use Rattle.mb_board.specs.State.{machine_in, with_machine};

use mb_board::Board;

/// How many bytes are cleared at a time.
const PAGE: u32 = 4096;

/// Clears so many bytes of the board's memory.
#[tactic(auto, using(mb_walk::proofs::MemoryLemmas::writes))]
pub(crate) fn clear(board: &mut Board, base: u32, size: u32)
    requires small { length board.old.world.ram < 2 ^ 32 }
    requires pages { size % PAGE ≡ 0 }
    requires inside { base + size ≤ length board.old.world.ram }
    ensures after { board.new ≡ with_machine board.old
        (with_ram (machine_in board.old) (overwritten board.old.world.ram base (replicate size 0))) }
{
    for page in 0..size / PAGE {
        board.write_phys(base + page * PAGE, &[0; PAGE as usize]);
    }
}
