//! Bare boards with bytes in their memory.

ghost use Rattle.std.specs.Prelude.{◌≡◌, length, IfOk};

use mb_board::Board;
use mb_model::RunState;
use mb_outside::Memory;
use mb_script::{Script, read_script};
use std::alloc::Global;

/// How many bytes of RAM each board here has.
pub(crate) const SIZE: u32 = 0x1_0000;

/// Writes bytes where they lie in RAM.
fn write(board: &mut Board, at: u32, bytes: &[u8])
    requires { length board.old.world.ram ≡ SIZE }
    ensures { length board.new.world.ram ≡ SIZE }
{
    if u64::from(at) + bytes.len() as u64 <= u64::from(SIZE) {
        board.write_phys(at, bytes);
    }
}

/// A board with these bytes in its RAM, after reset.
pub(crate) fn board_with(alloc: Global, chunks: &[(u32, &[u8])]) -> Result<Board, Memory>
    ensures { IfOk result (λ board. length board.world.ram ≡ SIZE) }
{
    let mut board = Board::new(alloc, SIZE)?;
    for (at, bytes) in chunks {
        write(&mut board, *at, bytes);
    }
    board.reset();
    Ok(board)
}

/// A script, which is short.
pub(crate) fn script_of(alloc: Global, text: &[u8]) -> Option<Script> {
    if text.len() > 1000 {
        return None;
    }
    read_script(alloc, text).ok()
}

/// Takes further steps, while there are fewer than a million.
pub(crate) fn run(board: &mut Board, script: &Script, steps: u32) {
    if steps < 1_000_000 && steps_of(board) < 1_000_000 {
        board.run_bare(script, steps);
    }
}

/// How many steps the board has taken.
fn steps_of(board: &Board) -> u32
    ensures { result ≡ board.now.steps }
{
    board.outcome().steps
}

/// What the board does at its next step.
pub(crate) fn state_of(board: &Board) -> RunState
    ensures { result ≡ board.now.state }
{
    board.outcome().state
}
