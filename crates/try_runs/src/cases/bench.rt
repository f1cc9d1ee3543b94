//! A board on which cases are run.

ghost use Rattle.std.specs.Prelude.{◌≡◌, ◌↔◌, length, vec_len, false, IsNone, IfOk, []};
ghost use Rattle.mb_devices.specs.Devices.{built};
ghost use Rattle.try_runs.specs.declared.cases.chunk.TheConstants.{RAM_SIZE};

use crate::cases::case::Case;
use crate::cases::chunk::RAM_SIZE;
use crate::cases::difference::Difference;
use crate::cases::machine::{compare, load, put_all, run};
use mb_board::Board;
use mb_outside::Memory;
use mb_script::Script;
use std::alloc::{AllocError, Global};

/// A board, and RAM as a case has it. Cases are run on it one after the other.
#[derive(Drop)]
pub struct Bench {
    board: Board,
    ram: Vec<u8>,
    /// Nothing is typed.
    script: Script,
    ghost ram_size: { vec_len ram ≡ RAM_SIZE },
    ghost board_ram: { length board.world.ram ≡ RAM_SIZE },
    ghost board_size: { built board.world.devices ≡ (RAM_SIZE, false) },
    ghost untyped: { script ≡ [] },
}

/// RAM that is 0.
fn zeros(alloc: Global) -> Result<Vec<u8>, AllocError>
    ensures { IfOk result (λ ram. vec_len ram ≡ RAM_SIZE) }
{
    vec![in alloc; 0; RAM_SIZE as usize]
}

/// A script in which nothing is typed.
fn nothing_typed(alloc: Global) -> Script
    ensures { result ≡ [] }
{
    Script::new(Vec::new(alloc))
}

impl Bench {
    ghost use Rattle.try_runs.specs.Cases.{Passes};

    pub fn new(alloc: Global) -> Result<Bench, Memory> {
        let ram = zeros(alloc)?;
        let board = Board::new(alloc, RAM_SIZE)?;
        Ok(Bench {
            board,
            ram,
            script: nothing_typed(alloc),
        })
    }

    /// Runs a case from reset on. `None` exactly where it passes: what of the machine is first found to be another
    /// than the case says.
    pub fn try_case(&mut self, case: &Case) -> Option<Difference>
        ensures { IsNone result ↔ Passes case.now }
    {
        load(&mut self.ram, &case.image);
        run(&mut self.board, &self.script, &self.ram, case.steps);
        put_all(&mut self.ram, &case.changes);
        compare(&self.board, case, &mut self.ram)
    }
}
