//! A case on a board, step by step.

ghost use Rattle.std.specs.Prelude.{◌≡◌, ◌+◌, ◌↔◌, length, replicate, false, IsNone, [], if◌then◌else◌};
ghost use Rattle.mb_walk.specs.Memory.{overwritten, with_contents};
ghost use Rattle.mb_model.specs.Keeping.{rule_a};
ghost use Rattle.mb_model.specs.Seen.{seen_of};
ghost use Rattle.mb_devices.specs.Devices.{built, idle};
ghost use Rattle.def_machine.specs.Machine.{reset_with, run_of, seen_machine};
ghost use Rattle.mb_board.specs.State.{machine_in};
ghost use Rattle.try_runs.specs.Cases.{contents_of, said_of, settled_in, IsAsSaid};
ghost use Rattle.try_runs.specs.declared.cases.chunk.TheConstants.{RAM_SIZE};

use crate::cases::case::{Case, PERIOD};
use crate::cases::chunk::{Chunk, UnsaidBits};
use crate::cases::difference::{Difference, first_difference, first_register};
use crate::cases::registers::registers_of;
use arrayvec::ArrayVec;
use mb_board::Board;
use mb_model::{Outcome, RunState};
use mb_script::Script;

/// Puts bytes over what stands in RAM.
fn put(ram: &mut [u8], chunk: &Chunk)
    requires { length ram.old ≡ RAM_SIZE }
    ensures { ram.new ≡ overwritten ram.old chunk.now.at chunk.now.bytes.items }
{
    let at = chunk.at as usize;
    ram[at..at + chunk.bytes.len()].copy_from_slice(&chunk.bytes);
}

/// Puts chunks over what stands in RAM, later ones over earlier ones.
pub fn put_all(ram: &mut [u8], chunks: &[Chunk])
    requires { length ram.old ≡ RAM_SIZE }
    ensures { ram.new ≡ with_contents ram.old (contents_of chunks.now) }
{
    for chunk in chunks {
        put(ram, chunk);
    }
}

/// An image in RAM that is 0 elsewhere.
pub fn load(ram: &mut [u8], image: &[Chunk])
    requires { length ram.old ≡ RAM_SIZE }
    ensures { ram.new ≡ with_contents (replicate RAM_SIZE 0) (contents_of image.now) }
{
    ram.fill(0);
    put_all(ram, image);
}

/// Takes so many steps, from reset on.
pub fn run(board: &mut Board, script: &Script, ram: &[u8], steps: u32)
    requires untyped { script.now ≡ [] }
    requires size { length ram.now ≡ RAM_SIZE }
    requires board_ram { length board.old.world.ram ≡ RAM_SIZE }
    requires board_size { built board.old.world.devices ≡ (RAM_SIZE, false) }
    ensures after { machine_in board.new ≡ run_of rule_a [] steps (reset_with rule_a (idle RAM_SIZE) ram.now) }
    ensures board_ram { length board.new.world.ram ≡ RAM_SIZE }
    ensures board_size { built board.new.world.devices ≡ (RAM_SIZE, false) }
{
    board.write_phys(0, ram);
    board.reset();
    board.run_bare(script, steps);
}

/// Memory whose unsaid bits are those of the machine.
fn settle(said: &mut [u8], unsaid: &[UnsaidBits], got: &[u8])
    requires said { length said.old ≡ RAM_SIZE }
    requires got { length got.now ≡ RAM_SIZE }
    ensures { said.new ≡ settled_in unsaid.now said.old got.now }
{
    for byte in unsaid {
        let at = byte.at as usize;
        said[at] ^= (said[at] ^ got[at]) & byte.bits;
    }
}

/// A number of the timer, which is 0 where nothing set it.
fn where_set(set: bool, number: u32) -> u32
    ensures { result ≡ (if set then number else 0) }
{
    if set { number } else { 0 }
}

/// What beside the registers is first found to be another than the case says, with this RAM.
fn compare_rest(got: &Outcome, case: &Case, ram: &mut [u8]) -> Option<Difference>
    requires said { length ram.old ≡ RAM_SIZE }
    requires got { length got.now.ram.now ≡ RAM_SIZE }
    ensures { IsNone result ↔ (seen_of got.now ≡ said_of case.now ram.old (seen_of got.now)) }
{
    settle(ram, &case.unsaid_bits, got.ram);
    let mut cpu = *got.cpu;
    cpu.stopped = false;
    let said = Outcome {
        cpu: &cpu,
        mmu: got.mmu,
        console: &[],
        lost: 0,
        queue: ArrayVec::new(),
        ctrl: 0,
        status: 2,
        period: where_set(case.interrupted, PERIOD),
        count: where_set(case.interrupted, got.count),
        pending: u32::from(case.interrupted),
        steps: case.steps,
        state: RunState::Running,
        ram,
    };
    first_difference(got, &said)
}

/// What is first found to be another than the case says, with this RAM.
pub fn compare(board: &Board, case: &Case, ram: &mut [u8]) -> Option<Difference>
    requires size { length ram.old ≡ RAM_SIZE }
    requires board_ram { length board.now.world.ram ≡ RAM_SIZE }
    ensures { IsNone result ↔ IsAsSaid case.now ram.old (seen_machine (machine_in board.now)) }
{
    let got = board.outcome();
    match first_register(case, &registers_of(got.cpu, got.mmu)) {
        Some(found) => Some(found),
        None => compare_rest(&got, case, ram),
    }
}
