//! What arrives at a step by a script.

ghost use Rattle.std.specs.Prelude.{◌≡◌, ◌+◌, ◌<◌, ◌^◌, ◌||◌, false};
ghost use Rattle.def_machine.specs.Machine.{aborts, arrived, is_abort, taken_in};
ghost use Rattle.def_runs.specs.Batches.{IsQuietAt};
ghost use Rattle.mb_board.specs.Arrivals.{IsNext};

use mb_devices::Devices;
use mb_script::{Input, Script};

/// What came of a step's entries in a script.
#[derive(Clone, Copy)]
pub struct Arrival {
    /// The place behind them.
    pub next: u32,
    /// An abort is among them.
    pub aborted: bool,
}

/// The place of the first entry behind a step.
pub fn place_behind(script: &Script, step: u32) -> u32
    ensures { IsNext script.now step result }
{
    let mut low = 0;
    let mut high = script.count();
    while low < high {
        let middle = low + (high - low) / 2;
        match script.entry(middle) {
            Some(entry) if entry.step <= step => low = middle + 1,
            _ => high = middle,
        }
    }
    low
}

/// Whether the entry at a place is of the step after so many. Where it is not, nothing arrives at that step.
#[inline(always)]
fn is_due(script: &Script, taken: u32, next: u32) -> bool
    requires room { taken + 1 < 2 ^ 32 }
    requires next { IsNext script.now taken next }
    ensures quiet { result ≡ false → IsQuietAt script.now (taken + 1) }
    ensures stays { result ≡ false → IsNext script.now (taken + 1) next }
{
    let _ = script.count();
    match script.entry(next) {
        Some(entry) if entry.step == taken + 1 => true,
        _ => false,
    }
}

/// Hands devices what arrives. Answers whether an abort, which is none of theirs, has arrived with it or before it.
fn take_in(devices: &mut Devices, input: Input, before: bool) -> bool
    ensures devices { devices.new ≡ taken_in input devices.old }
    ensures aborted { result ≡ (is_abort input || before) }
{
    match input {
        Input::Byte(byte) => {
            devices.receive(byte);
            before
        }
        Input::Abort => true,
    }
}

/// Hands devices what arrives at the step after so many, entry by entry.
#[inline(never)]
fn receive_due(devices: &mut Devices, script: &Script, taken: u32, next: u32) -> Arrival
    requires room { taken + 1 < 2 ^ 32 }
    requires next { IsNext script.now taken next }
    ensures means { devices.new ≡ arrived (taken + 1) script.now devices.old }
    ensures next { IsNext script.now (taken + 1) result.next }
    ensures aborted { result.aborted ≡ aborts (taken + 1) script.now }
{
    let mut aborted = false;
    for place in next..script.count() {
        match script.entry(place) {
            Some(entry) if entry.step == taken + 1 => {
                aborted = take_in(devices, entry.input, aborted);
            }
            _ => {
                return Arrival {
                    next: place,
                    aborted,
                };
            }
        }
    }
    Arrival {
        next: script.count(),
        aborted,
    }
}

/// Hands devices what arrives at the step after so many. Mostly that is nothing.
#[inline(always)]
pub fn receive(devices: &mut Devices, script: &Script, taken: u32, next: u32) -> Arrival
    requires room { taken + 1 < 2 ^ 32 }
    requires next { IsNext script.now taken next }
    ensures means { devices.new ≡ arrived (taken + 1) script.now devices.old }
    ensures next { IsNext script.now (taken + 1) result.next }
    ensures aborted { result.aborted ≡ aborts (taken + 1) script.now }
{
    if is_due(script, taken, next) {
        return receive_due(devices, script, taken, next);
    }
    Arrival {
        next,
        aborted: false,
    }
}
