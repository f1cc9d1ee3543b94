//! The state of a machine between its steps.

ghost use Rattle.std.specs.Prelude.{◌≡◌};
ghost use Rattle.mb_model.specs.declared.processor.Cpu.{Cpu};
ghost use Rattle.def_processor.specs.Raise.{step_end};
ghost use Rattle.def_machine.specs.Machine.{state_after, takes_steps};

use def_processor::{Finish, StepEnd};
use mb_devices::Devices;
use mb_model::{Cpu, RunState};

/// Whether a machine in this state takes a step: one that is halted or switched off takes none.
pub fn takes_steps(state: RunState) -> bool
    ensures { result ≡ takes_steps state }
{
    match state {
        RunState::Running | RunState::Stopped => true,
        RunState::Halted | RunState::Off => false,
    }
}

/// The state after a step that ended so, by whether STOP holds the processor that it left, and by the devices.
#[inline(never)]
fn state_by(end: StepEnd, stopped: bool, devices: &Devices) -> RunState
    ensures { (cpu : Cpu) → cpu.stopped ≡ stopped → result ≡ state_after end cpu devices.now }
{
    match end {
        StepEnd::Halted => RunState::Halted,
        StepEnd::Went | StepEnd::Idle => {
            if devices.is_off() {
                RunState::Off
            } else if stopped {
                RunState::Stopped
            } else {
                RunState::Running
            }
        }
    }
}

/// The same, by its finish.
#[inline(never)]
fn state_by_finish(finish: Finish, stopped: bool, devices: &Devices) -> RunState
    ensures { (cpu : Cpu) → cpu.stopped ≡ stopped → result ≡ state_after (step_end finish) cpu devices.now }
{
    state_by(finish.step_end(), stopped, devices)
}

/// The same. Nearly every step leaves the machine running, so that is asked first.
#[inline(always)]
pub(crate) fn state_of(finish: Finish, stopped: bool, devices: &Devices) -> RunState
    ensures { (cpu : Cpu) → cpu.stopped ≡ stopped → result ≡ state_after (step_end finish) cpu devices.now }
{
    match finish {
        Finish::Went if !stopped && !devices.is_off() => RunState::Running,
        Finish::Went | Finish::Entered(_) | Finish::Idle | Finish::Halted => {
            state_by_finish(finish, stopped, devices)
        }
    }
}

/// The state after a step that ended so, with the processor and the devices that it left.
#[inline(always)]
pub fn state_after(end: StepEnd, cpu: &Cpu, devices: &Devices) -> RunState
    ensures { result ≡ state_after end cpu.now devices.now }
{
    state_by(end, cpu.stopped, devices)
}
