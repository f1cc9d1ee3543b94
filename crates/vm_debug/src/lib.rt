//! A debugger of one guest: its commands, and what they print.
//!
//! [`read_commands`] reads a text of commands by the grammar of `specs/Commands`, and [`Debugger::run_commands`]
//! carries them out. `specs/Debugs` says what they do and print, by the guest's machine after so many steps and by the
//! break points alone; `specs/Laws` has what follows for every run, and `specs/Boards` how the guest takes its steps.
#![tactic(auto)]

ghost use Rattle.vm_debug.specs.Laws.{GoingEndsFirst, CommandsAdd, TextsAdd, CoursesShow, BoundIsKept};
ghost use Rattle.vm_debug.specs.Laws.{BreaksAreFew, CoursesGoOn};
ghost use Rattle.vm_debug.specs.Boards.{OnesAreATurn, TurnsEndThere};

mod breaks;
mod command;
mod command_line;
mod debugger;
mod going;
mod printing;
mod reading;

pub use command::{Command, Commands};
pub use debugger::Debugger;
pub use reading::read_commands;

/// What a debugger shows is a function of the run and of its break points, and no command changes anything of the run.
pub fn debuggers_only_look()
    ensures least { GoingEndsFirst }
    ensures states { CommandsAdd }
    ensures texts { TextsAdd }
    ensures courses { CoursesShow }
    ensures bound { BoundIsKept }
    ensures breaks { BreaksAreFew }
    ensures along { CoursesGoOn }
{}

/// A debugger's guest may take its steps one by one, or more at once.
pub fn ones_are_turns()
    ensures ones { OnesAreATurn }
    ensures ends { TurnsEndThere }
{}
