//! A debugger's commands.

ghost use Rattle.std.specs.Prelude.{◌≡◌};

use std::marker::Model;

/// What a debugger is told to do.
#[derive(Clone, Copy, Debug, PartialEq, Eq)]
pub enum Command {
    /// So many steps, up to the bound.
    Step(u32),
    /// The same, up to a break point.
    Go(u32),
    /// A break point stands at the address.
    Break(u32),
    /// None does.
    Clear(u32),
    /// Shows the registers.
    Regs,
    /// Shows memory from an address on, which is a multiple of 16, in so many rows of 16 bytes.
    Mem(u32, u32),
    /// Shows what translations are kept.
    Kept,
}

/// Commands in the order in which they are carried out.
#[derive(Drop)]
pub struct Commands {
    pub(crate) commands: Vec<Command>,
}

impl Model for Commands {
    ghost use Rattle.std.specs.Prelude.{List};
    ghost use Rattle.vm_debug.specs.declared.command.Command.{Command};

    ghost Value = { List Command };

    ghost view = { λ commands. commands.commands.items };
}

impl Commands {
    /// The commands, from the first on.
    pub fn as_slice(&self) -> &[Command]
        ensures { result.now ≡ self.now }
    {
        &self.commands
    }
}
