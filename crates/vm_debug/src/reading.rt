//! A text as commands.

ghost use Rattle.std.specs.Prelude.{◌≡◌, ◌<◌, ◌^◌, IfErr, IfOk, Ok, length};
ghost use Rattle.mb_lines.specs.Answers.{line_said};
ghost use Rattle.mb_script.specs.Lines.{is_comment, read_by};
ghost use Rattle.mb_script.specs.Answers.{Faults, Gives};
ghost use Rattle.vm_debug.specs.Commands.{command_of, commands_of};

use crate::command::{Command, Commands};
use crate::command_line::command_of;
use mb_lines::{Line, Lines};
use mb_script::LineFault;
use std::alloc::Global;

/// Reads commands, one a line, with single spaces between the words: `step N`, `go N`, `break HEX`, `clear HEX`,
/// `regs`, `mem HEX N` and `kept`.
///
/// N is a decimal number of 32 bits, HEX one to eight hexadecimal digits of either case; behind `mem` it is a multiple
/// of 16. Empty lines and lines that begin with `#` are passed over, but counted. Of the faults only the first in order
/// of lines is told, and of one line the first of `Word`, `Number` and `Digits`; `Digits` is a HEX that does not stand.
pub fn read_commands(alloc: Global, text: &[u8]) -> Result<Commands, LineFault>
    requires { length text.now < 2 ^ 31 }
    ensures commands { IfOk result (λ commands. commands_of text.now ≡ Ok commands) }
    ensures fault { IfErr result (λ fault. Faults fault (commands_of text.now)) }
{
    let mut commands = Vec::new(alloc);
    let mut lines = Lines::new(text);
    while let Some(line) = lines.next_line() {
        if !is_comment(line.characters) {
            commands.push(command_in(line)?)?;
        }
    }
    Ok(Commands { commands })
}

fn is_comment(characters: &[u8]) -> bool
    ensures { result ≡ is_comment characters.now }
{
    matches!(characters, [b'#', ..])
}

/// The command in a line.
fn command_in(line: Line) -> Result<Command, LineFault>
    ensures { Gives (λ command. command) result (read_by command_of (line_said line.entry)) }
{
    command_of(line.characters).map_err(|why| LineFault::Line {
        number: line.number,
        why,
    })
}
