//! Reading the words.

ghost use Rattle.std.specs.Prelude.{map, string_bytes};
ghost use Rattle.mb_forms.specs.Said.{ReadsAs};
ghost use Rattle.mb_words.specs.Words.{command_said, asked_by};

use crate::asm_words::read_asm;
use crate::bare_words::read_bare;
use crate::command::Command;
use crate::debug_words::read_debug;
use crate::dis_words::read_dis;
use crate::gen_words::read_gen;
use crate::session_words::{read_compare, read_host};
use crate::snapshot_words::{read_resume, read_save};
use mb_forms::WordsFault;
use std::alloc::Global;

/// Reads the words: the program's name, the command, and then its own words. `Refused` is answered only
/// where they ask for nothing; `Memory` can come whatever they ask for.
#[tactic(auto, unfolding(crate::specs::Words::asked_by))]
pub fn read_words<'a>(alloc: Global, words: &'a [String]) -> Result<Command<'a>, WordsFault>
    ensures { ReadsAs command_said (asked_by (map string_bytes words.entry.now)) result }
{
    let [_program, name, rest @ ..] = words else {
        return Err(WordsFault::Refused);
    };
    match name.as_str() {
        "bare" => Ok(Command::Bare(read_bare(alloc, rest)?)),
        "asm" => Ok(Command::Asm(read_asm(alloc, rest)?)),
        "dis" => Ok(Command::Dis(read_dis(alloc, rest)?)),
        "host" => Ok(Command::Host(read_host(alloc, rest)?)),
        "compare" => Ok(Command::Compare(read_compare(alloc, rest)?)),
        "gen" => Ok(Command::Gen(read_gen(alloc, rest)?)),
        "debug" => Ok(Command::Debug(read_debug(alloc, rest)?)),
        "save" => Ok(Command::Save(read_save(alloc, rest)?)),
        "resume" => Ok(Command::Resume(read_resume(alloc, rest)?)),
        _ => Err(WordsFault::Refused),
    }
}
