//! Line 15: caches, translation and MOVE16.
#![tactic(auto, unfolding(crate::specs::Reading::reads_then))]

ghost use Rattle.std.specs.Prelude.{◌≡◌, ◌<◌};
ghost use Rattle.mb_instr.specs.Opcodes.{IsOpcode};
ghost use Rattle.mb_decode.specs.Reading.{Gives};
ghost use Rattle.mb_decode.specs.RowReading.{caches_15, translation_15, lines_15, line_15, cached_instr};

use crate::reading::{Reading, Stop, long, ruled};
use mb_instr::{CacheScope, Caches, FlushKind, Instr, LineMove, Move, Opcode, System, WordRule};

fn cached_instr(push: bool, caches: Caches, scope: CacheScope, register: u8) -> Instr
    ensures { result ≡ cached_instr push caches scope register }
{
    let system = if push {
        System::Cpush {
            caches,
            scope,
            register,
        }
    } else {
        System::Cinv {
            caches,
            scope,
            register,
        }
    };
    Instr::System(system)
}

/// CINV and CPUSH.
fn caches(op: Opcode, words: &[u16]) -> Reading<'_, Instr>
    requires { IsOpcode op }
    ensures { Gives result (caches_15 op words.now) }
{
    let Some(scope) = CacheScope::of(op.mode % 4) else {
        return Err(Stop::Illegal);
    };
    let instruction = cached_instr(op.mode > 3, Caches::of(op.size), scope, op.lower);
    Ok((instruction, words))
}

/// PFLUSH and PTEST.
fn translation(op: Opcode, words: &[u16]) -> Reading<'_, Instr>
    requires { IsOpcode op }
    ensures { Gives result (translation_15 op words.now) }
{
    let register = op.lower;
    let system = match (op.size, op.mode) {
        (0, field @ 0..=3) => System::Pflush {
            kind: FlushKind::of(field),
            register,
        },
        (1, 1) => System::Ptest {
            is_read: false,
            register,
        },
        (1, 5) => System::Ptest {
            is_read: true,
            register,
        },
        _ => return Err(Stop::Illegal),
    };
    Ok((Instr::System(system), words))
}

/// MOVE16.
fn lines(op: Opcode, words: &[u16]) -> Reading<'_, Instr>
    requires { IsOpcode op }
    ensures { Gives result (lines_15 op words.now) }
{
    match op.mode {
        field @ 0..=3 => {
            let (address, rest) = long(words)?;
            let move16 = Move::Move16Abs {
                kind: LineMove::of(field),
                register: op.lower,
                address,
            };
            Ok((Instr::Move(move16), rest))
        }
        4 => {
            let (word, rest) = ruled(WordRule::Line, words)?;
            let move16 = Move::Move16Post { x: op.lower, word };
            Ok((Instr::Move(move16), rest))
        }
        _ => Err(Stop::Illegal),
    }
}

/// The rows of line 15.
pub fn line_15(op: Opcode, words: &[u16]) -> Reading<'_, Instr>
    requires { IsOpcode op }
    ensures { Gives result (line_15 op words.now) }
{
    match (op.upper, op.bit, op.size) {
        (2, 0, _) => caches(op, words),
        (2, _, _) => translation(op, words),
        (3, 0, 0) => lines(op, words),
        _ => Err(Stop::Illegal),
    }
}
