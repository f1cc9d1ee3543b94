//! The status register in an entry.

ghost use Rattle.std.specs.Prelude.{◌≡◌, ◌<◌};
ghost use Rattle.def_processor.specs.Entry.{supervised, without_master, with_mask, handler_sr, thrown_sr};

use def_processor::Cause;
use mb_instr::status::{I, LEVELS, M, S};

/// With S set, T1 and T0 cleared.
fn supervised(sr: u16) -> u16
    ensures { result ≡ supervised sr }
{
    S + sr % S
}

/// With M cleared.
pub(crate) fn without_master(sr: u16) -> u16
    ensures { result ≡ without_master sr }
{
    sr / S * S + sr % M
}

/// With the level as the interrupt mask.
fn with_mask(level: u8, sr: u16) -> u16
    requires { level < 8 }
    ensures { result ≡ with_mask level sr }
{
    sr / (LEVELS * I) * (LEVELS * I) + u16::from(level) * I + sr % I
}

/// What the handler begins with, but for M.
pub(crate) fn handler_status(cause: &Cause, sr: u16) -> u16
    requires { cause.now.level < 8 }
    ensures { result ≡ handler_sr cause.now sr }
{
    if cause.level > 0 {
        with_mask(cause.level, supervised(sr))
    } else {
        supervised(sr)
    }
}

/// The saved status register in a throwaway frame.
pub(crate) fn thrown_status(sr: u16) -> u16
    ensures { result ≡ thrown_sr sr }
{
    sr | S
}
