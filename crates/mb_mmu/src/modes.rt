//! How the memory management unit translates, in short.

ghost use Rattle.std.specs.Prelude.{◌≡◌};
ghost use Rattle.mb_mmu.specs.Modes.{direct_bytes, has_transparent, has_user, is_enabled as has_enabled};
ghost use Rattle.mb_mmu.specs.Modes.{mode_of as translates, serves_user};

use mb_port::translation::{E, S};
use mb_port::{Mmu, long_has};

/// How the memory management unit translates, in short.
#[derive(Clone, Copy, Debug, PartialEq, Eq)]
pub enum Mode {
    /// Translation is off, and so is each transparent register.
    Direct,
    /// Translation is on, and no transparent register is.
    Tables,
    /// Translation is on, and each transparent register that is on serves the supervisor alone.
    UserTables,
    /// A transparent register is on, and serves user space or translation is off.
    Registers,
}

/// E of TC and of a transparent register.
fn is_enabled(register: u32) -> bool
    ensures { result ≡ has_enabled register }
{
    long_has(register, E)
}

/// Whether a transparent register is on.
fn is_transparent(mmu: &Mmu) -> bool
    ensures { result ≡ has_transparent mmu.now }
{
    is_enabled(mmu.itt0) || is_enabled(mmu.itt1) || is_enabled(mmu.dtt0) || is_enabled(mmu.dtt1)
}

/// Whether a transparent register is on that serves user space: its S field is not the supervisor's alone.
fn serves_user(register: u32) -> bool
    ensures { result ≡ serves_user register }
{
    is_enabled(register) && register / S % 4 != 1
}

/// Whether some transparent register does.
fn has_user(mmu: &Mmu) -> bool
    ensures { result ≡ has_user mmu.now }
{
    serves_user(mmu.itt0) || serves_user(mmu.itt1) || serves_user(mmu.dtt0) || serves_user(mmu.dtt1)
}

/// What the registers come to.
pub fn mode_of(mmu: &Mmu) -> Mode
    ensures { result ≡ translates mmu.now }
{
    match (is_transparent(mmu), has_user(mmu), is_enabled(mmu.tc)) {
        (true, true, _) | (true, false, false) => Mode::Registers,
        (true, false, true) => Mode::UserTables,
        (false, _, true) => Mode::Tables,
        (false, _, false) => Mode::Direct,
    }
}

/// The bytes from address 0 on in which each reference leads to its own address, where RAM has so many.
#[tactic(auto, using(crate::proofs::Modal::modes))]
pub fn direct_bytes(mmu: &Mmu, ram: u32) -> u32
    ensures { result ≡ direct_bytes mmu.now ram }
{
    match mode_of(mmu) {
        Mode::Direct => ram,
        Mode::Tables | Mode::UserTables | Mode::Registers => 0,
    }
}
