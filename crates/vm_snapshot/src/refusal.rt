//! Why a part of a snapshot is not read.

ghost use Rattle.std.specs.Prelude.{◌≡◌};
ghost use Rattle.vm_snapshot.specs.declared.refusal.Refusal.TheVariants as refusal;

use mb_spelling::Stop;
use std::alloc::{AllocError, AllocFailed};

/// Want of memory, or why the text stops.
#[derive(Clone, Copy, PartialEq, Eq)]
pub enum Refusal {
    Memory,
    Stopped(Stop),
}

impl From<Stop> for Refusal {
    ghost from_gives = { λ stop result. result ≡ refusal.Stopped stop };

    fn from(stop: Stop) -> Refusal {
        Refusal::Stopped(stop)
    }
}

impl<T: Drop> From<AllocFailed<T>> for Refusal {
    ghost from_gives = { λ _ result. result ≡ refusal.Memory };

    fn from(_: AllocFailed<T>) -> Refusal {
        Refusal::Memory
    }
}

impl From<AllocError> for Refusal {
    ghost from_gives = { λ _ result. result ≡ refusal.Memory };

    fn from(_: AllocError) -> Refusal {
        Refusal::Memory
    }
}
