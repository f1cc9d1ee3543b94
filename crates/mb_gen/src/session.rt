//! The session of a seed.

ghost use Rattle.std.specs.Prelude.{◌≡◌, ◌≤◌, IfOk, OnOk};
ghost use Rattle.mb_script.specs.declared.sizes.TheConstants.{MOST_GUESTS};
ghost use Rattle.vm_guest.specs.Session.{IsSession};
ghost use Rattle.mb_gen.specs.Draws.{after, draws};
ghost use Rattle.mb_gen.specs.Seen.{generator_seen};
ghost use Rattle.mb_gen.specs.Sessions.{generated, guest_of, IsJustFilled};
ghost use Rattle.mb_gen.specs.declared.program.TheConstants.{PICKS};

use crate::draws::seeded;
use crate::program::image;
use def_guests::MONITOR_BYTES;
use mb_outside::Memory;
use mb_script::Script;
use rand_pcg::Lcg64Xsh32;
use std::alloc::{AllocError, Global};
use vm_guest::{Session, SessionGuest};
use vm_shadow::AREA_BYTES;

/// The bytes of a guest's RAM.
pub const RAM: u32 = 65_536;

/// A guest's RAM and its tables, in bytes.
pub const GUEST_BYTES: u32 = RAM + AREA_BYTES;

/// A bound on the steps of a guest, whose program takes 200,302.
pub const STEPS: u32 = 250_000;

/// The steps of a turn.
pub const SLICE: u32 = 1_000;

/// The session of a seed, with so many guests. Each guest takes the next 2,000 draws.
pub fn make_session(alloc: Global, seed: u64, guests: u8) -> Result<Session, Memory>
    requires { (1 ≤ guests) × (guests ≤ MOST_GUESTS) }
    ensures generated { IfOk result (λ session. session ≡ generated seed guests) }
    ensures lawful { IfOk result IsSession }
    ensures filled { IfOk result IsJustFilled }
{
    let mut generator = seeded(seed);
    let mut all = Vec::new(alloc);
    for _ in 0..guests {
        all.push(guest(alloc, &mut generator)?)?;
    }
    let board = MONITOR_BYTES + GUEST_BYTES * u32::from(guests);
    Ok(Session::new(board, SLICE, all))
}

/// A guest by the next draws.
fn guest(alloc: Global, generator: &mut Lcg64Xsh32) -> Result<SessionGuest, AllocError>
    ensures guest { IfOk result (λ guest. guest ≡ guest_of (draws PICKS (generator_seen generator.old))) }
    ensures after { OnOk result (generator_seen generator.new ≡ after PICKS (generator_seen generator.old)) }
{
    let image = image(alloc, generator)?;
    let script = Script::new(Vec::new(alloc));
    Ok(SessionGuest::new(image, script, RAM, STEPS))
}
