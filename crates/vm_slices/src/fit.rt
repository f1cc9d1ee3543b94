//! The board's memory that a session needs.

ghost use Rattle.std.specs.Prelude.{◌≡◌, ◌^◌, ◌<◌, Err, IsOk};
ghost use Rattle.vm_guest.specs.Session.{IsSession};
ghost use Rattle.vm_slices.specs.declared.open_fault.OpenFault.TheVariants as open_fault;
ghost use Rattle.vm_slices.specs.Fit.{Fits, need_of};

use crate::open_fault::OpenFault;
use def_guests::MONITOR_BYTES;
use vm_guest::{Session, SessionGuest};
use vm_shadow::AREA_BYTES;

/// The monitor's bytes, and the RAM and the tables of all guests.
fn bytes_needed(guests: &[SessionGuest]) -> u32
    requires { need_of guests.now < 2 ^ 32 }
    ensures { result ≡ need_of guests.now }
{
    let mut bytes = MONITOR_BYTES;
    for guest in guests {
        bytes += guest.ram() + AREA_BYTES;
    }
    bytes
}

/// Whether a session fits on its board, with both numbers where it does not. It takes no memory.
pub fn judge_fit(session: &Session) -> Result<(), OpenFault>
    requires { IsSession session.now }
    ensures fits { Fits session.now → IsOk result }
    ensures oversize { session.now.board < need_of session.now.guests
        → result ≡ Err (open_fault.Oversize (need_of session.now.guests) session.now.board) }
{
    let need = bytes_needed(session.guests());
    let have = session.board();
    if need > have {
        return Err(OpenFault::Oversize { need, have });
    }
    Ok(())
}
