//! MOVEM: its transfers, one after the other.

ghost use Rattle.std.specs.Prelude.{◌≡◌, ◌+◌, ◌<◌, ◌≤◌, drop, length};
ghost use Rattle.mb_port.specs.Routine.{run};
ghost use Rattle.mb_writes.specs.Transfers.{movem_in, mask_in, count_of, IsMode, AreTransfers};
ghost use Rattle.mb_writes.specs.Moving.{stored_of, store_all_of, loaded_of, load_all_of, stepped_of, transfer_of, halfway};

use crate::ends::MovemFault;
use crate::transfers::{Movem, MovemMode, Transfer};
use crate::writing::write_value;
use mb_ea::read_value;
use mb_instr::{Plain, Size};
use mb_port::{Port, Space};

impl Movem {
    /// What is stored of a register.
    fn stored(&self, plain: &Plain, register: u8) -> u32
        requires mode { IsMode self.now.mode }
        requires register { register < 16 }
        ensures { result ≡ stored_of self.now.mode self.now.size plain.now register }
    {
        let value = plain.register(register);
        match self.mode {
            MovemMode::Pre(n) if register == 8 + n => value.wrapping_sub(u32::from(
                self.size.bytes(),
            )),
            MovemMode::Control | MovemMode::Post(_) | MovemMode::Pre(_) => value,
        }
    }

    /// Puts what was read for a register there.
    fn put_loaded(&self, register: u8, value: u32, plain: &mut Plain)
        requires mode { IsMode self.now.mode }
        requires register { register < 16 }
        ensures { plain.new ≡ loaded_of self.now.mode self.now.size plain.old register value }
    {
        match self.mode {
            MovemMode::Post(n) if register == 8 + n => {}
            MovemMode::Control | MovemMode::Post(_) | MovemMode::Pre(_) => {
                plain.set_register(register, self.size.sign_extend(value));
            }
        }
    }

    /// Steps the address register of `(An)+` and `-(An)` past the transfers.
    fn step_base(&self, ea: u32, count: u8, plain: &mut Plain)
        requires mode { IsMode self.now.mode }
        requires few { count ≤ 16 }
        ensures { plain.new ≡ stepped_of self.now.mode self.now.size ea count plain.old }
    {
        let bytes = u32::from(self.size.bytes());
        let moved = u32::from(count) * bytes;
        match self.mode {
            MovemMode::Control => {}
            MovemMode::Post(n) => plain.a[n as usize] = ea.wrapping_add(moved),
            MovemMode::Pre(n) => plain.a[n as usize] = ea.wrapping_add(bytes).wrapping_sub(moved),
        }
    }
}

/// Stores registers, one transfer after the other.
fn store_all<P: Port>(
    movem: &Movem,
    transfers: &[Transfer],
    first: u32,
    done: u8,
    plain: &Plain,
    space: Space,
    port: &mut P,
) -> Result<(), MovemFault>
    requires mode { IsMode movem.now.mode }
    requires few { done + length transfers.now ≤ 16 }
    requires registers { AreTransfers transfers.now }
    ensures means { run P.bus (store_all_of movem.now space plain.now first done transfers.now) (P.world port.old)
        ≡ (result, P.world port.new) }
    ensures rest { P.rest port.new ≡ P.rest port.old }
{
    let mut done = done;
    for transfer in transfers {
        let value = movem.stored(plain, transfer.register);
        if let Err(refused) = write_value(space, transfer.at, movem.size, value, port) {
            return Err(MovemFault {
                fault: refused.fault,
                first,
                done,
            });
        }
        done += 1;
    }
    Ok(())
}

/// Loads registers, one transfer after the other. What was loaded stays at a fault.
fn load_all<P: Port>(
    movem: &Movem,
    transfers: &[Transfer],
    first: u32,
    done: u8,
    plain: &mut Plain,
    space: Space,
    port: &mut P,
) -> Result<(), MovemFault>
    requires mode { IsMode movem.now.mode }
    requires few { done + length transfers.now ≤ 16 }
    requires registers { AreTransfers transfers.now }
    ensures means { run P.bus (load_all_of movem.now space first done transfers.now plain.old) (P.world port.old)
        ≡ (halfway result plain.new, P.world port.new) }
    ensures rest { P.rest port.new ≡ P.rest port.old }
{
    let mut done = done;
    for transfer in transfers {
        match read_value(space, transfer.at, movem.size, port) {
            Ok(value) => movem.put_loaded(transfer.register, value, plain),
            Err(refused) => return Err(MovemFault {
                fault: refused.fault,
                first,
                done,
            }),
        }
        done += 1;
    }
    Ok(())
}

/// The transfers after the first `done`.
fn after(transfers: &[Transfer], done: u8) -> &[Transfer]
    requires done { done ≤ length transfers.now }
    requires registers { AreTransfers transfers.now }
    ensures value { result.now ≡ drop done transfers.now }
    ensures registers { AreTransfers result.now }
    ensures count { done + length result.now ≡ length transfers.now }
{
    &transfers[done as usize..]
}

/// Carries out a MOVEM whose first transfer is at `ea`, from the transfer after the first `done` on.
///
/// At a fault what was loaded stays, and the address register of `(An)+` and `-(An)` is as it was.
pub fn transfer<P: Port>(
    movem: &Movem,
    ea: u32,
    done: u8,
    plain: &mut Plain,
    space: Space,
    port: &mut P,
) -> Result<(), MovemFault>
    requires mode { IsMode movem.now.mode }
    requires done { done ≤ count_of movem.now.mask }
    ensures means { run P.bus (transfer_of movem.now ea done space plain.old) (P.world port.old)
        ≡ (halfway result plain.new, P.world port.new) }
    ensures rest { P.rest port.new ≡ P.rest port.old }
{
    let transfers = movem.transfers(ea);
    let left = after(transfers.as_slice(), done);
    if movem.is_load {
        load_all(movem, left, ea, done, plain, space, port)?;
    } else {
        store_all(movem, left, ea, done, plain, space, port)?;
    }
    movem.step_base(ea, transfers.len() as u8, plain);
    Ok(())
}

/// Goes on with a MOVEM after a refused transfer, without a fetch.
///
/// `words` are the operation word and the mask, `ea` is the address of the first transfer, `done` how many
/// whole transfers were done. The refused one is repeated from its first byte. This is the manual's
/// chapter on the return from an access error, as this processor does it.
pub fn continue_movem<P: Port>(
    plain: &mut Plain,
    words: u32,
    ea: u32,
    done: u8,
    space: Space,
    port: &mut P,
) -> Result<(), MovemFault>
    requires { done ≤ count_of (mask_in words) }
    ensures means { run P.bus (transfer_of (movem_in words) ea done space plain.old) (P.world port.old)
        ≡ (halfway result plain.new, P.world port.new) }
    ensures rest { P.rest port.new ≡ P.rest port.old }
{
    transfer(&Movem::of(words), ea, done, plain, space, port)
}
