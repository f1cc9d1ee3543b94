//! MOVEM.

ghost use Rattle.std.specs.Prelude.{◌≡◌, ◌≤◌};
ghost use Rattle.mb_port.specs.Routine.{run};
ghost use Rattle.mb_instr.specs.Operands.{IsEa, IsInMemory};
ghost use Rattle.mb_writes.specs.Transfers.{count_of, IsMode};
ghost use Rattle.mb_writes.specs.Moving.{transfer_of};
ghost use Rattle.def_instructions.specs.Moves.{movem_mode, movem_of};
ghost use Rattle.mb_operands.specs.Endings.{carried_by};
ghost use Rattle.mb_ops_move.specs.Transfers.{ending};

use crate::transfers::transfer_at_once;
use mb_instr::{Ea, Plain, Size};
use mb_operands::{Stream, Undone, find_address, left_undone, unread};
use mb_port::{Port, Space};
use mb_writes::{Ended, Movem, MovemMode, transfer};

/// What becomes of the address register of a MOVEM's operand.
fn mode(size: Size, ea: &Ea) -> MovemMode
    requires { IsEa size ea.now }
    ensures value { result ≡ movem_mode ea.now }
    ensures range { IsMode result }
{
    match *ea {
        Ea::Post(n) => MovemMode::Post(n),
        Ea::Pre(n) => MovemMode::Pre(n),
        Ea::Dn(_)
        | Ea::An(_)
        | Ea::Ind(_)
        | Ea::Disp(_, _)
        | Ea::Index(_, _)
        | Ea::AbsW(_)
        | Ea::AbsL(_)
        | Ea::PcDisp(_)
        | Ea::PcIndex(_)
        | Ea::Imm(_) => MovemMode::Control,
    }
}

/// The transfers of a MOVEM behind the first `done`, whatever the bus has to do for them.
#[inline(never)]
fn transfer_slowly<P: Port>(
    movem: &Movem,
    ea: u32,
    done: u8,
    space: Space,
    plain: &mut Plain,
    port: &mut P,
    ended: &mut Ended,
) -> Result<(), Undone>
    requires mode { IsMode movem.now.mode }
    requires done { done ≤ count_of movem.now.mask }
    ensures means { run P.bus (ending (transfer_of movem.now ea done space plain.old)) (P.world port.old)
        ≡ (carried_by result ended.new plain.new, P.world port.new) }
    ensures rest { P.rest port.new ≡ P.rest port.old }
{
    match transfer(movem, ea, done, plain, space, port) {
        Ok(()) => Ok(()),
        Err(refused) => Err(left_undone(Ended::Movem(refused), ended)),
    }
}

/// MOVEM: the transfers begin where the operand stands.
pub fn movem<P: Port>(
    is_load: bool,
    size: Size,
    ea: &Ea,
    mask: u16,
    stream: Stream,
    plain: &mut Plain,
    port: &mut P,
    ended: &mut Ended,
) -> Result<(), Undone>
    requires operand { IsEa size ea.now }
    requires place { IsInMemory ea.now }
    ensures means { run P.bus (movem_of is_load size ea.now mask stream.at stream.space plain.old) (P.world port.old)
        ≡ (carried_by result ended.new plain.new, P.world port.new) }
    ensures rest { P.rest port.new ≡ P.rest port.old }
{
    let place = match find_address(size, ea, stream, plain, port) {
        Ok(place) => place,
        Err(refused) => return Err(unread(&refused, ended)),
    };
    let movem = Movem {
        is_load,
        size,
        mode: mode(size, ea),
        mask,
    };
    match transfer_at_once(&movem, place, stream.space, plain, port) {
        None => Ok(()),
        Some(done) => transfer_slowly(&movem, place, done, stream.space, plain, port, ended),
    }
}
