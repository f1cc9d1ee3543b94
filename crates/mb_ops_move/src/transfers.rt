//! The transfers of a MOVEM by the bus's quick calls, as far as these are answered.

ghost use Rattle.std.specs.Prelude.{◌≡◌, ◌+◌, ◌-◌, ◌<◌, ◌≤◌, [], ◌∷◌, true, false, IfSome, IfNone};
ghost use Rattle.mb_port.specs.Routine.{run};
ghost use Rattle.mb_instr.specs.declared.size.Size.{Size};
ghost use Rattle.mb_instr.specs.declared.registers.Plain.{Plain};
ghost use Rattle.mb_instr.specs.Sizes.{sign_extended};
ghost use Rattle.mb_instr.specs.Registers.{register_of, with_register};
ghost use Rattle.mb_writes.specs.Transfers.{set_bits, count_of, number_of, IsMode};
ghost use Rattle.mb_writes.specs.Moving.{stored_of, loaded_of, stepped_of, transfer_of};
ghost use Rattle.mb_ops_move.specs.Transfers.{left_of};

use mb_instr::{Plain, Size};
use mb_operands::{read_at_once, write_at_once};
use mb_port::{Port, Space};
use mb_writes::{Movem, MovemMode};

/// The lowest bit that a mask has set, of those from `from` on.
#[inline(always)]
fn next_bit(mask: u16, from: u8) -> Option<u8>
    requires { from ≤ 16 }
    ensures next { IfSome result (λ bit.
        set_bits mask from (16 - from) ≡ bit ∷ set_bits mask (bit + 1) (16 - (bit + 1))) }
    ensures onward { IfSome result (λ bit. from ≤ bit) }
    ensures range { IfSome result (λ bit. bit < 16) }
    ensures none { IfNone result (set_bits mask from (16 - from) ≡ []) }
{
    let left = u32::from(mask) >> from;
    if left == 0 {
        None
    } else {
        Some(from + left.trailing_zeros() as u8)
    }
}

/// The register that a bit of the mask names, unless it is the address register of `(An)+` or `-(An)`.
#[inline(always)]
fn named_by(mode: MovemMode, bit: u8) -> Option<u8>
    requires mode { IsMode mode }
    requires bit { bit < 16 }
    ensures value { IfSome result (λ register. register ≡ number_of mode bit) }
    ensures range { IfSome result (λ register. register < 16) }
    ensures stored { IfSome result (λ register. (size : Size) → (plain : Plain)
        → stored_of mode size plain register ≡ register_of plain register) }
    ensures loaded { IfSome result (λ register. (size : Size) → (plain : Plain) → (value : _)
        → loaded_of mode size plain register value ≡ with_register plain register (sign_extended size value)) }
{
    match mode {
        MovemMode::Control => Some(bit),
        MovemMode::Post(n) if bit == 8 + n => None,
        MovemMode::Post(_) => Some(bit),
        MovemMode::Pre(n) if 15 - bit == 8 + n => None,
        MovemMode::Pre(_) => Some(15 - bit),
    }
}

/// The address register of `(An)+` and `-(An)` goes past so many transfers.
#[inline(always)]
fn step_past(movem: &Movem, ea: u32, count: u8, plain: &mut Plain)
    requires mode { IsMode movem.now.mode }
    requires few { count ≤ 16 }
    ensures { plain.new ≡ stepped_of movem.now.mode movem.now.size ea count plain.old }
{
    let behind = movem.transfer_at(ea, count);
    match movem.mode {
        MovemMode::Control => {}
        MovemMode::Post(n) => plain.a[n as usize] = behind,
        MovemMode::Pre(n) => {
            plain.a[n as usize] = behind.wrapping_add(u32::from(movem.size.bytes()));
        }
    }
}

/// Loads registers until a transfer is not known at once. So many are done then.
#[inline(always)]
fn load_at_once<P: Port>(
    movem: &Movem,
    ea: u32,
    space: Space,
    plain: &mut Plain,
    port: &P,
) -> Option<u8>
    requires mode { IsMode movem.now.mode }
    requires load { movem.now.is_load ≡ true }
    ensures means { run P.bus (left_of movem.now ea space result plain.new) (P.world port.now)
        ≡ run P.bus (transfer_of movem.now ea 0 space plain.old) (P.world port.now) }
    ensures few { IfSome result (λ done. done ≤ count_of movem.now.mask) }
{
    let mut done = 0;
    let mut from = 0;
    while let Some(bit) = next_bit(movem.mask, from) {
        let Some(register) = named_by(movem.mode, bit) else {
            return Some(done);
        };
        let at = movem.transfer_at(ea, done);
        let Some(value) = read_at_once(space, at, movem.size, port) else {
            return Some(done);
        };
        plain.set_register(register, movem.size.sign_extend(value));
        done += 1;
        from = bit + 1;
    }
    step_past(movem, ea, done, plain);
    None
}

/// Stores registers until a transfer is not done at once. So many are done then.
#[inline(always)]
fn store_at_once<P: Port>(
    movem: &Movem,
    ea: u32,
    space: Space,
    plain: &mut Plain,
    port: &mut P,
) -> Option<u8>
    requires mode { IsMode movem.now.mode }
    requires store { movem.now.is_load ≡ false }
    ensures means { run P.bus (left_of movem.now ea space result plain.new) (P.world port.new)
        ≡ run P.bus (transfer_of movem.now ea 0 space plain.old) (P.world port.old) }
    ensures few { IfSome result (λ done. done ≤ count_of movem.now.mask) }
    ensures rest { P.rest port.new ≡ P.rest port.old }
{
    let mut done = 0;
    let mut from = 0;
    while let Some(bit) = next_bit(movem.mask, from) {
        let Some(register) = named_by(movem.mode, bit) else {
            return Some(done);
        };
        let at = movem.transfer_at(ea, done);
        if !write_at_once(space, at, movem.size, plain.register(register), port) {
            return Some(done);
        }
        done += 1;
        from = bit + 1;
    }
    step_past(movem, ea, done, plain);
    None
}

/// Carries out the transfers of a MOVEM, the first at `ea`, until one is not done at once: so many are done then.
/// Words, and the address register of `(An)+` or `-(An)`, come seldom and are left.
#[inline(never)]
pub fn transfer_at_once<P: Port>(
    movem: &Movem,
    ea: u32,
    space: Space,
    plain: &mut Plain,
    port: &mut P,
) -> Option<u8>
    requires mode { IsMode movem.now.mode }
    ensures means { run P.bus (left_of movem.now ea space result plain.new) (P.world port.new)
        ≡ run P.bus (transfer_of movem.now ea 0 space plain.old) (P.world port.old) }
    ensures few { IfSome result (λ done. done ≤ count_of movem.now.mask) }
    ensures rest { P.rest port.new ≡ P.rest port.old }
{
    // A copy of its own: no write to registers or memory can change it, so it is not read again behind each.
    let movem = *movem;
    match movem.size {
        Size::Long if movem.is_load => load_at_once(&movem, ea, space, plain, port),
        Size::Long => store_at_once(&movem, ea, space, plain, port),
        Size::Byte | Size::Word => Some(0),
    }
}
