//! What follows the registers that instructions change.

ghost use Rattle.std.specs.Prelude.{◌≡◌, ◌<◌, ⊤, ℕ, List, slice_index_or};
ghost use Rattle.mb_short.specs.Changed.{AgreeBut, Differ, Follows, IsWithin, Remembers};
ghost use Rattle.mb_instr.specs.declared.registers.Plain.{Plain};

use crate::changed::Changed;
use mb_instr::Plain;

/// What follows D0 to D7 and A0 to A7, as a sum of them does: it is told which of them have changed.
pub trait Follower {
    /// The data registers and the address registers that it has followed so far are these.
    ghost follows: { Self → List ℕ → List ℕ → Type 0 };

    /// A data register has changed, which was this before.
    fn data(&mut self, register: u8, before: u32, now: &Plain)
        requires { register < 8 }
        ensures { (d a : List ℕ) → AgreeBut register d now.now.d → slice_index_or d register 0 ≡ before
            → follows self.old d a → follows self.new now.now.d a };

    /// An address register has changed, which was this before.
    fn address(&mut self, register: u8, before: u32, now: &Plain)
        requires { register < 8 }
        ensures { (d a : List ℕ) → AgreeBut register a now.now.a → slice_index_or a register 0 ≡ before
            → follows self.old d a → follows self.new d now.now.a };

    /// Any of them have changed.
    fn all(&mut self, now: &Plain)
        ensures { follows self.new now.now.d now.now.a };
}

/// Nobody follows.
#[derive(Drop)]
pub struct Nobody;

impl Follower for Nobody {
    ghost follows = { λ nobody d a. ⊤ };

    #[inline(always)]
    fn data(&mut self, _register: u8, _before: u32, _now: &Plain) {}

    #[inline(always)]
    fn address(&mut self, _register: u8, _before: u32, _now: &Plain) {}

    #[inline(always)]
    fn all(&mut self, _now: &Plain) {}
}

/// What a data register and an address register are, of those that an instruction may change.
#[derive(Clone, Copy)]
pub(crate) struct Values {
    data: u32,
    address: u32,
}

/// A register of eight, or 0.
#[inline(always)]
fn value_of(registers: &[u32; 8], n: u8) -> u32
    ensures { result ≡ slice_index_or registers.now n 0 }
{
    match registers.get(n as usize) {
        Some(value) => *value,
        None => 0,
    }
}

/// Those that may change.
#[inline(always)]
pub(crate) fn values_of(changed: Changed, registers: &Plain) -> Values
    ensures { Remembers changed registers.now result }
{
    match changed {
        Changed::Data(n) => Values {
            data: value_of(&registers.d, n),
            address: 0,
        },
        Changed::Address(n) => Values {
            data: 0,
            address: value_of(&registers.a, n),
        },
        Changed::Both { data, address } => Values {
            data: value_of(&registers.d, data),
            address: value_of(&registers.a, address),
        },
        Changed::Nothing | Changed::Any => Values {
            data: 0,
            address: 0,
        },
    }
}

/// An instruction has changed none but these, which had these values before.
#[inline(always)]
pub(crate) fn follow<F: Follower>(changed: Changed, before: Values, now: &Plain, follower: &mut F)
    requires within { IsWithin changed }
    ensures { (p : Plain) → Differ changed p now.now → Remembers changed p before
        → Follows F.follows follower.old p → Follows F.follows follower.new now.now }
{
    match changed {
        Changed::Nothing => {}
        Changed::Data(n) => follower.data(n, before.data, now),
        Changed::Address(n) => follower.address(n, before.address, now),
        Changed::Both { data, address } => {
            follower.data(data, before.data, now);
            follower.address(address, before.address, now);
        }
        Changed::Any => follower.all(now),
    }
}
