//! Which registers an instruction in short may change.

ghost use Rattle.std.specs.Prelude.{◌≡◌};
ghost use Rattle.mb_short.specs.Changed.{changed_of, taken_in, with_address, with_step};

use mb_table::{Place, Short, Taking};

/// What an instruction in short may change of D0 to D7 and A0 to A7.
#[derive(Clone, Copy)]
pub(crate) enum Changed {
    Nothing,
    /// This data register alone.
    Data(u8),
    /// This address register alone.
    Address(u8),
    /// These two.
    Both { data: u8, address: u8 },
    /// Any of them.
    Any,
}

impl Changed {
    /// What may change where an address register changes too.
    #[inline(always)]
    fn with_address(self, register: u8) -> Changed
        ensures { result ≡ with_address register self }
    {
        match self {
            Changed::Nothing => Changed::Address(register),
            Changed::Data(data) => Changed::Both {
                data,
                address: register,
            },
            Changed::Address(_) | Changed::Both { .. } | Changed::Any => Changed::Any,
        }
    }

    /// What may change where the address register of an operand steps too.
    #[inline(always)]
    fn with_step(self, place: Place) -> Changed
        ensures { result ≡ with_step place self }
    {
        match place {
            Place::At(_) => self,
            Place::Up(n) | Place::Down(n) => self.with_address(n),
        }
    }
}

/// What an operand that is taken may change.
#[inline(always)]
fn taken_in(taking: Taking) -> Changed
    ensures { result ≡ taken_in taking }
{
    match taking {
        Taking::Move(n)
        | Taking::Add(n)
        | Taking::Subtract(n)
        | Taking::And(n)
        | Taking::Or(n)
        | Taking::Compare(n) => Changed::Data(n),
        Taking::CompareAddress(_) | Taking::Test => Changed::Nothing,
        Taking::MoveAddress(n) | Taking::AddAddress(n) | Taking::SubtractAddress(n) =>
            Changed::Address(n),
    }
}

/// What the instruction of a short form that comes less often may change.
#[inline(always)]
pub(crate) fn changed_by(short: &Short) -> Changed
    ensures { result ≡ changed_of short.now }
{
    match *short {
        Short::Change { register, .. } => Changed::Data(register),
        Short::AddressNear { register, .. }
        | Short::AddressIndexed { register, .. }
        | Short::AddressFromCounter { register }
        | Short::AddressAbsolute { register } => Changed::Address(register),
        Short::Return | Short::Call { .. } | Short::CallFar => Changed::Address(7),
        Short::PutNear { .. }
        | Short::PutIndexed { .. }
        | Short::PutAbsolute { .. }
        | Short::UpdateNear { .. }
        | Short::CopyToNear { .. }
        | Short::TestBit { .. } => Changed::Nothing,
        Short::TakeRegister { taking, .. }
        | Short::TakeNear { taking, .. }
        | Short::TakeIndexed { taking, .. }
        | Short::TakeImmediate { taking, .. }
        | Short::TakeAbsolute { taking, .. } => taken_in(taking),
        Short::TakeMemory { taking, place, .. } => taken_in(taking).with_step(place),
        Short::PutMemory { place, .. }
        | Short::UpdateMemory { place, .. }
        | Short::CopyNear { place, .. } => Changed::Nothing.with_step(place),
        _ => Changed::Any,
    }
}
