//! Which numbers may stand in so many hexadecimal digits.

ghost use Rattle.std.specs.Prelude.{◌≡◌, ◌-◌, ◌<◌, ◌/◌, ◌^◌};
ghost use Rattle.mb_spelling.specs.Hex.{May};
ghost use Rattle.mb_spelling.specs.Admits.{may_of};

/// Which numbers may stand.
pub trait Admits {
    ghost numbers: { Self → May };

    /// Whether one of them has the digits of `value` and then so many more.
    fn may(&self, more: u32, value: u128) -> bool
        requires more { more < 32 }
        requires fits { value < 16 ^ (32 - more) }
        ensures { result ≡ numbers self.now more value };
}

/// Sets of numbers that registers can hold.
#[derive(Clone, Copy, PartialEq, Eq)]
pub enum Numbers {
    Any,
    /// Those above 0.
    NotZero,
    /// Those that have no other bits than these.
    Masked(u32),
    /// Those from the first to the second.
    Within(u128, u128),
    /// One of two.
    OneOf(u32, u32),
}

/// A number without its last digits, so many.
#[tactic(auto, using(crate::proofs::NumberSteps::shifted))]
fn front(number: u128, last: u32) -> u128
    requires { last < 32 }
    ensures { result ≡ number / 16 ^ last }
{
    number >> (4 * last)
}

impl Admits for Numbers {
    ghost numbers = { may_of };

    fn may(&self, more: u32, value: u128) -> bool {
        match *self {
            Numbers::Any => true,
            Numbers::NotZero => more > 0 || value > 0,
            Numbers::Masked(mask) => value & front(u128::from(mask), more) == value,
            Numbers::Within(least, most) => {
                front(least, more) <= value && value <= front(most, more)
            }
            Numbers::OneOf(one, other) => {
                front(u128::from(one), more) == value || front(u128::from(other), more) == value
            }
        }
    }
}
