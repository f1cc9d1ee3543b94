//! Which decimal numbers may stand.

ghost use Rattle.std.specs.Prelude.{◌≡◌, ◌<◌, ◌≤◌, ◌^◌, true};

/// The numbers from the least to the most that are multiples of the unit.
#[derive(Clone, Copy, PartialEq, Eq)]
pub struct Numerals {
    pub least: u64,
    pub most: u64,
    /// At least 1.
    pub unit: u64,
}

impl Numerals {
    ghost use Rattle.mb_spelling.specs.Decimals.{is_in as inside, meets as met, goes_on as going, begins as begun, follows as following, starts as starting, is_decimal};
    ghost use Rattle.mb_spelling.specs.Admits.{range_of};

    /// The numbers from the least to the most.
    pub fn from_to(least: u64, most: u64) -> Numerals
        ensures { result ≡ record { least = least; most = most; unit = 1 } }
    {
        Numerals {
            least,
            most,
            unit: 1,
        }
    }

    /// Whether a number is one of them.
    pub(crate) fn is_in(&self, n: u128) -> bool
        requires { 0 < self.now.unit }
        ensures { result ≡ inside (range_of self.now) n }
    {
        u128::from(self.least) <= n && n <= u128::from(self.most) && n % u128::from(self.unit) == 0
    }

    /// Whether one of them lies from `n` on, below `n + size`.
    fn meets(&self, n: u128, size: u128) -> bool
        requires some { 0 < self.now.unit }
        requires small { (n < 2 ^ 65) × (size < 2 ^ 65) }
        ensures { result ≡ met (range_of self.now) n size }
    {
        let unit = u128::from(self.unit);
        let from = n.max(u128::from(self.least));
        let first = (from + (unit - 1)) / unit * unit;
        first <= u128::from(self.most) && first < n + size
    }

    /// Whether one of them is written with the digits of `n / size` and up to so many more.
    #[tactic(auto, using(crate::proofs::Pasts::past))]
    fn goes_on(&self, more: u32, n: u128, size: u128) -> bool
        requires some { 0 < self.now.unit }
        requires small { (n < 2 ^ 70) × (size ≤ n) }
        ensures { result ≡ going (range_of self.now) more n size }
    {
        if n > u128::from(self.most) {
            return false;
        }
        if self.meets(n, size) {
            return true;
        }
        more > 0 && self.goes_on(more - 1, 10 * n, 10 * size)
    }

    /// Whether one of them is written with the digits of `value` first.
    #[tactic(auto, unfolding(crate::specs::Decimals::begins))]
    pub(crate) fn begins(&self, value: u128) -> bool
        requires some { 0 < self.now.unit }
        requires small { value < 2 ^ 70 }
        ensures { result ≡ begun (range_of self.now) value }
    {
        if value == 0 {
            return self.is_in(0);
        }
        self.goes_on(20, value, 1)
    }

    /// A digit behind the digits of `value` with which one of them goes on.
    #[tactic(auto, using(crate::proofs::DigitSteps::begins_small))]
    pub(crate) fn follows(&self, value: u128, character: u8) -> bool
        requires some { 0 < self.now.unit }
        requires begun { begun (range_of self.now) value ≡ true }
        ensures { result ≡ following (begun (range_of self.now)) value character }
    {
        character.is_ascii_digit()
            && value > 0
            && self.begins(10 * value + u128::from(character - b'0'))
    }

    /// A digit with which one of them begins.
    pub(crate) fn starts(&self, character: u8) -> bool
        requires { 0 < self.now.unit }
        ensures { result ≡ starting (begun (range_of self.now)) character }
    {
        character.is_ascii_digit() && self.begins(u128::from(character - b'0'))
    }
}
