//! Memory, as searches and buses read and write it.

ghost use Rattle.std.specs.Prelude.{◌≡◌, ℕ, ◌+◌, ◌%◌, ◌<◌, ◌≤◌, ◌^◌, List, length};
ghost use Rattle.mb_port.specs.Pieces.{IsAligned};
ghost use Rattle.mb_walk.specs.Memory.{number_at, with_number, AreBytes};

use mb_port::Place;

/// Memory whose big-endian numbers of 1, 2 or 4 bytes are read and written at multiples of that, with whatever else the
/// value holds.
pub trait Ram {
    /// The bytes, from address 0 on.
    ghost bytes: { Self → List ℕ };

    /// All else, which no call changes.
    ghost Rest: { Type 0 };

    ghost rest: { Self → Rest };

    /// How many bytes there are.
    fn size(&self) -> u32
        ensures size { result ≡ length (bytes self.now) }
        ensures bytes { AreBytes (bytes self.now) };

    /// The number at a place.
    fn number(&self, place: Place) -> u32
        requires aligned { IsAligned place.at place.len }
        requires inside { place.at + place.len ≤ length (bytes self.now) }
        ensures value { result ≡ number_at (bytes self.now) place.at place.len }
        ensures range { result < 256 ^ place.len };

    /// Writes the low bytes of a number there.
    fn set_number(&mut self, place: Place, value: u32)
        requires aligned { IsAligned place.at place.len }
        requires inside { place.at + place.len ≤ length (bytes self.old) }
        ensures bytes { bytes self.new ≡ with_number (bytes self.old) place.at place.len value }
        ensures rest { rest self.new ≡ rest self.old };

    /// The long at an address, which is a multiple of 4.
    #[inline(always)]
    fn long(&self, at: u32) -> u32
        requires aligned { at % 4 ≡ 0 }
        requires inside { at + 4 ≤ length (bytes self.now) }
        ensures { result ≡ number_at (bytes self.now) at 4 }
    {
        self.number(Place { at, len: 4 })
    }

    /// Sets it.
    #[inline(always)]
    fn set_long(&mut self, at: u32, value: u32)
        requires aligned { at % 4 ≡ 0 }
        requires inside { at + 4 ≤ length (bytes self.old) }
        ensures bytes { bytes self.new ≡ with_number (bytes self.old) at 4 value }
        ensures rest { rest self.new ≡ rest self.old }
    {
        self.set_number(Place { at, len: 4 }, value);
    }
}
