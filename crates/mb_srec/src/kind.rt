//! The kinds of records.

ghost use Rattle.std.specs.Prelude.{◌≡◌};
ghost use Rattle.mb_srec.specs.Kinds.{address_len, kind_of, may_hold_data};

/// A kind of record, named by its letter and digit.
#[derive(Clone, Copy)]
pub(crate) enum Kind {
    /// A header, at a 16-bit address.
    S0,
    /// Data at a 16-bit address.
    S1,
    /// Data at a 24-bit address.
    S2,
    /// Data at a 32-bit address.
    S3,
    /// A 16-bit count of the data records so far.
    S5,
    /// A 24-bit count of the data records so far.
    S6,
    /// The end, with a 32-bit address.
    S7,
    /// The end, with a 24-bit address.
    S8,
    /// The end, with a 16-bit address.
    S9,
}

impl Kind {
    pub(crate) fn of_digit(digit: u8) -> Option<Kind>
        ensures { result ≡ kind_of digit }
    {
        match digit {
            b'0' => Some(Kind::S0),
            b'1' => Some(Kind::S1),
            b'2' => Some(Kind::S2),
            b'3' => Some(Kind::S3),
            b'5' => Some(Kind::S5),
            b'6' => Some(Kind::S6),
            b'7' => Some(Kind::S7),
            b'8' => Some(Kind::S8),
            b'9' => Some(Kind::S9),
            _ => None,
        }
    }

    /// How many bytes the address takes, or the count in its place.
    pub(crate) fn address_len(self) -> usize
        ensures { result ≡ address_len self }
    {
        match self {
            Kind::S0 | Kind::S1 | Kind::S5 | Kind::S9 => 2,
            Kind::S2 | Kind::S6 | Kind::S8 => 3,
            Kind::S3 | Kind::S7 => 4,
        }
    }

    pub(crate) fn may_hold_data(self) -> bool
        ensures { result ≡ may_hold_data self }
    {
        match self {
            Kind::S0 | Kind::S1 | Kind::S2 | Kind::S3 => true,
            Kind::S5 | Kind::S6 | Kind::S7 | Kind::S8 | Kind::S9 => false,
        }
    }
}
