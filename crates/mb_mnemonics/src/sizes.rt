//! The sizes that an operation's name may have.

ghost use Rattle.std.specs.Prelude.{◌≡◌};
ghost use Rattle.mb_mnemonics.specs.Sizes.{letter_size, size_in, field_bits, size_bits_by};

use mb_instr::Size;
use mb_syntax::SizeLetter;

/// Where the first word says the size.
#[derive(Clone, Copy)]
pub enum SizeField {
    /// Bits 7 and 6: 0 is a byte, 1 a word, 2 a long.
    Usual,
    /// Bit 8: 0 is a word, 1 a long.
    Bit8,
    /// Bit 6, likewise.
    Bit6,
    /// Bits 13 and 12: 1 is a byte, 3 a word, 2 a long.
    OfMove,
    /// Bits 10 and 9: 1 is a byte, 2 a word, 3 a long.
    OfCas,
    /// Bits 10 and 9: 0 is a byte, 1 a word, 2 a long.
    OfBounds,
    /// Bit 7: 1 is a word, 0 a long.
    OfChk,
}

/// The sizes that an operation's name may have. One that may be left out is listed where there are others.
#[derive(Clone, Copy)]
pub enum Sizes {
    /// No size may be written.
    Unsized,
    /// This one, which may be left out.
    Only(Size),
    /// This one, which may be left out, and is listed.
    Written(Size),
    /// This one, which must stand.
    Stated(Size),
    /// `.B` or `.S`, one of which must stand.
    Short,
    /// `.W` or `.L`; a word where none is written.
    WordLong(SizeField),
    /// `.B`, `.W` or `.L`; a word where none is written.
    Any(SizeField),
}

/// The size that a letter says; `.S` says none.
fn letter_size(letter: SizeLetter) -> Option<Size>
    ensures { result ≡ letter_size letter }
{
    match letter {
        SizeLetter::Byte => Some(Size::Byte),
        SizeLetter::Short => None,
        SizeLetter::Word => Some(Size::Word),
        SizeLetter::Long => Some(Size::Long),
    }
}

impl Sizes {
    /// The size of an operation whose name has this letter, or none.
    pub(crate) fn size(self, letter: Option<SizeLetter>) -> Option<Size>
        ensures { result ≡ size_in self letter }
    {
        match (self, letter) {
            (Sizes::Unsized, None) => Some(Size::Long),
            (Sizes::Unsized, Some(_)) => None,
            (Sizes::Only(size) | Sizes::Written(size), None) => Some(size),
            (Sizes::Only(size) | Sizes::Written(size) | Sizes::Stated(size), Some(letter)) =>
                match (size, letter) {
                    (Size::Byte, SizeLetter::Byte) => Some(Size::Byte),
                    (Size::Word, SizeLetter::Word) => Some(Size::Word),
                    (Size::Long, SizeLetter::Long) => Some(Size::Long),
                    _ => None,
                },
            (Sizes::Short, Some(SizeLetter::Byte | SizeLetter::Short)) => Some(Size::Byte),
            (Sizes::Stated(_), None) | (Sizes::Short, _) => None,
            (Sizes::WordLong(_) | Sizes::Any(_), None) => Some(Size::Word),
            (Sizes::WordLong(_), Some(SizeLetter::Byte)) => None,
            (Sizes::WordLong(_) | Sizes::Any(_), Some(letter)) => letter_size(letter),
        }
    }

    /// The bits of the first word that say the size.
    pub(crate) fn bits(self, size: Size) -> u16
        ensures { result ≡ size_bits_by self size }
    {
        match self {
            Sizes::WordLong(field) | Sizes::Any(field) => field.bits(size),
            Sizes::Unsized | Sizes::Only(_) | Sizes::Written(_) | Sizes::Stated(_) | Sizes::Short =>
                0,
        }
    }
}

impl SizeField {
    fn bits(self, size: Size) -> u16
        ensures { result ≡ field_bits self size }
    {
        let usual = u16::from(size.bits());
        match self {
            SizeField::Usual => usual * 64,
            SizeField::Bit8 => u16::from(size.long_bit()) * 256,
            SizeField::Bit6 => u16::from(size.long_bit()) * 64,
            SizeField::OfMove => u16::from(size.move_bits()) * 0x1000,
            SizeField::OfCas => (usual + 1) * 512,
            SizeField::OfBounds => usual * 512,
            SizeField::OfChk => u16::from(size.chk_bits()) * 64,
        }
    }
}
