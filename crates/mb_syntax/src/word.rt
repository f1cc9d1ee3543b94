//! Words.

ghost use Rattle.std.specs.Prelude.{◌≡◌};

use crate::register::Register;
use crate::statement::SizeLetter;
use mb_instr::Caches;

/// A name, or a text with its quotation marks, by where it stands in its line. Places count from 0, and
/// `end` is the place behind its last byte.
#[derive(Clone, Copy)]
pub struct Name {
    pub start: u32,
    pub end: u32,
}

impl Name {
    ghost use Rattle.mb_syntax.specs.Spans.{bytes_at};

    /// The bytes of the line that stand there.
    #[tactic(auto, using(crate::proofs::Spans::clamped))]
    pub fn bytes(self, line: &[u8]) -> &[u8]
        ensures { result.now ≡ bytes_at line.now self }
    {
        let end = line.len().min(self.end as usize);
        let start = end.min(self.start as usize);
        &line[start..end]
    }
}

/// What a token of a line says.
#[derive(Clone, Copy)]
pub enum Word {
    /// A name that is none of the following.
    Name(Name),
    /// A register's name.
    Register(Register, Name),
    /// `B`, `S`, `W` or `L`, which is also a symbol.
    Letter(SizeLetter, Name),
    /// `NC`, `DC`, `IC` or `BC`, which is also a symbol.
    Cache(Caches, Name),
    /// A number of at most 32 bits.
    Number(u32),
    /// A number wider than 32 bits.
    WideNumber,
    /// A text with its quotation marks.
    Text(Name),
    /// Spaces and tabs.
    Blank,
    /// `#`.
    Hash,
    /// `(`.
    Open,
    /// `)`.
    Close,
    /// `[`.
    OpenSquare,
    /// `]`.
    CloseSquare,
    /// `{`.
    OpenBrace,
    /// `}`.
    CloseBrace,
    /// `,`.
    Comma,
    /// `.`.
    Dot,
    /// `:`.
    Colon,
    /// `+`.
    Plus,
    /// `-`.
    Minus,
    /// `*`.
    Star,
    /// `/`.
    Slash,
}
