//! Which one of a row's forms an instruction has, and the bits of the first word that say so.

ghost use Rattle.std.specs.Prelude.{◌≡◌, ◌<◌};
ghost use Rattle.mb_instr.specs.Kinds.{bit_bits, bit_kind, shift_bits, shift_kind, field_bits, field_kind};
ghost use Rattle.mb_instr.specs.Kinds.{line_bits, line_kind, caches_bits, caches_kind, flush_bits, flush_kind};
ghost use Rattle.mb_instr.specs.Kinds.{scope_bits, scope_kind, condition_bits, condition_of, even_condition, odd_condition};
ghost use Rattle.mb_instr.specs.Kinds.{bit_class, bit_class_immediate, field_class, field_rule, side};

use crate::operand::OperandClass;
use crate::rule::WordRule;

/// What BTST, BCHG, BCLR and BSET do to the bit.
#[derive(Clone, Copy, Debug)]
pub enum BitKind {
    Test,
    Change,
    Clear,
    Set,
}

impl BitKind {
    /// The kind that a field of two bits says.
    #[inline(always)]
    pub fn of(field: u8) -> BitKind
        ensures { result ≡ bit_kind field }
    {
        match field {
            0 => BitKind::Test,
            1 => BitKind::Change,
            2 => BitKind::Clear,
            _ => BitKind::Set,
        }
    }

    /// The field that says it.
    #[inline(always)]
    pub fn bits(self) -> u8
        ensures value { result ≡ bit_bits self }
        ensures small { result < 4 }
    {
        match self {
            BitKind::Test => 0,
            BitKind::Change => 1,
            BitKind::Clear => 2,
            BitKind::Set => 3,
        }
    }
}

/// What enters an operand that is shifted.
#[derive(Clone, Copy, Debug)]
pub enum ShiftKind {
    /// 0 to the left, the sign to the right.
    Arithmetic,
    /// 0.
    Logical,
    /// X, which takes the bit that leaves.
    RotateExtended,
    /// The bit that leaves.
    Rotate,
}

impl ShiftKind {
    /// The kind that a field of two bits says.
    #[inline(always)]
    pub fn of(field: u8) -> ShiftKind
        ensures { result ≡ shift_kind field }
    {
        match field {
            0 => ShiftKind::Arithmetic,
            1 => ShiftKind::Logical,
            2 => ShiftKind::RotateExtended,
            _ => ShiftKind::Rotate,
        }
    }

    /// The field that says it.
    #[inline(always)]
    pub fn bits(self) -> u8
        ensures value { result ≡ shift_bits self }
        ensures small { result < 4 }
    {
        match self {
            ShiftKind::Arithmetic => 0,
            ShiftKind::Logical => 1,
            ShiftKind::RotateExtended => 2,
            ShiftKind::Rotate => 3,
        }
    }
}

/// What a bit field instruction does.
#[derive(Clone, Copy, Debug)]
pub enum FieldKind {
    Test,
    ExtractUnsigned,
    Change,
    ExtractSigned,
    Clear,
    FindFirst,
    Set,
    Insert,
}

impl FieldKind {
    /// The kind that a field of three bits says.
    #[inline(always)]
    pub fn of(field: u8) -> FieldKind
        ensures { result ≡ field_kind field }
    {
        match field {
            0 => FieldKind::Test,
            1 => FieldKind::ExtractUnsigned,
            2 => FieldKind::Change,
            3 => FieldKind::ExtractSigned,
            4 => FieldKind::Clear,
            5 => FieldKind::FindFirst,
            6 => FieldKind::Set,
            _ => FieldKind::Insert,
        }
    }

    /// The field that says it.
    #[inline(always)]
    pub fn bits(self) -> u8
        ensures value { result ≡ field_bits self }
        ensures small { result < 8 }
    {
        match self {
            FieldKind::Test => 0,
            FieldKind::ExtractUnsigned => 1,
            FieldKind::Change => 2,
            FieldKind::ExtractSigned => 3,
            FieldKind::Clear => 4,
            FieldKind::FindFirst => 5,
            FieldKind::Set => 6,
            FieldKind::Insert => 7,
        }
    }
}

/// Between what MOVE16 with an absolute address moves a line.
#[derive(Clone, Copy, Debug)]
pub enum LineMove {
    /// From `(An)+`.
    PostToAbsolute,
    /// To `(An)+`.
    AbsoluteToPost,
    /// From `(An)`.
    IndirectToAbsolute,
    /// To `(An)`.
    AbsoluteToIndirect,
}

impl LineMove {
    /// The kind that a field of two bits says.
    #[inline(always)]
    pub fn of(field: u8) -> LineMove
        ensures { result ≡ line_kind field }
    {
        match field {
            0 => LineMove::PostToAbsolute,
            1 => LineMove::AbsoluteToPost,
            2 => LineMove::IndirectToAbsolute,
            _ => LineMove::AbsoluteToIndirect,
        }
    }

    /// The field that says it.
    #[inline(always)]
    pub fn bits(self) -> u8
        ensures value { result ≡ line_bits self }
        ensures small { result < 4 }
    {
        match self {
            LineMove::PostToAbsolute => 0,
            LineMove::AbsoluteToPost => 1,
            LineMove::IndirectToAbsolute => 2,
            LineMove::AbsoluteToIndirect => 3,
        }
    }
}

/// Which caches CINV and CPUSH name.
#[derive(Clone, Copy, Debug)]
pub enum Caches {
    Neither,
    Data,
    Instruction,
    Both,
}

impl Caches {
    /// The kind that a field of two bits says.
    #[inline(always)]
    pub fn of(field: u8) -> Caches
        ensures { result ≡ caches_kind field }
    {
        match field {
            0 => Caches::Neither,
            1 => Caches::Data,
            2 => Caches::Instruction,
            _ => Caches::Both,
        }
    }

    /// The field that says it.
    #[inline(always)]
    pub fn bits(self) -> u8
        ensures value { result ≡ caches_bits self }
        ensures small { result < 4 }
    {
        match self {
            Caches::Neither => 0,
            Caches::Data => 1,
            Caches::Instruction => 2,
            Caches::Both => 3,
        }
    }
}

/// Which kept translations PFLUSH drops.
#[derive(Clone, Copy, Debug)]
pub enum FlushKind {
    /// Those of a page that are not global.
    LocalPage,
    /// Those of a page.
    Page,
    /// All that are not global.
    AllLocal,
    All,
}

impl FlushKind {
    /// The kind that a field of two bits says.
    #[inline(always)]
    pub fn of(field: u8) -> FlushKind
        ensures { result ≡ flush_kind field }
    {
        match field {
            0 => FlushKind::LocalPage,
            1 => FlushKind::Page,
            2 => FlushKind::AllLocal,
            _ => FlushKind::All,
        }
    }

    /// The field that says it.
    #[inline(always)]
    pub fn bits(self) -> u8
        ensures value { result ≡ flush_bits self }
        ensures small { result < 4 }
    {
        match self {
            FlushKind::LocalPage => 0,
            FlushKind::Page => 1,
            FlushKind::AllLocal => 2,
            FlushKind::All => 3,
        }
    }
}

/// How much of the caches CINV and CPUSH name.
#[derive(Clone, Copy, Debug)]
pub enum CacheScope {
    Line,
    Page,
    All,
}

impl CacheScope {
    /// The scope that a field of two bits says; 0 says none.
    #[inline(always)]
    pub fn of(field: u8) -> Option<CacheScope>
        ensures { result ≡ scope_kind field }
    {
        match field {
            1 => Some(CacheScope::Line),
            2 => Some(CacheScope::Page),
            3 => Some(CacheScope::All),
            _ => None,
        }
    }

    /// The field that says it.
    #[inline(always)]
    pub fn bits(self) -> u8
        ensures value { result ≡ scope_bits self }
        ensures small { result < 4 }
    {
        match self {
            CacheScope::Line => 1,
            CacheScope::Page => 2,
            CacheScope::All => 3,
        }
    }
}

/// What Scc, DBcc, TRAPcc and Bcc ask of the condition codes.
#[derive(Clone, Copy, Debug)]
pub enum Condition {
    True,
    False,
    High,
    LowOrSame,
    CarryClear,
    CarrySet,
    NotEqual,
    Equal,
    OverflowClear,
    OverflowSet,
    Plus,
    Minus,
    GreaterOrEqual,
    LessThan,
    GreaterThan,
    LessOrEqual,
}

impl Condition {
    fn even(upper: u8) -> Condition
        ensures { result ≡ even_condition upper }
    {
        match upper {
            0 => Condition::True,
            1 => Condition::High,
            2 => Condition::CarryClear,
            3 => Condition::NotEqual,
            4 => Condition::OverflowClear,
            5 => Condition::Plus,
            6 => Condition::GreaterOrEqual,
            _ => Condition::GreaterThan,
        }
    }

    fn odd(upper: u8) -> Condition
        ensures { result ≡ odd_condition upper }
    {
        match upper {
            0 => Condition::False,
            1 => Condition::LowOrSame,
            2 => Condition::CarrySet,
            3 => Condition::Equal,
            4 => Condition::OverflowSet,
            5 => Condition::Minus,
            6 => Condition::LessThan,
            _ => Condition::LessOrEqual,
        }
    }

    /// The condition that the upper three bits of its number and the last one say.
    #[inline(always)]
    pub fn of(upper: u8, bit: u8) -> Condition
        ensures { result ≡ condition_of upper bit }
    {
        if bit == 0 {
            Condition::even(upper)
        } else {
            Condition::odd(upper)
        }
    }

    /// Its number.
    #[inline(always)]
    pub fn bits(self) -> u8
        ensures value { result ≡ condition_bits self }
        ensures small { result < 16 }
    {
        match self {
            Condition::True => 0,
            Condition::False => 1,
            Condition::High => 2,
            Condition::LowOrSame => 3,
            Condition::CarryClear => 4,
            Condition::CarrySet => 5,
            Condition::NotEqual => 6,
            Condition::Equal => 7,
            Condition::OverflowClear => 8,
            Condition::OverflowSet => 9,
            Condition::Plus => 10,
            Condition::Minus => 11,
            Condition::GreaterOrEqual => 12,
            Condition::LessThan => 13,
            Condition::GreaterThan => 14,
            Condition::LessOrEqual => 15,
        }
    }
}

/// Which registers EXG exchanges.
#[derive(Clone, Copy, Debug)]
pub enum Exchange {
    /// Two data registers.
    Data,
    /// Two address registers.
    Address,
    /// The data register x and the address register y.
    DataAddress,
}

/// How far a branch goes, as it is spelled: in its first word, in one more word, or in two.
#[derive(Clone, Copy, Debug)]
pub enum Branch {
    /// Neither 0 nor $FF.
    Byte(u8),
    Word(u16),
    Long(u32),
}

/// What stands behind TRAPcc, for the handler alone.
#[derive(Clone, Copy, Debug)]
pub enum TrapOperand {
    Word(u16),
    Long(u32),
    Nothing,
}

impl BitKind {
    /// What the row with the number in a register takes: BTST reads its operand, the others change it.
    #[inline(always)]
    pub fn class(self) -> OperandClass
        ensures { result ≡ bit_class self }
    {
        match self {
            BitKind::Test => OperandClass::Data,
            BitKind::Change | BitKind::Clear | BitKind::Set => OperandClass::DataAlterable,
        }
    }

    /// What the row with the number in a word takes.
    #[inline(always)]
    pub fn class_immediate(self) -> OperandClass
        ensures { result ≡ bit_class_immediate self }
    {
        match self {
            BitKind::Test => OperandClass::DataAlterableOrPc,
            BitKind::Change | BitKind::Clear | BitKind::Set => OperandClass::DataAlterable,
        }
    }
}

impl FieldKind {
    /// What the row takes.
    #[inline(always)]
    pub fn class(self) -> OperandClass
        ensures { result ≡ field_class self }
    {
        match self {
            FieldKind::Test
            | FieldKind::ExtractUnsigned
            | FieldKind::ExtractSigned
            | FieldKind::FindFirst => { OperandClass::FieldSource }
            FieldKind::Change | FieldKind::Clear | FieldKind::Set | FieldKind::Insert => {
                OperandClass::FieldTarget
            }
        }
    }

    /// Which words the row has.
    #[inline(always)]
    pub fn rule(self) -> WordRule
        ensures { result ≡ field_rule self }
    {
        match self {
            FieldKind::Test | FieldKind::Change | FieldKind::Clear | FieldKind::Set =>
                WordRule::FieldAlone,
            FieldKind::ExtractUnsigned
            | FieldKind::ExtractSigned
            | FieldKind::FindFirst
            | FieldKind::Insert => { WordRule::Field }
        }
    }
}

impl OperandClass {
    /// What ADD, SUB, AND and OR take: the source's class, or memory that they change.
    #[inline(always)]
    pub fn side(self, to_memory: bool) -> OperandClass
        ensures { result ≡ side self to_memory }
    {
        if to_memory {
            OperandClass::MemoryAlterable
        } else {
            self
        }
    }
}
