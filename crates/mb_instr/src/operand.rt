//! Operands.

ghost use Rattle.std.specs.Prelude.{◌≡◌, ℕ, ◌≤◌, length};
ghost use Rattle.mb_instr.specs.Operands.{is_full, ext, wide, more, address_number};
ghost use Rattle.mb_instr.specs.Operands.{allows, is_control, is_control_alterable, has_size};

use crate::size::Size;

/// The extension words behind an indexed operand.
#[derive(Clone, Copy, Debug)]
pub enum Ext {
    /// `rnnn lkk0 dddddddd`.
    Brief(u16),
    /// `rnnn lkk1 BIbb 0iii`, the base displacement and the outer displacement; 0 where there is none.
    Full { word: u16, bd: u32, od: u32 },
}

/// An operand as an addressing mode names it. Register numbers are 0 to 7, displacements are as they
/// are spelled, without sign extension.
#[derive(Clone, Copy, Debug)]
pub enum Ea {
    /// `Dn`.
    Dn(u8),
    /// `An`.
    An(u8),
    /// `(An)`.
    Ind(u8),
    /// `(An)+`.
    Post(u8),
    /// `-(An)`.
    Pre(u8),
    /// `(d16,An)`.
    Disp(u8, u16),
    /// `(An)` with an index.
    Index(u8, Ext),
    /// An absolute word, sign-extended to an address when it is used.
    AbsW(u16),
    /// An absolute long.
    AbsL(u32),
    /// `(d16,PC)`.
    PcDisp(u16),
    /// PC with an index.
    PcIndex(Ext),
    /// An immediate. A byte immediate is kept as its whole word.
    Imm(u32),
}

impl Ext {
    /// How many words it has.
    #[inline(always)]
    fn words(self) -> u8
        ensures { result ≡ length (ext self) }
    {
        match self {
            Ext::Brief(_) => 1,
            Ext::Full { word, .. } => 1
                + displacement_words(word >> 4 & 3)
                + displacement_words(word & 3),
        }
    }
}

/// How many words a full extension word's displacement of this width has.
#[inline(always)]
fn displacement_words(width: u16) -> u8
    ensures value { (v : ℕ) → length (wide width v) ≡ result }
    ensures few { result ≤ 2 }
{
    match width {
        2 => 1,
        3 => 2,
        _ => 0,
    }
}

impl Ea {
    /// How many extension words the operand has at the size: at most five.
    #[inline(always)]
    pub fn words(&self, size: Size) -> u8
        ensures value { result ≡ length (more size self.now) }
        ensures few { result ≤ 5 }
    {
        match *self {
            Ea::Dn(_) | Ea::An(_) | Ea::Ind(_) | Ea::Post(_) | Ea::Pre(_) => 0,
            Ea::Disp(_, _) | Ea::AbsW(_) | Ea::PcDisp(_) => 1,
            Ea::AbsL(_) => 2,
            Ea::Index(_, ext) | Ea::PcIndex(ext) => ext.words(),
            Ea::Imm(_) => match size {
                Size::Byte | Size::Word => 1,
                Size::Long => 2,
            },
        }
    }

    /// The number of an address register.
    #[inline(always)]
    pub fn address_number(&self) -> Option<u8>
        ensures { result ≡ address_number self.now }
    {
        match *self {
            Ea::An(n) => Some(n),
            Ea::Dn(_)
            | Ea::Ind(_)
            | Ea::Post(_)
            | Ea::Pre(_)
            | Ea::Disp(_, _)
            | Ea::Index(_, _)
            | Ea::AbsW(_)
            | Ea::AbsL(_)
            | Ea::PcDisp(_)
            | Ea::PcIndex(_)
            | Ea::Imm(_) => None,
        }
    }
}

/// Which operands a row of the table takes.
#[derive(Clone, Copy)]
pub enum OperandClass {
    /// Every operand; `An` only as a word or a long.
    All,
    /// All but `An`.
    Data,
    /// What can be written; `An` only as a word or a long.
    Alterable,
    /// What can be written, without `An`.
    DataAlterable,
    /// The same, and the operands relative to the PC.
    DataAlterableOrPc,
    /// Memory that can be written.
    MemoryAlterable,
    /// Memory that has one address.
    Control,
    /// Memory that has one address and can be written.
    ControlAlterable,
    /// The same, and `-(An)`.
    StoreList,
    /// `Control`, and `(An)+`.
    LoadList,
    /// `Control`, and `Dn`.
    FieldSource,
    /// `ControlAlterable`, and `Dn`.
    FieldTarget,
}

/// Whether the table has the word as a full extension word.
pub fn is_full(word: u16) -> bool
    ensures { result ≡ is_full word }
{
    let indirect = word & 7;
    let known = if (word >> 6) & 1 == 0 {
        indirect != 4
    } else {
        indirect < 4
    };
    (word >> 3) & 1 == 0 && (word >> 4) & 3 != 0 && known
}

fn is_control(mode: u8, lower: u8) -> bool
    ensures { result ≡ is_control mode lower }
{
    mode == 2 || mode == 5 || mode == 6 || (mode == 7 && lower < 4)
}

fn is_control_alterable(mode: u8, lower: u8) -> bool
    ensures { result ≡ is_control_alterable mode lower }
{
    mode == 2 || mode == 5 || mode == 6 || (mode == 7 && lower < 2)
}

/// `An` has no bytes.
fn has_size(size: Size, mode: u8) -> bool
    ensures { result ≡ has_size size mode }
{
    mode != 1 || size != Size::Byte
}

impl OperandClass {
    /// Whether the class has the operand of this mode and register field at the size.
    pub fn allows(self, size: Size, mode: u8, lower: u8) -> bool
        ensures { result ≡ allows self size mode lower }
    {
        match self {
            OperandClass::All => (mode < 7 || lower < 5) && has_size(size, mode),
            OperandClass::Data => (mode < 7 || lower < 5) && mode != 1,
            OperandClass::Alterable => (mode < 7 || lower < 2) && has_size(size, mode),
            OperandClass::DataAlterable => (mode < 7 || lower < 2) && mode != 1,
            OperandClass::DataAlterableOrPc => (mode < 7 || lower < 4) && mode != 1,
            OperandClass::MemoryAlterable => (mode < 7 || lower < 2) && mode > 1,
            OperandClass::Control => is_control(mode, lower),
            OperandClass::ControlAlterable => is_control_alterable(mode, lower),
            OperandClass::StoreList => mode == 4 || is_control_alterable(mode, lower),
            OperandClass::LoadList => mode == 3 || is_control(mode, lower),
            OperandClass::FieldSource => mode == 0 || is_control(mode, lower),
            OperandClass::FieldTarget => mode == 0 || is_control_alterable(mode, lower),
        }
    }
}
