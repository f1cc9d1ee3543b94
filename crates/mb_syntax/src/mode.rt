//! Addressing modes.
//!
//! `E` is what stands for an expression: the expression itself, or its value.

/// `.W` or `.L` of an address, a displacement or an index.
#[derive(Clone, Copy)]
pub enum Width {
    Word,
    Long,
}

/// What an index is multiplied by.
#[derive(Clone, Copy)]
pub enum Scale {
    One,
    Two,
    Four,
    Eight,
}

/// `Xn.W*k` or `Xn.L*k`; the scale is one where it is left out.
#[derive(Clone, Copy)]
pub struct Index {
    /// Whether the register is an address register, A0 to A7.
    pub is_address: bool,
    /// 0 to 7.
    pub register: u8,
    /// `ZDn` or `ZAn`: the index counts as 0.
    pub is_dropped: bool,
    /// A word where ZDn or ZAn has no width.
    pub width: Width,
    pub scale: Scale,
}

/// The base of a full form.
#[derive(Clone, Copy)]
pub enum Base {
    /// `An`.
    Address(u8),
    /// `PC`.
    Pc,
    /// `ZAn`: the base counts as 0.
    NoAddress(u8),
    /// `ZPC`: the base counts as 0, and the operand is in program space.
    NoPc,
}

/// A displacement of a full form, a long where it has no width of its own.
#[derive(Drop)]
pub struct Displacement<E> {
    pub value: E,
    pub width: Width,
}

/// Where a full form reads an address from memory.
#[derive(Clone, Copy)]
pub enum Indirection {
    /// Nowhere.
    Direct,
    /// Behind the index: `([bd,An,Xn],od)`.
    PreIndexed,
    /// Before the index: `([bd,An],Xn,od)`.
    PostIndexed,
}

/// `(bd,An,Xn)`, `([bd,An,Xn],od)` or `([bd,An],Xn,od)`. A register that is left out is a dropped one of number 0.
#[derive(Drop)]
pub struct FullForm<E> {
    /// Where the base is PC, the value is the target's address.
    pub displacement: Option<Displacement<E>>,
    pub base: Base,
    pub index: Index,
    pub indirection: Indirection,
    /// There is none where the form is direct.
    pub outer: Option<Displacement<E>>,
}

/// An addressing mode as it is written. Register numbers are 0 to 7.
#[derive(Drop)]
pub enum Mode<E> {
    /// `Dn`.
    Data(u8),
    /// `An`.
    Address(u8),
    /// `(An)`.
    Indirect(u8),
    /// `(An)+`.
    PostIncrement(u8),
    /// `-(An)`.
    PreDecrement(u8),
    /// `(e,An)`.
    Displaced {
        register: u8,
        displacement: E,
    },
    /// `(e,An,Xn)`.
    Indexed {
        register: u8,
        displacement: E,
        index: Index,
    },
    /// `e.W`, `e.L`, and `e`, which is a long.
    Absolute {
        address: E,
        width: Option<Width>,
    },
    /// `(e,PC)`; e is the target's address.
    PcDisplaced {
        target: E,
    },
    /// `(e,PC,Xn)`; e is the target's address.
    PcIndexed {
        target: E,
        index: Index,
    },
    /// What has brackets, a dropped register, or a base displacement with a width of its own.
    Full(FullForm<E>),
    /// `#e`.
    Immediate(E),
}
