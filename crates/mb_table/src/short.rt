//! Instructions in short.

ghost use Rattle.std.specs.Prelude.{◌≡◌};
ghost use Rattle.mb_table.specs.Short.{is_brief, is_pair};

use crate::forms::{Change, Place, Putting, Register, Taking, Update};
use mb_instr::{Condition, Size, WordRule};

/// What a first word says by itself, in six bytes: which instruction it is, or which one it is with each second word,
/// with each of a kind (a brief extension word, or the registers of a product or a quotient), or with each second and
/// third.
///
/// What is carried out most often has a form of its own, which says all but the numbers in it; the other forms have
/// parts that say the operand and what becomes of it.
#[derive(Clone, Copy)]
pub enum Short {
    /// It did not come yet.
    Unknown,
    /// It has no short form.
    Other,
    /// `MOVEQ`.
    MoveQuick {
        register: u8,
        immediate: u8,
    },
    /// `LSR.L #count,Dn`.
    ShiftRightLong {
        register: u8,
        count: u8,
    },
    /// `ADDQ.L #quick,Dn`.
    AddQuickLong {
        register: u8,
        quick: u8,
    },
    /// `SUBQ.L #quick,Dn`.
    SubtractQuickLong {
        register: u8,
        quick: u8,
    },
    /// `TST.L Dn`.
    TestLong {
        register: u8,
    },
    /// `SWAP`.
    Swap {
        register: u8,
    },
    /// `EXT.L`.
    ExtendWord {
        register: u8,
    },
    /// `MOVE.L Dm,Dn`.
    CopyLong {
        register: u8,
        source: u8,
    },
    /// `ADD.L Dm,Dn`.
    AddLong {
        register: u8,
        source: u8,
    },
    /// `SUB.L Dm,Dn`.
    SubtractLong {
        register: u8,
        source: u8,
    },
    /// `AND.L Dm,Dn`.
    AndLong {
        register: u8,
        source: u8,
    },
    /// `OR.L Dm,Dn`.
    OrLong {
        register: u8,
        source: u8,
    },
    /// `EOR.L Dm,Dn`.
    ExclusiveOrLong {
        register: u8,
        source: u8,
    },
    /// `CMP.L Dm,Dn`.
    CompareLong {
        register: u8,
        source: u8,
    },
    /// `MULU.W Dm,Dn`.
    MultiplyUnsigned {
        register: u8,
        source: u8,
    },
    /// `MULS.W Dm,Dn`.
    MultiplySigned {
        register: u8,
        source: u8,
    },
    /// `ADDQ #quick,An`.
    RaiseAddress {
        size: Size,
        register: u8,
        quick: u8,
    },
    /// `SUBQ #quick,An`.
    LowerAddress {
        size: Size,
        register: u8,
        quick: u8,
    },
    /// `MOVE.L (d16,An),Dn`; the second word is the displacement.
    LoadLong {
        register: u8,
        base: u8,
    },
    /// `MOVE.L Dn,(d16,An)`; the second word is the displacement.
    StoreLong {
        register: u8,
        base: u8,
    },
    /// `MOVE.L (An)+,Dn`.
    LoadLongUp {
        register: u8,
        base: u8,
    },
    /// `MOVE.L Dn,(An)+`.
    StoreLongUp {
        register: u8,
        base: u8,
    },
    /// `Bcc.B`, with `BRA.B` for the condition T.
    Branch {
        condition: Condition,
        displacement: u8,
    },
    /// `Bcc.W`; the second word is the displacement.
    BranchFar {
        condition: Condition,
    },
    /// `DBcc`; the second word is the displacement.
    Loop {
        condition: Condition,
        register: u8,
    },
    /// An operand in a register is read.
    TakeRegister {
        taking: Taking,
        size: Size,
        register: Register,
    },
    /// An operand in memory is read.
    TakeMemory {
        taking: Taking,
        size: Size,
        place: Place,
    },
    /// An operand `(d16,An)` is read; the second word is the displacement.
    TakeNear {
        taking: Taking,
        size: Size,
        base: u8,
    },
    /// An operand `(d8,An,Xn)` is read; the second word is its brief extension word.
    TakeIndexed {
        taking: Taking,
        size: Size,
        base: u8,
    },
    /// An immediate is read: a byte or a word is the second word, and a long the second and the third.
    TakeImmediate {
        taking: Taking,
        size: Size,
    },
    /// An operand at an absolute address is read, which the second word and the third are.
    TakeAbsolute {
        taking: Taking,
        size: Size,
    },
    /// An operand in memory is written.
    PutMemory {
        putting: Putting,
        size: Size,
        place: Place,
    },
    /// An operand `(d16,An)` is written; the second word is the displacement.
    PutNear {
        putting: Putting,
        size: Size,
        base: u8,
    },
    /// An operand `(d8,An,Xn)` is written; the second word is its brief extension word.
    PutIndexed {
        putting: Putting,
        size: Size,
        base: u8,
    },
    /// An operand at an absolute address is written, which the second word and the third are.
    PutAbsolute {
        putting: Putting,
        size: Size,
    },
    /// An operand in memory is read, changed and written back.
    UpdateMemory {
        update: Update,
        size: Size,
        place: Place,
    },
    /// An operand `(d16,An)` is read, changed and written back; the second word is the displacement.
    UpdateNear {
        update: Update,
        size: Size,
        base: u8,
    },
    /// An operand `(d16,An)` is moved to one in memory; the second word is the displacement.
    CopyNear {
        size: Size,
        base: u8,
        place: Place,
    },
    /// An operand `(An)` is moved to one `(d16,An)`; the second word is the displacement.
    CopyToNear {
        size: Size,
        source: u8,
        base: u8,
    },
    /// `DIVU`, `DIVS`, `DIVUL` and `DIVSL` of longs by a data register; the second word names the other registers.
    DivideLong {
        source: u8,
    },
    /// `MULU` and `MULS` of longs by a data register; the second word names the other registers.
    MultiplyLong {
        source: u8,
    },
    /// `BTST #number,Dn`; the second word is the number.
    TestBit {
        register: u8,
    },
    /// A data register changes.
    Change {
        change: Change,
        size: Size,
        register: u8,
    },
    /// `EXG Dm,Dn`.
    ExchangeData {
        register: u8,
        other: u8,
    },
    /// `LEA (d16,An),Am`; the second word is the displacement.
    AddressNear {
        register: u8,
        base: u8,
    },
    /// `LEA (d8,An,Xn),Am`; the second word is its brief extension word.
    AddressIndexed {
        register: u8,
        base: u8,
    },
    /// `LEA (d16,PC),An`; the second word is the displacement.
    AddressFromCounter {
        register: u8,
    },
    /// `LEA` of an absolute address, which the second word and the third are.
    AddressAbsolute {
        register: u8,
    },
    /// `RTS`.
    Return,
    /// `BSR.B`.
    Call {
        displacement: u8,
    },
    /// `BSR.W`; the second word is the displacement.
    CallFar,
    /// `LINK.W`; the second word is the displacement.
    Link {
        register: u8,
    },
    /// `UNLK`.
    Unlink {
        register: u8,
    },
}

/// Whether an extension word is brief.
#[inline(always)]
pub fn is_brief(word: u16) -> bool
    ensures { result ≡ is_brief word }
{
    word >> 8 & 1 == 0
}

/// Whether a word names the registers of a product or a quotient of longs: it is `0lll sw00 0000 0hhh`.
#[inline(always)]
pub fn is_pair(word: u16) -> bool
    ensures { result ≡ is_pair word }
{
    WordRule::LongPair.allows(word)
}
