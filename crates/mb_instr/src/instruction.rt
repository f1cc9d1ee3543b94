//! Instructions.

ghost use Rattle.std.specs.Prelude.{◌≡◌};
ghost use Rattle.mb_instr.specs.Families.{family_of, is_privileged};

use crate::kinds::{
    BitKind, Branch, CacheScope, Caches, Condition, Exchange, FieldKind, FlushKind, LineMove,
    ShiftKind, TrapOperand,
};
use crate::operand::Ea;
use crate::size::Size;

/// What moves values, addresses and conditions.
#[derive(Clone, Copy, Debug)]
pub enum Move {
    /// `EXG`.
    Exg {
        x: u8,
        kind: Exchange,
        y: u8,
    },
    /// `MOVE` from CCR.
    FromCcr {
        ea: Ea,
    },
    /// `LEA`.
    Lea {
        register: u8,
        ea: Ea,
    },
    /// `LINK` with a long displacement.
    LinkL {
        register: u8,
        displacement: u32,
    },
    /// `LINK` with a word displacement.
    LinkW {
        register: u8,
        displacement: u16,
    },
    /// `MOVE`.
    Move {
        size: Size,
        destination: Ea,
        source: Ea,
    },
    /// `MOVE16` with an absolute address.
    Move16Abs {
        kind: LineMove,
        register: u8,
        address: u32,
    },
    /// `MOVE16 (Ax)+,(Ay)+`; y stands in bits 14 to 12 of the word.
    Move16Post {
        x: u8,
        word: u16,
    },
    /// `MOVEA`; a word or a long.
    Movea {
        size: Size,
        register: u8,
        source: Ea,
    },
    /// `MOVEM` to registers; words or longs.
    MovemLoad {
        size: Size,
        ea: Ea,
        mask: u16,
    },
    /// `MOVEM` to memory; words or longs.
    MovemStore {
        size: Size,
        ea: Ea,
        mask: u16,
    },
    /// `MOVEP`; a word or a long.
    Movep {
        register: u8,
        is_store: bool,
        size: Size,
        address: u8,
        displacement: u16,
    },
    /// `MOVEQ`; the byte is sign-extended.
    Moveq {
        register: u8,
        immediate: u8,
    },
    /// `PEA`.
    Pea {
        ea: Ea,
    },
    /// `Scc`.
    Scc {
        condition: Condition,
        ea: Ea,
    },
    /// `SWAP`.
    Swap {
        register: u8,
    },
    /// `MOVE` to CCR.
    ToCcr {
        ea: Ea,
    },
    /// `UNLK`.
    Unlk {
        register: u8,
    },
}

/// What computes.
#[derive(Clone, Copy, Debug)]
pub enum Arith {
    /// `ABCD`; in memory both are `-(An)`. y is the source.
    Abcd {
        x: u8,
        in_memory: bool,
        y: u8,
    },
    /// `ADD`.
    Add {
        register: u8,
        to_memory: bool,
        size: Size,
        ea: Ea,
    },
    /// `ADDA`; a word or a long.
    Adda {
        register: u8,
        size: Size,
        ea: Ea,
    },
    /// `ADDI`.
    Addi {
        size: Size,
        ea: Ea,
        immediate: u32,
    },
    /// `ADDQ`; adds 1 to 8.
    Addq {
        quick: u8,
        size: Size,
        ea: Ea,
    },
    /// `ADDX`; in memory both are `-(An)`. y is the source.
    Addx {
        x: u8,
        size: Size,
        in_memory: bool,
        y: u8,
    },
    /// `AND`.
    And {
        register: u8,
        to_memory: bool,
        size: Size,
        ea: Ea,
    },
    /// `ANDI`.
    Andi {
        size: Size,
        ea: Ea,
        immediate: u32,
    },
    /// `ANDI` to CCR.
    AndiCcr {
        word: u16,
    },
    /// `BTST`, `BCHG`, `BCLR` and `BSET` with the bit's number in a word.
    BitImm {
        kind: BitKind,
        ea: Ea,
        word: u16,
    },
    /// The same with the bit's number in a data register.
    BitReg {
        register: u8,
        kind: BitKind,
        ea: Ea,
    },
    /// `CAS`; the word is `0000 000u uu00 0ccc`.
    Cas {
        size: Size,
        ea: Ea,
        word: u16,
    },
    /// `CAS2`; words or longs. Both words are `rnnn 000u uu00 0ccc`.
    Cas2 {
        size: Size,
        first: u16,
        second: u16,
    },
    /// `CLR`.
    Clr {
        size: Size,
        ea: Ea,
    },
    /// `CMP`.
    Cmp {
        register: u8,
        size: Size,
        ea: Ea,
    },
    /// `CMP2`; the word is `rnnn 0000 0000 0000`.
    Cmp2 {
        size: Size,
        ea: Ea,
        word: u16,
    },
    /// `CMPA`; a word or a long.
    Cmpa {
        register: u8,
        size: Size,
        ea: Ea,
    },
    /// `CMPI`.
    Cmpi {
        size: Size,
        ea: Ea,
        immediate: u32,
    },
    /// `CMPM (Ay)+,(Ax)+`.
    Cmpm {
        x: u8,
        size: Size,
        y: u8,
    },
    /// `DIVUL`, `DIVSL`, `DIVU` and `DIVS` of longs; the word is `0lll sw00 0000 0hhh`.
    DivL {
        ea: Ea,
        word: u16,
    },
    /// `DIVU` and `DIVS` by a word.
    DivW {
        register: u8,
        is_signed: bool,
        ea: Ea,
    },
    /// `EOR`.
    Eor {
        register: u8,
        size: Size,
        ea: Ea,
    },
    /// `EORI`.
    Eori {
        size: Size,
        ea: Ea,
        immediate: u32,
    },
    /// `EORI` to CCR.
    EoriCcr {
        word: u16,
    },
    /// `EXT` of a word to a long.
    ExtL {
        register: u8,
    },
    /// `EXT` of a byte to a word.
    ExtW {
        register: u8,
    },
    /// `EXTB` of a byte to a long.
    ExtbL {
        register: u8,
    },
    /// The instructions on bit fields; the word is `0nnn Oooo ooWw wwww`.
    Field {
        kind: FieldKind,
        ea: Ea,
        word: u16,
    },
    /// `MULU` and `MULS` of longs; the word is `0lll sw00 0000 0hhh`.
    MulL {
        ea: Ea,
        word: u16,
    },
    /// `MULU` and `MULS` of words.
    MulW {
        register: u8,
        is_signed: bool,
        ea: Ea,
    },
    /// `NBCD`.
    Nbcd {
        ea: Ea,
    },
    /// `NEG`.
    Neg {
        size: Size,
        ea: Ea,
    },
    /// `NEGX`.
    Negx {
        size: Size,
        ea: Ea,
    },
    /// `NOT`.
    Not {
        size: Size,
        ea: Ea,
    },
    /// `OR`.
    Or {
        register: u8,
        to_memory: bool,
        size: Size,
        ea: Ea,
    },
    /// `ORI`.
    Ori {
        size: Size,
        ea: Ea,
        immediate: u32,
    },
    /// `ORI` to CCR.
    OriCcr {
        word: u16,
    },
    /// `PACK`; in memory both are `-(An)`. y is the source; the word is the adjustment.
    Pack {
        x: u8,
        in_memory: bool,
        y: u8,
        word: u16,
    },
    /// `SBCD`; in memory both are `-(An)`. y is the source.
    Sbcd {
        x: u8,
        in_memory: bool,
        y: u8,
    },
    /// Shifts and rotates of a word in memory by one bit.
    ShiftMem {
        kind: ShiftKind,
        is_left: bool,
        ea: Ea,
    },
    /// Shifts and rotates of a data register. The count is 1 to 8, or a data register's number.
    ShiftReg {
        count: u8,
        is_left: bool,
        size: Size,
        by_register: bool,
        kind: ShiftKind,
        register: u8,
    },
    /// `SUB`.
    Sub {
        register: u8,
        to_memory: bool,
        size: Size,
        ea: Ea,
    },
    /// `SUBA`; a word or a long.
    Suba {
        register: u8,
        size: Size,
        ea: Ea,
    },
    /// `SUBI`.
    Subi {
        size: Size,
        ea: Ea,
        immediate: u32,
    },
    /// `SUBQ`; subtracts 1 to 8.
    Subq {
        quick: u8,
        size: Size,
        ea: Ea,
    },
    /// `SUBX`; in memory both are `-(An)`. y is the source.
    Subx {
        x: u8,
        size: Size,
        in_memory: bool,
        y: u8,
    },
    /// `TAS`.
    Tas {
        ea: Ea,
    },
    /// `TST`.
    Tst {
        size: Size,
        ea: Ea,
    },
    /// `UNPK`; in memory both are `-(An)`. y is the source; the word is the adjustment.
    Unpk {
        x: u8,
        in_memory: bool,
        y: u8,
        word: u16,
    },
}

/// What goes elsewhere.
#[derive(Clone, Copy, Debug)]
pub enum Flow {
    /// `Bcc`; condition T is `BRA`, and F is `BSR`.
    Bcc {
        condition: Condition,
        displacement: Branch,
    },
    /// `CHK`; a word or a long.
    Chk {
        register: u8,
        size: Size,
        ea: Ea,
    },
    /// `CHK2`; the word is `rnnn 1000 0000 0000`.
    Chk2 {
        size: Size,
        ea: Ea,
        word: u16,
    },
    /// `DBcc`.
    Dbcc {
        condition: Condition,
        register: u8,
        displacement: u16,
    },
    /// `JMP`.
    Jmp {
        ea: Ea,
    },
    /// `JSR`.
    Jsr {
        ea: Ea,
    },
    /// `NOP`.
    Nop,
    /// `RTD`.
    Rtd {
        displacement: u16,
    },
    /// `RTR`.
    Rtr,
    /// `RTS`.
    Rts,
    /// `TRAP`, with its number, 0 to 15.
    Trap {
        number: u8,
    },
    /// `TRAPcc`.
    Trapcc {
        condition: Condition,
        operand: TrapOperand,
    },
    /// `TRAPV`.
    Trapv,
}

/// What only a supervisor does.
#[derive(Clone, Copy, Debug)]
pub enum System {
    /// `ANDI` to SR.
    AndiSr {
        word: u16,
    },
    /// `CINV`.
    Cinv {
        caches: Caches,
        scope: CacheScope,
        register: u8,
    },
    /// `CPUSH`.
    Cpush {
        caches: Caches,
        scope: CacheScope,
        register: u8,
    },
    /// `EORI` to SR.
    EoriSr {
        word: u16,
    },
    /// `MOVE` from SR.
    FromSr {
        ea: Ea,
    },
    /// `MOVE` from or to USP.
    MoveUsp {
        from_usp: bool,
        register: u8,
    },
    /// `MOVEC`; the word is `rnnn` and the code of a control register.
    Movec {
        to_control: bool,
        word: u16,
    },
    /// `MOVES`; the word is `rnnn k000 0000 0000`, where k says to memory.
    Moves {
        size: Size,
        ea: Ea,
        word: u16,
    },
    /// `ORI` to SR.
    OriSr {
        word: u16,
    },
    /// `PFLUSH`.
    Pflush {
        kind: FlushKind,
        register: u8,
    },
    /// `PTEST`.
    Ptest {
        is_read: bool,
        register: u8,
    },
    /// `RESET`.
    Reset,
    /// `RTE`.
    Rte,
    /// `STOP`.
    Stop {
        word: u16,
    },
    /// `MOVE` to SR.
    ToSr {
        ea: Ea,
    },
}

/// An instruction: one variant of its family for each row of the table of encodings. Register
/// numbers are 0 to 7, words and displacements are as they are spelled.
#[derive(Clone, Copy, Debug)]
pub enum Instr {
    Move(Move),
    Arith(Arith),
    Flow(Flow),
    System(System),
}

/// The four families of instructions.
#[derive(Clone, Copy, Debug)]
pub enum Family {
    Move,
    Arith,
    Flow,
    System,
}

/// The family of an instruction.
pub fn family_of(i: &Instr) -> Family
    ensures { result ≡ family_of i.now }
{
    match i {
        Instr::Move(_) => Family::Move,
        Instr::Arith(_) => Family::Arith,
        Instr::Flow(_) => Family::Flow,
        Instr::System(_) => Family::System,
    }
}

/// Whether only a supervisor may carry the instruction out.
pub fn is_privileged(i: &Instr) -> bool
    ensures { result ≡ is_privileged i.now }
{
    matches!(i, Instr::System(_))
}
