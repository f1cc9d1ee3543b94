//! Instructions, and their words.

use crate::read_back::read_back;
use crate::spelled::spell;
use mb_encode::{Unencodable, encode};
use mb_instr::{
    Arith, Branch, Condition, Ea, Exchange, Ext, FieldKind, Flow, Instr, Move, Size, System,
};
use std::alloc::Global;

/// Each shape of a row, with words that the manual's encodings and a disassembler of GNU say (all rows are in
/// `decoding`), and values that no row has.
#[rattlefmt::skip]
static CASES: [(Instr, Option<&str>); 23] = [
    (Instr::Move(Move::Exg { x: 0, kind: Exchange::DataAddress, y: 0 }), Some("c188")),
    (Instr::Move(Move::Move { size: Size::Long, destination: Ea::AbsL(0xfff0_0020), source: Ea::Imm(1) }),
        Some("23fc 0000 0001 fff0 0020")),
    (Instr::Move(Move::MovemStore { size: Size::Long, ea: Ea::Pre(7), mask: 0xc0c0 }), Some("48e7 c0c0")),
    (Instr::Move(Move::Move16Post { x: 0, word: 0x9000 }), Some("f620 9000")),
    (Instr::Arith(Arith::Addq { quick: 8, size: Size::Long, ea: Ea::Dn(0) }), Some("5080")),
    (Instr::Arith(Arith::Cas2 { size: Size::Word, first: 0x8042, second: 0x9083 }), Some("0cfc 8042 9083")),
    (Instr::Arith(Arith::Cmpi { size: Size::Byte, ea: Ea::PcDisp(16), immediate: 0x41 }), Some("0c3a 0041 0010")),
    (Instr::Arith(Arith::Field { kind: FieldKind::Insert, ea: Ea::Ind(0), word: 0x2003 }), Some("efd0 2003")),
    (Instr::Flow(Flow::Bcc { condition: Condition::NotEqual, displacement: Branch::Long(0x1000) }),
        Some("66ff 0000 1000")),
    (Instr::System(System::Ptest { is_read: true, register: 0 }), Some("f568")),
    (Instr::Move(Move::Swap { register: 8 }), None),
    (Instr::Move(Move::Movea { size: Size::Byte, register: 0, source: Ea::Dn(0) }), None),
    (Instr::Move(Move::Move { size: Size::Byte, destination: Ea::Dn(0), source: Ea::An(0) }), None),
    (Instr::Move(Move::Move { size: Size::Word, destination: Ea::Imm(0), source: Ea::Dn(0) }), None),
    (Instr::Move(Move::Move { size: Size::Word, destination: Ea::Dn(0), source: Ea::Imm(0x1_0000) }), None),
    (Instr::Move(Move::MovemStore { size: Size::Long, ea: Ea::Post(7), mask: 1 }), None),
    (Instr::Move(Move::Lea { register: 0, ea: Ea::Index(0, Ext::Full { word: 0x0169, bd: 4, od: 0 }) }), None),
    (Instr::Arith(Arith::Addq { quick: 0, size: Size::Word, ea: Ea::Dn(0) }), None),
    (Instr::Arith(Arith::Subq { quick: 9, size: Size::Word, ea: Ea::Dn(0) }), None),
    (Instr::Arith(Arith::Cas { size: Size::Long, ea: Ea::Ind(0), word: 0x8000 }), None),
    (Instr::Flow(Flow::Bcc { condition: Condition::True, displacement: Branch::Byte(0) }), None),
    (Instr::Flow(Flow::Trap { number: 16 }), None),
    (Instr::System(System::Movec { to_control: true, word: 0x802 }), None),
];

/// Whether an instruction has these words, or none, where no row has it.
fn encodes(alloc: Global, instruction: &Instr, expected: &Option<&str>) -> Option<bool> {
    match (encode(instruction), expected) {
        (Ok(words), Some(expected)) => {
            let found = spell(alloc, words.as_slice()).ok()?;
            Some(found.as_str() == *expected)
        }
        (Err(Unencodable), None) => Some(read_back(instruction).is_err()),
        _ => Some(false),
    }
}

#[test]
fn instructions_encode(rt: HostRuntime) {
    for (instruction, expected) in &CASES {
        let encodes = encodes(rt.alloc(), instruction, expected);
        assert!(rt; encodes == Some(true), "at {instruction:?}");
    }
}
