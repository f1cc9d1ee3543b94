//! Words, what they decode to, and what that is encoded to again.

use crate::read_back::read_back;
use mb_decode::{Decoded, decode, spellings};
use mb_encode::encode;
use mb_instr::{Instr, family_of, is_privileged};
use mb_table::FirstWords;
use std::alloc::Global;

/// Words of the manual's encodings, assembled by hand, each row at least once, as a disassembler of GNU reads them too,
/// and others; and how what they begin with prints.
const DECODED: &str = "\
c141: Whole(Move(Exg { x: 0, kind: Data, y: 1 }), 1)
c149: Whole(Move(Exg { x: 0, kind: Address, y: 1 }), 1)
c188: Whole(Move(Exg { x: 0, kind: DataAddress, y: 0 }), 1)
42c0: Whole(Move(FromCcr { ea: Dn(0) }), 1)
41fa 0004: Whole(Move(Lea { register: 0, ea: PcDisp(4) }), 2)
480e ffff fff8: Whole(Move(LinkL { register: 6, displacement: 4294967288 }), 3)
4e56 fff8: Whole(Move(LinkW { register: 6, displacement: 65528 }), 2)
13c0 fff0 0000: Whole(Move(Move { size: Byte, destination: AbsL(4293918720), source: Dn(0) }), 3)
23fc 0000 0001 fff0 0020: Whole(Move(Move { size: Long, destination: AbsL(4293918752), source: Imm(1) }), 5)
22b0 0161 0004: Whole(Move(Move { size: Long, destination: Ind(1), source: Index(0, \
    Full { word: 353, bd: 4, od: 0 }) }), 3)
3030 1802: Whole(Move(Move { size: Word, destination: Dn(0), source: Index(0, Brief(6146)) }), 2)
f609 0012 3450: Whole(Move(Move16Abs { kind: AbsoluteToPost, register: 1, address: 1193040 }), 3)
f610 0000 0010: Whole(Move(Move16Abs { kind: IndirectToAbsolute, register: 0, address: 16 }), 3)
f620 9000: Whole(Move(Move16Post { x: 0, word: 36864 }), 2)
2a48: Whole(Move(Movea { size: Long, register: 5, source: An(0) }), 1)
3a7c 1234: Whole(Move(Movea { size: Word, register: 5, source: Imm(4660) }), 2)
4cdf 0303: Whole(Move(MovemLoad { size: Long, ea: Post(7), mask: 771 }), 2)
48e7 c0c0: Whole(Move(MovemStore { size: Long, ea: Pre(7), mask: 49344 }), 2)
0148 0008: Whole(Move(Movep { register: 0, is_store: false, size: Long, address: 0, displacement: 8 }), 2)
038a 0008: Whole(Move(Movep { register: 1, is_store: true, size: Word, address: 2, displacement: 8 }), 2)
7eff: Whole(Move(Moveq { register: 7, immediate: 255 }), 1)
4850: Whole(Move(Pea { ea: Ind(0) }), 1)
56f8 1000: Whole(Move(Scc { condition: NotEqual, ea: AbsW(4096) }), 2)
4843: Whole(Move(Swap { register: 3 }), 1)
44fc 001f: Whole(Move(ToCcr { ea: Imm(31) }), 2)
4e5e: Whole(Move(Unlk { register: 6 }), 1)
c300: Whole(Arith(Abcd { x: 1, in_memory: false, y: 0 }), 1)
d081: Whole(Arith(Add { register: 0, to_memory: false, size: Long, ea: Dn(1) }), 1)
d190: Whole(Arith(Add { register: 0, to_memory: true, size: Long, ea: Ind(0) }), 1)
d0c8: Whole(Arith(Adda { register: 0, size: Word, ea: An(0) }), 1)
0640 1234: Whole(Arith(Addi { size: Word, ea: Dn(0), immediate: 4660 }), 2)
5080: Whole(Arith(Addq { quick: 8, size: Long, ea: Dn(0) }), 1)
5048: Whole(Arith(Addq { quick: 8, size: Word, ea: An(0) }), 1)
d388: Whole(Arith(Addx { x: 1, size: Long, in_memory: true, y: 0 }), 1)
c240: Whole(Arith(And { register: 1, to_memory: false, size: Word, ea: Dn(0) }), 1)
0280 0000 ffff: Whole(Arith(Andi { size: Long, ea: Dn(0), immediate: 65535 }), 3)
023c 00fe: Whole(Arith(AndiCcr { word: 254 }), 2)
0838 0007 1000: Whole(Arith(BitImm { kind: Test, ea: AbsW(4096), word: 7 }), 3)
083a 0007 0004: Whole(Arith(BitImm { kind: Test, ea: PcDisp(4), word: 7 }), 3)
08c0 001f: Whole(Arith(BitImm { kind: Set, ea: Dn(0), word: 31 }), 2)
0300: Whole(Arith(BitReg { register: 1, kind: Test, ea: Dn(0) }), 1)
013c 0001: Whole(Arith(BitReg { register: 0, kind: Test, ea: Imm(1) }), 2)
0ed0 0040: Whole(Arith(Cas { size: Long, ea: Ind(0), word: 64 }), 2)
0cfc 8042 9083: Whole(Arith(Cas2 { size: Word, first: 32834, second: 36995 }), 3)
4239 0000 1000: Whole(Arith(Clr { size: Byte, ea: AbsL(4096) }), 3)
b088: Whole(Arith(Cmp { register: 0, size: Long, ea: An(0) }), 1)
02d0 1000: Whole(Arith(Cmp2 { size: Word, ea: Ind(0), word: 4096 }), 2)
b1c9: Whole(Arith(Cmpa { register: 0, size: Long, ea: An(1) }), 1)
0c3a 0041 0010: Whole(Arith(Cmpi { size: Byte, ea: PcDisp(16), immediate: 65 }), 3)
b308: Whole(Arith(Cmpm { x: 1, size: Byte, y: 0 }), 1)
4c41 0002: Whole(Arith(DivL { ea: Dn(1), word: 2 }), 2)
81c1: Whole(Arith(DivW { register: 0, is_signed: true, ea: Dn(1) }), 1)
b380: Whole(Arith(Eor { register: 1, size: Long, ea: Dn(0) }), 1)
0a00 00ff: Whole(Arith(Eori { size: Byte, ea: Dn(0), immediate: 255 }), 2)
0a3c 0001: Whole(Arith(EoriCcr { word: 1 }), 2)
48c0: Whole(Arith(ExtL { register: 0 }), 1)
4880: Whole(Arith(ExtW { register: 0 }), 1)
49c0: Whole(Arith(ExtbL { register: 0 }), 1)
e9c0 1108: Whole(Arith(Field { kind: ExtractUnsigned, ea: Dn(0), word: 4360 }), 2)
efd0 2003: Whole(Arith(Field { kind: Insert, ea: Ind(0), word: 8195 }), 2)
4c01 1c02: Whole(Arith(MulL { ea: Dn(1), word: 7170 }), 2)
c0c1: Whole(Arith(MulW { register: 0, is_signed: false, ea: Dn(1) }), 1)
4800: Whole(Arith(Nbcd { ea: Dn(0) }), 1)
4440: Whole(Arith(Neg { size: Word, ea: Dn(0) }), 1)
4000: Whole(Arith(Negx { size: Byte, ea: Dn(0) }), 1)
4680: Whole(Arith(Not { size: Long, ea: Dn(0) }), 1)
8041: Whole(Arith(Or { register: 0, to_memory: false, size: Word, ea: Dn(1) }), 1)
0010 0080: Whole(Arith(Ori { size: Byte, ea: Ind(0), immediate: 128 }), 2)
003c 0010: Whole(Arith(OriCcr { word: 16 }), 2)
8348 1234: Whole(Arith(Pack { x: 1, in_memory: true, y: 0, word: 4660 }), 2)
8300: Whole(Arith(Sbcd { x: 1, in_memory: false, y: 0 }), 1)
e3d0: Whole(Arith(ShiftMem { kind: Logical, is_left: true, ea: Ind(0) }), 1)
e548: Whole(Arith(ShiftReg { count: 2, is_left: true, size: Word, by_register: false, kind: Logical, register: 0 }), 1)
e3a8: Whole(Arith(ShiftReg { count: 1, is_left: true, size: Long, by_register: true, kind: Logical, register: 0 }), 1)
e000: Whole(Arith(ShiftReg { count: 8, is_left: false, size: Byte, by_register: false, \
    kind: Arithmetic, register: 0 }), 1)
9041: Whole(Arith(Sub { register: 0, to_memory: false, size: Word, ea: Dn(1) }), 1)
91c8: Whole(Arith(Suba { register: 0, size: Long, ea: An(0) }), 1)
0440 0001: Whole(Arith(Subi { size: Word, ea: Dn(0), immediate: 1 }), 2)
5340: Whole(Arith(Subq { quick: 1, size: Word, ea: Dn(0) }), 1)
9300: Whole(Arith(Subx { x: 1, size: Byte, in_memory: false, y: 0 }), 1)
4ad0: Whole(Arith(Tas { ea: Ind(0) }), 1)
4a48: Whole(Arith(Tst { size: Word, ea: An(0) }), 1)
8380 3030: Whole(Arith(Unpk { x: 1, in_memory: false, y: 0, word: 12336 }), 2)
60fe: Whole(Flow(Bcc { condition: True, displacement: Byte(254) }), 1)
6100 1000: Whole(Flow(Bcc { condition: False, displacement: Word(4096) }), 2)
66ff 0000 1000: Whole(Flow(Bcc { condition: NotEqual, displacement: Long(4096) }), 3)
4181: Whole(Flow(Chk { register: 0, size: Word, ea: Dn(1) }), 1)
4101: Whole(Flow(Chk { register: 0, size: Long, ea: Dn(1) }), 1)
02d0 0800: Whole(Flow(Chk2 { size: Word, ea: Ind(0), word: 2048 }), 2)
57c8 fffe: Whole(Flow(Dbcc { condition: Equal, register: 0, displacement: 65534 }), 2)
4ef9 0000 1000: Whole(Flow(Jmp { ea: AbsL(4096) }), 3)
4eba 0004: Whole(Flow(Jsr { ea: PcDisp(4) }), 2)
4e71: Whole(Flow(Nop), 1)
4e74 0008: Whole(Flow(Rtd { displacement: 8 }), 2)
4e77: Whole(Flow(Rtr), 1)
4e75: Whole(Flow(Rts), 1)
4e4f: Whole(Flow(Trap { number: 15 }), 1)
57fa 0001: Whole(Flow(Trapcc { condition: Equal, operand: Word(1) }), 2)
57fb 0000 0001: Whole(Flow(Trapcc { condition: Equal, operand: Long(1) }), 3)
57fc: Whole(Flow(Trapcc { condition: Equal, operand: Nothing }), 1)
4e76: Whole(Flow(Trapv), 1)
027c 2700: Whole(System(AndiSr { word: 9984 }), 2)
f4d8: Whole(System(Cinv { caches: Both, scope: All, register: 0 }), 1)
f4a9: Whole(System(Cpush { caches: Instruction, scope: Line, register: 1 }), 1)
0a7c 2700: Whole(System(EoriSr { word: 9984 }), 2)
40c0: Whole(System(FromSr { ea: Dn(0) }), 1)
4e60: Whole(System(MoveUsp { from_usp: false, register: 0 }), 1)
4e68: Whole(System(MoveUsp { from_usp: true, register: 0 }), 1)
4e7a 0002: Whole(System(Movec { to_control: false, word: 2 }), 2)
4e7b 0801: Whole(System(Movec { to_control: true, word: 2049 }), 2)
0e10 0800: Whole(System(Moves { size: Byte, ea: Ind(0), word: 2048 }), 2)
007c 0700: Whole(System(OriSr { word: 1792 }), 2)
f508: Whole(System(Pflush { kind: Page, register: 0 }), 1)
f518: Whole(System(Pflush { kind: All, register: 0 }), 1)
f548: Whole(System(Ptest { is_read: false, register: 0 }), 1)
f568: Whole(System(Ptest { is_read: true, register: 0 }), 1)
4e70: Whole(System(Reset), 1)
4e73: Whole(System(Rte), 1)
4e72 2700: Whole(System(Stop { word: 9984 }), 2)
46fc 2700: Whole(System(ToSr { ea: Imm(9984) }), 2)
4e71 4e71: Whole(Flow(Nop), 1)
13c0 fff0 0000 4e71: Whole(Move(Move { size: Byte, destination: AbsL(4293918720), source: Dn(0) }), 3)
: More
0000: More
0640: More
13c0: More
13c0 fff0: More
13fc: More
22b0: More
22b0 0161: More
23fc 0000 0001 fff0: More
0cfc 8042: More
02d0: More
4e72: More
57fb 0000: More
60ff 0000: More
f620: More
f608 0012: More
4afc: Illegal
007d: Illegal
00fc: Illegal
023a: Illegal
06d0: Illegal
0afc: Illegal
02c0: Illegal
083c: Illegal
08fc: Illegal
1048: Illegal
13c8: Illegal
17c0: Illegal
40fa: Illegal
4108: Illegal
4140: Illegal
4150: Illegal
41c0: Illegal
47c0: Illegal
48c8: Illegal
48d8: Illegal
4ac8: Illegal
4c48: Illegal
4ce0: Illegal
4e79: Illegal
4e7c: Illegal
4ec0: Illegal
5008: Illegal
57fd: Illegal
7100: Illegal
81c8: Illegal
c180: Illegal
c1c8: Illegal
e0c0: Illegal
e3c8: Illegal
e8c8: Illegal
b0fd: Illegal
02d0 0001: Illegal
0ed0 0200: Illegal
0cfc 8242: Illegal
22b0 0140: Illegal
22b0 0169: Illegal
22b0 0164: Illegal
4c41 8000: Illegal
4e7b 0802: Illegal
e8c0 1000: Illegal
e9c0 0e08: Illegal
a000: LineA
afff 4e71: LineA
f000: LineF
f200: LineF
f280: LineF
f420: LineF
f480: LineF
f550: LineF
f5a0: LineF
f628: LineF
f640: LineF
ffff: LineF
f620 1000: LineF
f620 8001: LineF
";

/// The words that a text spells.
fn words_of(alloc: Global, spelled: &str) -> Option<Vec<u16>> {
    let mut words = Vec::new(alloc);
    for digits in spelled.split_whitespace() {
        words.push(u16::from_str_radix(digits, 16).ok()?).ok()?;
    }
    Some(words)
}

/// Whether what words begin with prints so.
fn prints(alloc: Global, decoded: &Decoded, expected: &str) -> Option<bool> {
    let found = format!(in alloc; "{decoded:?}").ok()?;
    Some(found.as_str() == expected)
}

/// Whether an instruction is written with these words, and prints as expected where they are read again.
fn is_written_again(
    alloc: Global,
    instruction: &Instr,
    words: &[u16],
    expected: &str,
) -> Option<bool> {
    let written = encode(instruction).ok()?;
    let again = read_back(instruction).ok()?;
    Some(words == written.as_slice() && prints(alloc, &again, expected)?)
}

/// Whether an instruction is of the family that it prints.
fn is_of_family(alloc: Global, instruction: &Instr, expected: &str) -> Option<bool> {
    let family = format!(in alloc; "{:?}", family_of(instruction)).ok()?;
    let rest = expected.strip_prefix("Whole(")?;
    let is_system = rest.starts_with("System(");
    let is_of_family = rest.strip_prefix(family.as_str())?.starts_with("(");
    Some(is_of_family && is_privileged(instruction) == is_system)
}

/// Whether words begin with what a text says, which is written again where it is an instruction.
fn decodes(alloc: Global, words: &[u16], expected: &str) -> Option<bool> {
    let decoded = decode(words);
    let is_whole = match decoded {
        Decoded::Whole(instruction, length) => {
            let words = words.get(..usize::from(length))?;
            is_written_again(alloc, &instruction, words, expected)?
                && is_of_family(alloc, &instruction, expected)?
        }
        _ => true,
    };
    Some(is_whole && prints(alloc, &decoded, expected)?)
}

/// Whether what a first word alone begins with stands in the table of first words.
fn is_in_table(
    alloc: Global,
    table: &mut FirstWords,
    words: &[u16],
    expected: &str,
) -> Option<bool> {
    match words {
        [first] => prints(alloc, table.of(*first), expected),
        _ => Some(true),
    }
}

/// What is read is written again, it is of the family that it prints, and what a first word alone begins with stands in
/// the table of first words.
#[test]
fn words_decode(rt: HostRuntime) {
    let mut table = FirstWords::new(rt.alloc()).expect(&rt, "memory");
    for line in DECODED.lines() {
        let (spelled, expected) = line.split_once(": ").expect(&rt, "words and an answer");
        let words = words_of(rt.alloc(), spelled).expect(&rt, "words");
        assert!(rt;
            decodes(rt.alloc(), &words, expected) == Some(true),
            "at {spelled}"
        );
        assert!(rt;
            is_in_table(rt.alloc(), &mut table, &words, expected) == Some(true),
            "at {spelled}"
        );
    }
    spellings();
}
