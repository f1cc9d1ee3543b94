//! Statements with the words that GNU's assembler gives for them, at the address $1000. It has no word for a byte
//! immediate below 0 but $FFxx, and chooses some full forms by itself: those words are by hand.

use crate::spelled::spell;
use mb_encode::encode;
use mb_instr::{Caches, ControlRegister, Instr};
use mb_mnemonics::{Ending, Line, MeansFault, Pattern, Patterns, instruction_of, length_of, lines};
use mb_port::MmuReg;
use mb_syntax::Base::{Address, NoAddress, NoPc, Pc};
use mb_syntax::Indirection::{Direct, PostIndexed, PreIndexed};
use mb_syntax::Scale::{Eight, Four, One, Two};
use mb_syntax::SizeLetter::{Byte, Long, Short, Word};
use mb_syntax::{
    Base, BitField, Displacement, FieldNumber, FullForm, Index, Indirection, Mode, Operand,
    SizeLetter, Width,
};
use std::alloc::Global;

/// A statement, and the words that it has, or why it means nothing.
struct Case {
    name: &'static str,
    size: Option<SizeLetter>,
    operands: &'static [Operand<i64>],
    means: Result<&'static str, MeansFault>,
}

const AT: u32 = 0x1000;

macro_rules! case {
    ($name:literal, $size:expr, [$($operand:expr),*], $words:literal) => {
        Case { name: $name, size: $size, operands: &[$($operand),*], means: Ok($words) }
    };
    ($name:literal, $size:expr, [$($operand:expr),*], $fault:ident) => {
        Case { name: $name, size: $size, operands: &[$($operand),*], means: Err(MeansFault::$fault) }
    };
}

macro_rules! data { ($n:expr) => { Operand::Mode(data_mode!($n)) }; }

macro_rules! data_mode { ($n:expr) => { Mode::Data($n) }; }

macro_rules! address { ($n:expr) => { Operand::Mode(Mode::Address($n)) }; }

macro_rules! indirect { ($n:expr) => { Operand::Mode(indirect_mode!($n)) }; }

macro_rules! indirect_mode { ($n:expr) => { Mode::Indirect($n) }; }

macro_rules! post { ($n:expr) => { Operand::Mode(Mode::PostIncrement($n)) }; }

macro_rules! pre { ($n:expr) => { Operand::Mode(Mode::PreDecrement($n)) }; }

macro_rules! immediate { ($e:expr) => { Operand::Mode(Mode::Immediate($e)) }; }

macro_rules! absolute { ($e:expr, $width:tt $(($w:tt))?) => { Operand::Mode(absolute_mode!($e, $width $(($w))?)) }; }

macro_rules! absolute_mode {
    ($e:expr, None) => { Mode::Absolute { address: $e, width: None } };
    ($e:expr, Some($w:tt)) => { Mode::Absolute { address: $e, width: Some(Width::$w) } };
}

macro_rules! displaced { ($n:expr, $e:expr) => { Operand::Mode(displaced_mode!($n, $e)) }; }

macro_rules! displaced_mode { ($n:expr, $e:expr) => { Mode::Displaced { register: $n, displacement: $e } }; }

macro_rules! pc_displaced { ($e:expr) => { Operand::Mode(pc_displaced_mode!($e)) }; }

macro_rules! pc_displaced_mode { ($e:expr) => { Mode::PcDisplaced { target: $e } }; }

macro_rules! indexed {
    ($n:expr, $e:expr, $index:expr) => {
        Operand::Mode(Mode::Indexed { register: $n, displacement: $e, index: $index })
    };
}

macro_rules! pc_indexed {
    ($e:expr, $index:expr) => { Operand::Mode(Mode::PcIndexed { target: $e, index: $index }) };
}

macro_rules! index {
    (A $n:expr, $kept:ident, $width:ident, $scale:expr) => {
        Index { is_address: true, register: $n, is_dropped: is_dropped!($kept), width: Width::$width, scale: $scale }
    };
    (D $n:expr, $kept:ident, $width:ident, $scale:expr) => {
        Index { is_address: false, register: $n, is_dropped: is_dropped!($kept), width: Width::$width, scale: $scale }
    };
}

macro_rules! is_dropped {
    (kept) => { false };
    (dropped) => { true };
}

macro_rules! none { () => { None }; }

macro_rules! word { ($e:expr) => { Some(Displacement { value: $e, width: Width::Word }) }; }

macro_rules! long { ($e:expr) => { Some(Displacement { value: $e, width: Width::Long }) }; }

macro_rules! full {
    ($bd:expr, $base:expr, $index:expr, $indirection:expr, $od:expr) => {
        Operand::Mode(Mode::Full(FullForm {
            displacement: $bd, base: $base, index: $index, indirection: $indirection, outer: $od,
        }))
    };
}

macro_rules! field {
    ($mode:expr, $offset:expr, $width:expr) => {
        Operand::Field { mode: $mode, field: BitField { offset: $offset, width: $width } }
    };
}

macro_rules! control { ($register:expr) => { Operand::Control($register) }; }

macro_rules! caches { ($name:ident) => { Operand::Caches(Caches::$name) }; }

#[rattlefmt::skip]
static CASES: [Case; 61] = [
    case!("ADD", Some(Long), [data!(2), pre!(3)], "d5a3"),
    case!("ADDQ", None, [immediate!(8), data!(3)], "5043"),
    case!("ANDI", Some(Byte), [immediate!(0x1f), Operand::Ccr], "023c 001f"),
    case!("ASL", None, [data!(1), data!(2)], "e362"),
    case!("ASR", None, [immediate!(1), data!(3)], "e243"),
    case!("BNE", Some(Short), [absolute!(0xffa, None)], "66f8"),
    case!("BCC", Some(Long), [absolute!(0, None)], "64ff ffff effe"),
    case!("BFEXTU", None, [field!(data_mode!(3), FieldNumber::Number(5), FieldNumber::Data(2)), data!(4)], "e9c3 4162"),
    case!("BTST", Some(Byte), [data!(1), immediate!(5)], "033c 0005"),
    case!("BTST", None, [immediate!(3), pc_displaced!(0x1010)], "083a 0003 000c"),
    case!("CAS", None, [data!(1), data!(2), indirect!(3)], "0cd3 0081"),
    case!("CAS2", Some(Long), [
        Operand::Pair(1, 2), Operand::Pair(3, 4), Operand::IndirectPair(0, 15)
    ], "0efc 00c1 f102"),
    case!("CHK2", Some(Byte), [indirect!(1), address!(2)], "00d1 a800"),
    case!("CINVP", None, [caches!(Instruction), indirect!(2)], "f492"),
    case!("CMPI", Some(Long), [immediate!(0x12345678), pc_displaced!(0x1010)], "0cba 1234 5678 000a"),
    case!("DBF", None, [data!(1), absolute!(0x1000, None)], "51c9 fffe"),
    case!("DIVU", Some(Long), [data!(1), data!(2)], "4c41 2002"),
    case!("DIVU", Some(Long), [pc_displaced!(0x1010), Operand::Pair(3, 2)], "4c7a 2403 000c"),
    case!("DIVUL", Some(Long), [data!(1), Operand::Pair(3, 2)], "4c41 2003"),
    case!("EXG", None, [data!(1), address!(2)], "c38a"),
    case!("LINK", Some(Long), [address!(6), immediate!(-0x12345)], "480e fffe dcbb"),
    case!("MOVE", Some(Byte), [immediate!(-2), indirect!(1)], "12bc fffe"),
    case!("MOVE", Some(Byte), [immediate!(0xfe), indirect!(1)], "12bc 00fe"),
    case!("ANDI", Some(Byte), [immediate!(-5), data!(0)], "0200 fffb"),
    case!("MOVEQ", None, [immediate!(-5), data!(0)], "70fb"),
    case!("MOVE", None, [pc_displaced!(0x1010), displaced!(3, 4)], "377a 000e 0004"),
    case!("MOVE", None, [control!(ControlRegister::Usp), address!(1)], "4e69"),
    case!("MOVE16", None, [post!(1), post!(2)], "f621 a000"),
    case!("MOVE16", None, [absolute!(0x12345678, None), post!(1)], "f609 1234 5678"),
    case!("MOVEC", None, [data!(1), control!(ControlRegister::Mmu(MmuReg::Dtt1))], "4e7b 1007"),
    case!("MOVEM", None, [Operand::List(0x10f), pre!(7)], "48a7 f080"),
    case!("MOVEM", Some(Long), [post!(7), Operand::List(0x10f)], "4cdf 010f"),
    case!("MOVEP", Some(Long), [displaced!(2, -4), data!(1)], "034a fffc"),
    case!("MOVES", None, [address!(1), post!(2)], "0e5a 9800"),
    case!("PACK", None, [pre!(1), pre!(0), immediate!(-1)], "8149 ffff"),
    case!("SLE", None, [post!(1)], "5fd9"),
    case!("TRAP", None, [immediate!(0xf)], "4e4f"),
    case!("TRAPNE", Some(Word), [immediate!(5)], "56fa 0005"),
    case!("MOVE", None, [indexed!(1, -128, index!(D 2, kept, Word, One)), data!(0)], "3031 2080"),
    case!("MOVE", None, [pc_indexed!(0x1010, index!(A 1, kept, Word, Two)), data!(0)], "303b 920e"),
    case!("MOVE", None, [
        full!(long!(4), Address(1), index!(D 2, kept, Long, Four), PreIndexed, long!(8)), data!(0)
    ], "3031 2d33 0000 0004 0000 0008"),
    case!("MOVE", None, [
        full!(word!(-4), Address(1), index!(D 2, kept, Word, Eight), PostIndexed, word!(-8)), data!(0)
    ], "3031 2726 fffc fff8"),
    case!("MOVE", None, [
        full!(word!(0x1010), Pc, index!(D 1, kept, Long, One), PreIndexed, word!(8)), data!(0)
    ], "303b 1922 000e 0008"),
    case!("MOVE", None, [
        full!(word!(0x10), NoPc, index!(D 1, kept, Long, One), PreIndexed, none!()), data!(0)
    ], "303b 19a1 0010"),
    case!("MOVE", None, [
        full!(word!(4), Address(1), index!(D 3, dropped, Word, Two), Direct, none!()), data!(0)
    ], "3031 3360 0004"),
    case!("BT", None, [absolute!(0x1010, None)], Name),
    case!("ADD", Some(Short), [data!(1), data!(2)], Operand),
    case!("ADD", None, [data!(1), address!(2)], Operand),
    case!("ADDQ", None, [immediate!(9), data!(1)], Range),
    case!("ADDI", Some(Byte), [immediate!(-129), data!(1)], Range),
    case!("ADDQ", Some(Byte), [immediate!(9), address!(1)], Operand),
    case!("BRA", Some(Byte), [absolute!(0x1002, None)], Range),
    case!("BRA", Some(Byte), [absolute!(0x1001, None)], Range),
    case!("BRA", Some(Word), [absolute!(0x9002, None)], Range),
    case!("BTST", Some(Long), [data!(1), indirect!(2)], Operand),
    case!("BFTST", None, [field!(data_mode!(1), FieldNumber::Number(0), FieldNumber::Number(0x21))], Range),
    case!("DIVU", None, [data!(1), Operand::Pair(2, 3)], Operand),
    case!("MOVE16", None, [post!(1), absolute!(0x1234, Some(Word))], Operand),
    case!("MOVE", None, [pc_displaced!(0x9003), data!(0)], Range),
    case!("MOVE", None, [
        full!(none!(), Address(1), index!(D 0, dropped, Word, One), PreIndexed, word!(0x10000)), data!(0)
    ], Range),
    case!("UNLK", Some(Long), [address!(6)], Operand),
];

/// Whether an instruction has these words, and so many bytes as a statement's length says.
fn has_words(alloc: Global, case: &Case, instruction: &Instr, expected: &str) -> Option<bool> {
    let words = spell(alloc, encode(instruction).ok()?.as_slice()).ok()?;
    let length = length_of(case.name.as_bytes(), case.size, case.operands).ok()?;
    Some(words.as_str() == expected && length as usize == expected.len() / 5 * 2 + 2)
}

/// Whether a statement means what its case says.
fn means(alloc: Global, case: &Case) -> Option<bool> {
    let meant = instruction_of(case.name.as_bytes(), case.size, case.operands, AT);
    match (meant, case.means) {
        (Ok(instruction), Ok(expected)) => has_words(alloc, case, &instruction, expected),
        (Err(fault), Err(expected)) => Some(fault == expected),
        _ => Some(false),
    }
}

#[test]
fn statements(rt: HostRuntime) {
    for (number, case) in CASES.iter().enumerate() {
        assert!(rt;
            means(rt.alloc(), case) == Some(true),
            "{}, case {number}",
            case.name
        );
    }
}

/// How many modes `mode` has.
const MODES: u8 = 22;

/// How many operands `operand` has.
const OPERANDS: u8 = 52;

/// A mode of each form.
#[rattlefmt::skip]
fn mode(k: u8) -> Mode<i64> {
    let index = index!(A 2, kept, Long, Four);
    match k {
        0 => Mode::Data(1),
        1 => Mode::Address(1),
        2 => Mode::Indirect(1),
        3 => Mode::PostIncrement(1),
        4 => Mode::PreDecrement(1),
        5 => Mode::Displaced { register: 1, displacement: -4 },
        6 => Mode::Indexed { register: 1, displacement: -4, index },
        7 => Mode::Absolute { address: 0x1010, width: None },
        8 => Mode::Absolute { address: 0x1010, width: Some(Width::Word) },
        9 => Mode::Absolute { address: 0x1010, width: Some(Width::Long) },
        10 => Mode::PcDisplaced { target: 0x1010 },
        11 => Mode::PcIndexed { target: 0x1010, index },
        12 => Mode::Immediate(1),
        13 => form(Some((-4, Width::Word)), Address(1), Direct, None),
        14 => form(Some((-4, Width::Long)), NoAddress(1), PreIndexed, Some((8, Width::Word))),
        15 => form(None, Address(1), PreIndexed, None),
        16 => form(None, Address(1), PostIndexed, Some((8, Width::Long))),
        17 => form(Some((0x1010, Width::Word)), Pc, Direct, None),
        18 => form(Some((0x1010, Width::Long)), Pc, PostIndexed, Some((8, Width::Word))),
        19 => form(None, NoPc, PreIndexed, Some((8, Width::Long))),
        20 => form(Some((4, Width::Word)), NoPc, PostIndexed, None),
        _ => form(None, NoAddress(0), Direct, None),
    }
}

fn form(
    base: Option<(i64, Width)>,
    register: Base,
    indirection: Indirection,
    outer: Option<(i64, Width)>,
) -> Mode<i64> {
    Mode::Full(FullForm {
        displacement: base.map(|(value, width)| Displacement { value, width }),
        base: register,
        index: index!(D 3, kept, Word, Two),
        indirection,
        outer: outer.map(|(value, width)| Displacement { value, width }),
    })
}

/// An operand of each form.
fn operand(k: u8) -> Operand<i64> {
    match k {
        0 => Operand::Sr,
        1 => Operand::Ccr,
        2 => Operand::Control(ControlRegister::Usp),
        3 => Operand::Control(ControlRegister::Mmu(MmuReg::Srp)),
        4 => Operand::List(0x8421),
        5 => Operand::Pair(1, 2),
        6 => Operand::IndirectPair(1, 10),
        7 => Operand::Caches(Caches::Both),
        _ if k < 8 + MODES => Operand::Mode(mode(k - 8)),
        _ => Operand::Field {
            mode: mode((k - 8 - MODES) % MODES),
            field: BitField {
                offset: FieldNumber::Data(1),
                width: FieldNumber::Number(1),
            },
        },
    }
}

/// The operands of a pattern's kind, from the first to behind the last: fields, those without a mode or of one
/// register, those of the modes that have no words, or those of all modes.
fn forms_of(pattern: Pattern) -> (u8, u8) {
    match pattern {
        Pattern::FieldMode(_) => (8 + MODES, OPERANDS),
        Pattern::RegisterList
        | Pattern::ReversedList
        | Pattern::Sr
        | Pattern::Ccr
        | Pattern::Usp
        | Pattern::Control
        | Pattern::Pair(_, _)
        | Pattern::Pairs(_)
        | Pattern::IndirectPairs
        | Pattern::Caches => (0, 10),
        Pattern::Data(_)
        | Pattern::DataMode
        | Pattern::Address(_)
        | Pattern::Register(_)
        | Pattern::Indirect(_)
        | Pattern::PostIncrement(_)
        | Pattern::PreDecrement(_) => (8, 13),
        _ => (8, 8 + MODES),
    }
}

/// Where a line has no operand: one that is not used.
const NOTHING: (u8, u8) = (0, 1);

/// The operands that may stand in each place of a line, and how many it has.
fn forms_at(line: &Line) -> ([(u8, u8); 3], usize) {
    match line.operands {
        Patterns::Nothing => ([NOTHING, NOTHING, NOTHING], 0),
        Patterns::One(a) => ([forms_of(a), NOTHING, NOTHING], 1),
        Patterns::Two(a, b) => ([forms_of(a), forms_of(b), NOTHING], 2),
        Patterns::Three(a, b, c) => ([forms_of(a), forms_of(b), forms_of(c)], 3),
    }
}

/// The operands of a statement, where each kind has one at its place.
fn operands_at(i: u8, j: u8, k: u8) -> [Operand<i64>; 3] {
    [operand(i), operand(j), operand(k)]
}

/// Whether a statement with these operands has a length; nothing where it has one and means no instruction.
fn has_length(name: &[u8], letter: Option<SizeLetter>, operands: &[Operand<i64>]) -> Option<bool> {
    let has = length_of(name, letter, operands).is_ok();
    (!has || instruction_of(name, letter, operands, AT).is_ok()).then_some(has)
}

/// How many statements of a line with operands of its patterns' kinds, under the name and size, have a length. Nothing
/// where one of them means no instruction.
fn count_meant(line: &Line, name: &[u8], letter: Option<SizeLetter>) -> Option<u32> {
    let ([first, second, third], places) = forms_at(line);
    let mut count = 0u32;
    for i in first.0..first.1 {
        for j in second.0..second.1 {
            for k in third.0..third.1 {
                let operands = operands_at(i, j, k);
                if has_length(name, letter, &operands[..places.min(3)])? {
                    count = count.saturating_add(1);
                }
            }
        }
    }
    Some(count)
}

/// A name of a line.
fn name_of(alloc: Global, line: &Line) -> Option<String> {
    let mut name = String::from_str(alloc, str::from_utf8(line.stem.letters()).ok()?).ok()?;
    if line.ending != Ending::Plain {
        name.push_str("EQ").ok()?;
    }
    Some(name)
}

/// All sizes.
static LETTERS: [Option<SizeLetter>; 5] = [None, Some(Byte), Some(Short), Some(Word), Some(Long)];

/// How many statements of a line have a length, at all sizes.
fn count_of(line: &Line, name: &[u8]) -> Option<u32> {
    let mut found = 0u32;
    for &letter in &LETTERS {
        found = found.saturating_add(count_meant(line, name, letter)?);
    }
    Some(found)
}

/// Each line has its row with each mode and operand that it takes, at each size.
#[test]
fn each_line_has_its_row(rt: HostRuntime) {
    for line in lines() {
        let name = name_of(rt.alloc(), line).expect(&rt, "memory");
        let found = count_of(line, name.as_bytes());
        assert!(rt;
            found.is_some_and(|count| count > 0),
            "at {}",
            name.as_str()
        );
    }
}
