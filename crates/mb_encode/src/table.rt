//! The table: a line for each row.

ghost use Rattle.std.specs.Prelude.{◌≡◌, ◌<◌, ◌+◌, ◌%◌, false};
ghost use Rattle.mb_instr.specs.declared.operand.OperandClass.TheVariants.{All, Alterable};
ghost use Rattle.mb_instr.specs.declared.rule.WordRule.TheVariants.{Any};
ghost use Rattle.mb_instr.specs.Sizes.{long_bit, not_byte};
ghost use Rattle.mb_instr.specs.Kinds.{flag, side};
ghost use Rattle.mb_instr.specs.Shapes.{is_quick, at_ea, sized, word_ea, when};
ghost use Rattle.mb_instr.specs.Rows.{move_row, arith_row, flow_row, system_row};
ghost use Rattle.mb_instr.specs.Rows.{exchange_bits, exchange_mode, count_field};
ghost use Rattle.mb_instr.specs.declared.instruction.Move.TheVariants as moves;
ghost use Rattle.mb_instr.specs.declared.instruction.Arith.TheVariants.{Cas2};
ghost use Rattle.mb_instr.specs.declared.instruction.Flow.TheVariants.{Bcc, Trapcc};
ghost use Rattle.mb_encode.specs.Spellings.{row_of, has_operand};

use crate::shapes::{
    at_ea, bare, head, immediate_ea, on_condition, op, when, with_long, with_ruled, with_word,
    word_ea,
};
use crate::spelling::{Further, Spelling};
use crate::writing::{lower, mode};
use mb_instr::OperandClass::{
    All, Alterable, Control, Data, DataAlterable, DataAlterableOrPc, LoadList, MemoryAlterable,
    StoreList,
};
use mb_instr::{
    Arith, Branch, Condition, Ea, Exchange, Flow, Move, OperandClass, Size, System, TrapOperand,
    WordRule,
};

/// The bit that says yes or no.
fn flag(is_set: bool) -> u8
    ensures value { result ≡ flag is_set }
    ensures small { result < 2 }
{
    if is_set { 1 } else { 0 }
}

/// A quick value, or a shift's count, is 1 to 8.
fn is_quick(value: u8) -> bool
    ensures { result ≡ is_quick value }
{
    0 < value && value < 9
}

/// EXG's size field.
fn exchange_bits(kind: Exchange) -> u8
    ensures { result ≡ exchange_bits kind }
{
    match kind {
        Exchange::Data | Exchange::Address => 1,
        Exchange::DataAddress => 2,
    }
}

/// EXG's mode field.
fn exchange_mode(kind: Exchange) -> u8
    ensures { result ≡ exchange_mode kind }
{
    match kind {
        Exchange::Data => 0,
        Exchange::Address | Exchange::DataAddress => 1,
    }
}

/// MOVE, whose destination stands with its register before its mode, and whose source's words stand first.
fn move_ea(size: Size, destination: Ea, source: Ea) -> Spelling
    ensures { row_of result ≡ move_row (moves.Move size destination source) }
{
    let (field, bit) = (mode(&destination) % 4, mode(&destination) / 4);
    Spelling {
        is_legal: All.allows(size, mode(&source), lower(&source))
            && DataAlterable.allows(size, mode(&destination), lower(&destination)),
        opcode: op(
            size.move_bits(),
            lower(&destination),
            bit,
            field,
            mode(&source),
            lower(&source),
        ),
        further: Further::Operands(size, source, destination),
    }
}

/// MOVEM.
fn list_ea(class: OperandClass, upper: u8, size: Size, mask: u16, ea: Ea) -> Spelling
    ensures { row_of result ≡ when (not_byte size) (word_ea Any class size 4 upper 0 (2 + long_bit size) mask ea) }
{
    when(
        size.is_not_byte(),
        word_ea(
            WordRule::Any,
            class,
            size,
            head(4, upper, 0, 2 + size.long_bit()),
            mask,
            ea,
        ),
    )
}

/// What moves.
#[rattlefmt::skip]
pub fn move_row(i: &Move) -> Spelling
    ensures { row_of result ≡ move_row i.now }
{
    match *i {
        Move::Exg { x, kind, y } => bare(op(12, x, 1, exchange_bits(kind), exchange_mode(kind), y)),
        Move::FromCcr { ea } => at_ea(DataAlterable, Size::Word, head(4, 1, 0, 3), ea),
        Move::Lea { register, ea } => at_ea(Control, Size::Long, head(4, register, 1, 3), ea),
        Move::LinkL { register, displacement } => with_long(op(4, 4, 0, 0, 1, register), displacement),
        Move::LinkW { register, displacement } => with_word(op(4, 7, 0, 1, 2, register), displacement),
        Move::Move { size, destination, source } => move_ea(size, destination, source),
        Move::Move16Abs { kind, register, address } => with_long(op(15, 3, 0, 0, kind.bits(), register), address),
        Move::Move16Post { x, word } => with_ruled(WordRule::Line, op(15, 3, 0, 0, 4, x), word),
        Move::Movea { size, register, source } =>
            when(size.is_not_byte(), at_ea(All, size, head(size.move_bits(), register, 0, 1), source)),
        Move::MovemLoad { size, ea, mask } => list_ea(LoadList, 6, size, mask, ea),
        Move::MovemStore { size, ea, mask } => list_ea(StoreList, 4, size, mask, ea),
        Move::Movep { register, is_store, size, address, displacement } => {
            let field = flag(is_store) * 2 + size.long_bit();
            when(size.is_not_byte(), with_word(op(0, register, 1, field, 1, address), displacement))
        }
        Move::Moveq { register, immediate } =>
            bare(op(7, register, 0, immediate / 64, immediate / 8 % 8, immediate % 8)),
        Move::Pea { ea } => at_ea(Control, Size::Long, head(4, 4, 0, 1), ea),
        Move::Scc { condition, ea } =>
            at_ea(DataAlterable, Size::Byte, head(5, condition.bits() / 2, condition.bits() % 2, 3), ea),
        Move::Swap { register } => bare(op(4, 4, 0, 1, 0, register)),
        Move::ToCcr { ea } => at_ea(Data, Size::Word, head(4, 2, 0, 3), ea),
        Move::Unlk { register } => bare(op(4, 7, 0, 1, 3, register)),
    }
}

/// ADD, SUB, AND and OR, between a data register and an operand.
fn side_ea(
    class: OperandClass,
    line: u8,
    register: u8,
    to_memory: bool,
    size: Size,
    ea: Ea,
) -> Spelling
    ensures { row_of result ≡ sized (side class to_memory) line register (flag to_memory) size ea }
{
    at_ea(
        class.side(to_memory),
        size,
        head(line, register, flag(to_memory), size.bits()),
        ea,
    )
}

/// ADDA, SUBA and CMPA.
fn address_ea(line: u8, register: u8, size: Size, ea: Ea) -> Spelling
    ensures { row_of result ≡ when (not_byte size) (at_ea All size line register (long_bit size) 3 ea) }
{
    when(
        size.is_not_byte(),
        at_ea(All, size, head(line, register, size.long_bit(), 3), ea),
    )
}

/// ADDQ and SUBQ, whose 8 is spelled 0.
fn quick_ea(quick: u8, bit: u8, size: Size, ea: Ea) -> Spelling
    ensures { row_of result ≡ when (is_quick quick) (sized Alterable 5 (quick % 8) bit size ea) }
{
    when(
        is_quick(quick),
        at_ea(Alterable, size, head(5, quick % 8, bit, size.bits()), ea),
    )
}

/// What computes.
#[rattlefmt::skip]
pub fn arith_row(i: &Arith) -> Spelling
    ensures { row_of result ≡ arith_row i.now }
{
    match *i {
        Arith::Add { register, to_memory, size, ea } => side_ea(All, 13, register, to_memory, size, ea),
        Arith::Adda { register, size, ea } => address_ea(13, register, size, ea),
        Arith::Addi { size, ea, immediate } => immediate_ea(DataAlterable, 3, size, immediate, ea),
        Arith::Addq { quick, size, ea } => quick_ea(quick, 0, size, ea),
        Arith::And { register, to_memory, size, ea } => side_ea(Data, 12, register, to_memory, size, ea),
        Arith::Andi { size, ea, immediate } => immediate_ea(DataAlterable, 1, size, immediate, ea),
        Arith::BitImm { kind, ea, word } =>
            word_ea(WordRule::Any, kind.class_immediate(), Size::Byte, head(0, 4, 0, kind.bits()), word, ea),
        Arith::BitReg { register, kind, ea } => at_ea(kind.class(), Size::Byte, head(0, register, 1, kind.bits()), ea),
        Arith::Cas { size, ea, word } =>
            word_ea(WordRule::Swap, MemoryAlterable, size, head(0, 5 + size.bits(), 0, 3), word, ea),
        Arith::Clr { size, ea } => at_ea(DataAlterable, size, head(4, 1, 0, size.bits()), ea),
        Arith::Cmp { register, size, ea } => at_ea(All, size, head(11, register, 0, size.bits()), ea),
        Arith::Cmp2 { size, ea, word } =>
            word_ea(WordRule::Compare, Control, size, head(0, size.bits(), 0, 3), word, ea),
        Arith::Cmpa { register, size, ea } => address_ea(11, register, size, ea),
        Arith::Cmpi { size, ea, immediate } => immediate_ea(DataAlterableOrPc, 6, size, immediate, ea),
        Arith::DivL { ea, word } => word_ea(WordRule::LongPair, Data, Size::Long, head(4, 6, 0, 1), word, ea),
        Arith::DivW { register, is_signed, ea } => at_ea(Data, Size::Word, head(8, register, flag(is_signed), 3), ea),
        Arith::Eor { register, size, ea } => at_ea(DataAlterable, size, head(11, register, 1, size.bits()), ea),
        Arith::Eori { size, ea, immediate } => immediate_ea(DataAlterable, 5, size, immediate, ea),
        Arith::Field { kind, ea, word } =>
            word_ea(kind.rule(), kind.class(), Size::Long, head(14, 4 + kind.bits() / 2, kind.bits() % 2, 3), word, ea),
        Arith::MulL { ea, word } => word_ea(WordRule::LongPair, Data, Size::Long, head(4, 6, 0, 0), word, ea),
        Arith::MulW { register, is_signed, ea } => at_ea(Data, Size::Word, head(12, register, flag(is_signed), 3), ea),
        Arith::Nbcd { ea } => at_ea(DataAlterable, Size::Byte, head(4, 4, 0, 0), ea),
        Arith::Neg { size, ea } => at_ea(DataAlterable, size, head(4, 2, 0, size.bits()), ea),
        Arith::Negx { size, ea } => at_ea(DataAlterable, size, head(4, 0, 0, size.bits()), ea),
        Arith::Not { size, ea } => at_ea(DataAlterable, size, head(4, 3, 0, size.bits()), ea),
        Arith::Or { register, to_memory, size, ea } => side_ea(Data, 8, register, to_memory, size, ea),
        Arith::Ori { size, ea, immediate } => immediate_ea(DataAlterable, 0, size, immediate, ea),
        Arith::ShiftMem { kind, is_left, ea } =>
            at_ea(MemoryAlterable, Size::Word, head(14, kind.bits(), flag(is_left), 3), ea),
        Arith::Sub { register, to_memory, size, ea } => side_ea(All, 9, register, to_memory, size, ea),
        Arith::Suba { register, size, ea } => address_ea(9, register, size, ea),
        Arith::Subi { size, ea, immediate } => immediate_ea(DataAlterable, 2, size, immediate, ea),
        Arith::Subq { quick, size, ea } => quick_ea(quick, 1, size, ea),
        Arith::Tas { ea } => at_ea(DataAlterable, Size::Byte, head(4, 5, 0, 3), ea),
        Arith::Tst { size, ea } => at_ea(All, size, head(4, 5, 0, size.bits()), ea),
        _ => register_row(i),
    }
}

/// CAS2.
fn cas2(size: Size, first: u16, second: u16) -> Spelling
    ensures { row_of result ≡ arith_row (Cas2 size first second) }
{
    let rule = WordRule::SwapPair;
    Spelling {
        is_legal: size.is_not_byte() && rule.allows(first) && rule.allows(second),
        opcode: op(0, 5 + size.bits(), 0, 3, 7, 4),
        further: Further::Words(first, second),
    }
}

/// The field of a shift's count: 8 is spelled 0.
fn count_field(by_register: bool, count: u8) -> u8
    ensures { result ≡ count_field by_register count }
{
    if by_register { count } else { count % 8 }
}

/// What computes with registers alone, or with the condition codes.
#[rattlefmt::skip]
fn register_row(i: &Arith) -> Spelling
    requires { has_operand i.now ≡ false }
    ensures { row_of result ≡ arith_row i.now }
{
    match *i {
        Arith::Abcd { x, in_memory, y } => bare(op(12, x, 1, 0, flag(in_memory), y)),
        Arith::Addx { x, size, in_memory, y } => bare(op(13, x, 1, size.bits(), flag(in_memory), y)),
        Arith::AndiCcr { word } => with_word(op(0, 1, 0, 0, 7, 4), word),
        Arith::Cas2 { size, first, second } => cas2(size, first, second),
        Arith::Cmpm { x, size, y } => bare(op(11, x, 1, size.bits(), 1, y)),
        Arith::EoriCcr { word } => with_word(op(0, 5, 0, 0, 7, 4), word),
        Arith::ExtL { register } => bare(op(4, 4, 0, 3, 0, register)),
        Arith::ExtW { register } => bare(op(4, 4, 0, 2, 0, register)),
        Arith::ExtbL { register } => bare(op(4, 4, 1, 3, 0, register)),
        Arith::OriCcr { word } => with_word(op(0, 0, 0, 0, 7, 4), word),
        Arith::Pack { x, in_memory, y, word } => with_word(op(8, x, 1, 1, flag(in_memory), y), word),
        Arith::Sbcd { x, in_memory, y } => bare(op(8, x, 1, 0, flag(in_memory), y)),
        Arith::ShiftReg { count, is_left, size, by_register, kind, register } => {
            let (field, mode) = (count_field(by_register, count), flag(by_register) * 4 + kind.bits());
            when(by_register || is_quick(count), bare(op(14, field, flag(is_left), size.bits(), mode, register)))
        }
        Arith::Subx { x, size, in_memory, y } => bare(op(9, x, 1, size.bits(), flag(in_memory), y)),
        Arith::Unpk { x, in_memory, y, word } => with_word(op(8, x, 1, 2, flag(in_memory), y), word),
        _ => unreachable!(),
    }
}

/// Bcc. A displacement byte 0 or $FF says that words follow.
fn branch(condition: Condition, displacement: Branch) -> Spelling
    ensures { row_of result ≡ flow_row (Bcc condition displacement) }
{
    let (is_legal, byte, further) = match displacement {
        Branch::Byte(byte) => (byte != 0 && byte != 0xff, byte, Further::Nothing),
        Branch::Word(word) => (true, 0, Further::Word(word)),
        Branch::Long(long) => (true, 0xff, Further::Long(long)),
    };
    Spelling {
        is_legal,
        opcode: on_condition(6, condition, byte / 64, byte / 8 % 8, byte % 8),
        further,
    }
}

/// TRAPcc.
fn trap(condition: Condition, operand: TrapOperand) -> Spelling
    ensures { row_of result ≡ flow_row (Trapcc condition operand) }
{
    match operand {
        TrapOperand::Word(word) => with_word(on_condition(5, condition, 3, 7, 2), word),
        TrapOperand::Long(long) => with_long(on_condition(5, condition, 3, 7, 3), long),
        TrapOperand::Nothing => bare(on_condition(5, condition, 3, 7, 4)),
    }
}

/// What goes elsewhere.
#[rattlefmt::skip]
pub fn flow_row(i: &Flow) -> Spelling
    ensures { row_of result ≡ flow_row i.now }
{
    match *i {
        Flow::Bcc { condition, displacement } => branch(condition, displacement),
        Flow::Chk { register, size, ea } =>
            when(size.is_not_byte(), at_ea(Data, size, head(4, register, 1, size.chk_bits()), ea)),
        Flow::Chk2 { size, ea, word } =>
            word_ea(WordRule::Check, Control, size, head(0, size.bits(), 0, 3), word, ea),
        Flow::Dbcc { condition, register, displacement } =>
            with_word(on_condition(5, condition, 3, 1, register), displacement),
        Flow::Jmp { ea } => at_ea(Control, Size::Long, head(4, 7, 0, 3), ea),
        Flow::Jsr { ea } => at_ea(Control, Size::Long, head(4, 7, 0, 2), ea),
        Flow::Nop => bare(op(4, 7, 0, 1, 6, 1)),
        Flow::Rtd { displacement } => with_word(op(4, 7, 0, 1, 6, 4), displacement),
        Flow::Rtr => bare(op(4, 7, 0, 1, 6, 7)),
        Flow::Rts => bare(op(4, 7, 0, 1, 6, 5)),
        Flow::Trap { number } => when(number < 16, bare(op(4, 7, 0, 1, number / 8, number % 8))),
        Flow::Trapcc { condition, operand } => trap(condition, operand),
        Flow::Trapv => bare(op(4, 7, 0, 1, 6, 6)),
    }
}

/// What only a supervisor does.
#[rattlefmt::skip]
pub fn system_row(i: &System) -> Spelling
    ensures { row_of result ≡ system_row i.now }
{
    match *i {
        System::AndiSr { word } => with_word(op(0, 1, 0, 1, 7, 4), word),
        System::Cinv { caches, scope, register } => bare(op(15, 2, 0, caches.bits(), scope.bits(), register)),
        System::Cpush { caches, scope, register } => bare(op(15, 2, 0, caches.bits(), 4 + scope.bits(), register)),
        System::EoriSr { word } => with_word(op(0, 5, 0, 1, 7, 4), word),
        System::FromSr { ea } => at_ea(DataAlterable, Size::Word, head(4, 0, 0, 3), ea),
        System::MoveUsp { from_usp, register } => bare(op(4, 7, 0, 1, 4 + flag(from_usp), register)),
        System::Movec { to_control, word } =>
            with_ruled(WordRule::Control, op(4, 7, 0, 1, 7, 2 + flag(to_control)), word),
        System::Moves { size, ea, word } =>
            word_ea(WordRule::RegisterAndBit, MemoryAlterable, size, head(0, 7, 0, size.bits()), word, ea),
        System::OriSr { word } => with_word(op(0, 0, 0, 1, 7, 4), word),
        System::Pflush { kind, register } => bare(op(15, 2, 1, 0, kind.bits(), register)),
        System::Ptest { is_read, register } => bare(op(15, 2, 1, 1, flag(is_read) * 4 + 1, register)),
        System::Reset => bare(op(4, 7, 0, 1, 6, 0)),
        System::Rte => bare(op(4, 7, 0, 1, 6, 3)),
        System::Stop { word } => with_word(op(4, 7, 0, 1, 6, 2), word),
        System::ToSr { ea } => at_ea(Data, Size::Word, head(4, 3, 0, 3), ea),
    }
}
