//! Line 4: one operand, none, jumps, and what governs the processor.
#![tactic(auto, unfolding(crate::specs::Reading::reads_then))]

ghost use Rattle.std.specs.Prelude.{◌≡◌, ◌<◌};
ghost use Rattle.mb_instr.specs.Opcodes.{IsOpcode};
ghost use Rattle.mb_decode.specs.Reading.{Gives};
ghost use Rattle.mb_decode.specs.RowReading.{unary_4, status_4, nbcd_4, pea_4, movem_store_4, tst_4, long_pair_4};
ghost use Rattle.mb_decode.specs.RowReading.{movem_load_4, jump_4, single_4, movec_4, system_4, even_4, lea_4};
ghost use Rattle.mb_decode.specs.RowReading.{chk_4, odd_4, line_4, unary_instr, status_class, status_instr, extend_instr};
ghost use Rattle.mb_decode.specs.RowReading.{long_pair_instr, jump_instr, chk_size};

use crate::reading::{Reading, Stop, ea, long, ruled, sized, word, word_ea};
use mb_instr::{Arith, Ea, Flow, Instr, Move, Opcode, OperandClass, Size, System, WordRule};

/// NEGX, CLR, NEG and NOT.
fn unary_instr(upper: u8, size: Size, ea: Ea) -> Instr
    ensures { result ≡ unary_instr upper size ea }
{
    let arith = match upper {
        0 => Arith::Negx { size, ea },
        1 => Arith::Clr { size, ea },
        2 => Arith::Neg { size, ea },
        _ => Arith::Not { size, ea },
    };
    Instr::Arith(arith)
}

/// NEGX, CLR, NEG and NOT.
fn unary(op: Opcode, words: &[u16]) -> Reading<'_, Instr>
    requires { IsOpcode op }
    ensures { Gives result (unary_4 op words.now) }
{
    let ((size, ea), rest) = sized(OperandClass::DataAlterable, op, words)?;
    Ok((unary_instr(op.upper, size, ea), rest))
}

/// What moves to a status register takes more than what moves from it.
fn status_class(upper: u8) -> OperandClass
    ensures { result ≡ status_class upper }
{
    if upper < 2 {
        OperandClass::DataAlterable
    } else {
        OperandClass::Data
    }
}

fn status_instr(upper: u8, ea: Ea) -> Instr
    ensures { result ≡ status_instr upper ea }
{
    match upper {
        0 => Instr::System(System::FromSr { ea }),
        1 => Instr::Move(Move::FromCcr { ea }),
        2 => Instr::Move(Move::ToCcr { ea }),
        _ => Instr::System(System::ToSr { ea }),
    }
}

/// MOVE from SR, from CCR, to CCR and to SR.
fn status(op: Opcode, words: &[u16]) -> Reading<'_, Instr>
    requires { IsOpcode op }
    ensures { Gives result (status_4 op words.now) }
{
    let (ea, rest) = ea(status_class(op.upper), Size::Word, op, words)?;
    Ok((status_instr(op.upper, ea), rest))
}

/// NBCD, and LINK with a long.
fn nbcd(op: Opcode, words: &[u16]) -> Reading<'_, Instr>
    requires { IsOpcode op }
    ensures { Gives result (nbcd_4 op words.now) }
{
    if op.mode == 1 {
        let register = op.lower;
        let (displacement, rest) = long(words)?;
        let link = Move::LinkL {
            register,
            displacement,
        };
        return Ok((Instr::Move(link), rest));
    }
    let (ea, rest) = ea(OperandClass::DataAlterable, Size::Byte, op, words)?;
    Ok((Instr::Arith(Arith::Nbcd { ea }), rest))
}

/// PEA and SWAP.
fn pea(op: Opcode, words: &[u16]) -> Reading<'_, Instr>
    requires { IsOpcode op }
    ensures { Gives result (pea_4 op words.now) }
{
    if op.mode == 0 {
        let register = op.lower;
        return Ok((Instr::Move(Move::Swap { register }), words));
    }
    let (ea, rest) = ea(OperandClass::Control, Size::Long, op, words)?;
    Ok((Instr::Move(Move::Pea { ea }), rest))
}

/// EXT to a word and to a long.
fn extend_instr(field: u8, register: u8) -> Instr
    ensures { result ≡ extend_instr field register }
{
    if field == 2 {
        Instr::Arith(Arith::ExtW { register })
    } else {
        Instr::Arith(Arith::ExtL { register })
    }
}

/// MOVEM to memory, and EXT.
fn movem_store(op: Opcode, words: &[u16]) -> Reading<'_, Instr>
    requires { IsOpcode op }
    ensures { Gives result (movem_store_4 op words.now) }
{
    if op.mode == 0 {
        return Ok((extend_instr(op.size, op.lower), words));
    }
    let size = Size::of_bit(op.size % 2);
    let ((mask, ea), rest) = word_ea(WordRule::Any, OperandClass::StoreList, size, op, words)?;
    Ok((Instr::Move(Move::MovemStore { size, ea, mask }), rest))
}

/// TST and TAS.
fn tst(op: Opcode, words: &[u16]) -> Reading<'_, Instr>
    requires { IsOpcode op }
    ensures { Gives result (tst_4 op words.now) }
{
    if op.size == 3 {
        let (ea, rest) = ea(OperandClass::DataAlterable, Size::Byte, op, words)?;
        return Ok((Instr::Arith(Arith::Tas { ea }), rest));
    }
    let ((size, ea), rest) = sized(OperandClass::All, op, words)?;
    Ok((Instr::Arith(Arith::Tst { size, ea }), rest))
}

fn long_pair_instr(field: u8, word: u16, ea: Ea) -> Instr
    ensures { result ≡ long_pair_instr field word ea }
{
    if field == 0 {
        Instr::Arith(Arith::MulL { ea, word })
    } else {
        Instr::Arith(Arith::DivL { ea, word })
    }
}

/// MULU, MULS, DIVU and DIVS of longs.
fn long_pair(op: Opcode, words: &[u16]) -> Reading<'_, Instr>
    requires { IsOpcode op }
    ensures { Gives result (long_pair_4 op words.now) }
{
    let class = OperandClass::Data;
    let ((word, ea), rest) = word_ea(WordRule::LongPair, class, Size::Long, op, words)?;
    Ok((long_pair_instr(op.size, word, ea), rest))
}

/// MOVEM from memory.
fn movem_load(op: Opcode, words: &[u16]) -> Reading<'_, Instr>
    requires { IsOpcode op }
    ensures { Gives result (movem_load_4 op words.now) }
{
    let size = Size::of_bit(op.size % 2);
    let ((mask, ea), rest) = word_ea(WordRule::Any, OperandClass::LoadList, size, op, words)?;
    Ok((Instr::Move(Move::MovemLoad { size, ea, mask }), rest))
}

fn jump_instr(field: u8, ea: Ea) -> Instr
    ensures { result ≡ jump_instr field ea }
{
    if field == 2 {
        Instr::Flow(Flow::Jsr { ea })
    } else {
        Instr::Flow(Flow::Jmp { ea })
    }
}

/// JSR and JMP.
fn jump(op: Opcode, words: &[u16]) -> Reading<'_, Instr>
    requires { IsOpcode op }
    ensures { Gives result (jump_4 op words.now) }
{
    let (ea, rest) = ea(OperandClass::Control, Size::Long, op, words)?;
    Ok((jump_instr(op.size, ea), rest))
}

/// `$4E70` to `$4E77`.
fn single(op: Opcode, words: &[u16]) -> Reading<'_, Instr>
    requires { IsOpcode op }
    ensures { Gives result (single_4 op words.now) }
{
    match op.lower {
        0 => Ok((Instr::System(System::Reset), words)),
        1 => Ok((Instr::Flow(Flow::Nop), words)),
        2 => {
            let (word, rest) = word(words)?;
            Ok((Instr::System(System::Stop { word }), rest))
        }
        3 => Ok((Instr::System(System::Rte), words)),
        4 => {
            let (displacement, rest) = word(words)?;
            Ok((Instr::Flow(Flow::Rtd { displacement }), rest))
        }
        5 => Ok((Instr::Flow(Flow::Rts), words)),
        6 => Ok((Instr::Flow(Flow::Trapv), words)),
        _ => Ok((Instr::Flow(Flow::Rtr), words)),
    }
}

/// MOVEC, in `$4E78` to `$4E7F`.
fn movec(op: Opcode, words: &[u16]) -> Reading<'_, Instr>
    requires { IsOpcode op }
    ensures { Gives result (movec_4 op words.now) }
{
    if op.lower != 2 && op.lower != 3 {
        return Err(Stop::Illegal);
    }
    let (word, rest) = ruled(WordRule::Control, words)?;
    let to_control = op.lower == 3;
    Ok((Instr::System(System::Movec { to_control, word }), rest))
}

/// `$4E40` to `$4E7F`.
fn system(op: Opcode, words: &[u16]) -> Reading<'_, Instr>
    requires { IsOpcode op }
    ensures { Gives result (system_4 op words.now) }
{
    let register = op.lower;
    match op.mode {
        0 | 1 => {
            let number = op.mode * 8 + op.lower;
            Ok((Instr::Flow(Flow::Trap { number }), words))
        }
        2 => {
            let (displacement, rest) = word(words)?;
            let link = Move::LinkW {
                register,
                displacement,
            };
            Ok((Instr::Move(link), rest))
        }
        3 => Ok((Instr::Move(Move::Unlk { register }), words)),
        6 => single(op, words),
        7 => movec(op, words),
        mode => {
            let from_usp = mode == 5;
            Ok((Instr::System(System::MoveUsp { from_usp, register }), words))
        }
    }
}

/// Bit 8 clear.
fn even(op: Opcode, words: &[u16]) -> Reading<'_, Instr>
    requires { IsOpcode op }
    ensures { Gives result (even_4 op words.now) }
{
    match (op.upper, op.size) {
        (0..=3, 3) => status(op, words),
        (0..=3, _) => unary(op, words),
        (4, 0) => nbcd(op, words),
        (4, 1) => pea(op, words),
        (4, _) => movem_store(op, words),
        (5, _) => tst(op, words),
        (6, 2..) => movem_load(op, words),
        (6, _) => long_pair(op, words),
        (_, 2..) => jump(op, words),
        (_, 1) => system(op, words),
        _ => Err(Stop::Illegal),
    }
}

/// LEA, and EXTB to a long.
fn lea(op: Opcode, words: &[u16]) -> Reading<'_, Instr>
    requires { IsOpcode op }
    ensures { Gives result (lea_4 op words.now) }
{
    if op.upper == 4 && op.mode == 0 {
        let register = op.lower;
        return Ok((Instr::Arith(Arith::ExtbL { register }), words));
    }
    let (ea, rest) = ea(OperandClass::Control, Size::Long, op, words)?;
    let register = op.upper;
    Ok((Instr::Move(Move::Lea { register, ea }), rest))
}

/// CHK has its sizes in another order.
fn chk_size(field: u8) -> Size
    ensures { result ≡ chk_size field }
{
    if field == 0 { Size::Long } else { Size::Word }
}

/// CHK.
fn chk(op: Opcode, words: &[u16]) -> Reading<'_, Instr>
    requires { IsOpcode op }
    ensures { Gives result (chk_4 op words.now) }
{
    let size = chk_size(op.size);
    let (ea, rest) = ea(OperandClass::Data, size, op, words)?;
    let register = op.upper;
    Ok((Instr::Flow(Flow::Chk { register, size, ea }), rest))
}

/// Bit 8 set.
fn odd(op: Opcode, words: &[u16]) -> Reading<'_, Instr>
    requires { IsOpcode op }
    ensures { Gives result (odd_4 op words.now) }
{
    match op.size {
        3 => lea(op, words),
        1 => Err(Stop::Illegal),
        _ => chk(op, words),
    }
}

/// The rows of line 4.
pub fn line_4(op: Opcode, words: &[u16]) -> Reading<'_, Instr>
    requires { IsOpcode op }
    ensures { Gives result (line_4 op words.now) }
{
    if op.bit == 1 {
        odd(op, words)
    } else {
        even(op, words)
    }
}
