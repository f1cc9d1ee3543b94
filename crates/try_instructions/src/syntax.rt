//! Lines, and the statements that they are.

use mb_syntax::{Expression, Mode, Operand, SizeLetter, Statement, SyntaxFault, Width, parse};
use std::alloc::Global;

#[rattlefmt::skip]
static STATEMENTS: [&[u8]; 34] = [
    b"",
    b"   ; a comment",
    b"* a comment",
    b"label",
    b"label: nop",
    b" move.w d0 , A7",
    b" MOVE (SP)+,-(A1)",
    b" LEA (4,A0),A1",
    b" LEA (-4,A0,D1.W*2),A1",
    b" LEA (there,PC),A1",
    b" LEA (there,PC,A2.L),A1",
    b" LEA ($10.L,A0,D1.L*8),A1",
    b" LEA ([4.W,A0,D1.L*4],8.W),A1",
    b" LEA ([4.W,A0],D1.L*4,8.L),A1",
    b" LEA ([A0]),A1",
    b" LEA (4,ZA0,D1.L),A1",
    b" LEA (4.W,ZPC),A1",
    b" LEA (4,A0,ZD3),A1",
    b" LEA $1000.W,A1",
    b" LEA there+4-*,A1",
    b" MOVEM.L D0-D3/A0/A2-A6,-(SP)",
    b" BFEXTU D0{4:D1},D2",
    b" MULU.L D0,D1:D2",
    b" CAS2 D0:D1,D2:D3,(A0):(D4)",
    b" MOVEC VBR,D0",
    b" MOVE SR,D0",
    b" CINVL DC,(A0)",
    b" CPUSHA BC",
    b"DC EQU 4",
    b" DC.L DC,$FFFFFFFFFF",
    b" DC.B \"text\",'c',%101",
    b" TRAPEQ.W #4",
    b" PACK -(A0),-(A1),#3",
    b" PFLUSHAN",
];

#[rattlefmt::skip]
static OTHERS: [&[u8]; 24] = [
    b" DC.B @",
    b"label:nop",
    b"d0 nop",
    b" nop.q",
    b" move d0 d1",
    b" move d0,",
    b" move (d0),d1",
    b" lea (4,a0,d1),a1",
    b" lea (4,a0,d1.w*3),a1",
    b" lea (a0,d1.w),a1",
    b" lea (pc),a1",
    b" lea (4),a1",
    b" lea ([4,a0],a1",
    b" lea ([4,a0,d1.l],d2.l,4),a1",
    b" movem.l d3-d0,(a0)",
    b" movem.l d7-a0,(a0)",
    b" bfextu d0{4},d1",
    b" dc.l 1 + 2",
    b" dc.l 1+",
    b" dc.l --1",
    b" dc.l d0+1",
    b" mulu.l d0,d1:a2",
    b" move # 1,d0",
    b"a_symbol_that_is_longer_than_sixty_three_bytes_has_no_place_at_all nop",
];

/// Whether a line is a statement, or none by its syntax; nothing of a long line, and where memory ran out.
fn is_statement(alloc: Global, line: &[u8]) -> Option<bool> {
    if line.len() > 1000 {
        return None;
    }
    match parse(alloc, line) {
        Ok(_) => Some(true),
        Err(SyntaxFault::Syntax) => Some(false),
        Err(_) => None,
    }
}

#[test]
fn lines_of_the_grammar_and_others(rt: HostRuntime) {
    for &line in &STATEMENTS {
        assert!(rt; is_statement(rt.alloc(), line) == Some(true), "{line:?}");
    }
    for &line in &OTHERS {
        assert!(rt; is_statement(rt.alloc(), line) == Some(false), "{line:?}");
    }
}

/// A line with a label and two operands.
const LINE: &[u8] = b"here: MOVE.B there.W,(A3)+ ; and there";

/// Whether operands are a short address, and a register that steps.
fn are_short_and_step(operands: &[Operand<Expression>]) -> bool {
    matches!(
        operands,
        [
            Operand::Mode(Mode::Absolute {
                width: Some(Width::Word),
                ..
            }),
            Operand::Mode(Mode::PostIncrement(3)),
        ]
    )
}

/// Whether a statement of that line has all its parts.
fn has_parts(statement: &Statement) -> bool {
    let (Some(label), Some(operation)) = (&statement.label, &statement.operation) else {
        return false;
    };
    label.bytes(LINE) == b"here".as_slice()
        && operation.name.bytes(LINE) == b"MOVE".as_slice()
        && matches!(operation.size, Some(SizeLetter::Byte))
        && are_short_and_step(&operation.operands)
}

#[test]
fn one_statement(rt: HostRuntime) {
    let statement = parse(rt.alloc(), LINE).ok();
    assert!(rt; has_parts(&statement.expect(&rt, "a statement")));
}
