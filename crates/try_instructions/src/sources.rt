//! Sources, and their images or first faults.

use mb_asm::{AsmFault, AsmKind, assemble};
use mb_srec::write_records;
use std::alloc::Global;
use std::process::Abort;

/// The first faulty line of a text and its kind; none where there is an image.
fn fault_of(rt: &impl Abort, alloc: Global, text: &[u8]) -> Option<(u32, AsmKind)> {
    assert!(rt; text.len() < 1 << 31);
    match assemble(alloc, text) {
        Ok(_) => None,
        Err(AsmFault::Line { number, kind }) => Some((number, kind)),
        Err(AsmFault::Memory) => None,
    }
}

/// A source, and the line that is faulty in it with its fault, if one is.
#[rattlefmt::skip]
static FAULTY_LINES: [(&[u8], Option<(u32, AsmKind)>); 53] = [
    (b"", None),
    (b"; nothing\n* nothing\n\n   \n", None),
    (b" NOP\n", None),
    (b" DC.B @\n", Some((1, AsmKind::Syntax))),
    (b"a EQU 1\n EQU 2\n", Some((2, AsmKind::Syntax))),
    (b"\n ADD.Q D0,D1\n", Some((2, AsmKind::Syntax))),
    (b"label:NOP\n", Some((1, AsmKind::Syntax))),
    (b" MOVE D0, D1 ; blanks around commas\n", None),
    (b" MOVEX D0,D1\n", Some((1, AsmKind::Name))),
    (b" BRA there\n", Some((1, AsmKind::Name))),
    (b" BRA there\n NOP\nthere: NOP\n", None),
    (b" ORG later\nlater EQU 2\n", Some((1, AsmKind::Name))),
    (b"a DS.B a\n", Some((1, AsmKind::Name))),
    (b"a EQU 1\na EQU 2\n", Some((2, AsmKind::Twice))),
    (b"a NOP\nA NOP\n", None),
    (b" MOVEA.B D0,A0\n", Some((1, AsmKind::Operand))),
    (b" EVEN 2\n", Some((1, AsmKind::Operand))),
    (b" DC.W\n", Some((1, AsmKind::Operand))),
    (b" DC.W \"ab\"\n", Some((1, AsmKind::Operand))),
    (b" MOVEQ #256,D0\n", Some((1, AsmKind::Range))),
    (b" DC.B 256\n", Some((1, AsmKind::Range))),
    (b" DC.B -128,255\n", None),
    (b" MOVE.L #$100000000,D0\n", Some((1, AsmKind::Range))),
    (b" MOVEA.B #$100000000,A0\n", Some((1, AsmKind::Operand))),
    (b" ORG -1\n", Some((1, AsmKind::Range))),
    (b" ORG $FFFFFFFF+1\n", Some((1, AsmKind::Place))),
    (b" ORG $FFFFFFFF\n DC.B 1\n", None),
    (b" ORG $FFFFFFFF\n DC.B 1,2\n", Some((2, AsmKind::Place))),
    (b" DC.B 1\n NOP\n", Some((2, AsmKind::Place))),
    (b" DC.B 1\n DC.W 2\n", None),
    (b" BRA.S there\n DS.B 300\nthere NOP\n", Some((1, AsmKind::Range))),
    (b" BRA.S there\n DS.B 300\n MOVEX\nthere NOP\n", Some((3, AsmKind::Name))),
    (b" BRA.S there\n MOVEX\n ORG 300\nthere NOP\n", Some((1, AsmKind::Range))),
    (b" BEQ.S skip\n MOVEA.B D0,A0\nskip NOP\n", Some((2, AsmKind::Operand))),
    (b" BEQ.S skip\n @\nskip NOP\n", Some((2, AsmKind::Syntax))),
    (b" BEQ.S skip\n DS.B *-3\nskip NOP\n", Some((2, AsmKind::Range))),
    (b" LEA (msg,PC),A0\nmsg DC.B @\n", Some((2, AsmKind::Syntax))),
    (b" LEA (msg,PC),A0\nmsg: DC.B 1,\n", Some((2, AsmKind::Syntax))),
    (b" LEA (msg,PC),A0\nmsg:DC.B 1\n", Some((1, AsmKind::Name))),
    (b" LEA (msg,PC),A0\nmsg MOVEA.B D0,A0\n", Some((2, AsmKind::Operand))),
    (b" DC.B a\na EQU $100000000\n", Some((2, AsmKind::Range))),
    (b" DC.B 256,b\n MOVEX\nb NOP\n", Some((1, AsmKind::Range))),
    (b" MOVE.L #$100000000,b\n MOVEX\nb NOP\n", Some((1, AsmKind::Range))),
    (b" MOVE.W #70000,skip\n MOVEX\nskip NOP\n", Some((1, AsmKind::Range))),
    (b" MOVE.W #70000,(skip,A0)\n MOVEX\nskip NOP\n", Some((1, AsmKind::Range))),
    (b" MOVE.W (skip,PC),(40000,A0)\n MOVEX\nskip NOP\n", Some((1, AsmKind::Range))),
    (b" MOVE.W ([skip,PC],40000.W),D0\n MOVEX\nskip NOP\n", Some((1, AsmKind::Range))),
    (b" BFEXTU skip{1:33},D0\n MOVEX\nskip NOP\n", Some((1, AsmKind::Range))),
    (b" ADDQ.L #8,skip\n MOVEX\nskip NOP\n", Some((2, AsmKind::Name))),
    (b" ADDQ.L #skip,(skip,A0,D0.W)\n MOVEX\nskip NOP\n", Some((2, AsmKind::Name))),
    (b" BTST #70,(skip,PC,D0.W)\n MOVEX\nskip NOP\n", Some((2, AsmKind::Name))),
    (b" BFEXTU (skip,PC){skip:skip},D0\n MOVEX\nskip NOP\n", Some((2, AsmKind::Name))),
    (b" MOVEX\na EQU *\n DS.B a\nb NOP\n", Some((1, AsmKind::Name))),
];

#[rattlefmt::skip]
#[test]
fn faulty_lines(rt: HostRuntime) {
    for &(text, fault) in &FAULTY_LINES {
        assert!(rt; fault_of(&rt, rt.alloc(), text) == fault, "{text:?}");
    }
}

/// The addresses and bytes of a program's chunks.
#[rattlefmt::skip]
static CHUNKS: [(u32, &[u8]); 3] = [
    (0, b"\x00\x01\x00\x00\x00\x00\x04\x00"),
    (0x400, b"\x41\xFA\x00\x14\x10\x18\x67\x0A\x13\xC0\xFF\xF0\x00\x00\x60\x00\xFF\xF4\x4E\x72\x27\x00Hi\n\x00"),
    (0x41E, b"\x00\x1E\x04\x1E"),
];

/// A small source, and its records.
const SMALL: &[u8] =
    b" ORG 0\n DC.L $10000,start\n ORG $400\nstart MOVEQ #'A',D0\n MOVE.B D0,$FFF00000\n MOVE.L #1,$FFF00020\n";

const RECORDS: &[u8] = b"S0030000FC\nS30D000000000001000000000400ED\n\
S31500000400704113C0FFF0000023FC00000001FFF064\nS307000004100020C4\nS70500000000FA\n";

/// A program that prints a text.
const PROGRAM: &[u8] =
    b"stack   EQU $10000\n        ORG 0\n        DC.L stack, start\n        ORG $400\n\
start:  LEA (text,PC),A0\nloop    MOVE.B (A0)+,D0\n        BEQ.S done\n\
\x20       MOVE.B D0,out\n        BRA loop\ndone    STOP #$2700\nout     EQU $FFF00000\n\
text    DC.B \"Hi\",10,0\n        EVEN\n        DS.W 2\nend     DC.W end-start, *\n";

/// The records of a source.
fn records_of(alloc: Global, text: &[u8]) -> Option<Vec<u8>> {
    if text.len() > 1000 {
        return None;
    }
    let image = assemble(alloc, text).ok()?;
    write_records(alloc, &image).ok()
}

/// Whether a source has these chunks.
fn has_chunks(alloc: Global, text: &[u8], wanted: &[(u32, &[u8])]) -> Option<bool> {
    if text.len() > 1000 {
        return None;
    }
    let image = assemble(alloc, text).ok()?;
    for (chunk, (at, bytes)) in image.chunks().iter().zip(wanted) {
        if chunk.at() != *at || chunk.bytes() != *bytes {
            return Some(false);
        }
    }
    Some(image.chunks().len() == wanted.len())
}

#[test]
fn images(rt: HostRuntime) {
    let records = records_of(rt.alloc(), SMALL).expect(&rt, "records");
    assert!(rt; records.as_slice() == RECORDS);
    assert!(rt; has_chunks(rt.alloc(), PROGRAM, &CHUNKS) == Some(true));
}
