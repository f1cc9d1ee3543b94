//! Lines, and their tokens.

ghost use Rattle.std.specs.Prelude.{◌<◌, ◌^◌, length};

use TokenKind::{Blank, Comment, Mark, Name, Number, Text};
use mb_asm_text::{LexFault, TokenKind, lex};
use std::alloc::Global;

/// Whether the line has exactly these tokens.
fn has_tokens(alloc: Global, line: &[u8], want: &[(TokenKind, u32, u32)]) -> Result<bool, LexFault>
    requires { length line.now < 2 ^ 31 }
{
    let tokens = lex(alloc, line)?;
    Ok(
        tokens.tokens().len() == want.len()
            && tokens.tokens().iter().zip(want).all(|(token, want)| (
                token.kind,
                token.start,
                token.end,
            ) == *want),
    )
}

/// A line, and the kind, start and end of each of its tokens, or the place at which none begins.
struct Row {
    line: &'static [u8],
    cut: Result<&'static [(TokenKind, u32, u32)], u32>,
}

#[rattlefmt::skip]
static ROWS: [Row; 53] = [
    Row { line: b"", cut: Ok(&[]) },
    Row { line: b"_a9Z", cut: Ok(&[(Name, 0, 4)]) },
    Row { line: b"9a", cut: Ok(&[(Number, 0, 1), (Name, 1, 2)]) },
    Row { line: b"0123456789", cut: Ok(&[(Number, 0, 10)]) },
    Row { line: b"$0aF9g", cut: Ok(&[(Number, 0, 5), (Name, 5, 6)]) },
    Row { line: b"%0102", cut: Ok(&[(Number, 0, 4), (Number, 4, 5)]) },
    Row { line: b"'a'", cut: Ok(&[(Number, 0, 3)]) },
    Row { line: b"'''", cut: Ok(&[(Number, 0, 3)]) },
    Row { line: b"' ''~'", cut: Ok(&[(Number, 0, 3), (Number, 3, 6)]) },
    Row { line: b"'\"'", cut: Ok(&[(Number, 0, 3)]) },
    Row { line: b"\"\"", cut: Ok(&[(Text, 0, 2)]) },
    Row { line: b"\"; ~'\"x\"*\"", cut: Ok(&[(Text, 0, 6), (Name, 6, 7), (Text, 7, 10)]) },
    Row { line: b"#", cut: Ok(&[(Mark, 0, 1)]) },
    Row { line: b"()[]", cut: Ok(&[(Mark, 0, 1), (Mark, 1, 2), (Mark, 2, 3), (Mark, 3, 4)]) },
    Row { line: b"{},.", cut: Ok(&[(Mark, 0, 1), (Mark, 1, 2), (Mark, 2, 3), (Mark, 3, 4)]) },
    Row { line: b":+-/", cut: Ok(&[(Mark, 0, 1), (Mark, 1, 2), (Mark, 2, 3), (Mark, 3, 4)]) },
    Row { line: b" \t ", cut: Ok(&[(Blank, 0, 3)]) },
    Row { line: b";", cut: Ok(&[(Comment, 0, 1)]) },
    Row { line: b";\xFF\0\"", cut: Ok(&[(Comment, 0, 4)]) },
    Row { line: b"a;b ;c", cut: Ok(&[(Name, 0, 1), (Comment, 1, 6)]) },
    Row { line: b"*", cut: Ok(&[(Comment, 0, 1)]) },
    Row { line: b"* @\x80", cut: Ok(&[(Comment, 0, 4)]) },
    Row { line: b" *", cut: Ok(&[(Blank, 0, 1), (Mark, 1, 2)]) },
    Row { line: b" **a", cut: Ok(&[(Blank, 0, 1), (Mark, 1, 2), (Mark, 2, 3), (Name, 3, 4)]) },
    Row { line: b"a*4", cut: Ok(&[(Name, 0, 1), (Mark, 1, 2), (Number, 2, 3)]) },
    Row { line: b"x: EQU *",
        cut: Ok(&[(Name, 0, 1), (Mark, 1, 2), (Blank, 2, 3), (Name, 3, 6), (Blank, 6, 7), (Mark, 7, 8)]) },
    Row { line: b" MOVE.W #$1F,(A0)+ ; x",
        cut: Ok(&[(Blank, 0, 1), (Name, 1, 5), (Mark, 5, 6), (Name, 6, 7), (Blank, 7, 8), (Mark, 8, 9), (Number, 9, 12),
            (Mark, 12, 13), (Mark, 13, 14), (Name, 14, 16), (Mark, 16, 17), (Mark, 17, 18), (Blank, 18, 19),
            (Comment, 19, 22)]) },
    Row { line: b" DC.B \"a;b\",'\"',%1",
        cut: Ok(&[(Blank, 0, 1), (Name, 1, 3), (Mark, 3, 4), (Name, 4, 5), (Blank, 5, 6), (Text, 6, 11), (Mark, 11, 12),
            (Number, 12, 15), (Mark, 15, 16), (Number, 16, 18)]) },
    Row { line: b"azAZ_09", cut: Ok(&[(Name, 0, 7)]) },
    Row { line: b"$AFaf09", cut: Ok(&[(Number, 0, 7)]) },
    Row { line: b"$1$2", cut: Ok(&[(Number, 0, 2), (Number, 2, 4)]) },
    Row { line: b"%1%0", cut: Ok(&[(Number, 0, 2), (Number, 2, 4)]) },
    Row { line: b"'a'b", cut: Ok(&[(Number, 0, 3), (Name, 3, 4)]) },
    Row { line: b"4294967296", cut: Ok(&[(Number, 0, 10)]) },
    Row { line: b" DC.B @", cut: Err(6) },
    Row { line: b"$", cut: Err(0) },
    Row { line: b"$g", cut: Err(0) },
    Row { line: b"a $", cut: Err(2) },
    Row { line: b"%", cut: Err(0) },
    Row { line: b"%2", cut: Err(0) },
    Row { line: b"'", cut: Err(0) },
    Row { line: b"'a", cut: Err(0) },
    Row { line: b"''", cut: Err(0) },
    Row { line: b"'ab'", cut: Err(0) },
    Row { line: b"'\t'", cut: Err(0) },
    Row { line: b"'\x7F'", cut: Err(0) },
    Row { line: b"\"", cut: Err(0) },
    Row { line: b"x\"a", cut: Err(1) },
    Row { line: b"\"a\tb\"", cut: Err(0) },
    Row { line: b"\"a\x7F\"", cut: Err(0) },
    Row { line: b" \r", cut: Err(1) },
    Row { line: b"a\0", cut: Err(1) },
    Row { line: b"a@;@", cut: Err(1) },
];

/// Whether a line is cut so; nothing where it is long, or memory ran out.
fn is_cut(alloc: Global, row: &Row) -> Option<bool> {
    if row.line.len() > 1000 {
        return None;
    }
    match row.cut {
        Ok(tokens) => has_tokens(alloc, row.line, tokens).ok(),
        Err(place) => Some(lex(alloc, row.line).err() == Some(LexFault::At(place))),
    }
}

#[test]
fn cuts_lines(rt: HostRuntime) {
    for row in &ROWS {
        let line = row.line;
        assert!(rt; is_cut(rt.alloc(), row) == Some(true), "{line:?}");
    }
}

/// The bytes from $20 to $7E with which no token begins, whatever follows, or not alone.
const NO_TOKEN_ALONE: &[u8] = b"!\"$%&'<=>?@\\^`|~";

#[test]
fn tries_every_byte(rt: HostRuntime) {
    for byte in 0..=255u8 {
        let line = [b' ', byte];
        let begins_none = !(matches!(byte, b' '..=b'~') || byte == b'\t')
            || NO_TOKEN_ALONE.contains(&byte);
        let answer = lex(rt.alloc(), &line).err();
        let want = if begins_none {
            Some(LexFault::At(1))
        } else {
            None
        };
        assert!(rt; answer == want, "{byte}");
    }
}
