//! The lines of a text, with and without characters.

ghost use Rattle.std.specs.Prelude.{◌<◌, ◌^◌, length};

use mb_lines::Lines;

type Numbered<'a> = (u32, &'a [u8]);

/// Whether the text has these lines, and so many with those without characters.
fn has_lines(text: &[u8], want: &[Numbered], count: u32) -> bool
    requires { length text.now < 2 ^ 31 }
{
    let mut lines = Lines::new(text);
    for (number, characters) in want {
        match lines.next_line() {
            Some(line) if line.number == *number && line.characters == *characters => {}
            _ => return false,
        }
    }
    lines.next_line().is_none() && lines.count() == count
}

/// A text: its lines with their numbers, and how many there are.
#[rattlefmt::skip]
static LINES: [(&[u8], &[Numbered], u32); 11] = [
    // text: its lines with their numbers, and how many there are
    (b"", &[], 0),
    (b"\n", &[], 1),
    (b"\r\n\n", &[], 2),
    (b"\r", &[(1, b"\r")], 1),
    (b"a", &[(1, b"a")], 1),
    (b"a\n", &[(1, b"a")], 1),
    (b"a\r\nb\r\n", &[(1, b"a"), (2, b"b")], 2),
    (b"a\rb\r\r\nc\r", &[(1, b"a\rb\r"), (2, b"c\r")], 2),
    (b"\n\na\n\n b \n\n", &[(3, b"a"), (5, b" b ")], 6),
    (b"\0\xFF\n#", &[(1, b"\0\xFF"), (2, b"#")], 2),
    (b"\n\r\n\n\nlast", &[(5, b"last")], 5),
];

#[test]
fn reads_lines(rt: HostRuntime) {
    for &(text, want, count) in &LINES {
        assert!(rt; text.len() < 1000);
        assert!(rt; has_lines(text, want, count), "{text:?}");
    }
}
