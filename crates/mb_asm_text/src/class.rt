//! Classes of bytes.

ghost use Rattle.std.specs.Prelude.{◌≡◌};
ghost use Rattle.mb_asm_text.specs.Kinds.{is_binary_digit, is_blank, is_digit, is_hexadecimal_digit, is_mark, is_name_part, is_name_start, is_printable, is_quotable};

/// A letter or `_`.
pub(crate) fn is_name_start(byte: u8) -> bool
    ensures { result ≡ is_name_start byte }
{
    matches!(byte, b'A'..=b'Z' | b'a'..=b'z' | b'_')
}

pub(crate) fn is_name_part(byte: u8) -> bool
    ensures { result ≡ is_name_part byte }
{
    is_name_start(byte) || is_digit(byte)
}

pub(crate) fn is_digit(byte: u8) -> bool
    ensures { result ≡ is_digit byte }
{
    matches!(byte, b'0'..=b'9')
}

pub(crate) fn is_hexadecimal_digit(byte: u8) -> bool
    ensures { result ≡ is_hexadecimal_digit byte }
{
    matches!(byte, b'0'..=b'9' | b'A'..=b'F' | b'a'..=b'f')
}

pub(crate) fn is_binary_digit(byte: u8) -> bool
    ensures { result ≡ is_binary_digit byte }
{
    matches!(byte, b'0' | b'1')
}

/// $20 to $7E.
pub(crate) fn is_printable(byte: u8) -> bool
    ensures { result ≡ is_printable byte }
{
    matches!(byte, b' '..=b'~')
}

/// What may stand in a text.
pub(crate) fn is_quotable(byte: u8) -> bool
    ensures { result ≡ is_quotable byte }
{
    is_printable(byte) && byte != b'"'
}

/// A space or a tab.
pub(crate) fn is_blank(byte: u8) -> bool
    ensures { result ≡ is_blank byte }
{
    matches!(byte, b' ' | b'\t')
}

pub(crate) fn is_mark(byte: u8) -> bool
    ensures { result ≡ is_mark byte }
{
    matches!(byte, b'#' | b'('..=b'/' | b':' | b'[' | b']' | b'{' | b'}')
}
