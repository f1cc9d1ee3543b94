//! Lines with a name.

ghost use Rattle.std.specs.Prelude.{◌≡◌, ◌<◌, ◌≤◌, ◌++◌, ◌∷◌, [], true, decimal, IfOk};
ghost use Rattle.mb_spelling.specs.Spelling.{before, behind, read_word};
ghost use Rattle.mb_spelling.specs.Hex.{number as number_of};
ghost use Rattle.mb_spelling.specs.Decimals.{from_to, ranged};
ghost use Rattle.mb_spelling.specs.Admits.{range_of};
ghost use Rattle.mb_spelling.specs.Reads.{Reads, lines_to};

use itoa::Buffer;
use mb_spelling::{Admits, Numerals, Reader, Stop};

/// A line of a name, which ends with a space, and a decimal number.
pub(crate) fn named(reader: &mut Reader, name: &[u8], numbers: &Numerals) -> Result<u64, Stop>
    requires { 0 < numbers.now.unit }
    ensures reads { Reads (λ n. n) result reader.new.left
        ((behind name.now (ranged (range_of numbers.now) 10)).read reader.old.left) }
    ensures within { IfOk result (λ n. n ≤ numbers.now.most) }
    ensures lines { lines_to reader.new ≡ lines_to reader.old }
{
    reader.word(name)?;
    reader.decimal(numbers, b'\n')
}

/// A decimal number from the least to the most, and the end of its line.
pub(crate) fn number(reader: &mut Reader, least: u64, most: u64) -> Result<u64, Stop>
    requires { least ≤ most }
    ensures reads { Reads (λ n. n) result reader.new.left ((ranged (from_to least most) 10).read reader.old.left) }
    ensures least { IfOk result (λ n. least ≤ n) }
    ensures most { IfOk result (λ n. n ≤ most) }
    ensures lines { lines_to reader.new ≡ lines_to reader.old }
{
    reader.decimal(&Numerals::from_to(least, most), b'\n')
}

/// A line of a name, which ends with a space, and such a number.
pub(crate) fn between(reader: &mut Reader, name: &[u8], least: u64, most: u64) -> Result<u64, Stop>
    requires { least ≤ most }
    ensures reads { Reads (λ n. n) result reader.new.left
        ((behind name.now (ranged (from_to least most) 10)).read reader.old.left) }
    ensures least { IfOk result (λ n. least ≤ n) }
    ensures most { IfOk result (λ n. n ≤ most) }
    ensures lines { lines_to reader.new ≡ lines_to reader.old }
{
    reader.word(name)?;
    number(reader, least, most)
}

/// A line of a name, which ends with a space, and eight hexadecimal digits.
pub(crate) fn long<N: Admits>(reader: &mut Reader, name: &[u8], numbers: &N) -> Result<u32, Stop>
    ensures reads { Reads (λ n. n) result reader.new.left
        ((behind name.now (before (number_of (N.numbers numbers.now) 8 0) (10 ∷ []))).read reader.old.left) }
    ensures admitted { IfOk result (λ n. N.numbers numbers.now 0 n ≡ true) }
    ensures lines { lines_to reader.new ≡ lines_to reader.old }
{
    reader.word(name)?;
    let value = reader.number(numbers, 8)?;
    reader.word(b"\n")?;
    Ok(value as u32)
}

/// Reads a decimal number in its one spelling.
fn written(reader: &mut Reader, n: u8) -> Result<(), Stop>
    ensures reads { Reads (λ _. tt) result reader.new.left (read_word (decimal n) reader.old.left) }
    ensures lines { lines_to reader.new ≡ lines_to reader.old }
{
    let mut buffer = Buffer::new();
    reader.word(buffer.format(n).as_bytes())
}

/// Reads words with a number between them.
pub(crate) fn numbered(
    reader: &mut Reader,
    front: &[u8],
    number: u8,
    back: &[u8],
) -> Result<(), Stop>
    ensures reads { Reads (λ _. tt) result reader.new.left
        (read_word (front.now ++ (decimal number ++ back.now)) reader.old.left) }
    ensures lines { lines_to reader.new ≡ lines_to reader.old }
{
    reader.word(front)?;
    written(reader, number)?;
    reader.word(back)
}
