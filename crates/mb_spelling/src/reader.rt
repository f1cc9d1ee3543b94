//! A text on its way.

ghost use Rattle.std.specs.Prelude.{◌≡◌, ◌+◌, ◌-◌, ◌<◌, ◌≤◌, ◌^◌, ◌*◌, ◌∷◌, [], List, length, drop, true, slice_get, IfOk};
ghost use Rattle.mb_spelling.specs.Spelling.{mapped, read_one, read_word};
ghost use Rattle.mb_spelling.specs.Hex.{hex_value as value_of, is_digit_of, read_number};
ghost use Rattle.mb_spelling.specs.Decimals.{begins, is_in, read_decimal, read_digits};
ghost use Rattle.mb_spelling.specs.Admits.{range_of};
ghost use Rattle.mb_spelling.specs.Ends.{read_finish};
ghost use Rattle.mb_spelling.specs.Places.{line_ends};
ghost use Rattle.mb_spelling.specs.Reads.{Place, Reads, lines_to, starts_with};

use crate::digit::{hex_value, is_hex};
use crate::numbers::Admits;
use crate::numerals::Numerals;
use crate::stop::Stop;
use std::marker::Model;

/// What is left of a text, and in which line it begins.
#[derive(Drop)]
pub struct Reader<'a> {
    left: &'a [u8],
    line: u32,
}

impl<'a> Model for Reader<'a> {
    ghost use Rattle.std.specs.Prelude.{◌+◌, ◌<◌, ◌^◌, length};
    ghost use Rattle.mb_spelling.specs.Reads.{Place};

    ghost Value = { Place };

    ghost view = { λ s. record { line = s.line; left = s.left.now } };

    ghost invariant = { λ s. s.line + length s.left.now < 2 ^ 32 };
}

impl<'a> Reader<'a> {
    /// The whole text.
    pub fn new(text: &'a [u8]) -> Reader<'a>
        requires { length text.now < 2 ^ 31 }
        ensures left { result.left ≡ text.entry.now }
        ensures line { result.line ≡ 1 }
    {
        Reader {
            left: text,
            line: 1,
        }
    }

    /// The number of the line in which it goes on.
    pub fn line(&self) -> u32
        ensures { result ≡ self.now.line }
    {
        self.line
    }

    /// Whether it goes on with the character.
    pub fn is_at(&self, character: u8) -> bool
        ensures { result ≡ starts_with character self.now.left }
    {
        matches!(self.left, [first, ..] if *first == character)
    }

    /// Reads just these characters.
    pub fn word(&mut self, word: &[u8]) -> Result<(), Stop>
        ensures reads { Reads (λ _. tt) result self.new.left (read_word word.now self.old.left) }
        ensures lines { lines_to self.new ≡ lines_to self.old }
    {
        for &character in word {
            self.character(character)?;
        }
        Ok(())
    }

    /// Reads one character.
    fn character(&mut self, character: u8) -> Result<(), Stop>
        ensures reads { Reads (λ _. tt) result self.new.left (read_word (character ∷ []) self.old.left) }
        ensures lines { lines_to self.new ≡ lines_to self.old }
    {
        if self.left.is_empty() {
            return Err(Stop::Short);
        }
        if self.left[0] != character {
            return Err(Stop::Wrong);
        }
        if character == b'\n' {
            self.line += 1;
        }
        self.left = &self.left[1..];
        Ok(())
    }

    /// Reads a hexadecimal digit behind those of `value`, behind which so many more are to come.
    fn digit<N: Admits>(&mut self, numbers: &N, more: u32, value: u128) -> Result<u128, Stop>
        requires more { more < 32 }
        requires fits { value < 16 ^ (31 - more) }
        ensures reads { Reads (λ d. d) result self.new.left
            (mapped value_of
            (read_one (is_digit_of (λ d. N.numbers numbers.now more (16 * value + d))) self.old.left)) }
        ensures small { IfOk result (λ d. d < 16) }
        ensures admitted { IfOk result (λ d. N.numbers numbers.now more (16 * value + d) ≡ true) }
        ensures lines { lines_to self.new ≡ lines_to self.old }
    {
        if self.left.is_empty() {
            return Err(Stop::Short);
        }
        let character = self.left[0];
        if !is_hex(character) {
            return Err(Stop::Wrong);
        }
        let digit = u128::from(hex_value(character));
        if !numbers.may(more, 16 * value + digit) {
            return Err(Stop::Wrong);
        }
        self.left = &self.left[1..];
        Ok(digit)
    }

    /// Reads a number of so many hexadecimal digits.
    pub fn number<N: Admits>(&mut self, numbers: &N, digits: u32) -> Result<u128, Stop>
        requires { digits ≤ 32 }
        ensures reads { Reads (λ n. n) result self.new.left
            (read_number (N.numbers numbers.now) digits 0 self.old.left) }
        ensures small { IfOk result (λ n. n < 16 ^ digits) }
        ensures admitted { 0 < digits → IfOk result (λ n. N.numbers numbers.now 0 n ≡ true) }
        ensures lines { lines_to self.new ≡ lines_to self.old }
    {
        let mut value: u128 = 0;
        let mut more = digits;
        while more > 0 {
            more -= 1;
            let digit = self.digit(numbers, more, value)?;
            value = 16 * value + digit;
        }
        Ok(value)
    }

    /// Passes over a character.
    fn pass(&mut self)
        requires { 0 < length self.old.left }
        ensures left { self.new.left ≡ drop 1 self.old.left }
        ensures lines { lines_to self.new ≡ lines_to self.old }
    {
        if self.left[0] == b'\n' {
            self.line += 1;
        }
        self.left = &self.left[1..];
    }

    /// Reads what stands behind the digits of a number.
    #[tactic(auto, using(crate::proofs::DigitSteps::begins_small))]
    fn digits(&mut self, numbers: &Numerals, end: u8, first: u128) -> Result<u64, Stop>
        requires unit { 0 < numbers.now.unit }
        requires begun { begins (range_of numbers.now) first ≡ true }
        ensures reads { Reads (λ n. n) result self.new.left
            (read_digits (is_in (range_of numbers.now)) (begins (range_of numbers.now)) end first self.old.left) }
        ensures within { IfOk result (λ n. n ≤ numbers.now.most) }
        ensures lines { lines_to self.new ≡ lines_to self.old }
    {
        let _most = numbers.most;
        let mut value = first;
        while !self.left.is_empty() {
            let character = self.left[0];
            if character == end && numbers.is_in(value) {
                self.pass();
                return Ok(value as u64);
            }
            if !numbers.follows(value, character) {
                return Err(Stop::Wrong);
            }
            value = 10 * value + u128::from(character - b'0');
            self.pass();
        }
        Err(Stop::Short)
    }

    /// Reads a decimal number without leading zeros, and the character that ends it.
    pub fn decimal(&mut self, numbers: &Numerals, end: u8) -> Result<u64, Stop>
        requires unit { 0 < numbers.now.unit }
        ensures reads { Reads (λ n. n) result self.new.left
            (read_decimal (is_in (range_of numbers.now)) (begins (range_of numbers.now)) end self.old.left) }
        ensures within { IfOk result (λ n. n ≤ numbers.now.most) }
        ensures lines { lines_to self.new ≡ lines_to self.old }
    {
        if self.left.is_empty() {
            return Err(Stop::Short);
        }
        let character = self.left[0];
        if !numbers.starts(character) {
            return Err(Stop::Wrong);
        }
        self.pass();
        self.digits(numbers, end, u128::from(character - b'0'))
    }
    /// Reads the end of the text.
    pub fn finish(&self) -> Result<(), Stop>
        ensures { Reads (λ _. tt) result self.now.left (read_finish self.now.left) }
    {
        if self.left.is_empty() {
            Ok(())
        } else {
            Err(Stop::Wrong)
        }
    }
}
