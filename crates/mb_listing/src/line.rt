//! Lines of the listing.

ghost use Rattle.std.specs.Prelude.{◌≡◌, ◌+◌, ◌*◌, ◌<◌, ◌≤◌, ◌++◌, IfSome, IsTrue, codes, length};
ghost use Rattle.std.specs.Prelude.{option_and_then, option_map, slice_index, take};
ghost use Rattle.std.specs.List.{list_all};
ghost use Rattle.arrayvec.specs.ArrayVec.{array_vec_len};
ghost use Rattle.mb_mnemonics.specs.Code.{is_short};
ghost use Rattle.mb_decode.specs.Decodes.{decode_of};
ghost use Rattle.mb_mnemonics.specs.Means.{words_by};
ghost use Rattle.mb_statement.specs.Numbers.{number};
ghost use Rattle.mb_statement.specs.Texts.{statement_text};
ghost use Rattle.mb_statement.specs.Answers.{statement_said};
ghost use Rattle.mb_statement.specs.Statements.{statement_by};
ghost use Rattle.mb_listing.specs.Answers.{line_said};
ghost use Rattle.mb_listing.specs.Listing as listing;
ghost use Rattle.mb_listing.specs.Listing.{bytes_of, data_line, instruction_line, is_said, line_among, line_at, line_text};
ghost use Rattle.mb_listing.specs.Listing.{says};
ghost use Rattle.mb_instr.specs.declared.counts.TheConstants.{MOST_WORDS};

use arrayvec::ArrayVec;
use mb_decode::{Decoded, decode};
use mb_mnemonics::{Line as Mnemonic, lines, words_of};
use mb_report::{hex8, push_digits};
use mb_statement::{
    LineText, Statement, has_bits, have_texts, push_bytes, push_number, push_statement,
    statement_by,
};

/// The bytes of as many words as the longest instruction has.
type Bytes = ArrayVec<u8, 22>;

/// The bytes of words, the high one first.
fn bytes_of(words: &[u16]) -> Bytes
    requires { length words.now ≤ MOST_WORDS }
    ensures bytes { result.items ≡ bytes_of words.now }
    ensures len { array_vec_len result ≡ 2 * length words.now }
{
    let mut bytes = Bytes::new();
    for word in words {
        bytes.push((*word >> 8) as u8);
        bytes.push((*word & 0xff) as u8);
    }
    bytes
}

/// An address, words that stand there, and their text.
#[derive(Drop)]
pub(crate) struct Line<'w> {
    pub(crate) at: u32,
    pub(crate) words: &'w [u16],
    pub(crate) text: LineText,
}

/// The first words.
fn front_of(words: &[u16], count: u8) -> &[u16]
    ensures front { result.now ≡ take count words.now }
    ensures few { length result.now ≤ length words.now }
    ensures some { 0 < count → 0 < length words.now → 0 < length result.now }
{
    &words[..words.len().min(usize::from(count))]
}

fn statement_text(statement: &Statement) -> LineText
    requires { length statement.now.name.items ≤ 8 }
    ensures text { result.items ≡ statement_text (statement_said statement.now) }
    ensures short { array_vec_len result ≤ 301 }
{
    let mut text = LineText::new();
    push_statement(&mut text, statement);
    text
}

fn number_text(word: u16) -> LineText
    ensures text { result.items ≡ codes "DC.W " ++ number word }
    ensures short { array_vec_len result ≤ 301 }
{
    let mut text = LineText::new();
    push_bytes(&mut text, b"DC.W ");
    push_number(&mut text, u64::from(word));
    text
}

/// The first of the words alone, as a number.
fn data_line(at: u32, words: &[u16]) -> Line<'_>
    requires { 0 < length words.now }
    ensures line { line_said result ≡ data_line at (slice_index words.now 0) }
    ensures few { length result.words.now ≤ length words.now }
    ensures short { array_vec_len result.text ≤ 301 }
{
    Line {
        at,
        words: front_of(words, 1),
        text: number_text(words[0]),
    }
}

/// Whether these are the words that the table has for a statement at the address.
fn are_said(at: u32, words: &[u16], statement: &Statement) -> bool
    ensures { result ≡ is_said words.now (words_by (statement_said statement.now).name statement.now.size
        (statement_said statement.now).operands at) }
{
    let operands = statement.operands.as_slice();
    match words_of(statement.name.as_slice(), statement.size, operands, at) {
        Some(said) => said.as_slice() == words,
        None => false,
    }
}

/// Whether a statement that a line makes of words has a text and says just these words.
fn says(at: u32, words: &[u16], statement: &Statement) -> bool
    ensures { result ≡ says at words.now (statement_said statement.now) }
{
    have_texts(statement.operands.as_slice()) && are_said(at, words, statement)
}

/// The line that a line of the table of mnemonics makes of the words of an instruction, where it says just them.
fn line_by<'w>(mnemonic: &Mnemonic, at: u32, words: &'w [u16]) -> Option<Line<'w>>
    requires { IsTrue (is_short mnemonic.now) }
    ensures line { option_map line_said result
        ≡ option_and_then (listing.line_said at words.now) (statement_by mnemonic.now at words.now) }
    ensures few { IfSome result (λ line. length line.words.now ≤ length words.now) }
    ensures short { IfSome result (λ line. array_vec_len line.text ≤ 301) }
{
    let statement = statement_by(mnemonic, at, words)?;
    if says(at, words, &statement) {
        let text = statement_text(&statement);
        Some(Line { at, words, text })
    } else {
        None
    }
}

/// The line that the first of these lines of the table makes that makes one.
fn line_among<'w>(mnemonics: &[Mnemonic], at: u32, words: &'w [u16]) -> Option<Line<'w>>
    requires some { 0 < length words.now }
    requires short { IsTrue (list_all is_short mnemonics.now) }
    ensures line { option_map line_said result ≡ line_among mnemonics.now at words.now }
    ensures few { IfSome result (λ line. length line.words.now ≤ length words.now) }
    ensures short { IfSome result (λ line. array_vec_len line.text ≤ 301) }
{
    let first = words[0];
    for mnemonic in mnemonics {
        if has_bits(mnemonic, first) {
            if let Some(line) = line_by(mnemonic, at, words) {
                return Some(line);
            }
        }
    }
    None
}

/// The line of the instruction that the words begin with, where a line of the table makes it.
fn instruction_line(at: u32, words: &[u16]) -> Option<Line<'_>>
    requires { 0 < length words.now }
    ensures line { option_map line_said result ≡ instruction_line at words.now (decode_of words.now) }
    ensures few { IfSome result (λ line. length line.words.now ≤ length words.now) }
    ensures short { IfSome result (λ line. array_vec_len line.text ≤ 301) }
{
    match decode(words) {
        Decoded::Whole(_, count) if at % 2 == 0 => line_among(lines(), at, front_of(words, count)),
        _ => None,
    }
}

/// The line at an address by the words that begin there, as far as memory has them.
pub(crate) fn line_at(at: u32, words: &[u16]) -> Line<'_>
    requires some { 0 < length words.now }
    requires few { length words.now ≤ MOST_WORDS }
    ensures line { line_said result ≡ line_at at words.now }
    ensures few { length result.words.now ≤ length words.now }
    ensures short { array_vec_len result.text ≤ 301 }
{
    match instruction_line(at, words) {
        Some(line) => line,
        None => data_line(at, words),
    }
}

/// The address, the words in digits, and the text.
pub(crate) fn line_text(line: &Line) -> LineText
    requires few { length line.now.words.now ≤ MOST_WORDS }
    requires short { array_vec_len line.now.text ≤ 301 }
    ensures { result.items ≡ line_text (line_said line.now) }
{
    let mut whole = LineText::new();
    push_bytes(&mut whole, &hex8(line.at));
    whole.push(b' ');
    push_digits(&mut whole, bytes_of(line.words).as_slice());
    whole.push(b' ');
    push_bytes(&mut whole, line.text.as_slice());
    whole.push(b'\n');
    whole
}
