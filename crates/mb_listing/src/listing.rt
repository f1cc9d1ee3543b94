//! The listing of a memory.

ghost use Rattle.std.specs.Prelude.{◌≡◌, ◌+◌, ◌*◌, ◌<◌, ◌≤◌, ◌++◌, ◌^◌, length};
ghost use Rattle.arrayvec.specs.ArrayVec.{array_vec_len};
ghost use Rattle.mb_outside.specs.Prints.{Prints};
ghost use Rattle.mb_report.specs.Buffered.{Buffers};
ghost use Rattle.mb_listing.specs.Listing.{words_in, words_at, listing};

use crate::line::{line_at, line_text};
use arrayvec::ArrayVec;
use mb_instr::MOST_WORDS;
use mb_outside::{Sink, SinkFault};
use mb_report::Buffered;

/// As many words as the longest instruction has.
type Words = ArrayVec<u16, MOST_WORDS>;

/// At most so many words, as far as there are bytes for them.
#[tactic(auto, unfolding(crate::specs::Listing::words_in))]
fn push_words(words: &mut Words, most: u8, bytes: &[u8])
    requires { array_vec_len words.old + most ≤ MOST_WORDS }
    ensures pushed { words.new.items ≡ words.old.items ++ words_in most bytes.now }
    ensures len { 2 * array_vec_len words.new ≤ 2 * array_vec_len words.old + length bytes.now }
{
    if most == 0 {
        return;
    }
    if let [high, low, bytes @ ..] = bytes {
        words.push(u16::from_be_bytes([*high, *low]));
        push_words(words, most - 1, bytes);
    }
}

/// As many words as the longest instruction has, as far as the memory has them.
fn words_at(ram: &[u8], at: usize) -> Words
    ensures words { result.items ≡ words_at ram.now at }
    ensures inside { 0 < array_vec_len result → at + 2 * array_vec_len result ≤ length ram.now }
{
    let mut words = Words::new();
    push_words(&mut words, 11, &ram[ram.len().min(at)..]);
    words
}

/// Writes the lines of a memory, so many from an address on, behind what is held.
fn write_lines<O: Sink>(text: &mut Buffered, out: &mut O, ram: &[u8], at: u32, count: u32)
    requires { length ram.now ≤ 2 ^ 32 }
    ensures { Buffers text.old text.new (O.taken out.old) (O.taken out.new) (O.faults out.old) (O.faults out.new)
        (listing ram.now at count) }
{
    let mut place = at as usize;
    for _line in 0..count {
        let words = words_at(ram, place);
        if words.is_empty() {
            break;
        }
        let line = line_at(place as u32, words.as_slice());
        text.add(out, line_text(&line).as_slice());
        place += 2 * line.words.len();
    }
}

/// Writes the listing of so many lines of a memory, from an address on: each line the address, words and the text of
/// the assembler that says just these words there, else the first word as a number. A line whose first word is outside
/// the memory ends the listing.
pub fn list_memory<O: Sink>(ram: &[u8], at: u32, count: u32, out: &mut O) -> Result<(), SinkFault>
    requires { length ram.now ≤ 2 ^ 32 }
    ensures { Prints (O.taken out.old) (O.taken out.new) (O.faults out.old) (O.faults out.new)
        (listing ram.now at count) result }
{
    let mut text = Buffered::new();
    write_lines(&mut text, out, ram, at, count);
    text.finish(out)
}
