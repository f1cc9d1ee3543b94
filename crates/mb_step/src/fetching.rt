//! The instruction that stands at PC is fetched and decoded.

ghost use Rattle.std.specs.Prelude.{◌≡◌, ◌≢◌, ◌-◌, ◌+◌, ◌%◌, ◌^◌, [], ◌∷◌, true, false, IfOk, IfErr, IfSome, IfNone};
ghost use Rattle.mb_port.specs.Routine.{run};
ghost use Rattle.mb_instr.specs.Codes.{IsInstr};
ghost use Rattle.mb_instr.specs.Registers.{plain_of};
ghost use Rattle.mb_model.specs.Status.{space_of};
ghost use Rattle.mb_decode.specs.declared.front.Decoded.TheVariants.{More};
ghost use Rattle.mb_decode.specs.Decodes.{decode_of};
ghost use Rattle.def_instructions.specs.Attempt.{found_of, by_decoded};
ghost use Rattle.def_processor.specs.Raise.{is_due};
ghost use Rattle.def_processor.specs.Step.{execute_next_of};
ghost use Rattle.mb_short.specs.Changed.{Follows};
ghost use Rattle.mb_table.specs.FirstWords.{alone};
ghost use Rattle.mb_table.specs.Short.{IsShort};
ghost use Rattle.mb_step.specs.Modes.{KeepsMode};
ghost use Rattle.mb_step.specs.Fetching.{sought_of, sought_by, word_of, behind, found_executed};

use crate::decoder::Longer;
use crate::executing::{execute, finish_done};
use crate::processor::{Processor, in_whole};
use arrayvec::ArrayVec;
use def_processor::Finish;
use mb_decode::{Decoded, Decoding, decode_into};
use mb_instr::vectors::{ILLEGAL, LINE_A, LINE_F, ODD_COUNTER};
use mb_instr::{Instr, MOST_WORDS};
use mb_port::{Port, Space};
use mb_short::{Follower, Nobody, perform_short};
use mb_table::{FirstWords, PlacedShorts, Short, Shorts};

/// How many words an instruction can have behind its first.
const MOST_BEHIND: usize = MOST_WORDS - 1;

/// Fetches a word, whatever the bus has to do for it, or ends the step where it does not come.
#[inline(never)]
fn fetch_slowly<P: Port>(
    space: Space,
    at: u32,
    processor: &mut Processor,
    port: &mut P,
) -> Result<u16, Finish>
    requires { at % 2 ≡ 0 }
    ensures means { run P.bus (word_of processor.old space at) (P.world port.old)
        ≡ ((result, processor.new), P.world port.new) }
    ensures same { IfOk result (λ word. processor.new ≡ processor.old) }
    ensures busy { IfErr result (λ end. end ≢ Finish.Idle) }
    ensures rest { P.rest port.new ≡ P.rest port.old }
{
    match port.fetch(space, at) {
        Ok(word) => Ok(word),
        Err(fault) => Err(processor.finish_unfetched(fault, at, port)),
    }
}

/// Fetches a word: at once where it is known so. The step ends where it does not come.
#[inline(always)]
fn fetch_word<P: Port>(
    space: Space,
    at: u32,
    processor: &mut Processor,
    port: &mut P,
) -> Result<u16, Finish>
    requires { at % 2 ≡ 0 }
    ensures means { run P.bus (word_of processor.old space at) (P.world port.old)
        ≡ ((result, processor.new), P.world port.new) }
    ensures same { IfOk result (λ word. processor.new ≡ processor.old) }
    ensures busy { IfErr result (λ end. end ≢ Finish.Idle) }
    ensures rest { P.rest port.new ≡ P.rest port.old }
{
    match port.quick_fetch(space, at) {
        Some(word) => Ok(word),
        None => fetch_slowly(space, at, processor, port),
    }
}

/// Fetches the words behind the first three, from that of the third on, one at a time, until they are an instruction or
/// can no longer become one. The instruction is put into its place, and how many words it has is answered; or how the
/// step ended without one.
#[inline(never)]
fn fetch_more<P: Port>(
    first: u16,
    second: u16,
    third: u16,
    third_at: u32,
    instruction: &mut Instr,
    processor: &mut Processor,
    port: &mut P,
) -> Result<u8, Finish>
    requires { third_at % 2 ≡ 0 }
    ensures means { run P.bus (sought_of processor.old (found_of (MOST_WORDS - 3) (space_of processor.old)
        ((third_at + 2) % 2 ^ 32) (first ∷ second ∷ third ∷ []))) (P.world port.old)
        ≡ ((sought_by result instruction.new, processor.new), P.world port.new) }
    ensures valid { IfOk result (λ n. IsInstr instruction.new) }
    ensures busy { IfErr result (λ end. end ≢ Finish.Idle) }
    ensures rest { P.rest port.new ≡ P.rest port.old }
{
    let mut behind = ArrayVec::<u16, MOST_BEHIND>::new();
    behind.push(second);
    behind.push(third);
    let space = processor.space();
    let mut at = third_at.wrapping_add(2);
    for _ in 2..MOST_BEHIND {
        match port.fetch(space, at) {
            Ok(word) => behind.push(word),
            Err(fault) => return Err(processor.finish_unfetched(fault, at, port)),
        }
        match decode_into(first, behind.as_slice(), instruction) {
            Decoding::Whole(length) => return Ok(length),
            Decoding::More => at = at.wrapping_add(2),
            Decoding::Illegal => return Err(processor.refuse(ILLEGAL, port)),
            Decoding::LineA => return Err(processor.refuse(LINE_A, port)),
            Decoding::LineF => return Err(processor.refuse(LINE_F, port)),
        }
    }
    Err(processor.refuse(ILLEGAL, port))
}

/// Decodes the first three words, the third of which was fetched from `third_at`, and those that follow where an
/// instruction has more. It is put into its place, and how many words it has is answered; or how the step ended without
/// one. An instruction of three words is remembered.
#[inline(never)]
fn decode_three<P: Port>(
    first: u16,
    second: u16,
    third: u16,
    third_at: u32,
    longer: &mut Longer,
    shorts: &mut Shorts,
    processor: &mut Processor,
    port: &mut P,
) -> Result<u8, Finish>
    requires { third_at % 2 ≡ 0 }
    ensures means { run P.bus (sought_of processor.old (by_decoded (decode_of (first ∷ second ∷ third ∷ []))
        (found_of (MOST_WORDS - 3) (space_of processor.old) ((third_at + 2) % 2 ^ 32) (first ∷ second ∷ third ∷ []))))
        (P.world port.old)
        ≡ ((sought_by result longer.new.instruction, processor.new), P.world port.new) }
    ensures valid { IfOk result (λ n. IsInstr longer.new.instruction) }
    ensures busy { IfErr result (λ end. end ≢ Finish.Idle) }
    ensures rest { P.rest port.new ≡ P.rest port.old }
{
    match decode_into(first, &[second, third], &mut longer.instruction) {
        Decoding::Whole(length) => {
            if length == 3 {
                longer
                    .three_words
                    .keep(first, second, third, &longer.instruction);
                shorts.learn_with_long(first, second, third, &longer.instruction);
            }
            Ok(length)
        }
        Decoding::More => fetch_more(
            first,
            second,
            third,
            third_at,
            &mut longer.instruction,
            processor,
            port,
        ),
        Decoding::Illegal => Err(processor.refuse(ILLEGAL, port)),
        Decoding::LineA => Err(processor.refuse(LINE_A, port)),
        Decoding::LineF => Err(processor.refuse(LINE_F, port)),
    }
}

/// Fetches the third word, and those that follow where an instruction has more. It is put into its place, and how many
/// words it has is answered; or how the step ended without one. Three words that are remembered are not decoded again.
#[inline(never)]
fn find_three<P: Port>(
    first: u16,
    second: u16,
    second_at: u32,
    longer: &mut Longer,
    shorts: &mut Shorts,
    processor: &mut Processor,
    port: &mut P,
) -> Result<u8, Finish>
    requires { second_at % 2 ≡ 0 }
    ensures means { run P.bus (sought_of processor.old (found_of (MOST_WORDS - 2) (space_of processor.old)
        ((second_at + 2) % 2 ^ 32) (first ∷ second ∷ []))) (P.world port.old)
        ≡ ((sought_by result longer.new.instruction, processor.new), P.world port.new) }
    ensures valid { IfOk result (λ n. IsInstr longer.new.instruction) }
    ensures busy { IfErr result (λ end. end ≢ Finish.Idle) }
    ensures rest { P.rest port.new ≡ P.rest port.old }
{
    let space = processor.space();
    let third_at = second_at.wrapping_add(2);
    let third = match fetch_word(space, third_at, processor, port) {
        Ok(word) => word,
        Err(end) => return Err(end),
    };
    if let Some(kept) = longer.three_words.find(first, second, third) {
        longer.instruction = *kept;
        return Ok(3);
    }
    decode_three(
        first, second, third, third_at, longer, shorts, processor, port,
    )
}

/// Decodes the first two words, the second of which was fetched from `second_at`, and those that follow where an
/// instruction has more. It is put into its place, and how many words it has is answered; or how the step ended without
/// one. What two words begin with is remembered.
#[inline(never)]
fn decode_longer<P: Port>(
    first: u16,
    second: u16,
    second_at: u32,
    longer: &mut Longer,
    shorts: &mut Shorts,
    processor: &mut Processor,
    port: &mut P,
) -> Result<u8, Finish>
    requires even { second_at % 2 ≡ 0 }
    requires more { alone first ≡ More }
    ensures means { run P.bus (sought_of processor.old (by_decoded (decode_of (first ∷ second ∷ []))
        (found_of (MOST_WORDS - 2) (space_of processor.old) ((second_at + 2) % 2 ^ 32) (first ∷ second ∷ []))))
        (P.world port.old)
        ≡ ((sought_by result longer.new.instruction, processor.new), P.world port.new) }
    ensures valid { IfOk result (λ n. IsInstr longer.new.instruction) }
    ensures busy { IfErr result (λ end. end ≢ Finish.Idle) }
    ensures rest { P.rest port.new ≡ P.rest port.old }
{
    match decode_into(first, &[second], &mut longer.instruction) {
        Decoding::Whole(length) => {
            longer
                .words
                .keep(first, second, Decoded::Whole(longer.instruction, length));
            if length == 2 {
                shorts.learn_with(first, second, &longer.instruction);
            }
            Ok(length)
        }
        Decoding::More => {
            longer.words.keep(first, second, Decoded::More);
            find_three(first, second, second_at, longer, shorts, processor, port)
        }
        Decoding::Illegal => Err(processor.refuse(ILLEGAL, port)),
        Decoding::LineA => Err(processor.refuse(LINE_A, port)),
        Decoding::LineF => Err(processor.refuse(LINE_F, port)),
    }
}

/// As `decode_longer`, but two words that are remembered are not decoded again, and three neither.
#[inline(always)]
fn find_longer<P: Port>(
    first: u16,
    second: u16,
    second_at: u32,
    longer: &mut Longer,
    shorts: &mut Shorts,
    processor: &mut Processor,
    port: &mut P,
) -> Result<u8, Finish>
    requires even { second_at % 2 ≡ 0 }
    requires more { alone first ≡ More }
    ensures means { run P.bus (sought_of processor.old (by_decoded (decode_of (first ∷ second ∷ []))
        (found_of (MOST_WORDS - 2) (space_of processor.old) ((second_at + 2) % 2 ^ 32) (first ∷ second ∷ []))))
        (P.world port.old)
        ≡ ((sought_by result longer.new.instruction, processor.new), P.world port.new) }
    ensures valid { IfOk result (λ n. IsInstr longer.new.instruction) }
    ensures busy { IfErr result (λ end. end ≢ Finish.Idle) }
    ensures rest { P.rest port.new ≡ P.rest port.old }
{
    match longer.words.find(first, second) {
        Some(Decoded::Whole(kept, length)) => {
            longer.instruction = *kept;
            Ok(*length)
        }
        Some(Decoded::More) => find_three(
            first, second, second_at, longer, shorts, processor, port,
        ),
        _ => decode_longer(first, second, second_at, longer, shorts, processor, port),
    }
}

/// A first word came that had not come before.
#[inline(never)]
fn learn(first: u16, first_words: &mut FirstWords, shorts: &mut Shorts) {
    shorts.learn(first, first_words.of(first));
}

/// Carries out the instruction of a first word's short form that stands at PC, where that is done at once. Else nothing
/// has changed.
#[inline(always)]
fn execute_short<P: Port, Loop>(
    first: u16,
    short: &Short,
    processor: &mut Processor,
    port: &mut P,
) -> Option<Finish>
    requires even { processor.old.regs.pc % 2 ≡ 0 }
    requires short { IsShort first short.now }
    ensures done { IfSome result (λ end.
        run P.bus (found_executed processor.old (by_decoded (alone first) (behind processor.old first)))
        (P.world port.old)
        ≡ ((end, processor.new), P.world port.new)) }
    ensures undone { IfNone result (processor.new ≡ processor.old) }
    ensures same { IfNone result (P.world port.new ≡ P.world port.old) }
    ensures busy { IfSome result (λ end. end ≢ Finish.Idle) }
    ensures rest { P.rest port.new ≡ P.rest port.old }
{
    let at = processor.plain.pc;
    let flow = perform_short::<_, _, Loop>(
        short,
        processor.cpu.space(),
        &mut processor.plain,
        port,
        &mut Nobody,
    )?;
    Some(finish_done(flow, at, &mut processor.plain, &mut processor.cpu, port))
}

/// Carries out the instruction at PC whose first word this is, and fetches and decodes the words behind it.
///
/// An instruction of one word stays where it is remembered, and a longer one in its place, from which all are carried
/// out by one call.
#[inline(never)]
fn execute_first<P: Port>(
    first: u16,
    first_words: &mut FirstWords,
    shorts: &mut Shorts,
    longer: &mut Longer,
    processor: &mut Processor,
    port: &mut P,
) -> Finish
    requires { processor.old.regs.pc % 2 ≡ 0 }
    ensures means { run P.bus (found_executed processor.old (by_decoded (alone first) (behind processor.old first)))
        (P.world port.old) ≡ ((result, processor.new), P.world port.new) }
    ensures busy { result ≢ Finish.Idle }
    ensures rest { P.rest port.new ≡ P.rest port.old }
{
    let (at, space) = (processor.pc(), processor.space());
    // Borrowed once for all arms, so that an instruction can be lent out of them.
    let longer = &mut *longer;
    let (instruction, length) = match first_words.of(first) {
        Decoded::Whole(instruction, length) => (instruction, *length),
        Decoded::More => {
            let second_at = at.wrapping_add(2);
            let second = match fetch_word(space, second_at, processor, port) {
                Ok(word) => word,
                Err(end) => return end,
            };
            match find_longer(first, second, second_at, longer, shorts, processor, port) {
                Ok(length) => (&longer.instruction, length),
                Err(end) => return end,
            }
        }
        Decoded::Illegal => return processor.refuse(ILLEGAL, port),
        Decoded::LineA => return processor.refuse(LINE_A, port),
        Decoded::LineF => return processor.refuse(LINE_F, port),
    };
    execute(instruction, length, processor, port)
}

/// Fetches the instruction that stands at PC and carries it out by its row, whatever its short form.
#[inline(always)]
pub(crate) fn execute_by_row<P: Port>(
    first_words: &mut FirstWords,
    shorts: &mut Shorts,
    placed: &mut PlacedShorts,
    longer: &mut Longer,
    processor: &mut Processor,
    port: &mut P,
) -> Finish
    ensures means { run P.bus (execute_next_of processor.old) (P.world port.old)
        ≡ ((result, processor.new), P.world port.new) }
    ensures busy { result ≢ Finish.Idle }
    ensures rest { P.rest port.new ≡ P.rest port.old }
{
    let (at, space) = (processor.pc(), processor.space());
    if at % 2 == 1 {
        return processor.refuse(ODD_COUNTER, port);
    }
    let first = match fetch_word(space, at, processor, port) {
        Ok(word) => word,
        Err(end) => return end,
    };
    if let Short::Unknown = shorts.of(first) {
        learn(first, first_words, shorts);
    }
    let finish = execute_first(first, first_words, shorts, longer, processor, port);
    placed.renew(at, first, shorts);
    finish
}

/// Carries out the instruction of a first word's short form that stands at PC, where that is done at once; no trace is
/// due whether or not it changes the flow of control. The follower is told what it changed. Else nothing has changed.
#[inline(always)]
fn execute_untraced<P: Port, F: Follower, Loop>(
    first: u16,
    short: &Short,
    space: Space,
    processor: &mut Processor,
    port: &mut P,
    follower: &mut F,
) -> bool
    requires even { processor.old.regs.pc % 2 ≡ 0 }
    requires short { IsShort first short.now }
    requires space { space ≡ space_of processor.old }
    requires untraced { (flow : _) → is_due processor.old.regs.sr flow ≡ false }
    ensures done { result ≡ true
        → run P.bus (found_executed processor.old (by_decoded (alone first) (behind processor.old first)))
        (P.world port.old)
        ≡ ((Finish.Went, processor.new), P.world port.new) }
    ensures follows { Follows F.follows follower.old (plain_of processor.old.regs)
        → Follows F.follows follower.new (plain_of processor.new.regs) }
    ensures undone { result ≡ false → processor.new ≡ processor.old }
    ensures same { result ≡ false → P.world port.new ≡ P.world port.old }
    ensures mode { KeepsMode processor.old processor.new }
    ensures still { P.still (P.world port.new) ≡ P.still (P.world port.old) }
    ensures rest { P.rest port.new ≡ P.rest port.old }
{
    let flow = perform_short::<_, _, Loop>(short, space, &mut processor.plain, port, follower);
    let _whole = in_whole(&processor.plain);
    flow.is_some()
}

/// Fetches the instruction that stands at PC and carries it out by its short form, where all that is done at once; no
/// trace is due. The follower is told what it changed. Else nothing has changed.
#[inline(always)]
pub(crate) fn execute_at_once<P: Port, F: Follower, Loop>(
    shorts: &Shorts,
    placed: &mut PlacedShorts,
    space: Space,
    processor: &mut Processor,
    port: &mut P,
    follower: &mut F,
) -> bool
    requires space { space ≡ space_of processor.old }
    requires untraced { (flow : _) → is_due processor.old.regs.sr flow ≡ false }
    ensures done { result ≡ true → run P.bus (execute_next_of processor.old) (P.world port.old)
        ≡ ((Finish.Went, processor.new), P.world port.new) }
    ensures follows { Follows F.follows follower.old (plain_of processor.old.regs)
        → Follows F.follows follower.new (plain_of processor.new.regs) }
    ensures undone { result ≡ false → processor.new ≡ processor.old }
    ensures same { result ≡ false → P.world port.new ≡ P.world port.old }
    ensures mode { KeepsMode processor.old processor.new }
    ensures still { P.still (P.world port.new) ≡ P.still (P.world port.old) }
    ensures rest { P.rest port.new ≡ P.rest port.old }
{
    let at = processor.pc();
    if at % 2 == 1 {
        return false;
    }
    let Some(first) = port.quick_fetch(space, at) else {
        return false;
    };
    let short = placed.of(at, first, shorts);
    execute_untraced::<_, _, Loop>(first, short, space, processor, port, follower)
}

/// Fetches the instruction that stands at PC and carries it out: by its short form, where that is done at once. No word
/// is fetched behind those that the instruction needs, and none at an odd PC.
#[inline(always)]
pub(crate) fn execute_next<P: Port, Loop>(
    first_words: &mut FirstWords,
    shorts: &mut Shorts,
    longer: &mut Longer,
    processor: &mut Processor,
    port: &mut P,
) -> Finish
    ensures means { run P.bus (execute_next_of processor.old) (P.world port.old)
        ≡ ((result, processor.new), P.world port.new) }
    ensures busy { result ≢ Finish.Idle }
    ensures rest { P.rest port.new ≡ P.rest port.old }
{
    let (at, space) = (processor.pc(), processor.space());
    if at % 2 == 1 {
        return processor.refuse(ODD_COUNTER, port);
    }
    let first = match fetch_word(space, at, processor, port) {
        Ok(word) => word,
        Err(end) => return end,
    };
    let short = shorts.of(first);
    match execute_short::<_, Loop>(first, short, processor, port) {
        Some(end) => end,
        None => {
            if let Short::Unknown = short {
                learn(first, first_words, shorts);
            }
            execute_first(first, first_words, shorts, longer, processor, port)
        }
    }
}
