//! What goes by the function codes SFC and DFC: MOVES, PFLUSH and PTEST.

ghost use Rattle.std.specs.Prelude.{◌≡◌, ◌<◌, ◌^◌, IfErr};
ghost use Rattle.mb_port.specs.Routine.{run};
ghost use Rattle.mb_port.specs.Flushes.{NamesPage};
ghost use Rattle.mb_instr.specs.Operands.{IsEa, IsInMemory, IsDestination};
ghost use Rattle.mb_instr.specs.FurtherWords.{register_word};
ghost use Rattle.mb_ea.specs.Addresses.{IsTarget, IsMemory, IsPlace};
ghost use Rattle.def_processor.specs.SystemEnds.{system_carried_by};
ghost use Rattle.mb_system.specs.Ends.{SystemEnds};
ghost use Rattle.def_processor.specs.Spaces.{function_space, load_register_of, move_out_of, move_in_of, moves_of};
ghost use Rattle.def_processor.specs.Spaces.{flushed_by, is_of_a_page as of_page, flush_beside_of, pflush_of, ptest_of};

use crate::finishing::finish_row;
use mb_ea::{Target, read_value, resolve};
use mb_instr::{Ea, FlushKind, Plain, Size};
use mb_model::{Cpu, has_big_pages, other_half, page_of};
use mb_operands::{named_register, place, with_low};
use mb_port::{Flush, MmuReg, Port, Space};
use mb_writes::Ended;

/// The space of a function code, by its bit 2.
#[inline(always)]
fn function_space(code: u8) -> Space
    ensures { result ≡ function_space code }
{
    if code >> 2 & 1 == 1 {
        Space::Super
    } else {
        Space::User
    }
}

/// Takes a value into a register: into the low bytes of a data register, or with its sign into all of an address
/// register.
#[inline(always)]
fn load_register(size: Size, register: u8, value: u32, plain: &mut Plain)
    requires { register < 16 }
    ensures { plain.new ≡ load_register_of size register value plain.old }
{
    if register < 8 {
        let old = &mut plain.d[register as usize];
        *old = with_low(size, *old, value);
    } else {
        plain.a[register as usize - 8] = size.sign_extend(value);
    }
}

/// MOVES to memory, in DFC's space. The registers are those after the address was formed.
#[inline(always)]
fn move_out<P: Port>(
    size: Size,
    target: Target,
    register: u8,
    plain: &mut Plain,
    cpu: &mut Cpu,
    port: &mut P,
) -> Result<(), Ended>
    requires target { IsTarget size target }
    requires place { IsPlace target }
    requires register { register < 16 }
    ensures means { run P.bus (move_out_of size target register plain.old cpu.old) (P.world port.old)
        ≡ (system_carried_by result cpu.new, P.world port.new) }
    ensures ends { IfErr result (λ end. SystemEnds end cpu.old cpu.new) }
    ensures rest { P.rest port.new ≡ P.rest port.old }
{
    let value = plain.register(register);
    finish_row(
        target,
        size,
        value,
        function_space(cpu.dfc),
        plain,
        cpu,
        port,
    )
}

/// MOVES from memory, in SFC's space. The registers are those after the address was formed.
#[inline(always)]
fn move_in<P: Port>(
    size: Size,
    target: Target,
    register: u8,
    plain: &mut Plain,
    cpu: &mut Cpu,
    port: &mut P,
) -> Result<(), Ended>
    requires target { IsMemory target }
    requires register { register < 16 }
    ensures means { run P.bus (move_in_of size target register plain.old cpu.old) (P.world port.old)
        ≡ (system_carried_by result cpu.new, P.world port.new) }
    ensures ends { IfErr result (λ end. SystemEnds end cpu.old cpu.new) }
    ensures rest { P.rest port.new ≡ P.rest port.old }
{
    match read_value(function_space(cpu.sfc), place(target), size, port) {
        Ok(value) => {
            load_register(size, register, value, plain);
            cpu.regs.set_plain(plain);
            Ok(())
        }
        Err(refused) => Err(Ended::ReadFault(refused)),
    }
}

/// Bit 11 of the word says to memory.
#[inline(always)]
fn is_store(word: u16) -> bool
    ensures { result ≡ (register_word word).is_store }
{
    word >> 11 & 1 == 1
}

/// MOVES. A memory indirection of its address is read in supervisor space; only the operand itself goes by SFC or DFC.
#[inline(always)]
pub(crate) fn moves<P: Port>(
    size: Size,
    ea: &Ea,
    word: u16,
    word_at: u32,
    cpu: &mut Cpu,
    port: &mut P,
) -> Result<(), Ended>
    requires operand { IsEa size ea.now }
    requires place { IsInMemory ea.now }
    requires destination { IsDestination ea.now }
    ensures means { run P.bus (moves_of size ea.now word word_at cpu.old) (P.world port.old)
        ≡ (system_carried_by result cpu.new, P.world port.new) }
    ensures ends { IfErr result (λ end. SystemEnds end cpu.old cpu.new) }
    ensures rest { P.rest port.new ≡ P.rest port.old }
{
    let mut plain = cpu.regs.plain();
    let target = match resolve(ea, size, &mut plain, word_at, Space::Super, port) {
        Ok(target) => target,
        Err(refused) => return Err(Ended::ReadFault(refused)),
    };
    let register = named_register(word);
    if is_store(word) {
        move_out(size, target, register, &mut plain, cpu, port)
    } else {
        move_in(size, target, register, &mut plain, cpu, port)
    }
}

/// What PFLUSH drops, of a page of 4 KiB or of all.
#[inline(always)]
fn flushed_by(kind: FlushKind, page: u32, cpu: &Cpu) -> Flush
    requires { page < 2 ^ 20 }
    ensures value { result ≡ flushed_by kind page cpu.now }
    ensures page { NamesPage result }
{
    match kind {
        FlushKind::LocalPage => Flush::PageLocal(function_space(cpu.dfc), page),
        FlushKind::Page => Flush::Page(function_space(cpu.dfc), page),
        FlushKind::AllLocal => Flush::AllLocal,
        FlushKind::All => Flush::All,
    }
}

/// Whether PFLUSH is of a page.
#[inline(always)]
fn is_of_a_page(kind: FlushKind) -> bool
    ensures { result ≡ of_page kind }
{
    matches!(kind, FlushKind::LocalPage | FlushKind::Page)
}

/// PFLUSH of the other half of a page of 8 KiB, where the tables are of such pages.
#[inline(always)]
fn flush_beside<P: Port>(kind: FlushKind, page: u32, cpu: &Cpu, port: &mut P)
    requires { page < 2 ^ 20 }
    ensures means { run P.bus (flush_beside_of kind page cpu.now) (P.world port.old) ≡ (cpu.now, P.world port.new) }
    ensures rest { P.rest port.new ≡ P.rest port.old }
{
    if has_big_pages(&port.mmu()) && is_of_a_page(kind) {
        port.flush(flushed_by(kind, other_half(page), cpu));
    }
}

/// PFLUSH.
#[inline(always)]
pub(crate) fn pflush<P: Port>(kind: FlushKind, register: u8, cpu: &Cpu, port: &mut P)
    requires { register < 8 }
    ensures means { run P.bus (pflush_of kind register cpu.now) (P.world port.old) ≡ (cpu.now, P.world port.new) }
    ensures rest { P.rest port.new ≡ P.rest port.old }
{
    let page = page_of(cpu.regs.plain().a[register as usize]);
    port.flush(flushed_by(kind, page, cpu));
    flush_beside(kind, page, cpu, port);
}

/// PTEST: the page is tested in DFC's space, and the answer becomes MMUSR.
#[inline(always)]
pub(crate) fn ptest<P: Port>(is_read: bool, register: u8, cpu: &Cpu, port: &mut P)
    requires { register < 8 }
    ensures means { run P.bus (ptest_of is_read register cpu.now) (P.world port.old) ≡ (cpu.now, P.world port.new) }
    ensures rest { P.rest port.new ≡ P.rest port.old }
{
    let address = cpu.regs.plain().a[register as usize];
    let status = port.test(function_space(cpu.dfc), address, !is_read);
    port.set_mmu(MmuReg::Mmusr, status);
}
