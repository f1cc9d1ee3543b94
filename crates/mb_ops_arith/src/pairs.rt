//! Rows of a source and a destination.

ghost use Rattle.std.specs.Prelude.{◌≡◌, ◌<◌, IfOk, true};
ghost use Rattle.mb_port.specs.Routine.{run};
ghost use Rattle.mb_instr.specs.Operands.{IsEa, IsImmediate, IsDestination};
ghost use Rattle.mb_instr.specs.declared.operand.Ea.TheVariants.{Dn, Imm};
ghost use Rattle.mb_operands.specs.Fetched.{IsOperand};
ghost use Rattle.def_instructions.specs.Arithmetic.{fetch_pair_of, combine_of, compare_pair_of, combine_either_way_of, chain_of};
ghost use Rattle.mb_ops_arith.specs.Changes.{operation_of};
ghost use Rattle.mb_ops_arith.specs.Pairs.{paired};
ghost use Rattle.mb_operands.specs.Endings.{carried_by};
ghost use Rattle.mb_ea.specs.Addresses.{IsPlace};

use crate::direct::{at_hand, combine_into, combine_registers, compare_with};
use crate::operations::Operation;
use mb_alu::compare;
use mb_ea::ReadFault;
use mb_instr::{Ea, Plain, Size};
use mb_operands::{Operand, Stream, Undone, behind, fetch_operand, finish_with, unread};
use mb_port::Port;
use mb_writes::Ended;

/// Two operands that were read.
#[derive(Clone, Copy)]
pub(crate) struct Pair {
    /// The source's value.
    pub(crate) source: u32,
    pub(crate) destination: Operand,
}

/// Reads two operands, the source first. Its words stand before those of the destination.
#[inline(always)]
pub(crate) fn fetch_pair<P: Port>(
    size: Size,
    source: &Ea,
    destination: &Ea,
    stream: Stream,
    plain: &mut Plain,
    port: &mut P,
) -> Result<Pair, ReadFault>
    requires source { IsEa size source.now }
    requires destination { IsEa size destination.now }
    ensures means { run P.bus (fetch_pair_of size source.now destination.now stream.at stream.space plain.old)
        (P.world port.old) ≡ (paired result plain.new, P.world port.new) }
    ensures operand { IfOk result (λ pair. IsOperand size pair.destination) }
    ensures place { IsDestination destination.now → IfOk result (λ pair. IsPlace pair.destination.target) }
    ensures rest { P.rest port.new ≡ P.rest port.old }
{
    let from = fetch_operand(size, source, stream, plain, port)?;
    let behind = Stream {
        at: behind(size, source, stream.at),
        ..stream
    };
    let to = fetch_operand(size, destination, behind, plain, port)?;
    Ok(Pair {
        source: from.value,
        destination: to,
    })
}

/// What the operation makes of a source and a destination goes to the destination.
#[inline(always)]
fn combine<P: Port>(
    operation: Operation,
    size: Size,
    source: &Ea,
    destination: &Ea,
    stream: Stream,
    plain: &mut Plain,
    port: &mut P,
    ended: &mut Ended,
) -> Result<(), Undone>
    requires source { IsEa size source.now }
    requires destination { IsEa size destination.now }
    requires place { IsDestination destination.now }
    ensures means { run P.bus
        (combine_of (operation_of operation size) size source.now destination.now stream.at stream.space plain.old)
        (P.world port.old) ≡ (carried_by result ended.new plain.new, P.world port.new) }
    ensures rest { P.rest port.new ≡ P.rest port.old }
{
    let pair = match fetch_pair(size, source, destination, stream, plain, port) {
        Ok(pair) => pair,
        Err(refused) => return Err(unread(&refused, ended)),
    };
    let to = pair.destination;
    let result = operation.apply(size, pair.source, to.value, plain.ccr);
    plain.ccr = result.ccr;
    finish_with(
        to.target,
        size,
        result.value,
        stream.space,
        plain,
        port,
        ended,
    )
}

/// Compares a source with a destination, wherever they stand. Only the condition codes change.
#[inline(never)]
pub(crate) fn compare_pair<P: Port>(
    size: Size,
    source: &Ea,
    destination: &Ea,
    stream: Stream,
    plain: &mut Plain,
    port: &mut P,
    ended: &mut Ended,
) -> Result<(), Undone>
    requires source { IsEa size source.now }
    requires destination { IsEa size destination.now }
    ensures means { run P.bus (compare_pair_of size source.now destination.now stream.at stream.space plain.old)
        (P.world port.old)
        ≡ (carried_by result ended.new plain.new, P.world port.new) }
    ensures rest { P.rest port.new ≡ P.rest port.old }
{
    let pair = match fetch_pair(size, source, destination, stream, plain, port) {
        Ok(pair) => pair,
        Err(refused) => return Err(unread(&refused, ended)),
    };
    plain.ccr = compare(size, pair.source, pair.destination.value, plain.ccr);
    Ok(())
}

/// CMP: an operand is compared with a data register.
#[inline(always)]
#[tactic(auto, using(crate::proofs::WithoutBus::without_bus))]
pub(crate) fn compare_with_register<P: Port>(
    size: Size,
    ea: &Ea,
    register: u8,
    stream: Stream,
    plain: &mut Plain,
    port: &mut P,
    ended: &mut Ended,
) -> Result<(), Undone>
    requires operand { IsEa size ea.now }
    requires register { register < 8 }
    ensures means { run P.bus (compare_pair_of size ea.now (Dn register) stream.at stream.space plain.old)
        (P.world port.old) ≡ (carried_by result ended.new plain.new, P.world port.new) }
    ensures rest { P.rest port.new ≡ P.rest port.old }
{
    if let Some(value) = at_hand(size, ea, plain) {
        compare_with(size, value, register, plain);
        return Ok(());
    }
    compare_pair(size, ea, &Ea::Dn(register), stream, plain, port, ended)
}

/// CMPI: an immediate is compared with an operand.
#[inline(always)]
#[tactic(auto, using(crate::proofs::WithoutBus::without_bus))]
pub(crate) fn compare_immediate<P: Port>(
    size: Size,
    immediate: u32,
    ea: &Ea,
    stream: Stream,
    plain: &mut Plain,
    port: &mut P,
    ended: &mut Ended,
) -> Result<(), Undone>
    requires immediate { IsImmediate size immediate }
    requires operand { IsEa size ea.now }
    ensures means { run P.bus (compare_pair_of size (Imm immediate) ea.now stream.at stream.space plain.old)
        (P.world port.old) ≡ (carried_by result ended.new plain.new, P.world port.new) }
    ensures rest { P.rest port.new ≡ P.rest port.old }
{
    if let Ea::Dn(register) = *ea {
        compare_with(size, size.low(immediate), register, plain);
        return Ok(());
    }
    compare_pair(size, &Ea::Imm(immediate), ea, stream, plain, port, ended)
}

/// ADD, SUB, AND, OR and EOR of an operand that stands anywhere.
#[inline(never)]
#[tactic(auto, unfolding(def_instructions::specs::Arithmetic::combine_either_way_of))]
fn combine_operand<P: Port>(
    operation: Operation,
    register: u8,
    to_memory: bool,
    size: Size,
    ea: &Ea,
    stream: Stream,
    plain: &mut Plain,
    port: &mut P,
    ended: &mut Ended,
) -> Result<(), Undone>
    requires operand { IsEa size ea.now }
    requires destination { to_memory ≡ true → IsDestination ea.now }
    requires register { register < 8 }
    ensures means { run P.bus
        (combine_either_way_of (operation_of operation size) register to_memory size ea.now
        stream.at stream.space plain.old)
        (P.world port.old) ≡ (carried_by result ended.new plain.new, P.world port.new) }
    ensures rest { P.rest port.new ≡ P.rest port.old }
{
    let register = Ea::Dn(register);
    if to_memory {
        combine(operation, size, &register, ea, stream, plain, port, ended)
    } else {
        combine(operation, size, ea, &register, stream, plain, port, ended)
    }
}

/// ADD, SUB, AND and OR: from a data register to an operand, or from the operand to the register.
#[rattlefmt::skip]
#[inline(always)]
#[tactic(auto, using(crate::proofs::WithoutBus::without_bus), unfolding(
    def_instructions::specs::Arithmetic::combine_either_way_of,
))]
pub(crate) fn combine_either_way<P: Port>(
    operation: Operation,
    register: u8,
    to_memory: bool,
    size: Size,
    ea: &Ea,
    stream: Stream,
    plain: &mut Plain,
    port: &mut P,
    ended: &mut Ended,
) -> Result<(), Undone>
    requires operand { IsEa size ea.now }
    requires destination { to_memory ≡ true → IsDestination ea.now }
    requires register { register < 8 }
    ensures means { run P.bus
        (combine_either_way_of (operation_of operation size) register to_memory size ea.now
        stream.at stream.space plain.old)
        (P.world port.old) ≡ (carried_by result ended.new plain.new, P.world port.new) }
    ensures rest { P.rest port.new ≡ P.rest port.old }
{
    if let Ea::Dn(other) = *ea {
        let (source, destination) = if to_memory {
            (register, other)
        } else {
            (other, register)
        };
        combine_registers(operation, size, source, destination, plain);
        return Ok(());
    }
    combine_operand(
        operation, register, to_memory, size, ea, stream, plain, port, ended,
    )
}

/// ADDX and SUBX: two data registers, or memory below two address registers.
#[tactic(auto, using(crate::proofs::WithoutBus::without_bus), unfolding(def_instructions::specs::Arithmetic::chain_of))]
pub(crate) fn chain<P: Port>(
    operation: Operation,
    size: Size,
    in_memory: bool,
    source: u8,
    destination: u8,
    stream: Stream,
    plain: &mut Plain,
    port: &mut P,
    ended: &mut Ended,
) -> Result<(), Undone>
    requires source { source < 8 }
    requires destination { destination < 8 }
    ensures means { run P.bus
        (chain_of (operation_of operation size) size in_memory source destination stream.at stream.space plain.old)
        (P.world port.old) ≡ (carried_by result ended.new plain.new, P.world port.new) }
    ensures rest { P.rest port.new ≡ P.rest port.old }
{
    if in_memory {
        combine(
            operation,
            size,
            &Ea::Pre(source),
            &Ea::Pre(destination),
            stream,
            plain,
            port,
            ended,
        )
    } else {
        combine_registers(operation, size, source, destination, plain);
        Ok(())
    }
}

/// The operation with an immediate, of an operand that stands anywhere.
#[inline(never)]
fn combine_operand_immediate<P: Port>(
    operation: Operation,
    immediate: u32,
    size: Size,
    ea: &Ea,
    stream: Stream,
    plain: &mut Plain,
    port: &mut P,
    ended: &mut Ended,
) -> Result<(), Undone>
    requires immediate { IsImmediate size immediate }
    requires operand { IsEa size ea.now }
    requires destination { IsDestination ea.now }
    ensures means { run P.bus
        (combine_of (operation_of operation size) size (Imm immediate) ea.now stream.at stream.space plain.old)
        (P.world port.old) ≡ (carried_by result ended.new plain.new, P.world port.new) }
    ensures rest { P.rest port.new ≡ P.rest port.old }
{
    combine(
        operation,
        size,
        &Ea::Imm(immediate),
        ea,
        stream,
        plain,
        port,
        ended,
    )
}

/// The operation with an immediate, whose words stand before those of the operand.
#[inline(always)]
#[tactic(auto, using(crate::proofs::WithoutBus::without_bus))]
pub(crate) fn combine_immediate<P: Port>(
    operation: Operation,
    immediate: u32,
    size: Size,
    ea: &Ea,
    stream: Stream,
    plain: &mut Plain,
    port: &mut P,
    ended: &mut Ended,
) -> Result<(), Undone>
    requires immediate { IsImmediate size immediate }
    requires operand { IsEa size ea.now }
    requires destination { IsDestination ea.now }
    ensures means { run P.bus
        (combine_of (operation_of operation size) size (Imm immediate) ea.now stream.at stream.space plain.old)
        (P.world port.old) ≡ (carried_by result ended.new plain.new, P.world port.new) }
    ensures rest { P.rest port.new ≡ P.rest port.old }
{
    if let Ea::Dn(register) = *ea {
        combine_into(operation, size, size.low(immediate), register, plain);
        return Ok(());
    }
    combine_operand_immediate(operation, immediate, size, ea, stream, plain, port, ended)
}
