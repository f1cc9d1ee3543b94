//! Registers, as names say them.

use mb_instr::ControlRegister;

/// What a name in either case says that is a register's. Numbers are 0 to 7.
#[derive(Clone, Copy)]
pub enum Register {
    /// `D0` to `D7`.
    Data(u8),
    /// `A0` to `A7`, and `SP`, which is A7.
    Address(u8),
    /// `PC`.
    Pc,
    /// `ZD0` to `ZD7`: a data register that is dropped.
    NoData(u8),
    /// `ZA0` to `ZA7`: an address register that is dropped.
    NoAddress(u8),
    /// `ZPC`: the PC dropped.
    NoPc,
    /// `SR`.
    Sr,
    /// `CCR`.
    Ccr,
    /// A control register, `USP` among them.
    Control(ControlRegister),
}
