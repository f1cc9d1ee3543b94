//! Registers.

ghost use Rattle.std.specs.Prelude.{◌≡◌, ◌<◌};
ghost use Rattle.mb_instr.specs.Registers.{register_of, with_register};
ghost use Rattle.mb_instr.specs.Registers.{is_supervisor, is_master, interrupt_mask};
ghost use Rattle.mb_instr.specs.Registers.{active_stack, with_stack, plain_of, with_plain};

use crate::status::{I, LEVELS, M, S};
use mb_port::word_has;

/// The registers that a program in user mode sees.
#[derive(Clone, Copy, Debug, PartialEq, Eq)]
pub struct Plain {
    pub d: [u32; 8],
    /// A0 to A6, and the active stack pointer.
    pub a: [u32; 8],
    pub pc: u32,
    /// X, N, Z, V and C in bits 4 to 0.
    pub ccr: u8,
}

impl Plain {
    /// Register `n` of all sixteen: 0 to 7 are D0 to D7, 8 to 15 are A0 to A7.
    #[inline(always)]
    pub fn register(&self, n: u8) -> u32
        requires { n < 16 }
        ensures { result ≡ register_of self.now n }
    {
        if n < 8 {
            self.d[n as usize]
        } else {
            self.a[n as usize - 8]
        }
    }

    /// Makes this the value of register `n` of all sixteen.
    #[inline(always)]
    pub fn set_register(&mut self, n: u8, value: u32)
        requires { n < 16 }
        ensures { self.new ≡ with_register self.old n value }
    {
        if n < 8 {
            self.d[n as usize] = value;
        } else {
            self.a[n as usize - 8] = value;
        }
    }
}

/// All registers of the processor's programming model but the control registers.
#[derive(Clone, Copy, Debug, PartialEq, Eq)]
pub struct Regs {
    pub d: [u32; 8],
    /// A0 to A6.
    pub a: [u32; 7],
    /// A7 in user mode.
    pub usp: u32,
    /// A7 in supervisor mode, where M is clear.
    pub isp: u32,
    /// A7 in supervisor mode, where M is set.
    pub msp: u32,
    pub pc: u32,
    /// Its upper byte has the bits of [`status`](crate::status), and CCR stands in bits 4 to 0.
    pub sr: u16,
}

impl Regs {
    /// S: supervisor mode.
    #[inline(always)]
    pub fn is_supervisor(&self) -> bool
        ensures { result ≡ is_supervisor self.now.sr }
    {
        word_has(self.sr, S)
    }

    /// M: the master stack, where S is set.
    #[inline(always)]
    pub fn is_master(&self) -> bool
        ensures { result ≡ is_master self.now.sr }
    {
        word_has(self.sr, M)
    }

    /// The interrupt mask.
    #[inline(always)]
    pub fn interrupt_mask(&self) -> u8
        ensures { result ≡ interrupt_mask self.now.sr }
    {
        (self.sr / I % LEVELS) as u8
    }

    /// A7: the stack pointer that S and M choose.
    #[inline(always)]
    pub fn active_stack(&self) -> u32
        ensures { result ≡ active_stack self.now }
    {
        if !self.is_supervisor() {
            self.usp
        } else if self.is_master() {
            self.msp
        } else {
            self.isp
        }
    }

    /// Makes this A7.
    #[inline(always)]
    pub fn set_active_stack(&mut self, top: u32)
        ensures { self.new ≡ with_stack self.old top }
    {
        if !self.is_supervisor() {
            self.usp = top;
        } else if self.is_master() {
            self.msp = top;
        } else {
            self.isp = top;
        }
    }

    /// The registers that user mode sees, with the active stack pointer as A7.
    #[inline(always)]
    #[tactic(auto, using(crate::proofs::Arrays::seven_and_one))]
    pub fn plain(&self) -> Plain
        ensures { result ≡ plain_of self.now }
    {
        let [a0, a1, a2, a3, a4, a5, a6] = self.a;
        Plain {
            d: self.d,
            a: [a0, a1, a2, a3, a4, a5, a6, self.active_stack()],
            pc: self.pc,
            ccr: (self.sr % 32) as u8,
        }
    }

    /// Makes these the registers that user mode sees. Only the low five bits of `ccr` count; S and M,
    /// which choose the active stack pointer, stay.
    #[inline(always)]
    #[tactic(auto, using(crate::proofs::Arrays::seven_of_eight))]
    pub fn set_plain(&mut self, p: &Plain)
        ensures { self.new ≡ with_plain self.old p.now }
    {
        let [a0, a1, a2, a3, a4, a5, a6, top] = p.a;
        self.set_active_stack(top);
        self.d = p.d;
        self.a = [a0, a1, a2, a3, a4, a5, a6];
        self.pc = p.pc;
        self.sr = self.sr - self.sr % 32 + u16::from(p.ccr % 32);
    }
}
