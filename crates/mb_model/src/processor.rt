//! The processor.

ghost use Rattle.std.specs.Prelude.{◌≡◌};
ghost use Rattle.mb_model.specs.Reset.{at_reset};
ghost use Rattle.mb_model.specs.Status.{space_of};

use mb_instr::Regs;
use mb_port::Space;

/// The processor: its registers, its control registers but those of translation, and whether STOP
/// holds it.
#[derive(Clone, Copy, Debug, PartialEq, Eq)]
pub struct Cpu {
    pub regs: Regs,
    pub vbr: u32,
    /// The source function code, 0 to 7.
    pub sfc: u8,
    /// The destination function code, 0 to 7.
    pub dfc: u8,
    pub cacr: u32,
    pub stopped: bool,
}

impl Cpu {
    /// The space of its accesses, by S.
    #[inline(always)]
    pub fn space(&self) -> Space
        ensures { result ≡ space_of self.now }
    {
        if self.regs.is_supervisor() {
            Space::Super
        } else {
            Space::User
        }
    }

    /// The processor after reset, with the initial stack pointer and program counter: supervisor
    /// mode, interrupts masked, every other register 0.
    pub fn at_reset(isp: u32, pc: u32) -> Cpu
        ensures { result ≡ at_reset isp pc }
    {
        Cpu {
            regs: Regs {
                d: [0; 8],
                a: [0; 7],
                usp: 0,
                isp,
                msp: 0,
                pc,
                sr: 0x2700,
            },
            vbr: 0,
            sfc: 0,
            dfc: 0,
            cacr: 0,
            stopped: false,
        }
    }
}
