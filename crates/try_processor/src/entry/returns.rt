//! Returns.

use super::{ACCESS_ERROR, FIELDS, ILLEGAL, TIMER, processor};
use crate::bench::{Bench, NO_HOLE, Trial, check, put_longs, stands};
use mb_entry::{Cause, Entered, enter, return_from, return_held};
use mb_frames::Access;
use mb_model::Cpu;
use mb_port::{Fault, Space};
use mb_writes::{Ended, MovemFault};
use try_vector::VectorPort;

const WENT: Ended = Ended::Done { flow: true };

const FORMAT_ERROR: Ended = Ended::Refused(14);

/// Status registers.
static STATUS: [u16; 6] = [0x2700, 0x3000, 0x0000, 0x901F, 0x6015, 0x8000];

/// The processor after an entry with a status register, where it is done.
fn entered(sr: u16, cause: &Cause, port: &mut VectorPort) -> Option<Cpu> {
    let mut cpu = processor(sr);
    if cause.level < 8 && enter(&mut cpu, port, cause) == Entered::Done {
        Some(cpu)
    } else {
        None
    }
}

/// Returns, with nothing held before.
fn go_back(cpu: &mut Cpu, port: &mut VectorPort) -> Ended {
    return_from(cpu, port)
}

/// What a return holds: the fields and PC of an access error.
#[derive(Drop)]
struct Held {
    access: Access,
    pc: u32,
}

/// Returns, and holds the fields and PC of an access error.
fn go_back_held(cpu: &mut Cpu, port: &mut VectorPort, held: &mut Held) -> Ended {
    return_held(cpu, port, &mut held.access, &mut held.pc)
}

/// Whether an entry with a status register and the return leave the processor as it was.
fn comes_back(sr: u16, cause: &Cause, port: &mut VectorPort) -> bool {
    match entered(sr, cause, port) {
        Some(mut cpu) => go_back(&mut cpu, port) == WENT && cpu == processor(sr),
        None => false,
    }
}

/// Whether, as well, the return holds the fields and PC of an access error, and of other frames nothing.
fn comes_back_held(sr: u16, cause: &Cause, port: &mut VectorPort) -> bool {
    let (access, wanted) = match cause.access {
        Some(_) => (Access::default(), 0x400),
        None => (FIELDS, 7),
    };
    let mut held = Held { access, pc: 7 };
    match entered(sr, cause, port) {
        Some(mut cpu) => {
            go_back_held(&mut cpu, port, &mut held) == WENT
                && cpu == processor(sr)
                && held.access == FIELDS
                && held.pc == wanted
        }
        None => false,
    }
}

/// A cause of each frame, a zero divide and a trap among them.
static CAUSES: [Cause; 5] = [
    ILLEGAL,
    Cause {
        vector: 5,
        address: 0x3FC,
        ..ILLEGAL
    },
    Cause {
        vector: 32,
        ..ILLEGAL
    },
    TIMER,
    ACCESS_ERROR,
];

impl Trial for Cause {
    fn passes(&self, bench: &mut Bench) -> bool {
        for &sr in &STATUS {
            if !comes_back(sr, self, &mut bench.port)
                || !comes_back_held(sr, self, &mut bench.port)
            {
                return false;
            }
        }
        true
    }
}

/// Short frames and throwaway frames.
struct Frames {
    sr: u16,
    /// The longs at the interrupt stack, and at the master stack.
    interrupt: [u32; 2],
    master: [u32; 2],
    /// SR, PC and the interrupt stack pointer after the return; of none it is a format error.
    after: Option<(u16, u32, u32)>,
}

#[rattlefmt::skip]
static FRAMES: [Frames; 6] = [
    // only the bits of the status register are kept
    Frames {
        sr: 0x2700,
        interrupt: [0x0FFF_0000, 0x0500_0FFF], master: [0, 0], after: Some((0x071F, 0x500, 0x8008)),
    },
    // format $3
    Frames {
        sr: 0x2300,
        interrupt: [0x2700_0000, 0x0500_3000], master: [0, 0], after: None,
    },
    // format $F
    Frames {
        sr: 0x2300,
        interrupt: [0x2700_0000, 0x0500_F000], master: [0, 0], after: None,
    },
    // a throwaway frame whose S is clear
    Frames {
        sr: 0x2300,
        interrupt: [0x1000_0000, 0x0500_1078], master: [0x2700_0000, 0x0600_0000], after: None,
    },
    // a second throwaway frame
    Frames {
        sr: 0x2300,
        interrupt: [0x3000_0000, 0x0500_1078], master: [0x2700_0000, 0x0600_1078], after: None,
    },
    // below a throwaway frame a format that there is not
    Frames {
        sr: 0x2300,
        interrupt: [0x3000_0000, 0x0500_1078], master: [0x2700_0000, 0x0600_8000], after: None,
    },
];

impl Frames {
    /// The processor after the return, and how it ends.
    fn wanted(&self) -> (Cpu, Ended) {
        let mut cpu = processor(self.sr);
        let Some((sr, pc, isp)) = self.after else {
            return (cpu, FORMAT_ERROR);
        };
        cpu.regs.sr = sr;
        cpu.regs.pc = pc;
        cpu.regs.isp = isp;
        (cpu, WENT)
    }
}

impl Trial for Frames {
    fn passes(&self, bench: &mut Bench) -> bool {
        let port = &mut bench.port;
        put_longs(port, 0x8000, &self.interrupt);
        put_longs(port, 0x9000, &self.master);
        let mut cpu = processor(self.sr);
        let end = go_back(&mut cpu, port);
        (cpu, end) == self.wanted()
    }
}

/// A byte that refuses, and the first byte of the operand that it is in.
struct Hole {
    at: u32,
    first: u32,
}

#[rattlefmt::skip]
static HOLES: [Hole; 5] = [
    Hole { at: 0x8001, first: 0x8000 },
    Hole { at: 0x8002, first: 0x8002 },
    Hole { at: 0x8005, first: 0x8002 },
    Hole { at: 0x8007, first: 0x8006 },
    Hole { at: 0x803B, first: 0x8038 },
];

/// Whether the return is refused at an operand, and leaves all registers.
fn is_refused(first: u32, cpu: &mut Cpu, port: &mut VectorPort) -> bool {
    match go_back(cpu, port) {
        Ended::ReadFault(refused) => refused.first == first && *cpu == processor(0x2700),
        _ => false,
    }
}

impl Trial for Hole {
    /// A return by a frame of an access error is refused, and done where nothing refuses.
    fn passes(&self, bench: &mut Bench) -> bool {
        let port = &mut bench.port;
        put_longs(port, 0x8000, &[0x2000_0000, 0x0500_7008]);
        port.hole = self.at;
        let mut cpu = processor(0x2700);
        let refused = is_refused(self.first, &mut cpu, port);
        port.hole = NO_HOLE;
        refused && go_back(&mut cpu, port) == WENT && cpu.regs.isp == 0x803C
    }
}

/// The frame at $8000 of a MOVEM with these words, whose first transfer is at $2000, after so many.
fn interrupted(words: u32, done: u32) -> [u32; 15] {
    [
        0x2000_0000,
        0x0400_7008,
        0x0000_2000,
        0x1405_0000,
        0,
        0x0000_2008,
        0,
        0,
        0,
        0,
        0,
        0,
        0x0000_0404,
        words,
        done,
    ]
}

/// A MOVEM that goes on.
struct Movem {
    words: u32,
    /// How many transfers were done.
    done: u32,
    hole: u32,
    /// The longs of memory that it is to load.
    loads: [u32; 4],
    refused: Option<MovemFault>,
    pc: u32,
    /// D0 to D3 then, and A0.
    d: [u32; 4],
    a0: u32,
    /// The same longs of memory then.
    longs: [u32; 4],
}

#[rattlefmt::skip]
static MOVEMS: [Movem; 3] = [
    // two transfers are left
    Movem {
        words: 0x48D0_000F, done: 2, hole: NO_HOLE, loads: [0, 0, 0, 0],
        refused: None, pc: 0x404, d: [0xD0, 0xD1, 0xD2, 0xD3], a0: 0xA0, longs: [0, 0, 0xD2, 0xD3],
    },
    // it is refused again
    Movem {
        words: 0x4CD8_000F, done: 1, hole: 0x200D, loads: [0, 0x1111, 0x2222, 0],
        refused: Some(MovemFault {
            fault: Fault { at: 0x200C, len: 4, space: Space::Super, code: false, write: false, atc: false },
            first: 0x2000,
            done: 3,
        }),
        pc: 0x400, d: [0xD0, 0x1111, 0x2222, 0xD3], a0: 0xA0, longs: [0, 0x1111, 0x2222, 0],
    },
    // with nothing left it steps its register
    Movem {
        words: 0x4CD8_000F, done: 4, hole: NO_HOLE,
        loads: [0, 0, 0, 0], refused: None, pc: 0x404, d: [0xD0, 0xD1, 0xD2, 0xD3], a0: 0x2010, longs: [0, 0, 0, 0],
    },
];

impl Movem {
    /// The processor after the return.
    fn wanted(&self) -> Cpu {
        let mut cpu = processor(0x2000);
        let [d0, d1, d2, d3] = self.d;
        let d = [d0, d1, d2, d3, 0xD4, 0xD5, 0xD6, 0xD7];
        cpu.regs.d = d;
        cpu.regs.a[0] = self.a0;
        cpu.regs.pc = self.pc;
        cpu.regs.isp = 0x803C;
        cpu
    }

    /// How the return ends.
    fn end(&self) -> Ended {
        match self.refused {
            Some(refused) => Ended::Movem(refused),
            None => WENT,
        }
    }

    /// Puts the frame and what is to be loaded into memory.
    fn put(&self, port: &mut VectorPort) {
        put_longs(port, 0x8000, &interrupted(self.words, self.done));
        put_longs(port, 0x2000, &self.loads);
        port.hole = self.hole;
    }
}

impl Trial for Movem {
    fn passes(&self, bench: &mut Bench) -> bool {
        let port = &mut bench.port;
        self.put(port);
        let mut cpu = processor(0x2700);
        let mut held = Held {
            access: Access::default(),
            pc: 0,
        };
        go_back_held(&mut cpu, port, &mut held) == self.end()
            && cpu == self.wanted()
            && (held.pc, held.access.pd3, held.access.ssw) == (0x400, self.done, 0x1405)
            && stands(port, 0x2000, &self.longs)
    }
}

/// The words of a MOVEM, how many transfers were done, and whether that is lawful.
struct Words {
    words: u32,
    done: u32,
    lawful: bool,
}

#[rattlefmt::skip]
static WORDS: [Words; 15] = [
    Words { words: 0x48D0_000F, done: 5, lawful: false },
    Words { words: 0x48D0_000F, done: 0x1_0004, lawful: false },
    Words { words: 0x48C0_000F, done: 0, lawful: false },
    Words { words: 0x48D8_000F, done: 0, lawful: false },
    Words { words: 0x48E0_000F, done: 0, lawful: true },
    Words { words: 0x48FA_000F, done: 0, lawful: false },
    Words { words: 0x48BA_000F, done: 0, lawful: false },
    Words { words: 0x48B9_000F, done: 0, lawful: true },
    Words { words: 0x4CFA_000F, done: 0, lawful: true },
    Words { words: 0x4CFB_000F, done: 0, lawful: true },
    Words { words: 0x4CFC_000F, done: 0, lawful: false },
    Words { words: 0x4CE0_000F, done: 0, lawful: false },
    Words { words: 0x4C98_000F, done: 0, lawful: true },
    Words { words: 0x4E71_000F, done: 0, lawful: false },
    Words { words: 0x4C50_000F, done: 0, lawful: false },
];

impl Trial for Words {
    /// What is no MOVEM is a format error.
    fn passes(&self, bench: &mut Bench) -> bool {
        let port = &mut bench.port;
        put_longs(port, 0x8000, &interrupted(self.words, self.done));
        let end = go_back(&mut processor(0x2700), port);
        end == if self.lawful { WENT } else { FORMAT_ERROR }
    }
}

#[test]
fn returns(rt: HostRuntime) {
    check(&rt, rt.alloc(), &CAUSES);
    check(&rt, rt.alloc(), &FRAMES);
    check(&rt, rt.alloc(), &HOLES);
    check(&rt, rt.alloc(), &MOVEMS);
    check(&rt, rt.alloc(), &WORDS);
}
