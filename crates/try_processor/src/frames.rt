//! Frames as they stand in memory.

ghost use Rattle.std.specs.Prelude.{IsTrue, ◌<◌};
ghost use Rattle.mb_frames.specs.Layout.{vector_offset_of};

use mb_frames::{Access, Frame, from_bytes, to_bytes};

/// A frame and its bytes.
struct Case {
    name: &'static str,
    frame: Frame,
    bytes: &'static [u8],
}

#[rattlefmt::skip]
static CASES: [Case; 5] = [
    Case {
        name: "level 6 at $400, on the master stack",
        frame: Frame::Short { sr: 0x3000, pc: 0x400, offset: 0x78 },
        bytes: b"\x30\x00\x00\x00\x04\x00\x00\x78",
    },
    Case {
        name: "the same on the interrupt stack",
        frame: Frame::Throwaway { sr: 0x3000, pc: 0x400, offset: 0x78 },
        bytes: b"\x30\x00\x00\x00\x04\x00\x10\x78",
    },
    Case {
        name: "a trace of the instruction at $404",
        frame: Frame::Address { sr: 0xA700, pc: 0x406, offset: 0x24, address: 0x404 },
        bytes: b"\xA7\x00\x00\x00\x04\x06\x20\x24\x00\x00\x04\x04",
    },
    Case {
        name: "MOVE.L #$11223344,$1FFF at $400, where the page at $2000 is invalid",
        frame: Frame::Access {
            sr: 0x2700, pc: 0x40A, offset: 8,
            access: Access {
                ea: 0x1FFF, ssw: 0x0C45, wb3s: 0, wb2s: 0xA5, wb1s: 0xC5, fa: 0x2000, wb3a: 0, wb3d: 0,
                wb2a: 0x2002, wb2d: 0x44, wb1a: 0x2000, wb1d: 0x2233_0000, pd1: 0, pd2: 0, pd3: 0,
            },
        },
        bytes: b"\x27\x00\x00\x00\x04\x0A\x70\x08\
            \x00\x00\x1F\xFF\x0C\x45\x00\x00\x00\xA5\x00\xC5\x00\x00\x20\x00\
            \x00\x00\x00\x00\x00\x00\x00\x00\
            \x00\x00\x20\x02\x00\x00\x00\x44\
            \x00\x00\x20\x00\x22\x33\x00\x00\
            \x00\x00\x00\x00\x00\x00\x00\x00\x00\x00\x00\x00",
    },
    Case {
        name: "bytes that count up from 0, so each field's value tells where it stands",
        frame: Frame::Access {
            sr: 0x0001, pc: 0x0203_0405, offset: 0x007,
            access: Access {
                ea: 0x0809_0A0B, ssw: 0x0C0D, wb3s: 0x0E0F, wb2s: 0x1011, wb1s: 0x1213, fa: 0x1415_1617,
                wb3a: 0x1819_1A1B, wb3d: 0x1C1D_1E1F, wb2a: 0x2021_2223, wb2d: 0x2425_2627,
                wb1a: 0x2829_2A2B, wb1d: 0x2C2D_2E2F, pd1: 0x3031_3233, pd2: 0x3435_3637, pd3: 0x3839_3A3B,
            },
        },
        bytes: &[
            0, 1, 2, 3, 4, 5, 0x70, 7, 8, 9, 10, 11, 12, 13, 14, 15, 16, 17, 18, 19, 20, 21, 22, 23, 24, 25, 26, 27, 28,
            29, 30, 31, 32, 33, 34, 35, 36, 37, 38, 39, 40, 41, 42, 43, 44, 45, 46, 47, 48, 49, 50, 51, 52, 53, 54, 55,
            56, 57, 58, 59,
        ],
    },
];

/// Whether it has a vector's offset.
fn has_offset(frame: &Frame) -> bool
    ensures { IsTrue result → vector_offset_of frame.now < 0x1000 }
{
    match *frame {
        Frame::Short { offset, .. }
        | Frame::Throwaway { offset, .. }
        | Frame::Address { offset, .. }
        | Frame::Access { offset, .. } => offset < 0x1000,
    }
}

impl Case {
    /// Whether the frame has these bytes, and is made of them.
    fn passes(&self) -> bool {
        has_offset(&self.frame)
            && to_bytes(&self.frame).as_slice() == self.bytes
            && from_bytes(self.bytes) == Some(self.frame)
    }
}

#[test]
fn frames_have_their_bytes(rt: HostRuntime) {
    for case in &CASES {
        assert!(rt; case.passes(), "{}", case.name);
    }
}

/// The bytes of a frame of each format, where there is one.
#[rattlefmt::skip]
static LEAST: [Option<usize>; 16] = [
    Some(8), Some(8), Some(12), None, None, None, None, Some(60), None, None, None, None, None, None, None, None,
];

/// Whether a frame of a format is made of its bytes and more, and of fewer none.
fn has_length(format: u8, least: Option<usize>) -> bool {
    let mut bytes = [0u8; 60];
    bytes[6] = format.wrapping_mul(16);
    for len in 0..=60usize {
        let whole = match least {
            Some(least) => len >= least,
            None => false,
        };
        if from_bytes(&bytes[..len]).is_some() != whole {
            return false;
        }
    }
    true
}

#[test]
fn each_format_has_its_length(rt: HostRuntime) {
    for (format, least) in LEAST.iter().enumerate() {
        assert!(rt; has_length(format as u8, *least), "format {format}");
    }
}
