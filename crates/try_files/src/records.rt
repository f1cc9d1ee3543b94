//! S-records that are read and written, and what is wrong with others.

use mb_srec::{Chunk, Image, ImageFault, RecordWhy, read_image, write_records, written_reads_back};
use std::alloc::Global;

/// A program of three instructions behind its two vectors.
const PROGRAM: &[u8] = b"S10B00000001000000000400EF\n\
S1150400704113C0FFF0000023FC00000001FFF0002044\n\
S9030000FC\n";

/// The same with lower-case digits, ends of CR and LF, lines without characters and no last LF.
const OTHERWISE: &[u8] = b"\r\nS10b00000001000000000400ef\r\n\n\
S1150400704113c0fff0000023fc00000001fff0002044\r\n\r\n\
S9030000fc";

/// From `objcopy --change-addresses 0x10000`.
const OBJCOPY: &[u8] = b"S0090000622E73726563B9\r\n\
S20C010000704113C0FFF000007F\r\n\
S804010000FA\r\n";

/// From `objcopy --srec-forceS3 --change-addresses 0x400`.
const OBJCOPY_LONG: &[u8] = b"S0090000632E73726563B8\r\n\
S30D00000400704113C0FFF000007B\r\n\
S70500000400F6\r\n";

/// From `srec_cat` of a file at `$80000000` and one at `$90000`.
const SREC_CAT: &[u8] =
    b"S0220000687474703A2F2F737265636F72642E736F75726365666F7267652E6E65742F1D\n\
S214090000202122232425262728292A2B2C2D2E2F6A\n\
S2080900103031323318\n\
S30D80000000704113C0FFF00000FF\n\
S5030003F9\n\
S804090000F2\n";

type Content<'a> = (u32, &'a [u8]);

const PROGRAM_CONTENTS: &[Content] = &[
    (0, b"\x00\x01\x00\x00\x00\x00\x04\x00"),
    (
        0x400,
        b"\x70\x41\x13\xC0\xFF\xF0\x00\x00\x23\xFC\x00\x00\x00\x01\xFF\xF0\x00\x20",
    ),
];

const EIGHT_BYTES: &[u8] = b"\x70\x41\x13\xC0\xFF\xF0\x00\x00";

fn has_contents(image: &Image, want: &[Content]) -> bool {
    let chunks = image.chunks();
    chunks.len() == want.len()
        && chunks.iter().zip(want).all(|(chunk, (at, bytes))| chunk.at() == *at
            && chunk.bytes() == *bytes)
}

/// A text, the bytes of RAM, and what it holds.
#[rattlefmt::skip]
static IMAGES: [(&[u8], u32, &[Content]); 14] = [
    (PROGRAM, 0x10000, PROGRAM_CONTENTS),
    (OTHERWISE, 0x412, PROGRAM_CONTENTS),
    (OBJCOPY, 0x10008, &[(0x10000, EIGHT_BYTES)]),
    (OBJCOPY_LONG, 0x10000, &[(0x400, EIGHT_BYTES)]),
    (
        SREC_CAT,
        0x8000_0008,
        &[
            (0x90000, b" !\"#$%&'()*+,-./"),
            (0x90010, b"0123"),
            (0x8000_0000, EIGHT_BYTES),
        ],
    ),
    (b"S9030000FC\n", 0, &[]),
    (b"S804000000FB\n\n\r\n", 0, &[]),
    (b"S70500000000FA\n", 0, &[]),
    (
        b"S104000001FA\nS104000002F9\nS9030000FC\n",
        1,
        &[(0, b"\x01"), (0, b"\x02")],
    ),
    (
        b"S5030000FC\nS104000001FA\nS5030001FB\nS604000001FA\nS9030000FC\n",
        1,
        &[(0, b"\x01")],
    ),
    (b"S1040010AA41\nS9030000FC\n", 17, &[(16, b"\xAA")]),
    (b"S103FFFFFE\nS9030000FC\n", 16, &[(0xFFFF, b"")]),
    (
        b"S20600FFFF0102F8\nS9030000FC\n",
        0x10001,
        &[(0xFFFF, b"\x01\x02")],
    ),
    (b"S305FFFFFFFFFE\nS9030000FC\n", 0, &[(0xFFFF_FFFF, b"")]),
];

/// Whether a text is an image with these contents; nothing of a long one.
fn reads(alloc: Global, text: &[u8], ram: u32, want: &[Content]) -> Option<bool> {
    if text.len() > 1000 {
        return None;
    }
    let image = read_image(alloc, text, ram).ok()?;
    Some(has_contents(&image, want))
}

#[test]
fn reads_images(rt: HostRuntime) {
    for &(text, ram, want) in &IMAGES {
        assert!(rt;
            reads(rt.alloc(), text, ram, want) == Some(true),
            "{text:?}"
        );
    }
}

const fn line(number: u32, why: RecordWhy) -> ImageFault {
    ImageFault::Line { number, why }
}

/// Images for 16 bytes, the line that is at fault, and why.
#[rattlefmt::skip]
static FAULTY_LINES: [(&[u8], u32, RecordWhy); 31] = [
    // A line that does not stand.
    (b"s9030000FC\n", 1, RecordWhy::Kind),
    (b"S", 1, RecordWhy::Kind),
    (b"S4030000FC\n", 1, RecordWhy::Kind),
    (b"S104000001FA\n \nS9030000FC\n", 2, RecordWhy::Kind),
    (b"S9030000FC\r\r\n", 1, RecordWhy::Digits),
    (b"S9030000FC\r", 1, RecordWhy::Digits),
    (b"S9030000F\n", 1, RecordWhy::Digits),
    (b"S104000001FA\nS9030000 FC\n", 2, RecordWhy::Digits),
    (b"S1FF0000", 1, RecordWhy::Length),
    (b"S9", 1, RecordWhy::Length),
    (b"S10200FD\n", 1, RecordWhy::Length),
    (b"S103000001FA\n", 1, RecordWhy::Length),
    (b"S504000109F1\n", 1, RecordWhy::Length),
    (b"\n\r\nS80500000001F9\n", 3, RecordWhy::Length),
    (b"S10B00000001000000000400EE\nS1150400704113C0FFF0000023FC00000001FFF0002044\n", 1, RecordWhy::Sum),
    (b"S104000001FA\nS0030000FD\n", 2, RecordWhy::Sum),
    (b"S5030001FB\n", 1, RecordWhy::Count),
    (b"S104000001FA\nS5030000FC\n", 2, RecordWhy::Count),
    (b"S104000001FA\nS604010001F9\n", 2, RecordWhy::Count),
    (b"S9030000FC\nS9030000FC\n", 2, RecordWhy::After),
    (b"S9030000FC\n\nS0030000FC\n", 3, RecordWhy::After),
    (b"S9030000FC\nS5030000FC\n", 2, RecordWhy::After),
    // Two faults in one line.
    (b"S4030000F\n", 1, RecordWhy::Kind),
    (b"S1FF000\n", 1, RecordWhy::Digits),
    (b"S1040000FA\n", 1, RecordWhy::Length),
    (b"S5030001FA\n", 1, RecordWhy::Sum),
    (b"S9030000FC\nS9030000FB\n", 2, RecordWhy::Sum),
    (b"S9030000FC\nS5030001FB\n", 2, RecordWhy::Count),
    (b"S9030000FC\nS104002007D4\n", 2, RecordWhy::After),
    (b"S104002007D3\nS9030000FC\n", 1, RecordWhy::Sum),
    // Faults in two lines.
    (b"S9030000FB\nS104002007D4\n", 1, RecordWhy::Sum),
];

/// Images for so many bytes that have no end, or data outside RAM.
#[rattlefmt::skip]
static FAULTY_WHOLES: [(&[u8], u32, ImageFault); 10] = [
    (b"", 16, ImageFault::NoEnd),
    (b"S0030000FC\nS104000001FA\n\n", 16, ImageFault::NoEnd),
    (b"S1040010AA41\nS9030000FC\n", 16, ImageFault::Outside { at: 16 }),
    (b"S104002007D4\nS9030000FC\n", 16, ImageFault::Outside { at: 32 }),
    (b"S107000E01020304E0\nS9030000FC\n", 16, ImageFault::Outside { at: 16 }),
    (b"S307FFFFFFFE0102FA\n", 16, ImageFault::Outside { at: 0xFFFF_FFFE }),
    (b"S307FFFFFFFE0102FA\n", 0xFFFF_FFFF, ImageFault::Outside { at: 0xFFFF_FFFF }),
    (b"S104000001FA\n", 0, ImageFault::Outside { at: 0 }),
    (b"S104002007D4\nS4\n", 16, ImageFault::Outside { at: 32 }),
    (SREC_CAT, 0x90008, ImageFault::Outside { at: 0x90008 }),
];

/// What is wrong with a text that is no image; nothing of a long one.
fn fault_of(alloc: Global, text: &[u8], ram: u32) -> Option<ImageFault> {
    if text.len() > 1000 {
        return None;
    }
    read_image(alloc, text, ram).err()
}

#[test]
fn tells_faults(rt: HostRuntime) {
    for &(text, number, why) in &FAULTY_LINES {
        let fault = fault_of(rt.alloc(), text, 16);
        assert!(rt; fault == Some(line(number, why)), "{text:?}");
    }
    for &(text, ram, fault) in &FAULTY_WHOLES {
        assert!(rt; fault_of(rt.alloc(), text, ram) == Some(fault), "{text:?}");
    }
}

/// The data lines are those of `objcopy --srec-forceS3 --srec-len 16 --change-addresses 0xFFF0`.
const WRITTEN: &[u8] = b"S0030000FC\n\
S3150000FFF0202122232425262728292A2B2C2D2E2F83\n\
S31500010000303132333435363738393A3B3C3D3E3F71\n\
S30A0001001040414243449A\n\
S70500000000FA\n";

static WRITTEN_CONTENTS: [Content; 3] = [
    (0xFFF0, b" !\"#$%&'()*+,-./"),
    (0x10000, b"0123456789:;<=>?"),
    (0x10010, b"@ABCD"),
];

/// The records of those bytes in one chunk.
fn records_of(alloc: Global) -> Option<Vec<u8>> {
    let bytes = Vec::from_slice(alloc, b" !\"#$%&'()*+,-./0123456789:;<=>?@ABCD").ok()?;
    if bytes.len() >= 1000 {
        return None;
    }
    let mut chunks = Vec::new(alloc);
    chunks.push(Chunk::new(0xFFF0, bytes)).ok()?;
    let image = Image::new(chunks);
    write_records(alloc, &image).ok()
}

#[test]
fn writes_images(rt: HostRuntime) {
    let text = records_of(rt.alloc()).expect(&rt, "ample memory");
    assert!(rt; text.as_slice() == WRITTEN);
    written_reads_back();
    assert!(rt; reads(rt.alloc(), WRITTEN, 0x10015, &WRITTEN_CONTENTS) == Some(true));
}
