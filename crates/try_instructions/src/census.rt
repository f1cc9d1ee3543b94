//! What first words of instructions are: each of the 65,536, decoded alone.

use mb_decode::{Decoded, decode};

/// The first word of a line, whose words begin with one hexadecimal digit; and how many of its 4,096 words are whole
/// instructions, begin longer ones, are Illegal, are line A, and are line F.
#[rattlefmt::skip]
static CENSUS: [(u16, u32, u32, u32, u32, u32); 16] = [
    (0x0000, 1024, 2308, 764, 0, 0),
    (0x1000, 1024, 1626, 1446, 0, 0),
    (0x2000, 1600, 1938, 558, 0, 0),
    (0x3000, 1600, 1938, 558, 0, 0),
    (0x4000, 1366, 1215, 1515, 0, 0),
    (0x5000, 2320, 1312, 464, 0, 0),
    (0x6000, 4064, 32, 0, 0, 0),
    (0x7000, 2048, 0, 2048, 0, 0),
    (0x8000, 1984, 1528, 584, 0, 0),
    (0x9000, 2496, 1272, 328, 0, 0),
    (0xA000, 0, 0, 0, 4096, 0),
    (0xB000, 2496, 1272, 328, 0, 0),
    (0xC000, 2176, 1272, 648, 0, 0),
    (0xD000, 2496, 1272, 328, 0, 0),
    (0xE000, 3264, 424, 408, 0, 0),
    (0xF000, 240, 40, 0, 0, 3816),
];

#[test]
fn first_words(rt: HostRuntime) {
    for &(line, whole, more, illegal, line_a, line_f) in &CENSUS {
        let mut found = (0u32, 0u32, 0u32, 0u32, 0u32);
        for low in 0..0x1000u16 {
            let place = match decode(&[line | low]) {
                Decoded::Whole(..) => &mut found.0,
                Decoded::More => &mut found.1,
                Decoded::Illegal => &mut found.2,
                Decoded::LineA => &mut found.3,
                Decoded::LineF => &mut found.4,
            };
            *place = place.saturating_add(1);
        }
        let expected = (whole, more, illegal, line_a, line_f);
        assert!(rt; found == expected, "at {line:04X}: {found:?}");
    }
}
