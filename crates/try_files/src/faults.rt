//! What is wrong with a file, as it is printed.

use mb_script::{LineFault, LineWhy};
use mb_srec::{ImageFault, RecordWhy};
use std::alloc::Global;

#[rattlefmt::skip]
static OF_IMAGES: [(ImageFault, &str); 9] = [
    (ImageFault::Memory, "no memory"),
    (ImageFault::Line { number: 1, why: RecordWhy::Kind }, "line 1: kind"),
    (ImageFault::Line { number: 20, why: RecordWhy::Digits }, "line 20: digits"),
    (ImageFault::Line { number: 3, why: RecordWhy::Length }, "line 3: length"),
    (ImageFault::Line { number: 4, why: RecordWhy::Sum }, "line 4: sum"),
    (ImageFault::Line { number: 5, why: RecordWhy::Count }, "line 5: count"),
    (ImageFault::Line { number: 6, why: RecordWhy::After }, "line 6: after"),
    (ImageFault::Outside { at: 0x1_0000 }, "outside 00010000"),
    (ImageFault::NoEnd, "no end"),
];

#[rattlefmt::skip]
static OF_SCRIPTS: [(LineFault, &str); 6] = [
    (LineFault::Memory, "no memory"),
    (LineFault::Line { number: 1, why: LineWhy::Word }, "line 1: word"),
    (LineFault::Line { number: 20, why: LineWhy::Number }, "line 20: number"),
    (LineFault::Line { number: 3, why: LineWhy::Digits }, "line 3: digits"),
    (LineFault::Line { number: 4, why: LineWhy::Order }, "line 4: order"),
    (LineFault::Line { number: 5, why: LineWhy::Many }, "line 5: many"),
];

/// Whether a fault of an image prints so.
fn prints_image(alloc: Global, fault: ImageFault, want: &str) -> Option<bool> {
    let text = fault.to_string(alloc).ok()?;
    Some(text.as_str() == want)
}

/// Whether a fault of a script prints so.
fn prints_script(alloc: Global, fault: LineFault, want: &str) -> Option<bool> {
    let text = fault.to_string(alloc).ok()?;
    Some(text.as_str() == want)
}

#[test]
fn prints_faults(rt: HostRuntime) {
    for &(fault, want) in &OF_IMAGES {
        assert!(rt;
            prints_image(rt.alloc(), fault, want) == Some(true),
            "{want}"
        );
    }
    for &(fault, want) in &OF_SCRIPTS {
        assert!(rt;
            prints_script(rt.alloc(), fault, want) == Some(true),
            "{want}"
        );
    }
}
