//! Calls with ample memory, and what no clause says: the real files and streams.

use mb_outside::{
    Failed, FileShelf, LoadFault, MemShelf, MemSink, NoFailShelf, NoFailSink, Shelf, ShelfFault,
    Sink, SinkFault, StdSink, load, put_all, put_more,
};
use std::alloc::Global;
use std::fs::File;
use std::io::Cursor;
use std::process::Abort;
use std::{env, fs};

/// An empty file, one of five bytes and one of two pieces.
fn files(alloc: Global) -> Option<Vec<(String, Vec<u8>)>> {
    let mut files = Vec::new(alloc);
    files
        .push((String::from_str(alloc, "empty").ok()?, Vec::new(alloc)))
        .ok()?;
    let hello = Vec::from_slice(alloc, b"hello").ok()?;
    files
        .push((String::from_str(alloc, "hello").ok()?, hello))
        .ok()?;
    let long = vec![in alloc; 7u8; 70_000].ok()?;
    files
        .push((String::from_str(alloc, "long").ok()?, long))
        .ok()?;
    Some(files)
}

/// A shelf with these, of which a call fails.
fn mem_shelf(alloc: Global, fails: u64) -> Option<MemShelf> {
    let fails = Vec::from_slice(alloc, &[fails]).ok()?;
    Some(MemShelf::new(files(alloc)?, fails))
}

/// A file, where its piece begins, the room for it, and what the shelf gives.
type Piece<'a> = (&'a str, u64, usize, Result<&'a [u8], ShelfFault>);

const FAILED: Result<&[u8], ShelfFault> = Err(ShelfFault::Failed);

/// Whether the shelf gives a piece as it should.
fn gives<S: Shelf>(alloc: Global, shelf: &mut S, piece: &Piece) -> bool {
    let (name, at, room, want) = *piece;
    let mut buf = [0u8; 8];
    let got = shelf.piece(alloc, name, at, &mut buf[..room.min(8)]);
    match want {
        Ok(bytes) => got == Ok(bytes.len()) && buf.starts_with(bytes),
        Err(fault) => got == Err(fault),
    }
}

fn check_pieces<S: Shelf>(rt: &impl Abort, alloc: Global, shelf: &mut S, pieces: &[Piece]) {
    for piece in pieces {
        assert!(rt; gives(alloc, shelf, piece), "{} at {}", piece.0, piece.1);
    }
}

static IN_MEMORY: [Piece; 11] = [
    ("hello", 0, 8, Ok(b"hello")),
    ("hello", 0, 5, Ok(b"hello")),
    ("hello", 0, 8, FAILED),
    ("hello", 0, 3, Ok(b"hel")),
    ("hello", 3, 8, Ok(b"lo")),
    ("hello", 4, 1, Ok(b"o")),
    ("hello", 4, 0, Ok(b"")),
    ("hello", 5, 8, Ok(b"")),
    ("hello", u64::MAX, 8, Ok(b"")),
    ("empty", 0, 8, Ok(b"")),
    ("missing", 0, 8, FAILED),
];

/// A shelf in memory, and one of real files.
#[test]
fn shelves_give_pieces(rt: HostRuntime) {
    let mut shelf = mem_shelf(rt.alloc(), 3).expect(&rt, "ample memory");
    check_pieces(&rt, rt.alloc(), &mut shelf, &IN_MEMORY);
    let folder = env::temp_dir(&rt).expect(&rt, "a folder");
    let path = folder
        .join(rt.alloc(), "mb_outside.txt")
        .expect(&rt, "ample memory");
    let file = path.as_str();
    fs::write(&rt, file, b"hello").expect(&rt, "a file");
    let of_files: [Piece; 8] = [
        (file, 0, 3, Ok(b"hel")),
        (file, 3, 3, Ok(b"lo")),
        (file, 5, 3, Ok(b"")),
        (file, 1, 3, Ok(b"ell")),
        ("no such file", 0, 3, FAILED),
        (file, 9, 3, Ok(b"")),
        (folder.as_str(), 0, 3, FAILED),
        (file, 0, 3, Ok(b"hel")),
    ];
    check_pieces(&rt, rt.alloc(), &mut FileShelf::new(rt), &of_files);
    fs::remove_file(&rt, file).expect(&rt, "the file");
}

/// How many bytes a file has that is loaded.
fn load_len<S: Shelf>(
    alloc: Global,
    shelf: &mut S,
    name: &str,
    most: usize,
) -> Result<usize, LoadFault> {
    let bytes = load(alloc, shelf, name, most)?;
    Ok(bytes.len())
}

/// A file, how many bytes are asked for at most, the call that fails, and how many are loaded.
static FAILING: [(&str, usize, u64, Result<usize, LoadFault>); 12] = [
    ("hello", 6, 0, Ok(5)),
    ("hello", 5, 0, Ok(5)),
    ("hello", 4, 0, Err(LoadFault::TooLong)),
    ("hello", 0, 0, Err(LoadFault::TooLong)),
    ("empty", 0, 0, Ok(0)),
    ("missing", 5, 0, Err(LoadFault::Failed)),
    ("long", 70_000, 0, Ok(70_000)),
    ("long", 69_999, 0, Err(LoadFault::TooLong)),
    ("long", 70_000, 1, Err(LoadFault::Failed)),
    ("long", 70_000, 2, Err(LoadFault::Failed)),
    ("long", 70_000, 3, Err(LoadFault::Failed)),
    ("long", 70_000, 4, Ok(70_000)),
];

/// The same, where no call fails.
static UNFAILING: [(&str, usize, Result<usize, LoadFault>); 4] = [
    ("hello", 5, Ok(5)),
    ("hello", 4, Err(LoadFault::TooLong)),
    ("missing", 5, Ok(0)),
    ("missing", 0, Ok(0)),
];

/// From a shelf of which a call fails, and from one that never fails.
#[test]
fn load_reads_whole_files(rt: HostRuntime) {
    for &(name, most, fails, want) in &FAILING {
        let mut shelf = mem_shelf(rt.alloc(), fails).expect(&rt, "ample memory");
        let got = load_len(rt.alloc(), &mut shelf, name, most);
        assert!(rt; got == want, "{name} of at most {most}, fails {fails}");
    }
    let mut shelf = NoFailShelf::new(files(rt.alloc()).expect(&rt, "ample memory"));
    for &(name, most, want) in &UNFAILING {
        let got = load_len(rt.alloc(), &mut shelf, name, most);
        assert!(rt; got == want, "{name} of at most {most}");
    }
}

/// The room of a sink, the call that fails, and what it answers and takes of two texts.
type Taken = (usize, u64, Result<(), SinkFault>, &'static [u8]);

static TAKEN: [Taken; 8] = [
    (0, 0, Err(SinkFault), b""),
    (1, 0, Err(SinkFault), b"h"),
    (4, 0, Err(SinkFault), b"hell"),
    (5, 0, Err(SinkFault), b"hello"),
    (6, 0, Ok(()), b"hello!"),
    (9, 0, Ok(()), b"hello!"),
    (9, 1, Err(SinkFault), b""),
    (9, 2, Err(SinkFault), b"hello"),
];

/// Whether a sink takes as much as it should.
fn takes(alloc: Global, row: &Taken) -> Option<bool> {
    let (room, fails, want, bytes) = *row;
    let fails = Vec::from_slice(alloc, &[fails]).ok()?;
    let mut sink = MemSink::new(alloc, room, fails).ok()?;
    let first = put_all(&mut sink, b"hello");
    let got = put_more(&mut sink, first, b"!");
    Some(got == want && sink.bytes() == bytes)
}

#[test]
fn a_sink_takes_what_has_room(rt: HostRuntime) {
    for row in &TAKEN {
        assert!(rt;
            takes(rt.alloc(), row) == Some(true),
            "room {}, fails {}",
            row.0,
            row.1
        );
    }
}

/// A sink that never fails, and real ones: with all room, none, and room for three bytes.
#[test]
fn other_sinks_take_bytes(rt: HostRuntime) {
    let mut unfailing = NoFailSink::new();
    assert!(rt; put_all(&mut unfailing, b"hello") == Ok(()));
    assert!(rt; unfailing.put(b"") == Ok(0));
    assert!(rt; unfailing.put(b"12") == Ok(2));
    assert!(rt; unfailing.bytes() == 7);
    let mut taking = StdSink::new(File::create(&rt, "/dev/null").expect(&rt, "a null device"));
    let mut full = StdSink::new(File::create(&rt, "/dev/full").expect(&rt, "a full device"));
    assert!(rt; taking.put(b"hello") == Ok(5));
    assert!(rt; full.put(b"hello") == Err(Failed));
    assert!(rt; put_all(&mut full, b"") == Ok(()));
    let mut short = StdSink::new(Cursor::new([0u8; 3]));
    assert!(rt; short.put(b"hello") == Ok(3));
    assert!(rt; short.put(b"lo") == Err(Failed));
    assert!(rt; short.put(b"") == Ok(0));
}
