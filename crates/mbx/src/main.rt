//! mbx: runs an image of a MC68LC040 on a bare board, or several under a monitor, and prints what became of them. It
//! assembles such images too, and lists their instructions.
//!
//! The program's edge: it hands the real words, files and streams to the top call.
#![tactic(auto)]

use mb_board::Native;
use mb_outside::{FileShelf, StdSink, put_all};
use mb_program::run_program;
use std::alloc::Global;
use std::process::ExitCode;
use std::rt::Env;
use std::{env, io};

/// The words of the command line.
fn words(rt: &(impl Env + AllocGlobal)) -> io::Result<Vec<String>> {
    let alloc: Global = rt.alloc();
    let mut words = Vec::new(alloc);
    for word in env::args(rt)? {
        words.push(word)?;
    }
    Ok(words)
}

fn main(rt: HostRuntime) -> ExitCode {
    let alloc = rt.alloc();
    let mut out = StdSink::new(rt.stdout());
    let mut diag = StdSink::new(rt.stderr());
    let words = match words(&rt) {
        Ok(words) => words,
        Err(fault) if fault.kind() == io::ErrorKind::OutOfMemory => {
            let _ = put_all(&mut diag, b"mbx: no memory\n");
            return ExitCode::from(7);
        }
        Err(_) => {
            let _ = put_all(&mut diag, b"mbx: words refused\n");
            return ExitCode::from(2);
        }
    };
    let mut shelf = FileShelf::new(rt);
    let mut native = Native::new();
    ExitCode::from(run_program(alloc, &words, &mut shelf, &mut out, &mut diag, &mut native))
}
