//! Shelves and sinks that fail.

use crate::fault::Fault;

/// At which call each of them fails, and 0 for never; and how many bytes out has room for.
#[derive(Clone, Copy)]
pub struct Failing {
    pub shelf: u64,
    pub out: u64,
    pub diag: u64,
    pub room: usize,
}

/// None of them fails, and out has room for the texts of guests that fill their RAM.
pub const AMPLE: Failing = Failing {
    shelf: 0,
    out: 0,
    diag: 0,
    room: 4_000_000,
};

impl Failing {
    /// Sets what a word names.
    fn set(&mut self, name: &[u8], number: u32) -> Result<(), Fault> {
        match name {
            b"shelf" => self.shelf = u64::from(number),
            b"out" => self.out = u64::from(number),
            b"diag" => self.diag = u64::from(number),
            b"room" => self.room = number as usize,
            _ => return Err(Fault::Form),
        }
        Ok(())
    }
}

/// Words of a name and its number, as `out=3`.
pub fn read_failing(line: &str) -> Result<Failing, Fault> {
    let mut failing = AMPLE;
    for word in line.split(' ') {
        let (name, number) = word.split_once('=').ok_or(Fault::Form)?;
        failing.set(name.as_bytes(), number.parse()?)?;
    }
    Ok(failing)
}
