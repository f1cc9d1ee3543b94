//! Lines as rows.

use crate::failing::{AMPLE, read_failing};
use crate::fault::Fault;
use crate::files::Files;
use crate::kind::{Kind, OfFile, OfNumber, OfText, kind_of};
use crate::row::{Asked, Row, Run};
use crate::wanted::Wanted;
use std::alloc::Global;
use std::{mem, str};

/// What lines of text are of.
#[derive(Drop)]
enum Part {
    Nothing,
    File(String),
    Asked(OfText),
}

/// Rows as they are read.
#[derive(Drop)]
pub struct Table {
    alloc: Global,
    /// What stands on the shelf.
    pub files: Files,
    /// The row that is begun.
    row: Row,
    /// What the text is of, and the line by which it began.
    part: Part,
    number: u32,
    text: Vec<u8>,
}

/// A text of its own.
fn owned(alloc: Global, text: &str) -> Result<String, Fault> {
    Ok(String::from_str(alloc, text)?)
}

/// Words with one space between two of them.
fn words_of(alloc: Global, line: &str) -> Result<Vec<String>, Fault> {
    let mut words = Vec::new(alloc);
    for word in line.split(' ') {
        words.push(owned(alloc, word)?)?;
    }
    Ok(words)
}

/// What a line of words begins.
fn part_of(alloc: Global, kind: Kind, rest: &str) -> Result<Part, Fault> {
    match kind {
        Kind::File => Ok(Part::File(owned(alloc, rest)?)),
        Kind::Text(of) => Ok(Part::Asked(of)),
        _ => Ok(Part::Nothing),
    }
}

/// A file and a line, with a space between them.
fn within(alloc: Global, rest: &str) -> Result<Wanted, Fault> {
    let (name, line) = rest.split_once(' ').ok_or(Fault::Form)?;
    let name = owned(alloc, name)?;
    Ok(Wanted::Within(name, owned(alloc, line)?))
}

/// A byte again and again: how often, and its digits.
fn repeated(alloc: Global, line: &[u8]) -> Result<Vec<u8>, Fault> {
    let line = str::from_utf8(line).map_err(|_| Fault::Form)?;
    let (count, digits) = line.split_once(' ').ok_or(Fault::Form)?;
    let count: u32 = count.parse()?;
    let byte = u8::from_str_radix(digits, 16)?;
    Ok(vec![in alloc; byte; count as usize]?)
}

impl Table {
    /// An empty shelf, and no row.
    pub fn new(alloc: Global) -> Table {
        Table {
            alloc,
            files: Files::new(alloc),
            row: Row::new(alloc),
            part: Part::Nothing,
            number: 0,
            text: Vec::new(alloc),
        }
    }

    /// Whether no row is begun.
    pub fn is_at_end(&self) -> bool {
        self.row.runs.is_empty()
    }

    /// Adds what a line asks.
    fn ask(&mut self, number: u32, wanted: Wanted) -> Result<(), Fault> {
        self.row.asked.push(Asked { number, wanted })?;
        Ok(())
    }

    /// Puts a text to what it is of.
    fn put_text(&mut self, part: Part, text: Vec<u8>) -> Result<(), Fault> {
        match part {
            Part::Nothing if text.is_empty() => Ok(()),
            Part::Nothing => Err(Fault::Form),
            Part::File(name) => self.files.put(name, text),
            Part::Asked(of) => self.ask(self.number, Wanted::Text(of, text)),
        }
    }

    /// Ends a text, and begins the next.
    fn begin(&mut self, number: u32, part: Part) -> Result<(), Fault> {
        let text = mem::replace(&mut self.text, Vec::new(self.alloc));
        let before = mem::replace(&mut self.part, part);
        self.put_text(before, text)?;
        self.number = number;
        Ok(())
    }

    /// Adds a line of text, with the end of the line.
    fn add_line(&mut self, text: &[u8]) -> Result<(), Fault> {
        self.text.extend_from_slice(text)?;
        self.text.push(b'\n')?;
        Ok(())
    }

    /// Adds bytes by their digits.
    fn add_bytes(&mut self, digits: &[u8]) -> Result<(), Fault> {
        let bytes = hex::decode(self.alloc, digits).map_err(|_| Fault::Form)?;
        self.add(&bytes)
    }

    /// Adds what a file has.
    fn add_file(&mut self, name: &[u8]) -> Result<(), Fault> {
        let name = str::from_utf8(name).map_err(|_| Fault::Form)?;
        self.text.extend_from_slice(self.files.bytes_of(name))?;
        Ok(())
    }

    /// Adds words to be run.
    fn add_run(&mut self, number: u32, line: &str, unfailing: bool) -> Result<(), Fault> {
        let words = words_of(self.alloc, line)?;
        self.row.runs.push(Run {
            number,
            words,
            unfailing,
        })?;
        Ok(())
    }

    /// Adds an outside.
    fn add_failing(&mut self, line: &str) -> Result<(), Fault> {
        let failing = read_failing(line)?;
        self.row.failing.push(failing)?;
        Ok(())
    }

    /// Makes what out takes a file.
    fn keep(&mut self, name: &str) -> Result<(), Fault> {
        self.row.keep = Some(owned(self.alloc, name)?);
        Ok(())
    }

    /// Adds what a line asks by a file.
    fn ask_named(&mut self, number: u32, of: OfFile, name: &str) -> Result<(), Fault> {
        let name = owned(self.alloc, name)?;
        self.ask(number, Wanted::Named(of, name))
    }

    /// Adds what a line asks by a file and a line in it.
    fn ask_within(&mut self, number: u32, rest: &str) -> Result<(), Fault> {
        let wanted = within(self.alloc, rest)?;
        self.ask(number, wanted)
    }

    /// Adds what a line asks by a number.
    fn ask_counted(&mut self, number: u32, of: OfNumber, digits: &str) -> Result<(), Fault> {
        let count: u64 = digits.parse()?;
        self.ask(number, Wanted::Counted(of, count))
    }

    /// The row that ends here, with the status that these digits say.
    fn end(&mut self, digits: &str) -> Result<Row, Fault> {
        let status: u8 = digits.parse()?;
        if self.row.runs.is_empty() {
            return Err(Fault::Form);
        }
        if self.row.failing.is_empty() {
            self.row.failing.push(AMPLE)?;
        }
        let mut row = mem::replace(&mut self.row, Row::new(self.alloc));
        row.status = status;
        Ok(row)
    }

    /// Adds what words say that end no row.
    fn add_words(&mut self, number: u32, kind: Kind, rest: &str) -> Result<(), Fault> {
        match kind {
            Kind::Run => self.add_run(number, rest, false),
            Kind::Unfailing => self.add_run(number, rest, true),
            Kind::Fails => self.add_failing(rest),
            Kind::Named(of) => self.ask_named(number, of, rest),
            Kind::Within => self.ask_within(number, rest),
            Kind::Counted(of) => self.ask_counted(number, of, rest),
            Kind::AnyDiag => self.ask(number, Wanted::AnyDiag),
            Kind::Keep => self.keep(rest),
            Kind::File | Kind::Text(_) | Kind::Status => Ok(()),
        }
    }

    /// What words say: the row that ends by them.
    fn read_kind(&mut self, number: u32, kind: Kind, rest: &str) -> Result<Option<Row>, Fault> {
        if let Kind::Status = kind {
            return Ok(Some(self.end(rest)?));
        }
        self.add_words(number, kind, rest)?;
        Ok(None)
    }

    /// A line of words.
    fn read_words(&mut self, number: u32, line: &[u8]) -> Result<Option<Row>, Fault> {
        let line = str::from_utf8(line).map_err(|_| Fault::Form)?;
        let (word, rest) = line.split_once(' ').unwrap_or((line, ""));
        let kind = kind_of(word.as_bytes()).ok_or(Fault::Form)?;
        self.begin(number, part_of(self.alloc, kind, rest)?)?;
        self.read_kind(number, kind, rest)
    }

    /// Adds bytes to the text.
    fn add(&mut self, bytes: &[u8]) -> Result<(), Fault> {
        self.text.extend_from_slice(bytes)?;
        Ok(())
    }

    /// Adds a byte again and again.
    fn add_repeated(&mut self, line: &[u8]) -> Result<(), Fault> {
        let bytes = repeated(self.alloc, line)?;
        self.add(&bytes)
    }

    /// Adds a line of text; `None` where it is none.
    fn add_text(&mut self, line: &[u8]) -> Option<Result<(), Fault>> {
        match line {
            [b'#', ..] => Some(Ok(())),
            [b'|', text @ ..] => Some(self.add_line(text)),
            [b'.', text @ ..] => Some(self.add(text)),
            [b'=', digits @ ..] => Some(self.add_bytes(digits)),
            [b'<', name @ ..] => Some(self.add_file(name)),
            [b'*', repeated @ ..] => Some(self.add_repeated(repeated)),
            _ => None,
        }
    }

    /// Reads a line: the row that ends by it.
    pub fn read_line(&mut self, number: u32, line: &[u8]) -> Result<Option<Row>, Fault> {
        match self.add_text(line) {
            Some(added) => {
                added?;
                Ok(None)
            }
            None => self.read_words(number, line),
        }
    }
}
