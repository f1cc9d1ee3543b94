//! Files in memory, by their names.

use crate::fault::Fault;
use std::alloc::Global;

/// Files, of which each name has one.
#[derive(Drop)]
pub struct Files {
    files: Vec<(String, Vec<u8>)>,
}

/// A copy of a file.
fn copy_of(alloc: Global, name: &str, bytes: &[u8]) -> Result<(String, Vec<u8>), Fault> {
    Ok((
        String::from_str(alloc, name)?,
        Vec::from_slice(alloc, bytes)?,
    ))
}

impl Files {
    pub fn new(alloc: Global) -> Files {
        Files {
            files: Vec::new(alloc),
        }
    }

    /// Where the file of a name stands.
    fn place_of(&self, name: &str) -> Option<usize> {
        self.files.iter().position(|file| file.0.as_str() == name)
    }

    /// The bytes of the file of a name; none where there is no such file.
    pub fn bytes_of(&self, name: &str) -> &[u8] {
        match self.files.iter().find(|file| file.0.as_str() == name) {
            Some(file) => &file.1,
            None => b"",
        }
    }

    /// Puts a file, in place of that of the same name.
    pub fn put(&mut self, name: String, bytes: Vec<u8>) -> Result<(), Fault> {
        let place = self.place_of(&name).unwrap_or(self.files.len());
        match self.files.get_mut(place) {
            Some(file) => file.1 = bytes,
            None => self.files.push((name, bytes))?,
        }
        Ok(())
    }

    /// Copies of all files.
    pub fn copies(&self, alloc: Global) -> Result<Vec<(String, Vec<u8>)>, Fault> {
        let mut copies = Vec::new(alloc);
        for file in &self.files {
            copies.push(copy_of(alloc, &file.0, &file.1)?)?;
        }
        Ok(copies)
    }
}
