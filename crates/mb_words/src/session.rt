//! The session of the commands `host` and `compare`.

/// A session, by its file.
#[derive(Clone, Copy, Drop)]
pub struct SessionFile<'a> {
    /// The name of the file. It is not empty.
    pub name: &'a str,
}
