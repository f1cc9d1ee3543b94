//! The command `asm`.

/// `asm`: a source that is assembled to an image.
#[derive(Clone, Copy, Drop)]
pub struct Asm<'a> {
    /// The name of the source's file. It is not empty.
    pub source: &'a str,
}
