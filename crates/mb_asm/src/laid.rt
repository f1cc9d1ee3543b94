//! What a statement writes.

/// What a statement writes, and the address behind it.
#[derive(Drop)]
pub(crate) struct Laid {
    pub(crate) bytes: Vec<u8>,
    pub(crate) next: u64,
}
