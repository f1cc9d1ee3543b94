//! Bytes in RAM.

ghost use Rattle.std.specs.Prelude.{◌≡◌, ◌+◌, ◌<◌, ◌≤◌, ◌↔◌, vec_len, IsSome, IfSome};
ghost use Rattle.try_runs.specs.declared.cases.chunk.TheConstants.{RAM_SIZE};

/// Bytes that stand in RAM one after the other.
#[derive(Drop)]
pub struct Chunk {
    /// The address of the first.
    pub at: u32,
    pub bytes: Vec<u8>,
    ghost in_ram: { at + vec_len bytes ≤ RAM_SIZE },
}

impl Chunk {
    /// `None` exactly where RAM does not have all these places.
    pub fn new(at: u32, bytes: Vec<u8>) -> Option<Chunk>
        ensures in_ram { IsSome result ↔ (at + vec_len bytes ≤ RAM_SIZE) }
        ensures chunk { IfSome result (λ chunk. (chunk.at ≡ at) × (chunk.bytes.items ≡ bytes.items)) }
    {
        if at as usize <= RAM_SIZE as usize && bytes.len() <= RAM_SIZE as usize - at as usize {
            Some(Chunk { at, bytes })
        } else {
            None
        }
    }
}

/// Bits of a byte in RAM that may be either.
#[derive(Drop)]
pub struct UnsaidBits {
    pub at: u32,
    pub bits: u8,
    ghost in_ram: { at < RAM_SIZE },
}

impl UnsaidBits {
    /// `None` exactly where RAM does not have the place.
    pub fn new(at: u32, bits: u8) -> Option<UnsaidBits>
        ensures in_ram { IsSome result ↔ (at < RAM_SIZE) }
        ensures unsaid { IfSome result (λ unsaid. (unsaid.at ≡ at) × (unsaid.bits ≡ bits)) }
    {
        if at < RAM_SIZE {
            Some(UnsaidBits { at, bits })
        } else {
            None
        }
    }
}

/// How many bytes of RAM the machine of a case has.
pub const RAM_SIZE: u32 = 131_072;
