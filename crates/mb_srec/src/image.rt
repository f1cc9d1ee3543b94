//! Data at addresses.

ghost use Rattle.std.specs.Prelude.{◌≡◌};
ghost use Rattle.mb_srec.specs.Image.{all_contents, content_of, contents_of};

/// Bytes that stand one after the other.
#[derive(Debug, Drop)]
pub struct Chunk {
    at: u32,
    bytes: Vec<u8>,
}

/// A list of chunks. Where two have bytes at one address, the later chunk's byte counts.
#[derive(Debug, Drop)]
pub struct Image {
    chunks: Vec<Chunk>,
}

impl Chunk {
    /// Bytes of which the first is at the address.
    pub fn new(at: u32, bytes: Vec<u8>) -> Chunk
        ensures { content_of result ≡ (at, bytes.items) }
    {
        Chunk { at, bytes }
    }

    /// The address of the first byte.
    pub fn at(&self) -> u32
        ensures { let (at, _) = content_of self.now in result ≡ at }
    {
        self.at
    }

    pub fn bytes(&self) -> &[u8]
        ensures { let (_, bytes) = content_of self.now in result.now ≡ bytes }
    {
        &self.bytes
    }
}

impl Image {
    pub fn new(chunks: Vec<Chunk>) -> Image
        ensures { contents_of result ≡ all_contents chunks.items }
    {
        Image { chunks }
    }

    /// The chunks in the order in which they are to be loaded.
    pub fn chunks(&self) -> &[Chunk]
        ensures { all_contents result.now ≡ contents_of self.now }
    {
        &self.chunks
    }
}
