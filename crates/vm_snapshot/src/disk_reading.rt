//! The lines of a disk.

ghost use Rattle.std.specs.Prelude.{◌≡◌, ◌+◌, ◌*◌, ◌%◌, ◌<◌, ◌≤◌, ◌++◌, ◌∷◌, [], length, codes, decimal, All, IfOk, IfErr};
ghost use Rattle.mb_spelling.specs.Decimals.{from_to, ranged};
ghost use Rattle.mb_spelling.specs.Reads.{Reads, lines_to};
ghost use Rattle.mb_spelling.specs.Hex.{masked};
ghost use Rattle.mb_srec.specs.Image.{contents_of as contents_in};
ghost use Rattle.mb_spelling.specs.Spelling.{behind, mapped};
ghost use Rattle.mb_walk.specs.Memory.{with_contents};
ghost use Rattle.vm_disk.specs.Disk.{opened, zeros as zeros_of};
ghost use Rattle.vm_snapshot.specs.Guests.{bit, disk as disk_of, long as long_of};
ghost use Rattle.mb_saved.specs.Lines.{contents_of};
ghost use Rattle.vm_snapshot.specs.Plans.{state_of};
ghost use Rattle.vm_snapshot.specs.Views.{ReadsOr, disk_seen};
ghost use Rattle.vm_snapshot.specs.declared.refusal.Refusal.TheVariants as refusal;

use crate::device_reading::BIT;
use crate::dump_reading::dump;
use crate::line::{self, long};
use crate::memory_reading::memory;
use crate::refusal::Refusal;
use crate::told::DiskLines;
use mb_saved::RamLine;
use mb_spelling::{Numbers, Reader, Stop};
use mb_srec::{Chunk, Image};
use mb_walk::overwrite;
use std::alloc::Global;
use vm_disk::{BLOCK_BYTES, Disk, MOST_BLOCKS};

/// Reads the number of the guest, and how many blocks there are.
fn heading(reader: &mut Reader, guest: u8) -> Result<u32, Stop>
    ensures reads { Reads (λ blocks. blocks) result reader.new.left
        ((behind (codes "disk " ++ (decimal guest ++ codes " blocks ")) (ranged (from_to 1 32768) 10)).read
        reader.old.left) }
    ensures some { IfOk result (λ blocks. (1 ≤ blocks) × (blocks ≤ 32768)) }
    ensures lines { lines_to reader.new ≡ lines_to reader.old }
{
    line::numbered(reader, b"disk ", guest, b" blocks ")?;
    let blocks = line::number(reader, 1, u64::from(MOST_BLOCKS))?;
    Ok(blocks as u32)
}

/// Reads RESULT.
fn outcome(reader: &mut Reader) -> Result<u32, Stop>
    ensures reads { Reads (λ n. n) result reader.new.left ((long_of (codes "RESULT") bit).read reader.old.left) }
    ensures small { IfOk result (λ n. n ≤ 1) }
    ensures lines { lines_to reader.new ≡ lines_to reader.old }
{
    long(reader, b"RESULT ", &BIT)
}

/// Reads POSITION.
fn position(reader: &mut Reader) -> Result<u32, Stop>
    ensures reads { Reads (λ n. n) result reader.new.left
        ((long_of (codes "POSITION") (masked 0x1FC)).read reader.old.left) }
    ensures place { IfOk result (λ n. (n % 4 ≡ 0) × (n < BLOCK_BYTES)) }
    ensures lines { lines_to reader.new ≡ lines_to reader.old }
{
    long(reader, b"POSITION ", &Numbers::Masked(0x1fc))
}

/// Reads the lines of the disk of the guest of this number.
fn disk_lines(alloc: Global, reader: &mut Reader, guest: u8) -> Result<DiskLines, Refusal>
    ensures reads { ReadsOr disk_seen result reader.new.left ((disk_of guest).read reader.old.left) }
    ensures lines { lines_to reader.new ≡ lines_to reader.old }
{
    let blocks = heading(reader, guest)?;
    let block = long(reader, b"BLOCK ", &Numbers::Any)?;
    let outcome = outcome(reader)?;
    let position = position(reader)?;
    let buffer = dump(alloc, reader, BLOCK_BYTES as u64)?;
    let lines = memory(alloc, reader, 32 * blocks)?;
    Ok(DiskLines {
        blocks,
        block,
        outcome,
        position,
        buffer,
        lines,
    })
}

/// Puts lines that lie in memory over what stands there.
#[tactic(auto, using(mb_walk::proofs::MemoryLemmas::writes))]
fn put_lines(bytes: &mut [u8], lines: &[RamLine])
    requires inside { All (λ line. line.at + 16 ≤ length bytes.old) lines.now }
    ensures after { bytes.new ≡ with_contents bytes.old (contents_of lines.now) }
    ensures size { length bytes.new ≡ length bytes.old }
{
    for line in lines {
        overwrite(bytes, line.at as usize, &line.bytes);
    }
}

/// So many bytes, which are zero but for these lines.
#[tactic(auto, unfolding(vm_disk::specs::Disk::zeros))]
fn bytes_by(alloc: Global, size: usize, lines: &[RamLine]) -> Result<Vec<u8>, Refusal>
    requires inside { All (λ line. line.at + 16 ≤ size) lines.now }
    ensures bytes { IfOk result (λ bytes. bytes.items ≡ with_contents (zeros_of size) (contents_of lines.now)) }
    ensures size { IfOk result (λ bytes. length bytes.items ≡ size) }
    ensures refused { IfErr result (λ e. e ≡ refusal.Memory) }
{
    let mut bytes = vec![in alloc; 0u8; size]?;
    put_lines(&mut bytes, lines);
    Ok(bytes)
}

/// An image of these bytes.
fn image_of(alloc: Global, bytes: Vec<u8>) -> Result<Image, Refusal>
    ensures image { IfOk result (λ image. contents_in image ≡ (0, bytes.items) ∷ []) }
    ensures refused { IfErr result (λ e. e ≡ refusal.Memory) }
{
    let mut chunks = Vec::new(alloc);
    chunks.push(Chunk::new(0, bytes))?;
    Ok(Image::new(chunks))
}

/// A disk of so many blocks, with these bytes.
fn disk_of_bytes(alloc: Global, blocks: u32, bytes: Vec<u8>) -> Result<Disk, Refusal>
    requires blocks { (1 ≤ blocks) × (blocks ≤ MOST_BLOCKS) }
    requires whole { length bytes.items ≡ BLOCK_BYTES * blocks }
    ensures disk { IfOk result (λ disk. disk ≡ record (opened blocks []) { bytes = bytes.items }) }
    ensures refused { IfErr result (λ e. e ≡ refusal.Memory) }
{
    let image = image_of(alloc, bytes)?;
    let Ok(disk) = Disk::new(alloc, blocks, &image) else {
        return Err(Refusal::Memory);
    };
    Ok(disk)
}

/// A buffer of so many bytes.
fn buffer_of(bytes: &[u8]) -> [u8; BLOCK_BYTES]
    requires { length bytes.now ≡ BLOCK_BYTES }
    ensures { result ≡ bytes.now }
{
    let mut buffer = [0; BLOCK_BYTES];
    buffer.copy_from_slice(bytes);
    buffer
}

/// The disk that lines say.
fn disk_by(alloc: Global, told: &DiskLines) -> Result<Disk, Refusal>
    ensures disk { IfOk result (λ disk. disk ≡ state_of (disk_seen told.now)) }
    ensures refused { IfErr result (λ e. e ≡ refusal.Memory) }
{
    let bytes = bytes_by(alloc, BLOCK_BYTES * told.blocks as usize, &told.lines)?;
    let mut disk = disk_of_bytes(alloc, told.blocks, bytes)?;
    disk.adopt(
        told.block,
        told.outcome,
        told.position,
        &buffer_of(&told.buffer),
    );
    Ok(disk)
}

/// Reads the disk of the guest of this number.
pub(crate) fn disk(alloc: Global, reader: &mut Reader, guest: u8) -> Result<Disk, Refusal>
    ensures reads { ReadsOr (λ disk. disk) result reader.new.left
        (mapped state_of ((disk_of guest).read reader.old.left)) }
    ensures lines { lines_to reader.new ≡ lines_to reader.old }
{
    let told = disk_lines(alloc, reader, guest)?;
    disk_by(alloc, &told)
}
