//! What the program does to the memory that holds its image. Functions over the memory and not methods of a
//! struct that holds it, lent or as a `Vec`: there the clauses that say what the memory holds afterwards were
//! tried, and did not close, since a method that lends its field on does not learn what comes back.
ghost use Rattle.std.specs.Prelude.{◌≡◌};
ghost use Rattle.rad.specs.Damage.{byte_at, with_byte_inverted};
ghost use Rattle.store.specs.Access.{read_answer, read_buffer, write_answer};
ghost use Rattle.store.specs.Formats.{checked_format};
ghost use Rattle.store.specs.Images.{checked_sectors, written_image};

use store::{CheckedImage, Mark, SECTOR_BYTES, SectorStore, StoreFault};

/// Writes sector n of the image in this memory. Of its bytes those of the sector's record change and no
/// others, and none if the write is refused.
pub fn write_sector(
    memory: &mut [u8],
    n: u32,
    content: &[u8; SECTOR_BYTES],
) -> Result<(), StoreFault<u32>>
    ensures answer { result ≡ write_answer (λ k. k) (checked_sectors memory.old) n content.now }
    ensures after { memory.new ≡ written_image 1029 checked_format memory.old n content.now }
{
    let mut image = CheckedImage::over(memory);
    image.write(n, content)
}

/// Reads sector n of the image in this memory, which stays as it is.
pub fn read_sector(
    memory: &mut [u8],
    n: u32,
    buffer: &mut [u8; SECTOR_BYTES],
) -> Result<Mark, StoreFault<u32>>
    ensures answer { result ≡ read_answer (λ k. k) (checked_sectors memory.old) n buffer.old }
    ensures filled { buffer.new ≡ read_buffer (checked_sectors memory.old) n buffer.old }
    ensures kept { memory.new ≡ memory.old }
{
    let image = CheckedImage::over(memory);
    image.read(n, buffer)
}

/// Inverts one byte of the memory, and answers what it was; past the end there is none.
pub fn invert_byte(memory: &mut [u8], at: usize) -> Option<u8>
    ensures answer { result ≡ byte_at memory.old at }
    ensures after { memory.new ≡ with_byte_inverted memory.old at }
{
    let old = *memory.get(at)?;
    memory[at] = 255 - old;
    Some(old)
}
