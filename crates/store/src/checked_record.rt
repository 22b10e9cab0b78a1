//! The format of a checked image: a record is a state byte, the data and the sum of the data.
ghost use Rattle.std.specs.Prelude.{◌≡◌, ◌≤◌, ◌==◌, if◌then◌else◌, [], ◌∷◌, drop, replicate};
ghost use Rattle.std.specs.Int.{to_be_bytes, w32};
ghost use Rattle.store.specs.CheckedRecord.{checksum, data_of, good_record, kept_sum, layout};
ghost use Rattle.store.specs.Formats.{HoldsSectors-checked_format, checked_format};

use crate::SECTOR_BYTES;
use crate::record_format::RecordFormat;
use crate::sector_mark::Mark;

// Where the data and the sum start, after the state byte.
const DATA_AT: usize = 1;

const SUM_AT: usize = DATA_AT + SECTOR_BYTES;

/// The bytes of a record.
pub const CHECKED_RECORD_BYTES: usize = SUM_AT + 4;

// The state byte of a sector in use. Under any other the sector is dead.
const IN_USE: u8 = 0;

/// The format of a checked image.
pub struct CheckedRecord;

impl RecordFormat<CHECKED_RECORD_BYTES> for CheckedRecord {
    ghost format = { checked_format };

    ghost holds_sectors = { HoldsSectors-checked_format };

    fn read(bytes: &[u8; CHECKED_RECORD_BYTES]) -> Option<(Mark, &[u8; SECTOR_BYTES])> {
        (bytes[0] == IN_USE).then(|| (mark_by_sum(bytes), data_of(bytes)))
    }

    // By `if`, since of what a closure writes through a reference the proof learns nothing (tried).
    #[tactic(auto, using(crate::proofs::CheckedRecords::records_read))]
    fn write(bytes: &mut [u8], content: &[u8; SECTOR_BYTES]) -> Option<()> {
        if bytes[0] != IN_USE {
            return None;
        }
        lay_out(bytes.as_mut_array().unwrap(), content, sector_sum(content));
        Some(())
    }
}

// The data of the record's sector.
fn data_of(bytes: &[u8; CHECKED_RECORD_BYTES]) -> &[u8; SECTOR_BYTES]
    ensures { result.now ≡ data_of bytes.now }
{
    bytes[DATA_AT..SUM_AT].as_array().unwrap()
}

// The sum that a record keeps in its last four bytes.
fn kept_sum(bytes: &[u8; CHECKED_RECORD_BYTES]) -> u32
    ensures { result ≡ kept_sum bytes.now }
{
    u32::from_be_bytes(*bytes.last_chunk().unwrap())
}

// The mark of a sector in use.
fn mark_by_sum(bytes: &[u8; CHECKED_RECORD_BYTES]) -> Mark
    ensures { result
        ≡ if checksum (data_of bytes.now) == kept_sum bytes.now then Mark.Good else Mark.Bad }
{
    if sector_sum(data_of(bytes)) == kept_sum(bytes) {
        Mark::Good
    } else {
        Mark::Bad
    }
}

// Lays a record out: in use, this content, this sum.
fn lay_out(bytes: &mut [u8; CHECKED_RECORD_BYTES], content: &[u8; SECTOR_BYTES], sum: u32)
    ensures { bytes.new ≡ layout content.now sum }
{
    bytes[0] = IN_USE;
    bytes[DATA_AT..SUM_AT].copy_from_slice(content);
    bytes[SUM_AT..CHECKED_RECORD_BYTES].copy_from_slice(&sum.to_be_bytes());
}

/// The sum of a sector's bytes.
pub fn sector_sum(bytes: &[u8; SECTOR_BYTES]) -> u32
    ensures is { result ≡ checksum bytes.now }
    ensures bound { result ≤ 261120 }
{
    bytes.iter().map(|byte| u32::from(*byte)).sum()
}

// The four bytes in which the record of a good sector with this content keeps its sum.
fn kept_bytes(content: &[u8; SECTOR_BYTES]) -> [u8; 4]
    ensures rule { result ≡ drop 1025 (good_record content.now) }
    ensures digits { result ≡ to_be_bytes w32 (checksum content.now) }
{
    sector_sum(content).to_be_bytes()
}

/// The largest sum that a sector can have, that of 1,024 bytes of 255, and the four bytes in which its
/// record keeps it.
pub fn largest_sum() -> (u32, [u8; 4])
    ensures value { result ≡ (261120, 0x00 ∷ 0x03 ∷ 0xfc ∷ 0x00 ∷ []) }
    ensures rule { result
        ≡ (checksum (replicate 1024 255), drop 1025 (good_record (replicate 1024 255))) }
{
    let content = [255; SECTOR_BYTES];
    (sector_sum(&content), kept_bytes(&content))
}
