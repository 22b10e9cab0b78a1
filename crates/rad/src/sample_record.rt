//! The record that the program stores, cut into sectors.
ghost use Rattle.std.specs.Prelude.{◌≡◌, ◌↔◌, ◌≤◌, length, take, IsTrue};
ghost use Rattle.rad.specs.Padding.{padded_part};
ghost use Rattle.rad.specs.Record.{CountsUp};

use std::array;
use store::SECTOR_BYTES;

/// The length of the record.
pub const RECORD_LEN: usize = 1500;

/// A record of 1,500 bytes that count up.
pub fn sample_record() -> [u8; RECORD_LEN]
    ensures { CountsUp result }
{
    array::from_fn(|i| (i % 256) as u8)
}

/// A sector that holds a part of a record, and zeros after it. Of a part that is longer than a sector
/// it holds the beginning.
#[tactic(auto, using(std::proofs::lemmas::List::take_min))]
pub fn padded_sector(part: &[u8]) -> [u8; SECTOR_BYTES]
    ensures { result ≡ padded_part (take 1024 part.now) }
{
    pad(&part[..SECTOR_BYTES.min(part.len())])
}

// The part, and zeros up to a sector's length.
fn pad(part: &[u8]) -> [u8; SECTOR_BYTES]
    requires { length part.now ≤ 1024 }
    ensures { result ≡ padded_part part.now }
{
    let mut sector = [0u8; SECTOR_BYTES];
    sector[0..part.len()].copy_from_slice(part);
    sector
}

/// Whether a sector holds this part of a record, and zeros after it.
pub fn holds_part(sector: &[u8; SECTOR_BYTES], part: &[u8]) -> bool
    ensures { IsTrue result ↔ (sector.now ≡ padded_part (take 1024 part.now)) }
{
    *sector == padded_sector(part)
}
