ghost use Rattle.std.specs.Prelude.{◌≡◌, ◌<◌, ◌≤◌, if◌then◌else◌, IfNone, IfSome, IfOk, IfErr, length, option_map, slice_set, is_ok, is_some};
ghost use Rattle.store.specs.Access.{write_answer, write_sectors};
ghost use Rattle.store.specs.ImageRecord.{IsRecordOf};
ghost use Rattle.store.specs.Images.{image_sectors, is_fit, record_count, with_record, written_image};
ghost use Rattle.store.specs.Loans.{loan, none};
ghost use Rattle.store.specs.Sector.{good_sector, sector_at};
ghost use Rattle.store.specs.Sound.{IsBytes};

use crate::SECTOR_BYTES;
use crate::checked_record::{CHECKED_RECORD_BYTES, CheckedRecord};
use crate::plain_record::PlainRecord;
use crate::record_format::RecordFormat;
use crate::sector_mark::Mark;
use crate::sector_store::SectorStore;
use crate::store_fault::StoreFault;
use crate::unfit_image::UnfitImage;
use std::marker::PhantomData;

/// A row of records of `W` bytes in lent memory, each of which holds a sector in the format `F`.
#[derive(Drop)]
pub struct Image<'a, F, const W: usize> {
    bytes: &'a mut [u8],
    format: PhantomData<F>,
}

/// An image of N × 1,024 bytes. Its sectors are always good.
pub type PlainImage<'a> = Image<'a, PlainRecord, SECTOR_BYTES>;

/// An image of N records of 1,029 bytes: a state byte, the data and the data's sum.
pub type CheckedImage<'a> = Image<'a, CheckedRecord, CHECKED_RECORD_BYTES>;

// The most sectors that a store may have.
const MOST_SECTORS: usize = u32::MAX as usize;

impl<'a, F: RecordFormat<W>, const W: usize> Image<'a, F, W> {
    /// The image in this memory, or the memory as it was lent, refused.
    pub fn new(bytes: &'a mut [u8]) -> Result<Image<'a, F, W>, UnfitImage<'a>>
        ensures fit { is_ok result ≡ is_fit W (length bytes.old) }
        ensures made { IfOk result (λ image. image.bytes ≡ bytes.entry) }
        ensures refused { IfErr result (λ unfit. unfit.bytes ≡ bytes.entry) }
    {
        if Self::fits(bytes.len()) {
            Ok(Image::over(bytes))
        } else {
            Err(UnfitImage { bytes })
        }
    }

    /// The image in this memory, fit or not: one that is not fit has no sectors, so that every access to
    /// it is refused and none of its bytes changes. Unlike `new`, whose answer keeps no tie to the lender,
    /// it lets the lender know what the memory holds when the image is let go.
    pub fn over(bytes: &'a mut [u8]) -> Image<'a, F, W>
        ensures { result.bytes ≡ bytes.entry }
    {
        Image {
            bytes,
            format: PhantomData,
        }
    }

    // Whether so many bytes are whole records, and not too many.
    fn fits(len: usize) -> bool
        ensures { result ≡ is_fit W len }
    {
        len % W == 0 && len / W <= MOST_SECTORS
    }

    // How many records there are; memory that does not fit holds none. It also says, for `size`, that what
    // lies in memory are bytes.
    fn count_records(bytes: &[u8]) -> u32
        ensures count { result ≡ record_count W (length bytes.now) }
        ensures bytes { IsBytes bytes.now }
    {
        let len = bytes.len();
        if Self::fits(len) { (len / W) as u32 } else { 0 }
    }

    // The record of sector n, which lies within the image.
    #[tactic(auto, using(crate::proofs::ImageRows::record_in_bytes))]
    fn record_at(bytes: &[u8], n: u32) -> &[u8; W]
        requires { n < record_count W (length bytes.now) }
        ensures { IsRecordOf W F.format bytes.now n result.now }
    {
        let start = n as usize * W;
        bytes[start..start + W].as_array().unwrap()
    }

    // Writes the record of sector n, which lies within the image; that of a dead sector stays.
    #[tactic(auto, using(crate::proofs::ImageRows::record_in_bytes))]
    fn write_at(bytes: &mut [u8], n: u32, content: &[u8; SECTOR_BYTES]) -> Option<()>
        requires { n < record_count W (length bytes.old) }
        ensures answer { result
            ≡ option_map (λ _. tt) (sector_at (image_sectors W F.format bytes.old) n).mark }
        ensures image { bytes.new ≡ if is_some result
            then with_record W bytes.old n (F.format.record_of content.now)
            else bytes.old }
        ensures sectors { image_sectors W F.format bytes.new ≡ if is_some result
            then slice_set (image_sectors W F.format bytes.old) n (good_sector content.now)
            else image_sectors W F.format bytes.old }
    {
        let start = n as usize * W;
        F::write(&mut bytes[start..start + W], content)
    }

    // The record of sector n, if there is one. By `if`, since a closure that gives an array of a width that is a
    // parameter would need a contract of its own, and be no plainer.
    #[tactic(auto, using(crate::proofs::ImageRows::image_lengths))]
    fn record(&self, n: u32) -> Option<&[u8; W]>
        ensures absent { IfNone result (length (image_sectors W F.format self.now.bytes.now) ≤ n) }
        ensures found { IfSome result (λ part. IsRecordOf W F.format self.now.bytes.now n part.now) }
    {
        if n < Self::count_records(self.bytes) {
            Some(Self::record_at(self.bytes, n))
        } else {
            None
        }
    }
}

impl<F: RecordFormat<W>, const W: usize> SectorStore for Image<'_, F, W> {
    type Name = u32;

    ghost sectors = { λ s. image_sectors W F.format s.bytes.now };

    ghost named = { λ _ n. n };

    ghost lent = { λ s. loan s.bytes.ghost_name none };

    fn size(&self) -> u32 {
        Self::count_records(self.bytes)
    }

    fn read(&self, n: u32, buffer: &mut [u8]) -> Result<Mark, StoreFault<u32>> {
        let record = self.record(n).ok_or(StoreFault::NoSector(n))?;
        let buffer = buffer.as_mut_array().ok_or(StoreFault::BufferLength)?;
        let (mark, content) = F::read(record).ok_or(StoreFault::DeadSector(n))?;
        *buffer = *content;
        Ok(mark)
    }

    // Besides what every store promises, repeated here, `image` says that no byte changes but those of the
    // record, and none if the write is refused.
    fn write(&mut self, n: u32, buffer: &[u8]) -> Result<(), StoreFault<u32>>
        ensures answer { result
            ≡ write_answer (λ k. k) (image_sectors W F.format self.old.bytes.now) n buffer.now }
        ensures after { image_sectors W F.format self.new.bytes.now
            ≡ write_sectors (image_sectors W F.format self.old.bytes.now) n buffer.now }
        ensures stays { loan self.new.bytes.ghost_name none ≡ loan self.old.bytes.ghost_name none }
        ensures image { self.new.bytes.now
            ≡ written_image W F.format self.old.bytes.now n buffer.now }
    {
        self.record(n).ok_or(StoreFault::NoSector(n))?;
        let content = buffer.as_array().ok_or(StoreFault::BufferLength)?;
        Self::write_at(self.bytes, n, content).ok_or(StoreFault::DeadSector(n))
    }
}
