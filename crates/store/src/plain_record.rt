ghost use Rattle.store.specs.Formats.{HoldsSectors-plain_format, plain_format};

use crate::SECTOR_BYTES;
use crate::record_format::RecordFormat;
use crate::sector_mark::Mark;

/// The format of a plain image: a record is a sector's bytes, always good.
pub struct PlainRecord;

impl RecordFormat<SECTOR_BYTES> for PlainRecord {
    ghost format = { plain_format };

    ghost holds_sectors = { HoldsSectors-plain_format };

    fn read(bytes: &[u8; SECTOR_BYTES]) -> Option<(Mark, &[u8; SECTOR_BYTES])> {
        Some((Mark::Good, bytes))
    }

    fn write(bytes: &mut [u8], content: &[u8; SECTOR_BYTES]) -> Option<()> {
        bytes.copy_from_slice(content);
        Some(())
    }
}
