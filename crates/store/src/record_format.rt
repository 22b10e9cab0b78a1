ghost use Rattle.std.specs.Prelude.{◌≡◌, length, IfSome, OnSome, if◌then◌else◌, is_some, option_map};
ghost use Rattle.store.specs.RecordFormat.{Format, HoldsSectors};
ghost use Rattle.store.specs.Sector.{good_sector};

use crate::SECTOR_BYTES;
use crate::sector_mark::Mark;

/// How an image keeps a sector in a record of `W` bytes.
pub trait RecordFormat<const W: usize> {
    ghost format: { Format };

    /// The mark and the content of the record's sector; a dead one has neither.
    fn read(bytes: &[u8; W]) -> Option<(Mark, &[u8; SECTOR_BYTES])>
        ensures mark { option_map (λ held. held.0) result ≡ (format.sector_of bytes.now).mark }
        ensures content { IfSome result (λ held. held.1.now ≡ (format.sector_of bytes.now).bytes) };

    /// Makes the record that of a good sector with this content; that of a dead sector stays.
    // A slice, since of a part that is lent on as an array `Image` does not learn what it then holds (tried).
    fn write(bytes: &mut [u8], content: &[u8; SECTOR_BYTES]) -> Option<()>
        requires { length bytes.old ≡ W }
        ensures answer { result ≡ option_map (λ _. tt) (format.sector_of bytes.old).mark }
        ensures after { bytes.new
            ≡ if is_some result then format.record_of content.now else bytes.old }
        ensures good { OnSome result (format.sector_of bytes.new ≡ good_sector content.now) };

    ghost holds_sectors: { HoldsSectors W format };
}
