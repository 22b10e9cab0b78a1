ghost use Rattle.std.specs.Prelude.{◌≡◌, ℕ, List, length};
ghost use Rattle.store.specs.Access.{read_answer, read_buffer, write_answer, write_sectors};
ghost use Rattle.store.specs.Loans.{Loans};
ghost use Rattle.store.specs.Sector.{Sector};
ghost use Rattle.store.specs.Sound.{IsSound};

use crate::sector_mark::Mark;
use crate::store_fault::StoreFault;

/// A row of sectors, each of 1,024 bytes and either dead or in use under a mark.
///
/// A read and a write are refused by the first of three checks that fails: the sector is there (else
/// `NoSector`), the buffer has 1,024 bytes (else `BufferLength`), the sector is not dead (else
/// `DeadSector`). A refused call alters neither store nor buffer.
///
/// A buffer is a slice and not an array, since the answer to one of another length is a rule.
pub trait SectorStore {
    /// How the store names a sector in the report of a refusal.
    type Name;

    /// The row of sectors, from sector 0 on.
    ghost sectors: { Self → List Sector };

    /// What a report calls sector n: the cause and the number alone fix a report.
    ghost named: { Self → ℕ → Self.Name };

    /// The lent memory that the store stands on. No call moves the store to other memory, so whoever
    /// lent it learns from the sectors what it holds when the store is let go.
    ghost lent: { Self → Loans };

    /// How many sectors the row has.
    ///
    /// What holds of the row of every store stands here and not in a law of the trait, where a byte in
    /// memory would be any number.
    fn size(&self) -> u32
        ensures count { result ≡ length (sectors self.now) }
        ensures sound { IsSound (sectors self.now) };

    /// Fills the buffer with sector n and answers its mark, or is refused.
    fn read(&self, n: u32, buffer: &mut [u8]) -> Result<Mark, StoreFault<Self::Name>>
        ensures answer { result ≡ read_answer (named self.now) (sectors self.now) n buffer.old }
        ensures filled { buffer.new ≡ read_buffer (sectors self.now) n buffer.old };

    /// Puts the buffer's bytes into sector n and marks it good, or is refused. Every other sector and the
    /// size stay.
    fn write(&mut self, n: u32, buffer: &[u8]) -> Result<(), StoreFault<Self::Name>>
        ensures answer { result ≡ write_answer (named self.old) (sectors self.old) n buffer.now }
        ensures after { sectors self.new ≡ write_sectors (sectors self.old) n buffer.now }
        ensures same { named self.new ≡ named self.old }
        ensures stays { lent self.new ≡ lent self.old };
}
