ghost use Rattle.std.specs.Prelude.{◌≡◌, length, Ok};
ghost use Rattle.std.specs.Result.{result_and};
ghost use Rattle.store.specs.Access.{access, if_taken, write_answer, write_sectors};
ghost use Rattle.store.specs.RefusalOrder.{RefusalOrder};
ghost use Rattle.store.specs.WriteLaw.{WriteLaw};

use crate::SECTOR_BYTES;
use crate::sector_mark::Mark;
use crate::sector_store::SectorStore;
use crate::store_fault::StoreFault;

/// Writes sector n and reads it back. In every store the read answers good and `back` comes to hold
/// what was written, or the write was refused and nothing is altered. The content is a slice, since one of
/// another length than a sector's has its refusal.
#[tactic(auto, using(crate::proofs::WriteLaws::write_law))]
pub fn write_verified<S: SectorStore>(
    store: &mut S,
    n: u32,
    content: &[u8],
    back: &mut [u8; SECTOR_BYTES],
) -> Result<Mark, StoreFault<S::Name>>
    ensures answer { result
        ≡ result_and (write_answer (S.named store.old) (S.sectors store.old) n content.now)
        (Ok Mark.Good) }
    ensures returned { back.new
        ≡ if_taken (access (S.sectors store.old) n (length content.now)) content.now back.old }
    ensures after { S.sectors store.new ≡ write_sectors (S.sectors store.old) n content.now }
    ensures same { S.named store.new ≡ S.named store.old }
    ensures stays { S.lent store.new ≡ S.lent store.old }
    ensures order { RefusalOrder (S.named store.old) (S.sectors store.old) n content.now }
    ensures law { WriteLaw (S.named store.old) (S.sectors store.old) n content.now }
{
    store.write(n, content)?;
    store.read(n, back)
}
