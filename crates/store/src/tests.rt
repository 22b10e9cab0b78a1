ghost use Rattle.std.specs.Prelude.{◌≡◌};
ghost use Rattle.store.specs.Formats.{checked_format, plain_format};
ghost use Rattle.store.specs.Images.{written_image};

use crate::checked_record::CheckedRecord;
use crate::image::{CheckedImage, Image, PlainImage};
use crate::plain_record::PlainRecord;
use crate::record_format::RecordFormat;
use crate::sector_mark::Mark;
use crate::sector_store::SectorStore;
use crate::store_fault::StoreFault;
use std::process::Abort;
use std::test::Fail;

// A store of two sectors refuses an absent sector before a short buffer.
fn refuses_in_order<S: SectorStore<Name = u32>>(rt: &impl Abort, store: &mut S) {
    let mut short = [7u8; 1023];
    assert_eq!(rt; store.read(2, &mut short), Err(StoreFault::NoSector(2)));
    assert_eq!(rt; store.write(2, &short), Err(StoreFault::NoSector(2)));
    assert_eq!(rt; store.read(1, &mut short), Err(StoreFault::BufferLength));
    assert_eq!(rt; store.write(1, &short), Err(StoreFault::BufferLength));
    assert_eq!(rt; short, [7; 1023]);
}

#[test]
fn plain_image_refuses_in_order(rt: HostRuntime) -> Result<(), Fail> {
    let mut bytes = [5u8; 2048];
    let Ok(mut image) = PlainImage::new(&mut bytes) else {
        return Err(Fail::new("two whole sectors were refused"));
    };
    refuses_in_order(&rt, &mut image);
    assert_eq!(rt; bytes, [5; 2048]);
    Ok(())
}

// The second sector is dead, and is refused only where number and length pass.
#[test]
fn checked_image_refuses_in_order(rt: HostRuntime) -> Result<(), Fail> {
    let mut bytes = [5u8; 2058];
    let mut buffer = [7u8; 1024];
    let Ok(mut image) = CheckedImage::new(&mut bytes) else {
        return Err(Fail::new("two whole records were refused"));
    };
    refuses_in_order(&rt, &mut image);
    assert_eq!(rt; image.read(1, &mut buffer), Err(StoreFault::DeadSector(1)));
    assert_eq!(rt; image.write(1, &buffer), Err(StoreFault::DeadSector(1)));
    assert_eq!(rt; buffer, [7; 1024]);
    assert_eq!(rt; bytes, [5; 2058]);
    Ok(())
}

// Memory that is no whole number of records is refused, and stays as it was lent.
fn hands_back<F: RecordFormat<W>, const W: usize>(
    rt: &impl Abort,
    bytes: &mut [u8],
) -> Result<(), Fail> {
    let Err(unfit) = Image::<F, W>::new(bytes) else {
        return Err(Fail::new("an image with a byte too many"));
    };
    assert_eq!(rt; unfit.number(), 53);
    Ok(())
}

#[test]
fn an_image_one_byte_too_long_is_handed_back(rt: HostRuntime) -> Result<(), Fail> {
    let mut plain = [5u8; 2049];
    let mut checked = [5u8; 2059];
    hands_back::<PlainRecord, 1024>(&rt, &mut plain)?;
    hands_back::<CheckedRecord, 1029>(&rt, &mut checked)?;
    assert_eq!(rt; plain, [5; 2049]);
    assert_eq!(rt; checked, [5; 2059]);
    Ok(())
}

// What the lender of the memory knows after a write, byte for byte, refused or not. One function for each name
// of an image and not a generic one, since these contracts pin which format the name has.
fn write_to_lent_checked(memory: &mut [u8], n: u32, content: &[u8])
    ensures { memory.new ≡ written_image 1029 checked_format memory.old n content.now }
{
    let mut image = CheckedImage::over(memory);
    let _ = image.write(n, content);
}

fn write_to_lent_plain(memory: &mut [u8], n: u32, content: &[u8])
    ensures { memory.new ≡ written_image 1024 plain_format memory.old n content.now }
{
    let mut image = PlainImage::over(memory);
    let _ = image.write(n, content);
}

#[test]
fn memory_that_does_not_fit_is_left(rt: HostRuntime) {
    let mut plain = [5u8; 1025];
    let mut checked = [5u8; 1030];
    write_to_lent_plain(&mut plain, 0, &[7; 1024]);
    write_to_lent_checked(&mut checked, 0, &[7; 1024]);
    assert_eq!(rt; plain, [5; 1025]);
    assert_eq!(rt; checked, [5; 1030]);
}

#[test]
fn an_empty_image_has_no_sectors(rt: HostRuntime) -> Result<(), Fail> {
    let mut none: [u8; 0] = [];
    let Ok(image) = CheckedImage::new(&mut none) else {
        return Err(Fail::new("an empty image was refused"));
    };
    assert_eq!(rt; image.size(), 0);
    Ok(())
}

#[test]
fn refusals_have_their_numbers(rt: HostRuntime) {
    assert_eq!(rt; StoreFault::NoSector(7u32).number(), 50);
    assert_eq!(rt; StoreFault::<u32>::BufferLength.number(), 51);
    assert_eq!(rt; StoreFault::DeadSector(7u32).number(), 52);
}

#[test]
fn refusals_have_their_words(rt: HostRuntime) -> Result<(), Fail> {
    let absent = StoreFault::NoSector(7u32).to_string(rt.alloc())?;
    let short = StoreFault::<u32>::BufferLength.to_string(rt.alloc())?;
    let dead = StoreFault::DeadSector(7u32).to_string(rt.alloc())?;
    assert_eq!(rt; absent.as_str(), "50: there is no sector 7");
    assert_eq!(rt; short.as_str(), "51: the buffer is not as long as a sector");
    assert_eq!(rt; dead.as_str(), "52: sector 7 is dead");
    Ok(())
}

#[test]
fn marks_have_their_words(rt: HostRuntime) -> Result<(), Fail> {
    let good = Mark::Good.to_string(rt.alloc())?;
    let bad = Mark::Bad.to_string(rt.alloc())?;
    assert_eq!(rt; good.as_str(), "good");
    assert_eq!(rt; bad.as_str(), "bad");
    Ok(())
}

// Any state but 0 is dead.
#[test]
fn other_states_are_dead(rt: HostRuntime) {
    let mut bytes = [0u8; 2058];
    bytes[0] = 1;
    bytes[1029] = 255;
    let mut buffer = [7u8; 1024];
    let image = CheckedImage::over(&mut bytes);
    assert_eq!(rt; image.read(0, &mut buffer), Err(StoreFault::DeadSector(0)));
    assert_eq!(rt; image.read(1, &mut buffer), Err(StoreFault::DeadSector(1)));
}

// A sum that differs makes the sector bad, its bytes arrive all the same, and a write mends it.
#[test]
fn a_sum_that_differs_is_bad(rt: HostRuntime) {
    let mut bytes = [0u8; 1029];
    bytes[1028] = 1;
    let mut buffer = [7u8; 1024];
    let mut image = CheckedImage::over(&mut bytes);
    assert_eq!(rt; image.read(0, &mut buffer), Ok(Mark::Bad));
    assert_eq!(rt; buffer, [0; 1024]);
    assert_eq!(rt; image.write(0, &buffer), Ok(()));
    assert_eq!(rt; image.read(0, &mut buffer), Ok(Mark::Good));
}
