ghost use Rattle.std.specs.Prelude.{◌≡◌, IsTrue};
ghost use Rattle.drive.specs.declared.place.Place.{Place};
ghost use Rattle.drive.specs.Addresses.{AddressFits};
ghost use Rattle.drive.specs.Bijection.{IsBijection, unit_number};
ghost use Rattle.drive.specs.Places.{has_place};

use crate::drive_model::DriveModel;

/// From a number to its place and back: in every model this is the number itself where the unit has
/// it, since places and numbers are matched one to one. And every place fits the two address bytes.
pub fn round_trip<M: DriveModel>(model: &M, number: u32) -> Option<u32>
    ensures same { result ≡ unit_number (M.geometry model.now) number }
    ensures bijection { IsBijection (M.geometry model.now) }
    ensures addresses { let g = M.geometry model.now in
        (p : Place) → IsTrue (has_place g p) → AddressFits g.shape.protect_bit p }
{
    there_and_back(model, number)
}

// The trip alone; `round_trip` adds what is true of the whole numbering.
fn there_and_back<M: DriveModel>(model: &M, number: u32) -> Option<u32>
    ensures { result ≡ unit_number (M.geometry model.now) number }
{
    let place = model.place(number)?;
    model.number(place)
}
