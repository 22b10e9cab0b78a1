ghost use Rattle.std.specs.Prelude.{◌≡◌};
ghost use Rattle.drive.specs.Models.{shape_of};
ghost use Rattle.drive.specs.TrackMajor.{track_major};
ghost use Rattle.drive.specs.TrackMajorLaws.{IsSound-shape_of};

use crate::address_byte::AddressByte;
use crate::drive_model::DriveModel;
use crate::drive_shape::Shape;
use crate::place::Place;
use crate::track_major::TrackMajor;

/// The built-in models: two drives that were made, and a small one for the bench.
#[derive(Clone, Copy, Debug, PartialEq, Eq)]
pub enum RadModel {
    Sds7212,
    Xerox3214,
    Bench,
}

impl RadModel {
    // How the model numbers its places.
    fn numbering(self) -> TrackMajor
        ensures { result.shape ≡ shape_of self }
    {
        TrackMajor {
            shape: self.shape(),
        }
    }
}

impl DriveModel for RadModel {
    ghost geometry = { λ m. track_major (shape_of m) };

    // The numbering is sound at any counts within the bounds, and each row of the table keeps them.
    ghost sound = { IsSound-shape_of };

    fn shape(&self) -> Shape {
        match *self {
            RadModel::Sds7212 => Shape {
                tracks: 64,
                sectors_per_track: 82,
                tracks_per_switch: 4,
                ports: 1,
                most_units: 4,
                protect_bit: AddressByte::First,
            },
            RadModel::Xerox3214 => Shape {
                tracks: 256,
                sectors_per_track: 11,
                tracks_per_switch: 64,
                ports: 2,
                most_units: 8,
                protect_bit: AddressByte::Second,
            },
            RadModel::Bench => Shape {
                tracks: 4,
                sectors_per_track: 5,
                tracks_per_switch: 2,
                ports: 2,
                most_units: 2,
                protect_bit: AddressByte::Second,
            },
        }
    }

    fn number(&self, place: Place) -> Option<u32> {
        self.numbering().number(place)
    }

    fn place(&self, number: u32) -> Option<Place> {
        self.numbering().place(number)
    }
}
