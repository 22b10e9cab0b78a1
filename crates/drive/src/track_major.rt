ghost use Rattle.std.specs.Prelude.{◌≡◌};
ghost use Rattle.drive.specs.Places.{number_at, place_at};
ghost use Rattle.drive.specs.Sound.{IsBounded};
ghost use Rattle.drive.specs.TrackMajor.{track_major};

use crate::drive_shape::Shape;
use crate::place::Place;

// The numbering of the built-in models: along each track, one track after another. It serves any
// counts within the bounds.
#[derive(Clone, Copy)]
pub(crate) struct TrackMajor {
    pub(crate) shape: Shape,
    ghost bounded: { IsBounded shape },
}

impl TrackMajor {
    pub(crate) fn number(self, place: Place) -> Option<u32>
        ensures { result ≡ number_at (track_major self.shape) place }
    {
        let shape = self.shape;
        let Place { track, sector } = place;
        let in_unit = track < shape.tracks && sector < shape.sectors_per_track;
        in_unit.then(|| track * shape.sectors_per_track + sector)
    }

    pub(crate) fn place(self, number: u32) -> Option<Place>
        ensures { result ≡ place_at (track_major self.shape) number }
    {
        let shape = self.shape;
        (number < shape.tracks * shape.sectors_per_track).then(|| Place {
            track: number / shape.sectors_per_track,
            sector: number % shape.sectors_per_track,
        })
    }
}
