ghost use Rattle.std.specs.Prelude.{◌≡◌};
ghost use Rattle.drive.specs.Geometry.{Geometry};
ghost use Rattle.drive.specs.Places.{number_at, place_at, unit_sectors};
ghost use Rattle.drive.specs.Sound.{IsSound};
ghost use Rattle.drive.specs.Switches.{switch_at};

use crate::drive_shape::Shape;
use crate::place::Place;

/// A model of a drive. Whoever brings one proves that its counts keep their bounds, and that its
/// numbers and places undo each other.
pub trait DriveModel {
    ghost geometry: { Self → Geometry };

    /// The counts of the model.
    fn shape(&self) -> Shape
        ensures { result ≡ (geometry self.now).shape };

    /// The number of a place; a place outside the tracks or sectors has none.
    fn number(&self, place: Place) -> Option<u32>
        ensures { result ≡ number_at (geometry self.now) place };

    /// The place of a number; a number past the unit's last has none.
    fn place(&self, number: u32) -> Option<Place>
        ensures { result ≡ place_at (geometry self.now) number };

    /// How many sectors a unit has.
    fn unit_sectors(&self) -> u32
        ensures { result ≡ unit_sectors (geometry self.now) }
    {
        let shape = self.shape();
        shape.tracks * shape.sectors_per_track
    }

    /// The write-protect switch of a track; an absent track has none.
    fn switch_of(&self, track: u32) -> Option<u32>
        ensures { result ≡ switch_at (geometry self.now) track }
    {
        let shape = self.shape();
        (track < shape.tracks).then(|| track / shape.tracks_per_switch)
    }

    ghost sound: { (m : Self) → IsSound (geometry m) };
}
