ghost use Rattle.std.specs.Prelude.{◌≡◌};
ghost use Rattle.drive.specs.Examples.{edges_by_rule};

use crate::drive_model::DriveModel;
use crate::place::Place;
use crate::rad_model::RadModel;

/// What the models answer at the edges of their tracks and switches.
#[derive(Clone, Copy, Debug, PartialEq, Eq)]
pub struct EdgeExamples {
    pub last_of_3214: Option<u32>,
    pub last_of_7212: Option<u32>,
    pub second_sector_of_3214: Option<u32>,
    pub second_track_of_3214: Option<u32>,
    pub place_11_of_3214: Option<Place>,
    pub switch_of_63: Option<u32>,
    pub switch_of_64: Option<u32>,
    pub sectors_of_7212: u32,
    pub sectors_of_3214: u32,
    pub sectors_of_bench: u32,
}

/// Numbers of first and last places, the switches of the 3214's tracks 63 and 64, between which its
/// first switch ends, and the sectors of a unit of each model. The contract has the values worked by
/// hand, and that the rules give them.
pub fn edge_examples() -> EdgeExamples
    ensures rule { result ≡ edges_by_rule }
    ensures last_of_3214 { result.last_of_3214 ≡ Some 2815 }
    ensures last_of_7212 { result.last_of_7212 ≡ Some 5247 }
    ensures second_sector_of_3214 { result.second_sector_of_3214 ≡ Some 1 }
    ensures second_track_of_3214 { result.second_track_of_3214 ≡ Some 11 }
    ensures place_11_of_3214 { result.place_11_of_3214 ≡ Some (record { track = 1; sector = 0 }) }
    ensures switch_of_63 { result.switch_of_63 ≡ Some 0 }
    ensures switch_of_64 { result.switch_of_64 ≡ Some 1 }
    ensures sectors_of_7212 { result.sectors_of_7212 ≡ 5248 }
    ensures sectors_of_3214 { result.sectors_of_3214 ≡ 2816 }
    ensures sectors_of_bench { result.sectors_of_bench ≡ 20 }
{
    EdgeExamples {
        last_of_3214: RadModel::Xerox3214.number(Place {
            track: 255,
            sector: 10,
        }),
        last_of_7212: RadModel::Sds7212.number(Place {
            track: 63,
            sector: 81,
        }),
        second_sector_of_3214: RadModel::Xerox3214.number(Place {
            track: 0,
            sector: 1,
        }),
        second_track_of_3214: RadModel::Xerox3214.number(Place {
            track: 1,
            sector: 0,
        }),
        place_11_of_3214: RadModel::Xerox3214.place(11),
        switch_of_63: RadModel::Xerox3214.switch_of(63),
        switch_of_64: RadModel::Xerox3214.switch_of(64),
        sectors_of_7212: RadModel::Sds7212.unit_sectors(),
        sectors_of_3214: RadModel::Xerox3214.unit_sectors(),
        sectors_of_bench: RadModel::Bench.unit_sectors(),
    }
}
