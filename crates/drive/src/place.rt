ghost use Rattle.std.specs.Prelude.{Some};

use std::fmt;

/// Where a sector lies in a unit. Anybody may build any place, also one that no model has.
/// Places are in the order of their tracks, then of their sectors.
#[derive(Clone, Copy, Debug, Default, PartialEq, Eq, PartialOrd, Ord, Hash)]
pub struct Place {
    pub track: u32,
    pub sector: u32,
}

impl fmt::Display for Place {
    ghost use Rattle.drive.specs.Words.{place_words};

    ghost output = { λ p. Some (place_words p) };

    fn fmt<W: fmt::Write>(&self, f: &mut fmt::Formatter<W>) -> fmt::Result {
        let Place { track, sector } = *self;
        write!(f, "({track}, {sector})")
    }
}
