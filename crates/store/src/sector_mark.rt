ghost use Rattle.std.specs.Prelude.{Some};
ghost use Rattle.store.specs.Words.{mark_word};

use std::fmt;

/// What a read says of the sector it delivered.
#[derive(Clone, Copy, PartialEq, Eq, Debug)]
pub enum Mark {
    /// No check of the sector failed.
    Good,
    /// The sector's check failed. Its bytes are delivered all the same.
    Bad,
}

impl fmt::Display for Mark {
    ghost output = { λ m. Some (mark_word m) };

    fn fmt<W: fmt::Write>(&self, f: &mut fmt::Formatter<W>) -> fmt::Result {
        match self {
            Mark::Good => write!(f, "good"),
            Mark::Bad => write!(f, "bad"),
        }
    }
}
