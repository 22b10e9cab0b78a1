ghost use Rattle.std.specs.Prelude.{◌≡◌, Some};
ghost use Rattle.store.specs.Numbers.{fault_number};
ghost use Rattle.store.specs.Words.{fault_words};

use std::error::Error;
use std::fmt;

/// Why a store refused a call. `Name` is how that store names a sector.
#[derive(Clone, Copy, PartialEq, Eq, Debug)]
pub enum StoreFault<Name> {
    /// The store has no such sector.
    NoSector(Name),
    /// The buffer is not as long as a sector.
    BufferLength,
    /// The sector is dead.
    DeadSector(Name),
}

impl<Name> StoreFault<Name> {
    /// The refusal's number, for those outside who know refusals by it; code passes the fault itself on.
    // A method, since `u32::from(&fault)` would not say what number that is.
    pub fn number(&self) -> u32
        ensures { result ≡ fault_number self.now }
    {
        match self {
            StoreFault::NoSector(_) => 50,
            StoreFault::BufferLength => 51,
            StoreFault::DeadSector(_) => 52,
        }
    }
}

// By hand, since its words are promised: what `thiserror` would write has no contract.
impl fmt::Display for StoreFault<u32> {
    ghost output = { λ f. Some (fault_words f) };

    fn fmt<W: fmt::Write>(&self, f: &mut fmt::Formatter<W>) -> fmt::Result {
        let number = self.number();
        match self {
            StoreFault::NoSector(n) => write!(f, "{number}: there is no sector {n}"),
            StoreFault::BufferLength => write!(
                f,
                "{number}: the buffer is not as long as a sector"
            ),
            StoreFault::DeadSector(n) => write!(f, "{number}: sector {n} is dead"),
        }
    }
}

impl Error for StoreFault<u32> {}
