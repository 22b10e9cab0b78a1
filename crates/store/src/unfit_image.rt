ghost use Rattle.std.specs.Prelude.{◌≡◌};
ghost use Rattle.store.specs.Numbers.{unfit_number};

/// Memory that holds no whole number of records, or too many, handed back as it was lent.
#[derive(Drop)]
pub struct UnfitImage<'a> {
    pub bytes: &'a mut [u8],
}

impl UnfitImage<'_> {
    /// The refusal's number.
    // A method, since `u32::from(&unfit)` would not say what number that is.
    pub fn number(&self) -> u32
        ensures { result ≡ unfit_number }
    {
        53
    }
}
