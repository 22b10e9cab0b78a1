/// A sector's address is two bytes: the first has the track, the second the sector. One of them, by
/// the model, also carries the write-protect bit as its top bit.
#[derive(Clone, Copy, Debug, PartialEq, Eq)]
pub enum AddressByte {
    First,
    Second,
}
