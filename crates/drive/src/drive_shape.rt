use crate::address_byte::AddressByte;

/// The counts of a drive model, a row of the table of models.
#[derive(Clone, Copy, Debug, PartialEq, Eq)]
pub struct Shape {
    pub tracks: u32,
    pub sectors_per_track: u32,
    pub tracks_per_switch: u32,
    pub ports: u32,
    pub most_units: u32,
    pub protect_bit: AddressByte,
}
