//! Drive models of a RAD disc: how many tracks, sectors, write-protect switches, ports and units
//! a model has, and how its places are numbered.
//!
//! `DriveModel` is the trait that code above is written over, and `RadModel` has the built-in models.
//! How a model numbers its places is open: code above may use only that the numbering is a bijection
//! between the places of a unit and the numbers below its count of sectors.
#![tactic(auto)]

pub mod address_byte;
pub mod drive_model;
pub mod drive_shape;
pub mod examples;
pub mod numbering;
pub mod place;
pub mod rad_model;
#[cfg(test)]
mod tests;
mod track_major;

pub use address_byte::AddressByte;
pub use drive_model::DriveModel;
pub use drive_shape::Shape;
pub use examples::{EdgeExamples, edge_examples};
pub use numbering::round_trip;
pub use place::Place;
pub use rad_model::RadModel;
