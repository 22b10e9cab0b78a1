//! Sector stores: what a store means, and the two images that keep that meaning.
//!
//! `SectorStore` is the trait that code above is written over. `PlainImage` and `CheckedImage` are
//! stores in memory that the caller lends.
#![tactic(auto)]

mod checked_record;
pub mod image;
mod plain_record;
mod record_format;
pub mod sector_mark;
pub mod sector_store;
pub mod store_fault;
#[cfg(test)]
mod tests;
pub mod unfit_image;
pub mod verified_write;

pub use checked_record::{CHECKED_RECORD_BYTES, largest_sum, sector_sum};
pub use image::{CheckedImage, PlainImage};
pub use sector_mark::Mark;
pub use sector_store::SectorStore;
pub use store_fault::StoreFault;
pub use unfit_image::UnfitImage;
pub use verified_write::write_verified;

/// The bytes of a sector.
pub const SECTOR_BYTES: usize = 1024;
