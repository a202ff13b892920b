//! Floor: tables. It promises that what of memory is an image's own follows from where the image lies and from its sections, and
//! that a question about it is answered in the logarithm of its sections. It never reads memory, and takes memory only where a
//! table is made.
#![tactic(auto)]

pub mod laws;
mod placed_image;
mod sections;
mod table;
#[cfg(test)]
mod tests;

pub use placed_image::PlacedImage;
pub use table::{ImageTable, MOST_IMAGES};
