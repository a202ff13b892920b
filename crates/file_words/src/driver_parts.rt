//! What a driver file is made of.
use mm_base::{Image, Section};

/// The parts of a driver file: the section of its first image, what the headers of this image say, and the section of its first
/// dependency expression, if it has one.
#[derive(Clone, Copy, Debug, PartialEq, Eq)]
pub struct DriverParts {
    pub section: Section,
    pub image: Image,
    pub depex: Option<Section>,
}
