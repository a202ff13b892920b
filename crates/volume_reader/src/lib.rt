//! Floor: readers. It promises of any bytes the files of the firmware volume that they begin with, the sections of a file and what
//! these tell together, or the first fault. It never reads past the volume's end, and takes no memory but for the list of files.
#![tactic(auto)]

mod area;
mod bytes;
mod contents_of_file;
#[cfg(test)]
mod contents_tests;
mod file_state;
mod header;
pub mod laws;
mod reading;
mod section_contents;
mod section_of_file;
mod section_search;
#[cfg(test)]
mod section_tests;
mod section_walk;
mod volume_fault;
#[cfg(test)]
mod volume_tests;

pub use contents_of_file::contents;
pub use mm_base::{File, Section, SectionFault, Volume, VolumeKind};
pub use reading::read_volume;
pub use section_contents::Contents;
pub use section_of_file::sections;
pub use section_search::{any_of, first_of};
pub use section_walk::Sections;
pub use volume_fault::{VolumeEnd, VolumeFault};
