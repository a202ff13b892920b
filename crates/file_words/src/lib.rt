//! Floor: core. It promises that each file of a volume gets the one word for what a boot takes it for, and of a driver file
//! the parts that it is made of, or the first cause to refuse it. It never starts a driver, and takes no memory but for the
//! list of words and the names of drivers.
#![tactic(auto)]

mod driver_file;
mod driver_parts;
mod driver_word;
mod earlier;
mod file_word;
pub mod laws;
mod policy_file;
mod volume_catalog;

pub use driver_file::{data, parts_of};
pub use driver_parts::DriverParts;
pub use file_word::{Cause, FileWord};
pub use policy_file::is_policy;
pub use volume_catalog::catalog;
