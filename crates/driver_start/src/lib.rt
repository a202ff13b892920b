//! Floor: core. It promises of the start of a driver that it leaves what the entry did where the entry succeeds, and else all as it was but
//! for the cells; and that no page is taken twice. It never decides which driver starts, and never looks into a volume.
#![tactic(auto)]

mod driver;
mod host;
mod invoking;
pub mod laws;
mod loading;
mod record;
mod starting;
mod withdrawing;

pub use driver::Driver;
pub use host::Host;
pub use record::StartRecord;
pub use starting::{StartEnd, start};
