//! Floor: core. It promises which groups of a core's images are closed, and that such a group gets of any entries what it would get if everything that
//! isn't granted to it were erased. It never looks at how an access is decided, and changes a core by its step alone.
#![tactic(auto)]

mod closed_group;
mod handlers;
pub mod laws;
mod lone_images;
mod touching;
mod two_cores;

pub use closed_group::is_closed;
pub use lone_images::each_alone_closed;
