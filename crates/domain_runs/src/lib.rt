//! Floor: supervisor. It promises of an invocation from its frame on that it ends, and leaves its bus, as its definition says; and that no call
//! of a domain records more than 8 denials and 16 cell writes, or changes what stays from lock on. It never decides what is invoked, and
//! never looks into a domain.
#![tactic(auto)]

pub mod laws;
mod running;

pub use running::run;
