//! Floor: program. It promises nothing: it runs the top call over sources and sinks in memory, so that crates of tests stand on it and
//! don't prove that again. It never says what a run should come to.
#![tactic(auto)]

mod checks;
mod running;

pub use checks::{
    BOOT, CHECK, SERVE, is_boot_refused, is_booted, is_booted_last, is_listed, is_listed_last,
    is_not_served, is_refused, is_served, is_stopped_before_script, served,
};
pub use running::{Seen, many, ran, ran_over, sink, sink_of, source};
