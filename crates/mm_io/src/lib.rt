//! Floor: ground. It promises that all is read of a source and all is written to a sink, in order, and that an error is answered
//! only where a fault was counted. It never judges what the bytes say.
#![tactic(auto)]

mod failed;
mod faults;
mod file_source;
mod late_file;
mod memory_sink;
mod memory_source;
mod out_sink;
mod planned;
mod reading;
mod sink;
mod source;
#[cfg(test)]
mod tests;
mod writing;

pub use failed::Failed;
pub use file_source::FileSource;
pub use late_file::LateFile;
pub use memory_sink::MemorySink;
pub use memory_source::MemorySource;
pub use out_sink::OutSink;
pub use reading::{ReadEnd, read_all};
pub use sink::Sink;
pub use source::Source;
pub use writing::write_all;
