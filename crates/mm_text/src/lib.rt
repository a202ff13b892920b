//! Floor: texts. It promises that a text is read as the one script that it spells or refused at its first fault, and that a report
//! has just the bytes that its definition says. It never runs a script, and never reads or writes a stream.
#![tactic(auto)]

mod boot_text;
mod entry_text;
mod fields;
mod keyword;
pub mod laws;
mod line;
mod line_end;
mod line_reader;
mod page;
mod parts;
mod record_text;
mod registers;
mod report_text;
mod script_builder;
mod script_reader;
mod text_end;
mod volume_text;

pub use line::{CellKind, Keyword, Line, Named};
pub use parts::{Locked, Parts};
pub use report_text::report;
pub use script_reader::read_script;
pub use text_end::{TextEnd, TextFault};
