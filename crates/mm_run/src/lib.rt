//! Floor: program. It promises that a command ends with the status that its sources' bytes and faults give, and that what is
//! written is the report of the world that a script drives, of the volume that bytes are, of its boot, or of
//! a boot and a script that is run from there. It never opens a file or prints.
#![tactic(auto)]

mod boot_run;
mod check_run;
mod command;
mod drive;
mod lanes;
mod made;
mod script_run;
mod serve_run;
mod source_kind;
mod status;
mod top_call;

pub use command::{Command, command_of};
pub use source_kind::SourceKind;
pub use status::{BadKind, Status, Which};
pub use top_call::{RunEnd, run};
