//! Floor: tables. It promises that interfaces stay in order of installation, that each refusal has its cause and changes
//! nothing, and that an interface is found by its handle and GUID, and whether a GUID has any is told, in the same time
//! however many there are. It never reads what an interface points to, and takes memory only where one is installed.
#![tactic(auto)]

mod counts;
mod database;
pub mod laws;
mod lookup;
mod protocol_row;
mod row_map;
#[cfg(test)]
mod tests;

pub use database::{FIRST_HANDLE, FindEnd, InstallEnd, MOST_OF_OWNER, ProtocolDb, UninstallEnd};
pub use protocol_row::Row;
