//! Floor: ground. It promises plain types that mean what their documents say, rooms that are filled without taking memory, and
//! what machines, buses, pages and homes are. It never reads a file, prints, or starts a thread.
#![tactic(auto)]

mod access;
mod bus;
mod cells;
mod checking;
mod end;
mod entries;
mod entry;
mod expression;
mod frames;
mod guid;
mod handler;
mod homes;
mod image;
mod invocation;
pub mod laws;
mod list;
mod machine;
mod no_memory;
mod numbers;
mod operation;
mod platform;
mod policy;
mod prepared;
mod range;
mod receipt;
mod region;
mod room;
mod service;
pub mod status;
#[cfg(test)]
mod tests;
mod text;
mod volume;

pub use access::{Denial, Kind, Right, Verdict, Why};
pub use bus::{Bus, MOST_FETCHED, Served, Target};
pub use cells::{CellWrite, Opening, Saved, is_cell};
pub use checking::check;
pub use end::End;
pub use entries::Entries;
pub use entry::{Entry, HEADER_BYTES, Outcome, Request, Shape};
pub use expression::DepexFault;
pub use frames::Frames;
pub use guid::{GUID_BYTES, Guid, guid_at};
pub use handler::{Handler, HandlerBody};
pub use homes::Homes;
pub use image::{Image, Part, PeFault, PeKind};
pub use invocation::{Ended, FaultKind, Invocation, MOST_DENIALS, MOST_WRITES, Records};
pub use list::{Bytes, List};
pub use machine::Machine;
pub use no_memory::NoMemory;
pub use numbers::{WORD_BYTES, le_at, number_at, stands_at, word_at};
pub use operation::{AluOp, CmpOp};
pub use platform::{
    DEVICE_WINDOW, LANE_WINDOW, MMRAM, MSRS, PAGE_BYTES, PORTS, SAVED_REGISTERS, TRAPPED_ACCESS,
    UPPER_MSRS,
};
pub use policy::{Policy, PolicyFault, PolicyKind, Rule};
pub use prepared::{MOST_BYTES, OutcomeRooms, Prepared};
pub use range::Range;
pub use receipt::Receipt;
pub use region::{
    COMMUNICATE_PAGES, EXTRA_PAGES, POOL_PAGES, RESERVE_PAGES, Region, SERVICE_PAGES, STACK_PAGES,
    pages_for,
};
pub use room::Room;
pub use service::{SERVICES, Service, service_entry, service_slot};
pub use text::TextKind;
pub use volume::{File, Section, SectionFault, Volume, VolumeKind};
