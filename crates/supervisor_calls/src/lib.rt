//! Floor: supervisor. It promises that an image touches memory and cells only as the verdict on each access says, that each denial and each
//! cell write is recorded, and that an access which passes does just what its definition says. It never takes memory but where tables are
//! made or grow, and never runs byte code.
#![tactic(auto)]

mod access;
mod arguments;
mod bus;
mod bytes;
mod cell_services;
mod domain;
mod handler_services;
mod holdings;
mod interface_services;
mod judging;
pub mod laws;
mod listings;
mod loading;
mod locked_domain;
mod memory_access;
mod page_services;
mod pool_services;
mod services;
mod tables;
mod telling;

pub use domain::{Domain, enter};
pub use locked_domain::{LockedDomain, enter_locked};
pub use tables::Tables;
