//! Floor: byte code. It promises that an instruction of EFI Byte Code, and an invocation under fuel, do over any bus just what their definitions say,
//! as functions of the registers and the bus. It never touches memory but through the bus, and never decides what may be accessed.
#![tactic(auto)]

mod arithmetic;
mod flat_bus;
mod invocation;
mod jumps;
pub mod laws;
mod moves;
mod place;
mod regs;
mod special;
mod stack;
mod stepping;
mod turn;

pub use flat_bus::FlatBus;
pub use invocation::{enter, invoke};
pub use regs::{REGISTERS, Regs};
pub use stepping::step;
pub use turn::Turn;
