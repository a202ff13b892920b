//! An invocation from its frame on.
ghost use Rattle.std.specs.Prelude.{◌⊎◌, ◌≤◌};
ghost use Rattle.ebc_machine.specs.Invocation.{entered, IsRefusal};
ghost use Rattle.mm_base.specs.Bus.{Answers};
ghost use Rattle.domain_runs.specs.Runs.{ending};

use ebc_machine::{enter as write_frame, invoke};
use mm_base::{Bus, Ended};

/// Makes an invocation over a bus: its frame of 48 bytes, with four arguments, is written below the end of a stack; then its instructions are
/// executed from an address on, under fuel. It ends as instructions end, and where the frame was denied, by that denial. It ends with
/// `NoMemory` only where a service of the bus was refused memory. It takes no memory of its own, and costs 6 writes and a bounded number
/// of steps a unit of fuel.
pub fn run<B: Bus>(bus: &mut B, stack: u64, address: u64, arguments: [u64; 4], fuel: u32) -> Ended
    requires { 48 ≤ stack }
    ensures { IsRefusal B.may_refuse result
        ⊎ Answers (ending B.meaning fuel (entered B.meaning stack address arguments bus.old)) result bus.new }
{
    match write_frame(bus, stack, address, arguments) {
        Ok(mut regs) => invoke(&mut regs, bus, fuel),
        Err(denial) => Ended::Denied(denial.why, denial.at),
    }
}
