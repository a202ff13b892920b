//! A whole invocation.
ghost use Rattle.std.specs.Prelude.{◌≡◌, ◌+◌, ◌*◌, ◌^◌, ◌≤◌, ◌⊎◌, length};
ghost use Rattle.mm_base.specs.Bus.{Answers};
ghost use Rattle.ebc_machine.specs.Invocation.{invoked, written, frame, opening, entered, IsRefusal, Gives};

use crate::jumps::is_odd;
use crate::regs::{REGISTERS, RESULT, Regs, STACK};
use crate::stepping::turn;
use crate::turn::Progress;
use mm_base::{Bus, Denial, Ended, FaultKind, Served};

/// How many bytes the frame of an invocation has.
const FRAME: u64 = 48;

/// How many words the frame has: two of 0, and four arguments.
const WORDS: usize = 6;

/// Makes an invocation from these registers on (this project's own rule): instructions of EFI Byte Code over a bus, each for one unit of fuel,
/// and services that they call, each for one unit more, taken before the thing is done. It ends by a return, by a denied access
/// with its reason and address, by a fault with its kind and the instruction's address, also at an odd ip, or with `Fuel` and the address of
/// what isn't done; for a service that is its call. `NoMemory` is answered only where a service of the bus
/// answered it, and over a bus whose services aren't refused memory only where the bus's meaning says so. It takes no memory
/// of its own, and costs a bounded number of steps a unit.
pub fn invoke<B: Bus>(regs: &mut Regs, bus: &mut B, fuel: u32) -> Ended
    ensures { IsRefusal B.may_refuse result ⊎ Gives (invoked B.meaning fuel regs.old bus.old) result regs.new bus.new }
{
    if is_odd(regs.ip) {
        return Ended::Fault(FaultKind::Alignment, regs.ip);
    }
    let mut left = fuel;
    while left > 0 {
        left -= 1;
        match turn(regs, bus) {
            Progress::Next => {}
            Progress::Service { number, next } => {
                if left == 0 {
                    return Ended::Fuel(regs.ip);
                }
                left -= 1;
                match bus.service(number, regs.get(STACK)) {
                    Served::Status(status) => {
                        regs.put(RESULT, status);
                        regs.ip = next;
                    }
                    Served::Stop(denial) => return Ended::Denied(denial.why, denial.at),
                    Served::NoMemory(refused) => return Ended::NoMemory(refused),
                }
            }
            Progress::Returned(status) => return Ended::Returned(status),
            Progress::Denied(denial) => return Ended::Denied(denial.why, denial.at),
            Progress::Fault(kind) => return Ended::Fault(kind, regs.ip),
        }
    }
    Ended::Fuel(regs.ip)
}

/// The registers with which an invocation begins.
fn opening_registers(top: u64, address: u64) -> Regs
    ensures { result ≡ opening (top + 48) address }
{
    let mut r = [0; REGISTERS];
    r[STACK as usize] = top;
    Regs {
        r,
        carry: false,
        ip: address,
    }
}

/// The words of a frame.
fn frame_of(arguments: &[u64; 4]) -> [u64; WORDS]
    ensures { result ≡ frame arguments.now }
{
    [0, 0, arguments[0], arguments[1], arguments[2], arguments[3]]
}

/// Writes words one after another.
fn write_words<B: Bus>(bus: &mut B, at: u64, words: &[u64]) -> Result<(), Denial>
    requires { at + 8 * length words.now ≤ 2 ^ 64 }
    ensures { Answers (written B.meaning at words.now bus.old) result bus.new }
{
    for i in 0..words.len() {
        if let Err(denial) = bus.write(at + 8 * i as u64, 8, words[i]) {
            return Err(denial);
        }
    }
    Ok(())
}

/// Writes the frame of an invocation below the end of a stack, by six writes of 8 bytes in rising order, and answers the registers with which it
/// begins at an address: R0 the frame's begin, where two words of 0 and the four arguments stand, and all else 0. The answer is a denial
/// exactly where the bus denied a write; the writes before it stay.
pub fn enter<B: Bus>(
    bus: &mut B,
    stack: u64,
    address: u64,
    arguments: [u64; 4],
) -> Result<Regs, Denial>
    requires { 48 ≤ stack }
    ensures { Answers (entered B.meaning stack address arguments bus.old) result bus.new }
{
    let top = stack - FRAME;
    let words = frame_of(&arguments);
    match write_words(bus, top, &words) {
        Ok(()) => Ok(opening_registers(top, address)),
        Err(denial) => Err(denial),
    }
}
