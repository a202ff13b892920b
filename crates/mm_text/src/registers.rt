//! The saved registers that a `ring` line names.
ghost use Rattle.std.specs.Prelude.{◌≡◌};
ghost use Rattle.mm_text.specs.ScriptReaderInside.{are_registers as are_named_registers};
ghost use Rattle.mm_text.specs.ScriptText.{saved_of, value_of};

use crate::line::Named;
use mm_base::Saved;

/// How many saved registers there are.
const REGISTERS: usize = 19;

/// Whether each register is there, and none is named twice; the cost is linear in their count.
pub fn are_registers(registers: &[Named]) -> bool
    ensures { result ≡ are_named_registers registers.now }
{
    let mut named = [false; REGISTERS];
    for item in registers {
        if item.register >= REGISTERS as u64 || named[item.register as usize] {
            return false;
        }
        named[item.register as usize] = true;
    }
    true
}

/// The saved registers that are named so, the others 0; the cost is linear in their count.
pub fn saved_registers(registers: &[Named]) -> Saved
    ensures { result ≡ saved_of registers.now }
{
    let mut values = [0; REGISTERS];
    for register in 0..REGISTERS {
        values[register] = value_of_register(registers, register as u64);
    }
    Saved(values)
}

/// The value of the first of these names of a register, or 0.
fn value_of_register(registers: &[Named], register: u64) -> u64
    ensures { result ≡ value_of registers.now register }
{
    for named in registers {
        if named.register == register {
            return named.value;
        }
    }
    0
}
