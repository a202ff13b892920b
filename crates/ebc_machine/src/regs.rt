//! Registers.
ghost use Rattle.std.specs.Prelude.{◌≡◌, ◌<◌};
ghost use Rattle.ebc_machine.specs.Operands.{register_in, with_register};

/// How many general registers there are.
pub const REGISTERS: usize = 8;

/// The stack pointer.
pub(crate) const STACK: u8 = 0;

/// The register of results.
pub(crate) const RESULT: u8 = 7;

/// The registers of the virtual machine (UEFI 2.10, section 22.3): R0 to R7, of which R0 is the stack pointer and R7 the result; the
/// flag C; and the address of the next instruction.
#[derive(Clone, Copy, Debug, PartialEq, Eq)]
pub struct Regs {
    pub r: [u64; REGISTERS],
    pub carry: bool,
    pub ip: u64,
}

impl Regs {
    /// What stands in a register.
    #[inline(always)]
    pub(crate) fn get(&self, register: u8) -> u64
        requires { register < 8 }
        ensures { result ≡ register_in register self.now }
    {
        self.r[register as usize]
    }

    /// Puts a value into a register.
    #[inline(always)]
    pub(crate) fn put(&mut self, register: u8, value: u64)
        requires { register < 8 }
        ensures { self.new ≡ with_register register value self.old }
    {
        self.r[register as usize] = value;
    }
}
