//! What an instruction does one way or another.

/// What BREAK is made for: its codes 0, 1, 3, 4, 5 and 6.
#[derive(Clone, Copy, Debug, PartialEq, Eq)]
pub enum BreakCode {
    /// 0: the program has run away.
    Runaway,
    /// 1: asks for the virtual machine's version.
    Version,
    /// 3: a breakpoint for a debugger.
    Breakpoint,
    /// 4: a system call.
    SystemCall,
    /// 5: makes a thunk.
    Thunk,
    /// 6: tells the compiler's version.
    CompilerVersion,
}

/// When a jump is taken.
#[derive(Clone, Copy, Debug, PartialEq, Eq)]
pub enum Condition {
    Always,
    /// Where C is 0.
    CarryClear,
    /// Where C is 1.
    CarrySet,
}

/// What STORESP stores.
#[derive(Clone, Copy, Debug, PartialEq, Eq)]
pub enum Special {
    /// The flags.
    Flags,
    /// The address of the next instruction.
    NextAddress,
}

/// Which way a value goes between an operand and the stack.
#[derive(Clone, Copy, Debug, PartialEq, Eq)]
pub enum StackOp {
    Push,
    Pop,
}
