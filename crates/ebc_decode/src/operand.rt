//! Operands of instructions: registers, what is added to them, and immediate values.
ghost use Rattle.std.specs.Prelude.{◌≡◌};
ghost use Rattle.ebc_decode.specs.Spelling.{bytes_in, bytes_moved};

/// How many bytes a move moves: b, w, d and q in the names of instructions.
#[derive(Clone, Copy, Debug, PartialEq, Eq)]
pub enum Width {
    Byte,
    Word,
    Double,
    Quad,
}

impl Width {
    /// How many bytes it is: 1, 2, 4 or 8.
    #[inline(always)]
    pub fn bytes(self) -> u8
        ensures { result ≡ bytes_moved self }
    {
        match self {
            Width::Byte => 1,
            Width::Word => 2,
            Width::Double => 4,
            Width::Quad => 8,
        }
    }
}

/// How many bits an index or an immediate has that follows the first two bytes.
#[derive(Clone, Copy, Debug, PartialEq, Eq)]
pub enum FieldWidth {
    Bits16,
    Bits32,
    Bits64,
}

impl FieldWidth {
    /// How many bytes it is: 2, 4 or 8.
    #[inline(always)]
    pub fn bytes(self) -> u8
        ensures { result ≡ bytes_in self }
    {
        match self {
            FieldWidth::Bits16 => 2,
            FieldWidth::Bits32 => 4,
            FieldWidth::Bits64 => 8,
        }
    }
}

/// An index or an immediate with its width.
#[derive(Clone, Copy, Debug, PartialEq, Eq)]
pub struct Field {
    pub width: FieldWidth,
    /// The number as it stands in the bytes, the lowest byte first: no sign is extended, and no index is worked out.
    pub raw: u64,
}

/// A register, or what lies at the address that it holds.
#[derive(Clone, Copy, Debug, PartialEq, Eq)]
pub struct Place {
    /// The register's number, 0 to 7.
    pub register: u8,
    /// Whether it is what lies at the register's address.
    pub indirect: bool,
}

/// A place with what is added to its register, if anything.
#[derive(Clone, Copy, Debug, PartialEq, Eq)]
pub struct Operand {
    pub place: Place,
    /// The index or immediate as it stands in the bytes. Its width is the instruction's.
    pub field: Option<u64>,
}

/// Where a jump or a call goes.
#[derive(Clone, Copy, Debug, PartialEq, Eq)]
pub enum Target {
    /// An immediate of 64 bits.
    Immediate(u64),
    /// A register with an immediate of 32 bits, or what lies at a register with an index of 32 bits.
    Operand(Operand),
}
