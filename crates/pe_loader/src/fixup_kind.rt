//! The kinds of fixups.
ghost use Rattle.std.specs.Prelude.{◌≡◌};
ghost use Rattle.pe_loader.specs.Fixups.{kind_of};

/// A base relocation type of PE/COFF, as UEFI images use them.
#[derive(Clone, Copy, Debug, PartialEq, Eq)]
pub(crate) enum FixupKind {
    /// IMAGE_REL_BASED_ABSOLUTE: does nothing, and fills a block up.
    Absolute,
    /// IMAGE_REL_BASED_HIGH: the upper 16 bits of the difference are added to 16 bits.
    High,
    /// IMAGE_REL_BASED_LOW: the lower 16 bits of the difference are added to 16 bits.
    Low,
    /// IMAGE_REL_BASED_HIGHLOW: the difference is added to 32 bits.
    HighLow,
    /// IMAGE_REL_BASED_DIR64: the difference is added to 64 bits.
    Dir64,
    /// Any other type, which is refused.
    Unknown,
}

impl FixupKind {
    /// The kind that these 4 bits tell.
    pub(crate) fn of(bits: u8) -> FixupKind
        ensures { result ≡ kind_of bits }
    {
        match bits {
            0 => FixupKind::Absolute,
            1 => FixupKind::High,
            2 => FixupKind::Low,
            3 => FixupKind::HighLow,
            10 => FixupKind::Dir64,
            _ => FixupKind::Unknown,
        }
    }
}
