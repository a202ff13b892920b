//! Why a text was not read.
use mm_base::{End, TextKind};

/// The first refused line of a text, counted from 1, and the first kind that fits it.
#[derive(Clone, Copy, Debug, PartialEq, Eq)]
pub struct TextFault {
    pub line: u32,
    pub kind: TextKind,
}

/// Why a text was not read.
pub type TextEnd = End<TextFault>;
