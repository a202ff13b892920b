//! Why a line is not read.
ghost use Rattle.std.specs.Prelude.{◌≡◌};

use mm_base::NoMemory;

/// Why a line is not read.
#[derive(Clone, Copy, Debug, PartialEq, Eq)]
pub enum LineEnd {
    /// Its words have the form of no line that begins so.
    Words,
    /// One of its words can't be read in the form that its place has.
    Number,
    /// A growth was refused.
    NoMemory(NoMemory),
}

impl From<NoMemory> for LineEnd {
    ghost use Rattle.mm_text.specs.declared.line_end.LineEnd.TheVariants.{NoMemory as OutOfMemory};

    ghost from_gives = { λ refused end. end ≡ OutOfMemory refused };

    fn from(refused: NoMemory) -> Self {
        LineEnd::NoMemory(refused)
    }
}
