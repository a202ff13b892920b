//! What is wrong with a text.

/// The kind of a refused line of a text, in the order in which the kinds are judged.
#[derive(Clone, Copy, Debug, PartialEq, Eq)]
pub enum TextKind {
    /// Its first word begins no line of this text.
    Unknown,
    /// It stands where such a line may not stand.
    Order,
    /// It has another count of words than its line has, or a word that its line doesn't know.
    Words,
    /// One of its words can't be read in the form that its place has.
    Number,
    /// One of its numbers is out of its range, or names what isn't there.
    Range,
    /// The text has no line at all.
    Missing,
}
