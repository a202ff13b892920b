//! Laws of the script text.
ghost use Rattle.mm_text.specs.TextLaws.{EitherOr, NeverBoth, OneScript, OneFault};

/// A text spells one script, or it has one fault, and not both.
pub fn script_or_fault()
    ensures either { EitherOr }
    ensures never_both { NeverBoth }
    ensures one_script { OneScript }
    ensures one_fault { OneFault }
{}
