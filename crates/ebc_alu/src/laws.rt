//! Laws of the arithmetic, for operands and indexes of any value.
ghost use Rattle.ebc_alu.specs.Laws.{ResultsFit, SignedDivisionsFit, UnsignedDivisionsFit, RemaindersAreSmall, LeastByMinusOne, NegativesCancel, CountsPastTheWidth, ComparisonsAreTotal, SignsCancel};

/// A result is below 2^64, or below 2^32 where the operation is not wide.
pub fn results_fit()
    ensures { ResultsFit }
{}

/// Quotient and remainder give the dividend back, and the remainder is smaller than the divisor.
pub fn divisions_fit()
    ensures signed { SignedDivisionsFit }
    ensures unsigned { UnsignedDivisionsFit }
    ensures small { RemaindersAreSmall }
{}

/// The least number divided by -1 gives the least number, and leaves 0.
pub fn least_by_minus_one()
    ensures { LeastByMinusOne }
{}

/// NEG gives what is 0 together with operand 2.
pub fn negatives_cancel()
    ensures { NegativesCancel }
{}

/// What a shift's count of the width or more leaves.
pub fn counts_past_the_width()
    ensures { CountsPastTheWidth }
{}

/// Of two operands one is at most the other, and both only where they are equal.
pub fn comparisons_are_total()
    ensures { ComparisonsAreTotal }
{}

/// The sign bit of an index negates its offset.
pub fn signs_cancel()
    ensures { SignsCancel }
{}
