//! Laws of verdicts. These functions do nothing: their contracts are the laws.
ghost use Rattle.std.specs.Prelude.{◌≡◌};
ghost use Rattle.secure_policy.specs.Laws.{PassesAtEachUnit, OthersMayBeExchanged, FirstRuleDecides, NoRuleDecides};
ghost use Rattle.secure_policy.specs.Laws.{ExecutesHomeAlone, NeverQuota};

/// What passes as a whole passes unit by unit, for the same image and right.
pub fn passes_unit_by_unit()
    ensures { PassesAtEachUnit }
{}

/// The first rule about an access decides it, and no other rule matters.
pub fn first_rule_decides()
    ensures decides { FirstRuleDecides }
    ensures no_rule { NoRuleDecides }
    ensures exchange { OthersMayBeExchanged }
{}

/// What no verdict is: no rule gives the right to execute, and the number of writes is limited elsewhere.
pub fn limits_of_verdicts()
    ensures execute { ExecutesHomeAlone }
    ensures quota { NeverQuota }
{}
