//! Laws of the policy of a volume. These functions do nothing: their contracts are the laws.
ghost use Rattle.volume_policy.specs.Laws.{PolicyOrFault, NeverBoth, OnePolicy, OneFault};

/// A volume has one policy or none, or its policy file has one fault, and never both.
pub fn policy_or_fault()
    ensures either { PolicyOrFault }
    ensures never_both { NeverBoth }
    ensures one_policy { OnePolicy }
    ensures one_fault { OneFault }
{}
