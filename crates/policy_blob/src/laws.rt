//! Laws of policies. These functions do nothing: their contracts are the laws.
ghost use Rattle.policy_blob.specs.Laws.{PolicyOrFault, NeverBoth, OnePolicy, OneFault, HasBytes, OneSpelling};

/// Bytes are one policy or have one fault, and never both.
pub fn policy_or_fault()
    ensures either { PolicyOrFault }
    ensures never_both { NeverBoth }
    ensures one_policy { OnePolicy }
    ensures one_fault { OneFault }
{}

/// A lawful policy has bytes, and no others.
pub fn one_spelling()
    ensures has { HasBytes }
    ensures one { OneSpelling }
{}
