//! What the rules of a policy say of an access.
ghost use Rattle.std.specs.Prelude.{◌≡◌, ◌≤◌, length};
ghost use Rattle.secure_policy.specs.Verdicts.{is_about, is_allowed_by, is_given_by, verdict_by_rules};

use mm_base::{Guid, Kind, Range, Right, Rule, Verdict, Why};

/// The owner of the rules that are for all images.
const EVERY_IMAGE: Guid = Guid([0; 16]);

/// What the first rule about an access says of it. It costs one step a rule, up to that one.
pub fn decide_by_rules(
    rules: &[Rule],
    name: Guid,
    kind: Kind,
    access: &Range,
    right: Right,
) -> Verdict
    requires { length rules.now ≤ 1024 }
    ensures { result ≡ verdict_by_rules rules.now 0 name kind access.now right }
{
    for (number, rule) in rules.iter().enumerate() {
        if concerns(rule, name, kind, access) {
            let why = Why::Rule(number as u32);
            return if allows(rule, access, right) {
                Verdict::Pass(why)
            } else {
                Verdict::Deny(why)
            };
        }
    }
    Verdict::Deny(Why::NoRule)
}

/// Whether a rule is about an access of the image of this name.
fn concerns(rule: &Rule, name: Guid, kind: Kind, access: &Range) -> bool
    ensures { result ≡ is_about name kind access.now rule.now }
{
    rule.kind == kind
        && (rule.owner == EVERY_IMAGE || rule.owner == name)
        && rule.range.overlaps(access)
}

/// Whether a rule allows a whole access.
fn allows(rule: &Rule, access: &Range, right: Right) -> bool
    ensures { result ≡ is_allowed_by access.now right rule.now }
{
    rule.allow && gives(rule.rights, right) && rule.range.covers(access)
}

/// Whether the rights of a rule give one.
fn gives(rights: u8, right: Right) -> bool
    ensures { result ≡ is_given_by rights right }
{
    match right {
        Right::Read | Right::Write => right.is_among(rights),
        Right::Execute => false,
    }
}
