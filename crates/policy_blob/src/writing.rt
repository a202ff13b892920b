//! How a policy is written.
ghost use Rattle.std.specs.Prelude.{◌≡◌, ◌+◌, ◌*◌, ◌≤◌, ◌++◌, length, IfOk};
ghost use Rattle.mm_base.specs.Policies.{IsLawfulPolicy, IsRule};
ghost use Rattle.policy_blob.specs.Spelling.{header_bytes, rule_bytes, spelled};

use crate::field::{number_of_action, number_of_kind};
use crate::layout::{HEADER_BYTES, RULE_BYTES, SIGNATURE, VERSION};
use mm_base::{Bytes, NoMemory, Policy, Room, Rule};
use std::alloc::Global;

/// Puts the header of a policy at the end.
fn put_header(out: &mut Room<u8>, policy: &Policy)
    requires lawful { IsLawfulPolicy policy.now }
    requires room { length out.old.items + 16 ≤ out.old.room }
    ensures { out.new ≡ record { items = out.old.items ++ header_bytes policy.now; room = out.old.room } }
{
    let reserved: u16 = 0;
    let count = policy.rules.len() as u32;
    out.extend(&SIGNATURE);
    out.extend(&VERSION.to_le_bytes());
    out.extend(&reserved.to_le_bytes());
    out.extend(&count.to_le_bytes());
    out.extend(&policy.fuel.to_le_bytes());
}

/// Puts a rule at the end.
fn put_rule(out: &mut Room<u8>, rule: &Rule)
    requires lawful { IsRule rule.now }
    requires room { length out.old.items + 40 ≤ out.old.room }
    ensures { out.new ≡ record { items = out.old.items ++ rule_bytes rule.now; room = out.old.room } }
{
    out.extend(&number_of_kind(rule.kind).to_le_bytes());
    out.extend(&number_of_action(rule.allow).to_le_bytes());
    out.extend(&u32::from(rule.rights).to_le_bytes());
    out.extend(&rule.owner.0);
    out.extend(&rule.range.base.to_le_bytes());
    out.extend(&rule.range.length.to_le_bytes());
}

/// The bytes of a policy: its one spelling. One step a rule; the bytes are all the memory that is taken.
pub fn policy_bytes(alloc: Global, policy: &Policy) -> Result<Bytes, NoMemory>
    requires { IsLawfulPolicy policy.now }
    ensures { IfOk result (λ bytes. bytes ≡ spelled policy.now) }
{
    let rules = policy.rules.as_slice();
    let mut out = Room::new(alloc, HEADER_BYTES + RULE_BYTES * rules.len())?;
    put_header(&mut out, policy);
    for rule in rules {
        put_rule(&mut out, rule);
    }
    Ok(out.into_list())
}
