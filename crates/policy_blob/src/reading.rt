//! How a policy is read.
ghost use Rattle.std.specs.Prelude.{◌≡◌, ◌⊎◌, ◌+◌, ◌*◌, ◌≤◌, ◌==◌, ◌++◌, ◌∷◌, [], length, take, drop, nat_le, ◌&&◌, true, false, None, Ok, Err, IfOk, OnOk, IfErr};
ghost use Rattle.mm_base.specs.Checks.{first_failing};
ghost use Rattle.mm_base.specs.End.{EndsBy, out_of_memory};
ghost use Rattle.mm_base.specs.declared.end.End.TheVariants.{Fault as FaultOf, NoMemory as OutOfMemory};
ghost use Rattle.mm_base.specs.declared.policy.Policy.{Policy as PolicyValue};
ghost use Rattle.mm_base.specs.declared.policy.PolicyFault.{PolicyFault as PolicyFaultValue};
ghost use Rattle.policy_blob.specs.Faults.{HasFault, header_checks, rule_checks, checks_of_rules, rule_count, rules_end, fuel_said as fuel_of};
ghost use Rattle.std.specs.Str.{bytes_eq};
ghost use Rattle.mm_base.specs.Numbers.{number_in};
ghost use Rattle.policy_blob.specs.Faults.{is_kind, are_rights, is_range, kind_said, action_said, rights_said, base_said, length_said};
ghost use Rattle.mm_base.specs.declared.policy.PolicyKind.TheVariants as kinds;
ghost use Rattle.policy_blob.specs.ReadingInside.{IsFirstOf, Says, AreRules};
ghost use Rattle.policy_blob.specs.Spelling.{kind_number, action_number, signature, IsPolicy};

use crate::field::{action_of, kind_of, range_of, rights_of};
use crate::layout::{HEADER_BYTES, MOST_FUEL, MOST_RULES, RULE_BYTES, SIGNATURE, VERSION};
use mm_base::{
    End, Guid, Kind, List, Policy, PolicyFault, PolicyKind, Range, Rule, check, guid_at, number_at,
    stands_at,
};
use std::alloc::Global;

/// Why bytes were not read as a policy: their first fault, or out of memory.
pub type PolicyEnd = End<PolicyFault>;

/// A fault of this kind at a place.
fn fault(at: usize, kind: PolicyKind) -> PolicyFault
    requires { at ≤ 33554432 }
    ensures { result ≡ record { at = at; kind = kind } }
{
    PolicyFault {
        at: at as u32,
        kind,
    }
}

/// How many rules the header says that there are.
fn rules_said(bytes: &[u8]) -> usize
    requires { 16 ≤ length bytes.now }
    ensures { result ≡ rule_count bytes.now }
{
    number_at(bytes, 8, 4) as usize
}

/// The fuel that the header says.
fn fuel_said(bytes: &[u8]) -> u32
    requires header { 16 ≤ length bytes.now }
    requires most { fuel_of bytes.now ≤ 1000000 }
    ensures { result ≡ fuel_of bytes.now }
{
    number_at(bytes, 12, 4) as u32
}

/// Whether a policy's signature stands in its place.
fn has_signature(bytes: &[u8]) -> bool
    requires { 16 ≤ length bytes.now }
    ensures { result ≡ bytes_eq (take 4 bytes.now) signature }
{
    stands_at(bytes, 0, &SIGNATURE)
}

/// Whether the version is the one that is read.
fn has_version(bytes: &[u8]) -> bool
    requires { 16 ≤ length bytes.now }
    ensures { result ≡ (number_in bytes.now 4 2 == 1) }
{
    number_at(bytes, 4, 2) == VERSION as u64
}

/// Whether the reserved field is 0.
fn keeps_reserved(bytes: &[u8]) -> bool
    requires { 16 ≤ length bytes.now }
    ensures { result ≡ (number_in bytes.now 6 2 == 0) }
{
    number_at(bytes, 6, 2) == 0
}

/// Whether there are no more rules than may be.
fn count_fits(bytes: &[u8]) -> bool
    requires { 16 ≤ length bytes.now }
    ensures { result ≡ nat_le (rule_count bytes.now) 1024 }
{
    number_at(bytes, 8, 4) <= MOST_RULES
}

/// Whether the fuel is one that a policy may give.
fn fuel_fits(bytes: &[u8]) -> bool
    requires { 16 ≤ length bytes.now }
    ensures { result ≡ (nat_le 1 (fuel_of bytes.now) && nat_le (fuel_of bytes.now) 1000000) }
{
    let fuel = number_at(bytes, 12, 4);
    1 <= fuel && fuel <= MOST_FUEL
}

/// Where the rules end.
fn end_of_rules(bytes: &[u8]) -> usize
    requires header { 16 ≤ length bytes.now }
    requires few { rule_count bytes.now ≤ 1024 }
    ensures { result ≡ rules_end bytes.now }
{
    HEADER_BYTES + RULE_BYTES * rules_said(bytes)
}

/// Whether all rules are there.
fn rules_fit(bytes: &[u8]) -> bool
    requires header { 16 ≤ length bytes.now }
    requires few { rule_count bytes.now ≤ 1024 }
    ensures { result ≡ nat_le (rules_end bytes.now) (length bytes.now) }
{
    end_of_rules(bytes) <= bytes.len()
}

/// Checks the header of a policy, in order.
fn check_header(bytes: &[u8]) -> Result<(), PolicyFault>
    requires { length bytes.now ≤ 16777216 }
    ensures ok { OnOk result (first_failing (header_checks bytes.now) ≡ None) }
    ensures fault { IfErr result (IsFirstOf (header_checks bytes.now)) }
{
    let length = bytes.len();
    check(HEADER_BYTES <= length, fault(length, PolicyKind::Short))?;
    check(has_signature(bytes), fault(0, PolicyKind::Magic))?;
    check(has_version(bytes), fault(4, PolicyKind::Version))?;
    check(keeps_reserved(bytes), fault(6, PolicyKind::Reserved))?;
    check(count_fits(bytes), fault(8, PolicyKind::Count))?;
    check(fuel_fits(bytes), fault(12, PolicyKind::Fuel))?;
    check(rules_fit(bytes), fault(length, PolicyKind::Short))
}

/// The owner of a rule, by its bytes.
fn owner_of(bytes: &[u8]) -> Guid
    requires { length bytes.now ≡ 40 }
    ensures { result.0 ≡ take 16 (drop 8 bytes.now) }
{
    guid_at(bytes, 8).unwrap()
}

/// The kind of a rule, whose bytes stand at a place of the policy.
fn read_kind(bytes: &[u8], at: usize) -> Result<Kind, PolicyFault>
    requires whole { length bytes.now ≡ 40 }
    requires near { at ≤ 16777216 }
    ensures ok { IfOk result (λ kind. kind_number kind ≡ kind_said bytes.now) }
    ensures passes { OnOk result (is_kind (kind_said bytes.now) ≡ true) }
    ensures fault { IfErr result (λ found. (is_kind (kind_said bytes.now) ≡ false) × (found ≡ record { at = at; kind = kinds.Kind })) }
{
    match kind_of(number_at(bytes, 0, 2)) {
        Some(kind) => Ok(kind),
        None => Err(fault(at, PolicyKind::Kind)),
    }
}

/// Whether a rule allows.
fn read_action(bytes: &[u8], at: usize) -> Result<bool, PolicyFault>
    requires whole { length bytes.now ≡ 40 }
    requires near { at ≤ 16777216 }
    ensures ok { IfOk result (λ allow. action_number allow ≡ action_said bytes.now) }
    ensures passes { OnOk result (nat_le (action_said bytes.now) 1 ≡ true) }
    ensures fault { IfErr result (λ found. (nat_le (action_said bytes.now) 1 ≡ false) × (found ≡ record { at = at + 2; kind = kinds.Action })) }
{
    match action_of(number_at(bytes, 2, 2)) {
        Some(allow) => Ok(allow),
        None => Err(fault(at + 2, PolicyKind::Action)),
    }
}

/// The rights of a rule that allows, or doesn't.
fn read_rights(bytes: &[u8], at: usize, allow: bool) -> Result<u8, PolicyFault>
    requires whole { length bytes.now ≡ 40 }
    requires near { at ≤ 16777216 }
    ensures ok { IfOk result (λ rights. rights ≡ rights_said bytes.now) }
    ensures passes { OnOk result (are_rights allow (rights_said bytes.now) ≡ true) }
    ensures fault { IfErr result (λ found. (are_rights allow (rights_said bytes.now) ≡ false) × (found ≡ record { at = at + 4; kind = kinds.Rights })) }
{
    match rights_of(allow, number_at(bytes, 4, 4)) {
        Some(rights) => Ok(rights),
        None => Err(fault(at + 4, PolicyKind::Rights)),
    }
}

/// The range of a rule.
fn read_range(bytes: &[u8], at: usize) -> Result<Range, PolicyFault>
    requires whole { length bytes.now ≡ 40 }
    requires near { at ≤ 16777216 }
    ensures ok { IfOk result (λ range. range ≡ record { base = base_said bytes.now; length = length_said bytes.now }) }
    ensures passes { OnOk result (is_range (base_said bytes.now) (length_said bytes.now) ≡ true) }
    ensures fault { IfErr result (λ found. (is_range (base_said bytes.now) (length_said bytes.now) ≡ false) × (found ≡ record { at = at + 32; kind = kinds.Length })) }
{
    match range_of(number_at(bytes, 24, 8), number_at(bytes, 32, 8)) {
        Some(range) => Ok(range),
        None => Err(fault(at + 32, PolicyKind::Length)),
    }
}

/// The rule in these 40 bytes, which stand at a place of the policy.
fn read_rule(bytes: &[u8], at: usize) -> Result<Rule, PolicyFault>
    requires whole { length bytes.now ≡ 40 }
    requires near { at ≤ 16777216 }
    ensures says { IfOk result (Says bytes.now) }
    ensures ok { OnOk result (first_failing (rule_checks at bytes.now) ≡ None) }
    ensures fault { IfErr result (IsFirstOf (rule_checks at bytes.now)) }
{
    let kind = read_kind(bytes, at)?;
    let allow = read_action(bytes, at)?;
    let rights = read_rights(bytes, at, allow)?;
    let range = read_range(bytes, at)?;
    Ok(Rule {
        kind,
        allow,
        rights,
        owner: owner_of(bytes),
        range,
    })
}

/// So many rules, which stand one after another behind the header; linear in them.
fn read_rules(alloc: Global, bytes: &[u8], count: usize) -> Result<List<Rule>, PolicyEnd>
    requires there { 40 * count ≤ length bytes.now }
    requires few { length bytes.now ≤ 16777216 }
    ensures rules { IfOk result (AreRules (take (40 * count) bytes.now)) }
    ensures count { IfOk result (λ rules. length rules ≡ count) }
    ensures ok { OnOk result (first_failing (checks_of_rules 16 count bytes.now) ≡ None) }
    ensures fault { IfErr result (EndsBy (IsFirstOf (checks_of_rules 16 count bytes.now))) }
{
    let mut rules = List::new(alloc);
    let mut rest = bytes;
    for k in 0..count {
        let (rule, behind) = rest.split_at(RULE_BYTES);
        let at = HEADER_BYTES + RULE_BYTES * k;
        rules.push(read_rule(rule, at).map_err(End::Fault)?)?;
        rest = behind;
    }
    Ok(rules)
}

/// The policy in these bytes, or what they are refused for.
fn read_whole(alloc: Global, bytes: &[u8]) -> Result<Policy, PolicyEnd>
    requires { length bytes.now ≤ 16777216 }
    ensures policy { IfOk result (IsPolicy bytes.now) }
    ensures fault { IfErr result (EndsBy (HasFault bytes.now)) }
{
    check_header(bytes).map_err(End::Fault)?;
    let count = rules_said(bytes);
    let (_, behind) = bytes.split_at(HEADER_BYTES);
    let rules = read_rules(alloc, behind, count)?;
    let end = end_of_rules(bytes);
    check(bytes.len() == end, fault(end, PolicyKind::Trailing)).map_err(End::Fault)?;
    Ok(Policy {
        rules,
        fuel: fuel_said(bytes),
    })
}

/// The policy that these bytes are, or their first fault, counted from their front. One pass over the bytes, and the list of rules is
/// all the memory that is taken.
pub fn read_policy(alloc: Global, bytes: &[u8]) -> Result<Policy, PolicyEnd>
    requires { length bytes.now ≤ 16777216 }
    ensures policy { IfOk result (IsPolicy bytes.now) }
    ensures fault { IfErr result (EndsBy (HasFault bytes.now)) }
    ensures found { (policy : PolicyValue) → IsPolicy bytes.now policy
        → (result ≡ Ok policy) ⊎ (result ≡ Err (OutOfMemory out_of_memory)) }
    ensures first { (fault : PolicyFaultValue) → HasFault bytes.now fault
        → (result ≡ Err (FaultOf fault)) ⊎ (result ≡ Err (OutOfMemory out_of_memory)) }
{
    read_whole(alloc, bytes)
}
