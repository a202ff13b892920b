//! The guard: it keeps the policy, and decides each access of an image.
ghost use Rattle.std.specs.Prelude.{◌≡◌, IfOk};
ghost use Rattle.mm_base.specs.Policies.{IsLawfulPolicy};
ghost use Rattle.secure_policy.specs.Verdicts.{Basis, verdict_on};

use crate::place::{Place, locate};
use crate::rules::decide_by_rules;
use mm_base::{Homes, Kind, NoMemory, Policy, Range, Right, Verdict, Why};
use std::alloc::Global;
use std::marker::Model;

/// What decides accesses: a lawful policy.
#[derive(Debug, Drop)]
pub struct Guard {
    policy: Policy,
}

impl Model for Guard {
    ghost use Rattle.mm_base.specs.declared.policy.Policy.{Policy as PolicyValue};
    ghost use Rattle.mm_base.specs.Policies.{IsLawfulPolicy};

    ghost Value = { PolicyValue };

    ghost view = { λ g. g.policy };

    ghost invariant = { λ g. IsLawfulPolicy g.policy };
}

impl Guard {
    /// A guard that decides by this policy.
    pub fn new(alloc: Global, policy: Policy) -> Result<Guard, NoMemory>
        requires { IsLawfulPolicy policy }
        ensures { IfOk result (λ guard. guard ≡ policy) }
    {
        let _ = alloc;
        Ok(Guard { policy })
    }

    /// The policy that it decides by.
    pub fn policy(&self) -> &Policy
        ensures value { result.now ≡ self.now }
        ensures lawful { IsLawfulPolicy result.now }
    {
        &self.policy
    }

    /// The verdict on an access of an image: `n` units of `kind` from `base` on. It rests on the platform's map, then on the image's
    /// own ranges, then on the first rule about the access. `trapped` is the access that the processor was trapped at, 0 where
    /// there is none; no rule asks for it yet. It costs one step a rule, up to the one that decides.
    pub fn decide<H: Homes>(
        &self,
        homes: &H,
        image: u32,
        kind: Kind,
        base: u64,
        n: u8,
        right: Right,
        trapped: u64,
    ) -> Verdict
        ensures { let basis : Basis = record {
          is_home = H.is_home homes.now;
          name_of = H.name_of homes.now;
          rules = self.now.rules;
        } in
            result ≡ verdict_on basis image kind base n right trapped }
    {
        let _ = trapped;
        let access = Range {
            base,
            length: n as u64,
        };
        match locate(kind, &access) {
            Place::Nowhere => Verdict::Deny(Why::Range),
            Place::Mmram if homes.home(image, access, right) => Verdict::Pass(Why::Home),
            Place::Mmram => Verdict::Deny(Why::Mmram),
            Place::LaneWindow => Verdict::Deny(Why::Buffer),
            Place::Cells => {
                let name = homes.owner(image);
                decide_by_rules(self.policy.rules.as_slice(), name, kind, &access, right)
            }
        }
    }
}
