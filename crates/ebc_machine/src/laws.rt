//! Laws of what byte code does over a bus, whatever the bus. The functions do nothing: their contracts are the laws.
ghost use Rattle.std.specs.Prelude.{◌≡◌, ℕ, ◌+◌, Bool, true};
ghost use Rattle.mm_base.specs.Bus.{Meaning};
ghost use Rattle.ebc_machine.specs.declared.regs.Regs.{Regs as RegsValue};
ghost use Rattle.ebc_machine.specs.Invocation.{invoked};
ghost use Rattle.ebc_machine.specs.Laws.{mapped, Carries, Keeps, Leaves, IsDone, RowsAreShort};

/// An instruction takes at most two values, and one that ends in a fault writes nothing.
#[tactic(auto, using(crate::proofs::ShortLemmas::rows_are_short))]
pub fn rows_are_short()
    ensures { RowsAreShort }
{}

/// An invocation goes along with a map of buses with which each of their calls goes along.
#[tactic(auto, using(crate::proofs::CarryLemmas::invoked_along))]
pub fn along<A, B>()
    ensures { (h : A → B) (m : Meaning A) (n : Meaning B) → Carries h m n
        → (fuel : ℕ) (regs : RegsValue) (a : A) → invoked n fuel regs (h a) ≡ mapped h (invoked m fuel regs a) }
{}

/// What each call of a bus keeps, an invocation keeps.
#[tactic(auto, using(crate::proofs::KeepLemmas::test_kept))]
pub fn keeps<A>()
    ensures { (holds : A → Bool) (m : Meaning A) → Keeps (λ a. holds a ≡ true) m
        → (fuel : ℕ) (regs : RegsValue) (a : A) → holds a ≡ true → holds (invoked m fuel regs a).1 ≡ true }
{}

/// What no call of a bus changes, an invocation leaves.
#[tactic(auto, using(crate::proofs::KeepLemmas::invoked_leaves))]
pub fn leaves<A, C>()
    ensures { (h : A → C) (m : Meaning A) → Leaves h m
        → (fuel : ℕ) (regs : RegsValue) (a : A) → h (invoked m fuel regs a).1 ≡ h a }
{}

/// More fuel changes nothing of an invocation that ended otherwise than by its fuel.
#[tactic(auto, using(crate::proofs::FuelLemmas::more_fuel))]
pub fn more_fuel<A>()
    ensures { (m : Meaning A) (fuel more : ℕ) (regs : RegsValue) (a : A) → IsDone (invoked m fuel regs a).0.ended
        → invoked m (fuel + more) regs a ≡ invoked m fuel regs a }
{}
