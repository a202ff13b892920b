//! One check of what is read.
ghost use Rattle.std.specs.Prelude.{◌≡◌, true, false, OnOk, IfErr};

/// Passes one check, or answers the fault that fails it.
pub fn check<F: Copy>(passes: bool, fault: F) -> Result<(), F>
    ensures ok { OnOk result (passes ≡ true) }
    ensures fault { IfErr result (λ found. (passes ≡ false) × (found ≡ fault)) }
{
    if passes {
        return Ok(());
    }
    Err(fault)
}
