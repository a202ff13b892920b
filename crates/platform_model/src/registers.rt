//! Saved registers, which are no cells: each entry has its own.
ghost use Rattle.std.specs.Prelude.{◌≡◌, ◌<◌, slice_index};

use mm_base::Saved;

/// The saved register with this number.
pub fn saved(saved: &Saved, register: u64) -> u64
    requires { register < 19 }
    ensures { result ≡ slice_index saved.now.0 register }
{
    saved.0[register as usize]
}
