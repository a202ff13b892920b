//! What expressions are judged on.
ghost use Rattle.std.specs.Prelude.{◌≡◌, Bool};
ghost use Rattle.mm_base.specs.declared.guid.Guid.{Guid as GuidValue};

use mm_base::Guid;

/// Whatever knows which protocols are installed.
pub trait Installed {
    /// Whether the protocol with a GUID is installed.
    ghost installed: { Self → GuidValue → Bool };

    /// Whether the protocol with this GUID is installed.
    fn has(&self, guid: Guid) -> bool
        ensures { result ≡ installed self.now guid };
}
