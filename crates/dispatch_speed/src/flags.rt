//! A starter that scans nothing.
ghost use Rattle.std.specs.Prelude.{◌≡◌};
ghost use Rattle.dispatch_speed.specs.Numbered.{number_of};

use depex::Installed;
use dispatcher::Starter;
use mm_base::{Guid, NoMemory};
use std::alloc::Global;
use std::marker::Model;

/// Whether the protocol of each number is installed. The driver with a number installs that of its number.
#[derive(Drop)]
pub struct Flags {
    installed: Vec<bool>,
}

impl Model for Flags {
    ghost use Rattle.std.specs.Prelude.{Bool, List};

    ghost Value = { List Bool };

    ghost view = { λ f. f.installed.items };
}

impl Flags {
    /// Nothing is installed yet, of so many protocols.
    pub fn new(alloc: Global, count: u16) -> Result<Flags, NoMemory> {
        let installed = vec![in alloc; false; usize::from(count)]?;
        Ok(Flags { installed })
    }
}

/// The number of a GUID.
fn number(guid: Guid) -> usize
    ensures { result ≡ number_of guid }
{
    usize::from(guid.0[0]) + 256 * usize::from(guid.0[1])
}

impl Installed for Flags {
    ghost use Rattle.dispatch_speed.specs.Numbered.{is_installed};

    ghost installed = { is_installed };

    fn has(&self, guid: Guid) -> bool {
        self.installed.get(number(guid)).copied().unwrap_or(false)
    }
}

impl Starter for Flags {
    ghost use Rattle.std.specs.Prelude.{Bool, List, refl};
    ghost use Rattle.dispatch_speed.specs.Numbered.{after_start, is_installed};

    ghost State = { List Bool };

    ghost state = { λ flags. flags };

    ghost installed_in = { is_installed };

    ghost started = { after_start };

    fn start(&mut self, index: u32, _round: u32) -> Result<(), NoMemory> {
        if (index as usize) < self.installed.len() {
            self.installed[index as usize] = true;
        }
        Ok(())
    }

    ghost agrees = { λ _ _. refl };
}
