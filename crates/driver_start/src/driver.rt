//! A driver that may be started.
ghost use Rattle.std.specs.Prelude.{◌≡◌, IfOk};
ghost use Rattle.pe_loader.specs.Images.{IsImageOf};
ghost use Rattle.pe_loader.specs.Sections.{parts as parts_told};

use mm_base::{Guid, Image, List, NoMemory, Part};
use pe_loader::part;
use std::alloc::Global;
use std::marker::Model;

/// A driver that may be started.
#[derive(Drop)]
pub struct Driver<'a> {
    /// Its name.
    pub name: Guid,
    /// The bytes of its image, as they stand in a file.
    pub bytes: &'a [u8],
    /// What its image says.
    pub image: Image,
}

impl<'a> Model for Driver<'a> {
    ghost use Rattle.driver_start.specs.Starts.{DriverState};

    ghost Value = { DriverState };

    ghost view = { λ driver. record { name = driver.name; bytes = driver.bytes.now; image = driver.image } };
}

impl<'a> Driver<'a> {
    /// The sections of its image, in the order of their table.
    pub(crate) fn parts(&self, alloc: Global) -> Result<List<Part>, NoMemory>
        requires { IsImageOf self.now.bytes self.now.image }
        ensures { IfOk result (λ parts. parts ≡ parts_told self.now.bytes) }
    {
        let mut parts = List::new(alloc);
        for k in 0..self.image.parts {
            parts.push(part(self.bytes, &self.image, k))?;
        }
        Ok(parts)
    }
}
