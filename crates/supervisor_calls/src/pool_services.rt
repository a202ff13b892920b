//! Services of an image's pool.
ghost use Rattle.std.specs.Prelude.{◌≡◌};
ghost use Rattle.supervisor_calls.specs.Services.{pool_allocation, pool_release, region_in};
ghost use Rattle.supervisor_calls.specs.ServicesInside.{Does};

use crate::domain::Domain;
use mm_base::status::{INVALID_PARAMETER, NOT_FOUND, OUT_OF_RESOURCES, SUCCESS};
use mm_base::{Frames, Served};

impl<F: Frames> Domain<F> {
    /// Gives a block of the image's pool for `size` bytes.
    pub(crate) fn allocate_pool(&mut self, size: u64, out: u64) -> Result<u64, Served>
        ensures { Does (pool_allocation (region_in self.old) size out) self.old result self.new }
    {
        if size == 0 {
            return Ok(INVALID_PARAMETER);
        }
        self.ask_out(out)?;
        let arena = self.region().pool();
        match self.tables.take_block(self.image, size) {
            Some(place) => Ok(self.give(out, arena.base + place as u64)),
            None => Ok(OUT_OF_RESOURCES),
        }
    }

    /// Frees the block of the image's pool that begins at an address.
    pub(crate) fn free_pool(&mut self, address: u64) -> Result<u64, Served>
        ensures { Does (pool_release (region_in self.old) address) self.old result self.new }
    {
        let arena = self.region().pool();
        if self.tables.free_block(self.image, arena.base, address) {
            Ok(SUCCESS)
        } else {
            Ok(NOT_FOUND)
        }
    }
}
