//! Services of an image's reserve of pages.
ghost use Rattle.std.specs.Prelude.{◌≡◌};
ghost use Rattle.supervisor_calls.specs.Services.{page_allocation, page_release, region_in};
ghost use Rattle.supervisor_calls.specs.ServicesInside.{Does};

use crate::domain::Domain;
use mm_base::status::{INVALID_PARAMETER, NOT_FOUND, OUT_OF_RESOURCES, SUCCESS};
use mm_base::{Frames, PAGE_BYTES, Served};

impl<F: Frames> Domain<F> {
    /// Gives a run of `pages` pages of the image's reserve, whose bytes stay as they are.
    pub(crate) fn allocate_pages(&mut self, pages: u64, out: u64) -> Result<u64, Served>
        ensures { Does (page_allocation (region_in self.old) pages out) self.old result self.new }
    {
        if pages == 0 {
            return Ok(INVALID_PARAMETER);
        }
        self.ask_out(out)?;
        let reserve = self.region().reserve();
        match self.tables.take_run(self.image, pages) {
            Some(start) => {
                let address = reserve.base + PAGE_BYTES as u64 * start as u64;
                Ok(self.give(out, address))
            }
            None => Ok(OUT_OF_RESOURCES),
        }
    }

    /// Clears `pages` pages of the image's reserve from an address on, and takes them back.
    pub(crate) fn free_pages(&mut self, address: u64, pages: u64) -> Result<u64, Served>
        ensures { Does (page_release (region_in self.old) address pages) self.old result self.new }
    {
        if pages == 0 || address % PAGE_BYTES as u64 != 0 {
            return Ok(INVALID_PARAMETER);
        }
        self.tables.keeps();
        let base = self.region().reserve().base;
        if self.tables.give_run(self.image, base, address, pages) {
            Ok(SUCCESS)
        } else {
            Ok(NOT_FOUND)
        }
    }
}
