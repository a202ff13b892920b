//! An image in memory, and its admission.
ghost use Rattle.std.specs.Prelude.{◌≡◌, ◌+◌, ◌*◌, ◌-◌, ◌<◌, ◌≤◌, ℕ, length, List, OnOk};
ghost use Rattle.mm_base.specs.Numbers.{overwritten};
ghost use Rattle.mm_base.specs.Regions.{pages_filled};
ghost use Rattle.pe_loader.specs.Images.{IsImageOf};
ghost use Rattle.pe_loader.specs.Loading.{IsLoaded};
ghost use Rattle.supervisor_calls.specs.Loading.{with_memory};
ghost use Rattle.driver_start.specs.Hosts.{AreAllLive};
ghost use Rattle.driver_start.specs.Starts.{Loadable, IsLoadable, admitted, service_bytes};
ghost use Rattle.driver_start.specs.StartsInside.{IsRunFor};

use crate::driver::Driver;
use mm_base::{
    Frames, MMRAM, NoMemory, PAGE_BYTES, Region, SERVICES, pages_for, service_entry, service_slot,
};
use pe_loader::place;
use std::alloc::Global;
use supervisor_calls::Tables;

/// The region on the pages of memory from `page` on, for an image of so many bytes.
pub(crate) fn region_on(page: u32, size: u32) -> Region
    requires { page ≤ 8192 }
    ensures { result ≡ record { base = 0x80000000 + 4096 * page; pages = pages_filled size } }
{
    Region {
        base: MMRAM.base + PAGE_BYTES as u64 * page as u64,
        pages: pages_for(size),
    }
}

/// Writes the bytes of an image to the pages from `page` on.
fn load_form<F: Frames>(
    alloc: Global,
    tables: &mut Tables<F>,
    page: u32,
    driver: &Driver,
) -> Result<(), NoMemory>
    requires driver { IsImageOf driver.now.bytes driver.now.image }
    requires run { IsRunFor driver.now.image page }
    requires live { AreAllLive tables.old.pages }
    ensures { (form : List ℕ) → IsLoaded driver.now.bytes (0x80000000 + 4096 * page) form →
        OnOk result (tables.new ≡ with_memory (overwritten tables.old.live.memory (4096 * page) form) tables.old) }
{
    let at = PAGE_BYTES * page;
    let mut form = vec![in alloc; 0u8; driver.image.size as usize]?;
    place(
        driver.bytes,
        &driver.image,
        MMRAM.base + at as u64,
        form.as_mut_slice(),
    );
    tables.load(at, form.as_slice());
    Ok(())
}

/// Writes the addresses of the services to the service page at an address.
fn load_services<F: Frames>(tables: &mut Tables<F>, page: u64)
    requires low { 0x80000000 ≤ page }
    requires high { page + 4096 ≤ 0x82000000 }
    requires live { AreAllLive tables.old.pages }
    ensures { tables.new ≡ with_memory (overwritten tables.old.live.memory (page - 0x80000000) (service_bytes page)) tables.old }
{
    tables.keeps();
    let at = (page - MMRAM.base) as u32;
    for number in 0..SERVICES {
        let entry = service_entry(page, number).to_le_bytes();
        tables.load(at + service_slot(number), &entry);
    }
}

/// Writes the image of a driver and the addresses of its services to the pages from `page` on, and admits it as the last image. It takes
/// memory for the image's bytes, which it gives back, and for what tables keep of an image.
pub(crate) fn place_and_admit<F: Frames + Drop>(
    alloc: Global,
    tables: &mut Tables<F>,
    page: u32,
    driver: &Driver,
) -> Result<(), NoMemory>
    requires driver { IsImageOf driver.now.bytes driver.now.image }
    requires few { length tables.old.site.images < 32 }
    requires run { IsRunFor driver.now.image page }
    requires live { AreAllLive tables.old.pages }
    ensures { (loadable : Loadable) → IsLoadable driver.now loadable → OnOk result (tables.new ≡ admitted loadable page tables.old) }
{
    let region = region_on(page, driver.image.size);
    let parts = driver.parts(alloc)?;
    load_form(alloc, tables, page, driver)?;
    load_services(tables, region.service_page().base);
    let _ = tables.admit(alloc, driver.name, region.base, &driver.image, parts)?;
    Ok(())
}
